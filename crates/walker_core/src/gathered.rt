//! What a walk reads, while it is gathered.

ghost use Rattle.std.specs.Prelude.{◌≡◌, OnOk, OnErr};
ghost use Rattle.paint_device.specs.Seen.{layer_of};
ghost use Rattle.walker_core.specs.Readings.{readings, path_in, childless, child_on, with_child};

use crate::paths::Path;
use doc_model::{Look, Patch};
use geom_core::NoMemory;
use paint_device::Device;
use std::alloc::Global;
use std::marker::Model;
use tile_core::Shot;

/// A child of a group: its look, and its pixels on the patch.
#[derive(Drop)]
pub(crate) struct Source {
    /// The group in which it stands.
    pub group: u16,
    pub id: u16,
    pub look: Look,
    pub shot: Shot,
}

/// A patch, the groups that a walk of it composes, each after those in it, and for each of them its
/// children from the bottom, with their looks and their pixels on the patch. Tiles are shared, and
/// no pixel is copied.
#[derive(Drop)]
pub struct Gathered {
    patch: Patch,
    path: Path,
    sources: Vec<Source>,
}

impl Model for Gathered {
    ghost use Rattle.walker_core.specs.Readings.{Readings, readings_code};

    ghost Value = { Readings };

    ghost coded = { readings_code };

    ghost use Rattle.walker_core.specs.Views.{shown_by};

    ghost view = { shown_by };
}

impl Gathered {
    /// The patch and the groups of a walk, none of which has a child yet.
    pub fn new(alloc: Global, patch: Patch, path: Path) -> Gathered
        ensures { result ≡ readings patch (childless path.items) }
    {
        Gathered {
            patch,
            path,
            sources: Vec::new(alloc),
        }
    }

    /// One more child on top of the others of the group, with the layer's pixels on the patch. Where
    /// the walk doesn't compose the group, nothing is added.
    pub fn add_child(
        &mut self,
        alloc: Global,
        group: u16,
        id: u16,
        look: Look,
        layer: &Device,
    ) -> Result<(), NoMemory>
        ensures ok { OnOk result (self.new ≡ with_child self.old group
            (child_on self.old.patch.rect id look (layer_of layer.now))) }
        ensures err { OnErr result (self.new ≡ self.old) }
    {
        let shot = layer.grab(alloc, &[self.patch.rect])?;
        let source = Source {
            group,
            id,
            look,
            shot,
        };
        self.sources.push(source)?;
        Ok(())
    }

    /// The patch.
    pub(crate) fn patch(&self) -> Patch
        ensures { result ≡ self.now.patch }
    {
        self.patch
    }

    /// The groups that the walk composes, each after those in it.
    pub(crate) fn path(&self) -> &[u16]
        ensures { result.now ≡ path_in self.now }
    {
        self.path.as_slice()
    }

    ghost use Rattle.walker_core.specs.Views.{groups_of};

    /// The children of all groups.
    pub(crate) fn sources(&self) -> &[Source]
        ensures { self.now.groups ≡ groups_of self.now.patch.rect result.now (path_in self.now) }
    {
        &self.sources
    }
}
