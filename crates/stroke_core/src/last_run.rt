//! The footprints of a stroke's last run, in a block of their own.

ghost use Rattle.std.specs.Prelude.{◌≡◌, ◌++◌, ◌∷◌, [], OnOk, OnErr, IfOk, position};

use crate::footprint::{Footprint, Footprints};
use std::alloc::{AllocError, Global};
use std::marker::Model;

/// The footprints of the jobs of a stroke's last run.
///
/// Their lists stand in a block of their own, which is taken with the first footprint: so a stroke
/// with no job that may stand in a run, of which many may be open at once, is small.
#[derive(Drop)]
pub(crate) struct LastRun {
    alloc: Global,
    footprints: Option<Box<Footprints>>,
}

impl Model for LastRun {
    ghost use Rattle.std.specs.Prelude.{List, [], option_map, unwrap_or};
    ghost use Rattle.std.specs.Box.{box_value};
    ghost use Rattle.stroke_core.specs.Marks.{Marks};

    ghost Value = { List Marks };

    ghost view = { λ r. unwrap_or (option_map box_value r.footprints) [] };
}

impl LastRun {
    ghost use Rattle.stroke_core.specs.Marks.{marks_clash};

    /// No footprint, and no block yet.
    pub(crate) fn new(alloc: Global) -> LastRun
        ensures { result ≡ [] }
    {
        LastRun {
            alloc,
            footprints: None,
        }
    }

    /// Adds one at the end.
    pub(crate) fn push(&mut self, footprint: Footprint) -> Result<(), AllocError>
        ensures ok { OnOk result (self.new ≡ self.old ++ footprint ∷ []) }
        ensures err { OnErr result (self.new ≡ self.old) }
    {
        match &mut self.footprints {
            Some(footprints) => footprints.push(footprint),
            None => {
                self.footprints = Some(begun(self.alloc, footprint)?);
                Ok(())
            }
        }
    }

    /// Forgets all of them. Their block stays for others.
    pub(crate) fn clear(&mut self)
        ensures { self.new ≡ [] }
    {
        match &mut self.footprints {
            Some(footprints) => footprints.clear(),
            None => {}
        }
    }

    /// The place of the first that clashes with a new one.
    pub(crate) fn first_clash(&self, new: &Footprint) -> Option<usize>
        ensures { result ≡ position (λ f. marks_clash f new.now) self.now }
    {
        match &self.footprints {
            Some(footprints) => footprints.first_clash(new),
            None => None,
        }
    }
}

/// A block with that footprint alone.
fn begun(alloc: Global, footprint: Footprint) -> Result<Box<Footprints>, AllocError>
    ensures { IfOk result (λ b. b.value ≡ footprint ∷ []) }
{
    let mut footprints = Box::new(alloc, Footprints::new(alloc))?;
    footprints.push(footprint)?;
    Ok(footprints)
}
