//! A walk at work.

ghost use Rattle.std.specs.Prelude.{◌≡◌, true, false, IfOk, Ok, OnOk, map};
ghost use Rattle.std.specs.List.{list_any, list_all};
ghost use Rattle.trace_state.specs.Tiles.{has_all};
ghost use Rattle.geom_core.specs.Grid.{keys_of};
ghost use Rattle.geom_core.specs.Keys.{IsWorldKey};
ghost use Rattle.trace_state.specs.Walking.{unpublished, lacks, noted, lacks_pair, with_pair, is_composed};

use crate::group::WalkedGroup;
use crate::tiles::{has_all, is_tile_of};
use doc_model::Patch;
use geom_core::{NoMemory, Rect, TileKey};
use memento_core::KeySet;
use std::alloc::Global;
use std::marker::Model;

/// A walk at work, without pixels: its patch, and the groups that it composes, each with its tiles that are published.
#[derive(Drop)]
pub struct OutlinedWalk {
    patch: Patch,
    groups: Vec<WalkedGroup>,
}

impl Model for OutlinedWalk {
    ghost use Rattle.trace_state.specs.Walking.{Walking, walking_code};

    ghost Value = { Walking };

    ghost coded = { walking_code };

    ghost view = { λ w. record { patch = w.patch; groups = w.groups.items } };
}

/// The groups of a path, of which no tile is published.
fn unpublished_groups(alloc: Global, path: &[u16]) -> Result<Vec<WalkedGroup>, NoMemory>
    ensures { IfOk result (λ groups. groups.items ≡ map unpublished path.now) }
{
    let mut groups = Vec::new(alloc);
    for group in path {
        groups.push(WalkedGroup {
            group: *group,
            published: KeySet::new(alloc),
        })?;
    }
    Ok(groups)
}

/// Notes the tile of the group as published. Answers whether it wasn't noted yet.
fn note_pair(groups: &mut [WalkedGroup], group: u16, key: TileKey) -> Result<bool, NoMemory>
    requires { IsWorldKey key }
    ensures noted { OnOk result (groups.new ≡ map (noted group key) groups.old) }
    ensures new { IfOk result (λ new. new ≡ list_any (lacks group key) groups.old) }
{
    let mut new = false;
    for i in 0..groups.len() {
        let lacked = groups[i].note(group, key)?;
        new = new || lacked;
    }
    Ok(new)
}

/// Whether all tiles of the rectangle are published of all groups.
fn each_has(groups: &[WalkedGroup], rect: &Rect) -> bool
    ensures { result ≡ list_all (λ c. has_all c.published (keys_of rect.now)) groups.now }
{
    groups.iter().all(|c| has_all(&c.published, rect))
}

impl OutlinedWalk {
    /// A walk of a patch over the groups of a path, of which no tile is published.
    pub fn new(alloc: Global, patch: Patch, path: &[u16]) -> Result<OutlinedWalk, NoMemory>
        ensures { IfOk result (λ w. w ≡ record {
          patch = patch;
          groups = map unpublished path.now;
        }) }
    {
        let groups = unpublished_groups(alloc, path)?;
        Ok(OutlinedWalk { patch, groups })
    }

    /// Its patch.
    pub fn patch(&self) -> Patch
        ensures { result ≡ self.now.patch }
    {
        self.patch
    }

    /// Publishes a tile of a group. False where the walk doesn't compose it, or it is published.
    pub fn publish(&mut self, group: u16, key: TileKey) -> Result<bool, NoMemory>
        requires { IsWorldKey key }
        ensures may { IfOk result (λ may. may ≡ lacks_pair self.old group key) }
        ensures published { result ≡ Ok true → self.new ≡ with_pair self.old group key }
        ensures same { result ≡ Ok false → self.new ≡ self.old }
    {
        if !is_tile_of(&self.patch.rect, key) {
            return Ok(false);
        }
        note_pair(&mut self.groups, group, key)
    }

    /// Whether all tiles of all groups are published.
    pub fn is_composed(&self) -> bool
        ensures { result ≡ is_composed self.now }
    {
        each_has(&self.groups, &self.patch.rect)
    }
}
