//! Walks at work.

ghost use Rattle.std.specs.Prelude.{◌≡◌, ◌<◌, length, IfSome, IfNone};
ghost use Rattle.geom_core.specs.Keys.{IsWorldKey};
ghost use Rattle.machine_model.specs.Next.{same_area, same_patch, place_of};
ghost use Rattle.trace_core.specs.Parts.{parts};
ghost use Rattle.trace_core.specs.Moves.{Follows, is_exclusive, may_walk, walk_started, composed};
ghost use Rattle.entry_queue.specs.Heads.{head_in};

use crate::machine::OutlinedMachine;
use doc_model::Patch;
use geom_core::{NoMemory, Rect, TileKey};
use trace_state::{OutlinedWalk, Slot, fill, some_meets};
use update_queue::Updates;

/// Whether the rectangles are one.
fn same_area(a: &Rect, b: &Rect) -> bool
    ensures { result ≡ same_area a.now b.now }
{
    (a.x() == b.x() && a.y() == b.y()) && (a.w() == b.w() && a.h() == b.h())
}

/// Whether the patches are one.
fn same_patch(a: &Patch, b: &Patch) -> bool
    ensures { result ≡ same_patch a.now b.now }
{
    a.walk == b.walk && same_area(&a.rect, &b.rect)
}

/// The place of the patch among those that wait, from 0. None exactly where it doesn't.
fn place_of(updates: &Updates, patch: &Patch) -> Option<usize>
    ensures some { IfSome result (λ i. i ≡ place_of patch.now updates.now.patches) }
    ensures within { IfSome result (λ i. i < length updates.now.patches) }
    ensures none { IfNone result (place_of patch.now updates.now.patches
        ≡ length updates.now.patches) }
{
    for i in 0..updates.len() {
        if same_patch(patch, &updates.patch(i)) {
            return Some(i);
        }
    }
    None
}

impl OutlinedMachine {
    /// Whether an exclusive stroke is under way.
    fn is_exclusive(&self) -> bool
        ensures { result ≡ is_exclusive (head_in self.now.intake.left) self.now.way }
    {
        match (self.intake.head(), self.way) {
            (Some(head), Some(_)) => head.exclusive,
            _ => false,
        }
    }

    /// Whether a walk of the rectangle may start.
    fn may_walk(&self, rect: &Rect) -> bool
        ensures { result ≡ may_walk (parts self.now) rect.now }
    {
        !self.is_exclusive() && !some_meets(&self.slots, rect)
    }

    /// A walk of the patch starts in the slot.
    pub(crate) fn walk(&mut self, place: u8, patch: &Patch) -> Result<bool, NoMemory>
        ensures { Follows result (walk_started (parts self.old) place patch.now) (parts self.old)
            (parts self.new) }
    {
        if !self.is_free(place) {
            return Ok(false);
        }
        let Some(i) = place_of(&self.updates, patch) else {
            return Ok(false);
        };
        let patch = self.updates.patch(i);
        if !self.may_walk(&patch.rect) {
            return Ok(false);
        }
        let path = self.history.path(self.alloc, patch.walk)?;
        let walker = OutlinedWalk::new(self.alloc, patch, &path)?;
        let _patch = self.updates.take_at(i);
        fill(&mut self.slots, place, Slot::Walks(walker));
        Ok(true)
    }

    /// A tile of a group is composed by the walk in the slot.
    pub(crate) fn put(&mut self, place: u8, group: u16, key: TileKey) -> Result<bool, NoMemory>
        requires { IsWorldKey key }
        ensures { Follows result (composed (parts self.old) place group key) (parts self.old)
            (parts self.new) }
    {
        let i = place as usize;
        if i >= self.slots.len() {
            return Ok(false);
        }
        self.slots[i].put(group, key)
    }
}
