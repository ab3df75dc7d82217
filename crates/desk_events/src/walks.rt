//! Walks, which compose groups anew.

ghost use Rattle.std.specs.Prelude.{◌≡◌, ◌↔◌, IsTrue, OnErr, IfOk, IfSome, IfNone, Some, false, slice_get};
ghost use Rattle.std.specs.List.{AllByRecursion};
ghost use Rattle.machine_model.specs.State.{Slot, head_stroke, Free};
ghost use Rattle.machine_model.specs.Guards.{is_exclusive};
ghost use Rattle.machine_model.specs.Event.{WalkStart};
ghost use Rattle.machine_model.specs.Step.{Step};
ghost use Rattle.machine_model.specs.Walking.{IsGroupOf};
ghost use Rattle.machine_model.specs.Walks.{walk_shot};
ghost use Rattle.walker_core.specs.Readings.{readings};
ghost use Rattle.desk_state.specs.Choices.{WalksWait, CanWalk};
ghost use Rattle.desk_events.specs.AtWork.{WalksAs, patch_of};
ghost use Rattle.desk_events.specs.Tickets.{IsWalkTicket};

use crate::machine::Machine;
use crate::tickets::{SlotId, WalkTicket};
use desk_state::{Newest, Walker, Work};
use doc_model::{Patch, Walk};
use geom_core::NoMemory;
use slot_work::gather;
use walker_core::Inputs;

impl Machine {
    /// A place in which a patch may be walked. None exactly where none may.
    pub fn walk_place(&self) -> Option<u8>
        ensures some { IfSome result (CanWalk self.now) }
        ensures none { IfNone result (WalksWait self.now) }
    {
        if self.is_exclusive() {
            return None;
        }
        match self.free_place() {
            Some(place) => self.walk_at(place),
            None => None,
        }
    }

    /// The free place, where a patch may be walked. None exactly where none may.
    fn walk_at(&self, place: u8) -> Option<u8>
        requires free { slice_get self.now.slots place ≡ Some Free }
        requires shared { is_exclusive (head_stroke self.now) self.now.way ≡ false }
        ensures some { IfSome result (CanWalk self.now) }
        ensures none { IfNone result (WalksWait self.now) }
    {
        let running = self.slots.running();
        match self.updates.peek(running.as_slice()) {
            Some(_) => Some(place),
            None => None,
        }
    }

    /// Whether an exclusive stroke is under way.
    fn is_exclusive(&self) -> bool
        ensures { result ≡ is_exclusive (head_stroke self.now) self.now.way }
    {
        match self.head_stroke() {
            Some(head) => head.exclusive && self.way.is_some(),
            None => false,
        }
    }

    /// The patch of the walk in a slot. None exactly where no walk is at work in it.
    pub fn walk_patch(&self, place: u8) -> Option<Patch>
        ensures { result ≡ patch_of (slice_get self.now.slots place) }
    {
        match self.slots.work(place) {
            Some(Work::Walk(walker)) => Some(walker.inputs.patch()),
            Some(Work::Paint(_)) => None,
            None => None,
        }
    }

    /// Whether all walks at work are of that sort.
    pub fn all_walk(&self, walk: Walk) -> bool
        ensures { IsTrue result ↔ AllByRecursion (WalksAs walk) self.now.slots }
    {
        for place in 0..self.slots.count() {
            if !self.walks_as(place, walk) {
                return false;
            }
        }
        true
    }

    /// Whether no walk of another sort is at work in a slot.
    fn walks_as(&self, place: u8, walk: Walk) -> bool
        ensures { (slot : Slot) → slice_get self.now.slots place ≡ Some slot
            → (IsTrue result ↔ WalksAs walk slot) }
    {
        match self.slots.work(place) {
            Some(Work::Walk(walker)) => walker.inputs.patch().walk == walk,
            Some(Work::Paint(_)) => true,
            None => true,
        }
    }

    /// The next serial.
    pub fn next_serial(&self) -> u64
        ensures { result ≡ self.now.next }
    {
        self.next
    }

    /// Starts a walk of the first patch that meets no other walk.
    ///
    /// # Errors
    /// `NoMemory`; all is as it was.
    pub fn start_walk(&mut self, place: u8) -> Result<WalkTicket, NoMemory>
        requires { CanWalk self.old place }
        ensures ok { IfOk result (λ t.
            Step self.old (WalkStart t.slot.place t.inputs.patch) self.new) }
        ensures ticket { IfOk result (λ t. IsWalkTicket t self.new) }
        ensures err { OnErr result (self.new ≡ self.old) }
    {
        let running = self.slots.running();
        let Some(patch) = self.updates.peek(running.as_slice()) else {
            unreachable!()
        };
        let kept = self.inputs_of(&patch)?;
        let inputs = kept.share()?;
        let _patch = self.updates.take(running.as_slice());
        let serial = self.next;
        let walker = Walker {
            serial,
            inputs: kept,
            published: Newest::new(self.alloc),
        };
        self.slots.put(place, Work::Walk(walker), Some(patch.rect));
        self.next += 1;
        Ok(WalkTicket {
            slot: SlotId { place, serial },
            inputs,
        })
    }

    /// What a walk of the patch reads.
    ///
    /// # Errors
    /// `NoMemory`.
    fn inputs_of(&self, patch: &Patch) -> Result<Inputs, NoMemory>
        requires { IsGroupOf self.now.present patch.now.walk }
        ensures { IfOk result (λ r. r ≡ readings patch.now (walk_shot self.now patch.now)) }
    {
        gather(self.alloc, &self.store, self.filmed.caches(), *patch)
    }
}
