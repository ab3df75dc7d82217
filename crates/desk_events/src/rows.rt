//! A tile of a walk that was composed outside is laid of all its groups.

ghost use Rattle.std.specs.Prelude.{◌≡◌, ◌↔◌, true, false, IsTrue, OnOk, OnErr};
ghost use Rattle.machine_model.specs.Step.{Run};
ghost use Rattle.desk_events.specs.Commits.{HasRead, MayPublishRow, ReadsAsWork, RunsFront, row_events};

use crate::machine::Machine;
use crate::tickets::SlotId;
use desk_state::Work;
use geom_core::{NoMemory, TileKey};
use slot_work::{is_row_of_walk, lay_row, reads_alike};
use walker_core::Composed;

impl Machine {
    /// Whether the walk with that serial is at work in the slot, its patch has points in the tile, and what was
    /// composed read the same there. No memory.
    pub fn reads_as_work(&self, slot: SlotId, composed: &Composed<'_>, key: TileKey) -> bool
        ensures { IsTrue result ↔ HasRead self.now slot.place slot.serial composed.now key }
    {
        match self.walker(slot) {
            Some(walker) => reads_alike(&walker.inputs, composed, key),
            None => false,
        }
    }

    /// Whether the walk with that serial is at work in the slot, its patch has points in the tile, and all its
    /// groups were composed there. It looks at no pixel. No memory.
    pub fn may_publish_row(&self, slot: SlotId, composed: &Composed<'_>, key: TileKey) -> bool
        requires { ReadsAsWork self.now slot.place slot.serial composed.now key }
        ensures { IsTrue result ↔ MayPublishRow self.now slot.place slot.serial composed.now key }
    {
        match self.walker(slot) {
            Some(walker) => is_row_of_walk(&walker.inputs, composed, key),
            None => false,
        }
    }

    /// Publishes the tile of each group of which the walk in a slot hasn't published it.
    ///
    /// # Errors
    /// `NoMemory`; it is published of some of the groups, from the first on, or of none, but not of all.
    pub fn lay_walked_row(
        &mut self,
        slot: SlotId,
        composed: &Composed<'_>,
        key: TileKey,
    ) -> Result<(), NoMemory>
        requires { MayPublishRow self.old slot.place slot.serial composed.now key }
        ensures all { OnOk result (Run self.old (row_events self.old slot.place key) self.new) }
        ensures front { OnErr result (RunsFront self.old
            (row_events self.old slot.place key) self.new) }
    {
        match self.slots.busy_mut(slot.place) {
            Some(busy) => match &mut busy.work {
                Work::Walk(walker) => lay_row(
                    &mut self.filmed,
                    &mut walker.published,
                    composed,
                    &walker.inputs,
                    key,
                ),
                Work::Paint(_) => unreachable!(),
            },
            None => unreachable!(),
        }
    }
}
