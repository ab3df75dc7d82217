//! The ends of jobs and walks.

ghost use Rattle.std.specs.Prelude.{◌↔◌, IsTrue};
ghost use Rattle.machine_model.specs.Event.{End, WalkEnd};
ghost use Rattle.machine_model.specs.Step.{Step};
ghost use Rattle.desk_state.specs.Enabled.{Enabled};
ghost use Rattle.desk_events.specs.Ends.{JobMayEnd, WalkMayEnd};

use crate::machine::Machine;
use crate::tickets::SlotId;
use desk_state::Work;
use slot_work::{is_composed, is_painted, widen_all};

impl Machine {
    /// Whether the job with that serial is at work in the slot, and all its tiles are published.
    pub fn is_complete(&self, slot: SlotId) -> bool
        ensures { IsTrue result ↔ JobMayEnd self.now slot.place slot.serial }
    {
        match self.painter(slot) {
            Some(painter) => is_painted(painter),
            None => false,
        }
    }

    /// Ends the job in a slot whose tiles are all published. No memory.
    pub fn end_job(&mut self, place: u8)
        requires { Enabled self.old (End place) }
        ensures { Step self.old (End place) self.new }
    {
        let group = self.group_of(self.head_layer());
        let Some(Work::Paint(painter)) = self.slots.clear(place) else {
            unreachable!()
        };
        widen_all(&mut self.updates, group, &painter.job);
    }

    /// Whether the walk with that serial is at work in the slot, and all its tiles are published.
    pub fn is_walked(&self, slot: SlotId) -> bool
        ensures { IsTrue result ↔ WalkMayEnd self.now slot.place slot.serial }
    {
        match self.walker(slot) {
            Some(walker) => is_composed(walker),
            None => false,
        }
    }

    /// Ends the walk in a slot whose tiles are all published. No memory.
    pub fn end_walk(&mut self, place: u8)
        requires { Enabled self.old (WalkEnd place) }
        ensures { Step self.old (WalkEnd place) self.new }
    {
        let _walk = self.slots.clear(place);
    }
}
