//! The work in a slot, by its place and its serial.

ghost use Rattle.std.specs.Prelude.{◌↔◌, IsTrue, IfSome, IfNone};
ghost use Rattle.desk_events.specs.AtWork.{HasJob, HasNoJob, HasPublished, HasWalk, HasNoWalk};

use crate::machine::Machine;
use crate::tickets::SlotId;
use desk_state::{Painter, Walker, Work, has_key};
use geom_core::TileKey;

impl Machine {
    /// Whether the job with that serial is at work in the slot, and has published the tile. No memory.
    pub fn has_published(&self, slot: SlotId, key: TileKey) -> bool
        ensures { IsTrue result ↔ HasPublished self.now slot.place slot.serial key }
    {
        match self.painter(slot) {
            Some(painter) => has_key(&painter.published, key),
            None => false,
        }
    }

    /// The job with that serial at work in the slot. None exactly where there is none.
    pub(crate) fn painter(&self, slot: SlotId) -> Option<&Painter>
        ensures some { IfSome result (λ w. HasJob self.now slot.place slot.serial w.now) }
        ensures none { IfNone result (HasNoJob self.now slot.place slot.serial) }
    {
        match self.slots.work(slot.place) {
            Some(Work::Paint(painter)) => {
                if painter.serial == slot.serial {
                    Some(painter)
                } else {
                    None
                }
            }
            Some(Work::Walk(_)) => None,
            None => None,
        }
    }

    /// The walk with that serial at work in the slot. None exactly where there is none.
    pub(crate) fn walker(&self, slot: SlotId) -> Option<&Walker>
        ensures some { IfSome result (λ w. HasWalk self.now slot.place slot.serial w.now) }
        ensures none { IfNone result (HasNoWalk self.now slot.place slot.serial) }
    {
        match self.slots.work(slot.place) {
            Some(Work::Walk(walker)) => {
                if walker.serial == slot.serial {
                    Some(walker)
                } else {
                    None
                }
            }
            Some(Work::Paint(_)) => None,
            None => None,
        }
    }
}
