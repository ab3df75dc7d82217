//! What was painted or composed outside is laid.

ghost use Rattle.std.specs.Prelude.{◌≡◌, ◌↔◌, IsTrue, OnOk, OnErr};
ghost use Rattle.machine_model.specs.Event.{Publish, WalkPublish};
ghost use Rattle.machine_model.specs.Step.{Step};
ghost use Rattle.desk_state.specs.Enabled.{Takes, TakesWalk};

use crate::machine::Machine;
use crate::tickets::SlotId;
use desk_state::Work;
use geom_core::{NoMemory, TileKey};
use job_core::Painted;
use slot_work::{is_tile_of, lay, lay_composed, takes_composed, takes_painted};
use walker_core::Composed;

impl Machine {
    /// Whether the job with that serial is at work in the slot, and what was painted is of it.
    pub fn takes(&self, slot: SlotId, painted: &Painted<'_>) -> bool
        ensures { IsTrue result ↔ Takes self.now slot.place slot.serial painted.now }
    {
        match self.painter(slot) {
            Some(painter) => takes_painted(painter, painted),
            None => false,
        }
    }

    /// Lays what was painted of the job in a slot.
    ///
    /// # Errors
    /// `NoMemory`; all is as it was.
    pub fn lay(&mut self, slot: SlotId, painted: &Painted<'_>) -> Result<(), NoMemory>
        requires { Takes self.old slot.place slot.serial painted.now }
        ensures ok { OnOk result (Step self.old (Publish slot.place painted.now.key) self.new) }
        ensures err { OnErr result (self.new ≡ self.old) }
    {
        match self.slots.busy_mut(slot.place) {
            Some(busy) => match &mut busy.work {
                Work::Paint(painter) => {
                    lay(self.alloc, &mut self.store, &mut painter.published, painted)
                }
                Work::Walk(_) => unreachable!(),
            },
            None => unreachable!(),
        }
    }

    /// Whether the walk with that serial is at work in the slot, and what was composed is a pair of it,
    /// still to be published, of the same as the walk reads.
    pub fn takes_walk(
        &self,
        slot: SlotId,
        composed: &Composed<'_>,
        group: u16,
        key: TileKey,
    ) -> bool
        ensures { IsTrue result ↔ TakesWalk self.now slot.place slot.serial composed.now group key }
    {
        match self.walker(slot) {
            Some(walker) => {
                // The patch has points, as its sides tell.
                let rect = walker.inputs.patch().rect;
                let _columns = rect.w();
                let _rows = rect.h();
                takes_composed(walker, composed, group, key)
            }
            None => false,
        }
    }

    /// Lays a pair that was composed of the walk in a slot.
    ///
    /// # Errors
    /// `NoMemory`; all is as it was.
    pub fn lay_walk(
        &mut self,
        slot: SlotId,
        composed: &Composed<'_>,
        group: u16,
        key: TileKey,
    ) -> Result<(), NoMemory>
        requires { TakesWalk self.old slot.place slot.serial composed.now group key }
        ensures ok { OnOk result (Step self.old (WalkPublish slot.place group key) self.new) }
        ensures err { OnErr result (self.new ≡ self.old) }
    {
        match self.slots.busy_mut(slot.place) {
            Some(busy) => match &mut busy.work {
                Work::Walk(walker) => {
                    let rect = walker.inputs.patch().rect;
                    let _there = is_tile_of(&rect, key);
                    lay_composed(
                        &mut self.filmed,
                        &mut walker.published,
                        composed,
                        group,
                        key,
                    )
                }
                Work::Paint(_) => unreachable!(),
            },
            None => unreachable!(),
        }
    }
}
