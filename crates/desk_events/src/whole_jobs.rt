//! Tiles of a job that were made whole outside.

ghost use Rattle.std.specs.Prelude.{◌≡◌, ◌↔◌, ℕ, true, false, Some, IsTrue, IfOk, OnOk, OnErr, []};
ghost use Rattle.machine_model.specs.Sound.{IsSound};
ghost use Rattle.machine_model.specs.Event.{Publish, End};
ghost use Rattle.machine_model.specs.Step.{Step};
ghost use Rattle.desk_state.specs.Enabled.{Enabled};
ghost use Rattle.desk_steps.specs.declared.exchanging.Base.TheVariants.{Known};
ghost use Rattle.desk_events.specs.Commits.{AreOfWork, HasMade, MayCommit, TakesWhole};
ghost use Rattle.desk_events.specs.Sparing.{IsPriorAt, StandsAs};

use crate::machine::Machine;
use crate::tickets::SlotId;
use desk_state::Work;
use desk_steps::Base;
use geom_core::NoMemory;
use slot_work::{are_lacking, are_of_job, exchange_whole};
use whole_tiles::Whole;

impl Machine {
    /// Whether the job with that serial is at work in the slot, and each of the tiles was made of it and
    /// from the pixels that it was started with. No memory.
    pub fn are_of_work(&self, slot: SlotId, tiles: &[Whole]) -> bool
        ensures { IsTrue result ↔ HasMade self.now slot.place slot.serial tiles.now }
    {
        match self.painter(slot) {
            Some(painter) => are_of_job(painter, tiles),
            None => false,
        }
    }

    /// Whether the job with that serial is at work in the slot, and the tiles are just those that it
    /// lacks. It looks at no pixel.
    ///
    /// # Errors
    /// `NoMemory`.
    pub fn may_commit(&self, slot: SlotId, tiles: &[Whole]) -> Result<bool, NoMemory>
        requires { AreOfWork self.now slot.place slot.serial tiles.now }
        ensures { IfOk result (λ may.
            IsTrue may ↔ MayCommit self.now slot.place slot.serial tiles.now) }
    {
        match self.painter(slot) {
            Some(painter) => are_lacking(self.alloc, painter, tiles),
            None => Ok(false),
        }
    }

    /// Publishes a tile of the job in a slot. With an index `since` the tile was made from what the jobs before
    /// its own leave of the layer, but where those from that index on write: no pixel is compared where no
    /// other job can have changed the layer.
    ///
    /// # Errors
    /// `NoMemory`; all is as it was.
    pub fn publish_whole(
        &mut self,
        place: u8,
        whole: &Whole,
        since: Option<u32>,
    ) -> Result<(), NoMemory>
        requires takes { TakesWhole self.old place whole.now }
        requires prior { (n : ℕ) → since ≡ Some n → IsPriorAt self.old place n whole.now }
        ensures ok { OnOk result (Step self.old (Publish place whole.now.key) self.new) }
        ensures err { OnErr result (self.new ≡ self.old) }
    {
        let base = self.base_of(place, whole, since);
        match self.slots.busy_mut(place) {
            Some(busy) => match &mut busy.work {
                Work::Paint(painter) => {
                    exchange_whole(self.alloc, &mut self.store, painter, whole, base)
                }
                Work::Walk(_) => unreachable!(),
            },
            None => unreachable!(),
        }
    }

    /// What is known, by the jobs alone, of the pixels that the layer of the stroke at the head has on the tile.
    fn base_of(&self, place: u8, whole: &Whole, since: Option<u32>) -> Base
        requires takes { TakesWhole self.now place whole.now }
        requires prior { (n : ℕ) → since ≡ Some n → IsPriorAt self.now place n whole.now }
        ensures { result ≡ Known → StandsAs self.now whole.now }
    {
        match since {
            Some(since) => {
                if self.stands_as(place, since, whole) {
                    Base::Known
                } else {
                    Base::Compared
                }
            }
            None => Base::Compared,
        }
    }

    /// Tells that a job may end that lacks no tile. It does nothing.
    pub fn tell_ends(&self, slot: SlotId)
        requires { MayCommit self.now slot.place slot.serial [] }
        ensures { Enabled self.now (End slot.place) }
    {
        let _ = &self.alloc;
    }

    /// Tells what holds of every desk. It does nothing.
    pub fn tell_sound(&self)
        ensures { IsSound self.now }
    {
        let _ = &self.alloc;
    }
}
