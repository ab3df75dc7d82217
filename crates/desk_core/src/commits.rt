//! Jobs that were painted outside come to the desk whole.

ghost use Rattle.std.specs.Prelude.{◌≡◌, ℕ, Some, OnOk, OnErr, []};
ghost use Rattle.machine_model.specs.State.{State};
ghost use Rattle.machine_model.specs.Event.{Publish, End};
ghost use Rattle.machine_model.specs.Step.{Step, Run};
ghost use Rattle.desk_state.specs.Settles.{Settles};
ghost use Rattle.desk_events.specs.Commits.{AreOfWork, MayCommit, RunsFront, TakesWhole};
ghost use Rattle.desk_events.specs.Sparing.{ArePrior, IsPriorAt};
ghost use Rattle.desk_core.specs.Commits.{Commits, commit_events};

use crate::answers::Published;
use crate::desk::Desk;
use desk_events::SlotId;
use geom_core::NoMemory;
use whole_tiles::Whole;

impl Desk {
    /// Publishes all tiles that the job in a slot lacks, and ends it. The tiles were made whole, by any
    /// threads, and stand in any order; where the layer has still the pixels that a tile was made from, no
    /// pixel is copied. `Nothing` exactly where the slot hasn't that work, the tiles aren't just those that
    /// the job lacks, each once, or one was made of another job or from other pixels.
    ///
    /// # Errors
    /// `NoMemory`; of the tiles some, from the first on, are published, or none, and the job hasn't ended.
    /// `has_published` tells which, and the same call takes just the others.
    pub fn commit(&mut self, slot: SlotId, tiles: &[Whole]) -> Result<Published, NoMemory>
        ensures answer { Commits self.old slot.place slot.serial tiles.now result self.new }
        ensures runs { Settles self.old self.new }
        ensures canvas { self.new.canvas ≡ self.old.canvas }
        ensures fed { self.new.fed ≡ self.old.fed }
    {
        if !self.machine.are_of_work(slot, tiles) {
            return Ok(Published::Nothing);
        }
        self.commit_by(slot, None, tiles)
    }

    /// The same of tiles of which it is known that they were made of the slot's work, if it is there, and from
    /// what the jobs before it leave of the layer, but where those from the index `since` on write. Where no
    /// other job can have changed the layer since, no pixel is compared. `Nothing` exactly where `commit` says
    /// so.
    ///
    /// # Errors
    /// `NoMemory`; of the tiles some, from the first on, are published, or none, and the job hasn't ended.
    pub fn commit_made(
        &mut self,
        slot: SlotId,
        since: u32,
        tiles: &[Whole],
    ) -> Result<Published, NoMemory>
        requires of { AreOfWork self.old slot.place slot.serial tiles.now }
        requires prior { ArePrior self.old slot.place slot.serial since tiles.now }
        ensures answer { Commits self.old slot.place slot.serial tiles.now result self.new }
        ensures runs { Settles self.old self.new }
        ensures canvas { self.new.canvas ≡ self.old.canvas }
        ensures fed { self.new.fed ≡ self.old.fed }
    {
        self.commit_by(slot, Some(since), tiles)
    }

    /// Publishes the tiles of a job, and ends it. Of what they were made it may be known from which index on.
    fn commit_by(
        &mut self,
        slot: SlotId,
        since: Option<u32>,
        tiles: &[Whole],
    ) -> Result<Published, NoMemory>
        requires of { AreOfWork self.old slot.place slot.serial tiles.now }
        requires prior { (n : ℕ) → since ≡ Some n
            → ArePrior self.old slot.place slot.serial n tiles.now }
        ensures { Commits self.old slot.place slot.serial tiles.now result self.new }
    {
        let commits = self.machine.may_commit(slot, tiles)?;
        if !commits {
            return Ok(Published::Nothing);
        }
        self.exchange_all(slot, since, tiles)?;
        self.machine.tell_ends(slot);
        self.machine.end_job(slot.place);
        Ok(Published::Stored)
    }

    /// Publishes the tiles of the job in a slot, one after another.
    fn exchange_all(
        &mut self,
        slot: SlotId,
        since: Option<u32>,
        tiles: &[Whole],
    ) -> Result<(), NoMemory>
        requires commits { MayCommit self.old slot.place slot.serial tiles.now }
        requires prior { (n : ℕ) → since ≡ Some n
            → ArePrior self.old slot.place slot.serial n tiles.now }
        ensures front { RunsFront self.old (commit_events slot.place tiles.now) self.new }
        ensures all { (new : State) → OnOk result (Step self.new (End slot.place) new
            → Run self.old (commit_events slot.place tiles.now) new) }
        ensures ends { OnOk result (MayCommit self.new slot.place slot.serial []) }
    {
        for whole in tiles {
            self.exchange_one(slot.place, since, whole)?;
        }
        Ok(())
    }

    /// Publishes a tile of the job in a slot.
    fn exchange_one(&mut self, place: u8, since: Option<u32>, whole: &Whole) -> Result<(), NoMemory>
        requires takes { TakesWhole self.old place whole.now }
        requires prior { (n : ℕ) → since ≡ Some n → IsPriorAt self.old place n whole.now }
        ensures ok { OnOk result (Step self.old (Publish place whole.now.key) self.new) }
        ensures err { OnErr result (self.new ≡ self.old) }
    {
        self.machine.publish_whole(place, whole, since)
    }
}
