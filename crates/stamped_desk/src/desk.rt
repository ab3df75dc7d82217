//! The desk, and the stamps.

ghost use Rattle.std.specs.Prelude.{◌≡◌, ◌<◌, ◌-◌, ◌^◌, true, length, Some, IfOk, IfSome, OnErr, OnOk};
ghost use Rattle.doc_model.specs.Lawful.{may_follow};
ghost use Rattle.doc_model.specs.Strokes.{entries};
ghost use Rattle.machine_model.specs.Event.{Feed};
ghost use Rattle.machine_model.specs.Step.{Step};
ghost use Rattle.desk_state.specs.Choices.{MayWant, HeadWaits, DoesAtOnce};
ghost use Rattle.desk_state.specs.Enabled.{IsEnd, MayEnd};
ghost use Rattle.desk_state.specs.Settles.{Settles};
ghost use Rattle.desk_events.specs.Tickets.{StartsJob, StartsWalk};
ghost use Rattle.desk_events.specs.declared.tickets.PaintTicket.{PaintTicket};
ghost use Rattle.desk_events.specs.declared.tickets.WalkTicket.{WalkTicket};
ghost use Rattle.desk_core.specs.Commits.{Commits, PublishesRow};
ghost use Rattle.desk_core.specs.Taking.{StaysIdle, StaysSettled, WaitsIfFree};
ghost use Rattle.desk_core.specs.declared.answers.Ended.TheVariants as ended;
ghost use Rattle.desk_core.specs.declared.tickets.Taken.TheVariants as taken;
ghost use Rattle.stamped_desk.specs.Stamped.{IsKnown};

use crate::history::{Stamp, StampNaming, Stamps, Unnamed};
use crate::tiles::StampedTiles;
use crate::walk::StampedWalk;
use desk_core::{Desk, Ended, Published, SlotId, Taken};
use doc_model::Command;
use geom_core::{NoMemory, TileKey};
use memento_core::Steps;
use std::marker::Model;
use std::sync::ledger::Ledger;
use walker_core::Composed;

/// A desk, and the stamps of what was taken from it. Contracts see the desk's state.
#[derive(Drop)]
pub struct StampedDesk<J: StampNaming> {
    pub(crate) desk: Desk,
    stamps: Stamps<J, Taken>,
}

impl<J: StampNaming> Model for StampedDesk<J> {
    ghost use Rattle.machine_model.specs.State.{State};
    ghost use Rattle.machine_model.specs.Codes.{state_code};
    ghost use Rattle.stamped_desk.specs.Drawn.{AreDrawn};

    ghost Value = { State };

    ghost coded = { state_code };

    ghost view = { λ d. d.desk };

    ghost invariant = { λ d. AreDrawn d.desk d.stamps };
}

impl<J: StampNaming> StampedDesk<J> {
    /// A desk of which nothing that was taken is known.
    pub fn new(desk: Desk, unnamed: Unnamed<Taken>) -> StampedDesk<J>
        requires { unnamed ≡ J.book }
        ensures { result ≡ desk }
    {
        desk.tell_sound();
        StampedDesk {
            desk,
            stamps: unnamed.named::<J>(),
        }
    }

    /// The desk.
    pub fn desk(&self) -> &Desk
        ensures { result.now ≡ self.now }
    {
        &self.desk
    }

    /// The desk on its own.
    pub fn into_desk(self) -> Desk
        ensures { result ≡ self }
    {
        let StampedDesk { desk, .. } = self;
        desk
    }

    /// Feeds a command that may follow those that were fed.
    ///
    /// # Errors
    /// `NoMemory`; all is as it was.
    pub fn feed(&mut self, command: &Command) -> Result<(), NoMemory>
        requires lawful { may_follow (entries self.old.fed) command.now ≡ true }
        requires few { length self.old.fed < 2 ^ 32 - 1 }
        ensures ok { OnOk result (Step self.old (Feed command.now) self.new) }
        ensures err { OnErr result (self.new ≡ self.old) }
    {
        self.desk.feed(command)
    }

    /// Makes an event that may happen, as `Desk::take` does, and a stamp of what it gives.
    ///
    /// # Errors
    /// `NoMemory`, where `Desk::take` answers so; all is as it was.
    pub fn take<L: Ledger>(
        &mut self,
        steps: &mut Steps<L>,
    ) -> Result<(Taken, Option<Stamp<J, Taken>>), NoMemory>
        // What each answer tells. A walk is started last.
        ensures paint { (t : PaintTicket) → IfOk result (λ r. r.0 ≡ taken.Paint t
            → StartsJob self.old t self.new) }
        ensures walk { (t : WalkTicket) → IfOk result (λ r. r.0 ≡ taken.Walk t
            → StartsWalk self.old t self.new) }
        ensures last { (t : WalkTicket) → IfOk result (λ r. r.0 ≡ taken.Walk t
            → HeadWaits self.old) }
        ensures did { IfOk result (λ r. r.0 ≡ taken.Did
            → DoesAtOnce self.old self.new steps.old steps.new) }
        ensures idle { IfOk result (λ r. r.0 ≡ taken.Idle → StaysIdle self.old self.new) }
        ensures stuck { IfOk result (λ r. r.0 ≡ taken.Idle → WaitsIfFree self.old) }
        ensures settled { IfOk result (λ r. r.0 ≡ taken.Settled → StaysSettled self.old self.new) }
        ensures err { OnErr result (MayWant self.old × (self.new ≡ self.old)) }

        // Of what the stamp is.
        ensures stamp { IfOk result (λ r. IfSome r.1 (λ s. s.value ≡ Some r.0)) }
    {
        let taken = self.desk.take(steps)?;
        let stamp = self.stamps.stamp(&taken);
        Ok((taken, stamp))
    }

    /// Publishes all tiles that the job in their slot lacks, and ends it, as `Desk::commit` does. Where they were made
    /// of what was taken for that slot, no pixel is compared but in tiles that other jobs may have written in
    /// meanwhile.
    ///
    /// # Errors
    /// `NoMemory`; of the tiles some, from the first on, are published, or none, and the job hasn't ended.
    pub fn commit(&mut self, tiles: &StampedTiles<J>) -> Result<Published, NoMemory>
        ensures answer { Commits self.old tiles.now.slot.place tiles.now.slot.serial
            tiles.now.tiles result self.new }
        ensures runs { Settles self.old self.new }
        ensures canvas { self.new.canvas ≡ self.old.canvas }
        ensures fed { self.new.fed ≡ self.old.fed }
    {
        if knows(&self.stamps, &tiles.stamp) {
            self.desk
                .commit_made(tiles.slot(), tiles.since, &tiles.tiles)
        } else {
            self.desk.commit(tiles.slot(), &tiles.tiles)
        }
    }

    /// Publishes a tile of a walk, of all its groups of which it isn't published, as `Desk::publish_row` does. Where
    /// the walk was taken from this desk, no pixel is compared.
    ///
    /// # Errors
    /// `NoMemory`; it is published of some of the groups, from the first on, or of none, but not of all.
    pub fn publish_row(
        &mut self,
        walk: &StampedWalk<J>,
        composed: &Composed<'_>,
        key: TileKey,
    ) -> Result<Published, NoMemory>
        requires { composed.now.readings ≡ walk.now.inputs }
        ensures answer { PublishesRow self.old walk.now.slot.place walk.now.slot.serial
            composed.now key result self.new }
        ensures runs { Settles self.old self.new }
        ensures canvas { self.new.canvas ≡ self.old.canvas }
        ensures fed { self.new.fed ≡ self.old.fed }
    {
        let slot = walk.ticket().slot;
        if knows(&self.stamps, &walk.stamp) {
            self.desk.publish_known_row(slot, composed, key)
        } else {
            self.desk.publish_row(slot, composed, key)
        }
    }

    /// Ends the work in a slot whose tiles are all published. `Nothing` exactly where the slot hasn't that
    /// work, or some tile of it isn't published. No memory.
    pub fn end(&mut self, slot: SlotId) -> Ended
        ensures taken { result ≡ ended.Done → MayEnd self.old slot.place slot.serial }
        ensures done { result ≡ ended.Done → IsEnd self.old slot.place self.new }
        ensures nothing { result ≡ ended.Nothing → self.new ≡ self.old }
        ensures refused { result ≡ ended.Nothing
            → MayEnd self.old slot.place slot.serial → ⊥ }
    {
        self.desk.end(slot)
    }
}

/// Whether there is a stamp, and it is one of these.
fn knows<J: StampNaming>(stamps: &Stamps<J, Taken>, stamp: &Option<Stamp<J, Taken>>) -> bool
    ensures { result ≡ true → IsKnown stamps.now stamp.now }
{
    match stamp {
        Some(stamp) => stamps.knows(stamp),
        None => false,
    }
}
