//! Settling a desk on one thread.

ghost use Rattle.std.specs.Prelude.{◌≡◌, true, false, Ok, OnOk, OnErr};
ghost use Rattle.std.specs.List.{list_all};
ghost use Rattle.doc_model.specs.Feeding.{is_closed_entry};
ghost use Rattle.doc_model.specs.Strokes.{entries};
ghost use Rattle.machine_model.specs.State.{is_free};
ghost use Rattle.machine_model.specs.Settled.{IsSettled};
ghost use Rattle.machine_model.specs.Sound.{IsOrderly};
ghost use Rattle.machine_model.specs.MeaningLaws.{HasMeaning};
ghost use Rattle.desk_state.specs.Settles.{Settles, GoesOn};
ghost use Rattle.desk_events.specs.OwnWork.{IsBusy};
ghost use Rattle.desk_core.specs.Taking.{StaysSettled};

use crate::desk::Desk;
use crate::tickets::Taken;
use desk_events::Lack;
use geom_core::NoMemory;
use memento_core::Steps;
use std::sync::ledger::Ledger;

impl Desk {
    /// Makes the events that may happen, one after another, until every entry has its outcome and nothing
    /// is at work or waits. Work whose ticket is held elsewhere is done here too. Afterwards the desk
    /// shows what the commands that were fed mean. It asks that all strokes that were fed are closed, as
    /// `all_closed` tells.
    ///
    /// # Errors
    /// `NoMemory`; some of the events were made, and the same commands are fed.
    pub fn settle<L: Ledger>(&mut self, steps: &mut Steps<L>) -> Result<(), NoMemory>
        requires { list_all is_closed_entry (entries self.old.fed) ≡ true }
        ensures runs { Settles self.old self.new }
        ensures canvas { self.new.canvas ≡ self.old.canvas }
        ensures fed { self.new.fed ≡ self.old.fed }
        ensures settled { OnOk result (IsSettled self.new) }
        ensures meaning { OnOk result (HasMeaning self.new) }
    {
        'events: loop {
            if !self.go_on(steps)? {
                return Ok(());
            }
        }
    }

    /// Makes the next events: those that a piece of work at hand lacks, and else one that the head or the
    /// patches allow. `false` exactly where the desk is settled.
    fn go_on<L: Ledger>(&mut self, steps: &mut Steps<L>) -> Result<bool, NoMemory>
        requires { list_all is_closed_entry (entries self.old.fed) ≡ true }
        ensures on { result ≡ Ok true → GoesOn self.old self.new }
        ensures settled { result ≡ Ok false → StaysSettled self.old self.new }
        ensures err { OnErr result (Settles self.old self.new) }
        ensures known { IsOrderly self.old }
    {
        match self.machine.busy_place() {
            Some(place) => {
                self.do_own(place)?;
                Ok(true)
            }
            None => self.paint_or_take(steps),
        }
    }

    /// Paints small jobs of the stroke at the head, or else takes what may be done next, where nothing is at
    /// work. `false` exactly where the desk is settled.
    fn paint_or_take<L: Ledger>(&mut self, steps: &mut Steps<L>) -> Result<bool, NoMemory>
        requires free { list_all is_free self.old.slots ≡ true }
        requires closed { list_all is_closed_entry (entries self.old.fed) ≡ true }
        requires known { IsOrderly self.old }
        ensures on { result ≡ Ok true → GoesOn self.old self.new }
        ensures settled { result ≡ Ok false → StaysSettled self.old self.new }
        ensures err { OnErr result (self.new ≡ self.old) }
    {
        match self.paint_small()? {
            Some(_bound) => Ok(true),
            None => self.take_on(steps),
        }
    }

    /// Takes what may be done next where nothing is at work. `false` exactly where the desk is settled.
    fn take_on<L: Ledger>(&mut self, steps: &mut Steps<L>) -> Result<bool, NoMemory>
        requires free { list_all is_free self.old.slots ≡ true }
        requires closed { list_all is_closed_entry (entries self.old.fed) ≡ true }
        requires known { IsOrderly self.old }
        ensures on { result ≡ Ok true → GoesOn self.old self.new }
        ensures settled { result ≡ Ok false → StaysSettled self.old self.new }
        ensures err { OnErr result (self.new ≡ self.old) }
    {
        match self.take(steps)? {
            Taken::Settled => Ok(false),
            Taken::Paint(_ticket) => Ok(true),
            Taken::Walk(_ticket) => Ok(true),
            Taken::Did => Ok(true),
            Taken::Idle => unreachable!(),
        }
    }

    /// Publishes one more tile of the work in a slot, or ends it where all are published.
    fn do_own(&mut self, place: u8) -> Result<(), NoMemory>
        requires { IsBusy self.old place }
        ensures ok { OnOk result (GoesOn self.old self.new) }
        ensures err { OnErr result (Settles self.old self.new) }
    {
        match self.machine.lack_at(place) {
            Lack::Tile(key) => self.machine.paint_at(place, key),
            Lack::Groups(key) => self.machine.compose_at(place, key),
            Lack::JobEnd => {
                self.machine.end_job(place);
                Ok(())
            }
            Lack::WalkEnd => {
                self.end_walk(place);
                Ok(())
            }
        }
    }
}
