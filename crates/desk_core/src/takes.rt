//! The next event.

ghost use Rattle.std.specs.Prelude.{◌≡◌, Ok, OnErr};
ghost use Rattle.desk_events.specs.declared.tickets.PaintTicket.{PaintTicket};
ghost use Rattle.desk_events.specs.declared.tickets.WalkTicket.{WalkTicket};
ghost use Rattle.desk_core.specs.declared.tickets.Taken.TheVariants as taken;
ghost use Rattle.desk_events.specs.Tickets.{StartsJob, StartsWalk};
ghost use Rattle.desk_state.specs.Choices.{MayWant, HeadWaits, DoesAtOnce};
ghost use Rattle.desk_core.specs.Taking.{StaysIdle, StaysSettled, WaitsIfFree};

use crate::desk::Desk;
use crate::tickets::Taken;
use desk_state::Choice;
use geom_core::NoMemory;
use memento_core::Steps;
use std::sync::ledger::Ledger;

impl Desk {
    /// Makes an event that may happen, those of the entry at the head first: a walk starts only where the head
    /// waits, so composing comes late, but where a barrier or an export waits for it. `Idle` with no slot busy
    /// comes only where the head is a stroke that is still open.
    ///
    /// # Errors
    /// `NoMemory`, which comes only where an event that takes memory may happen and none of those that
    /// take none; all is as it was.
    pub fn take<L: Ledger>(&mut self, steps: &mut Steps<L>) -> Result<Taken, NoMemory>
        // What each answer tells. A walk is started last.
        ensures paint { (t : PaintTicket) → result ≡ Ok (taken.Paint t)
            → StartsJob self.old t self.new }
        ensures walk { (t : WalkTicket) → result ≡ Ok (taken.Walk t)
            → StartsWalk self.old t self.new }
        ensures last { (t : WalkTicket) → result ≡ Ok (taken.Walk t) → HeadWaits self.old }
        ensures did { result ≡ Ok taken.Did → DoesAtOnce self.old self.new steps.old steps.new }
        ensures idle { result ≡ Ok taken.Idle → StaysIdle self.old self.new }
        ensures stuck { result ≡ Ok taken.Idle → WaitsIfFree self.old }
        ensures settled { result ≡ Ok taken.Settled → StaysSettled self.old self.new }
        ensures err { OnErr result (MayWant self.old × (self.new ≡ self.old)) }

        // When no step is counted.
        ensures uncounted { (result ≡ Ok taken.Did → ⊥) → steps.new ≡ steps.old }
    {
        match self.machine.choice() {
            Choice::Finish => {
                self.machine.finish();
                Ok(Taken::Did)
            }
            Choice::Cancel => {
                self.cancel(steps);
                Ok(Taken::Did)
            }
            Choice::Act => {
                self.act(steps)?;
                Ok(Taken::Did)
            }
            Choice::Init => {
                self.begin()?;
                Ok(Taken::Did)
            }
            Choice::Start(place) => Ok(Taken::Paint(self.start(place)?)),
            Choice::Wait => self.take_walk(),
        }
    }

    /// Starts a walk, where one may start, while the entry at the head waits.
    fn take_walk(&mut self) -> Result<Taken, NoMemory>
        requires { HeadWaits self.old }
        ensures paint { (t : PaintTicket) → result ≡ Ok (taken.Paint t) → ⊥ }
        ensures walk { (t : WalkTicket) → result ≡ Ok (taken.Walk t)
            → StartsWalk self.old t self.new }
        ensures did { result ≡ Ok taken.Did → ⊥ }
        ensures idle { result ≡ Ok taken.Idle → StaysIdle self.old self.new }
        ensures stuck { result ≡ Ok taken.Idle → WaitsIfFree self.old }
        ensures settled { result ≡ Ok taken.Settled → StaysSettled self.old self.new }
        ensures err { OnErr result (MayWant self.old × (self.new ≡ self.old)) }
    {
        match self.machine.walk_place() {
            Some(place) => Ok(Taken::Walk(self.start_walk(place)?)),
            None => {
                self.machine.tell_sound();
                if self.machine.is_settled() {
                    return Ok(Taken::Settled);
                }
                Ok(Taken::Idle)
            }
        }
    }
}
