//! Events that change what is damaged, or by which it is told.

ghost use Rattle.std.specs.Prelude.{IfOk, Ok, OnErr, OnOk, true, ◌+◌, ◌≡◌};
ghost use Rattle.machine_model.specs.Event.{Act, Cancel, Init, Start, WalkEnd, WalkStart};
ghost use Rattle.machine_model.specs.State.{head};
ghost use Rattle.machine_model.specs.Step.{Step};
ghost use Rattle.machine_model.specs.UnderWay.{IsOnWay};
ghost use Rattle.desk_state.specs.Choices.{CanWalk, takes_memory};
ghost use Rattle.desk_state.specs.Counting.{steps_of};
ghost use Rattle.desk_state.specs.Enabled.{Enabled};
ghost use Rattle.desk_events.specs.Tickets.{IsPaintTicket, IsWalkTicket};

use crate::changes::{begin_anew, forget, forget_in, renewed};
use crate::desk::Desk;
use crate::known::known_of;
use desk_events::{PaintTicket, WalkTicket};
use geom_core::NoMemory;
use memento_core::Steps;
use std::sync::ledger::Ledger;

impl Desk {
    /// Begins the stroke at the head. What was folded below another layer goes.
    ///
    /// # Errors
    /// `NoMemory`; all is as it was.
    pub(crate) fn begin(&mut self) -> Result<(), NoMemory>
        requires { Enabled self.old Init }
        ensures ok { OnOk result (Step self.old Init self.new) }
        ensures err { OnErr result (self.new ≡ self.old) }
    {
        let layer = self.machine.begin()?;
        self.folds.turn_to(layer, self.machine.next_serial());
        Ok(())
    }

    /// Starts the next job of the stroke at the head in a slot: what it writes is damaged.
    ///
    /// # Errors
    /// `NoMemory`; all is as it was.
    pub(crate) fn start(&mut self, place: u8) -> Result<PaintTicket, NoMemory>
        requires { Enabled self.old (Start place) }
        ensures ok { IfOk result (λ t. Step self.old (Start t.slot.place) self.new) }
        ensures ticket { IfOk result (λ t. IsPaintTicket t self.new) }
        ensures err { OnErr result (self.new ≡ self.old) }
        ensures known { IsOnWay self.old self.old.way }
    {
        let ticket = self.machine.start(place)?;
        let writes = ticket.work.writes();
        self.damage.add_all(writes.as_slice());
        self.calm = false;
        Ok(ticket)
    }

    /// Takes back the stroke at the head. No memory, and a step for each tile that meets the writes of
    /// its started jobs.
    pub(crate) fn cancel<L: Ledger>(&mut self, steps: &mut Steps<L>)
        requires { Enabled self.old Cancel }
        ensures step { Step self.old Cancel self.new }
        ensures counts { steps.new ≡ steps.old + steps_of self.old Cancel }
    {
        self.machine.cancel(steps);
        self.calm = false;
        begin_anew(&self.machine, &mut self.damage);
    }

    /// The entry at the head takes effect.
    ///
    /// # Errors
    /// `NoMemory`, only at a change or an export; all is as it was.
    pub(crate) fn act<L: Ledger>(&mut self, steps: &mut Steps<L>) -> Result<(), NoMemory>
        requires { Enabled self.old Act }
        ensures ok { OnOk result (Step self.old Act self.new) }
        ensures counts { OnOk result (steps.new ≡ steps.old + steps_of self.old Act) }
        ensures err { OnErr result (self.new ≡ self.old) }
        ensures uncounted { OnErr result (steps.new ≡ steps.old) }
        ensures takes { OnErr result (takes_memory (head self.old) Act ≡ true) }
    {
        self.machine.act(steps)?;
        self.calm = false;
        self.folds.forget(self.machine.next_serial());
        begin_anew(&self.machine, &mut self.damage);
        Ok(())
    }

    /// Starts a walk of the first patch that meets no other walk. Where there is memory for it, the ticket
    /// tells what the caches have, so that only what is damaged is composed.
    ///
    /// # Errors
    /// `NoMemory`; all is as it was.
    pub(crate) fn start_walk(&mut self, place: u8) -> Result<WalkTicket, NoMemory>
        requires { CanWalk self.old place }
        ensures ok { IfOk result (λ t.
            Step self.old (WalkStart t.slot.place t.inputs.patch) self.new) }
        ensures ticket { IfOk result (λ t. IsWalkTicket t self.new) }
        ensures err { OnErr result (self.new ≡ self.old) }
    {
        let calm = self.calm || self.machine.busy_place().is_none();
        let mut ticket = self.machine.start_walk(place)?;
        self.calm = calm;
        self.folds.begin_walk(ticket.inputs.patch().walk);
        match known_of(
            self.alloc,
            &ticket.inputs,
            self.machine.caches(),
            &self.damage,
            &self.folds,
        ) {
            Ok(known) => ticket.inputs.know(known),
            Err(NoMemory) => {}
        }
        Ok(ticket)
    }

    /// Ends the walk in a slot whose tiles are all published. No memory. Where it composed what is there,
    /// its patch isn't damaged any more.
    pub(crate) fn end_walk(&mut self, place: u8)
        requires { Enabled self.old (WalkEnd place) }
        ensures { Step self.old (WalkEnd place) self.new }
    {
        let canvas = self.machine.canvas().rect();
        let renewed = renewed(&self.machine, self.calm, place);
        self.machine.end_walk(place);
        forget_in(&canvas, &mut self.damage, &renewed);
        forget(&self.machine, &mut self.damage);
    }
}
