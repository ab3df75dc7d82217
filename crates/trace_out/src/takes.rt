//! What is taken from the desk.

ghost use Rattle.std.specs.Prelude.{◌≡◌, ◌≤◌, ◌++◌, true, OnOk, Ok};
ghost use Rattle.geom_core.specs.Areas.{lies_in, world};
ghost use Rattle.machine_model.specs.Settled.{IsSettled};
ghost use Rattle.desk_state.specs.Choices.{IsIdle};
ghost use Rattle.desk_state.specs.After.{busy_painter, busy_walker};
ghost use Rattle.trace_lines.specs.declared.line.Line.TheVariants.{Start as StartLine, Walk as WalkLine};
ghost use Rattle.trace_lines.specs.Texts.{line_text};
ghost use Rattle.trace_lines.specs.Ranges.{line_in_range, patch_in_range, walk_in_range, is_place};
ghost use Rattle.trace_out.specs.declared.takes.Took.TheVariants as took;
ghost use Rattle.trace_out.specs.Writing.{IsTied};
ghost use Rattle.trace_out.specs.Lent.{IsLent, taken_job, taken_walk};
ghost use Rattle.trace_out.specs.Goes.{GoesOnWriting};

use crate::scribe::Scribe;
use desk_core::{PaintTicket, Taken, WalkTicket};
use desk_state::{Newest, Painter, Walker, Work};
use doc_model::{Patch, Walk};
use geom_core::NoMemory;
use memento_core::Steps;
use std::sync::ledger::Ledger;
use trace_lines::{Line, add_line};

/// Whether something was taken.
pub(crate) enum Took {
    /// An event was made.
    Something,
    /// None may be made before work that is at hand ends or commands come.
    Nothing,
    /// Nothing is left to do.
    Settled,
}

/// Tells that the numbers of a patch are in their ranges.
fn tell_fits(patch: &Patch)
    requires world { lies_in patch.now.rect world ≡ true }
    requires columns { patch.now.rect.w ≤ 4096 }
    requires rows { patch.now.rect.h ≤ 4096 }
    ensures { patch_in_range patch.now ≡ true }
{
    let _w = patch.rect.w();
    let _h = patch.rect.h();
    tell_walk_fits(patch.walk);
}

/// Tells that the number of a walk's group is in its range.
fn tell_walk_fits(walk: Walk)
    ensures { walk_in_range walk ≡ true }
{
    match walk {
        Walk::Up(_group) => {}
        Walk::All => {}
    }
}

impl Scribe {
    /// Takes what may be done next.
    pub(crate) fn take<L: Ledger>(&mut self, steps: &mut Steps<L>) -> Result<Took, NoMemory>
        requires { IsTied self.old.held self.old.desk }
        ensures something { result ≡ Ok took.Something → GoesOnWriting self.old.desk
            self.old.out.items self.new }
        ensures nothing { result ≡ Ok took.Nothing → IsIdle self.old.desk × (self.new ≡ self.old) }
        ensures settled { result ≡ Ok took.Settled → IsSettled self.old.desk
            × (self.new ≡ self.old) }
    {
        match self.desk.take(steps)? {
            Taken::Paint(ticket) => {
                self.hold_job(ticket)?;
                Ok(Took::Something)
            }
            Taken::Walk(ticket) => {
                self.hold_walk(ticket)?;
                Ok(Took::Something)
            }
            Taken::Did => {
                add_line(&mut self.out, &Line::Step)?;
                Ok(Took::Something)
            }
            Taken::Idle => Ok(Took::Nothing),
            Taken::Settled => Ok(Took::Settled),
        }
    }

    /// Holds a job that was taken.
    fn hold_job(&mut self, ticket: PaintTicket) -> Result<(), NoMemory>
        requires some { 1 ≤ ticket.job }
        requires lent { IsLent self.old.held ticket.slot.place (busy_painter (taken_job ticket))
            self.old.desk }
        ensures desk { self.new.desk ≡ self.old.desk }
        ensures tied { OnOk result (IsTied self.new.held self.old.desk) }
        ensures text { OnOk result (self.new.out.items ≡ self.old.out.items ++ line_text
            (StartLine ticket.slot.place)) }
    {
        let PaintTicket {
            slot,
            stroke: _,
            job,
            work,
            shot,
            since: _,
        } = ticket;
        let painter = Painter {
            serial: slot.serial,
            index: job - 1,
            job: work,
            shot,
            published: Newest::new(self.alloc),
        };
        self.held.put(slot.place, Work::Paint(painter), None);
        add_line(&mut self.out, &Line::Start(slot.place))?;
        Ok(())
    }

    /// Holds a walk that was taken.
    fn hold_walk(&mut self, ticket: WalkTicket) -> Result<(), NoMemory>
        requires place { is_place ticket.slot.place ≡ true }
        requires world { lies_in ticket.inputs.patch.rect world ≡ true }
        requires columns { ticket.inputs.patch.rect.w ≤ 4096 }
        requires rows { ticket.inputs.patch.rect.h ≤ 4096 }
        requires lent { IsLent self.old.held ticket.slot.place (busy_walker (taken_walk ticket))
            self.old.desk }
        ensures desk { self.new.desk ≡ self.old.desk }
        ensures tied { OnOk result (IsTied self.new.held self.old.desk) }
        ensures fits { OnOk result (line_in_range (WalkLine ticket.slot.place ticket.inputs.patch)
            ≡ true) }
        ensures text { OnOk result (self.new.out.items ≡ self.old.out.items ++ line_text
            (WalkLine ticket.slot.place ticket.inputs.patch)) }
    {
        let WalkTicket { slot, inputs } = ticket;
        let patch = inputs.patch();
        tell_fits(&patch);
        let walker = Walker {
            serial: slot.serial,
            inputs,
            published: Newest::new(self.alloc),
        };
        self.held
            .put(slot.place, Work::Walk(walker), Some(patch.rect));
        add_line(&mut self.out, &Line::Walk(slot.place, patch))?;
        Ok(())
    }
}
