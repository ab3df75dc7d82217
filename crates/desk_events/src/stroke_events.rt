//! The stroke at the head.

ghost use Rattle.std.specs.Prelude.{◌≡◌, ◌+◌, IfOk, OnOk, OnErr, Some, None, is_some, true};
ghost use Rattle.doc_model.specs.Strokes.{Stroke, conflict};
ghost use Rattle.machine_model.specs.State.{head_stroke};
ghost use Rattle.machine_model.specs.Event.{Init, Finish, Cancel};
ghost use Rattle.machine_model.specs.Step.{Step};
ghost use Rattle.machine_model.specs.Groups.{parent_of};
ghost use Rattle.machine_model.specs.Guards.{is_closed};
ghost use Rattle.machine_model.specs.Effects.{cancel_outcome, no_paint_outcome};
ghost use Rattle.desk_state.specs.Counting.{steps_of};
ghost use Rattle.desk_state.specs.Enabled.{Enabled};

use crate::machine::Machine;
use desk_steps::Begun;
use doc_model::Outcome;
use entry_queue::Entry;
use geom_core::NoMemory;
use memento_core::Steps;
use std::sync::ledger::Ledger;
use update_queue::widen;

impl Machine {
    /// The layer of the stroke at the head.
    pub(crate) fn head_layer(&self) -> u16
        ensures { (s : Stroke) → head_stroke self.now ≡ Some s → result ≡ s.layer }
    {
        match self.queue.head() {
            Some(Entry::Waiting(stroke)) => stroke.layer(),
            Some(Entry::Whole(stroke)) => stroke.layer(),
            Some(Entry::Other(_)) | None => 0,
        }
    }

    /// The group round a layer.
    pub(crate) fn group_of(&self, layer: u16) -> u16
        ensures { result ≡ parent_of layer self.now.present }
    {
        self.store.tree().parent(layer).unwrap_or(0)
    }

    /// Begins the stroke at the head, and tells its layer.
    ///
    /// # Errors
    /// `NoMemory`; all is as it was.
    pub fn begin(&mut self) -> Result<u16, NoMemory>
        requires { Enabled self.old Init }
        ensures ok { OnOk result (Step self.old Init self.new) }
        ensures layer { IfOk result (λ l. (s : Stroke) → head_stroke self.old ≡ Some s
            → l ≡ s.layer) }
        ensures err { OnErr result (self.new ≡ self.old) }
    {
        let layer = self.head_layer();
        self.store.prepare()?;
        match self.store.begin(layer)? {
            Begun::Ready => {
                self.way = Some(0);
                Ok(layer)
            }
            Begun::NoLayer | Begun::NotPaint => unreachable!(),
        }
    }

    /// Ends the stroke at the head. No memory.
    pub fn finish(&mut self)
        requires { Enabled self.old Finish }
        ensures { Step self.old Finish self.new }
    {
        match self.way {
            Some(_) => self.finish_painted(),
            None => self.finish_refused(),
        }
    }

    /// The stroke under way is done.
    fn finish_painted(&mut self)
        requires enabled { Enabled self.old Finish }
        requires way { is_some self.old.way ≡ true }
        ensures { Step self.old Finish self.new }
    {
        self.store.finish();
        self.queue.pop(Outcome::Done);
        self.way = None;
    }

    /// The stroke at the head names no paint layer.
    fn finish_refused(&mut self)
        requires enabled { Enabled self.old Finish }
        requires way { self.old.way ≡ None }
        ensures { Step self.old Finish self.new }
    {
        let outcome = self.missing();
        self.queue.pop(outcome);
    }

    /// What the stroke at the head lacks to paint on.
    fn missing(&self) -> Outcome
        requires { self.now.way ≡ None }
        ensures { (s : Stroke) → head_stroke self.now ≡ Some s
            → result ≡ no_paint_outcome s.layer self.now.base }
    {
        let layer = self.head_layer();
        if self.store.tree().has(layer) {
            Outcome::NotPaint(layer)
        } else {
            Outcome::NoLayer(layer)
        }
    }

    /// Takes back the stroke at the head. No memory, and a step for each tile that meets the writes of
    /// its started jobs.
    pub fn cancel<L: Ledger>(&mut self, steps: &mut Steps<L>)
        requires { Enabled self.old Cancel }
        ensures step { Step self.old Cancel self.new }
        ensures counts { steps.new ≡ steps.old + steps_of self.old Cancel }
    {
        match self.way {
            Some(_) => self.cancel_begun(steps),
            None => self.cancel_waiting(),
        }
    }

    /// Takes back the stroke under way.
    fn cancel_begun<L: Ledger>(&mut self, steps: &mut Steps<L>)
        requires enabled { Enabled self.old Cancel }
        requires way { is_some self.old.way ≡ true }
        ensures step { Step self.old Cancel self.new }
        ensures counts { steps.new ≡ steps.old + steps_of self.old Cancel }
    {
        let outcome = self.refusal();
        let group = self.group_of(self.head_layer());
        let touched = self.store.revert(steps);
        widen(&mut self.updates, group, touched.bound);
        self.queue.pop(outcome);
        self.way = None;
    }

    /// Takes back a stroke that was never begun.
    fn cancel_waiting(&mut self)
        requires enabled { Enabled self.old Cancel }
        requires way { self.old.way ≡ None }
        ensures step { Step self.old Cancel self.new }
        ensures counts { steps_of self.old Cancel ≡ 0 }
    {
        let outcome = self.refusal();
        self.queue.pop(outcome);
    }

    /// Why the stroke at the head leaves nothing.
    fn refusal(&self) -> Outcome
        ensures { (s : Stroke) → head_stroke self.now ≡ Some s → is_closed s ≡ true
            → result ≡ cancel_outcome (conflict s.jobs) }
    {
        match self.queue.head() {
            Some(Entry::Whole(stroke)) => match stroke.overlap() {
                Some((first, second)) => Outcome::Overlap { first, second },
                None => Outcome::Cancelled,
            },
            _ => Outcome::Cancelled,
        }
    }
}
