//! What may be done next.

ghost use Rattle.std.specs.Prelude.{All, ◌≡◌, ◌↔◌, ◌<◌, IsTrue, ◌||◌, ◌&&◌, ℕ, true, false, Some, None, IfSome, IfNone, slice_get};
ghost use Rattle.doc_model.specs.Jobs.{checks};
ghost use Rattle.doc_model.specs.Strokes.{Stroke};
ghost use Rattle.machine_model.specs.State.{head_stroke, Free};
ghost use Rattle.machine_model.specs.Settled.{IsSettled};
ghost use Rattle.machine_model.specs.Slots.{no_painter, no_walker};
ghost use Rattle.machine_model.specs.Guards.{is_paint, kept_jobs};
ghost use Rattle.machine_model.specs.UnderWay.{IsOnWay};
ghost use Rattle.desk_state.specs.Choices.{IsHeadOf, IsChoice, acts_now, is_clean, clear_for, runs_at};

use crate::machine::Machine;
use desk_state::Choice;
use doc_model::{Command, Job, Kind};
use entry_queue::{Entry, HeadStroke};
use slot_work::{is_blocked, some_painter, some_walker};

impl Machine {
    /// An event of the entry at the head that may happen. `Wait` exactly where there is none.
    pub fn choice(&self) -> Choice
        ensures { IsChoice self.now result }
    {
        match self.head_stroke() {
            Some(head) => self.stroke_choice(&head),
            None => self.act_choice(),
        }
    }

    /// The stroke at the head. None exactly where none is.
    pub(crate) fn head_stroke(&self) -> Option<HeadStroke>
        ensures some { IfSome result (IsHeadOf self.now) }
        ensures none { IfNone result (head_stroke self.now ≡ None) }
    {
        self.queue.head_stroke()
    }

    /// What may be done of an entry that is no stroke.
    fn act_choice(&self) -> Choice
        requires { head_stroke self.now ≡ None }
        ensures { IsChoice self.now result }
    {
        match self.queue.head() {
            Some(Entry::Other(command)) => {
                if self.may_act(command) {
                    Choice::Act
                } else {
                    Choice::Wait
                }
            }
            Some(Entry::Waiting(_)) => unreachable!(),
            Some(Entry::Whole(_)) => unreachable!(),
            None => Choice::Wait,
        }
    }

    /// Whether no walk is at work, and for an export nothing waits to be composed.
    fn may_act(&self, command: &Command) -> bool
        ensures { result ≡ acts_now self.now command.now }
    {
        match command {
            Command::Export => self.is_clean() && self.no_walker(),
            _ => self.no_walker(),
        }
    }

    /// Whether nothing waits to be composed.
    fn is_clean(&self) -> bool
        ensures { result ≡ is_clean self.now }
    {
        self.updates.len() == 0
    }

    /// Whether no job is at work.
    pub(crate) fn no_painter(&self) -> bool
        ensures value { result ≡ no_painter self.now }
        ensures known { IsOnWay self.now self.now.way }
    {
        !some_painter(&self.slots)
    }

    /// Whether no walk is at work.
    fn no_walker(&self) -> bool
        ensures { result ≡ no_walker self.now }
    {
        !some_walker(&self.slots)
    }

    /// Whether the document has such a paint layer, where no stroke is under way.
    fn has_layer(&self, id: u16) -> bool
        requires { self.now.way ≡ None }
        ensures { result ≡ is_paint id self.now.base }
    {
        self.store.layer(id).is_some()
    }

    /// What may be done of the stroke at the head.
    fn stroke_choice(&self, head: &HeadStroke) -> Choice
        requires { IsHeadOf self.now head.now }
        ensures { IsChoice self.now result }
    {
        if head.cancelled || head.overlaps {
            return self.leaving_choice(head);
        }
        match self.way {
            Some(started) => self.begun_choice(head, started),
            None => self.new_choice(head),
        }
    }

    /// What may be done of the stroke at the head where it leaves nothing.
    fn leaving_choice(&self, head: &HeadStroke) -> Choice
        requires head { IsHeadOf self.now head.now }
        requires leaves { (head.now.cancelled || head.now.overlaps) ≡ true }
        ensures { IsChoice self.now result }
    {
        if head.closed && self.no_painter() {
            Choice::Cancel
        } else {
            Choice::Wait
        }
    }

    /// What may be done of the stroke at the head where it isn't begun.
    fn new_choice(&self, head: &HeadStroke) -> Choice
        requires head { IsHeadOf self.now head.now }
        requires stays { (head.now.cancelled || head.now.overlaps) ≡ false }
        requires way { self.now.way ≡ None }
        ensures { IsChoice self.now result }
    {
        if !self.has_layer(head.layer) {
            if head.closed {
                Choice::Finish
            } else {
                Choice::Wait
            }
        } else if head.exclusive && !self.no_walker() {
            Choice::Wait
        } else {
            Choice::Init
        }
    }

    /// What may be done of the stroke at the head where so many of its jobs were started.
    fn begun_choice(&self, head: &HeadStroke, started: u32) -> Choice
        requires head { IsHeadOf self.now head.now }
        requires stays { (head.now.cancelled || head.now.overlaps) ≡ false }
        requires way { self.now.way ≡ Some started }
        ensures { IsChoice self.now result }
    {
        self.tell_way();
        if started < head.jobs {
            return self.start_choice(head, started);
        }
        if head.closed && self.no_painter() {
            Choice::Finish
        } else {
            Choice::Wait
        }
    }

    /// Tells what holds of the stroke under way. It does nothing.
    fn tell_way(&self)
        ensures { IsOnWay self.now self.now.way }
    {
        let _ = &self.alloc;
    }

    /// Whether the next job may start.
    fn start_choice(&self, head: &HeadStroke, started: u32) -> Choice
        requires head { IsHeadOf self.now head.now }
        requires stays { (head.now.cancelled || head.now.overlaps) ≡ false }
        requires way { self.now.way ≡ Some started }
        requires more { started < head.now.jobs }
        ensures { IsChoice self.now result }
    {
        if !self.may_run(started, head.exclusive) {
            return Choice::Wait;
        }
        match self.free_place() {
            Some(place) => Choice::Start(place),
            None => Choice::Wait,
        }
    }

    /// A free place. None exactly where there is none.
    pub(crate) fn free_place(&self) -> Option<u8>
        ensures some { IfSome result (λ place. slice_get self.now.slots place ≡ Some Free) }
        ensures none { IfNone result ((place : ℕ) → slice_get self.now.slots place ≡ Some Free
            → ⊥) }
    {
        self.slots.free()
    }

    /// Whether the job with that index, from 0, of the stroke at the head may run beside those at
    /// work. A barrier, but for an exclusive stroke, waits for all that is to be composed.
    fn may_run(&self, index: u32, exclusive: bool) -> bool
        ensures value { (t : Stroke) → head_stroke self.now ≡ Some t
            → result ≡ runs_at self.now (kept_jobs t) exclusive index }
        ensures known { IsOnWay self.now self.now.way }
    {
        let jobs = self.head_jobs();
        match jobs.get(index as usize) {
            Some((kind, _)) => {
                !is_blocked(&self.slots, jobs, *kind) && self.is_clear(*kind, exclusive)
            }
            None => false,
        }
    }

    /// Whether a job of this kind needn't wait for what is to be composed.
    fn is_clear(&self, kind: Kind, exclusive: bool) -> bool
        ensures { result ≡ clear_for self.now kind exclusive }
    {
        match kind {
            Kind::Bar => exclusive || (self.is_clean() && self.no_walker()),
            Kind::Con | Kind::Seq | Kind::Uni => true,
        }
    }

    /// The kept jobs of the stroke at the head, or none.
    pub(crate) fn head_jobs(&self) -> &[(Kind, Job)]
        ensures value { (t : Stroke) → head_stroke self.now ≡ Some t → result.now ≡ kept_jobs t }
        ensures checked { All (λ job. checks job.1 ≡ true) result.now }
    {
        self.queue.head_jobs()
    }

    /// Whether every entry has its outcome, and nothing is at work or waits.
    pub fn is_settled(&self) -> bool
        ensures { IsTrue result ↔ IsSettled self.now }
    {
        match self.queue.head() {
            Some(_) => false,
            None => self.is_resting(),
        }
    }

    /// Whether nothing is at work or waits to be composed.
    pub fn is_resting(&self) -> bool
        ensures { result ≡ (is_clean self.now && no_painter self.now && no_walker self.now) }
    {
        self.is_clean() && self.no_painter() && self.no_walker()
    }
}
