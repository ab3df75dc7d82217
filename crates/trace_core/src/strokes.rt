//! The stroke at the head.

ghost use Rattle.std.specs.Prelude.{◌≡◌, Ok, OnOk, true, All, take};
ghost use Rattle.doc_model.specs.Jobs.{checks};
ghost use Rattle.entry_queue.specs.Pushed.{may_leave};
ghost use Rattle.trace_core.specs.Parts.{parts};
ghost use Rattle.entry_queue.specs.Heads.{head_in, jobs_in};
ghost use Rattle.entry_queue.specs.declared.head.HeadStroke.{HeadStroke};
ghost use Rattle.trace_state.specs.Trees.{group_of};
ghost use Rattle.trace_state.specs.Tiles.{round};
ghost use Rattle.trace_core.specs.Moves.{Follows, may_begin, begun, may_finish, has_ended, with_change, finished, may_cancel, started_of, without_change, cancelled, popped};

use crate::machine::OutlinedMachine;
use crate::work::is_alive;
use doc_model::{Job, Kind};
use entry_queue::HeadStroke;
use geom_core::NoMemory;
use trace_state::{Reach, round};
use update_queue::widen;

/// Of these jobs the first so many.
fn front(jobs: &[(Kind, Job)], n: u32) -> &[(Kind, Job)]
    ensures { result.now ≡ take n jobs.now }
{
    match jobs.get(..n as usize) {
        Some(front) => front,
        None => jobs,
    }
}

impl OutlinedMachine {
    /// Whether the stroke at the head may begin, where none is under way.
    fn may_begin(&self, head: &HeadStroke) -> bool
        ensures { result ≡ may_begin (parts self.now) head.now }
    {
        is_alive(head) && (self.history.paints(head.layer) && (!head.exclusive || self.no_walker()))
    }

    /// The stroke at the head begins.
    pub(crate) fn begin(&mut self) -> bool
        ensures { Follows (Ok result) (begun (parts self.old)) (parts self.old) (parts self.new) }
    {
        let Some(head) = self.intake.head() else {
            return false;
        };
        if self.way.is_some() || !self.may_begin(&head) {
            return false;
        }
        self.way = Some(0);
        true
    }

    /// Whether all jobs of the stroke at the head have ended.
    fn has_ended(&self, head: &HeadStroke) -> bool
        ensures { result ≡ has_ended (parts self.now) head.now }
    {
        match self.way {
            Some(n) => n == head.jobs && self.no_painter(),
            None => false,
        }
    }

    /// Whether the stroke at the head may finish.
    fn may_finish(&self, head: &HeadStroke) -> bool
        ensures { result ≡ may_finish (parts self.now) head.now }
    {
        let ended = head.closed && !head.cancelled;
        ended && (!head.overlaps && (!self.history.paints(head.layer) || self.has_ended(head)))
    }

    /// The stroke at the head becomes the newest change, and leaves the queue.
    fn keep_change(&mut self, head: &HeadStroke) -> Result<(), NoMemory>
        requires { may_leave self.old.intake.left ≡ true }
        ensures { OnOk result (parts self.new ≡ popped (with_change (parts self.old) head.now)) }
    {
        let bound = round(self.intake.jobs());
        self.history.keep(Reach::Part(head.layer, bound))?;
        self.way = None;
        self.intake.pop();
        Ok(())
    }

    /// The stroke at the head finishes.
    pub(crate) fn finish(&mut self) -> Result<bool, NoMemory>
        ensures { Follows result (finished (parts self.old)) (parts self.old) (parts self.new) }
    {
        let Some(head) = self.intake.head() else {
            return Ok(false);
        };
        if !self.may_finish(&head) {
            return Ok(false);
        }
        if self.history.paints(head.layer) {
            self.keep_change(&head)?;
            return Ok(true);
        }
        self.intake.pop();
        Ok(true)
    }

    /// Whether the stroke at the head may be taken back.
    fn may_cancel(&self, head: &HeadStroke) -> bool
        ensures { result ≡ may_cancel (parts self.now) head.now }
    {
        head.closed && ((head.cancelled || head.overlaps) && self.no_painter())
    }

    /// The jobs of the stroke at the head that were started.
    fn started_jobs(&self) -> &[(Kind, Job)]
        ensures value { result.now ≡ started_of (jobs_in self.now.intake.left) self.now.way }
        ensures checked { All (λ job. checks job.1 ≡ true) result.now }
    {
        let jobs = self.intake.jobs();
        match self.way {
            Some(n) => front(jobs, n),
            None => &[],
        }
    }

    /// What the stroke at the head has painted is taken back, and it leaves the queue.
    fn drop_change(&mut self, head: &HeadStroke)
        requires { may_leave self.old.intake.left ≡ true }
        ensures { parts self.new ≡ popped (without_change (parts self.old) head.now) }
    {
        let bound = round(self.started_jobs());
        let group = self.history.group_of(head.layer);
        widen(&mut self.updates, group, bound);
        self.way = None;
        self.intake.pop();
    }

    /// The stroke at the head leaves nothing.
    pub(crate) fn cancel(&mut self) -> bool
        ensures { Follows (Ok result) (cancelled (parts self.old)) (parts self.old)
            (parts self.new) }
    {
        let Some(head) = self.intake.head() else {
            return false;
        };
        if !self.may_cancel(&head) {
            return false;
        }
        self.drop_change(&head);
        true
    }
}
