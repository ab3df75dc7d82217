//! Jobs at work.

ghost use Rattle.std.specs.Prelude.{◌≡◌, ◌||◌, ◌&&◌, Ok};
ghost use Rattle.geom_core.specs.Keys.{IsWorldKey};
ghost use Rattle.trace_core.specs.Parts.{parts};
ghost use Rattle.trace_core.specs.Moves.{Follows, is_alive, may_start, started, published, ended, walk_ended, work_ended, no_walker, is_clean};

use crate::machine::OutlinedMachine;
use doc_model::Kind;
use entry_queue::{HeadStroke, is_bar};
use geom_core::{NoMemory, TileKey};
use trace_state::{OutlinedJob, Slot, fill, some_blocks};
use update_queue::widen_all;

/// Whether a stroke is neither cancelled nor refused.
pub(crate) fn is_alive(head: &HeadStroke) -> bool
    ensures { result ≡ is_alive head.now }
{
    !head.cancelled && !head.overlaps
}

impl OutlinedMachine {
    /// Whether a job of that kind of the stroke at the head may start beside those at work.
    fn may_start(&self, head: &HeadStroke, kind: Kind) -> bool
        ensures { result ≡ may_start (parts self.now) head.now kind }
    {
        let blocked = some_blocks(&self.slots, self.intake.jobs(), kind);
        is_alive(head) && (!blocked && (!is_bar(kind) || self.lets_bar(head)))
    }

    /// Whether a barrier may start.
    fn lets_bar(&self, head: &HeadStroke) -> bool
        ensures { result ≡ (head.now.exclusive || (no_walker (parts self.now) && is_clean
            (parts self.now))) }
    {
        head.exclusive || (self.no_walker() && self.is_clean())
    }

    /// The next job of the stroke at the head starts in the slot.
    pub(crate) fn start(&mut self, place: u8) -> bool
        ensures { Follows (Ok result) (started (parts self.old) place) (parts self.old)
            (parts self.new) }
    {
        if !self.is_free(place) {
            return false;
        }
        let Some(head) = self.intake.head() else {
            return false;
        };
        let Some(index) = self.way else {
            return false;
        };
        let Some(&(kind, job)) = self.intake.jobs().get(index as usize) else {
            return false;
        };
        if !self.may_start(&head, kind) {
            return false;
        }
        let painter = OutlinedJob::new(self.alloc, index, job);
        fill(&mut self.slots, place, Slot::Paints(painter));
        self.way = Some(index + 1);
        true
    }

    /// A tile of the job in the slot is published.
    pub(crate) fn publish(&mut self, place: u8, key: TileKey) -> Result<bool, NoMemory>
        requires { IsWorldKey key }
        ensures { Follows result (published (parts self.old) place key) (parts self.old)
            (parts self.new) }
    {
        let i = place as usize;
        if i >= self.slots.len() || self.intake.head().is_none() {
            return Ok(false);
        }
        self.slots[i].publish(key)
    }

    /// The job in the slot ends.
    fn end_job(&mut self, place: u8) -> bool
        ensures { Follows (Ok result) (ended (parts self.old) place) (parts self.old)
            (parts self.new) }
    {
        let Some(head) = self.intake.head() else {
            return false;
        };
        let job = match self.slots.get(place as usize) {
            Some(Slot::Paints(painter)) if painter.is_painted() => painter.job(),
            _ => return false,
        };
        let group = self.history.group_of(head.layer);
        widen_all(&mut self.updates, group, job.writes().as_slice());
        fill(&mut self.slots, place, Slot::Free);
        true
    }

    /// The walk in the slot ends.
    fn end_walk(&mut self, place: u8) -> bool
        ensures { Follows (Ok result) (walk_ended (parts self.old) place) (parts self.old)
            (parts self.new) }
    {
        match self.slots.get(place as usize) {
            Some(Slot::Walks(walker)) if walker.is_composed() => {}
            _ => return false,
        }
        fill(&mut self.slots, place, Slot::Free);
        true
    }

    /// The job or the walk in the slot ends.
    pub(crate) fn end(&mut self, place: u8) -> bool
        ensures { Follows (Ok result) (work_ended (parts self.old) place) (parts self.old)
            (parts self.new) }
    {
        if self.end_job(place) {
            return true;
        }
        self.end_walk(place)
    }
}
