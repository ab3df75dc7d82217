//! A job that starts.

ghost use Rattle.std.specs.Prelude.{◌≡◌, ◌<◌, true, OnErr, IfOk};
ghost use Rattle.doc_model.specs.Jobs.{checks};
ghost use Rattle.machine_model.specs.Event.{Start};
ghost use Rattle.machine_model.specs.Step.{Step};
ghost use Rattle.machine_model.specs.UnderWay.{IsOnWay};
ghost use Rattle.desk_state.specs.Enabled.{Enabled};
ghost use Rattle.desk_events.specs.Tickets.{IsPaintTicket};

use crate::machine::Machine;
use crate::tickets::{PaintTicket, SlotId};
use desk_state::{Newest, Painter, Work};
use doc_model::Job;
use entry_queue::Entry;
use geom_core::NoMemory;

/// The job of the stroke at the head that starts next: the stroke's number, the job's index, from 0,
/// and the job.
#[derive(Clone, Copy)]
pub(crate) struct NextJob {
    pub(crate) no: u32,
    pub(crate) index: u32,
    pub(crate) job: Job,
}

impl Machine {
    /// Starts the next job of the stroke at the head in a slot.
    ///
    /// # Errors
    /// `NoMemory`; all is as it was.
    pub fn start(&mut self, place: u8) -> Result<PaintTicket, NoMemory>
        requires { Enabled self.old (Start place) }
        ensures ok { IfOk result (λ t. Step self.old (Start t.slot.place) self.new) }
        ensures ticket { IfOk result (λ t. IsPaintTicket t self.new) }
        ensures err { OnErr result (self.new ≡ self.old) }
        ensures known { IsOnWay self.old self.old.way }
    {
        let next = self.next_job(place);
        let reads = next.job.reads();
        let kept = self.store.grab(self.alloc, reads.as_slice())?;
        let shot = kept.share()?;
        let since = self.least_at_work(next.index);
        let serial = self.next;
        let painter = Painter {
            serial,
            index: next.index,
            job: next.job,
            shot: kept,
            published: Newest::new(self.alloc),
        };
        self.slots.put(place, Work::Paint(painter), None);
        self.way = Some(next.index + 1);
        self.next += 1;
        Ok(PaintTicket {
            slot: SlotId { place, serial },
            stroke: next.no,
            job: next.index + 1,
            work: next.job,
            since,
            shot,
        })
    }

    /// The job that starts next.
    fn next_job(&self, place: u8) -> NextJob
        requires { Enabled self.now (Start place) }
        ensures no { (can : Enabled self.now (Start place)) → result.no ≡ can.1.stroke.no }
        ensures index { (can : Enabled self.now (Start place)) → result.index ≡ can.1.next }
        ensures job { (can : Enabled self.now (Start place)) → result.job ≡ can.1.job.1 }
        ensures checked { checks result.job ≡ true }
        ensures few { result.index < 4096 }
    {
        let Some(index) = self.way else {
            unreachable!()
        };
        match self.queue.head() {
            Some(Entry::Waiting(stroke)) => {
                let _open = stroke.job_count();
                NextJob {
                    no: stroke.no(),
                    index,
                    job: stroke.job(index + 1).1,
                }
            }
            Some(Entry::Whole(stroke)) => {
                let _closed = stroke.job_count();
                NextJob {
                    no: stroke.no(),
                    index,
                    job: stroke.job(index + 1).1,
                }
            }
            Some(Entry::Other(_)) | None => unreachable!(),
        }
    }
}
