//! The stroke at the head.

ghost use Rattle.std.specs.Prelude.{◌≡◌, ◌≤◌, true, All, length};
ghost use Rattle.doc_model.specs.Jobs.{checks};
ghost use Rattle.entry_queue.specs.Heads.{head_in, jobs_in};

use crate::entry::Entry;
use crate::queue::Queue;
use doc_model::{Job, Kind};

/// What is known of the stroke at the head.
#[derive(Clone, Copy)]
pub struct HeadStroke {
    pub layer: u16,
    pub exclusive: bool,
    /// Whether it takes no job any more.
    pub closed: bool,
    /// Whether it was closed by `cancel`.
    pub cancelled: bool,
    /// Whether jobs of it conflict.
    pub overlaps: bool,
    /// How many jobs it keeps.
    pub jobs: u32,
}

impl Queue {
    /// The stroke at the head. None exactly where none is.
    pub fn head_stroke(&self) -> Option<HeadStroke>
        ensures { result ≡ head_in self.now.left }
    {
        match self.head() {
            Some(Entry::Waiting(stroke)) => Some(HeadStroke {
                layer: stroke.layer(),
                exclusive: stroke.exclusive(),
                closed: false,
                cancelled: false,
                overlaps: stroke.overlap().is_some(),
                jobs: stroke.job_count(),
            }),
            Some(Entry::Whole(stroke)) => Some(HeadStroke {
                layer: stroke.layer(),
                exclusive: stroke.exclusive(),
                closed: true,
                cancelled: stroke.cancelled(),
                overlaps: stroke.overlap().is_some(),
                jobs: stroke.job_count(),
            }),
            Some(Entry::Other(_)) | None => None,
        }
    }

    /// The kept jobs of the stroke at the head, or none.
    pub fn head_jobs(&self) -> &[(Kind, Job)]
        ensures value { result.now ≡ jobs_in self.now.left }
        ensures checked { All (λ job. checks job.1 ≡ true) result.now }
        ensures few { length result.now ≤ 4096 }
    {
        match self.head() {
            Some(Entry::Waiting(stroke)) => stroke.jobs(),
            Some(Entry::Whole(stroke)) => stroke.jobs(),
            Some(Entry::Other(_)) | None => &[],
        }
    }
}
