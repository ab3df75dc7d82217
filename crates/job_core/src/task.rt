//! Jobs with their inks and brushes.

ghost use Rattle.std.specs.Prelude.{◌≡◌};
ghost use Rattle.job_core.specs.Tasks.{job_of};

use crate::dabs::Brush;
use crate::ink::Ink;
use doc_model::{Job, Track};
use geom_core::{Rect, TileKey};

/// A job, with the brush and the ink of what it lays as one value each.
#[derive(Clone, Copy)]
pub enum Task {
    Fill { rect: Rect, ink: Ink },
    Dab { brush: Brush, ink: Ink },
    Move { rect: Rect, dx: i32, dy: i32 },
    Blur { rect: Rect, r: u8 },
    Track { track: Track, cell: TileKey },
}

/// The job as a task.
pub fn task_of(job: &Job) -> Task
    ensures { job_of result ≡ job.now }
{
    match *job {
        Job::Fill {
            rect,
            colour,
            op,
            strength,
        } => Task::Fill {
            rect,
            ink: Ink {
                colour,
                op,
                strength,
            },
        },
        Job::Dab {
            x,
            y,
            r,
            soft,
            colour,
            op,
            strength,
        } => Task::Dab {
            brush: Brush { x, y, r, soft },
            ink: Ink {
                colour,
                op,
                strength,
            },
        },
        Job::Move { rect, dx, dy } => Task::Move { rect, dx, dy },
        Job::Blur { rect, r } => Task::Blur { rect, r },
        Job::Track { track, cell } => Task::Track { track, cell },
    }
}
