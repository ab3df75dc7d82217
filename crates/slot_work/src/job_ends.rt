//! What waits to be composed once a job has ended, and whether it has.

ghost use Rattle.std.specs.Prelude.{◌≡◌, true};
ghost use Rattle.std.specs.List.{list_any, list_all};
ghost use Rattle.geom_core.specs.Grid.{same_key, all_keys_of};
ghost use Rattle.doc_model.specs.Jobs.{writes, checks};
ghost use Rattle.update_queue.specs.Waiting.{widened_by_all};

use crate::remaining::next_tile;
use desk_state::Painter;
use doc_model::Job;
use update_queue::Updates;

/// What a job writes waits for the group and those above it.
pub fn widen_all(updates: &mut Updates, group: u16, job: &Job)
    requires { checks job.now ≡ true }
    ensures { updates.new ≡ widened_by_all updates.old group (writes job.now) }
{
    let writes = job.writes();
    update_queue::widen_all(updates, group, writes.as_slice());
}

/// Whether a job has published all its tiles.
pub fn is_painted(painter: &Painter) -> bool
    requires { checks painter.now.job ≡ true }
    ensures { result ≡ list_all (λ k. list_any (same_key k) painter.now.published)
        (all_keys_of (writes painter.now.job)) }
{
    next_tile(painter).is_none()
}
