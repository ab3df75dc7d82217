//! On which pixels it hangs what a job leaves in one tile.

ghost use Rattle.std.specs.Prelude.{◌≡◌, true, false, Some};
ghost use Rattle.std.specs.List.{list_any};
ghost use Rattle.geom_core.specs.Areas.{moved as moved_area};
ghost use Rattle.geom_core.specs.Grid.{same_key, all_keys_of};
ghost use Rattle.doc_model.specs.declared.job.Job.TheVariants.{Move, Blur};
ghost use Rattle.doc_model.specs.Lawful.{within_limits};
ghost use Rattle.doc_model.specs.Jobs.{checks, writes, grown};
ghost use Rattle.job_core.specs.Points.{is_point_op};
ghost use Rattle.whole_tiles.specs.Enough.{IsEnough};

use doc_model::Job;
use geom_core::{Rect, TileKey};
use job_core::{moved_back, part_in, point_rect, written};

/// The rectangle on whose pixels, and the default pixel, it hangs what the job leaves in the key's
/// tile. The job reads all of it.
pub fn needs_of(job: &Job, key: TileKey) -> Rect
    requires checked { checks job.now ≡ true }
    requires limits { within_limits job.now ≡ true }
    requires met { list_any (same_key key) (all_keys_of (writes job.now)) ≡ true }
    ensures { IsEnough job.now key result }
{
    match point_rect(job) {
        Some(rect) => part_in(key, &rect),
        None => needs_of_other(job, key),
    }
}

/// The rectangle on which it hangs what a move or a blur leaves in the key's tile.
fn needs_of_other(job: &Job, key: TileKey) -> Rect
    requires checked { checks job.now ≡ true }
    requires limits { within_limits job.now ≡ true }
    requires met { list_any (same_key key) (all_keys_of (writes job.now)) ≡ true }
    requires other { is_point_op job.now ≡ false }
    ensures { IsEnough job.now key result }
{
    match *job {
        Job::Move { rect, dx, dy } => needs_of_move(key, &rect, &written(job, 1), dx, dy),
        Job::Blur { rect, r } => around(&part_in(key, &rect), r),
        Job::Fill { .. } | Job::Dab { .. } | Job::Track { .. } => unreachable!(),
    }
}

/// The rectangle on which it hangs what a move leaves in the key's tile. `to` is the moved rectangle.
fn needs_of_move(key: TileKey, rect: &Rect, to: &Rect, dx: i32, dy: i32) -> Rect
    requires checked { checks (Move rect.now dx dy) ≡ true }
    requires limits { within_limits (Move rect.now dx dy) ≡ true }
    requires met { list_any (same_key key) (all_keys_of (writes (Move rect.now dx dy))) ≡ true }
    requires to { to.now ≡ moved_area rect.now dx dy }
    ensures { IsEnough (Move rect.now dx dy) key result }
{
    match to.clip(&key.rect()) {
        Some(part) => moved_back(&part, dx, dy),
        None => part_in(key, rect),
    }
}

/// The rectangle with r more columns and rows on each side.
fn around(rect: &Rect, r: u8) -> Rect
    requires { checks (Blur rect.now r) ≡ true }
    ensures { result ≡ grown rect.now r }
{
    Job::Blur { rect: *rect, r }.reads()[0]
}
