//! Rectangles of jobs, and what they have of one tile.

ghost use Rattle.std.specs.Prelude.{◌≡◌, ◌<◌, ◌-ℤ◌, pos, true, length, slice_get, Some};
ghost use Rattle.geom_core.specs.Areas.{lies_in, meets, moved as moved_area, world};
ghost use Rattle.geom_core.specs.Rects.{IsShared};
ghost use Rattle.geom_core.specs.Grid.{tile};
ghost use Rattle.geom_core.specs.Keys.{IsWorldKey};
ghost use Rattle.doc_model.specs.Jobs.{checks, writes};
ghost use Rattle.job_core.specs.Made.{IsStep};

use doc_model::Job;
use geom_core::{Rect, TileKey};

/// The points of the rectangle in the key's tile.
pub fn part_in(key: TileKey, rect: &Rect) -> Rect
    requires key { IsWorldKey key }
    requires met { meets rect.now (tile key) ≡ true }
    ensures { IsShared rect.now (tile key) result }
{
    rect.clip(&key.rect()).unwrap()
}

/// The rectangle with that index, from 0, of those that the job may change.
pub fn written(job: &Job, i: usize) -> Rect
    requires checked { checks job.now ≡ true }
    requires there { i < length (writes job.now) }
    ensures { slice_get (writes job.now) i ≡ Some result }
{
    job.writes()[i]
}

/// The rectangle moved back by (dx, dy).
pub fn moved_back(rect: &Rect, dx: i32, dy: i32) -> Rect
    requires step { IsStep dx dy }
    requires from { lies_in (moved_area rect.now (pos 0 -ℤ dx) (pos 0 -ℤ dy)) world ≡ true }
    ensures { result ≡ moved_area rect.now (pos 0 -ℤ dx) (pos 0 -ℤ dy) }
{
    rect.moved(-dx, -dy).unwrap()
}
