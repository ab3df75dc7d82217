//! How much work there is, as a count of points, and how many threads it is worth.

use doc_model::{Job, Track};
use geom_core::{Rect, TILE_POINTS, TILE_SIDE};
use pixel_rows::left_everywhere;
use tile_core::Shot;

/// The points from which on work is worth waking another thread for what is left beside it.
pub(crate) const WORTH_TWO: u64 = 7_500;

/// The most points of work that one thread does alone.
pub(crate) const ALONE: u64 = 60_000;

/// The ranges of tiles, for each thread, into which work is cut that several threads do.
pub(crate) const RANGES: usize = 6;

/// The points that a tile counts for which is shared with its neighbours.
const SHARED: u64 = 64;

/// About how much work a job is, as a count of points: those that it writes. Where a fill hides what is there, or
/// nothing is, it is less: such tiles have one pixel all over and are shared, so a fill of them is for one thread,
/// which makes one tile.
pub(crate) fn load_of(job: &Job, shot: &Shot) -> u64 {
    match *job {
        Job::Fill {
            rect,
            colour,
            op,
            strength,
        } => {
            let hides = left_everywhere(op, colour, strength).is_some();
            fill_load(&rect, hides, shot)
        }
        _ => points_of(job),
    }
}

/// How much work a fill is that hides what is there, or doesn't.
fn fill_load(rect: &Rect, hides: bool, shot: &Shot) -> u64 {
    let mut load = 0u64;
    for i in 0..rect.tile_count() {
        let key = rect.tile_at(i);
        let is_light = hides || shot.tile(key).is_none();
        load = load.saturating_add(part_load(rect, &key.rect(), is_light));
    }
    load
}

/// How much work it is to fill what a rectangle has of a tile.
fn part_load(rect: &Rect, tile: &Rect, is_light: bool) -> u64 {
    match rect.clip(tile) {
        Some(part) => {
            let points = part.points();
            if !is_light {
                points
            } else if points == TILE_POINTS as u64 {
                SHARED
            } else {
                points / 4
            }
        }
        None => 0,
    }
}

/// About how many points a job writes, each as often as it is written. Those of the two rectangles of a move count
/// twice.
pub fn points_of(job: &Job) -> u64 {
    match job {
        Job::Fill { rect, .. } => rect.points(),
        Job::Dab { r, .. } => {
            let side = 2 * u64::from(*r) + 1;
            side * side
        }
        Job::Move { rect, .. } => rect.points().saturating_mul(2),
        Job::Blur { rect, .. } => rect.points(),
        Job::Track { track, .. } => track_points(track),
    }
}

/// How many points the dabs of a track paint in one tile, if it goes straight through it.
fn track_points(track: &Track) -> u64 {
    let side = 2 * u64::from(track.stamp().r) + 1;
    let dabs = (TILE_SIDE as u64 + side) / u64::from(track.gap()).max(1) + 1;
    (side * side).min(TILE_POINTS as u64) * dabs
}
