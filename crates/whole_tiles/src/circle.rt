//! Which tiles of its square the circle of a dab reaches.

ghost use Rattle.std.specs.Prelude.{◌≡◌, ◌≤◌, ◌*◌, ◌≤ℤ◌, pos, negsuc, true, false};
ghost use Rattle.geom_core.specs.Keys.{IsWorldKey};
ghost use Rattle.geom_core.specs.Place.{IsOffset};
ghost use Rattle.doc_model.specs.Jobs.{checks};
ghost use Rattle.whole_tiles.specs.Circles.{LeavesTile, LieApart, LiesOutside};

use doc_model::Job;
use geom_core::{CORNER, TileKey};

/// How far the last column of a tile lies behind the first, and the last row below it.
const LAST: u32 = 63;

/// Whether a job may change a pixel in a tile that it writes in. A dab does so within its circle alone.
pub(crate) fn reaches(job: &Job, key: TileKey) -> bool
    requires checked { checks job.now ≡ true }
    requires key { IsWorldKey key }
    ensures { result ≡ false → LeavesTile job.now key }
{
    match *job {
        Job::Dab { x, y, r, .. } => is_reached(key, x, y, r),
        _ => true,
    }
}

/// Whether the tile's point nearest to (x, y) lies in the circle of radius `r` round it.
fn is_reached(key: TileKey, x: i32, y: i32, r: u8) -> bool
    requires key { IsWorldKey key }
    requires left { negsuc 16383 ≤ℤ x }
    requires right { x ≤ℤ pos 16383 }
    requires top { negsuc 16383 ≤ℤ y }
    requires bottom { y ≤ℤ pos 16383 }
    ensures { result ≡ false → LiesOutside key x y r }
{
    let tile = key.rect();
    let across = gap(from_corner(x), tile.left());
    let down = gap(from_corner(y), tile.top());
    square(across) + square(down) <= square(u32::from(r))
}

/// How far a column or row of the world lies from the world's corner.
fn from_corner(x: i32) -> u32
    requires low { negsuc 16383 ≤ℤ x }
    requires high { x ≤ℤ pos 16383 }
    ensures value { IsOffset result x }
    ensures small { result ≤ 32767 }
{
    (x + CORNER) as u32
}

/// How far a column lies from the nearest of the 64 from `first` on, or a row likewise. All count from
/// the world's corner.
fn gap(centre: u32, first: u32) -> u32
    requires centre { centre ≤ 32767 }
    requires first { first ≤ 32704 }
    ensures apart { LieApart result centre first }
    ensures small { result ≤ 32767 }
{
    if centre < first {
        first - centre
    } else {
        centre.saturating_sub(first + LAST)
    }
}

fn square(n: u32) -> u32
    requires { n ≤ 32767 }
    ensures value { result ≡ n * n }
    ensures small { result ≤ 1073676289 }
{
    n * n
}
