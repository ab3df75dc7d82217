//! Tracks.

ghost use Rattle.std.specs.Prelude.{◌≡◌, ◌∷◌, [], ◌≤◌, ◌<◌, ◌+◌, ◌≤ℤ◌, ◌+ℤ◌, ◌-ℤ◌, ℕ, pos, negsuc, true, false, length, IfOk};
ghost use Rattle.job_core.specs.Due.{IsDue};
ghost use Rattle.job_core.specs.Paints.{Leaves};
ghost use Rattle.std.specs.List.{list_all};
ghost use Rattle.geom_core.specs.Areas.{point, lies_in, world};
ghost use Rattle.geom_core.specs.Keys.{IsWorldKey};
ghost use Rattle.doc_model.specs.Tracks.{point_of};
ghost use Rattle.doc_model.specs.Jobs.{square as square_of, squares};
ghost use Rattle.job_core.specs.Points.{LaysJob};
ghost use Rattle.job_core.specs.Tracks.{LaysStamps, points_on, AllInside, IsNear, IsBeside, AreWithin, stands, reaches};

use crate::dabs::Brush;
use crate::ink::Ink;
use crate::points::dab_in;
use doc_model::{Job, Segment, Stamp, Track, segment_at};
use geom_core::{NoMemory, Rect, TileKey};
use pixel_core::Pixel;
use std::alloc::Global;
use tile_core::{Block, Shot};

/// What a track leaves in the key's tile.
pub fn tracked(
    alloc: Global,
    shot: &Shot,
    key: TileKey,
    track: &Track,
    cell: TileKey,
) -> Result<Block, NoMemory>
    requires { IsDue (Job.Track track.now cell) shot.now key }
    ensures { IfOk result (λ b. Leaves (Job.Track track.now cell) shot.now key (b ∷ [])) }
{
    let rect = key.rect();
    let mut pixels = shot.read(alloc, key, &rect)?;
    lay_track(key, track, &mut pixels);
    Ok(Block::from_pixels(key, rect, pixels))
}

/// Lays the dabs of a track on the key's tile, the first of them first.
pub fn lay_track(key: TileKey, track: &Track, tile: &mut [Pixel])
    requires key { IsWorldKey key }
    requires inside { list_all (λ a. lies_in a world) (squares track.now) ≡ true }
    requires whole { length tile.old ≡ 4096 }
    ensures { LaysJob key (Job.Track track.now key) tile.old tile.new }
{
    let points = track.points();
    let gap = track.gap();
    let stamp = track.stamp();
    for i in 0..points.len() - 1 {
        lay_segment(key, &segment_at(points, i), gap, &stamp, tile);
    }
    let last = points[points.len() - 1];
    lay_stamp(key, i32::from(last.0), i32::from(last.1), &stamp, tile);
}

/// Lays the dabs of a segment on the key's tile. Only those near it are looked at.
fn lay_segment(key: TileKey, segment: &Segment, gap: u8, stamp: &Stamp, tile: &mut [Pixel])
    requires key { IsWorldKey key }
    requires gap { 1 ≤ gap }
    requires radius { stamp.now.r ≤ 128 }
    requires inside { AllInside stamp.now (points_on gap segment.now) }
    requires whole { length tile.old ≡ 4096 }
    ensures { LaysStamps key stamp.now (points_on gap segment.now) tile.old tile.new }
{
    let span = near_dabs(segment, gap, stamp.r, &key.rect());
    for k in span.first..span.end {
        let (x, y) = segment.point(k * u32::from(gap));
        lay_stamp(key, x, y, stamp, tile);
    }
}

/// Lays the dab round a point on the key's tile, where the two meet.
fn lay_stamp(key: TileKey, x: i32, y: i32, stamp: &Stamp, tile: &mut [Pixel])
    requires key { IsWorldKey key }
    requires radius { stamp.now.r ≤ 128 }
    requires inside { lies_in (square_of x y stamp.now.r) world ≡ true }
    requires whole { length tile.old ≡ 4096 }
    ensures { LaysStamps key stamp.now (point x y ∷ []) tile.old tile.new }
{
    let brush = Brush {
        x,
        y,
        r: stamp.r,
        soft: stamp.soft,
    };
    let ink = Ink {
        colour: stamp.colour,
        op: stamp.op,
        strength: stamp.strength,
    };
    if brush.square().meets(&key.rect()) {
        dab_in(key, &brush, &ink, tile);
    }
}

/// Some of a segment's dabs, by their places: from `first` up to `end`, without it.
#[derive(Clone, Copy)]
struct Span {
    first: u32,
    end: u32,
}

/// Places of a segment's dabs among which are all that meet a rectangle.
fn near_dabs(segment: &Segment, gap: u8, r: u8, bounds: &Rect) -> Span
    requires { 1 ≤ gap }
    ensures few { result.end ≤ 65535 }
    ensures near { IsNear (point_of segment.now.from) (point_of segment.now.to) gap r bounds.now
        result.first result.end }
{
    let count = segment.dab_count(gap);
    let Segment { from, to } = *segment;
    let steps = if from.0.abs_diff(to.0) as u32 == segment.steps() {
        near_steps(from.0, to.0 < from.0, r, bounds.x(), bounds.w())
    } else {
        near_steps(from.1, to.1 < from.1, r, bounds.y(), bounds.h())
    };
    multiples(steps, gap, count)
}

/// A row of steps from `low` to `high`.
#[derive(Clone, Copy)]
struct Steps {
    low: i32,
    high: i32,
}

/// The steps from a place along one axis, forward or back, at which a dab reaches a part of the axis.
fn near_steps(from: i16, back: bool, r: u8, start: i32, size: u32) -> Steps
    requires low { negsuc 16383 ≤ℤ start }
    requires high { start ≤ℤ pos 16383 }
    requires size { size ≤ 32768 }
    ensures { (n : ℕ) → IsBeside result.low result.high n
        → reaches (stands from back n) r start size ≡ false }
{
    let low = first_reached(start, r);
    let high = last_reached(start, size, r);
    let from = i32::from(from);
    if back {
        Steps {
            low: from - high,
            high: from - low,
        }
    } else {
        Steps {
            low: low - from,
            high: high - from,
        }
    }
}

/// The first place from which a dab reaches a part of an axis.
fn first_reached(start: i32, r: u8) -> i32
    requires low { negsuc 16383 ≤ℤ start }
    requires high { start ≤ℤ pos 16383 }
    ensures { result ≡ start -ℤ pos r }
{
    start - i32::from(r)
}

/// The last place from which a dab reaches a part of an axis.
fn last_reached(start: i32, size: u32, r: u8) -> i32
    requires low { negsuc 16383 ≤ℤ start }
    requires high { start ≤ℤ pos 16383 }
    requires size { size ≤ 32768 }
    ensures { result ≡ ((start +ℤ pos size) +ℤ pos r) -ℤ pos 1 }
{
    start + size as i32 + i32::from(r) - 1
}

/// The places of the multiples of a gap that lie within these steps, of as many as there are.
fn multiples(steps: Steps, gap: u8, count: u32) -> Span
    requires { 1 ≤ gap }
    ensures { AreWithin steps.low steps.high gap count result.first result.end }
{
    if steps.high < 0 {
        return Span {
            first: count,
            end: count,
        };
    }
    let gap = u32::from(gap);
    let end = (steps.high as u32 / gap).saturating_add(1).min(count);
    let first = (steps.low.max(0) as u32).div_ceil(gap).min(end);
    Span { first, end }
}
