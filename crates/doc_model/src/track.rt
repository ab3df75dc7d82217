//! Tracks: dabs in a row along a polyline.

ghost use Rattle.std.specs.Prelude.{◌≡◌, ◌≤◌, ◌<◌, ◌+◌, ◌*◌, ◌≤ℤ◌, ◌-ℤ◌, ◌+ℤ◌, ◌*ℤ◌, pos, negsuc, nat_abs, map, length, slice_get, Some, true};
ghost use Rattle.std.specs.List.{list_all};
ghost use Rattle.geom_core.specs.Areas.{point, lies_in, world};
ghost use Rattle.geom_core.specs.Grid.{floor_by};
ghost use Rattle.doc_model.specs.Trails.{trail, distance, along, how_many_on, centres};
ghost use Rattle.doc_model.specs.TrailRules.{IsTrail};
ghost use Rattle.doc_model.specs.Tracks.{point_of};

use pixel_core::{Op, Pixel};
use std::marker::Model;

/// What each dab of a track paints: a colour in a round brush.
#[derive(Clone, Copy, Debug, PartialEq, Eq)]
pub struct Stamp {
    /// The radius of the brush, in pixels.
    pub r: u8,
    /// Whether the brush is weaker towards its rim.
    pub soft: bool,
    pub colour: Pixel,
    pub op: Op,
    pub strength: u8,
}

/// Dabs in a row along a polyline of 2 to 8 points, one each gap, with one at each of its points.
#[derive(Clone, Copy, Debug, PartialEq, Eq)]
pub struct Track {
    points: [(i16, i16); 8],
    len: u8,
    gap: u8,
    stamp: Stamp,
}

impl Model for Track {
    ghost use Rattle.doc_model.specs.Trails.{Trail};
    ghost use Rattle.doc_model.specs.TrailRules.{trail_code};

    ghost Value = { Trail };

    ghost coded = { trail_code };

    ghost use Rattle.doc_model.specs.Tracks.{seen, kept, IsTrack, kept-seen};

    ghost view = { seen };

    ghost invariant = { IsTrack };

    ghost inverse = { kept };

    ghost inverse_ok = { kept-seen };
}

impl Track {
    /// The track along 2 to 8 points, with a dab each `gap` of 1 to 255, of a radius of at most 128.
    pub fn new(points: &[(i16, i16)], gap: u8, stamp: Stamp) -> Track
        requires several { 2 ≤ length points.now }
        requires few { length points.now ≤ 8 }
        requires gap { 1 ≤ gap }
        requires radius { stamp.r ≤ 128 }
        ensures { result ≡ trail (map point_of points.now) gap stamp }
    {
        let mut kept = [(0, 0); 8];
        kept[..points.len()].copy_from_slice(points);
        Track {
            points: kept,
            len: points.len() as u8,
            gap,
            stamp,
        }
    }

    /// The points of the polyline, 2 to 8.
    pub fn points(&self) -> &[(i16, i16)]
        ensures value { map point_of result.now ≡ self.now.points }
        ensures known { IsTrail self.now }
    {
        &self.points[..self.len as usize]
    }

    /// How far apart the dabs stand, by the greater of their distances across and down: 1 to 255.
    pub fn gap(&self) -> u8
        ensures value { result ≡ self.now.gap }
        ensures known { IsTrail self.now }
    {
        self.gap
    }

    /// What each dab paints.
    pub fn stamp(&self) -> Stamp
        ensures value { result ≡ self.now.stamp }
        ensures known { IsTrail self.now }
    {
        self.stamp
    }
}

/// A segment of a polyline.
#[derive(Clone, Copy)]
pub struct Segment {
    pub from: (i16, i16),
    pub to: (i16, i16),
}

impl Segment {
    /// How many steps it is long: its columns or its rows, whichever are more.
    pub fn steps(&self) -> u32
        ensures value { result ≡ distance (point_of self.now.from) (point_of self.now.to) }
        ensures small { result ≤ 65535 }
        ensures across { nat_abs (self.now.to.0 -ℤ self.now.from.0) ≤ result }
        ensures down { nat_abs (self.now.to.1 -ℤ self.now.from.1) ≤ result }
    {
        way(self.from.0, self.to.0)
            .unsigned_abs()
            .max(way(self.from.1, self.to.1).unsigned_abs())
    }

    /// How many dabs stand on it, one each `gap` steps, without one at its end.
    pub fn dab_count(&self, gap: u8) -> u32
        requires { 1 ≤ gap }
        ensures value { result ≡ how_many_on gap (point_of self.now.from) (point_of self.now.to) }
        ensures small { result ≤ 65535 }
    {
        self.steps().div_ceil(u32::from(gap))
    }

    /// The point that lies n steps from its start.
    pub fn point(&self, n: u32) -> (i32, i32)
        requires { n < distance (point_of self.now.from) (point_of self.now.to) }
        ensures { point result.0 result.1
            ≡ along (point_of self.now.from) (point_of self.now.to) n }
    {
        let steps = self.steps();
        (
            i32::from(self.from.0) + share(way(self.from.0, self.to.0), n, steps),
            i32::from(self.from.1) + share(way(self.from.1, self.to.1), n, steps),
        )
    }
}

/// How far it is from one column, or row, to another.
fn way(from: i16, to: i16) -> i32
    ensures value { result ≡ to -ℤ from }
    ensures small { nat_abs result ≤ 65535 }
{
    i32::from(to) - i32::from(from)
}

/// The way that n of some steps go of a whole way d, rounded down.
fn share(d: i32, n: u32, steps: u32) -> i32
    requires way { nat_abs d ≤ steps }
    requires step { n < steps }
    requires small { steps ≤ 65535 }
    ensures value { result ≡ floor_by steps (d *ℤ pos n) }
    ensures far { nat_abs result ≤ 65535 }
{
    let parts = d.unsigned_abs() * n;
    if d < 0 {
        -(((parts + (steps - 1)) / steps) as i32)
    } else {
        (parts / steps) as i32
    }
}

/// How many dabs the track has.
pub fn track_len(track: &Track) -> u32
    ensures { result ≡ length (centres track.now) }
{
    let points = track.points();
    let gap = track.gap();
    let mut count = 1;
    for i in 0..points.len() - 1 {
        count += segment_at(points, i).dab_count(gap);
    }
    count
}

/// The centre of the dab with that place, which counts from 0.
pub fn track_dab(track: &Track, i: u32) -> (i32, i32)
    requires { i < length (centres track.now) }
    ensures { Some (point result.0 result.1) ≡ slice_get (centres track.now) i }
{
    let points = track.points();
    let gap = track.gap();
    let mut left = i;
    for k in 0..points.len() - 1 {
        let segment = segment_at(points, k);
        let count = segment.dab_count(gap);
        if left < count {
            return segment.point(left * u32::from(gap));
        }
        left -= count;
    }
    let last = points[points.len() - 1];
    (i32::from(last.0), i32::from(last.1))
}

/// The segment of a polyline from the point with that place, which counts from 0, to the next.
pub fn segment_at(points: &[(i16, i16)], i: usize) -> Segment
    requires { i + 1 < length points.now }
    ensures from { Some result.from ≡ slice_get points.now i }
    ensures to { Some result.to ≡ slice_get points.now (i + 1) }
{
    Segment {
        from: points[i],
        to: points[i + 1],
    }
}
