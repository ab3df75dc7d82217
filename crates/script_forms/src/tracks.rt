//! Lines of tracks.

ghost use Rattle.std.specs.Prelude.{◌≡◌, true, ◌&&◌, ◌≤◌, ◌*◌, ◌-◌, nat_le, map, take, length, IfOk, [], ◌∷◌};
ghost use Rattle.std.specs.List.{list_all};
ghost use Rattle.geom_core.specs.Areas.{lies_in, world};
ghost use Rattle.doc_model.specs.Jobs.{squares, checks};
ghost use Rattle.doc_model.specs.declared.job.Job.TheVariants.{Track as TrackJob};
ghost use Rattle.doc_model.specs.Trails.{centres};
ghost use Rattle.doc_model.specs.Tracks.{point_of};
ghost use Rattle.doc_model.specs.Lawful.{within_limits};
ghost use Rattle.script_lines.specs.Fronts.{pointed};
ghost use Rattle.script_lines.specs.Colours.{is_pixel, is_byte};
ghost use Rattle.script_forms.specs.Ranges.{job_in_range, trail_in_range, is_number};
ghost use Rattle.script_forms.specs.Jobs.{stamp as told_stamp, point_at as told_point, points_at as told_points, are_points as told_count, polyline as told_polyline, along as told_along, trail_of as told_trail, cell_at as told_cell, drawn as told_drawn, path as told_path, track as told_track, checked as told_checked};
ghost use Rattle.script_forms.specs.Points.{ReadsPoint, ReadsPoints};

use crate::jobs::{Ink, read_ink};
use crate::words::edge_of;
use doc_model::{Job, Stamp, Track, track_len};
use geom_core::TileKey;
use script_lines::{Cause, natural, number_in};

/// What each dab of a track paints.
#[tactic(auto, unfolding(crate::specs::Jobs::stamp))]
fn read_stamp(
    radius: &[u8],
    edge: &[u8],
    colour: &[u8],
    operation: &[u8],
    strength: &[u8],
) -> Result<Stamp, Cause>
    ensures value { result ≡ told_stamp radius.now edge.now colour.now operation.now strength.now }
    ensures radius { IfOk result (λ s. s.r ≤ 128) }
    ensures colour { IfOk result (λ s. is_pixel s.colour ≡ true) }
    ensures strength { IfOk result (λ s. is_byte s.strength ≡ true) }
{
    let r = natural(0, 128, radius)? as u8;
    let soft = edge_of(edge)?;
    let Ink {
        colour,
        op,
        strength,
    } = read_ink(colour, operation, strength)?;
    Ok(Stamp {
        r,
        soft,
        colour,
        op,
        strength,
    })
}

/// A point of a polyline.
#[tactic(auto, unfolding(crate::specs::Jobs::point_at))]
fn read_point(left: &[u8], top: &[u8]) -> Result<(i16, i16), Cause>
    ensures { ReadsPoint (told_point left.now top.now) result }
{
    let x = number_in(-32768, 32767, left)? as i16;
    let y = number_in(-32768, 32767, top)? as i16;
    Ok((x, y))
}

/// Whether so many fields are those of 2 to 8 points.
pub(crate) fn are_points(count: usize) -> bool
    ensures { result ≡ told_count count }
{
    count >= 4 && count <= 16 && count % 2 == 0
}

/// So many points of a polyline, each by two fields.
fn read_points(fields: &[&[u8]], count: usize) -> Result<[(i16, i16); 8], Cause>
    requires all { length fields.now ≡ 2 * count }
    requires few { count ≤ 8 }
    ensures { ReadsPoints (told_points (pointed fields.now)) count result }
{
    let mut points = [(0, 0); 8];
    for i in 0..count {
        points[i] = read_point(fields[2 * i], fields[2 * i + 1])?;
    }
    Ok(points)
}

/// A track with that gap and stamp, unless it has too many dabs.
fn read_track(points: &[&[u8]], gap: u8, stamp: Stamp) -> Result<Track, Cause>
    requires gap { 1 ≤ gap }
    requires radius { stamp.r ≤ 128 }
    requires colour { is_pixel stamp.colour ≡ true }
    requires strength { is_byte stamp.strength ≡ true }
    ensures value { result ≡ told_along gap stamp (told_polyline (pointed points.now)) }
    ensures ranges { IfOk result (λ t. trail_in_range t ≡ true) }
    ensures few { IfOk result (λ t. nat_le (length (centres t)) 4096 ≡ true) }
{
    if !are_points(points.len()) {
        return Err(Cause::FieldCount);
    }
    let count = points.len() / 2;
    let points = read_points(points, count)?;
    let track = Track::new(&points[..count], gap, stamp);
    if track_len(&track) > 4096 {
        return Err(Cause::TooManyDabs);
    }
    Ok(track)
}

/// A track of at most 4,096 dabs, from the radius on.
#[tactic(auto, unfolding(crate::specs::Jobs::trail_of))]
pub(crate) fn trail_of(fields: &[&[u8]]) -> Result<Track, Cause>
    ensures value { result ≡ told_trail (pointed fields.now) }
    ensures ranges { IfOk result (λ t. trail_in_range t ≡ true) }
    ensures few { IfOk result (λ t. nat_le (length (centres t)) 4096 ≡ true) }
{
    match fields {
        [radius, edge, colour, operation, strength, gap, points @ ..] => {
            let stamp = read_stamp(radius, edge, colour, operation, strength)?;
            let gap = natural(1, 255, gap)? as u8;
            read_track(points, gap, stamp)
        }
        _ => Err(Cause::FieldCount),
    }
}

/// The tile of a track's job.
#[tactic(auto, unfolding(crate::specs::Jobs::cell_at))]
fn read_cell(column: &[u8], row: &[u8]) -> Result<TileKey, Cause>
    ensures { result ≡ told_cell column.now row.now }
{
    let col = number_in(-256, 255, column)? as i16;
    let row = number_in(-256, 255, row)? as i16;
    Ok(TileKey { row, col })
}

/// A track's job, where all of its dabs lie in the world.
fn checked(job: Job) -> Result<Job, Cause>
    requires ranges { job_in_range job ≡ true }
    requires limits { within_limits job ≡ true }
    ensures value { result ≡ told_checked job }
    ensures ranges { IfOk result (λ j. job_in_range j ≡ true) }
    ensures sound { IfOk result (λ j. (checks j && within_limits j) ≡ true) }
{
    match job.check() {
        Ok(()) => Ok(job),
        Err(_) => Err(Cause::OutOfWorld),
    }
}

#[tactic(auto, unfolding(crate::specs::Jobs::track))]
pub(crate) fn track(fields: &[&[u8]]) -> Result<Job, Cause>
    ensures value { result ≡ told_track (pointed fields.now) }
    ensures ranges { IfOk result (λ j. job_in_range j ≡ true) }
    ensures sound { IfOk result (λ j. (checks j && within_limits j) ≡ true) }
{
    match fields {
        [column, row, others @ ..] => {
            let cell = read_cell(column, row)?;
            let track = trail_of(others)?;
            checked(Job::Track { track, cell })
        }
        _ => Err(Cause::FieldCount),
    }
}

/// A path: the number of its stroke, and its track.
#[tactic(auto, unfolding(crate::specs::Jobs::path))]
pub fn path(fields: &[&[u8]]) -> Result<(u32, Track), Cause>
    ensures value { result ≡ told_path (pointed fields.now) }
    ensures number { IfOk result (λ p. is_number p.0 ≡ true) }
    ensures ranges { IfOk result (λ p. trail_in_range p.1 ≡ true) }
    ensures few { IfOk result (λ p. length (centres p.1) ≤ 4096) }
    ensures inside { IfOk result (λ p. list_all (λ a. lies_in a world) (squares p.1) ≡ true) }
{
    match fields {
        [number, others @ ..] => {
            if !are_points(others.len().saturating_sub(6)) {
                return Err(Cause::FieldCount);
            }
            let no = natural(0, 4294967295, number)? as u32;
            let track = trail_of(others)?;
            drawn(no, track)
        }
        _ => Err(Cause::FieldCount),
    }
}

/// A stroke's number and a track, where all of its dabs lie in the world.
fn drawn(no: u32, track: Track) -> Result<(u32, Track), Cause>
    ensures value { result ≡ told_drawn no track }
    ensures same { IfOk result (λ p. (p.0 ≡ no) × (p.1 ≡ track)) }
    ensures inside { IfOk result (λ p. list_all (λ a. lies_in a world) (squares p.1) ≡ true) }
{
    let cell = TileKey { row: 0, col: 0 };
    match (Job::Track { track, cell }).check() {
        Ok(()) => Ok((no, track)),
        Err(_) => Err(Cause::OutOfWorld),
    }
}
