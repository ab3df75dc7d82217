//! Paths by numbers.

ghost use Rattle.std.specs.Prelude.{◌≡◌, ◌≤◌, true, IfOk, map, take, length};
ghost use Rattle.std.specs.List.{list_all};
ghost use Rattle.geom_core.specs.Areas.{lies_in, world};
ghost use Rattle.doc_model.specs.Jobs.{squares};
ghost use Rattle.doc_model.specs.Trails.{centres};
ghost use Rattle.doc_model.specs.Tracks.{point_of};
ghost use Rattle.script_lines.specs.Colours.{is_byte, is_pixel};
ghost use Rattle.script_forms.specs.Ranges.{is_coordinate as in_field, is_number, trail_in_range};
ghost use Rattle.host_lines.specs.Lines.{IsGood};
ghost use Rattle.host_lines.specs.Said.{track_told};
ghost use Rattle.host_desk.specs.Feeding.{FedPath};
ghost use Rattle.host_desk.specs.Paths.{is_near, path_by, spot, stamped, track_by};

use crate::feeding::feed_told;
use crate::host::Host;
use doc_model::{Job, Stamp, Track, track_len};
use geom_core::TileKey;
use host_lines::{Answer, Line, StrokesBrush, StrokesPoint, stamp_of};
use script_lines::Cause;

impl Host {
    /// Adds the dabs along a line of 2 to 8 points to a stroke, one each `gap` steps from 1 to 255, as a `path` of a
    /// script does: one job in each tile that the dabs meet.
    ///
    /// It answers `Done`; `Fault` with what a line of it would have; `Full`; `NoMemory`, and the first of the jobs may
    /// be fed. But for the last two nothing is fed where it isn't `Done`.
    pub fn path(
        &mut self,
        no: u32,
        gap: u8,
        points: &[StrokesPoint],
        brush: &StrokesBrush,
    ) -> Answer
        ensures { FedPath (path_by no gap points.now brush.now) self.old result self.new }
    {
        feed_told(self.alloc, &mut self.desk, &line_by(no, gap, points, brush))
    }
}

/// The line that these numbers stand for.
fn line_by(no: u32, gap: u8, points: &[StrokesPoint], brush: &StrokesBrush) -> Line
    ensures value { result ≡ track_told (path_by no gap points.now brush.now) }
    ensures good { IsGood result }
{
    match path_of(no, gap, points, brush) {
        Ok((no, track)) => Line::Path(no, track),
        Err(cause) => Line::Wrong(cause),
    }
}

/// The stroke's number and the track of a path, where all of its dabs lie in the world.
#[tactic(auto, unfolding(crate::specs::Paths::path_by))]
fn path_of(
    no: u32,
    gap: u8,
    points: &[StrokesPoint],
    brush: &StrokesBrush,
) -> Result<(u32, Track), Cause>
    ensures value { result ≡ path_by no gap points.now brush.now }
    ensures number { IfOk result (λ p. is_number p.0 ≡ true) }
    ensures ranges { IfOk result (λ p. trail_in_range p.1 ≡ true) }
    ensures few { IfOk result (λ p. length (centres p.1) ≤ 4096) }
    ensures inside { IfOk result (λ p. list_all (λ a. lies_in a world) (squares p.1) ≡ true) }
{
    let track = track_of(gap, points, brush)?;
    let cell = TileKey { row: 0, col: 0 };
    match (Job::Track { track, cell }).check() {
        Ok(()) => Ok((no, track)),
        Err(_) => Err(Cause::OutOfWorld),
    }
}

/// The track along these points, unless it has too many dabs.
#[tactic(auto, using(crate::proofs::KeptPoints::short_all, crate::proofs::KeptPoints::spot_count), unfolding(crate::specs::Paths::track_by))]
fn track_of(gap: u8, points: &[StrokesPoint], brush: &StrokesBrush) -> Result<Track, Cause>
    ensures value { result ≡ track_by gap points.now brush.now }
    ensures ranges { IfOk result (λ t. trail_in_range t ≡ true) }
    ensures few { IfOk result (λ t. length (centres t) ≤ 4096) }
{
    if points.len() < 2 || points.len() > 8 {
        return Err(Cause::FieldCount);
    }
    if gap < 1 || !are_short(points) {
        return Err(Cause::Range);
    }
    let stamp = stamp_by(brush)?;
    let track = Track::new(&kept(points)[..points.len()], gap, stamp);
    if track_len(&track) > 4096 {
        return Err(Cause::TooManyDabs);
    }
    Ok(track)
}

/// What a brush lays, or that one of its numbers is outside its range.
fn stamp_by(brush: &StrokesBrush) -> Result<Stamp, Cause>
    ensures value { result ≡ stamped brush.now }
    ensures radius { IfOk result (λ s. s.r ≤ 128) }
    ensures colour { IfOk result (λ s. is_pixel s.colour ≡ true) }
    ensures strength { IfOk result (λ s. is_byte s.strength ≡ true) }
{
    match stamp_of(brush) {
        Some(stamp) => Ok(stamp),
        None => Err(Cause::Range),
    }
}

/// Whether each point is one that a line may tell.
fn are_short(points: &[StrokesPoint]) -> bool
    ensures { result ≡ list_all is_near points.now }
{
    points.iter().all(|point| is_short(point))
}

/// Whether a point is one that a line may tell.
fn is_short(point: &StrokesPoint) -> bool
    ensures { result ≡ is_near point.now }
{
    is_coordinate(point.x) && is_coordinate(point.y)
}

/// Whether a column or a row is one that a line may tell.
fn is_coordinate(x: i32) -> bool
    ensures { result ≡ in_field x }
{
    -32768 <= x && x <= 32767
}

/// The points in few bytes, from the first place on.
#[tactic(auto, using(crate::proofs::KeptPoints::kept_all))]
fn kept(points: &[StrokesPoint]) -> [(i16, i16); 8]
    requires few { length points.now ≤ 8 }
    requires short { list_all is_near points.now ≡ true }
    ensures { map point_of (take (length points.now) result) ≡ map spot points.now }
{
    let mut kept = [(0, 0); 8];
    for i in 0..points.len() {
        kept[i] = pair_of(&points[i]);
    }
    kept
}

/// A point in few bytes.
fn pair_of(point: &StrokesPoint) -> (i16, i16)
    requires { is_near point.now ≡ true }
    ensures { point_of result ≡ spot point.now }
{
    (point.x as i16, point.y as i16)
}
