//! The pixels of layers, each found from the steps that were taken.

ghost use Rattle.std.specs.Prelude.{◌≡◌, ◌≤◌, ◌==◌, ◌-ℤ◌, ℕ, ◌∷◌, true, cond, map, IfOk};
ghost use Rattle.std.specs.List.{list_all};
ghost use Rattle.geom_core.specs.Rects.{any_holds};
ghost use Rattle.brush_mask.specs.Mask.{mask as strength_of};
ghost use Rattle.geom_core.specs.Areas.{point, holds, lies_in, moved, points_of, world};
ghost use Rattle.doc_model.specs.Jobs.{writes, apply, apply_all, value, square, squares, stamped, all_stamped};
ghost use Rattle.doc_model.specs.declared.job.Job.TheVariants.{Move, Blur};
ghost use Rattle.doc_model.specs.Layers.{at};
ghost use Rattle.doc_model.specs.Trails.{centres};
ghost use Rattle.machine_model.specs.UnderWay.{jobs_only};
ghost use Rattle.plain_painter.specs.Steps.{point_of, layer_after, is_sound, job_sound};

use crate::mean::mean_of;
use crate::spots::{Spot, spots_of};
use brush_mask::mask;
use doc_model::{Job, Kind, Stamp, Track, square_round, track_dab, track_len};
use geom_core::{NoMemory, Rect};
use pixel_core::{Pixel, compose, mul};
use std::alloc::Global;

/// What was done to a layer.
#[derive(Clone, Copy, Debug)]
pub(crate) struct Step {
    pub layer: u16,
    pub deed: Deed,
}

/// One thing that is done to a layer.
#[derive(Clone, Copy, Debug)]
pub(crate) enum Deed {
    /// It is made, with that pixel everywhere.
    Fresh(Pixel),
    /// A job is done on it.
    Paint(Job),
}

/// The layer's pixel at a point after the steps, the newest of them first.
#[cycle(pixels)]
pub(crate) fn pixel_after(
    alloc: Global,
    steps: &[Step],
    id: u16,
    spot: Spot,
) -> Result<Pixel, NoMemory>
    requires { list_all is_sound steps.now ≡ true }
    ensures { IfOk result (λ p. p ≡ at (layer_after id steps.now) (point_of spot)) }
{
    let Some((step, older)) = steps.split_first() else {
        return Ok(Pixel::CLEAR);
    };
    if step.layer != id {
        return pixel_after(alloc, older, id, spot);
    }
    match step.deed {
        Deed::Fresh(pixel) => Ok(pixel),
        Deed::Paint(job) => pixel_painted(alloc, &job, older, id, spot),
    }
}

/// The layer's pixel after a job on it.
#[cycle(pixels)]
fn pixel_painted(
    alloc: Global,
    job: &Job,
    older: &[Step],
    id: u16,
    spot: Spot,
) -> Result<Pixel, NoMemory>
    requires sound { list_all is_sound older.now ≡ true }
    requires job_sound { job_sound job.now ≡ true }
    ensures { IfOk result (λ p. p ≡ at (apply job.now (layer_after id older.now)) (point_of spot)) }
{
    if is_written(job, spot) {
        pixel_written(alloc, job, older, id, spot)
    } else {
        pixel_after(alloc, older, id, spot)
    }
}

/// The layer's pixel where the job has written.
#[cycle(pixels)]
fn pixel_written(
    alloc: Global,
    job: &Job,
    older: &[Step],
    id: u16,
    spot: Spot,
) -> Result<Pixel, NoMemory>
    requires sound { list_all is_sound older.now ≡ true }
    requires job_sound { job_sound job.now ≡ true }
    requires written { any_holds (writes job.now) (point_of spot) ≡ true }
    ensures { IfOk result (λ p. p ≡ value job.now (layer_after id older.now) (point_of spot)) }
{
    match *job {
        Job::Fill {
            colour,
            op,
            strength,
            ..
        } => {
            let below = pixel_after(alloc, older, id, spot)?;
            Ok(compose(op, colour, below, strength))
        }
        Job::Dab {
            x,
            y,
            r,
            soft,
            colour,
            op,
            strength,
        } => {
            let below = pixel_after(alloc, older, id, spot)?;
            let masked = mul(mask_at(x, y, r, soft, spot), strength);
            Ok(compose(op, colour, below, masked))
        }
        Job::Move { rect, dx, dy } => pixel_moved(alloc, rect, dx, dy, older, id, spot),
        Job::Blur { rect, r } => pixel_blurred(alloc, rect, r, older, id, spot),
        Job::Track { track, .. } => {
            let below = pixel_after(alloc, older, id, spot)?;
            Ok(with_dabs(&track, below, spot))
        }
    }
}

/// What the dabs of a track leave of a pixel, the first of them first.
fn with_dabs(track: &Track, below: Pixel, spot: Spot) -> Pixel
    requires { list_all (λ a. lies_in a world) (squares track.now) ≡ true }
    ensures { result ≡ all_stamped track.now.stamp (centres track.now) (point_of spot) below }
{
    let stamp = track.stamp();
    let mut pixel = below;
    for i in 0..track_len(track) {
        let (x, y) = track_dab(track, i);
        pixel = with_dab(&stamp, x, y, pixel, spot);
    }
    pixel
}

/// What the dab round (x, y) leaves of a pixel.
fn with_dab(stamp: &Stamp, x: i32, y: i32, below: Pixel, spot: Spot) -> Pixel
    requires radius { stamp.now.r ≤ 128 }
    requires inside { lies_in (square x y stamp.now.r) world ≡ true }
    ensures { result ≡ stamped stamp.now (point x y) (point_of spot) below }
{
    let square = square_round(x, y, stamp.r).unwrap();
    if !square.holds(spot.x, spot.y) {
        return below;
    }
    let masked = mul(mask_at(x, y, stamp.r, stamp.soft, spot), stamp.strength);
    compose(stamp.op, stamp.colour, below, masked)
}

/// The mask of a round brush at (x, y) at a point of the square round it.
fn mask_at(x: i32, y: i32, r: u8, soft: bool, spot: Spot) -> u8
    requires radius { r ≤ 128 }
    requires held { holds (square x y r) (point_of spot) ≡ true }
    ensures { result ≡ strength_of r soft (spot.x -ℤ x) (spot.y -ℤ y) }
{
    let dx = i64::from(spot.x) - i64::from(x);
    let dy = i64::from(spot.y) - i64::from(y);
    mask(r, soft, dx as i16, dy as i16)
}

/// Whether the job writes the point.
fn is_written(job: &Job, spot: Spot) -> bool
    requires { job_sound job.now ≡ true }
    ensures { result ≡ any_holds (writes job.now) (point_of spot) }
{
    let writes = job.writes();
    writes
        .as_slice()
        .iter()
        .any(|rect| rect.holds(spot.x, spot.y))
}

/// The layer's pixel where a move has written: the one that came from there, or the default pixel.
#[cycle(pixels)]
fn pixel_moved(
    alloc: Global,
    rect: Rect,
    dx: i32,
    dy: i32,
    older: &[Step],
    id: u16,
    spot: Spot,
) -> Result<Pixel, NoMemory>
    requires sound { list_all is_sound older.now ≡ true }
    requires job_sound { job_sound (Move rect dx dy) ≡ true }
    ensures { IfOk result (λ p. p ≡ value (Move rect dx dy) (layer_after id older.now)
        (point_of spot)) }
{
    if is_reached(rect, dx, dy, spot) {
        pixel_after(alloc, older, id, source_of(rect, dx, dy, spot))
    } else {
        Ok(default_after(older, id))
    }
}

/// Whether the rectangle, moved by (dx, dy), holds the point.
fn is_reached(rect: Rect, dx: i32, dy: i32, spot: Spot) -> bool
    requires { job_sound (Move rect dx dy) ≡ true }
    ensures { result ≡ holds (moved rect dx dy) (point_of spot) }
{
    let writes = Job::Move { rect, dx, dy }.writes();
    writes[1].holds(spot.x, spot.y)
}

/// The point from which a moved one came.
fn source_of(rect: Rect, dx: i32, dy: i32, spot: Spot) -> Spot
    requires job_sound { job_sound (Move rect dx dy) ≡ true }
    requires reached { holds (moved rect dx dy) (point_of spot) ≡ true }
    ensures { point_of result ≡ point (spot.x -ℤ dx) (spot.y -ℤ dy) }
{
    Spot {
        x: spot.x - dx,
        y: spot.y - dy,
    }
}

/// The layer's pixel where a blur has written: the mean of those round it.
#[cycle(pixels)]
fn pixel_blurred(
    alloc: Global,
    rect: Rect,
    r: u8,
    older: &[Step],
    id: u16,
    spot: Spot,
) -> Result<Pixel, NoMemory>
    requires sound { list_all is_sound older.now ≡ true }
    requires job_sound { job_sound (Blur rect r) ≡ true }
    requires held { holds rect (point_of spot) ≡ true }
    ensures { IfOk result (λ p. p ≡ value (Blur rect r) (layer_after id older.now)
        (point_of spot)) }
{
    let spots = spots_round(alloc, rect, r, spot)?;
    let mut pixels = Vec::new(alloc);
    for spot in &spots {
        pixels.push(pixel_after(alloc, older, id, *spot)?)?;
    }
    Ok(mean_of(&pixels))
}

/// The points of the square of side 2r + 1 round a point of the rectangle.
fn spots_round(alloc: Global, rect: Rect, r: u8, spot: Spot) -> Result<Vec<Spot>, NoMemory>
    requires job_sound { job_sound (Blur rect r) ≡ true }
    requires held { holds rect (point_of spot) ≡ true }
    ensures { IfOk result (λ spots. map point_of spots.items ≡ points_of (square spot.x spot.y r)) }
{
    let side = 2 * u32::from(r) + 1;
    let reach = i32::from(r);
    match Rect::new(spot.x - reach, spot.y - reach, side, side) {
        Ok(square) => spots_of(alloc, &square),
        Err(_) => unreachable!(),
    }
}

/// The layer's default pixel after the steps.
fn default_after(steps: &[Step], id: u16) -> Pixel
    ensures { result ≡ (layer_after id steps.now).default_pixel }
{
    let Some((step, older)) = steps.split_first() else {
        return Pixel::CLEAR;
    };
    if step.layer != id {
        return default_after(older, id);
    }
    match step.deed {
        Deed::Fresh(pixel) => pixel,
        Deed::Paint(_) => default_after(older, id),
    }
}

/// The steps with more jobs on a layer.
pub(crate) fn with_jobs(
    alloc: Global,
    steps: &[Step],
    layer: u16,
    jobs: &[(Kind, Job)],
) -> Result<Vec<Step>, NoMemory>
    requires sound { list_all is_sound steps.now ≡ true }
    requires jobs_sound { list_all job_sound (jobs_only jobs.now) ≡ true }
    ensures sound { IfOk result (λ v. list_all is_sound v.items ≡ true) }
    ensures value { IfOk result (λ v. (q : ℕ) → layer_after q v.items ≡ cond (layer == q)
        (apply_all (jobs_only jobs.now) (layer_after q steps.now)) (layer_after q steps.now)) }
{
    let mut all = Vec::from_slice(alloc, steps)?;
    for entry in jobs {
        let step = Step {
            layer,
            deed: Deed::Paint(entry.1),
        };
        all = with_front(alloc, step, &all)?;
    }
    Ok(all)
}

/// The items with one more before them.
pub(crate) fn with_front<T: Copy>(alloc: Global, first: T, rest: &[T]) -> Result<Vec<T>, NoMemory>
    ensures { IfOk result (λ v. v.items ≡ first ∷ rest.now) }
{
    let mut all = Vec::new(alloc);
    all.push(first)?;
    all.extend_from_slice(rest)?;
    Ok(all)
}
