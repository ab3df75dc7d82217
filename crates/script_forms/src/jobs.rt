//! Lines that add a job to a stroke.

ghost use Rattle.std.specs.Prelude.{◌≡◌, true, ◌&&◌, ◌≤◌, pos, negsuc, ◌≤ℤ◌, ◌+◌, ◌*◌, ◌-ℤ◌, IfOk, [], ◌∷◌};
ghost use Rattle.geom_core.specs.Areas.{area, lies_in, world, moved};
ghost use Rattle.doc_model.specs.declared.job.Job.TheVariants.{Fill, Dab, Move, Blur};
ghost use Rattle.doc_model.specs.Jobs.{square, grown, checks};
ghost use Rattle.script_lines.specs.Fronts.{pointed};
ghost use Rattle.script_lines.specs.Colours.{is_pixel, is_byte};
ghost use Rattle.doc_model.specs.Lawful.{within_limits};
ghost use Rattle.script_forms.specs.Ranges.{job_in_range, in_range, is_sound, IsOutline, IsTip, in_world};
ghost use Rattle.script_forms.specs.Jobs.{outline as told_outline, ink as told_ink, tip as told_tip, job_of as told_job, job_fields as fields_of_job, paint as told_paint, area_of, checked};

use crate::tracks::{are_points, track};
use crate::words::{JobWord, edge_of, kind_of, op_of};
use doc_model::{Command, Job};
use geom_core::Rect;
use pixel_core::{Op, Pixel};
use script_lines::{Cause, natural, number_in, rgba};

/// A rectangle that may leave the world.
#[derive(Clone, Copy)]
pub struct Outline {
    pub(crate) x: i32,
    pub(crate) y: i32,
    pub(crate) w: u32,
    pub(crate) h: u32,
}

/// A colour, and how it is laid on.
#[derive(Clone, Copy)]
pub struct Ink {
    pub(crate) colour: Pixel,
    pub(crate) op: Op,
    pub(crate) strength: u8,
}

/// A dab's centre, radius and edge.
#[derive(Clone, Copy)]
pub struct Tip {
    pub(crate) x: i32,
    pub(crate) y: i32,
    pub(crate) r: u8,
    pub(crate) soft: bool,
}

#[tactic(auto, unfolding(crate::specs::Jobs::outline))]
#[inline(always)]
fn read_outline(left: &[u8], top: &[u8], width: &[u8], height: &[u8]) -> Result<Outline, Cause>
    ensures value { result ≡ told_outline left.now top.now width.now height.now }
    ensures ranges { IfOk result IsOutline }
{
    let x = number_in(-32768, 32767, left)?;
    let y = number_in(-32768, 32767, top)?;
    let w = natural(1, 4096, width)? as u32;
    let h = natural(1, 4096, height)? as u32;
    Ok(Outline { x, y, w, h })
}

#[tactic(auto, unfolding(crate::specs::Jobs::ink))]
#[inline(always)]
pub(crate) fn read_ink(colour: &[u8], operation: &[u8], strength: &[u8]) -> Result<Ink, Cause>
    ensures value { result ≡ told_ink colour.now operation.now strength.now }
    ensures colour { IfOk result (λ i. is_pixel i.colour ≡ true) }
    ensures strength { IfOk result (λ i. is_byte i.strength ≡ true) }
{
    let colour = rgba(colour)?;
    let op = op_of(operation)?;
    let strength = natural(0, 255, strength)? as u8;
    Ok(Ink {
        colour,
        op,
        strength,
    })
}

#[tactic(auto, unfolding(crate::specs::Jobs::tip))]
#[inline(always)]
fn read_tip(left: &[u8], top: &[u8], radius: &[u8], edge: &[u8]) -> Result<Tip, Cause>
    ensures value { result ≡ told_tip left.now top.now radius.now edge.now }
    ensures ranges { IfOk result IsTip }
{
    let x = number_in(-32768, 32767, left)?;
    let y = number_in(-32768, 32767, top)?;
    let r = natural(0, 128, radius)? as u8;
    let soft = edge_of(edge)?;
    Ok(Tip { x, y, r, soft })
}

/// The rectangle with these sides, where the world holds it.
#[inline]
fn rect(x: i32, y: i32, w: u32, h: u32) -> Result<Rect, Cause>
    requires w { 1 ≤ w × w ≤ 32768 }
    requires h { 1 ≤ h × h ≤ 32768 }
    ensures { result ≡ in_world (area x y w h) }
{
    match Rect::new(x, y, w, h) {
        Ok(rect) => Ok(rect),
        Err(_) => Err(Cause::OutOfWorld),
    }
}

/// The rectangle of an outline, where the world holds it.
fn outline_rect(o: Outline) -> Result<Rect, Cause>
    requires { IsOutline o }
    ensures { result ≡ in_world (area_of o) }
{
    rect(o.x, o.y, o.w, o.h)
}

/// The rectangle moved by (dx, dy), where the world holds it.
fn moved_rect(rect: &Rect, dx: i32, dy: i32) -> Result<Rect, Cause>
    requires dx { negsuc 32766 ≤ℤ dx × dx ≤ℤ pos 32767 }
    requires dy { negsuc 32766 ≤ℤ dy × dy ≤ℤ pos 32767 }
    ensures { result ≡ in_world (moved rect.now dx dy) }
{
    match rect.moved(dx, dy) {
        Ok(rect) => Ok(rect),
        Err(_) => Err(Cause::OutOfWorld),
    }
}

/// The square of a dab, where the world holds it.
fn square_rect(x: i32, y: i32, r: u8) -> Result<Rect, Cause>
    requires x { negsuc 32767 ≤ℤ x × x ≤ℤ pos 32767 }
    requires y { negsuc 32767 ≤ℤ y × y ≤ℤ pos 32767 }
    ensures { result ≡ in_world (square x y r) }
{
    let d = r as i32;
    let side = 2 * r as u32 + 1;
    rect(x - d, y - d, side, side)
}

/// The rectangle with `r` more columns and rows on each side, where the world holds it.
fn grown_rect(inner: &Rect, r: u8) -> Result<Rect, Cause>
    requires w { inner.now.w ≤ 4096 }
    requires h { inner.now.h ≤ 4096 }
    ensures { result ≡ in_world (grown inner.now r) }
{
    let d = r as i32;
    let more = 2 * r as u32;
    rect(
        inner.x() - d,
        inner.y() - d,
        inner.w() + more,
        inner.h() + more,
    )
}

/// A fill, where the world holds its rectangle.
pub(crate) fn fill_of(o: Outline, i: Ink) -> Result<Job, Cause>
    requires o { IsOutline o }
    requires colour { is_pixel i.colour ≡ true }
    requires strength { is_byte i.strength ≡ true }
    ensures value { result ≡ checked (Fill (area_of o) i.colour i.op i.strength) }
    ensures ranges { IfOk result (λ j. job_in_range j ≡ true) }
    ensures sound { IfOk result (λ j. (checks j && within_limits j) ≡ true) }
{
    let Ink {
        colour,
        op,
        strength,
    } = i;
    match outline_rect(o) {
        Ok(rect) => Ok(Job::Fill {
            rect,
            colour,
            op,
            strength,
        }),
        Err(_) => Err(Cause::OutOfWorld),
    }
}

/// A dab, where the world holds its square.
pub(crate) fn dab_of(t: Tip, i: Ink) -> Result<Job, Cause>
    requires t { IsTip t }
    requires colour { is_pixel i.colour ≡ true }
    requires strength { is_byte i.strength ≡ true }
    ensures value { result ≡ checked (Dab t.x t.y t.r t.soft i.colour i.op i.strength) }
    ensures ranges { IfOk result (λ j. job_in_range j ≡ true) }
    ensures sound { IfOk result (λ j. (checks j && within_limits j) ≡ true) }
{
    let Tip { x, y, r, soft } = t;
    let Ink {
        colour,
        op,
        strength,
    } = i;
    match square_rect(x, y, r) {
        Ok(_) => Ok(Job::Dab {
            x,
            y,
            r,
            soft,
            colour,
            op,
            strength,
        }),
        Err(_) => Err(Cause::OutOfWorld),
    }
}

/// A move by (dx, dy), where the world holds the source and the destination.
fn move_of(o: Outline, dx: i32, dy: i32) -> Result<Job, Cause>
    requires o { IsOutline o }
    requires dx { negsuc 32766 ≤ℤ dx × dx ≤ℤ pos 32767 }
    requires dy { negsuc 32766 ≤ℤ dy × dy ≤ℤ pos 32767 }
    ensures value { result ≡ checked (Move (area_of o) dx dy) }
    ensures ranges { IfOk result (λ j. job_in_range j ≡ true) }
    ensures sound { IfOk result (λ j. (checks j && within_limits j) ≡ true) }
{
    let rect = outline_rect(o)?;
    moved_rect(&rect, dx, dy)?;
    Ok(Job::Move { rect, dx, dy })
}

/// A blur by `r`, where the world holds all that it reads.
fn blur_of(o: Outline, r: u8) -> Result<Job, Cause>
    requires o { IsOutline o }
    requires r { 1 ≤ r × r ≤ 16 }
    ensures value { result ≡ checked (Blur (area_of o) r) }
    ensures ranges { IfOk result (λ j. job_in_range j ≡ true) }
    ensures sound { IfOk result (λ j. (checks j && within_limits j) ≡ true) }
{
    let rect = outline_rect(o)?;
    grown_rect(&rect, r)?;
    Ok(Job::Blur { rect, r })
}

#[tactic(auto, unfolding(crate::specs::Jobs::job_of))]
fn fill_fields(
    left: &[u8],
    top: &[u8],
    width: &[u8],
    height: &[u8],
    colour: &[u8],
    operation: &[u8],
    strength: &[u8],
) -> Result<Job, Cause>
    ensures value { result ≡ told_job JobWord.Fill (left.now ∷ top.now ∷ width.now ∷ height.now ∷
        colour.now ∷ operation.now ∷ strength.now ∷ []) }
    ensures ranges { IfOk result (λ j. job_in_range j ≡ true) }
    ensures sound { IfOk result (λ j. (checks j && within_limits j) ≡ true) }
{
    let o = read_outline(left, top, width, height)?;
    let i = read_ink(colour, operation, strength)?;
    fill_of(o, i)
}

#[tactic(auto, unfolding(crate::specs::Jobs::job_of))]
fn fill(fields: &[&[u8]]) -> Result<Job, Cause>
    ensures value { result ≡ told_job JobWord.Fill (pointed fields.now) }
    ensures ranges { IfOk result (λ j. job_in_range j ≡ true) }
    ensures sound { IfOk result (λ j. (checks j && within_limits j) ≡ true) }
{
    match fields {
        [left, top, width, height, colour, operation, strength] => {
            fill_fields(left, top, width, height, colour, operation, strength)
        }
        _ => Err(Cause::FieldCount),
    }
}

#[tactic(auto, unfolding(crate::specs::Jobs::job_of))]
fn dab_fields(
    left: &[u8],
    top: &[u8],
    radius: &[u8],
    edge: &[u8],
    colour: &[u8],
    operation: &[u8],
    strength: &[u8],
) -> Result<Job, Cause>
    ensures value { result ≡ told_job JobWord.Dab (left.now ∷ top.now ∷ radius.now ∷ edge.now ∷
        colour.now ∷ operation.now ∷ strength.now ∷ []) }
    ensures ranges { IfOk result (λ j. job_in_range j ≡ true) }
    ensures sound { IfOk result (λ j. (checks j && within_limits j) ≡ true) }
{
    let t = read_tip(left, top, radius, edge)?;
    let i = read_ink(colour, operation, strength)?;
    dab_of(t, i)
}

#[tactic(auto, unfolding(crate::specs::Jobs::job_of))]
fn dab(fields: &[&[u8]]) -> Result<Job, Cause>
    ensures value { result ≡ told_job JobWord.Dab (pointed fields.now) }
    ensures ranges { IfOk result (λ j. job_in_range j ≡ true) }
    ensures sound { IfOk result (λ j. (checks j && within_limits j) ≡ true) }
{
    match fields {
        [left, top, radius, edge, colour, operation, strength] => {
            dab_fields(left, top, radius, edge, colour, operation, strength)
        }
        _ => Err(Cause::FieldCount),
    }
}

#[tactic(auto, unfolding(crate::specs::Jobs::job_of))]
fn move_fields(
    left: &[u8],
    top: &[u8],
    width: &[u8],
    height: &[u8],
    columns: &[u8],
    rows: &[u8],
) -> Result<Job, Cause>
    ensures value { result ≡ told_job JobWord.Move (left.now ∷ top.now ∷ width.now ∷ height.now ∷
        columns.now ∷ rows.now ∷ []) }
    ensures ranges { IfOk result (λ j. job_in_range j ≡ true) }
    ensures sound { IfOk result (λ j. (checks j && within_limits j) ≡ true) }
{
    let o = read_outline(left, top, width, height)?;
    let dx = number_in(-32767, 32767, columns)?;
    let dy = number_in(-32767, 32767, rows)?;
    move_of(o, dx, dy)
}

#[tactic(auto, unfolding(crate::specs::Jobs::job_of))]
fn move_by(fields: &[&[u8]]) -> Result<Job, Cause>
    ensures value { result ≡ told_job JobWord.Move (pointed fields.now) }
    ensures ranges { IfOk result (λ j. job_in_range j ≡ true) }
    ensures sound { IfOk result (λ j. (checks j && within_limits j) ≡ true) }
{
    match fields {
        [left, top, width, height, columns, rows] => {
            move_fields(left, top, width, height, columns, rows)
        }
        _ => Err(Cause::FieldCount),
    }
}

#[tactic(auto, unfolding(crate::specs::Jobs::job_of))]
fn blur_fields(
    left: &[u8],
    top: &[u8],
    width: &[u8],
    height: &[u8],
    radius: &[u8],
) -> Result<Job, Cause>
    ensures value { result ≡ told_job JobWord.Blur (left.now ∷ top.now ∷ width.now ∷ height.now ∷
        radius.now ∷ []) }
    ensures ranges { IfOk result (λ j. job_in_range j ≡ true) }
    ensures sound { IfOk result (λ j. (checks j && within_limits j) ≡ true) }
{
    let o = read_outline(left, top, width, height)?;
    let r = natural(1, 16, radius)? as u8;
    blur_of(o, r)
}

#[tactic(auto, unfolding(crate::specs::Jobs::job_of))]
fn blur(fields: &[&[u8]]) -> Result<Job, Cause>
    ensures value { result ≡ told_job JobWord.Blur (pointed fields.now) }
    ensures ranges { IfOk result (λ j. job_in_range j ≡ true) }
    ensures sound { IfOk result (λ j. (checks j && within_limits j) ≡ true) }
{
    match fields {
        [left, top, width, height, radius] => blur_fields(left, top, width, height, radius),
        _ => Err(Cause::FieldCount),
    }
}

/// Whether a job has so many fields behind its stroke and its kind.
fn has_fields(work: JobWord, count: usize) -> bool
    ensures { result ≡ fields_of_job work count }
{
    match work {
        JobWord::Fill | JobWord::Dab => count == 7,
        JobWord::Move => count == 6,
        JobWord::Blur => count == 5,
        JobWord::Track => are_points(count.saturating_sub(8)),
    }
}

#[tactic(auto, unfolding(crate::specs::Jobs::job_of))]
fn job_of(work: JobWord, fields: &[&[u8]]) -> Result<Job, Cause>
    ensures value { result ≡ told_job work (pointed fields.now) }
    ensures ranges { IfOk result (λ j. job_in_range j ≡ true) }
    ensures sound { IfOk result (λ j. (checks j && within_limits j) ≡ true) }
{
    match work {
        JobWord::Fill => fill(fields),
        JobWord::Dab => dab(fields),
        JobWord::Move => move_by(fields),
        JobWord::Blur => blur(fields),
        JobWord::Track => track(fields),
    }
}

/// A job of a stroke.
#[tactic(auto, unfolding(crate::specs::Jobs::paint))]
pub fn paint(work: JobWord, fields: &[&[u8]]) -> Result<Command, Cause>
    ensures value { result ≡ told_paint work (pointed fields.now) }
    ensures ranges { IfOk result (λ c. in_range c ≡ true) }
    ensures sound { IfOk result (λ c. is_sound c ≡ true) }
{
    match fields {
        [number, kind, others @ ..] => {
            if !has_fields(work, others.len()) {
                return Err(Cause::FieldCount);
            }
            let no = natural(0, 4294967295, number)? as u32;
            let kind = kind_of(kind)?;
            let job = job_of(work, others)?;
            Ok(Command::Add { no, kind, job })
        }
        _ => Err(Cause::FieldCount),
    }
}
