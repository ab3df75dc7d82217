//! Moves.

ghost use Rattle.std.specs.Prelude.{◌≡◌, ◌*◌, true, pos, ◌-ℤ◌, IfOk, IfSome, IfNone, vec_len, length, replicate};
ghost use Rattle.geom_core.specs.Areas.{lies_in, moved as moved_area, world};
ghost use Rattle.geom_core.specs.Rects.{IsWithin};
ghost use Rattle.geom_core.specs.Grid.{tile};
ghost use Rattle.geom_core.specs.Keys.{IsWorldKey};
ghost use Rattle.tile_core.specs.Pixels.{HasPixels};
ghost use Rattle.doc_model.specs.declared.job.Job.TheVariants.{Move};
ghost use Rattle.job_core.specs.Paints.{Leaves, pieces_of};
ghost use Rattle.job_core.specs.Due.{IsDue};
ghost use Rattle.job_core.specs.Made.{IsBlock, IsLeft, IsStep, TakesOver, brought as brought_to, left_at};
ghost use Rattle.job_core.specs.Laid.{LaysOver};

use crate::blocks::Blocks;
use crate::part::{moved_back, part_in};
use crate::rows::lay_over;
use geom_core::{NoMemory, Rect, TileKey};
use pixel_core::Pixel;
use std::alloc::Global;
use tile_core::{Block, Shot};

/// What a move leaves in the key's tile, where `to` is the moved rectangle.
pub fn moved(
    alloc: Global,
    shot: &Shot,
    key: TileKey,
    rect: &Rect,
    to: &Rect,
    dx: i32,
    dy: i32,
) -> Result<Blocks, NoMemory>
    requires due { IsDue (Move rect.now dx dy) shot.now key }
    requires to { to.now ≡ moved_area rect.now dx dy }
    ensures { IfOk result (λ bs. Leaves (Move rect.now dx dy) shot.now key (pieces_of bs)) }
{
    let Some(part) = to.clip(&key.rect()) else {
        let part = part_in(key, rect);
        let first = vacated(alloc, shot, key, part, to, dx, dy)?;
        return Ok(Blocks {
            first,
            second: None,
        });
    };
    let first = arrived(alloc, shot, key, part, dx, dy)?;
    let second = left_behind(alloc, shot, key, rect, to, dx, dy)?;
    Ok(Blocks { first, second })
}

/// The block of a part that pixels are moved to.
fn arrived(
    alloc: Global,
    shot: &Shot,
    key: TileKey,
    part: Rect,
    dx: i32,
    dy: i32,
) -> Result<Block, NoMemory>
    requires key { IsWorldKey key }
    requires inside { IsWithin part (tile key) }
    requires step { IsStep dx dy }
    requires from { lies_in (moved_area part (pos 0 -ℤ dx) (pos 0 -ℤ dy)) world ≡ true }
    ensures { IfOk result (IsBlock key part (brought_to shot.now dx dy)) }
{
    let pixels = brought(alloc, shot, &part, dx, dy)?;
    Ok(Block::from_pixels(key, part, pixels))
}

/// The block of what the key's tile has of the rectangle. None where pixels are moved to all of it.
fn left_behind(
    alloc: Global,
    shot: &Shot,
    key: TileKey,
    rect: &Rect,
    to: &Rect,
    dx: i32,
    dy: i32,
) -> Result<Option<Block>, NoMemory>
    requires key { IsWorldKey key }
    requires step { IsStep dx dy }
    requires inside { lies_in rect.now world ≡ true }
    requires to { to.now ≡ moved_area rect.now dx dy }
    ensures none { IfOk result (λ left. IfNone left (TakesOver rect.now key to.now)) }
    ensures some { IfOk result
        (λ left. IfSome left (IsLeft shot.now rect.now key to.now dx dy)) }
{
    let Some(part) = rect.clip(&key.rect()) else {
        return Ok(None);
    };
    if is_within(&part, to) {
        return Ok(None);
    }
    Ok(Some(vacated(alloc, shot, key, part, to, dx, dy)?))
}

/// Whether the other rectangle has each point of it.
fn is_within(rect: &Rect, other: &Rect) -> bool
    ensures { result ≡ true → IsWithin rect.now other.now }
{
    match rect.clip(other) {
        Some(common) => common.w() == rect.w() && common.h() == rect.h(),
        None => false,
    }
}

/// The block of a part that pixels are moved from, and maybe some to.
fn vacated(
    alloc: Global,
    shot: &Shot,
    key: TileKey,
    part: Rect,
    to: &Rect,
    dx: i32,
    dy: i32,
) -> Result<Block, NoMemory>
    requires key { IsWorldKey key }
    requires inside { IsWithin part (tile key) }
    requires step { IsStep dx dy }
    requires from { lies_in (moved_area to.now (pos 0 -ℤ dx) (pos 0 -ℤ dy)) world ≡ true }
    ensures { IfOk result (IsBlock key part (left_at shot.now to.now dx dy)) }
{
    let pixels = vec![in alloc; shot.ground(); part.h() as usize * part.w() as usize]?;
    let pixels = with_brought(alloc, shot, pixels, &part, to, dx, dy)?;
    Ok(Block::from_pixels(key, part, pixels))
}

/// The default pixels of a part, with what a move brings to it laid over them.
fn with_brought(
    alloc: Global,
    shot: &Shot,
    pixels: Vec<Pixel>,
    part: &Rect,
    to: &Rect,
    dx: i32,
    dy: i32,
) -> Result<Vec<Pixel>, NoMemory>
    requires all { vec_len pixels ≡ part.now.h * part.now.w }
    requires plain { pixels.items ≡ replicate (part.now.h * part.now.w) shot.now.default_pixel }
    requires step { IsStep dx dy }
    requires from { lies_in (moved_area to.now (pos 0 -ℤ dx) (pos 0 -ℤ dy)) world ≡ true }
    ensures all { IfOk result (λ v. vec_len v ≡ part.now.h * part.now.w) }
    ensures has { IfOk result (λ v. HasPixels part.now (left_at shot.now to.now dx dy) v.items) }
{
    let Some(common) = part.clip(to) else {
        return Ok(pixels);
    };
    let src = brought(alloc, shot, &common, dx, dy)?;
    Ok(overlaid(pixels, part, &common, &src))
}

/// The pixels of a rectangle, with the pixels of a part of it laid over them.
fn overlaid(mut pixels: Vec<Pixel>, rect: &Rect, part: &Rect, src: &[Pixel]) -> Vec<Pixel>
    requires all { vec_len pixels ≡ rect.now.h * rect.now.w }
    requires inside { IsWithin part.now rect.now }
    requires src { length src.now ≡ part.now.h * part.now.w }
    ensures all { vec_len result ≡ rect.now.h * rect.now.w }
    ensures has { LaysOver rect.now part.now src.now pixels.items result.items }
{
    lay_over(&mut pixels, rect, part, src);
    pixels
}

/// The pixels that a move brings to a rectangle, in row order.
fn brought(
    alloc: Global,
    shot: &Shot,
    rect: &Rect,
    dx: i32,
    dy: i32,
) -> Result<Vec<Pixel>, NoMemory>
    requires step { IsStep dx dy }
    requires from { lies_in (moved_area rect.now (pos 0 -ℤ dx) (pos 0 -ℤ dy)) world ≡ true }
    ensures all { IfOk result (λ v. vec_len v ≡ rect.now.h * rect.now.w) }
    ensures has { IfOk result (λ v. HasPixels rect.now (brought_to shot.now dx dy) v.items) }
{
    let from = moved_back(rect, dx, dy);
    shot.pixels_on(alloc, &from)
}
