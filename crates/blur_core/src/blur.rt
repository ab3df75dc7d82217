//! The box blur of a part of a tile.

ghost use Rattle.std.specs.Prelude.{◌≡◌, ◌≤◌, IfOk, true};
ghost use Rattle.geom_core.specs.Areas.{holds, lies_in, world, Point};
ghost use Rattle.geom_core.specs.Rects.{IsWithin};
ghost use Rattle.geom_core.specs.Grid.{tile};
ghost use Rattle.geom_core.specs.Keys.{IsWorldKey};
ghost use Rattle.doc_model.specs.Jobs.{grown};
ghost use Rattle.tile_core.specs.Blocks.{piece_at};
ghost use Rattle.blur_core.specs.Blur.{blurred};

use crate::columns::square_means;
use geom_core::{NoMemory, Rect, TileKey};
use std::alloc::Global;
use tile_core::{Block, Shot};

/// The box blur of a part of the key's tile: at each of its points the mean of the pixels in the
/// square of side `2 * r + 1` round the point, with `r` at most 16. The colours are weighed by their
/// alphas. It is a rule of this engine, not of a standard.
pub fn blur_block(
    alloc: Global,
    shot: &Shot,
    key: TileKey,
    part: &Rect,
    r: u8,
) -> Result<Block, NoMemory>
    requires key { IsWorldKey key }
    requires inside { IsWithin part.now (tile key) }
    requires radius { r ≤ 16 }
    requires in_world { lies_in (grown part.now r) world ≡ true }
    ensures key { IfOk result (λ b. b.key ≡ key) }
    ensures rect { IfOk result (λ b. b.rect ≡ part.now) }
    ensures pixels { IfOk result (λ b. (p : Point) → holds part.now p ≡ true → piece_at b p
        ≡ blurred shot.now r p) }
{
    let pixels = shot.pixels_on(alloc, &grown(part, r))?;
    let w = part.w() as usize;
    let h = part.h() as usize;
    let means = square_means(alloc, &pixels, w, h, 2 * r as usize)?;
    Ok(Block::from_pixels(key, *part, means))
}

/// The rectangle with `r` more columns and rows on each side, which lies in the world.
fn grown(part: &Rect, r: u8) -> Rect
    requires { lies_in (grown part.now r) world ≡ true }
    ensures { result ≡ grown part.now r }
{
    let w = part.w() + 2 * r as u32;
    let h = part.h() + 2 * r as u32;
    match Rect::new(part.x() - r as i32, part.y() - r as i32, w, h) {
        Ok(wide) => wide,
        Err(_) => unreachable!(),
    }
}
