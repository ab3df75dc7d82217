//! Fills.

ghost use Rattle.std.specs.Prelude.{◌≡◌, [], ◌∷◌, ◌*◌, ◌+◌, ◌≤◌, IfOk, vec_len, length};
ghost use Rattle.geom_core.specs.Rects.{IsWithin};
ghost use Rattle.geom_core.specs.Grid.{tile};
ghost use Rattle.geom_core.specs.Keys.{IsWorldKey};
ghost use Rattle.tile_core.specs.Pixels.{HasPixels};
ghost use Rattle.job_core.specs.Tasks.{fill_of};
ghost use Rattle.job_core.specs.Paints.{Leaves};
ghost use Rattle.job_core.specs.Due.{IsDue};
ghost use Rattle.job_core.specs.Made.{filled as filled_at};
ghost use Rattle.job_core.specs.Laid.{ChangesPart, inked as inked_pixel};

use crate::ink::Ink;
use crate::part::part_in;
use geom_core::{NoMemory, Rect, TILE_SIDE, TileKey};
use pixel_core::Pixel;
use pixel_rows::lay_colour;
use std::alloc::Global;
use tile_core::{Block, Part, Shot};

/// What a fill leaves in the key's tile.
pub fn filled(
    alloc: Global,
    shot: &Shot,
    key: TileKey,
    rect: &Rect,
    ink: &Ink,
) -> Result<Block, NoMemory>
    requires { IsDue (fill_of rect.now ink.now) shot.now key }
    ensures { IfOk result (λ b. Leaves (fill_of rect.now ink.now) shot.now key (b ∷ [])) }
{
    let part = part_in(key, rect);
    let pixels = inked(alloc, shot, key, &part, ink)?;
    Ok(Block::from_pixels(key, part, pixels))
}

/// The shot's pixels on a rectangle inside the key's tile, with the ink laid on each.
fn inked(
    alloc: Global,
    shot: &Shot,
    key: TileKey,
    part: &Rect,
    ink: &Ink,
) -> Result<Vec<Pixel>, NoMemory>
    requires key { IsWorldKey key }
    requires inside { IsWithin part.now (tile key) }
    ensures all { IfOk result (λ v. vec_len v ≡ part.now.h * part.now.w) }
    ensures has { IfOk result (λ v. HasPixels part.now (filled_at shot.now ink.now) v.items) }
{
    let mut pixels = shot.read(alloc, key, part)?;
    lay_colour(ink.op, ink.colour, ink.strength, &mut pixels);
    Ok(pixels)
}

/// Lays the ink on each pixel of a part of a tile, row by row, since plain rows are laid soonest.
pub fn lay_ink(tile: &mut [Pixel], part: Part, ink: &Ink)
    requires whole { length tile.old ≡ 4096 }
    requires across { part.left + part.w ≤ 64 }
    requires down { part.top + part.h ≤ 64 }
    ensures { ChangesPart (inked_pixel ink.now) 64 part tile.old tile.new }
{
    let mut from = TILE_SIDE * part.top + part.left;
    for _row in 0..part.h {
        let row = &mut tile[from..from + part.w];
        lay_colour(ink.op, ink.colour, ink.strength, row);
        from += TILE_SIDE;
    }
}
