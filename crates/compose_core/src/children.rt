//! The children of a group, laid one on another.

ghost use Rattle.std.specs.Prelude.{◌≡◌, ◌↔◌, ◌+◌, ◌*◌, ◌<◌, ◌≤◌, length, vec_len, IfOk, IsTrue, true};
ghost use Rattle.pixel_core.specs.Rgba.{clear};
ghost use Rattle.geom_core.specs.Rects.{IsWithin};
ghost use Rattle.tile_core.specs.Pixels.{whole_tile, HasPixels};
ghost use Rattle.compose_core.specs.Children.{IsComposed};
ghost use Rattle.compose_core.specs.declared.children.Given.TheVariants as given_is;
ghost use Rattle.compose_core.specs.Laid.{LaysChild};
ghost use Rattle.compose_core.specs.Piles.{IsClean};
ghost use Rattle.compose_core.specs.Spots.{IsSpot, given_on};

use crate::part::part_of;
use crate::spot::Spot;
use doc_model::Look;
use geom_core::{NoMemory, Rect};
use pixel_core::Pixel;
use pixel_rows::{lay_colour, lay_sources, tell_canonical};
use std::alloc::Global;
use tile_core::{Part, Tile};

/// What a child of a group has on a tile.
#[derive(Drop)]
pub enum Given {
    /// The pixels of that tile.
    Held(Tile),
    /// That pixel at every point.
    Plain(Pixel),
}

impl Given {
    /// The same once more. A tile is shared, and no pixel is copied.
    pub fn share(&self) -> Result<Given, NoMemory>
        ensures { IfOk result (λ given. given ≡ self.now) }
    {
        match self {
            Given::Held(tile) => Ok(Given::Held(tile.share()?)),
            Given::Plain(pixel) => Ok(Given::Plain(*pixel)),
        }
    }

    /// Whether it is the clear pixel at every point, without a tile.
    pub fn is_clear(&self) -> bool
        ensures { IsTrue result ↔ (self.now ≡ given_is.Plain clear) }
    {
        match self {
            Given::Held(_) => false,
            Given::Plain(pixel) => *pixel == Pixel::CLEAR,
        }
    }

    /// Tells that it is canonical at every point, as all pixels are. It does nothing.
    pub fn tell_clean(&self)
        ensures { IsClean self.now }
    {
        match self {
            Given::Held(tile) => tell_canonical(tile.pixels()),
            Given::Plain(pixel) => {
                let _known = pixel.bytes();
            }
        }
    }

    /// The pixels on a part of the tile, in row order.
    pub fn pixels_on(&self, alloc: Global, spot: &Spot) -> Result<Vec<Pixel>, NoMemory>
        requires { IsSpot spot.now }
        ensures all { IfOk result (λ v. vec_len v ≡ spot.now.part.h * spot.now.part.w) }
        ensures has { IfOk result (λ v. HasPixels spot.now.part (given_on self.now) v.items) }
    {
        match self {
            Given::Held(tile) => tile.part(alloc, spot.key, &spot.part),
            Given::Plain(pixel) => {
                let count = spot.part.h() as usize * spot.part.w() as usize;
                Ok(vec![in alloc; *pixel; count]?)
            }
        }
    }
}

/// The picture of a group on a rectangle of one tile: the visible children laid from the bottom,
/// each with its look, on a clear backdrop of the group's own: an isolated group in the words of
/// W3C's Compositing and Blending Level 1. Outside the rectangle the tile is clear.
///
/// The looks and the tiles are those of the children in their order from the bottom, and columns
/// and rows of the rectangle count from the tile's corner.
pub fn compose_tile(
    alloc: Global,
    looks: &[Look],
    tiles: &[Given],
    rect: &Rect,
) -> Result<Tile, NoMemory>
    requires each { length looks.now ≡ length tiles.now }
    requires inside { IsWithin rect.now whole_tile }
    ensures { IfOk result (IsComposed rect.now looks.now tiles.now) }
{
    let part = part_of(rect);
    let mut pixels = vec![in alloc; Pixel::CLEAR; 4096]?;
    for i in 0..looks.len() {
        lay_child(&mut pixels, part, looks[i], &tiles[i]);
    }
    Tile::from_pixels(alloc, pixels)
}

/// Lays a child on the part, unless it is invisible.
fn lay_child(pixels: &mut [Pixel], part: Part, look: Look, given: &Given)
    requires whole { length pixels.old ≡ 4096 }
    requires across { part.left + part.w ≤ 64 }
    requires down { part.top + part.h ≤ 64 }
    ensures { LaysChild part.left part.top part.w part.h look given.now pixels.old pixels.new }
{
    if !look.visible {
        return;
    }
    for row in 0..part.h {
        lay_row(pixels, part, part.top + row, look, given);
    }
}

/// Lays one row of a visible child on the part's columns of that row.
fn lay_row(pixels: &mut [Pixel], part: Part, row: usize, look: Look, given: &Given)
    requires whole { length pixels.old ≡ 4096 }
    requires across { part.left + part.w ≤ 64 }
    requires row { row < 64 }
    requires visible { look.visible ≡ true }
    ensures { LaysChild part.left row part.w 1 look given.now pixels.old pixels.new }
{
    let at = 64 * row + part.left;
    let backdrop = &mut pixels[at..at + part.w];
    match given {
        Given::Held(tile) => {
            let sources = &tile.pixels()[at..at + part.w];
            lay_sources(look.op, sources, look.opacity, backdrop);
        }
        Given::Plain(source) => lay_colour(look.op, *source, look.opacity, backdrop),
    }
}
