//! Tiles of 64 by 64 pixels, shared copy on write.

ghost use Rattle.std.specs.Prelude.{vec_len, ◌≡◌, ◌+◌, ◌*◌, ◌<◌, ◌↔◌, IsTrue, length, IfOk, replicate, true, false, negsuc, pos, ◌≤ℤ◌, ◌+ℤ◌, ◌%◌, nat_abs};
ghost use Rattle.tile_core.specs.Pixels.{Pixels, pixel_of, pixel_at, HasPixels, SameOn, IsPlainOn};
ghost use Rattle.tile_core.specs.Parts.{IsPartOf};
ghost use Rattle.geom_core.specs.Grid.{tile};
ghost use Rattle.geom_core.specs.Keys.{IsWorldKey};
ghost use Rattle.tile_core.specs.Blocks.{LaysBlock};
ghost use Rattle.geom_core.specs.Rects.{IsWithin};
ghost use Rattle.geom_core.specs.Areas.{point, holds, world};
ghost use Rattle.pixel_core.specs.Rgba.{clear};

use crate::Block;
use crate::rows::{Part, is_plain, is_plain_part, lay_part, part_of, same_part, with_part};
use geom_core::{CORNER, NoMemory, Rect, TILE_POINTS, TILE_SIDE, TileKey};
use pixel_core::Pixel;
use std::alloc::Global;
use std::marker::Model;
use std::sync::Arc;

/// All columns and rows of a tile.
const WHOLE: Part = Part {
    left: 0,
    top: 0,
    w: TILE_SIDE,
    h: TILE_SIDE,
};

/// 64 rows of 64 pixels behind a counted reference. A shared tile never changes: a write makes a new
/// one, and whoever shares the old one keeps reading it. Only where nobody shares it may a tile be
/// written in place.
#[derive(Drop)]
pub struct Tile {
    pixels: Arc<Vec<Pixel>>,
}

impl Model for Tile {
    ghost use Rattle.std.specs.Prelude.{◌≡◌, List, length};
    ghost use Rattle.pixel_core.specs.Rgba.{Rgba};

    ghost Value = { List Rgba };

    ghost view = { λ t. t.pixels.value.items };

    ghost invariant = { λ t. length t.pixels.value.items ≡ 4096 };
}

/// A change that is made to a tile's pixels in place.
pub trait Lays {
    ghost laid: { Self → Pixels → Pixels → Type 0 };

    /// Changes the tile's 4,096 pixels, which stand in row order.
    fn lay(&self, tile: &mut [Pixel])
        requires { length tile.old ≡ 4096 }
        ensures { laid self.now tile.old tile.new };
}

impl Tile {
    /// A tile of clear pixels.
    pub fn clear(alloc: Global) -> Result<Tile, NoMemory>
        ensures { IfOk result (λ t. t ≡ replicate 4096 clear) }
    {
        Tile::plain(alloc, Pixel::CLEAR)
    }

    /// A tile whose every pixel is `p`.
    pub fn plain(alloc: Global, p: Pixel) -> Result<Tile, NoMemory>
        ensures { IfOk result (λ t. t ≡ replicate 4096 p) }
    {
        Tile::from_pixels(alloc, vec![in alloc; p; TILE_POINTS]?)
    }

    /// A tile of these pixels in row order, which are not copied.
    pub fn from_pixels(alloc: Global, pixels: Vec<Pixel>) -> Result<Tile, NoMemory>
        requires { vec_len pixels ≡ 4096 }
        ensures { IfOk result (λ t. t ≡ pixels.items) }
    {
        Ok(Tile {
            pixels: Arc::new(alloc, pixels)?,
        })
    }

    /// Its 4,096 pixels in row order.
    pub fn pixels(&self) -> &[Pixel]
        ensures value { result.now ≡ self.now }
        ensures all { length result.now ≡ 4096 }
    {
        self.pixels.as_slice()
    }

    /// Whether every pixel is `p`. Where the first or the last one isn't, it looks no further.
    pub fn is_plain(&self, p: Pixel) -> bool
        ensures { IsTrue result ↔ (self.now ≡ replicate 4096 p) }
    {
        is_plain(self.pixels(), p)
    }

    /// The pixel of a column and a row, which count from 0.
    pub fn pixel(&self, col: u8, row: u8) -> Pixel
        requires col { col < 64 }
        requires row { row < 64 }
        ensures { result ≡ pixel_of self.now col row }
    {
        self.pixels()[TILE_SIDE * row as usize + col as usize]
    }

    /// The pixel at a point of the world, where the tile is that of the point's key.
    pub fn at(&self, x: i32, y: i32) -> Pixel
        requires { holds world (point x y) ≡ true }
        ensures { result ≡ pixel_at self.now (point x y) }
    {
        self.pixel(place_in_tile(x), place_in_tile(y))
    }

    /// One more reference to the same pixels. `NoMemory` only where the count of references is full.
    pub fn share(&self) -> Result<Tile, NoMemory>
        ensures { IfOk result (λ t. t ≡ self.now) }
    {
        Ok(Tile {
            pixels: Arc::try_clone(&self.pixels)?,
        })
    }

    /// Whether both tiles have the same pixels.
    pub fn same(&self, other: &Tile) -> bool
        ensures { IsTrue result ↔ (self.now ≡ other.now) }
    {
        same_part(self.pixels(), other.pixels(), WHOLE)
    }

    /// A new tile with the block's pixels on the block's rectangle and this tile's elsewhere.
    pub fn with_region(&self, alloc: Global, block: &Block) -> Result<Tile, NoMemory>
        ensures { IfOk result (λ t. LaysBlock self.now t block.now) }
    {
        let rect = block.rect();
        let pixels = with_part(alloc, self.pixels(), part_in_tile(&rect), block.pixels())?;
        Tile::from_pixels(alloc, pixels)
    }

    /// Whether both tiles have the same pixels on a rectangle inside the key's tile.
    pub fn same_in(&self, other: &Tile, key: TileKey, rect: &Rect) -> bool
        requires key { IsWorldKey key }
        requires inside { IsWithin rect.now (tile key) }
        ensures { IsTrue result ↔ SameOn rect.now self.now other.now }
    {
        same_part(self.pixels(), other.pixels(), part_in_tile(rect))
    }

    /// Whether every pixel on a rectangle inside the key's tile is `p`.
    pub(crate) fn is_plain_in(&self, p: Pixel, key: TileKey, rect: &Rect) -> bool
        requires key { IsWorldKey key }
        requires inside { IsWithin rect.now (tile key) }
        ensures { IsTrue result ↔ IsPlainOn rect.now self.now p }
    {
        is_plain_part(self.pixels(), part_in_tile(rect), p)
    }

    /// Makes a change in place, and tells whether it did. Where somebody shares the pixels, nothing
    /// changes. No memory.
    pub fn lay_alone<L: Lays>(&mut self, change: &L) -> bool
        ensures laid { result ≡ true → L.laid change.now self.old self.new }
        ensures kept { result ≡ false → self.new ≡ self.old }
    {
        match Arc::get_mut(&mut self.pixels) {
            Some(pixels) => {
                change.lay(pixels);
                true
            }
            None => false,
        }
    }

    /// The pixels on a rectangle inside the key's tile, in row order.
    pub fn part(&self, alloc: Global, key: TileKey, rect: &Rect) -> Result<Vec<Pixel>, NoMemory>
        requires key { IsWorldKey key }
        requires inside { IsWithin rect.now (tile key) }
        ensures all { IfOk result (λ v. vec_len v ≡ rect.now.h * rect.now.w) }
        ensures has { IfOk result (λ v. HasPixels rect.now (pixel_at self.now) v.items) }
    {
        Ok(part_of(alloc, self.pixels(), part_in_tile(rect))?)
    }
}

impl Lays for Block {
    ghost use Rattle.tile_core.specs.Blocks.{LaysBlock};

    ghost laid = { λ b old new. LaysBlock old new b };

    /// Writes its pixels on its rectangle.
    fn lay(&self, tile: &mut [Pixel]) {
        let rect = self.rect();
        lay_part(tile, part_in_tile(&rect), self.pixels());
    }
}

/// Which columns and rows of their tiles the rectangle's first column and row are, and its sides.
#[inline]
pub fn part_in_tile(rect: &Rect) -> Part
    ensures { IsPartOf rect.now result }
{
    Part {
        left: rect.left() as usize % TILE_SIDE,
        top: rect.top() as usize % TILE_SIDE,
        w: rect.w() as usize,
        h: rect.h() as usize,
    }
}

/// Which column, or row, of its tile this is.
fn place_in_tile(x: i32) -> u8
    requires low { negsuc 16383 ≤ℤ x }
    requires high { x ≤ℤ pos 16383 }
    ensures value { result ≡ nat_abs (x +ℤ pos 16384) % 64 }
    ensures small { result < 64 }
{
    ((x + CORNER) as usize % TILE_SIDE) as u8
}
