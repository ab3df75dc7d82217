//! The pixels that a job leaves in one tile.

ghost use Rattle.std.specs.Prelude.{vec_len, ◌*◌, ◌≡◌, true, IfOk};
ghost use Rattle.geom_core.specs.Grid.{tile};
ghost use Rattle.geom_core.specs.Keys.{IsWorldKey};
ghost use Rattle.geom_core.specs.Rects.{IsWithin};
ghost use Rattle.geom_core.specs.Areas.{point, holds};
ghost use Rattle.pixel_core.specs.Rgba.{clear};
ghost use Rattle.tile_core.specs.Blocks.{Piece, IsPiece, piece, piece_at, plain_piece, SetsAt};

use geom_core::{NoMemory, Rect, TileKey};
use pixel_core::Pixel;
use std::alloc::Global;
use std::marker::Model;

/// Pixels on a rectangle inside one tile.
#[derive(Drop)]
pub struct Block {
    key: TileKey,
    rect: Rect,
    pixels: Vec<Pixel>,
}

impl Model for Block {
    ghost use Rattle.tile_core.specs.Blocks.{Piece, IsPiece, piece};

    ghost Value = { Piece };

    ghost view = { λ b. piece b.key b.rect b.pixels.items };

    ghost invariant = { λ b. IsPiece (piece b.key b.rect b.pixels.items) };
}

impl Block {
    /// Clear pixels on a rectangle inside the key's tile. For hosts that make pixels one by one, by
    /// `set`: `Tile::with_region` lays them on a tile.
    pub fn new(alloc: Global, key: TileKey, rect: Rect) -> Result<Block, NoMemory>
        requires key { IsWorldKey key }
        requires inside { IsWithin rect (tile key) }
        ensures { IfOk result (λ b. b ≡ plain_piece key rect clear) }
    {
        let pixels = vec![in alloc; Pixel::CLEAR; rect.h() as usize * rect.w() as usize]?;
        Ok(Block { key, rect, pixels })
    }

    /// These pixels on a rectangle inside the key's tile, in row order. They are not copied.
    pub fn from_pixels(key: TileKey, rect: Rect, pixels: Vec<Pixel>) -> Block
        requires key { IsWorldKey key }
        requires inside { IsWithin rect (tile key) }
        requires all { vec_len pixels ≡ rect.h * rect.w }
        ensures { result ≡ piece key rect pixels.items }
    {
        Block { key, rect, pixels }
    }

    /// The pixel at a point of the rectangle.
    pub fn at(&self, x: i32, y: i32) -> Pixel
        requires { holds self.now.rect (point x y) ≡ true }
        ensures { result ≡ piece_at self.now (point x y) }
    {
        self.pixels[self.rect.place(x, y)]
    }

    /// The point of the rectangle becomes `p`.
    pub fn set(&mut self, x: i32, y: i32, p: Pixel)
        requires { holds self.old.rect (point x y) ≡ true }
        ensures { SetsAt self.old self.new (point x y) p }
    {
        let place = self.rect.place(x, y);
        self.pixels[place] = p;
    }

    /// The key of the tile that its rectangle lies in.
    pub fn key(&self) -> TileKey
        ensures value { result ≡ self.now.key }
        ensures known { IsPiece self.now }
    {
        self.key
    }

    /// The rectangle.
    pub fn rect(&self) -> Rect
        ensures value { result ≡ self.now.rect }
        ensures known { IsPiece self.now }
    {
        self.rect
    }

    /// Its pixels in row order. They are not copied.
    pub fn into_pixels(self) -> Vec<Pixel>
        ensures value { result.items ≡ self.pixels }
        ensures known { IsPiece self }
    {
        let Block { pixels, .. } = self;
        pixels
    }

    /// Its pixels in row order.
    pub(crate) fn pixels(&self) -> &[Pixel]
        ensures value { result.now ≡ self.now.pixels }
        ensures known { IsPiece self.now }
    {
        self.pixels.as_slice()
    }
}
