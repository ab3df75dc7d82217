//! Tiles of one pixel.

ghost use Rattle.std.specs.Prelude.{◌≡◌, IfOk, replicate};

use crate::Tile;
use geom_core::NoMemory;
use pixel_core::Pixel;
use std::alloc::Global;
use std::marker::Model;

/// A tile that has one pixel everywhere, which it knows, so that nobody has to look at all of them.
#[derive(Drop)]
pub struct PlainTile {
    pixel: Pixel,
    tile: Tile,
}

impl Model for PlainTile {
    ghost use Rattle.std.specs.Prelude.{◌≡◌, replicate};
    ghost use Rattle.pixel_core.specs.Rgba.{Rgba};

    ghost Value = { Rgba };

    ghost view = { λ t. t.pixel };

    ghost invariant = { λ t. t.tile ≡ replicate 4096 t.pixel };
}

impl PlainTile {
    /// A tile whose every pixel is `pixel`.
    pub fn new(alloc: Global, pixel: Pixel) -> Result<PlainTile, NoMemory>
        ensures { IfOk result (λ t. t ≡ pixel) }
    {
        Ok(PlainTile {
            pixel,
            tile: Tile::plain(alloc, pixel)?,
        })
    }

    /// The pixel that it has everywhere.
    pub fn pixel(&self) -> Pixel
        ensures { result ≡ self.now }
    {
        self.pixel
    }

    /// One more reference to the same pixels. `NoMemory` only where the count of references is full.
    pub fn share(&self) -> Result<Tile, NoMemory>
        ensures { IfOk result (λ t. t ≡ replicate 4096 self.now) }
    {
        self.tile.share()
    }
}
