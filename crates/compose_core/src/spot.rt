//! Parts of tiles.

ghost use Rattle.std.specs.Prelude.{◌≡◌, IsTrue, ◌↔◌};
ghost use Rattle.geom_core.specs.Rects.{IsWithin};
ghost use Rattle.geom_core.specs.Keys.{IsWorldKey};
ghost use Rattle.tile_core.specs.Pixels.{whole_tile};
ghost use Rattle.compose_core.specs.Spots.{IsSpot, part_in_tile, Catches};

use geom_core::{Rect, TileKey};

/// A part of one tile.
#[derive(Clone, Copy, Debug)]
pub struct Spot {
    /// The tile.
    pub key: TileKey,
    /// The part of it, a rectangle of the world.
    pub part: Rect,
}

impl Spot {
    /// What the rectangle has of the key's tile, or the whole tile where that is nothing.
    pub fn new(rect: &Rect, key: TileKey) -> Spot
        requires { IsWorldKey key }
        ensures key { result.key ≡ key }
        ensures known { IsSpot result }
        ensures catches { Catches rect.now result }
    {
        let tile = key.rect();
        let part = match rect.clip(&tile) {
            Some(part) => part,
            None => tile,
        };
        Spot { key, part }
    }

    /// Whether the part is the whole tile.
    pub fn is_whole(&self) -> bool
        ensures { IsTrue result ↔ ((self.now.part.w ≡ 64) × (self.now.part.h ≡ 64)) }
    {
        self.part.w() == 64 && self.part.h() == 64
    }

    /// The part's columns and rows as they count from the tile's corner.
    pub fn in_tile(&self) -> Rect
        requires { IsSpot self.now }
        ensures value { result ≡ part_in_tile self.now }
        ensures inside { IsWithin result whole_tile }
    {
        let tile = self.key.rect();
        let x = self.part.x() - tile.x();
        let y = self.part.y() - tile.y();
        Rect::new(x, y, self.part.w(), self.part.h()).unwrap()
    }
}
