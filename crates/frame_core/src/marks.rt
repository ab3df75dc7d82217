//! Marked tiles of a canvas.

ghost use Rattle.std.specs.Prelude.{◌≡◌, ◌<◌, true, pos, IfSome};
ghost use Rattle.std.specs.List.{count_by};
ghost use Rattle.frame_core.specs.Marks.{place_at, mark_at, has_mark, no_marks, AddsMark};

use geom_core::TileKey;
use std::marker::Model;

/// How many columns of tiles the largest canvas has, and how many rows.
const SIDE: i16 = 32;

/// Which tiles of a canvas are marked. The largest canvas has 32 by 32 tiles; no other key is ever marked.
#[derive(Drop)]
pub struct Marks {
    tiles: [bool; 1024],
}

impl Model for Marks {
    ghost use Rattle.frame_core.specs.Marks.{Grid};

    ghost Value = { Grid };

    ghost view = { λ m. m.tiles };
}

impl Marks {
    /// No tile.
    pub fn none() -> Marks
        ensures { result ≡ no_marks }
    {
        Marks {
            tiles: [false; 1024],
        }
    }

    /// Whether the key's tile is marked.
    #[inline]
    pub fn has(&self, key: TileKey) -> bool
        ensures { result ≡ has_mark self.now key }
    {
        match place_of(key) {
            Some(place) => self.tiles[place],
            None => false,
        }
    }

    /// Whether the tile of a column and a row of the canvas is marked.
    #[inline]
    pub(crate) fn has_at(&self, col: u16, row: u16) -> bool
        ensures { result ≡ mark_at self.now (place_at (pos col) (pos row)) }
    {
        col < 32 && row < 32 && self.tiles[32 * row as usize + col as usize]
    }

    /// How many tiles are marked.
    pub fn count(&self) -> usize
        ensures { result ≡ count_by (λ mark. mark) self.now }
    {
        self.tiles.iter().filter(|mark| **mark).count()
    }

    /// A copy: 1,024 bytes, and no memory is taken.
    pub fn copy(&self) -> Marks
        ensures { result ≡ self.now }
    {
        Marks { tiles: self.tiles }
    }

    /// Marks the key's tile, if it is one of the largest canvas.
    pub fn mark(&mut self, key: TileKey)
        ensures { AddsMark self.old self.new key }
    {
        if let Some(place) = place_of(key) {
            self.tiles[place] = true;
        }
    }
}

/// Where the key's tile stands among those of the largest canvas in row order. None for any other key.
#[inline]
pub(crate) fn place_of(key: TileKey) -> Option<usize>
    ensures value { result ≡ place_at key.col key.row }
    ensures inside { IfSome result (λ place. place < 1024) }
{
    let (col, row) = (key.col, key.row);
    if 0 <= col && col < SIDE && 0 <= row && row < SIDE {
        Some(SIDE as usize * row as usize + col as usize)
    } else {
        None
    }
}
