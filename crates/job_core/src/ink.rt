//! Inks.

ghost use Rattle.std.specs.Prelude.{◌≡◌, IfSome};
ghost use Rattle.job_core.specs.Laid.{inked, LeavesAll};

use pixel_core::{Op, Pixel, compose};
use pixel_rows::{left_everywhere, tell_canonical};
use tile_core::Tile;

/// A colour, and how it is laid on pixels.
#[derive(Clone, Copy)]
pub struct Ink {
    pub colour: Pixel,
    pub op: Op,
    pub strength: u8,
}

impl Ink {
    /// What it leaves of a pixel.
    pub fn on(&self, below: Pixel) -> Pixel
        ensures { result ≡ inked self.now 0 0 below }
    {
        compose(self.op, self.colour, below, self.strength)
    }

    /// The one pixel that it leaves of each of a tile's: where it hides or erases all, or the tile
    /// has one pixel everywhere. Else None.
    pub fn on_all(&self, tile: &Tile) -> Option<Pixel>
        ensures { IfSome result (LeavesAll self.now tile.now) }
    {
        let first = tile.pixel(0, 0);
        match left_everywhere(self.op, self.colour, self.strength) {
            Some(left) => {
                tell_canonical(tile.pixels());
                Some(left)
            }
            None if tile.is_plain(first) => Some(self.on(first)),
            None => None,
        }
    }
}
