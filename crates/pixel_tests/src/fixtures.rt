//! What several tests start from.

ghost use Rattle.std.specs.Prelude.{◌≡◌, ◌≤◌};
ghost use Rattle.geom_core.specs.Areas.{area};

use geom_core::{Rect, TileKey};
use pixel_core::Pixel;
use std::process::Abort;
use tile_core::Tile;

/// The tile whose corner is (0, 0).
pub(crate) const ORIGIN: TileKey = TileKey { row: 0, col: 0 };

/// The bytes of a red pixel.
pub(crate) const RED: [u8; 4] = [255, 0, 0, 255];

pub(crate) fn opaque(r: u8, g: u8, b: u8) -> Pixel
    ensures { result.a ≡ 255 }
{
    Pixel::new(r, g, b, 255)
}

pub(crate) fn rect(rt: &impl Abort, x: i32, y: i32, w: u32, h: u32) -> Rect
    requires w { 1 ≤ w × w ≤ 32768 }
    requires h { 1 ≤ h × h ≤ 32768 }
    ensures { result ≡ area x y w h }
{
    Rect::new(x, y, w, h).expect(rt, "a rectangle of the world")
}

/// Asks three pixels of a tile, by column and row.
pub(crate) fn shows(rt: &impl Abort, tile: &Tile, wanted: [(u8, u8, [u8; 4]); 3]) {
    for (col, row, want) in wanted {
        assert!(rt; col < 64 && row < 64);
        assert_eq!(rt; tile.pixel(col, row).bytes(), want);
    }
}

/// Takes what may pass from thread to thread.
pub(crate) fn crosses<T: Send + Sync>(_x: &T) {}
