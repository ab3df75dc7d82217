//! What several tests start from.

ghost use Rattle.std.specs.Prelude.{◌≡◌, ◌≤◌};
ghost use Rattle.geom_core.specs.Areas.{area};

use doc_model::Change;
use geom_core::{Rect, TileKey};
use pixel_core::Pixel;
use std::process::Abort;

/// The tile whose corner is (0, 0).
pub(crate) const ORIGIN: TileKey = TileKey { row: 0, col: 0 };

pub(crate) fn red() -> Pixel {
    Pixel::new(255, 0, 0, 255)
}

pub(crate) fn green() -> Pixel {
    Pixel::new(0, 255, 0, 255)
}

pub(crate) fn blue() -> Pixel {
    Pixel::new(0, 0, 255, 255)
}

pub(crate) fn rect(rt: &impl Abort, x: i32, y: i32, w: u32, h: u32) -> Rect
    requires w { 1 ≤ w × w ≤ 32768 }
    requires h { 1 ≤ h × h ≤ 32768 }
    ensures { result ≡ area x y w h }
{
    Rect::new(x, y, w, h).expect(rt, "a rectangle of the world")
}

/// Sets a layer of one pixel in.
pub(crate) fn layer(id: u16, parent: u16, place: u8, ground: Pixel) -> Change {
    Change::Layer {
        id,
        parent,
        place,
        ground,
    }
}

/// Takes what may pass from thread to thread.
pub(crate) fn crosses<T: Send + Sync>(_x: &T) {}
