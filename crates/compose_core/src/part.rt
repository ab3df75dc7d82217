//! Parts of a tile.

ghost use Rattle.std.specs.Prelude.{◌≡◌, ◌+◌, ◌≤◌, pos};
ghost use Rattle.geom_core.specs.Rects.{IsWithin};
ghost use Rattle.tile_core.specs.Pixels.{whole_tile};

use geom_core::Rect;
use tile_core::Part;

/// The part that a rectangle inside the tile with the corner (0, 0) is.
pub fn part_of(rect: &Rect) -> Part
    requires { IsWithin rect.now whole_tile }
    ensures left { pos result.left ≡ rect.now.x }
    ensures top { pos result.top ≡ rect.now.y }
    ensures w { result.w ≡ rect.now.w }
    ensures h { result.h ≡ rect.now.h }
    ensures across { result.left + result.w ≤ 64 }
    ensures down { result.top + result.h ≤ 64 }
{
    Part {
        left: rect.left() as usize % 64,
        top: rect.top() as usize % 64,
        w: rect.w() as usize,
        h: rect.h() as usize,
    }
}
