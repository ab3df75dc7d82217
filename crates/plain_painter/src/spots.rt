//! Points, one by one.

ghost use Rattle.std.specs.Prelude.{◌≡◌, ◌≤◌, ◌≤ℤ◌, ◌++◌, pos, map, IfOk, OnOk};
ghost use Rattle.geom_core.specs.Areas.{world, row, points_of};
ghost use Rattle.plain_painter.specs.Steps.{point_of};

use geom_core::{NoMemory, Rect};
use std::alloc::Global;

/// A point of the plane.
#[derive(Clone, Copy, Debug)]
pub(crate) struct Spot {
    pub x: i32,
    pub y: i32,
}

/// The points of a rectangle, in row order.
pub(crate) fn spots_of(alloc: Global, rect: &Rect) -> Result<Vec<Spot>, NoMemory>
    ensures { IfOk result (λ spots. map point_of spots.items ≡ points_of rect.now) }
{
    let mut spots = Vec::new(alloc);
    for i in 0..rect.h() {
        add_row(&mut spots, rect.x(), rect.y() + i as i32, rect.w())?;
    }
    Ok(spots)
}

/// Adds the n points of a row from (x, y) on.
fn add_row(spots: &mut Vec<Spot>, x: i32, y: i32, n: u32) -> Result<(), NoMemory>
    requires low { world.x ≤ℤ x }
    requires high { x ≤ℤ pos 16383 }
    requires few { n ≤ 32768 }
    ensures { OnOk result (map point_of spots.new.items ≡ map point_of spots.old.items ++ row x y
        n) }
{
    for i in 0..n {
        spots.push(Spot { x: x + i as i32, y })?;
    }
    Ok(())
}
