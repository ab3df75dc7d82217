//! Rectangles, tiles and cells worked out by hand.

use crate::fixtures::crosses;
use geom_core::{NoMemory, OutOfWorld, Rect, TileKey, Touched, tile_of};

#[test]
fn tiles_of_points(rt: HostRuntime) {
    let table = [
        (0, 0, 0, 0),
        (63, 64, 0, 1),
        (-1, -1, -1, -1),
        (-64, 63, -1, 0),
        (-65, 127, -2, 1),
        (-16384, 16383, -256, 255),
    ];
    for (x, y, col, row) in table {
        assert!(rt; -16384 <= x && x < 16384 && -16384 <= y && y < 16384);
        assert!(rt; tile_of(x, y) == TileKey { row, col });
    }
    let above = TileKey { row: -1, col: 5 };
    let left = TileKey { row: 0, col: -2 };
    let right = TileKey { row: 0, col: 3 };
    assert!(rt; above < left && left < right, "by row, then by column");
}

#[test]
fn rectangles(rt: HostRuntime) -> Result<(), OutOfWorld> {
    // It meets the tiles of columns -1 to 1 and rows 0 to 1, and the cells of columns -1 and 0.
    let wide = Rect::new(-10, 60, 80, 10)?;
    for (i, row, col) in [(0, 0, -1), (1, 0, 0), (2, 0, 1), (3, 1, -1), (5, 1, 1)] {
        assert!(rt; i < wide.tile_count());
        assert!(rt; wide.tile_at(i) == TileKey { row, col });
    }
    for (i, part) in [
        (0, Rect::new(-10, 60, 10, 10)?),
        (1, Rect::new(0, 60, 70, 10)?),
    ] {
        assert!(rt; i < wide.cell_count());
        assert!(rt; wide.cell_at(i) == part);
    }
    let other = Rect::new(69, 0, 5, 61)?;
    for (found, wanted) in [
        (wide.clip(&other), Some(Rect::new(69, 60, 1, 1)?)),
        (wide.clip(&Rect::new(70, 0, 5, 61)?), None),
        (Some(wide.bound(&other)), Some(Rect::new(-10, 0, 84, 70)?)),
        (Some(wide.moved(3, -60)?), Some(Rect::new(-7, 0, 80, 10)?)),
        (wide.moved(16324, 0).ok(), None),
    ] {
        assert!(rt; found == wanted);
    }
    crosses(&wide);
    crosses(&tile_of(0, 0));
    crosses(&NoMemory);
    crosses(&OutOfWorld);
    let (count, bound) = (1, Some(wide));
    crosses(&Touched { count, bound });
    Ok(())
}

#[test]
fn edges_of_the_world(rt: HostRuntime) {
    let table = [
        (-16384, -16384, 32768, 32768, true),
        (16383, 16383, 1, 1, true),
        (-16385, 0, 1, 1, false),
        (0, 16384, 1, 1, false),
        (0, 0, 16385, 1, false),
        (-1, 0, 16385, 16384, true),
    ];
    for (x, y, w, h, inside) in table {
        assert!(rt; 1 <= w && w <= 32768 && 1 <= h && h <= 32768);
        assert_eq!(rt; Rect::new(x, y, w, h).is_ok(), inside);
    }
}
