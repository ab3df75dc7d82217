//! The box blur, worked out by hand.

use crate::fixtures::{ORIGIN, crosses, rect};
use blur_core::blur_block;
use geom_core::{NoMemory, Rect, TileKey};
use pixel_core::Pixel;
use std::alloc::Global;
use std::process::Abort;
use std::test::Fail;
use tile_core::{Block, Shot, Tile};

/// The tile to the left of that whose corner is (0, 0).
const LEFT: TileKey = TileKey { row: 0, col: -1 };

/// A shot that is opaque red at (1, 0) and clear elsewhere.
fn red_dot(alloc: Global, part: Rect) -> Result<Shot, NoMemory> {
    let mut pixels = vec![in alloc; Pixel::CLEAR; 4096]?;
    pixels[1] = Pixel::new(255, 0, 0, 255);
    let mut shot = Shot::new(alloc, &[part], Pixel::CLEAR)?;
    shot.put(ORIGIN, &Tile::from_pixels(alloc, pixels)?)?;
    Ok(shot)
}

/// The block has these pixels at these points.
fn has(rt: &impl Abort, block: &Block, pixels: &[(i32, i32, Pixel)]) {
    for (x, y, want) in pixels {
        assert!(rt; block.rect().holds(*x, *y));
        assert_eq!(rt; block.at(*x, *y), *want);
    }
}

/// 255 / 9 is 28.3, 255 / 25 is 10.2, and 255 / 1089 is 0.2.
#[test]
fn a_red_dot(rt: HostRuntime) -> Result<(), Fail> {
    let alloc = rt.alloc();
    let (ninth, clear) = (Pixel::new(255, 0, 0, 28), Pixel::CLEAR);
    let part = rect(&rt, 0, 0, 5, 3);
    let shot = red_dot(alloc, part)?;
    let near = blur_block(alloc, &shot, ORIGIN, &part, 1)?;
    crosses(&near);
    has(
        &rt,
        &near,
        &[(0, 0, ninth), (2, 1, ninth), (3, 0, clear), (1, 2, clear)],
    );
    let wider = blur_block(alloc, &shot, ORIGIN, &part, 2)?;
    has(
        &rt,
        &wider,
        &[(3, 2, Pixel::new(255, 0, 0, 10)), (4, 0, clear)],
    );
    let widest = blur_block(alloc, &shot, ORIGIN, &part, 16)?;
    has(&rt, &widest, &[(1, 0, clear)]);
    Ok(())
}

/// An opaque red tile beside a blue ground of alpha 85. Where a square has six blue pixels and three
/// red ones, the alphas add up to 6 x 85 + 3 x 255 = 1275, of which blue has 510 and red 765.
#[test]
fn at_the_edge_of_a_tile(rt: HostRuntime) -> Result<(), Fail> {
    let alloc = rt.alloc();
    let part = rect(&rt, -2, 5, 2, 2);
    let blue = Pixel::new(0, 0, 255, 85);
    let mut shot = Shot::new(alloc, &[part], blue)?;
    shot.put(ORIGIN, &Tile::plain(alloc, Pixel::new(255, 0, 0, 255))?)?;
    let block = blur_block(alloc, &shot, LEFT, &part, 1)?;
    assert_eq!(rt; block.at(-2, 5), blue);
    assert_eq!(rt; block.at(-1, 6), Pixel::new(153, 0, 102, 142));
    Ok(())
}
