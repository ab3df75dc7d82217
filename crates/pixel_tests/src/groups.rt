//! Pictures of groups on one tile, worked out by hand.

use crate::fixtures::{opaque, rect};
use compose_core::{Given, compose_tile};
use doc_model::Look;
use geom_core::NoMemory;
use pixel_core::{Op, Pixel};
use std::alloc::Global;
use std::test::Fail;
use tile_core::Tile;

/// A tile that is opaque black at its corner and clear elsewhere.
fn black_corner(alloc: Global) -> Result<Tile, NoMemory> {
    let mut pixels = vec![in alloc; Pixel::CLEAR; 4096]?;
    pixels[0] = opaque(0, 0, 0);
    Tile::from_pixels(alloc, pixels)
}

fn over(opacity: u8, visible: bool) -> Look {
    Look {
        opacity,
        op: Op::Over,
        visible,
    }
}

#[test]
fn one_child(rt: HostRuntime) -> Result<(), Fail> {
    let alloc = rt.alloc();
    let corner = rect(&rt, 0, 0, 1, 1);
    for (visible, want) in [(true, Pixel::new(0, 0, 0, 77)), (false, Pixel::CLEAR)] {
        let given = [Given::Held(black_corner(alloc)?)];
        let tile = compose_tile(alloc, &[over(77, visible)], &given, &corner)?;
        assert_eq!(rt; tile.pixel(0, 0), want);
    }
    Ok(())
}

#[test]
fn two_children(rt: HostRuntime) -> Result<(), Fail> {
    let alloc = rt.alloc();
    let looks = [over(255, true), over(128, true)];
    let given = [
        Given::Plain(opaque(255, 0, 0)),
        Given::Held(black_corner(alloc)?),
    ];
    let pair = rect(&rt, 0, 0, 2, 1);
    let tile = compose_tile(alloc, &looks, &given, &pair)?;
    for (place, want) in [
        (0u8, Pixel::new(127, 0, 0, 255)),
        (1, opaque(255, 0, 0)),
        (2, Pixel::CLEAR),
    ] {
        assert!(rt; place < 64);
        assert_eq!(rt; tile.pixel(place, 0), want);
    }
    Ok(())
}
