//! Layers of shared tiles, and the shots of them.

use crate::fixtures::{ORIGIN, crosses, rect, red};
use geom_core::Rect;
use paint_device::Device;
use pixel_core::Pixel;
use std::test::Fail;
use tile_core::{Block, Tile};

/// Where tiles stand, and three pixels from the corner on and before it.
fn look(device: &Device) -> (Option<Rect>, [Pixel; 3]) {
    let pixels = [device.at(0, 0), device.at(1, 0), device.at(-1, 0)];
    (device.extent(), pixels)
}

#[test]
fn a_block_on_a_device(rt: HostRuntime) -> Result<(), Fail> {
    let alloc = rt.alloc();
    let mut device = Device::new(alloc, Pixel::CLEAR);
    device.ready(ORIGIN)?;
    let clear = Pixel::CLEAR;
    assert!(rt; look(&device) == (None, [clear; 3]));
    let one = rect(&rt, 0, 0, 1, 1);
    let mut block = Block::new(alloc, ORIGIN, one)?;
    block.set(0, 0, red());
    device.write_region(alloc, &block)?;
    assert!(rt; look(&device) == (Some(ORIGIN.rect()), [red(), clear, clear]));
    let two = rect(&rt, 0, 0, 2, 1);
    let shot = device.grab(alloc, &[two])?;
    assert_eq!(rt; shot.at(0, 0), red());
    assert_eq!(rt; shot.at(1, 0), Pixel::CLEAR);
    crosses(&device);
    Ok(())
}

#[test]
fn a_block_in_place(rt: HostRuntime) -> Result<(), Fail> {
    let alloc = rt.alloc();
    let mut device = Device::new(alloc, Pixel::CLEAR);
    let one = rect(&rt, 0, 0, 1, 1);
    let mut block = Block::new(alloc, ORIGIN, one)?;
    block.set(0, 0, red());
    device.ready(ORIGIN)?;
    if device.has(ORIGIN) {
        device.set_tile(ORIGIN, Tile::clear(alloc)?);
    }
    let shot = device.grab(alloc, &[one])?;
    assert!(rt; !device.lay_alone(ORIGIN, &block));
    drop(shot);
    assert!(rt; device.lay_alone(ORIGIN, &block));
    assert_eq!(rt; device.at(0, 0), red());
    Ok(())
}
