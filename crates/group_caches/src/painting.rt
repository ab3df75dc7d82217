//! What is laid on a cache.

ghost use Rattle.std.specs.Prelude.{◌≡◌, IfOk, OnOk, OnErr};
ghost use Rattle.pixel_core.specs.Rgba.{clear};
ghost use Rattle.geom_core.specs.Rects.{IsWithin};
ghost use Rattle.geom_core.specs.Grid.{tile as tile_area};
ghost use Rattle.geom_core.specs.Keys.{IsWorldKey};
ghost use Rattle.group_caches.specs.Laying.{StandsFor, HasNone, LaysPoints, LaysGiven, LaysWhole};

use compose_core::{Given, Spot};
use geom_core::{NoMemory, Rect, TileKey};
use paint_device::Device;
use pixel_core::Pixel;
use std::alloc::Global;
use tile_core::{Block, Tile};

/// Lays what is given on the rectangle's points in the key's tile of a device that is clear wherever
/// no tile stands. Where that is the whole tile, the tile is exchanged and no pixel is copied.
pub(crate) fn lay_given(
    alloc: Global,
    device: &mut Device,
    rect: &Rect,
    key: TileKey,
    given: &Given,
) -> Result<(), NoMemory>
    requires key { IsWorldKey key }
    requires clear { device.old.default_pixel ≡ clear }
    ensures ok { OnOk result (LaysGiven rect.now key given.now device.old device.new) }
    ensures err { OnErr result (device.new ≡ device.old) }
{
    let tile = key.rect();
    match rect.clip(&tile) {
        Some(part) => {
            if part.w() == 64 && part.h() == 64 {
                lay_whole(alloc, device, key, given)
            } else {
                lay_part(alloc, device, &part, key, given)
            }
        }
        None => Ok(()),
    }
}

/// Lays what is given on a whole tile. A clear picture leaves no tile there.
fn lay_whole(
    alloc: Global,
    device: &mut Device,
    key: TileKey,
    given: &Given,
) -> Result<(), NoMemory>
    requires { IsWorldKey key }
    ensures ok { OnOk result (LaysWhole key given.now device.old device.new) }
    ensures err { OnErr result (device.new ≡ device.old) }
{
    match tile_of(alloc, given)? {
        Some(tile) => {
            device.ready(key)?;
            device.set_tile(key, tile);
        }
        None => remove_tile(device, key),
    }
    Ok(())
}

/// The tile that shows what is given, shared where there is one. None for a clear picture.
fn tile_of(alloc: Global, given: &Given) -> Result<Option<Tile>, NoMemory>
    ensures { IfOk result (StandsFor given.now) }
{
    match given {
        Given::Held(tile) => Ok(Some(tile.share()?)),
        Given::Plain(pixel) => {
            if *pixel == Pixel::CLEAR {
                Ok(None)
            } else {
                Ok(Some(Tile::plain(alloc, *pixel)?))
            }
        }
    }
}

/// No tile stands under the key any more.
fn remove_tile(device: &mut Device, key: TileKey)
    ensures { HasNone key device.old device.new }
{
    if device.has(key) {
        device.remove_tile(key);
    }
}

/// Lays what is given on a part of a tile. A clear picture makes no tile where none stands.
fn lay_part(
    alloc: Global,
    device: &mut Device,
    part: &Rect,
    key: TileKey,
    given: &Given,
) -> Result<(), NoMemory>
    requires key { IsWorldKey key }
    requires inside { IsWithin part.now (tile_area key) }
    requires clear { device.old.default_pixel ≡ clear }
    ensures ok { OnOk result (LaysGiven part.now key given.now device.old device.new) }
    ensures err { OnErr result (device.new ≡ device.old) }
{
    if given.is_clear() && device.tile(key).is_none() {
        return Ok(());
    }
    let spot = Spot { key, part: *part };
    let pixels = given.pixels_on(alloc, &spot)?;
    let block = Block::from_pixels(key, *part, pixels);
    lay_block(alloc, device, &block)
}

/// Lays a block, in place where nobody shares the tile.
fn lay_block(alloc: Global, device: &mut Device, block: &Block) -> Result<(), NoMemory>
    ensures ok { OnOk result (LaysPoints device.old device.new block.now) }
    ensures err { OnErr result (device.new ≡ device.old) }
{
    if device.lay_alone(block.key(), block) {
        return Ok(());
    }
    device.write_region(alloc, block)
}
