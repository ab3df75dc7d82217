//! Painting point operations on a device.

ghost use Rattle.std.specs.Prelude.{◌≡◌, Some, vec_len, replicate, IfOk, IfSome, OnOk, OnErr};
ghost use Rattle.std.specs.Option.{option_copied};
ghost use Rattle.std.specs.FinSet as set;
ghost use Rattle.geom_core.specs.Keys.{IsWorldKey};
ghost use Rattle.memento_core.specs.Planes.{tile_under};
ghost use Rattle.job_core.specs.Points.{LaysPoints, all_painted_in};
ghost use Rattle.paint_device.specs.Seen.{layer_of};
ghost use Rattle.paint_device.specs.Sheets.{tile_or};
ghost use Rattle.memento_core.specs.Revisions.{keys_in};
ghost use Rattle.desk_steps.specs.Founds.{GivesBack, StandIn};
ghost use Rattle.desk_steps.specs.Tiles.{IsPaintedOn, beside};

use crate::laying::{changed_in_place, set_under};
use geom_core::{NoMemory, TileKey};
use job_core::PointWork;
use memento_core::Revision;
use paint_device::Device;
use pixel_core::Pixel;
use std::alloc::Global;
use tile_core::{Lays, Tile};

/// Paints point operations in one tile of the device, and notes what stood there before the stroke.
/// Where there is no memory no pixel has changed, and nothing was noted.
pub fn paint(
    alloc: Global,
    device: &mut Device,
    found: &mut Revision<Tile>,
    work: &PointWork<'_>,
) -> Result<(), NoMemory>
    requires { StandIn found.old (Some device.old) }
    ensures ok { OnOk result (layer_of device.new ≡ all_painted_in work.now.jobs work.now.key
        (layer_of device.old)) }
    ensures keys { OnOk result (keys_in found.new ≡ set.insert (keys_in found.old) work.now.key) }
    ensures back { GivesBack found.old found.new device.old device.new }
    ensures err { OnErr result (layer_of device.new ≡ layer_of device.old) }
    ensures no_note { OnErr result (found.new ≡ found.old) }
{
    let key = work.key();
    if changed_in_place(device, found, key, work) {
        return Ok(());
    }
    let tile = painted(alloc, device, work)?;
    set_under(device, found, key, tile)
}

/// The tile under the key with what the point operations make of it.
fn painted(alloc: Global, device: &Device, work: &PointWork<'_>) -> Result<Tile, NoMemory>
    ensures { IfOk result (IsPaintedOn work.now device.now) }
{
    match plain_left(device, work) {
        Some(pixel) => plain_tile(alloc, device, work.key(), pixel),
        None => painted_copy(alloc, device, work),
    }
}

/// The one pixel that the point operations leave at all points of their tile. None where it finds none.
fn plain_left(device: &Device, work: &PointWork<'_>) -> Option<Pixel>
    ensures { IfSome result (λ c. LaysPoints work.now
        (tile_or (tile_under device.now.tiles work.now.key) device.now.default_pixel)
        (replicate 4096 c)) }
{
    match device.tile(work.key()) {
        Some(tile) => work.plain_on(tile),
        None => work.plain_on_ground(device.ground()),
    }
}

/// A tile of one pixel: a neighbour's, shared, where that is such a one, or else a new one.
fn plain_tile(alloc: Global, device: &Device, key: TileKey, pixel: Pixel) -> Result<Tile, NoMemory>
    requires { IsWorldKey key }
    ensures { IfOk result (λ t. t ≡ replicate 4096 pixel) }
{
    match neighbour(device, key) {
        Some(tile) if tile.is_plain(pixel) => tile.share(),
        _ => Tile::plain(alloc, pixel),
    }
}

/// The tile to the left of the key, or else the one above.
fn neighbour(device: &Device, key: TileKey) -> Option<&Tile>
    requires { IsWorldKey key }
    ensures { option_copied result ≡ beside device.now key }
{
    let left = device.tile(TileKey {
        row: key.row,
        col: key.col - 1,
    });
    let above = TileKey {
        row: key.row - 1,
        col: key.col,
    };
    match left {
        Some(tile) => Some(tile),
        None => device.tile(above),
    }
}

/// A copy of the pixels under the key, with the point operations painted on it.
fn painted_copy(alloc: Global, device: &Device, work: &PointWork<'_>) -> Result<Tile, NoMemory>
    ensures { IfOk result (IsPaintedOn work.now device.now) }
{
    let mut pixels = pixels_under(alloc, device, work.key())?;
    work.lay(&mut pixels);
    Tile::from_pixels(alloc, pixels)
}

/// A copy of the 4,096 pixels under the key.
fn pixels_under(alloc: Global, device: &Device, key: TileKey) -> Result<Vec<Pixel>, NoMemory>
    ensures all { IfOk result (λ v. vec_len v ≡ 4096) }
    ensures value { IfOk result (λ v. v.items ≡ tile_or (tile_under device.now.tiles key)
        device.now.default_pixel) }
{
    match device.tile(key) {
        Some(tile) => Ok(Vec::from_slice(alloc, tile.pixels())?),
        None => Ok(vec![in alloc; device.ground(); 4096]?),
    }
}
