//! Laying what was painted on a device.

ghost use Rattle.std.specs.Prelude.{◌≡◌, true, false, Some, IfOk, OnOk, OnErr};
ghost use Rattle.std.specs.FinMap as map;
ghost use Rattle.std.specs.FinSet as set;
ghost use Rattle.geom_core.specs.Keys.{IsWorldKey};
ghost use Rattle.geom_core.specs.Areas.{Point};
ghost use Rattle.tile_core.specs.Pixels.{pixel_at};
ghost use Rattle.doc_model.specs.Shots.{published, in_tile};
ghost use Rattle.job_core.specs.Paints as paints;
ghost use Rattle.job_core.specs.Paints.{Paint, Makes};
ghost use Rattle.paint_device.specs.InPlace.{LaysUnder};
ghost use Rattle.paint_device.specs.Seen.{layer_of};
ghost use Rattle.paint_device.specs.Sheets.{readied, sheet_at, with_under};
ghost use Rattle.memento_core.specs.Planes.{tile_under};
ghost use Rattle.memento_core.specs.Revisions.{keys_in, noted_under};
ghost use Rattle.desk_steps.specs.Founds.{GivesBack, StandIn};
ghost use Rattle.desk_steps.specs.Tiles.{IsLaidFrom};

use geom_core::{NoMemory, TileKey};
use job_core::Made;
use memento_core::Revision;
use paint_device::Device;
use std::alloc::Global;
use tile_core::{Lays, Tile};

/// Lays what was painted on the device, and notes what stood in its tile before the stroke. Where
/// there is no memory no pixel has changed, and nothing was noted.
pub fn lay(
    alloc: Global,
    device: &mut Device,
    found: &mut Revision<Tile>,
    made: &Made,
) -> Result<(), NoMemory>
    requires { StandIn found.old (Some device.old) }
    ensures ok { (w : Paint) → Makes w made.now → OnOk result (layer_of device.new ≡ published w.job
        (paints.layer_of w.shot) w.key (layer_of device.old)) }
    ensures keys { OnOk result (keys_in found.new ≡ set.insert (keys_in found.old) made.now.key) }
    ensures back { GivesBack found.old found.new device.old device.new }
    ensures err { OnErr result (layer_of device.new ≡ layer_of device.old) }
    ensures no_note { OnErr result (found.new ≡ found.old) }
{
    if laid_in_place(device, found, made) {
        return Ok(());
    }
    let tile = laid(alloc, device, made)?;
    show_under(device, found, made.key(), tile)
}

/// Lays one block in place, where something was noted of its tile and nobody shares it. It tells
/// whether it did; else nothing changes. No memory.
fn laid_in_place(device: &mut Device, found: &Revision<Tile>, made: &Made) -> bool
    requires { StandIn found.now (Some device.old) }
    ensures laid { (w : Paint) → Makes w made.now → result ≡ true → layer_of device.new
        ≡ published w.job (paints.layer_of w.shot) w.key (layer_of device.old) }
    ensures among { result ≡ true → map.contains_key found.now made.now.key ≡ true }
    ensures back { GivesBack found.now found.now device.old device.new }
    ensures kept { result ≡ false → device.new ≡ device.old }
{
    if made.block_count() == 1 {
        changed_in_place(device, found, made.key(), made.block(0))
    } else {
        false
    }
}

/// Makes a change in place of the tile under the key, where something was noted of that and nobody
/// shares the tile. It tells whether it did; else nothing changes. No memory.
pub fn changed_in_place<L: Lays>(
    device: &mut Device,
    found: &Revision<Tile>,
    key: TileKey,
    change: &L,
) -> bool
    requires { StandIn found.now (Some device.old) }
    ensures laid { result ≡ true → LaysUnder (L.laid change.now) device.old device.new key }
    ensures among { result ≡ true → map.contains_key found.now key ≡ true }
    ensures back { GivesBack found.now found.now device.old device.new }
    ensures kept { result ≡ false → device.new ≡ device.old }
{
    if found.has(key) {
        device.lay_alone(key, change)
    } else {
        false
    }
}

/// The tile's pixels come under a key of the world, and what stood there before the stroke is noted.
/// Where no tile stands and this one has nothing but the ground, none stands afterwards: so what moves
/// or blurs clear pixels takes no tile. Where there is no memory no pixel has changed, and nothing was
/// noted.
pub fn show_under(
    device: &mut Device,
    found: &mut Revision<Tile>,
    key: TileKey,
    tile: Tile,
) -> Result<(), NoMemory>
    requires world { IsWorldKey key }
    requires there { StandIn found.old (Some device.old) }

    // The tile is shown, and what was noted still gives back the layer from before the stroke.
    ensures ok { OnOk result (layer_of device.new
        ≡ layer_of (with_under device.old key (Some tile))) }
    ensures keys { OnOk result (keys_in found.new ≡ set.insert (keys_in found.old) key) }
    ensures back { GivesBack found.old found.new device.old device.new }

    // Without memory no pixel has changed, and nothing was noted.
    ensures err { OnErr result (layer_of device.new ≡ layer_of device.old) }
    ensures no_note { OnErr result (found.new ≡ found.old) }
{
    if adds_nothing(device, key, &tile) {
        note_under(device, found, key)
    } else {
        set_under(device, found, key, tile)
    }
}

/// Whether no tile stands under the key, and this one has nothing but the ground.
fn adds_nothing(device: &Device, key: TileKey, tile: &Tile) -> bool
    ensures { result ≡ true → layer_of (with_under device.now key (Some tile.now))
        ≡ layer_of device.now }
{
    match device.tile(key) {
        Some(_) => false,
        None => tile.is_plain(device.ground()),
    }
}

/// The tile stands under a key of the world, and what stood there before the stroke is noted. Where
/// there is no memory no pixel has changed, and nothing was noted.
pub fn set_under(
    device: &mut Device,
    found: &mut Revision<Tile>,
    key: TileKey,
    tile: Tile,
) -> Result<(), NoMemory>
    requires world { IsWorldKey key }
    requires there { StandIn found.old (Some device.old) }

    // The tile is shown, and what was noted still gives back the layer from before the stroke.
    ensures ok { OnOk result (device.new ≡ with_under device.old key (Some tile)) }
    ensures keys { OnOk result (keys_in found.new ≡ set.insert (keys_in found.old) key) }
    ensures back { GivesBack found.old found.new device.old device.new }

    // Without memory no pixel has changed, and nothing was noted.
    ensures err { OnErr result (layer_of device.new ≡ layer_of device.old) }
    ensures no_note { OnErr result (found.new ≡ found.old) }
{
    note_under(device, found, key)?;
    device.set_tile(key, tile);
    Ok(())
}

/// A key of the world is there, and what stood under it before the stroke is noted. No pixel changes.
fn note_under(device: &mut Device, found: &mut Revision<Tile>, key: TileKey) -> Result<(), NoMemory>
    requires world { IsWorldKey key }
    requires there { StandIn found.old (Some device.old) }
    ensures ok { OnOk result (device.new ≡ readied device.old key) }
    ensures noted { OnOk result (found.new ≡ noted_under found.old key (tile_under device.old.tiles
        key)) }
    ensures keys { OnOk result (keys_in found.new ≡ set.insert (keys_in found.old) key) }
    ensures back { GivesBack found.old found.new device.old device.new }
    ensures same { layer_of device.new ≡ layer_of device.old }
    ensures no_note { OnErr result (found.new ≡ found.old) }
{
    let old = shared_under(device, key)?;
    if old.is_none() {
        device.ready(key)?;
    }
    found.note(key, old)
}

/// The tile under the key, shared, or None where none stands.
fn shared_under(device: &Device, key: TileKey) -> Result<Option<Tile>, NoMemory>
    ensures { IfOk result (λ t. t ≡ tile_under device.now.tiles key) }
{
    match device.tile(key) {
        Some(tile) => Ok(Some(tile.share()?)),
        None => Ok(None),
    }
}

/// The tile under the painted key, with one painted block laid on it after another.
fn laid(alloc: Global, device: &Device, made: &Made) -> Result<Tile, NoMemory>
    ensures { IfOk result (IsLaidFrom made.now device.now) }
{
    let key = made.key();
    let mut tile = tile_under(alloc, device, key)?;
    for i in 0..made.block_count() {
        tile = tile.with_region(alloc, made.block(i))?;
    }
    Ok(tile)
}

/// The tile under the key, or one of the default pixel. What is there is shared, not copied.
pub fn tile_under(alloc: Global, device: &Device, key: TileKey) -> Result<Tile, NoMemory>
    ensures { IfOk result (λ t. (p : Point) → in_tile key p ≡ true → pixel_at t p
        ≡ sheet_at device.now p) }
{
    match device.tile(key) {
        Some(tile) => tile.share(),
        None => Tile::plain(alloc, device.ground()),
    }
}
