//! A tile that was made whole takes the place of the one that stands on a device.

ghost use Rattle.std.specs.Prelude.{◌≡◌, IsTrue, true, cond, Some, IfOk, OnOk, OnErr};
ghost use Rattle.std.specs.FinSet as set;
ghost use Rattle.geom_core.specs.Areas.{holds, Point};
ghost use Rattle.geom_core.specs.Keys.{IsWorldKey};
ghost use Rattle.tile_core.specs.Pixels.{pixel_at};
ghost use Rattle.tile_core.specs.Shots.{sight_at};
ghost use Rattle.doc_model.specs.Layers.{Layer};
ghost use Rattle.doc_model.specs.Shots.{published, in_tile};
ghost use Rattle.whole_tiles.specs.Wholes.{IsEntire, Shows};
ghost use Rattle.paint_device.specs.Seen.{layer_of};
ghost use Rattle.paint_device.specs.Sheets.{sheet_at};
ghost use Rattle.memento_core.specs.Revisions.{keys_in};
ghost use Rattle.desk_steps.specs.declared.exchanging.Base.TheVariants.{Known};
ghost use Rattle.desk_steps.specs.Founds.{GivesBack, StandIn};
ghost use Rattle.desk_steps.specs.Tiles.{HasBase, IsWholeOn};

use crate::laying::{show_under, tile_under};
use geom_core::{NoMemory, Rect, TileKey};
use memento_core::Revision;
use paint_device::Device;
use std::alloc::Global;
use tile_core::{Block, Shot, Tile};
use whole_tiles::Whole;

/// What is known of the layer's tile that a tile made whole is to replace.
#[derive(Clone, Copy, Debug, PartialEq, Eq)]
pub enum Base {
    /// Nothing: its pixels are compared with those that the new tile was made from.
    Compared,
    /// It has still the pixels that the new tile was made from, so none is looked at.
    Known,
}

/// What a job leaves in a tile, made whole, comes onto the device, and what stood there before the
/// stroke is noted. Where there is no memory no pixel has changed, and nothing was noted.
pub fn put_whole(
    alloc: Global,
    device: &mut Device,
    found: &mut Revision<Tile>,
    whole: &Whole,
    base: Base,
) -> Result<(), NoMemory>
    requires there { StandIn found.old (Some device.old) }
    requires known { base ≡ Known → HasBase whole.now device.old }

    // The tile is changed, and what was noted still gives back the layer from before the stroke.
    ensures ok { (shot : Layer) → Shows whole.now.needs whole.now.base shot
        → OnOk result (layer_of device.new ≡ published whole.now.job shot whole.now.key
        (layer_of device.old)) }
    ensures keys { OnOk result (keys_in found.new ≡ set.insert (keys_in found.old) whole.now.key) }
    ensures back { GivesBack found.old found.new device.old device.new }

    // Without memory no pixel has changed, and nothing was noted.
    ensures err { OnErr result (layer_of device.new ≡ layer_of device.old) }
    ensures no_note { OnErr result (found.new ≡ found.old) }
{
    let tile = tile_with(alloc, device, whole, base)?;
    show_under(device, found, whole.key(), tile)
}

/// The tile that is to stand under the key: the new one itself, shared, where the device has still the
/// pixels that it was made from, and else the device's own with what the job writes.
fn tile_with(alloc: Global, device: &Device, whole: &Whole, base: Base) -> Result<Tile, NoMemory>
    requires { base ≡ Known → HasBase whole.now device.now }
    ensures { IfOk result (IsWholeOn whole.now device.now) }
{
    if has_base(device, whole, base) {
        whole.tile().share()
    } else {
        merged(alloc, device, whole)
    }
}

/// Whether the device has still the pixels that the new tile was made from, as far as it is known or
/// seen at once.
fn has_base(device: &Device, whole: &Whole, base: Base) -> bool
    requires { base ≡ Known → HasBase whole.now device.now }
    ensures value { IsTrue result → HasBase whole.now device.now }
    ensures known { IsEntire whole.now }
{
    let key = whole.key();
    match base {
        Base::Known => true,
        Base::Compared => stands_as(device, whole.base(), key),
    }
}

/// Whether the device has the base's pixels in the tile, as far as it is seen at once.
fn stands_as(device: &Device, base: &Shot, key: TileKey) -> bool
    requires { IsWorldKey key }
    ensures { result ≡ true → (p : Point) → in_tile key p ≡ true → sheet_at device.now p
        ≡ sight_at base.now p }
{
    match (device.tile(key), base.tile(key)) {
        (Some(now), Some(before)) => now.same_in(before, key, &key.rect()),
        (None, None) => device.ground() == base.ground(),
        _ => false,
    }
}

/// The device's tile with the new tile's pixels on what the job writes.
fn merged(alloc: Global, device: &Device, whole: &Whole) -> Result<Tile, NoMemory>
    ensures { IfOk result (IsWholeOn whole.now device.now) }
{
    let mut tile = tile_under(alloc, device, whole.key())?;
    let writes = whole.job().writes();
    for rect in writes.as_slice() {
        tile = with_part(alloc, tile, whole, rect)?;
    }
    Ok(tile)
}

/// A tile with the new tile's pixels on what it has of a rectangle.
fn with_part(alloc: Global, tile: Tile, whole: &Whole, rect: &Rect) -> Result<Tile, NoMemory>
    ensures { IfOk result (λ t. (p : Point) → in_tile whole.now.key p ≡ true → pixel_at t p
        ≡ cond (holds rect.now p) (pixel_at whole.now.tile p) (pixel_at tile p)) }
{
    let key = whole.key();
    match rect.clip(&key.rect()) {
        Some(part) => {
            let pixels = whole.tile().part(alloc, key, &part)?;
            tile.with_region(alloc, &Block::from_pixels(key, part, pixels))
        }
        None => Ok(tile),
    }
}
