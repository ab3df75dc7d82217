//! Maps from keys to a tile or None.

ghost use Rattle.std.specs.Prelude.{◌≡◌, ◌&&◌, true, false, Some, None, is_some, IsSome, IfSome, IfNone, OnOk, OnErr};
ghost use Rattle.std.specs.Option.{option_copied, unwrap_or};
ghost use Rattle.std.specs.FinMap as map;
ghost use Rattle.std.specs.BTreeMap as tree;
ghost use Rattle.geom_core.specs.Areas.{Area};
ghost use Rattle.geom_core.specs.Grid.{Key, key_cmp};
ghost use Rattle.geom_core.specs.Keys.{IsWorldKey};
ghost use Rattle.memento_core.specs.Planes.{tile_under};
ghost use Rattle.tile_core.specs.Maps.{PutsUnder};
ghost use Rattle.paint_device.specs.InPlace.{LaidAlone, LaidUnder};
ghost use Rattle.geom_core.specs.Exchanged.{lies_if};
ghost use Rattle.paint_device.specs.Extents.{IsExtent, tile_lies};

use geom_core::{NoMemory, Rect, TileKey};
use std::collections::BTreeMap;
use std::mem;
use tile_core::{Lays, Tile};

/// That tile or None goes under the key.
pub fn put_under(
    tiles: &mut BTreeMap<TileKey, Option<Tile>>,
    key: TileKey,
    tile: Option<Tile>,
) -> Result<(), NoMemory>
    ensures ok { OnOk result (PutsUnder tiles.old tiles.new key tile) }
    ensures err { OnErr result (tiles.new.entries ≡ tiles.old.entries) }
{
    tiles.insert(key, tile)?;
    Ok(())
}

/// The same under a key that is there. What stood there comes back.
pub fn swap_under(
    tiles: &mut BTreeMap<TileKey, Option<Tile>>,
    key: TileKey,
    tile: Option<Tile>,
) -> Option<Tile>
    requires { IsSome (tree.get key_cmp tiles.old key) }
    ensures old { Some result ≡ tree.get key_cmp tiles.old key }
    ensures new { PutsUnder tiles.old tiles.new key tile }
{
    match tiles.get_mut(&key) {
        Some(place) => mem::replace(place, tile),
        None => tile,
    }
}

/// Makes the change in the tile that stands under the key, in place, where nobody shares that tile,
/// and tells whether it did.
pub fn lay_alone_under<L: Lays>(
    tiles: &mut BTreeMap<TileKey, Option<Tile>>,
    key: TileKey,
    change: &L,
) -> bool
    ensures laid { result ≡ true → LaidUnder (L.laid change.now) tiles.old tiles.new key }
    ensures kept { result ≡ false → (q : Key) → tree.get key_cmp tiles.new q ≡ tree.get key_cmp
        tiles.old q }
{
    match tiles.get_mut(&key) {
        Some(place) => lay_alone(place, change),
        None => false,
    }
}

/// Makes the change in the tile, if one is there and nobody shares it, and tells whether it did.
fn lay_alone<L: Lays>(place: &mut Option<Tile>, change: &L) -> bool
    ensures laid { result ≡ true → LaidAlone (L.laid change.now) place.old place.new }
    ensures kept { result ≡ false → place.new ≡ place.old }
{
    match place {
        Some(tile) => tile.lay_alone(change),
        None => false,
    }
}

/// The tile under the key.
pub fn tile_in(tiles: &BTreeMap<TileKey, Option<Tile>>, key: TileKey) -> Option<&Tile>
    ensures { option_copied result ≡ unwrap_or (tree.get key_cmp tiles.now key) None }
{
    match tiles.get(&key) {
        Some(tile) => tile.as_ref(),
        None => None,
    }
}

/// The least rectangle round all tiles. None exactly where there are none.
pub fn extent_of(tiles: &BTreeMap<TileKey, Option<Tile>>) -> Option<Rect>
    requires { (k : Key) → is_some (tree.get key_cmp tiles.now k) ≡ true → IsWorldKey k }
    ensures some { IfSome result (IsExtent (map.from_entries tiles.now.entries)) }
    ensures none { IfNone result ((k : Key) → tile_under (map.from_entries tiles.now.entries) k
        ≡ None) }
{
    let mut extent = None;
    for (key, tile) in tiles {
        extent = grown(extent, *key, tile);
    }
    extent
}

/// The rectangle with the key's tile, if one stands there.
fn grown(extent: Option<Rect>, key: TileKey, tile: &Option<Tile>) -> Option<Rect>
    requires { IsWorldKey key }
    ensures { (d : Area) → lies_if result d ≡ (lies_if extent d && tile_lies tile.now key d) }
{
    match tile {
        Some(_) => Some(with_tile(extent, key.rect())),
        None => extent,
    }
}

/// The least rectangle round both.
fn with_tile(extent: Option<Rect>, rect: Rect) -> Rect
    ensures { (d : Area) → lies_if (Some result) d ≡ (lies_if extent d && lies_if (Some rect) d) }
{
    match extent {
        Some(extent) => extent.bound(&rect),
        None => rect,
    }
}
