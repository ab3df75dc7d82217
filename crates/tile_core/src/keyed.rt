//! Tiles under keys.

ghost use Rattle.std.specs.Prelude.{◌≡◌, IfOk, OnOk, OnErr, true};
ghost use Rattle.std.specs.BTreeMap as tree;
ghost use Rattle.std.specs.Option.{option_copied};
ghost use Rattle.geom_core.specs.Areas.{holds, world, point};
ghost use Rattle.geom_core.specs.Grid.{Key, key_cmp, key_of};
ghost use Rattle.tile_core.specs.Maps.{PutsUnder};
ghost use Rattle.tile_core.specs.Pixels.{pixel_or};

use crate::Tile;
use geom_core::{NoMemory, TileKey, tile_of};
use pixel_core::Pixel;
use std::alloc::Global;
use std::collections::BTreeMap;

/// The tile goes under the key.
pub fn put_under(
    tiles: &mut BTreeMap<TileKey, Tile>,
    key: TileKey,
    tile: Tile,
) -> Result<(), NoMemory>
    ensures ok { OnOk result (PutsUnder tiles.old tiles.new key tile) }
    ensures err { OnErr result (tiles.new.entries ≡ tiles.old.entries) }
{
    tiles.insert(key, tile)?;
    Ok(())
}

/// A map of its own with these tiles under these keys. Each tile is shared.
pub fn shared_tiles(
    alloc: Global,
    tiles: &BTreeMap<TileKey, Tile>,
) -> Result<BTreeMap<TileKey, Tile>, NoMemory>
    ensures { IfOk result (λ m. (q : Key) → tree.get key_cmp m q ≡ tree.get key_cmp tiles.now q) }
{
    let mut shared = BTreeMap::new(alloc);
    for (key, tile) in tiles {
        put_under(&mut shared, *key, tile.share()?)?;
    }
    Ok(shared)
}

/// The tile under the key.
pub fn tile_under(tiles: &BTreeMap<TileKey, Tile>, key: TileKey) -> Option<&Tile>
    ensures { option_copied result ≡ tree.get key_cmp tiles.now key }
{
    tiles.get(&key)
}

/// The pixel at a point, which is `default_pixel` where no tile stands.
pub fn pixel_under(tiles: &BTreeMap<TileKey, Tile>, default_pixel: Pixel, x: i32, y: i32) -> Pixel
    requires { holds world (point x y) ≡ true }
    ensures { result
        ≡ pixel_or (tree.get key_cmp tiles.now (key_of (point x y))) default_pixel (point x y) }
{
    match tiles.get(&tile_of(x, y)) {
        Some(tile) => tile.at(x, y),
        None => default_pixel,
    }
}
