//! The pixels of a layer, as tiles under keys.

ghost use Rattle.std.specs.Prelude.{◌+◌, ◌∷◌, [], ◌≡◌, IfOk, OnOk, OnErr, IfSome, IfNone, IsTrue, true, false, Some, None};
ghost use Rattle.std.specs.Option.{option_copied};
ghost use Rattle.std.specs.FinMap as map;
ghost use Rattle.geom_core.specs.Grid.{Key, keys_of, all_keys_of};
ghost use Rattle.geom_core.specs.Keys.{IsWorldKey};
ghost use Rattle.geom_core.specs.Rects.{any_holds};
ghost use Rattle.geom_core.specs.Areas.{Point, point, holds, world};
ghost use Rattle.memento_core.specs.Planes.{tile_under};
ghost use Rattle.tile_core.specs.Blocks.{LaysBlock};
ghost use Rattle.tile_core.specs.Shots.{sight_at};
ghost use Rattle.paint_device.specs.Sheets.{IsSheet, sheet, sheet_at, with_under, readied, tile_or, WritesBlock};
ghost use Rattle.paint_device.specs.Grabs.{Grabs, SharesTiles};
ghost use Rattle.paint_device.specs.InPlace.{LaysUnder};
ghost use Rattle.paint_device.specs.Extents.{IsExtent};

use crate::keyed::{extent_of, lay_alone_under, put_under, swap_under, tile_in};
use geom_core::{NoMemory, Rect, TileKey, tile_of};
use memento_core::{Plane, Steps};
use pixel_core::Pixel;
use std::alloc::Global;
use std::collections::BTreeMap;
use std::marker::Model;
use std::sync::ledger::Ledger;
use tile_core::{Block, Lays, Shot, Tile};

/// The pixels of a layer: a set of keys of the world, each with a shared tile or None, and one
/// pixel, the ground, wherever no tile stands. The ground is the layer's default pixel.
#[derive(Drop)]
pub struct Device {
    ground: Pixel,
    tiles: BTreeMap<TileKey, Option<Tile>>,
}

impl Model for Device {
    ghost use Rattle.std.specs.FinMap as map;
    ghost use Rattle.paint_device.specs.Sheets.{Sheet, IsSheet, sheet, sheet_code};

    ghost Value = { Sheet };

    ghost coded = { sheet_code };

    ghost view = { λ d. sheet d.ground (map.from_entries d.tiles.entries) };

    ghost invariant = { λ d. IsSheet (sheet d.ground (map.from_entries d.tiles.entries)) };
}

impl Device {
    /// The ground at every point, and no key.
    pub fn new(alloc: Global, default_pixel: Pixel) -> Device
        ensures { result ≡ sheet default_pixel map.empty }
    {
        Device {
            ground: default_pixel,
            tiles: BTreeMap::new(alloc),
        }
    }

    /// The pixel that it has wherever no tile stands.
    pub fn ground(&self) -> Pixel
        ensures { result ≡ self.now.default_pixel }
    {
        self.ground
    }

    /// Whether the key is there. All keys that are there are tiles of the world.
    pub fn has(&self, key: TileKey) -> bool
        ensures value { result ≡ map.contains_key self.now.tiles key }
        ensures known { IsSheet self.now }
    {
        self.tiles.contains_key(&key)
    }

    /// The tile under the key. None exactly where no tile stands there.
    pub fn tile(&self, key: TileKey) -> Option<&Tile>
        ensures { option_copied result ≡ tile_under self.now.tiles key }
    {
        tile_in(&self.tiles, key)
    }

    /// The pixel at a point of the world, which is the ground where no tile stands.
    pub fn at(&self, x: i32, y: i32) -> Pixel
        requires { holds world (point x y) ≡ true }
        ensures { result ≡ sheet_at self.now (point x y) }
    {
        match self.tile(tile_of(x, y)) {
            Some(tile) => tile.at(x, y),
            None => self.ground(),
        }
    }

    /// The least rectangle round its tiles. None exactly where no tile stands.
    pub fn extent(&self) -> Option<Rect>
        ensures some { IfSome result (IsExtent self.now.tiles) }
        ensures none { IfNone result ((k : Key) → tile_under self.now.tiles k ≡ None) }
    {
        extent_of(&self.tiles)
    }
}

impl Device {
    /// A key of the world is there afterwards. No pixel changes, nor what stands under any key.
    pub fn ready(&mut self, key: TileKey) -> Result<(), NoMemory>
        requires { IsWorldKey key }
        ensures ok { OnOk result (self.new ≡ readied self.old key) }
        ensures err { OnErr result (self.new ≡ self.old) }
    {
        if self.has(key) {
            Ok(())
        } else {
            self.put(key, None)
        }
    }

    /// The block's points take its pixels. All other points stay, and so do all other keys.
    pub fn write_region(&mut self, alloc: Global, block: &Block) -> Result<(), NoMemory>
        ensures ok { OnOk result (WritesBlock self.old self.new block.now) }
        ensures err { OnErr result (self.new ≡ self.old) }
    {
        let tile = self.laid(alloc, block)?;
        self.put(block.key(), Some(tile))
    }

    /// Makes a change in place of the tile under the key, where one stands there that nobody shares,
    /// and tells whether it did; else nothing changes. No memory.
    pub fn lay_alone<L: Lays>(&mut self, key: TileKey, change: &L) -> bool
        ensures laid { result ≡ true → LaysUnder (L.laid change.now) self.old self.new key }
        ensures kept { result ≡ false → self.new ≡ self.old }
    {
        lay_alone_under(&mut self.tiles, key, change)
    }

    /// What stands under the block's key, with the block's pixels.
    fn laid(&self, alloc: Global, block: &Block) -> Result<Tile, NoMemory>
        ensures { IfOk result (λ t. LaysBlock (tile_or (tile_under self.now.tiles block.now.key)
            self.now.default_pixel) t block.now) }
    {
        match self.tile(block.key()) {
            Some(tile) => tile.with_region(alloc, block),
            None => Tile::plain(alloc, self.ground)?.with_region(alloc, block),
        }
    }

    /// That tile or None goes under a key of the world.
    fn put(&mut self, key: TileKey, tile: Option<Tile>) -> Result<(), NoMemory>
        requires { IsWorldKey key }
        ensures ok { OnOk result (self.new ≡ with_under self.old key tile) }
        ensures err { OnErr result (self.new ≡ self.old) }
    {
        put_under(&mut self.tiles, key, tile)
    }

    /// The tile goes under the key, which is there, and what stood there comes back.
    fn swap(&mut self, key: TileKey, tile: Option<Tile>) -> Option<Tile>
        requires { map.contains_key self.old.tiles key ≡ true }
        ensures old { result ≡ tile_under self.old.tiles key }
        ensures new { self.new ≡ with_under self.old key tile }
    {
        swap_under(&mut self.tiles, key, tile)
    }

    /// That tile stands under the key, which is there, and all else stays. No memory and no step.
    pub fn set_tile(&mut self, key: TileKey, tile: Tile)
        requires { map.contains_key self.old.tiles key ≡ true }
        ensures { self.new ≡ with_under self.old key (Some tile) }
    {
        drop(self.swap(key, Some(tile)));
    }

    /// No tile stands under the key afterwards, so that its points have the ground. All else stays.
    /// No memory and no step.
    pub fn remove_tile(&mut self, key: TileKey)
        requires { map.contains_key self.old.tiles key ≡ true }
        ensures { self.new ≡ with_under self.old key None }
    {
        drop(self.swap(key, None));
    }
}

impl Device {
    /// The pixels on these rectangles. The shot has the device's ground, and of each tile that the
    /// rectangles meet it shares the whole, or has none where none stands.
    pub fn grab(&self, alloc: Global, rects: &[Rect]) -> Result<Shot, NoMemory>
        ensures default_pixel { IfOk result (λ s. s.default_pixel ≡ self.now.default_pixel) }
        ensures rects { IfOk result (λ s. s.rects ≡ rects.now) }
        ensures pixels { IfOk result (λ s. (p : Point) → any_holds rects.now p ≡ true → sight_at s p
            ≡ sheet_at self.now p) }
        ensures tiles { IfOk result (SharesTiles self.now (all_keys_of rects.now)) }
    {
        let default_pixel = self.ground();
        let mut shot = Shot::new(alloc, rects, default_pixel)?;
        for rect in rects {
            self.grab_into(rect, &mut shot)?;
        }
        Ok(shot)
    }

    /// The shot takes the tiles that the rectangle meets.
    fn grab_into(&self, rect: &Rect, shot: &mut Shot) -> Result<(), NoMemory>
        ensures { OnOk result (Grabs self.now shot.old shot.new (keys_of rect.now)) }
    {
        for i in 0..rect.tile_count() {
            self.grab_tile(rect.tile_at(i), shot)?;
        }
        Ok(())
    }

    fn grab_tile(&self, key: TileKey, shot: &mut Shot) -> Result<(), NoMemory>
        ensures { OnOk result (Grabs self.now shot.old shot.new (key ∷ [])) }
    {
        match self.tile(key) {
            Some(tile) => shot.put(key, tile),
            None => Ok(()),
        }
    }
}

impl Plane<Tile> for Device {
    ghost plane = { λ s. s.tiles };

    ghost bare = { λ s. sheet s.default_pixel map.empty };

    fn has(&self, key: TileKey) -> bool {
        Device::has(self, key)
    }

    fn exchange<L: Ledger>(
        &mut self,
        key: TileKey,
        tile: Option<Tile>,
        steps: &mut Steps<L>,
    ) -> Option<Tile>
        requires { map.contains_key self.old.tiles key ≡ true }
        ensures old { result ≡ tile_under self.old.tiles key }
        ensures new { self.new ≡ with_under self.old key tile }
        ensures counts { steps.new ≡ steps.old + 1 }
    {
        steps.tick();
        self.swap(key, tile)
    }
}
