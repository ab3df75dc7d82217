//! The pixels that a job reads, kept as they were when it started.

ghost use Rattle.std.specs.Prelude.{List, [], ◌∷◌, ◌++◌, length, replicate, ◌≡◌, ◌*◌, true, IfOk, IfSome, OnOk, OnErr, vec_len, ◌+◌, IsTrue, ◌↔◌};
ghost use Rattle.std.specs.List.{list_any};
ghost use Rattle.std.specs.Option.{option_copied};
ghost use Rattle.std.specs.FinMap as map;
ghost use Rattle.geom_core.specs.Rects.{IsWithin, IsShared};
ghost use Rattle.geom_core.specs.Grid.{Key, key_cmp, tile as tile_area};
ghost use Rattle.geom_core.specs.Keys.{IsWorldKey};
ghost use Rattle.geom_core.specs.Areas.{point, holds, lies_in, world};
ghost use Rattle.tile_core.specs.Pixels.{HasPixels, pixel_at};
ghost use Rattle.tile_core.specs.Shots.{sight, sight_at, with_seen, LaysKey, ReadsKeys, ShowsOn, SameInTile, SameShots};

use crate::Tile;
use crate::keyed::{pixel_under, put_under, shared_tiles, tile_under};
use crate::rows::{Part, lay_tile_rows};
use geom_core::{NoMemory, Rect, TILE_SIDE, TileKey};
use pixel_core::Pixel;
use std::alloc::Global;
use std::collections::BTreeMap;
use std::marker::Model;
use std::sync::Arc;

/// Rectangles, shared tiles under keys, and one pixel, the ground, wherever no tile stands.
/// To take one copies no pixel. It may be shared in turn.
#[derive(Drop)]
pub struct Shot {
    alloc: Global,
    ground: Pixel,
    seen: Arc<Seen>,
}

/// The rectangles of a shot, and its tiles.
#[derive(Drop)]
struct Seen {
    rects: Vec<Rect>,
    tiles: BTreeMap<TileKey, Tile>,
}

impl Model for Shot {
    ghost use Rattle.std.specs.FinMap as map;
    ghost use Rattle.tile_core.specs.Shots.{Sight, sight, sight_code};

    ghost Value = { Sight };

    ghost coded = { sight_code };

    ghost view = { λ s. sight s.ground s.seen.value.rects.items (map.from_entries s.seen.value.tiles.entries) };
}

impl Shot {
    /// A shot of these rectangles with the ground at every point.
    pub fn new(alloc: Global, rects: &[Rect], default_pixel: Pixel) -> Result<Shot, NoMemory>
        ensures { IfOk result (λ s. s ≡ sight default_pixel rects.now map.empty) }
    {
        let seen = Seen {
            rects: Vec::from_slice(alloc, rects)?,
            tiles: BTreeMap::new(alloc),
        };
        Ok(Shot {
            alloc,
            ground: default_pixel,
            seen: Arc::new(alloc, seen)?,
        })
    }

    /// The pixel that it has wherever no tile stands.
    pub fn ground(&self) -> Pixel
        ensures { result ≡ self.now.default_pixel }
    {
        self.ground
    }

    /// The points of the key become the tile's pixels, which are shared and not copied. Those who share
    /// the shot keep what they have.
    pub fn put(&mut self, key: TileKey, tile: &Tile) -> Result<(), NoMemory>
        ensures ok { OnOk result (self.new ≡ with_seen self.old key tile.now) }
        ensures err { OnErr result (self.new ≡ self.old) }
    {
        let tile = tile.share()?;
        match Arc::get_mut(&mut self.seen) {
            Some(seen) => put_under(&mut seen.tiles, key, tile),
            None => self.put_apart(key, tile),
        }
    }

    /// Puts a tile into a shot that somebody shares: it gets rectangles and tiles of its own first.
    fn put_apart(&mut self, key: TileKey, tile: Tile) -> Result<(), NoMemory>
        ensures ok { OnOk result (self.new ≡ with_seen self.old key tile) }
        ensures err { OnErr result (self.new ≡ self.old) }
    {
        let seen = seen_with(self.alloc, &self.seen, key, tile)?;
        self.seen = Arc::new(self.alloc, seen)?;
        Ok(())
    }

    /// One more reference to the shot. `NoMemory` only where the count of references is full.
    pub fn share(&self) -> Result<Shot, NoMemory>
        ensures { IfOk result (λ s. s ≡ self.now) }
    {
        Ok(Shot {
            alloc: self.alloc,
            ground: self.ground,
            seen: Arc::try_clone(&self.seen)?,
        })
    }

    /// The pixel at a point of the world, which is the ground where no tile stands.
    pub fn at(&self, x: i32, y: i32) -> Pixel
        requires { holds world (point x y) ≡ true }
        ensures { result ≡ sight_at self.now (point x y) }
    {
        pixel_under(&self.seen.tiles, self.ground, x, y)
    }

    /// The tile that was put under the key. Where there is none, the key's points are the ground.
    pub fn tile(&self, key: TileKey) -> Option<&Tile>
        ensures { option_copied result ≡ map.get self.now.tiles key }
    {
        tile_under(&self.seen.tiles, key)
    }

    /// Whether the rectangle lies in one of the shot's rectangles.
    pub fn covers(&self, rect: &Rect) -> bool
        ensures { result ≡ list_any (lies_in rect.now) self.now.rects }
    {
        lies_in_some(rect, &self.seen.rects)
    }

    /// Whether both shots have the same pixels on what a rectangle has of the key's tile. No memory.
    pub fn same_in(&self, other: &Shot, key: TileKey, rect: &Rect) -> bool
        requires { IsWorldKey key }
        ensures { IsTrue result ↔ SameInTile key rect.now self.now other.now }
    {
        match rect.clip(&key.rect()) {
            Some(part) => self.same_part(other, key, &part),
            None => true,
        }
    }

    /// Whether both shots have the same ground, and the same pixels on some rectangles. No memory.
    pub fn same_on(&self, other: &Shot, rects: &[Rect]) -> bool
        ensures { IsTrue result ↔ SameShots rects.now self.now other.now }
    {
        if self.ground != other.ground {
            return false;
        }
        for rect in rects {
            if !self.same_on_one(other, rect) {
                return false;
            }
        }
        true
    }

    /// Whether both shots have the same pixels on a rectangle.
    fn same_on_one(&self, other: &Shot, rect: &Rect) -> bool
        ensures { IsTrue result ↔ ShowsOn rect.now other.now (sight_at self.now) }
    {
        for i in 0..rect.tile_count() {
            if !self.same_in(other, rect.tile_at(i), rect) {
                return false;
            }
        }
        true
    }

    /// Whether both shots have the same pixels on a rectangle inside the key's tile.
    fn same_part(&self, other: &Shot, key: TileKey, rect: &Rect) -> bool
        requires key { IsWorldKey key }
        requires inside { IsWithin rect.now (tile_area key) }
        ensures { IsTrue result ↔ ShowsOn rect.now other.now (sight_at self.now) }
    {
        match self.tile(key) {
            Some(tile) => other.shows_tile(tile, key, rect),
            None => other.shows_plain(self.ground(), key, rect),
        }
    }

    /// Whether the shot has the tile's pixels on a rectangle inside the key's tile.
    fn shows_tile(&self, tile: &Tile, key: TileKey, rect: &Rect) -> bool
        requires key { IsWorldKey key }
        requires inside { IsWithin rect.now (tile_area key) }
        ensures { IsTrue result ↔ ShowsOn rect.now self.now (pixel_at tile.now) }
    {
        match self.tile(key) {
            Some(own) => tile.same_in(own, key, rect),
            None => tile.is_plain_in(self.ground(), key, rect),
        }
    }

    /// Whether every pixel that the shot has on a rectangle inside the key's tile is `p`.
    fn shows_plain(&self, p: Pixel, key: TileKey, rect: &Rect) -> bool
        requires key { IsWorldKey key }
        requires inside { IsWithin rect.now (tile_area key) }
        ensures { IsTrue result ↔ ShowsOn rect.now self.now (λ _. p) }
    {
        let _sides = (rect.w(), rect.h());
        match self.tile(key) {
            Some(own) => own.is_plain_in(p, key, rect),
            None => p == self.ground(),
        }
    }

    /// The pixels on a rectangle inside the key's tile, in row order.
    pub fn read(&self, alloc: Global, key: TileKey, rect: &Rect) -> Result<Vec<Pixel>, NoMemory>
        requires key { IsWorldKey key }
        requires inside { IsWithin rect.now (tile_area key) }
        ensures all { IfOk result (λ v. vec_len v ≡ rect.now.h * rect.now.w) }
        ensures has { IfOk result (λ v. HasPixels rect.now (sight_at self.now) v.items) }
    {
        match self.seen.tiles.get(&key) {
            Some(tile) => tile.part(alloc, key, rect),
            None => plain_part(alloc, rect, self.ground),
        }
    }

    /// The pixels on any rectangle of the world, in row order.
    pub fn pixels_on(&self, alloc: Global, rect: &Rect) -> Result<Vec<Pixel>, NoMemory>
        ensures all { IfOk result (λ v. vec_len v ≡ rect.now.h * rect.now.w) }
        ensures has { IfOk result (λ v. HasPixels rect.now (sight_at self.now) v.items) }
    {
        match only_tile(rect) {
            Some(key) => self.read(alloc, key, rect),
            None => self.gathered(alloc, rect),
        }
    }

    /// The pixels on any rectangle of the world, in row order, gathered tile by tile.
    fn gathered(&self, alloc: Global, rect: &Rect) -> Result<Vec<Pixel>, NoMemory>
        ensures all { IfOk result (λ v. vec_len v ≡ rect.now.h * rect.now.w) }
        ensures has { IfOk result (λ v. HasPixels rect.now (sight_at self.now) v.items) }
    {
        let mut pixels = plain_part(alloc, rect, self.ground())?;
        self.read_into(&mut pixels, rect);
        Ok(pixels)
    }

    /// Lays what the shot has of the rectangle over its pixels, which are the default pixel.
    fn read_into(&self, pixels: &mut [Pixel], rect: &Rect)
        requires all { length pixels.old ≡ rect.now.h * rect.now.w }
        requires plain { ReadsKeys self.now rect.now pixels.old [] }
        ensures { HasPixels rect.now (sight_at self.now) pixels.new }
    {
        for i in 0..rect.tile_count() {
            self.read_tile(pixels, rect, rect.tile_at(i));
        }
    }

    /// Lays what the shot has of the key's tile over the rectangle's pixels.
    fn read_tile(&self, pixels: &mut [Pixel], rect: &Rect, key: TileKey)
        requires key { IsWorldKey key }
        requires all { length pixels.old ≡ rect.now.h * rect.now.w }
        ensures { (ks : List Key) → ReadsKeys self.now rect.now pixels.old ks
            → ReadsKeys self.now rect.now pixels.new (ks ++ key ∷ []) }
    {
        match self.tile(key) {
            Some(tile) => lay_tile(pixels, rect, key, tile),
            None => {}
        }
    }
}

/// Rectangles and tiles like these, with that tile under the key. Tiles are shared.
fn seen_with(alloc: Global, seen: &Seen, key: TileKey, tile: Tile) -> Result<Seen, NoMemory>
    ensures rects { IfOk result (λ s. s.rects.items ≡ seen.now.rects.items) }
    ensures tiles { IfOk result (λ s. map.from_entries s.tiles.entries
        ≡ map.insert (map.from_entries {R = key_cmp} seen.now.tiles.entries) key tile) }
{
    let rects = Vec::from_slice(alloc, &seen.rects)?;
    let mut tiles = shared_tiles(alloc, &seen.tiles)?;
    put_under(&mut tiles, key, tile)?;
    Ok(Seen { rects, tiles })
}

/// The tile that has all points of the rectangle. None where there is no such one.
fn only_tile(rect: &Rect) -> Option<TileKey>
    ensures world { IfSome result IsWorldKey }
    ensures inside { IfSome result (λ k. IsWithin rect.now (tile_area k)) }
{
    let _sides = (rect.w(), rect.h());
    if rect.tile_count() == 1 {
        Some(rect.tile_at(0))
    } else {
        None
    }
}

/// Lays the points of a rectangle that the key's tile has over the rectangle's pixels.
fn lay_tile(pixels: &mut [Pixel], rect: &Rect, key: TileKey, tile: &Tile)
    requires key { IsWorldKey key }
    requires all { length pixels.old ≡ rect.now.h * rect.now.w }
    ensures { LaysKey pixels.old pixels.new rect.now key tile.now }
{
    if let Some(part) = rect.clip(&key.rect()) {
        lay_common(pixels, rect, key, &part, tile);
    }
}

/// Lays `part`, which is what the rectangle has of the key's tile, over the rectangle's pixels.
fn lay_common(pixels: &mut [Pixel], rect: &Rect, key: TileKey, part: &Rect, tile: &Tile)
    requires key { IsWorldKey key }
    requires all { length pixels.old ≡ rect.now.h * rect.now.w }
    requires shared { IsShared rect.now (tile_area key) part.now }
    ensures { LaysKey pixels.old pixels.new rect.now key tile.now }
{
    let left = part.left();
    let top = part.top();
    let place = Part {
        left: (left - rect.left()) as usize,
        top: (top - rect.top()) as usize,
        w: part.w() as usize,
        h: part.h() as usize,
    };
    let width = rect.w() as usize;
    lay_tile_rows(
        pixels,
        width,
        place,
        tile.pixels(),
        left as usize % TILE_SIDE,
        top as usize % TILE_SIDE,
    );
}

/// One pixel at each point of a rectangle.
fn plain_part(alloc: Global, rect: &Rect, p: Pixel) -> Result<Vec<Pixel>, NoMemory>
    ensures all { IfOk result (λ v. vec_len v ≡ rect.now.h * rect.now.w) }
    ensures has { IfOk result (λ v. v.items ≡ replicate (rect.now.h * rect.now.w) p) }
{
    Ok(vec![in alloc; p; rect.h() as usize * rect.w() as usize]?)
}

/// Whether the rectangle lies in one of the others.
fn lies_in_some(rect: &Rect, others: &[Rect]) -> bool
    ensures { result ≡ list_any (lies_in rect.now) others.now }
{
    others.iter().any(|other| rect.lies_in(other))
}
