//! The cache of each group.

ghost use Rattle.std.specs.Prelude.{◌≡◌, ◌≤◌, ◌==◌, ℕ, true, false, All, vec_capacity, [], ◌∷◌, ◌++◌, length, nat_eq, is_some, IfOk, IfSome, IfNone, OnOk, OnErr};
ghost use Rattle.std.specs.FinMap as map;
ghost use Rattle.std.specs.List.{IsDistinct};
ghost use Rattle.pixel_core.specs.Rgba.{Rgba, clear};
ghost use Rattle.geom_core.specs.Areas.{holds, world, Point, point};
ghost use Rattle.geom_core.specs.Keys.{IsWorldKey};
ghost use Rattle.tile_core.specs.Pixels.{pixel_at};
ghost use Rattle.doc_model.specs.Layers.{at, plain};
ghost use Rattle.doc_model.specs.Shots.{in_tile};
ghost use Rattle.doc_model.specs.Readers.{order};
ghost use Rattle.doc_model.specs.Picture.{Doc};
ghost use Rattle.machine_model.specs.Groups.{cache};
ghost use Rattle.machine_model.specs.Effects.{caches_for};
ghost use Rattle.paint_device.specs.Seen.{layer_of};
ghost use Rattle.paint_device.specs.Sheets.{sheet};
ghost use Rattle.compose_core.specs.Spots.{given_on};
ghost use Rattle.group_caches.specs.Entries.{IsClear, LacksBelow, entries_of, caches_of};
ghost use Rattle.group_caches.specs.Kept.{with_picture, SameThere, kept_entries};

use crate::painting::lay_given;
use crate::places::{Place, place_of};
use compose_core::Given;
use geom_core::{NoMemory, Rect, TileKey};
use paint_device::Device;
use pixel_core::Pixel;
use std::alloc::Global;
use std::marker::Model;
use std::mem;
use tile_core::Tile;

/// The root and at most 256 groups.
const MOST: usize = 257;

/// A cache for each group of a tree, the root's under 0. A cache has the pixels that walks left in it,
/// and is clear elsewhere.
#[derive(Drop)]
pub struct Caches {
    alloc: Global,
    places: Vec<Place>,
    /// Holds the places while they change. Empty between calls.
    spare: Vec<Place>,
}

impl Model for Caches {
    ghost use Rattle.std.specs.Ordering.{nat_cmp};
    ghost use Rattle.std.specs.FinMap as map;
    ghost use Rattle.std.specs.FinMap.{FinMap};
    ghost use Rattle.std.specs.Coded.{coded_ℕ};
    ghost use Rattle.doc_model.specs.Layers.{Layer};
    ghost use Rattle.doc_model.specs.Codes.{layer_code};

    ghost Value = { FinMap nat_cmp Layer };

    ghost coded = { map.code coded_ℕ layer_code };

    ghost use Rattle.group_caches.specs.Entries.{caches_of};
    ghost use Rattle.group_caches.specs.Rooms.{IsRoomy};

    ghost view = { λ c. caches_of c.places.items };

    ghost invariant = { IsRoomy };
}

impl Caches {
    /// A clear cache for the root. All room that caches of other groups need is taken here.
    pub fn new(alloc: Global) -> Result<Caches, NoMemory>
        ensures { IfOk result (λ c. c ≡ map.insert map.empty 0 (plain clear)) }
    {
        let mut places = Vec::with_capacity(alloc, MOST)?;
        let spare = Vec::with_capacity(alloc, MOST)?;
        places.push(clear_place(alloc, 0))?;
        Ok(Caches {
            alloc,
            places,
            spare,
        })
    }

    /// Lays a walk's picture of a group on its cache, at the points of the rectangle in the key's tile.
    /// The cache of a group that has none yet is clear before.
    pub fn put(
        &mut self,
        group: u16,
        rect: &Rect,
        key: TileKey,
        given: &Given,
    ) -> Result<(), NoMemory>
        requires { IsWorldKey key }
        ensures ok { OnOk result ((f : Point → Rgba) → SameThere rect.now key (given_on given.now) f
            → self.new ≡ with_picture self.old group rect.now key f) }
        ensures err { OnErr result (self.new ≡ self.old) }
    {
        let alloc = self.alloc;
        match place_of(&self.places, group) {
            Some(i) => lay_given(alloc, &mut self.places[i].device, rect, key, given),
            None => lay_first(alloc, &mut self.places, group, rect, key, given),
        }
    }

    /// Keeps the caches of these groups, and makes a clear one for each that has none. The others go.
    /// No memory.
    pub fn keep(&mut self, groups: &[u16])
        requires few { length groups.now ≤ 257 }
        requires once { IsDistinct nat_eq groups.now }
        ensures { (doc : Doc) → groups.now ≡ order doc ++ 0 ∷ [] → self.new ≡ caches_for self.old
            doc }
    {
        bring(self.alloc, &mut self.places, &mut self.spare, groups);
        mem::swap(&mut self.places, &mut self.spare);
        self.spare.truncate(0);
    }

    /// The device of a group's cache. None exactly where the group has none.
    pub fn device(&self, group: u16) -> Option<&Device>
        ensures some { IfSome result (λ d. layer_of d.now ≡ cache self.now group) }
        ensures there { is_some result ≡ map.contains_key self.now group }
    {
        match place_of(&self.places, group) {
            Some(i) => Some(&self.places[i].device),
            None => None,
        }
    }

    /// The tile of a group's cache under a key. Where there is none, the cache is clear on that tile.
    pub fn tile(&self, group: u16, key: TileKey) -> Option<&Tile>
        ensures some { IfSome result (λ t. (p : Point) → in_tile key p ≡ true → pixel_at t.now p
            ≡ at (cache self.now group) p) }
        ensures none { IfNone result ((p : Point) → in_tile key p ≡ true → at (cache self.now group)
            p ≡ clear) }
    {
        match place_of(&self.places, group) {
            Some(i) => self.places[i].device.tile(key),
            None => None,
        }
    }

    /// The pixel of a group's cache at a point of the world.
    pub fn at(&self, group: u16, x: i32, y: i32) -> Pixel
        requires { holds world (point x y) ≡ true }
        ensures { result ≡ at (cache self.now group) (point x y) }
    {
        match place_of(&self.places, group) {
            Some(i) => self.places[i].device.at(x, y),
            None => Pixel::CLEAR,
        }
    }
}

/// A clear cache.
fn clear_place(alloc: Global, group: u16) -> Place
    ensures group { result.group ≡ group }
    ensures device { result.device ≡ sheet clear map.empty }
{
    Place {
        group,
        device: Device::new(alloc, Pixel::CLEAR),
    }
}

/// Lays what is given on a clear cache for a group that has none.
fn lay_first(
    alloc: Global,
    places: &mut Vec<Place>,
    group: u16,
    rect: &Rect,
    key: TileKey,
    given: &Given,
) -> Result<(), NoMemory>
    requires lacks { LacksBelow group places.old.items (length places.old.items) }
    requires key { IsWorldKey key }
    requires clear { All IsClear places.old.items }
    ensures ok { OnOk result ((f : Point → Rgba) → SameThere rect.now key (given_on given.now) f
        → caches_of places.new.items ≡ with_picture (caches_of places.old.items) group rect.now key
        f) }
    ensures clear { All IsClear places.new.items }
    ensures room { vec_capacity places.old ≤ vec_capacity places.new }
    ensures err { OnErr result (places.new.items ≡ places.old.items) }
{
    let mut place = clear_place(alloc, group);
    lay_given(alloc, &mut place.device, rect, key, given)?;
    places.push(place)?;
    Ok(())
}

/// Moves the caches of these groups to the end of a list that has room for them, and makes a clear one
/// for each that has none. No memory.
fn bring(alloc: Global, from: &mut Vec<Place>, to: &mut Vec<Place>, groups: &[u16])
    requires few { length groups.now ≤ vec_capacity to.old }
    requires once { IsDistinct nat_eq groups.now }
    requires empty { to.old.items ≡ [] }
    requires clear { All IsClear from.old.items }
    ensures entries { entries_of to.new.items ≡ kept_entries (caches_of from.old.items) groups.now }
    ensures clear { All IsClear to.new.items }
    ensures from { vec_capacity from.new ≡ vec_capacity from.old }
    ensures to { vec_capacity to.new ≡ vec_capacity to.old }
{
    for group in groups {
        let place = taken(alloc, from, *group);
        to.push_reserved(place);
    }
}

/// Takes the group's cache out of its place, or makes a clear one where there is none. No memory.
fn taken(alloc: Global, places: &mut Vec<Place>, group: u16) -> Place
    requires { All IsClear places.old.items }
    ensures group { result.group ≡ group }
    ensures layer { layer_of result.device ≡ cache (caches_of places.old.items) group }
    ensures clear { IsClear result }
    ensures still { All IsClear places.new.items }
    ensures others { (q : ℕ) → (q == group) ≡ false → map.get (caches_of places.new.items) q
        ≡ map.get (caches_of places.old.items) q }
    ensures room { vec_capacity places.new ≡ vec_capacity places.old }
{
    let clear = clear_place(alloc, group);
    match place_of(places, group) {
        Some(i) => mem::replace(&mut places[i], clear),
        None => clear,
    }
}
