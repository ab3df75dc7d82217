//! Sets of tiles.

ghost use Rattle.std.specs.Prelude.{◌≡◌, not, Some, All, OnOk, OnErr, IfOk};
ghost use Rattle.std.specs.FinSet as set;
ghost use Rattle.geom_core.specs.Grid.{key_cmp};
ghost use Rattle.geom_core.specs.Keys.{IsWorldKey};
ghost use Rattle.geom_core.specs.Touches.{bound_of};
ghost use Rattle.geom_core.specs.Exchanged.{HasTouched};

use geom_core::{NoMemory, Rect, TileKey, Touched};
use std::alloc::Global;
use std::collections::BTreeSet;
use std::marker::Model;

/// The most tiles that a `Touched` can count.
const MOST_KEYS: usize = 4_294_967_295;

/// A set of tiles of the world, at most 2^32 - 1.
#[derive(Drop)]
pub struct KeySet {
    tiles: BTreeSet<TileKey>,
}

impl Model for KeySet {
    ghost use Rattle.std.specs.FinSet as set;
    ghost use Rattle.geom_core.specs.Grid.{key_cmp};
    ghost use Rattle.geom_core.specs.Keys.{key_code};
    ghost use Rattle.memento_core.specs.KeySets.{IsKeySet};

    ghost Value = { set.FinSet key_cmp };

    ghost coded = { set.code key_code };

    ghost view = { λ s. set.from_list s.tiles.keys };

    ghost invariant = { λ s. IsKeySet s.tiles.keys };
}

impl KeySet {
    /// No tile.
    pub fn new(alloc: Global) -> KeySet
        ensures { result ≡ set.empty }
    {
        KeySet {
            tiles: BTreeSet::new(alloc),
        }
    }

    /// The tile is in the set afterwards. Answers whether it is new there.
    pub fn insert(&mut self, key: TileKey) -> Result<bool, NoMemory>
        requires { IsWorldKey key }
        ensures ok { OnOk result (self.new ≡ set.insert self.old key) }
        ensures new { IfOk result (λ new. new ≡ not (set.contains self.old key)) }
        ensures err { OnErr result (self.new ≡ self.old) }
    {
        if self.tiles.len() >= MOST_KEYS {
            return Err(NoMemory);
        }
        let added = self.tiles.insert(key)?;
        Ok(added)
    }

    /// Whether the tile is in the set.
    pub fn has(&self, key: TileKey) -> bool
        ensures { result ≡ set.contains self.now key }
    {
        self.tiles.contains(&key)
    }

    /// How many there are, and the least rectangle round them.
    pub fn touched(&self) -> Touched
        ensures { HasTouched self.now result }
    {
        Touched {
            count: self.tiles.len() as u32,
            bound: bound_of(&self.tiles),
        }
    }
}

/// The least rectangle round the tiles.
fn bound_of(tiles: &BTreeSet<TileKey>) -> Option<Rect>
    requires { All IsWorldKey tiles.now.keys }
    ensures { result ≡ bound_of (set.items (set.from_list {R = key_cmp} tiles.now.keys)) }
{
    let mut bound = None;
    for key in tiles {
        bound = Some(Rect::round(bound, &key.rect()));
    }
    bound
}
