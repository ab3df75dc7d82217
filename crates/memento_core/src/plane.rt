//! What a revision asks of the tiles that it takes back.

ghost use Rattle.std.specs.Prelude.{◌≡◌, ℕ, ◌+◌, true, Option};
ghost use Rattle.std.specs.FinMap as map;
ghost use Rattle.memento_core.specs.Planes.{Keyed, tile_under};

use crate::Steps;
use geom_core::TileKey;
use std::sync::ledger::Ledger;

/// Tiles under keys: a set of keys, each with a tile or None.
pub trait Plane<T> {
    ghost plane: { Self → Keyed T };

    // what there is of it beside its keys and tiles
    ghost bare: { Self → Self };

    /// Whether the key is there.
    fn has(&self, key: TileKey) -> bool
        ensures { result ≡ map.contains_key (plane self.now) key };

    /// The tile goes under the key, which is there, and what stood there comes back. All else stays.
    /// One step, and no memory.
    fn exchange<L: Ledger>(
        &mut self,
        key: TileKey,
        tile: Option<T>,
        steps: &mut Steps<L>,
    ) -> Option<T>
        requires { map.contains_key (plane self.old) key ≡ true }
        ensures old { result ≡ tile_under (plane self.old) key }
        ensures new { plane self.new ≡ map.insert (plane self.old) key tile }
        ensures rest { bare self.new ≡ bare self.old }
        ensures counts { steps.new ≡ steps.old + 1 };
}
