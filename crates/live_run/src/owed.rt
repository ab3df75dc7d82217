//! Tiles whose newest pixels aren't shown yet.

ghost use Rattle.std.specs.Prelude.{◌≡◌, ◌≤◌, ◌<◌, true, length, Some, IfSome, slice_get};
ghost use Rattle.geom_core.specs.Grid.{same_key, keys_of};
ghost use Rattle.live_run.specs.Owing.{OwesBut, OwesMore, OwesEach};

use arrayvec::ArrayVec;
use geom_core::{Rect, TileKey};

/// How many tiles the largest canvas has.
pub(crate) const MOST_TILES: usize = 1024;

/// A tile that is owed.
#[derive(Clone, Copy, Debug, PartialEq, Eq)]
pub(crate) struct Owed {
    pub(crate) key: TileKey,
}

/// The tile (0, 0). It fills the unused places of lists of a fixed capacity.
impl Default for Owed {
    fn default() -> Owed {
        Owed {
            key: TileKey { row: 0, col: 0 },
        }
    }
}

/// Owes each tile of the rectangle.
#[tactic(auto, using(crate::proofs::Owing::owing_more, crate::proofs::Owing::owed_each))]
pub(crate) fn owe_all(owed: &mut ArrayVec<Owed, 1024>, tiles: &Rect)
    requires { length (keys_of tiles.now) ≤ 1024 }
    ensures { OwesEach tiles.now owed.new.items }
{
    owed.clear();
    for i in 0..tiles.tile_count() {
        owed.push(Owed {
            key: tiles.tile_at(i),
        });
    }
}

/// Owes that tile of the rectangle too.
#[tactic(auto, using(crate::proofs::Owing::owed_more, crate::proofs::Owing::each_is_more))]
pub(crate) fn owe(owed: &mut ArrayVec<Owed, 1024>, tiles: &Rect, key: TileKey)
    requires { length (keys_of tiles.now) ≤ 1024 }
    ensures { OwesMore key tiles.now owed.old.items owed.new.items }
{
    if owed.len() < MOST_TILES {
        owed.push(Owed { key });
    } else {
        owe_all(owed, tiles);
    }
}

/// Owes a tile no more, or once less.
#[tactic(auto, using(crate::proofs::Owing::owed_less))]
pub(crate) fn forgive(owed: &mut ArrayVec<Owed, 1024>, key: TileKey)
    ensures { OwesBut key owed.old.items owed.new.items }
{
    if let Some(place) = place_of(owed, key) {
        owed.remove(place);
    }
}

/// Where a tile stands among those that are owed.
fn place_of(owed: &[Owed], key: TileKey) -> Option<usize>
    ensures inside { IfSome result (λ i. i < length owed.now) }
    ensures there { IfSome result (λ i. slice_get owed.now i ≡ Some (record { key = key })) }
{
    for i in 0..owed.len() {
        if owed[i].key == key {
            return Some(i);
        }
    }
    None
}
