//! What a walk composed comes to the desk, tile by tile.

ghost use Rattle.std.specs.Prelude.{◌≡◌, ◌↔◌, IsTrue, true, false, OnOk, OnErr, [], ◌∷◌};
ghost use Rattle.std.specs.List.{list_all, list_any};
ghost use Rattle.geom_core.specs.Keys.{IsWorldKey};
ghost use Rattle.walker_core.specs.Readings.{path_in};
ghost use Rattle.walker_core.specs.Composing.{has_pair};
ghost use Rattle.walker_core.specs.Sameness.{ReadTheSame};
ghost use Rattle.slot_work.specs.LaidTiles.{Lays, LaysFront, LaysSome, laid_in, pairs_at};
ghost use Rattle.machine_model.specs.Guards.{same_pair};
ghost use Rattle.slot_work.specs.OfWalk.{IsOfWalkAt, IsRowOfWalk, ReadsAlike};

use crate::walking::{is_tile_of, lay_composed};
use desk_state::{Newest, has_pair as was_published};
use filmed_caches::FilmedCaches;
use geom_core::{NoMemory, TileKey};
use walker_core::{Composed, Inputs};

/// Whether a walk's patch has points in the tile, and what was composed read the same there. No memory.
pub fn reads_alike(inputs: &Inputs, composed: &Composed<'_>, key: TileKey) -> bool
    ensures { IsTrue result ↔ ReadsAlike inputs.now composed.now key }
{
    is_tile_of(&inputs.patch().rect, key) && inputs.same_in(composed.inputs(), key)
}

/// Whether a walk's patch has points in the tile, and all its groups were composed there. What was composed
/// read the same there, so no pixel is looked at. No memory.
pub fn is_row_of_walk(inputs: &Inputs, composed: &Composed<'_>, key: TileKey) -> bool
    requires { ReadTheSame inputs.now composed.now.readings key }
    ensures some { result ≡ true → IsRowOfWalk inputs.now composed.now key }
    ensures none { result ≡ false → IsRowOfWalk inputs.now composed.now key → ⊥ }
{
    is_tile_of(&inputs.patch().rect, key) && has_all(composed, inputs.path(), key)
}

/// Whether these groups were composed on the tile.
fn has_all(composed: &Composed<'_>, path: &[u16], key: TileKey) -> bool
    ensures { result ≡ list_all (λ g. has_pair composed.now g key) path.now }
{
    for group in path {
        if composed.given(*group, key).is_none() {
            return false;
        }
    }
    true
}

/// Lays what a walk composed on a tile on the cache of each of its groups of which it isn't published.
///
/// # Errors
/// `NoMemory`; it is laid of some of the groups, from the first on.
pub fn lay_row(
    filmed: &mut FilmedCaches,
    published: &mut Newest<(u16, TileKey)>,
    composed: &Composed<'_>,
    inputs: &Inputs,
    key: TileKey,
) -> Result<(), NoMemory>
    requires of { IsOfWalkAt inputs.now composed.now key }
    requires world { IsWorldKey key }
    ensures all { OnOk result (Lays inputs.now (pairs_at (path_in inputs.now) key)
        (laid_in filmed.old published.old) (laid_in filmed.new published.new)) }
    ensures front { LaysFront inputs.now (pairs_at (path_in inputs.now) key)
        (laid_in filmed.old published.old) (laid_in filmed.new published.new) }
    ensures some { OnErr result (LaysSome inputs.now (pairs_at (path_in inputs.now) key)
        (laid_in filmed.old published.old) (laid_in filmed.new published.new)) }
    ensures frames { filmed.new.frames ≡ filmed.old.frames }
{
    lay_groups(filmed, published, composed, inputs.path(), key)
}

/// Lays what was composed on a tile on the cache of each of the groups of which it isn't published.
///
/// # Errors
/// `NoMemory`; it is laid of some of the groups, from the first on.
pub(crate) fn lay_groups(
    filmed: &mut FilmedCaches,
    published: &mut Newest<(u16, TileKey)>,
    composed: &Composed<'_>,
    path: &[u16],
    key: TileKey,
) -> Result<(), NoMemory>
    requires composed { list_all (λ g. has_pair composed.now g key) path.now ≡ true }
    requires world { IsWorldKey key }
    ensures all { OnOk result (Lays composed.now.readings (pairs_at path.now key)
        (laid_in filmed.old published.old) (laid_in filmed.new published.new)) }
    ensures front { LaysFront composed.now.readings (pairs_at path.now key)
        (laid_in filmed.old published.old) (laid_in filmed.new published.new) }
    ensures some { OnErr result (LaysSome composed.now.readings (pairs_at path.now key)
        (laid_in filmed.old published.old) (laid_in filmed.new published.new)) }
    ensures frames { filmed.new.frames ≡ filmed.old.frames }
{
    for group in path {
        lay_group(filmed, published, composed, *group, key)?;
    }
    Ok(())
}

/// Lays what was composed on a tile on the cache of one of the groups, if it isn't published of that.
fn lay_group(
    filmed: &mut FilmedCaches,
    published: &mut Newest<(u16, TileKey)>,
    composed: &Composed<'_>,
    group: u16,
    key: TileKey,
) -> Result<(), NoMemory>
    requires pair { has_pair composed.now group key ≡ true }
    requires world { IsWorldKey key }
    ensures ok { OnOk result (Lays composed.now.readings ((group, key) ∷ [])
        (laid_in filmed.old published.old) (laid_in filmed.new published.new)) }
    ensures err { OnErr result
        (laid_in filmed.new published.new ≡ laid_in filmed.old published.old) }
    ensures fresh { OnErr result (list_any (same_pair group key) published.old ≡ false) }
    ensures frames { filmed.new.frames ≡ filmed.old.frames }
{
    if was_published(published, group, key) {
        return Ok(());
    }
    lay_composed(filmed, published, composed, group, key)
}
