//! Walks at work: what is taken of them, and when they have composed all.

ghost use Rattle.std.specs.Prelude.{◌≡◌, OnOk, OnErr, true, false, ◌∷◌};
ghost use Rattle.std.specs.List.{list_any, list_all};
ghost use Rattle.geom_core.specs.Grid.{same_key, keys_of};
ghost use Rattle.geom_core.specs.Keys.{IsWorldKey};
ghost use Rattle.machine_model.specs.Guards.{same_pair};
ghost use Rattle.machine_model.specs.Walks.{walk_value};
ghost use Rattle.walker_core.specs.Readings.{path_in};
ghost use Rattle.walker_core.specs.Composing.{has_pair};
ghost use Rattle.group_caches.specs.Kept.{with_picture};
ghost use Rattle.desk_state.specs.Painted.{TakesComposed};

use crate::remaining::next_pair;
use desk_state::{Newest, Walker, has_pair as was_published};
use filmed_caches::FilmedCaches;
use geom_core::{NoMemory, Rect, TileKey};
use walker_core::Composed;

/// Whether the walk takes what was composed of a group on a tile: it is a pair of the walk, still to be
/// published, and was composed of the same as the walk reads there. No memory.
pub fn takes_composed(walker: &Walker, composed: &Composed<'_>, group: u16, key: TileKey) -> bool
    ensures some { result ≡ true → TakesComposed walker.now composed.now group key }
    ensures none { result ≡ false → TakesComposed walker.now composed.now group key → ⊥ }
{
    let rect = walker.inputs.patch().rect;
    composed.given(group, key).is_some()
        && is_tile_of(&rect, key)
        && !was_published(&walker.published, group, key)
        && walker.inputs.same_in(composed.inputs(), key)
}

/// Lays what was composed of a group on a tile on the group's cache, and notes the pair.
///
/// # Errors
/// `NoMemory`; the caches and what was noted are as they were.
pub fn lay_composed(
    filmed: &mut FilmedCaches,
    published: &mut Newest<(u16, TileKey)>,
    composed: &Composed<'_>,
    group: u16,
    key: TileKey,
) -> Result<(), NoMemory>
    requires pair { has_pair composed.now group key ≡ true }
    requires world { IsWorldKey key }

    // The group's cache has the walk's picture on the tile.
    ensures caches { OnOk result (filmed.new.caches ≡ with_picture filmed.old.caches group
        composed.now.readings.patch.rect key (walk_value composed.now.readings.groups group)) }
    ensures noted { OnOk result (published.new ≡ (group, key) ∷ published.old) }

    // Without memory nothing has changed, and no frame is taken anyhow.
    ensures same_caches { OnErr result (filmed.new.caches ≡ filmed.old.caches) }
    ensures same_noted { OnErr result (published.new ≡ published.old) }
    ensures frames { filmed.new.frames ≡ filmed.old.frames }
{
    let Some(given) = composed.given(group, key) else {
        unreachable!()
    };
    published.note((group, key))?;
    match filmed.put(group, &composed.inputs().patch().rect, key, given) {
        Ok(()) => Ok(()),
        Err(e) => {
            published.take_back();
            Err(e)
        }
    }
}

/// Whether the rectangle has points in the tile.
pub fn is_tile_of(rect: &Rect, key: TileKey) -> bool
    ensures value { result ≡ list_any (same_key key) (keys_of rect.now) }
    ensures world { result ≡ true → IsWorldKey key }
{
    for i in 0..rect.tile_count() {
        if key == rect.tile_at(i) {
            return true;
        }
    }
    false
}

/// Whether a walk has published all its pairs.
pub fn is_composed(walker: &Walker) -> bool
    ensures { result ≡ list_all (λ key. list_all (λ g. list_any (same_pair g key)
        walker.now.published) (path_in walker.now.inputs)) (keys_of walker.now.inputs.patch.rect) }
{
    next_pair(walker).is_none()
}
