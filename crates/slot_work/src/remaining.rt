//! What is left of the work in a slot.

ghost use Rattle.std.specs.Prelude.{◌≡◌, true, false, IfSome, is_none};
ghost use Rattle.std.specs.List.{list_any, list_all};
ghost use Rattle.geom_core.specs.Grid.{same_key, keys_of, all_keys_of};
ghost use Rattle.geom_core.specs.Keys.{IsWorldKey};
ghost use Rattle.doc_model.specs.Jobs.{checks, writes};
ghost use Rattle.machine_model.specs.Groups.{on};
ghost use Rattle.machine_model.specs.Guards.{same_pair};
ghost use Rattle.walker_core.specs.Readings.{path_in};

use desk_state::{Painter, Walker, has_key, has_pair};
use geom_core::{Rect, TileKey};

/// A tile of the job that isn't published. None exactly where all are.
pub fn next_tile(painter: &Painter) -> Option<TileKey>
    requires { checks painter.now.job ≡ true }
    ensures some { IfSome result (λ key.
        (list_any (same_key key) (all_keys_of (writes painter.now.job)) ≡ true)
        × (list_any (same_key key) painter.now.published ≡ false)) }
    ensures none { is_none result ≡ list_all (λ k. list_any (same_key k) painter.now.published)
        (all_keys_of (writes painter.now.job)) }
{
    let writes = painter.job.writes();
    for rect in writes.as_slice() {
        match next_in(painter, rect) {
            Some(key) => return Some(key),
            None => {}
        }
    }
    None
}

/// A tile of one of the job's rectangles that isn't published. None exactly where all are.
fn next_in(painter: &Painter, rect: &Rect) -> Option<TileKey>
    ensures some { IfSome result (λ key. (list_any (same_key key) (keys_of rect.now) ≡ true)
        × (list_any (same_key key) painter.now.published ≡ false)) }
    ensures none { is_none result ≡ list_all (λ k. list_any (same_key k) painter.now.published)
        (keys_of rect.now) }
{
    for i in 0..rect.tile_count() {
        let key = rect.tile_at(i);
        if !has_key(&painter.published, key) {
            return Some(key);
        }
    }
    None
}

/// A group and a tile of the walk that aren't published. None exactly where all are.
pub fn next_pair(walker: &Walker) -> Option<(u16, TileKey)>
    ensures group { IfSome result (λ pair. on pair.0 (path_in walker.now.inputs) ≡ true) }
    ensures tile { IfSome result (λ pair. list_any (same_key pair.1)
        (keys_of walker.now.inputs.patch.rect) ≡ true) }
    ensures world { IfSome result (λ pair. IsWorldKey pair.1) }
    ensures fresh { IfSome result (λ pair. list_any (same_pair pair.0 pair.1) walker.now.published
        ≡ false) }
    ensures none { is_none result ≡ list_all (λ key. list_all (λ g. list_any (same_pair g key)
        walker.now.published) (path_in walker.now.inputs)) (keys_of walker.now.inputs.patch.rect) }
{
    let rect = walker.inputs.patch().rect;
    for i in 0..rect.tile_count() {
        let key = rect.tile_at(i);
        match next_group(walker, key) {
            Some(group) => return Some((group, key)),
            None => {}
        }
    }
    None
}

/// A group of which that tile isn't published. None exactly where there is none.
fn next_group(walker: &Walker, key: TileKey) -> Option<u16>
    ensures some { IfSome result (λ group. (on group (path_in walker.now.inputs) ≡ true)
        × (list_any (same_pair group key) walker.now.published ≡ false)) }
    ensures none { is_none result ≡ list_all (λ g. list_any (same_pair g key) walker.now.published)
        (path_in walker.now.inputs) }
{
    for group in walker.inputs.path() {
        if !has_pair(&walker.published, *group, key) {
            return Some(*group);
        }
    }
    None
}
