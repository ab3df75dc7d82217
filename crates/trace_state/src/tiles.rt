//! Tiles of rectangles.

ghost use Rattle.std.specs.Prelude.{◌≡◌, true, All};
ghost use Rattle.std.specs.List.{list_any, list_all};
ghost use Rattle.geom_core.specs.Grid.{same_key, keys_of, all_keys_of};
ghost use Rattle.geom_core.specs.Keys.{IsWorldKey};
ghost use Rattle.doc_model.specs.Jobs.{checks, writes};
ghost use Rattle.trace_state.specs.Tiles.{has_all, rounded, round};

use doc_model::{Job, Kind};
use geom_core::{Rect, TileKey};
use memento_core::KeySet;

/// Whether the tile is one that the rectangle meets.
pub fn is_tile_of(rect: &Rect, key: TileKey) -> bool
    requires { IsWorldKey key }
    ensures { result ≡ list_any (same_key key) (keys_of rect.now) }
{
    // A rectangle has points, as its sides tell.
    let _columns = rect.w();
    let _rows = rect.h();
    rect.meets(&key.rect())
}

/// Whether some of the rectangles meets the tile.
fn some_has(rects: &[Rect], key: TileKey) -> bool
    requires { IsWorldKey key }
    ensures { result ≡ list_any (λ r. list_any (same_key key) (keys_of r)) rects.now }
{
    rects.iter().any(|rect| is_tile_of(rect, key))
}

/// Whether the tile is one that some of the rectangles meet.
pub fn is_tile_of_some(rects: &[Rect], key: TileKey) -> bool
    requires { IsWorldKey key }
    ensures { result ≡ list_any (same_key key) (all_keys_of rects.now) }
{
    some_has(rects, key)
}

/// Whether all tiles of the rectangle are in the set.
pub fn has_all(keys: &KeySet, rect: &Rect) -> bool
    ensures { result ≡ has_all keys.now (keys_of rect.now) }
{
    for i in 0..rect.tile_count() {
        if !keys.has(rect.tile_at(i)) {
            return false;
        }
    }
    true
}

/// Whether of each rectangle all tiles are in the set.
fn each_has(keys: &KeySet, rects: &[Rect]) -> bool
    ensures { result ≡ list_all (λ r. has_all keys.now (keys_of r)) rects.now }
{
    rects.iter().all(|rect| has_all(keys, rect))
}

/// Whether all tiles of the rectangles are in the set.
pub fn has_all_of(keys: &KeySet, rects: &[Rect]) -> bool
    ensures { result ≡ has_all keys.now (all_keys_of rects.now) }
{
    each_has(keys, rects)
}

/// The least rectangle round one that may be there and all tiles of a rectangle.
fn round_tiles(bound: Option<Rect>, rect: &Rect) -> Option<Rect>
    ensures { result ≡ rounded (keys_of rect.now) bound }
{
    let mut round = bound;
    for i in 0..rect.tile_count() {
        round = Some(Rect::round(round, &rect.tile_at(i).rect()));
    }
    round
}

/// The least rectangle round one that may be there and all tiles of the rectangles.
fn round_all_tiles(bound: Option<Rect>, rects: &[Rect]) -> Option<Rect>
    ensures { result ≡ rounded (all_keys_of rects.now) bound }
{
    let mut round = bound;
    for rect in rects {
        round = round_tiles(round, rect);
    }
    round
}

/// The least rectangle round one that may be there and all tiles that the job may change.
fn round_writes(bound: Option<Rect>, job: &Job) -> Option<Rect>
    requires { checks job.now ≡ true }
    ensures { result ≡ rounded (all_keys_of (writes job.now)) bound }
{
    let writes = job.writes();
    round_all_tiles(bound, writes.as_slice())
}

/// The rectangle round the tiles that the jobs may change. It takes a step for each tile of each job.
pub fn round(jobs: &[(Kind, Job)]) -> Option<Rect>
    requires { All (λ job. checks job.1 ≡ true) jobs.now }
    ensures { result ≡ round jobs.now }
{
    let mut round = None;
    for job in jobs {
        round = round_writes(round, &job.1);
    }
    round
}
