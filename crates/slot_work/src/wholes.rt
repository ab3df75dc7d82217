//! Tiles of a job that were made whole come to the desk.

ghost use Rattle.std.specs.Prelude.{◌≡◌, ◌↔◌, All, IsTrue, true, false, is_some, Ok, OnOk, OnErr, [], ◌∷◌};
ghost use Rattle.std.specs.List.{list_all};
ghost use Rattle.std.specs.FinSet as set;
ghost use Rattle.geom_core.specs.Grid.{keys_of, all_keys_of};
ghost use Rattle.doc_model.specs.Lawful.{within_limits};
ghost use Rattle.doc_model.specs.Jobs.{checks, reads, writes};
ghost use Rattle.job_core.specs.Paints.{layer_of, paint};
ghost use Rattle.desk_steps.specs.Archives.{layer_now, with_put};
ghost use Rattle.desk_steps.specs.Tiles.{IsMadeFrom};
ghost use Rattle.desk_steps.specs.declared.exchanging.Base.TheVariants.{Known};
ghost use Rattle.slot_work.specs.Lacking.{IsOfJob, AreLacking, IsNext, is_seen, keys_of_tiles};

use crate::painting::writes_in;
use desk_state::{Painter, has_key};
use desk_steps::{Base, Store};
use geom_core::{NoMemory, Rect, TileKey};
use std::alloc::Global;
use std::collections::BTreeSet;
use whole_tiles::Whole;

/// Whether each of the tiles was made of the job, and from the pixels that it was started with. No memory.
pub fn are_of_job(painter: &Painter, tiles: &[Whole]) -> bool
    requires kept { painter.now.shot.rects ≡ reads painter.now.job }
    ensures some { result ≡ true
        → All (IsOfJob painter.now.job (layer_of painter.now.shot)) tiles.now }
    ensures none { result ≡ false
        → All (IsOfJob painter.now.job (layer_of painter.now.shot)) tiles.now → ⊥ }
{
    for whole in tiles {
        if !is_of_job(painter, whole) {
            return false;
        }
    }
    true
}

/// Whether tiles that were made of a job are just those that it has still to publish, each once. It
/// looks at no pixel.
///
/// # Errors
/// `NoMemory`, for the set of their keys.
pub fn are_lacking(alloc: Global, painter: &Painter, tiles: &[Whole]) -> Result<bool, NoMemory>
    requires checked { checks painter.now.job ≡ true }
    requires limits { within_limits painter.now.job ≡ true }
    requires of { All (IsOfJob painter.now.job (layer_of painter.now.shot)) tiles.now }
    ensures some { result ≡ Ok true
        → AreLacking painter.now.job (layer_of painter.now.shot) painter.now.published tiles.now }
    ensures none { result ≡ Ok false
        → AreLacking painter.now.job (layer_of painter.now.shot) painter.now.published tiles.now
        → ⊥ }
{
    if are_in_order(painter, tiles) {
        return Ok(true);
    }
    let mut keys = BTreeSet::new(alloc);
    for whole in tiles {
        if !is_next(painter, &keys, whole) {
            return Ok(false);
        }
        keys.insert(whole.key())?;
    }
    Ok(has_all(painter, &keys))
}

/// Whether nothing of the job is published, it writes one rectangle, and tiles that were made of it are
/// that rectangle's, in row order. No memory.
fn are_in_order(painter: &Painter, tiles: &[Whole]) -> bool
    requires checked { checks painter.now.job ≡ true }
    requires limits { within_limits painter.now.job ≡ true }
    requires of { All (IsOfJob painter.now.job (layer_of painter.now.shot)) tiles.now }
    ensures { result ≡ true
        → AreLacking painter.now.job (layer_of painter.now.shot) painter.now.published tiles.now }
{
    if !painter.published.as_slice().is_empty() {
        return false;
    }
    let writes = painter.job.writes();
    let rects = writes.as_slice();
    if rects.len() != 1 {
        return false;
    }
    are_all_of(&rects[0], tiles)
}

/// Whether the tiles are just those that the rectangle meets, in row order.
fn are_all_of(rect: &Rect, tiles: &[Whole]) -> bool
    ensures { IsTrue result ↔ (keys_of_tiles tiles.now ≡ keys_of rect.now) }
{
    if tiles.len() != rect.tile_count() as usize {
        return false;
    }
    for i in 0..rect.tile_count() {
        if tiles[i as usize].key() != rect.tile_at(i) {
            return false;
        }
    }
    true
}

/// Whether the job writes in the tile's place, which is neither published nor among the keys.
fn is_next(painter: &Painter, keys: &BTreeSet<TileKey>, whole: &Whole) -> bool
    requires checked { checks painter.now.job ≡ true }
    requires limits { within_limits painter.now.job ≡ true }
    ensures some { result ≡ true
        → IsNext painter.now.job painter.now.published (set.from_list keys.now.keys) whole.now.key }
    ensures none { result ≡ false
        → IsNext painter.now.job painter.now.published (set.from_list keys.now.keys) whole.now.key
        → ⊥ }
{
    let key = whole.key();
    writes_in(&painter.job, key) && !is_there(painter, keys, key)
}

/// Whether the tile was made of the job, and the job was started with the pixels that the tile was made
/// from. No memory.
fn is_of_job(painter: &Painter, whole: &Whole) -> bool
    requires kept { painter.now.shot.rects ≡ reads painter.now.job }
    ensures some { result ≡ true → IsOfJob painter.now.job (layer_of painter.now.shot) whole.now }
    ensures none { result ≡ false
        → IsOfJob painter.now.job (layer_of painter.now.shot) whole.now → ⊥ }
{
    let _key = whole.key();
    whole.job().same_as(&painter.job) && painter.shot.same_on(whole.base(), &[whole.needs()])
}

/// Whether each tile that the job writes is published or among the keys.
fn has_all(painter: &Painter, keys: &BTreeSet<TileKey>) -> bool
    requires { checks painter.now.job ≡ true }
    ensures { result ≡ list_all (is_seen painter.now.published (set.from_list keys.now.keys))
        (all_keys_of (writes painter.now.job)) }
{
    let writes = painter.job.writes();
    for rect in writes.as_slice() {
        if !has_all_in(painter, keys, rect) {
            return false;
        }
    }
    true
}

/// Whether each tile that the rectangle meets is published or among the keys.
fn has_all_in(painter: &Painter, keys: &BTreeSet<TileKey>, rect: &Rect) -> bool
    ensures { result ≡ list_all (is_seen painter.now.published (set.from_list keys.now.keys))
        (keys_of rect.now) }
{
    for i in 0..rect.tile_count() {
        if !is_there(painter, keys, rect.tile_at(i)) {
            return false;
        }
    }
    true
}

/// Whether the tile is published or among the keys.
fn is_there(painter: &Painter, keys: &BTreeSet<TileKey>, key: TileKey) -> bool
    ensures { result ≡ is_seen painter.now.published (set.from_list keys.now.keys) key }
{
    has_key(&painter.published, key) || keys.contains(&key)
}

/// A tile of the job, made whole, comes onto the layer of the stroke under way, and its key is noted.
///
/// # Errors
/// `NoMemory`; all is as it was.
pub fn exchange_whole(
    alloc: Global,
    store: &mut Store,
    painter: &mut Painter,
    whole: &Whole,
    base: Base,
) -> Result<(), NoMemory>
    requires begun { is_some store.old.way ≡ true }
    requires of { IsOfJob painter.old.job (layer_of painter.old.shot) whole.now }
    requires known { base ≡ Known → IsMadeFrom whole.now (layer_now store.old) }

    // The tile is on the layer, and its key is noted.
    ensures store { OnOk result (store.new ≡ with_put store.old.way
        (paint painter.old.job painter.old.shot whole.now.key []) store.old) }
    ensures noted { OnOk result (painter.new
        ≡ record painter.old { published = whole.now.key ∷ painter.old.published }) }

    // Without memory nothing has changed.
    ensures same_store { OnErr result (store.new ≡ store.old) }
    ensures same_painter { OnErr result (painter.new ≡ painter.old) }
{
    painter.published.note(whole.key())?;
    match store.put_whole(alloc, whole, base) {
        Ok(()) => Ok(()),
        Err(e) => {
            painter.published.take_back();
            Err(e)
        }
    }
}
