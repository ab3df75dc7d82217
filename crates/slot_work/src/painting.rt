//! What was painted comes to the desk.

ghost use Rattle.std.specs.Prelude.{◌≡◌, ◌↔◌, true, false, IsTrue, is_some, OnOk, OnErr, ◌∷◌};
ghost use Rattle.std.specs.List.{list_any, list_all};
ghost use Rattle.geom_core.specs.Areas.{lies_in, meets};
ghost use Rattle.geom_core.specs.Grid.{same_key, all_keys_of, tile};
ghost use Rattle.geom_core.specs.Keys.{IsWorldKey};
ghost use Rattle.doc_model.specs.Lawful.{within_limits};
ghost use Rattle.doc_model.specs.Jobs.{checks, reads, writes};
ghost use Rattle.doc_model.specs.Laws.{SameOn};
ghost use Rattle.job_core.specs.Paints.{layer_of};
ghost use Rattle.desk_steps.specs.Archives.{with_put};
ghost use Rattle.desk_state.specs.Painted.{TakesPainted};

use desk_state::{Newest, Painter, has_key};
use desk_steps::Store;
use doc_model::Job;
use geom_core::{NoMemory, Rect, TileKey};
use job_core::Painted;
use std::alloc::Global;
use tile_core::Shot;

/// Whether what was painted is a tile of the job, still to be published, made from a shot of what the
/// job reads that shows there the same as the one that the job was started with. No memory.
pub fn takes_painted(painter: &Painter, painted: &Painted<'_>) -> bool
    requires checked { checks painter.now.job ≡ true }
    requires limits { within_limits painter.now.job ≡ true }
    requires kept { painter.now.shot.rects ≡ reads painter.now.job }
    ensures some { result ≡ true → TakesPainted painter.now painted.now }
    ensures none { result ≡ false → TakesPainted painter.now painted.now → ⊥ }
{
    let key = painted.key();
    painted.job().same_as(&painter.job)
        && writes_in(&painter.job, key)
        && !has_key(&painter.published, key)
        && reads_same(&painter.job, painted.shot(), &painter.shot)
}

/// Whether the shot covers what the job reads, and shows there the same as the one that was kept.
fn reads_same(job: &Job, shot: &Shot, kept: &Shot) -> bool
    requires checked { checks job.now ≡ true }
    requires kept { kept.now.rects ≡ reads job.now }
    ensures { IsTrue result ↔ ((list_all (λ a. list_any (lies_in a) shot.now.rects) (reads job.now)
        ≡ true) × SameOn (reads job.now) (layer_of shot.now) (layer_of kept.now)) }
{
    let reads = job.reads();
    covers_all(shot, reads.as_slice()) && shot.same_on(kept, reads.as_slice())
}

/// Whether each of the rectangles lies in one of the shot's.
fn covers_all(shot: &Shot, rects: &[Rect]) -> bool
    ensures { result ≡ list_all (λ a. list_any (lies_in a) shot.now.rects) rects.now }
{
    rects.iter().all(|rect| shot.covers(rect))
}

/// Whether the job writes in the tile.
pub fn writes_in(job: &Job, key: TileKey) -> bool
    requires checked { checks job.now ≡ true }
    requires limits { within_limits job.now ≡ true }
    requires world { IsWorldKey key }
    ensures { result ≡ list_any (same_key key) (all_keys_of (writes job.now)) }
{
    meets_writes(job, key)
}

/// Whether a rectangle that the job may change meets the tile.
pub fn meets_writes(job: &Job, key: TileKey) -> bool
    requires checked { checks job.now ≡ true }
    requires world { IsWorldKey key }
    ensures { result ≡ list_any (λ r. meets r (tile key)) (writes job.now) }
{
    let writes = job.writes();
    some_meets(writes.as_slice(), key)
}

/// Whether one of the rectangles meets the tile.
fn some_meets(rects: &[Rect], key: TileKey) -> bool
    requires { IsWorldKey key }
    ensures { result ≡ list_any (λ r. meets r (tile key)) rects.now }
{
    let tile = key.rect();
    rects.iter().any(|rect| rect.meets(&tile))
}

/// Lays what was painted on the layer of the stroke under way, and notes its key.
pub fn lay(
    alloc: Global,
    store: &mut Store,
    published: &mut Newest<TileKey>,
    painted: &Painted<'_>,
) -> Result<(), NoMemory>
    requires { is_some store.old.way ≡ true }
    ensures store { OnOk result (store.new ≡ with_put store.old.way painted.now store.old) }
    ensures keys { OnOk result (published.new ≡ painted.now.key ∷ published.old) }
    ensures same_store { OnErr result (store.new ≡ store.old) }
    ensures same_keys { OnErr result (published.new ≡ published.old) }
{
    published.note(painted.key())?;
    match store.put(alloc, painted) {
        Ok(()) => Ok(()),
        Err(e) => {
            published.take_back();
            Err(e)
        }
    }
}
