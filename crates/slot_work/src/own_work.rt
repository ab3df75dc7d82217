//! The work in a slot is done here, as a thread would do it that took its ticket.

ghost use Rattle.std.specs.Prelude.{◌≡◌, true, is_some, OnOk, OnErr, [], ◌∷◌};
ghost use Rattle.std.specs.List.{list_any};
ghost use Rattle.geom_core.specs.Grid.{same_key, all_keys_of};
ghost use Rattle.geom_core.specs.Keys.{IsWorldKey};
ghost use Rattle.doc_model.specs.Jobs.{checks, reads, writes};
ghost use Rattle.doc_model.specs.Lawful.{within_limits};
ghost use Rattle.job_core.specs.Paints.{paint};
ghost use Rattle.desk_steps.specs.Archives.{with_put};
ghost use Rattle.walker_core.specs.Readings.{path_in};
ghost use Rattle.slot_work.specs.LaidTiles.{Lays, LaysFront, laid_in, pairs_at};

use crate::painting::lay;
use crate::rows::lay_groups;
use desk_state::{Painter, Walker};
use desk_steps::Store;
use filmed_caches::FilmedCaches;
use geom_core::{NoMemory, TileKey};
use job_core::paint_tile;
use std::alloc::Global;
use walker_core::compose_key;

/// Paints a tile of a job from what the job was started with, and lays it on the layer of the stroke
/// under way.
///
/// # Errors
/// `NoMemory`; all is as it was.
pub fn paint_own(
    alloc: Global,
    store: &mut Store,
    painter: &mut Painter,
    key: TileKey,
) -> Result<(), NoMemory>
    requires begun { is_some store.old.way ≡ true }
    requires checked { checks painter.old.job ≡ true }
    requires limits { within_limits painter.old.job ≡ true }
    requires seen { painter.old.shot.rects ≡ reads painter.old.job }
    requires met { list_any (same_key key) (all_keys_of (writes painter.old.job)) ≡ true }

    // The tile is on the layer, and its key is noted.
    ensures store { OnOk result (store.new ≡ with_put store.old.way
        (paint painter.old.job painter.old.shot key []) store.old) }
    ensures noted { OnOk result (painter.new
        ≡ record painter.old { published = key ∷ painter.old.published }) }

    // Without memory nothing has changed.
    ensures same_store { OnErr result (store.new ≡ store.old) }
    ensures same_painter { OnErr result (painter.new ≡ painter.old) }
{
    let painted = paint_tile(alloc, &painter.job, &painter.shot, key)?;
    lay(alloc, store, &mut painter.published, &painted)
}

/// Composes a tile of a walk from what the walk reads, and lays it on the cache of each of its groups of
/// which it isn't published.
///
/// # Errors
/// `NoMemory`; it is laid of some of the groups.
pub fn compose_own(
    alloc: Global,
    filmed: &mut FilmedCaches,
    walker: &mut Walker,
    key: TileKey,
) -> Result<(), NoMemory>
    requires { IsWorldKey key }
    ensures all { OnOk result (Lays walker.old.inputs (pairs_at (path_in walker.old.inputs) key)
        (laid_in filmed.old walker.old.published) (laid_in filmed.new walker.new.published)) }
    ensures front { LaysFront walker.old.inputs (pairs_at (path_in walker.old.inputs) key)
        (laid_in filmed.old walker.old.published) (laid_in filmed.new walker.new.published) }
    ensures frames { filmed.new.frames ≡ filmed.old.frames }
    ensures inputs { walker.new.inputs ≡ walker.old.inputs }
    ensures serial { walker.new.serial ≡ walker.old.serial }
{
    let composed = compose_key(alloc, &walker.inputs, key)?;
    let path = walker.inputs.path();
    lay_groups(filmed, &mut walker.published, &composed, path, key)
}
