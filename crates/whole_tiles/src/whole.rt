//! A tile of a job, made whole.

ghost use Rattle.std.specs.Prelude.{◌≡◌, [], true, IfOk};
ghost use Rattle.std.specs.List.{list_any, list_all};
ghost use Rattle.geom_core.specs.Areas.{lies_in};
ghost use Rattle.geom_core.specs.Grid.{same_key, all_keys_of};
ghost use Rattle.doc_model.specs.Jobs.{checks, reads, writes};
ghost use Rattle.doc_model.specs.Lawful.{within_limits};
ghost use Rattle.job_core.specs.Paints.{paint};
ghost use Rattle.whole_tiles.specs.Wholes.{IsEntire, IsOf, SharesOwn};

use crate::needs::needs_of;
use crate::pixels::new_tile;
use doc_model::Job;
use geom_core::{NoMemory, Rect, TileKey};
use std::alloc::Global;
use std::marker::Model;
use tile_core::{PlainTile, Shot, Tile};

/// A tile with what a job leaves there, made whole from the job's shot. It keeps the job and the shot
/// that it was made from, shared, so that it can be told whether it is of another job or of other
/// pixels. It borrows nothing: the shot may be let go, and threads may hand it on.
#[derive(Drop)]
pub struct Whole {
    job: Job,
    key: TileKey,
    needs: Rect,
    base: Shot,
    tile: Tile,
}

impl Model for Whole {
    ghost use Rattle.whole_tiles.specs.Wholes.{Entire, IsEntire, entire, entire_code};

    ghost Value = { Entire };

    ghost coded = { entire_code };

    ghost view = { λ w. entire w.job w.key w.needs w.base w.tile };

    ghost invariant = { λ w. IsEntire (entire w.job w.key w.needs w.base w.tile) };
}

impl Whole {
    /// The job.
    pub fn job(&self) -> &Job
        ensures value { result.now ≡ self.now.job }
        ensures known { IsEntire self.now }
    {
        &self.job
    }

    /// The key of the tile.
    pub fn key(&self) -> TileKey
        ensures value { result ≡ self.now.key }
        ensures known { IsEntire self.now }
    {
        self.key
    }

    /// The rectangle on whose pixels, and the default pixel, it hangs what the job leaves in the tile.
    pub fn needs(&self) -> Rect
        ensures { result ≡ self.now.needs }
    {
        self.needs
    }

    /// The shot that it was made from.
    pub fn base(&self) -> &Shot
        ensures { result.now ≡ self.now.base }
    {
        &self.base
    }

    /// The new tile.
    pub fn tile(&self) -> &Tile
        ensures { result.now ≡ self.now.tile }
    {
        &self.tile
    }
}

/// The key's tile with what the job leaves there. A fill or a dab is painted on a copy of the shot's
/// tile. Where a fill leaves one pixel all over the tile, nothing is copied: where `like` has that
/// pixel, its tile is shared, and none is made; where it has another, or none, the tile that is made
/// stays in it.
pub fn whole_tile_like(
    alloc: Global,
    job: &Job,
    shot: &Shot,
    key: TileKey,
    like: &mut Option<PlainTile>,
) -> Result<Whole, NoMemory>
    // The shot has what the job reads, and the job writes in the tile.
    requires checked { checks job.now ≡ true }
    requires limits { within_limits job.now ≡ true }
    requires seen { list_all (λ a. list_any (lies_in a) shot.now.rects) (reads job.now) ≡ true }
    requires met { list_any (same_key key) (all_keys_of (writes job.now)) ≡ true }

    // The tile is of this job and key, and of a base with the shot's pixels.
    ensures of { IfOk result (IsOf (paint job.now shot.now key [])) }
    ensures key { IfOk result (λ x. x.key ≡ key) }
    ensures own { IfOk result (SharesOwn shot.now) }
{
    let needs = needs_of(job, key);
    let base = shot.share()?;
    let tile = new_tile(alloc, job, shot, key, like)?;
    Ok(Whole {
        job: *job,
        key,
        needs,
        base,
        tile,
    })
}
