//! A job that is painted tile by tile, by any number of threads.

ghost use Rattle.std.specs.Prelude.{◌≡◌, ◌<◌, [], ◌∷◌, true, Some, length, slice_get, IfOk, OnOk};
ghost use Rattle.std.specs.List.{list_any};
ghost use Rattle.geom_core.specs.Areas.{meets};
ghost use Rattle.geom_core.specs.Grid.{keys_of, tile};
ghost use Rattle.geom_core.specs.Keys.{IsWorldKey};
ghost use Rattle.doc_model.specs.Jobs.{checks, reads};
ghost use Rattle.doc_model.specs.Lawful.{within_limits};
ghost use Rattle.job_core.specs.Paints.{paint};
ghost use Rattle.whole_tiles.specs.Plans.{AddsApart, IsPlan, plan, tiles_of as tiles_of_job};
ghost use Rattle.whole_tiles.specs.Wholes.{IsOf, SharesOwn};

use crate::whole::{Whole, whole_tile_like};
use doc_model::Job;
use geom_core::{NoMemory, Rect, TileKey};
use std::alloc::Global;
use std::marker::Model;
use tile_core::{PlainTile, Shot};

/// A job with the pixels that it reads, and the tiles that it writes, each once. It keeps all that
/// painting a tile asks for, so any thread may paint any of the tiles.
#[derive(Drop)]
pub struct Painting {
    job: Job,
    shot: Shot,
    keys: Vec<TileKey>,
}

impl Model for Painting {
    ghost use Rattle.whole_tiles.specs.Plans.{Plan, IsPlanned, plan, plan_code};

    ghost Value = { Plan };

    ghost coded = { plan_code };

    ghost view = { λ p. plan p.job p.shot };

    ghost invariant = { λ p. IsPlanned (plan p.job p.shot) p.keys.items };
}

impl Painting {
    /// The painting of a job from a shot that was taken on what it reads.
    pub fn new(alloc: Global, job: Job, shot: Shot) -> Result<Painting, NoMemory>
        requires checked { checks job ≡ true }
        requires limits { within_limits job ≡ true }
        requires kept { shot.rects ≡ reads job }
        ensures { IfOk result (λ p. p ≡ plan job shot) }
    {
        let keys = tiles_of(alloc, &job)?;
        Ok(Painting { job, shot, keys })
    }

    /// The job.
    pub fn job(&self) -> &Job
        ensures value { result.now ≡ self.now.job }
        ensures known { IsPlan self.now }
    {
        &self.job
    }

    /// How many tiles the job writes.
    pub fn tile_count(&self) -> usize
        ensures { result ≡ length (tiles_of_job self.now.job) }
    {
        self.keys.len()
    }

    /// The key of the tile with that index, from 0.
    pub fn key(&self, i: usize) -> TileKey
        requires { i < length (tiles_of_job self.now.job) }
        ensures { slice_get (tiles_of_job self.now.job) i ≡ Some result }
    {
        self.keys[i]
    }

    /// The tile with that index, painted whole. Where a fill leaves one pixel all over it, and `like`
    /// has that pixel, its tile is shared, and none is made. Where `like` has another, or none, the
    /// tile that is made stays in it.
    pub fn paint_like(
        &self,
        alloc: Global,
        i: usize,
        like: &mut Option<PlainTile>,
    ) -> Result<Whole, NoMemory>
        requires { i < length (tiles_of_job self.now.job) }
        ensures of { IfOk result (λ x. IsOf (paint self.now.job self.now.shot x.key []) x) }
        ensures key { IfOk result (λ x. slice_get (tiles_of_job self.now.job) i ≡ Some x.key) }
        ensures own { IfOk result (SharesOwn self.now.shot) }
    {
        whole_tile_like(alloc, &self.job, &self.shot, self.key(i), like)
    }
}

/// The tiles that a job writes, each once.
fn tiles_of(alloc: Global, job: &Job) -> Result<Vec<TileKey>, NoMemory>
    requires { checks job.now ≡ true }
    ensures { IfOk result (λ v. v.items ≡ tiles_of_job job.now) }
{
    let writes = job.writes();
    let rects = writes.as_slice();
    let mut keys = Vec::new(alloc);
    for n in 0..rects.len() {
        add_tiles(&mut keys, &rects[..n], &rects[n])?;
    }
    Ok(keys)
}

/// Adds the tiles of a rectangle that none of those before it meets.
fn add_tiles(keys: &mut Vec<TileKey>, before: &[Rect], rect: &Rect) -> Result<(), NoMemory>
    ensures { OnOk result (AddsApart before.now (keys_of rect.now) keys.old.items keys.new.items) }
{
    for i in 0..rect.tile_count() {
        add_tile(keys, before, rect.tile_at(i))?;
    }
    Ok(())
}

/// Adds the tile, where none of the rectangles meets it.
fn add_tile(keys: &mut Vec<TileKey>, before: &[Rect], key: TileKey) -> Result<(), NoMemory>
    requires { IsWorldKey key }
    ensures { OnOk result (AddsApart before.now (key ∷ []) keys.old.items keys.new.items) }
{
    if !some_meets(before, key) {
        keys.push(key)?;
    }
    Ok(())
}

/// Whether one of the rectangles meets the tile.
fn some_meets(rects: &[Rect], key: TileKey) -> bool
    requires { IsWorldKey key }
    ensures { result ≡ list_any (λ r. meets r (tile key)) rects.now }
{
    let tile = key.rect();
    rects.iter().any(|rect| rect.meets(&tile))
}
