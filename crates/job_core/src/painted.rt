//! What a job leaves in one tile.

ghost use Rattle.std.specs.Prelude.{◌≡◌, true, IfOk, slice_get, length, ◌<◌, ◌≤◌, Some, vec_len};
ghost use Rattle.std.specs.List.{list_any, list_all};
ghost use Rattle.geom_core.specs.Grid.{same_key, all_keys_of};
ghost use Rattle.geom_core.specs.Areas.{lies_in};
ghost use Rattle.doc_model.specs.Jobs.{reads, writes, checks};
ghost use Rattle.doc_model.specs.Lawful.{within_limits};
ghost use Rattle.job_core.specs.Paints.{Leaves, pieces_of, made_of, is_whole, IsPainted, FillsTile};
ghost use Rattle.job_core.specs.Due.{IsDue};

use crate::blocks::{Blocks, alone};
use crate::blurs::blurred;
use crate::dabs::dabbed;
use crate::fills::filled;
use crate::made::Made;
use crate::moves::moved;
use crate::part::written;
use crate::task::{Task, task_of};
use crate::tracks::tracked;
use doc_model::Job;
use geom_core::{NoMemory, Rect, TileKey};
use pixel_core::Pixel;
use std::alloc::Global;
use std::marker::Model;
use tile_core::{Block, Shot};

/// The blocks that a job leaves in one tile. They cover the points of the job's writes in the tile,
/// and no others, and hold what the job makes of the shot.
#[derive(Drop)]
pub struct Painted<'a> {
    job: &'a Job,
    shot: &'a Shot,
    made: Made,
}

impl<'a> Model for Painted<'a> {
    ghost use Rattle.job_core.specs.Paints.{Paint, paint, paint_code, IsPainted};

    ghost Value = { Paint };

    ghost coded = { paint_code };

    ghost view = { λ p. paint p.job.now p.shot.now p.made.key p.made.blocks };

    ghost invariant = { λ p. IsPainted (paint p.job.now p.shot.now p.made.key p.made.blocks) };
}

impl<'a> Painted<'a> {
    /// The job.
    pub fn job(&self) -> &Job
        ensures { result.now ≡ self.now.job }
    {
        self.job
    }

    /// The shot that it was painted on.
    pub fn shot(&self) -> &Shot
        ensures { result.now ≡ self.now.shot }
    {
        self.shot
    }

    /// The key of the tile.
    pub fn key(&self) -> TileKey
        ensures value { result ≡ self.now.key }
        ensures known { IsPainted self.now }
    {
        self.made.key()
    }

    /// How many blocks there are: one or two.
    pub fn block_count(&self) -> usize
        ensures value { result ≡ length self.now.blocks }
        ensures some { 1 ≤ result }
        ensures few { result ≤ 2 }
    {
        self.made.block_count()
    }

    /// The block with that index, which counts from 0.
    pub fn block(&self, i: usize) -> &Block
        requires { i < length self.now.blocks }
        ensures { Some result.now ≡ slice_get self.now.blocks i }
    {
        self.made.block(i)
    }

    /// The blocks on their own.
    pub fn made(&self) -> &Made
        ensures value { result.now ≡ made_of self.now }
        ensures known { IsPainted self.now }
    {
        &self.made
    }

    /// Whether it is one block that has all points of the tile.
    pub fn is_whole(&self) -> bool
        ensures { result ≡ is_whole self.now.blocks }
    {
        self.made.is_whole()
    }

    /// The pixels of one block that has all points of the tile. They are not copied.
    pub fn into_whole(self) -> Vec<Pixel>
        requires { is_whole self.blocks ≡ true }
        ensures all { vec_len result ≡ 4096 }
        ensures value { FillsTile self.entry result.items }
    {
        let Painted { made, .. } = self;
        made.into_first().into_pixels()
    }
}

/// What the job leaves in the key's tile.
pub fn paint_tile<'a>(
    alloc: Global,
    job: &'a Job,
    shot: &'a Shot,
    key: TileKey,
) -> Result<Painted<'a>, NoMemory>
    // The shot has what the job reads, and the job writes in the tile.
    requires checked { checks job.now ≡ true }
    requires limits { within_limits job.now ≡ true }
    requires seen { list_all (λ a. list_any (lies_in a) shot.now.rects) (reads job.now) ≡ true }
    requires met { list_any (same_key key) (all_keys_of (writes job.now)) ≡ true }

    // What it leaves is known by these three.
    ensures job { IfOk result (λ w. w.job ≡ job.now) }
    ensures shot { IfOk result (λ w. w.shot ≡ shot.now) }
    ensures key { IfOk result (λ w. w.key ≡ key) }
{
    let Blocks { first, second } = blocks_of(alloc, job, shot, key)?;
    let made = Made { key, first, second };
    Ok(Painted { job, shot, made })
}

/// The blocks that the job leaves in the key's tile.
fn blocks_of(alloc: Global, job: &Job, shot: &Shot, key: TileKey) -> Result<Blocks, NoMemory>
    requires { IsDue job.now shot.now key }
    ensures { IfOk result (λ bs. Leaves job.now shot.now key (pieces_of bs)) }
{
    match task_of(job) {
        Task::Fill { rect, ink } => Ok(alone(filled(alloc, shot, key, &rect, &ink)?)),
        Task::Dab { brush, ink } => Ok(alone(dabbed(alloc, shot, key, &brush, &ink)?)),
        Task::Move { rect, dx, dy } => moved(alloc, shot, key, &rect, &written(job, 1), dx, dy),
        Task::Blur { rect, r } => Ok(alone(blurred(alloc, shot, key, &rect, r)?)),
        Task::Track { track, cell } => Ok(alone(tracked(alloc, shot, key, &track, cell)?)),
    }
}
