//! Point operations, laid straight on the pixels of a tile.

ghost use Rattle.std.specs.Prelude.{◌≡◌, ◌≤◌, ◌∷◌, ◌&&◌, [], true, false, All, length, ◌*◌, IfSome, IfNone, IsTrue, replicate, Some};
ghost use Rattle.std.specs.List.{take_while};
ghost use Rattle.geom_core.specs.Areas.{holds, lies_in, meets, Point};
ghost use Rattle.geom_core.specs.Grid.{tile};
ghost use Rattle.geom_core.specs.Keys.{IsWorldKey};
ghost use Rattle.doc_model.specs.Shots.{in_tile};
ghost use Rattle.doc_model.specs.Lawful.{within_limits};
ghost use Rattle.doc_model.specs.Jobs.{checks, writes};
ghost use Rattle.job_core.specs.Points.{is_point_op, is_within as is_within_of, spot, IsPointJob, IsPointWork, IsRun, LaysJob, LaysPoints};
ghost use Rattle.job_core.specs.Laid.{PlainAs};
ghost use Rattle.job_core.specs.Tasks.{fill_of, dab_of};

use crate::dabs::{Brush, lay_dab};
use crate::fills::lay_ink;
use crate::ink::Ink;
use crate::part::part_in;
use crate::task::{Task, task_of};
use crate::tracks::lay_track;
use doc_model::{Job, Kind, square_round};
use geom_core::{Rect, TILE_SIDE, TileKey, tile_of};
use pixel_core::Pixel;
use std::marker::Model;
use tile_core::{Lays, Tile, part_in_tile};

/// The rectangle that a point operation writes: a job that makes each pixel from that pixel alone, as
/// fills, dabs and tracks do. None exactly where the job is another.
pub fn point_rect(job: &Job) -> Option<Rect>
    requires { checks job.now ≡ true }
    ensures point_op { IfSome result (λ r. is_point_op job.now ≡ true) }
    ensures written { IfSome result (λ r. writes job.now ≡ r ∷ []) }
    ensures other { IfNone result (is_point_op job.now ≡ false) }
{
    match *job {
        Job::Fill { rect, .. } => Some(rect),
        Job::Dab { x, y, r, .. } => Some(square_round(x, y, r).unwrap()),
        Job::Track { cell, .. } => Some(cell.rect()),
        Job::Move { .. } | Job::Blur { .. } => None,
    }
}

/// The work of point operations in one tile of their writes, the first of them first.
#[derive(Drop)]
pub struct PointWork<'a> {
    jobs: &'a [(Kind, Job)],
    key: TileKey,
}

impl<'a> Model for PointWork<'a> {
    ghost use Rattle.job_core.specs.Points.{Spot, spot, spot_code, IsPointWork, LaysPoints};

    ghost Value = { Spot };

    ghost coded = { spot_code };

    ghost view = { λ w. spot w.jobs.now w.key };

    ghost invariant = { λ w. IsPointWork (spot w.jobs.now w.key) };
}

impl<'a> PointWork<'a> {
    /// The work of point operations in the tile of a key.
    pub fn new(jobs: &'a [(Kind, Job)], key: TileKey) -> PointWork<'a>
        requires world { IsWorldKey key }
        requires each { All (λ j. IsPointJob key j.1) jobs.now }
        ensures { result ≡ spot jobs.now key }
    {
        PointWork { jobs, key }
    }

    /// The work of as many of the jobs, from the first on, as are point operations that write within
    /// one tile alone. None where it finds none, as for a first job with several tiles.
    pub fn run(jobs: &'a [(Kind, Job)]) -> Option<PointWork<'a>>
        requires checked { All (λ j. checks j.1 ≡ true) jobs.now }
        requires limits { All (λ j. within_limits j.1 ≡ true) jobs.now }
        ensures { IfSome result (IsRun jobs.now) }
    {
        let (_, first) = jobs.first()?;
        let key = first_tile(&point_rect(first)?);
        let count = count_within(jobs, &key.rect());
        if count == 0 {
            return None;
        }
        Some(PointWork::new(&jobs[..count], key))
    }

    /// How many jobs there are.
    pub fn job_count(&self) -> usize
        ensures { result ≡ length self.now.jobs }
    {
        self.jobs.len()
    }

    /// The key of the tile.
    pub fn key(&self) -> TileKey
        ensures value { result ≡ self.now.key }
        ensures known { IsPointWork self.now }
    {
        self.key
    }

    /// The one pixel that one job leaves at all points of the tile, which has these pixels before it.
    /// None where it finds none, as for dabs, for fills that don't cover the tile and for several jobs.
    pub fn plain_on(&self, tile: &Tile) -> Option<Pixel>
        ensures { IfSome result (λ c. LaysPoints self.now tile.now (replicate 4096 c)) }
    {
        self.covering_ink()?.on_all(tile)
    }

    /// The one pixel that one job leaves at all points of the tile, where all have `ground` before it.
    /// None where it finds none, as for dabs, for fills that don't cover the tile and for several jobs.
    pub fn plain_on_ground(&self, ground: Pixel) -> Option<Pixel>
        ensures { IfSome result
            (λ c. LaysPoints self.now (replicate 4096 ground) (replicate 4096 c)) }
    {
        Some(self.covering_ink()?.on(ground))
    }

    /// The ink of one fill that covers the tile.
    fn covering_ink(&self) -> Option<Ink>
        ensures { IfSome result (PlainAs (LaysPoints self.now)) }
    {
        match self.jobs {
            [(_, job)] => covering(self.key, job),
            _ => None,
        }
    }
}

impl Lays for PointWork<'_> {
    ghost laid = { λ w old new. LaysPoints w old new };

    /// Lays the pixels of one job after another on those of its writes in the tile.
    fn lay(&self, tile: &mut [Pixel]) {
        for entry in self.jobs {
            lay_job(self.key, &entry.1, tile);
        }
    }
}

/// The tile of a rectangle's first point.
fn first_tile(rect: &Rect) -> TileKey
    ensures { IsWorldKey result }
{
    tile_of(rect.x(), rect.y())
}

/// How many of the jobs, from the first on, are point operations that write within a rectangle alone.
fn count_within(jobs: &[(Kind, Job)], bounds: &Rect) -> usize
    requires { All (λ j. checks j.1 ≡ true) jobs.now }
    ensures value { result ≡ length (take_while (λ j. is_within_of bounds.now j.1) jobs.now) }
    ensures few { result ≤ length jobs.now }
{
    for i in 0..jobs.len() {
        if !is_within(&jobs[i].1, bounds) {
            return i;
        }
    }
    jobs.len()
}

/// Whether the job is a point operation that writes within a rectangle alone.
fn is_within(job: &Job, bounds: &Rect) -> bool
    requires { checks job.now ≡ true }
    ensures { result ≡ is_within_of bounds.now job.now }
{
    match point_rect(job) {
        Some(rect) => rect.lies_in(bounds),
        None => false,
    }
}

/// The ink of a fill that covers the key's tile.
fn covering(key: TileKey, job: &Job) -> Option<Ink>
    requires key { IsWorldKey key }
    requires work { IsPointJob key job.now }
    ensures { IfSome result (PlainAs (LaysJob key job.now)) }
{
    match task_of(job) {
        Task::Fill { rect, ink } => covers(key, &rect).then_some(ink),
        _ => None,
    }
}

/// Lays a job on the key's tile.
fn lay_job(key: TileKey, job: &Job, tile: &mut [Pixel])
    requires key { IsWorldKey key }
    requires work { IsPointJob key job.now }
    requires whole { length tile.old ≡ 4096 }
    ensures { LaysJob key job.now tile.old tile.new }
{
    match task_of(job) {
        Task::Fill { rect, ink } => fill_in(key, &rect, &ink, tile),
        Task::Dab { brush, ink } => dab_in(key, &brush, &ink, tile),
        Task::Track { track, .. } => lay_track(key, &track, tile),
        Task::Move { .. } | Task::Blur { .. } => unreachable!(),
    }
}

/// Whether the rectangle has all points of the key's tile.
fn covers(key: TileKey, rect: &Rect) -> bool
    requires key { IsWorldKey key }
    requires met { meets rect.now (tile key) ≡ true }
    ensures { IsTrue result → (p : Point) → in_tile key p ≡ true → holds rect.now p ≡ true }
{
    let part = part_in(key, rect);
    part.w() == 64 && part.h() == 64
}

/// Lays a fill on the key's tile.
fn fill_in(key: TileKey, rect: &Rect, ink: &Ink, tile: &mut [Pixel])
    requires key { IsWorldKey key }
    requires work { IsPointJob key (fill_of rect.now ink.now) }
    requires whole { length tile.old ≡ 4096 }
    ensures { LaysJob key (fill_of rect.now ink.now) tile.old tile.new }
{
    let part = part_in(key, rect);
    lay_ink(tile, part_in_tile(&part), ink);
}

/// Lays a dab on the key's tile.
pub fn dab_in(key: TileKey, brush: &Brush, ink: &Ink, tile: &mut [Pixel])
    requires key { IsWorldKey key }
    requires work { IsPointJob key (dab_of brush.now ink.now) }
    requires whole { length tile.old ≡ 4096 }
    ensures { LaysJob key (dab_of brush.now ink.now) tile.old tile.new }
{
    let part = part_in(key, &brush.square());
    lay_dab(tile, TILE_SIDE, part_in_tile(&part), &part, brush, ink);
}
