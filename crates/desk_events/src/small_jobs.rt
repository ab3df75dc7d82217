//! Small jobs, painted without tickets.

ghost use Rattle.std.specs.Prelude.{All, ◌≡◌, ◌≤◌, ◌<◌, ◌+◌, ◌∷◌, [], ℕ, suc, true, false, is_some, Ok, None, Some, IfOk, IfSome, OnErr, length, take, drop, slice_get};
ghost use Rattle.doc_model.specs.declared.job.Job.{Job};
ghost use Rattle.doc_model.specs.declared.job.Kind.{Kind};
ghost use Rattle.doc_model.specs.Jobs.{checks, writes};
ghost use Rattle.doc_model.specs.Lawful.{within_limits};
ghost use Rattle.entry_queue.specs.Heads.{jobs_in};
ghost use Rattle.job_core.specs.Points.{is_point_op};
ghost use Rattle.machine_model.specs.Effects.{updates_with_all, writes_of};
ghost use Rattle.machine_model.specs.Guards.{is_bar as is_barrier};
ghost use Rattle.update_queue.specs.Waiting.{waiting};
ghost use Rattle.desk_events.specs.SmallJobs.{PaintsSmall, IsAlone, IsLeastRound, NoBarBehind, LaysRun};

use crate::machine::Machine;
use desk_state::Choice;
use desk_steps::Store;
use doc_model::{Job, Kind};
use entry_queue::{Queue, is_bar};
use geom_core::{NoMemory, Rect, TileKey};
use job_core::{PointWork, point_rect};
use slot_work::widen_all;
use std::alloc::Global;
use update_queue::Updates;

/// How many jobs are painted in one hold at most: so a hold stays short, and looking for a barrier too.
const MOST: usize = 64;

/// Jobs that were painted: how many, and in which tile.
#[derive(Clone, Copy)]
pub(crate) struct Laid {
    pub(crate) count: usize,
    pub(crate) key: TileKey,
}

impl Machine {
    /// Paints jobs of the stroke at the head in place, the next one first: some in a row that write within
    /// one tile alone and needn't wait for what is to be composed. Each starts in a slot, publishes its tile
    /// and ends. It tells the least rectangle round all that they write. None where a job is at work, or the next one
    /// mayn't start or is none of these.
    ///
    /// # Errors
    /// `NoMemory`; all is as it was.
    pub fn paint_small(&mut self) -> Result<Option<Rect>, NoMemory>
        ensures some { IfOk result (λ o. IfSome o (λ bound. PaintsSmall self.old bound self.new)) }
        ensures none { result ≡ Ok None → self.new ≡ self.old }
        ensures err { OnErr result (self.new ≡ self.old) }
    {
        if self.next_is_alone() {
            self.paint_run()
        } else {
            Ok(None)
        }
    }

    /// Whether the next job may start, and no job is at work.
    fn next_is_alone(&self) -> bool
        ensures { result ≡ true → IsAlone self.now }
    {
        match self.choice() {
            Choice::Start(_place) => self.no_painter(),
            Choice::Finish => false,
            Choice::Cancel => false,
            Choice::Act => false,
            Choice::Init => false,
            Choice::Wait => false,
        }
    }

    /// Paints the next job and those behind it, as `paint_small` does.
    ///
    /// # Errors
    /// `NoMemory`; all is as it was.
    fn paint_run(&mut self) -> Result<Option<Rect>, NoMemory>
        requires { IsAlone self.old }
        ensures some { IfOk result (λ o. IfSome o (λ bound. PaintsSmall self.old bound self.new)) }
        ensures none { result ≡ Ok None → self.new ≡ self.old }
        ensures err { OnErr result (self.new ≡ self.old) }
    {
        let group = self.group_of(self.head_layer());
        let started = self.started();
        let jobs = next_jobs(&self.queue, started as usize);
        match lay_run(self.alloc, &mut self.store, jobs)? {
            Some(laid) => {
                let (front, _) = jobs.split_at(laid.count);
                widen_jobs(&mut self.updates, group, front);
                self.way = Some(started + laid.count as u32);
                self.next += laid.count as u64;
                Ok(Some(bound_of(front)))
            }
            None => Ok(None),
        }
    }

    /// How many jobs of the stroke at the head were started.
    fn started(&self) -> u32
        requires { IsAlone self.now }
        ensures { self.now.way ≡ Some result }
    {
        let Some(started) = self.way else {
            unreachable!()
        };
        started
    }
}

/// The jobs of the stroke at the head from an index on, before the first barrier behind the first of them,
/// and not too many.
fn next_jobs(queue: &Queue, from: usize) -> &[(Kind, Job)]
    requires { from ≤ length (jobs_in queue.now.left) }
    ensures front { result.now ≡ take (length result.now) (drop from (jobs_in queue.now.left)) }
    ensures clear { NoBarBehind result.now }
    ensures checked { All (λ j. checks j.1 ≡ true) result.now }
    ensures few { from + length result.now ≤ 4096 }
{
    let (_, jobs) = queue.head_jobs().split_at(from);
    before_bar(jobs)
}

/// The jobs before the first barrier behind the first of them, and not too many.
fn before_bar(jobs: &[(Kind, Job)]) -> &[(Kind, Job)]
    ensures front { result.now ≡ take (length result.now) jobs.now }
    ensures few { length result.now ≤ length jobs.now }
    ensures clear { NoBarBehind result.now }
{
    let (front, _) = jobs.split_at(count_before_bar(jobs));
    front
}

/// How many of the jobs stand before the first barrier behind the first of them, of the first `MOST`.
fn count_before_bar(jobs: &[(Kind, Job)]) -> usize
    ensures few { result ≤ length jobs.now }
    ensures clear { (i : ℕ) (j : Kind × Job) → suc i < result → slice_get jobs.now (suc i) ≡ Some j
        → is_barrier j.0 ≡ false }
{
    let most = jobs.len().min(MOST);
    for i in 1..most {
        if is_bar(jobs[i].0) {
            return i;
        }
    }
    most
}

/// Paints the jobs, from the first on, that write within one tile alone. None where the first doesn't.
fn lay_run(alloc: Global, store: &mut Store, jobs: &[(Kind, Job)]) -> Result<Option<Laid>, NoMemory>
    requires checked { All (λ j. checks j.1 ≡ true) jobs.now }
    requires limits { All (λ j. within_limits j.1 ≡ true) jobs.now }
    requires under_way { is_some store.old.way ≡ true }
    ensures some { IfOk result (λ o. IfSome o (λ laid. LaysRun jobs.now laid store.old store.new)) }
    ensures none { result ≡ Ok None → store.new ≡ store.old }
    ensures err { OnErr result (store.new ≡ store.old) }
{
    let Some(work) = PointWork::run(jobs) else {
        return Ok(None);
    };
    store.paint(alloc, &work)?;
    Ok(Some(Laid {
        count: work.job_count(),
        key: work.key(),
    }))
}

/// What the jobs write waits for the group and those above it.
fn widen_jobs(updates: &mut Updates, group: u16, jobs: &[(Kind, Job)])
    requires { All (λ j. checks j.1 ≡ true) jobs.now }
    ensures { updates.new ≡ waiting updates.old.canvas
        (updates_with_all updates.old.canvas group (writes_of jobs.now) updates.old.patches) }
{
    for entry in jobs {
        widen_all(updates, group, &entry.1);
    }
}

/// The least rectangle round all that the jobs write.
fn bound_of(jobs: &[(Kind, Job)]) -> Rect
    requires some { 1 ≤ length jobs.now }
    requires checked { All (λ j. checks j.1 ≡ true) jobs.now }
    requires limits { All (λ j. within_limits j.1 ≡ true) jobs.now }
    requires points { All (λ j. is_point_op j.1 ≡ true) jobs.now }
    ensures { IsLeastRound jobs.now result }
{
    let mut bound = written(&jobs[0].1);
    for entry in jobs {
        bound = bound.bound(&written(&entry.1));
    }
    bound
}

/// The rectangle that a point operation writes.
fn written(job: &Job) -> Rect
    requires checked { checks job.now ≡ true }
    requires point_op { is_point_op job.now ≡ true }
    ensures { writes job.now ≡ result ∷ [] }
{
    let Some(rect) = point_rect(job) else {
        unreachable!()
    };
    rect
}
