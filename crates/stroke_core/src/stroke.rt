//! Strokes that are fed, and those that are closed.

ghost use Rattle.std.specs.Prelude.{◌≡◌, ◌≢◌, ℕ, ◌-◌, ◌<◌, ◌≤◌, true, false, Some, None, Ok, Err, OnOk, OnErr, if◌then◌else◌, All, [], ◌∷◌, ◌++◌, length, slice_get};
ghost use Rattle.doc_model.specs.Jobs.{checks};
ghost use Rattle.doc_model.specs.Strokes.{Jobs, runs};
ghost use Rattle.doc_model.specs.Searches.{first_conflicting};
ghost use Rattle.stroke_core.specs.Fed.{found, plus, StandsFor};
ghost use Rattle.stroke_core.specs.Marks.{marks_in_run};

use crate::footprint::{Footprint, push_reserved};
use crate::last_run::LastRun;
use doc_model::{Job, Kind};
use std::alloc::{AllocError, AllocFailed, Global};
use std::marker::Model;
use thiserror::Error;

/// Why a job was not added.
#[derive(Clone, Copy, Debug, PartialEq, Eq, Error)]
pub enum AddFault {
    /// The jobs with these numbers, from 1, stand in one run and conflict.
    #[error("the jobs {first} and {second} overlap")]
    Overlap { first: u32, second: u32 },
    /// No memory was left. The stroke is as it was.
    #[error("no memory was left")]
    NoMemory,
}

impl From<AllocError> for AddFault {
    ghost use Rattle.stroke_core.specs.declared.stroke.AddFault.{AddFault};

    ghost from_gives = { λ _ e. e ≡ AddFault.NoMemory };

    fn from(_e: AllocError) -> AddFault {
        AddFault::NoMemory
    }
}

impl<T: Drop> From<AllocFailed<T>> for AddFault {
    ghost use Rattle.stroke_core.specs.declared.stroke.AddFault.{AddFault};

    ghost from_gives = { λ _ e. e ≡ AddFault.NoMemory };

    fn from(_e: AllocFailed<T>) -> AddFault {
        AddFault::NoMemory
    }
}

/// A stroke that still takes jobs.
///
/// It keeps its jobs up to the first that conflicts with an earlier one of its run, at most 4,096 of
/// them. A run is a longest row of neighbouring concurrent and uniquely concurrent jobs. Two jobs of
/// a run conflict where one of them writes what the other reads, unless both are uniquely concurrent.
#[derive(Drop)]
pub struct OpenStroke {
    no: u32,
    layer: u16,
    exclusive: bool,
    jobs: Vec<(Kind, Job)>,
    /// Those of the last run.
    footprints: LastRun,
    start: usize,
    overlap: Option<(u32, u32)>,
}

impl Model for OpenStroke {
    ghost use Rattle.stroke_core.specs.Fed.{Fed, IsKept};

    ghost Value = { Fed };

    ghost view = { λ s. record {
      no = s.no;
      layer = s.layer;
      exclusive = s.exclusive;
      jobs = s.jobs.items;
      overlap = s.overlap;
    } };

    ghost invariant = { λ s. IsKept s.jobs.items s.footprints s.start };
}

impl OpenStroke {
    /// A stroke with that number on that layer, with no job yet.
    pub fn new(alloc: Global, no: u32, layer: u16, exclusive: bool) -> OpenStroke
        ensures value { result ≡ record {
          no = no;
          layer = layer;
          exclusive = exclusive;
          jobs = [];
          overlap = None;
        } }
        ensures stands { StandsFor [] result }
    {
        OpenStroke {
            no,
            layer,
            exclusive,
            jobs: Vec::new(alloc),
            footprints: LastRun::new(alloc),
            start: 0,
            overlap: None,
        }
    }

    /// Adds a job at the end. Where it conflicts with an earlier one of its run, it is not kept, and
    /// from then on the stroke keeps no job.
    ///
    /// # Errors
    /// `Overlap` exactly where the jobs so far and this one conflict, with the pair that has the
    /// least second number, and among these the least first. `NoMemory` leaves all as it was.
    pub fn add(&mut self, kind: Kind, job: Job) -> Result<(), AddFault>
        requires checked { checks job ≡ true }
        requires room { length self.old.jobs < 4096 }

        ensures clear { OnOk result (found self.old (kind, job) ≡ None) }
        ensures added { OnOk result (self.new ≡ record self.old
            { jobs = self.old.jobs ++ (kind, job) ∷ [] }) }

        ensures pair { (first second : ℕ) → result ≡ Err (AddFault.Overlap first second)
            → found self.old (kind, job) ≡ Some (first, second) }
        ensures refused { (first second : ℕ) → result ≡ Err (AddFault.Overlap first second)
            → self.new ≡ record self.old { overlap = Some (first, second) } }

        ensures no_memory { result ≡ Err AddFault.NoMemory → self.new ≡ self.old }
        ensures stands { (fed : Jobs) → StandsFor fed self.old → result ≢ Err AddFault.NoMemory
            → StandsFor (fed ++ (kind, job) ∷ []) self.new }
    {
        if let Some((first, second)) = self.overlap {
            return Err(AddFault::Overlap { first, second });
        }
        let footprint = footprint_in_run(kind, &job);
        if let Some(first) = self.first_conflict(&footprint) {
            let second = self.jobs.len() as u32 + 1;
            self.overlap = Some((first, second));
            return Err(AddFault::Overlap { first, second });
        }
        self.keep(kind, job, footprint)?;
        Ok(())
    }

    /// The number of the first kept job that conflicts with a new one, whose footprint this is if it
    /// may stand in a run.
    fn first_conflict(&self, footprint: &Option<Footprint>) -> Option<u32>
        ensures { (kind : Kind) (job : Job) → footprint.now ≡ marks_in_run (kind, job) → result
            ≡ plus 1 (first_conflicting (self.now.jobs ++ (kind, job) ∷ [])
            (length self.now.jobs)) }
    {
        let Some(footprint) = footprint else {
            return None;
        };
        let place = self.footprints.first_clash(footprint)?;
        Some((self.start + place) as u32 + 1)
    }

    /// Keeps a job that conflicts with none.
    fn keep(&mut self, kind: Kind, job: Job, footprint: Option<Footprint>) -> Result<(), AllocError>
        requires checked { checks job ≡ true }
        requires room { length self.old.jobs < 4096 }
        requires marks { footprint ≡ marks_in_run (kind, job) }
        requires clear { first_conflicting (self.old.jobs ++ (kind, job) ∷ [])
            (length self.old.jobs) ≡ None }
        ensures ok { OnOk result (self.new ≡ record self.old {
          jobs = self.old.jobs ++ (kind, job) ∷ [];
        }) }
        ensures err { OnErr result (self.new ≡ self.old) }
    {
        self.jobs.reserve(1)?;
        match footprint {
            Some(footprint) => self.footprints.push(footprint)?,
            None => self.footprints.clear(),
        }
        push_reserved(&mut self.jobs, (kind, job));
        self.start = run_start(kind, self.start, self.jobs.len());
        Ok(())
    }

    /// Closes it.
    pub fn end(self) -> ClosedStroke
        ensures { result ≡ record { stroke = self; cancelled = false } }
    {
        ClosedStroke {
            stroke: self,
            cancelled: false,
        }
    }

    /// Closes it; it is to leave nothing.
    pub fn cancel(self) -> ClosedStroke
        ensures { result ≡ record { stroke = self; cancelled = true } }
    {
        ClosedStroke {
            stroke: self,
            cancelled: true,
        }
    }

    /// Its number.
    pub fn no(&self) -> u32
        ensures { result ≡ self.now.no }
    {
        self.no
    }

    /// The id of the layer that it paints on.
    pub fn layer(&self) -> u16
        ensures { result ≡ self.now.layer }
    {
        self.layer
    }

    /// Whether no update is composed beside it.
    pub fn exclusive(&self) -> bool
        ensures { result ≡ self.now.exclusive }
    {
        self.exclusive
    }

    /// How many jobs it keeps.
    pub fn job_count(&self) -> u32
        ensures value { result ≡ length self.now.jobs }
        ensures few { result ≤ 4096 }
    {
        self.jobs.len() as u32
    }

    /// The kept job with that number, from 1.
    pub fn job(&self, i: u32) -> (Kind, Job)
        requires first { 1 ≤ i }
        requires last { i ≤ length self.now.jobs }
        ensures value { slice_get self.now.jobs (i - 1) ≡ Some result }
        ensures checked { checks result.1 ≡ true }
    {
        self.jobs()[i as usize - 1]
    }

    /// The kept jobs in order.
    pub fn jobs(&self) -> &[(Kind, Job)]
        ensures value { result.now ≡ self.now.jobs }
        ensures checked { All (λ job. checks job.1 ≡ true) result.now }
        ensures few { length result.now ≤ 4096 }
    {
        self.jobs.as_slice()
    }

    /// The numbers of the jobs that conflict, from 1, the later one second. None where none do.
    pub fn overlap(&self) -> Option<(u32, u32)>
        ensures { result ≡ self.now.overlap }
    {
        self.overlap
    }
}

/// Whether a job of that kind may stand in a run.
fn runs(kind: Kind) -> bool
    ensures { result ≡ runs kind }
{
    match kind {
        Kind::Con | Kind::Uni => true,
        Kind::Seq | Kind::Bar => false,
    }
}

/// Where a job of that kind reads and writes, if it may stand in a run.
fn footprint_in_run(kind: Kind, job: &Job) -> Option<Footprint>
    requires { checks job.now ≡ true }
    ensures { result ≡ marks_in_run (kind, job.now) }
{
    if runs(kind) {
        Some(Footprint::new(kind, job))
    } else {
        None
    }
}

/// Where the last run begins after one more job.
fn run_start(kind: Kind, before: usize, len: usize) -> usize
    ensures { result ≡ (if runs kind then before else len) }
{
    if runs(kind) { before } else { len }
}

/// A stroke that takes no job any more.
#[derive(Drop)]
pub struct ClosedStroke {
    stroke: OpenStroke,
    cancelled: bool,
}

impl Model for ClosedStroke {
    ghost use Rattle.stroke_core.specs.Fed.{Closed};

    ghost Value = { Closed };

    ghost view = { λ s. record { stroke = s.stroke; cancelled = s.cancelled } };
}

impl ClosedStroke {
    /// Its number.
    pub fn no(&self) -> u32
        ensures { result ≡ self.now.stroke.no }
    {
        self.stroke.no()
    }

    /// The id of the layer that it paints on.
    pub fn layer(&self) -> u16
        ensures { result ≡ self.now.stroke.layer }
    {
        self.stroke.layer()
    }

    /// Whether no update is composed beside it.
    pub fn exclusive(&self) -> bool
        ensures { result ≡ self.now.stroke.exclusive }
    {
        self.stroke.exclusive()
    }

    /// How many jobs it keeps.
    pub fn job_count(&self) -> u32
        ensures value { result ≡ length self.now.stroke.jobs }
        ensures few { result ≤ 4096 }
    {
        self.stroke.job_count()
    }

    /// The kept job with that number, from 1.
    pub fn job(&self, i: u32) -> (Kind, Job)
        requires first { 1 ≤ i }
        requires last { i ≤ length self.now.stroke.jobs }
        ensures value { slice_get self.now.stroke.jobs (i - 1) ≡ Some result }
        ensures checked { checks result.1 ≡ true }
    {
        self.stroke.job(i)
    }

    /// The kept jobs in order.
    pub fn jobs(&self) -> &[(Kind, Job)]
        ensures value { result.now ≡ self.now.stroke.jobs }
        ensures checked { All (λ job. checks job.1 ≡ true) result.now }
        ensures few { length result.now ≤ 4096 }
    {
        self.stroke.jobs()
    }

    /// The numbers of the jobs that conflict, from 1, the later one second. None where none do.
    pub fn overlap(&self) -> Option<(u32, u32)>
        ensures { result ≡ self.now.stroke.overlap }
    {
        self.stroke.overlap()
    }

    /// Whether it was closed by `cancel`.
    pub fn cancelled(&self) -> bool
        ensures { result ≡ self.now.cancelled }
    {
        self.cancelled
    }
}
