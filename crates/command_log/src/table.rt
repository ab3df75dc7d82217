//! What is kept of each stroke, by its number.

ghost use Rattle.std.specs.Prelude.{◌≡◌, ◌==◌, None, Some, Err, OnOk, OnErr, ℕ, true, is_some, nat_lt, if◌then◌else◌};
ghost use Rattle.std.specs.Result.{result_err};
ghost use Rattle.std.specs.Ordering.{nat_cmp};
ghost use Rattle.std.specs.BTreeMap.{get as found};
ghost use Rattle.command_log.specs.declared.refusal.Refusal.TheVariants as refusal;
ghost use Rattle.command_log.specs.Log.{Refuses};
ghost use Rattle.command_log.specs.Table.{kept, just_started, one_more, closed as shut, next_fed, start_misfit, close_misfit, job_misfit, kept_misfit, stroke_misfit};

use crate::refusal::{Misfit, Refusal};
use doc_model::Command;
use geom_core::NoMemory;
use std::alloc::Global;
use std::collections::BTreeMap;

/// How many jobs a stroke has at most.
const MOST_JOBS: u32 = 4096;

/// What is kept of a stroke.
#[derive(Clone, Copy, Debug, PartialEq, Eq)]
pub(crate) struct Fed {
    live: bool,
    jobs: u32,
}

/// A stroke's number, and what is kept of it.
#[derive(Clone, Copy, Debug, PartialEq, Eq)]
struct Stroke {
    no: u32,
    fed: Fed,
}

/// What is kept of each stroke. Nearly all jobs are of the stroke that was started last, so that one
/// may be kept at hand, and the others in a map.
#[derive(Drop)]
pub(crate) struct Table {
    newest: Option<Stroke>,
    older: BTreeMap<u32, Fed>,
}

impl Fed {
    /// Whether the stroke is open.
    pub(crate) fn is_live(self) -> bool
        ensures { result ≡ self.live }
    {
        self.live
    }

    /// Whether the stroke has fewer jobs than it may have.
    pub(crate) fn has_room(self) -> bool
        ensures { result ≡ nat_lt self.jobs 4096 }
    {
        self.jobs < MOST_JOBS
    }

    /// Why the stroke can't take so many jobs.
    pub(crate) fn jobs_misfit(self, count: usize) -> Option<Misfit>
        ensures { result ≡ kept_misfit count (Some self) }
    {
        if !self.live {
            return Some(Misfit::ClosedStroke);
        }
        if count.saturating_add(self.jobs as usize) > MOST_JOBS as usize {
            return Some(Misfit::TooManyJobs);
        }
        None
    }

    /// Why the stroke can't take one more job.
    #[inline(always)]
    fn job_misfit(self) -> Option<Misfit>
        ensures { result ≡ job_misfit (Some self) }
    {
        if !self.live {
            return Some(Misfit::ClosedStroke);
        }
        if self.jobs >= MOST_JOBS {
            return Some(Misfit::TooManyJobs);
        }
        None
    }

    /// Why the stroke can't be closed.
    fn close_misfit(self) -> Option<Misfit>
        ensures { result ≡ close_misfit (Some self) }
    {
        if self.live {
            None
        } else {
            Some(Misfit::ClosedStroke)
        }
    }

    /// Gives the stroke one more job.
    #[inline(always)]
    fn feed(&mut self) -> Result<(), Misfit>
        ensures refused { result_err result ≡ job_misfit (Some self.old) }
        ensures fed { OnOk result (Some self.new ≡ one_more (Some self.old)) }
        ensures same { OnErr result (self.new ≡ self.old) }
    {
        if let Some(misfit) = self.job_misfit() {
            return Err(misfit);
        }
        self.jobs += 1;
        Ok(())
    }

    /// Closes the stroke.
    fn close(&mut self) -> Result<(), Misfit>
        ensures refused { result_err result ≡ close_misfit (Some self.old) }
        ensures closed { OnOk result (Some self.new ≡ shut (Some self.old)) }
        ensures same { OnErr result (self.new ≡ self.old) }
    {
        if let Some(misfit) = self.close_misfit() {
            return Err(misfit);
        }
        self.live = false;
        Ok(())
    }
}

impl Table {
    /// Nothing is kept.
    pub(crate) fn new(alloc: Global) -> Self
        ensures { (m : ℕ) → kept result m ≡ None }
    {
        Table {
            newest: None,
            older: BTreeMap::new(alloc),
        }
    }

    /// What is kept of the stroke with that number.
    pub(crate) fn get(&self, no: u32) -> Option<Fed>
        ensures { result ≡ kept self.now no }
    {
        match self.newest {
            Some(stroke) if stroke.no == no => Some(stroke.fed),
            _ => self.older.get(&no).copied(),
        }
    }

    /// Why the command can't be taken, by its stroke.
    pub(crate) fn misfit(&self, command: &Command) -> Option<Misfit>
        ensures { result ≡ stroke_misfit (kept self.now) command.now }
    {
        match command {
            Command::Stroke { no, .. } => match self.get(*no) {
                Some(_) => Some(Misfit::UsedAgain),
                None => None,
            },
            Command::Add { no, .. } => match self.get(*no) {
                Some(fed) => fed.job_misfit(),
                None => Some(Misfit::UnknownStroke),
            },
            Command::End { no } | Command::Cancel { no } => match self.get(*no) {
                Some(fed) => fed.close_misfit(),
                None => Some(Misfit::UnknownStroke),
            },
            _ => None,
        }
    }

    /// Keeps what the command says of its stroke. Wants no memory where no stroke is at hand.
    #[inline(always)]
    pub(crate) fn take(&mut self, command: &Command) -> Result<(), Refusal>
        ensures refused { Refuses result (stroke_misfit (kept self.old) command.now) }
        ensures kept { OnOk result ((m : ℕ) → kept self.new m ≡ next_fed command.now m
            (kept self.old m)) }
        ensures same { OnErr result ((m : ℕ) → kept self.new m ≡ kept self.old m) }
        ensures full { result ≡ Err refusal.NoMemory → is_some self.old.newest ≡ true }
    {
        match command {
            Command::Stroke { no, .. } => self.start(*no),
            Command::Add { no, .. } => Ok(self.feed(*no)?),
            Command::End { no } | Command::Cancel { no } => Ok(self.close(*no)?),
            _ => Ok(()),
        }
    }

    /// Puts the stroke at hand among the others, so that the next may be started without memory.
    pub(crate) fn put_back(&mut self) -> Result<(), NoMemory>
        ensures same { (m : ℕ) → kept self.new m ≡ kept self.old m }
        ensures back { OnOk result (self.new.newest ≡ None) }
        ensures full { OnErr result (is_some self.old.newest ≡ true) }
    {
        let Some(stroke) = self.newest else {
            return Ok(());
        };
        match self.older.insert(stroke.no, stroke.fed) {
            Ok(_) => {
                self.newest = None;
                Ok(())
            }
            Err(_) => Err(NoMemory),
        }
    }

    /// Starts a stroke.
    fn start(&mut self, no: u32) -> Result<(), Refusal>
        ensures refused { Refuses result (start_misfit (kept self.old no)) }
        ensures kept { OnOk result ((m : ℕ) → kept self.new m
            ≡ (if no == m then Some just_started else kept self.old m)) }
        ensures same { OnErr result ((m : ℕ) → kept self.new m ≡ kept self.old m) }
        ensures full { result ≡ Err refusal.NoMemory → is_some self.old.newest ≡ true }
    {
        if self.get(no).is_some() {
            return Err(Refusal::Misfit(Misfit::UsedAgain));
        }
        self.put_back()?;
        let fed = Fed {
            live: true,
            jobs: 0,
        };
        self.newest = Some(Stroke { no, fed });
        Ok(())
    }

    /// Gives a stroke one more job.
    #[inline(always)]
    fn feed(&mut self, no: u32) -> Result<(), Misfit>
        ensures refused { result_err result ≡ job_misfit (kept self.old no) }
        ensures kept { OnOk result ((m : ℕ) → kept self.new m
            ≡ (if no == m then one_more (kept self.old m) else kept self.old m)) }
        ensures same { OnErr result ((m : ℕ) → kept self.new m ≡ kept self.old m) }
    {
        match &mut self.newest {
            Some(stroke) if stroke.no == no => stroke.fed.feed(),
            _ => feed(&mut self.older, no),
        }
    }

    /// Closes a stroke.
    fn close(&mut self, no: u32) -> Result<(), Misfit>
        ensures refused { result_err result ≡ close_misfit (kept self.old no) }
        ensures kept { OnOk result ((m : ℕ) → kept self.new m
            ≡ (if no == m then shut (kept self.old m) else kept self.old m)) }
        ensures same { OnErr result ((m : ℕ) → kept self.new m ≡ kept self.old m) }
    {
        match &mut self.newest {
            Some(stroke) if stroke.no == no => stroke.fed.close(),
            _ => close(&mut self.older, no),
        }
    }
}

/// Gives a stroke of the map one more job.
#[inline(never)]
fn feed(older: &mut BTreeMap<u32, Fed>, no: u32) -> Result<(), Misfit>
    ensures refused { result_err result ≡ job_misfit (found nat_cmp older.old no) }
    ensures kept { OnOk result ((m : ℕ) → found nat_cmp older.new m
        ≡ (if no == m then one_more (found nat_cmp older.old m) else found nat_cmp older.old m)) }
    ensures same { OnErr result ((m : ℕ) → found nat_cmp older.new m ≡ found nat_cmp older.old m) }
{
    match older.get_mut(&no) {
        Some(fed) => fed.feed(),
        None => Err(Misfit::UnknownStroke),
    }
}

/// Closes a stroke of the map.
fn close(older: &mut BTreeMap<u32, Fed>, no: u32) -> Result<(), Misfit>
    ensures refused { result_err result ≡ close_misfit (found nat_cmp older.old no) }
    ensures kept { OnOk result ((m : ℕ) → found nat_cmp older.new m
        ≡ (if no == m then shut (found nat_cmp older.old m) else found nat_cmp older.old m)) }
    ensures same { OnErr result ((m : ℕ) → found nat_cmp older.new m ≡ found nat_cmp older.old m) }
{
    match older.get_mut(&no) {
        Some(fed) => fed.close(),
        None => Err(Misfit::UnknownStroke),
    }
}
