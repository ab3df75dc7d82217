//! Commands in order, as lines add them.

ghost use Rattle.std.specs.Prelude.{◌≡◌, [], ◌∷◌, ◌++◌, ◌&&◌, IfOk, OnOk, true, None, All, length};
ghost use Rattle.std.specs.Option.{option_map};
ghost use Rattle.std.specs.List.{list_any, list_all};
ghost use Rattle.doc_model.specs.Jobs.{checks};
ghost use Rattle.doc_model.specs.Strokes.{entries, is_open_stroke};
ghost use Rattle.doc_model.specs.Lawful.{within_limits};
ghost use Rattle.doc_model.specs.Feeding.{lawful};
ghost use Rattle.command_log.specs.Misfits.{jobs_misfit};
ghost use Rattle.script_forms.specs.Ranges.{is_number, job_in_range, in_range, is_sound};
ghost use Rattle.script_text.specs.Paths.{adding};
ghost use Rattle.script_text.specs.Read.{IsRefused};
ghost use Rattle.script_text.specs.Reading.{cause_of as said_cause, misfit as said_misfit};

use crate::script::{ReadRefusal, at};
use command_log::{CommandLog, Commands, Misfit, Refusal};
use doc_model::{Command, Job, Kind};
use geom_core::NoMemory;
use script_lines::Cause;
use std::alloc::Global;
use std::marker::Model;

/// Commands with all numbers in their ranges, each of which may follow those before it.
#[derive(Drop)]
pub(crate) struct Draft {
    log: CommandLog,
}

impl Model for Draft {
    ghost use Rattle.std.specs.Prelude.{List};
    ghost use Rattle.doc_model.specs.declared.command.Command.{Command};

    ghost Value = { List Command };

    ghost use Rattle.script_text.specs.Draft.{IsDraft};

    ghost view = { λ d. d.log.items };

    ghost invariant = { IsDraft };
}

/// What is wrong with a line whose command may not follow.
fn cause_of(misfit: Misfit) -> Cause
    ensures { result ≡ said_cause misfit }
{
    match misfit {
        Misfit::UsedAgain => Cause::UsedAgain,
        Misfit::UnknownStroke => Cause::UnknownStroke,
        Misfit::ClosedStroke => Cause::ClosedStroke,
        Misfit::TooManyJobs => Cause::TooManyJobs,
        Misfit::TooManyExports => Cause::TooManyExports,
    }
}

impl Draft {
    /// No commands, and room for so many.
    pub(crate) fn new(alloc: Global, room: usize) -> Result<Self, NoMemory>
        ensures { IfOk result (λ d. d ≡ []) }
    {
        Ok(Draft {
            log: CommandLog::with_capacity(alloc, room)?,
        })
    }

    /// Whether a stroke with that number is open.
    pub(crate) fn is_open(&self, no: u32) -> bool
        ensures { result ≡ list_any (is_open_stroke no) (entries self.now) }
    {
        self.log.is_open(no)
    }

    /// Adds the command of a line. Nothing is added where it may not follow, or no memory is left.
    #[inline(always)]
    pub(crate) fn add(&mut self, line: u32, command: Command) -> Result<(), ReadRefusal>
        requires ranges { in_range command ≡ true }
        requires sound { is_sound command ≡ true }
        ensures refused { IsRefused result line (said_misfit (entries self.old) command) }
        ensures added { OnOk result (self.new ≡ self.old ++ command ∷ []) }
    {
        match self.log.add(command) {
            Ok(()) => Ok(()),
            Err(Refusal::Misfit(misfit)) => Err(at(line, cause_of(misfit))),
            Err(Refusal::NoMemory) => Err(ReadRefusal::NoMemory),
        }
    }

    /// What is wrong with a line that adds so many jobs to a stroke, their own limits aside.
    pub(crate) fn jobs_cause(&self, no: u32, count: usize) -> Option<Cause>
        ensures { result ≡ option_map said_cause (jobs_misfit (entries self.now) no count) }
    {
        match self.log.jobs_misfit(no, count) {
            None => None,
            Some(misfit) => Some(cause_of(misfit)),
        }
    }

    /// Adds the jobs of a line to a stroke, each beside the others. Where an error comes, the first of
    /// them may have been added.
    pub(crate) fn add_jobs(&mut self, line: u32, no: u32, jobs: &[Job]) -> Result<(), ReadRefusal>
        requires number { is_number no ≡ true }
        requires fits { jobs_misfit (entries self.old) no (length jobs.now) ≡ None }
        requires ranges { All (λ j. job_in_range j ≡ true) jobs.now }
        requires sound { All (λ j. (checks j && within_limits j) ≡ true) jobs.now }
        ensures refused { IsRefused result line None }
        ensures added { OnOk result (self.new ≡ self.old ++ adding no jobs.now) }
    {
        for job in jobs {
            let command = Command::Add {
                no,
                kind: Kind::Con,
                job: *job,
            };
            self.add(line, command)?;
        }
        Ok(())
    }

    /// The commands, and no more.
    pub(crate) fn into_commands(self) -> Result<Commands, NoMemory>
        ensures items { IfOk result (λ c. c ≡ self) }
        ensures ranges { list_all in_range self ≡ true }
        ensures lawful { lawful self ≡ true }
    {
        self.log.into_commands()
    }
}

/// Adds an item at the end.
pub(crate) fn add_last<T: Copy>(items: &mut Vec<T>, item: T) -> Result<(), NoMemory>
    ensures { OnOk result (items.new.items ≡ items.old.items ++ item ∷ []) }
{
    items.push(item)?;
    Ok(())
}
