//! Commands in order, and what has to be known of them to take one more.

ghost use Rattle.std.specs.Prelude.{◌≡◌, [], ◌∷◌, ◌++◌, ◌&&◌, Err, Some, IfOk, OnOk, OnErr, ◌≤◌, true};
ghost use Rattle.std.specs.List.{list_any};
ghost use Rattle.doc_model.specs.Strokes.{entries, is_open_stroke, has_room};
ghost use Rattle.doc_model.specs.Lawful.{may_follow};
ghost use Rattle.command_log.specs.declared.refusal.Refusal.TheVariants as refusal;
ghost use Rattle.command_log.specs.Misfits.{misfit_of, jobs_misfit};
ghost use Rattle.command_log.specs.Log.{Refuses};
ghost use Rattle.command_log.specs.Table.{Tells, export_misfit as said_export, exports_after as count_after};

use crate::front::Front;
use crate::refusal::{Misfit, Refusal};
use crate::shared::Commands;
use crate::table::{Fed, Table};
use doc_model::Command;
use geom_core::NoMemory;
use std::alloc::Global;
use std::marker::Model;

/// How many exports there are at most.
const MOST_EXPORTS: u32 = 64;

/// The commands taken so far, with what is known of their strokes and exports. Whether one more may
/// follow takes one look-up.
#[derive(Drop)]
pub struct CommandLog {
    commands: Front,
    strokes: Table,
    exports: u32,
}

impl Model for CommandLog {
    ghost use Rattle.std.specs.Prelude.{None, is_some, if◌then◌else◌};
    ghost use Rattle.command_log.specs.Log.{Log, log, log_code};

    ghost Value = { Log };

    ghost coded = { log_code };

    ghost use Rattle.command_log.specs.Told.{IsTold};

    ghost view = { λ l. log l.commands.items (if is_some l.strokes.newest then None else l.commands.room) };

    ghost invariant = { IsTold };
}

/// Why it can't be added to that many exports.
fn export_misfit(exports: u32, command: &Command) -> Option<Misfit>
    ensures { result ≡ said_export exports command.now }
{
    match command {
        Command::Export if exports >= MOST_EXPORTS => Some(Misfit::TooManyExports),
        _ => None,
    }
}

/// How many exports there are after the command.
fn exports_after(exports: u32, command: &Command) -> u32
    requires { exports ≤ 64 }
    ensures { result ≡ count_after exports command.now }
{
    match command {
        Command::Export => exports + 1,
        _ => exports,
    }
}

impl CommandLog {
    /// No commands.
    pub fn new(alloc: Global) -> Self
        ensures { result.items ≡ [] }
    {
        CommandLog {
            commands: Front::own(alloc, Vec::new(alloc)),
            strokes: Table::new(alloc),
            exports: 0,
        }
    }

    /// No commands, and place for so many.
    pub fn with_capacity(alloc: Global, capacity: usize) -> Result<Self, NoMemory>
        ensures { IfOk result (λ l. l.items ≡ []) }
    {
        Ok(CommandLog {
            commands: Front::own(alloc, Vec::with_capacity(alloc, capacity)?),
            strokes: Table::new(alloc),
            exports: 0,
        })
    }

    /// No commands. As long as each that is taken is the next one of the list, they aren't kept once
    /// more. `NoMemory` only where the list's count of references is full.
    pub fn following(alloc: Global, list: &Commands) -> Result<Self, NoMemory>
        ensures { IfOk result (λ l. l.items ≡ []) }
    {
        Ok(CommandLog {
            commands: Front::following(alloc, list.share()?),
            strokes: Table::new(alloc),
            exports: 0,
        })
    }

    /// The commands, in order.
    pub fn commands(&self) -> &[Command]
        ensures { result.now ≡ self.now.items }
    {
        self.commands.as_slice()
    }

    /// The commands, and no more, as a list that may be shared.
    pub fn into_commands(self) -> Result<Commands, NoMemory>
        ensures { IfOk result (λ c. c ≡ self.items) }
    {
        self.commands.into_commands()
    }

    /// What is kept of the stroke with that number.
    fn find(&self, no: u32) -> Option<Fed>
        ensures { Tells (entries self.now.items) no result }
    {
        self.strokes.get(no)
    }

    /// Whether a stroke with that number is open.
    pub fn is_open(&self, no: u32) -> bool
        ensures { result ≡ list_any (is_open_stroke no) (entries self.now.items) }
    {
        match self.find(no) {
            None => false,
            Some(fed) => fed.is_live(),
        }
    }

    /// Whether a stroke with that number is open, and has fewer jobs than it may have.
    fn takes_job(&self, no: u32) -> bool
        ensures { result ≡ (list_any (is_open_stroke no) (entries self.now.items) && list_any
            (has_room no) (entries self.now.items)) }
    {
        match self.find(no) {
            None => false,
            Some(fed) => fed.is_live() && fed.has_room(),
        }
    }

    /// Why so many jobs can't be added to the stroke with that number, their own limits aside. None
    /// exactly where they can.
    pub fn jobs_misfit(&self, no: u32, count: usize) -> Option<Misfit>
        ensures { result ≡ jobs_misfit (entries self.now.items) no count }
    {
        match self.find(no) {
            None => Some(Misfit::UnknownStroke),
            Some(fed) => fed.jobs_misfit(count),
        }
    }

    /// Why the command may not follow those that were taken, its job's own limits aside. None exactly where
    /// it may, or its job's limits alone forbid it. One look-up, no memory.
    pub fn misfit(&self, command: &Command) -> Option<Misfit>
        ensures { result ≡ misfit_of (entries self.now.items) command.now }
    {
        match export_misfit(self.exports, command) {
            Some(misfit) => Some(misfit),
            None => self.strokes.misfit(command),
        }
    }

    /// Whether the command may follow those that were taken: its job meets the limits and lies in the
    /// world, its stroke is open or new as it has to be, and there are few enough jobs and exports.
    pub fn may_follow(&self, command: &Command) -> bool
        ensures { result ≡ may_follow (entries self.now.items) command.now }
    {
        match command {
            Command::Stroke { no, .. } => self.find(*no).is_none(),
            Command::Add { no, job, .. } => {
                job.check().is_ok() && job.is_within_limits() && self.takes_job(*no)
            }
            Command::End { no } | Command::Cancel { no } => self.is_open(*no),
            Command::Export => self.exports < MOST_EXPORTS,
            _ => true,
        }
    }

    /// Makes room for the command. None is wanted where it is the next one of a list that is followed,
    /// and no stroke was started.
    ///
    /// # Errors
    /// `NoMemory`; the commands stay.
    pub fn make_room(&mut self, command: &Command) -> Result<(), NoMemory>
        ensures items { self.new.items ≡ self.old.items }
        ensures room { OnOk result (self.new.room ≡ Some command.now) }
    {
        self.commands.make_room(command)?;
        self.strokes.put_back()
    }

    /// Takes a command that may follow, where there is room for it.
    pub fn push(&mut self, command: Command)
        requires room { self.old.room ≡ Some command }
        requires lawful { may_follow (entries self.old.items) command ≡ true }
        ensures { self.new.items ≡ self.old.items ++ command ∷ [] }
    {
        match self.add(command) {
            Ok(()) => {}
            Err(_) => unreachable!(),
        }
    }

    /// Takes a command, unless it may not follow for another cause than its job's own limits.
    ///
    /// # Errors
    /// `Misfit` where it may not follow; `NoMemory` where there was no room for it. The commands stay.
    #[inline(always)]
    pub fn add(&mut self, command: Command) -> Result<(), Refusal>
        ensures refused { Refuses result (misfit_of (entries self.old.items) command) }
        ensures taken { OnOk result (self.new.items ≡ self.old.items ++ command ∷ []) }
        ensures same { OnErr result (self.new.items ≡ self.old.items) }
        ensures full { result ≡ Err refusal.NoMemory → self.old.room ≡ Some command → ⊥ }
    {
        if let Some(misfit) = export_misfit(self.exports, &command) {
            return Err(Refusal::Misfit(misfit));
        }
        self.commands.make_room(&command)?;
        self.strokes.take(&command)?;
        self.exports = exports_after(self.exports, &command);
        self.commands.take_next();
        Ok(())
    }
}
