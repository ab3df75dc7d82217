//! Scripts, and why bytes or commands aren't one.

ghost use Rattle.std.specs.Prelude.{◌≡◌, ◌<◌, ◌==◌, Some, true, length, slice_get};
ghost use Rattle.script_text.specs.Script.{contents};
ghost use Rattle.script_text.specs.Closed.{is_script};
ghost use Rattle.script_text.specs.Read.{refusal};
ghost use Rattle.script_text.specs.declared.script.ReadRefusal.TheVariants.{NoMemory};

use command_log::Commands;
use doc_model::{Canvas, Command};
use geom_core::NoMemory;
use script_lines::Cause;
use std::alloc::AllocError;
use std::marker::Model;

/// The first bad line of a script, and what is wrong with it.
#[derive(Clone, Copy, Debug, PartialEq, Eq)]
pub struct ScriptFault {
    /// The line's number, from 1 on.
    pub line: u32,
    /// Its first cause.
    pub cause: Cause,
}

/// Why bytes weren't read.
#[derive(Clone, Copy, Debug, PartialEq, Eq)]
pub enum ReadRefusal {
    /// They aren't a script.
    Fault(ScriptFault),
    /// No memory was left.
    NoMemory,
}

/// Why commands weren't made a script.
#[derive(Clone, Copy, Debug, PartialEq, Eq)]
pub enum MakeRefusal {
    /// They aren't a script.
    NotScript,
    /// No memory was left.
    NoMemory,
}

/// A canvas, and commands of which each may follow those before it, with all strokes closed and all
/// numbers in their ranges.
#[derive(Drop)]
pub struct Script {
    canvas: Canvas,
    commands: Commands,
}

impl Model for Script {
    ghost use Rattle.std.specs.Prelude.{◌≡◌, true};
    ghost use Rattle.script_text.specs.Script.{Contents, contents};
    ghost use Rattle.script_text.specs.Closed.{contents_code, is_script};

    ghost Value = { Contents };

    ghost coded = { contents_code };

    ghost view = { λ s. contents s.canvas s.commands };

    ghost invariant = { λ s. is_script (contents s.canvas s.commands) ≡ true };
}

impl Script {
    /// A canvas and commands that are a script.
    pub(crate) fn from_parts(canvas: Canvas, commands: Commands) -> Script
        requires { is_script (contents canvas commands) ≡ true }
        ensures { result ≡ contents canvas commands }
    {
        Script { canvas, commands }
    }

    /// The canvas.
    pub fn canvas(&self) -> Canvas
        ensures { result ≡ self.now.canvas }
    {
        self.canvas
    }

    /// How many commands there are.
    pub fn len(&self) -> usize
        ensures { result ≡ length self.now.commands }
    {
        self.commands().len()
    }

    /// Whether there are no commands.
    pub fn is_empty(&self) -> bool
        ensures { result ≡ (length self.now.commands == 0) }
    {
        self.commands().is_empty()
    }

    /// The command at place `i`, from 0 on.
    pub fn command(&self, i: usize) -> &Command
        requires { i < length self.now.commands }
        ensures { slice_get self.now.commands i ≡ Some result.now }
    {
        &self.commands()[i]
    }

    /// All commands, in order.
    pub fn commands(&self) -> &[Command]
        ensures value { result.now ≡ self.now.commands }
        ensures script { is_script self.now ≡ true }
    {
        self.commands.as_slice()
    }

    /// The same, as a list that may be shared.
    pub fn list(&self) -> &Commands
        ensures { result.now ≡ self.now.commands }
    {
        &self.commands
    }
}

/// The refusal of a line.
pub(crate) fn at(line: u32, cause: Cause) -> ReadRefusal
    ensures { result ≡ refusal line cause }
{
    ReadRefusal::Fault(ScriptFault { line, cause })
}

impl From<AllocError> for ReadRefusal {
    ghost from_gives = { λ _ e. e ≡ NoMemory };

    fn from(_: AllocError) -> Self {
        ReadRefusal::NoMemory
    }
}

impl From<NoMemory> for ReadRefusal {
    ghost from_gives = { λ _ e. e ≡ NoMemory };

    fn from(_: NoMemory) -> Self {
        ReadRefusal::NoMemory
    }
}
