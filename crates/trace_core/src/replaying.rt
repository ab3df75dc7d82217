//! A trace, followed line by line.

ghost use Rattle.std.specs.Prelude.{◌≡◌, ◌<◌, length, true, IfOk, IfErr};
ghost use Rattle.script_lines.specs.Fronts.{lines_behind};
ghost use Rattle.doc_model.specs.Feeding.{lawful};
ghost use Rattle.script_forms.specs.Ranges.{in_limits};
ghost use Rattle.script_text.specs.Script.{contents};
ghost use Rattle.script_text.specs.Closed.{all_closed};
ghost use Rattle.trace_core.specs.Answers.{Answers, IsBegun};
ghost use Rattle.trace_core.specs.Following.{IsRefused};
ghost use Rattle.trace_core.specs.Parts.{parts};
ghost use Rattle.trace_core.specs.declared.refusal.ReplayRefusal.TheVariants as refusal;
ghost use Rattle.trace_lines.specs.Replay.{replay as told, lines_in, replayed};

use crate::machine::OutlinedMachine;
use crate::refusal::{ReplayRefusal, fault};
use doc_model::Canvas;
use script_lines::next_fields;
use script_text::{MakeRefusal, Script};
use std::alloc::Global;
use std::marker::Model;
use trace_lines::{TraceCause, canvas_line, slots};

/// A trace without a fault.
#[derive(Drop)]
pub struct Replayed {
    script: Script,
}

impl Model for Replayed {
    ghost use Rattle.script_text.specs.Script.{Contents};
    ghost use Rattle.script_text.specs.Closed.{contents_code};

    ghost Value = { Contents };

    ghost coded = { contents_code };

    ghost view = { λ r. r.script };
}

impl Replayed {
    /// The canvas and the commands that were fed.
    pub fn script(&self) -> &Script
        ensures { result.now ≡ self.now }
    {
        &self.script
    }

    /// Gives the canvas and the commands that were fed away.
    pub fn into_script(self) -> Script
        ensures { result ≡ self }
    {
        self.script
    }
}

/// A machine as the first two lines say, its canvas, and what stands behind them.
struct Beginning<'a> {
    machine: OutlinedMachine,
    canvas: Canvas,
    behind: Option<&'a [u8]>,
}

/// The text of the lines: all but the line feed behind the last. None where there is no line.
fn text_of(bytes: &[u8]) -> Option<&[u8]>
    ensures { lines_in bytes.now ≡ lines_behind result }
{
    match bytes {
        [] => None,
        [text @ .., b'\n'] => Some(text),
        _ => Some(bytes),
    }
}

/// The machine of the first two lines.
#[tactic(auto, unfolding(trace_lines::specs::Replay::replayed))]
fn begin(alloc: Global, text: Option<&[u8]>) -> Result<Beginning<'_>, ReplayRefusal>
    ensures ok { IfOk result (λ b. IsBegun (parts b.machine) b.canvas (lines_behind b.behind)
        (lines_behind text.entry)) }
    ensures err { IfErr result (λ e. IsRefused e (replayed (lines_behind text.entry))) }
{
    let mut fields = Vec::new(alloc);
    let Some(text) = text else {
        return Err(fault(1, TraceCause::BadLine));
    };
    let behind = next_fields(text, &mut fields)?;
    let Ok(n) = slots(&fields) else {
        return Err(fault(1, TraceCause::BadLine));
    };
    let Some(text) = behind else {
        return Err(fault(2, TraceCause::BadLine));
    };
    let behind = next_fields(text, &mut fields)?;
    let Ok(canvas) = canvas_line(&fields) else {
        return Err(fault(2, TraceCause::BadLine));
    };
    let machine = OutlinedMachine::new(alloc, &canvas, n)?;
    Ok(Beginning {
        machine,
        canvas,
        behind,
    })
}

/// The script of a machine's commands.
fn script_of(
    alloc: Global,
    canvas: Canvas,
    machine: &OutlinedMachine,
) -> Result<Replayed, ReplayRefusal>
    requires limits { in_limits canvas ≡ true }
    requires lawful { lawful machine.now.intake.fed ≡ true }
    requires closed { all_closed machine.now.intake.fed ≡ true }
    ensures ok { IfOk result (λ r. r ≡ contents canvas machine.now.intake.fed) }
    ensures err { IfErr result (λ e. e ≡ refusal.NoMemory) }
{
    let commands = Vec::from_slice(alloc, machine.intake.commands())?;
    match Script::from_commands(alloc, canvas, commands) {
        Ok(script) => Ok(Replayed { script }),
        Err(MakeRefusal::NoMemory) => Err(ReplayRefusal::NoMemory),
        Err(MakeRefusal::NotScript) => unreachable!(),
    }
}

/// Follows a trace. It is a run of the machine that settles.
///
/// # Errors
/// `Fault`: the first line that is of no form or says what may not happen, or else that something is
/// left to do after the last. `NoMemory`.
pub fn replay(alloc: Global, bytes: &[u8]) -> Result<Replayed, ReplayRefusal>
    requires { length bytes.now < 4294967295 }
    ensures { Answers result (told bytes.now) }
{
    let Beginning {
        mut machine,
        canvas,
        behind,
    } = begin(alloc, text_of(bytes))?;
    let number = machine.follow(alloc, behind)?;
    if !machine.is_settled() {
        return Err(fault(number, TraceCause::Unsettled));
    }
    script_of(alloc, canvas, &machine)
}
