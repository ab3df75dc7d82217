//! Taking the script: what the source spells, as a script or as a trace, or a generated one.

ghost use Rattle.std.specs.Prelude.{◌≡◌, true, false, None, IfOk, IfErr, is_some, length};
ghost use Rattle.strokes_top.specs.Reading.{WasRead, Spells, limit_of};
ghost use Rattle.strokes_top.specs.Traces.{Replays};
ghost use Rattle.strokes_top.specs.Run.{Gives, IsOf};
ghost use Rattle.strokes_top.specs.Sources.{ReadsUpTo, StaysAsItWas, IsNoScript, error_of};

use crate::choice::Choice;
use crate::intake::Intake;
use crate::transfer::{CHUNK, LIMIT, ReadError, TRACE_LIMIT, next_piece, skip_rest};
use demo_gen::script_of;
use geom_core::NoMemory;
use io_edge::Source;
use script_text::{ReadRefusal, Script, ScriptFault};
use std::alloc::{AllocError, Global};
use trace_core::{ReplayRefusal, TraceCause, replay};

/// Why there is no script.
#[derive(Clone, Copy)]
pub(crate) enum SourceError {
    /// The first bad line of the script's text, and its cause.
    Script(ScriptFault),
    /// The trace's first line that is refused, whose number counts from 1, and its cause.
    Trace { line: u32, cause: TraceCause },
    /// The source wasn't read to its end.
    Read(ReadError),
    /// Memory ran out.
    NoMemory,
}

impl From<AllocError> for SourceError {
    ghost use Rattle.strokes_top.specs.declared.source.SourceError.TheVariants as error;

    ghost from_gives = { λ _ e. e ≡ error.NoMemory };

    fn from(_: AllocError) -> SourceError {
        SourceError::NoMemory
    }
}

impl From<NoMemory> for SourceError {
    ghost use Rattle.strokes_top.specs.declared.source.SourceError.TheVariants as error;

    ghost from_gives = { λ _ e. e ≡ error.NoMemory };

    fn from(_: NoMemory) -> SourceError {
        SourceError::NoMemory
    }
}

impl From<ReadError> for SourceError {
    ghost use Rattle.strokes_top.specs.declared.source.SourceError.TheVariants as error;

    ghost from_gives = { λ cause e. e ≡ error.Read cause };

    fn from(error: ReadError) -> SourceError {
        SourceError::Read(error)
    }
}

impl From<ReadRefusal> for SourceError {
    ghost use Rattle.strokes_top.specs.Sources.{of_refusal};

    ghost from_gives = { λ refusal e. e ≡ of_refusal refusal };

    fn from(refusal: ReadRefusal) -> SourceError {
        match refusal {
            ReadRefusal::Fault(fault) => SourceError::Script(fault),
            ReadRefusal::NoMemory => SourceError::NoMemory,
        }
    }
}

impl From<ReplayRefusal> for SourceError {
    ghost use Rattle.strokes_top.specs.Sources.{of_replay};

    ghost from_gives = { λ refusal e. e ≡ of_replay refusal };

    fn from(refusal: ReplayRefusal) -> SourceError {
        match refusal {
            ReplayRefusal::Fault { line, cause } => SourceError::Trace { line, cause },
            ReplayRefusal::NoMemory => SourceError::NoMemory,
        }
    }
}

/// Reads the script that the source spells, while it comes in, by pieces of at most what the chunk has
/// room for. Where a line has a fault the source is still read to its end, since a longer one is no
/// script whatever its lines say.
///
/// # Errors
/// `Script` where the text is no script, `Read` where it wasn't read to its end, and `NoMemory`.
fn read_script<S: Source>(
    alloc: Global,
    source: &mut S,
    chunk: &mut [u8],
) -> Result<Script, SourceError>
    requires { length chunk.old ≡ CHUNK }
    ensures ok { IfOk result (λ s. WasRead (S.left source.old) (S.left source.new)
        (Spells (λ t. t ≡ s))) }
    ensures err { IfErr result (IsNoScript None false (S.left source.old) (S.left source.new)) }
    ensures reads { ReadsUpTo LIMIT (S.left source.old) (S.left source.new)
        (S.faults source.old) (S.faults source.new) (error_of result) }
{
    let mut intake = Intake::new(alloc)?;
    let mut count = 0;
    loop {
        let n = next_piece(source, chunk, count, LIMIT)?;
        if n == 0 {
            let script = intake.finish()?;
            return Ok(script);
        }
        count += n;
        intake = match intake.take(&chunk[..n]) {
            Ok(more) => more,
            Err(ReadRefusal::NoMemory) => return Err(SourceError::NoMemory),
            Err(ReadRefusal::Fault(fault)) => {
                skip_rest(source, chunk, count)?;
                return Err(SourceError::Script(fault));
            }
        };
    }
}

/// Reads the trace that the source spells, by pieces of at most what the chunk has room for, and when all of it
/// is there checks it. The script is that of its commands.
///
/// # Errors
/// `Trace` where a line is refused, `Read` where the source wasn't read to its end, and `NoMemory`.
fn read_trace<S: Source>(
    alloc: Global,
    source: &mut S,
    chunk: &mut [u8],
) -> Result<Script, SourceError>
    requires { length chunk.old ≡ CHUNK }
    ensures ok { IfOk result (λ s. WasRead (S.left source.old) (S.left source.new)
        (Replays (λ t. t ≡ s))) }
    ensures err { IfErr result (IsNoScript None true (S.left source.old) (S.left source.new)) }
    ensures reads { ReadsUpTo TRACE_LIMIT (S.left source.old) (S.left source.new)
        (S.faults source.old) (S.faults source.new) (error_of result) }
{
    let mut bytes = Vec::new(alloc);
    loop {
        let n = next_piece(source, chunk, bytes.len(), TRACE_LIMIT)?;
        if n == 0 {
            let replayed = replay(alloc, &bytes)?;
            return Ok(replayed.into_script());
        }
        bytes.extend_from_slice(&chunk[..n])?;
    }
}

/// The script that the source spells, as a script's text or as a trace. The source is read to its end, by pieces
/// that stand in a block of memory: they are too large for the stack.
///
/// # Errors
/// As of `read_trace` where a trace is read, and else as of `read_script`.
fn read_given<S: Source>(
    alloc: Global,
    replays: bool,
    source: &mut S,
) -> Result<Script, SourceError>
    ensures ok { IfOk result (λ s. WasRead (S.left source.old) (S.left source.new)
        (Gives replays (λ t. t ≡ s))) }
    ensures err { IfErr result (IsNoScript None replays (S.left source.old) (S.left source.new)) }
    ensures reads { ReadsUpTo (limit_of replays) (S.left source.old) (S.left source.new)
        (S.faults source.old) (S.faults source.new) (error_of result) }
{
    let mut chunk = vec![in alloc; 0u8; CHUNK]?;
    if replays {
        read_trace(alloc, source, &mut chunk)
    } else {
        read_script(alloc, source, &mut chunk)
    }
}

/// The generated script of the number that is asked for, or where there is none the script that the source
/// spells, as a script's text or as a trace.
///
/// # Errors
/// As of `read_given`; `NoMemory` alone where the script is generated.
pub(crate) fn take_script<S: Source>(
    alloc: Global,
    choice: &Choice,
    source: &mut S,
) -> Result<Script, SourceError>
    ensures ok { IfOk result (λ s. IsOf (λ t. t ≡ s) choice.now.demo choice.now.replay
        (S.left source.old) (S.left source.new)) }
    ensures err { IfErr result (IsNoScript choice.now.demo choice.now.replay
        (S.left source.old) (S.left source.new)) }
    ensures reads { ReadsUpTo (limit_of choice.now.replay) (S.left source.old) (S.left source.new)
        (S.faults source.old) (S.faults source.new) (error_of result) }
    ensures demo { is_some choice.now.demo ≡ true →
        StaysAsItWas (S.left source.old) (S.left source.new)
        (S.faults source.old) (S.faults source.new) }
{
    match choice.demo {
        Some(number) => {
            let script = script_of(alloc, number)?;
            Ok(script)
        }
        None => read_given(alloc, choice.replay, source),
    }
}
