//! What a run tells of itself.

ghost use Rattle.std.specs.Prelude.{◌≡◌, ◌≤◌, ◌⊎◌, true, false, IfOk, string_bytes};
ghost use Rattle.std.specs.Io.KnownBytes.{Keeps, Appends};
ghost use Rattle.io_edge.specs.Told.{AppendsPrefix, Rose};
ghost use Rattle.strokes_top.specs.Status.{is_done, told_by, trace_cause};
ghost use Rattle.strokes_top.specs.Ends.{is_script};

use crate::status::Status;
use io_edge::{Sink, write_all};
use script_text::Cause;
use std::alloc::{AllocError, Global};
use trace_core::TraceCause;

/// The line of a script's fault.
fn script_line(alloc: Global, line: u32, cause: Cause) -> Result<String, AllocError>
    ensures { IfOk result (λ s. string_bytes s ≡ told_by (Status.Script line cause)) }
{
    let cause = cause.text();
    let text = format!(in alloc; "strokes: line {line}: {cause}\n")?;
    Ok(text)
}

/// What is wrong with a line of a trace.
fn text_of(cause: TraceCause) -> &'static str
    ensures { result.now ≡ trace_cause cause }
{
    match cause {
        TraceCause::BadLine => "bad line",
        TraceCause::NotEnabled => "not enabled",
        TraceCause::Unsettled => "unsettled",
    }
}

/// The line of a trace's fault.
fn trace_line(alloc: Global, line: u32, cause: TraceCause) -> Result<String, AllocError>
    ensures { IfOk result (λ s. string_bytes s ≡ told_by (Status.Trace line cause)) }
{
    let cause = text_of(cause);
    let text = format!(in alloc; "strokes: trace line {line}: {cause}\n")?;
    Ok(text)
}

/// Writes a line as far as the sink takes it.
fn tell<E: Sink>(err: &mut E, line: &[u8])
    ensures prefix { AppendsPrefix (E.taken err.old) (E.taken err.new) line.now }
    ensures whole { ¬ Rose (E.faults err.old) (E.faults err.new) →
        Appends (E.taken err.old) (E.taken err.new) line.now }
    ensures later { E.faults err.old ≤ E.faults err.new }
{
    let _ = write_all(err, line);
}

/// Tells a status on the error sink, in one line, and gives it back. One that has an output is told
/// by no line. Where the line of a bad script or trace finds no memory, that is told, and is the status.
pub fn report<E: Sink>(alloc: Global, err: &mut E, status: Status) -> Status
    ensures same { (result ≡ status) ⊎ (result ≡ Status.NoMemory) }
    ensures others { is_script status ≡ false → result ≡ status }
    ensures quiet { is_done result ≡ true → Keeps (E.taken err.old) (E.taken err.new) }
    ensures prefix { is_done result ≡ false →
        AppendsPrefix (E.taken err.old) (E.taken err.new) (told_by result) }
    ensures whole { is_done result ≡ false → ¬ Rose (E.faults err.old) (E.faults err.new) →
        Appends (E.taken err.old) (E.taken err.new) (told_by result) }
    ensures later { E.faults err.old ≤ E.faults err.new }
{
    match status {
        Status::Done | Status::DoneWithRefusals => {}
        Status::Usage => tell(
            err,
            b"strokes: usage: strokes [--workers N] [--emit picture|log|sum|trace|live] [--demo NUMBER] [--replay] [--artists N]\n",
        ),
        Status::Script { line, cause } => {
            let Ok(text) = script_line(alloc, line, cause) else {
                tell(err, b"strokes: out of memory\n");
                return Status::NoMemory;
            };
            tell(err, text.as_bytes());
        }
        Status::Trace { line, cause } => {
            let Ok(text) = trace_line(alloc, line, cause) else {
                tell(err, b"strokes: out of memory\n");
                return Status::NoMemory;
            };
            tell(err, text.as_bytes());
        }
        Status::ReadFault => tell(err, b"strokes: reading failed\n"),
        Status::WriteFault => tell(err, b"strokes: writing failed\n"),
        Status::NoMemory => tell(err, b"strokes: out of memory\n"),
        Status::TooLong => tell(err, b"strokes: script is longer than 1048576 bytes\n"),
    }
    status
}
