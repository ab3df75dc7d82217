//! One run of the command.

ghost use Rattle.std.specs.Prelude.{◌≡◌, ◌≢◌, ◌≤◌, ◌⊎◌, ℕ, None, true, false, is_some, IfSome};
ghost use Rattle.std.specs.Io.KnownBytes.{Keeps, Appends};
ghost use Rattle.io_edge.specs.Told.{AppendsPrefix, Rose};
ghost use Rattle.script_lines.specs.declared.cause.Cause.{Cause};
ghost use Rattle.strokes_top.specs.Choice.{choice};
ghost use Rattle.trace_lines.specs.declared.line.TraceCause.{TraceCause};
ghost use Rattle.strokes_top.specs.Reading.{IsFaulty, asks_for_demo, limit_for, ConsumesMore, ConsumesAtMost, IsGivenScript};
ghost use Rattle.strokes_top.specs.Written.{IsPainted};
ghost use Rattle.strokes_top.specs.Together.{IsPaintedTogether};
ghost use Rattle.strokes_top.specs.Traces.{IsTraced, IsReplayed, IsFaultyTrace, IsGivenTrace};
ghost use Rattle.strokes_top.specs.Status.{is_done, may_write, told_by};
ghost use Rattle.strokes_top.specs.Sources.{ReadsUpTo, StaysAsItWas};
ghost use Rattle.strokes_top.specs.Ends.{Ends, Paints, read_end};
ghost use Rattle.doc_model.specs.Meaning.{some_refused as said_refused};

use crate::asked::Asked;
use crate::choice::{ChoiceError, choice_of};
use crate::painting::painted;
use crate::source::take_script;
use crate::status::Status;
use crate::telling::report;
use crate::transfer::CHUNK;
use crate::words::Words;
use crate::writing::{room_for, write_painting};
use doc_model::Outcome;
use io_edge::{Failed, Gate, Sink, Source};
use script_text::Script;
use std::alloc::Global;
use std::sync::Wait;
use std::thread::Threads;

/// Whether some entry was refused.
fn some_refused(outcomes: &[Outcome]) -> bool
    ensures { result ≡ said_refused outcomes.now }
{
    outcomes.iter().any(|o| o.refused())
}

/// Paints the script, and then writes what is asked for. All memory is taken before the first byte
/// is written.
fn paint<R: Threads + Wait + Sync, K: Sink, G: Gate>(
    rt: &R,
    alloc: Global,
    asked: &Asked,
    script: Script,
    out: &mut K,
    gate: &G,
) -> Status
    ensures paints { Paints result (K.taken out.old) (K.taken out.new) asked.now.choice script }
    ensures write_fault { result ≡ Status.WriteFault →
        Rose (K.faults out.old) (K.faults out.new) }
    ensures later { K.faults out.old ≤ K.faults out.new }
{
    let Ok(painting) = painted(rt, alloc, asked, script, gate) else {
        return Status::NoMemory;
    };
    let threads = asked.choice.workers.saturating_add(1);
    let Ok(mut room) = room_for(alloc, &painting, threads) else {
        return Status::NoMemory;
    };
    let refused = some_refused(&painting.outcomes);
    match write_painting(rt, threads, &painting, &mut room, out) {
        Ok(()) if refused => Status::DoneWithRefusals,
        Ok(()) => Status::Done,
        Err(Failed) => Status::WriteFault,
    }
}

/// Reads the words and the script, paints it, and writes what is asked for.
fn answer<R: Threads + Wait + Sync, S: Source, K: Sink, G: Gate>(
    rt: &R,
    alloc: Global,
    words: &Words,
    source: &mut S,
    out: &mut K,
    gate: &G,
) -> Status
    // What was read, and what was written of it.
    ensures ends { Ends result words.now (S.left source.old) (S.left source.new)
        (K.taken out.old) (K.taken out.new) }
    ensures nothing { may_write result ≡ false → Keeps (K.taken out.old) (K.taken out.new) }

    // How far the source was read.
    ensures reads { ReadsUpTo (limit_for words.now) (S.left source.old) (S.left source.new)
        (S.faults source.old) (S.faults source.new) (read_end result) }
    ensures unread { (result ≡ Status.Usage) ⊎ (asks_for_demo words.now ≡ true) →
        StaysAsItWas (S.left source.old) (S.left source.new)
        (S.faults source.old) (S.faults source.new) }

    // Which faults the sink has.
    ensures write_fault { result ≡ Status.WriteFault →
        Rose (K.faults out.old) (K.faults out.new) }
    ensures later { K.faults out.old ≤ K.faults out.new }
{
    let asked = match choice_of(alloc, words) {
        Ok(asked) => asked,
        Err(ChoiceError::Usage) => return Status::Usage,
        Err(ChoiceError::NoMemory) => return Status::NoMemory,
    };
    match take_script(alloc, &asked.choice, source) {
        Ok(script) => paint(rt, alloc, &asked, script, out, gate),
        Err(error) => Status::from(error),
    }
}

/// Runs the command: `words` are the command line's without the program's name. The script comes
/// from `source`, or is the generated one where `--demo` is given; with `--replay` the source has a trace,
/// which is checked, and the script is that of its commands. It is painted by the caller and as many workers
/// as `--workers` names, and what `--emit` names goes to `out`: a pixmap for each export, a line for each
/// entry, a summary, a pixmap of the document that the script makes, or a trace of the script with a slot for
/// the caller and one for each worker. With `--artists` so many artists draw the script side by side, what
/// came of it goes to `out` as a script, and then what `--emit` names of that. One line on what went wrong
/// goes to `err`, whose faults change no status.
pub fn run<R: Threads + Wait + Sync, S: Source, K: Sink, E: Sink, G: Gate>(
    rt: &R,
    alloc: Global,
    words: &Words,
    source: &mut S,
    out: &mut K,
    err: &mut E,
    gate: &G,
) -> Status
    // What was read, and what was written of it at codes 0, 1 and 5: without artists and traces, by artists, as
    // a trace, and of a trace. Where the source doesn't tell what it has left, that is so of some bytes.
    ensures painted { may_write result ≡ true → IfSome (choice words.now)
        (IsPainted result (S.left source.old) (S.left source.new) (K.taken out.old)
        (K.taken out.new)) }
    ensures drawn { may_write result ≡ true → IfSome (choice words.now)
        (IsPaintedTogether result (S.left source.old) (S.left source.new) (K.taken out.old)
        (K.taken out.new)) }
    ensures traced { may_write result ≡ true → IfSome (choice words.now)
        (IsTraced result (S.left source.old) (S.left source.new) (K.taken out.old)
        (K.taken out.new)) }
    ensures replayed { may_write result ≡ true → IfSome (choice words.now)
        (IsReplayed result (S.left source.old) (S.left source.new) (K.taken out.old)
        (K.taken out.new)) }

    // When there is an output: where nothing fails an input without fault has one, if memory suffices.
    ensures complete { IsGivenScript words.now (S.left source.old) →
        ¬ Rose (S.faults source.old) (S.faults source.new) → ¬ Rose (K.faults out.old)
        (K.faults out.new) →
        (is_done result ≡ true) ⊎ (result ≡ Status.NoMemory) }
    ensures complete_trace { IsGivenTrace words.now (S.left source.old) →
        ¬ Rose (S.faults source.old) (S.faults source.new) → ¬ Rose (K.faults out.old)
        (K.faults out.new) →
        (is_done result ≡ true) ⊎ (result ≡ Status.NoMemory) }

    // When each other status comes.
    ensures usage { result ≡ Status.Usage → choice words.now ≡ None }
    ensures taken_words { result ≢ Status.Usage → result ≢ Status.NoMemory →
        is_some (choice words.now) ≡ true }
    ensures script { (line : ℕ) (cause : Cause) → result ≡ Status.Script line cause →
        IsFaulty (record { line = line; cause = cause }) words.now (S.left source.old)
        (S.left source.new) }
    ensures trace { (line : ℕ) (cause : TraceCause) → result ≡ Status.Trace line cause →
        IsFaultyTrace (record { line = line; cause = cause }) words.now (S.left source.old)
        (S.left source.new) }
    ensures too_long_reads { result ≡ Status.TooLong → asks_for_demo words.now ≡ false }
    ensures too_long { result ≡ Status.TooLong →
        ConsumesMore (limit_for words.now) CHUNK (S.left source.old) (S.left source.new) }
    ensures within_limit { result ≢ Status.TooLong →
        ConsumesAtMost (limit_for words.now) (S.left source.old) (S.left source.new) }
    ensures read_fault_reads { result ≡ Status.ReadFault → asks_for_demo words.now ≡ false }
    ensures read_fault { result ≡ Status.ReadFault →
        Rose (S.faults source.old) (S.faults source.new) }
    ensures write_fault { result ≡ Status.WriteFault →
        Rose (K.faults out.old) (K.faults out.new) }

    // When the source stays as it was.
    ensures usage_reads_nothing { result ≡ Status.Usage →
        (S.left source.new ≡ S.left source.old) × (S.faults source.new ≡ S.faults source.old) }
    ensures demo_reads_nothing { asks_for_demo words.now ≡ true →
        (S.left source.new ≡ S.left source.old) × (S.faults source.new ≡ S.faults source.old) }

    // What the sinks took otherwise.
    ensures nothing { may_write result ≡ false → Keeps (K.taken out.old) (K.taken out.new) }
    ensures quiet { is_done result ≡ true → Keeps (E.taken err.old) (E.taken err.new) }
    ensures told { is_done result ≡ false →
        AppendsPrefix (E.taken err.old) (E.taken err.new) (told_by result) }
    ensures told_whole { is_done result ≡ false → ¬ Rose (E.faults err.old) (E.faults err.new) →
        Appends (E.taken err.old) (E.taken err.new) (told_by result) }

    // No count of faults falls.
    ensures source_count { S.faults source.old ≤ S.faults source.new }
    ensures out_count { K.faults out.old ≤ K.faults out.new }
    ensures err_count { E.faults err.old ≤ E.faults err.new }
{
    let status = answer(rt, alloc, words, source, out, gate);
    report(alloc, err, status)
}
