//! The summary: how the entries ended, and a line a frame.

ghost use Rattle.std.specs.Prelude.{◌≡◌, ◌*◌, ◌≤◌, Bool, OnOk, OnErr, length, map};
ghost use Rattle.std.specs.List.{count_by, sum};
ghost use Rattle.std.specs.Io.KnownBytes.{Appends};
ghost use Rattle.io_edge.specs.Told.{AppendsPrefix};
ghost use Rattle.io_edge.specs.Faults.{HasCause};
ghost use Rattle.doc_model.specs.Meaning.{refused};
ghost use Rattle.frame_core.specs.Scenes.{colours_of};
ghost use Rattle.log_out.specs.Summary.{sheet_of, colour_sum as sum_of};
ghost use Rattle.log_out.specs.Log.{done, cancelled, counts, frame_line, sum_text};

use doc_model::Outcome;
use frame_core::Frame;
use io_edge::{Failed, Sink, write_pieces};
use itoa::Buffer;

/// The bytes of a row of the most columns, three a column.
const ROW: usize = 3 * 2048;

/// Writes how many entries there were and how many of them were done, cancelled and refused, and then
/// a line for each frame: its number, which counts from 1, its columns and rows, and the sum of its
/// colour bytes. It takes no memory.
///
/// # Errors
/// `Failed` only where the sink's count of faults rose. The sink then took the first of the bytes.
pub fn write_sum<K: Sink>(frames: &[Frame], outcomes: &[Outcome], out: &mut K) -> Result<(), Failed>
    ensures ok { OnOk result (Appends (K.taken out.old) (K.taken out.new)
        (sum_text (map sheet_of frames.now) outcomes.now)) }
    ensures err { OnErr result (AppendsPrefix (K.taken out.old) (K.taken out.new)
        (sum_text (map sheet_of frames.now) outcomes.now)) }
    ensures cause { HasCause (K.faults out.old) (K.faults out.new) result }
{
    write_counts(outcomes, out)?;
    for i in 0..frames.len() {
        write_frame_line(i + 1, &frames[i], out)?;
    }
    Ok(())
}

/// Writes the line on the entries.
fn write_counts<K: Sink>(outcomes: &[Outcome], out: &mut K) -> Result<(), Failed>
    ensures ok { OnOk result (Appends (K.taken out.old) (K.taken out.new) (counts outcomes.now)) }
    ensures err { OnErr result (AppendsPrefix (K.taken out.old) (K.taken out.new)
        (counts outcomes.now)) }
    ensures cause { HasCause (K.faults out.old) (K.faults out.new) result }
{
    let [mut a, mut b, mut c, mut d] = [Buffer::new(); 4];
    write_pieces(
        out,
        &[
            b"entries ",
            a.format(outcomes.len()).as_bytes(),
            b" done ",
            b.format(count_done(outcomes)).as_bytes(),
            b" cancelled ",
            c.format(count_cancelled(outcomes)).as_bytes(),
            b" refused ",
            d.format(count_refused(outcomes)).as_bytes(),
            b"\n",
        ],
    )
}

/// How many entries took effect.
fn count_done(outcomes: &[Outcome]) -> usize
    ensures { result ≡ count_by done outcomes.now }
{
    outcomes.iter().filter(|o| is_done(o)).count()
}

/// How many entries were cancelled.
fn count_cancelled(outcomes: &[Outcome]) -> usize
    ensures { result ≡ count_by cancelled outcomes.now }
{
    outcomes.iter().filter(|o| is_cancelled(o)).count()
}

/// How many entries were refused.
fn count_refused(outcomes: &[Outcome]) -> usize
    ensures { result ≡ count_by refused outcomes.now }
{
    outcomes.iter().filter(|o| o.refused()).count()
}

/// Whether an entry took effect.
fn is_done(outcome: &Outcome) -> bool
    ensures { result ≡ done outcome.now }
{
    matches!(outcome, Outcome::Done)
}

/// Whether an entry was cancelled.
fn is_cancelled(outcome: &Outcome) -> bool
    ensures { result ≡ cancelled outcome.now }
{
    matches!(outcome, Outcome::Cancelled)
}

/// Writes the line of a frame.
fn write_frame_line<K: Sink>(number: usize, frame: &Frame, out: &mut K) -> Result<(), Failed>
    ensures ok { OnOk result (Appends (K.taken out.old) (K.taken out.new)
        (frame_line number (sheet_of frame.now))) }
    ensures err { OnErr result (AppendsPrefix (K.taken out.old) (K.taken out.new)
        (frame_line number (sheet_of frame.now))) }
    ensures cause { HasCause (K.faults out.old) (K.faults out.new) result }
{
    let [mut a, mut b, mut c, mut d] = [Buffer::new(); 4];
    write_pieces(
        out,
        &[
            b"frame ",
            a.format(number).as_bytes(),
            b" ",
            b.format(frame.width()).as_bytes(),
            b" ",
            c.format(frame.height()).as_bytes(),
            b" ",
            d.format(colour_sum(frame)).as_bytes(),
            b"\n",
        ],
    )
}

/// The sum of a frame's colour bytes.
fn colour_sum(frame: &Frame) -> u64
    ensures { result ≡ sum_of (colours_of frame.now) }
{
    let mut row = [0u8; ROW];
    let w = frame.width();
    let mut total = 0;
    for y in 0..frame.height() {
        frame.row_into(y, &mut row);
        total += byte_sum(&row[..3 * w as usize]);
    }
    total
}

/// The sum of the bytes of a row.
fn byte_sum(bytes: &[u8]) -> u64
    requires { length bytes.now ≤ ROW }
    ensures value { result ≡ sum bytes.now }
    ensures bound { result ≤ 255 * ROW }
{
    let mut total = 0;
    for byte in bytes {
        total += u64::from(*byte);
    }
    total
}
