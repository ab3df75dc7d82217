//! The log: one line an entry.

ghost use Rattle.std.specs.Prelude.{◌≡◌, OnOk, OnErr, length};
ghost use Rattle.std.specs.Io.KnownBytes.{Appends};
ghost use Rattle.io_edge.specs.Told.{AppendsPrefix};
ghost use Rattle.io_edge.specs.Faults.{HasCause};
ghost use Rattle.doc_model.specs.Strokes.{entries};
ghost use Rattle.log_out.specs.Log.{line, log_text};
ghost use Rattle.log_out.specs.Phrases.{phrase_text};

use crate::phrase::{Phrase, blank, digits, ending_of, name_of};
use doc_model::Outcome;
use io_edge::{Failed, Sink, write_pieces};
use itoa::Buffer;
use script_text::Script;

/// Writes a line for each entry of the script, in their order: its number, which counts from 1, its
/// name and how it ended. There is one outcome for each entry. It takes no memory.
///
/// # Errors
/// `Failed` only where the sink's count of faults rose. The sink then took the first of the bytes.
pub fn write_log<K: Sink>(script: &Script, outcomes: &[Outcome], out: &mut K) -> Result<(), Failed>
    requires each { length outcomes.now ≡ length (entries script.now.commands) }
    ensures ok { OnOk result (Appends (K.taken out.old) (K.taken out.new)
        (log_text (entries script.now.commands) outcomes.now)) }
    ensures err { OnErr result (AppendsPrefix (K.taken out.old) (K.taken out.new)
        (log_text (entries script.now.commands) outcomes.now)) }
    ensures cause { HasCause (K.faults out.old) (K.faults out.new) result }
{
    let mut done = 0;
    for i in 0..script.len() {
        let Some(name) = name_of(script.command(i)) else {
            continue;
        };
        let ending = ending_of(&outcomes[done]);
        done += 1;
        write_line(done, &name, &ending, out)?;
    }
    Ok(())
}

/// Writes the line of an entry.
fn write_line<K: Sink>(
    number: usize,
    name: &Phrase,
    ending: &Phrase,
    out: &mut K,
) -> Result<(), Failed>
    ensures ok { OnOk result (Appends (K.taken out.old) (K.taken out.new)
        (line number (phrase_text name.now) (phrase_text ending.now))) }
    ensures err { OnErr result (AppendsPrefix (K.taken out.old) (K.taken out.new)
        (line number (phrase_text name.now) (phrase_text ending.now))) }
    ensures cause { HasCause (K.faults out.old) (K.faults out.new) result }
{
    let [mut a, mut b, mut c, mut d, mut e] = [Buffer::new(); 5];
    write_pieces(
        out,
        &[
            a.format(number).as_bytes(),
            b" ",
            name.words,
            digits(&mut b, name.first),
            blank(name.second),
            digits(&mut c, name.second),
            b" ",
            ending.words,
            digits(&mut d, ending.first),
            blank(ending.second),
            digits(&mut e, ending.second),
            b"\n",
        ],
    )
}
