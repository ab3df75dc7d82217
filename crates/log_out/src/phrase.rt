//! Words with numbers behind them, as lines of the log have them.

ghost use Rattle.std.specs.Prelude.{◌≡◌, ◌++◌, decimal};
ghost use Rattle.std.specs.Option.{option_map};
ghost use Rattle.log_out.specs.Log.{change_word, fault_text, outcome_text};
ghost use Rattle.log_out.specs.Phrases.{blank as blank_before, digits as digits_of, name_of as entry_name_of, phrase_text};

use doc_model::{Change, Command, Outcome, TreeFault};
use itoa::Buffer;

/// Words, and up to two numbers behind them.
#[derive(Clone, Copy)]
pub struct Phrase {
    /// What stands first.
    pub words: &'static [u8],
    /// The number right behind the words.
    pub first: Option<u32>,
    /// The number behind a blank.
    pub second: Option<u32>,
}

/// A phrase without a number.
fn words(words: &'static [u8]) -> Phrase
    ensures { phrase_text result ≡ words.now }
{
    Phrase {
        words,
        first: None,
        second: None,
    }
}

/// A phrase with one number.
fn numbered(words: &'static [u8], number: u32) -> Phrase
    ensures { phrase_text result ≡ words.now ++ decimal number }
{
    Phrase {
        words,
        first: Some(number),
        second: None,
    }
}

/// The digits of a number, if there is one.
pub fn digits<'a>(buffer: &'a mut Buffer, number: Option<u32>) -> &'a [u8]
    ensures { result.now ≡ digits_of number }
{
    match number {
        Some(number) => buffer.format(number).as_bytes(),
        None => b"",
    }
}

/// The blank before a number, if there is one.
pub fn blank(number: Option<u32>) -> &'static [u8]
    ensures { result.now ≡ blank_before number }
{
    match number {
        Some(_) => b" ",
        None => b"",
    }
}

/// The word of a change's command.
fn change_phrase(change: &Change) -> Phrase
    ensures { phrase_text result ≡ change_word change.now }
{
    match change {
        Change::Layer { .. } => words(b"layer"),
        Change::Group { .. } => words(b"group"),
        Change::Remove { .. } => words(b"remove"),
        Change::Place { .. } => words(b"place"),
        Change::Look { .. } => words(b"look"),
    }
}

/// The name of the entry that a command makes, if it makes one.
pub fn name_of(command: &Command) -> Option<Phrase>
    ensures { option_map phrase_text result ≡ entry_name_of command.now }
{
    match command {
        Command::Change(change) => Some(change_phrase(change)),
        Command::Stroke { no, .. } => Some(numbered(b"stroke ", *no)),
        Command::Undo => Some(words(b"undo")),
        Command::Redo => Some(words(b"redo")),
        Command::Purge { .. } => Some(words(b"purge")),
        Command::Export => Some(words(b"export")),
        Command::Add { .. } | Command::End { .. } | Command::Cancel { .. } => None,
    }
}

/// Why a change of the tree was refused.
fn fault_phrase(fault: &TreeFault) -> Phrase
    ensures { phrase_text result ≡ fault_text fault.now }
{
    match *fault {
        TreeFault::Taken(id) => numbered(b"id taken ", u32::from(id)),
        TreeFault::NoNode(id) => numbered(b"no node ", u32::from(id)),
        TreeFault::NotGroup(id) => numbered(b"not a group ", u32::from(id)),
        TreeFault::IntoItself(id) => numbered(b"into itself ", u32::from(id)),
        TreeFault::TreeFull(_) => words(b"tree full"),
        TreeFault::TooDeep(_) => words(b"too deep"),
        TreeFault::BadPlace(place) => numbered(b"bad place ", u32::from(place)),
    }
}

/// How an entry ended.
pub fn ending_of(outcome: &Outcome) -> Phrase
    ensures { phrase_text result ≡ outcome_text outcome.now }
{
    match outcome {
        Outcome::Done => words(b"done"),
        Outcome::Cancelled => words(b"cancelled"),
        Outcome::Overlap { first, second } => Phrase {
            words: b"overlap ",
            first: Some(*first),
            second: Some(*second),
        },
        Outcome::NoLayer(id) => numbered(b"no layer ", u32::from(*id)),
        Outcome::NotPaint(id) => numbered(b"not a paint layer ", u32::from(*id)),
        Outcome::Tree(fault) => fault_phrase(fault),
        Outcome::NothingToUndo => words(b"nothing to undo"),
        Outcome::NothingToRedo => words(b"nothing to redo"),
    }
}
