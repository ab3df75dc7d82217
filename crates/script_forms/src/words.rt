//! The words of scripts.

ghost use Rattle.std.specs.Prelude.{◌≡◌};
ghost use Rattle.std.specs.Str.{bytes_eq};
ghost use Rattle.script_forms.specs.Jobs.{kind_of as said_kind, op_of as said_op, edge_of as said_edge};
ghost use Rattle.script_forms.specs.Forms.{word_of as said_word, seen_of as said_seen, exclusive_of as said_exclusive};

use doc_model::Kind;
use pixel_core::Op;
use script_lines::Cause;

/// The word of a job, which says what it does.
#[derive(Clone, Copy, Debug, PartialEq, Eq)]
pub enum JobWord {
    Fill,
    Dab,
    Move,
    Blur,
    Track,
}

/// The first word of a command other than the canvas.
#[derive(Clone, Copy, Debug, PartialEq, Eq)]
pub enum Word {
    Layer,
    Group,
    Remove,
    Place,
    Look,
    Stroke,
    Paint(JobWord),
    End,
    Cancel,
    Undo,
    Redo,
    Purge,
    Export,
}

/// Whether the field is that word.
pub fn is(field: &[u8], word: &[u8]) -> bool
    ensures { result ≡ bytes_eq field.now word.now }
{
    field == word
}

#[tactic(auto, unfolding(crate::specs::Forms::word_of))]
pub fn word_of(field: &[u8]) -> Option<Word>
    ensures { result ≡ said_word field.now }
{
    match field {
        b"fill" => Some(Word::Paint(JobWord::Fill)),
        b"dab" => Some(Word::Paint(JobWord::Dab)),
        b"move" => Some(Word::Paint(JobWord::Move)),
        b"blur" => Some(Word::Paint(JobWord::Blur)),
        b"track" => Some(Word::Paint(JobWord::Track)),
        b"layer" => Some(Word::Layer),
        b"group" => Some(Word::Group),
        b"remove" => Some(Word::Remove),
        b"place" => Some(Word::Place),
        b"look" => Some(Word::Look),
        b"stroke" => Some(Word::Stroke),
        b"end" => Some(Word::End),
        b"cancel" => Some(Word::Cancel),
        b"undo" => Some(Word::Undo),
        b"redo" => Some(Word::Redo),
        b"purge" => Some(Word::Purge),
        b"export" => Some(Word::Export),
        _ => None,
    }
}

#[tactic(auto, unfolding(crate::specs::Jobs::kind_of))]
pub fn kind_of(field: &[u8]) -> Result<Kind, Cause>
    ensures { result ≡ said_kind field.now }
{
    match field {
        b"con" => Ok(Kind::Con),
        b"seq" => Ok(Kind::Seq),
        b"bar" => Ok(Kind::Bar),
        b"uni" => Ok(Kind::Uni),
        _ => Err(Cause::UnknownWord),
    }
}

#[tactic(auto, unfolding(crate::specs::Jobs::op_of))]
pub fn op_of(field: &[u8]) -> Result<Op, Cause>
    ensures { result ≡ said_op field.now }
{
    match field {
        b"over" => Ok(Op::Over),
        b"erase" => Ok(Op::Erase),
        b"multiply" => Ok(Op::Multiply),
        b"screen" => Ok(Op::Screen),
        b"addition" => Ok(Op::Addition),
        _ => Err(Cause::UnknownWord),
    }
}

/// Whether the edge is soft.
#[tactic(auto, unfolding(crate::specs::Jobs::edge_of))]
pub fn edge_of(field: &[u8]) -> Result<bool, Cause>
    ensures { result ≡ said_edge field.now }
{
    match field {
        b"hard" => Ok(false),
        b"soft" => Ok(true),
        _ => Err(Cause::UnknownWord),
    }
}

/// Whether the node is seen.
#[tactic(auto, unfolding(crate::specs::Forms::seen_of))]
pub fn seen_of(field: &[u8]) -> Result<bool, Cause>
    ensures { result ≡ said_seen field.now }
{
    match field {
        b"on" => Ok(true),
        b"off" => Ok(false),
        _ => Err(Cause::UnknownWord),
    }
}

/// Reads the mark of an exclusive stroke.
#[tactic(auto, unfolding(crate::specs::Forms::exclusive_of))]
pub fn exclusive_of(field: &[u8]) -> Result<bool, Cause>
    ensures { result ≡ said_exclusive field.now }
{
    match field {
        b"exclusive" => Ok(true),
        _ => Err(Cause::UnknownWord),
    }
}
