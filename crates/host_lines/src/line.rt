//! What a line of text says.

ghost use Rattle.std.specs.Prelude.{◌≡◌, IfOk};
ghost use Rattle.script_lines.specs.Fronts.{pointed};
ghost use Rattle.host_lines.specs.Lines.{IsGood, first_fields, has_more as more_in, told_by};
ghost use Rattle.host_lines.specs.Said.{line_told, path_told, word_told};

use doc_model::{Command, Track};
use geom_core::NoMemory;
use script_forms::{Word, command_of, is, path, word_of};
use script_lines::{Cause, is_command, next_fields};
use std::alloc::Global;

/// What a line says by itself.
#[derive(Clone, Copy, Debug, PartialEq, Eq)]
pub enum Line {
    /// Nothing: it is empty, or a remark.
    Blank,
    One(Command),
    /// A path, and the number of its stroke.
    Path(u32, Track),
    Wrong(Cause),
}

/// Whether a byte stands behind the first line feed.
pub fn has_more(text: &[u8]) -> bool
    ensures { result ≡ more_in text.now }
{
    let before_last = text.len().saturating_sub(1);
    text[..before_last].iter().any(|b| *b == b'\n')
}

/// What the first line of a text says, behind a canvas.
pub fn line_of(alloc: Global, text: &[u8]) -> Result<Line, NoMemory>
    ensures value { IfOk result (λ l. l ≡ told_by (first_fields text.now)) }
    ensures good { IfOk result IsGood }
{
    let mut fields = Vec::new(alloc);
    let _behind = next_fields(text, &mut fields)?;
    if is_command(&fields) {
        Ok(command_line(&fields))
    } else {
        Ok(Line::Blank)
    }
}

/// What the fields of a command say.
fn command_line(fields: &[&[u8]]) -> Line
    ensures value { result ≡ line_told (pointed fields.now) }
    ensures good { IsGood result }
{
    match fields {
        [] => Line::Blank,
        [word, others @ ..] => {
            if is(word, b"canvas") {
                Line::Wrong(Cause::CanvasAgain)
            } else if is(word, b"path") {
                path_line(others)
            } else {
                word_line(word_of(word), others)
            }
        }
    }
}

/// What a path says, behind its word.
fn path_line(others: &[&[u8]]) -> Line
    ensures value { result ≡ path_told (pointed others.now) }
    ensures good { IsGood result }
{
    match path(others) {
        Ok((no, track)) => Line::Path(no, track),
        Err(cause) => Line::Wrong(cause),
    }
}

/// What another line says, behind its word.
fn word_line(word: Option<Word>, others: &[&[u8]]) -> Line
    ensures value { result ≡ word_told word (pointed others.now) }
    ensures good { IsGood result }
{
    let Some(word) = word else {
        return Line::Wrong(Cause::UnknownWord);
    };
    match command_of(word, others) {
        Ok(command) => Line::One(command),
        Err(cause) => Line::Wrong(cause),
    }
}
