//! Which lines there are, and what stands in their fields.

ghost use Rattle.std.specs.Prelude.{◌≡◌};
ghost use Rattle.script_fields.specs.Fields.{form_of as said_form};
ghost use Rattle.script_fields.specs.Sorts.{sorts, command_sorts};

use crate::sort::{COORDINATE, Sort};
use script_forms::{JobWord, Word, is, word_of};

/// The lines that begin with a word.
#[derive(Clone, Copy)]
pub(crate) enum Form {
    Canvas,
    Path,
    Command(Word),
}

/// The lines that begin with this word. None where no line does.
pub(crate) fn form_of(word: &[u8]) -> Option<Form>
    ensures { result ≡ said_form word.now }
{
    if is(word, b"canvas") {
        return Some(Form::Canvas);
    }
    if is(word, b"path") {
        return Some(Form::Path);
    }
    match word_of(word) {
        Some(word) => Some(Form::Command(word)),
        None => None,
    }
}

/// A stroke's number.
const STROKE: Sort = Sort::Natural {
    low: 0,
    high: 4294967295,
};

/// What stands in the fields of a line, behind its word. Behind the last of these stand coordinates.
pub(crate) fn sorts(form: Form) -> &'static [Sort]
    ensures { result.now ≡ sorts form }
{
    match form {
        Form::Canvas => &[
            Sort::Natural { low: 1, high: 2048 },
            Sort::Natural { low: 1, high: 2048 },
            Sort::Rgb,
        ],
        Form::Path => &[
            STROKE,
            Sort::Natural { low: 0, high: 128 },
            Sort::Edge,
            Sort::Rgba,
            Sort::Op,
            Sort::Natural { low: 0, high: 255 },
            Sort::Natural { low: 1, high: 255 },
        ],
        Form::Command(word) => command_sorts(word),
    }
}

/// The same of a command's line.
fn command_sorts(word: Word) -> &'static [Sort]
    ensures { result.now ≡ command_sorts word }
{
    match word {
        Word::Layer => &[
            Sort::Natural {
                low: 1,
                high: 65535,
            },
            Sort::Natural {
                low: 0,
                high: 65535,
            },
            Sort::Natural { low: 0, high: 255 },
            Sort::Rgba,
        ],
        Word::Group | Word::Place => &[
            Sort::Natural {
                low: 1,
                high: 65535,
            },
            Sort::Natural {
                low: 0,
                high: 65535,
            },
            Sort::Natural { low: 0, high: 255 },
        ],
        Word::Remove => &[Sort::Natural {
            low: 1,
            high: 65535,
        }],
        Word::Look => &[
            Sort::Natural {
                low: 1,
                high: 65535,
            },
            Sort::Natural { low: 0, high: 255 },
            Sort::Op,
            Sort::Seen,
        ],
        Word::Stroke => &[
            STROKE,
            Sort::Natural {
                low: 1,
                high: 65535,
            },
            Sort::Exclusive,
        ],
        Word::Paint(work) => job_sorts(work),
        Word::End | Word::Cancel | Word::Purge => &[STROKE],
        Word::Undo | Word::Redo | Word::Export => &[],
    }
}

/// The same of a line that adds a job.
fn job_sorts(work: JobWord) -> &'static [Sort]
    ensures { result.now ≡ command_sorts (Word.Paint work) }
{
    match work {
        JobWord::Fill => &[
            STROKE,
            Sort::Kind,
            COORDINATE,
            COORDINATE,
            Sort::Natural { low: 1, high: 4096 },
            Sort::Natural { low: 1, high: 4096 },
            Sort::Rgba,
            Sort::Op,
            Sort::Natural { low: 0, high: 255 },
        ],
        JobWord::Dab => &[
            STROKE,
            Sort::Kind,
            COORDINATE,
            COORDINATE,
            Sort::Natural { low: 0, high: 128 },
            Sort::Edge,
            Sort::Rgba,
            Sort::Op,
            Sort::Natural { low: 0, high: 255 },
        ],
        JobWord::Move => &[
            STROKE,
            Sort::Kind,
            COORDINATE,
            COORDINATE,
            Sort::Natural { low: 1, high: 4096 },
            Sort::Natural { low: 1, high: 4096 },
            Sort::Signed {
                low: -32767,
                high: 32767,
            },
            Sort::Signed {
                low: -32767,
                high: 32767,
            },
        ],
        JobWord::Blur => &[
            STROKE,
            Sort::Kind,
            COORDINATE,
            COORDINATE,
            Sort::Natural { low: 1, high: 4096 },
            Sort::Natural { low: 1, high: 4096 },
            Sort::Natural { low: 1, high: 16 },
        ],
        JobWord::Track => &[
            STROKE,
            Sort::Kind,
            Sort::Signed {
                low: -256,
                high: 255,
            },
            Sort::Signed {
                low: -256,
                high: 255,
            },
            Sort::Natural { low: 0, high: 128 },
            Sort::Edge,
            Sort::Rgba,
            Sort::Op,
            Sort::Natural { low: 0, high: 255 },
            Sort::Natural { low: 1, high: 255 },
        ],
    }
}
