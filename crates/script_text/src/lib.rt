//! Scripts as text: read line by line, and printed in their canonical form.
//!
//! # Decisions
//!
//! - A script is read while it comes in (`Reader`): of the text only the unfinished line is kept, since a fresh
//!   page of memory costs more than to read the lines on it. What a reader promises speaks of lists of lines,
//!   so pieces are joined by one fact: the lines of two texts with a line feed between them are those of both.
//! - A line changes the reading in place. `Draft::add` makes room for the command before it changes its table
//!   of strokes, so that the table tells of the commands also where memory runs out in between. A job, an end
//!   or a cancel is one look-up of its stroke.
//! - Room for the commands of the longest text is taken at once, one in 32 bytes of it: memory that isn't
//!   written to yet costs next to nothing, and the list doesn't move while it grows.
//! - A path line is no command word: it stands for commands of other words, as `canvas` stands for none.
#![tactic(auto)]

mod draft;
mod laws;
mod making;
mod pieces;
mod printing;
mod reading;
mod script;

pub use laws::printed_reads_back;
pub use pieces::{Reader, read};
pub use printing::{add_area, add_canvas, add_command, add_field, add_number, add_signed, print};
pub use script::{MakeRefusal, ReadRefusal, Script, ScriptFault};
pub use script_lines::Cause;
