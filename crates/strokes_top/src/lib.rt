//! The command: from words and a source of bytes to a status and what was written.
//!
//! # Decisions
//!
//! - The limit of a script is tested before the bytes of a read are taken, so that no status but `TooLong`
//!   comes after byte 1,048,577. After a bad line the source is still read to its end: a longer script is
//!   `TooLong`, and one whose source fails is a fault of reading, whatever its lines say. Code 7 has one line,
//!   also for a trace, since the text of each status is fixed.
//! - What `--emit` names is a type of its own with `FromStr`: a list of names as clap's value parser holds a
//!   reference, whose address would be part of the command's description. Words that don't go together are one
//!   test of the command's own (`is_fit`), as clap has no rule for single values of an option. A word that
//!   isn't UTF-8 is passed as a replacement character, so that `run` alone decides what `Usage` is.
//! - Each step has an error of its own (`ChoiceError`, `ReadError`, `SourceError`), and a status is made of the
//!   last in one place, so that no step that reads knows an exit code.
//! - Whether a trace is written or what a script shows is decided once (`form_of`): a painting has the one or
//!   the other, and what writes it matches on that.
//! - All memory is taken before the first byte is written, so that want of memory leaves an untouched sink; so
//!   all pictures of a script stand in memory until the last is painted, sharing the tiles that look alike. One
//!   picture has room for 64 rows a thread, several have one whole picture, over which each is laid. A command
//!   that wrote each picture as soon as it is painted could end by code 6 after some of its output.
//! - There is one engine, the desk, for every number of workers: a second painter for one thread was up to a
//!   half faster on some scripts, and each change had to be made and proved twice. A script of more than 64
//!   jobs of under 8,000 points on the average is painted by the caller alone, since a job costs a crew 20 to
//!   50 times what a fill of one point takes.
//! - The clauses have one for each way in which the words may ask for a script to be painted, defined in files
//!   of their own (`Written`, `Together`, `Traces`), so that who paints scripts into pictures reads nothing of
//!   artists and traces. Within the command all four are one statement (`Run`), and the clauses are read off it
//!   at the end (`proofs/Ways`).
//! - What is large stands in no frame of the main thread's stack but its own: the system gives 132 KiB at first
//!   and maps more as it goes, and where memory ends just then it ends the program.
#![tactic(auto)]

mod asked;
mod choice;
mod command;
mod intake;
mod output;
mod painting;
mod size;
mod source;
mod status;
mod telling;
mod transfer;
mod words;
mod writing;

pub use choice::{Choice, Emit, UnknownEmit};
pub use command::run;
pub use status::Status;
pub use telling::report;
pub use words::Words;
