//! What each line of a script says by itself: its word, and the fields behind it.
//!
//! # Decisions
//!
//! - A fill's or a dab's line in its usual spelling is read without a list of fields (`plain_job`): each field
//!   together with the byte that ends it, with branches of its own for each digit, so that the processor
//!   foresees them. Where anything is unusual or wrong there is no answer, and the line is read by its fields,
//!   which give the cause. The quick way is proved to read what the fields say.
//! - Words are matched as byte strings, which a compiler turns into tests of the length and of single bytes.
#![tactic(auto)]

mod forms;
mod jobs;
mod plain;
mod tracks;
mod words;

pub use forms::{canvas, command_of};
pub use plain::plain_job;
pub use tracks::path;
pub use words::{JobWord, Word, edge_of, exclusive_of, is, kind_of, op_of, seen_of, word_of};
