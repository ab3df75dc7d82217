//! Which field of a line an error is about.
//!
//! # Decisions
//!
//! - A line is read once more for that, and only when it is bad: reading keeps no numbers of fields, so that good
//!   lines cost nothing more.
//! - What stands in the fields of a line is told by its word alone (`sorts`), since a shorter form of a line is
//!   the front of the longer one. A law ties this table to the reading of lines: reading fails for the fault of
//!   the first field that isn't of its sort, or for a cause of the whole line.
#![tactic(auto)]

mod about;
mod form;
pub mod laws;
mod sort;

pub use about::field_of;
