//! What a program reads from, writes to and tells of its work. Each source and sink counts its faults.
//!
//! # Decisions
//!
//! - Content that a source or sink tells stays told; where it tells none, no clause claims anything of bytes.
//! - A count of faults stays at 2^64 - 1, so 'it rose' means greater than before, or at that last value.
//! - `MemSource` and `MemSink` are seen as records (what is left or taken, the most a call passes, the failing
//!   calls, and counts), so that their clauses name no private field.
//! - A line of literals and numbers is one list of pieces (`write_pieces`), so that it fails in one place and
//!   its contract is one concatenation.
#![tactic(auto)]

mod memory;
mod outside;
mod standard;
mod whole;

pub use memory::{MemSink, MemSource};
pub use outside::{Failed, Gate, NoGate, Sink, Source};
pub use standard::{StdSink, StdSource};
pub use whole::{write_all, write_pieces};
