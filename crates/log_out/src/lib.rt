//! The log of a script's entries, and the short summary.
//!
//! # Decisions
//!
//! - The log is stated over entries and written over commands: it is proved that the entries' names are those
//!   of the commands that make entries, in order. The summary speaks of frames with their sides, and its sums
//!   take no memory: a row of the widest canvas stands on the stack.
#![tactic(auto)]

mod log;
mod phrase;
mod summary;

pub use log::write_log;
pub use summary::write_sum;
