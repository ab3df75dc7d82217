//! The lines of traces: what each says by itself, what the whole of them says, and how they are printed so that they
//! read back.
//!
//! # Decisions
//!
//! - A rectangle of a `walk` line that leaves the world is no bad line, but what may not happen: its numbers
//!   are in the ranges of a job's. So with a job of a `feed` line that has too many dabs or leaves the world.
//! - The last line feed may be left out, and a blank line is of no form: a trace's lines are what stands before
//!   each line feed, and what stands behind the last one.
#![tactic(auto)]

mod forms;
mod laws;
mod line;
mod printing;

pub use forms::{canvas_line, line_of, slots};
pub use laws::{printed_replays, replayed_runs};
pub use line::{Line, TraceCause, TraceFault};
pub use printing::{add_head, add_line};
