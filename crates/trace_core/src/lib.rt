//! Traces checked: a script with one order of steps is followed line by line, and no pixel is painted.
//!
//! # Decisions
//!
//! - A trace is read whole before it is checked: a reader by pieces would be a second way through the checker,
//!   for memory that the commands of such a trace take several times over. `Replayed` lends its script or gives
//!   it away, so the commands aren't copied.
#![tactic(auto)]

mod acts;
mod lines;
mod machine;
mod refusal;
mod replaying;
mod strokes;
mod walks;
mod work;

pub use refusal::ReplayRefusal;
pub use replaying::{Replayed, replay};
pub use trace_lines::TraceCause;
