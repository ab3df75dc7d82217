//! Scripts through several crates: what they mean, told plainly from the definitions, small scripts
//! drawn by chance, and tests that compare the engine with it.
//!
//! # Decisions
//!
//! - It keeps one list of all that was done to all layers, and finds each pixel by recursion over it. It takes
//!   the entries from the queue of entries, so the comparison says nothing of that queue.
#![tactic(auto)]

mod document;
mod drawn;
mod layer;
mod mean;
mod picture;
mod plain;
mod spots;
mod telling;

pub use drawn::{Draws, drawn_script};
pub use plain::{Told, plain_frames};
