//! A script for any number: six layers and forty strokes that follow the draws of a generator.
//!
//! # Decisions
//!
//! - The script is defined by the generator's state as a number below 2^64; each command is a function of the
//!   state before it. That these commands are a script for every number is a clause of `script_of`.
#![tactic(auto)]

mod draws;
mod script;
mod stroke;

pub use draws::draw;
pub use script::script_of;
