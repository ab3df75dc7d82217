//! Lines and fields of scripts, and what a field spells: numbers and colours.
//!
//! # Decisions
//!
//! - The causes of faults stand here, below the parser, so that fields answer them directly.
//! - The bytes of a line are gone over once for its fields: what ends a field also tells where the line ends.
//!   The fields of each line in turn stand in one vector, so that a line takes no memory of its own.
//! - The digits of a colour are read by a table, since which of them are letters a processor can't foresee. A
//!   digit that is none gives a number too large for a byte, so that the four bytes are tested at once.
#![tactic(auto)]

mod cause;
mod colours;
mod fronts;
mod lines;
mod numbers;

pub use cause::Cause;
pub use colours::{rgb, rgba};
pub use fronts::{behind_word, natural_before, number_in_before, rgba_before};
pub use lines::{is_command, next_fields};
pub use numbers::{natural, number_in};
