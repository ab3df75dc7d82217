//! A desk that several artists feed from threads of their own, in one history.
//!
//! # Decisions
//!
//! - The history is the desk's commands and a list of as many artists' numbers beside them, so no command is
//!   kept twice.
//! - A pass sends 2^20 commands at most for each number that it keeps, so with 16 artists no history is longer
//!   than 2^24 and the desk always takes one more.
#![tactic(auto)]

mod signed;
mod stage;
mod studio;

pub use signed::Signed;
pub use stage::Stage;
pub use studio::{Closed, Pass, Studio};
pub use turn_lock::Sent;
