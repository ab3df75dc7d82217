//! Small scripts with what they give, worked out by hand. Tests paint them in more than one way.
#![tactic(auto)]

mod outcomes;
mod pixmaps;

pub use outcomes::{ROWS, Row, WIDE};
pub use pixmaps::{DONE, REFUSED};
