//! Strokes: lists of painting jobs that are fed one after another, and are refused at the first job
//! that conflicts with an earlier one of its run.
//!
//! # Decisions
//!
//! - A stroke keeps, beside the exact rectangles of its last run's jobs, the edges of one rectangle round each,
//!   in lists of their own, so that a new job is compared with many at once. Only where one of 128 is near are
//!   exact rectangles compared. What stands before the last run is not kept.
//! - Unique jobs have a list of left edges of their own, in which other unique jobs lie outside the world,
//!   since two unique jobs never conflict.
#![tactic(auto)]

mod bound;
mod footprint;
mod last_run;
mod stroke;

pub use stroke::{AddFault, ClosedStroke, OpenStroke};
