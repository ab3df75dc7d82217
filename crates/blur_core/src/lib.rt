//! The box blur.
//!
//! # Decisions
//!
//! - Sums of columns slide down and sums of squares slide right, by exact additions and subtractions: so the
//!   mean is the definition's, at a cost a pixel that hardly depends on the radius.
#![tactic(auto)]

mod blur;
mod columns;
mod sums;

pub use blur::blur_block;
