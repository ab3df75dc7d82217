//! The patches of the picture that wait to be composed anew, kept in 64 places and without memory.
//!
//! # Decisions
//!
//! - A rectangle is added part by part and nothing is counted first. Where a part finds no place the list
//!   begins anew from what stands: the rectangle round it and the added one is what it was before the first
//!   part.
//! - A part is looked for first where it probably stands: where the last rectangle's first part went, and each
//!   other behind the one before. No two patches have one walk in one cell, so a patch that fits is the one
//!   that a pass would find.
//! - Where the parts of one rectangle take all places, for all groups, that rectangle is kept: one inside it
//!   has nothing to add. Else each addition after a change of the tree on a large canvas would make the 64
//!   patches again.
#![tactic(auto)]

mod places;
mod updates;
mod widening;

pub use updates::Updates;
pub use widening::{widen, widen_all};
