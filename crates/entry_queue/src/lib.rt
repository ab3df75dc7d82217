//! The queue of entries: what was fed and has no outcome yet, in order, and the outcomes so far; and what guards ask of
//! the stroke at its head.
//!
//! # Decisions
//!
//! - A waiting stroke is fed where it stands in its slab, so that a job moves no stroke. Only the close takes
//!   it out, since a closed stroke is another type, and puts it back under the same key.
//! - Waiting strokes are found by an ordered map from numbers to keys, so that a job costs the logarithm of the
//!   strokes that wait. The key of the stroke opened last is at hand beside it.
//! - It keeps that every entry with an outcome is closed, so that it takes whatever command may follow,
//!   whenever outcomes are given (`takes_lawful`).
#![tactic(auto)]

mod entry;
mod head;
mod kinds;
mod queue;
mod waiting_keys;

pub use entry::Entry;
pub use head::HeadStroke;
pub use kinds::{excludes, is_bar, kind_at};
pub use queue::Queue;
