//! What a checker of traces keeps of a machine's state, without pixels: what is at work in the slots, what was fed, and the history.
//!
//! # Decisions
//!
//! - The state is the machine's without pixels, of which `PixelsDontCount` says that it tells the same. So it
//!   needs no layers and no caches, and a trace of a script that paints gigapixels is checked in the time that
//!   its lines take.
//! - The history has links and no documents: a link is what a change of the tree exchanges, or nothing round a
//!   stroke. With a tree for each document a trace of small strokes took 570 MiB in place of 68.
#![tactic(auto)]

mod group;
mod history;
mod intake;
mod job;
mod paths;
mod slot;
mod tiles;
mod walk;

pub use history::{History, Reach};
pub use intake::Intake;
pub use job::OutlinedJob;
pub use slot::{Slot, all_free, fill, some_blocks, some_meets, some_painter, some_walker};
pub use tiles::round;
pub use walk::OutlinedWalk;
