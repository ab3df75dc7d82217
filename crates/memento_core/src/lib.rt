//! Revisions of a plane of tiles, and books of them.
//!
//! # Decisions
//!
//! - A plane tells what there is of it beside its tiles, and an exchange keeps that: so a revision that is
//!   exchanged with a device is known to keep the device's default pixel, though it knows nothing of pixels.
//! - A book rests on the undo stack: a revision is the entry that crosses over, so the room that `begin` takes
//!   is one place in one list. A book is for a program with one plane; the engine's store keeps revisions,
//!   since its history spans all layers and the tree.
//! - Steps are counted by a token of std's ledger, which takes no bytes; only contracts speak of the count.
//! - A set of tiles answers that memory ran out at 2^32 - 1 tiles, so that its count fits; the world has 2^18.
#![tactic(auto)]

mod book;
mod keys;
mod laws;
mod plane;
mod revision;
mod steps;

pub use book::Book;
pub use keys::KeySet;
pub use laws::{exchange_keeps_keys, rolls_back_and_forth, rolls_back_to_begin};
pub use plane::Plane;
pub use revision::Revision;
pub use steps::Steps;
