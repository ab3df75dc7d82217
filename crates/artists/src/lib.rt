//! A script is drawn by several artists, each from a thread of its own.
//!
//! # Decisions
//!
//! - The commands of stroke S are of artist S mod their number, and all others of artist 0: so a stroke is of
//!   one artist, who sends it in its order, and each command may follow whatever the others sent between.
//! - What is drawn is a script again. Where a command isn't accepted a crew paints the script as it was, which
//!   has each artist's commands in their order too, so no caller needs an answer for it. A sender says itself
//!   whether all its commands were accepted, and that is all that the end needs.
//! - There is no live view of what artists draw: a live view follows a crew at work, and the desk is worked off
//!   only once all artists have sent.
#![tactic(auto)]

mod drawing;
mod gathering;
mod sending;
mod shares;

pub use drawing::{Drawn, paint_together};
pub use shares::artist_for;
