//! The picture of a group on one tile, from the pictures of its children.
//!
//! # Decisions
//!
//! - A group's tile is composed in one new buffer from clear. A child of opacity 0 is composed like any other,
//!   and each of its pixels leaves the backdrop at once.
//! - Stored pixels are canonical, so what a pile shows is exact also where a lone child is shared and where an
//!   opaque one hides those below it.
#![tactic(auto)]

mod children;
mod laws;
mod part;
mod pile;
mod spot;

pub use children::{Given, compose_tile};
pub use laws::group_of_pictures;
pub use pile::Pile;
pub use spot::Spot;
