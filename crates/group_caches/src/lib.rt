//! What the groups of a tree show, kept between walks: a cache for each group.
//!
//! # Decisions
//!
//! - The caches are seen as the machine's map from groups to layers, so a public contract can't tell whether a
//!   tile stands. That a clear picture leaves no tile stands in the contracts of the private functions that lay
//!   it (`StandsFor`), and tests show it. A part that is laid clear isn't looked at for being clear as a whole;
//!   the next patch of the whole tile takes it away.
//! - A cache's tile is exchanged where the patch has the whole tile, and else laid in place where nobody shares
//!   it, or on a copy.
//! - `keep` takes the groups, each after those in it, and requires that none stands twice. Both lists of places
//!   have room for the root and 256 groups from the start, so it takes no memory. A group that has no cache
//!   gets one as a walk lays on it.
#![tactic(auto)]

mod caches;
pub mod laws;
mod painting;
mod places;

pub use caches::Caches;
