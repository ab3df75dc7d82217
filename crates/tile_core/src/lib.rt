//! Shared tiles of 64 by 64 pixels, and shots, which hold them.
//!
//! # Decisions
//!
//! - A tile is a list of 4,096 pixels behind a count of owners, and none of several owners ever sees it change:
//!   a write makes a new tile, and only where there is no other owner is it made in place. `Tile::share`
//!   answers `NoMemory` where the count of owners is full, which std's `Arc` can't rule out.
//! - A shot keeps shared tiles, not copied pixels, and is itself shared behind one count of owners: a job's
//!   slot, its ticket and each tile that is painted from it have one shot. A shared shot that is put a tile
//!   gets a map of its own first.
//! - `Shot::put` takes any key and `Shot::at` any point of the world, and the contracts say what happens for
//!   each, so no caller has to show that a key meets the rectangles.
#![tactic(auto)]

mod block;
mod keyed;
pub mod laws;
mod plain;
mod rows;
mod shot;
mod tile;

pub use block::Block;
pub use plain::PlainTile;
pub use rows::Part;
pub use shot::Shot;
pub use tile::{Lays, Tile, part_in_tile};
