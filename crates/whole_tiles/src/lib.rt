//! Tiles of a job, made whole away from the layer that they are for.
//!
//! # Decisions
//!
//! - A tile of a dab's square that the circle doesn't reach is shared, not copied (`circle.rt`): the dab is
//!   still said to write there, so the tile is published. That a tile is left out wrongly is refused, since
//!   what is made has to have the job's pixels; that one is copied needlessly no clause refuses.
//! - A whole tile keeps its job and its shot, shared, and is compared with the slot's shot on the rectangle
//!   that its value hangs on alone. So tiles of several threads need no proof of where they came from, and
//!   nothing is compared twice.
//! - A thread keeps the last tile of one pixel (`paint_like`, `PlainTile`), so an opaque fill makes one tile
//!   for each range of tiles and not one for each key.
#![tactic(auto)]

mod circle;
mod needs;
mod painting;
mod pixels;
mod whole;

pub use painting::Painting;
pub use whole::{Whole, whole_tile_like};
