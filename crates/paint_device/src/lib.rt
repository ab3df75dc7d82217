//! Layers of shared tiles.
//!
//! # Decisions
//!
//! - A device is seen as its default pixel and a finite map from keys to a tile or None. All keys are tiles of
//!   the world (its invariant), and they only ever grow, so keys that were noted are still there when they are
//!   exchanged.
//! - After `write_region` a tile stands under the block's key, even where all its pixels are the ground:
//!   `extent` speaks of the tiles that stand, not of pixels that differ.
//! - No device is shared as a whole: nothing that the engine does needs a copy of a layer's map of tiles.
#![tactic(auto)]

mod device;
mod keyed;
pub mod laws;

pub use device::Device;
