//! The world of points: its rectangles, its tiles of 64 by 64 points, by which layers keep their
//! pixels, and its cells of 256 by 256, by which updates are queued.
//!
//! # Decisions
//!
//! - Rectangles count from the world's corner inside, as unsigned numbers, and are seen as areas over signed
//!   ones: arithmetic that mixes signs was the dearest part of the proofs. Numbers of 16 bits were tried:
//!   scripts were painted a sixth slower, since four short numbers that were just stored are then read as one
//!   word.
//! - `TileKey` lists its row before its column, so that the derived order is row order.
//! - Cells are defined for every rectangle of the world (`cells_of`). Inside the largest canvas they are proved
//!   to be the parts that the list of waiting updates uses (`parts_are_cells`).
//! - The rectangle round tiles is defined once, beside the type that tells it (`Touches`), and the machine uses
//!   the same words.
#![tactic(auto)]

mod key;
pub mod laws;
mod rect;

pub use key::{TILE_POINTS, TILE_SIDE, TileKey, tile_of};
pub use rect::{CORNER, Rect, WORLD_SIDE};
use std::alloc::{AllocError, AllocFailed};
use thiserror::Error;

/// No memory was left. Where a call doesn't say otherwise, all is as it was before it.
#[derive(Clone, Copy, Debug, PartialEq, Eq, Error)]
#[error("no memory was left")]
pub struct NoMemory;

/// A point would lie outside the world, whose x and y go from -16384 to 16383.
#[derive(Clone, Copy, Debug, PartialEq, Eq, Error)]
#[error("a point lies outside the world")]
pub struct OutOfWorld;

impl From<AllocError> for NoMemory {
    fn from(_e: AllocError) -> NoMemory {
        NoMemory
    }
}

impl<T: Drop> From<AllocFailed<T>> for NoMemory {
    fn from(_e: AllocFailed<T>) -> NoMemory {
        NoMemory
    }
}

/// What a change of tiles has touched.
#[derive(Clone, Copy, Debug, PartialEq, Eq)]
pub struct Touched {
    /// How many tiles were exchanged.
    pub count: u32,
    /// The least rectangle round these tiles. None exactly where there are none.
    pub bound: Option<Rect>,
}
