//! Frames written as portable pixmaps.
//!
//! # Decisions
//!
//! - The rows of the first picture are laid by as many threads as paint, in halves of halves, and none for a
//!   thread of its own below 200,000 bytes (`lay_rows`). What each writes is known by the contract of
//!   `join_mut`, and a thread that can't be made is made up for by its caller, so nothing can fail once a byte
//!   is written. Of a later picture only the tiles with marks are laid, over the colours of the one before.
#![tactic(auto)]

mod picture;
mod rows;

pub use picture::{write_frame, write_frame_by, write_frames_by};
