//! Pictures of a canvas, read as bytes in the formats of other programs, and compared tile by tile.
//!
//! # Decisions
//!
//! - What is read is a `Picture`, so that frames, layers and the pictures of groups are read by one way. It gives
//!   pixels by runs within one row of a tile, since some of its tiles may be composed whenever they are read: a
//!   run never composes two.
//! - Each byte of the buffer is told by its place (`HasRead`): those between rows stay as they were, so that a host
//!   may lend a part of a larger image.
//! - Pixels on the paper go through rows of 64 pixels on the stack, which `lay_on_paper` fills many at a time.
//! - Two pictures are compared pixel by pixel. That they share tiles can't be told, since the toolchain has no
//!   comparison of owners.
#![tactic(auto)]

mod changed;
mod format;
mod kernels;
mod picture;
mod reading;
#[cfg(test)]
mod tests;
mod window;

pub use changed::changes;
pub use format::Format;
pub use picture::Picture;
pub use reading::read;
pub use window::{Layout, Part, Unreadable, Window};
