//! Pixels of eight bits a channel, and the operations that lay one on another.
//!
//! # Decisions
//!
//! - A source of which no alpha is left under its strength leaves the destination untouched, by every
//!   operation: a proved law (`unseen_leaves`), and the first exit of `compose`.
//! - Each rounding happens once, to the nearest 255th: of the source's alpha with the strength, of the product
//!   inside multiply and screen, of the alpha that `Erase` leaves, and of each channel.
//! - A pixel is kept as one number of 32 bits, so that it stays in a register and loops over rows take several
//!   at once; four bytes of their own were stored one by one and read as one word, which stalls. Contracts see
//!   four bytes, and equality is that of the bytes.
//! - A single pixel is composed by division of whole numbers, of which the processor overlaps the three that a
//!   pixel takes.
#![tactic(auto)]

mod blending;
mod bytes;
mod laws;
mod pixel;

pub use blending::{Op, compose, on_paper};
pub use bytes::mul;
pub use laws::{
    laws_of_mul, on_clear, opaque_erases, opaque_hides, stays_canonical, unseen_leaves,
};
pub use pixel::Pixel;
