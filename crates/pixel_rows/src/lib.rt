//! Rows of pixels laid on others: what composing pixel by pixel gives, many pixels at a time.
//!
//! # Decisions
//!
//! - Rows go in blocks of 16 pixels whose loops have no branch, so that the compiler takes several pixels at
//!   once; of the kit's vectors (`std::simd`) most functions say nothing of their result, so no proof could
//!   rest on them. A source under a strength has the effect of a dimmer source at full strength, so colours,
//!   masks and layers are one case.
//! - Blocks of clear sources, and of clear or opaque backdrops, take shorter ways. Under a colour or a mask the
//!   backdrop's alphas are looked at once for a row: a look at each block costs more than it saves. Sources that
//!   are one pixel all along a row are laid as a colour, and a colour on a backdrop that is one pixel is composed
//!   once: fills, backgrounds and plain layers are most of what there is to compose.
//! - A quotient is one division of floats, and it is exact: both numbers are whole and below 2^24, and what
//!   lies below a whole number lies further below it than the rounding can bridge (`mean`, `mean_of_three`,
//!   proved from std's statements of binary32). A division of whole numbers can't be done for several pixels at
//!   once. A guess that was checked by its remainder cost a quarter of a mixed pixel.
//! - `compose_row`, with a strength for each place, is for a host. The engine's own rows are special cases with
//!   ways of their own: `lay_sources`, `lay_colour`, `lay_masked`.
//! - `tell_canonical` is a loop that does nothing, and the compiler leaves it out: contracts see a pixel as
//!   numbers of any size, and it tells a proof that each is a byte, so that an opaque colour hides what lies
//!   there.
#![tactic(auto)]

mod blends;
mod block;
mod each;
mod mixing;
mod paper;
mod plain;
mod quotient;
mod rest;
mod rows;
mod shares;

pub use block::tell_canonical;
pub use each::compose_row;
pub use paper::lay_on_paper;
pub use plain::all_are;
pub use rows::{lay_colour, lay_masked, lay_sources, left_everywhere};
