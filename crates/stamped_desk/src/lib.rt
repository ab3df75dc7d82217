//! A desk beside the stamps of all that was taken from it. A stamp tells in constant time for what it was made: so what
//! was made of work that was taken, and has the work's stamp, comes to the desk without a look at its pixels.
//!
//! # Decisions
//!
//! - What is taken is stamped at once, by one exchange on a word that no one else has. A stamp is a number, and
//!   a history that only proofs have says of each number what it was given for (`Stamps`, over the kit's
//!   `logbook`). So two comparisons of numbers take the place of those of pixels.
//! - The desk's type says of each ticket that was ever stamped that work with its serial in its slot is the
//!   ticket's. Every event keeps that, by one lemma over the machine's steps, since a serial is drawn once and
//!   work keeps what it was started with.
//! - Where no stamp could be made, or tiles of two jobs were put together, the tested call is made. Neither is
//!   expected, but no clause of `logbook` says that a word's sole owner finds what it left there.
#![tactic(auto)]

mod desk;
mod history;
mod painting;
mod rule;
mod small_jobs;
mod tiles;
mod walk;

pub use desk::StampedDesk;
pub use history::{Stamp, StampNaming, Stamps, Unnamed};
pub use painting::StampedPainting;
pub use tiles::StampedTiles;
pub use walk::StampedWalk;
