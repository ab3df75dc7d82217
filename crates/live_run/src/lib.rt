//! A script is painted while others look on: a crew paints it, and what the root shows is published.
//!
//! # Decisions
//!
//! - What lies under the crew's lock beside the desk (`Screen`) has the writer and the tiles that it owes. Its type
//!   says that a tile which isn't owed was put as the root's cache has it. A put that is refused leaves its tile
//!   owed, and so does all that changes the root without a word. So readers see tiles of the root, each as it was
//!   at some time, and once all is done what is owed is laid down: all tiles, with no pixel copied.
//! - The writer is lent, since a closure can hold none: it isn't `Drop`. A lock keeps nothing but types, so the
//!   reference has a name there (`Lending`), as have the rows that were published before.
//! - Where a look is refused or isn't of the newest version, `live_frame` takes the desk's own tile, so that
//!   `run` needs no answer for either; the clauses of `look` and `run_live` carry that the picture is a
//!   reader's.
//! - The view follows the walks. The crew composes late, so readers see a stroke once its walk came.
#![tactic(auto)]

mod frames;
mod lent;
mod owed;
mod run;
mod screen;
mod shown;

pub use frames::live_frame;
pub use run::{paint_live, run_live};
pub use shown::run_live_shown;
