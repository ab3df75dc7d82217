//! The caches of groups, and the frames that are taken of the root's.
//!
//! # Decisions
//!
//! - Caches, film and marks are one value (`FilmedCaches`), whose type says that the newest frame shows the
//!   root's cache wherever no mark is. A walk's picture of the root marks its tile, and nothing else marks any.
//!   So no frame is compared with another, and no proof of an event knows of marks.
//! - An export's frame is made of the root's cache, whose tiles it shares: it takes effect only where no patch
//!   waits and nothing is at work, so the cache is the picture there. Where frames come to many tiles, those are
//!   shared in place of a tile of which it is composed (`Thrift`): looks alone may change every tile of a picture,
//!   but no layer. Which of two ways is taken never shows, since both keep the same pixels. Tiles that the newest
//!   frame has are told by their pixels: the kit says nothing of what two references share.
#![tactic(auto)]

mod exports;
mod filmed;
mod plies;
mod thrift;

pub use filmed::FilmedCaches;
