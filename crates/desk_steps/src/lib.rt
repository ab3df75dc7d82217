//! Documents with their history, and the stroke that is painted on them.
//!
//! # Decisions
//!
//! - A finished stroke keeps what stood in the tiles that it put, each noted as the stroke first puts one
//!   there; a change of the tree keeps the nodes in which the trees differ and the devices of layers that come
//!   or go. Undo and redo exchange these with the present, copy no tile and take no memory. A copy of a layer's
//!   map would raise and lower a count of owners for every tile of the layer.
//! - Each id that ever was a paint layer has a slot for a device, empty while the layer isn't there. So an undo
//!   that brings a layer back needs no room in a map, and other layers' devices stay where they are.
//! - A store is seen as documents, which have no tiles: `Store::tile` says what a document can say, and
//!   `Store::layer` lends the device. Inside, a document is seen as devices, since an exchange asks that its
//!   keys are there.
//! - A point operation is laid in place where the stroke has put its tile before and nobody shares it, which
//!   asks for no memory. Elsewhere a tile is made. Where a fill leaves one pixel all over a tile, the plain
//!   tile to the left or above is shared, so an opaque fill holds one tile; moves and blurs seldom find one,
//!   and don't look.
//! - Undo, redo and revert count a step for each tile of a stroke, and none for a change of the tree; what a
//!   reach counts is told by the size of the set of its tiles.
#![tactic(auto)]

mod arrangement;
mod document;
mod entry;
mod exchanging;
mod laying;
mod painting;
mod reach;
mod store;

pub use exchanging::Base;
pub use reach::{Begun, Reach, TreeRefusal};
pub use store::Store;
