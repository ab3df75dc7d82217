//! The tree of layers and groups, kept without allocation: its changes with their refusals, and its readers.
//!
//! # Decisions
//!
//! - The tree is a flat list of nodes in pre-order with depths, and nodes move in place: what lies between a
//!   branch's old and its new place is turned round with it. A contract sees it as the nested tree of a document
//!   with empty contents. `Tree::copy` stands in place of `Clone`, since it takes no memory.
//! - What makes a tree another one is found by comparing the two lists (`Tree::exchange_for`), so it is the
//!   same for every change. Two neighbouring parts that were turned about are told by places and levels alone;
//!   else the nodes between the longest common front and back are kept, with room for those that make way, so
//!   that undo and redo take no memory (`Leads`). Which of the two is kept tests say, and no contract.
//! - A change of a place seeks each of its two nodes once and keeps where they stand; the refusals follow from
//!   these, and nothing is copied to find out whether the change may be made.
//! - The group round a node is sought from the end, by index: an iterator run backwards took about ten times as
//!   long. A search for a child adds a comparison's outcome and has no branch for each child, which took less
//!   than half the time.
#![tactic(auto)]

mod common;
mod edits;
mod exchange;
mod groups;
mod lookup;
mod node;
mod outline;
mod refusals;
mod stretch;
mod tree;
mod turn;

pub use exchange::Exchange;
pub use outline::Stage;
pub use stretch::Stretch;
pub use tree::Tree;
pub use turn::{Lot, Turn};
