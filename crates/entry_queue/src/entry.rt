//! One entry of the queue.

use doc_model::Command;
use stroke_core::{ClosedStroke, OpenStroke};

/// An entry that has no outcome yet.
#[derive(Drop)]
pub enum Entry {
    /// A stroke that still takes jobs.
    Waiting(OpenStroke),
    /// A stroke that is closed.
    Whole(ClosedStroke),
    /// A change of the tree, an undo, a redo, a purge or an export.
    Other(Command),
}
