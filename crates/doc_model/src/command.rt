//! What is asked of a document, and how it ends.

ghost use Rattle.std.specs.Prelude.{◌≡◌};
ghost use Rattle.doc_model.specs.Meaning.{refused};

use crate::job::{Job, Kind};
use crate::tree::{Change, TreeFault};

/// How many commands a desk takes at most.
pub const MOST_COMMANDS: usize = 4_294_967_295;

/// What is asked of a document, one thing at a time.
#[derive(Clone, Copy, Debug, PartialEq, Eq)]
pub enum Command {
    /// Changes the tree of layers and groups.
    Change(Change),
    /// Opens the stroke of that number on a layer. No update is composed beside an exclusive one.
    Stroke {
        no: u32,
        layer: u16,
        exclusive: bool,
    },
    /// Adds a job at the end of an open stroke's list.
    Add {
        no: u32,
        kind: Kind,
        job: Job,
    },
    /// Closes an open stroke.
    End {
        no: u32,
    },
    /// Closes an open stroke, which then leaves nothing.
    Cancel {
        no: u32,
    },
    /// Goes back to the document from before the newest change.
    Undo,
    /// Takes the newest undo back.
    Redo,
    /// Forgets all documents of the past but the newest `keep`.
    Purge {
        keep: u32,
    },
    /// Adds a frame: the picture on the canvas's paper.
    Export,
}

/// How an entry ended.
#[derive(Clone, Copy, Debug, PartialEq, Eq)]
pub enum Outcome {
    /// It took effect.
    Done,
    /// The stroke was cancelled and left nothing.
    Cancelled,
    /// Two jobs of one run of the stroke conflict, counted from 1: of all such pairs the one with
    /// the least second number, and among these with the least first.
    Overlap { first: u32, second: u32 },
    /// The stroke's layer isn't there.
    NoLayer(u16),
    /// The stroke's layer is a group.
    NotPaint(u16),
    /// The change of the tree is refused.
    Tree(TreeFault),
    /// There is no past.
    NothingToUndo,
    /// Nothing was undone since the last change.
    NothingToRedo,
}

impl Outcome {
    /// Whether the entry was refused: false exactly for `Done` and `Cancelled`.
    pub fn refused(&self) -> bool
        ensures { result ≡ refused self.now }
    {
        !matches!(self, Outcome::Done | Outcome::Cancelled)
    }
}
