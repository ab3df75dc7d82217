//! What the calls of a store answer.

ghost use Rattle.std.specs.Prelude.{◌≡◌};

use doc_model::TreeFault;
use geom_core::{NoMemory, Touched};
use std::alloc::AllocFailed;

/// How a stroke began.
#[derive(Clone, Copy, Debug, PartialEq, Eq)]
pub enum Begun {
    /// It is under way.
    Ready,
    /// There is no node with that id.
    NoLayer,
    /// The node with that id is a group.
    NotPaint,
}

/// How much of the document an undo, a redo or a change has changed.
#[derive(Clone, Copy, Debug)]
pub enum Reach {
    /// Some tiles of one layer, which stands in that group.
    Part { group: u16, touched: Touched },
    /// The tree itself.
    Whole,
}

/// Why a change of the tree was not made.
#[derive(Clone, Copy, Debug, PartialEq, Eq)]
pub enum TreeRefusal {
    /// The first refusal.
    Tree(TreeFault),
    /// No memory was left.
    NoMemory,
}

impl From<NoMemory> for TreeRefusal {
    ghost use Rattle.desk_steps.specs.declared.reach.TreeRefusal.{TreeRefusal};

    ghost from_gives = { λ _ e. e ≡ TreeRefusal.NoMemory };

    fn from(_e: NoMemory) -> TreeRefusal {
        TreeRefusal::NoMemory
    }
}

impl<T: Drop> From<AllocFailed<T>> for TreeRefusal {
    ghost use Rattle.desk_steps.specs.declared.reach.TreeRefusal.{TreeRefusal};

    ghost from_gives = { λ _ e. e ≡ TreeRefusal.NoMemory };

    fn from(_e: AllocFailed<T>) -> TreeRefusal {
        TreeRefusal::NoMemory
    }
}
