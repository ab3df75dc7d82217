//! The nodes' looks, and changes of the tree.

use pixel_core::{Op, Pixel};

/// How a node is laid on what lies below it.
#[derive(Clone, Copy, Debug, PartialEq, Eq)]
pub struct Look {
    /// With how much of its alpha it is laid, of 255.
    pub opacity: u8,
    /// By which operation.
    pub op: Op,
    /// Whether it is laid at all.
    pub visible: bool,
}

/// A change of the tree of layers and groups.
#[derive(Clone, Copy, Debug, PartialEq, Eq)]
pub enum Change {
    /// Sets a new paint layer among the children of a group, as many of them below it as `place`
    /// says. It has its default pixel, `ground`, at every point.
    Layer {
        id: u16,
        parent: u16,
        place: u8,
        ground: Pixel,
    },
    /// Sets a new group there.
    Group {
        id: u16,
        parent: u16,
        place: u8,
    },
    /// Takes a node away, with all that stands in it.
    Remove {
        id: u16,
    },
    /// Moves a node, with all that stands in it. The place counts without the node.
    Place {
        id: u16,
        parent: u16,
        place: u8,
    },
    /// Gives a node another look.
    Look {
        id: u16,
        look: Look,
    },
}

/// Why a change of the tree is refused.
#[derive(Clone, Copy, Debug, PartialEq, Eq)]
pub enum TreeFault {
    /// A node has that id already; the root always has 0.
    Taken(u16),
    /// No node has that id.
    NoNode(u16),
    /// The parent of that id is a paint layer.
    NotGroup(u16),
    /// The parent is the node of that id, or stands in it.
    IntoItself(u16),
    /// As many nodes as that are there beside the root.
    TreeFull(u16),
    /// A node would stand deeper than that.
    TooDeep(u8),
    /// The place is greater than the number of the parent's children.
    BadPlace(u8),
}
