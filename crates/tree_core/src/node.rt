//! A node of the flat tree.

ghost use Rattle.std.specs.Prelude.{◌≡◌, ℕ, ◌≤◌, ◌<◌, ◌+◌};
ghost use Rattle.doc_model.specs.Changes.{new_look};
ghost use Rattle.tree_core.specs.Nodes.{moved_node};

use doc_model::Look;
use pixel_core::Op;

/// A node: how many groups but the root stand round it, its id, its look, and whether it is a paint layer.
#[derive(Clone, Copy, Debug, PartialEq, Eq)]
pub struct Node {
    pub depth: u8,
    pub id: u16,
    pub look: Look,
    pub paints: bool,
}

impl Default for Node {
    fn default() -> Node {
        new_node(0, 0, false)
    }
}

/// A node with the look of a new one: opaque, laid over, visible.
pub fn new_node(depth: u8, id: u16, paints: bool) -> Node
    ensures { result ≡ record { depth = depth; id = id; look = new_look; paints = paints } }
{
    Node {
        depth,
        id,
        look: Look {
            opacity: 255,
            op: Op::Over,
            visible: true,
        },
        paints,
    }
}

/// A node of a branch at its new depth: the children of the branch's first node stood at `from`, and that node
/// now stands at `to`.
pub fn moved_node(node: Node, from: u8, to: u8) -> Node
    ensures { result ≡ moved_node from to node }
{
    let depth = (node.depth as usize + 1 + to as usize)
        .saturating_sub(from as usize)
        .min(255) as u8;
    Node { depth, ..node }
}
