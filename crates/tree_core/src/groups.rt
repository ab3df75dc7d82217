//! The groups of a tree in one pass.

ghost use Rattle.std.specs.Prelude.{◌≡◌, ◌≤◌, ◌<◌, ◌+◌, ◌++◌, ◌∷◌, List, suc, length};
ghost use Rattle.doc_model.specs.Readers.{order};
ghost use Rattle.doc_model.specs.Flat.{Row, EndsAt};
ghost use Rattle.tree_core.specs.Nodes.{row_of, tree_of};
ghost use Rattle.tree_core.specs.Around.{due};

use crate::node::Node;
use arrayvec::ArrayVec;

/// The ids of the groups among the nodes, each after those in it, those side by side from the bottom.
pub fn groups_of(nodes: &[Node]) -> ArrayVec<u16, 257>
    requires { length nodes.now ≤ 256 }
    ensures order { result.items ≡ order (tree_of nodes.now) }
    ensures few { length result.items ≤ 256 }
{
    let mut around = ArrayVec::new();
    let mut groups = ArrayVec::new();
    for node in nodes {
        pass(node, &mut around, &mut groups);
    }
    leave(0, &mut around, &mut groups);
    groups
}

/// Passes one node: the groups that it doesn't stand in are left, and it is entered if it is a group.
fn pass(node: &Node, around: &mut ArrayVec<u16, 256>, groups: &mut ArrayVec<u16, 257>)
    requires room { length around.old.items + length groups.old.items < 256 }
    ensures count { length around.new.items + length groups.new.items ≤ suc
        (length around.old.items + length groups.old.items) }
    ensures due { (rows : List (Row (Unit {0}))) → groups.new.items ++ due 0 around.new.items rows
        ≡ groups.old.items ++ due 0 around.old.items (row_of node.now ∷ rows) }
{
    let depth = node.depth as usize;
    leave(depth, around, groups);
    enter(node, depth, around);
}

/// Enters a node where it is a group that stands right in the innermost of those round it.
fn enter(node: &Node, depth: usize, around: &mut ArrayVec<u16, 256>)
    requires depth { depth ≡ node.now.depth }
    requires room { length around.old.items < 256 }
    requires inside { length around.old.items ≤ depth }
    ensures count { length around.new.items ≤ suc (length around.old.items) }
    ensures due { (rows : List (Row (Unit {0}))) → due 0 around.new.items rows
        ≡ due 0 around.old.items (row_of node.now ∷ rows) }
{
    if node.paints {
        return;
    }
    if around.len() != depth {
        return;
    }
    around.push(node.id);
}

/// Leaves the groups that stand round no node of that depth, the innermost first.
fn leave(depth: usize, around: &mut ArrayVec<u16, 256>, groups: &mut ArrayVec<u16, 257>)
    requires room { length around.old.items + length groups.old.items ≤ 256 }
    ensures inside { length around.new.items ≤ depth }
    ensures count { length around.new.items + length groups.new.items ≡ length around.old.items +
        length groups.old.items }
    ensures due { (rows : List (Row (Unit {0}))) → EndsAt (suc depth) rows → groups.new.items ++ due
        0 around.new.items rows ≡ groups.old.items ++ due 0 around.old.items rows }
{
    let mut left = around.len();
    while left > depth {
        left -= 1;
        groups.push(around[left]);
    }
    around.truncate(left);
}
