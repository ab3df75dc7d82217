//! What of a tree is laid, in order.

ghost use Rattle.std.specs.Prelude.{◌≡◌, ◌≤◌, ◌++◌, ◌∷◌, IfOk, List, OnOk, length, suc};
ghost use Rattle.doc_model.specs.Flat.{Row, EndsAt};
ghost use Rattle.tree_core.specs.Nodes.{row_of, tree_of};
ghost use Rattle.tree_core.specs.Outline.{outline, outline_due};

use crate::node::Node;
use arrayvec::ArrayVec;
use doc_model::Look;
use geom_core::NoMemory;
use std::alloc::Global;

/// A step of how a document is composed.
#[derive(Clone, Copy)]
pub enum Stage {
    /// A visible layer is laid.
    Layer { id: u16, look: Look },
    /// A visible group begins, which is clear.
    Open,
    /// The innermost group that has begun ends, and is laid with that look.
    Close { look: Look },
}

/// The visible nodes in the order in which they are laid.
pub fn outline_of(alloc: Global, nodes: &[Node]) -> Result<Vec<Stage>, NoMemory>
    requires { length nodes.now ≤ 256 }
    ensures { IfOk result (λ stages. stages.items ≡ outline (tree_of nodes.now)) }
{
    let mut around = ArrayVec::new();
    let mut stages = Vec::with_capacity(alloc, 2 * nodes.len())?;
    for node in nodes {
        pass(node, &mut around, &mut stages)?;
    }
    leave(0, &mut around, &mut stages)?;
    Ok(stages)
}

/// Passes one node: the groups that it doesn't stand in are left, and it is laid or entered.
fn pass(
    node: &Node,
    around: &mut ArrayVec<Node, 256>,
    stages: &mut Vec<Stage>,
) -> Result<(), NoMemory>
    ensures { OnOk result ((rows : List (Row (Unit {0}))) →
        stages.new.items ++ outline_due 0 around.new.items rows
        ≡ stages.old.items ++ outline_due 0 around.old.items (row_of node.now ∷ rows)) }
{
    leave(node.depth as usize, around, stages)?;
    enter(node, around, stages)
}

/// Lays or enters a visible node that stands right in the innermost of the groups that are laid. One that is deeper
/// stands in a group that isn't.
fn enter(
    node: &Node,
    around: &mut ArrayVec<Node, 256>,
    stages: &mut Vec<Stage>,
) -> Result<(), NoMemory>
    requires { length around.old.items ≤ node.now.depth }
    ensures { OnOk result ((rows : List (Row (Unit {0}))) →
        stages.new.items ++ outline_due 0 around.new.items rows
        ≡ stages.old.items ++ outline_due 0 around.old.items (row_of node.now ∷ rows)) }
{
    if !node.look.visible {
        return Ok(());
    }
    if around.len() != node.depth as usize {
        return Ok(());
    }
    if node.paints {
        stages.push(Stage::Layer {
            id: node.id,
            look: node.look,
        })?;
        return Ok(());
    }
    around.push(*node);
    stages.push(Stage::Open)?;
    Ok(())
}

/// Leaves the groups that stand round no node of that depth, the innermost first.
fn leave(
    depth: usize,
    around: &mut ArrayVec<Node, 256>,
    stages: &mut Vec<Stage>,
) -> Result<(), NoMemory>
    ensures inside { OnOk result (length around.new.items ≤ depth) }
    ensures due { OnOk result ((rows : List (Row (Unit {0}))) → EndsAt (suc depth) rows →
        stages.new.items ++ outline_due 0 around.new.items rows
        ≡ stages.old.items ++ outline_due 0 around.old.items rows) }
{
    let mut left = around.len();
    while left > depth {
        left -= 1;
        stages.push(Stage::Close {
            look: around[left].look,
        })?;
    }
    around.truncate(left);
    Ok(())
}
