//! Nodes that come in place of others.

ghost use Rattle.std.specs.Prelude.{◌≡◌, ◌≤◌, ◌+◌, ◌-◌, length, vec_capacity, IfOk};
ghost use Rattle.tree_core.specs.Nodes.{rows_of};
ghost use Rattle.tree_core.specs.Exchanges.{HasRoom, replaced};

use crate::common::{common_back, common_front};
use crate::edits::push_all;
use crate::node::Node;
use arrayvec::ArrayVec;
use geom_core::NoMemory;
use std::alloc::Global;

/// The nodes of another tree where it differs, and where they stand.
#[derive(Drop)]
pub struct Stretch {
    /// How many nodes stand before those that differ, and how many of the tree's differ.
    pub at: u16,
    pub count: u16,
    /// Those of the other tree, with room for the tree's.
    pub others: Vec<Node>,
}

/// All nodes of the other list but the longest front and back that both have. Two passes.
pub fn stretch_between(alloc: Global, here: &[Node], there: &[Node]) -> Result<Stretch, NoMemory>
    requires { length here.now ≤ 256 }
    ensures ok { IfOk result (λ s. replaced s.at s.count (rows_of s.others.items) (rows_of here.now)
        ≡ rows_of there.now) }
    ensures room { IfOk result (λ s. HasRoom s (rows_of here.now)) }
{
    let at = common_front(here, there);
    let back = common_back(&here[at..], &there[at..]);
    let count = here.len() - at - back;
    let others = with_room(alloc, &there[at..there.len() - back], count)?;
    Ok(Stretch {
        at: at as u16,
        count: count as u16,
        others,
    })
}

/// Exchanges the nodes with those that stand in their place. No memory.
pub fn exchange_stretch(nodes: &mut ArrayVec<Node, 256>, stretch: &mut Stretch)
    requires room { HasRoom stretch.old (rows_of nodes.old.items) }
    requires few { length (replaced stretch.old.at stretch.old.count
        (rows_of stretch.old.others.items) (rows_of nodes.old.items)) ≤ 256 }
    ensures new { rows_of nodes.new.items ≡ replaced stretch.old.at stretch.old.count
        (rows_of stretch.old.others.items) (rows_of nodes.old.items) }
    ensures back { replaced stretch.new.at stretch.new.count (rows_of stretch.new.others.items)
        (rows_of nodes.new.items) ≡ rows_of nodes.old.items }
    ensures room { HasRoom stretch.new (rows_of nodes.new.items) }
    ensures most { length nodes.old.items ≤ 256 }
{
    let at = stretch.at as usize;
    let end = at + stretch.count as usize;
    let new = replaced(nodes.as_slice(), at, end, stretch.others.as_slice());
    stretch.count = stretch.others.len() as u16;
    refill(&mut stretch.others, &nodes.as_slice()[at..end]);
    *nodes = new;
}

/// The nodes with others in place of those from `at` to `end`.
pub fn replaced(nodes: &[Node], at: usize, end: usize, others: &[Node]) -> ArrayVec<Node, 256>
    requires order { at ≤ end }
    requires within { end ≤ length nodes.now }
    requires few { at + length others.now + (length nodes.now - end) ≤ 256 }
    ensures { result.items ≡ replaced at (end - at) others.now nodes.now }
{
    let mut all: ArrayVec<Node, 256> = ArrayVec::new();
    push_all(&mut all, &nodes[..at]);
    push_all(&mut all, others);
    push_all(&mut all, &nodes[end..]);
    all
}

/// These nodes, with room for so many.
fn with_room(alloc: Global, nodes: &[Node], most: usize) -> Result<Vec<Node>, NoMemory>
    ensures ok { IfOk result (λ v. v.items ≡ nodes.now) }
    ensures room { IfOk result (λ v. most ≤ vec_capacity v) }
{
    let mut all = Vec::with_capacity(alloc, most.max(nodes.len()))?;
    all.extend_from_slice(nodes)?;
    Ok(all)
}

/// Other nodes, for which there is room.
fn refill(all: &mut Vec<Node>, nodes: &[Node])
    requires { length nodes.now ≤ vec_capacity all.old }
    ensures items { all.new.items ≡ nodes.now }
    ensures room { vec_capacity all.old ≤ vec_capacity all.new }
{
    all.clear();
    let _ = all.extend_from_slice(nodes);
}
