//! Passes over the nodes of a tree, each before those in it, that look something up.

ghost use Rattle.std.specs.Prelude.{◌≡◌, ℕ, ◌≤◌, ◌<◌, ◌+◌, ◌==◌, ◌&&◌, ◌-◌, not, length, drop, nat_lt, is_some, IfSome, slice_range, slice_index_or};
ghost use Rattle.std.specs.List.{find, list_any, take_while, remove_range};
ghost use Rattle.doc_model.specs.Changes.{takes};
ghost use Rattle.doc_model.specs.Flat.{flat, read};
ghost use Rattle.doc_model.specs.Forest.{has, width, depth, only, without};
ghost use Rattle.doc_model.specs.Readers.{parent};
ghost use Rattle.doc_model.specs.Children.{side_at};
ghost use Rattle.tree_core.specs.Nodes.{rows_of, tree_of, start_in, nodes_before, last_low, greatest_depth, levels, IsKept};

use crate::node::Node;

/// Where a node and those below it stand: from `start` up to `end`.
#[derive(Clone, Copy)]
pub struct Branch {
    pub start: usize,
    pub end: usize,
}

/// Where the nodes in the root or in a group begin, and the depth of its children.
#[derive(Clone, Copy)]
pub struct Group {
    pub start: usize,
    pub depth: u8,
}

/// The node with that id.
pub fn find(nodes: &[Node], id: u16) -> Option<Node>
    ensures { result ≡ find (λ n. n.id == id) nodes.now }
{
    for n in nodes {
        if n.id == id {
            return Some(*n);
        }
    }
    None
}

/// Whether a group has that id.
pub fn group_in(nodes: &[Node], id: u16) -> bool
    ensures { result ≡ list_any (λ n. (n.id == id) && not n.paints) nodes.now }
{
    nodes.iter().any(|n| n.id == id && !n.paints)
}

/// Whether a node has that id.
pub fn holds(nodes: &[Node], id: u16) -> bool
    requires kept { IsKept nodes.now }
    ensures { result ≡ has id (tree_of nodes.now) }
{
    find(nodes, id).is_some()
}

/// Where the nodes in the root or the group with that id begin. None where no group has the id.
pub fn group_at(nodes: &[Node], id: u16) -> Option<Group>
    requires kept { IsKept nodes.now }
    ensures there { is_some result ≡ takes id (tree_of nodes.now) }
    ensures start { IfSome result (λ group. group.start ≡ start_in id nodes.now) }
    ensures depth { IfSome result (λ group. group.depth ≡ depth id (tree_of nodes.now)) }
    ensures within { IfSome result (λ group. group.start ≤ length nodes.now) }
{
    if id == 0 {
        return Some(Group { start: 0, depth: 0 });
    }
    for i in 0..nodes.len() {
        if nodes[i].id == id {
            if nodes[i].paints {
                return None;
            }
            return Some(Group {
                start: i + 1,
                depth: nodes[i].depth + 1,
            });
        }
    }
    None
}

/// How many nodes stand at that depth before the first above it.
pub fn children_at(nodes: &[Node], depth: u8) -> usize
    ensures value { result ≡ width (read depth (rows_of nodes.now)) }
    ensures few { result ≤ length nodes.now }
{
    let mut count = 0;
    for n in nodes {
        if n.depth < depth {
            return count;
        }
        if n.depth == depth {
            count += 1;
        }
    }
    count
}

/// The id of the node at that place among those at the depth, before the first above it.
pub fn child_at(nodes: &[Node], depth: u8, place: u16) -> Option<u16>
    ensures { result ≡ side_at place (read depth (rows_of nodes.now)) }
{
    let mut passed = 0;
    for n in nodes {
        if n.depth < depth {
            return None;
        }
        passed += u32::from(n.depth == depth);
        if passed > place as u32 {
            return Some(n.id);
        }
    }
    None
}

/// One of the nodes but those of the branch, counted without them.
#[inline]
fn other(nodes: &[Node], branch: Branch, i: usize) -> Node
    requires order { branch.start ≤ branch.end }
    requires within { i < length (remove_range nodes.now branch.start branch.end) }
    ensures { result ≡ slice_index_or (remove_range nodes.now branch.start branch.end) i result }
{
    if i < branch.start {
        nodes[i]
    } else {
        nodes[i + (branch.end - branch.start)]
    }
}

/// How many nodes stand before that place of a group, the branch's left out. None where the group has too few children.
pub fn place_at(nodes: &[Node], branch: Branch, group: Group, place: u8) -> Option<usize>
    requires order { branch.start ≤ branch.end }
    requires within { branch.end ≤ length nodes.now }
    requires start { group.start ≤ length (remove_range nodes.now branch.start branch.end) }
    ensures there { is_some result ≡ not (nat_lt
        (width (read group.depth (rows_of (drop group.start (remove_range nodes.now branch.start
        branch.end))))) place) }
    ensures at { IfSome result (λ at. at ≡ group.start + nodes_before group.depth place
        (drop group.start (remove_range nodes.now branch.start branch.end))) }
    ensures within { IfSome result (λ at. at ≤ length (remove_range nodes.now branch.start
        branch.end)) }
{
    let count = nodes.len() - (branch.end - branch.start);
    let mut passed = 0;
    for i in group.start..count {
        let depth = other(nodes, branch, i).depth;
        if depth < group.depth {
            return if passed == place as u32 {
                Some(i)
            } else {
                None
            };
        }
        passed += u32::from(depth == group.depth);
        if passed > place as u32 {
            return Some(i);
        }
    }
    if passed == place as u32 {
        Some(count)
    } else {
        None
    }
}

/// Where the node with that id stands and where those below it end, or an empty branch at the end where no node has the id.
pub fn span(nodes: &[Node], id: u16) -> Branch
    requires kept { IsKept nodes.now }
    ensures order { result.start ≤ result.end }
    ensures within { result.end ≤ length nodes.now }
    ensures branch { rows_of (slice_range nodes.now result.start result.end)
        ≡ flat (depth id (tree_of nodes.now) - 1) (only id (tree_of nodes.now)) }
    ensures left { tree_of (remove_range nodes.now result.start result.end)
        ≡ without id (tree_of nodes.now) }
    ensures kept { IsKept (remove_range nodes.now result.start result.end) }
{
    for i in 0..nodes.len() {
        if nodes[i].id == id {
            return Branch {
                start: i,
                end: i + 1 + deeper(&nodes[i + 1..], nodes[i].depth),
            };
        }
    }
    Branch {
        start: nodes.len(),
        end: nodes.len(),
    }
}

/// How many nodes stand deeper before the first that doesn't.
fn deeper(nodes: &[Node], depth: u8) -> usize
    ensures value { result ≡ length (take_while (λ n. nat_lt depth n.depth) nodes.now) }
    ensures few { result ≤ length nodes.now }
{
    for i in 0..nodes.len() {
        if nodes[i].depth <= depth {
            return i;
        }
    }
    nodes.len()
}

/// The group round the node, sought from the end: the last node before it that stands above it, or the root. None where
/// no node has that id.
pub fn above(nodes: &[Node], id: u16) -> Option<u16>
    requires kept { IsKept nodes.now }
    ensures { result ≡ parent id 0 (tree_of nodes.now) }
{
    for back in 0..nodes.len() {
        let at = nodes.len() - 1 - back;
        if nodes[at].id == id {
            return Some(last_above(&nodes[..at], nodes[at].depth));
        }
    }
    None
}

/// The id of the last node above the depth, or the root's.
fn last_above(nodes: &[Node], depth: u8) -> u16
    ensures { result ≡ last_low depth 0 nodes.now }
{
    for back in 0..nodes.len() {
        let n = nodes[nodes.len() - 1 - back];
        if n.depth < depth {
            return n.id;
        }
    }
    0
}

/// How many levels a node has with those below it.
pub fn levels(moved: &[Node]) -> usize
    ensures value { result ≡ levels moved.now }
    ensures few { result ≤ 256 }
{
    match moved {
        [first, ..] => (deepest(moved) as usize + 1).saturating_sub(first.depth as usize),
        [] => 0,
    }
}

/// The greatest depth of a node.
fn deepest(nodes: &[Node]) -> u8
    ensures { result ≡ greatest_depth nodes.now }
{
    let mut most = 0;
    for n in nodes {
        most = n.depth.max(most);
    }
    most
}
