//! Where a new or a moved node goes, or why it can't.

ghost use Rattle.std.specs.Prelude.{◌≡◌, ℕ, ◌≤◌, ◌<◌, ◌+◌, ◌-◌, None, Some, ◌&&◌, not, OnOk, IfOk, IfErr, length, nat_lt, if◌then◌else◌};
ghost use Rattle.doc_model.specs.Changes.{no_new, no_place, set_in};
ghost use Rattle.doc_model.specs.Flat.{flat};
ghost use Rattle.doc_model.specs.Forest.{depth, has, only, without};
ghost use Rattle.doc_model.specs.declared.tree.TreeFault.TheVariants as fault;
ghost use Rattle.tree_core.specs.Nodes.{rows_of, tree_of, at_place, moved_along, IsKept};

use crate::edits::Route;
use crate::lookup::{Branch, Group, group_at, holds, levels, place_at, span};
use crate::node::Node;
use doc_model::TreeFault;

/// The most nodes beside the root.
const MOST_NODES: u16 = 256;

/// The greatest depth of a node; the root's is 0.
const MOST_DEPTH: u8 = 16;

/// Where a new node stands among the others, and its depth.
#[derive(Clone, Copy)]
pub struct NodePlace {
    pub at: usize,
    pub depth: u8,
}

/// Where a new node goes, or the first reason why it can't come.
pub fn new_place(nodes: &[Node], id: u16, parent: u16, place: u8) -> Result<NodePlace, TreeFault>
    requires kept { IsKept nodes.now }
    ensures ok { OnOk result (no_new id parent place (tree_of nodes.now) ≡ None) }
    ensures err { IfErr result (λ fault. no_new id parent place (tree_of nodes.now) ≡ Some fault) }
    ensures at { IfOk result (λ found. found.at ≡ at_place parent place nodes.now) }
    ensures within { IfOk result (λ found. found.at ≤ length nodes.now) }
    ensures depth { IfOk result (λ found. found.depth ≡ depth parent (tree_of nodes.now)) }
{
    if id == 0 || holds(nodes, id) {
        return Err(TreeFault::Taken(id));
    }
    let Some(group) = group_at(nodes, parent) else {
        return Err(no_group(nodes, parent));
    };
    if nodes.len() == MOST_NODES as usize {
        return Err(TreeFault::TreeFull(MOST_NODES));
    }
    if group.depth + 1 > MOST_DEPTH {
        return Err(TreeFault::TooDeep(MOST_DEPTH));
    }
    let nothing = Branch { start: 0, end: 0 };
    match place_at(nodes, nothing, group, place) {
        Some(at) => Ok(NodePlace {
            at,
            depth: group.depth,
        }),
        None => Err(TreeFault::BadPlace(place)),
    }
}

/// Where a node goes with all below it, or the first reason why it can't be moved.
pub fn route_of(nodes: &[Node], id: u16, parent: u16, place: u8) -> Result<Route, TreeFault>
    requires kept { IsKept nodes.now }
    ensures ok { OnOk result (no_place id parent place (tree_of nodes.now) ≡ None) }
    ensures err { IfErr result (λ fault. no_place id parent place (tree_of nodes.now)
        ≡ Some fault) }
    ensures moved { IfOk result (λ route. rows_of (moved_along route nodes.now)
        ≡ flat 0 (set_in parent place (only id (tree_of nodes.now))
        (without id (tree_of nodes.now)))) }
    ensures order { IfOk result (λ route. route.branch.start ≤ route.branch.end) }
    ensures within { IfOk result (λ route. route.branch.end ≤ length nodes.now) }
    ensures place { IfOk result (λ route. route.at + (route.branch.end - route.branch.start) ≤
        length nodes.now) }
{
    let branch = span(nodes, id);
    if branch.start == branch.end {
        return Err(TreeFault::NoNode(id));
    }
    let Some(group) = group_at(nodes, parent) else {
        return Err(no_group(nodes, parent));
    };
    if stands_in(branch, group) {
        return Err(TreeFault::IntoItself(id));
    }
    if group.depth as usize + levels(&nodes[branch.start..branch.end]) > MOST_DEPTH as usize {
        return Err(TreeFault::TooDeep(MOST_DEPTH));
    }
    let beside = Group {
        start: start_beside(branch, group.start),
        depth: group.depth,
    };
    match place_at(nodes, branch, beside, place) {
        Some(at) => Ok(Route {
            branch,
            at,
            from: nodes[branch.start].depth + 1,
            to: group.depth,
        }),
        None => Err(TreeFault::BadPlace(place)),
    }
}

/// Why there is no such group: no node has the id, or a layer.
fn no_group(nodes: &[Node], id: u16) -> TreeFault
    requires kept { IsKept nodes.now }
    ensures { result ≡ if has id (tree_of nodes.now) then fault.NotGroup id else fault.NoNode id }
{
    if holds(nodes, id) {
        TreeFault::NotGroup(id)
    } else {
        TreeFault::NoNode(id)
    }
}

/// Whether the group is one of the branch.
fn stands_in(branch: Branch, group: Group) -> bool
    ensures { result ≡ (nat_lt branch.start group.start && not (nat_lt branch.end group.start)) }
{
    branch.start < group.start && group.start <= branch.end
}

/// Where the nodes of a group begin among those but the branch's.
fn start_beside(branch: Branch, start: usize) -> usize
    requires order { branch.start ≤ branch.end }
    requires outside { branch.start < start → branch.end < start }
    ensures { result ≡ if nat_lt branch.start start then start - (branch.end - branch.start) else
        start }
{
    if branch.start < start {
        start - (branch.end - branch.start)
    } else {
        start
    }
}
