//! Changes of the nodes of a tree, each before those in it, in their place.

ghost use Rattle.std.specs.Prelude.{◌≡◌, ℕ, ◌≤◌, ◌+◌, ◌-◌, length, ◌++◌, ◌==◌, map, take, drop, is_some, slice_range};
ghost use Rattle.std.specs.List.{find, remove_range};
ghost use Rattle.tree_core.specs.Nodes.{node_with_look, moved_node, moved_along};

use crate::lookup::Branch;
use crate::node::{Node, moved_node};
use arrayvec::ArrayVec;
use doc_model::Look;

/// Where a branch goes: how many of the other nodes then come before it, the depth at which its first node's children
/// stood, and the depth at which that node then stands.
#[derive(Clone, Copy)]
pub struct Route {
    pub branch: Branch,
    pub at: usize,
    pub from: u8,
    pub to: u8,
}

/// Gives the node with that id another look, and tells whether there is one.
pub fn set_look(nodes: &mut [Node], id: u16, look: Look) -> bool
    ensures set { nodes.new ≡ map (node_with_look id look) nodes.old }
    ensures there { result ≡ is_some (find (λ n. n.id == id) nodes.old) }
{
    let mut there = false;
    for i in 0..nodes.len() {
        if nodes[i].id == id {
            nodes[i].look = look;
            there = true;
        }
    }
    there
}

/// Adds all of the nodes.
pub fn push_all(all: &mut ArrayVec<Node, 256>, nodes: &[Node])
    requires { length all.old.items + length nodes.now ≤ 256 }
    ensures { all.new.items ≡ all.old.items ++ nodes.now }
{
    let _ = all.try_extend_from_slice(nodes);
}

/// Takes the nodes of a branch out.
pub fn take_out(nodes: &mut ArrayVec<Node, 256>, branch: Branch)
    requires order { branch.start ≤ branch.end }
    requires within { branch.end ≤ length nodes.old.items }
    ensures { nodes.new.items ≡ remove_range nodes.old.items branch.start branch.end }
{
    nodes.drain(branch.start..branch.end);
}

/// Moves a branch along its route.
pub fn move_along(nodes: &mut [Node], route: Route)
    requires order { route.branch.start ≤ route.branch.end }
    requires within { route.branch.end ≤ length nodes.old }
    requires place { route.at + (route.branch.end - route.branch.start) ≤ length nodes.old }
    ensures { nodes.new ≡ moved_along route nodes.old }
{
    shift(nodes, route.branch, route.at);
    let end = route.at + (route.branch.end - route.branch.start);
    relevel(&mut nodes[route.at..end], route.from, route.to);
}

/// Moves the nodes of a branch to where so many of the others come before them.
fn shift(nodes: &mut [Node], branch: Branch, at: usize)
    requires order { branch.start ≤ branch.end }
    requires within { branch.end ≤ length nodes.old }
    requires place { at + (branch.end - branch.start) ≤ length nodes.old }
    ensures { nodes.new ≡ take at (remove_range nodes.old branch.start branch.end) ++
        (slice_range nodes.old branch.start branch.end ++ drop at
        (remove_range nodes.old branch.start branch.end)) }
{
    let count = branch.end - branch.start;
    if at <= branch.start {
        nodes[at..branch.end].rotate_left(branch.start - at);
    } else {
        nodes[branch.start..at + count].rotate_left(count);
    }
}

/// Gives the nodes of a branch their new depths.
fn relevel(nodes: &mut [Node], from: u8, to: u8)
    ensures { nodes.new ≡ map (moved_node from to) nodes.old }
{
    for n in nodes.iter_mut() {
        *n = moved_node(*n, from, to);
    }
}
