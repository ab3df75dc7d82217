//! Parts of the nodes that come in each other's place.

ghost use Rattle.std.specs.Prelude.{◌≡◌, ◌≤◌, ◌+◌, ◌++◌, true, length, map, IfSome};
ghost use Rattle.tree_core.specs.Nodes.{row_of, rows_of};
ghost use Rattle.tree_core.specs.Exchanges.{TurnsBack, brought, turned, turned_back};

use crate::common::{all_same, common_back, common_front};
use crate::node::Node;
use crate::stretch::replaced;
use arrayvec::ArrayVec;

/// A part: how many nodes, and by how many levels they go down or up.
#[derive(Clone, Copy)]
pub struct Lot {
    pub count: u16,
    pub down: u8,
    pub up: u8,
}

/// Two parts side by side, from the node `at` on, of which the second is to come first.
#[derive(Clone, Copy)]
pub struct Turn {
    pub at: u16,
    pub first: Lot,
    pub second: Lot,
}

/// The turn that makes the one list of nodes the other. None where it is no turn.
pub fn turn_between(here: &[Node], there: &[Node]) -> Option<Turn>
    ensures same { IfSome result (λ t. turned t (rows_of here.now) ≡ rows_of there.now) }
    ensures back { IfSome result (λ t. TurnsBack t (rows_of here.now)) }
{
    let turn = likely(here, there)?;
    if makes(here, turn, there) && makes(there, turned_back(turn), here) {
        Some(turn)
    } else {
        None
    }
}

/// Turns the nodes, and what turned them turns them back. No memory.
pub fn turn_nodes(nodes: &mut ArrayVec<Node, 256>, parts: &mut Turn)
    requires { TurnsBack parts.old (rows_of nodes.old.items) }
    ensures new { rows_of nodes.new.items ≡ turned parts.old (rows_of nodes.old.items) }
    ensures back { turned parts.new (rows_of nodes.new.items) ≡ rows_of nodes.old.items }
    ensures turns { TurnsBack parts.new (rows_of nodes.new.items) }
    ensures most { length nodes.old.items ≤ 256 }
{
    let new = turned(nodes.as_slice(), *parts);
    *parts = turned_back(*parts);
    *nodes = new;
}

/// What takes the turn back.
fn turned_back(turn: Turn) -> Turn
    ensures { result ≡ turned_back turn }
{
    Turn {
        at: turn.at,
        first: back(turn.second),
        second: back(turn.first),
    }
}

/// The part where it came from.
fn back(lot: Lot) -> Lot
    ensures { result ≡ record { count = lot.count; down = lot.up; up = lot.down } }
{
    Lot {
        count: lot.count,
        down: lot.up,
        up: lot.down,
    }
}

/// The one turn that may make the list of nodes the other: the ids tell where the second part begins,
/// and the depths of the first nodes of both how many levels they go. None where it can be no turn.
fn likely(here: &[Node], there: &[Node]) -> Option<Turn> {
    if here.len() != there.len() || here.len() > 256 {
        return None;
    }
    let at = common_front(here, there);
    let end = here.len() - common_back(&here[at..], &there[at..]);
    let comes = there.get(at)?;
    let first = here[at..end].iter().position(|n| n.id == comes.id)?;
    let second = end - at - first;
    Some(Turn {
        at: at as u16,
        first: lot_of(
            first,
            here.get(at)?,
            there.get(at + second).unwrap_or(comes),
        ),
        second: lot_of(second, here.get(at + first)?, comes),
    })
}

/// So many nodes, of which the first goes from the one depth to the other.
fn lot_of(count: usize, from: &Node, to: &Node) -> Lot
    requires { count ≤ 256 }
{
    Lot {
        count: count as u16,
        down: to.depth.saturating_sub(from.depth),
        up: from.depth.saturating_sub(to.depth),
    }
}

/// Whether the parts are there, and the turn makes the one list of nodes the other.
fn makes(here: &[Node], turn: Turn, there: &[Node]) -> bool
    ensures within { result ≡ true → turn.at + (turn.first.count + turn.second.count) ≤ length
        here.now }
    ensures same { result ≡ true → turned turn (rows_of here.now) ≡ rows_of there.now }
{
    let end = turn.at as usize + (turn.first.count as usize + turn.second.count as usize);
    end <= here.len() && here.len() <= 256 && all_same(turned(here, turn).as_slice(), there)
}

/// The nodes with the two parts in each other's place.
fn turned(nodes: &[Node], turn: Turn) -> ArrayVec<Node, 256>
    requires within { turn.at + (turn.first.count + turn.second.count) ≤ length nodes.now }
    requires few { length nodes.now ≤ 256 }
    ensures { rows_of result.items ≡ turned turn (rows_of nodes.now) }
{
    let at = turn.at as usize;
    let middle = at + turn.first.count as usize;
    let end = at + (turn.first.count as usize + turn.second.count as usize);
    let mut parts: ArrayVec<Node, 256> = ArrayVec::new();
    bring(&mut parts, &nodes[middle..end], turn.second);
    bring(&mut parts, &nodes[at..middle], turn.first);
    replaced(nodes, at, end, parts.as_slice())
}

/// Adds the nodes of a part, on their new levels.
fn bring(all: &mut ArrayVec<Node, 256>, nodes: &[Node], lot: Lot)
    requires { length all.old.items + length nodes.now ≤ 256 }
    ensures rows { rows_of all.new.items ≡ rows_of all.old.items ++ map (brought lot)
        (rows_of nodes.now) }
    ensures count { length all.new.items ≡ length all.old.items + length nodes.now }
{
    for n in nodes {
        all.push(brought(*n, lot));
    }
}

/// A node of a part on its new level.
fn brought(node: Node, lot: Lot) -> Node
    ensures { row_of result ≡ brought lot (row_of node) }
{
    let depth = (node.depth as usize + lot.down as usize)
        .saturating_sub(lot.up as usize)
        .min(255) as u8;
    Node { depth, ..node }
}
