//! How a tree becomes another one, and back.

ghost use Rattle.std.specs.Prelude.{◌≡◌, ◌≤◌, length, IfOk};
ghost use Rattle.tree_core.specs.Nodes.{rows_of};
ghost use Rattle.tree_core.specs.Exchanges.{Fits, exchanged};

use crate::node::Node;
use crate::stretch::{Stretch, exchange_stretch, stretch_between};
use crate::turn::{Turn, turn_between, turn_nodes};
use arrayvec::ArrayVec;
use geom_core::NoMemory;
use std::alloc::Global;

/// What makes a tree another one.
///
/// Once it was exchanged it makes that tree the first one again. It has room for that, so no exchange
/// takes memory.
#[derive(Drop)]
pub enum Exchange {
    /// Other nodes come in place of some.
    Nodes(Stretch),
    /// Two parts side by side come in each other's place, as where a node was moved with all below it.
    Turns(Turn),
}

/// What makes the one list of nodes the other.
pub fn between(alloc: Global, here: &[Node], there: &[Node]) -> Result<Exchange, NoMemory>
    requires { length here.now ≤ 256 }
    ensures ok { IfOk result (λ x. exchanged x (rows_of here.now) ≡ rows_of there.now) }
    ensures fits { IfOk result (λ x. Fits x (rows_of here.now)) }
{
    match turn_between(here, there) {
        Some(turn) => Ok(Exchange::Turns(turn)),
        None => Ok(Exchange::Nodes(stretch_between(alloc, here, there)?)),
    }
}

/// Makes the nodes the other ones, and what made them so leads back. No memory.
pub fn exchange_nodes(nodes: &mut ArrayVec<Node, 256>, other: &mut Exchange)
    requires fits { Fits other.old (rows_of nodes.old.items) }
    requires few { length (exchanged other.old (rows_of nodes.old.items)) ≤ 256 }
    ensures new { rows_of nodes.new.items ≡ exchanged other.old (rows_of nodes.old.items) }
    ensures back { exchanged other.new (rows_of nodes.new.items) ≡ rows_of nodes.old.items }
    ensures fits { Fits other.new (rows_of nodes.new.items) }
    ensures most { length nodes.old.items ≤ 256 }
{
    match other {
        Exchange::Nodes(stretch) => exchange_stretch(nodes, stretch),
        Exchange::Turns(parts) => turn_nodes(nodes, parts),
    }
}
