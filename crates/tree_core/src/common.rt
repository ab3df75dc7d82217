//! What two lists of nodes have in common.

ghost use Rattle.std.specs.Prelude.{◌≡◌, ◌≤◌, ◌-◌, true, length, take, drop};

use crate::node::Node;

/// How many nodes stand first in both.
pub fn common_front(here: &[Node], there: &[Node]) -> usize
    ensures within { result ≤ length here.now }
    ensures there { result ≤ length there.now }
    ensures same { take result here.now ≡ take result there.now }
{
    let mut front = 0;
    while front < here.len() && front < there.len() && same(here[front], there[front]) {
        front += 1;
    }
    front
}

/// How many nodes stand last in both.
pub fn common_back(here: &[Node], there: &[Node]) -> usize
    ensures within { result ≤ length here.now }
    ensures there { result ≤ length there.now }
    ensures same { drop (length here.now - result) here.now ≡ drop (length there.now - result)
        there.now }
{
    let mut back = 0;
    while back < here.len()
        && back < there.len()
        && same(here[here.len() - 1 - back], there[there.len() - 1 - back])
    {
        back += 1;
    }
    back
}

/// Whether both have just the same nodes.
pub fn all_same(here: &[Node], there: &[Node]) -> bool
    ensures { result ≡ true → here.now ≡ there.now }
{
    here.len() == there.len() && common_front(here, there) == here.len()
}

/// Whether the nodes are one and the same.
fn same(a: Node, b: Node) -> bool
    ensures { result ≡ true → a ≡ b }
{
    a == b
}
