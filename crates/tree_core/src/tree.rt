//! The tree: its readers and its changes.

ghost use Rattle.std.specs.Prelude.{◌≡◌, ℕ, ◌≤◌, ◌+◌, true, false, ◌||◌, ◌==◌, not, None, Ok, Err, IfErr, OnOk, OnErr, IfOk, IsNone, ◌↔◌, length};
ghost use Rattle.doc_model.specs.Changes.{changed, there, takes, child_count, no_new, no_place, set_in, new_look, answer};
ghost use Rattle.doc_model.specs.Flat.{node};
ghost use Rattle.doc_model.specs.Forest.{none, has, is_group, count, depth, height, only, without};
ghost use Rattle.doc_model.specs.declared.tree.Change.TheVariants as change;
ghost use Rattle.tree_core.specs.Exchanges.{Leads, led};
ghost use Rattle.tree_core.specs.Nodes.{content_of};
ghost use Rattle.tree_core.specs.Outline.{outline};
ghost use Rattle.doc_model.specs.Laws.{IsDocument};
ghost use Rattle.doc_model.specs.Readers.{order, parent};
ghost use Rattle.doc_model.specs.Children.{look_in, child_in};

use crate::edits::{move_along, push_all, set_look, take_out};
use crate::exchange::{Exchange, between, exchange_nodes};
use crate::groups::groups_of;
use crate::lookup::{above, child_at, children_at, find, group_at, group_in, holds, span};
use crate::node::{Node, new_node};
use crate::outline::{Stage, outline_of};
use crate::refusals::{new_place, route_of};
use arrayvec::ArrayVec;
use doc_model::{Change, Look, TreeFault};
use geom_core::NoMemory;
use std::alloc::Global;
use std::marker::Model;

/// The tree of a document: the root, which is a group with id 0, and the layers and groups in it.
///
/// It holds at most 256 nodes beside the root, none deeper than 16, each with an id of its own that isn't 0.
#[derive(Drop)]
pub struct Tree {
    nodes: ArrayVec<Node, 256>,
}

impl Model for Tree {
    ghost use Rattle.doc_model.specs.Forest.{Forest};
    ghost use Rattle.tree_core.specs.Codes.{tree_code};

    ghost Value = { Forest (Unit {0}) };

    ghost coded = { tree_code };

    ghost use Rattle.tree_core.specs.Nodes.{tree_of, IsKept};

    ghost view = { λ t. tree_of t.nodes.items };

    ghost invariant = { λ t. IsKept t.nodes.items };
}

impl Tree {
    /// The root alone.
    pub fn new() -> Tree
        ensures { result ≡ none }
    {
        Tree {
            nodes: ArrayVec::new(),
        }
    }

    /// Another tree of the same nodes.
    pub fn copy(&self) -> Tree
        ensures { result ≡ self.now }
    {
        let mut nodes: ArrayVec<Node, 256> = ArrayVec::new();
        push_all(&mut nodes, self.nodes.as_slice());
        Tree { nodes }
    }

    /// How many nodes there are beside the root. It tells the limits that every tree keeps to.
    pub fn node_count(&self) -> u16
        ensures value { result ≡ count self.now }
        ensures few { result ≤ 256 }
        ensures limits { IsDocument self.now }
    {
        self.nodes.len() as u16
    }

    /// The ids of all groups but the root, each after those in it, those side by side from the
    /// bottom. One pass over the nodes.
    pub fn groups(&self) -> ArrayVec<u16, 257>
        ensures order { result.items ≡ order self.now }
        ensures few { length result.items ≤ 256 }
    {
        groups_of(self.nodes.as_slice())
    }

    /// The visible nodes in the order in which they are laid: what stands in a group comes between its beginning and
    /// its end. One pass over the nodes.
    pub fn outline(&self, alloc: Global) -> Result<Vec<Stage>, NoMemory>
        ensures { IfOk result (λ stages. stages.items ≡ outline self.now) }
    {
        outline_of(alloc, self.nodes.as_slice())
    }

    /// Whether the root or a node has that id.
    pub fn has(&self, id: u16) -> bool
        ensures { result ≡ there id self.now }
    {
        id == 0 || holds(self.nodes.as_slice(), id)
    }

    /// Whether the root or a group has that id.
    pub fn is_group(&self, id: u16) -> bool
        ensures { result ≡ takes id self.now }
    {
        id == 0 || self.holds_group(id)
    }

    /// The node's look. None exactly for an id that isn't there, and for the root.
    pub fn look(&self, id: u16) -> Option<Look>
        ensures value { result ≡ look_in id self.now }
        ensures none { IsNone result ↔ (has id self.now ≡ false) }
    {
        match find(self.nodes.as_slice(), id) {
            Some(n) => Some(n.look),
            None => None,
        }
    }

    /// The group round the node. None exactly for an id that isn't there, and for the root.
    pub fn parent(&self, id: u16) -> Option<u16>
        ensures value { result ≡ parent id 0 self.now }
        ensures none { IsNone result ↔ (has id self.now ≡ false) }
    {
        above(self.nodes.as_slice(), id)
    }

    /// How many children the root or a group has; 0 for any other id.
    pub fn child_count(&self, id: u16) -> u16
        ensures value { result ≡ child_count id self.now }
        ensures few { result ≤ 256 }
    {
        match group_at(self.nodes.as_slice(), id) {
            Some(group) => children_at(&self.nodes.as_slice()[group.start..], group.depth) as u16,
            None => 0,
        }
    }

    /// The child of the root or a group at that place, counted from the bottom, from 0. None where none stands there.
    pub fn child(&self, id: u16, place: u16) -> Option<u16>
        ensures { result ≡ child_in id place self.now }
    {
        match group_at(self.nodes.as_slice(), id) {
            Some(group) => child_at(&self.nodes.as_slice()[group.start..], group.depth, place),
            None => None,
        }
    }

    /// Makes the change, or tells its first refusal, which leaves the tree as it was.
    ///
    /// A new layer or group is opaque, laid over and visible. A removed node takes all below it along, and so does a
    /// moved one.
    pub fn change(&mut self, change: &Change) -> Result<(), TreeFault>
        ensures ok { OnOk result (changed (λ _. tt) change.now self.old ≡ Ok self.new) }
        ensures err { IfErr result (λ fault. changed (λ _. tt) change.now self.old ≡ Err fault) }
        ensures same { OnErr result (self.new ≡ self.old) }
    {
        match *change {
            Change::Layer {
                id,
                parent,
                place,
                ..
            } => self.add(id, parent, place, true),
            Change::Group { id, parent, place } => self.add(id, parent, place, false),
            Change::Remove { id } => self.remove(id),
            Change::Place { id, parent, place } => self.place(id, parent, place),
            Change::Look { id, look } => self.set_look(id, look),
        }
    }

    /// What makes this tree the other one. Two passes over the nodes.
    pub fn exchange_for(&self, alloc: Global, other: &Tree) -> Result<Exchange, NoMemory>
        ensures ok { IfOk result (λ x. led x self.now ≡ other.now) }
        ensures leads { IfOk result (λ x. Leads x self.now) }
    {
        between(alloc, self.nodes.as_slice(), other.nodes.as_slice())
    }

    /// Becomes the tree that `other` leads to, and `other` then leads back. No memory.
    pub fn exchange(&mut self, other: &mut Exchange)
        requires { Leads other.old self.old }
        ensures new { self.new ≡ led other.old self.old }
        ensures back { led other.new self.new ≡ self.old }
        ensures leads { Leads other.new self.new }
    {
        exchange_nodes(&mut self.nodes, other);
    }

    /// Whether a group has that id, the root aside.
    fn holds_group(&self, id: u16) -> bool
        ensures { result ≡ is_group id self.now }
    {
        group_in(self.nodes.as_slice(), id)
    }

    /// Sets a new node in, or tells why not.
    fn add(&mut self, id: u16, parent: u16, place: u8, paints: bool) -> Result<(), TreeFault>
        ensures ok { OnOk result (answer (no_new id parent place self.old)
            (set_in parent place (node (content_of paints) id new_look none none) self.old)
            ≡ Ok self.new) }
        ensures err { IfErr result (λ fault. answer (no_new id parent place self.old)
            (set_in parent place (node (content_of paints) id new_look none none) self.old)
            ≡ Err fault) }
        ensures same { OnErr result (self.new ≡ self.old) }
    {
        let found = new_place(self.nodes.as_slice(), id, parent, place)?;
        self.nodes
            .insert(found.at, new_node(found.depth, id, paints));
        Ok(())
    }

    /// Takes the node and all below it out, or tells why not.
    fn remove(&mut self, id: u16) -> Result<(), TreeFault>
        ensures ok { OnOk result (changed (λ _. tt) (change.Remove id) self.old ≡ Ok self.new) }
        ensures err { IfErr result (λ fault. changed (λ _. tt) (change.Remove id) self.old
            ≡ Err fault) }
        ensures same { OnErr result (self.new ≡ self.old) }
    {
        let branch = span(self.nodes.as_slice(), id);
        if branch.start == branch.end {
            return Err(TreeFault::NoNode(id));
        }
        take_out(&mut self.nodes, branch);
        Ok(())
    }

    /// Gives the node another look, or tells why not.
    fn set_look(&mut self, id: u16, look: Look) -> Result<(), TreeFault>
        ensures ok { OnOk result (changed (λ _. tt) (change.Look id look) self.old ≡ Ok self.new) }
        ensures err { IfErr result (λ fault. changed (λ _. tt) (change.Look id look) self.old
            ≡ Err fault) }
        ensures same { OnErr result (self.new ≡ self.old) }
    {
        if set_look(self.nodes.as_mut_slice(), id, look) {
            Ok(())
        } else {
            Err(TreeFault::NoNode(id))
        }
    }

    /// Moves the node and all below it, or tells why not.
    fn place(&mut self, id: u16, parent: u16, place: u8) -> Result<(), TreeFault>
        ensures ok { OnOk result (changed (λ _. tt) (change.Place id parent place) self.old
            ≡ Ok self.new) }
        ensures err { IfErr result (λ fault. changed (λ _. tt) (change.Place id parent place)
            self.old ≡ Err fault) }
        ensures same { OnErr result (self.new ≡ self.old) }
    {
        let route = route_of(self.nodes.as_slice(), id, parent, place)?;
        move_along(self.nodes.as_mut_slice(), route);
        Ok(())
    }
}
