//! The document's tree, between those of the past and of the future.

ghost use Rattle.std.specs.Prelude.{◌≡◌, [], take, OnOk, IfOk};
ghost use Rattle.doc_model.specs.Changes.{changed};
ghost use Rattle.doc_model.specs.Forest.{none};
ghost use Rattle.trace_state.specs.Histories.{LeadsOn, AllLead, next_tree, formers, course, kept, after_change, change_reach, back, turned, first_reach};
ghost use Rattle.trace_state.specs.Trees.{paints, group_of, tree_path};

use crate::paths::path_of;
use doc_model::{Change, Walk};
use geom_core::{NoMemory, Rect};
use std::alloc::Global;
use std::collections::VecDeque;
use std::marker::Model;
use tree_core::{Exchange, Tree};

/// How far a change reaches: the whole document, or the rectangle round its tiles of one layer.
#[derive(Clone, Copy)]
pub enum Reach {
    Whole,
    Part(u16, Option<Rect>),
}

/// What leads from a document to the one next to it. `tree`: what makes the tree the other one, or None where
/// both have the same, as round a stroke; `reach`: that of the change between them.
#[derive(Drop)]
struct Link {
    tree: Option<Exchange>,
    reach: Reach,
}

impl Link {
    /// Makes the tree the one that the link leads to. The link then leads back. No memory.
    fn exchange(&mut self, tree: &mut Tree)
        requires { LeadsOn self.old.tree tree.old }
        ensures new { tree.new ≡ next_tree self.old.tree tree.old }
        ensures back { next_tree self.new.tree tree.new ≡ tree.old }
        ensures leads { LeadsOn self.new.tree tree.new }
        ensures reach { self.new.reach ≡ self.old.reach }
    {
        match &mut self.tree {
            Some(other) => tree.exchange(other),
            None => {}
        }
    }
}

/// The tree becomes the one that the first link leads to, which then stands first among the others. Answers its
/// reach, or None where there is no link.
fn go(
    tree: &mut Tree,
    links: &mut VecDeque<Link>,
    others: &mut VecDeque<Link>,
) -> Result<Option<Reach>, NoMemory>
    requires links { AllLead tree.old links.old.items }
    requires others { AllLead tree.old others.old.items }
    ensures gone { OnOk result (course tree.new links.new.items others.new.items
        ≡ back (course tree.old links.old.items others.old.items)) }
    ensures reach { IfOk result (λ reach. reach ≡ first_reach (formers tree.old links.old.items)) }
    ensures links { AllLead tree.new links.new.items }
    ensures others { AllLead tree.new others.new.items }
{
    others.reserve(1)?;
    let Some(mut link) = links.pop_front() else {
        return Ok(None);
    };
    let reach = link.reach;
    link.exchange(tree);
    others.push_front_reserved(link);
    Ok(Some(reach))
}

/// The document's tree, which painting doesn't change, and the links to those of the past and of the future, each
/// from the one before it.
#[derive(Drop)]
pub struct History {
    tree: Tree,
    past: VecDeque<Link>,
    future: VecDeque<Link>,
}

impl Model for History {
    ghost use Rattle.trace_state.specs.Histories.{Course, AllLead, course, course_code};

    ghost Value = { Course };

    ghost coded = { course_code };

    ghost view = { λ h. course h.tree h.past.items h.future.items };

    ghost invariant = { λ h. AllLead h.tree h.past.items × AllLead h.tree h.future.items };
}

impl History {
    /// A document of the root alone, with no past and no future.
    pub fn new(alloc: Global) -> History
        ensures { result ≡ record { tree = none; past = []; future = [] } }
    {
        History {
            tree: Tree::new(),
            past: VecDeque::new(alloc),
            future: VecDeque::new(alloc),
        }
    }

    /// Whether the document has such a paint layer.
    pub fn paints(&self, layer: u16) -> bool
        ensures { result ≡ paints layer self.now.tree }
    {
        let _count = self.tree.node_count();
        self.tree.has(layer) && !self.tree.is_group(layer)
    }

    /// The group round a layer.
    pub fn group_of(&self, layer: u16) -> u16
        ensures { result ≡ group_of layer self.now.tree }
    {
        self.tree.parent(layer).unwrap_or(0)
    }

    /// The groups that a walk composes, each after those in it.
    pub fn path(&self, alloc: Global, walk: Walk) -> Result<Vec<u16>, NoMemory>
        ensures { IfOk result (λ path. path.items ≡ tree_path walk self.now.tree) }
    {
        path_of(alloc, &self.tree, walk)
    }

    /// The document becomes the newest of the past, and of the same tree.
    pub fn keep(&mut self, reach: Reach) -> Result<(), NoMemory>
        ensures { OnOk result (self.new ≡ kept self.old reach) }
    {
        self.past.push_front(Link { tree: None, reach })?;
        self.future.clear();
        Ok(())
    }

    /// Changes the tree, or refuses to. Answers the reach of the change, or None where it is refused.
    pub fn change(&mut self, alloc: Global, change: &Change) -> Result<Option<Reach>, NoMemory>
        ensures course { OnOk result (self.new ≡ after_change self.old (changed (λ _. tt) change.now
            self.old.tree)) }
        ensures reach { IfOk result (λ reach. reach ≡ change_reach (changed (λ _. tt) change.now
            self.old.tree)) }
    {
        let mut tree = self.tree.copy();
        if tree.change(change).is_err() {
            return Ok(None);
        }
        let old = tree.exchange_for(alloc, &self.tree)?;
        self.past.push_front(Link {
            tree: Some(old),
            reach: Reach::Whole,
        })?;
        self.future.clear();
        self.tree = tree;
        Ok(Some(Reach::Whole))
    }

    /// Goes back to the newest document of the past. Answers the reach of the change between both, or None where
    /// there is none.
    pub fn undo(&mut self) -> Result<Option<Reach>, NoMemory>
        ensures course { OnOk result (self.new ≡ back self.old) }
        ensures reach { IfOk result (λ reach. reach ≡ first_reach self.old.past) }
    {
        go(&mut self.tree, &mut self.past, &mut self.future)
    }

    /// Goes on to the nearest document of the future. Answers the reach of the change between both, or None where
    /// there is none.
    pub fn redo(&mut self) -> Result<Option<Reach>, NoMemory>
        ensures course { OnOk result (self.new ≡ turned (back (turned self.old))) }
        ensures reach { IfOk result (λ reach. reach ≡ first_reach self.old.future) }
    {
        go(&mut self.tree, &mut self.future, &mut self.past)
    }

    /// Forgets the past but for so many of the newest documents.
    pub fn purge(&mut self, keep: usize)
        ensures { self.new ≡ record self.old { past = take keep self.old.past } }
    {
        self.past.truncate(keep);
    }
}
