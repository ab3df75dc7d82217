//! Trees: their refusals in order, their readers and their limits.

use crate::fixtures::{self, crosses};
use doc_model::{Change, Look, TreeFault};
use pixel_core::{Op, Pixel};
use std::alloc::Global;
use std::process::Abort;
use std::test::Fail;
use tree_core::{Exchange, Tree};

fn layer(id: u16, parent: u16, place: u8) -> Change {
    fixtures::layer(id, parent, place, Pixel::CLEAR)
}

fn group(id: u16, parent: u16, place: u8) -> Change {
    Change::Group { id, parent, place }
}

fn place(id: u16, parent: u16, place: u8) -> Change {
    Change::Place { id, parent, place }
}

/// The groups 1 and 4 in it, the layers 2 and 3 in 1 and 5 in 4, and above them the layers 6 and 7.
fn grown(rt: &impl Abort) -> Tree {
    let mut tree = Tree::new();
    for change in [
        group(1, 0, 0),
        layer(2, 1, 0),
        layer(3, 1, 1),
        group(4, 1, 2),
        layer(5, 4, 0),
        layer(6, 0, 1),
        layer(7, 0, 2),
    ] {
        assert_eq!(rt; tree.change(&change), Ok(()));
    }
    tree
}

/// Asserts that the nodes with small ids stand alike in both trees.
fn same_trees(rt: &impl Abort, one: &Tree, other: &Tree) {
    for id in 0..10 {
        assert_eq!(rt; one.parent(id), other.parent(id));
        assert_eq!(rt; one.look(id), other.look(id));
        assert_eq!(rt; one.is_group(id), other.is_group(id));
        for place in 0..4 {
            assert_eq!(rt; one.child(id, place), other.child(id, place));
        }
    }
}

#[test]
fn each_refusal_comes_first_in_its_order(rt: HostRuntime) {
    let mut tree = Tree::new();
    for (change, want) in [
        (group(1, 0, 0), Ok(())),
        (layer(2, 1, 0), Ok(())),
        (layer(2, 0, 0), Err(TreeFault::Taken(2))),
        (layer(0, 0, 0), Err(TreeFault::Taken(0))),
        (layer(3, 9, 0), Err(TreeFault::NoNode(9))),
        (layer(3, 2, 0), Err(TreeFault::NotGroup(2))),
        (layer(3, 0, 2), Err(TreeFault::BadPlace(2))),
        (
            Change::Place {
                id: 1,
                parent: 1,
                place: 0,
            },
            Err(TreeFault::IntoItself(1)),
        ),
        (
            Change::Place {
                id: 1,
                parent: 0,
                place: 1,
            },
            Err(TreeFault::BadPlace(1)),
        ),
        (Change::Remove { id: 7 }, Err(TreeFault::NoNode(7))),
        (Change::Remove { id: 0 }, Err(TreeFault::NoNode(0))),
    ] {
        assert_eq!(rt; tree.change(&change), want);
    }
    assert_eq!(rt; tree.node_count(), 2);
}

#[test]
fn readers_tell_the_tree(rt: HostRuntime) {
    let mut tree = Tree::new();
    let dim = Look {
        opacity: 77,
        op: Op::Multiply,
        visible: false,
    };
    for change in [
        group(5, 0, 0),
        layer(6, 5, 0),
        layer(7, 0, 0),
        layer(8, 5, 0),
        layer(9, 5, 0),
        Change::Look { id: 6, look: dim },
        Change::Place {
            id: 8,
            parent: 0,
            place: 2,
        },
    ] {
        assert_eq!(rt; tree.change(&change), Ok(()));
    }
    let copy = tree.copy();
    crosses(&copy);
    assert_eq!(rt; tree.change(&Change::Remove { id: 5 }), Ok(()));
    assert_eq!(rt; tree.node_count(), 2);
    assert_eq!(rt; copy.child_count(0), 3);
    assert_eq!(rt; copy.child(0, 2), Some(8));
    assert_eq!(rt; copy.parent(6), Some(5));
    assert_eq!(rt; copy.look(6), Some(dim));
}

/// The tree with the change, and back, by what makes the one the other. It tells whether that is a turn.
fn goes_and_comes(rt: &impl Abort, alloc: Global, change: &Change) -> Result<bool, Fail> {
    let old = grown(rt);
    let mut new = old.copy();
    assert_eq!(rt; new.change(change), Ok(()));
    let mut tree = old.copy();
    let mut exchange = old.exchange_for(alloc, &new)?;
    let turns = match &exchange {
        Exchange::Turns(_) => true,
        Exchange::Nodes(_) => false,
    };
    tree.exchange(&mut exchange);
    same_trees(rt, &tree, &new);
    tree.exchange(&mut exchange);
    same_trees(rt, &tree, &old);
    tree.exchange(&mut exchange);
    same_trees(rt, &tree, &new);
    Ok(turns)
}

#[test]
fn exchanges_lead_to_the_other_tree_and_back(rt: HostRuntime) -> Result<(), Fail> {
    let dim = Look {
        opacity: 77,
        op: Op::Multiply,
        visible: false,
    };
    for (change, turns) in [
        (layer(8, 4, 1), false),
        (group(8, 0, 0), false),
        (Change::Remove { id: 1 }, false),
        (Change::Remove { id: 7 }, false),
        (Change::Look { id: 3, look: dim }, false),
        (place(1, 0, 2), true),
        (place(7, 0, 0), true),
        (place(2, 1, 2), true),
        (place(4, 0, 0), true),
        (place(6, 4, 0), true),
        (place(4, 0, 1), true),
        (place(6, 1, 3), true),
    ] {
        assert_eq!(rt; goes_and_comes(&rt, rt.alloc(), &change)?, turns);
    }
    Ok(())
}

#[test]
fn no_tree_is_too_full_or_too_deep(rt: HostRuntime) {
    let mut wide = Tree::new();
    for id in 1..257 {
        assert_eq!(rt; wide.change(&layer(id, 0, 0)), Ok(()));
    }
    assert_eq!(rt;
        wide.change(&layer(257, 0, 0)),
        Err(TreeFault::TreeFull(256))
    );
    let mut deep = Tree::new();
    for id in 1..17 {
        assert_eq!(rt; deep.change(&group(id, id - 1, 0)), Ok(()));
    }
    assert_eq!(rt; deep.change(&group(17, 16, 0)), Err(TreeFault::TooDeep(16)));
}
