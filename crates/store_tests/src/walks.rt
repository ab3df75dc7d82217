//! Worked values of walks, and that the calls can succeed.

use crate::fixtures::{ORIGIN, blue, green, red};
use compose_core::Given;
use doc_model::{Change, Look, Patch, Walk};
use geom_core::{NoMemory, Rect, TileKey};
use paint_device::Device;
use pixel_core::{Op, Pixel};
use smallvec::SmallVec;
use std::alloc::Global;
use std::test::Fail;
use tile_core::Tile;
use tree_core::Tree;
use walker_core::{Composed, Gathered, Inputs, Path, all_groups, compose_key, compose_keys, plan};

const NEXT: TileKey = TileKey { row: 0, col: 1 };

/// A tree with the group 1 in the root and the group 2 in it.
fn two_groups() -> Tree {
    let mut tree = Tree::new();
    for (id, parent) in [(1, 0), (2, 1)] {
        let place = 0;
        let _done = tree.change(&Change::Group { id, parent, place });
    }
    tree
}

/// The path of a walk, or none where there is no such group.
fn path_of(alloc: Global, tree: &Tree, walk: Walk) -> Result<Path, NoMemory> {
    match walk {
        Walk::All => plan(alloc, tree, Walk::All),
        Walk::Up(group) if tree.is_group(group) => plan(alloc, tree, Walk::Up(group)),
        Walk::Up(_) => Ok(SmallVec::new(alloc)),
    }
}

fn look(op: Op, opacity: u8, visible: bool) -> Look {
    Look {
        opacity,
        op,
        visible,
    }
}

fn over(opacity: u8) -> Look {
    look(Op::Over, opacity, true)
}

/// What a walk of the root reads where these are its children from the bottom, each of one pixel.
fn root_of(alloc: Global, rect: Rect, children: &[(Look, Pixel)]) -> Result<Inputs, NoMemory> {
    let path = path_of(alloc, &Tree::new(), Walk::Up(0))?;
    let mut gathered = Gathered::new(
        alloc,
        Patch {
            walk: Walk::Up(0),
            rect,
        },
        path,
    );
    for &(look, pixel) in children {
        gathered.add_child(alloc, 0, 7, look, &Device::new(alloc, pixel))?;
    }
    Inputs::new(alloc, gathered)
}

/// The pixel of a group at the corner of a tile, or None where it isn't there.
fn pixel_of(composed: &Composed<'_>, group: u16, key: TileKey) -> Option<Pixel> {
    match composed.given(group, key) {
        Some(Given::Held(tile)) => Some(tile.pixel(0, 0)),
        Some(Given::Plain(pixel)) => Some(*pixel),
        None => None,
    }
}

/// The root's pixel at the corner, of a walk over a part of the corner's tile.
fn root_pixel(
    alloc: Global,
    rect: Rect,
    children: &[(Look, Pixel)],
) -> Result<Option<Pixel>, NoMemory> {
    let inputs = root_of(alloc, rect, children)?;
    let composed = compose_key(alloc, &inputs, ORIGIN)?;
    Ok(pixel_of(&composed, 0, ORIGIN))
}

/// A group's pixel at the corner of a tile, where the first tile and the next one are composed.
fn of_both(
    alloc: Global,
    inputs: &Inputs,
    group: u16,
    key: TileKey,
) -> Result<Option<Pixel>, NoMemory> {
    let composed = compose_keys(alloc, inputs, &[NEXT, ORIGIN])?;
    Ok(pixel_of(&composed, group, key))
}

/// The root's pixel at the corner of a tile, where the next tile alone is composed.
fn of_next(alloc: Global, inputs: &Inputs, key: TileKey) -> Result<Option<Pixel>, NoMemory> {
    let composed = compose_key(alloc, inputs, NEXT)?;
    Ok(pixel_of(&composed, 0, key))
}

#[test]
fn paths(rt: HostRuntime) -> Result<(), Fail> {
    let (alone, nested, alloc) = (Tree::new(), two_groups(), rt.alloc());
    for (tree, walk, path) in [
        (&alone, Walk::Up(0), [0].as_slice()),
        (&nested, Walk::Up(0), [0].as_slice()),
        (&nested, Walk::Up(2), [2, 1, 0].as_slice()),
        (&nested, Walk::All, [2, 1, 0].as_slice()),
    ] {
        assert_eq!(rt; path_of(alloc, tree, walk)?.as_slice(), path);
    }
    assert_eq!(rt; all_groups(&nested).as_slice(), [2, 1, 0].as_slice());
    Ok(())
}

#[test]
fn children_laid_from_the_bottom(rt: HostRuntime) -> Result<(), Fail> {
    let alloc = rt.alloc();
    let part = Rect::new(0, 0, 2, 1).expect(&rt, "a rectangle of the world");
    let hidden = look(Op::Over, 255, false);
    let erase = look(Op::Erase, 255, true);
    let clear = Some(Pixel::CLEAR);
    let rows = [
        (root_pixel(alloc, part, &[])?, clear),
        (
            root_pixel(alloc, part, &[(over(128), red())])?,
            Some(Pixel::new(255, 0, 0, 128)),
        ),
        (
            root_pixel(alloc, part, &[(over(255), red()), (hidden, blue())])?,
            Some(red()),
        ),
        (
            root_pixel(alloc, part, &[(over(255), red()), (over(255), blue())])?,
            Some(blue()),
        ),
        (
            root_pixel(alloc, part, &[(over(255), blue()), (over(51), red())])?,
            Some(Pixel::new(51, 0, 204, 255)),
        ),
        (
            root_pixel(alloc, part, &[(over(255), red()), (erase, blue())])?,
            clear,
        ),
    ];
    for (pixel, expected) in rows {
        assert_eq!(rt; pixel, expected);
    }
    Ok(())
}

#[test]
fn only_what_was_asked(rt: HostRuntime) -> Result<(), Fail> {
    let alloc = rt.alloc();
    let rect = Rect::new(0, 0, 128, 64).expect(&rt, "a rectangle of the world");
    let inputs = root_of(alloc, rect, &[(over(128), red())])?;
    let pixel = Some(Pixel::new(255, 0, 0, 128));
    let rows = [
        (of_both(alloc, &inputs, 0, NEXT)?, pixel),
        (of_both(alloc, &inputs, 0, ORIGIN)?, pixel),
        (of_both(alloc, &inputs, 9, ORIGIN)?, None),
        (of_next(alloc, &inputs, ORIGIN)?, None),
    ];
    for (found, expected) in rows {
        assert_eq!(rt; found, expected);
    }
    Ok(())
}

#[test]
fn a_group_in_a_group(rt: HostRuntime) -> Result<(), Fail> {
    let alloc = rt.alloc();
    let rect = Rect::new(0, 0, 64, 64).expect(&rt, "a rectangle of the world");
    let path = path_of(alloc, &two_groups(), Walk::Up(1))?;
    let mut gathered = Gathered::new(
        alloc,
        Patch {
            walk: Walk::Up(1),
            rect,
        },
        path,
    );
    let mut layer = Device::new(alloc, Pixel::CLEAR);
    layer.ready(ORIGIN)?;
    let tile = Tile::plain(alloc, blue())?;
    if layer.has(ORIGIN) {
        layer.set_tile(ORIGIN, tile);
    }
    let old = Device::new(alloc, green());
    gathered.add_child(alloc, 1, 7, over(255), &layer)?;
    gathered.add_child(alloc, 0, 1, over(51), &old)?;
    let inputs = Inputs::new(alloc, gathered)?;
    let composed = compose_key(alloc, &inputs, ORIGIN)?;
    assert_eq!(rt; pixel_of(&composed, 1, ORIGIN), Some(blue()));
    assert_eq!(rt;
        pixel_of(&composed, 0, ORIGIN),
        Some(Pixel::new(0, 0, 255, 51))
    );
    Ok(())
}

#[test]
fn what_two_walks_read(rt: HostRuntime) -> Result<(), Fail> {
    let alloc = rt.alloc();
    let rect = Rect::new(0, 0, 64, 64).expect(&rt, "a rectangle of the world");
    let first = root_of(alloc, rect, &[(over(255), red())])?;
    assert_eq!(rt; first.same_in(&first.share()?, ORIGIN), true);
    for (children, same) in [
        ([(over(255), red())].as_slice(), true),
        ([(over(255), blue())].as_slice(), false),
        ([(over(254), red())].as_slice(), false),
        ([(over(255), red()), (over(255), red())].as_slice(), false),
    ] {
        let other = root_of(alloc, rect, children)?;
        assert_eq!(rt; first.same_in(&other, ORIGIN), same);
    }
    Ok(())
}
