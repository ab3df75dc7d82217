//! What patches of walks leave in caches, and which caches a change of the tree keeps.

use crate::fixtures::{ORIGIN, red};
use compose_core::Given;
use geom_core::{NoMemory, Rect};
use group_caches::Caches;
use pixel_core::Pixel;
use std::alloc::Global;
use std::process::Abort;
use std::test::Fail;
use tile_core::Tile;

/// Blue that covers half.
fn pale() -> Pixel {
    Pixel::new(0, 0, 255, 128)
}

/// The caches of the root and the groups 2 and 7, with 7 red in its first tile and 2 blue in the
/// rectangle of two columns and three rows from (1, 0) on.
fn painted(rt: &impl Abort, alloc: Global) -> Result<Caches, NoMemory> {
    let part = Rect::new(1, 0, 2, 3).expect(rt, "a rectangle of the world");
    let mut caches = Caches::new(alloc)?;
    caches.keep([7, 2, 0].as_slice());
    put(rt, &mut caches, 7, &ORIGIN.rect(), &Given::Plain(red()))?;
    put(rt, &mut caches, 2, &part, &Given::Plain(pale()))?;
    Ok(caches)
}

/// Lays a picture on the first tile of a group's cache.
fn put(
    rt: &impl Abort,
    caches: &mut Caches,
    group: u16,
    rect: &Rect,
    given: &Given,
) -> Result<(), NoMemory> {
    assert!(rt; caches.device(group).is_some());
    caches.put(group, rect, ORIGIN, given)
}

#[test]
fn a_patch_changes_its_points_in_its_group_alone(rt: HostRuntime) -> Result<(), Fail> {
    let caches = painted(&rt, rt.alloc())?;
    let cases = [
        (7, 0, 0, red()),
        (7, 63, 63, red()),
        (7, 64, 0, Pixel::CLEAR),
        (2, 1, 0, pale()),
        (2, 2, 2, pale()),
        (2, 0, 0, Pixel::CLEAR),
        (2, 3, 0, Pixel::CLEAR),
        (2, 1, 3, Pixel::CLEAR),
        (0, 1, 0, Pixel::CLEAR),
        (9, 1, 0, Pixel::CLEAR),
    ];
    for (group, x, y, pixel) in cases {
        assert_eq!(rt; caches.at(group, x, y), pixel);
    }
    Ok(())
}

#[test]
fn a_part_of_a_tile_that_is_held_elsewhere(rt: HostRuntime) -> Result<(), Fail> {
    let alloc = rt.alloc();
    let mut caches = painted(&rt, alloc)?;
    let walked = Given::Held(Tile::plain(alloc, red())?);
    put(&rt, &mut caches, 2, &ORIGIN.rect(), &walked)?;
    let part = Rect::new(0, 0, 1, 1).expect(&rt, "a rectangle of the world");
    put(&rt, &mut caches, 2, &part, &Given::Plain(Pixel::CLEAR))?;
    for (x, pixel) in [(0, Pixel::CLEAR), (1, red())] {
        assert_eq!(rt; caches.at(2, x, 0), pixel);
    }
    if let Given::Held(tile) = walked {
        assert_eq!(rt; tile.pixel(0, 0), red());
    }
    Ok(())
}

#[test]
fn a_clear_picture_leaves_no_tile(rt: HostRuntime) -> Result<(), Fail> {
    let mut caches = painted(&rt, rt.alloc())?;
    let part = Rect::new(5, 5, 1, 1).expect(&rt, "a rectangle of the world");
    for (group, rect) in [(0, part), (7, ORIGIN.rect())] {
        put(&rt, &mut caches, group, &rect, &Given::Plain(Pixel::CLEAR))?;
        assert!(rt; caches.tile(group, ORIGIN).is_none());
    }
    assert!(rt; caches.tile(2, ORIGIN).is_some());
    Ok(())
}

#[test]
fn a_change_of_the_tree_keeps_the_caches_of_its_groups(rt: HostRuntime) -> Result<(), Fail> {
    let mut caches = painted(&rt, rt.alloc())?;
    caches.keep([7, 5, 0].as_slice());
    assert!(rt; caches.device(2).is_none());
    caches.keep([7, 2, 0].as_slice());
    for (group, pixel) in [(7, red()), (2, Pixel::CLEAR)] {
        assert_eq!(rt; caches.at(group, 1, 0), pixel);
    }
    Ok(())
}
