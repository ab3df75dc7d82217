//! The patches that wait to be composed anew: values worked out by hand.
ghost use Rattle.std.specs.Prelude.{◌≡◌, ◌≤◌, ◌<◌, length};
ghost use Rattle.geom_core.specs.Areas.{area};

use crate::fixtures::crosses;
use doc_model::{Patch, Walk};
use geom_core::Rect;
use std::process::Abort;
use update_queue::Updates;

/// The rectangle of these numbers.
fn rect(rt: &impl Abort, x: i32, y: i32, w: u32, h: u32) -> Rect
    ensures { result ≡ area x y w h }
{
    assert!(rt; 1 <= w && w <= 32768 && 1 <= h && h <= 32768);
    Rect::new(x, y, w, h).expect(rt, "in the world")
}

/// Nothing waits on the largest canvas.
fn nothing(rt: &impl Abort) -> Updates {
    Updates::new(rect(rt, 0, 0, 2048, 2048))
}

/// The patch at a place, which is there.
fn patch(rt: &impl Abort, updates: &Updates, i: usize) -> Patch {
    assert!(rt; i < updates.len());
    updates.patch(i)
}

/// The whole cell of a place, row by row.
fn cell(rt: &impl Abort, k: u8) -> Rect {
    rect(rt, 256 * i32::from(k % 8), 256 * i32::from(k / 8), 256, 256)
}

/// One pixel in each cell waits for the root: the 64 places are taken. The oldest is at the edge of them all.
fn one_in_each_cell(rt: &impl Abort) -> Updates {
    let mut updates = nothing(rt);
    for k in 0u8..64 {
        let inset = if k == 0 { 0 } else { 3 };
        let (x, y) = (256 * i32::from(k % 8), 256 * i32::from(k / 8));
        updates.add(Walk::Up(0), rect(rt, x + inset, y + inset, 1, 1));
    }
    updates
}

/// The same after the pixel (5, 5) came for another group.
fn begun_anew(rt: &impl Abort) -> Updates {
    let mut updates = one_in_each_cell(rt);
    updates.add(Walk::Up(3), rect(rt, 5, 5, 1, 1));
    updates
}

/// Whether the patches are all groups on the cells of the rectangle (0, 0, 1796, 1796).
fn all_on_cells(rt: &impl Abort, updates: &Updates) -> bool {
    let whole = rect(rt, 0, 0, 1796, 1796);
    let mut same = updates.len() == 64;
    for k in 0u8..64 {
        let part = whole.clip(&cell(rt, k));
        let found = patch(rt, updates, usize::from(k));
        same = same && found.walk == Walk::All && Some(found.rect) == part;
    }
    same
}

/// Whether the patches are those of the walk with these corners and sides.
fn has_parts(rt: &impl Abort, updates: &Updates, walk: Walk, parts: [(i32, i32, u32, u32); 4]) {
    assert_eq!(rt; updates.len(), 4);
    for i in 0..4 {
        let (x, y, w, h) = parts[i];
        let rect = rect(rt, x, y, w, h);
        assert!(rt; patch(rt, updates, i) == Patch { walk, rect });
    }
}

#[test]
fn full_list_begins_anew(rt: HostRuntime) {
    let mut updates = one_in_each_cell(&rt);
    updates.add(Walk::Up(0), rect(&rt, 5, 5, 1, 1));
    let (walk, corner) = (Walk::Up(0), rect(&rt, 0, 0, 6, 6));
    assert!(rt; patch(&rt, &updates, 0) == Patch { walk, rect: corner });
    assert!(rt; all_on_cells(&rt, &begun_anew(&rt)));
}

#[test]
fn running_walkers_are_avoided(rt: HostRuntime) {
    let mut updates = begun_anew(&rt);
    let mut running = [rect(&rt, 0, 0, 256, 256); 64];
    for k in 0u8..64 {
        running[usize::from(k)] = cell(&rt, k);
    }
    assert!(rt; updates.take(&running).is_none());
    let walk = Walk::All;
    let last = rect(&rt, 1792, 1792, 4, 4);
    assert!(rt; updates.take(&running[..63]) == Some(Patch { walk, rect: last }));
}

#[test]
fn parts_join_in_order(rt: HostRuntime) {
    let mut updates = nothing(&rt);
    crosses(&updates);
    updates.add(Walk::Up(1), rect(&rt, 300, 10, 10, 10));
    updates.add(Walk::Up(1), rect(&rt, -20, 0, 400, 300));
    let parts = [
        (256, 0, 124, 256),
        (0, 0, 256, 256),
        (0, 256, 256, 44),
        (256, 256, 124, 44),
    ];
    has_parts(&rt, &updates, Walk::Up(1), parts);
    let corner = [rect(&rt, 200, 200, 60, 10)];
    assert!(rt; updates.peek(&corner) == Some(patch(&rt, &updates, 2)));
}

#[test]
fn refresh_covers_what_waited(rt: HostRuntime) {
    let mut updates = nothing(&rt);
    updates.add(Walk::Up(1), rect(&rt, 300, 10, 10, 10));
    updates.refresh(rect(&rt, 5000, 5000, 1, 1));
    updates.refresh(rect(&rt, 500, 250, 20, 10));
    let parts = [
        (300, 10, 212, 246),
        (512, 10, 8, 246),
        (300, 256, 212, 4),
        (512, 256, 8, 4),
    ];
    has_parts(&rt, &updates, Walk::All, parts);
}
