//! What walks read of a store and of caches, by what they compose.

ghost use Rattle.std.specs.Prelude.{◌≡◌, ◌<◌, None, IfOk};

use crate::fixtures::{ORIGIN, blue, green, layer, red};
use compose_core::Given;
use desk_steps::Store;
use doc_model::{Change, Look, Patch, Walk};
use geom_core::{NoMemory, Rect};
use group_caches::Caches;
use pixel_core::{Op, Pixel};
use slot_work::gather;
use std::alloc::Global;
use std::process::Abort;
use std::test::Fail;
use walker_core::{Composed, compose_key};

/// Makes a change of the tree.
fn change(rt: &impl Abort, alloc: Global, store: &mut Store, change: Change)
    requires { store.old.way ≡ None }
    ensures { store.new.way ≡ None }
{
    assert!(rt; store.change(alloc, &change).is_ok());
}

/// The red layer 1 at the bottom of the root, above it the group 2, and in it the green layer 3.
fn document(rt: &impl Abort, alloc: Global) -> Result<Store, NoMemory>
    ensures { IfOk result (λ s. s.way ≡ None) }
{
    let mut store = Store::new(alloc)?;
    change(rt, alloc, &mut store, layer(1, 0, 0, red()));
    let (id, parent, place) = (2, 0, 1);
    change(rt, alloc, &mut store, Change::Group { id, parent, place });
    change(rt, alloc, &mut store, layer(3, 2, 0, green()));
    Ok(store)
}

/// Caches of the root and of the group 2, which is blue at its first point.
fn caches(rt: &impl Abort, alloc: Global) -> Result<Caches, NoMemory> {
    let point = Rect::new(0, 0, 1, 1).expect(rt, "a rectangle of the world");
    let mut caches = Caches::new(alloc)?;
    caches.keep([2, 0].as_slice());
    assert!(rt; caches.device(2).is_some());
    caches.put(2, &point, ORIGIN, &Given::Plain(blue()))?;
    Ok(caches)
}

/// Two columns and one row from (0, 0) on.
fn corner(rt: &impl Abort) -> Rect {
    Rect::new(0, 0, 2, 1).expect(rt, "a rectangle of the world")
}

/// The pixel of a group in a column of the first row. None where the walk doesn't compose the group.
fn pixel_of(composed: &Composed<'_>, group: u16, col: u8) -> Option<Pixel>
    requires { col < 64 }
{
    match composed.given(group, ORIGIN)? {
        Given::Held(tile) => Some(tile.pixel(col, 0)),
        Given::Plain(pixel) => Some(*pixel),
    }
}

#[test]
fn a_group_off_the_path_is_read_from_its_cache(rt: HostRuntime) -> Result<(), Fail> {
    let alloc = rt.alloc();
    let store = document(&rt, alloc)?;
    let caches = caches(&rt, alloc)?;
    let (walk, rect) = (Walk::Up(0), corner(&rt));
    let inputs = gather(alloc, &store, &caches, Patch { walk, rect })?;
    assert_eq!(rt; inputs.path(), [0].as_slice());
    let composed = compose_key(alloc, &inputs, ORIGIN)?;
    assert_eq!(rt; pixel_of(&composed, 0, 0), Some(blue()));
    assert_eq!(rt; pixel_of(&composed, 0, 1), Some(red()));
    assert_eq!(rt; pixel_of(&composed, 2, 0), None);
    Ok(())
}

#[test]
fn a_group_on_the_path_is_read_from_its_layers(rt: HostRuntime) -> Result<(), Fail> {
    let alloc = rt.alloc();
    let store = document(&rt, alloc)?;
    let caches = caches(&rt, alloc)?;
    let (walk, rect) = (Walk::All, corner(&rt));
    let inputs = gather(alloc, &store, &caches, Patch { walk, rect })?;
    assert_eq!(rt; inputs.path(), [2, 0].as_slice());
    let composed = compose_key(alloc, &inputs, ORIGIN)?;
    assert_eq!(rt; pixel_of(&composed, 2, 0), Some(green()));
    assert_eq!(rt; pixel_of(&composed, 0, 0), Some(green()));
    Ok(())
}

#[test]
fn an_invisible_group_is_not_seen(rt: HostRuntime) -> Result<(), Fail> {
    let alloc = rt.alloc();
    let mut store = document(&rt, alloc)?;
    let (opacity, op, visible) = (255, Op::Over, false);
    let look = Look {
        opacity,
        op,
        visible,
    };
    change(&rt, alloc, &mut store, Change::Look { id: 2, look });
    let caches = caches(&rt, alloc)?;
    let (walk, rect) = (Walk::Up(0), corner(&rt));
    let inputs = gather(alloc, &store, &caches, Patch { walk, rect })?;
    let composed = compose_key(alloc, &inputs, ORIGIN)?;
    assert_eq!(rt; pixel_of(&composed, 0, 0), Some(red()));
    Ok(())
}
