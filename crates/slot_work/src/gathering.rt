//! What a walk reads when it starts.

ghost use Rattle.std.specs.Prelude.{◌≡◌, IfOk, IfSome, IfNone, OnOk};
ghost use Rattle.pixel_core.specs.Rgba.{clear};
ghost use Rattle.doc_model.specs.Layers.{plain};
ghost use Rattle.machine_model.specs.Walking.{IsGroupOf};
ghost use Rattle.paint_device.specs.Seen.{layer_of};
ghost use Rattle.slot_work.specs.Gathering.{AddsChild, AddsChildren, ReadsWalk, pixels_in};

use desk_steps::Store;
use doc_model::Patch;
use geom_core::NoMemory;
use group_caches::Caches;
use paint_device::Device;
use pixel_core::Pixel;
use smallvec::SmallVec;
use std::alloc::Global;
use walker_core::{Gathered, Inputs, Path, plan};

/// What a walk of the patch reads: of each group that it composes the children with their looks, the
/// layers' pixels and the pictures that groups have in their caches. Tiles are shared.
pub fn gather(
    alloc: Global,
    store: &Store,
    caches: &Caches,
    patch: Patch,
) -> Result<Inputs, NoMemory>
    requires { IsGroupOf store.now.present patch.walk }
    ensures { IfOk result (ReadsWalk store.now.present caches.now patch) }
{
    let path = plan(alloc, store.tree(), patch.walk)?;
    let groups: Path = SmallVec::from_slice(alloc, path.as_slice())?;
    let mut gathered = Gathered::new(alloc, patch, path);
    let list = groups.as_slice();
    for group in list {
        add_children(alloc, store, caches, *group, &mut gathered)?;
    }
    Inputs::new(alloc, gathered)
}

/// The children of a group, from the bottom.
fn add_children(
    alloc: Global,
    store: &Store,
    caches: &Caches,
    group: u16,
    gathered: &mut Gathered,
) -> Result<(), NoMemory>
    ensures { OnOk result (AddsChildren caches.now store.now group gathered.old gathered.new) }
{
    for place in 0..store.tree().child_count(group) {
        add_child(alloc, store, caches, group, place, gathered)?;
    }
    Ok(())
}

/// The child at that place.
fn add_child(
    alloc: Global,
    store: &Store,
    caches: &Caches,
    group: u16,
    place: u16,
    gathered: &mut Gathered,
) -> Result<(), NoMemory>
    ensures { OnOk result (AddsChild caches.now store.now group place gathered.old gathered.new) }
{
    let tree = store.tree();
    let Some(id) = tree.child(group, place) else {
        return Ok(());
    };
    let Some(look) = tree.look(id) else {
        return Ok(());
    };
    match pixels_of(store, caches, id) {
        Some(device) => gathered.add_child(alloc, group, id, look, device),
        None => {
            let clear = Device::new(alloc, Pixel::CLEAR);
            gathered.add_child(alloc, group, id, look, &clear)
        }
    }
}

/// The pixels of a child: of a group its cache. None where they are clear.
fn pixels_of<'a>(store: &'a Store, caches: &'a Caches, id: u16) -> Option<&'a Device>
    ensures some { IfSome result (λ d. layer_of d.now ≡ pixels_in caches.now store.now.present id) }
    ensures none { IfNone result (plain clear ≡ pixels_in caches.now store.now.present id) }
{
    if store.tree().is_group(id) {
        caches.device(id)
    } else {
        store.layer(id)
    }
}
