//! How a document is arranged another way: with another tree, and other devices in some slots.

ghost use Rattle.std.specs.Prelude.{◌≡◌, ℕ, ◌==◌, cond, true, None, Some, is_some, IfOk, OnOk};
ghost use Rattle.std.specs.Ordering.{nat_cmp};
ghost use Rattle.std.specs.BTreeMap as btree;
ghost use Rattle.doc_model.specs.Forest.{content};
ghost use Rattle.desk_steps.specs.Slots.{AllHave, device_in, devices_after, has_slot, once_filled};

use doc_model::Change;
use geom_core::NoMemory;
use paint_device::Device;
use std::alloc::Global;
use std::collections::BTreeMap;
use std::mem;
use tree_core::{Exchange, Tree};

/// What the slot of an id gets: the device of a paint layer, or None.
#[derive(Drop)]
pub struct SlotDevice {
    pub id: u16,
    pub device: Option<Device>,
}

/// What makes the tree of a document another one, and what the slots get of which the devices differ.
#[derive(Drop)]
pub struct Arrangement {
    pub tree: Exchange,
    pub slots: Vec<SlotDevice>,
}

/// Exchanges the devices with those in the slots, one after another. What was exchanged last then
/// stands first, as it is the first to be given back. No memory.
pub fn exchange_devices(devices: &mut BTreeMap<u16, Option<Device>>, slots: &mut [SlotDevice])
    requires { AllHave (has_slot devices.old) slots.old }
    ensures new { (q : ℕ) → device_in devices.new q ≡ once_filled (λ o. o) (device_in devices.old)
        slots.old q }
    ensures back { (q : ℕ) → once_filled (λ o. o) (device_in devices.new) slots.new q
        ≡ device_in devices.old q }
    ensures slots { (q : ℕ) → has_slot devices.new q ≡ has_slot devices.old q }
    ensures there { AllHave (has_slot devices.new) slots.new }
{
    for slot in slots.iter_mut() {
        exchange_device(devices, slot);
    }
    slots.reverse();
}

/// Exchanges the device with the one in the slot of its id, which is there.
fn exchange_device(devices: &mut BTreeMap<u16, Option<Device>>, slot: &mut SlotDevice)
    requires { has_slot devices.old slot.old.id ≡ true }
    ensures new { (q : ℕ) → device_in devices.new q ≡ cond (slot.old.id == q) slot.old.device
        (device_in devices.old q) }
    ensures id { slot.new.id ≡ slot.old.id }
    ensures back { slot.new.device ≡ device_in devices.old slot.old.id }
    ensures slots { (q : ℕ) → has_slot devices.new q ≡ has_slot devices.old q }
{
    match devices.get_mut(&slot.id) {
        Some(device) => mem::swap(device, &mut slot.device),
        None => unreachable!(),
    }
}

/// What a change that left this tree puts into the slots: the device of a new layer, and None for each
/// layer that was removed. It makes the slot of a new layer, and else changes nothing.
pub fn slots_of(
    alloc: Global,
    devices: &mut BTreeMap<u16, Option<Device>>,
    tree: &Tree,
    change: &Change,
) -> Result<Vec<SlotDevice>, NoMemory>
    ensures ok { IfOk result (λ v. (q : ℕ) → once_filled (λ o. o) (device_in devices.old) v.items q
        ≡ devices_after change.now tree.now (device_in devices.old) q) }
    ensures there { IfOk result (λ v. AllHave (has_slot devices.new) v.items) }
    ensures same { (q : ℕ) → device_in devices.new q ≡ device_in devices.old q }
    ensures more { (q : ℕ) → has_slot devices.old q ≡ true → has_slot devices.new q ≡ true }
{
    match *change {
        Change::Layer { id, ground, .. } => {
            make_slot(devices, id)?;
            let mut slots = Vec::with_capacity(alloc, 1)?;
            slots.push(SlotDevice {
                id,
                device: Some(Device::new(alloc, ground)),
            })?;
            Ok(slots)
        }
        Change::Remove { .. } => emptied(alloc, devices, tree),
        _ => Ok(Vec::new(alloc)),
    }
}

/// Makes the slot of an id, where it has none.
fn make_slot(devices: &mut BTreeMap<u16, Option<Device>>, id: u16) -> Result<(), NoMemory>
    ensures there { OnOk result (has_slot devices.new id ≡ true) }
    ensures same { (q : ℕ) → device_in devices.new q ≡ device_in devices.old q }
    ensures more { (q : ℕ) → has_slot devices.old q ≡ true → has_slot devices.new q ≡ true }
{
    if !devices.contains_key(&id) {
        devices.insert(id, None)?;
    }
    Ok(())
}

/// None for each device of which the id is no paint layer of the tree, in a list with room for just those.
fn emptied(
    alloc: Global,
    devices: &BTreeMap<u16, Option<Device>>,
    tree: &Tree,
) -> Result<Vec<SlotDevice>, NoMemory>
    ensures ok { IfOk result (λ v. (q : ℕ) → once_filled (λ o. o) (device_in devices.now) v.items q
        ≡ cond (is_some (content q tree.now)) (device_in devices.now q) None) }
    ensures there { IfOk result (λ v. AllHave (has_slot devices.now) v.items) }
{
    let mut slots = Vec::new(alloc);
    for (id, device) in devices {
        if device.is_some() && !is_paint(tree, *id) {
            slots.push(SlotDevice {
                id: *id,
                device: None,
            })?;
        }
    }
    slots.shrink_to_fit();
    Ok(slots)
}

/// Whether the id is a paint layer of the tree.
fn is_paint(tree: &Tree, id: u16) -> bool
    ensures { result ≡ is_some (content id tree.now) }
{
    let _count = tree.node_count();
    tree.has(id) && !tree.is_group(id)
}
