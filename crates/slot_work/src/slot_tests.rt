//! What stands in the slots.

ghost use Rattle.std.specs.Prelude.{◌≡◌, ◌<◌, Some, None, length, map, slice_get};
ghost use Rattle.std.specs.List.{list_any};
ghost use Rattle.machine_model.specs.Slots.{is_painter, is_walker};
ghost use Rattle.machine_model.specs.State.{Slot};
ghost use Rattle.machine_model.specs.Guards.{blocks};
ghost use Rattle.desk_state.specs.Parts.{slot_of};

use desk_state::Work;
use doc_model::{Job, Kind};
use entry_queue::excludes;
use slot_core::Slots;

/// Whether a job is at work.
pub fn some_painter(slots: &Slots<Work>) -> bool
    ensures { result ≡ list_any is_painter (map slot_of slots.now) }
{
    for place in 0..slots.count() {
        if is_painter_at(slots, place) {
            return true;
        }
    }
    false
}

/// Whether a walk is at work.
pub fn some_walker(slots: &Slots<Work>) -> bool
    ensures { result ≡ list_any is_walker (map slot_of slots.now) }
{
    for place in 0..slots.count() {
        if is_walker_at(slots, place) {
            return true;
        }
    }
    false
}

/// Whether a job of this kind may not run beside one that is at work.
pub fn is_blocked(slots: &Slots<Work>, jobs: &[(Kind, Job)], kind: Kind) -> bool
    ensures { result ≡ list_any (blocks jobs.now kind) (map slot_of slots.now) }
{
    for place in 0..slots.count() {
        if is_blocked_at(slots, place, jobs, kind) {
            return true;
        }
    }
    false
}

/// Whether a job of this kind may not run beside the one at work in the slot.
fn is_blocked_at(slots: &Slots<Work>, place: u8, jobs: &[(Kind, Job)], kind: Kind) -> bool
    requires { place < length slots.now }
    ensures { (slot : Slot) → slice_get (map slot_of slots.now) place ≡ Some slot → result
        ≡ blocks jobs.now kind slot }
{
    match slots.work(place) {
        Some(Work::Paint(painter)) => match jobs.get(painter.index as usize) {
            Some((beside, _)) => excludes(kind, Some(*beside)),
            None => excludes(kind, None),
        },
        Some(Work::Walk(_)) => false,
        None => false,
    }
}

/// Whether a job is at work in the slot.
fn is_painter_at(slots: &Slots<Work>, place: u8) -> bool
    ensures { (slot : Slot) → slice_get (map slot_of slots.now) place ≡ Some slot → result
        ≡ is_painter slot }
{
    match slots.work(place) {
        Some(Work::Paint(_)) => true,
        Some(Work::Walk(_)) => false,
        None => false,
    }
}

/// Whether a walk is at work in the slot.
fn is_walker_at(slots: &Slots<Work>, place: u8) -> bool
    ensures { (slot : Slot) → slice_get (map slot_of slots.now) place ≡ Some slot → result
        ≡ is_walker slot }
{
    match slots.work(place) {
        Some(Work::Walk(_)) => true,
        Some(Work::Paint(_)) => false,
        None => false,
    }
}
