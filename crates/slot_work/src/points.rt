//! The points that wait to be composed, and those on which something is at work.

ghost use Rattle.std.specs.Prelude.{◌≡◌, Some, slice_get, true, map};
ghost use Rattle.std.specs.List.{list_any, AllByRecursion};
ghost use Rattle.geom_core.specs.Areas.{point, holds};
ghost use Rattle.geom_core.specs.Rects.{any_holds};
ghost use Rattle.doc_model.specs.Jobs.{writes, checks};
ghost use Rattle.machine_model.specs.State.{Slot};
ghost use Rattle.desk_state.specs.Choices.{works_on};
ghost use Rattle.desk_state.specs.Parts.{slot_of};
ghost use Rattle.desk_state.specs.Tied.{IsKept};

use desk_state::{Painter, Work};
use geom_core::Rect;
use slot_core::Slots;
use update_queue::Updates;

/// Whether a patch that waits holds the point.
pub fn some_waits(updates: &Updates, x: i32, y: i32) -> bool
    ensures { result ≡ list_any (λ p. holds p.rect (point x y)) updates.now.patches }
{
    for i in 0..updates.len() {
        if updates.patch(i).rect.holds(x, y) {
            return true;
        }
    }
    false
}

/// Whether a job at work may change the point, or a walk at work composes it.
pub fn some_works(slots: &Slots<Work>, x: i32, y: i32) -> bool
    requires { AllByRecursion IsKept slots.now }
    ensures { result ≡ list_any (works_on (point x y)) (map slot_of slots.now) }
{
    for place in 0..slots.count() {
        if is_worked(slots, place, x, y) {
            return true;
        }
    }
    false
}

/// Whether the work in a slot changes or composes the point.
fn is_worked(slots: &Slots<Work>, place: u8, x: i32, y: i32) -> bool
    requires { AllByRecursion IsKept slots.now }
    ensures { (slot : Slot) → slice_get (map slot_of slots.now) place ≡ Some slot → result
        ≡ works_on (point x y) slot }
{
    match slots.work(place) {
        Some(Work::Paint(painter)) => is_painted_by(painter, x, y),
        Some(Work::Walk(walker)) => walker.inputs.patch().rect.holds(x, y),
        None => false,
    }
}

/// Whether a job may change the point.
fn is_painted_by(painter: &Painter, x: i32, y: i32) -> bool
    requires { checks painter.now.job ≡ true }
    ensures { result ≡ any_holds (writes painter.now.job) (point x y) }
{
    let writes = painter.job.writes();
    some_holds(writes.as_slice(), x, y)
}

/// Whether one of the rectangles holds the point.
fn some_holds(rects: &[Rect], x: i32, y: i32) -> bool
    ensures { result ≡ any_holds rects.now (point x y) }
{
    rects.iter().any(|rect| rect.holds(x, y))
}
