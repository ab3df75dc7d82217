//! The least rectangle round the points that wait to be composed, or on which something is at work.

ghost use Rattle.std.specs.Prelude.{◌≡◌, ◌||◌, Some, map, slice_get, true};
ghost use Rattle.std.specs.List.{list_any, AllByRecursion};
ghost use Rattle.geom_core.specs.Areas.{holds};
ghost use Rattle.geom_core.specs.Rects.{any_holds};
ghost use Rattle.doc_model.specs.Jobs.{writes, checks};
ghost use Rattle.machine_model.specs.State.{Slot};
ghost use Rattle.desk_state.specs.Choices.{works_on};
ghost use Rattle.desk_state.specs.Parts.{slot_of};
ghost use Rattle.desk_state.specs.Tied.{IsKept};
ghost use Rattle.slot_work.specs.Round.{IsRound, Widens};

use desk_state::{Painter, Work};
use geom_core::Rect;
use slot_core::Slots;
use update_queue::Updates;

/// The least rectangle round the points of another that a patch that waits holds, that a job at work may change or
/// that a walk at work composes. None exactly where there is no such point. No memory.
pub fn round_unsettled(updates: &Updates, slots: &Slots<Work>, bounds: &Rect) -> Option<Rect>
    requires { AllByRecursion IsKept slots.now }
    ensures { IsRound bounds.now (λ p. list_any (λ q. holds q.rect p) updates.now.patches
        || list_any (works_on p) (map slot_of slots.now)) result }
{
    let waiting = widen_by_patches(None, bounds, updates);
    widen_by_slots(waiting, bounds, slots)
}

/// What was found so far, widened by the points that patches that wait hold.
fn widen_by_patches(so_far: Option<Rect>, bounds: &Rect, updates: &Updates) -> Option<Rect>
    ensures { Widens bounds.now (λ p. list_any (λ q. holds q.rect p) updates.now.patches) so_far
        result }
{
    let mut round = so_far;
    for i in 0..updates.len() {
        round = widen_by(round, bounds, &updates.patch(i).rect);
    }
    round
}

/// What was found so far, widened by the points that jobs at work may change and walks at work compose.
fn widen_by_slots(so_far: Option<Rect>, bounds: &Rect, slots: &Slots<Work>) -> Option<Rect>
    requires { AllByRecursion IsKept slots.now }
    ensures { Widens bounds.now (λ p. list_any (works_on p) (map slot_of slots.now)) so_far result }
{
    let mut round = so_far;
    for place in 0..slots.count() {
        round = widen_by_slot(round, bounds, slots, place);
    }
    round
}

/// The same of the work in one slot.
fn widen_by_slot(
    so_far: Option<Rect>,
    bounds: &Rect,
    slots: &Slots<Work>,
    place: u8,
) -> Option<Rect>
    requires { AllByRecursion IsKept slots.now }
    ensures { (slot : Slot) → slice_get (map slot_of slots.now) place ≡ Some slot
        → Widens bounds.now (λ p. works_on p slot) so_far result }
{
    match slots.work(place) {
        Some(Work::Paint(painter)) => widen_by_writes(so_far, bounds, painter),
        Some(Work::Walk(walker)) => widen_by(so_far, bounds, &walker.inputs.patch().rect),
        None => so_far,
    }
}

/// What was found so far, widened by the points that a job may change.
fn widen_by_writes(so_far: Option<Rect>, bounds: &Rect, painter: &Painter) -> Option<Rect>
    requires { checks painter.now.job ≡ true }
    ensures { Widens bounds.now (any_holds (writes painter.now.job)) so_far result }
{
    let writes = painter.job.writes();
    widen_by_all(so_far, bounds, writes.as_slice())
}

/// What was found so far, widened by the points of rectangles.
fn widen_by_all(so_far: Option<Rect>, bounds: &Rect, rects: &[Rect]) -> Option<Rect>
    ensures { Widens bounds.now (any_holds rects.now) so_far result }
{
    let mut round = so_far;
    for i in 0..rects.len() {
        round = widen_by(round, bounds, &rects[i]);
    }
    round
}

/// What was found so far, widened by the points of a rectangle.
fn widen_by(so_far: Option<Rect>, bounds: &Rect, rect: &Rect) -> Option<Rect>
    ensures { Widens bounds.now (holds rect.now) so_far result }
{
    match bounds.clip(rect) {
        Some(part) => {
            let round = Rect::round(so_far, &part);
            // Both have points, as their sides tell.
            let _part = (part.w(), part.h());
            let _round = (round.w(), round.h());
            Some(round)
        }
        None => so_far,
    }
}
