//! Rectangles of a layer's group that wait.

ghost use Rattle.std.specs.Prelude.{◌≡◌};
ghost use Rattle.update_queue.specs.Waiting.{widened_by, widened_by_all};

use crate::updates::Updates;
use doc_model::Walk;
use geom_core::Rect;

/// The rectangle, if there is one, waits for the group and those above it.
pub fn widen(updates: &mut Updates, group: u16, rect: Option<Rect>)
    ensures { updates.new ≡ widened_by updates.old group rect }
{
    match rect {
        Some(rect) => updates.add(Walk::Up(group), rect),
        None => {}
    }
}

/// The rectangles wait for the group and those above it, one after another.
pub fn widen_all(updates: &mut Updates, group: u16, rects: &[Rect])
    ensures { updates.new ≡ widened_by_all updates.old group rects.now }
{
    for rect in rects {
        updates.add(Walk::Up(group), *rect);
    }
}
