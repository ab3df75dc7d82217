//! Where damage is begun anew, and where it is forgotten.

ghost use Rattle.std.specs.Prelude.{◌≡◌, ◌⊎◌, true, false, IfSome, IsSomeAnd};
ghost use Rattle.geom_core.specs.Areas.{holds, Point};
ghost use Rattle.geom_core.specs.Grid.{key_of};
ghost use Rattle.frame_core.specs.Marks.{on_canvas};
ghost use Rattle.frame_core.specs.Damage.{is_damaged};
ghost use Rattle.desk_core.specs.Calm.{IsRenewed};
ghost use Rattle.desk_core.specs.Spreading.{Forgets};
ghost use Rattle.desk_core.specs.UpToDate.{IsStill};

use crate::spread::Spread;
use desk_events::Machine;
use doc_model::Walk;
use geom_core::Rect;

/// All is damaged, or nothing where nothing is at work and nothing waits to be composed.
pub(crate) fn begin_anew(machine: &Machine, damage: &mut Spread)
    ensures { (p : Point) → on_canvas (key_of p) ≡ true → is_damaged damage.new p ≡ false
        → IsStill machine.now }
{
    if machine.is_resting() {
        damage.clear();
    } else {
        damage.fill();
    }
}

/// Where nothing is at work and nothing waits to be composed, nothing is damaged any more.
pub(crate) fn forget(machine: &Machine, damage: &mut Spread)
    ensures { (p : Point) → is_damaged damage.new p ≡ false
        → (is_damaged damage.old p ≡ false) ⊎ IsStill machine.now }
{
    if machine.is_resting() {
        damage.clear();
    }
}

/// The patch of the walk in a slot, where the walk composes all groups and it is known that it
/// composes what is there.
pub(crate) fn renewed(machine: &Machine, calm: bool, place: u8) -> Option<Rect>
    ensures { IfSome result (IsRenewed machine.now calm place) }
{
    match machine.walk_patch(place) {
        Some(patch) if calm && patch.walk == Walk::All => Some(patch.rect),
        Some(_) | None => None,
    }
}

/// In a rectangle, if there is one, nothing on the canvas is damaged any more, but where a tile has a
/// damaged part that goes beyond it.
pub(crate) fn forget_in(canvas: &Rect, damage: &mut Spread, renewed: &Option<Rect>)
    ensures { Forgets canvas.now (λ p. IsSomeAnd renewed.now (λ a. holds a p ≡ true))
        damage.old damage.new }
{
    if let Some(rect) = renewed {
        damage.clear_in(canvas, rect);
    }
}
