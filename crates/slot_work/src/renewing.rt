//! What is to be composed after a change of the document.

ghost use Rattle.std.specs.Prelude.{◌≡◌};
ghost use Rattle.doc_model.specs.Canvases.{IsOfLimits};
ghost use Rattle.doc_model.specs.Picture.{canvas_area};
ghost use Rattle.desk_steps.specs.Archives.{TellsReach};
ghost use Rattle.machine_model.specs.State as machine;
ghost use Rattle.desk_state.specs.After.{moved_caches, moved_updates};

use desk_steps::{Reach, Store};
use doc_model::Canvas;
use filmed_caches::FilmedCaches;
use update_queue::{Updates, widen};
use walker_core::all_groups;

/// What is to be composed after a change that reaches so far. No memory.
#[tactic(auto, using(geom_core::proofs::Rounds::touched_bound))]
pub fn move_by(
    reach: Reach,
    store: &Store,
    filmed: &mut FilmedCaches,
    updates: &mut Updates,
    canvas: Canvas,
)
    requires limits { IsOfLimits canvas }
    requires area { updates.old.canvas ≡ canvas_area canvas }
    ensures caches { (r : machine.Reach) → TellsReach r store.now.present reach → filmed.new.caches
        ≡ moved_caches filmed.old.caches store.now.present r }
    ensures frames { filmed.new.frames ≡ filmed.old.frames }
    ensures updates { (r : machine.Reach) → TellsReach r store.now.present reach → updates.new
        ≡ moved_updates updates.old store.now.present r }
{
    match reach {
        Reach::Whole => renew(store, filmed, updates, canvas),
        Reach::Part { group, touched } => widen(updates, group, touched.bound),
    }
}

/// Caches of the groups that there are now, and all of the canvas to be composed. No memory.
pub fn renew(store: &Store, filmed: &mut FilmedCaches, updates: &mut Updates, canvas: Canvas)
    requires limits { IsOfLimits canvas }
    requires area { updates.old.canvas ≡ canvas_area canvas }
    ensures caches { filmed.new.caches ≡ moved_caches filmed.old.caches store.now.present
        machine.Whole }
    ensures frames { filmed.new.frames ≡ filmed.old.frames }
    ensures updates { updates.new ≡ moved_updates updates.old store.now.present machine.Whole }
{
    let groups = all_groups(store.tree());
    filmed.keep(groups.as_slice());
    updates.refresh(canvas.rect());
}
