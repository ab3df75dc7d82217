//! What a script shows at its end, as the live view has it.

ghost use Rattle.std.specs.Prelude.{◌≡◌, ◌≤◌, ◌-◌, ◌^◌, [], length, IfOk};
ghost use Rattle.doc_model.specs.Canvases.{IsOfLimits};
ghost use Rattle.desk_state.specs.Cached.{ShowsCache};
ghost use Rattle.crew_run.specs.Painted.{IsPaintedBy};
ghost use Rattle.live_view.specs.Shown.{updates_of};
ghost use Rattle.live_view.specs.Views.{published, pending};
ghost use Rattle.live_run.specs.Last.{ShowsLast};
ghost use Rattle.live_run.specs.Showing.{ShowsRoot};

use crate::frames::live_frame;
use crate::run::run_live;
use crew_run::Shown;
use desk_core::{Desk, settled_has_meaning, settled_shows_picture};
use frame_core::{Film, Frame, Marks};
use geom_core::NoMemory;
use io_edge::Gate;
use live_view::{LiveOpened, LiveWriter, Naming, open_live};
use script_text::Script;
use std::alloc::Global;
use std::marker::Brand;
use std::sync::Wait;
use std::thread::Threads;

/// Paints a script by so many workers and the caller, and gives the frame of the document that it makes, as
/// new readers of a live view see it, with the outcomes. What is promised holds if it returns.
///
/// # Errors
/// `NoMemory`.
pub fn run_live_shown<R: Threads + Wait + Sync, G: Gate>(
    rt: &R,
    alloc: Global,
    script: &Script,
    workers: u8,
    gate: &G,
) -> Result<Shown, NoMemory>
    requires workers { workers ≤ 16 }
    requires few { length script.now.commands ≤ 2 ^ 32 - 1 }
    ensures { IfOk result (λ s. ShowsLast script.now s.film s.outcomes.items) }
{
    named_shown::<Brand, R, G>(rt, alloc, script, workers, gate, open_live())
}

/// What `run_live_shown` gives, with the live view under a name.
fn named_shown<K: Naming + Send + Sync, R: Threads + Wait + Sync, G: Gate>(
    rt: &R,
    alloc: Global,
    script: &Script,
    workers: u8,
    gate: &G,
    opened: LiveOpened,
) -> Result<Shown, NoMemory>
    requires workers { workers ≤ 16 }
    requires few { length script.now.commands ≤ 2 ^ 32 - 1 }
    requires name { opened ≡ K.book }
    ensures { IfOk result (λ s. ShowsLast script.now s.film s.outcomes.items) }
{
    let live: LiveWriter<K> = opened.named(alloc, 1)?;
    let (desk, live) = run_live(rt, alloc, script, workers, gate, live)?;
    last_shown(rt, alloc, script, desk, live)
}

/// What a settled desk of the script shows. The writer is closed.
fn last_shown<K: Naming, R: Wait>(
    rt: &R,
    alloc: Global,
    script: &Script,
    desk: Desk,
    live: LiveWriter<K>,
) -> Result<Shown, NoMemory>
    requires painted { IsPaintedBy script.now desk }
    requires none { pending live ≡ [] }
    requires root { ShowsRoot (updates_of (published live)) desk }
    ensures { IfOk result (λ s. ShowsLast script.now s.film s.outcomes.items) }
{
    let _commands = script.commands();
    let frame = last_frame(rt, alloc, live, &desk)?;
    settled_has_meaning(&desk);
    settled_shows_picture(&desk);
    let mut film = Film::new(alloc);
    film.push(frame, Marks::none())?;
    let outcomes = Vec::from_slice(alloc, desk.outcomes())?;
    Ok(Shown { film, outcomes })
}

/// The frame that a new reader sees. The writer is closed.
fn last_frame<K: Naming, R: Wait>(
    rt: &R,
    alloc: Global,
    live: LiveWriter<K>,
    desk: &Desk,
) -> Result<Frame, NoMemory>
    requires limits { IsOfLimits desk.now.canvas }
    requires none { pending live ≡ [] }
    requires root { ShowsRoot (updates_of (published live)) desk.now }
    ensures { IfOk result (λ f. ShowsCache desk.now.caches desk.now.canvas f) }
{
    let mut live = live;
    let frame = live_frame(alloc, &mut live, desk);
    live.close(rt);
    frame
}
