//! What a script shows that a crew has painted.

ghost use Rattle.std.specs.Prelude.{◌≤◌, ◌-◌, ◌^◌, length, IfOk};
ghost use Rattle.crew_run.specs.Shows.{Shows};

use crate::crew::run_crew;
use desk_core::settled_has_meaning;
use doc_model::Outcome;
use frame_core::Film;
use geom_core::NoMemory;
use io_edge::Gate;
use script_text::Script;
use std::alloc::Global;
use std::sync::Wait;
use std::thread::Threads;

/// What a painted script gives: a frame for each export, and an outcome for each entry.
#[derive(Drop)]
pub struct Shown {
    pub film: Film,
    pub outcomes: Vec<Outcome>,
}

/// Paints a script by so many workers and the caller, and gives the frames and outcomes that it means.
/// What is promised holds if it returns.
///
/// # Errors
/// `NoMemory`.
pub fn run_shown<R: Threads + Wait + Sync, G: Gate>(
    rt: &R,
    alloc: Global,
    script: &Script,
    workers: u8,
    gate: &G,
) -> Result<Shown, NoMemory>
    requires workers { workers ≤ 16 }
    requires few { length script.now.commands ≤ 2 ^ 32 - 1 }
    ensures { IfOk result (λ s. Shows script.now s.film s.outcomes.items) }
{
    let desk = run_crew(rt, alloc, script, workers, gate)?;
    settled_has_meaning(&desk);
    let (film, outcomes) = desk.into_results();
    Ok(Shown { film, outcomes })
}
