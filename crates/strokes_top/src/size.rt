//! How much a script asks for.

use crew_run::points_of;
use doc_model::{Change, Command};
use script_text::Script;

/// How many jobs are few: the holds of a lock that they take are soon over.
const FEW_JOBS: u64 = 64;

/// With how many points to paint and to compose each job has to come, on average, so that several threads are
/// quicker than one.
const POINTS_A_JOB: u64 = 8_000;

/// Whether several threads are to paint: there are few jobs, or several threads are probably quicker than one.
pub(crate) fn is_for_many(script: &Script) -> bool {
    let mut jobs = 0u64;
    let mut points = 0u64;
    let shown = script.canvas();
    let canvas = u64::from(shown.w).saturating_mul(u64::from(shown.h));
    for command in script.commands() {
        match command {
            Command::Add { job, .. } => {
                jobs = jobs.saturating_add(1);
                points = points.saturating_add(points_of(job));
            }
            Command::Change(Change::Layer { .. }) => points = points.saturating_add(canvas),
            _ => {}
        }
    }
    jobs <= FEW_JOBS || points >= jobs.saturating_mul(POINTS_A_JOB)
}
