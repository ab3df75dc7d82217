//! Which jobs of a stroke may run beside each other.

ghost use Rattle.std.specs.Prelude.{◌≡◌};
ghost use Rattle.machine_model.specs.Guards.{excludes as guard_excludes, is_bar as is_barrier, kind_at as kind_of_job};

use doc_model::{Job, Kind};

/// Whether a job of the first kind may not run beside one of the second, if there is one.
pub fn excludes(kind: Kind, beside: Option<Kind>) -> bool
    ensures { result ≡ guard_excludes kind beside }
{
    match (kind, beside) {
        (Kind::Seq | Kind::Bar, _) => true,
        (Kind::Con | Kind::Uni, Some(Kind::Seq | Kind::Bar)) => true,
        (Kind::Uni, Some(Kind::Uni)) => true,
        _ => false,
    }
}

/// The kind of the job with that index, from 0, if there is one.
pub fn kind_at(jobs: &[(Kind, Job)], index: u32) -> Option<Kind>
    ensures { result ≡ kind_of_job jobs.now index }
{
    match jobs.get(index as usize) {
        Some((kind, _)) => Some(*kind),
        None => None,
    }
}

/// Whether a job of that kind is a barrier.
pub fn is_bar(kind: Kind) -> bool
    ensures { result ≡ is_barrier kind }
{
    match kind {
        Kind::Bar => true,
        Kind::Con | Kind::Seq | Kind::Uni => false,
    }
}
