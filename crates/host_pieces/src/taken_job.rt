//! A job of which nothing is painted.

ghost use Rattle.std.specs.Prelude.{◌≡◌, true, IfOk};
ghost use Rattle.std.proofs.Props.{props};
ghost use Rattle.doc_model.specs.Jobs.{checks, reads};
ghost use Rattle.doc_model.specs.Lawful.{within_limits};
ghost use Rattle.whole_tiles.specs.Plans.{plan};

use doc_model::Job;
use geom_core::NoMemory;
use std::alloc::Global;
use tile_core::Shot;
use whole_tiles::Painting;

/// A job, and a shot of what it reads.
#[derive(Drop)]
pub(crate) struct TakenJob {
    work: Job,
    shot: Shot,
    ghost checked: { checks work ≡ true } by { Prim.hlevel props },
    ghost limits: { within_limits work ≡ true } by { Prim.hlevel props },
    ghost kept: { shot.rects ≡ reads work } by { Prim.hlevel props },
}

impl TakenJob {
    /// A job, with a shot that was taken on what it reads.
    pub(crate) fn new(work: Job, shot: Shot) -> TakenJob
        requires checked { checks work ≡ true }
        requires limits { within_limits work ≡ true }
        requires kept { shot.rects ≡ reads work }
        ensures work { result.work ≡ work }
        ensures shot { result.shot ≡ shot }
    {
        TakenJob { work, shot }
    }

    /// Its painting.
    pub(crate) fn painting(&self, alloc: Global) -> Result<Painting, NoMemory>
        ensures { IfOk result (λ p. p ≡ plan self.now.work self.now.shot) }
    {
        Painting::new(alloc, self.work, self.shot.share()?)
    }
}
