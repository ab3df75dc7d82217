//! Which tiles no job but their own can have changed since it started.

ghost use Rattle.std.specs.Prelude.{◌≡◌, ◌≤◌, ◌<◌, ℕ, All, true, false, Some, map, slice_get};
ghost use Rattle.geom_core.specs.Areas.{Point};
ghost use Rattle.geom_core.specs.Keys.{IsWorldKey};
ghost use Rattle.geom_core.specs.Rects.{any_holds};
ghost use Rattle.doc_model.specs.Jobs.{checks};
ghost use Rattle.doc_model.specs.Shots.{in_tile};
ghost use Rattle.machine_model.specs.State.{Painter, Paints};
ghost use Rattle.machine_model.specs.UnderWay.{writes_at};
ghost use Rattle.desk_events.specs.Commits.{TakesWhole};
ghost use Rattle.desk_events.specs.Sparing.{AreFrom, IsPriorAt, Spared, SparesTile, StandsAs};

use crate::machine::Machine;
use desk_state::Work;
use doc_model::{Job, Kind};
use geom_core::TileKey;
use slot_work::meets_writes;
use whole_tiles::Whole;

/// Of at most so many jobs it is asked where they write. A tile of a job beside more is compared.
const FEW: u32 = 64;

impl Machine {
    /// The least index of the jobs at work, or `own` where none is less.
    pub(crate) fn least_at_work(&self, own: u32) -> u32
        ensures low { result ≤ own }
        ensures all { AreFrom result self.now.slots }
    {
        let mut least = own;
        for place in 0..self.slots.count() {
            least = self.least_with(place, least);
        }
        least
    }

    /// The less of an index and that of the job at work in the slot, if there is one.
    fn least_with(&self, place: u8, least: u32) -> u32
        ensures low { result ≤ least }
        ensures at { (w : Painter) → slice_get self.now.slots place ≡ Some (Paints w)
            → result ≤ w.index }
    {
        match self.slots.work(place) {
            Some(Work::Paint(painter)) => painter.index.min(least),
            Some(Work::Walk(_)) => least,
            None => least,
        }
    }

    /// Whether it is known, by the jobs alone, that the layer of the stroke at the head has the pixels that
    /// the tile was made from. It looks at no pixel. No memory.
    pub(crate) fn stands_as(&self, place: u8, since: u32, whole: &Whole) -> bool
        requires takes { TakesWhole self.now place whole.now }
        requires prior { IsPriorAt self.now place since whole.now }
        ensures { result ≡ true → StandsAs self.now whole.now }
    {
        match self.slots.work(place) {
            Some(Work::Paint(painter)) => {
                since <= self.least_at_work(painter.index)
                    && self.spares(since, painter.index, whole.key())
            }
            Some(Work::Walk(_)) => false,
            None => false,
        }
    }

    /// Whether no started job from the one with the index `since` on, but the one with the index `own`,
    /// writes in the tile. False where these are more than a few.
    fn spares(&self, since: u32, own: u32, key: TileKey) -> bool
        requires { IsWorldKey key }
        ensures { result ≡ true → SparesTile self.now since own key }
    {
        match self.way {
            Some(started) => {
                started.saturating_sub(since) <= FEW
                    && are_spared(self.head_jobs(), since, started, own, key)
            }
            None => false,
        }
    }
}

/// Whether none of these jobs from the one with the index `since` on to before `started`, but the one with
/// the index `own`, writes in the tile.
fn are_spared(jobs: &[(Kind, Job)], since: u32, started: u32, own: u32, key: TileKey) -> bool
    requires checked { All (λ job. checks job.1 ≡ true) jobs.now }
    requires world { IsWorldKey key }
    ensures { result ≡ true → (p : Point) → in_tile key p ≡ true
        → Spared jobs.now since own started p }
{
    for j in since..started {
        if j != own && may_change(jobs, j, key) {
            return false;
        }
    }
    true
}

/// Whether the job with that index may change a point of the tile.
fn may_change(jobs: &[(Kind, Job)], index: u32, key: TileKey) -> bool
    requires checked { All (λ job. checks job.1 ≡ true) jobs.now }
    requires world { IsWorldKey key }
    ensures { result ≡ false → (p : Point) → in_tile key p ≡ true
        → any_holds (writes_at jobs.now index) p ≡ false }
{
    match jobs.get(index as usize) {
        Some((_, job)) => meets_writes(job, key),
        None => false,
    }
}
