//! A job at work.

ghost use Rattle.std.specs.Prelude.{◌≡◌, true, false, IfOk, Ok};
ghost use Rattle.std.specs.FinSet as set;
ghost use Rattle.geom_core.specs.Keys.{IsWorldKey};
ghost use Rattle.doc_model.specs.Jobs.{checks};
ghost use Rattle.trace_state.specs.Painting.{lacks_tile, with_tile, is_painted};

use crate::tiles::{has_all_of, is_tile_of_some};
use doc_model::Job;
use geom_core::{NoMemory, TileKey};
use memento_core::KeySet;
use std::alloc::Global;
use std::marker::Model;

/// A job at work, without pixels: its index in its stroke's list, from 0, and the tiles that it has published.
#[derive(Drop)]
pub struct OutlinedJob {
    index: u32,
    job: Job,
    published: KeySet,
}

impl Model for OutlinedJob {
    ghost use Rattle.std.specs.Prelude.{◌≡◌, true};
    ghost use Rattle.doc_model.specs.Jobs.{checks};
    ghost use Rattle.trace_state.specs.Painting.{Painting, painting_code};

    ghost Value = { Painting };

    ghost coded = { painting_code };

    ghost view = { λ p. record { index = p.index; job = p.job; published = p.published } };

    ghost invariant = { λ p. checks p.job ≡ true };
}

impl OutlinedJob {
    /// A job of which no tile is published.
    pub fn new(alloc: Global, index: u32, job: Job) -> OutlinedJob
        requires { checks job ≡ true }
        ensures { result ≡ record { index = index; job = job; published = set.empty } }
    {
        OutlinedJob {
            index,
            job,
            published: KeySet::new(alloc),
        }
    }

    /// Its index in its stroke's list.
    pub fn index(&self) -> u32
        ensures { result ≡ self.now.index }
    {
        self.index
    }

    /// The job.
    pub fn job(&self) -> Job
        ensures job { result ≡ self.now.job }
        ensures checked { checks result ≡ true }
    {
        self.job
    }

    /// Publishes a tile. False where it is no tile of the job, or is published.
    pub fn publish(&mut self, key: TileKey) -> Result<bool, NoMemory>
        requires { IsWorldKey key }
        ensures may { IfOk result (λ may. may ≡ lacks_tile self.old key) }
        ensures published { result ≡ Ok true → self.new ≡ with_tile self.old key }
        ensures same { result ≡ Ok false → self.new ≡ self.old }
    {
        if !is_tile_of_some(self.job.writes().as_slice(), key) {
            return Ok(false);
        }
        self.published.insert(key)
    }

    /// Whether all tiles of the job are published.
    pub fn is_painted(&self) -> bool
        ensures { result ≡ is_painted self.now }
    {
        has_all_of(&self.published, self.job.writes().as_slice())
    }
}
