//! Jobs and walks that several threads share.

ghost use Rattle.std.specs.Prelude.{◌≡◌, ◌≤◌, ◌<◌, nat_lt, IfOk, OnErr};

use crate::effort::{ALONE, RANGES};
use crate::work::{Tiles, WalkRows};
use geom_core::NoMemory;
use stamped_desk::{StampNaming, StampedPainting, StampedTiles, StampedWalk};
use std::alloc::Global;
use std::sync::Arc;

/// Tiles that are given out in ranges, from the first on.
#[derive(Drop)]
pub(crate) struct Ranges {
    tiles: usize,
    /// How many were given out.
    next: usize,
    step: usize,
    ghost within: { next ≤ tiles },
    ghost goes_on: { 1 ≤ step },
}

impl Ranges {
    /// Tiles that are cut into about so many ranges.
    fn new(tiles: usize, count: usize) -> Ranges
        ensures { result.next ≡ 0 }
    {
        Ranges {
            tiles,
            next: 0,
            step: (tiles / count.max(1)).max(1),
        }
    }

    /// Whether some tiles weren't given out.
    pub(crate) fn is_open(&self) -> bool
        ensures { result ≡ nat_lt self.now.next self.now.tiles }
    {
        self.next < self.tiles
    }

    /// The place behind the next range, which begins right behind the ones before.
    fn give(&mut self) -> usize
        requires open { self.old.next < self.old.tiles }
        ensures to { result ≡ self.new.next }
        ensures some { self.old.next < result }
        ensures within { result ≤ self.old.tiles }
        ensures tiles { self.new.tiles ≡ self.old.tiles }
    {
        self.next = self.next.saturating_add(self.step).min(self.tiles);
        self.next
    }
}

/// A job that several threads paint, tile by tile. What they painted is gathered here.
#[derive(Drop)]
pub(crate) struct Piece<J: StampNaming> {
    job: Arc<StampedPainting<J>, Global>,
    pub(crate) ranges: Ranges,
    made: StampedTiles<J>,
}

impl<J: StampNaming> Piece<J> {
    /// Whether a job of so much work is worth several of the threads.
    pub(crate) fn is_worth(job: &StampedPainting<J>, load: u64, threads: usize) -> bool {
        threads > 1 && load > ALONE && job.tile_count() > 1
    }

    /// A job of which no tile was given out.
    ///
    /// # Errors
    /// `NoMemory`, for the list of what is painted of it.
    pub(crate) fn new(
        alloc: Global,
        job: Arc<StampedPainting<J>, Global>,
        threads: usize,
    ) -> Result<Piece<J>, NoMemory>
        ensures { IfOk result (λ p. p.ranges.next ≡ 0) }
    {
        let tiles = job.tile_count();
        let made = job.no_tiles(alloc, tiles)?;
        Ok(Piece {
            job,
            ranges: Ranges::new(tiles, threads.saturating_mul(RANGES)),
            made,
        })
    }

    /// The serial of the job's slot.
    pub(crate) fn serial(&self) -> u64 {
        self.job.slot().serial
    }

    /// The next tiles: those right behind the ones that were given out before.
    ///
    /// # Errors
    /// `NoMemory`; nothing is given out.
    pub(crate) fn give(&mut self) -> Result<Tiles<J>, NoMemory>
        requires open { self.old.ranges.next < self.old.ranges.tiles }
        ensures from { IfOk result (λ t. t.from ≡ self.old.ranges.next) }
        ensures to { IfOk result (λ t. t.to ≡ self.new.ranges.next) }
        ensures some { IfOk result (λ t. t.from < t.to) }
        ensures within { IfOk result (λ t. t.to ≤ self.old.ranges.tiles) }
        ensures tiles { self.new.ranges.tiles ≡ self.old.ranges.tiles }
        ensures err { OnErr result (self.new.ranges.next ≡ self.old.ranges.next) }
    {
        let job = Arc::try_clone(&self.job)?;
        let from = self.ranges.next;
        let to = self.ranges.give();
        Ok(Tiles {
            job,
            from,
            to,
            are_all: false,
        })
    }

    /// Takes what was painted of some tiles. `true` where none is missing then.
    ///
    /// # Errors
    /// `NoMemory`; the job can't be published then.
    pub(crate) fn gather(&mut self, made: &mut StampedTiles<J>) -> Result<bool, NoMemory> {
        self.made.append(made)?;
        Ok(self.made.len() >= self.ranges.tiles)
    }

    /// All that was painted of it.
    pub(crate) fn into_made(self) -> StampedTiles<J> {
        let Piece { made, .. } = self;
        made
    }
}

/// A walk, whose tiles several threads compose. What is composed of a tile is published at once.
#[derive(Drop)]
pub(crate) struct Walking<J: StampNaming> {
    walk: Arc<StampedWalk<J>, Global>,
    pub(crate) ranges: Ranges,
    /// How many tiles are published.
    done: usize,
}

impl<J: StampNaming> Walking<J> {
    /// A walk of which no tile was given out. One that is little work is for one thread.
    pub(crate) fn new(walk: Arc<StampedWalk<J>, Global>, threads: usize) -> Walking<J>
        ensures { result.ranges.next ≡ 0 }
    {
        let inputs = &walk.ticket().inputs;
        let tiles = inputs.patch().rect.tile_count() as usize;
        let count = if threads > 1 && inputs.load() > ALONE {
            threads.saturating_mul(RANGES)
        } else {
            1
        };
        Walking {
            walk,
            ranges: Ranges::new(tiles, count),
            done: 0,
        }
    }

    /// The serial of the walk's slot.
    pub(crate) fn serial(&self) -> u64 {
        self.walk.ticket().slot.serial
    }

    /// The next tiles: those right behind the ones that were given out before.
    ///
    /// # Errors
    /// `NoMemory`; nothing is given out.
    pub(crate) fn give(&mut self) -> Result<WalkRows<J>, NoMemory>
        requires open { self.old.ranges.next < self.old.ranges.tiles }
        ensures from { IfOk result (λ r. r.from ≡ self.old.ranges.next) }
        ensures to { IfOk result (λ r. r.to ≡ self.new.ranges.next) }
        ensures some { IfOk result (λ r. r.from < r.to) }
        ensures err { OnErr result (self.new.ranges.next ≡ self.old.ranges.next) }
    {
        let walk = Arc::try_clone(&self.walk)?;
        let from = self.ranges.next;
        let to = self.ranges.give();
        Ok(WalkRows { walk, from, to })
    }

    /// So many more tiles are published. `true` where none is missing then.
    pub(crate) fn tell_done(&mut self, tiles: usize) -> bool {
        self.done = self.done.saturating_add(tiles);
        self.done >= self.ranges.tiles
    }
}
