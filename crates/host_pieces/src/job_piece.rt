//! A job that a thread holds.

ghost use Rattle.std.specs.Prelude.{◌≡◌, ◌≤◌, true, OnOk, length};
ghost use Rattle.doc_model.specs.Jobs.{checks, reads};
ghost use Rattle.doc_model.specs.Lawful.{within_limits};
ghost use Rattle.whole_tiles.specs.Plans.{tiles_of};
ghost use Rattle.host_pieces.specs.Jobs.{AreFirst, GoesOn, HasAllTiles, IsListed, IsOfTicket};

use crate::taken_job::TakenJob;
use desk_core::{PaintTicket, SlotId};
use geom_core::NoMemory;
use std::alloc::Global;
use std::mem;
use whole_tiles::{Painting, Whole};

/// A job, and how far it is.
#[derive(Drop)]
pub struct JobPiece {
    pub(crate) slot: SlotId,
    pub(crate) stage: Stage,
}

/// How far a job is.
#[derive(Drop)]
pub(crate) enum Stage {
    /// Nothing of it is painted.
    Taken(TakenJob),
    /// These tiles are painted, the first of those that it writes.
    Painting(Painting, Vec<Whole>),
    /// All tiles are painted, and these aren't known to be published.
    Made(Vec<Whole>),
}

impl JobPiece {
    /// The job of a ticket.
    pub fn new(ticket: PaintTicket) -> JobPiece
        requires checked { checks ticket.work ≡ true }
        requires limits { within_limits ticket.work ≡ true }
        requires kept { ticket.shot.rects ≡ reads ticket.work }
        ensures { IsOfTicket ticket result }
    {
        let PaintTicket {
            slot,
            work,
            shot,
            ..
        } = ticket;
        JobPiece {
            slot,
            stage: Stage::Taken(TakenJob::new(work, shot)),
        }
    }

    /// Paints all tiles that aren't painted yet.
    ///
    /// # Errors
    /// `NoMemory`; what was painted stays.
    pub(crate) fn work(&mut self, alloc: Global) -> Result<(), NoMemory>
        ensures on { GoesOn self.old self.new }
        ensures done { OnOk result (HasAllTiles self.new) }
    {
        self.begin(alloc)?;
        self.paint(alloc)
    }

    /// Lists the tiles of a job of which nothing is painted.
    fn begin(&mut self, alloc: Global) -> Result<(), NoMemory>
        ensures on { GoesOn self.old self.new }
        ensures listed { OnOk result (IsListed self.new) }
    {
        let Stage::Taken(taken) = &self.stage else {
            return Ok(());
        };
        let painting = taken.painting(alloc)?;
        self.stage = Stage::Painting(painting, Vec::new(alloc));
        Ok(())
    }

    /// Paints the tiles that were listed.
    fn paint(&mut self, alloc: Global) -> Result<(), NoMemory>
        requires { IsListed self.old }
        ensures on { GoesOn self.old self.new }
        ensures done { OnOk result (HasAllTiles self.new) }
    {
        let Stage::Painting(painting, made) = &mut self.stage else {
            return Ok(());
        };
        paint_rest(alloc, painting, made)?;
        let tiles = mem::replace(made, Vec::new(alloc));
        self.stage = Stage::Made(tiles);
        Ok(())
    }
}

/// Paints the tiles from as many on as are made.
///
/// # Errors
/// `NoMemory`; what was painted stays.
fn paint_rest(alloc: Global, painting: &Painting, made: &mut Vec<Whole>) -> Result<(), NoMemory>
    ensures first { AreFirst painting.now made.old.items → AreFirst painting.now made.new.items }
    ensures count { length made.old.items ≤ length made.new.items }
    ensures all { OnOk result (length (tiles_of painting.now.job) ≤ length made.new.items) }
{
    let mut like = None;
    for i in made.len()..painting.tile_count() {
        made.push(painting.paint_like(alloc, i, &mut like)?)?;
    }
    Ok(())
}
