//! Work goes back to a desk.

ghost use Rattle.std.specs.Prelude.{◌≡◌};
ghost use Rattle.host_pieces.specs.Giving.{IsUnpublished, JobGiven, JobKept, LetsGo, RowsAnswered, WalkEnded, WalkGiven, WorkGiven, WorkKept};

use crate::job_piece::{JobPiece, Stage};
use crate::part::Part;
use crate::piece::Piece;
use crate::walk_piece::WalkPiece;
use desk_core::{Desk, Ended, Published, SlotId};
use geom_core::NoMemory;
use host_lines::Answer;
use std::alloc::Global;
use std::mem;
use walker_core::{Composed, Rows};
use whole_tiles::Whole;

impl Piece {
    /// Gives its work to a desk, whole. It answers `Done`; `Shut` where it has no work; `Undone`; `Stranger` where the
    /// desk doesn't wait for it; `NoMemory`, and some of it may be published.
    ///
    /// The piece keeps what it had, but of a job for which memory ended those of the first tiles that are published:
    /// with what it keeps the same call goes on. After `Done` it is to be let go.
    pub fn give_to(&mut self, alloc: Global, desk: &mut Desk) -> Answer
        ensures given { WorkGiven desk.old self.old result desk.new }
        ensures kept { WorkKept desk.old desk.new self.old result self.new }
    {
        match self {
            Piece::Empty => Answer::Shut,
            Piece::Job(job) => job.give_to(desk),
            Piece::Walk(walk) => walk.give_to(alloc, desk),
        }
    }
}

impl JobPiece {
    /// Commits its tiles. After want of memory those are let go that are published.
    pub(crate) fn give_to(&mut self, desk: &mut Desk) -> Answer
        ensures given { JobGiven desk.old self.old result desk.new }
        ensures kept { JobKept desk.old desk.new self.old result self.new }
    {
        let slot = self.slot;
        let Stage::Made(tiles) = &mut self.stage else {
            return Answer::Undone;
        };
        match desk.commit(slot, tiles) {
            Ok(Published::Stored) => Answer::Done,
            Ok(Published::Nothing) => Answer::Stranger,
            Err(_) => {
                keep_lacking(desk, slot, tiles);
                Answer::NoMemory
            }
        }
    }
}

impl WalkPiece {
    /// Publishes what it composed, tile by tile. The walk ends with the last of the pieces that have parts of it.
    pub(crate) fn give_to(&mut self, alloc: Global, desk: &mut Desk) -> Answer
        ensures given { WalkGiven desk.old self.old result desk.new }
        ensures kept { self.new ≡ self.old }
    {
        if !self.is_done() {
            return Answer::Undone;
        }
        let slot = self.held.ticket().slot;
        let rows = mem::replace(&mut self.rows, Rows::none(alloc));
        let composed = rows.on(&self.held.ticket().inputs);
        let published = publish_rows(desk, slot, &composed, &self.part);
        self.rows = composed.into_rows();
        match published {
            Ok(Published::Stored) => self.end(desk),
            Ok(Published::Nothing) => Answer::Stranger,
            Err(_) => Answer::NoMemory,
        }
    }

    /// Ends its walk, if none of the tiles is left. Only a piece that has all of them knows that.
    fn end(&self, desk: &mut Desk) -> Answer
        ensures { WalkEnded desk.old self.now result desk.new }
    {
        match desk.end(self.held.ticket().slot) {
            Ended::Nothing if self.is_whole() => Answer::Stranger,
            _ => Answer::Done,
        }
    }
}

/// Lets those first tiles go that the job in the slot has published.
fn keep_lacking(desk: &Desk, slot: SlotId, tiles: &mut Vec<Whole>)
    ensures { LetsGo desk.now slot tiles.old.items tiles.new.items }
{
    let count = first_lacking(desk, slot, tiles);
    drop(tiles.drain(..count));
}

/// How many of the first tiles the job in the slot has published.
fn first_lacking(desk: &Desk, slot: SlotId, tiles: &[Whole]) -> usize
    ensures { IsUnpublished desk.now slot tiles.now result }
{
    for i in 0..tiles.len() {
        if !desk.has_published(slot, tiles[i].key()) {
            return i;
        }
    }
    tiles.len()
}

/// Publishes tiles of a walk, one after another. `Nothing` where one of them isn't taken: those before it are
/// published then.
///
/// # Errors
/// `NoMemory`; the tiles before some one are published, and that one of some groups.
fn publish_rows(
    desk: &mut Desk,
    slot: SlotId,
    composed: &Composed<'_>,
    part: &Part,
) -> Result<Published, NoMemory>
    ensures { RowsAnswered desk.old slot composed.now part.now.keys result desk.new }
{
    for i in 0..part.len() {
        match desk.publish_row(slot, composed, part.tile_at(i))? {
            Published::Stored => {}
            Published::Nothing => return Ok(Published::Nothing),
        }
    }
    Ok(Published::Stored)
}
