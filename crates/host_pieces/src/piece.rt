//! Work that a thread holds.

ghost use Rattle.std.specs.Prelude.{◌≡◌};
ghost use Rattle.host_pieces.specs.Pieces.{Shared, Worked, patch_in, worked};

use crate::job_piece::JobPiece;
use crate::walk_piece::WalkPiece;
use geom_core::{NoMemory, Rect};
use host_lines::Answer;
use std::alloc::Global;

/// A piece of work, or none.
#[derive(Drop)]
pub enum Piece {
    /// It has no work.
    Empty,
    /// A job to be painted.
    Job(JobPiece),
    /// A patch to be composed anew.
    Walk(WalkPiece),
}

impl Piece {
    /// Does its work: it paints the tiles of a job that aren't painted yet, or composes the tiles of a walk that
    /// aren't composed. It answers `Done`, also where all was done before; `Shut` where it has none; `NoMemory`,
    /// and the same call goes on with what is done so far.
    pub fn work(&mut self, alloc: Global) -> Answer
        ensures { Worked self.old result self.new }
    {
        match self {
            Piece::Empty => Answer::Shut,
            Piece::Job(job) => told(job.work(alloc)),
            Piece::Walk(walk) => told(walk.work(alloc)),
        }
    }

    /// Gives some of a walk's tiles to a piece for another thread: one of so many equal shares, or more where that is
    /// too little for a thread. It answers `Done`; `Shut` where it has no work; `Nothing` where it has a job, or a walk of
    /// which something is composed or half of the tiles is too little, and at 0 or 1 shares; `NoMemory`. There is another
    /// piece exactly where it answers `Done`, and all is as it was where it doesn't.
    pub fn share(&mut self, alloc: Global, shares: u32) -> (Answer, Piece)
        ensures { Shared shares self.old result.0 result.1 self.new }
    {
        match self {
            Piece::Empty => (Answer::Shut, Piece::Empty),
            Piece::Job(_) => (Answer::Nothing, Piece::Empty),
            Piece::Walk(walk) => match walk.share(alloc, shares) {
                Ok(Some(part)) => (Answer::Done, Piece::Walk(part)),
                Ok(None) => (Answer::Nothing, Piece::Empty),
                Err(_) => (Answer::NoMemory, Piece::Empty),
            },
        }
    }

    /// The rectangle of the canvas in which its work composes anew: of a walk's patch what the least rectangle round its
    /// tiles has, or none.
    pub fn patch(&self) -> Option<Rect>
        ensures { result ≡ patch_in self.now }
    {
        match self {
            Piece::Walk(walk) => walk.area(),
            _ => None,
        }
    }
}

/// The answer to work that may want memory.
fn told(done: Result<(), NoMemory>) -> Answer
    ensures { result ≡ worked done }
{
    match done {
        Ok(()) => Answer::Done,
        Err(_) => Answer::NoMemory,
    }
}
