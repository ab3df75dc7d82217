//! Work goes out.

ghost use Rattle.std.specs.Prelude.{◌≡◌, ◌<◌};
ghost use Rattle.host_desk.specs.Taking.{Took};

use crate::host::Host;
use desk_core::{Taken, settled_has_meaning, settled_shows_picture};
use host_lines::Answer;
use host_pieces::{JobPiece, Piece, WalkPiece};
use memento_core::Steps;
use std::marker::Brand;
use std::sync::ledger::{Blank, Ledger};

impl Host {
    /// Takes what can be done next. There is a piece exactly where it answers `Done`; it wants no memory for the
    /// piece. `Again`: something was done in the call; `Idle`: nothing can be done before work is given back or
    /// commands are fed, and with nothing at work only commands help; `Settled`; `NoMemory`, only where what may be
    /// done next takes memory, and all is as it was. Whatever it answers, the root's picture stays.
    pub fn take(&mut self) -> (Answer, Piece)
        ensures { Took self.old result.0 result.1 self.new }
    {
        self.take_on::<Brand>(Blank::new(1))
    }

    /// The same with steps of its own.
    fn take_on<L: Ledger>(&mut self, blank: Blank) -> (Answer, Piece)
        requires name { blank.name ≡ L.name }
        requires parts { blank.parts ≡ L.parts }
        requires some { 0 < blank.parts }
        ensures { Took self.old result.0 result.1 self.new }
    {
        let mut steps = Steps::<L>::new(blank);
        match self.desk.take(&mut steps) {
            Ok(Taken::Paint(ticket)) => (Answer::Done, Piece::Job(JobPiece::new(ticket))),
            Ok(Taken::Walk(ticket)) => (
                Answer::Done,
                Piece::Walk(WalkPiece::new(self.alloc, ticket)),
            ),
            Ok(Taken::Did) => (Answer::Again, Piece::Empty),
            Ok(Taken::Idle) => (Answer::Idle, Piece::Empty),
            Ok(Taken::Settled) => {
                settled_has_meaning(&self.desk);
                settled_shows_picture(&self.desk);
                (Answer::Settled, Piece::Empty)
            }
            Err(_) => (Answer::NoMemory, Piece::Empty),
        }
    }
}
