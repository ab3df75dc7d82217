//! Work comes back, and what is done in the call.

ghost use Rattle.std.specs.Prelude.{◌≡◌, ◌<◌, true, None};
ghost use Rattle.std.specs.List.{list_all};
ghost use Rattle.doc_model.specs.Feeding.{is_closed_entry};
ghost use Rattle.doc_model.specs.Strokes.{entries};
ghost use Rattle.host_lines.specs.declared.answer.Answer.TheVariants as answers;
ghost use Rattle.host_pieces.specs.declared.piece.Piece.TheVariants as pieces;
ghost use Rattle.host_pieces.specs.Giving.{StaysOutside, WorkGiven, WorkKept};
ghost use Rattle.host_pieces.specs.Pieces.{SameWork, patch_in};
ghost use Rattle.host_desk.specs.Settling.{AllDone, Painted};

use crate::host::Host;
use desk_core::settled_shows_picture;
use geom_core::Rect;
use host_lines::Answer;
use host_pieces::Piece;
use memento_core::Steps;
use script_lines::Cause;
use std::marker::Brand;
use std::sync::ledger::{Blank, Ledger};

impl Host {
    /// Takes a piece back whose work is done, and tells the rectangle of the canvas to be drawn anew: that of a walk's
    /// patch, or none.
    ///
    /// It answers `Done`, and the piece is empty; `Shut` where it was; `Undone`; `Stranger` where the desk doesn't
    /// wait for it; `NoMemory`, and with what the piece keeps the same call goes on. Whatever it answers, the root's
    /// picture stays outside the rectangle of the piece's work.
    pub fn give(&mut self, piece: &mut Piece) -> (Answer, Option<Rect>)
        ensures given { WorkGiven self.old piece.old result.0 self.new }

        // The piece, by the answer.
        ensures empty { result.0 ≡ answers.Done → piece.new ≡ pieces.Empty }
        ensures kept { (result.0 ≡ answers.Done → ⊥)
            → WorkKept self.old self.new piece.old result.0 piece.new }
        ensures same { (result.0 ≡ answers.Done → ⊥) → SameWork piece.old piece.new }

        // The rectangle. The root's picture is as it was outside, whatever the answer.
        ensures patch { result.0 ≡ answers.Done → result.1 ≡ patch_in piece.old }
        ensures drawn { (result.0 ≡ answers.Done → ⊥) → result.1 ≡ None }
        ensures within { StaysOutside self.old piece.old result.0 self.new }
    {
        let drawn = piece.patch();
        let answer = piece.give_to(self.alloc, &mut self.desk);
        if answer == Answer::Done {
            *piece = Piece::Empty;
            return (answer, drawn);
        }
        (answer, None)
    }

    /// Paints a few small jobs of the stroke at the head, where no other thread wants the desk. `Done` where it
    /// painted some; `Nothing`; `NoMemory`. The root's picture stays: what was painted waits to be composed.
    #[tactic(auto, using(crate::proofs::KeptRoots::small_keeps))]
    pub fn small(&mut self) -> Answer
        ensures { Painted self.old result self.new }
    {
        match self.desk.paint_small() {
            Ok(Some(_)) => Answer::Done,
            Ok(None) => Answer::Nothing,
            Err(_) => Answer::NoMemory,
        }
    }

    /// Whether all strokes are closed.
    pub fn all_closed(&self) -> bool
        ensures { result ≡ list_all is_closed_entry (entries self.now.fed) }
    {
        self.desk.all_closed()
    }

    /// Does all that is left, in the call, also the work of pieces that are out. `Done` where the desk is settled
    /// then, and the root's picture is that of the document; `Fault` where a stroke is open, and nothing changed;
    /// `NoMemory`, and the same call goes on.
    pub fn settle(&mut self) -> Answer
        ensures { AllDone self.old result self.new }
    {
        if !self.desk.all_closed() {
            return Answer::Fault(Cause::StrokeLeft);
        }
        self.settle_on::<Brand>(Blank::new(1))
    }

    /// The same of closed strokes, with steps of its own.
    fn settle_on<L: Ledger>(&mut self, blank: Blank) -> Answer
        requires name { blank.name ≡ L.name }
        requires parts { blank.parts ≡ L.parts }
        requires some { 0 < blank.parts }
        requires closed { list_all is_closed_entry (entries self.old.fed) ≡ true }
        ensures { AllDone self.old result self.new }
    {
        let mut steps = Steps::<L>::new(blank);
        match self.desk.settle(&mut steps) {
            Ok(()) => {
                settled_shows_picture(&self.desk);
                Answer::Done
            }
            Err(_) => Answer::NoMemory,
        }
    }
}
