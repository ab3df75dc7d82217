//! What is there: outcomes, frames, shots.

ghost use Rattle.std.specs.Prelude.{◌≡◌, IfOk, length, slice_get};
ghost use Rattle.desk_state.specs.Cached.{ShowsCache};
ghost use Rattle.host_desk.specs.Views.{FrameRow, RowOf};

use crate::host::Host;
use crate::shot::Shot;
use doc_model::{Canvas, Outcome};
use frame_core::Frame;
use geom_core::NoMemory;
use host_lines::Answer;

impl Host {
    /// The canvas that it was opened for.
    pub fn canvas(&self) -> Canvas
        ensures { result ≡ self.now.canvas }
    {
        self.desk.canvas()
    }

    /// How many commands were fed.
    pub fn command_count(&self) -> usize
        ensures { result ≡ length self.now.fed }
    {
        self.desk.fed_count()
    }

    /// How many outcomes there are.
    pub fn outcome_count(&self) -> usize
        ensures { result ≡ length self.now.outcomes }
    {
        self.desk.outcome_count()
    }

    /// How many frames there are.
    pub fn frame_count(&self) -> usize
        ensures { result ≡ length self.now.frames }
    {
        self.desk.frame_count()
    }

    /// The outcome of an entry, from 0 on. None exactly where it has none yet.
    pub fn outcome(&self, entry: u64) -> Option<Outcome>
        ensures { result ≡ slice_get self.now.outcomes entry }
    {
        if entry < self.desk.outcome_count() as u64 {
            Some(self.desk.outcome(entry as usize))
        } else {
            None
        }
    }

    /// Writes red, green and blue of a row of a frame, both from 0 on. `Done`; `Outside` where there is no such frame
    /// or row; `NoRoom`. But for `Done` nothing is written.
    pub fn frame_row(&self, frame: u64, y: u16, out: &mut [u8]) -> Answer
        ensures { FrameRow self.now frame y out.old result out.new }
    {
        if frame >= self.desk.frame_count() as u64 {
            return Answer::Outside;
        }
        row_of(self.desk.frame(frame as usize), y, out)
    }

    /// A shot of the root's picture.
    ///
    /// # Errors
    /// `NoMemory`.
    pub fn shoot(&self) -> Result<Shot, NoMemory>
        ensures { IfOk result (ShowsCache self.now.caches self.now.canvas) }
    {
        Ok(Shot::of(self.desk.root_frame(self.alloc)?))
    }
}

/// Writes red, green and blue of a row of a frame.
fn row_of(frame: &Frame, y: u16, out: &mut [u8]) -> Answer
    ensures { RowOf frame.now y out.old result out.new }
{
    if y >= frame.height() {
        return Answer::Outside;
    }
    if out.len() < 3 * usize::from(frame.width()) {
        return Answer::NoRoom;
    }
    frame.row_into(y, out);
    Answer::Done
}
