//! Frames of one canvas, one after another.

ghost use Rattle.std.specs.Prelude.{◌≡◌, ◌↔◌, ◌∷◌, ◌++◌, [], ◌<◌, ◌%◌, IsTrue, Some, OnOk, OnErr, length};
ghost use Rattle.std.specs.Option.{option_copied};
ghost use Rattle.frame_core.specs.Films.{Follows, IsBandOf, Renews, RenewsBefore, ShowsBefore, ShowsRows, newest};
ghost use Rattle.frame_core.specs.Frames.{Scene};

use crate::{Frame, Marks};
use geom_core::NoMemory;
use std::alloc::Global;
use std::marker::Model;

/// Frames, one after another. Of each it is known on which tiles it may differ from the frame before,
/// so that the colours of one follow from those of the one before by these tiles alone.
#[derive(Drop)]
pub struct Film {
    frames: Vec<Frame>,
    fresh: Vec<Marks>,
}

impl Model for Film {
    ghost use Rattle.std.specs.Prelude.{List};
    ghost use Rattle.std.specs.Coded.{coded_list};
    ghost use Rattle.frame_core.specs.Frames.{Scene, scene_code};
    ghost use Rattle.frame_core.specs.Films.{IsFilm};

    ghost Value = { List Scene };

    ghost coded = { coded_list scene_code };

    ghost view = { λ f. f.frames.items };

    ghost invariant = { λ f. IsFilm f.frames.items f.fresh.items };
}

impl Film {
    /// No frame.
    pub fn new(alloc: Global) -> Film
        ensures { result ≡ [] }
    {
        Film {
            frames: Vec::new(alloc),
            fresh: Vec::new(alloc),
        }
    }

    /// The frames from the first on.
    pub fn frames(&self) -> &[Frame]
        ensures { result.now ≡ self.now }
    {
        self.frames.as_slice()
    }

    /// Adds a frame at the end. The tiles on which it may show other pixels than the newest frame so
    /// far are marked. After `NoMemory` all is as it was.
    pub fn push(&mut self, frame: Frame, fresh: Marks) -> Result<(), NoMemory>
        requires { (before : Scene) → newest self.old ≡ Some before → Renews frame before fresh }
        ensures ok { OnOk result (self.new ≡ self.old ++ frame ∷ []) }
        ensures err { OnErr result (self.new ≡ self.old) }
    {
        self.fresh.reserve(1)?;
        self.frames.push(frame)?;
        match self.fresh.push(fresh) {
            Ok(()) => Ok(()),
            Err(_) => unreachable!(),
        }
    }

    /// The newest frame, if there is one.
    pub fn newest(&self) -> Option<&Frame>
        ensures { option_copied result ≡ newest self.now }
    {
        self.frames.last()
    }

    /// Whether the frame at place `i`, from 0 on, follows one with the same sides and the same paper.
    pub fn follows(&self, i: usize) -> bool
        requires { i < length self.now }
        ensures { IsTrue result ↔ Follows self.now i }
    {
        i > 0 && self.frames[i].has_canvas_of(&self.frames[i - 1])
    }

    /// The tiles on which the frame at place `i` may show other pixels than the frame before.
    pub fn fresh(&self, i: usize) -> &Marks
        requires { i < length self.now }
        ensures { RenewsBefore self.now i result.now }
    {
        &self.fresh[i]
    }

    /// Writes red, green and blue of each point of n rows from `top` on of the frame at place `i`, in row order, in
    /// a band of just as many bytes where the colours of the frame before stand. The row `top` is the first one
    /// of a row of tiles. Only the tiles that may differ are written.
    pub fn rows_after(&self, i: usize, top: u16, n: u16, band: &mut [u8])
        requires there { i < length self.now }
        requires follows { Follows self.now i }
        requires first { top % 64 ≡ 0 }
        requires band { IsBandOf self.now i top n band.old }
        requires shown { ShowsBefore self.now i top n band.old }
        ensures { ShowsRows self.now i top n band.new }
    {
        self.frames[i].rows_after(&self.frames[i - 1], &self.fresh[i], top, n, band);
    }
}
