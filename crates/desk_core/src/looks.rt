//! What a desk shows, and what has come so far, item by item.

ghost use Rattle.std.specs.Prelude.{All, ◌≡◌, ◌↔◌, ◌<◌, IsTrue, pos, Some, length, map, slice_get};
ghost use Rattle.geom_core.specs.Areas.{point};
ghost use Rattle.doc_model.specs.Layers.{at};
ghost use Rattle.doc_model.specs.Picture.{picture};
ghost use Rattle.frame_core.specs.Scenes.{HasSides, colours_of};
ghost use Rattle.machine_model.specs.Groups.{cache};
ghost use Rattle.machine_model.specs.Covers.{covered};
ghost use Rattle.desk_core.specs.declared.answers.Fresh.TheVariants as fresh;

use crate::answers::Fresh;
use crate::desk::Desk;
use doc_model::{Command, Outcome};
use frame_core::{Film, Frame};
use pixel_core::Pixel;

impl Desk {
    /// The pixel of the root's cache at a point of the canvas, and whether it is up to date: `Dirty`
    /// exactly where something that waits or is at work will compose the root anew there, and else
    /// the pixel is the picture's. No memory.
    pub fn look(&self, x: u16, y: u16) -> (Pixel, Fresh)
        requires column { x < self.now.canvas.w }
        requires row { y < self.now.canvas.h }
        ensures pixel { result.0 ≡ at (cache self.now.caches 0) (point (pos x) (pos y)) }
        ensures dirty { (result.1 ≡ fresh.Dirty)
            ↔ IsTrue (covered self.now 0 (point (pos x) (pos y))) }
        ensures picture { result.1 ≡ fresh.Clean
            → result.0 ≡ picture self.now.present (point (pos x) (pos y)) }
    {
        let pixel = self.machine.root_pixel(x, y);
        if self.machine.is_covered(i32::from(x), i32::from(y)) {
            (pixel, Fresh::Dirty)
        } else {
            (pixel, Fresh::Clean)
        }
    }

    /// How many frames there are.
    pub fn frame_count(&self) -> usize
        ensures { result ≡ length self.now.frames }
    {
        self.frames().len()
    }

    /// The frame at place `i`, from 0 on.
    pub fn frame(&self, i: usize) -> &Frame
        requires { i < length self.now.frames }
        ensures colours { slice_get self.now.frames i ≡ Some (colours_of result.now) }
        ensures sides { HasSides self.now.canvas.w self.now.canvas.h result.now }
    {
        &self.frames()[i]
    }

    /// The film of the frames and the outcomes so far, in order. Of each frame the tiles are marked that
    /// may differ from the frame before.
    pub fn into_results(self) -> (Film, Vec<Outcome>)
        ensures frames { map colours_of result.0 ≡ self.frames }
        ensures sides { All (HasSides self.canvas.w self.canvas.h) result.0 }
        ensures outcomes { result.1.items ≡ self.outcomes }
    {
        let Desk { machine, .. } = self;
        machine.into_results()
    }

    /// How many outcomes there are so far.
    pub fn outcome_count(&self) -> usize
        ensures { result ≡ length self.now.outcomes }
    {
        self.outcomes().len()
    }

    /// The outcome at place `i`, from 0 on.
    pub fn outcome(&self, i: usize) -> Outcome
        requires { i < length self.now.outcomes }
        ensures { slice_get self.now.outcomes i ≡ Some result }
    {
        self.outcomes()[i]
    }

    /// How many commands were fed.
    pub fn fed_count(&self) -> usize
        ensures { result ≡ length self.now.fed }
    {
        self.commands().len()
    }

    /// The command that was fed at place `i`, from 0 on.
    pub fn fed(&self, i: usize) -> &Command
        requires { i < length self.now.fed }
        ensures { slice_get self.now.fed i ≡ Some result.now }
    {
        &self.commands()[i]
    }
}
