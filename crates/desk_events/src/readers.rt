//! What is shown, and what has come so far.

ghost use Rattle.std.specs.Prelude.{All, ◌≡◌, ◌<◌, pos, true, false, map, IfOk, IfSome, IfNone};
ghost use Rattle.geom_core.specs.Areas.{point};
ghost use Rattle.doc_model.specs.Layers.{at};
ghost use Rattle.doc_model.specs.Picture.{picture};
ghost use Rattle.frame_core.specs.Scenes.{HasSides, colours_of};
ghost use Rattle.machine_model.specs.Groups.{cache};
ghost use Rattle.machine_model.specs.Covers.{covered};
ghost use Rattle.desk_state.specs.Cached.{ShowsCache};
ghost use Rattle.slot_work.specs.Round.{IsRound};
ghost use Rattle.desk_events.specs.Asks.{wants_commands};
ghost use Rattle.desk_events.specs.Shown.{IsRootTile, RootIsClear, ShowsWhereClean};

use crate::machine::Machine;
use doc_model::{Canvas, Command, Outcome};
use entry_queue::Entry;
use frame_core::{Film, Frame};
use geom_core::{NoMemory, Rect, TileKey};
use group_caches::Caches;
use pixel_core::Pixel;
use slot_work::{round_unsettled, some_waits, some_works};
use std::alloc::Global;
use tile_core::Tile;

/// The id of the root.
const ROOT: u16 = 0;

impl Machine {
    /// The pixel of the root's cache at a point of the canvas. Where nothing will compose the root anew
    /// there, it is the picture's. No memory.
    pub fn root_pixel(&self, x: u16, y: u16) -> Pixel
        requires column { x < self.now.canvas.w }
        requires row { y < self.now.canvas.h }
        ensures pixel { result ≡ at (cache self.now.caches 0) (point (pos x) (pos y)) }
        ensures picture { covered self.now 0 (point (pos x) (pos y)) ≡ false
            → result ≡ picture self.now.present (point (pos x) (pos y)) }
    {
        self.filmed.caches().at(ROOT, i32::from(x), i32::from(y))
    }

    /// Whether something will compose the root anew at the point.
    pub fn is_covered(&self, x: i32, y: i32) -> bool
        ensures { result ≡ covered self.now 0 (point x y) }
    {
        some_waits(&self.updates, x, y) || some_works(&self.slots, x, y)
    }

    /// The least rectangle round the points of this one at which something will compose the root anew. None
    /// exactly where there is no such point. All other points of it on the canvas have the picture's pixel. No
    /// memory.
    pub fn dirty_in(&self, rect: &Rect) -> Option<Rect>
        ensures round { IsRound rect.now (covered self.now 0) result }
        ensures picture { ShowsWhereClean self.now }
    {
        round_unsettled(&self.updates, &self.slots, rect)
    }

    /// The root's cache as a frame on the canvas's paper, as an export would take it now, and which isn't kept.
    /// Tiles are shared.
    ///
    /// # Errors
    /// `NoMemory`.
    pub fn root_frame(&self, alloc: Global) -> Result<Frame, NoMemory>
        ensures { IfOk result (ShowsCache self.now.caches self.now.canvas) }
    {
        self.filmed.root_frame(alloc, self.canvas)
    }

    /// The caches of the document's groups.
    pub fn caches(&self) -> &Caches
        ensures { result.now ≡ self.now.caches }
    {
        self.filmed.caches()
    }

    /// The tile of the root's cache under a key. None only where the root's cache is clear on that tile.
    pub fn root_tile(&self, key: TileKey) -> Option<&Tile>
        ensures some { IfSome result (λ t. IsRootTile self.now key t.now) }
        ensures none { IfNone result (RootIsClear self.now key) }
    {
        self.filmed.caches().tile(ROOT, key)
    }

    /// The frames, one for each export so far. Each has the canvas's sides.
    pub fn frames(&self) -> &[Frame]
        ensures colours { map colours_of result.now ≡ self.now.frames }
        ensures sides { All (HasSides self.now.canvas.w self.now.canvas.h) result.now }
    {
        self.filmed.frames()
    }

    /// The film of the frames and the outcomes so far, in order. Of each frame the tiles are marked that
    /// may differ from the frame before.
    pub fn into_results(self) -> (Film, Vec<Outcome>)
        ensures frames { map colours_of result.0 ≡ self.frames }
        ensures sides { All (HasSides self.canvas.w self.canvas.h) result.0 }
        ensures outcomes { result.1.items ≡ self.outcomes }
    {
        let Machine { filmed, queue, .. } = self;
        (filmed.into_film(), queue.into_outcomes())
    }

    /// The outcomes so far, in order.
    pub fn outcomes(&self) -> &[Outcome]
        ensures { result.now ≡ self.now.outcomes }
    {
        self.queue.outcomes()
    }

    /// The commands that were fed.
    pub fn commands(&self) -> &[Command]
        ensures { result.now ≡ self.now.fed }
    {
        self.fed.commands()
    }

    /// The canvas that it was made for.
    pub fn canvas(&self) -> Canvas
        ensures { result ≡ self.now.canvas }
    {
        self.canvas
    }

    /// Whether a further command may be of use at once: each entry has its outcome, or the stroke at the
    /// head is still open. No memory.
    pub fn wants_commands(&self) -> bool
        ensures { result ≡ wants_commands self.now }
    {
        match self.queue.head() {
            None => true,
            Some(Entry::Waiting(_)) => true,
            Some(Entry::Whole(_)) => false,
            Some(Entry::Other(_)) => false,
        }
    }
}
