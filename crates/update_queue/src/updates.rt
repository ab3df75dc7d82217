//! The list of patches.

ghost use Rattle.std.specs.Prelude.{◌≡◌, ◌≤◌, ◌<◌, true, [], length, Some, IfNone, remove, slice_get, ℕ};
ghost use Rattle.std.specs.Bool.{OnTrue};
ghost use Rattle.std.specs.List.{find, position_or_len};
ghost use Rattle.geom_core.specs.Areas.{lies_in};
ghost use Rattle.doc_model.specs.Updates.{queued, refreshed, added, replaced};
ghost use Rattle.doc_model.specs.Queues.{IsQueue};
ghost use Rattle.doc_model.specs.declared.canvas.Walk.TheVariants as walks;
ghost use Rattle.update_queue.specs.Waiting.{waiting, avoids, largest};

use crate::places::{add_rect, begin_anew, first_free};
use arrayvec::ArrayVec;
use doc_model::{Patch, Walk};
use geom_core::Rect;
use std::marker::Model;

/// The patches of a canvas that wait to be composed anew: at most 64, each in the canvas and inside one cell of 256 by
/// 256 points, no two of one walk in one cell. A part of a rectangle joins the patch of its walk in its cell. Where the
/// places don't suffice, the list begins anew with patches of all groups that cover what was there, so that nothing
/// that waited is ever lost.
#[derive(Drop)]
pub struct Updates {
    canvas: Rect,
    patches: ArrayVec<Patch, 64>,
    /// Where the first part of the last rectangle joined: the next one is looked for there first.
    recent: usize,
    /// The rectangle whose parts, for all groups, take all places, where that is known.
    spread: Option<Rect>,
}

impl Model for Updates {
    ghost use Rattle.std.specs.Prelude.{◌≡◌, true, IfSome};
    ghost use Rattle.geom_core.specs.Areas.{lies_in};
    ghost use Rattle.doc_model.specs.Queues.{IsQueue};
    ghost use Rattle.update_queue.specs.Waiting.{Waiting, waiting, waiting_code, largest, IsSpread};

    ghost Value = { Waiting };

    ghost coded = { waiting_code };

    ghost view = { λ u. waiting u.canvas u.patches.items };

    ghost invariant = { λ u. (lies_in u.canvas largest ≡ true) × IsQueue u.canvas u.patches.items × IfSome u.spread (λ a. IsSpread a u.patches.items) };
}

impl Updates {
    /// Nothing waits. The canvas has at most 2048 columns and rows, from (0, 0) on.
    pub fn new(canvas: Rect) -> Updates
        requires { lies_in canvas largest ≡ true }
        ensures { result ≡ waiting canvas [] }
    {
        Updates {
            canvas,
            patches: ArrayVec::new(),
            recent: 0,
            spread: None,
        }
    }

    /// The rectangle, clipped to the canvas, waits for the walk from now on.
    pub fn add(&mut self, walk: Walk, rect: Rect)
        ensures { self.new ≡ waiting self.old.canvas (queued self.old.canvas self.old.patches walk
            rect) }
    {
        match self.canvas.clip(&rect) {
            Some(part) => {
                if !self.stays_with(walk, &part) {
                    self.spread = add_rect(&mut self.patches, &mut self.recent, walk, &part);
                }
            }
            None => {}
        }
    }

    /// The rectangle, clipped to the canvas, and all that waits, waits for a walk of all groups.
    pub fn refresh(&mut self, rect: Rect)
        ensures { self.new ≡ waiting self.old.canvas (refreshed self.old.canvas self.old.patches
            rect) }
    {
        match self.canvas.clip(&rect) {
            Some(part) => {
                if !self.is_spread_on(&part) {
                    self.spread = begin_anew(&mut self.patches, &part);
                }
            }
            None => {}
        }
    }

    /// Whether the parts of a rectangle that holds this one, for all groups, take all places: then it changes nothing
    /// to begin anew.
    fn is_spread_on(&self, rect: &Rect) -> bool
        ensures refreshed { OnTrue result (replaced self.now.patches rect.now ≡ self.now.patches) }
        ensures added { OnTrue result ((group : ℕ) → added self.now.patches (walks.Up group)
            rect.now ≡ self.now.patches) }
    {
        // A rectangle has points, as its sides tell.
        let _columns = rect.w();
        let _rows = rect.h();
        match self.spread {
            Some(spread) => rect.lies_in(&spread),
            None => false,
        }
    }

    /// Whether it is seen at once that it changes nothing to add the rectangle.
    fn stays_with(&self, walk: Walk, rect: &Rect) -> bool
        ensures { OnTrue result (added self.now.patches walk rect.now ≡ self.now.patches) }
    {
        match walk {
            Walk::Up(_) => self.is_spread_on(rect),
            Walk::All => false,
        }
    }

    /// The first patch that meets none of the running rectangles. None exactly where there is none.
    pub fn peek(&self, running: &[Rect]) -> Option<Patch>
        ensures { result ≡ find (avoids running.now) self.now.patches }
    {
        let i = first_free(self.patches.as_slice(), running);
        self.patches.as_slice().get(i).copied()
    }

    /// Takes the first patch that meets none of the running rectangles. None exactly where there is none; then all
    /// stays.
    pub fn take(&mut self, running: &[Rect]) -> Option<Patch>
        ensures patch { result ≡ find (avoids running.now) self.old.patches }
        ensures left { self.new ≡ waiting self.old.canvas
            (remove self.old.patches (position_or_len (avoids running.now) self.old.patches)) }
        ensures none { IfNone result (self.new ≡ self.old) }
    {
        let i = first_free(self.patches.as_slice(), running);
        match self.patches.pop_at(i) {
            Some(patch) => {
                self.spread = None;
                Some(patch)
            }
            None => None,
        }
    }

    /// Takes the patch at place i, from 0. The others keep their order.
    pub fn take_at(&mut self, i: usize) -> Patch
        requires { i < length self.old.patches }
        ensures patch { slice_get self.old.patches i ≡ Some result }
        ensures left { self.new ≡ waiting self.old.canvas (remove self.old.patches i) }
    {
        self.spread = None;
        self.patches.remove(i)
    }

    /// How many patches wait. It also tells what holds of every list of them.
    pub fn len(&self) -> usize
        ensures value { result ≡ length self.now.patches }
        ensures few { result ≤ 64 }
        ensures rules { IsQueue self.now.canvas self.now.patches }
        ensures canvas { lies_in self.now.canvas largest ≡ true }
    {
        self.patches.len()
    }

    /// The patch at place i, from 0.
    pub fn patch(&self, i: usize) -> Patch
        requires { i < length self.now.patches }
        ensures { slice_get self.now.patches i ≡ Some result }
    {
        self.patches.as_slice()[i]
    }
}
