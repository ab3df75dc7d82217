//! One row of each group that is open while a tile is composed.

ghost use Rattle.std.specs.Prelude.{◌≡◌, ℕ, ◌+◌, ◌<◌, ◌≤◌, [], ◌∷◌, length, slice_index_or};
ghost use Rattle.pixel_core.specs.Rgba.{clear};
ghost use Rattle.frame_core.specs.OpenRows.{column, ended, laid_on};

use geom_core::TILE_SIDE;
use pixel_core::{Op, Pixel};
use pixel_rows::{lay_colour, lay_sources};
use std::marker::Model;

/// How many groups may be open at once: the root, and 16 in one another.
const DEPTH: usize = 17;

/// How many pixels all rows have.
const PIXELS: usize = TILE_SIDE * DEPTH;

/// A row of 64 pixels of each open group. Contracts see the innermost first, and the root last.
#[derive(Drop)]
pub(crate) struct OpenRows {
    /// One row after another, the root's first.
    pixels: [Pixel; PIXELS],
    /// The place of the innermost row.
    last: usize,
}

impl Model for OpenRows {
    ghost use Rattle.std.specs.Prelude.{List};
    ghost use Rattle.pixel_core.specs.Rgba.{Rgba};
    ghost use Rattle.std.specs.Prelude.{◌<◌};
    ghost use Rattle.frame_core.specs.OpenRows.{innermost_first};

    ghost Value = { List (List Rgba) };

    ghost view = { λ o. innermost_first o.pixels o.last };

    ghost invariant = { λ o. o.last < 17 };
}

impl OpenRows {
    /// The root alone, which is clear.
    pub(crate) fn new() -> OpenRows
        ensures alone { (k : ℕ) → k < 64 → column k result ≡ clear ∷ [] }
        ensures one { length result ≡ 1 }
    {
        OpenRows {
            pixels: [Pixel::CLEAR; PIXELS],
            last: 0,
        }
    }

    /// The innermost group's row.
    pub(crate) fn innermost(&self) -> [Pixel; TILE_SIDE]
        ensures { (k : ℕ) → k < 64
            → slice_index_or result k clear ≡ slice_index_or (column k self.now) 0 clear }
    {
        let at = TILE_SIDE * self.last;
        let mut row = [Pixel::CLEAR; TILE_SIDE];
        let pixels = &self.pixels[..];
        row.copy_from_slice(&pixels[at..at + TILE_SIDE]);
        row
    }

    /// Lays pixels on the innermost group.
    pub(crate) fn lay(&mut self, sources: &[Pixel], op: Op, opacity: u8)
        requires { length sources.now ≡ 64 }
        ensures laid { (k : ℕ) → k < 64 → column k self.new
            ≡ laid_on op opacity (slice_index_or sources.now k clear) (column k self.old) }
        ensures many { length self.new ≡ length self.old }
    {
        let at = TILE_SIDE * self.last;
        let pixels = &mut self.pixels[..];
        lay_sources(op, sources, opacity, &mut pixels[at..at + TILE_SIDE]);
    }

    /// Lays one pixel at each point on the innermost group.
    pub(crate) fn lay_plain(&mut self, pixel: Pixel, op: Op, opacity: u8)
        ensures laid { (k : ℕ) → k < 64 → column k self.new
            ≡ laid_on op opacity pixel (column k self.old) }
        ensures many { length self.new ≡ length self.old }
    {
        let at = TILE_SIDE * self.last;
        let pixels = &mut self.pixels[..];
        lay_colour(op, pixel, opacity, &mut pixels[at..at + TILE_SIDE]);
    }

    /// Opens a group, which is clear.
    pub(crate) fn begin(&mut self)
        requires { length self.old < 17 }
        ensures begun { (k : ℕ) → k < 64 → column k self.new ≡ clear ∷ column k self.old }
        ensures many { length self.new ≡ length self.old + 1 }
    {
        self.last += 1;
        let at = TILE_SIDE * self.last;
        let pixels = &mut self.pixels[..];
        pixels[at..at + TILE_SIDE].copy_from_slice(&[Pixel::CLEAR; TILE_SIDE]);
    }

    /// Closes the innermost group, and lays it on the group round it.
    pub(crate) fn end(&mut self, op: Op, opacity: u8)
        requires { 2 ≤ length self.old }
        ensures ended { (k : ℕ) → k < 64 → column k self.new ≡ ended op opacity
            (column k self.old) }
        ensures many { length self.new + 1 ≡ length self.old }
    {
        let sources = self.innermost();
        self.last -= 1;
        self.lay(&sources, op, opacity);
    }
}
