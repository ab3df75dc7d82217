//! The colours of all points of a frame, and how they follow from those of the frame before.

ghost use Rattle.std.specs.Prelude.{◌≡◌, ◌+◌, ◌-◌, ◌*◌, ◌<◌, ◌≤◌, ◌%◌, ◌↔◌, IsTrue, length, min};
ghost use Rattle.frame_core.specs.Films.{IsAfter};
ghost use Rattle.frame_core.specs.Frames.{rows_colours, LaysRows, SameCanvas, columns_in};

use crate::frame::TILE;
use crate::{Frame, Marks};

impl Frame {
    /// Writes red, green and blue of each point of n rows from `top` on, in row order, to a band of just
    /// as many bytes. It goes tile by tile, since a tile's pixels stand one after another in memory: rows
    /// of one row of tiles are read sooner so than each across all tiles.
    pub fn rows_into(&self, top: u16, n: u16, band: &mut [u8])
        requires inside { top + n ≤ self.now.height }
        requires whole { length band.old ≡ 3 * (self.now.width * n) }
        ensures { band.new ≡ rows_colours self.now top n }
    {
        for col in 0..self.width().div_ceil(TILE) {
            self.tile_into(col, top, n, band);
        }
    }

    /// Writes the points of n rows from `top` on that lie in the tiles of one column.
    fn tile_into(&self, col: u16, top: u16, n: u16, band: &mut [u8])
        requires col { 64 * col < self.now.width }
        requires inside { top + n ≤ self.now.height }
        requires whole { length band.old ≡ 3 * (self.now.width * n) }
        ensures { LaysRows self.now top n band.old band.new (64 * col) (columns_in self.now col) }
    {
        let across = 3 * self.width() as usize;
        let mut at = 0;
        for y in 0..n {
            self.tile_row_into(col, top + y, &mut band[at..at + across]);
            at += across;
        }
    }

    /// Whether both have the same sides and the same paper.
    pub(crate) fn has_canvas_of(&self, before: &Frame) -> bool
        ensures { IsTrue result ↔ SameCanvas self.now before.now }
    {
        before.width() == self.width()
            && before.height() == self.height()
            && before.paper() == self.paper()
    }

    /// Writes the points of n rows from `top` on that lie in marked tiles, in a band of just as many bytes with the
    /// colours of the frame before. The row `top` is the first one of a row of tiles.
    pub(crate) fn rows_after(
        &self,
        before: &Frame,
        fresh: &Marks,
        top: u16,
        n: u16,
        band: &mut [u8],
    )
        requires after { IsAfter self.now before.now fresh.now }
        requires first { top % 64 ≡ 0 }
        requires inside { top + n ≤ self.now.height }
        requires whole { length band.old ≡ 3 * (self.now.width * n) }
        requires shown { band.old ≡ rows_colours before.now top n }
        ensures { band.new ≡ rows_colours self.now top n }
    {
        let _known = self.height();
        let across = 3 * self.width() as usize;
        let mut at = 0;
        for row in 0..n.div_ceil(TILE) {
            let count = (n - TILE * row).min(TILE);
            let end = at + across * count as usize;
            self.band_after(before, fresh, top / TILE + row, count, &mut band[at..end]);
            at = end;
        }
    }

    /// Writes the points of the marked tiles of one row of tiles, tile by tile. The band is the first n rows of
    /// points in these tiles.
    fn band_after(&self, before: &Frame, fresh: &Marks, row: u16, n: u16, band: &mut [u8])
        requires after { IsAfter self.now before.now fresh.now }
        requires row { row < 32 }
        requires few { n ≤ 64 }
        requires inside { 64 * row + n ≤ self.now.height }

        // The band has the colours of the frame before, and then this frame's.
        requires whole { length band.old ≡ 3 * (self.now.width * n) }
        requires shown { band.old ≡ rows_colours before.now (64 * row) n }
        ensures { band.new ≡ rows_colours self.now (64 * row) n }
    {
        for col in 0..self.width().div_ceil(TILE) {
            if fresh.has_at(col, row) {
                self.tile_into(col, TILE * row, n, band);
            }
        }
    }
}
