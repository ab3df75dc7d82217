//! Which pixels are read, and where their bytes go.

ghost use Rattle.std.specs.Prelude.{◌≡◌, ◌+◌, ◌<◌, ◌≤◌, nat_abs, true, IfSome, IfNone, false};
ghost use Rattle.picture_reading.specs.Reading.{has_room, is_on, is_span, row_bytes};

use crate::format::Format;
use thiserror::Error;

/// A rectangle of pixels, as a host names it: from column `x` and row `y` on, to the right and down. It may have no
/// pixels, or lie outside the canvas.
#[derive(Clone, Copy, Debug, PartialEq, Eq)]
pub struct Window {
    pub x: i32,
    pub y: i32,
    pub w: u32,
    pub h: u32,
}

/// How pixels stand in a buffer: row by row from the top, each row from the left.
#[derive(Clone, Copy, Debug, PartialEq, Eq)]
pub struct Layout {
    /// The bytes of a pixel.
    pub format: Format,
    /// How many bytes a row's first byte stands behind that of the row above.
    pub stride: usize,
}

/// Why nothing was read.
#[derive(Clone, Copy, Debug, PartialEq, Eq, Error)]
pub enum Unreadable {
    /// The rectangle has no pixels, or some that aren't on the canvas.
    #[error("the rectangle is empty or outside the canvas")]
    OutOfBounds,
    /// The stride is less than a row, or the buffer too short for all rows.
    #[error("the buffer is too small")]
    BufferTooSmall,
}

/// A rectangle of pixels on a canvas: from column `x` and row `y` on, to the right and down, at least one pixel.
#[derive(Clone, Copy)]
pub struct Part {
    pub x: u16,
    pub y: u16,
    pub w: u16,
    pub h: u16,
    ghost some_columns: { 0 < w },
    ghost columns: { x + w ≤ 2048 },
    ghost some_rows: { 0 < h },
    ghost rows: { y + h ≤ 2048 },
}

impl Window {
    /// The rectangle on a canvas of these sides. None exactly where it has no pixels, or some outside.
    pub(crate) fn part(&self, width: u16, height: u16) -> Option<Part>
        requires width { width ≤ 2048 }
        requires height { height ≤ 2048 }
        ensures on { IfSome result (λ p. is_on self.now width height ≡ true) }
        ensures off { IfNone result (is_on self.now width height ≡ false) }
        ensures x { IfSome result (λ p. p.x ≡ nat_abs self.now.x) }
        ensures y { IfSome result (λ p. p.y ≡ nat_abs self.now.y) }
        ensures w { IfSome result (λ p. p.w ≡ self.now.w) }
        ensures h { IfSome result (λ p. p.h ≡ self.now.h) }
    {
        if is_span(self.x, self.w, width) && is_span(self.y, self.h, height) {
            Some(Part {
                x: self.x as u16,
                y: self.y as u16,
                w: self.w as u16,
                h: self.h as u16,
            })
        } else {
            None
        }
    }
}

/// Whether n numbers from `from` on are some of those below `side`, at least one.
fn is_span(from: i32, n: u32, side: u16) -> bool
    ensures { result ≡ is_span from n side }
{
    n > 0 && from >= 0 && i64::from(from) + i64::from(n) <= i64::from(side)
}

impl Layout {
    /// How many bytes a row of `w` pixels is.
    pub(crate) fn row_bytes(&self, w: u16) -> usize
        ensures { result ≡ row_bytes self.now w }
    {
        usize::from(w) * self.format.size()
    }

    /// Whether that many bytes have room for `h` rows of `w` pixels.
    pub(crate) fn has_room(&self, w: u16, h: u16, bytes: usize) -> bool
        ensures { result ≡ has_room self.now w h bytes }
    {
        let row = self.row_bytes(w);
        let above = u128::from(h.saturating_sub(1)) * self.stride as u128;
        row <= self.stride && above + row as u128 <= bytes as u128
    }
}
