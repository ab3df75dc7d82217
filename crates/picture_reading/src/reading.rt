//! Reading a rectangle of a picture.

ghost use Rattle.std.specs.Prelude.{◌≡◌, ℕ, ◌+◌, ◌-◌, ◌*◌, ◌%◌, ◌<◌, ◌≤◌, true, nat_abs, length, slice_index, OnOk, OnErr};
ghost use Rattle.picture_reading.specs.Formats.{pixel_bytes, size};
ghost use Rattle.picture_reading.specs.Reading.{HasRead, has_room, row_bytes, verdict};

use crate::format::Format;
use crate::kernels::lay_run;
use crate::picture::Picture;
use crate::window::{Layout, Part, Unreadable, Window};
use geom_core::TILE_SIDE;
use pixel_core::Pixel;

/// How many columns a tile has: `TILE_SIDE`.
pub(crate) const TILE: u16 = TILE_SIDE as u16;

/// Copies a rectangle of a picture's pixels. The bytes between rows, and those behind the last one, are not written.
/// No memory is taken.
///
/// # Errors
/// `OutOfBounds`, `BufferTooSmall`, the first that fits; then nothing is written.
pub fn read<P: Picture>(
    picture: &P,
    window: Window,
    layout: Layout,
    out: &mut [u8],
) -> Result<(), Unreadable>
    ensures verdict { result ≡ verdict window layout (P.shown picture.now) (length out.old) }
    ensures ok { OnOk result (HasRead (P.shown picture.now) layout (nat_abs window.x)
        (nat_abs window.y) window.w window.h out.old out.new) }
    ensures err { OnErr result (out.new ≡ out.old) }
{
    let Some(part) = window.part(picture.width(), picture.height()) else {
        return Err(Unreadable::OutOfBounds);
    };
    if !layout.has_room(part.w, part.h, out.len()) {
        return Err(Unreadable::BufferTooSmall);
    }
    read_rows(picture, &part, layout, out);
    Ok(())
}

/// Copies pixels that are there, with room for them, row by row.
fn read_rows<P: Picture>(picture: &P, part: &Part, layout: Layout, out: &mut [u8])
    requires columns { part.now.x + part.now.w ≤ (P.shown picture.now).width }
    requires rows { part.now.y + part.now.h ≤ (P.shown picture.now).height }
    requires room { has_room layout part.now.w part.now.h (length out.old) ≡ true }
    ensures { HasRead (P.shown picture.now) layout part.now.x part.now.y part.now.w part.now.h out.old
        out.new }
{
    let bytes = layout.row_bytes(part.w);
    for row in 0..part.h {
        let at = usize::from(row) * layout.stride;
        read_row(picture, part, row, layout.format, &mut out[at..at + bytes]);
    }
}

/// Copies one row, tile by tile.
fn read_row<P: Picture>(picture: &P, part: &Part, row: u16, format: Format, out: &mut [u8])
    requires columns { part.now.x + part.now.w ≤ (P.shown picture.now).width }
    requires rows { part.now.y + part.now.h ≤ (P.shown picture.now).height }
    requires row { row < part.now.h }
    requires whole { length out.old ≡ part.now.w * size format }
    ensures { (k c : ℕ) → k < part.now.w → c < size format → slice_index out.new (k * size format + c)
        ≡ slice_index (pixel_bytes format (P.shown picture.now).paper
        ((P.shown picture.now).pixel (part.now.x + k) (part.now.y + row))) c }
{
    let end = part.x + part.w;
    for col in part.x / TILE..end.div_ceil(TILE) {
        let from = part.x.max(TILE * col);
        let to = end.min(TILE * col + TILE);
        let at = usize::from(from - part.x) * format.size();
        let n = usize::from(to - from);
        let run = &mut out[at..at + n * format.size()];
        read_run(picture, from, part.y + row, n, format, run);
    }
}

/// Copies n pixels of one row of a tile.
fn read_run<P: Picture>(picture: &P, x: u16, y: u16, n: usize, format: Format, out: &mut [u8])
    requires columns { x + n ≤ (P.shown picture.now).width }
    requires row { y < (P.shown picture.now).height }
    requires whole { length out.old ≡ n * size format }
    requires tile { x % 64 + n ≤ 64 }
    ensures { (k c : ℕ) → k < n → c < size format → slice_index out.new (k * size format + c)
        ≡ slice_index (pixel_bytes format (P.shown picture.now).paper
        ((P.shown picture.now).pixel (x + k) y)) c }
{
    let mut pixels = [Pixel::CLEAR; TILE_SIDE];
    picture.pixels_into(x, y, &mut pixels[..n]);
    lay_run(format, &pixels[..n], picture.paper(), out);
}
