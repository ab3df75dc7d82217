//! Rows of pixels laid over others.

ghost use Rattle.std.specs.Prelude.{◌≡◌, ◌+◌, ◌*◌, ◌≤◌, ◌<◌, ◌^◌, ◌++◌, take, drop, length};
ghost use Rattle.geom_core.specs.Rects.{IsWithin};
ghost use Rattle.job_core.specs.Laid.{LaysRows, LaysOver};

use geom_core::Rect;
use pixel_core::Pixel;
use tile_core::Part;

/// Lays the pixels of a part of the rectangle over the rectangle's pixels.
pub fn lay_over(pixels: &mut [Pixel], rect: &Rect, part: &Rect, src: &[Pixel])
    requires all { length pixels.old ≡ rect.now.h * rect.now.w }
    requires inside { IsWithin part.now rect.now }
    requires src { length src.now ≡ part.now.h * part.now.w }
    ensures { LaysOver rect.now part.now src.now pixels.old pixels.new }
{
    let place = Part {
        left: (part.left() - rect.left()) as usize,
        top: (part.top() - rect.top()) as usize,
        w: part.w() as usize,
        h: part.h() as usize,
    };
    lay_rows(pixels, rect.w() as usize, place, src);
}

/// Lays rows over a part of pixels that stand in rows of that width.
fn lay_rows(pixels: &mut [Pixel], width: usize, part: Part, src: &[Pixel])
    requires across { part.left + part.w ≤ width }
    requires down { (part.top + part.h) * width ≤ length pixels.old }
    requires small { length pixels.old < 2 ^ 32 }
    requires src { length src.now ≡ part.h * part.w }
    ensures { LaysRows width part.left part.top part.w part.h src.now pixels.old pixels.new }
{
    let mut from = 0;
    let mut to = part.top * width + part.left;
    for _row in 0..part.h {
        put_row(pixels, to, &src[from..from + part.w]);
        from += part.w;
        to += width;
    }
}

/// Writes a row over the places from `at` on.
fn put_row(pixels: &mut [Pixel], at: usize, row: &[Pixel])
    requires { at + length row.now ≤ length pixels.old }
    ensures { pixels.new ≡ take at pixels.old ++ row.now ++ drop (at + length row.now) pixels.old }
{
    let n = row.len();
    pixels[at..at + n].copy_from_slice(row);
}
