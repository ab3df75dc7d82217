//! Colours of pixels on an opaque paper, a row of a tile at a time.

ghost use Rattle.std.specs.Prelude.{◌≡◌, ◌+◌, ◌*◌, ◌≤◌, length, replicate, take};
ghost use Rattle.std.specs.List.{flat_map};
ghost use Rattle.pixel_core.specs.Rgba.{clear};
ghost use Rattle.frame_core.specs.Frames.{colours, colours_on, WritesAt};

use pixel_core::Pixel;
use pixel_rows::lay_on_paper;

/// Writes the colours of the pixels on the paper to the places from `at` on.
pub fn lay_colours(row: &mut [u8], at: usize, pixels: &[Pixel], paper: Pixel)
    requires opaque { paper.a ≡ 255 }
    requires few { length pixels.now ≤ 64 }
    requires room { at + 3 * length pixels.now ≤ length row.old }
    ensures { WritesAt row.old row.new at (3 * length pixels.now) (colours_on paper pixels.now) }
{
    let mut laid = [paper; 64];
    let count = pixels.len();
    lay_on_paper(pixels, paper, &mut laid[..count]);
    put_colours(row, at, &laid, count);
}

/// Writes the colours of n clear pixels on the paper to the places from `at` on.
pub fn lay_paper(row: &mut [u8], at: usize, n: usize, paper: Pixel)
    requires opaque { paper.a ≡ 255 }
    requires few { n ≤ 64 }
    requires room { at + 3 * n ≤ length row.old }
    ensures { WritesAt row.old row.new at (3 * n) (colours_on paper (replicate n clear)) }
{
    put_colours(row, at, &[paper; 64], n);
}

/// Writes the colours of the first n pixels to the places from `at` on.
fn put_colours(row: &mut [u8], at: usize, pixels: &[Pixel; 64], n: usize)
    requires few { n ≤ 64 }
    requires room { at + 3 * n ≤ length row.old }
    ensures { WritesAt row.old row.new at (3 * n) (flat_map colours (take n pixels.now)) }
{
    let mut bytes = [0; 193];
    write_colours(&mut bytes, pixels);
    row[at..at + 3 * n].copy_from_slice(&bytes[..3 * n]);
}

/// Writes the colours of all pixels to the first places.
#[inline]
fn write_colours(bytes: &mut [u8; 193], pixels: &[Pixel; 64])
    ensures { take 192 bytes.new ≡ flat_map colours pixels.now }
{
    for i in 0..64 {
        // Four bytes are written sooner than three. The next pixel's red goes over the alpha.
        bytes[3 * i..3 * i + 4].copy_from_slice(&pixels[i].bytes());
    }
}
