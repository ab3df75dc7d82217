//! Pixels written as bytes, in each format by a loop of its own.

ghost use Rattle.std.specs.Prelude.{◌≡◌, ℕ, ◌+◌, ◌*◌, ◌<◌, ◌≤◌, List, length, slice_index, slice_index_or};
ghost use Rattle.pixel_core.specs.Rgba.{Rgba, clear};
ghost use Rattle.pixel_core.specs.Words.{bytes_of};
ghost use Rattle.picture_reading.specs.Formats.{bgrx_of, pixel_bytes, premultiplied_of, size};

use crate::format::Format;
use geom_core::TILE_SIDE;
use pixel_core::{Pixel, mul};
use pixel_rows::lay_on_paper;

/// Writes the bytes of at most 64 pixels one after another.
pub(crate) fn lay_run(format: Format, pixels: &[Pixel], paper: Pixel, out: &mut [u8])
    requires opaque { paper.a ≡ 255 }
    requires few { length pixels.now ≤ 64 }
    requires room { length out.old ≡ length pixels.now * size format }
    ensures { (k c : ℕ) → k < length pixels.now → c < size format
        → slice_index out.new (k * size format + c)
        ≡ slice_index (pixel_bytes format paper (slice_index_or pixels.now k clear)) c }
{
    match format {
        Format::RgbOnPaper => lay_colours(pixels, paper, out),
        Format::BgrxOnPaper => lay_opaque(pixels, paper, out),
        Format::Rgba => lay_words::<Straight>(pixels, out),
        Format::BgraPremultiplied => lay_words::<Premultiplied>(pixels, out),
    }
}

/// A way to write a pixel as four bytes.
trait FourBytes {
    ghost four: { Rgba → List ℕ };

    /// The bytes of a pixel.
    fn of(p: Pixel) -> [u8; 4]
        ensures { result ≡ four p };
}

/// Red, green, blue and alpha.
struct Straight;

impl FourBytes for Straight {
    ghost four = { bytes_of };

    #[inline]
    fn of(p: Pixel) -> [u8; 4] {
        p.bytes()
    }
}

/// Blue, green, red and 255.
struct Opaque;

impl FourBytes for Opaque {
    ghost four = { bgrx_of };

    #[inline]
    fn of(p: Pixel) -> [u8; 4] {
        let [r, g, b, _] = p.bytes();
        [b, g, r, 255]
    }
}

/// Blue, green and red times alpha, and alpha.
struct Premultiplied;

impl FourBytes for Premultiplied {
    ghost four = { premultiplied_of };

    #[inline]
    fn of(p: Pixel) -> [u8; 4] {
        let [r, g, b, a] = p.bytes();
        [mul(b, a), mul(g, a), mul(r, a), a]
    }
}

/// Writes four bytes of each pixel.
fn lay_words<B: FourBytes>(pixels: &[Pixel], out: &mut [u8])
    requires { length out.old ≡ length pixels.now * 4 }
    ensures { (k c : ℕ) → k < length pixels.now → c < 4 → slice_index out.new (k * 4 + c)
        ≡ slice_index (B.four (slice_index_or pixels.now k clear)) c }
{
    for k in 0..pixels.len() {
        out[k * 4..k * 4 + 4].copy_from_slice(&B::of(pixels[k]));
    }
}

/// Writes red, green and blue of each pixel.
fn lay_threes(pixels: &[Pixel], out: &mut [u8])
    requires { length out.old ≡ length pixels.now * 3 }
    ensures { (k c : ℕ) → k < length pixels.now → c < 3 → slice_index out.new (k * 3 + c)
        ≡ slice_index (bytes_of (slice_index_or pixels.now k clear)) c }
{
    for k in 0..pixels.len() {
        let [r, g, b, _] = pixels[k].bytes();
        out[k * 3..k * 3 + 3].copy_from_slice(&[r, g, b]);
    }
}

/// Writes red, green and blue of each of at most 64 pixels on the paper.
fn lay_colours(pixels: &[Pixel], paper: Pixel, out: &mut [u8])
    requires opaque { paper.a ≡ 255 }
    requires few { length pixels.now ≤ 64 }
    requires room { length out.old ≡ length pixels.now * 3 }
    ensures { (k c : ℕ) → k < length pixels.now → c < 3 → slice_index out.new (k * 3 + c)
        ≡ slice_index (pixel_bytes Format.RgbOnPaper paper (slice_index_or pixels.now k clear)) c }
{
    let mut laid = [paper; TILE_SIDE];
    let laid = &mut laid[..pixels.len()];
    lay_on_paper(pixels, paper, laid);
    lay_threes(laid, out);
}

/// Writes blue, green and red of each of at most 64 pixels on the paper, and 255.
fn lay_opaque(pixels: &[Pixel], paper: Pixel, out: &mut [u8])
    requires opaque { paper.a ≡ 255 }
    requires few { length pixels.now ≤ 64 }
    requires room { length out.old ≡ length pixels.now * 4 }
    ensures { (k c : ℕ) → k < length pixels.now → c < 4 → slice_index out.new (k * 4 + c)
        ≡ slice_index (pixel_bytes Format.BgrxOnPaper paper (slice_index_or pixels.now k clear)) c }
{
    let mut laid = [paper; TILE_SIDE];
    let laid = &mut laid[..pixels.len()];
    lay_on_paper(pixels, paper, laid);
    lay_words::<Opaque>(laid, out);
}
