//! Pixels that are all the same.

ghost use Rattle.std.specs.Prelude.{◌≡◌, ◌↔◌, ◌<◌, ℕ, IsTrue, IfSome, length, replicate, slice_index_or};
ghost use Rattle.pixel_core.specs.Rgba.{clear};

use crate::block::BLOCK;
use pixel_core::Pixel;

/// Whether all pixels are `p`. It goes through all of them, with no branch.
pub fn all_are(pixels: &[Pixel], p: Pixel) -> bool
    ensures { IsTrue result ↔ (pixels.now ≡ replicate (length pixels.now) p) }
{
    let mut all = true;
    for i in 0..pixels.len() {
        all = all & (pixels[i] == p);
    }
    all
}

/// The pixel that all of these are. None where they differ, or are fewer than a block has. Where the
/// first and the last one differ, it looks no further.
#[inline]
pub(crate) fn plain_pixel(pixels: &[Pixel]) -> Option<Pixel>
    ensures { IfSome result (λ p. (k : ℕ) → k < length pixels.now → slice_index_or pixels.now k
        clear ≡ p) }
{
    if pixels.len() < BLOCK {
        return None;
    }
    let first = pixels[0];
    let last = pixels[pixels.len() - 1];
    if last == first && all_are(pixels, first) {
        Some(first)
    } else {
        None
    }
}
