//! What can be read.

ghost use Rattle.std.specs.Prelude.{◌≡◌, ℕ, ◌+◌, ◌%◌, ◌<◌, ◌≤◌, length, slice_index_or};
ghost use Rattle.pixel_core.specs.Rgba.{clear};
ghost use Rattle.picture_reading.specs.Pictures.{Shown};

use pixel_core::Pixel;

/// A picture of a canvas that has its corner at (0, 0): pixels over an opaque paper.
pub trait Picture {
    ghost shown: { Self → Shown };

    /// How many columns it has: at most 2048.
    fn width(&self) -> u16
        ensures value { result ≡ (shown self.now).width }
        ensures small { result ≤ 2048 };

    /// How many rows it has: at most 2048.
    fn height(&self) -> u16
        ensures value { result ≡ (shown self.now).height }
        ensures small { result ≤ 2048 };

    /// The opaque paper.
    fn paper(&self) -> Pixel
        ensures value { result ≡ (shown self.now).paper }
        ensures opaque { result.a ≡ 255 };

    /// Writes the pixels of the row `y` from the column `x` on, as many as there is room for. All of them
    /// lie in one tile of 64 columns.
    fn pixels_into(&self, x: u16, y: u16, out: &mut [Pixel])
        requires columns { x + length out.old ≤ (shown self.now).width }
        requires row { y < (shown self.now).height }
        requires tile { x % 64 + length out.old ≤ 64 }
        ensures { (k : ℕ) → k < length out.old
            → slice_index_or out.new k clear ≡ (shown self.now).pixel (x + k) y };
}
