//! Sums over pixels, and the mean that they make.

ghost use Rattle.std.specs.Prelude.{◌≡◌, ◌≤◌, ◌*◌};
ghost use Rattle.pixel_core.specs.Compose.{nearest};
ghost use Rattle.blur_core.specs.Sums.{sums, nothing, weigh, plus, less, mean_of, IsUpTo, IsPartOf};

use pixel_core::Pixel;

/// The sums over some pixels: of their alphas, and of each colour times its alpha.
#[derive(Clone, Copy, Debug)]
pub(crate) struct Sums {
    alpha: u32,
    red: u32,
    green: u32,
    blue: u32,
}

impl Sums {
    /// The sums over no pixels.
    pub(crate) const NOTHING: Sums = Sums {
        alpha: 0,
        red: 0,
        green: 0,
        blue: 0,
    };

    /// The sums over one pixel.
    #[inline]
    pub(crate) fn of(pixel: Pixel) -> Sums
        ensures value { result ≡ weigh pixel }
        ensures small { IsUpTo 1 result }
    {
        let [r, g, b, a] = pixel.bytes();
        let alpha = a as u32;
        Sums {
            alpha,
            red: alpha * r as u32,
            green: alpha * g as u32,
            blue: alpha * b as u32,
        }
    }

    /// The sums over the pixels of both, each of at most 33 x 33 pixels.
    #[inline]
    pub(crate) fn plus(self, other: Sums) -> Sums
        requires small { IsUpTo 1089 self }
        requires other_small { IsUpTo 1089 other }
        ensures { result ≡ plus self other }
    {
        Sums {
            alpha: self.alpha + other.alpha,
            red: self.red + other.red,
            green: self.green + other.green,
            blue: self.blue + other.blue,
        }
    }

    /// The sums without those of some of the pixels.
    #[inline]
    pub(crate) fn less(self, other: Sums) -> Sums
        requires { IsPartOf other self }
        ensures { result ≡ less self other }
    {
        Sums {
            alpha: self.alpha - other.alpha,
            red: self.red - other.red,
            green: self.green - other.green,
            blue: self.blue - other.blue,
        }
    }

    /// The mean of the `n` pixels summed, at most 33 x 33: their mean alpha, and the colours weighed
    /// by alpha.
    #[inline]
    pub(crate) fn mean(self, n: u32) -> Pixel
        requires some { 1 ≤ n }
        requires few { n ≤ 1089 }
        requires fits { IsUpTo n self }
        ensures { result ≡ mean_of n self }
    {
        let alpha = rounded(self.alpha, n);
        if alpha == 0 {
            return Pixel::CLEAR;
        }
        let r = rounded(self.red, self.alpha);
        let g = rounded(self.green, self.alpha);
        let b = rounded(self.blue, self.alpha);
        Pixel::new(r, g, b, alpha)
    }
}

/// `n / w` to the nearest whole number, a half upwards.
#[inline]
fn rounded(n: u32, w: u32) -> u8
    requires some { 1 ≤ w }
    requires small { w ≤ 277695 }
    requires byte { n ≤ 255 * w }
    ensures { result ≡ nearest n w }
{
    ((2 * n + w) / (2 * w)) as u8
}
