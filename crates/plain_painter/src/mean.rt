//! Means of pixels.

ghost use Rattle.std.specs.Prelude.{◌≡◌, ◌≤◌, ◌+◌, ◌*◌, [], ◌∷◌, ◌++◌, List, ℕ, length};
ghost use Rattle.pixel_core.specs.Compose.{nearest};
ghost use Rattle.pixel_core.specs.Rgba.{Rgba};
ghost use Rattle.doc_model.specs.Jobs.{mean};
ghost use Rattle.plain_painter.specs.Means.{sums_of, IsUpTo};

use pixel_core::Pixel;

/// The sums over some pixels: of their alphas, and of each colour times its alpha.
#[derive(Clone, Copy, Debug)]
pub(crate) struct Sums {
    pub alpha: u32,
    pub red: u32,
    pub green: u32,
    pub blue: u32,
}

/// The mean of at most 33 x 33 pixels: their mean alpha, and the colours weighed by alpha.
pub(crate) fn mean_of(pixels: &[Pixel]) -> Pixel
    requires some { 1 ≤ length pixels.now }
    requires few { length pixels.now ≤ 1089 }
    ensures { result ≡ mean (length pixels.now) pixels.now }
{
    let sums = sums_over(pixels);
    let alpha = rounded(sums.alpha, pixels.len() as u32);
    if alpha == 0 {
        return Pixel::CLEAR;
    }
    let r = rounded(sums.red, sums.alpha);
    let g = rounded(sums.green, sums.alpha);
    let b = rounded(sums.blue, sums.alpha);
    Pixel::new(r, g, b, alpha)
}

/// The sums over at most 33 x 33 pixels.
fn sums_over(pixels: &[Pixel]) -> Sums
    requires { length pixels.now ≤ 1089 }
    ensures value { result ≡ sums_of pixels.now }
    ensures small { IsUpTo (length pixels.now) result }
{
    let mut sums = Sums {
        alpha: 0,
        red: 0,
        green: 0,
        blue: 0,
    };
    for pixel in pixels {
        sums = with_pixel(sums, *pixel);
    }
    sums
}

/// The sums with those of one more pixel.
fn with_pixel(sums: Sums, pixel: Pixel) -> Sums
    requires { IsUpTo 1089 sums }
    ensures value { (before : List Rgba) → sums ≡ sums_of before → result
        ≡ sums_of (before ++ pixel ∷ []) }
    ensures small { (n : ℕ) → IsUpTo n sums → IsUpTo (n + 1) result }
{
    let [r, g, b, a] = pixel.bytes();
    let alpha = a as u32;
    Sums {
        alpha: sums.alpha + alpha,
        red: sums.red + alpha * r as u32,
        green: sums.green + alpha * g as u32,
        blue: sums.blue + alpha * b as u32,
    }
}

/// `n / w` to the nearest whole number, a half upwards.
fn rounded(n: u32, w: u32) -> u8
    requires some { 1 ≤ w }
    requires small { w ≤ 277695 }
    requires byte { n ≤ 255 * w }
    ensures { result ≡ nearest n w }
{
    ((2 * n + w) / (2 * w)) as u8
}
