//! One pixel laid over another.

ghost use Rattle.std.specs.Prelude.{◌≡◌, ◌+◌, ◌*◌, ◌<◌, ◌≤◌, ◌-◌};
ghost use Rattle.pixel_core.specs.declared.blending.Op.TheVariants.{Over};
ghost use Rattle.pixel_core.specs.Compose.{compose as composed, nearest};

use crate::quotient::mean;
use pixel_core::Pixel;

/// `s` laid over `d` at full strength.
#[inline]
pub(crate) fn over(s: Pixel, d: Pixel) -> Pixel
    ensures { result ≡ composed Over s d 255 }
{
    let [sr, sg, sb, sa] = s.bytes();
    let [dr, dg, db, da] = d.bytes();
    let parts = Parts::new(sa, da);
    let r = parts.mixed(sr, dr);
    let g = parts.mixed(sg, dg);
    let b = parts.mixed(sb, db);
    let a = nearest_255th(parts.cover);
    Pixel::new(r, g, b, a)
}

/// `s` laid over an opaque `d` at full strength.
#[inline]
pub(crate) fn over_opaque(s: Pixel, d: Pixel) -> Pixel
    requires { d.a ≡ 255 }
    ensures { result ≡ composed Over s d 255 }
{
    let [sr, sg, sb, sa] = s.bytes();
    let [dr, dg, db, _] = d.bytes();
    let r = mixed_whole(sa, sr, dr);
    let g = mixed_whole(sa, sg, dg);
    let b = mixed_whole(sa, sb, db);
    Pixel::new(r, g, b, 255)
}

/// The mean of two colours where the source has this many of 255 parts, to the nearest whole number.
#[inline]
fn mixed_whole(sa: u8, s: u8, d: u8) -> u8
    ensures { result ≡ nearest (sa * s + (255 - sa) * d) 255 }
{
    let sa = sa as u32;
    nearest_255th(sa * s as u32 + (255 - sa) * d as u32)
}

/// The parts that a source's and a backdrop's colours have in the result's, as weights.
#[derive(Clone, Copy)]
struct Parts {
    source: u32,
    backdrop: u32,
    /// Their sum.
    cover: u32,
    /// The sum, or 255 where that is 0.
    sum: u32,
    ghost both: { cover ≡ source + backdrop },
    ghost small: { source + backdrop ≤ 65025 },
    ghost whole: { 0 < source + backdrop → sum ≡ source + backdrop },
    ghost least: { 255 ≤ sum },
    ghost within: { source + backdrop ≤ sum },
    ghost most: { sum ≤ 65025 },
}

impl Parts {
    /// The parts of a source and a backdrop with these alphas.
    #[inline]
    fn new(sa: u8, da: u8) -> Parts
        ensures source { result.source ≡ 255 * sa }
        ensures backdrop { result.backdrop ≡ (255 - sa) * da }
        ensures cover { result.cover ≡ 255 * sa + (255 - sa) * da }
    {
        let source = 255 * sa as u32;
        let cover = 65025 - (255 - sa as u32) * (255 - da as u32);
        let sum = cover.max(255);
        Parts {
            source,
            backdrop: cover - source,
            cover,
            sum,
        }
    }

    /// The mean of two colours by these weights, to the nearest whole number.
    #[inline]
    fn mixed(self, s: u8, d: u8) -> u8
        ensures { 0 < self.source + self.backdrop → result
            ≡ nearest (self.source * s + self.backdrop * d) (self.source + self.backdrop) }
    {
        mean(self.source, s, self.backdrop, d, self.sum)
    }
}

/// `n / 255` to the nearest whole number, by shifts in place of a division.
#[inline]
pub(crate) fn nearest_255th(n: u32) -> u8
    requires { n ≤ 65025 }
    ensures { result ≡ nearest n 255 }
{
    let t = n + 128;
    (((t >> 8) + t) >> 8) as u8
}
