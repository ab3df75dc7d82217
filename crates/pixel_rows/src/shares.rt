//! One pixel laid on another by an operation that blends their colours where both cover.

ghost use Rattle.std.specs.Prelude.{◌≡◌, ◌≢◌, ◌+◌, ◌*◌, ◌<◌, ◌≤◌, ◌-◌};
ghost use Rattle.pixel_core.specs.declared.blending.Op.{Op};
ghost use Rattle.pixel_core.specs.declared.blending.Op.TheVariants.{Erase};
ghost use Rattle.pixel_core.specs.Compose.{blend, compose as composed, weight, nearest};

use crate::mixing::nearest_255th;
use crate::quotient::mean_of_three;
use pixel_core::Pixel;

/// `s` laid on `d` at full strength by an operation of which these are the colours where both cover.
#[inline(always)]
pub(crate) fn blended(s: Pixel, d: Pixel, r: u8, g: u8, b: u8) -> Pixel
    ensures { (op : Op) → op ≢ Erase → r ≡ blend op s.r d.r → g ≡ blend op s.g d.g → b
        ≡ blend op s.b d.b → result ≡ composed op s d 255 }
{
    let [sr, sg, sb, sa] = s.bytes();
    let [dr, dg, db, da] = d.bytes();
    let shares = Shares::new(sa, da);
    let r = shares.mixed(sr, dr, r);
    let g = shares.mixed(sg, dg, g);
    let b = shares.mixed(sb, db, b);
    let a = nearest_255th(shares.cover);
    Pixel::new(r, g, b, a)
}

/// The parts of the source's colour alone, of the backdrop's alone and of what both make together.
#[derive(Clone, Copy)]
struct Shares {
    source: u32,
    backdrop: u32,
    both: u32,
    /// Their sum.
    cover: u32,
    /// The sum, or 255 where that is 0.
    sum: u32,
    ghost all: { cover ≡ source + backdrop + both },
    ghost small: { source + backdrop + both ≤ 65025 },
    ghost whole: { 0 < source + backdrop + both → sum ≡ source + backdrop + both },
    ghost least: { 255 ≤ sum },
    ghost within: { source + backdrop + both ≤ sum },
    ghost most: { sum ≤ 65025 },
}

impl Shares {
    /// The parts of a source and a backdrop with these alphas.
    #[inline]
    fn new(sa: u8, da: u8) -> Shares
        ensures source { result.source ≡ (255 - da) * sa }
        ensures backdrop { result.backdrop ≡ (255 - sa) * da }
        ensures both { result.both ≡ sa * da }
        ensures cover { result.cover ≡ weight sa da }
    {
        let (sa, da) = (sa as u32, da as u32);
        let both = sa * da;
        let cover = 65025 - (255 - sa) * (255 - da);
        let sum = cover.max(255);
        Shares {
            source: (255 - da) * sa,
            backdrop: (255 - sa) * da,
            both,
            cover,
            sum,
        }
    }

    /// The mean of three colours by these weights, to the nearest whole number.
    #[inline(always)]
    fn mixed(self, s: u8, d: u8, f: u8) -> u8
        ensures { 0 < self.source + self.backdrop + self.both → result
            ≡ nearest (self.backdrop * d + self.source * s + self.both * f)
            (self.source + self.backdrop + self.both) }
    {
        mean_of_three(self.source, s, self.backdrop, d, self.both, f, self.sum)
    }
}
