//! The operations, each as laying one pixel on another by few steps.

ghost use Rattle.std.specs.Prelude.{◌≡◌};
ghost use Rattle.pixel_core.specs.declared.blending.Op.{Op};
ghost use Rattle.pixel_core.specs.declared.blending.Op.TheVariants.{Over, Erase, Multiply, Screen, Addition};
ghost use Rattle.pixel_core.specs.Compose.{blend, compose as composed};

use crate::mixing::over;
use crate::shares::blended;
use pixel_core::{Pixel, mul};

/// An operation.
pub(crate) trait Mix {
    ghost operation: { Op };

    /// `s` laid on `d` at full strength.
    fn mix(s: Pixel, d: Pixel) -> Pixel
        ensures { result ≡ composed operation s d 255 };
}

/// `Op::Over`.
pub(crate) struct Covering;

/// `Op::Erase`.
pub(crate) struct Erasing;

/// `Op::Multiply`.
pub(crate) struct Multiplying;

/// `Op::Screen`.
pub(crate) struct Screening;

/// `Op::Addition`.
pub(crate) struct Adding;

impl Mix for Covering {
    ghost operation = { Over };

    #[inline]
    fn mix(s: Pixel, d: Pixel) -> Pixel {
        over(s, d)
    }
}

impl Mix for Erasing {
    ghost operation = { Erase };

    #[inline]
    fn mix(s: Pixel, d: Pixel) -> Pixel {
        let [_, _, _, sa] = s.bytes();
        let [r, g, b, da] = d.bytes();
        Pixel::new(r, g, b, mul(da, 255 - sa))
    }
}

impl Mix for Multiplying {
    ghost operation = { Multiply };

    #[inline]
    fn mix(s: Pixel, d: Pixel) -> Pixel {
        let [sr, sg, sb, _] = s.bytes();
        let [dr, dg, db, _] = d.bytes();
        blended(s, d, mul(sr, dr), mul(sg, dg), mul(sb, db))
    }
}

impl Mix for Screening {
    ghost operation = { Screen };

    #[inline]
    fn mix(s: Pixel, d: Pixel) -> Pixel {
        let [sr, sg, sb, _] = s.bytes();
        let [dr, dg, db, _] = d.bytes();
        blended(s, d, screened(sr, dr), screened(sg, dg), screened(sb, db))
    }
}

impl Mix for Adding {
    ghost operation = { Addition };

    #[inline]
    fn mix(s: Pixel, d: Pixel) -> Pixel {
        let [sr, sg, sb, _] = s.bytes();
        let [dr, dg, db, _] = d.bytes();
        blended(s, d, added(sr, dr), added(sg, dg), added(sb, db))
    }
}

/// The sum of two colours less their product.
#[inline]
fn screened(s: u8, d: u8) -> u8
    ensures { result ≡ blend Screen s d }
{
    (s as u32 + d as u32 - mul(s, d) as u32) as u8
}

/// The sum of two colours, at most 255.
#[inline]
fn added(s: u8, d: u8) -> u8
    ensures { result ≡ blend Addition s d }
{
    (s as u32 + d as u32).min(255) as u8
}
