//! Laying one pixel on another.

ghost use Rattle.std.specs.Prelude.{◌≡◌, ◌≢◌, ℕ, ◌<◌, ◌≤◌, ◌*◌};
ghost use Rattle.pixel_core.specs.Compose.{compose as composed, on_paper as paper_colours, laid, weight, blend, channel};

use crate::bytes::{mul, rounded_255th};
use crate::pixel::Pixel;

/// How a source is laid on a destination.
///
/// `Over`, `Multiply` and `Screen` are the blend modes normal, multiply and screen of W3C's
/// Compositing and Blending Level 1 (section 10) with its simple alpha compositing (section 5.1).
#[derive(Clone, Copy, Debug, PartialEq, Eq)]
pub enum Op {
    /// The source covers the destination.
    Over,
    /// The source's alpha takes from the destination's: destination out in W3C's text.
    Erase,
    /// Where both cover, the product of the colours, each a fraction of 1.
    Multiply,
    /// Where both cover, the sum of the colours less their product.
    Screen,
    /// Where both cover, the sum of the colours, at most 1. W3C's text has no such mode.
    Addition,
}

/// `s` laid on `d` with a strength of `m` 255ths.
///
/// The source's alpha is `mul(s.a, m)`. The result's alpha is αs + αb x (1 - αs), and its colour
/// follows from co = Cs x αs + Cb x αb x (1 - αs) after blending, by W3C's Compositing and Blending
/// Level 1, sections 5.1 and 10. Each channel of the result is rounded once, to the nearest 255th.
#[inline]
pub fn compose(op: Op, s: Pixel, d: Pixel, m: u8) -> Pixel
    ensures { result ≡ composed op s d m }
{
    let sa = mul(s.alpha(), m);
    let [r, g, b, da] = d.bytes();
    if sa == 0 {
        return d;
    }
    match op {
        Op::Erase => {
            let alpha = mul(da, 255 - sa);
            Pixel::new(r, g, b, alpha)
        }
        _ => lay(op, s, d, sa),
    }
}

/// `s` laid on `d` with the alpha `sa` in place of its own, by an operation other than `Erase`.
#[inline]
fn lay(op: Op, s: Pixel, d: Pixel, sa: u8) -> Pixel
    requires { 0 < sa }
    ensures { result ≡ laid op s d sa }
{
    match d.alpha() {
        0 => {
            let [r, g, b, _] = s.bytes();
            Pixel::new(r, g, b, sa)
        }
        255 => lay_on_opaque(op, s, d, sa),
        _ => lay_on_any(op, s, d, sa),
    }
}

#[inline]
fn lay_on_opaque(op: Op, s: Pixel, d: Pixel, sa: u8) -> Pixel
    requires opaque { d.a ≡ 255 }
    ensures { result ≡ laid op s d sa }
{
    let [sr, sg, sb, _] = s.bytes();
    let [dr, dg, db, _] = d.bytes();
    let r = channel_on_opaque(op, sa, sr, dr);
    let g = channel_on_opaque(op, sa, sg, dg);
    let b = channel_on_opaque(op, sa, sb, db);
    Pixel::new(r, g, b, 255)
}

#[inline]
fn lay_on_any(op: Op, s: Pixel, d: Pixel, sa: u8) -> Pixel
    requires { 0 < sa }
    ensures { result ≡ laid op s d sa }
{
    let [sr, sg, sb, _] = s.bytes();
    let [dr, dg, db, da] = d.bytes();
    let w = weight_of(sa, da);
    let r = channel_of(op, sa, da, sr, dr);
    let g = channel_of(op, sa, da, sg, dg);
    let b = channel_of(op, sa, da, sb, db);
    let a = rounded_255th(w);
    Pixel::new(r, g, b, a)
}

/// 255 * 255 times the result's alpha as a fraction of 1.
#[inline]
fn weight_of(sa: u8, da: u8) -> u32
    ensures value { result ≡ weight sa da }
    ensures small { result ≤ 65025 }
{
    255 * (sa as u32 + da as u32) - sa as u32 * da as u32
}

/// What is laid where both cover, for one channel.
#[inline]
fn blend_of(op: Op, s: u8, d: u8) -> u8
    ensures { result ≡ blend op s d }
{
    match op {
        Op::Over => s,
        Op::Erase => d,
        Op::Multiply => mul(s, d),
        Op::Screen => (s as u16 + d as u16 - mul(s, d) as u16) as u8,
        Op::Addition => s.saturating_add(d),
    }
}

/// One channel of the result on an opaque destination, whose weight is 255 * 255.
#[inline]
fn channel_on_opaque(op: Op, sa: u8, s: u8, d: u8) -> u8
    ensures { result ≡ channel op sa 255 s d }
{
    let f = blend_of(op, s, d) as u32;
    let sa = sa as u32;
    rounded_255th((255 - sa) * d as u32 + sa * f)
}

/// One channel of the result.
#[inline]
fn channel_of(op: Op, sa: u8, da: u8, s: u8, d: u8) -> u8
    requires { 0 < weight sa da }
    ensures { result ≡ channel op sa da s d }
{
    let f = blend_of(op, s, d) as u32;
    let sa = sa as u32;
    let da = da as u32;
    let w = 255 * (sa + da) - sa * da;
    let n = (255 - sa) * da * d as u32 + (255 - da) * sa * s as u32 + sa * da * f;
    ((2 * n + w) / (2 * w)) as u8
}

/// The colours of `p` laid over an opaque paper: red, green and blue.
#[inline]
pub fn on_paper(p: Pixel, paper: Pixel) -> [u8; 3]
    requires opaque { paper.a ≡ 255 }
    ensures { result ≡ paper_colours p paper }
{
    let [r, g, b, _] = compose(Op::Over, p, paper, 255).bytes();
    [r, g, b]
}
