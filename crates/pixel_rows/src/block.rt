//! Blocks of pixels laid on others, at full strength.

ghost use Rattle.std.specs.Prelude.{◌≡◌, ◌<◌, ◌+◌, ◌-◌, ◌*◌, ℕ, length, slice_index_or};
ghost use Rattle.pixel_core.specs.Rgba.{clear};
ghost use Rattle.pixel_core.specs.Canonical.{IsCanonical};
ghost use Rattle.pixel_core.specs.declared.blending.Op.TheVariants.{Over};
ghost use Rattle.pixel_core.specs.Compose.{compose as composed};
ghost use Rattle.pixel_rows.specs.Rows.{AllCoverWithin, Dims, LaysRow};

use crate::blends::{Adding, Covering, Erasing, Mix, Multiplying, Screening};
use crate::mixing::over_opaque;
use pixel_core::{Op, Pixel, mul};

/// How many pixels a block has.
pub(crate) const BLOCK: usize = 16;

/// What has the same effect at full strength as `s` with this strength in 255ths.
#[inline]
pub(crate) fn dimmed(s: Pixel, strength: u8) -> Pixel
    ensures { Dims result s strength }
{
    let [r, g, b, a] = s.bytes();
    Pixel::new(r, g, b, mul(a, strength))
}

/// Lays each source at full strength on the pixel at its place, with as little work as the alphas allow.
#[inline]
pub(crate) fn lay_block(op: Op, sources: &[Pixel], row: &mut [Pixel])
    requires sources { length sources.now ≡ BLOCK }
    requires row { length row.old ≡ BLOCK }
    ensures { LaysRow op (λ k. slice_index_or sources.now k clear) (λ _. 255) row.old row.new }
{
    let above = alphas_of_block(sources);
    tell_canonical(row);
    match op {
        _ if above.most == 0 => {}
        Op::Over if above.least == 255 => row.copy_from_slice(sources),
        _ => lay_bounded(op, sources, row, alphas_of_block(row)),
    }
}

/// Lays each source at full strength on the pixel at its place, with as little work as these bounds of the
/// row's alphas allow.
#[inline]
pub(crate) fn lay_bounded(op: Op, sources: &[Pixel], row: &mut [Pixel], below: Alphas)
    requires sources { length sources.now ≡ BLOCK }
    requires row { length row.old ≡ BLOCK }
    requires below { AllCoverWithin below.least below.most row.old }
    ensures { LaysRow op (λ k. slice_index_or sources.now k clear) (λ _. 255) row.old row.new }
{
    tell_canonical(sources);
    match op {
        Op::Erase => lay_mixed::<Erasing>(op, sources, row),
        _ if below.most == 0 => row.copy_from_slice(sources),
        Op::Over if below.least == 255 => lay_on_opaque(sources, row),
        Op::Over => lay_mixed::<Covering>(op, sources, row),
        Op::Multiply => lay_mixed::<Multiplying>(op, sources, row),
        Op::Screen => lay_mixed::<Screening>(op, sources, row),
        Op::Addition => lay_mixed::<Adding>(op, sources, row),
    }
}

/// Tells that each pixel is canonical. It looks at them for that alone.
#[inline]
pub fn tell_canonical(pixels: &[Pixel])
    ensures { (k : ℕ) → k < length pixels.now → IsCanonical (slice_index_or pixels.now k clear) }
{
    for i in 0..pixels.len() {
        let _known = pixels[i].bytes();
    }
}

/// Bounds of the alphas of some pixels.
#[derive(Clone, Copy)]
pub(crate) struct Alphas {
    least: u8,
    most: u8,
}

/// Bounds of these pixels' alphas: the bits that all of them have, and those that any has. So the lower one
/// is 255 exactly where all pixels are opaque, and the upper one 0 where all are clear. Both are gathered in
/// one number, so that the compiler takes several pixels at once.
#[inline]
#[tactic(auto, using(crate::proofs::Gathering::low_byte, crate::proofs::Gathering::high_byte, std::proofs::lemmas::Nat::le_or_l, std::proofs::lemmas::Nat::le_or_r))]
pub(crate) fn alphas_of(pixels: &[Pixel]) -> Alphas
    ensures { AllCoverWithin result.least result.most pixels.now }
{
    let mut any = 0;
    for i in 0..pixels.len() {
        let [_, _, _, a] = pixels[i].bytes();
        any |= with_complement(a);
    }
    let [lacked, had, _, _] = any.to_le_bytes();
    Alphas {
        least: 255 - lacked,
        most: had,
    }
}

/// Bounds of a block's alphas. The compiler is told how many there are, so that it makes no loop of them.
#[inline]
fn alphas_of_block(block: &[Pixel]) -> Alphas
    requires { length block.now ≡ BLOCK }
    ensures { AllCoverWithin result.least result.most block.now }
{
    alphas_of(&block[..BLOCK])
}

/// The bits of an alpha, and below them those that it lacks.
#[inline]
fn with_complement(a: u8) -> u32
    ensures { result ≡ 256 * a + (255 - a) }
{
    ((a as u32) << 8) + (255 - a as u32)
}

/// Lays each source over the opaque pixel at its place.
#[inline]
fn lay_on_opaque(sources: &[Pixel], row: &mut [Pixel])
    requires sources { length sources.now ≡ BLOCK }
    requires row { length row.old ≡ BLOCK }
    requires opaque { AllCoverWithin 255 255 row.old }
    ensures { LaysRow Over (λ k. slice_index_or sources.now k clear) (λ _. 255) row.old row.new }
{
    let laid = opaque_block(sources, row);
    row.copy_from_slice(&laid);
}

/// The sources laid over opaque pixels.
#[inline]
fn opaque_block(sources: &[Pixel], row: &[Pixel]) -> [Pixel; BLOCK]
    requires sources { length sources.now ≡ BLOCK }
    requires row { length row.now ≡ BLOCK }
    requires opaque { AllCoverWithin 255 255 row.now }
    ensures { (k : ℕ) → k < BLOCK → slice_index_or result k clear
        ≡ composed Over (slice_index_or sources.now k clear) (slice_index_or row.now k clear) 255 }
{
    let mut laid = [Pixel::CLEAR; BLOCK];
    for i in 0..BLOCK {
        laid[i] = over_opaque(sources[i], row[i]);
    }
    laid
}

/// Lays each source on the pixel at its place.
#[inline]
fn lay_mixed<M: Mix>(op: Op, sources: &[Pixel], row: &mut [Pixel])
    requires operation { op ≡ M.operation }
    requires sources { length sources.now ≡ BLOCK }
    requires row { length row.old ≡ BLOCK }
    ensures { LaysRow op (λ k. slice_index_or sources.now k clear) (λ _. 255) row.old row.new }
{
    let laid = mixed_block::<M>(sources, row);
    row.copy_from_slice(&laid);
}

/// The sources laid on the pixels of a row.
#[inline]
fn mixed_block<M: Mix>(sources: &[Pixel], row: &[Pixel]) -> [Pixel; BLOCK]
    requires sources { length sources.now ≡ BLOCK }
    requires row { length row.now ≡ BLOCK }
    ensures { (k : ℕ) → k < BLOCK → slice_index_or result k clear ≡ composed M.operation
        (slice_index_or sources.now k clear) (slice_index_or row.now k clear) 255 }
{
    let mut laid = [Pixel::CLEAR; BLOCK];
    for i in 0..BLOCK {
        laid[i] = M::mix(sources[i], row[i]);
    }
    laid
}
