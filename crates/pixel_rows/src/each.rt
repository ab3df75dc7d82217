//! Rows with a source and a strength for each place.

ghost use Rattle.std.specs.Prelude.{◌≡◌, ◌*◌, ◌+◌, ◌≤◌, ◌<◌, ℕ, length, slice_index_or};
ghost use Rattle.pixel_core.specs.Rgba.{clear};
ghost use Rattle.pixel_rows.specs.Rows.{LaysRow, LaysPart, Dims};

use crate::block::{BLOCK, dimmed, lay_block};
use crate::rest::{FEW, lay_rest};
use pixel_core::{Op, Pixel, compose};

/// Composes each pixel of a row with the source of its place, at the strength of its place in 255ths. What it gives is
/// what `compose` gives for each place by itself.
pub fn compose_row(op: Op, src: &[Pixel], dst: &mut [Pixel], strength: &[u8])
    requires sources { length src.now ≡ length dst.old }
    requires strengths { length strength.now ≡ length dst.old }
    ensures { LaysRow op (λ k. slice_index_or src.now k clear) (λ k. slice_index_or strength.now k
        0) dst.old dst.new }
{
    let whole = dst.len() / BLOCK;
    for i in 0..whole {
        let block = dimmed_each(src, strength, i);
        let at = BLOCK * i;
        lay_block(op, &block, &mut dst[at..at + BLOCK]);
    }
    compose_last(op, src, dst, strength, BLOCK * whole);
}

/// The sources of the `i`th block with their strengths.
#[inline]
fn dimmed_each(src: &[Pixel], strength: &[u8], i: usize) -> [Pixel; BLOCK]
    requires sources { BLOCK * i + BLOCK ≤ length src.now }
    requires strengths { BLOCK * i + BLOCK ≤ length strength.now }
    ensures { (k : ℕ) → k < BLOCK → Dims (slice_index_or result k clear)
        (slice_index_or src.now (BLOCK * i + k) clear) (slice_index_or strength.now (BLOCK * i + k)
        0) }
{
    let mut block = [Pixel::CLEAR; BLOCK];
    for k in 0..BLOCK {
        block[k] = dimmed(src[BLOCK * i + k], strength[BLOCK * i + k]);
    }
    block
}

/// The same for the pixels from a place on, fewer than a block has.
fn compose_last(op: Op, src: &[Pixel], dst: &mut [Pixel], strength: &[u8], start: usize)
    requires sources { length src.now ≡ length dst.old }
    requires strengths { length strength.now ≡ length dst.old }
    requires within { start ≤ length dst.old }
    requires last { length dst.old ≤ start + BLOCK }
    ensures { LaysPart op (λ k. slice_index_or src.now k clear) (λ k. slice_index_or strength.now k
        0) start (length dst.old) dst.old dst.new }
{
    if dst.len() - start < FEW {
        compose_few(op, src, dst, strength, start);
    } else {
        let block = dimmed_last(&src[start..], &strength[start..]);
        lay_rest(op, &block, &mut dst[start..]);
    }
}

/// The same one by one.
fn compose_few(op: Op, src: &[Pixel], dst: &mut [Pixel], strength: &[u8], start: usize)
    requires sources { length src.now ≡ length dst.old }
    requires strengths { length strength.now ≡ length dst.old }
    requires within { start ≤ length dst.old }
    ensures { LaysPart op (λ k. slice_index_or src.now k clear) (λ k. slice_index_or strength.now k
        0) start (length dst.old) dst.old dst.new }
{
    for i in start..dst.len() {
        dst[i] = compose(op, src[i], dst[i], strength[i]);
    }
}

/// The sources with their strengths, and then the first of them again and again.
fn dimmed_last(src: &[Pixel], strength: &[u8]) -> [Pixel; BLOCK]
    requires some { 0 < length src.now }
    requires most { length src.now ≤ BLOCK }
    requires strengths { length strength.now ≡ length src.now }
    ensures { (k : ℕ) → k < length src.now → Dims (slice_index_or result k clear)
        (slice_index_or src.now k clear) (slice_index_or strength.now k 0) }
{
    let mut block = [dimmed(src[0], strength[0]); BLOCK];
    for k in 0..src.len() {
        block[k] = dimmed(src[k], strength[k]);
    }
    block
}
