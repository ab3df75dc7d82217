//! Rows of pixels laid on others.

ghost use Rattle.std.specs.Prelude.{◌≡◌, ◌*◌, ◌+◌, ◌≤◌, ◌<◌, ℕ, length, slice_index_or, IfSome};
ghost use Rattle.pixel_core.specs.Rgba.{Rgba, clear};
ghost use Rattle.pixel_core.specs.Canonical.{IsCanonical};
ghost use Rattle.pixel_core.specs.Compose.{compose as composed};
ghost use Rattle.pixel_rows.specs.Rows.{LaysRow, LaysPart, Dims};

use crate::block::{BLOCK, alphas_of, dimmed, lay_block, lay_bounded, tell_canonical};
use crate::plain::plain_pixel;
use crate::rest::{FEW, dimmed_rest, lay_rest, masked_rest};
use pixel_core::{Op, Pixel, compose};

/// Lays each source on the pixel at its place, all with the same opacity in 255ths.
pub fn lay_sources(op: Op, sources: &[Pixel], opacity: u8, backdrop: &mut [Pixel])
    requires each { length sources.now ≡ length backdrop.old }
    ensures { LaysRow op (λ k. slice_index_or sources.now k clear) (λ _. opacity) backdrop.old
        backdrop.new }
{
    match plain_pixel(sources) {
        Some(source) => lay_colour(op, source, opacity, backdrop),
        None => lay_varied_sources(op, sources, opacity, backdrop),
    }
}

/// The same for sources that need not be one pixel.
fn lay_varied_sources(op: Op, sources: &[Pixel], opacity: u8, backdrop: &mut [Pixel])
    requires each { length sources.now ≡ length backdrop.old }
    ensures { LaysRow op (λ k. slice_index_or sources.now k clear) (λ _. opacity) backdrop.old
        backdrop.new }
{
    let whole = backdrop.len() / BLOCK;
    for i in 0..whole {
        let block = dimmed_block(sources, opacity, i);
        let at = BLOCK * i;
        lay_block(op, &block, &mut backdrop[at..at + BLOCK]);
    }
    lay_last_sources(op, sources, opacity, backdrop, BLOCK * whole);
}

/// The sources of the `i`th block.
#[inline]
fn dimmed_block(sources: &[Pixel], opacity: u8, i: usize) -> [Pixel; BLOCK]
    requires { BLOCK * i + BLOCK ≤ length sources.now }
    ensures { (k : ℕ) → k < BLOCK → Dims (slice_index_or result k clear)
        (slice_index_or sources.now (BLOCK * i + k) clear) opacity }
{
    let at = BLOCK * i;
    let mut block = [Pixel::CLEAR; BLOCK];
    block.copy_from_slice(&sources[at..at + BLOCK]);
    if opacity < 255 {
        dim(&mut block, opacity);
    }
    block
}

/// Dims each source.
#[inline]
fn dim(block: &mut [Pixel; BLOCK], opacity: u8)
    ensures { (k : ℕ) → k < BLOCK → Dims (slice_index_or block.new k clear)
        (slice_index_or block.old k clear) opacity }
{
    for k in 0..BLOCK {
        block[k] = dimmed(block[k], opacity);
    }
}

/// The same for the pixels from a place on, fewer than a block has.
fn lay_last_sources(op: Op, sources: &[Pixel], opacity: u8, backdrop: &mut [Pixel], start: usize)
    requires each { length sources.now ≡ length backdrop.old }
    requires within { start ≤ length backdrop.old }
    requires last { length backdrop.old ≤ start + BLOCK }
    ensures { LaysPart op (λ k. slice_index_or sources.now k clear) (λ _. opacity) start
        (length backdrop.old) backdrop.old backdrop.new }
{
    if backdrop.len() - start < FEW {
        lay_few_sources(op, sources, opacity, backdrop, start);
    } else {
        let block = dimmed_rest(&sources[start..], opacity);
        lay_rest(op, &block, &mut backdrop[start..]);
    }
}

/// The same one by one.
fn lay_few_sources(op: Op, sources: &[Pixel], opacity: u8, backdrop: &mut [Pixel], start: usize)
    requires each { length sources.now ≡ length backdrop.old }
    requires within { start ≤ length backdrop.old }
    ensures { LaysPart op (λ k. slice_index_or sources.now k clear) (λ _. opacity) start
        (length backdrop.old) backdrop.old backdrop.new }
{
    for i in start..backdrop.len() {
        backdrop[i] = compose(op, sources[i], backdrop[i], opacity);
    }
}

/// Lays one colour on each pixel, with a strength in 255ths.
pub fn lay_colour(op: Op, colour: Pixel, strength: u8, backdrop: &mut [Pixel])
    ensures { LaysRow op (λ _. colour) (λ _. strength) backdrop.old backdrop.new }
{
    match left_on(op, colour, strength, backdrop) {
        Some(left) => fill(left, backdrop),
        None => lay_on_varied(op, colour, strength, backdrop),
    }
}

/// What is left of each pixel of the backdrop, where that is one pixel: the colour hides or erases
/// all, or the backdrop is plain.
#[inline]
fn left_on(op: Op, colour: Pixel, strength: u8, backdrop: &[Pixel]) -> Option<Pixel>
    ensures { IfSome result (λ left. (k : ℕ) → k < length backdrop.now → composed op colour
        (slice_index_or backdrop.now k clear) strength ≡ left) }
{
    match left_everywhere(op, colour, strength) {
        Some(left) => {
            tell_canonical(backdrop);
            Some(left)
        }
        None => {
            let below = plain_pixel(backdrop)?;
            Some(compose(op, colour, below, strength))
        }
    }
}

/// Lays one colour on each pixel of a backdrop that need not be plain.
fn lay_on_varied(op: Op, colour: Pixel, strength: u8, backdrop: &mut [Pixel])
    ensures { LaysRow op (λ _. colour) (λ _. strength) backdrop.old backdrop.new }
{
    let whole = backdrop.len() / BLOCK;
    if whole > 0 {
        lay_colour_blocks(op, colour, strength, backdrop, whole);
    }
    lay_last_colour(op, colour, strength, backdrop, BLOCK * whole);
}

/// What is left of each pixel, where that is the same whatever lies there: an opaque colour at full
/// strength hides or erases all.
#[inline]
pub fn left_everywhere(op: Op, colour: Pixel, strength: u8) -> Option<Pixel>
    ensures { IfSome result (λ left. (d : Rgba) → IsCanonical d → composed op colour d strength
        ≡ left) }
{
    let [_, _, _, a] = colour.bytes();
    if a < 255 || strength < 255 {
        return None;
    }
    match op {
        Op::Over => Some(colour),
        Op::Erase => Some(Pixel::CLEAR),
        _ => None,
    }
}

/// Writes one pixel to each place.
#[inline]
fn fill(left: Pixel, backdrop: &mut [Pixel])
    ensures { (k : ℕ) → k < length backdrop.old → slice_index_or backdrop.new k clear ≡ left }
{
    for i in 0..backdrop.len() {
        backdrop[i] = left;
    }
}

/// Lays one colour on the pixels of the first blocks.
fn lay_colour_blocks(op: Op, colour: Pixel, strength: u8, backdrop: &mut [Pixel], whole: usize)
    requires { BLOCK * whole ≤ length backdrop.old }
    ensures { LaysPart op (λ _. colour) (λ _. strength) 0 (BLOCK * whole) backdrop.old
        backdrop.new }
{
    let block = dimmed_all(colour, strength);
    let below = alphas_of(backdrop);
    for i in 0..whole {
        let at = BLOCK * i;
        lay_bounded(op, &block, &mut backdrop[at..at + BLOCK], below);
    }
}

/// The same for the pixels from a place on, fewer than a block has.
fn lay_last_colour(op: Op, colour: Pixel, strength: u8, backdrop: &mut [Pixel], start: usize)
    requires within { start ≤ length backdrop.old }
    requires last { length backdrop.old ≤ start + BLOCK }
    ensures { LaysPart op (λ _. colour) (λ _. strength) start (length backdrop.old) backdrop.old
        backdrop.new }
{
    if backdrop.len() - start < FEW {
        lay_few_colour(op, colour, strength, backdrop, start);
    } else {
        let block = dimmed_all(colour, strength);
        lay_rest(op, &block, &mut backdrop[start..]);
    }
}

/// The same one by one.
fn lay_few_colour(op: Op, colour: Pixel, strength: u8, backdrop: &mut [Pixel], start: usize)
    requires { start ≤ length backdrop.old }
    ensures { LaysPart op (λ _. colour) (λ _. strength) start (length backdrop.old) backdrop.old
        backdrop.new }
{
    for i in start..backdrop.len() {
        backdrop[i] = compose(op, colour, backdrop[i], strength);
    }
}

/// A block of the colour with that strength.
#[inline]
fn dimmed_all(colour: Pixel, strength: u8) -> [Pixel; BLOCK]
    ensures { (k : ℕ) → k < BLOCK → Dims (slice_index_or result k clear) colour strength }
{
    [dimmed(colour, strength); BLOCK]
}

/// Lays one colour on each pixel, with the mask's strength of its place in 255ths.
pub fn lay_masked(op: Op, colour: Pixel, mask: &[u8], backdrop: &mut [Pixel])
    requires each { length mask.now ≡ length backdrop.old }
    ensures { LaysRow op (λ _. colour) (λ k. slice_index_or mask.now k 0) backdrop.old
        backdrop.new }
{
    let whole = backdrop.len() / BLOCK;
    let below = alphas_of(backdrop);
    for i in 0..whole {
        let block = masked_block(colour, mask, i);
        let at = BLOCK * i;
        lay_bounded(op, &block, &mut backdrop[at..at + BLOCK], below);
    }
    lay_last_masked(op, colour, mask, backdrop, BLOCK * whole);
}

/// The colour with the strengths of the `i`th block.
#[inline]
fn masked_block(colour: Pixel, mask: &[u8], i: usize) -> [Pixel; BLOCK]
    requires { BLOCK * i + BLOCK ≤ length mask.now }
    ensures { (k : ℕ) → k < BLOCK → Dims (slice_index_or result k clear) colour
        (slice_index_or mask.now (BLOCK * i + k) 0) }
{
    let mut block = [Pixel::CLEAR; BLOCK];
    for k in 0..BLOCK {
        block[k] = dimmed(colour, mask[BLOCK * i + k]);
    }
    block
}

/// The same for the pixels from a place on, fewer than a block has.
fn lay_last_masked(op: Op, colour: Pixel, mask: &[u8], backdrop: &mut [Pixel], start: usize)
    requires each { length mask.now ≡ length backdrop.old }
    requires within { start ≤ length backdrop.old }
    requires last { length backdrop.old ≤ start + BLOCK }
    ensures { LaysPart op (λ _. colour) (λ k. slice_index_or mask.now k 0) start
        (length backdrop.old) backdrop.old backdrop.new }
{
    if backdrop.len() - start < FEW {
        lay_few_masked(op, colour, mask, backdrop, start);
    } else {
        let block = masked_rest(colour, &mask[start..]);
        lay_rest(op, &block, &mut backdrop[start..]);
    }
}

/// The same one by one.
fn lay_few_masked(op: Op, colour: Pixel, mask: &[u8], backdrop: &mut [Pixel], start: usize)
    requires each { length mask.now ≡ length backdrop.old }
    requires within { start ≤ length backdrop.old }
    ensures { LaysPart op (λ _. colour) (λ k. slice_index_or mask.now k 0) start
        (length backdrop.old) backdrop.old backdrop.new }
{
    for i in start..backdrop.len() {
        backdrop[i] = compose(op, colour, backdrop[i], mask[i]);
    }
}
