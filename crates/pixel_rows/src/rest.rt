//! What is left of a row after its whole blocks, as one more block.

ghost use Rattle.std.specs.Prelude.{◌≡◌, ◌≤◌, ◌<◌, ℕ, length, slice_index_or};
ghost use Rattle.pixel_core.specs.Rgba.{clear};
ghost use Rattle.pixel_rows.specs.Rows.{LaysRow, Dims};

use crate::block::{BLOCK, dimmed, lay_block};
use pixel_core::{Op, Pixel};

/// Fewer pixels than these are laid sooner one by one than as a block.
pub(crate) const FEW: usize = 5;

/// Lays the first sources at full strength on a row that is at most as long as a block. The row is
/// made as long as one by its own first pixel, so that a clear or opaque row stays one.
pub(crate) fn lay_rest(op: Op, sources: &[Pixel; BLOCK], row: &mut [Pixel])
    requires some { 0 < length row.old }
    requires most { length row.old ≤ BLOCK }
    ensures { LaysRow op (λ k. slice_index_or sources.now k clear) (λ _. 255) row.old row.new }
{
    let count = row.len();
    let mut padded = [row[0]; BLOCK];
    padded[..count].copy_from_slice(row);
    lay_block(op, sources, &mut padded);
    row.copy_from_slice(&padded[..count]);
}

/// The sources dimmed, and then the first of them again and again.
pub(crate) fn dimmed_rest(sources: &[Pixel], opacity: u8) -> [Pixel; BLOCK]
    requires some { 0 < length sources.now }
    requires most { length sources.now ≤ BLOCK }
    ensures { (k : ℕ) → k < length sources.now → Dims (slice_index_or result k clear)
        (slice_index_or sources.now k clear) opacity }
{
    let mut block = [dimmed(sources[0], opacity); BLOCK];
    for k in 0..sources.len() {
        block[k] = dimmed(sources[k], opacity);
    }
    block
}

/// The colour with each of these strengths, and then with the first of them again and again.
pub(crate) fn masked_rest(colour: Pixel, mask: &[u8]) -> [Pixel; BLOCK]
    requires some { 0 < length mask.now }
    requires most { length mask.now ≤ BLOCK }
    ensures { (k : ℕ) → k < length mask.now → Dims (slice_index_or result k clear) colour
        (slice_index_or mask.now k 0) }
{
    let mut block = [dimmed(colour, mask[0]); BLOCK];
    for k in 0..mask.len() {
        block[k] = dimmed(colour, mask[k]);
    }
    block
}
