//! Rows of pixels in parts of tiles.

ghost use Rattle.std.specs.Prelude.{◌^◌, IfOk, vec_len, ◌≡◌, ◌+◌, ◌*◌, ◌<◌, ◌≤◌, ◌↔◌, IsTrue, length, take, drop, ◌++◌, replicate, slice_index_or};
ghost use Rattle.tile_core.specs.Parts.{LaysPart, TakesPart, LaysTile};
ghost use Rattle.tile_core.specs.Same.{PartIs, RowIs};
ghost use Rattle.pixel_core.specs.Rgba.{clear};

use geom_core::{TILE_POINTS, TILE_SIDE};
use pixel_core::Pixel;
use pixel_rows::all_are;
use std::alloc::{AllocError, Global};

/// A part of rows of pixels: `w` columns from the column `left` on, in `h` rows from the row `top` on.
#[derive(Clone, Copy, Debug)]
pub struct Part {
    pub left: usize,
    pub top: usize,
    pub w: usize,
    pub h: usize,
}

/// Writes a row over the places from `at` on.
pub fn put_row<T: Copy>(items: &mut [T], at: usize, row: &[T])
    requires { at + length row.now ≤ length items.old }
    ensures { items.new ≡ take at items.old ++ row.now ++ drop (at + length row.now) items.old }
{
    let n = row.len();
    items[at..at + n].copy_from_slice(row);
}

/// Lays the rows of a part over the tile.
pub fn lay_part(tile: &mut [Pixel], part: Part, src: &[Pixel])
    requires whole { length tile.old ≡ 4096 }
    requires across { part.left + part.w ≤ 64 }
    requires down { part.top + part.h ≤ 64 }
    requires pixels { length src.now ≡ part.h * part.w }
    ensures { LaysPart tile.old tile.new part.left part.top part.w part.h src.now }
{
    let mut from = 0;
    let mut to = TILE_SIDE * part.top + part.left;
    for _row in 0..part.h {
        put_row(tile, to, &src[from..from + part.w]);
        from += part.w;
        to += TILE_SIDE;
    }
}

/// The tile with these rows on the part. One copy where the part is the whole tile.
pub fn with_part(
    alloc: Global,
    tile: &[Pixel],
    part: Part,
    src: &[Pixel],
) -> Result<Vec<Pixel>, AllocError>
    requires whole { length tile.now ≡ 4096 }
    requires across { part.left + part.w ≤ 64 }
    requires down { part.top + part.h ≤ 64 }
    requires pixels { length src.now ≡ part.h * part.w }
    ensures whole { IfOk result (λ v. vec_len v ≡ 4096) }
    ensures laid { IfOk result
        (λ v. LaysPart tile.now v.items part.left part.top part.w part.h src.now) }
{
    if part.w == TILE_SIDE && part.h == TILE_SIDE {
        return Vec::from_slice(alloc, src);
    }
    let mut pixels = Vec::from_slice(alloc, tile)?;
    lay_part(&mut pixels, part, src);
    Ok(pixels)
}

/// The pixels of the part, in row order.
pub fn part_of(alloc: Global, tile: &[Pixel], part: Part) -> Result<Vec<Pixel>, AllocError>
    requires whole { length tile.now ≡ 4096 }
    requires across { part.left + part.w ≤ 64 }
    requires down { part.top + part.h ≤ 64 }
    ensures all { IfOk result (λ v. vec_len v ≡ part.h * part.w) }
    ensures taken { IfOk result (λ v. TakesPart tile.now part.left part.top part.w part.h v.items) }
{
    let mut pixels = Vec::with_capacity(alloc, part.h * part.w)?;
    let mut from = TILE_SIDE * part.top + part.left;
    for _row in 0..part.h {
        pixels.extend_from_slice(&tile[from..from + part.w])?;
        from += TILE_SIDE;
    }
    Ok(pixels)
}

/// Whether both tiles have the same pixels on the part.
pub fn same_part(tile: &[Pixel], other: &[Pixel], part: Part) -> bool
    requires whole { length tile.now ≡ 4096 }
    requires other { length other.now ≡ 4096 }
    requires across { part.left + part.w ≤ 64 }
    requires down { part.top + part.h ≤ 64 }
    ensures { IsTrue result
        ↔ PartIs tile.now (λ k. slice_index_or other.now k clear) part.left part.top part.w part.h }
{
    let mut from = TILE_SIDE * part.top + part.left;
    for _row in 0..part.h {
        if !same_row(tile, other, from, part.w) {
            return false;
        }
        from += TILE_SIDE;
    }
    true
}

/// Whether both tiles have the same `n` pixels from a place on. It goes through all of them, with no branch.
fn same_row(tile: &[Pixel], other: &[Pixel], from: usize, n: usize) -> bool
    requires whole { length tile.now ≡ 4096 }
    requires other { length other.now ≡ 4096 }
    requires inside { from + n ≤ 4096 }
    ensures { IsTrue result ↔ RowIs tile.now (λ k. slice_index_or other.now k clear) from n }
{
    let row = &tile[from..from + n];
    let others = &other[from..from + n];
    let mut all = true;
    for i in 0..n {
        all = all & (row[i] == others[i]);
    }
    all
}

/// Whether every pixel of the part is `p`.
pub fn is_plain_part(tile: &[Pixel], part: Part, p: Pixel) -> bool
    requires whole { length tile.now ≡ 4096 }
    requires across { part.left + part.w ≤ 64 }
    requires down { part.top + part.h ≤ 64 }
    ensures { IsTrue result ↔ PartIs tile.now (λ _. p) part.left part.top part.w part.h }
{
    let mut from = TILE_SIDE * part.top + part.left;
    for _row in 0..part.h {
        if !is_plain_row(tile, from, part.w, p) {
            return false;
        }
        from += TILE_SIDE;
    }
    true
}

/// Whether the `n` pixels from a place on are all `p`. It goes through all of them, with no branch.
fn is_plain_row(tile: &[Pixel], from: usize, n: usize, p: Pixel) -> bool
    requires whole { length tile.now ≡ 4096 }
    requires inside { from + n ≤ 4096 }
    ensures { IsTrue result ↔ RowIs tile.now (λ _. p) from n }
{
    let row = &tile[from..from + n];
    let mut all = true;
    for i in 0..n {
        all = all & (row[i] == p);
    }
    all
}

/// Whether all 4,096 pixels are `p`. Where the first or the last one isn't, it looks no further.
pub fn is_plain(tile: &[Pixel], p: Pixel) -> bool
    requires { length tile.now ≡ 4096 }
    ensures { IsTrue result ↔ (tile.now ≡ replicate 4096 p) }
{
    ends_are(tile, p) && all_are(tile, p)
}

/// Whether the first pixel is `p`, and the last one.
#[inline]
fn ends_are(tile: &[Pixel], p: Pixel) -> bool
    requires { length tile.now ≡ 4096 }
    ensures { tile.now ≡ replicate 4096 p → IsTrue result }
{
    tile[0] == p && tile[TILE_POINTS - 1] == p
}

/// Lays a part of a tile, from its column `tile_left` and its row `tile_top` on, over a part of
/// pixels that stand in rows of that width.
pub fn lay_tile_rows(
    pixels: &mut [Pixel],
    width: usize,
    part: Part,
    tile: &[Pixel],
    tile_left: usize,
    tile_top: usize,
)
    // The part lies in the pixels ..
    requires across { part.left + part.w ≤ width }
    requires down { (part.top + part.h) * width ≤ length pixels.old }
    requires small { length pixels.old < 2 ^ 32 }

    // .. and has the tile's columns and rows from these on.
    requires whole { length tile.now ≡ 4096 }
    requires tile_across { tile_left + part.w ≤ 64 }
    requires tile_down { tile_top + part.h ≤ 64 }
    ensures { LaysTile pixels.old pixels.new width part.left part.top part.w part.h
        tile.now tile_left tile_top }
{
    let mut from = TILE_SIDE * tile_top + tile_left;
    let mut to = part.top * width + part.left;
    for _row in 0..part.h {
        put_row(pixels, to, &tile[from..from + part.w]);
        from += TILE_SIDE;
        to += width;
    }
}
