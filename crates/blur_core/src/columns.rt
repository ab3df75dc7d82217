//! Sums over columns of pixels, and the means of squares that they make.

ghost use Rattle.std.specs.Prelude.{◌≡◌, ℕ, ◌+◌, ◌-◌, ◌*◌, ◌<◌, ◌≤◌, ◌++◌, length, replicate, IfOk, OnOk, vec_len, slice_index_or};
ghost use Rattle.pixel_core.specs.Rgba.{clear};
ghost use Rattle.blur_core.specs.Sums.{nothing, weigh, plus, less, sum_from, IsUpTo, IsPartOf};
ghost use Rattle.blur_core.specs.Rows.{AreBytes, ChangesEach, HasColumns, HasMeans, row_means};

use crate::sums::Sums;
use pixel_core::Pixel;
use std::alloc::{AllocError, Global};

/// The means of all squares of `more + 1` by `more + 1` pixels, in row order of their first pixels:
/// `h` rows of `w` means, of pixels that stand in `more` more rows with `more` more columns.
pub(crate) fn square_means(
    alloc: Global,
    pixels: &[Pixel],
    w: usize,
    h: usize,
    more: usize,
) -> Result<Vec<Pixel>, AllocError>
    requires columns { w ≤ 64 }
    requires rows { h ≤ 64 }
    requires more { more ≤ 32 }
    requires all { length pixels.now ≡ (h + more) * (w + more) }
    ensures all { IfOk result (λ v. vec_len v ≡ h * w) }
    ensures means { IfOk result (λ v. HasMeans pixels.now (w + more) (more + 1) w h v.items) }
{
    let mut columns = no_sums(alloc, w + more)?;
    add_rows(&mut columns, pixels, more);
    moved_down(alloc, &mut columns, pixels, w, h, more)
}

/// The sums of `count` columns without pixels.
fn no_sums(alloc: Global, count: usize) -> Result<Vec<Sums>, AllocError>
    ensures { IfOk result (λ v. v.items ≡ replicate count nothing) }
{
    vec![in alloc; Sums::NOTHING; count]
}

/// Adds the first `count` rows of the pixels to the sums of their columns, which are of nothing yet.
fn add_rows(columns: &mut [Sums], pixels: &[Pixel], count: usize)
    requires few { count ≤ 32 }
    requires all { count * length columns.old ≤ length pixels.now }
    requires nothing { HasColumns pixels.now (length columns.old) 0 0 columns.old }
    ensures sums { HasColumns pixels.now (length columns.old) 0 count columns.new }
    ensures bytes { AreBytes pixels.now (length columns.old) count }
{
    let width = columns.len();
    let mut from = 0;
    for _row in 0..count {
        add_row(columns, &pixels[from..from + width]);
        from += width;
    }
}

/// The means, where the columns have the sums of the first `more` rows. For each row of means the
/// next row of pixels is added, and the first one taken away.
fn moved_down(
    alloc: Global,
    columns: &mut [Sums],
    pixels: &[Pixel],
    w: usize,
    h: usize,
    more: usize,
) -> Result<Vec<Pixel>, AllocError>
    requires columns { w ≤ 64 }
    requires rows { h ≤ 64 }
    requires more { more ≤ 32 }
    requires long { length columns.old ≡ w + more }
    requires all { length pixels.now ≡ (h + more) * (w + more) }
    requires sums { HasColumns pixels.now (w + more) 0 more columns.old }
    requires bytes { AreBytes pixels.now (w + more) more }
    ensures all { IfOk result (λ v. vec_len v ≡ h * w) }
    ensures means { IfOk result (λ v. HasMeans pixels.now (w + more) (more + 1) w h v.items) }
{
    let width = w + more;
    let mut means = Vec::with_capacity(alloc, h * w)?;
    let mut first = 0;
    let mut next = more * width;
    for _row in 0..h {
        add_row(columns, &pixels[next..next + width]);
        push_means(&mut means, columns, more)?;
        take_row(columns, &pixels[first..first + width]);
        first += width;
        next += width;
    }
    Ok(means)
}

/// Adds each pixel of a row to the sums of its column.
fn add_row(columns: &mut [Sums], row: &[Pixel])
    requires same { length columns.old ≡ length row.now }
    requires room { (k : ℕ) → k < length columns.old
        → IsUpTo 1089 (slice_index_or columns.old k nothing) }
    ensures sums { ChangesEach plus row.now columns.old columns.new }
    ensures bytes { (k : ℕ) → k < length columns.old
        → IsUpTo 1 (weigh (slice_index_or row.now k clear)) }
{
    for i in 0..row.len() {
        columns[i] = columns[i].plus(Sums::of(row[i]));
    }
}

/// Takes each pixel of a row from the sums of its column, which it is part of.
fn take_row(columns: &mut [Sums], row: &[Pixel])
    requires same { length columns.old ≡ length row.now }
    requires each { (k : ℕ) → k < length columns.old
        → IsPartOf (weigh (slice_index_or row.now k clear)) (slice_index_or columns.old k nothing) }
    ensures { ChangesEach less row.now columns.old columns.new }
{
    for i in 0..row.len() {
        columns[i] = columns[i].less(Sums::of(row[i]));
    }
}

/// Pushes the mean of each `more + 1` columns that stand side by side, whose sums are those of
/// `more + 1` pixels.
fn push_means(means: &mut Vec<Pixel>, columns: &[Sums], more: usize) -> Result<(), AllocError>
    requires more { more ≤ 32 }
    requires long { more ≤ length columns.now }
    requires each { (k : ℕ) → IsUpTo (more + 1) (slice_index_or columns.now k nothing) }
    ensures { OnOk result (means.new.items ≡ means.old.items ++ row_means columns.now (more + 1)
        (length columns.now - more)) }
{
    let side = more + 1;
    let count = (side * side) as u32;
    let mut square = sum_of(&columns[..more]);
    for col in 0..columns.len() - more {
        square = square.plus(columns[col + more]);
        means.push(square.mean(count))?;
        square = square.less(columns[col]);
    }
    Ok(())
}

/// The sums of at most 32 columns, each of at most 33 pixels.
fn sum_of(columns: &[Sums]) -> Sums
    requires few { length columns.now ≤ 32 }
    requires each { (k : ℕ) → IsUpTo 33 (slice_index_or columns.now k nothing) }
    ensures { result ≡ sum_from (λ k. slice_index_or columns.now k nothing) 0 (length columns.now) }
{
    let mut all = Sums::NOTHING;
    for i in 0..columns.len() {
        all = all.plus(columns[i]);
    }
    all
}
