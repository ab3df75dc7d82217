//! The field at the front of a text, read in one pass with the byte that ends it. Only the usual
//! spelling is read; for any other the answer is None, which says nothing of the text.

ghost use Rattle.std.specs.Prelude.{◌≡◌, ◌<◌, ◌≤◌, ◌≤ℤ◌, ◌+◌, ◌∷◌, ◌++◌, pos, true, IfSome};
ghost use Rattle.script_lines.specs.Colours.{is_pixel};
ghost use Rattle.script_lines.specs.Values.{rgba as rgba_of, number as number_of, number_in as in_range, natural as natural_of};
ghost use Rattle.script_lines.specs.Fronts.{Begins};

use crate::colours::rgba;
use pixel_core::Pixel;

/// What the digit at the front is worth, and what stands behind it.
#[inline(always)]
fn digit(text: &[u8]) -> Option<(u32, &[u8])>
    ensures text { IfSome result (λ r. text.now ≡ (48 + r.0) ∷ r.1.now) }
    ensures worth { IfSome result (λ r. r.0 < 10) }
{
    match text {
        [] => None,
        [b, behind @ ..] => {
            if b.is_ascii_digit() {
                Some((u32::from(*b - b'0'), behind))
            } else {
                None
            }
        }
    }
}

/// What stands behind the mark, where the text begins with it.
#[inline(always)]
fn behind_mark(mark: u8, text: &[u8]) -> Option<&[u8]>
    ensures { IfSome result (λ behind. text.now ≡ mark ∷ behind.now) }
{
    match text {
        [] => None,
        [b, behind @ ..] => { if *b == mark { Some(behind) } else { None } }
    }
}

/// What stands behind the word and the mark, where the text begins with these.
#[inline(always)]
pub fn behind_word<'a>(mark: u8, word: &[u8], text: &'a [u8]) -> Option<&'a [u8]>
    ensures { IfSome result (λ behind. text.now ≡ word.now ++ mark ∷ behind.now) }
{
    if text.len() < word.len() {
        return None;
    }
    for i in 0..word.len() {
        if text[i] != word[i] {
            return None;
        }
    }
    let (_, rest) = text.split_at(word.len());
    behind_mark(mark, rest)
}

/// The number of one to five digits before the mark, and what stands behind the mark. Each digit
/// has branches of its own, so that the processor foresees how many a number has in its place.
#[inline(always)]
fn digits_before(mark: u8, text: &[u8]) -> Option<(u32, &[u8])>
    ensures number { IfSome result (λ r. Begins number_of mark text.now (pos r.0) r.1.now) }
    ensures small { IfSome result (λ r. r.0 < 100000) }
{
    let (a, text) = digit(text)?;
    if let Some(behind) = behind_mark(mark, text) {
        return Some((a, behind));
    }
    let (b, text) = digit(text)?;
    let two = 10 * a + b;
    if let Some(behind) = behind_mark(mark, text) {
        return Some((two, behind));
    }
    let (c, text) = digit(text)?;
    let three = 10 * two + c;
    if let Some(behind) = behind_mark(mark, text) {
        return Some((three, behind));
    }
    let (d, text) = digit(text)?;
    let four = 10 * three + d;
    if let Some(behind) = behind_mark(mark, text) {
        return Some((four, behind));
    }
    let (e, text) = digit(text)?;
    let behind = behind_mark(mark, text)?;
    Some((10 * four + e, behind))
}

/// A number from `low` to `high` of one to five digits before the mark, and what stands behind the
/// mark.
#[inline(always)]
pub fn natural_before(mark: u8, low: u32, high: u32, text: &[u8]) -> Option<(u32, &[u8])>
    ensures natural { IfSome result (λ r. Begins (natural_of low high) mark text.now r.0 r.1.now) }
    ensures above { IfSome result (λ r. low ≤ r.0) }
    ensures below { IfSome result (λ r. r.0 ≤ high) }
{
    let (n, behind) = digits_before(mark, text)?;
    if low <= n && n <= high {
        Some((n, behind))
    } else {
        None
    }
}

/// A number from `low` to `high` of one to five digits, without a sign, before the mark, and what
/// stands behind the mark.
#[inline(always)]
pub fn number_in_before(mark: u8, low: i32, high: i32, text: &[u8]) -> Option<(i32, &[u8])>
    ensures number { IfSome result (λ r. Begins (in_range low high) mark text.now r.0 r.1.now) }
    ensures above { IfSome result (λ r. low ≤ℤ r.0) }
    ensures below { IfSome result (λ r. r.0 ≤ℤ high) }
{
    let (n, behind) = digits_before(mark, text)?;
    let n = n as i32;
    if low <= n && n <= high {
        Some((n, behind))
    } else {
        None
    }
}

/// Eight hexadecimal digits before the mark: a pixel; and what stands behind the mark.
#[inline(always)]
pub fn rgba_before(mark: u8, text: &[u8]) -> Option<(Pixel, &[u8])>
    ensures colour { IfSome result (λ r. Begins rgba_of mark text.now r.0 r.1.now) }
    ensures pixel { IfSome result (λ r. is_pixel r.0 ≡ true) }
{
    if text.len() < 8 {
        return None;
    }
    let (field, text) = text.split_at(8);
    let colour = rgba(field).ok()?;
    let behind = behind_mark(mark, text)?;
    Some((colour, behind))
}
