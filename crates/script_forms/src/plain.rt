//! Lines of jobs in their usual spelling, read in one pass and without a list of fields: single
//! spaces, numbers without a sign and of up to five digits, a line feed at the end. For any other
//! line the answer is None, which says nothing of it: what it is, its fields tell.

ghost use Rattle.std.specs.Prelude.{◌≡◌, true, IfSome};
ghost use Rattle.script_lines.specs.Fronts.{Begins};
ghost use Rattle.script_lines.specs.Colours.{is_pixel, is_byte};
ghost use Rattle.script_forms.specs.Jobs.{kind_of, op_of, edge_of};
ghost use Rattle.script_forms.specs.Ranges.{in_range, is_sound, IsOutline, IsTip};
ghost use Rattle.script_forms.specs.Plain.{BeginsOutline, BeginsTip, IsInkLine, IsPaintLine, IsJobLine};
ghost use Rattle.script_forms.specs.declared.words.JobWord.TheVariants.{Fill, Dab};

use crate::jobs::{Ink, Outline, Tip, dab_of, fill_of};
use doc_model::{Command, Kind};
use pixel_core::Op;
use script_lines::{behind_word, natural_before, number_in_before, rgba_before};

/// The kind before a space, and what stands behind the space.
#[inline(always)]
fn kind_before(text: &[u8]) -> Option<(Kind, &[u8])>
    ensures { IfSome result (λ r. Begins kind_of 32 text.now r.0 r.1.now) }
{
    if let Some(behind) = behind_word(b' ', b"con", text) {
        return Some((Kind::Con, behind));
    }
    if let Some(behind) = behind_word(b' ', b"seq", text) {
        return Some((Kind::Seq, behind));
    }
    if let Some(behind) = behind_word(b' ', b"bar", text) {
        return Some((Kind::Bar, behind));
    }
    let behind = behind_word(b' ', b"uni", text)?;
    Some((Kind::Uni, behind))
}

/// The blend operation before a space, and what stands behind the space.
#[inline(always)]
fn op_before(text: &[u8]) -> Option<(Op, &[u8])>
    ensures { IfSome result (λ r. Begins op_of 32 text.now r.0 r.1.now) }
{
    if let Some(behind) = behind_word(b' ', b"over", text) {
        return Some((Op::Over, behind));
    }
    if let Some(behind) = behind_word(b' ', b"erase", text) {
        return Some((Op::Erase, behind));
    }
    if let Some(behind) = behind_word(b' ', b"multiply", text) {
        return Some((Op::Multiply, behind));
    }
    if let Some(behind) = behind_word(b' ', b"screen", text) {
        return Some((Op::Screen, behind));
    }
    let behind = behind_word(b' ', b"addition", text)?;
    Some((Op::Addition, behind))
}

/// Whether the edge before a space is soft, and what stands behind the space.
#[inline(always)]
fn edge_before(text: &[u8]) -> Option<(bool, &[u8])>
    ensures { IfSome result (λ r. Begins edge_of 32 text.now r.0 r.1.now) }
{
    if let Some(behind) = behind_word(b' ', b"hard", text) {
        return Some((false, behind));
    }
    let behind = behind_word(b' ', b"soft", text)?;
    Some((true, behind))
}

/// A rectangle, and what stands behind the space that ends it.
#[inline(always)]
fn outline_before(text: &[u8]) -> Option<(Outline, &[u8])>
    ensures outline { IfSome result (λ r. BeginsOutline text.now r.0 r.1.now) }
    ensures ranges { IfSome result (λ r. IsOutline r.0) }
{
    let (x, text) = number_in_before(b' ', -32768, 32767, text)?;
    let (y, text) = number_in_before(b' ', -32768, 32767, text)?;
    let (w, text) = natural_before(b' ', 1, 4096, text)?;
    let (h, behind) = natural_before(b' ', 1, 4096, text)?;
    Some((Outline { x, y, w, h }, behind))
}

/// A dab's centre, radius and edge, and what stands behind the space that ends them.
#[inline(always)]
fn tip_before(text: &[u8]) -> Option<(Tip, &[u8])>
    ensures tip { IfSome result (λ r. BeginsTip text.now r.0 r.1.now) }
    ensures ranges { IfSome result (λ r. IsTip r.0) }
{
    let (x, text) = number_in_before(b' ', -32768, 32767, text)?;
    let (y, text) = number_in_before(b' ', -32768, 32767, text)?;
    let (r, text) = natural_before(b' ', 0, 128, text)?;
    let (soft, behind) = edge_before(text)?;
    let r = r as u8;
    Some((Tip { x, y, r, soft }, behind))
}

/// A colour and how it is laid on, and what stands behind the line feed that ends them.
#[inline(always)]
fn last_ink(text: &[u8]) -> Option<(Ink, &[u8])>
    ensures line { IfSome result (λ r. IsInkLine text.now r.0 r.1.now) }
    ensures colour { IfSome result (λ r. is_pixel r.0.colour ≡ true) }
    ensures strength { IfSome result (λ r. is_byte r.0.strength ≡ true) }
{
    let Some((colour, text)) = rgba_before(b' ', text) else {
        return None;
    };
    let (op, text) = op_before(text)?;
    let (strength, behind) = natural_before(b'\n', 0, 255, text)?;
    let ink = Ink {
        colour,
        op,
        strength: strength as u8,
    };
    Some((ink, behind))
}

/// A fill's line behind its word, and what stands behind the line.
fn plain_fill(text: &[u8]) -> Option<(Command, &[u8])>
    ensures line { IfSome result (λ r. IsPaintLine Fill text.now r.0 r.1.now) }
    ensures ranges { IfSome result (λ r. in_range r.0 ≡ true) }
    ensures sound { IfSome result (λ r. is_sound r.0 ≡ true) }
{
    let (no, text) = natural_before(b' ', 0, 4294967295, text)?;
    let (kind, text) = kind_before(text)?;
    let (outline, text) = outline_before(text)?;
    let Some((ink, behind)) = last_ink(text) else {
        return None;
    };
    let job = fill_of(outline, ink).ok()?;
    Some((Command::Add { no, kind, job }, behind))
}

/// A dab's line behind its word, and what stands behind the line.
fn plain_dab(text: &[u8]) -> Option<(Command, &[u8])>
    ensures line { IfSome result (λ r. IsPaintLine Dab text.now r.0 r.1.now) }
    ensures ranges { IfSome result (λ r. in_range r.0 ≡ true) }
    ensures sound { IfSome result (λ r. is_sound r.0 ≡ true) }
{
    let (no, text) = natural_before(b' ', 0, 4294967295, text)?;
    let (kind, text) = kind_before(text)?;
    let (tip, text) = tip_before(text)?;
    let Some((ink, behind)) = last_ink(text) else {
        return None;
    };
    let job = dab_of(tip, ink).ok()?;
    Some((Command::Add { no, kind, job }, behind))
}

/// The command of the first line, where that is a fill's or a dab's in its usual spelling, and what
/// stands behind the line.
pub fn plain_job(text: &[u8]) -> Option<(Command, &[u8])>
    ensures line { IfSome result (λ r. IsJobLine text.now r.0 r.1.now) }
    ensures ranges { IfSome result (λ r. in_range r.0 ≡ true) }
    ensures sound { IfSome result (λ r. is_sound r.0 ≡ true) }
{
    if let Some(others) = behind_word(b' ', b"fill", text) {
        return plain_fill(others);
    }
    plain_dab(behind_word(b' ', b"dab", text)?)
}
