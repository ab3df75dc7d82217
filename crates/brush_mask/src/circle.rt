//! What rows have within the circles of dabs.

ghost use Rattle.std.specs.Prelude.{◌≡◌, ◌≤◌, ◌<◌, ◌+◌, ◌*◌, ◌+ℤ◌, ◌≤ℤ◌, ℕ, ℤ, negsuc, pos, false, nat_abs, nat_le, int_le, IfSome, IfNone};
ghost use Rattle.brush_mask.specs.Mask.{mask};
ghost use Rattle.brush_mask.specs.Chords.{IsHalfChord, IsChord};

use crate::round::square;
use std::num::saturating_f64_to_u8;

/// The places of a row that lie within a circle: those from `first` up to `end`, without it.
#[derive(Clone, Copy, Debug, PartialEq, Eq)]
pub struct Chord {
    pub first: usize,
    pub end: usize,
}

/// The places within the circle of radius `r` pixels, of a row whose first place is (`dx`, `dy`)
/// from the circle's centre.
pub fn chord_in_row(r: u8, dx: i16, dy: i16, places: usize) -> Chord
    requires radius { r ≤ 128 }
    requires left { negsuc 127 ≤ℤ dx }
    requires right { (dx +ℤ pos places) ≤ℤ pos 129 }
    requires top { negsuc 127 ≤ℤ dy }
    requires bottom { dy ≤ℤ pos 128 }
    ensures order { result.first ≤ result.end }
    ensures inside { result.end ≤ places }
    ensures value { IsChord r dx dy places result.first result.end }
{
    match half_chord(r, dy) {
        Some(half) => Chord {
            first: place_of(-(half as i16) - dx, places),
            end: place_of(half as i16 + 1 - dx, places),
        },
        None => Chord { first: 0, end: 0 },
    }
}

/// How many columns to each side of the centre the circle of radius `r` pixels has in the row `dy`
/// below it. None where the row doesn't meet the circle.
fn half_chord(r: u8, dy: i16) -> Option<u8>
    requires radius { r ≤ 128 }
    requires down { nat_abs dy ≤ 128 }
    ensures some { IfSome result (λ h. IsHalfChord r dy h) }
    ensures none { IfNone result ((dx : ℤ) → mask r false dx dy ≡ 0) }
{
    let r2 = square(r as u16);
    let d2 = square(dy.unsigned_abs());
    if r2 < d2 { None } else { Some(root(r2 - d2)) }
}

/// The square root of `n`, rounded down. A guess by floats is soon checked; where it is wrong, the root
/// is found by halving.
fn root(n: u16) -> u8
    ensures square { result * result ≤ n }
    ensures next { n < (result + 1) * (result + 1) }
{
    let guess = saturating_f64_to_u8(f64::from(n).sqrt());
    match n.checked_sub(guess as u16 * guess as u16) {
        Some(rest) if rest <= 2 * guess as u16 => guess,
        _ => n.isqrt() as u8,
    }
}

/// The first of a row's places that is `x` or more, or their end.
fn place_of(x: i16, places: usize) -> usize
    ensures value { (k : ℕ) → k < places → nat_le result k ≡ int_le x (pos k) }
    ensures inside { result ≤ places }
{
    (x.max(0) as usize).min(places)
}
