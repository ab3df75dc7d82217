//! How strongly a round dab paints at each pixel.

ghost use Rattle.std.specs.Prelude.{◌≡◌, ◌≤◌, ◌*◌, true, nat_abs};
ghost use Rattle.brush_mask.specs.Mask.{mask as strength, inside};

/// The strength, in 255ths, of a round dab of radius `r` pixels at the pixel (`dx`, `dy`) from its
/// centre: 0 outside the circle, and inside it 255 where the dab is hard. A `soft` dab falls with
/// the square of the distance, from 255 at the centre.
#[inline]
#[tactic(auto, unfolding(crate::specs::Mask::mask))]
pub fn mask(r: u8, soft: bool, dx: i16, dy: i16) -> u8
    requires radius { r ≤ 128 }
    requires across { nat_abs dx ≤ 128 }
    requires down { nat_abs dy ≤ 128 }
    ensures { result ≡ strength r soft dx dy }
{
    let r2 = square(r as u16);
    let d2 = square(dx.unsigned_abs()) + square(dy.unsigned_abs());
    if r2 < d2 {
        0
    } else if soft {
        fallen(r2, d2)
    } else {
        255
    }
}

#[inline]
pub(crate) fn square(x: u16) -> u16
    requires { x ≤ 128 }
    ensures value { result ≡ x * x }
    ensures small { result ≤ 16384 }
{
    x * x
}

/// The strength of a soft dab at a distance whose square is `d2`, where its radius has the square `r2`.
fn fallen(r2: u16, d2: u16) -> u8
    requires within { d2 ≤ r2 }
    requires small { r2 ≤ 16384 }
    ensures { result ≡ inside true r2 d2 }
{
    let whole = r2 as u32 + 1;
    (255 * (whole - d2 as u32) / whole) as u8
}
