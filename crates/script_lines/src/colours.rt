//! Colours as a field spells them.

ghost use Rattle.std.specs.Prelude.{◌≡◌, ◌≤◌, IfOk, true};
ghost use Rattle.script_lines.specs.Colours.{digit_or_more, below, pixel_by, is_pixel};
ghost use Rattle.script_lines.specs.Values.{hex_byte as byte_of, rgb as rgb_of, rgba as rgba_of};

use crate::Cause;
use pixel_core::Pixel;

/// What the characters from `0` to `f` are worth as hexadecimal digits, and 256 for those that are
/// none. A table takes no branches, and which digits a colour has can't be foreseen.
const WORTHS: [u16; 55] = [
    0, 1, 2, 3, 4, 5, 6, 7, 8, 9, 256, 256, 256, 256, 256, 256, 256, 10, 11, 12, 13, 14, 15, 256,
    256, 256, 256, 256, 256, 256, 256, 256, 256, 256, 256, 256, 256, 256, 256, 256, 256, 256, 256,
    256, 256, 256, 256, 256, 256, 10, 11, 12, 13, 14, 15,
];

/// The value of a hexadecimal digit, of either case, or 256 where it is none.
#[tactic(auto, using(crate::proofs::SpelledPixels::worth))]
#[inline]
fn hex_digit(digit: u8) -> u32
    ensures { result ≡ digit_or_more digit }
{
    if b'0' <= digit && digit <= b'f' {
        u32::from(WORTHS[usize::from(digit - b'0')])
    } else {
        256
    }
}

/// The byte that two hexadecimal digits spell, or 256 or more where they don't.
#[tactic(auto, unfolding(crate::specs::Values::hex_byte))]
#[inline]
fn hex_byte(high: u8, low: u8) -> u32
    ensures value { below 256 result ≡ byte_of high low }
    ensures small { result ≤ 4352 }
{
    16 * hex_digit(high) + hex_digit(low)
}

/// The pixel of four numbers, where they are bytes.
#[inline]
fn pixel_of(red: u32, green: u32, blue: u32, alpha: u32) -> Result<Pixel, Cause>
    ensures value { result ≡ pixel_by (below 256 red) (below 256 green) (below 256 blue)
        (below 256 alpha) }
    ensures pixel { IfOk result (λ p. is_pixel p ≡ true) }
{
    if red < 256 && green < 256 && blue < 256 && alpha < 256 {
        Ok(Pixel::new(red as u8, green as u8, blue as u8, alpha as u8))
    } else {
        Err(Cause::Number)
    }
}

/// Six hexadecimal digits: an opaque pixel.
#[tactic(auto, unfolding(crate::specs::Values::rgb, crate::specs::Values::rgba))]
pub fn rgb(field: &[u8]) -> Result<Pixel, Cause>
    ensures value { result ≡ rgb_of field.now }
    ensures pixel { IfOk result (λ p. is_pixel p ≡ true) }
    ensures opaque { IfOk result (λ p. p.a ≡ 255) }
{
    match field {
        [a, b, c, d, e, f] => {
            let red = hex_byte(*a, *b);
            let green = hex_byte(*c, *d);
            let blue = hex_byte(*e, *f);
            pixel_of(red, green, blue, 255)
        }
        _ => Err(Cause::Number),
    }
}

/// Eight hexadecimal digits: a pixel, clear where the alpha is 0.
#[tactic(auto, unfolding(crate::specs::Values::rgba))]
#[inline(always)]
pub fn rgba(field: &[u8]) -> Result<Pixel, Cause>
    ensures value { result ≡ rgba_of field.now }
    ensures pixel { IfOk result (λ p. is_pixel p ≡ true) }
{
    match field {
        [a, b, c, d, e, f, g, h] => {
            let red = hex_byte(*a, *b);
            let green = hex_byte(*c, *d);
            let blue = hex_byte(*e, *f);
            let alpha = hex_byte(*g, *h);
            pixel_of(red, green, blue, alpha)
        }
        _ => Err(Cause::Number),
    }
}
