//! Quotients of whole numbers by one division of floats. A cast between a whole number and a float
//! would keep the compiler from making several at a time, so both ways go by a float's bits.
ghost use Rattle.std.specs.Prelude.{◌≡◌, ◌<◌, ◌≤◌, ◌/◌, ◌*◌, ◌+◌, ◌^◌};
ghost use Rattle.pixel_rows.specs.Floats.{IsWhole};

/// What is added to a quotient, so that its whole part stands in the bits above the lowest 15: 256
/// less 2^-16. Between 256 and 512 a float's last bit is worth 2^-15, and a tie goes to the even one.
const SHIFT: f32 = 255.999_984_741_210_94;

/// A whole number as a float.
#[inline]
pub(crate) fn whole(n: u32) -> f32
    requires { n < 2 ^ 23 }
    ensures { IsWhole result n }
{
    f32::from_bits(0x4b00_0000 + n) - 8_388_608.0
}

/// The mean of two numbers by these weights, to the nearest whole number, where `sum` is that of the
/// weights. A quotient that isn't whole lies more than 2^-16 below the next whole number, so that the
/// division, which rounds to the nearest float, doesn't reach it.
#[inline]
pub(crate) fn mean(source: u32, s: u8, backdrop: u32, d: u8, sum: u32) -> u8
    requires divisor { 255 ≤ sum }
    requires small { sum ≤ 65025 }
    requires parts { source + backdrop ≤ sum }
    ensures { result ≡ (source * s + backdrop * d + sum / 2) / sum }
{
    let below = whole(backdrop) * whole(d as u32) + whole(sum / 2);
    let n = whole(source) * whole(s as u32) + below;
    (((n / whole(sum) + SHIFT).to_bits() >> 15) & 255) as u8
}

/// The same of three numbers.
#[inline(always)]
pub(crate) fn mean_of_three(
    source: u32,
    s: u8,
    backdrop: u32,
    d: u8,
    both: u32,
    f: u8,
    sum: u32,
) -> u8
    requires divisor { 255 ≤ sum }
    requires small { sum ≤ 65025 }
    requires parts { source + backdrop + both ≤ sum }
    ensures { result ≡ (backdrop * d + source * s + both * f + sum / 2) / sum }
{
    let below = whole(backdrop) * whole(d as u32) + whole(sum / 2);
    let alone = whole(source) * whole(s as u32) + below;
    let n = whole(both) * whole(f as u32) + alone;
    (((n / whole(sum) + SHIFT).to_bits() >> 15) & 255) as u8
}
