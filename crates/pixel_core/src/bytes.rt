//! Bytes as fractions of 255.

ghost use Rattle.std.specs.Prelude.{◌≡◌, ◌≤◌, ◌*◌};
ghost use Rattle.pixel_core.specs.Bytes.{IsNearest};
ghost use Rattle.pixel_core.specs.Compose.{nearest, mul as product};

/// The product of two fractions that are counted in 255ths: the whole number nearest to
/// `a * b / 255`. There are no ties, since 255 is odd.
#[inline]
pub fn mul(a: u8, b: u8) -> u8
    ensures value { result ≡ product a b }
    ensures nearest { IsNearest result (a * b) 255 }
{
    rounded_255th(a as u32 * b as u32)
}

/// `n / 255` to the nearest whole number, by shifts in place of a division.
#[inline]
pub(crate) fn rounded_255th(n: u32) -> u8
    requires { n ≤ 65025 }
    ensures { result ≡ nearest n 255 }
{
    let t = n + 128;
    (((t >> 8) + t) >> 8) as u8
}
