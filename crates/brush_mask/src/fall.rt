//! How soft dabs fall, without a division for each pixel.

ghost use Rattle.std.specs.Prelude.{◌≡◌, ◌≤◌, ◌<◌, ◌*◌, ◌/◌, ◌^◌, ◌+◌, ℕ};

/// A whole below this has products that fit 32 bits.
pub(crate) const NARROW: u16 = 4096;

/// The quotients 255 * n / whole for each n up to `whole`, by one multiplication each.
#[derive(Clone, Copy, Debug)]
pub(crate) struct Fall {
    whole: u16,
    /// What one is worth: 255 / whole in parts of 2^shift, rounded up.
    part: u32,
    shift: u32,
    ghost bound: { whole ≤ 16385 × shift ≤ 29 },
    ghost exact: { (n : ℕ) → n ≤ whole → n * part / 2 ^ shift ≡ 255 * n / whole },
    ghost narrow: { whole < 4096 → whole * part < 2 ^ 32 },
}

impl Fall {
    /// The quotients by `whole`. Not inlined, so that a loop over `at` multiplies 32 bits by 32.
    #[inline(never)]
    pub(crate) fn of(whole: u16) -> Fall
        requires some { 0 < whole }
        requires small { whole ≤ 16385 }
        ensures { result.whole ≡ whole }
    {
        let shift = shift_of(whole);
        let part = (255u64 << shift) / whole as u64 + 1;
        Fall {
            whole,
            part: part as u32,
            shift,
        }
    }

    /// 255 * n / whole.
    #[inline]
    pub(crate) fn at(self, n: u16) -> u8
        requires { n ≤ self.whole }
        ensures { result ≡ 255 * n / self.whole }
    {
        ((n as u64 * self.part as u64) >> self.shift) as u8
    }

    /// The same by a product of 32 bits, of which twice as many are made at a time.
    #[inline]
    pub(crate) fn narrow_at(self, n: u16) -> u8
        requires small { self.whole < NARROW }
        requires within { n ≤ self.whole }
        ensures { result ≡ 255 * n / self.whole }
    {
        ((n as u32 * self.part) >> self.shift) as u8
    }
}

/// As many bits as the quotients need to be exact, while a part of them fits 32 bits, and the products
/// of a narrow whole do.
fn shift_of(whole: u16) -> u32
    requires some { 0 < whole }
    requires small { whole ≤ 16385 }
    ensures small { result ≤ 29 }
    ensures enough { whole * whole < 2 ^ result }
    ensures fits { 255 * 2 ^ result + whole < 2 ^ 32 * whole }
    ensures narrow { whole < NARROW → 255 * 2 ^ result + whole < 2 ^ 32 }
{
    if whole < NARROW { 24 } else { 29 }
}
