//! Numbers as a field spells them.

ghost use Rattle.std.specs.Prelude.{◌≡◌, ◌<◌, ◌≤◌, ◌≤ℤ◌, ◌^◌, IfOk};
ghost use Rattle.script_lines.specs.Values.{magnitude as magnitude_of, number as number_of, number_in as in_range, natural as natural_of};

use crate::Cause;

/// The number that one to ten digits spell.
#[tactic(auto, unfolding(crate::specs::Values::magnitude))]
fn magnitude(bytes: &[u8]) -> Result<u64, Cause>
    ensures value { result ≡ magnitude_of bytes.now }
    ensures small { IfOk result (λ n. n < 10 ^ 10) }
{
    if bytes.is_empty() || bytes.len() > 10 {
        return Err(Cause::Number);
    }
    let mut n = 0u64;
    for b in bytes {
        if !b.is_ascii_digit() {
            return Err(Cause::Number);
        }
        n = 10 * n + (*b - b'0') as u64;
    }
    Ok(n)
}

#[tactic(auto, unfolding(crate::specs::Values::number))]
fn number(bytes: &[u8]) -> Result<i64, Cause>
    ensures { result ≡ number_of bytes.now }
{
    match bytes {
        [] => Err(Cause::Number),
        [b'-', digits @ ..] => Ok(-(magnitude(digits)? as i64)),
        _ => Ok(magnitude(bytes)? as i64),
    }
}

/// A number from `low` to `high`.
#[tactic(auto, unfolding(crate::specs::Values::number_in))]
pub fn number_in(low: i32, high: i32, field: &[u8]) -> Result<i32, Cause>
    ensures value { result ≡ in_range low high field.now }
    ensures above { IfOk result (λ n. low ≤ℤ n) }
    ensures below { IfOk result (λ n. n ≤ℤ high) }
{
    let n = number(field)?;
    if low as i64 <= n && n <= high as i64 {
        Ok(n as i32)
    } else {
        Err(Cause::Range)
    }
}

/// A number from `low` to `high`, neither of them below 0.
#[tactic(auto, unfolding(crate::specs::Values::natural, crate::specs::Values::number_in))]
pub fn natural(low: u32, high: u32, field: &[u8]) -> Result<u64, Cause>
    ensures value { result ≡ natural_of low high field.now }
    ensures above { IfOk result (λ n. low ≤ n) }
    ensures below { IfOk result (λ n. n ≤ high) }
{
    let n = number(field)?;
    if low as i64 <= n && n <= high as i64 {
        Ok(n as u64)
    } else {
        Err(Cause::Range)
    }
}
