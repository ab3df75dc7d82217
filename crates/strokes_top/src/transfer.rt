//! Reading a source piece by piece, as far as the limit.

ghost use Rattle.std.specs.Prelude.{◌≡◌, ◌+◌, ◌-◌, ◌≤◌, length, take, Ok, IfOk, OnOk};
ghost use Rattle.std.specs.Result.{result_err};
ghost use Rattle.std.specs.Io.KnownBytes.{Consumes, IsAtEnd};
ghost use Rattle.strokes_top.specs.Sources.{ReadsUpTo};

use io_edge::{Failed, Source};

/// The most bytes that a script may have.
pub const LIMIT: usize = 1_048_576;

/// The most bytes that a trace may have.
pub const TRACE_LIMIT: usize = 16_777_216;

/// How many bytes are asked for at once.
pub const CHUNK: usize = 16_384;

/// Why a source wasn't read to its end.
#[derive(Clone, Copy)]
pub enum ReadError {
    /// A read failed.
    Failed,
    /// There are more bytes than there may be.
    TooLong,
}

/// Reads the next bytes into the front of the chunk, where `count` were read before, and says how
/// many: 0 only at the end. There may be `limit` in all.
///
/// # Errors
/// `Failed` only where the source's count of faults rose, and `TooLong` only where there are more bytes.
pub fn next_piece<S: Source>(
    source: &mut S,
    chunk: &mut [u8],
    count: usize,
    limit: usize,
) -> Result<usize, ReadError>
    requires room { length chunk.old ≡ CHUNK }
    requires count { count ≤ limit }
    ensures bytes { IfOk result (λ n. Consumes (S.left source.old) (S.left source.new)
        (take n chunk.new)) }
    ensures bound { IfOk result (λ n. n ≤ length chunk.new) }
    ensures short { IfOk result (λ n. count + n ≤ limit) }
    ensures to_the_end { result ≡ Ok 0 → IsAtEnd (S.left source.new) }
    ensures reads { ReadsUpTo (limit - count) (S.left source.old) (S.left source.new)
        (S.faults source.old) (S.faults source.new) (result_err result) }
{
    match source.read(chunk) {
        Ok(n) if n > limit - count => Err(ReadError::TooLong),
        Ok(n) => Ok(n),
        Err(Failed) => Err(ReadError::Failed),
    }
}

/// Reads the source to its end, where `count` bytes were read before, and lets the bytes go.
///
/// # Errors
/// As of `next_piece`.
pub fn skip_rest<S: Source>(
    source: &mut S,
    chunk: &mut [u8],
    mut count: usize,
) -> Result<(), ReadError>
    requires room { length chunk.old ≡ CHUNK }
    requires count { count ≤ LIMIT }
    ensures to_the_end { OnOk result (IsAtEnd (S.left source.new)) }
    ensures reads { ReadsUpTo (LIMIT - count) (S.left source.old) (S.left source.new)
        (S.faults source.old) (S.faults source.new) (result_err result) }
{
    loop {
        let n = next_piece(source, chunk, count, LIMIT)?;
        if n == 0 {
            return Ok(());
        }
        count += n;
    }
}
