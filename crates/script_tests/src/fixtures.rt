//! What several tests start from.

ghost use Rattle.std.specs.Prelude.{◌≡◌};

use pixel_core::Pixel;
use script_text::{Cause, ReadRefusal, Script};

pub(crate) fn opaque(r: u8, g: u8, b: u8) -> Pixel
    ensures { result.a ≡ 255 }
{
    Pixel::new(r, g, b, 255)
}

/// The line and the cause of the first fault.
pub(crate) fn first_fault(read: Result<Script, ReadRefusal>) -> Option<(u32, Cause)> {
    match read {
        Err(ReadRefusal::Fault(fault)) => Some((fault.line, fault.cause)),
        _ => None,
    }
}
