//! Why a trace is refused.

ghost use Rattle.std.specs.Prelude.{◌≡◌};
ghost use Rattle.trace_core.specs.declared.refusal.ReplayRefusal.TheVariants as refusal;

use geom_core::NoMemory;
use std::alloc::AllocError;
use trace_lines::TraceCause;

/// Why a trace wasn't followed to its end.
#[derive(Clone, Copy, Debug, PartialEq, Eq)]
pub enum ReplayRefusal {
    /// The first line that is refused, from 1 on, and why.
    Fault { line: u32, cause: TraceCause },
    /// No memory was left.
    NoMemory,
}

impl From<AllocError> for ReplayRefusal {
    ghost from_gives = { λ _ e. e ≡ refusal.NoMemory };

    fn from(_: AllocError) -> Self {
        ReplayRefusal::NoMemory
    }
}

impl From<NoMemory> for ReplayRefusal {
    ghost from_gives = { λ _ e. e ≡ refusal.NoMemory };

    fn from(_: NoMemory) -> Self {
        ReplayRefusal::NoMemory
    }
}

/// The refusal of a line.
pub(crate) fn fault(line: u32, cause: TraceCause) -> ReplayRefusal
    ensures { result ≡ refusal.Fault line cause }
{
    ReplayRefusal::Fault { line, cause }
}
