//! Why a command isn't taken.

ghost use Rattle.std.specs.Prelude.{◌≡◌};
ghost use Rattle.command_log.specs.declared.refusal.Refusal.{Refusal};
ghost use Rattle.command_log.specs.declared.refusal.Refusal.TheVariants as refusal;

use geom_core::NoMemory;
use std::alloc::AllocError;

/// Why a command may not follow those that were taken. What its job asks of itself is told elsewhere.
#[derive(Clone, Copy, Debug, PartialEq, Eq)]
pub enum Misfit {
    /// A stroke with that number was started before.
    UsedAgain,
    /// No stroke with that number was started.
    UnknownStroke,
    /// The stroke was closed.
    ClosedStroke,
    /// The stroke has 4096 jobs.
    TooManyJobs,
    /// There are 64 exports.
    TooManyExports,
}

/// Why a command wasn't taken.
#[derive(Clone, Copy, Debug, PartialEq, Eq)]
pub enum Refusal {
    /// It may not follow those that were taken.
    Misfit(Misfit),
    /// No memory was left.
    NoMemory,
}

impl From<Misfit> for Refusal {
    ghost from_gives = { λ misfit e. e ≡ refusal.Misfit misfit };

    fn from(misfit: Misfit) -> Self {
        Refusal::Misfit(misfit)
    }
}

impl From<AllocError> for Refusal {
    ghost from_gives = { λ _ e. e ≡ refusal.NoMemory };

    fn from(_: AllocError) -> Self {
        Refusal::NoMemory
    }
}

impl From<NoMemory> for Refusal {
    ghost from_gives = { λ _ e. e ≡ refusal.NoMemory };

    fn from(_: NoMemory) -> Self {
        Refusal::NoMemory
    }
}
