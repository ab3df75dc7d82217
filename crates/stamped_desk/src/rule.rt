//! The rule of the history of stamps, and its one step.

use logbook::{Gain, Plain, Play, Rule};

/// The rule of the history: a word holds its length.
pub struct HoldsLength;

impl<T> Rule<T, u64> for HoldsLength {
    ghost use Rattle.std.specs.Prelude.{[]};
    ghost use base.Fml.{ftrue};
    ghost use Rattle.stamped_desk.specs.Rules.{IsKept};

    ghost holds = { λ cells log. IsKept cells log };

    ghost first = { [] };

    ghost hinted = { λ n log. Unit {0} };

    ghost shows = { λ log. [] };

    ghost keeps = { λ names log. ftrue };

    ghost moves = { λ ask before after answer. Unit {0} };
}

/// Nothing is traded.
pub struct NoGain;

impl<T> Gain<T, u64> for NoGain {
    ghost use base.Fml.{ftrue};

    ghost after = { λ names about answer. ftrue };
}

/// The step that adds a value to the history.
pub struct Add;

impl<T> Play<T, u64> for Add {
    ghost use Rattle.stamped_desk.specs.Rules.{Adds};

    ghost then = { Adds };
}

impl<T> Plain<T, T, u64> for Add {
    ghost use Rattle.std.specs.Prelude.{None};

    ghost ask = { λ value. value };

    ghost state = { λ value. None };
}
