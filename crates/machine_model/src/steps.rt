//! The function and the relation of steps are one, and which events exclude each other.

ghost use Rattle.machine_model.specs.NextLaws.{StepsAreNext, TurnsExclude, TurnsAreSteps, SettledTells};

/// What the function gives is a step, and each step of a state that a new machine reaches is what it gives.
pub fn steps_are_next()
    ensures { StepsAreNext }
{}

/// Of the stroke's beginning, its end, its cancellation and the effect of another entry at most one may happen.
pub fn turns_exclude()
    ensures { TurnsExclude }
{}

/// A trace's step is the one of these that may happen, and its end of work that of a job or of a walk.
pub fn turns_are_steps()
    ensures { TurnsAreSteps }
{}

/// The test of a settled state tells whether it is settled.
pub fn settled_tells()
    ensures { SettledTells }
{}
