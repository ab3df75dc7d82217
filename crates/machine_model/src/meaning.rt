//! Once all is settled, the machine has made what the fed commands mean.

ghost use Rattle.machine_model.specs.MeaningLaws.{SettledHasMeaning, RunsHaveMeaning, NoDeadEnd};

/// An orderly state that is settled is what the fed commands mean one after another.
pub fn settled_has_meaning()
    ensures { SettledHasMeaning }
{}

/// So is every settled state of a run, in whatever order its events came.
pub fn runs_have_meaning()
    ensures { RunsHaveMeaning }
{}

/// A state that is neither settled nor waits for commands goes on.
pub fn no_dead_end()
    ensures { NoDeadEnd }
{}
