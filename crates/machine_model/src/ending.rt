//! Every run ends where nothing more is fed.

ghost use Rattle.machine_model.specs.EndingLaws.{EventsAreSpent, RunsEnd};

/// Every event but Feed lessens the number of events that are left.
pub fn events_are_spent()
    ensures { EventsAreSpent }
{}

/// So a run without Feed has at most as many events as are left when it begins.
pub fn runs_end()
    ensures { RunsEnd }
{}
