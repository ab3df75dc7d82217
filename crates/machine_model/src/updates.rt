//! What waits for a group goes on waiting.

ghost use Rattle.machine_model.specs.UpdateLaws.{GroupsWait};

/// A point that waits for a group goes on waiting as more is queued, also where the list is replaced.
pub fn groups_wait()
    ensures { GroupsWait }
{}
