//! What ties the caches to the machine, as the contract of a function that does nothing.

ghost use Rattle.group_caches.specs.Laws.{PublishLeaves};

/// What the machine's caches are after a walk published a tile of a group is what `put` makes of them,
/// with the walk's value of the group at each point.
pub fn published_picture()
    ensures { PublishLeaves }
{}
