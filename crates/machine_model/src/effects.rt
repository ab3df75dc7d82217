//! What the events do, and what they leave alone.

ghost use Rattle.machine_model.specs.EffectLaws.{JobsStartInOrder, PublishStaysInTile, EndQueues, CancelPutsBack, WalkStaysInTile};

/// Jobs start in the order of their list, each with the layer's pixels of now on its reads.
pub fn jobs_start_in_order()
    ensures { JobsStartInOrder }
{}

/// A publish changes the stroke's layer alone, and there only points of the job's writes in that tile.
pub fn publish_stays_in_tile()
    ensures { PublishStaysInTile }
{}

/// A job that ends queues each canvas point of its writes for the layer's group and those above it.
pub fn end_queues()
    ensures { EndQueues }
{}

/// A cancelled stroke leaves the document from before it, and only an outcome.
pub fn cancel_puts_back()
    ensures { CancelPutsBack }
{}

/// A walk's publish changes one group's cache alone, and there only points of its patch in that tile.
pub fn walk_stays_in_tile()
    ensures { WalkStaysInTile }
{}
