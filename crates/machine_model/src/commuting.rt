//! Jobs that may be at work side by side commute.

ghost use Rattle.machine_model.specs.CommutingLaws.{RunCommutes, RunTilesCommute, PublishesCommute};

/// Two jobs of one run that are not both uniquely concurrent commute.
pub fn run_commutes()
    ensures { RunCommutes }
{}

/// So do their tiles, also where both publish into one tile.
pub fn run_tiles_commute()
    ensures { RunTilesCommute }
{}

/// Two publishes into one layer may happen in either order, and leave the same state.
pub fn publishes_commute()
    ensures { PublishesCommute }
{}
