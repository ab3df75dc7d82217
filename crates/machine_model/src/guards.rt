//! Who is never at work beside whom.

ghost use Rattle.machine_model.specs.GuardLaws.{OnlyRunsShare, SharersMayStart, BarrierStartsClean, BarrierStaysClean, ExclusiveHasNoWalk, WalksNeverMeet, ExportWaits};

/// A sequential job and a barrier are at work alone, and so is a uniquely concurrent job among its like.
pub fn only_runs_share()
    ensures { OnlyRunsShare }
{}

/// Where the jobs at work and the next one may share, that one may start: concurrent jobs may be at
/// work beside each other, in as many slots as are free, and beside a uniquely concurrent one.
pub fn sharers_may_start()
    ensures { SharersMayStart }
{}

/// A barrier starts with no walk at work and none waiting, unless its stroke is exclusive.
pub fn barrier_starts_clean()
    ensures { BarrierStartsClean }
{}

/// As long as a barrier is at work no walk is and none waits, unless its stroke is exclusive.
pub fn barrier_stays_clean()
    ensures { BarrierStaysClean }
{}

/// While an exclusive stroke is under way no walk is at work.
pub fn exclusive_has_no_walk()
    ensures { ExclusiveHasNoWalk }
{}

/// The patches of walks at work never meet.
pub fn walks_never_meet()
    ensures { WalksNeverMeet }
{}

/// An export takes effect only where nothing is at work and nothing waits.
pub fn export_waits()
    ensures { ExportWaits }
{}
