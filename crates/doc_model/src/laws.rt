//! What is proved of the definitions, each law as the contract of a function that does nothing.

ghost use Rattle.doc_model.specs.Laws.{LawsOfJobs, DabsStandBefore, JobsCommute, TilesCommute, ConflictsBothWays, UndoThenRedo, RedoThenUndo, UndoGivesBack, RefusedLeavesNothing, OneOutcomeAnEntry, ChangesKeepLimits, MeaningKeepsLimits};
ghost use Rattle.doc_model.specs.UpdateLaws.{QueuedKeepsPlaces, QueuedCovers};

/// What every job keeps to: outside its writes all stays, and inside them each pixel depends on
/// its reads alone.
pub fn job_laws()
    ensures { LawsOfJobs }
{}

/// The dabs of a track that stand on a segment, one each gap from its first point on, are just those
/// that stand before its end.
pub fn dabs_stand_before()
    ensures { DabsStandBefore }
{}

/// Jobs of which neither writes what the other reads commute.
pub fn jobs_commute()
    ensures { JobsCommute }
{}

/// And so do their tiles.
pub fn tiles_commute()
    ensures { TilesCommute }
{}

/// Whether two jobs conflict in a run does not depend on which of them comes first.
pub fn conflicts_both_ways()
    ensures { ConflictsBothWays }
{}

/// To undo and then redo changes nothing.
pub fn undo_then_redo()
    ensures { UndoThenRedo }
{}

/// To redo and then undo changes nothing.
pub fn redo_then_undo()
    ensures { RedoThenUndo }
{}

/// An undo right after a finished change gives back the document from before it.
pub fn undo_gives_back()
    ensures { UndoGivesBack }
{}

/// An entry that is cancelled or refused, an undo and a redo too, leaves nothing but its outcome.
pub fn refused_leaves_nothing()
    ensures { RefusedLeavesNothing }
{}

/// The meaning of entries has one outcome for each of them.
pub fn one_outcome_an_entry()
    ensures { OneOutcomeAnEntry }
{}

/// A change that is not refused keeps a document within the limits: each id once and never 0, at
/// most 256 nodes beside the root, and at most 16 levels.
pub fn changes_keep_limits()
    ensures { ChangesKeepLimits }
{}

/// Every document that entries reach, also by undo and redo, is within the limits.
pub fn meaning_keeps_limits()
    ensures { MeaningKeepsLimits }
{}

/// The list of updates that wait stays one of at most 64 patches, each in the canvas and in one
/// cell, no two of one walk in one cell.
pub fn queued_keeps_places()
    ensures { QueuedKeepsPlaces }
{}

/// A point that waits for a group goes on waiting when more is queued, and each point of the canvas
/// that is queued for a group waits for it from then on, also where the list is made new.
pub fn queued_covers()
    ensures { QueuedCovers }
{}
