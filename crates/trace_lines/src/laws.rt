//! What a trace without a fault is, and that what is printed is such a trace.

ghost use Rattle.trace_lines.specs.ReplayLaws.{ReplayedRuns};
ghost use Rattle.trace_lines.specs.PrintLaws.{PrintedReplays};

/// A trace without a fault is a run of the machine that settles, and its last state is what the fed commands mean.
pub fn replayed_runs()
    ensures { ReplayedRuns }
{}

/// The text of lines that may happen one after another, and leave nothing to do, is a trace without a
/// fault, whose last state is the one that they lead to.
pub fn printed_replays()
    ensures { PrintedReplays }
{}
