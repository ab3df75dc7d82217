//! What is proved of the definitions, as the contract of a function that does nothing.

ghost use Rattle.script_text.specs.Laws.{PrintedReadsBack};

/// The canonical text of every script has no fault, and says that very script.
pub fn printed_reads_back()
    ensures { PrintedReadsBack }
{}
