//! What every book keeps to, each law as the contract of a function that does nothing.

ghost use Rattle.memento_core.specs.Laws.{BackAgain, BackToBegin, ForthAgain, IndexBegins, IndexGrows, KeysStay};

/// To roll back and then forward gives back book and plane, and so does to roll forward and then back.
pub fn rolls_back_and_forth<T>()
    ensures forth_again { ForthAgain T }
    ensures back_again { BackAgain T }
{}

/// To roll back a committed transaction gives back the plane from before it began, where what stood
/// under each changed key was noted before the change.
pub fn rolls_back_to_begin<T>()
    ensures begins { IndexBegins T }
    ensures grows { IndexGrows T }
    ensures back { BackToBegin T }
{}

/// An exchange takes no key away.
pub fn exchange_keeps_keys<T>()
    ensures { KeysStay T }
{}
