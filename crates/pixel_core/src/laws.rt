//! What is proved of the definitions, each law as the contract of a function that does nothing.

ghost use Rattle.pixel_core.specs.Laws.{LawsOfMul, StaysCanonical, UnseenLeaves, OpaqueHides, OnClear, OpaqueErases};

/// Products of fractions: 1 leaves all, 0 leaves nothing, neither order nor size surprises.
pub fn laws_of_mul()
    ensures { LawsOfMul }
{}

/// Canonical pixels compose to a canonical one.
pub fn stays_canonical()
    ensures { StaysCanonical }
{}

/// A source without alpha, or with strength 0, leaves the destination, by every operation.
pub fn unseen_leaves()
    ensures { UnseenLeaves }
{}

/// An opaque source at full strength hides what it is laid over.
pub fn opaque_hides()
    ensures { OpaqueHides }
{}

/// On a clear destination a source at full strength is as it is, except where it erases.
pub fn on_clear()
    ensures { OnClear }
{}

/// An opaque source at full strength erases all.
pub fn opaque_erases()
    ensures { OpaqueErases }
{}
