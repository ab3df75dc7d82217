//! What is proved of the definitions, each law as the contract of a function that does nothing.

ghost use Rattle.brush_mask.specs.Laws.{LawsOfTheCircle, LawsOfTheSides, LawsOfHardness};

/// A mask is 0 outside its circle and full at the centre.
pub fn laws_of_the_circle()
    ensures { LawsOfTheCircle }
{}

/// It is the same on all eight sides.
pub fn laws_of_the_sides()
    ensures { LawsOfTheSides }
{}

/// A hard mask is nothing or full, and a soft one is nowhere stronger.
pub fn laws_of_hardness()
    ensures { LawsOfHardness }
{}
