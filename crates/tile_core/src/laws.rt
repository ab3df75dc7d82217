//! What the layers above rest on, each law as the contract of a function that does nothing.

ghost use Rattle.tile_core.specs.Laws.{FixedByPoints, SeenAfterPut};

/// Two tiles with the same pixel at each of the 4,096 points are one value.
pub fn fixed_by_points()
    ensures { FixedByPoints }
{}

/// After a put a shot has the tile's pixels at the points of the key, and what it had at all others.
pub fn seen_after_put()
    ensures { SeenAfterPut }
{}
