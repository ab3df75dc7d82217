//! What is proved of the definitions, each law as the contract of a function that does nothing.
ghost use Rattle.geom_core.specs.Laws.{BoundIsLeast, KeyIsOfHolder, TilesAreMet, CellsAreMet, PartsAreCells};

/// The bounding rectangle of two is the least rectangle that has the points of both.
pub fn bound_is_least()
    ensures { BoundIsLeast }
{}

/// A point has a key exactly where that key's tile holds it.
pub fn key_is_of_holder()
    ensures { KeyIsOfHolder }
{}

/// The tiles of a rectangle are just those that it meets, each once, in row order.
pub fn tiles_are_met()
    ensures { TilesAreMet }
{}

/// The cells of a rectangle are just those that it meets, each once, in row order, and its parts
/// in them have just its points.
pub fn cells_are_met()
    ensures { CellsAreMet }
{}

/// In the largest canvas, 2048 by 2048 points from (0, 0) on, the parts of a rectangle by the
/// canvas's 64 cells are its parts by all cells of the world.
pub fn parts_are_cells()
    ensures { PartsAreCells }
{}
