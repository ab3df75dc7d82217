//! What the layers above rest on, each law as the contract of a function that does nothing.

ghost use Rattle.frame_core.specs.Laws.{ShownAfterPut, PaperWhereNothing};

/// After a put a frame shows the tile on the paper at the points of the key, and what it showed at
/// all others.
pub fn shown_after_put()
    ensures { ShownAfterPut }
{}

/// Where nothing was put a frame shows its paper.
pub fn paper_where_nothing()
    ensures { PaperWhereNothing }
{}
