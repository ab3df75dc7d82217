//! What a rectangle has beyond another.

ghost use Rattle.std.specs.Prelude.{◌≡◌, ◌||◌, ℤ, true, IsTrue, ◌↔◌};
ghost use Rattle.geom_core.specs.Areas.{holds, Point};
ghost use Rattle.geom_core.specs.Rects.{IsWithin};
ghost use Rattle.walker_core.specs.Spans.{IsAlong, IsPartOf, IsSpan, spans};

use geom_core::{CORNER, Rect};

/// Columns or rows of the world one after another, which count from its corner: from the first to before the last.
#[derive(Clone, Copy)]
struct Span {
    from: u32,
    to: u32,
}

/// The columns of a rectangle.
fn columns(rect: &Rect) -> Span
    ensures known { IsSpan result }
    ensures along { IsAlong result rect.now.x rect.now.w }
{
    let from = rect.left();
    Span {
        from,
        to: from + rect.w(),
    }
}

/// The rows of a rectangle.
fn rows(rect: &Rect) -> Span
    ensures known { IsSpan result }
    ensures along { IsAlong result rect.now.y rect.now.h }
{
    let from = rect.top();
    Span {
        from,
        to: from + rect.h(),
    }
}

/// The rectangle of these columns and rows.
fn rect_of(across: Span, down: Span) -> Rect
    requires across { IsSpan across }
    requires down { IsSpan down }
    ensures across { IsAlong across result.x result.w }
    ensures down { IsAlong down result.y result.h }
{
    let x = across.from as i32 - CORNER;
    let y = down.from as i32 - CORNER;
    Rect::new(x, y, across.to - across.from, down.to - down.from).unwrap()
}

impl Span {
    /// Whether all of it are the other's too.
    fn lies_in(self, other: Span) -> bool
        ensures { IsTrue result ↔ IsPartOf self other }
    {
        other.from <= self.from && self.to <= other.to
    }

    /// A part that has all of it but such as the other has: what is left beyond the other where that reaches over one
    /// end, else all of it.
    fn beyond(self, other: Span) -> Span
        requires { IsSpan self }
        ensures known { IsSpan result }
        ensures within { IsPartOf result self }
        ensures all { (x : ℤ) → spans self x ≡ true → (spans result x || spans other x) ≡ true }
    {
        if other.from <= self.from && self.from < other.to && other.to < self.to {
            return Span {
                from: other.to,
                to: self.to,
            };
        }
        if self.from < other.from && other.from < self.to && self.to <= other.to {
            return Span {
                from: self.from,
                to: other.from,
            };
        }
        self
    }
}

/// A part of a rectangle that has all its points but such as another has: what is left of it where the other reaches
/// over one of its sides, else all of it.
pub(crate) fn lacking(part: &Rect, known: &Rect) -> Rect
    ensures within { IsWithin result part.now }
    ensures all { (p : Point) → holds part.now p ≡ true
        → (holds result p || holds known.now p) ≡ true }
{
    let (across, down) = (columns(part), rows(part));
    let (known_across, known_down) = (columns(known), rows(known));
    if down.lies_in(known_down) {
        return rect_of(across.beyond(known_across), down);
    }
    if across.lies_in(known_across) {
        return rect_of(across, down.beyond(known_down));
    }
    *part
}
