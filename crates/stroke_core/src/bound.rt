//! Rectangles round all that jobs read and write, edge by edge, so that one is compared with many
//! at once.

ghost use Rattle.std.specs.Prelude.{◌≡◌, ◌≢◌, ℕ, ◌≤◌, ◌<◌, ◌&&◌, nat_le, false, Some, All, length, slice_get};
ghost use Rattle.geom_core.specs.Areas.{Area};
ghost use Rattle.stroke_core.specs.Bounds.{LiesIn, near, bound_at};

use geom_core::Rect;

/// A rectangle by its first and last columns and rows, which count from the world's corner. Those
/// of the world are at most 32,767.
#[derive(Clone, Copy)]
pub(crate) struct Bound {
    pub(crate) left: u16,
    pub(crate) right: u16,
    pub(crate) top: u16,
    pub(crate) bottom: u16,
}

impl Bound {
    /// The bound of nothing: its first column and row lie behind its last.
    pub(crate) fn nothing() -> Bound {
        Bound {
            left: u16::MAX,
            right: 0,
            top: u16::MAX,
            bottom: 0,
        }
    }

    /// The least that has these rectangles too.
    pub(crate) fn with_all(self, rects: &[Rect]) -> Bound
        ensures more { All (LiesIn result) rects.now }
        ensures kept { (a : Area) → LiesIn self a → LiesIn result a }
    {
        let mut bound = self;
        for rect in rects {
            bound = bound.joined(Bound::of(rect));
        }
        bound
    }

    /// That of one rectangle.
    fn of(rect: &Rect) -> Bound
        ensures { LiesIn result rect.now }
    {
        Bound {
            left: rect.left() as u16,
            right: (rect.left() + rect.w() - 1) as u16,
            top: rect.top() as u16,
            bottom: (rect.top() + rect.h() - 1) as u16,
        }
    }

    /// The least that has all of both.
    pub(crate) fn joined(self, other: Bound) -> Bound
        ensures kept { (a : Area) → LiesIn self a → LiesIn result a }
        ensures more { (a : Area) → LiesIn other a → LiesIn result a }
    {
        Bound {
            left: self.left.min(other.left),
            right: self.right.max(other.right),
            top: self.top.min(other.top),
            bottom: self.bottom.max(other.bottom),
        }
    }

    /// Whether the two have a point in common.
    pub(crate) fn is_near(self, other: Bound) -> bool
        ensures { result ≡ near self other }
    {
        let across = crosses(self.left, self.right, other.left, other.right);
        let down = crosses(self.top, self.bottom, other.top, other.bottom);
        across & down
    }
}

/// The first place from that one on whose bound has a point in common with that bound, or else the
/// number of places.
pub(crate) fn next_near(bounds: &[Bound], from: usize, bound: Bound) -> usize
    requires { from ≤ length bounds.now }
    ensures later { from ≤ result }
    ensures inside { result ≤ length bounds.now }
    ensures passed { (k : ℕ) (b : Bound) → from ≤ k → k < result → slice_get bounds.now k ≡ Some b
        → near b bound ≡ false }
{
    for i in from..bounds.len() {
        if bounds[i].is_near(bound) {
            return i;
        }
    }
    bounds.len()
}

/// Whether one of the bounds at these places has a point in common with that bound. It goes through
/// all of them, with no branch.
pub(crate) fn any_near(
    lefts: &[u16],
    rights: &[u16],
    tops: &[u16],
    bottoms: &[u16],
    from: usize,
    to: usize,
    bound: Bound,
) -> bool
    requires ascending { from ≤ to }
    requires lefts { to ≤ length lefts.now }
    requires rights { to ≤ length rights.now }
    requires tops { to ≤ length tops.now }
    requires bottoms { to ≤ length bottoms.now }
    ensures { result ≡ false → (k : ℕ) → from ≤ k → k < to
        → near (bound_at lefts.now rights.now tops.now bottoms.now k) bound ≡ false }
{
    let mut found = false;
    for i in from..to {
        let across = crosses(lefts[i], rights[i], bound.left, bound.right);
        let down = crosses(tops[i], bottoms[i], bound.top, bound.bottom);
        found = found | (across & down);
    }
    found
}

/// Whether the numbers from a to b and those from c to d have one in common.
#[inline]
fn crosses(a: u16, b: u16, c: u16, d: u16) -> bool
    ensures { result ≡ (nat_le a d && nat_le c b) }
{
    (a <= d) & (c <= b)
}
