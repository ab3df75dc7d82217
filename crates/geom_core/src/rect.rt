//! Rectangles of the world.
ghost use Rattle.std.specs.Prelude.{IfSome, IfNone, false, length, slice_get, Some, ◌/◌, ◌%◌, ◌*◌, nat_abs, ◌<ℤ◌, ◌⊎◌, MatchOption, negsuc, ◌≡◌, ℕ, ◌<◌, ◌≤◌, ◌+◌, ◌-◌, true, ◌&&◌, nat_lt, nat_le, ℤ, pos, ◌-ℤ◌, ◌+ℤ◌, ◌≤ℤ◌, int_le, int_lt, IfOk, OnOk, OnErr, MatchResult, SomeIff};
ghost use Rattle.geom_core.specs.Overlaps.{common, clipped, bound};
ghost use Rattle.geom_core.specs.Exchanged.{widened};
ghost use Rattle.geom_core.specs.Rects.{IsShared, place_in, IsRect, IsInWorld};
ghost use Rattle.geom_core.specs.Areas.{Point, point, Area, area, holds, meets, lies_in, moved, right, bottom, world};
ghost use Rattle.geom_core.specs.Grid.{keys_of, cell, key};
ghost use Rattle.geom_core.specs.Cells.{cells_of};
ghost use Rattle.geom_core.specs.Keys.{IsWorldKey};
ghost use Rattle.geom_core.specs.Place.{IsOffset};

use crate::{OutOfWorld, TileKey};
use std::marker::Model;

/// How far the world's corner lies to the left of 0 and above it.
pub const CORNER: i32 = 16384;

/// How many columns, and how many rows, the world has: x and y go from -16384 to 16383.
pub const WORLD_SIDE: u32 = 32768;

/// A rectangle of the world with at least one point. Contracts see it as an `Area`: the point of
/// its upper left corner, and how many columns and rows it has.
#[derive(Clone, Copy, Debug)]
pub struct Rect {
    left: u32,
    top: u32,
    w: u32,
    h: u32,
}

impl Model for Rect {
    ghost use Rattle.std.specs.Prelude.{◌≤◌, ◌+◌};
    ghost use Rattle.geom_core.specs.Areas.{Area};

    ghost Value = { Area };

    ghost use Rattle.geom_core.specs.Place.{seen, kept, kept-seen};

    ghost view = { seen };

    ghost invariant = { λ r. (1 ≤ r.w) × (1 ≤ r.h) × (r.left + r.w ≤ 32768) × (r.top + r.h ≤ 32768) };

    ghost inverse = { kept };

    ghost inverse_ok = { λ a h. kept-seen a };
}

impl PartialEq for Rect {
    ghost use Rattle.std.specs.Cmp.{partial_equiv_from_equiv};
    ghost use Rattle.geom_core.specs.Same.{same_area, same_area_equiv};

    ghost eq = { same_area };

    ghost laws = { partial_equiv_from_equiv same_area_equiv };

    fn eq(&self, other: &Rect) -> bool {
        self.left == other.left && self.top == other.top && self.w == other.w && self.h == other.h
    }
}

impl Eq for Rect {
    ghost use Rattle.geom_core.specs.Same.{same_area_equiv};

    ghost laws = { same_area_equiv };
}

/// The point (0, 0) alone. It fills the unused places of lists of a fixed capacity.
impl Default for Rect {
    ghost is_default = { λ r. r ≡ area (pos 0) (pos 0) 1 1 };

    fn default() -> Rect {
        Rect {
            left: CORNER as u32,
            top: CORNER as u32,
            w: 1,
            h: 1,
        }
    }
}

impl Rect {
    /// The rectangle of w columns from x on and h rows from y on, each 1 to 32,768.
    /// `OutOfWorld` exactly where a corner point lies outside the world.
    pub fn new(x: i32, y: i32, w: u32, h: u32) -> Result<Rect, OutOfWorld>
        requires w { 1 ≤ w × w ≤ 32768 }
        requires h { 1 ≤ h × h ≤ 32768 }
        ensures ok { IfOk result (λ r. r ≡ area x y w h) }
        ensures inside { OnOk result (IsInWorld (area x y w h)) }
        ensures outside { OnErr result (IsInWorld (area x y w h) → ⊥) }
    {
        if x < -CORNER || y < -CORNER || x >= CORNER || y >= CORNER {
            return Err(OutOfWorld);
        }
        let left = (x + CORNER) as u32;
        let top = (y + CORNER) as u32;
        if left + w > WORLD_SIDE || top + h > WORLD_SIDE {
            return Err(OutOfWorld);
        }
        Ok(Rect { left, top, w, h })
    }

    /// How many columns of the world lie to the left of it.
    pub fn left(&self) -> u32
        ensures value { IsOffset result self.now.x }
        ensures small { result + self.now.w ≤ 32768 }
    {
        self.left
    }

    /// How many rows of the world lie above it.
    pub fn top(&self) -> u32
        ensures value { IsOffset result self.now.y }
        ensures small { result + self.now.h ≤ 32768 }
    {
        self.top
    }

    /// Its leftmost column.
    pub fn x(&self) -> i32
        ensures value { result ≡ self.now.x }
        ensures low { world.x ≤ℤ result }
        ensures high { result ≤ℤ pos 16383 }
    {
        self.left as i32 - CORNER
    }

    /// Its topmost row.
    pub fn y(&self) -> i32
        ensures value { result ≡ self.now.y }
        ensures low { world.y ≤ℤ result }
        ensures high { result ≤ℤ pos 16383 }
    {
        self.top as i32 - CORNER
    }

    /// How many columns it has.
    pub fn w(&self) -> u32
        ensures value { result ≡ self.now.w }
        ensures some { 1 ≤ result }
        ensures small { result ≤ 32768 }
    {
        self.w
    }

    /// How many rows it has.
    pub fn h(&self) -> u32
        ensures value { result ≡ self.now.h }
        ensures some { 1 ≤ result }
        ensures small { result ≤ 32768 }
    {
        self.h
    }

    /// How many points it has.
    pub fn points(&self) -> u64
        ensures { result ≡ self.now.w * self.now.h }
    {
        u64::from(self.w) * u64::from(self.h)
    }

    /// Whether it holds the point (x, y).
    pub fn holds(&self, x: i32, y: i32) -> bool
        ensures { result ≡ holds self.now (point x y) }
    {
        within(self.left, self.w, x) && within(self.top, self.h, y)
    }

    /// Whether the two have a point in common.
    pub fn meets(&self, other: &Rect) -> bool
        ensures { result ≡ meets self.now other.now }
    {
        crosses(self.left, self.w, other.left, other.w)
            && crosses(self.top, self.h, other.top, other.h)
    }

    /// Whether all points of it are the other's too.
    pub fn lies_in(&self, other: &Rect) -> bool
        ensures { result ≡ lies_in self.now other.now }
    {
        spanned(self.left, self.w, other.left, other.w)
            && spanned(self.top, self.h, other.top, other.h)
    }

    /// The common points. None exactly where there are none.
    pub fn clip(&self, other: &Rect) -> Option<Rect>
        ensures value { result ≡ clipped self.now other.now }
        ensures shared { IfSome result (IsShared self.now other.now) }
        ensures apart { IfNone result ((p : Point) → holds self.now p ≡ true → holds other.now p
            ≡ false) }
    {
        if self.meets(other) {
            Some(self.common_part(other))
        } else {
            None
        }
    }

    /// The common points of two rectangles that have some.
    fn common_part(&self, other: &Rect) -> Rect
        requires { meets self.now other.now ≡ true }
        ensures value { result ≡ common self.now other.now }
        ensures shared { IsShared self.now other.now result }
    {
        let left = self.left.max(other.left);
        let top = self.top.max(other.top);
        let w = (self.left + self.w).min(other.left + other.w) - left;
        let h = (self.top + self.h).min(other.top + other.h) - top;
        Rect { left, top, w, h }
    }

    /// The rectangle moved by (dx, dy), each -32,767 to 32,767.
    /// `OutOfWorld` exactly where a corner point lies outside the world then.
    pub fn moved(&self, dx: i32, dy: i32) -> Result<Rect, OutOfWorld>
        requires dx { negsuc 32766 ≤ℤ dx × dx ≤ℤ pos 32767 }
        requires dy { negsuc 32766 ≤ℤ dy × dy ≤ℤ pos 32767 }
        ensures ok { IfOk result (λ r. r ≡ moved self.now dx dy) }
        ensures inside { OnOk result (IsInWorld (moved self.now dx dy)) }
        ensures outside { OnErr result (IsInWorld (moved self.now dx dy) → ⊥) }
    {
        let Some(left) = shifted(self.left, self.w, dx) else {
            return Err(OutOfWorld);
        };
        let Some(top) = shifted(self.top, self.h, dy) else {
            return Err(OutOfWorld);
        };
        Ok(Rect {
            left,
            top,
            w: self.w,
            h: self.h,
        })
    }

    /// The least rectangle round both.
    pub fn bound(&self, other: &Rect) -> Rect
        ensures { result ≡ bound self.now other.now }
    {
        let left = self.left.min(other.left);
        let top = self.top.min(other.top);
        let w = (self.left + self.w).max(other.left + other.w) - left;
        let h = (self.top + self.h).max(other.top + other.h) - top;
        Rect { left, top, w, h }
    }

    /// The least rectangle round some rectangles and one more, where `some` is the one round those.
    /// None stands for no rectangle.
    pub fn round(some: Option<Rect>, more: &Rect) -> Rect
        ensures { result ≡ widened some more.now }
    {
        match some {
            Some(some) => some.bound(more),
            None => *more,
        }
    }
}

impl Rect {
    /// Where a point of it stands among its points in row order, from 0.
    pub fn place(&self, x: i32, y: i32) -> usize
        requires { holds self.now (point x y) ≡ true }
        ensures value { result ≡ place_in self.now (point x y) }
        ensures inside { result < self.now.h * self.now.w }
    {
        let row = behind(self.top, self.h, y) as usize;
        let col = behind(self.left, self.w, x) as usize;
        row * self.w as usize + col
    }

    /// How many tiles of 64 by 64 points it meets.
    pub fn tile_count(&self) -> u32
        ensures value { result ≡ length (keys_of self.now) }
        ensures small { result ≤ 262144 }
    {
        let cols = pieces(self.left, self.w);
        let rows = pieces(self.top, self.h);
        cols * rows
    }

    /// The tile at place i, from 0, of those that it meets, in row order.
    pub fn tile_at(&self, i: u32) -> TileKey
        requires { i < length (keys_of self.now) }
        ensures value { slice_get (keys_of self.now) i ≡ Some result }
        ensures world { IsWorldKey result }
    {
        let cols = pieces(self.left, self.w);
        let (col, row) = spot_of(i, cols);
        TileKey::from_corner(self.left / 64 + col, self.top / 64 + row)
    }

    /// The tile of a column and a row, which count from the world's corner.
    pub(crate) fn of_tile(col: u32, row: u32) -> Rect
        requires col { col < 512 }
        requires row { row < 512 }
        ensures { result ≡ area (pos (64 * col) -ℤ pos 16384) (pos (64 * row) -ℤ pos 16384) 64 64 }
    {
        Rect {
            left: 64 * col,
            top: 64 * row,
            w: 64,
            h: 64,
        }
    }
}

impl Rect {
    /// How many cells it meets. Cells have 256 by 256 points, with corners at multiples of 256.
    pub fn cell_count(&self) -> u32
        ensures value { result ≡ length (cells_of self.now) }
        ensures some { 1 ≤ result }
        ensures small { result ≤ 16384 }
    {
        let cols = cells_along(self.left, self.w);
        let rows = cells_along(self.top, self.h);
        cols * rows
    }

    /// Its part in the cell at place i, from 0, of those that it meets, in row order.
    pub fn cell_at(&self, i: u32) -> Rect
        requires { i < length (cells_of self.now) }
        ensures { slice_get (cells_of self.now) i ≡ Some result }
    {
        let cols = cells_along(self.left, self.w);
        let cell = Rect::of_cell(self.left / 256 + i % cols, self.top / 256 + i / cols);
        self.common_part(&cell)
    }

    /// The cell of a column and a row, which count from the world's corner.
    fn of_cell(col: u32, row: u32) -> Rect
        requires col { col < 128 }
        requires row { row < 128 }
        ensures { result ≡ cell (key (pos col -ℤ pos 64) (pos row -ℤ pos 64)) }
    {
        Rect {
            left: 256 * col,
            top: 256 * row,
            w: 256,
            h: 256,
        }
    }
}

/// Whether x is one of the n numbers from a on, which counts from the world's edge.
fn within(a: u32, n: u32, x: i32) -> bool
    requires { a + n ≤ 32768 }
    ensures { result ≡ (int_le (pos a -ℤ pos 16384) x && int_lt x ((pos a -ℤ pos 16384) +ℤ pos n)) }
{
    a as i32 - CORNER <= x && x < a as i32 - CORNER + n as i32
}

/// Whether the n numbers from a on and the m from b on have one in common.
fn crosses(a: u32, n: u32, b: u32, m: u32) -> bool
    requires first { a + n ≤ 32768 }
    requires second { b + m ≤ 32768 }
    ensures { result ≡ (nat_lt a (b + m) && nat_lt b (a + n)) }
{
    a < b + m && b < a + n
}

/// Whether the n numbers from a on, which counts from the world's edge, are among the m from b on.
fn spanned(a: u32, n: u32, b: u32, m: u32) -> bool
    requires first { a + n ≤ 32768 }
    requires second { b + m ≤ 32768 }
    ensures { result ≡ (int_le (pos b -ℤ pos 16384) (pos a -ℤ pos 16384) && int_le
        ((pos a -ℤ pos 16384) +ℤ pos n) ((pos b -ℤ pos 16384) +ℤ pos m)) }
{
    b <= a && a + n <= b + m
}

/// Where the n numbers from a on, which count from the world's edge, begin after they are moved by d.
/// None where some of them are outside then.
fn shifted(a: u32, n: u32, d: i32) -> Option<u32>
    requires inside { a + n ≤ 32768 }
    requires d { negsuc 32766 ≤ℤ d × d ≤ℤ pos 32767 }
    ensures { MatchOption result ((pos a +ℤ d) <ℤ pos 0 ⊎ pos (32768 - n) <ℤ (pos a +ℤ d))
        (λ b. (pos b ≡ pos a +ℤ d) × (b + n ≤ 32768)) }
{
    let b = a as i32 + d;
    if b < 0 || b > 32768 - n as i32 {
        return None;
    }
    Some(b as u32)
}

/// How far x lies behind a, which counts from the world's edge.
fn behind(a: u32, n: u32, x: i32) -> u32
    requires inside { a + n ≤ 32768 }
    requires held { (int_le (pos a -ℤ pos 16384) x && int_lt x ((pos a -ℤ pos 16384) +ℤ pos n))
        ≡ true }
    ensures value { result ≡ nat_abs (x -ℤ (pos a -ℤ pos 16384)) }
    ensures small { result < n }
{
    (x + CORNER) as u32 - a
}

/// How many pieces of 64 the n numbers from a on meet.
fn pieces(a: u32, n: u32) -> u32
    requires some { 1 ≤ n }
    requires inside { a + n ≤ 32768 }
    ensures value { result ≡ (a + n - 1) / 64 + 1 - a / 64 }
    ensures some { 1 ≤ result }
    ensures inside { a / 64 + result ≤ 512 }
{
    (a + n - 1) / 64 + 1 - a / 64
}

/// The column and the row of place i, from 0, in rows of n places. The first row costs no division.
fn spot_of(i: u32, n: u32) -> (u32, u32)
    requires { 1 ≤ n }
    ensures col { result.0 ≡ i % n }
    ensures row { result.1 ≡ i / n }
{
    if i < n { (i, 0) } else { (i % n, i / n) }
}

/// How many pieces of 256 the n numbers from a on meet.
fn cells_along(a: u32, n: u32) -> u32
    requires some { 1 ≤ n }
    requires inside { a + n ≤ 32768 }
    ensures value { result ≡ (a + n - 1) / 256 + 1 - a / 256 }
    ensures some { 1 ≤ result }
    ensures inside { a / 256 + result ≤ 128 }
{
    (a + n - 1) / 256 + 1 - a / 256
}
