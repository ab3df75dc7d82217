//! Damage that is often all there can be.

ghost use Rattle.std.specs.Prelude.{◌≡◌, true, IfSome};
ghost use Rattle.geom_core.specs.Areas.{holds, Point};
ghost use Rattle.geom_core.specs.Grid.{key_of, tile};
ghost use Rattle.geom_core.specs.Rects.{IsWithin};
ghost use Rattle.frame_core.specs.Marks.{on_canvas};
ghost use Rattle.frame_core.specs.Damage.{intact, is_damaged, part_at};
ghost use Rattle.desk_core.specs.Spreading.{Damages, Forgets};

use frame_core::Damage;
use geom_core::{Rect, TileKey};
use std::marker::Model;

/// The damaged parts of the tiles of a canvas, and whether it is known that all points of the largest
/// canvas are damaged: then damage costs nothing more.
#[derive(Drop)]
pub(crate) struct Spread {
    parts: Damage,
    is_all: bool,
}

impl Model for Spread {
    ghost use Rattle.frame_core.specs.Damage.{Parts};

    ghost Value = { Parts };

    ghost use Rattle.desk_core.specs.UpToDate.{IsAll};

    ghost view = { λ s. s.parts };

    ghost invariant = { λ s. IsAll s.is_all s.parts };
}

impl Spread {
    /// Nothing is damaged.
    pub(crate) fn none() -> Spread
        ensures { result ≡ intact }
    {
        Spread {
            parts: Damage::none(),
            is_all: false,
        }
    }

    /// The damaged part of the key's tile.
    pub(crate) fn part(&self, key: TileKey) -> Option<Rect>
        ensures value { result ≡ part_at self.now key }
        ensures inside { IfSome result (λ a. IsWithin a (tile key)) }
    {
        self.parts.part(key)
    }

    /// The points of the rectangles are damaged too.
    pub(crate) fn add_all(&mut self, rects: &[Rect])
        ensures { Damages self.old rects.now self.new }
    {
        if !self.is_all {
            damage_all(&mut self.parts, rects);
        }
    }

    /// Nothing is damaged any more.
    pub(crate) fn clear(&mut self)
        ensures { self.new ≡ intact }
    {
        *self = Spread::none();
    }

    /// All points of the largest canvas are damaged.
    pub(crate) fn fill(&mut self)
        ensures { (p : Point) → on_canvas (key_of p) ≡ true → is_damaged self.new p ≡ true }
    {
        if !self.is_all {
            *self = Spread {
                parts: Damage::all(),
                is_all: true,
            };
        }
    }

    /// In the rectangle nothing on the canvas is damaged any more, but where a tile has a damaged part
    /// that goes beyond it.
    pub(crate) fn clear_in(&mut self, canvas: &Rect, rect: &Rect)
        ensures { Forgets canvas.now (λ p. holds rect.now p ≡ true) self.old self.new }
    {
        *self = Spread {
            parts: damage_beyond(canvas, &self.parts, rect),
            is_all: false,
        };
    }
}

/// The points of the rectangles are damaged too.
fn damage_all(damage: &mut Damage, rects: &[Rect])
    ensures { Damages damage.old rects.now damage.new }
{
    for rect in rects {
        damage.add(rect);
    }
}

/// The damaged parts that go beyond a rectangle, on the tiles of the canvas.
fn damage_beyond(canvas: &Rect, damage: &Damage, rect: &Rect) -> Damage
    ensures { Forgets canvas.now (λ p. holds rect.now p ≡ true) damage.now result }
{
    let mut left = Damage::none();
    for i in 0..canvas.tile_count() {
        if let Some(part) = damage.part(canvas.tile_at(i)) {
            if !part.lies_in(rect) {
                left.add(&part);
            }
        }
    }
    left
}
