//! Some of the tiles of a walk's patch.

ghost use Rattle.std.specs.Prelude.{◌≡◌, ◌≤◌, ◌<◌, ◌++◌, ◌↔◌, IsTrue, Some, length, slice_get};
ghost use Rattle.geom_core.specs.Grid.{keys_of};
ghost use Rattle.geom_core.specs.Keys.{IsWorldKey};
ghost use Rattle.host_pieces.specs.Parts.{area_of};

use geom_core::{Rect, TileKey};
use std::marker::Model;

/// Those tiles of a rectangle, in row order, that lie from one place on, up to another. Contracts see the rectangle
/// and the tiles.
#[derive(Drop)]
pub(crate) struct Part {
    rect: Rect,
    from: u32,
    to: u32,
}

impl Model for Part {
    ghost use Rattle.host_pieces.specs.Parts.{Tiles, tiles_code};

    ghost Value = { Tiles };

    ghost coded = { tiles_code };

    ghost use Rattle.std.specs.Prelude.{◌≤◌, length};
    ghost use Rattle.geom_core.specs.Grid.{keys_of};
    ghost use Rattle.host_pieces.specs.Parts.{tiles_between};

    ghost view = { λ p. tiles_between p.rect p.from p.to };

    ghost invariant = { λ p. (p.from ≤ p.to) × (p.to ≤ length (keys_of p.rect)) × (p.to ≤ 262144) };
}

impl Part {
    /// All tiles of a rectangle.
    pub(crate) fn whole(rect: Rect) -> Part
        ensures rect { result.rect ≡ rect }
        ensures keys { result.keys ≡ keys_of rect }
    {
        Part {
            rect,
            from: 0,
            to: rect.tile_count(),
        }
    }

    /// How many tiles there are.
    pub(crate) fn len(&self) -> u32
        ensures { result ≡ length self.now.keys }
    {
        self.to - self.from
    }

    /// The tile at place i, from 0.
    pub(crate) fn tile_at(&self, i: u32) -> TileKey
        requires { i < length self.now.keys }
        ensures value { slice_get self.now.keys i ≡ Some result }
        ensures world { IsWorldKey result }
    {
        self.rect.tile_at(self.from + i)
    }

    /// Whether they are all of the rectangle's.
    pub(crate) fn is_whole(&self) -> bool
        ensures { IsTrue result ↔ (self.now.keys ≡ keys_of self.now.rect) }
    {
        self.len() == self.rect.tile_count()
    }

    /// What the rectangle has of the least one round these tiles.
    pub(crate) fn area(&self) -> Option<Rect>
        ensures { result ≡ area_of self.now }
    {
        let mut round = None;
        for i in 0..self.len() {
            round = Some(Rect::round(round, &self.tile_at(i).rect()));
        }
        match round {
            Some(round) => self.rect.clip(&round),
            None => None,
        }
    }

    /// Lets the last tiles go, so many, as another part.
    pub(crate) fn split_off(&mut self, count: u32) -> Part
        requires { count ≤ length self.old.keys }
        ensures keys { self.old.keys ≡ self.new.keys ++ result.keys }
        ensures count { length result.keys ≡ count }
        ensures rect { result.rect ≡ self.old.rect }
        ensures same { self.new.rect ≡ self.old.rect }
    {
        let to = self.to;
        self.to -= count;
        Part {
            rect: self.rect,
            from: self.to,
            to,
        }
    }
}
