//! Damaged parts of the tiles of a canvas.

ghost use Rattle.std.specs.Prelude.{◌≡◌, pos, if◌then◌else◌, Some, None, IfSome};
ghost use Rattle.geom_core.specs.Areas.{area};
ghost use Rattle.geom_core.specs.Rects.{IsWithin};
ghost use Rattle.geom_core.specs.Grid.{Key, tile};
ghost use Rattle.geom_core.specs.Keys.{IsWorldKey};
ghost use Rattle.frame_core.specs.Marks.{on_canvas};
ghost use Rattle.frame_core.specs.Damage.{part_at, grown, has_all, intact, Adds, AddsInTile};

use crate::marks::place_of;
use crate::piece::{Piece, piece_of, rect_of};
use geom_core::{Rect, TileKey};
use std::marker::Model;

/// What may have changed of a canvas: of each of its tiles a rectangle inside the tile, or nothing.
/// The largest canvas has 32 by 32 tiles; no other tile is ever damaged. It takes eight bytes a tile.
#[derive(Drop)]
pub struct Damage {
    parts: [Option<Piece>; 1024],
}

impl Model for Damage {
    ghost use Rattle.frame_core.specs.Damage.{Parts, FitTiles};

    ghost Value = { Parts };

    ghost view = { λ d. d.parts };

    ghost invariant = { λ d. FitTiles d.parts };
}

impl Damage {
    /// Nothing is damaged.
    pub fn none() -> Damage
        ensures { result ≡ intact }
    {
        Damage {
            parts: [None; 1024],
        }
    }

    /// Every point of the largest canvas is damaged.
    pub fn all() -> Damage
        ensures { (k : Key) → part_at result k ≡ (if on_canvas k then Some (tile k) else None) }
    {
        let mut damage = Damage::none();
        damage.add(&largest());
        damage
    }

    /// The damaged part of the key's tile.
    #[inline]
    pub fn part(&self, key: TileKey) -> Option<Rect>
        ensures value { result ≡ part_at self.now key }
        ensures inside { IfSome result (λ a. IsWithin a (tile key)) }
    {
        match place_of(key) {
            Some(place) => rect_of(&self.parts[place]),
            None => None,
        }
    }

    /// The points of the rectangle are damaged too. In each tile of the largest canvas the part
    /// becomes the least rectangle round both.
    pub fn add(&mut self, rect: &Rect)
        ensures { Adds rect.now self.old self.new }
    {
        for i in 0..rect.tile_count() {
            self.add_in(rect.tile_at(i), rect);
        }
    }

    /// The points of the rectangle in the key's tile are damaged too.
    fn add_in(&mut self, key: TileKey, rect: &Rect)
        requires { IsWorldKey key }
        ensures { AddsInTile key rect.now self.old self.new }
    {
        if let Some(place) = place_of(key) {
            let part = rect_of(&self.parts[place]);
            if !has_all(&part, rect) {
                self.parts[place] = piece_of(&grown(part, rect.clip(&key.rect())));
            }
        }
    }
}

/// The points of the largest canvas.
fn largest() -> Rect
    ensures { result ≡ area (pos 0) (pos 0) 2048 2048 }
{
    Rect::new(0, 0, 2048, 2048).unwrap()
}

/// Whether all points of the rectangle are the part's.
#[inline]
fn has_all(part: &Option<Rect>, rect: &Rect) -> bool
    ensures { result ≡ has_all part.now rect.now }
{
    match part {
        Some(part) => rect.lies_in(part),
        None => false,
    }
}

/// The least rectangle round both, or the one that is there.
fn grown(old: Option<Rect>, more: Option<Rect>) -> Option<Rect>
    ensures { result ≡ grown old more }
{
    match more {
        Some(more) => Some(Rect::round(old, &more)),
        None => old,
    }
}
