//! The children of a group on one tile, gathered from the bottom.

ghost use Rattle.std.specs.Prelude.{◌≡◌, ℕ, ◌<◌, IfOk, OnOk, length, slice_index_or, true};
ghost use Rattle.pixel_core.specs.Rgba.{clear};
ghost use Rattle.geom_core.specs.Areas.{Point};
ghost use Rattle.geom_core.specs.Rects.{IsWithin};
ghost use Rattle.tile_core.specs.Pixels.{whole_tile};
ghost use Rattle.doc_model.specs.Picture.{with_look};
ghost use Rattle.compose_core.specs.Spots.{given_on};
ghost use Rattle.compose_core.specs.Piles.{pile_at, IsClean, IsPile, ShowsPile, shows_itself, covers};

use crate::children::{Given, compose_tile};
use doc_model::Look;
use geom_core::{NoMemory, Rect};
use pixel_core::{Op, Pixel};
use std::alloc::Global;
use tile_core::Tile;

/// A look with which a picture stays as it is on a clear backdrop.
const AS_IT_IS: Look = Look {
    opacity: 255,
    op: Op::Over,
    visible: true,
};

/// Visible children of a group from the bottom: the look of each, and what it has on the tile. A
/// child that can't be seen is left out, so the pile may have fewer than the group.
#[derive(Drop)]
pub struct Pile {
    pub looks: Vec<Look>,
    pub tiles: Vec<Given>,
}

impl Pile {
    /// No children, and no room for any yet.
    pub fn new(alloc: Global) -> Pile
        ensures known { IsPile result }
        ensures clear { (p : Point) → pile_at result p ≡ clear }
    {
        Pile {
            looks: Vec::new(alloc),
            tiles: Vec::new(alloc),
        }
    }

    /// Lets all children go. Their room is kept for those of the next group.
    pub fn clear(&mut self)
        ensures known { IsPile self.new }
        ensures clear { (p : Point) → pile_at self.new p ≡ clear }
    {
        self.looks.truncate(0);
        self.tiles.truncate(0);
    }

    /// Lays one more child on those below it. A clear one counts for nothing, and one that hides all
    /// below it takes their place. After want of memory the pile is to be cleared.
    pub fn add(&mut self, look: Look, given: Given) -> Result<(), NoMemory>
        requires known { IsPile self.old }
        ensures known { OnOk result (IsPile self.new) }
        ensures laid { OnOk result ((p : Point) → pile_at self.new p ≡ with_look look
            (given_on given p) (pile_at self.old p)) }
    {
        given.tell_clean();
        if given.is_clear() {
            return Ok(());
        }
        self.uncover(look, &given);
        self.push(look, given)
    }

    /// Lets all children go and has one picture in their place, as it is. After want of memory the pile is to be
    /// cleared.
    pub fn start_from(&mut self, given: Given) -> Result<(), NoMemory>
        ensures known { OnOk result (IsPile self.new) }
        ensures shows { OnOk result ((p : Point) → pile_at self.new p ≡ given_on given p) }
    {
        given.tell_clean();
        self.clear();
        self.add(AS_IT_IS, given)
    }

    /// Lets go what the child will hide.
    fn uncover(&mut self, look: Look, given: &Given)
        requires known { IsPile self.old }
        requires clean { IsClean given.now }
        ensures known { IsPile self.new }
        ensures same { (p : Point) → with_look look (given_on given.now p) (pile_at self.new p)
            ≡ with_look look (given_on given.now p) (pile_at self.old p) }
    {
        if covers(look) && is_opaque(given) {
            self.clear();
        }
    }

    /// Lays one more child on those below it.
    fn push(&mut self, look: Look, given: Given) -> Result<(), NoMemory>
        requires known { IsPile self.old }
        requires clean { IsClean given }
        ensures known { OnOk result (IsPile self.new) }
        ensures laid { OnOk result ((p : Point) → pile_at self.new p ≡ with_look look
            (given_on given p) (pile_at self.old p)) }
    {
        self.looks.push(look)?;
        self.tiles.push(given)?;
        Ok(())
    }

    /// What they make together on a part of the tile, whose columns and rows count from the tile's
    /// corner. No tile is made for no children, or for one that is left as it is.
    pub fn composed(&self, alloc: Global, part: &Rect) -> Result<Given, NoMemory>
        requires known { IsPile self.now }
        requires inside { IsWithin part.now whole_tile }
        ensures { IfOk result (ShowsPile self.now part.now) }
    {
        if self.looks.is_empty() {
            return Ok(Given::Plain(Pixel::CLEAR));
        }
        if self.looks.len() == 1 && shows_itself(self.looks[0]) {
            let only = &self.tiles[0];
            only.tell_clean();
            return only.share();
        }
        let tile = compose_tile(alloc, &self.looks, &self.tiles, part)?;
        Ok(Given::Held(tile))
    }
}

/// Whether it is opaque at every point.
fn is_opaque(given: &Given) -> bool
    ensures { result ≡ true → (p : Point) → (given_on given.now p).a ≡ 255 }
{
    match given {
        Given::Held(tile) => is_all_opaque(tile.pixels()),
        Given::Plain(pixel) => alpha_of(*pixel) == 255,
    }
}

/// Whether all pixels are opaque. It looks no further than the first that isn't.
fn is_all_opaque(pixels: &[Pixel]) -> bool
    ensures { result ≡ true → (k : ℕ) → k < length pixels.now
        → (slice_index_or pixels.now k clear).a ≡ 255 }
{
    for pixel in pixels {
        if alpha_of(*pixel) != 255 {
            return false;
        }
    }
    true
}

/// The alpha of a pixel.
fn alpha_of(pixel: Pixel) -> u8
    ensures { result ≡ pixel.a }
{
    let [_, _, _, a] = pixel.bytes();
    a
}

/// Whether a source with that look on a clear backdrop is left as it is.
fn shows_itself(look: Look) -> bool
    ensures { result ≡ shows_itself look }
{
    match look.op {
        Op::Erase => false,
        _ => look.visible && look.opacity == 255,
    }
}

/// Whether an opaque source with that look hides what it is laid over.
fn covers(look: Look) -> bool
    ensures { result ≡ covers look }
{
    match look.op {
        Op::Over => look.visible && look.opacity == 255,
        _ => false,
    }
}
