//! Pictures on a tile that are laid over others.

ghost use Rattle.std.specs.Prelude.{◌≡◌, true, if◌then◌else◌, IfOk};
ghost use Rattle.geom_core.specs.Areas.{holds, Point};
ghost use Rattle.doc_model.specs.Shots.{in_tile};
ghost use Rattle.tile_core.specs.Shots.{sight_at};
ghost use Rattle.compose_core.specs.Spots.{IsSpot, given_on};

use compose_core::{Given, Spot};
use geom_core::{NoMemory, TileKey};
use std::alloc::Global;
use tile_core::{Block, Shot, Tile};

/// What a shot has on a tile: its tile, shared, or its default pixel.
pub(crate) fn shown_on(shot: &Shot, key: TileKey) -> Result<Given, NoMemory>
    ensures { IfOk result (λ g. (p : Point) → in_tile key p ≡ true
        → given_on g p ≡ sight_at shot.now p) }
{
    match shot.tile(key) {
        Some(tile) => Ok(Given::Held(tile.share()?)),
        None => Ok(Given::Plain(shot.ground())),
    }
}

/// What is given, with the pixels of the other on a part of the tile. Clear ones over clear ones make
/// no tile.
pub(crate) fn overlaid(
    alloc: Global,
    given: Given,
    fresh: &Given,
    spot: &Spot,
) -> Result<Given, NoMemory>
    requires { IsSpot spot.now }
    ensures { IfOk result (λ g. (p : Point) → in_tile spot.now.key p ≡ true
        → given_on g p ≡ (if holds spot.now.part p then given_on fresh.now p else given_on given
        p)) }
{
    if given.is_clear() && fresh.is_clear() {
        return Ok(given);
    }
    let pixels = fresh.pixels_on(alloc, spot)?;
    let block = Block::from_pixels(spot.key, spot.part, pixels);
    let tile = match given {
        Given::Held(tile) => tile,
        Given::Plain(pixel) => Tile::plain(alloc, pixel)?,
    };
    Ok(Given::Held(tile.with_region(alloc, &block)?))
}
