//! What a frame has on one tile.

ghost use Rattle.std.specs.Prelude.{◌≡◌, ◌+◌, ◌*◌, ◌<◌, ◌≤◌, length, take, drop, IfOk};
ghost use Rattle.frame_core.specs.Frames.{colours_on, WritesAt};
ghost use Rattle.tile_core.specs.Pixels.{pixel_of};
ghost use Rattle.frame_core.specs.Plies.{IsStack, of_pixels, of_plies};

use crate::colours::lay_colours;
use crate::ply::{Ply, made_row};
use geom_core::{NoMemory, TILE_SIDE};
use pixel_core::Pixel;
use std::alloc::Global;
use std::marker::Model;
use std::sync::Arc;
use tile_core::Tile;

/// The 4,096 pixels of a tile, as they are or as plies of which they are composed whenever they are read.
#[derive(Drop)]
pub struct Cell {
    kept: Kept,
}

/// How the pixels are kept.
#[derive(Drop)]
enum Kept {
    Pixels(Tile),
    Plies(Arc<Vec<Ply>>),
}

impl Model for Cell {
    ghost use Rattle.frame_core.specs.Plies.{Content};

    ghost Value = { Content };

    ghost use Rattle.frame_core.specs.Cells.{content, IsCell};

    ghost view = { λ c. content c.kept };

    ghost invariant = { λ c. IsCell c.kept };
}

impl Cell {
    /// The pixels of a tile.
    pub(crate) fn of(tile: Tile) -> Cell
        ensures { result ≡ of_pixels tile }
    {
        Cell {
            kept: Kept::Pixels(tile),
        }
    }

    /// The pixels that the plies make.
    pub(crate) fn made(alloc: Global, plies: Vec<Ply>) -> Result<Cell, NoMemory>
        requires { IsStack plies.items }
        ensures { IfOk result (λ c. c ≡ of_plies plies.items) }
    {
        Ok(Cell {
            kept: Kept::Plies(Arc::new(alloc, plies)?),
        })
    }

    /// The same once more: tiles and plies are shared. `NoMemory` only where a count of owners is full.
    pub(crate) fn share(&self) -> Result<Cell, NoMemory>
        ensures { IfOk result (λ c. c ≡ self.now) }
    {
        let kept = match &self.kept {
            Kept::Pixels(tile) => Kept::Pixels(tile.share()?),
            Kept::Plies(plies) => Kept::Plies(Arc::try_clone(plies)?),
        };
        Ok(Cell { kept })
    }

    /// The plies of which it is composed, if it is kept as such; else none.
    pub fn plies(&self) -> &[Ply]
        ensures { result.now ≡ self.now.plies }
    {
        match &self.kept {
            Kept::Pixels(_) => &[],
            Kept::Plies(plies) => plies.as_slice(),
        }
    }

    /// The pixel of a column and a row, which count from 0.
    pub(crate) fn pixel(&self, col: u8, row: u8) -> Pixel
        requires col { col < 64 }
        requires row { row < 64 }
        ensures { result ≡ pixel_of self.now.pixels col row }
    {
        match &self.kept {
            Kept::Pixels(tile) => tile.pixel(col, row),
            Kept::Plies(plies) => {
                let made = made_row(plies.as_slice(), row as usize);
                made[col as usize]
            }
        }
    }

    /// Writes the colours of the first n pixels of a row on the paper to the places from `at` on.
    pub(crate) fn lay_row(&self, row: usize, n: usize, bytes: &mut [u8], at: usize, paper: Pixel)
        requires row { row < 64 }
        requires few { n ≤ 64 }
        requires opaque { paper.a ≡ 255 }
        requires room { at + 3 * n ≤ length bytes.old }
        ensures laid { WritesAt bytes.old bytes.new at (3 * n)
            (colours_on paper (take n (drop (64 * row) self.now.pixels))) }
        ensures all { length self.now.pixels ≡ 4096 }
    {
        match &self.kept {
            Kept::Pixels(tile) => {
                let from = TILE_SIDE * row;
                lay_colours(bytes, at, &tile.pixels()[from..from + n], paper);
            }
            Kept::Plies(plies) => {
                let made = made_row(plies.as_slice(), row);
                lay_colours(bytes, at, &made[..n], paper);
            }
        }
    }
}
