//! How the pixels of a tile are composed, step by step.

ghost use Rattle.std.specs.Prelude.{◌≡◌, ℕ, Some, true, ◌<◌, length, slice_index_or, is_some};
ghost use Rattle.pixel_core.specs.Rgba.{clear};
ghost use Rattle.frame_core.specs.OpenRows.{column};
ghost use Rattle.frame_core.specs.Plies.{IsStack, made_at, open_after, with_ply};

use crate::open_rows::OpenRows;
use pixel_core::{Op, Pixel};
use tile_core::Tile;

/// A step of how a tile is composed: what is laid goes on what the innermost open group has so far. The root is
/// open from the start, and clear.
#[derive(Drop)]
pub enum Ply {
    /// The pixels of a tile are laid.
    Tile { tile: Tile, op: Op, opacity: u8 },
    /// One pixel is laid at every point.
    Plain { pixel: Pixel, op: Op, opacity: u8 },
    /// A group is opened, which is clear.
    Open,
    /// The innermost group is closed, and its pixels are laid on the group round it.
    Close { op: Op, opacity: u8 },
}

impl Ply {
    /// Takes the step on a row of the tile.
    fn lay(&self, row: usize, rows: &mut OpenRows)
        requires row { row < 64 }
        requires fits { is_some (open_after (length rows.old) self.now) ≡ true }
        ensures laid { (k : ℕ) → k < 64 →
            column k rows.new ≡ with_ply k row (column k rows.old) self.now }
        ensures many { open_after (length rows.old) self.now ≡ Some (length rows.new) }
    {
        match self {
            Ply::Tile { tile, op, opacity } => {
                let from = 64 * row;
                rows.lay(&tile.pixels()[from..from + 64], *op, *opacity);
            }
            Ply::Plain { pixel, op, opacity } => rows.lay_plain(*pixel, *op, *opacity),
            Ply::Open => rows.begin(),
            Ply::Close { op, opacity } => rows.end(*op, *opacity),
        }
    }
}

/// The pixels of a row of the tile that is composed so. It takes no memory.
pub(crate) fn made_row(plies: &[Ply], row: usize) -> [Pixel; 64]
    requires stack { IsStack plies.now }
    requires row { row < 64 }
    ensures { (k : ℕ) → k < 64 → slice_index_or result k clear ≡ made_at plies.now k row }
{
    let mut open = OpenRows::new();
    for ply in plies {
        ply.lay(row, &mut open);
    }
    open.innermost()
}
