//! Tiles of the root's picture, and what of it isn't settled.

ghost use Rattle.std.specs.Prelude.{◌≡◌, ◌≤◌, ◌++◌, ◌*◌, length, drop, replicate};
ghost use Rattle.std.specs.List.{flat_map};
ghost use Rattle.std.specs.Option.{option_copied};
ghost use Rattle.pixel_core.specs.Rgba.{clear};
ghost use Rattle.pixel_core.specs.Words.{bytes_of};
ghost use Rattle.doc_model.specs.Picture.{canvas_area};
ghost use Rattle.machine_model.specs.Covers.{covered};
ghost use Rattle.slot_work.specs.Round.{IsRound};
ghost use Rattle.desk_events.specs.Shown.{ShowsWhereClean};
ghost use Rattle.host_desk.specs.Tiles.{TileTold, pixels_of, tile_key};

use crate::host::Host;
use desk_core::Desk;
use geom_core::{Rect, TILE_POINTS, TileKey};
use host_lines::Answer;
use pixel_core::Pixel;
use tile_core::Tile;

/// How many bytes the pixels of a tile are.
const TILE_BYTES: usize = 4 * TILE_POINTS;

impl Host {
    /// Copies the pixels of a tile of the root's picture to the first 16,384 places, in row order, as red, green, blue
    /// and alpha. It tells the least rectangle of what the tile has of the canvas round the points that something that
    /// waits or is at work will compose anew: all others are the picture's. None where there is no such point.
    ///
    /// It answers `Done`; `Outside` where the canvas has no point in the tile; `NoRoom`. But for `Done` nothing is
    /// written.
    pub fn tile(&self, col: u8, row: u8, out: &mut [u8]) -> (Answer, Option<Rect>)
        ensures { TileTold self.now (tile_key col row) out.old result.0 result.1 out.new }
    {
        let key = key_at(col, row);
        let Some(part) = canvas_rect(&self.desk).clip(&key.rect()) else {
            return (Answer::Outside, None);
        };
        if out.len() < TILE_BYTES {
            return (Answer::NoRoom, None);
        }
        copy_tile(self.desk.root_tile(key), out);
        (Answer::Done, self.desk.dirty_in(&part))
    }

    /// The least rectangle of the canvas round the points that something that waits or is at work will compose anew:
    /// all others are the picture's. None where there is no such point.
    pub fn dirty(&self) -> Option<Rect>
        ensures round { IsRound (canvas_area self.now.canvas) (covered self.now 0) result }
        ensures picture { ShowsWhereClean self.now }
    {
        self.desk.dirty_in(&canvas_rect(&self.desk))
    }
}

/// The key of the tile in that column and row of tiles.
fn key_at(col: u8, row: u8) -> TileKey
    ensures { result ≡ tile_key col row }
{
    TileKey {
        row: i16::from(row),
        col: i16::from(col),
    }
}

/// The canvas.
fn canvas_rect(desk: &Desk) -> Rect
    ensures { result ≡ canvas_area desk.now.canvas }
{
    desk.tell_sound();
    desk.canvas().rect()
}

/// Copies the pixels of a tile to the first places: clear ones where there is no tile.
fn copy_tile(tile: Option<&Tile>, out: &mut [u8])
    requires room { 16384 ≤ length out.old }
    ensures { out.new ≡ flat_map bytes_of (pixels_of (option_copied tile.entry))
        ++ drop 16384 out.old }
{
    match tile {
        Some(tile) => copy_pixels(tile.pixels(), &mut out[..TILE_BYTES]),
        None => copy_clear(&mut out[..TILE_BYTES]),
    }
}

/// Copies the bytes of a tile of clear pixels.
fn copy_clear(out: &mut [u8])
    requires room { length out.old ≡ 16384 }
    ensures { out.new ≡ flat_map bytes_of (replicate 4096 clear) }
{
    out.fill(0);
}

/// Copies the bytes of pixels.
fn copy_pixels(pixels: &[Pixel], out: &mut [u8])
    requires room { length out.old ≡ 4 * length pixels.now }
    ensures { out.new ≡ flat_map bytes_of pixels.now }
{
    for i in 0..pixels.len() {
        out[4 * i..4 * i + 4].copy_from_slice(&pixels[i].bytes());
    }
}
