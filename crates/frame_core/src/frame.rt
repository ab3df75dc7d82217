//! Pictures of the canvas.

ghost use Rattle.std.specs.Prelude.{◌≡◌, ◌+◌, ◌*◌, ◌<◌, ◌≤◌, ◌++◌, None, IfOk, OnOk, OnErr, length, ◌-◌, pos, drop, min, replicate};
ghost use Rattle.std.specs.FinMap as map;
ghost use Rattle.std.specs.Option.{option_copied};
ghost use Rattle.geom_core.specs.Areas.{row as points, point};
ghost use Rattle.frame_core.specs.Frames.{IsScene, scene, colours_at, row_colours, IsTileOf, with_put, with_put_of, LaysPoints, columns_in, put_under};
ghost use Rattle.frame_core.specs.Plies.{IsStack, made_pixels, pixels_in};

use crate::cell::Cell;
use crate::colours::lay_paper;
use crate::ply::Ply;
use geom_core::{NoMemory, TILE_SIDE, TileKey};
use pixel_core::{Pixel, on_paper};
use std::alloc::Global;
use std::marker::Model;
use tile_core::Tile;

/// How many columns, and how many rows, of points a tile has: `TILE_SIDE`.
pub(crate) const TILE: u16 = TILE_SIDE as u16;

/// A picture of the canvas: shared tiles over an opaque paper. A tile may be kept as that of which it is
/// composed. The canvas has its corner at (0, 0).
#[derive(Drop)]
pub struct Frame {
    width: u16,
    height: u16,
    paper: Pixel,
    /// Row by row from the top, 32 to a row as on the largest canvas, as far as the canvas goes.
    tiles: Vec<Option<Cell>>,
}

impl Model for Frame {
    ghost use Rattle.frame_core.specs.Frames.{Scene, scene, scene_code};
    ghost use Rattle.frame_core.specs.Placed.{tiles_from, IsPlaced};

    ghost Value = { Scene };

    ghost coded = { scene_code };

    ghost view = { λ f. scene f.width f.height f.paper (tiles_from 0 f.tiles.items) };

    ghost invariant = { λ f. IsPlaced (scene f.width f.height f.paper (tiles_from 0 f.tiles.items)) f.tiles.items };
}

impl Frame {
    /// A frame of `w` columns and `h` rows, 1 to 2048 each, whose every point is the opaque paper.
    pub fn new(alloc: Global, w: u16, h: u16, paper: Pixel) -> Result<Frame, NoMemory>
        requires w { 1 ≤ w × w ≤ 2048 }
        requires h { 1 ≤ h × h ≤ 2048 }
        requires opaque { paper.a ≡ 255 }
        ensures { IfOk result (λ f. f ≡ scene w h paper map.empty) }
    {
        Ok(Frame {
            width: w,
            height: h,
            paper,
            tiles: no_tiles(alloc, place((w - 1) / TILE, (h - 1) / TILE) + 1)?,
        })
    }

    /// How many columns it has.
    pub fn width(&self) -> u16
        ensures value { result ≡ self.now.width }
        ensures known { IsScene self.now }
    {
        self.width
    }

    /// How many rows it has.
    pub fn height(&self) -> u16
        ensures value { result ≡ self.now.height }
        ensures known { IsScene self.now }
    {
        self.height
    }

    /// The opaque paper.
    pub(crate) fn paper(&self) -> Pixel
        ensures value { result ≡ self.now.paper }
        ensures opaque { result.a ≡ 255 }
    {
        self.paper
    }

    /// The points of the key become the tile's pixels on the paper. The tile is shared, not copied.
    pub fn put(&mut self, key: TileKey, tile: &Tile) -> Result<(), NoMemory>
        requires { IsTileOf self.old key }
        ensures ok { OnOk result (self.new ≡ with_put self.old key tile.now) }
        ensures err { OnErr result (self.new ≡ self.old) }
    {
        let tile = tile.share()?;
        self.set(key, Cell::of(tile));
        Ok(())
    }

    /// The points of the key become the pixels that the plies make on the paper. They are composed whenever they
    /// are read.
    pub fn put_plies(
        &mut self,
        alloc: Global,
        key: TileKey,
        plies: Vec<Ply>,
    ) -> Result<(), NoMemory>
        requires inside { IsTileOf self.old key }
        requires stack { IsStack plies.items }
        ensures ok { OnOk result (self.new ≡ with_put self.old key (made_pixels plies.items)) }
        ensures err { OnErr result (self.new ≡ self.old) }
    {
        let cell = Cell::made(alloc, plies)?;
        self.set(key, cell);
        Ok(())
    }

    /// The points of the key become those of another frame, which are shared. Where nothing was put there,
    /// nothing is put.
    pub fn put_of(&mut self, key: TileKey, other: &Frame) -> Result<(), NoMemory>
        requires inside { IsTileOf self.old key }
        requires there { IsTileOf other.now key }
        ensures ok { OnOk result (self.new ≡ with_put_of self.old key other.now) }
        ensures err { OnErr result (self.new ≡ self.old) }
    {
        if let Some(cell) = other.cell(key) {
            let cell = cell.share()?;
            self.set(key, cell);
        }
        Ok(())
    }

    /// Puts what the key's tile is to show.
    fn set(&mut self, key: TileKey, cell: Cell)
        requires { IsTileOf self.old key }
        ensures { self.new ≡ with_put self.old key cell.pixels }
    {
        self.tiles[place(key.col as u16, key.row as u16)] = Some(cell);
    }

    /// What was put under the key.
    pub fn cell(&self, key: TileKey) -> Option<&Cell>
        requires { IsTileOf self.now key }
        ensures { pixels_in (option_copied result) ≡ map.get self.now.tiles key }
    {
        self.tiles[place(key.col as u16, key.row as u16)].as_ref()
    }

    /// Red, green and blue of a point.
    pub fn at(&self, x: u16, y: u16) -> [u8; 3]
        requires x { x < self.now.width }
        requires y { y < self.now.height }
        ensures { result ≡ colours_at self.now (point (pos x) (pos y)) }
    {
        let pixel = match self.tile(x, y) {
            Some(cell) => cell.pixel((x % TILE) as u8, (y % TILE) as u8),
            None => Pixel::CLEAR,
        };
        on_paper(pixel, self.paper)
    }

    /// Writes red, green and blue of each point of a row to the first 3 * width places, from the left.
    pub fn row_into(&self, y: u16, row: &mut [u8])
        requires y { y < self.now.height }
        requires room { 3 * self.now.width ≤ length row.old }
        ensures { row.new ≡ row_colours self.now y ++ drop (3 * self.now.width) row.old }
    {
        self.columns_into(0, self.width.div_ceil(TILE), y, row);
    }

    /// The same of the points that lie in the tiles of some columns alone: each is written to its place in the row.
    pub fn columns_into(&self, first: u16, end: u16, y: u16, row: &mut [u8])
        requires first { first ≤ end }
        requires end { 64 * end < self.now.width + 64 }
        requires y { y < self.now.height }
        requires room { 3 * self.now.width ≤ length row.old }
        ensures { LaysPoints self.now y row.old row.new (64 * first)
            (min (64 * end) self.now.width - 64 * first) }
    {
        for col in first..end {
            self.tile_row_into(col, y, row);
        }
    }

    /// Writes the colours of a row's points in the tiles of one column to their places in the row.
    pub(crate) fn tile_row_into(&self, col: u16, y: u16, row: &mut [u8])
        requires col { 64 * col < self.now.width }
        requires y { y < self.now.height }
        requires room { 3 * self.now.width ≤ length row.old }
        ensures { LaysPoints self.now y row.old row.new (64 * col) (columns_in self.now col) }
    {
        let left = TILE_SIDE * col as usize;
        let n = (self.width as usize - left).min(TILE_SIDE);
        match self.tile(TILE * col, y) {
            Some(cell) => cell.lay_row(y as usize % TILE_SIDE, n, row, 3 * left, self.paper),
            None => lay_paper(row, 3 * left, n, self.paper),
        }
    }

    /// The tile that a point lies in, if one was put there.
    fn tile(&self, x: u16, y: u16) -> Option<&Cell>
        requires x { x < self.now.width }
        requires y { y < self.now.height }
        ensures value { pixels_in (option_copied result) ≡ put_under self.now (point (pos x) (pos y)) }
        ensures known { IsScene self.now }
    {
        self.tiles[place(x / TILE, y / TILE)].as_ref()
    }
}

/// Where the tile of a column and a row of the canvas stands.
fn place(col: u16, row: u16) -> usize
    ensures { result ≡ 32 * row + col }
{
    32 * row as usize + col as usize
}

/// That many places where no tile stands.
fn no_tiles(alloc: Global, places: usize) -> Result<Vec<Option<Cell>>, NoMemory>
    ensures { IfOk result (λ tiles. tiles.items ≡ replicate places None) }
{
    let mut tiles = Vec::with_capacity(alloc, places)?;
    for _ in 0..places {
        tiles.push(None)?;
    }
    Ok(tiles)
}
