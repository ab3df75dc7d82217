//! The pixels of a tile with what a job makes of them.

ghost use Rattle.std.specs.Prelude.{◌≡◌, ◌*◌, true, replicate, length, vec_len, IfOk, IfSome};
ghost use Rattle.job_core.specs.Due.{IsDue};
ghost use Rattle.job_core.specs.Points.{LaysPoints, is_point_op};
ghost use Rattle.whole_tiles.specs.Base.{tile_of};
ghost use Rattle.whole_tiles.specs.Circles.{AllCanonical};
ghost use Rattle.whole_tiles.specs.Wholes.{IsNew, LaysPaint};

use crate::circle::reaches;
use doc_model::{Job, Kind};
use geom_core::{NoMemory, TILE_POINTS, TileKey};
use job_core::{Painted, PointWork, paint_tile, point_rect};
use pixel_core::Pixel;
use pixel_rows::tell_canonical;
use std::alloc::Global;
use tile_core::{Lays, PlainTile, Shot, Tile};

/// The shot's tile under the key with what the job makes of the shot. Where that has one pixel
/// everywhere, it may be shared with `like`.
pub fn new_tile(
    alloc: Global,
    job: &Job,
    shot: &Shot,
    key: TileKey,
    like: &mut Option<PlainTile>,
) -> Result<Tile, NoMemory>
    requires { IsDue job.now shot.now key }
    ensures { IfOk result (IsNew job.now shot.now key) }
{
    match point_rect(job) {
        Some(_) => pointed(alloc, job, shot, key, like),
        None => assembled(alloc, job, shot, key),
    }
}

/// The new tile of a point operation: it is painted on a copy of the tile, or leaves one pixel everywhere.
/// A tile that the circle of a dab doesn't reach is shared.
fn pointed(
    alloc: Global,
    job: &Job,
    shot: &Shot,
    key: TileKey,
    like: &mut Option<PlainTile>,
) -> Result<Tile, NoMemory>
    requires due { IsDue job.now shot.now key }
    requires point_op { is_point_op job.now ≡ true }
    ensures { IfOk result (IsNew job.now shot.now key) }
{
    let jobs = [(Kind::Seq, *job)];
    let work = PointWork::new(&jobs, key);
    match plain_left(shot, &work) {
        Some(pixel) => plain_tile(alloc, like, pixel),
        None if reaches(job, key) => painted_copy(alloc, shot, &work),
        None => tile_under(alloc, shot, key),
    }
}

/// The shot's tile under the key, shared, or one of the default pixel.
fn tile_under(alloc: Global, shot: &Shot, key: TileKey) -> Result<Tile, NoMemory>
    ensures value { IfOk result (λ t. t ≡ tile_of shot.now key) }
    ensures canonical { AllCanonical (tile_of shot.now key) }
{
    match shot.tile(key) {
        Some(tile) => {
            tell_canonical(tile.pixels());
            tile.share()
        }
        None => {
            let ground = shot.ground();
            let _known = ground.bytes();
            Tile::plain(alloc, ground)
        }
    }
}

/// A tile of one pixel: that of `like`, shared, where it has the pixel, or else a new one, which stays
/// in `like` for the next.
fn plain_tile(alloc: Global, like: &mut Option<PlainTile>, pixel: Pixel) -> Result<Tile, NoMemory>
    ensures { IfOk result (λ t. t ≡ replicate 4096 pixel) }
{
    match like {
        Some(plain) if plain.pixel() == pixel => plain.share(),
        _ => {
            let plain = PlainTile::new(alloc, pixel)?;
            let tile = plain.share()?;
            *like = Some(plain);
            Ok(tile)
        }
    }
}

/// The one pixel that point operations leave at all points of their tile. None where it finds none.
fn plain_left(shot: &Shot, work: &PointWork<'_>) -> Option<Pixel>
    ensures { IfSome result
        (λ c. LaysPoints work.now (tile_of shot.now work.now.key) (replicate 4096 c)) }
{
    match shot.tile(work.key()) {
        Some(tile) => work.plain_on(tile),
        None => work.plain_on_ground(shot.ground()),
    }
}

/// A copy of the shot's pixels in the tile of point operations, with these painted on it.
fn painted_copy(alloc: Global, shot: &Shot, work: &PointWork<'_>) -> Result<Tile, NoMemory>
    ensures { IfOk result (LaysPoints work.now (tile_of shot.now work.now.key)) }
{
    let mut pixels = pixels_under(alloc, shot, work.key())?;
    work.lay(&mut pixels);
    Tile::from_pixels(alloc, pixels)
}

/// The new tile of any job: a block with all points of the tile becomes the tile, and other blocks are
/// laid on a copy of it.
fn assembled(alloc: Global, job: &Job, shot: &Shot, key: TileKey) -> Result<Tile, NoMemory>
    requires { IsDue job.now shot.now key }
    ensures { IfOk result (IsNew job.now shot.now key) }
{
    let painted = paint_tile(alloc, job, shot, key)?;
    if painted.is_whole() {
        Tile::from_pixels(alloc, painted.into_whole())
    } else {
        patched(alloc, &painted)
    }
}

/// A copy of the shot's tile with what was painted laid on it.
fn patched(alloc: Global, painted: &Painted<'_>) -> Result<Tile, NoMemory>
    ensures { IfOk result (LaysPaint painted.now (tile_of painted.now.shot painted.now.key)) }
{
    let mut pixels = pixels_under(alloc, painted.shot(), painted.key())?;
    lay_blocks(painted, &mut pixels);
    Tile::from_pixels(alloc, pixels)
}

/// Lays what was painted on the pixels of its tile.
fn lay_blocks(painted: &Painted<'_>, tile: &mut [Pixel])
    requires { length tile.old ≡ 4096 }
    ensures { LaysPaint painted.now tile.old tile.new }
{
    let _key = painted.key();
    for i in 0..painted.block_count() {
        painted.block(i).lay(tile);
    }
}

/// A copy of the 4,096 pixels that the shot has under the key.
fn pixels_under(alloc: Global, shot: &Shot, key: TileKey) -> Result<Vec<Pixel>, NoMemory>
    ensures all { IfOk result (λ v. vec_len v ≡ 4096) }
    ensures value { IfOk result (λ v. v.items ≡ tile_of shot.now key) }
{
    match shot.tile(key) {
        Some(tile) => Ok(Vec::from_slice(alloc, tile.pixels())?),
        None => Ok(vec![in alloc; shot.ground(); TILE_POINTS]?),
    }
}
