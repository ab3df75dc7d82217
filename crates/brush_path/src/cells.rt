//! The tiles that a track meets, and its jobs.

ghost use Rattle.std.specs.Prelude.{◌≡◌, ◌⊎◌, ◌≤◌, ◌<◌, ◌+◌, ◌&&◌, ◌≤ℤ◌, ◌+ℤ◌, ◌-ℤ◌, pos, None, Some, true, All, IfOk, OnOk, length, slice_get};
ghost use Rattle.std.specs.List.{list_all};
ghost use Rattle.geom_core.specs.Areas.{lies_in, world};
ghost use Rattle.geom_core.specs.Grid.{keys_of};
ghost use Rattle.doc_model.specs.Trails.{centres};
ghost use Rattle.doc_model.specs.Layers.{Layer};
ghost use Rattle.doc_model.specs.Jobs.{apply_all, squares, checks};
ghost use Rattle.doc_model.specs.Lawful.{within_limits};
ghost use Rattle.doc_model.specs.Strokes.{conflict};
ghost use Rattle.geom_core.specs.Place.{IsOffset};
ghost use Rattle.brush_path.specs.Cells.{cells, jobs, jobs_in as tracks_in};
ghost use Rattle.brush_path.specs.Gathered.{in_order};
ghost use Rattle.brush_path.specs.Gathered.{keys_between};
ghost use Rattle.brush_path.specs.Dabs.{dabs};
ghost use Rattle.brush_path.specs.Laws.{concurrent};

use doc_model::{Job, Track, square_round, track_dab, track_len};
use geom_core::{NoMemory, Rect, TileKey, tile_of};
use std::alloc::Global;
use std::collections::BTreeSet;

/// The jobs that paint a track: one in each tile that its dabs meet, in row order.
///
/// # Errors
/// `NoMemory`.
pub fn jobs_of(alloc: Global, track: &Track) -> Result<Vec<Job>, NoMemory>
    requires few { length (centres track.now) ≤ 4096 }
    requires inside { list_all (λ a. lies_in a world) (squares track.now) ≡ true }
    ensures value { IfOk result (λ v. v.items ≡ jobs track.now) }
    ensures dabs { IfOk result (λ v. (layer : Layer) → apply_all v.items layer
        ≡ apply_all (dabs track.now) layer) }
    ensures apart { IfOk result (λ v. conflict (concurrent v.items) ≡ None) }
    ensures sound { IfOk result (λ v. All (λ j. (checks j && within_limits j) ≡ true) v.items) }
{
    let cells = cells_of(alloc, track)?;
    let jobs = jobs_in(alloc, track, &cells)?;
    Ok(jobs)
}

/// The jobs of a track in some tiles.
fn jobs_in(alloc: Global, track: &Track, cells: &[TileKey]) -> Result<Vec<Job>, NoMemory>
    ensures { IfOk result (λ v. v.items ≡ tracks_in track.now cells.now) }
{
    let jobs = cells
        .iter()
        .map(|cell| Job::Track {
            track: *track,
            cell: *cell,
        })
        .collect(alloc)?;
    Ok(jobs)
}

/// The tiles that the dabs of a track meet, in row order.
///
/// # Errors
/// `NoMemory`.
pub fn cells_of(alloc: Global, track: &Track) -> Result<Vec<TileKey>, NoMemory>
    requires few { length (centres track.now) ≤ 4096 }
    requires inside { list_all (λ a. lies_in a world) (squares track.now) ≡ true }
    ensures { IfOk result (λ v. v.items ≡ cells track.now) }
{
    let tiles = tiles_of(alloc, track)?;
    let cells = tiles.into_iter().collect(alloc)?;
    Ok(cells)
}

/// The set of these tiles. A dab that meets the same tiles as the one before adds none.
fn tiles_of(alloc: Global, track: &Track) -> Result<BTreeSet<TileKey>, NoMemory>
    requires { list_all (λ a. lies_in a world) (squares track.now) ≡ true }
    ensures { IfOk result (λ s. s.keys ≡ cells track.now) }
{
    let mut tiles = BTreeSet::new(alloc);
    let mut before = None;
    for i in 0..track_len(track) {
        before = Some(add_square(&mut tiles, &before, &square_at(track, i))?);
    }
    Ok(tiles)
}

/// Puts the tiles that a square meets into the set, unless they are those of the square before. Gives
/// the square's ends.
fn add_square(
    tiles: &mut BTreeSet<TileKey>,
    before: &Option<Ends>,
    square: &Rect,
) -> Result<Ends, NoMemory>
    ensures ends { IfOk result (λ e. keys_between e.first e.last ≡ keys_of square.now) }
    ensures tiles { IfOk result (λ e. (before.now ≡ Some e × tiles.new.keys ≡ tiles.old.keys)
        ⊎ tiles.new.keys ≡ in_order tiles.old.keys (keys_of square.now)) }
{
    let ends = ends_of(square);
    if is_again(before, ends) {
        return Ok(ends);
    }
    add_tiles(tiles, square)?;
    Ok(ends)
}

/// The tiles of a square's first point and of its last.
#[derive(Clone, Copy, PartialEq, Eq)]
struct Ends {
    first: TileKey,
    last: TileKey,
}

/// The ends of a square, which tell all tiles that it meets.
fn ends_of(square: &Rect) -> Ends
    ensures { keys_between result.first result.last ≡ keys_of square.now }
{
    let (x, y) = (square.x(), square.y());
    let right = last_from(x, square.left(), square.w());
    let bottom = last_from(y, square.top(), square.h());
    Ends {
        first: tile_of(x, y),
        last: tile_of(right, bottom),
    }
}

/// The last of `size` columns, or rows, from `start` on, which lies `before` from the world's first.
fn last_from(start: i32, before: u32, size: u32) -> i32
    requires offset { IsOffset before start }
    requires some { 1 ≤ size }
    requires inside { before + size ≤ 32768 }
    ensures value { result ≡ (start +ℤ pos size) -ℤ pos 1 }
    ensures low { world.x ≤ℤ result }
    ensures high { result ≤ℤ pos 16383 }
{
    start + (size - 1) as i32
}

/// Whether the ends are those of the square before, if there was one.
fn is_again(before: &Option<Ends>, ends: Ends) -> bool
    ensures { result ≡ true → before.now ≡ Some ends }
{
    match before {
        Some(earlier) => *earlier == ends,
        None => false,
    }
}

/// The square of the dab with that place, which counts from 0.
fn square_at(track: &Track, i: u32) -> Rect
    requires inside { list_all (λ a. lies_in a world) (squares track.now) ≡ true }
    requires there { i < length (centres track.now) }
    ensures { slice_get (squares track.now) i ≡ Some result }
{
    let (x, y) = track_dab(track, i);
    square_round(x, y, track.stamp().r).unwrap()
}

/// Puts the tiles that a square meets into the set.
fn add_tiles(tiles: &mut BTreeSet<TileKey>, square: &Rect) -> Result<(), NoMemory>
    ensures { OnOk result (tiles.new.keys ≡ in_order tiles.old.keys (keys_of square.now)) }
{
    for i in 0..square.tile_count() {
        tiles.insert(square.tile_at(i))?;
    }
    Ok(())
}
