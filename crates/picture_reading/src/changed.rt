//! What changed between two pictures.

ghost use Rattle.std.specs.Prelude.{◌≡◌, ◌≢◌, ℕ, ◌/◌, ◌+◌, ◌-◌, ◌*◌, ◌%◌, ◌<◌, ◌≤◌, true, false, MatchOption, length, slice_index_or};
ghost use Rattle.pixel_core.specs.Rgba.{clear};
ghost use Rattle.picture_reading.specs.Changes.{Agree, AgreeOn, AgreeOutside, DifferOn, IsJoined, IsLeastRound, IsRoundOf, IsTile, SameSides};

use crate::picture::Picture;
use crate::reading::TILE;
use crate::window::Part;
use geom_core::TILE_SIDE;
use pixel_core::Pixel;

/// The least rectangle round the tiles of 64 by 64 pixels on which two pictures with the same sides differ, each
/// as far as it is on the canvas. None exactly where they have the same pixels. Their papers aren't compared. No
/// memory is taken.
pub fn changes<P: Picture, Q: Picture>(picture: &P, before: &Q) -> Option<Part>
    requires { SameSides (P.shown picture.now) (Q.shown before.now) }
    ensures agree { MatchOption result (Agree (P.shown picture.now) (Q.shown before.now))
        (λ p. AgreeOutside (P.shown picture.now) (Q.shown before.now) p.x p.y p.w p.h) }
    ensures least { MatchOption result (Agree (P.shown picture.now) (Q.shown before.now))
        (λ p. IsLeastRound (P.shown picture.now) (Q.shown before.now) p.x p.y p.w p.h) }
{
    let _sides = (picture.width(), picture.height());
    match round_all(picture, before) {
        None => None,
        Some(sides) => Some(Part {
            x: sides.left,
            y: sides.top,
            w: sides.right - sides.left,
            h: sides.bottom - sides.top,
        }),
    }
}

/// The columns from one up to another, and the rows from one up to another.
#[derive(Clone, Copy)]
pub(crate) struct Sides {
    left: u16,
    top: u16,
    right: u16,
    bottom: u16,
}

/// The sides of the least rectangle round the tiles that differ.
fn round_all<P: Picture, Q: Picture>(picture: &P, before: &Q) -> Option<Sides>
    requires { SameSides (P.shown picture.now) (Q.shown before.now) }
    ensures { IsRoundOf (P.shown picture.now) (Q.shown before.now) 0
        ((P.shown picture.now).height / 64 + 1) result }
{
    let mut round = None;
    for row in 0..picture.height().div_ceil(TILE) {
        round = round_row(picture, before, row, round);
    }
    round
}

/// The sides of the least rectangle round one that is round the tiles that differ in the rows above, and those of
/// this row.
fn round_row<P: Picture, Q: Picture>(
    picture: &P,
    before: &Q,
    row: u16,
    above: Option<Sides>,
) -> Option<Sides>
    requires alike { SameSides (P.shown picture.now) (Q.shown before.now) }
    requires row { 64 * row < (P.shown picture.now).height }
    requires above { IsRoundOf (P.shown picture.now) (Q.shown before.now) 0 row above }
    ensures { IsRoundOf (P.shown picture.now) (Q.shown before.now) 0 (row + 1) result }
{
    let mut round = above;
    for col in 0..picture.width().div_ceil(TILE) {
        let tile = tile_of(picture, col, row);
        if !same_on(picture, before, col, row, tile) {
            round = Some(joined(round, tile));
        }
    }
    round
}

/// The tile of a column and a row, as far as it is on the canvas.
fn tile_of<P: Picture>(picture: &P, col: u16, row: u16) -> Sides
    requires col { 64 * col < (P.shown picture.now).width }
    requires row { 64 * row < (P.shown picture.now).height }
    ensures { IsTile (P.shown picture.now) col row result }
{
    let (width, height) = (picture.width(), picture.height());
    Sides {
        left: TILE * col,
        top: TILE * row,
        right: (TILE * col + TILE).min(width),
        bottom: (TILE * row + TILE).min(height),
    }
}

/// The least rectangle round one that may be there and another one.
fn joined(round: Option<Sides>, tile: Sides) -> Sides
    ensures { IsJoined round tile result }
{
    match round {
        None => tile,
        Some(round) => Sides {
            left: round.left.min(tile.left),
            top: round.top.min(tile.top),
            right: round.right.max(tile.right),
            bottom: round.bottom.max(tile.bottom),
        },
    }
}

/// Whether the pictures have the same pixels on a tile.
fn same_on<P: Picture, Q: Picture>(picture: &P, before: &Q, col: u16, row: u16, tile: Sides) -> bool
    requires alike { SameSides (P.shown picture.now) (Q.shown before.now) }
    requires tile { IsTile (P.shown picture.now) col row tile }
    ensures same { result ≡ true → AgreeOn (P.shown picture.now) (Q.shown before.now) col row }
    ensures other { result ≡ false → DifferOn (P.shown picture.now) (Q.shown before.now) col row }
{
    for y in tile.top..tile.bottom {
        if !same_run(
            picture,
            before,
            tile.left,
            y,
            usize::from(tile.right - tile.left),
        ) {
            return false;
        }
    }
    true
}

/// Whether the pictures have the same n pixels in one row of a tile.
fn same_run<P: Picture, Q: Picture>(picture: &P, before: &Q, x: u16, y: u16, n: usize) -> bool
    requires alike { SameSides (P.shown picture.now) (Q.shown before.now) }
    requires columns { x + n ≤ (P.shown picture.now).width }
    requires row { y < (P.shown picture.now).height }
    requires tile { x % 64 + n ≤ 64 }
    ensures same { result ≡ true → (k : ℕ) → k < n
        → (P.shown picture.now).pixel (x + k) y ≡ (Q.shown before.now).pixel (x + k) y }
    ensures other { result ≡ false → (k : ℕ) × ((k < n)
        × ((P.shown picture.now).pixel (x + k) y ≢ (Q.shown before.now).pixel (x + k) y)) }
{
    let mut pixels = [Pixel::CLEAR; TILE_SIDE];
    let mut others = [Pixel::CLEAR; TILE_SIDE];
    picture.pixels_into(x, y, &mut pixels[..n]);
    before.pixels_into(x, y, &mut others[..n]);
    same_pixels(&pixels[..n], &others[..n])
}

/// Whether pixels are the same one by one.
fn same_pixels(pixels: &[Pixel], others: &[Pixel]) -> bool
    requires { length pixels.now ≡ length others.now }
    ensures same { result ≡ true → (k : ℕ) → k < length pixels.now
        → slice_index_or pixels.now k clear ≡ slice_index_or others.now k clear }
    ensures other { result ≡ false → (k : ℕ) × ((k < length pixels.now)
        × (slice_index_or pixels.now k clear ≢ slice_index_or others.now k clear)) }
{
    for k in 0..pixels.len() {
        if pixels[k] != others[k] {
            return false;
        }
    }
    true
}
