//! Dabs.

ghost use Rattle.std.specs.Prelude.{◌≡◌, [], ◌∷◌, ◌+◌, ◌-◌, ◌*◌, ◌≤◌, ◌<◌, ◌≤ℤ◌, ◌+ℤ◌, ◌-ℤ◌, negsuc, pos, true, IfOk, vec_len, length, min};
ghost use Rattle.std.specs.Int.{next_multiple_of};
ghost use Rattle.geom_core.specs.Areas.{lies_in, world};
ghost use Rattle.geom_core.specs.Rects.{IsWithin};
ghost use Rattle.geom_core.specs.Grid.{tile};
ghost use Rattle.geom_core.specs.Keys.{IsWorldKey};
ghost use Rattle.tile_core.specs.Pixels.{HasPixels};
ghost use Rattle.job_core.specs.Tasks.{dab_of};
ghost use Rattle.doc_model.specs.Jobs.{square as square_of};
ghost use Rattle.job_core.specs.Paints.{Leaves};
ghost use Rattle.job_core.specs.Due.{IsDue};
ghost use Rattle.job_core.specs.Made.{dabbed as dabbed_at};
ghost use Rattle.job_core.specs.Laid.{ChangesPart};
ghost use Rattle.job_core.specs.Dabs.{brushed_from, dab_on, DabsRow, HasStrengths, WeakensRow};

use crate::ink::Ink;
use crate::part::part_in;
use brush_mask::{Chord, chord_in_row, mask_row};
use doc_model::square_round;
use geom_core::{NoMemory, Rect, TileKey};
use pixel_core::{Pixel, mul};
use pixel_rows::{lay_colour, lay_masked, tell_canonical};
use std::alloc::Global;
use tile_core::{Block, Part, Shot};

/// How many pixels `lay_masked` lays at once.
const BLOCK: usize = 16;

/// A round brush at a point.
#[derive(Clone, Copy)]
pub struct Brush {
    pub x: i32,
    pub y: i32,
    pub r: u8,
    pub soft: bool,
}

impl Brush {
    /// The square round the point.
    pub fn square(&self) -> Rect
        requires { lies_in (square_of self.now.x self.now.y self.now.r) world ≡ true }
        ensures { result ≡ square_of self.now.x self.now.y self.now.r }
    {
        square_round(self.x, self.y, self.r).unwrap()
    }
}

/// What a dab leaves in the key's tile.
pub fn dabbed(
    alloc: Global,
    shot: &Shot,
    key: TileKey,
    brush: &Brush,
    ink: &Ink,
) -> Result<Block, NoMemory>
    requires { IsDue (dab_of brush.now ink.now) shot.now key }
    ensures { IfOk result (λ b. Leaves (dab_of brush.now ink.now) shot.now key (b ∷ [])) }
{
    let part = part_in(key, &brush.square());
    let pixels = brushed(alloc, shot, key, &part, brush, ink)?;
    Ok(Block::from_pixels(key, part, pixels))
}

/// The shot's pixels on a part of the dab's square, with the dab laid on them.
fn brushed(
    alloc: Global,
    shot: &Shot,
    key: TileKey,
    part: &Rect,
    brush: &Brush,
    ink: &Ink,
) -> Result<Vec<Pixel>, NoMemory>
    // The part lies in the tile, and in the square round the brush, which lies in the world.
    requires key { IsWorldKey key }
    requires inside { IsWithin part.now (tile key) }
    requires radius { brush.now.r ≤ 128 }
    requires round { IsWithin part.now (square_of brush.now.x brush.now.y brush.now.r) }
    requires in_world { IsWithin (square_of brush.now.x brush.now.y brush.now.r) world }

    // Its pixels, in row order.
    ensures all { IfOk result (λ v. vec_len v ≡ part.now.h * part.now.w) }
    ensures has { IfOk result
        (λ v. HasPixels part.now (dabbed_at shot.now brush.now ink.now) v.items) }
{
    let mut pixels = shot.read(alloc, key, part)?;
    let whole = Part {
        left: 0,
        top: 0,
        w: part.w() as usize,
        h: part.h() as usize,
    };
    lay_dab(&mut pixels, whole.w, whole, part, brush, ink);
    Ok(pixels)
}

/// Lays a dab on a part of the square round it, whose pixels stand at that place in rows of that
/// width.
pub fn lay_dab(
    pixels: &mut [Pixel],
    width: usize,
    place: Part,
    part: &Rect,
    brush: &Brush,
    ink: &Ink,
)
    // The place lies in the rows ..
    requires across { place.left + place.w ≤ width }
    requires down { (place.top + place.h) * width ≤ length pixels.old }
    requires few { length pixels.old ≤ 4096 }

    // .. and has the sides of the part, at most a tile's ..
    requires w { place.w ≡ part.now.w }
    requires h { place.h ≡ part.now.h }
    requires some { 1 ≤ place.w × 1 ≤ place.h }
    requires small { place.w ≤ 64 × place.h ≤ 64 }

    // .. which lies in the square round the brush.
    requires radius { brush.now.r ≤ 128 }
    requires round { IsWithin part.now (square_of brush.now.x brush.now.y brush.now.r) }
    ensures { ChangesPart (dab_on brush.now ink.now part.now) width place pixels.old pixels.new }
{
    let dx = steps(brush.x, part.x());
    let dy = steps(brush.y, part.y());
    lay_dab_rows(pixels, width, place, dx, dy, brush, ink);
}

/// How many columns, or rows, to the right of the centre, or below it, x lies.
fn steps(centre: i32, x: i32) -> i16
    requires low { negsuc 127 ≤ℤ (x -ℤ centre) }
    requires high { (x -ℤ centre) ≤ℤ pos 128 }
    ensures { result ≡ x -ℤ centre }
{
    (x - centre) as i16
}

/// Lays a dab on a part of pixels that stand in rows of that width. The part's first pixel is
/// (dx, dy) from the centre.
fn lay_dab_rows(
    pixels: &mut [Pixel],
    width: usize,
    part: Part,
    dx: i16,
    dy: i16,
    brush: &Brush,
    ink: &Ink,
)
    // The part lies in the rows, and has at most a tile's sides ..
    requires across { part.left + part.w ≤ width }
    requires down { (part.top + part.h) * width ≤ length pixels.old }
    requires few { length pixels.old ≤ 4096 }
    requires small { part.w ≤ 64 × part.h ≤ 64 }

    // .. and no column or row of it lies further than 128 from the centre.
    requires radius { brush.now.r ≤ 128 }
    requires left { negsuc 127 ≤ℤ dx }
    requires right { (dx +ℤ pos part.w) ≤ℤ pos 129 }
    requires top { negsuc 127 ≤ℤ dy }
    requires bottom { (dy +ℤ pos part.h) ≤ℤ pos 129 }
    ensures { ChangesPart (brushed_from brush.now ink.now dx dy) width part pixels.old pixels.new }
{
    let mut from = part.top * width + part.left;
    for row in 0..part.h {
        lay_dab_row(
            &mut pixels[from..from + part.w],
            dx,
            dy + row as i16,
            brush,
            ink,
        );
        from += width;
    }
}

/// Lays one row of a dab: a hard one on the columns within its circle alone, a soft one on as many
/// more as make whole blocks.
fn lay_dab_row(row: &mut [Pixel], dx: i16, dy: i16, brush: &Brush, ink: &Ink)
    requires small { length row.old ≤ 64 }
    requires radius { brush.now.r ≤ 128 }

    // No place of the row lies further than 128 from the centre.
    requires left { negsuc 127 ≤ℤ dx }
    requires right { (dx +ℤ pos (length row.old)) ≤ℤ pos 129 }
    requires top { negsuc 127 ≤ℤ dy }
    requires bottom { dy ≤ℤ pos 128 }
    ensures { DabsRow brush.now ink.now dx dy row.old row.new }
{
    tell_canonical(row);
    let chord = chord_in_row(brush.r, dx, dy, row.len());
    if brush.soft {
        let blocks = whole_blocks(chord, row.len());
        let columns = &mut row[blocks.first..blocks.end];
        lay_soft_row(columns, dx + blocks.first as i16, dy, brush, ink);
    } else {
        let columns = &mut row[chord.first..chord.end];
        lay_colour(ink.op, ink.colour, ink.strength, columns);
    }
}

/// The places of a chord and those next to it, in a row of some places: as many as make whole
/// blocks, or the whole row where it has fewer.
fn whole_blocks(chord: Chord, places: usize) -> Chord
    requires small { places ≤ 64 }
    requires order { chord.first ≤ chord.end }
    requires within { chord.end ≤ places }

    // The chord's places are among them, and no place is behind the row.
    ensures left { result.first ≤ chord.first }
    ensures right { chord.end ≤ result.end }
    ensures inside { result.end ≤ places }
    ensures count { result.end
        ≡ result.first + min (next_multiple_of (chord.end - chord.first) BLOCK) places }
{
    let count = (chord.end - chord.first)
        .next_multiple_of(BLOCK)
        .min(places);
    let first = chord.first.min(places - count);
    Chord {
        first,
        end: first + count,
    }
}

/// Lays one row of a dab, each column with its own strength.
fn lay_soft_row(row: &mut [Pixel], dx: i16, dy: i16, brush: &Brush, ink: &Ink)
    requires small { length row.old ≤ 64 }
    requires radius { brush.now.r ≤ 128 }

    // No place of the row lies further than 128 from the centre.
    requires left { negsuc 127 ≤ℤ dx }
    requires right { (dx +ℤ pos (length row.old)) ≤ℤ pos 129 }
    requires top { negsuc 127 ≤ℤ dy }
    requires bottom { dy ≤ℤ pos 128 }
    ensures { DabsRow brush.now ink.now dx dy row.old row.new }
{
    let mut places = [0; 64];
    let strengths = &mut places[..row.len()];
    write_strengths(strengths, dx, dy, brush, ink);
    lay_masked(ink.op, ink.colour, strengths, row);
}

/// Writes a dab's strengths along a row, of which the first place is (dx, dy) from the centre.
fn write_strengths(row: &mut [u8], dx: i16, dy: i16, brush: &Brush, ink: &Ink)
    requires radius { brush.now.r ≤ 128 }
    requires left { negsuc 127 ≤ℤ dx }
    requires right { (dx +ℤ pos (length row.old)) ≤ℤ pos 129 }
    requires top { negsuc 127 ≤ℤ dy }
    requires bottom { dy ≤ℤ pos 128 }
    ensures { HasStrengths brush.now ink.now dx dy row.new }
{
    mask_row(brush.r, brush.soft, dx, dy, row);
    if ink.strength != 255 {
        weaken(row, ink.strength);
    }
}

/// Multiplies each of a row's strengths by another one.
fn weaken(row: &mut [u8], strength: u8)
    ensures { WeakensRow strength row.old row.new }
{
    for i in 0..row.len() {
        row[i] = mul(row[i], strength);
    }
}
