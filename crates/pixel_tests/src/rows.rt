//! Rows against pixels that are composed one by one.

use pixel_core::{Op, Pixel, compose};
use pixel_rows::{compose_row, lay_colour, lay_masked, lay_sources};

/// The longest row that is tried.
const LONGEST: usize = 100;

const LENGTHS: [usize; 7] = [0, 1, 15, 16, 17, 67, 100];

const OPS: [Op; 5] = [Op::Over, Op::Erase, Op::Multiply, Op::Screen, Op::Addition];

/// What pixels a row has.
#[derive(Clone, Copy)]
enum Kind {
    Mixed,
    Opaque,
    Clear,
    /// One pixel, which covers in part.
    Plain,
    /// Blocks that are mixed, clear and opaque by turns.
    Blocks,
    /// Channels whose means lie halfway between two numbers.
    Halves,
    /// Channels at the ends and in the middle of what a byte holds.
    Ends,
}

/// The ends and the middle of what a byte holds.
const BYTES: [u8; 6] = [0, 1, 127, 128, 254, 255];

const KINDS: [Kind; 7] = [
    Kind::Mixed,
    Kind::Opaque,
    Kind::Clear,
    Kind::Plain,
    Kind::Blocks,
    Kind::Halves,
    Kind::Ends,
];

fn end(b: u8) -> u8 {
    BYTES[b as usize % 6]
}

/// The pixel at a place of such a row.
fn pixel_at(kind: Kind, seed: u32, i: usize) -> Pixel {
    let n = (i % 65_536) as u32 * 40_503 + seed % 65_536 * 251;
    let [r, g, b, a] = (n ^ (n >> 7)).to_le_bytes();
    match kind {
        Kind::Mixed => Pixel::new(r, g, b, a ^ b ^ g),
        Kind::Opaque => Pixel::new(r, g, b, 255),
        Kind::Clear => Pixel::CLEAR,
        Kind::Plain => Pixel::new(90, 160, 40, 150),
        Kind::Blocks => match i / 16 % 3 {
            0 => Pixel::new(r, g, b, a ^ b ^ g),
            1 => Pixel::CLEAR,
            _ => Pixel::new(r, g, b, 255),
        },
        Kind::Halves => Pixel::new(r & 254, g | 1, b, if seed % 2 == 0 { 30 } else { 34 }),
        Kind::Ends => Pixel::new(end(r), end(g), 255 - end(r), end(b)),
    }
}

fn row_of(kind: Kind, seed: u32) -> [Pixel; LONGEST] {
    let mut row = [Pixel::CLEAR; LONGEST];
    for i in 0..LONGEST {
        row[i] = pixel_at(kind, seed, i);
    }
    row
}

/// Blocks of strengths: none, whole, mixed, and the ends and the middle by turns.
fn mask_of(seed: u8) -> [u8; LONGEST] {
    let mut mask = [0; LONGEST];
    for i in 0..LONGEST {
        mask[i] = match i / 16 % 4 {
            0 => 0,
            1 => 255,
            2 => ((i % 256) as u32 * 37 % 256 ^ seed as u32 % 256) as u8,
            _ => BYTES[(i + seed as usize) % 6],
        };
    }
    mask
}

/// How many of the first pixels aren't the sources composed with the old ones.
fn wrong_of(
    op: Op,
    sources: &[Pixel; LONGEST],
    strengths: &[u8; LONGEST],
    old: &[Pixel; LONGEST],
    new: &[Pixel; LONGEST],
    len: usize,
) -> u32 {
    let mut wrong = 0u32;
    for i in 0..LONGEST {
        let expected = if i < len {
            compose(op, sources[i], old[i], strengths[i])
        } else {
            old[i]
        };
        wrong = wrong.saturating_add(u32::from(new[i] != expected));
    }
    wrong
}

/// How many pixels the four functions get wrong.
fn wrongs(op: Op, above: Kind, below: Kind, len: usize, strength: u8) -> u32 {
    let len = len.min(LONGEST);
    let (sources, old, mask) = (row_of(above, 6), row_of(below, 7), mask_of(strength));
    let colour = sources[5];
    let mut laid = old;
    lay_sources(op, &sources[..len], strength, &mut laid[..len]);
    let by_sources = wrong_of(op, &sources, &[strength; LONGEST], &old, &laid, len);
    let mut laid = old;
    lay_colour(op, colour, strength, &mut laid[..len]);
    let by_colour = wrong_of(
        op,
        &[colour; LONGEST],
        &[strength; LONGEST],
        &old,
        &laid,
        len,
    );
    let mut laid = old;
    lay_masked(op, colour, &mask[..len], &mut laid[..len]);
    let by_mask = wrong_of(op, &[colour; LONGEST], &mask, &old, &laid, len);
    let mut laid = old;
    compose_row(op, &sources[..len], &mut laid[..len], &mask[..len]);
    let by_row = wrong_of(op, &sources, &mask, &old, &laid, len);
    by_sources
        .saturating_add(by_colour)
        .saturating_add(by_mask)
        .saturating_add(by_row)
}

/// The same for rows of all kinds and lengths.
fn all_wrongs(op: Op, strength: u8) -> u32 {
    let mut wrong = 0u32;
    for above in KINDS {
        for below in KINDS {
            for len in LENGTHS {
                wrong = wrong.saturating_add(wrongs(op, above, below, len, strength));
            }
        }
    }
    wrong
}

#[test]
fn rows_are_composed_pixels(rt: HostRuntime) {
    for op in OPS {
        for strength in [255, 254, 200, 1, 0] {
            assert_eq!(rt; all_wrongs(op, strength), 0);
        }
    }
}

#[test]
fn lays_rows(rt: HostRuntime) {
    let s = Pixel::new(10, 20, 30, 100);
    let d = Pixel::new(200, 100, 50, 60);
    let laid = Pixel::new(61, 41, 35, 136);
    let mut row = [d, Pixel::CLEAR, d];
    lay_colour(Op::Over, s, 255, &mut row);
    assert_eq!(rt; row, [laid, s, laid]);
    let mut row = [d, Pixel::CLEAR, d];
    lay_masked(Op::Over, s, &[0, 255, 255], &mut row);
    assert_eq!(rt; row, [d, s, laid]);
    let mut row = [d, Pixel::CLEAR, d];
    lay_sources(Op::Over, &[Pixel::CLEAR, s, s], 255, &mut row);
    assert_eq!(rt; row, [d, s, laid]);
    let mut row = [d, Pixel::CLEAR, d];
    compose_row(Op::Over, &[s; 3], &mut row, &[0, 255, 255]);
    assert_eq!(rt; row, [d, s, laid]);
}
