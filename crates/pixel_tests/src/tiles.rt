//! Tiles, blocks, shots, frames, films and damage.

ghost use Rattle.std.specs.Prelude.{◌≡◌, ◌≤◌, ◌∷◌, ◌++◌, [], Some, IfOk, OnOk};
ghost use Rattle.std.specs.FinMap as map;
ghost use Rattle.frame_core.specs.Films.{newest};
ghost use Rattle.frame_core.specs.Frames.{scene, with_put};

use crate::fixtures::{ORIGIN, RED, crosses, opaque, rect, shows};
use frame_core::{Damage, Film, Frame, Marks, Ply};
use geom_core::{NoMemory, TileKey};
use pixel_core::{Op, Pixel};
use std::alloc::Global;
use std::test::Fail;
use tile_core::{Block, Shot, Tile};

/// The tile to the right of that one.
const SECOND: TileKey = TileKey { row: 0, col: 1 };

#[test]
fn tiles_and_a_block_on_a_shared_one(rt: HostRuntime) -> Result<(), Fail> {
    let alloc = rt.alloc();
    let tile = Tile::clear(alloc)?;
    let shared = tile.share()?;
    let mut block = Block::new(alloc, ORIGIN, rect(&rt, 0, 0, 1, 1))?;
    block.set(0, 0, opaque(255, 0, 0));
    let written = tile.with_region(alloc, &block)?;
    let plain = Tile::plain(alloc, Pixel::new(1, 2, 3, 77))?;
    let [none, faint] = [[0; 4], [1, 2, 3, 77]];
    for (tile, corner, next, last) in [
        (&written, RED, none, none),
        (&tile, none, none, none),
        (&shared, none, none, none),
        (&plain, faint, faint, faint),
    ] {
        shows(&rt, tile, [(0, 0, corner), (1, 0, next), (63, 63, last)]);
    }
    crosses(&block);
    crosses(&written);
    Ok(())
}

#[test]
fn a_shot(rt: HostRuntime) -> Result<(), Fail> {
    let alloc = rt.alloc();
    let ground = Pixel::new(1, 2, 3, 77);
    let red = opaque(255, 0, 0);
    let left = rect(&rt, -2, 0, 4, 1);
    let mut shot = Shot::new(alloc, &[left], ground)?;
    shot.put(ORIGIN, &Tile::plain(alloc, red)?)?;
    crosses(&shot);
    assert_eq!(rt;
        shot.pixels_on(alloc, &left)?.as_slice(),
        [ground, ground, red, red].as_slice()
    );
    let right = rect(&rt, 0, 0, 2, 1);
    assert_eq!(rt;
        shot.read(alloc, ORIGIN, &right)?.as_slice(),
        [red, red].as_slice()
    );
    let shared = shot.share()?;
    shot.put(TileKey { row: 0, col: -1 }, &Tile::plain(alloc, red)?)?;
    assert_eq!(rt;
        shot.pixels_on(alloc, &left)?.as_slice(),
        [red; 4].as_slice()
    );
    assert_eq!(rt;
        shared.pixels_on(alloc, &left)?.as_slice(),
        [ground, ground, red, red].as_slice()
    );
    Ok(())
}

#[test]
fn a_frame(rt: HostRuntime) -> Result<(), Fail> {
    let alloc = rt.alloc();
    let mut frame = Frame::new(alloc, 1, 1, opaque(0x33, 0x66, 0x99))?;
    frame.put(ORIGIN, &Tile::plain(alloc, Pixel::new(255, 0, 0, 128))?)?;
    crosses(&frame);
    let mut row = [7; 4];
    frame.row_into(0, &mut row);
    assert_eq!(rt; row, [153, 51, 76, 7]);
    Ok(())
}

#[test]
fn a_frame_of_plies(rt: HostRuntime) -> Result<(), Fail> {
    let alloc = rt.alloc();
    let mut frame = Frame::new(alloc, 1, 1, opaque(0x33, 0x66, 0x99))?;
    let mut plies = Vec::new(alloc);
    plies.push(Ply::Plain {
        pixel: opaque(0, 255, 0),
        op: Op::Over,
        opacity: 255,
    })?;
    plies.push(Ply::Open)?;
    plies.push(Ply::Tile {
        tile: Tile::plain(alloc, Pixel::new(255, 0, 0, 128))?,
        op: Op::Over,
        opacity: 255,
    })?;
    plies.push(Ply::Close {
        op: Op::Over,
        opacity: 128,
    })?;
    frame.put_plies(alloc, ORIGIN, plies)?;
    let mut shared = Frame::new(alloc, 1, 1, opaque(0x33, 0x66, 0x99))?;
    shared.put_of(ORIGIN, &frame)?;
    let mut row = [7; 4];
    frame.row_into(0, &mut row);
    assert_eq!(rt; row, [64, 191, 0, 7]);
    shared.row_into(0, &mut row);
    assert_eq!(rt; row, [64, 191, 0, 7]);
    assert_eq!(rt; frame.at(0, 0), [64, 191, 0]);
    assert_eq!(rt; shared.at(0, 0), [64, 191, 0]);
    Ok(())
}

#[test]
fn marked_tiles(rt: HostRuntime) {
    let mut marks = Marks::none();
    let outside = TileKey { row: 0, col: -1 };
    for (key, marked) in [(SECOND, true), (outside, false)] {
        marks.mark(key);
        assert_eq!(rt; marks.has(key), marked);
    }
}

/// Two tiles side by side, 65 by 1 points: the left one is given, and the paper shows on the right.
fn half_covered(alloc: Global, paper: Pixel, left: &Tile) -> Result<Frame, NoMemory>
    requires opaque { paper.a ≡ 255 }
    ensures { IfOk result (λ f. f ≡ with_put (scene 65 1 paper map.empty) ORIGIN left.now) }
{
    let mut frame = Frame::new(alloc, 65, 1, paper)?;
    frame.put(ORIGIN, left)?;
    Ok(frame)
}

/// Puts the tile on the right of a frame like the newest one, and adds it to the film.
fn push_covered(film: &mut Film, mut frame: Frame, right: &Tile) -> Result<(), NoMemory>
    requires newest { newest film.old ≡ Some frame }
    requires width { frame.width ≡ 65 }
    requires height { frame.height ≡ 1 }
    ensures { OnOk result (film.new ≡ film.old ++ with_put frame SECOND right.now ∷ []) }
{
    frame.put(SECOND, right)?;
    let mut fresh = Marks::none();
    fresh.mark(SECOND);
    film.push(frame, fresh)
}

#[test]
fn a_film_of_two_frames(rt: HostRuntime) -> Result<(), Fail> {
    let alloc = rt.alloc();
    let paper = opaque(0x33, 0x66, 0x99);
    let left = Tile::plain(alloc, opaque(1, 2, 3))?;
    let mut film = Film::new(alloc);
    film.push(half_covered(alloc, paper, &left)?, Marks::none())?;
    let right = Tile::plain(alloc, opaque(4, 5, 6))?;
    push_covered(&mut film, half_covered(alloc, paper, &left)?, &right)?;
    let mut picture = [7; 195];
    film.frames()[0].rows_into(0, 1, &mut picture);
    assert_eq!(rt; &picture[189..], [1, 2, 3, 0x33, 0x66, 0x99].as_slice());
    film.rows_after(1, 0, 1, &mut picture);
    assert_eq!(rt; &picture[189..], [1, 2, 3, 4, 5, 6].as_slice());
    Ok(())
}

#[test]
fn damage_grows_in_its_tiles(rt: HostRuntime) {
    let mut damage = Damage::none();
    for added in [
        rect(&rt, 60, 10, 10, 5),
        rect(&rt, 72, 30, 1, 1),
        rect(&rt, -10, -10, 5, 5),
    ] {
        damage.add(&added);
    }
    for (key, part) in [
        (ORIGIN, Some(rect(&rt, 60, 10, 4, 5))),
        (SECOND, Some(rect(&rt, 64, 10, 9, 21))),
        (TileKey { row: -1, col: -1 }, None),
    ] {
        assert!(rt; damage.part(key) == part);
    }
    let last = TileKey { row: 31, col: 31 };
    assert!(rt; Damage::all().part(last) == Some(rect(&rt, 1984, 1984, 64, 64)));
}
