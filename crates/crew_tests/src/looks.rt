//! What readers of a writer see.

ghost use Rattle.std.specs.Prelude.{◌≡◌, []};

use geom_core::{NoMemory, TileKey};
use live_view::{LiveOpened, LiveReader, LiveWriter, Naming, NoPlace, Shown, open_live};
use pixel_core::Pixel;
use std::alloc::Global;
use std::marker::Brand;
use std::process::Abort;
use std::sync::Wait;
use std::test::*;
use std::thread::{Threads, join};
use tile_core::Tile;

const CORNER: TileKey = TileKey { row: 0, col: 0 };

fn red() -> Pixel {
    Pixel::new(255, 0, 0, 255)
}

/// What a look shows: the version, and the colour of the tile's first pixel.
fn seen<K: Naming>(reader: &mut LiveReader<K>) -> Option<(u64, Option<Pixel>)> {
    let shown = reader.look(CORNER).ok()?;
    Some((shown.version, shown.tile.map(|tile| tile.pixel(0, 0))))
}

#[test]
fn a_look_shows_what_was_published(rt: HostRuntime) -> Result<(), Fail> {
    let tile = Tile::plain(rt.alloc(), red());
    let looks = looks_of_one_put::<Brand, _>(&rt, rt.alloc(), open_live(), tile);
    let red = Some((1, Some(red())));
    assert_eq!(rt; looks?, [Some((0, None)), Some((0, None)), red, red]);
    Ok(())
}

/// The looks before a tile is put, before it is published, and after what was published is told to the reader, and
/// that of a second reader, which is told nothing. No look is refused.
fn looks_of_one_put<K: Naming, R: Wait>(
    rt: &R,
    alloc: Global,
    opened: LiveOpened,
    tile: Result<Tile, NoMemory>,
) -> Result<[Option<(u64, Option<Pixel>)>; 4], Fail>
    requires { opened ≡ K.book }
{
    let mut writer: LiveWriter<K> = opened.named(alloc, 2)?;
    let looks = looks_at(rt, &mut writer, tile);
    writer.close(rt);
    looks
}

/// The same of a writer that was just opened.
fn looks_at<K: Naming, R: Wait>(
    rt: &R,
    writer: &mut LiveWriter<K>,
    tile: Result<Tile, NoMemory>,
) -> Result<[Option<(u64, Option<Pixel>)>; 4], Fail>
    requires { writer.old ≡ ([], []) }
{
    let (Ok(mut reader), Ok(mut other), Ok(tile)) = (writer.reader(), writer.reader(), tile) else {
        return Err("no memory")?;
    };
    let first = seen(&mut reader);
    let put = writer.put(CORNER, &tile).is_ok();
    let second = seen(&mut reader);
    let published = writer.publish(rt).is_ok();
    reader.learn(&writer.tell());
    let third = seen(&mut reader);
    let fourth = seen(&mut other);
    if !put || !published || reader.refused() > 0 || other.refused() > 0 {
        return Err("no tile was published, or a look was refused")?;
    }
    Ok([first, second, third, fourth])
}

#[test]
fn a_dropped_reader_leaves_its_place(rt: HostRuntime) -> Result<(), Fail> {
    let given = places_of_one::<Brand, _>(&rt, rt.alloc(), open_live());
    assert_eq!(rt; given?, (true, Some(NoPlace), true));
    Ok(())
}

/// Whether a reader was given, what came of a second one beside it, and whether one was given again after it.
fn places_of_one<K: Naming, R: Wait>(
    rt: &R,
    alloc: Global,
    opened: LiveOpened,
) -> Result<(bool, Option<NoPlace>, bool), NoMemory>
    requires { opened ≡ K.book }
{
    let writer: LiveWriter<K> = opened.named(alloc, 1)?;
    let first = writer.reader();
    let second = writer.reader().err();
    let was_given = first.is_ok();
    drop(first);
    let third = writer.reader().is_ok();
    writer.close(rt);
    Ok((was_given, second, third))
}

#[test]
fn a_closed_writer_gives_no_look(rt: HostRuntime) -> Result<(), Fail> {
    let looks = looks_after_close::<Brand, _>(&rt, rt.alloc(), open_live());
    assert_eq!(rt; looks?, Some((false, 1)));
    Ok(())
}

/// Whether a look was given once the writer was closed, and how many were refused.
fn looks_after_close<K: Naming, R: Wait>(
    rt: &R,
    alloc: Global,
    opened: LiveOpened,
) -> Result<Option<(bool, u64)>, NoMemory>
    requires { opened ≡ K.book }
{
    let writer: LiveWriter<K> = opened.named(alloc, 1)?;
    let reader = writer.reader();
    writer.close(rt);
    let Ok(mut reader) = reader else {
        return Ok(None);
    };
    let is_given = reader.look(CORNER).is_ok();
    Ok(Some((is_given, reader.refused())))
}

/// The colour of the update of that number, which counts from 1.
fn colour_of(number: u64) -> Pixel {
    Pixel::new((number % 256) as u8, (number / 256 % 256) as u8, 0, 255)
}

/// The writer's side: so many rows of one update, each in its colour.
fn publish_many<K: Naming, R: Wait>(rt: &R, alloc: Global, writer: &mut LiveWriter<K>, rows: u64) {
    for number in 1..=rows {
        let Ok(tile) = Tile::plain(alloc, colour_of(number)) else {
            return;
        };
        let is_put = writer.count() < 100000 && writer.put(CORNER, &tile).is_ok();
        if !is_put || writer.publish(rt).is_err() {
            return;
        }
    }
}

/// Whether the tile is that of the last update of its version.
fn is_of_its_version(shown: &Shown) -> bool {
    match &shown.tile {
        Some(tile) => shown.version > 0 && tile.pixel(0, 0) == colour_of(shown.version),
        None => shown.version == 0,
    }
}

/// The reader's side: looks until it has seen so many updates, for so many turns at most. Whether the
/// versions never fell, each look showed what the updates up to its version show, and none was refused.
fn look_many<K: Naming>(reader: LiveReader<K>, until: u64) -> bool {
    let mut reader = reader;
    let mut last = 0;
    let mut is_right = true;
    for _ in 0..4_000_000u32 {
        if last >= until {
            break;
        }
        if let Ok(shown) = reader.look(CORNER) {
            is_right = is_right && last <= shown.version && is_of_its_version(&shown);
            last = shown.version;
        }
    }
    is_right && reader.refused() == 0
}

#[test]
fn versions_never_fall(rt: HostRuntime) -> Result<(), Fail> {
    let looked = looked_beside::<Brand, _>(&rt, rt.alloc(), open_live());
    assert_eq!(rt; looked?, (Some((true, 1000)), 1000));
    Ok(())
}

/// What was seen beside a writer, and how many updates it had.
fn looked_beside<K: Naming + Send + Sync, R: Threads + Wait + Sync>(
    rt: &R,
    alloc: Global,
    opened: LiveOpened,
) -> Result<(Option<(bool, u64)>, u64), NoMemory>
    requires { opened ≡ K.book }
{
    let mut writer: LiveWriter<K> = opened.named(alloc, 2)?;
    let looked = looks_beside(rt, alloc, &mut writer);
    let count = writer.count();
    writer.close(rt);
    Ok((looked, count))
}

/// A thread looks while another publishes. At the end a reader that learnt all looks.
fn looks_beside<K: Naming + Send + Sync, R: Threads + Wait + Sync>(
    rt: &R,
    alloc: Global,
    writer: &mut LiveWriter<K>,
) -> Option<(bool, u64)> {
    let reader = writer.reader().ok()?;
    let mut late = writer.reader().ok()?;
    let (_, is_right) = join(
        rt,
        || publish_many(rt, alloc, writer, 1000),
        || look_many(reader, 1000),
    );
    late.learn(&writer.tell());
    let last = late.look(CORNER).ok()?;
    Some((is_right && late.refused() == 0, last.version))
}
