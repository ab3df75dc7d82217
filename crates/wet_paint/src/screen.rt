//! What the screen's thread does: it looks, and writes what it sees.

ghost use Rattle.std.specs.Prelude.{◌≡◌, ◌≤ℤ◌, ◌<ℤ◌, ◌*ℤ◌, pos, true};
ghost use Rattle.live_view.specs.Views.{IsOnCanvas};
ghost use Rattle.frame_core.specs.Frames.{IsTileOf};

use crate::paint::WetError;
use frame_core::Frame;
use geom_core::{NoMemory, TILE_SIDE, TileKey};
use io_edge::StdSink;
use live_view::{LiveReader, Naming};
use ppm_out::write_frame;
use script_text::Script;
use std::alloc::Global;
use std::sync::Wait;
use std::sync::atomic::{AtomicU64, Ordering};
use std::thread::Threads;
use std::{io, thread};

/// How many tiles the largest canvas has: 32 rows of 32.
const TILES: u32 = 1024;

/// The tile at a place of the largest canvas, in row order.
#[tactic(auto, using(std::proofs::lemmas::Bool::Decides::nat_tests))]
fn key_at(place: u32) -> TileKey
    ensures { IsOnCanvas result }
{
    TileKey {
        row: (place / 32 % 32) as i16,
        col: (place % 32) as i16,
    }
}

/// The script's canvas without a tile.
fn bare(alloc: Global, script: &Script) -> Result<Frame, NoMemory> {
    let canvas = script.canvas();
    let _commands = script.commands();
    Frame::new(alloc, canvas.w, canvas.h, canvas.paper)
}

/// Whether the key is that of a tile of the frame's canvas.
fn has_tile(frame: &Frame, key: TileKey) -> bool
    ensures { result ≡ true → IsTileOf frame.now key }
{
    lies_in(key.col, frame.width()) && lies_in(key.row, frame.height())
}

/// Whether a column of tiles has some of so many columns of points, or a row of so many rows.
fn lies_in(tile: i16, points: u16) -> bool
    ensures { result ≡ true → (pos 0 ≤ℤ tile) × ((pos 64 *ℤ tile) <ℤ pos points) }
{
    0 <= tile && TILE_SIDE as i32 * i32::from(tile) < i32::from(points)
}

/// Puts the tile that the reader sees into the frame, if there is one.
fn put_seen<K: Naming>(
    reader: &mut LiveReader<K>,
    key: TileKey,
    frame: &mut Frame,
) -> Result<(), NoMemory>
    requires key { IsOnCanvas key }
    requires inside { IsTileOf frame.old key }
{
    if let Ok(shown) = reader.look(key) {
        if let Some(tile) = shown.tile {
            return frame.put(key, &tile);
        }
    }
    Ok(())
}

/// The picture that the reader sees. Where a look is refused the paper shows.
fn picture<K: Naming>(
    alloc: Global,
    reader: &mut LiveReader<K>,
    script: &Script,
) -> Result<Frame, NoMemory> {
    let mut frame = bare(alloc, script)?;
    for place in 0..TILES {
        let key = key_at(place);
        if has_tile(&frame, key) {
            put_seen(reader, key, &mut frame)?;
        }
    }
    Ok(frame)
}

/// How many updates the reader sees.
fn version<K: Naming>(reader: &mut LiveReader<K>) -> u64 {
    match reader.look(key_at(0)) {
        Ok(shown) => shown.version,
        Err(_) => 0,
    }
}

/// Writes a picture each time that so many further tiles were published, until the painting is over.
pub(crate) fn watch<K: Naming, R: Threads + Wait + Print + Sync>(
    rt: &R,
    alloc: Global,
    reader: LiveReader<K>,
    script: &Script,
    every: u64,
    is_over: &AtomicU64,
) -> Result<(), WetError> {
    let mut reader = reader;
    let mut due = every;
    for _ in rt.forever() {
        if is_over.load(Ordering::SeqCst) == 1 {
            return Ok(());
        }
        let seen = version(&mut reader);
        if seen >= due {
            write_picture(rt, alloc, &picture(alloc, &mut reader, script)?)?;
            due = seen.saturating_add(every);
        } else {
            thread::yield_now();
        }
    }
    unreachable!()
}

/// Writes a picture as a pixmap.
pub(crate) fn write_picture<R: Print>(
    rt: &R,
    alloc: Global,
    picture: &Frame,
) -> Result<(), WetError> {
    let mut row = vec![in alloc; 0; 3 * picture.width() as usize]?;
    write_frame(picture, &mut row, &mut StdSink::new(io::writer(rt)))?;
    Ok(())
}
