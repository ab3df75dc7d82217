//! Painting, with a screen beside it.

ghost use Rattle.std.specs.Prelude.{◌≡◌, ◌≤◌, ◌-◌, ◌^◌, length};

use crate::screen::watch;
use doc_model::MOST_COMMANDS;
use frame_core::Frame;
use geom_core::NoMemory;
use io_edge::{Failed, NoGate};
use live_run::{live_frame, paint_live};
use live_view::{LiveOpened, LiveReader, LiveWriter, Naming, open_live};
use script_text::Script;
use std::alloc::{AllocError, Global};
use std::io;
use std::marker::Brand;
use std::sync::Wait;
use std::sync::atomic::{AtomicU64, Ordering};
use std::thread::{Threads, join};

/// How many threads paint beside the caller.
const WORKERS: u8 = 3;

/// Why there is no picture.
#[derive(Debug, Drop)]
pub(crate) enum WetError {
    NoMemory,
    Read(io::Error),
    Write,
    /// What was read is no script.
    NotScript,
}

impl From<NoMemory> for WetError {
    fn from(_: NoMemory) -> Self {
        WetError::NoMemory
    }
}

impl From<AllocError> for WetError {
    fn from(_: AllocError) -> Self {
        WetError::NoMemory
    }
}

impl From<Failed> for WetError {
    fn from(_: Failed) -> Self {
        WetError::Write
    }
}

/// Paints the script, and gives the settled picture, as a new reader sees it.
fn paint<K: Naming + Send + Sync, R: Threads + Wait + Sync>(
    rt: &R,
    alloc: Global,
    script: &Script,
    live: &mut LiveWriter<K>,
) -> Result<Frame, NoMemory>
    requires { length script.now.commands ≤ 2 ^ 32 - 1 }
{
    let desk = paint_live(rt, alloc, script, WORKERS, &NoGate, live)?;
    let _commands = script.commands();
    live_frame(alloc, live, &desk)
}

/// Paints the script beside a screen, which has a reader of the writer and writes what it sees.
fn paint_watched<K: Naming + Send + Sync, R: Threads + Wait + Print + Sync>(
    rt: &R,
    alloc: Global,
    script: &Script,
    live: &mut LiveWriter<K>,
    reader: LiveReader<K>,
    every: u64,
) -> Result<Frame, WetError>
    requires { length script.now.commands ≤ 2 ^ 32 - 1 }
{
    let is_over = AtomicU64::new(0);
    let (watched, painted) = join(
        rt,
        || watch(rt, alloc, reader, script, every, &is_over),
        ||
            requires { length script.now.commands ≤ 2 ^ 32 - 1 }
        {
            let painted = paint(rt, alloc, script, live);
            is_over.store(1, Ordering::SeqCst);
            painted
        },
    );
    watched?;
    Ok(painted?)
}

/// The settled picture of the script. Where it is told after how many tiles, the screen writes what it sees
/// meanwhile.
pub(crate) fn picture_of<R: Threads + Wait + Print + Sync>(
    rt: &R,
    alloc: Global,
    script: &Script,
    every: Option<u64>,
) -> Result<Frame, WetError> {
    named_picture::<Brand, R>(rt, alloc, script, every, open_live())
}

/// The picture of `picture_of`, with the live view under a name.
fn named_picture<K: Naming + Send + Sync, R: Threads + Wait + Print + Sync>(
    rt: &R,
    alloc: Global,
    script: &Script,
    every: Option<u64>,
    opened: LiveOpened,
) -> Result<Frame, WetError>
    requires { opened ≡ K.book }
{
    if script.len() > MOST_COMMANDS {
        return Err(WetError::NoMemory);
    }
    let mut live: LiveWriter<K> = opened.named(alloc, 2)?;
    let picture = match (live.reader(), every) {
        (Ok(reader), Some(every)) => {
            paint_watched(rt, alloc, script, &mut live, reader, every.max(1))
        }
        _ => paint(rt, alloc, script, &mut live).map_err(WetError::from),
    };
    live.close(rt);
    picture
}
