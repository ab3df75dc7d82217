//! Who paints: the workers that the words ask for and the caller, or artists.

use crate::runs::{ran_at, sink_of, source_of};
use io_edge::Gate;
use std::alloc::Global;
use std::sync::Wait;
use std::sync::atomic::{AtomicU64, Ordering};
use std::test::*;
use std::thread;
use std::thread::Threads;

/// How many turns the first waits at most.
const TURNS: u32 = 4_000_000;

/// Holds the first job, or the first artist, until the second was entered, for so many turns at most.
#[derive(Drop)]
struct Meet {
    entered: AtomicU64,
    met: AtomicU64,
}

impl Meet {
    /// Notes the second, and holds the first.
    fn enter(&self, is_first: bool, is_second: bool) {
        if is_second {
            self.entered.store(1, Ordering::SeqCst);
        }
        if is_first {
            for _ in 0..TURNS {
                if self.entered.load(Ordering::SeqCst) == 1 {
                    self.met.store(1, Ordering::SeqCst);
                    return;
                }
                thread::yield_now();
            }
        }
    }
}

impl Gate for Meet {
    fn painting(&self, _stroke: u32, job: u32) {
        self.enter(job == 1, job == 2);
    }

    fn sending(&self, artist: u32) {
        self.enter(artist == 0, artist == 1);
    }
}

/// A stroke of two concurrent fills in one tile.
const TWO_FILLS: &[u8] =
    b"canvas 64 1\nlayer 1 0 0\nstroke 1 1\nfill 1 con 0 0 32 1 ff0000ff over 255\nfill 1 con 32 0 32 1 0000ffff over 255\nend 1\nexport\n";

/// The same, but each of several tiles.
const TWO_LARGE_FILLS: &[u8] =
    b"canvas 64 1\nlayer 1 0 0\nstroke 1 1\nfill 1 con 0 0 200 200 ff0000ff over 255\nfill 1 con 200 0 200 200 0000ffff over 255\nend 1\nexport\n";

/// A stroke of so many concurrent fills of one point.
fn points(alloc: Global, count: u32) -> Result<Vec<u8>, Fail> {
    let mut script = b"canvas 64 1\nlayer 1 0 0\nstroke 1 1\n".to_vec(alloc)?;
    for x in 0..count {
        let line = format!(in alloc; "fill 1 con {x} 0 1 1 ff0000ff over 255\n")?;
        script.extend_from_slice(line.as_bytes())?;
    }
    script.extend_from_slice(b"end 1\nexport\n")?;
    Ok(script)
}

/// A layer of the first artist, and a stroke of the second.
const TWO_ARTISTS: &[u8] = b"canvas 1 1\nlayer 1 0 0\nstroke 1 1\nend 1\n";

/// Whether the second was entered while the first was held, by these words. Artists may make their strokes
/// before the layer is there, and a stroke is refused then.
fn meets<R: Threads + Wait + Sync>(
    rt: &R,
    alloc: Global,
    words: &str,
    script: &[u8],
) -> Result<bool, Fail> {
    let gate = Meet {
        entered: AtomicU64::new(0),
        met: AtomicU64::new(0),
    };
    let source = source_of(alloc, script)?;
    let out = sink_of(alloc, 256)?;
    let got = ran_at(rt, alloc, words, source, out, sink_of(alloc, 128)?, &gate)?;
    Ok(got.code <= 1 && gate.met.load(Ordering::SeqCst) == 1)
}

/// Two jobs of a run are painted side by side where there are workers, and one after another by the caller
/// alone.
#[test]
fn the_workers_that_are_asked_for(rt: HostRuntime) -> Result<(), Fail> {
    for _ in 0..16 {
        for script in [TWO_FILLS, TWO_LARGE_FILLS] {
            for words in [
                "",
                "--workers 1",
                "--workers 2",
                "--workers 2 --emit live",
                "--workers 8",
                "--workers 16 --emit log",
            ] {
                assert!(rt; meets(&rt, rt.alloc(), words, script)?, "{words}");
            }
        }
    }
    for script in [TWO_FILLS, TWO_LARGE_FILLS] {
        assert!(rt; !meets(&rt, rt.alloc(), "--workers 0", script)?);
    }
    Ok(())
}

/// Where there are more than 64 jobs and these are small, the caller paints alone.
#[test]
fn few_jobs_and_many(rt: HostRuntime) -> Result<(), Fail> {
    let few = points(rt.alloc(), 64)?;
    let many = points(rt.alloc(), 65)?;
    assert!(rt; meets(&rt, rt.alloc(), "--workers 2", &few)?);
    assert!(rt; !meets(&rt, rt.alloc(), "--workers 2", &many)?);
    Ok(())
}

/// Two artists draw side by side.
#[test]
fn the_artists_that_are_asked_for(rt: HostRuntime) -> Result<(), Fail> {
    for _ in 0..40 {
        let is_met = meets(&rt, rt.alloc(), "--artists 2", TWO_ARTISTS)?;
        assert!(rt; is_met);
    }
    Ok(())
}
