//! Gates that hold threads up, and count.

use io_edge::Gate;
use std::sync::atomic::{AtomicU64, Ordering};
use std::thread;

/// How many turns a held job waits at most.
const TURNS: u32 = 4_000_000;

/// Holds the first job of the first stroke until the second was entered, for so many turns at most.
#[derive(Drop)]
pub(crate) struct Meet {
    entered: AtomicU64,
    met: AtomicU64,
}

impl Meet {
    pub(crate) fn new() -> Meet {
        Meet {
            entered: AtomicU64::new(0),
            met: AtomicU64::new(0),
        }
    }

    /// Whether the second job was entered while the first was held.
    pub(crate) fn was_met(&self) -> bool {
        self.met.load(Ordering::SeqCst) == 1
    }
}

impl Gate for Meet {
    fn painting(&self, stroke: u32, job: u32) {
        if stroke == 1 && job == 2 {
            self.entered.store(1, Ordering::SeqCst);
        }
        if stroke == 1 && job == 1 {
            for _ in 0..TURNS {
                if self.entered.load(Ordering::SeqCst) == 1 {
                    self.met.store(1, Ordering::SeqCst);
                    return;
                }
                thread::yield_now();
            }
        }
    }
}

/// Yields a number of times that is drawn from a seed, and counts the jobs, with the sum of their numbers.
#[derive(Drop)]
pub(crate) struct Yields {
    drawn: AtomicU64,
    jobs: AtomicU64,
    numbers: AtomicU64,
}

impl Yields {
    pub(crate) fn new(seed: u64) -> Yields {
        Yields {
            drawn: AtomicU64::new(seed),
            jobs: AtomicU64::new(0),
            numbers: AtomicU64::new(0),
        }
    }

    /// How often a job entered, and the sum of a thousand times the strokes' numbers and the jobs'.
    pub(crate) fn entered(&self) -> (u64, u64) {
        (
            self.jobs.load(Ordering::SeqCst),
            self.numbers.load(Ordering::SeqCst),
        )
    }
}

impl Gate for Yields {
    fn painting(&self, stroke: u32, job: u32) {
        let drawn = self
            .drawn
            .fetch_add(6364136223846793005, Ordering::SeqCst)
            .wrapping_mul(1442695040888963407);
        for _ in 0..(drawn >> 58) {
            thread::yield_now();
        }
        let number = u64::from(stroke)
            .wrapping_mul(1000)
            .wrapping_add(u64::from(job));
        self.jobs.fetch_add(1, Ordering::SeqCst);
        self.numbers.fetch_add(number, Ordering::SeqCst);
    }
}

/// Counts how often it is told of each of 16 artists, in four bits for each.
#[derive(Drop)]
pub(crate) struct Senders {
    told: AtomicU64,
}

impl Senders {
    pub(crate) fn new() -> Senders {
        Senders {
            told: AtomicU64::new(0),
        }
    }

    /// Whether it was told just once of each of the first so many artists, and of no others.
    pub(crate) fn was_told_once(&self, artists: u8) -> bool {
        let mut each = 0u64;
        for artist in 0..u32::from(artists) {
            each = each.wrapping_add(artist_bit(artist));
        }
        self.told.load(Ordering::SeqCst) == each
    }
}

/// The lowest of the artist's four bits.
fn artist_bit(artist: u32) -> u64 {
    if artist < 16 { 1 << (4 * artist) } else { 0 }
}

impl Gate for Senders {
    fn painting(&self, _stroke: u32, _job: u32) {}

    fn sending(&self, artist: u32) {
        self.told.fetch_add(artist_bit(artist), Ordering::SeqCst);
    }
}
