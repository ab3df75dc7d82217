//! Sources and sinks over bytes in memory, which fail when they are told to.

ghost use Rattle.std.specs.Prelude.{◌≡◌, ◌<◌, ◌≤◌, ◌+◌, ◌==◌, ◌||◌, [], Some, length, min, is_err, IfOk, OnOk, OnErr};
ghost use Rattle.std.specs.Io.{ReadsAtMost};
ghost use Rattle.std.specs.Io.KnownBytes.{ReadConsumes, WriteAppends};
ghost use Rattle.io_edge.specs.Faults.{HasCause};
ghost use Rattle.io_edge.specs.Told.{one_more};
ghost use Rattle.io_edge.specs.Memory.{fails_at};

use crate::outside::{Failed, Sink, Source};
use std::marker::Model;

/// Whether the call of this number, counted from 1, is to fail.
fn is_failing(failing: &[u32], call: u64) -> bool
    ensures { result ≡ fails_at failing.now call }
{
    failing.iter().any(|n| u64::from(*n) == call)
}

/// A source over bytes in memory.
#[derive(Drop)]
pub struct MemSource {
    bytes: Vec<u8>,
    at: usize,
    most: usize,
    failing: Vec<u32>,
    calls: u64,
    faults: u64,
}

impl Model for MemSource {
    ghost use Rattle.std.specs.Prelude.{◌≡◌, ◌≤◌, ◌<◌, [], drop, length};
    ghost use Rattle.io_edge.specs.Memory.{Supply};

    ghost Value = { Supply };

    ghost view = { λ s. record { left = drop s.at s.bytes.items; most = s.most; failing = s.failing.items; calls = s.calls; faults = s.faults } };

    ghost invariant = { λ s. (s.at ≤ length s.bytes.items) × (0 < s.most) × (s.failing.items ≡ [] → s.faults ≡ 0) };
}

impl MemSource {
    /// A source of these bytes that passes at most `most` a call, at least 1, and fails at the calls
    /// whose numbers, counted from 1, stand in `failing`.
    pub fn new(bytes: Vec<u8>, most: usize, failing: Vec<u32>) -> MemSource
        requires { 0 < most }
        ensures { result ≡ record {
          left = bytes.items;
          most = most;
          failing = failing.items;
          calls = 0;
          faults = 0;
        } }
    {
        MemSource {
            bytes,
            at: 0,
            most,
            failing,
            calls: 0,
            faults: 0,
        }
    }

    /// How many calls have failed, up to 2 ^ 64 - 1.
    pub fn faults(&self) -> u64
        ensures value { result ≡ self.now.faults }
        ensures none_without_failing { self.now.failing ≡ [] → result ≡ 0 }
    {
        self.faults
    }
}

impl Source for MemSource {
    ghost left = { λ s. Some s.left };

    ghost faults = { λ s. s.faults };

    /// It fails just at the calls that are to fail, and counts these.
    fn read(&mut self, buf: &mut [u8]) -> Result<usize, Failed>
        requires { 0 < length buf.old }

        // As of every source.
        ensures bound { ReadsAtMost result buf.new }
        ensures bytes { ReadConsumes (Some self.old.left) (Some self.new.left) result buf.new }
        ensures cause { HasCause self.old.faults self.new.faults result }

        // Which calls fail, and how much the others pass.
        ensures fails { is_err result ≡ fails_at self.old.failing (one_more self.old.calls) }
        ensures passed { IfOk result (λ n. n ≡ min (min (length buf.old) self.old.most)
            (length self.old.left)) }

        // What is counted.
        ensures counted { self.new.calls ≡ one_more self.old.calls }
        ensures one_fault { OnErr result (self.new.faults ≡ one_more self.old.faults) }
        ensures no_fault { OnOk result (self.new.faults ≡ self.old.faults) }

        // What stays.
        ensures same_most { self.new.most ≡ self.old.most }
        ensures same_failing { self.new.failing ≡ self.old.failing }
    {
        self.calls = self.calls.saturating_add(1);
        if is_failing(&self.failing, self.calls) {
            self.faults = self.faults.saturating_add(1);
            return Err(Failed);
        }
        let n = buf.len().min(self.most).min(self.bytes.len() - self.at);
        buf[..n].copy_from_slice(&self.bytes[self.at..self.at + n]);
        self.at += n;
        Ok(n)
    }
}

/// A sink into room in memory.
#[derive(Drop)]
pub struct MemSink {
    room: Vec<u8>,
    len: usize,
    most: usize,
    failing: Vec<u32>,
    calls: u64,
    faults: u64,
    full_writes: u64,
}

impl Model for MemSink {
    ghost use Rattle.std.specs.Prelude.{◌≡◌, ◌≤◌, ◌<◌, ◌-◌, [], take, length};
    ghost use Rattle.io_edge.specs.Memory.{Store};

    ghost Value = { Store };

    ghost view = { λ s. record { taken = take s.len s.room.items; free = length s.room.items - s.len; most = s.most; failing = s.failing.items; calls = s.calls; faults = s.faults; full_writes = s.full_writes } };

    ghost invariant = { λ s. (s.len ≤ length s.room.items) × (0 < s.most) × (s.failing.items ≡ [] → s.faults ≡ s.full_writes) };
}

impl MemSink {
    /// A sink that takes at most `most` bytes a call, at least 1, into the places of `room`, and fails
    /// at the calls whose numbers, counted from 1, stand in `failing`, and where the room is full.
    pub fn new(room: Vec<u8>, most: usize, failing: Vec<u32>) -> MemSink
        requires { 0 < most }
        ensures { result ≡ record {
          taken = [];
          free = length room.items;
          most = most;
          failing = failing.items;
          calls = 0;
          faults = 0;
          full_writes = 0;
        } }
    {
        MemSink {
            room,
            len: 0,
            most,
            failing,
            calls: 0,
            faults: 0,
            full_writes: 0,
        }
    }

    /// What it took.
    pub fn bytes(&self) -> &[u8]
        ensures { result.now ≡ self.now.taken }
    {
        &self.room[..self.len]
    }

    /// How many calls have failed, up to 2 ^ 64 - 1.
    pub fn faults(&self) -> u64
        ensures value { result ≡ self.now.faults }
        ensures full_without_failing { self.now.failing ≡ [] → result ≡ self.now.full_writes }
    {
        self.faults
    }
}

impl Sink for MemSink {
    ghost taken = { λ s. Some s.taken };

    ghost faults = { λ s. s.faults };

    /// It fails just at the calls that are to fail and where the room is full, and counts these.
    fn write(&mut self, piece: &[u8]) -> Result<usize, Failed>
        requires { 0 < length piece.now }

        // As of every sink.
        ensures some { IfOk result (λ n. 0 < n) }
        ensures bound { IfOk result (λ n. n ≤ length piece.now) }
        ensures bytes { WriteAppends (Some self.old.taken) (Some self.new.taken) result piece.now }
        ensures cause { HasCause self.old.faults self.new.faults result }

        // Which calls fail, and how much the others take.
        ensures fails { is_err result ≡ ((self.old.free == 0) || fails_at self.old.failing
            (one_more self.old.calls)) }
        ensures passed { IfOk result (λ n. n ≡ min (min (length piece.now) self.old.most)
            self.old.free) }

        // What is left of the room.
        ensures room { IfOk result (λ n. self.new.free + n ≡ self.old.free) }
        ensures same_room { OnErr result (self.new.free ≡ self.old.free) }

        // What is counted.
        ensures counted { self.new.calls ≡ one_more self.old.calls }
        ensures one_fault { OnErr result (self.new.faults ≡ one_more self.old.faults) }
        ensures no_fault { OnOk result (self.new.faults ≡ self.old.faults) }
        ensures full { self.old.free ≡ 0 → self.new.full_writes ≡ one_more self.old.full_writes }
        ensures not_full { 0 < self.old.free → self.new.full_writes ≡ self.old.full_writes }

        // What stays.
        ensures same_most { self.new.most ≡ self.old.most }
        ensures same_failing { self.new.failing ≡ self.old.failing }
    {
        self.calls = self.calls.saturating_add(1);
        if self.len == self.room.len() {
            self.full_writes = self.full_writes.saturating_add(1);
            self.faults = self.faults.saturating_add(1);
            return Err(Failed);
        }
        if is_failing(&self.failing, self.calls) {
            self.faults = self.faults.saturating_add(1);
            return Err(Failed);
        }
        let n = piece.len().min(self.most).min(self.room.len() - self.len);
        self.room[self.len..self.len + n].copy_from_slice(&piece[..n]);
        self.len += n;
        Ok(n)
    }
}
