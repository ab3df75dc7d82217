//! Runs of the command over a source and sinks in memory.

ghost use Rattle.std.specs.Prelude.{◌<◌};

use io_edge::{Gate, MemSink, MemSource, NoGate};
use std::alloc::Global;
use std::sync::Wait;
use std::test::Fail;
use std::thread::Threads;
use strokes_top::{Words, run};

/// The words for the numbers of workers by which each script is painted.
const CREWS: [&str; 3] = ["--workers 0", "--workers 1", "--workers 4"];

/// What a run left: the code of its status, and what the sinks took.
#[derive(Drop)]
pub struct Seen {
    pub code: u8,
    pub out: Vec<u8>,
    pub err: Vec<u8>,
}

impl Seen {
    /// Whether it is just this.
    pub fn is(&self, code: u8, out: &[u8], err: &[u8]) -> bool {
        self.code == code && self.out.as_slice() == out && self.err.as_slice() == err
    }
}

/// A source of a script that passes 4,096 bytes a call.
pub fn source_of(alloc: Global, script: &[u8]) -> Result<MemSource, Fail> {
    Ok(MemSource::new(script.to_vec(alloc)?, 4096, Vec::new(alloc)))
}

/// A sink with room for so many bytes.
pub fn sink_of(alloc: Global, room: usize) -> Result<MemSink, Fail> {
    Ok(MemSink::new(vec![in alloc; 0; room]?, 65536, Vec::new(alloc)))
}

/// Runs the command. The words stand in one text, with blanks between them.
pub fn ran_over<R: Threads + Wait + Sync>(
    rt: &R,
    alloc: Global,
    words: &str,
    source: MemSource,
    out: MemSink,
    err: MemSink,
) -> Result<Seen, Fail> {
    ran_at(rt, alloc, words, source, out, err, &NoGate)
}

/// The same with a gate.
pub fn ran_at<R: Threads + Wait + Sync, G: Gate>(
    rt: &R,
    alloc: Global,
    words: &str,
    mut source: MemSource,
    mut out: MemSink,
    mut err: MemSink,
    gate: &G,
) -> Result<Seen, Fail> {
    let mut list = Words::new(alloc);
    for word in words.split_ascii_whitespace() {
        list.add(word)?;
    }
    let status = run(rt, alloc, &list, &mut source, &mut out, &mut err, gate);
    Ok(Seen {
        code: status.code(),
        out: out.bytes().to_vec(alloc)?,
        err: err.bytes().to_vec(alloc)?,
    })
}

/// Runs the command on a script by just these words, where nothing fails.
pub fn ran_by<R: Threads + Wait + Sync>(
    rt: &R,
    alloc: Global,
    words: &str,
    script: &[u8],
) -> Result<Seen, Fail> {
    let source = source_of(alloc, script)?;
    let out = sink_of(alloc, 65536)?;
    let err = sink_of(alloc, 128)?;
    ran_over(rt, alloc, words, source, out, err)
}

/// What the command leaves of a script by any number of workers, where nothing fails.
pub fn ran<R: Threads + Wait + Sync>(
    rt: &R,
    alloc: Global,
    words: &str,
    script: &[u8],
) -> Result<Seen, Fail> {
    let seen = ran_by(rt, alloc, words, script)?;
    for crew in CREWS {
        let with_crew = format!(in alloc; "{words} {crew}")?;
        let other = ran_by(rt, alloc, with_crew.as_str(), script)?;
        if !other.is(seen.code, &seen.out, &seen.err) {
            return Err("workers made a difference".into());
        }
    }
    Ok(seen)
}

/// The bytes of a front, and behind it so many times those of each part.
pub fn repeated(alloc: Global, front: &[u8], parts: &[(usize, &[u8])]) -> Result<Vec<u8>, Fail> {
    let mut bytes = front.to_vec(alloc)?;
    for (count, part) in parts {
        for _ in 0..*count {
            bytes.extend_from_slice(*part)?;
        }
    }
    Ok(bytes)
}
