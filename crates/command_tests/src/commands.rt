//! Runs of the command whose source, or sink, takes little at a time or fails.

use crate::runs::{Seen, ran_over};
use io_edge::{MemSink, MemSource};
use std::alloc::Global;
use std::sync::Wait;
use std::test::*;
use std::thread::Threads;

const GOOD: &[u8] =
    b"canvas 1 1\nlayer 1 0 0\nstroke 1 1\nfill 1 seq 0 0 1 1 ff000080 over 255\nend 1\nexport\n";

/// A source of a script in pieces of 8 bytes, which fails at one call. Call 0 never comes.
fn source_of(alloc: Global, script: &[u8], failing: u32) -> Result<MemSource, Fail> {
    Ok(MemSource::new(script.to_vec(alloc)?, 8, vec![in alloc; failing]?))
}

/// One run, with sinks that take 8 bytes a call, of which the first fails at one.
fn ran<R: Threads + Wait + Sync>(
    rt: &R,
    alloc: Global,
    words: &str,
    source: MemSource,
    failing_write: u32,
) -> Result<Seen, Fail> {
    let out = MemSink::new(vec![in alloc; 0; 128]?, 8, vec![in alloc; failing_write]?);
    let err = MemSink::new(vec![in alloc; 0; 96]?, 8, Vec::new(alloc));
    ran_over(rt, alloc, words, source, out, err)
}

/// What comes out of a script by the words, where the source and the sink fail at these calls. A script is read before
/// anything is written, also one whose first line is bad, and `--help` reads nothing.
#[test]
fn choices_and_faults(rt: HostRuntime) -> Result<(), Fail> {
    let rows: [(&str, &[u8], u32, u32, u8, &[u8]); 8] = [
        ("", GOOD, 0, 0, 0, b"P6\n1 1\n255\n\xff\x7f\x7f"),
        (
            "--emit picture --workers 2",
            GOOD,
            0,
            0,
            0,
            b"P6\n1 1\n255\n\xff\x7f\x7f",
        ),
        (
            "--emit sum",
            GOOD,
            0,
            0,
            0,
            b"entries 3 done 3 cancelled 0 refused 0\nframe 1 1 1 509\n",
        ),
        (
            "--emit=log --workers 0",
            GOOD,
            0,
            0,
            0,
            b"1 layer done\n2 stroke 1 done\n3 export done\n",
        ),
        ("--help", GOOD, 1, 0, 2, b""),
        ("", GOOD, 2, 0, 4, b""),
        ("", b"unknown\nwords\n", 2, 0, 4, b""),
        ("", GOOD, 0, 2, 5, b"P6\n"),
    ];
    for (words, script, failing_read, failing_write, code, out) in rows {
        let source = source_of(rt.alloc(), script, failing_read)?;
        let got = ran(&rt, rt.alloc(), words, source, failing_write)?;
        assert!(rt; got.code == code && got.out.as_slice() == out, "{words}");
    }
    Ok(())
}

/// The source fails at its first call, which never comes where a script is generated.
#[test]
fn generated(rt: HostRuntime) -> Result<(), Fail> {
    let source = source_of(rt.alloc(), GOOD, 1)?;
    let got = ran(&rt, rt.alloc(), "--workers=16 --demo=0", source, 0)?;
    assert!(rt; got.code == 5 && got.out.starts_with(b"P6\n800 600\n255\n"));
    Ok(())
}

/// A script is too long whether a line of it has a fault or not.
#[test]
fn too_long(rt: HostRuntime) -> Result<(), Fail> {
    for first in [b'#', b'a'] {
        let mut script = vec![in rt.alloc(); first; 1_048_577]?;
        script[7] = b'\n';
        let long = MemSource::new(script, 4096, Vec::new(rt.alloc()));
        let got = ran(&rt, rt.alloc(), "", long, 0)?;
        assert!(rt; got.is(7, b"", b"strokes: script is longer than 1048576 bytes\n"));
    }
    Ok(())
}
