//! Traces that the command writes and checks.

use crate::runs::{ran, ran_by, ran_over, repeated, sink_of, source_of};
use crate::texts::LOGS;
use std::test::*;

/// A trace of a script that only exports.
const EXPORT: &[u8] = b"trace 1\ncanvas 1 1 ffffff\nfeed export\nstep\n";

/// Traces that are refused, and what is told of them.
const FAULTS: [(&[u8], &[u8]); 4] = [
    (b"", b"strokes: trace line 1: bad line\n"),
    (
        b"trace 1\ncanvas 1 1 ffffff\nexport\n",
        b"strokes: trace line 3: bad line\n",
    ),
    (
        b"trace 1\ncanvas 1 1 ffffff\nfeed export\n",
        b"strokes: trace line 3: unsettled\n",
    ),
    (
        b"trace 1\ncanvas 1 1 ffffff\nfeed export\nstep\nstep\n",
        b"strokes: trace line 5: not enabled\n",
    ),
];

#[test]
fn refused_traces(rt: HostRuntime) -> Result<(), Fail> {
    for (trace, told) in FAULTS {
        let got = ran_by(&rt, rt.alloc(), "--replay", trace)?;
        assert!(rt; got.is(8, b"", told), "{:?}", str::from_utf8(told));
    }
    Ok(())
}

#[test]
fn an_export(rt: HostRuntime) -> Result<(), Fail> {
    let alloc = rt.alloc();
    let got = ran_by(
        &rt,
        alloc,
        "--workers 0 --emit trace",
        b"canvas 1 1\nexport\n",
    )?;
    assert!(rt; got.is(0, EXPORT, b""));
    let got = ran(&rt, alloc, "--replay", EXPORT)?;
    assert!(rt; got.is(0, b"P6\n1 1\n255\n\xff\xff\xff", b""));
    Ok(())
}

/// Each script has the same log by its text and by a trace of it.
#[test]
fn logs_by_traces(rt: HostRuntime) -> Result<(), Fail> {
    for (script, code, log) in LOGS {
        let trace = ran_by(&rt, rt.alloc(), "--workers 2 --emit trace", script)?;
        let got = ran_by(&rt, rt.alloc(), "--emit log --replay", &trace.out)?;
        assert!(rt;
            trace.code == code && trace.err.is_empty() && got.is(code, log, b""),
            "{:?}",
            str::from_utf8(log)
        );
    }
    Ok(())
}

/// The generated script is painted to the same pictures by a trace of it.
#[test]
fn generated(rt: HostRuntime) -> Result<(), Fail> {
    let alloc = rt.alloc();
    let pictures = ran_by(&rt, alloc, "--demo 1 --emit sum", b"")?;
    let out = sink_of(alloc, 16_777_216)?;
    let trace = ran_over(
        &rt,
        alloc,
        "--demo 1 --emit trace",
        source_of(alloc, b"")?,
        out,
        sink_of(alloc, 128)?,
    )?;
    assert_eq!(rt; trace.code, pictures.code);
    let got = ran_by(&rt, alloc, "--replay --emit sum", &trace.out)?;
    assert!(rt; got.is(pictures.code, &pictures.out, b""));
    Ok(())
}

/// A trace may be longer than a script, but not longer than its own limit.
#[test]
fn long_traces(rt: HostRuntime) -> Result<(), Fail> {
    let alloc = rt.alloc();
    let long = repeated(alloc, EXPORT, &[(1_700_000, b"feed undo\n")])?;
    let got = ran_by(&rt, alloc, "--replay", &long)?;
    assert!(rt; got.is(7, b"", b"strokes: script is longer than 1048576 bytes\n"));
    Ok(())
}
