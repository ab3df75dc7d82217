//! Every text that a run writes, but for pixmaps, as a literal.

use crate::runs::{ran, ran_by, ran_over, repeated, sink_of, source_of};
use io_edge::{MemSink, MemSource};
use std::alloc::Global;
use std::test::*;
use strokes_top::{Status, report};

/// Scripts with a bad line, and what is told of it.
const FAULTS: [(&[u8], &[u8]); 20] = [
    (b"", b"strokes: line 1: canvas missing\n"),
    (b"canvas 1 ", b"strokes: line 1: wrong number of fields\n"),
    (
        b"canvas 1 1\nlayer 1 0 0\nst",
        b"strokes: line 3: unknown word\n",
    ),
    (
        b"canvas 64 1\nlayer 1 0 0\nstroke 1 1\nfill 1 seq -16385 0 64 1 00ff00ff over 255\nmove 1 seq -16384 0 64 1 16384 0\nend 1\nexport\n",
        b"strokes: line 4: out of world\n",
    ),
    (
        b"canvas 1 1\nstroke 1 1",
        b"strokes: line 2: stroke left open\n",
    ),
    (
        b"canvas 1 1\nstroke 1 1\nend 1\nfill 1 seq 0 0 1 1 ff0000ff over 255\n",
        b"strokes: line 4: closed stroke\n",
    ),
    (
        b"canvas 1 1\nstroke 1 1\nend 1\nstroke 1 1\n",
        b"strokes: line 4: stroke number used again\n",
    ),
    (b"canvas 1 +1\n", b"strokes: line 1: bad number\n"),
    (b"canvas 0 1\n", b"strokes: line 1: out of range\n"),
    (b"canvas 1\n", b"strokes: line 1: wrong number of fields\n"),
    (
        b"canvas 1 1\nlayer 1 0 0 00ff00\n",
        b"strokes: line 2: bad number\n",
    ),
    (
        b"canvas 1 1\nlayer 1 0 0 00ff00ff 1\n",
        b"strokes: line 2: wrong number of fields\n",
    ),
    (
        b"canvas 1 1\nstroke 1 1\nblur 1 seq -16384 0 1 1 1\nend 1\n",
        b"strokes: line 3: out of world\n",
    ),
    (
        b"canvas 1 1\nstroke 1 1\nblur 1 seq 0 0 1 1 0\nend 1\n",
        b"strokes: line 3: out of range\n",
    ),
    (
        b"canvas 1 1\nstroke 1 1\nblur 1 seq 0 0 1 1 17\nend 1\n",
        b"strokes: line 3: out of range\n",
    ),
    (
        b"canvas 1 1\nstroke 1 1\npath 1 0 hard ff0000ff over 255 1 -16000 0 16000 0\nend 1\n",
        b"strokes: line 3: too many dabs\n",
    ),
    (b"export\n", b"strokes: line 1: canvas missing\n"),
    (
        b"canvas 1 1\ncanvas 1 1\n",
        b"strokes: line 2: canvas repeated\n",
    ),
    (
        b"canvas 1 1\nstroke 1 1\nfill 1 all 0 0 1 1 ff0000ff over 255\nend 1\n",
        b"strokes: line 3: unknown word\n",
    ),
    (
        b"canvas 1 1\nstroke 1 1\nend 2\n",
        b"strokes: line 3: unknown stroke\n",
    ),
];

/// Scripts, the codes of their statuses, and their logs.
pub const LOGS: [(&[u8], u8, &[u8]); 15] = [
    (b"canvas 1 1\nexport\n", 0, b"1 export done\n"),
    (
        b"canvas 3 1\nlayer 1 0 0\nstroke 1 1\nblur 1 con 0 0 1 1 1\nblur 1 con 2 0 1 1 1\nend 1\n",
        0,
        b"1 layer done\n2 stroke 1 done\n",
    ),
    (
        b"canvas 3 1\nlayer 1 0 0\nstroke 1 1\nblur 1 con 0 0 1 1 1\nblur 1 con 1 0 1 1 1\nend 1\n",
        1,
        b"1 layer done\n2 stroke 1 overlap 1 2\n",
    ),
    (
        b"canvas 1 1\nlayer 1 0 0 00ff00ff\nlayer 1 0 0 12345600\n",
        1,
        b"1 layer done\n2 layer id taken 1\n",
    ),
    (
        b"canvas 3 1\nlayer 1 0 0\nstroke 1 1\nfill 1 seq 0 0 3 1 ff0000ff over 255\nend 1\nundo\nstroke 2 1\nfill 2 con 0 0 1 1 00ff00ff over 255\nfill 2 con 1 0 1 1 00ff00ff over 255\nfill 2 con 2 0 1 1 00ff00ff over 255\ncancel 2\nredo\nexport\n",
        0,
        b"1 layer done\n2 stroke 1 done\n3 undo done\n4 stroke 2 cancelled\n5 redo done\n6 export done\n",
    ),
    (
        b"canvas 3 1\nlayer 1 0 0\nstroke 1 1\nfill 1 con 0 0 2 1 ff0000ff over 255\nfill 1 con 2 0 1 1 ff0000ff over 255\nfill 1 con 1 0 1 1 0000ffff over 255\nend 1\nexport\n",
        1,
        b"1 layer done\n2 stroke 1 overlap 1 3\n3 export done\n",
    ),
    (
        b"canvas 3 1\nlayer 1 0 0\nstroke 1 1\nfill 1 con 0 0 2 1 ff0000ff over 255\nfill 1 con 2 0 1 1 ff0000ff over 255\nfill 1 con 1 0 1 1 0000ffff over 255\ncancel 1\nexport\n",
        1,
        b"1 layer done\n2 stroke 1 overlap 1 3\n3 export done\n",
    ),
    (
        b"canvas 2 1\nlayer 1 0 0\nstroke 1 1\nfill 1 con 0 0 2 1 ff0000ff over 255\nfill 1 uni 1 0 1 1 0000ffff over 255\nend 1\nexport\n",
        1,
        b"1 layer done\n2 stroke 1 overlap 1 2\n3 export done\n",
    ),
    (
        b"canvas 1 1\nlayer 1 0 0\nstroke 1 1\npath 1 1 hard ff000080 over 255 1 0 0 1 0\npath 1 1 hard ff000080 over 255 1 0 0 1 0\nend 1\n",
        1,
        b"1 layer done\n2 stroke 1 overlap 1 5\n",
    ),
    (
        b"canvas 1 1\nundo\nexport\n",
        1,
        b"1 undo nothing to undo\n2 export done\n",
    ),
    (
        b"canvas 1 1\ngroup 1 0 0\nlayer 2 1 0\nlayer 2 0 0\nlayer 3 9 0\nlayer 3 2 0\nlayer 3 0 2\nplace 1 1 0\nremove 7\nstroke 1 1\nend 1\nstroke 2 8\nend 2\n",
        1,
        b"1 group done\n2 layer done\n3 layer id taken 2\n4 layer no node 9\n5 layer not a group 2\n6 layer bad place 2\n7 place into itself 1\n8 remove no node 7\n9 stroke 1 not a paint layer 1\n10 stroke 2 no layer 8\n",
    ),
    (
        b"canvas 1 1\nlayer 1 0 0\nlayer 2 0 0\npurge 1\nundo\nundo\n",
        1,
        b"1 layer done\n2 layer done\n3 purge done\n4 undo done\n5 undo nothing to undo\n",
    ),
    (
        b"canvas 1 1\nlayer 1 0 0\nundo\nlayer 2 0 0\nredo\n",
        1,
        b"1 layer done\n2 undo done\n3 layer done\n4 redo nothing to redo\n",
    ),
    (
        b"canvas 1 1\nlayer 1 0 0\nstroke 1 1\nfill 1 seq 0 0 1 1 ff0000ff over 255\nend 1\nremove 1\nlayer 1 0 0\nstroke 2 1\nfill 2 seq 0 0 1 1 0000ffff over 255\nend 2\npurge 2\nundo\nundo\nundo\nexport\nredo\nredo\nredo\nexport\n",
        1,
        b"1 layer done\n2 stroke 1 done\n3 remove done\n4 layer done\n5 stroke 2 done\n6 purge done\n7 undo done\n8 undo done\n9 undo nothing to undo\n10 export done\n11 redo done\n12 redo done\n13 redo nothing to redo\n14 export done\n",
    ),
    (
        b"canvas 1 1\nlayer 1 0 0\nlook 1 128 over on\nplace 1 0 0\nremove 1\n",
        0,
        b"1 layer done\n2 look done\n3 place done\n4 remove done\n",
    ),
];

/// Scripts, the codes of their statuses, and their summaries.
const SUMS: [(&[u8], u8, &[u8]); 3] = [
    (
        b"canvas 1 1\nexport\n",
        0,
        b"entries 1 done 1 cancelled 0 refused 0\nframe 1 1 1 765\n",
    ),
    (
        b"canvas 2 1 000001\nlayer 1 0 0\nstroke 1 1\ncancel 1\nexport\nlayer 2 0 0 ff0000ff\nexport\n",
        0,
        b"entries 5 done 4 cancelled 1 refused 0\nframe 1 2 1 2\nframe 2 2 1 510\n",
    ),
    (
        b"canvas 1 1\nundo\nredo\nremove 1\n",
        1,
        b"entries 3 done 0 cancelled 0 refused 3\n",
    ),
];

/// What is told where the words aren't those of the command.
const USAGE: &[u8] =
    b"strokes: usage: strokes [--workers N] [--emit picture|log|sum|trace|live] [--demo NUMBER] [--replay] [--artists N]\n";

#[test]
fn bad_lines(rt: HostRuntime) -> Result<(), Fail> {
    for (script, told) in FAULTS {
        let got = ran(&rt, rt.alloc(), "", script)?;
        assert!(rt; got.is(3, b"", told), "{:?}", str::from_utf8(told));
    }
    let exports = repeated(rt.alloc(), b"canvas 1 1\n", &[(65, b"export\n")])?;
    let got = ran(&rt, rt.alloc(), "", &exports)?;
    assert!(rt; got.is(3, b"", b"strokes: line 66: too many exports\n"));
    let jobs = repeated(
        rt.alloc(),
        b"canvas 1 1\nstroke 7 1\n",
        &[(4097, b"dab 7 seq 0 0 0 hard 00000000 over 0\n")],
    )?;
    let got = ran(&rt, rt.alloc(), "", &jobs)?;
    assert!(rt; got.is(3, b"", b"strokes: line 4099: too many jobs\n"));
    Ok(())
}

#[test]
fn logs(rt: HostRuntime) -> Result<(), Fail> {
    for (script, code, log) in LOGS {
        let got = ran(&rt, rt.alloc(), "--emit log", script)?;
        assert!(rt; got.is(code, log, b""), "{:?}", str::from_utf8(log));
    }
    Ok(())
}

/// The log of groups in one another, of which the last is too deep.
#[test]
fn too_deep(rt: HostRuntime) -> Result<(), Fail> {
    let alloc = rt.alloc();
    let mut script = b"canvas 1 1\n".to_vec(alloc)?;
    let mut log = Vec::new(alloc);
    for id in 1..18u32 {
        let line = format!(in alloc; "group {id} {} 0\n", id - 1)?;
        script.extend_from_slice(line.as_bytes())?;
        let ending = if id < 17 { "done" } else { "too deep" };
        let line = format!(in alloc; "{id} group {ending}\n")?;
        log.extend_from_slice(line.as_bytes())?;
    }
    let got = ran(&rt, alloc, "--emit log", &script)?;
    assert!(rt; got.is(1, &log, b""));
    Ok(())
}

/// The log of layers in the root, of which the last is one too many.
#[test]
fn tree_full(rt: HostRuntime) -> Result<(), Fail> {
    let alloc = rt.alloc();
    let mut script = b"canvas 1 1\n".to_vec(alloc)?;
    let mut log = Vec::new(alloc);
    for id in 1..258u32 {
        let line = format!(in alloc; "layer {id} 0 0\n")?;
        script.extend_from_slice(line.as_bytes())?;
        let ending = if id < 257 { "done" } else { "tree full" };
        let line = format!(in alloc; "{id} layer {ending}\n")?;
        log.extend_from_slice(line.as_bytes())?;
    }
    let got = ran(&rt, alloc, "--emit log", &script)?;
    assert!(rt; got.is(1, &log, b""));
    Ok(())
}

#[test]
fn summaries(rt: HostRuntime) -> Result<(), Fail> {
    for (script, code, sum) in SUMS {
        let got = ran(&rt, rt.alloc(), "--emit sum", script)?;
        assert!(rt; got.is(code, sum, b""), "{:?}", str::from_utf8(sum));
    }
    Ok(())
}

#[test]
fn usage(rt: HostRuntime) -> Result<(), Fail> {
    for words in [
        "--workers 17",
        "--workers -1",
        "--workers",
        "--demo 4294967296",
        "--demo one",
        "--emit traces",
        "--replay 1",
        "--replay --replay",
        "--replay --demo 1",
        "--replay --emit trace",
        "--replay --artists 1",
        "--emit trace --artists 1",
        "--artists 0",
        "--artists 17",
        "--artists",
        "--emit live --artists 2",
        "--emit log --emit log",
        "--help",
        "-h",
        "--loud",
        "log",
    ] {
        let got = ran_by(&rt, rt.alloc(), words, b"canvas 1 1\nexport\n")?;
        assert!(rt; got.is(2, b"", USAGE), "{words}");
    }
    Ok(())
}

/// A source and a sink that pass 8 bytes a call, and fail at their second.
#[test]
fn faults_of_streams(rt: HostRuntime) -> Result<(), Fail> {
    let alloc = rt.alloc();
    let script = b"canvas 1 1\nlayer 1 0 0\nexport\n";
    let source = MemSource::new(script.to_vec(alloc)?, 8, vec![in alloc; 2]?);
    let got = ran_over(
        &rt,
        alloc,
        "",
        source,
        sink_of(alloc, 64)?,
        sink_of(alloc, 128)?,
    )?;
    assert!(rt; got.is(4, b"", b"strokes: reading failed\n"));
    let out = MemSink::new(vec![in alloc; 0; 64]?, 8, vec![in alloc; 2]?);
    let got = ran_over(
        &rt,
        alloc,
        "",
        source_of(alloc, script)?,
        out,
        sink_of(alloc, 128)?,
    )?;
    assert!(rt; got.is(5, b"P6\n", b"strokes: writing failed\n"));
    Ok(())
}

/// Memory that runs out can't be brought about here, so its line is told by itself.
#[test]
fn out_of_memory(rt: HostRuntime) -> Result<(), Fail> {
    let mut err = sink_of(rt.alloc(), 128)?;
    let status = report(rt.alloc(), &mut err, Status::NoMemory);
    assert_eq!(rt; status.code(), 6);
    assert_eq!(rt; err.bytes(), b"strokes: out of memory\n".as_slice());
    Ok(())
}
