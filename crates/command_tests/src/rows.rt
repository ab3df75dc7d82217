//! Scripts and the pixmaps that they give.

use crate::runs::{ran, ran_by, ran_over, repeated, sink_of, source_of};
use io_edge::{MemSink, MemSource};
use std::alloc::Global;
use std::test::*;
use worked_scripts::{DONE, REFUSED};

/// Two fills side by side in one tile.
const TWO_FILLS: &[u8] =
    b"canvas 64 1\nlayer 1 0 0\nstroke 1 1\nfill 1 con 0 0 32 1 ff0000ff over 255\nfill 1 con 32 0 32 1 0000ffff over 255\nend 1\nexport\n";

/// What they give: 204 bytes.
fn two_halves(alloc: Global) -> Result<Vec<u8>, Fail> {
    repeated(
        alloc,
        b"P6\n64 1\n255\n",
        &[(32, b"\xff\x00\x00"), (32, b"\x00\x00\xff")],
    )
}

#[test]
fn pictures(rt: HostRuntime) -> Result<(), Fail> {
    for (shows, script, out) in DONE {
        let got = ran(&rt, rt.alloc(), "", script)?;
        assert!(rt; got.is(0, out, b""), "{shows}");
    }
    for (shows, script, out) in REFUSED {
        let got = ran(&rt, rt.alloc(), "", script)?;
        assert!(rt; got.is(1, out, b""), "{shows}");
    }
    Ok(())
}

/// Scripts, and what a live view shows at their end: the document that they make, whatever they export.
const LIVE: [(&[u8], &[u8]); 3] = [
    (
        b"canvas 1 1\nlayer 1 0 0\nstroke 1 1\nfill 1 seq 0 0 1 1 ff000080 over 255\nend 1\n",
        b"P6\n1 1\n255\n\xff\x7f\x7f",
    ),
    (b"canvas 1 1\nexport\n", b"P6\n1 1\n255\n\xff\xff\xff"),
    (
        b"canvas 1 1\nexport\nlayer 1 0 0 ff0000ff\nexport\nlayer 2 0 1 0000ffff\n",
        b"P6\n1 1\n255\n\x00\x00\xff",
    ),
];

#[test]
fn live_pictures(rt: HostRuntime) -> Result<(), Fail> {
    for (script, out) in LIVE {
        let got = ran(&rt, rt.alloc(), "--emit live", script)?;
        assert!(rt; got.is(0, out, b""), "{:?}", str::from_utf8(script));
    }
    Ok(())
}

/// Words that leave the picture as it is.
#[test]
fn words(rt: HostRuntime) -> Result<(), Fail> {
    let want = two_halves(rt.alloc())?;
    for words in ["", "--workers 0", "--workers 16", "--emit picture"] {
        let got = ran_by(&rt, rt.alloc(), words, TWO_FILLS)?;
        assert!(rt; got.is(0, &want, b""), "{words}");
    }
    Ok(())
}

/// A red row of 65 points is moved by one, by a job that waits for the first.
#[test]
fn moved_over_a_tile(rt: HostRuntime) -> Result<(), Fail> {
    let want = repeated(
        rt.alloc(),
        b"P6\n66 1\n255\n\xff\xff\xff",
        &[(65, b"\xff\x00\x00")],
    )?;
    let scripts: [&[u8]; 2] = [
        b"canvas 66 1\nlayer 1 0 0\nstroke 1 1\nfill 1 seq 0 0 65 1 ff0000ff over 255\nmove 1 seq 0 0 65 1 1 0\nend 1\nexport\n",
        b"canvas 66 1\nlayer 1 0 0\nstroke 1 1\nfill 1 seq 0 0 65 1 ff0000ff over 255\nmove 1 bar 0 0 65 1 1 0\nend 1\nexport\n",
    ];
    for script in scripts {
        let got = ran(&rt, rt.alloc(), "", script)?;
        assert!(rt; got.is(0, &want, b""));
    }
    Ok(())
}

/// What is painted at the edge of the world is moved onto the canvas.
#[test]
fn moved_from_the_edge_of_the_world(rt: HostRuntime) -> Result<(), Fail> {
    let want = repeated(rt.alloc(), b"P6\n64 1\n255\n", &[(64, b"\x00\xff\x00")])?;
    let got = ran(
        &rt,
        rt.alloc(),
        "",
        b"canvas 64 1\nlayer 1 0 0\nstroke 1 1\nfill 1 seq -16384 0 64 1 00ff00ff over 255\nmove 1 seq -16384 0 64 1 16384 0\nend 1\nexport\n",
    )?;
    assert!(rt; got.is(0, &want, b""));
    Ok(())
}

#[test]
fn most_exports(rt: HostRuntime) -> Result<(), Fail> {
    let script = repeated(rt.alloc(), b"canvas 1 1\n", &[(64, b"export\n")])?;
    let want = repeated(rt.alloc(), b"", &[(64, b"P6\n1 1\n255\n\xff\xff\xff")])?;
    let got = ran(&rt, rt.alloc(), "", &script)?;
    assert!(rt; got.is(0, &want, b""));
    Ok(())
}

/// A stroke of so many concurrent fills of one point each, row by row of the first tile.
fn points(alloc: Global, count: u32) -> Result<Vec<u8>, Fail> {
    let mut script = b"canvas 64 64\nlayer 1 0 0\nstroke 1 1\n".to_vec(alloc)?;
    for i in 0..count {
        let job = format!(in alloc; "fill 1 con {} {} 1 1 ff0000ff over 255\n", i % 64, i / 64)?;
        script.extend_from_slice(job.as_bytes())?;
    }
    script.extend_from_slice(b"end 1\nexport\n")?;
    Ok(script)
}

#[test]
fn most_jobs(rt: HostRuntime) -> Result<(), Fail> {
    let alloc = rt.alloc();
    let script = points(alloc, 4096)?;
    let want = repeated(alloc, b"P6\n64 64\n255\n", &[(4096, b"\xff\x00\x00")])?;
    let got = ran(&rt, alloc, "", &script)?;
    assert!(rt; got.is(0, &want, b""));
    let got = ran(&rt, alloc, "--emit log", &script)?;
    assert!(rt; got.is(0, b"1 layer done\n2 stroke 1 done\n3 export done\n", b""));
    let got = ran(&rt, alloc, "", &points(alloc, 4097)?)?;
    assert!(rt; got.is(3, b"", b"strokes: line 4100: too many jobs\n"));
    Ok(())
}

#[test]
fn longest_script(rt: HostRuntime) -> Result<(), Fail> {
    let script = repeated(rt.alloc(), b"canvas 1 1\n", &[(1_048_565, b"#")])?;
    let got = ran(&rt, rt.alloc(), "", &script)?;
    assert!(rt; got.is(0, b"", b""));
    Ok(())
}

/// A sink that takes one byte a call and fails at one of them has the bytes of the calls before.
#[test]
fn each_write_failing(rt: HostRuntime) -> Result<(), Fail> {
    let alloc = rt.alloc();
    let want = two_halves(alloc)?;
    for k in 1..=204u32 {
        let out = MemSink::new(vec![in alloc; 0; 256]?, 1, vec![in alloc; k]?);
        let got = ran_over(
            &rt,
            alloc,
            "",
            source_of(alloc, TWO_FILLS)?,
            out,
            sink_of(alloc, 128)?,
        )?;
        assert_eq!(rt; got.code, 5, "at call {k}");
        assert_eq!(rt; got.out.len() + 1, k as usize);
        assert!(rt; want.starts_with(&got.out), "at call {k}");
    }
    let got = ran_over(
        &rt,
        alloc,
        "",
        source_of(alloc, TWO_FILLS)?,
        sink_of(alloc, 100)?,
        sink_of(alloc, 128)?,
    )?;
    assert_eq!(rt; got.code, 5);
    assert_eq!(rt; got.out.len(), 100);
    assert!(rt; want.starts_with(&got.out));
    Ok(())
}

/// Where a read fails nothing is written, also where it is the read that would find the end.
#[test]
fn each_read_failing(rt: HostRuntime) -> Result<(), Fail> {
    let alloc = rt.alloc();
    for k in 1..=TWO_FILLS.len() as u32 + 1 {
        let source = MemSource::new(TWO_FILLS.to_vec(alloc)?, 1, vec![in alloc; k]?);
        let got = ran_over(
            &rt,
            alloc,
            "",
            source,
            sink_of(alloc, 256)?,
            sink_of(alloc, 128)?,
        )?;
        assert!(rt; got.is(4, b"", b"strokes: reading failed\n"), "at call {k}");
    }
    Ok(())
}

/// The status doesn't change where the error stream fails.
#[test]
fn error_stream_failing(rt: HostRuntime) -> Result<(), Fail> {
    let alloc = rt.alloc();
    let err = MemSink::new(vec![in alloc; 0; 128]?, 8, vec![in alloc; 2]?);
    let got = ran_over(
        &rt,
        alloc,
        "",
        source_of(alloc, b"")?,
        sink_of(alloc, 64)?,
        err,
    )?;
    assert!(rt; got.is(3, b"", b"strokes:"));
    Ok(())
}

/// The hash FNV-1a of 64 bits.
fn fnv(bytes: &[u8]) -> u64 {
    let mut hash = 0xcbf2_9ce4_8422_2325u64;
    for byte in bytes {
        hash = (hash ^ u64::from(*byte)).wrapping_mul(0x0000_0100_0000_01b3);
    }
    hash
}

/// The summary of what the generated script 0 paints.
const DEMO_0: &[u8] =
    b"entries 66 done 60 cancelled 6 refused 0\nframe 1 800 600 311312768\nframe 2 800 600 290302180\n";

/// Words for generated scripts, and the summaries of what these paint, with any number of workers. The sums
/// were worked out by a plain painter in another language.
const GENERATED: [(&str, &[u8]); 9] = [
    ("--demo 0 --emit sum", DEMO_0),
    ("--demo 0 --emit sum --workers 0", DEMO_0),
    ("--demo 0 --emit sum --workers 1", DEMO_0),
    ("--demo 0 --emit sum --workers 2", DEMO_0),
    ("--demo 0 --emit sum --workers 8", DEMO_0),
    ("--demo 0 --emit sum --workers 16", DEMO_0),
    (
        "--demo 1 --emit sum",
        b"entries 66 done 60 cancelled 6 refused 0\nframe 1 800 600 314472656\nframe 2 800 600 300007123\n",
    ),
    (
        "--demo 2 --emit sum",
        b"entries 66 done 60 cancelled 6 refused 0\nframe 1 800 600 314728865\nframe 2 800 600 294724294\n",
    ),
    (
        "--demo 4294967295 --emit sum",
        b"entries 66 done 60 cancelled 6 refused 0\nframe 1 800 600 322469743\nframe 2 800 600 302720783\n",
    ),
];

/// The source isn't read: its first call would fail.
#[test]
fn generated(rt: HostRuntime) -> Result<(), Fail> {
    let alloc = rt.alloc();
    for (words, out) in GENERATED {
        let source = MemSource::new(Vec::new(alloc), 1, vec![in alloc; 1]?);
        let got = ran_over(
            &rt,
            alloc,
            words,
            source,
            sink_of(alloc, 256)?,
            sink_of(alloc, 128)?,
        )?;
        assert!(rt; got.is(0, out, b""), "{words}");
    }
    Ok(())
}

/// The bytes of two frames of 800 by 600 points, with any number of workers, by the hash that the plain
/// painter's bytes have.
#[test]
fn generated_pictures(rt: HostRuntime) -> Result<(), Fail> {
    let alloc = rt.alloc();
    for words in [
        "--demo 1",
        "--demo 1 --workers 0",
        "--demo 1 --workers 1",
        "--demo 1 --workers 2",
        "--demo 1 --workers 8",
        "--demo 1 --workers 16",
    ] {
        let got = ran_over(
            &rt,
            alloc,
            words,
            source_of(alloc, b"")?,
            sink_of(alloc, 3_000_000)?,
            sink_of(alloc, 128)?,
        )?;
        assert_eq!(rt; got.code, 0, "{words}");
        assert_eq!(rt; got.out.len(), 2_880_030, "{words}");
        assert_eq!(rt; fnv(&got.out), 0xab28_a349_0824_ddca, "{words}");
        assert_eq!(rt; got.err.len(), 0, "{words}");
    }
    Ok(())
}
