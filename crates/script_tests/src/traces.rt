//! Traces, and lines that are refused.

use std::alloc::{AllocError, Global};
use trace_core::{ReplayRefusal, replay};
use trace_lines::TraceCause::{self, BadLine, NotEnabled, Unsettled};

/// A layer in a group, painted beside a walk of all groups, which is walked then; an exclusive stroke, which is
/// walked too; and an export.
const TRACE: [&[u8]; 41] = [
    b"trace 2",
    b"canvas 128 64 ffffff",
    b"feed group 1 0 0",
    b"step",
    b"feed layer 2 1 0",
    b"step",
    b"feed stroke 1 2",
    b"step",
    b"feed fill 1 con 0 0 128 64 ff0000ff over 255",
    b"walk 0 all 0 0 128 64",
    b"start 1",
    b"publish 1 0 0",
    b"publish 1 1 0",
    b"end 1",
    b"put 0 1 0 0",
    b"put 0 1 1 0",
    b"put 0 0 0 0",
    b"put 0 0 1 0",
    b"end 0",
    b"walk 1 up 1 0 0 128 64",
    b"put 1 1 0 0",
    b"put 1 0 0 0",
    b"put 1 0 1 0",
    b"put 1 1 1 0",
    b"end 1",
    b"feed end 1",
    b"step",
    b"feed stroke 2 2 exclusive",
    b"step",
    b"feed fill 2 con 0 0 64 64 00ff00ff over 255",
    b"start 0",
    b"publish 0 0 0",
    b"end 0",
    b"feed end 2",
    b"step",
    b"walk 0 up 1 0 0 64 64",
    b"put 0 0 0 0",
    b"put 0 1 0 0",
    b"end 0",
    b"feed export",
    b"step",
];

/// A trace in which other lines stand in the place of some: of which, from 1 on, and of how many; and its first
/// fault.
#[derive(Drop)]
struct Spoilt {
    at: usize,
    count: usize,
    lines: &'static [u8],
    line: u32,
    cause: TraceCause,
}

fn spoil(at: usize, count: usize, lines: &'static [u8], line: u32, cause: TraceCause) -> Spoilt {
    Spoilt {
        at,
        count,
        lines,
        line,
        cause,
    }
}

/// The trace with other lines in the place of so many from there on.
fn text_of(alloc: Global, at: usize, count: usize, lines: &[u8]) -> Result<Vec<u8>, AllocError> {
    let mut text = Vec::new(alloc);
    for i in 0..TRACE.len() {
        if i + 1 == at {
            text.extend_from_slice(lines)?;
        }
        if i + 1 < at || i + 1 - at >= count {
            text.extend_from_slice(TRACE[i])?;
            text.push(b'\n')?;
        }
    }
    Ok(text)
}

/// The line and the cause of the first fault, of a trace of up to 2,000 bytes.
fn fault(alloc: Global, bytes: &[u8]) -> Option<(u32, TraceCause)> {
    if bytes.len() > 2000 {
        return None;
    }
    match replay(alloc, bytes) {
        Err(ReplayRefusal::Fault { line, cause }) => Some((line, cause)),
        _ => None,
    }
}

/// How many commands were fed by a trace of up to 2,000 bytes, where it has no fault.
fn fed(alloc: Global, bytes: &[u8]) -> Option<usize> {
    if bytes.len() > 2000 {
        return None;
    }
    match replay(alloc, bytes) {
        Ok(replayed) => Some(replayed.script().len()),
        Err(_) => None,
    }
}

/// Whether its first fault is told.
fn is_told(alloc: Global, row: &Spoilt) -> bool {
    match text_of(alloc, row.at, row.count, row.lines) {
        Ok(text) => fault(alloc, &text) == Some((row.line, row.cause)),
        Err(_) => false,
    }
}

/// The first line of those that are put into the first of the traces whose fault isn't told.
fn untold(alloc: Global, rows: &[Spoilt]) -> Option<usize> {
    for row in rows {
        if !is_told(alloc, row) {
            return Some(row.at);
        }
    }
    None
}

#[test]
fn spoilt_order(rt: HostRuntime) {
    let rows = [
        // A line left out: a job's tile, its stroke's begin and finish, a walk's tile and its end, the last step,
        // and the last walk.
        spoil(13, 1, b"", 13, NotEnabled),
        spoil(8, 1, b"", 10, NotEnabled),
        spoil(27, 1, b"", 30, NotEnabled),
        spoil(18, 1, b"", 18, NotEnabled),
        spoil(25, 1, b"", 28, NotEnabled),
        spoil(41, 1, b"", 40, Unsettled),
        spoil(36, 6, b"", 35, Unsettled),
        // A line twice.
        spoil(12, 0, b"publish 1 0 0\n", 13, NotEnabled),
        spoil(16, 0, b"put 0 1 0 0\n", 16, NotEnabled),
        spoil(26, 0, b"feed end 1\n", 27, NotEnabled),
        // Two lines swapped.
        spoil(11, 2, b"publish 1 0 0\nstart 1\n", 11, NotEnabled),
        spoil(40, 2, b"step\nfeed export\n", 40, NotEnabled),
    ];
    assert_eq!(rt; untold(rt.alloc(), &rows), None);
}

#[test]
fn spoilt_lines(rt: HostRuntime) {
    let rows = [
        // Another place.
        spoil(14, 1, b"end 0\n", 14, NotEnabled),
        spoil(11, 1, b"start 0\n", 11, NotEnabled),
        spoil(11, 1, b"start 2\n", 11, NotEnabled),
        // Another tile.
        spoil(13, 1, b"publish 1 0 1\n", 13, NotEnabled),
        spoil(16, 1, b"put 0 1 2 0\n", 16, NotEnabled),
        // Another group, and another patch.
        spoil(15, 1, b"put 0 2 0 0\n", 15, NotEnabled),
        spoil(20, 1, b"walk 1 up 0 0 0 128 64\n", 20, NotEnabled),
        spoil(20, 1, b"walk 1 up 1 0 0 64 64\n", 20, NotEnabled),
        // No such line, and a job outside the world.
        spoil(12, 1, b"publish 1 0\n", 12, BadLine),
        spoil(12, 0, b"# a tile\n", 12, BadLine),
        spoil(
            9,
            1,
            b"feed fill 1 con -16385 0 1 1 00000000 over 0\n",
            9,
            NotEnabled,
        ),
    ];
    assert_eq!(rt; untold(rt.alloc(), &rows), None);
}

#[test]
fn guards(rt: HostRuntime) {
    let rows = [
        // A walk over a running walk, and beside an exclusive stroke under way.
        spoil(19, 2, b"walk 1 up 1 0 0 128 64\nend 0\n", 19, NotEnabled),
        spoil(34, 0, b"walk 0 up 1 0 0 64 64\n", 34, NotEnabled),
        // An export where a patch waits, and where a walk is at work.
        spoil(36, 4, b"", 37, NotEnabled),
        spoil(39, 1, b"", 40, NotEnabled),
        // A barrier beside a walk, and a job of a stroke with a conflict.
        spoil(
            9,
            1,
            b"feed fill 1 bar 0 0 128 64 ff0000ff over 255\n",
            11,
            NotEnabled,
        ),
        spoil(
            9,
            0,
            b"feed fill 1 con 0 0 1 1 ff0000ff over 255\n",
            12,
            NotEnabled,
        ),
        // A cancelled stroke's tiles wait, and so do those of a change that is undone.
        spoil(26, 1, b"feed cancel 1\n", 36, NotEnabled),
        spoil(40, 2, b"feed undo\nstep\n", 41, Unsettled),
    ];
    assert_eq!(rt; untold(rt.alloc(), &rows), None);
}

#[test]
fn heads(rt: HostRuntime) {
    let rows: [(&[u8], u32, TraceCause); 8] = [
        (b"", 1, BadLine),
        (b"\n", 1, BadLine),
        (b"trace 18\n", 1, BadLine),
        (b"trace 1\n", 2, BadLine),
        (b"trace 1\ncanvas 1 1 ffffff\n\n", 3, BadLine),
        (b"trace 1\ncanvas 1 1 ffffff\nfeed canvas 1 1\n", 3, BadLine),
        (b"trace 1\ncanvas 1 1 ffffff\nfeed export\n", 3, Unsettled),
        (b"trace 1\ncanvas 1 1\nfeed end 1", 3, NotEnabled),
    ];
    for (bytes, line, cause) in rows {
        assert!(rt; fault(rt.alloc(), bytes) == Some((line, cause)));
    }
}

/// Two jobs of a stroke side by side, both walked by one walk, then an undo.
const UNDONE: &[u8] = b"trace 2
canvas 64 1
feed layer 1 0 0
step
walk 0 all 0 0 64 1
put 0 0 0 0
end 0
feed stroke 1 1
step
feed fill 1 con 0 0 32 1 ff0000ff over 255
feed fill 1 con 32 0 32 1 0000ffff over 255
start 1
start 0
publish 0 0 0
publish 1 0 0
end 0
feed end 1
end 1
step
walk 1 up 0 0 0 64 1
put 1 0 0 0
end 1
feed undo
step
walk 0 up 0 0 0 64 1
put 0 0 0 0
end 0
feed export
step
";

#[test]
fn sound_traces(rt: HostRuntime) {
    let Ok(text) = text_of(rt.alloc(), 0, 0, b"") else {
        panic!(rt; "no memory");
    };
    let rows: [(&[u8], usize); 3] = [(b"trace 17\ncanvas 1 1", 0), (&text, 9), (UNDONE, 7)];
    for (bytes, count) in rows {
        assert!(rt; fed(rt.alloc(), bytes) == Some(count));
    }
}
