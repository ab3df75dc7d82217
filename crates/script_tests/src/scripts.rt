//! Scripts, their faults, and their text.

ghost use Rattle.std.specs.Prelude.{◌<◌, length};

use crate::fixtures::first_fault;
use doc_model::Command;
use script_lines::Cause::{
    self, CanvasAgain, CanvasMissing, ClosedStroke, FieldCount, Number, OutOfWorld, Range,
    StrokeLeft, TooManyDabs, TooManyJobs, UnknownStroke, UnknownWord, UsedAgain,
};
use script_text::{MakeRefusal, ReadRefusal, Reader, Script, print, read};
use std::alloc::{AllocError, Global};

/// The first fault of a script of up to 1,000 bytes.
fn fault(alloc: Global, bytes: &[u8]) -> Option<(u32, Cause)> {
    if bytes.len() > 1000 {
        return None;
    }
    first_fault(read(alloc, bytes))
}

#[test]
fn faults(rt: HostRuntime) {
    let rows: [(&[u8], u32, Cause); 12] = [
        (b"", 1, CanvasMissing),
        (b"canvas 1 +1", 1, Number),
        (b"canvas 0 1", 1, Range),
        (b"canvas 1", 1, FieldCount),
        (b"canvas x 0", 1, Number),
        (b"canvas 1 1\n#\n\n e", 4, UnknownWord),
        (b"undo", 1, CanvasMissing),
        (b"canvas 1 1\ncanvas x", 2, CanvasAgain),
        (b"canvas 1 1\nstroke 1 1", 2, StrokeLeft),
        (b"canvas 1 1\nstroke 1 1 alone", 2, UnknownWord),
        (b"canvas 1 1\nend 1", 2, UnknownStroke),
        (b"fill 1 seq 0 0 1 1 ff0000ff over 7\n", 1, CanvasMissing),
    ];
    for (bytes, line, cause) in rows {
        assert!(rt; fault(rt.alloc(), bytes) == Some((line, cause)));
    }
}

/// A script with those lines in its one stroke.
fn with_lines(alloc: Global, lines: &[u8]) -> Result<Vec<u8>, AllocError> {
    let head = b"canvas 1 1 ffffff\nlayer 1 0 0\nstroke 1 1\n";
    let mut text = Vec::from_slice(alloc, head.as_slice())?;
    text.extend_from_slice(lines)?;
    text.extend_from_slice(b"\nend 1\n".as_slice())?;
    Ok(text)
}

#[test]
fn faults_in_a_stroke(rt: HostRuntime) {
    let rows: [(&[u8], u32, Cause); 20] = [
        (b"fill 1 con 3 4 5 6 ff000080 over", 4, FieldCount),
        (b"fill 1 con 3 4 5 6 ff000080 over 7 8", 4, FieldCount),
        (b"fill", 4, FieldCount),
        (b"fill 1 con 3 4 0 6 ff000080 over 7", 4, Range),
        (b"fill 1 con 3 4 5 4097 ff000080 over 7", 4, Range),
        (b"fill 1 con 3 4 5 6 ff000080 over 256", 4, Range),
        (b"fill 1 con 3 4 5 6 ff00008g over 7", 4, Number),
        (b"fill 1 con 3 x 5 6 ff000080 over 7", 4, Number),
        (b"fill 1 con 16380 4 5 6 ff000080 over 7", 4, OutOfWorld),
        (b"fill 1 seq -16385 0 1 1 ff0000ff over 7", 4, OutOfWorld),
        (b"blur 1 seq -16384 0 1 1 1", 4, OutOfWorld),
        (b"dab 1 con 3 4 5 blunt ff000080 over 7", 4, UnknownWord),
        (b"dab 1 seq 0 0 129 soft 0 over 255", 4, Range),
        (b"move 1 seq 0 0 1 1 0", 4, FieldCount),
        (b"fills 1 con 3 4 5 6 ff000080 over 7", 4, UnknownWord),
        (b"fill 2 con 3 4 5 6 ff000080 over 7", 4, UnknownStroke),
        (b"end 1\nblur 1 seq 3 4 5 6 7", 5, ClosedStroke),
        (b"end 1\nstroke 1 1", 5, UsedAgain),
        (b"stroke 2 1\nblur 2 seq 3 4 5 6 7", 4, StrokeLeft),
        (b"stroke 3 1 exclusive\nstroke 2 1\nend 2", 4, StrokeLeft),
    ];
    for (lines, line, cause) in rows {
        let Ok(text) = with_lines(rt.alloc(), lines) else {
            panic!(rt; "no memory");
        };
        assert!(rt; fault(rt.alloc(), &text) == Some((line, cause)));
    }
}

#[test]
fn faults_of_tracks(rt: HostRuntime) {
    let rows: [(&[u8], Cause); 13] = [
        (b"track 1 con 0 0 1 hard 00000000 over 7 1 0 0", FieldCount),
        (
            b"track 1 con 0 0 1 hard 00000000 over 7 1 0 0 1",
            FieldCount,
        ),
        (b"track 1 con 256 0 1 hard 00000000 over 7 1 0 0 1 1", Range),
        (
            b"track 1 con 0 -257 1 hard 00000000 over 7 1 0 0 1 1",
            Range,
        ),
        (b"track 1 con 0 0 1 hard 00000000 over 7 0 0 0 1 1", Range),
        (b"track 1 con 0 0 1 hard 00000000 over 7 1 0 0 1 x", Number),
        (
            b"track 2 con 0 0 0 hard 00000000 over 7 1 0 0 16383 0",
            TooManyDabs,
        ),
        (
            b"track 2 con 0 0 1 hard 00000000 over 7 255 0 0 16383 0",
            OutOfWorld,
        ),
        (
            b"track 2 con 0 0 1 hard 00000000 over 7 255 0 0 16382 0",
            UnknownStroke,
        ),
        (
            b"path 1 1 hard 00000000 over 7 1 0 0 1 1 2 2 3 3 4 4 5 5 6 6 7 7 8 8",
            FieldCount,
        ),
        (
            b"path 2 0 hard 00000000 over 7 1 -16000 0 16000 0",
            TooManyDabs,
        ),
        (b"path 2 1 hard 00000000 over 7 255 0 0 16383 0", OutOfWorld),
        (b"path 2 1 hard 00000000 over 7 1 0 0 1 0", UnknownStroke),
    ];
    for (lines, cause) in rows {
        let Ok(text) = with_lines(rt.alloc(), lines) else {
            panic!(rt; "no memory");
        };
        assert!(rt; fault(rt.alloc(), &text) == Some((4, cause)));
    }
}

/// A script of so many strokes, each with so many paths of 256 tiles.
fn many_paths(alloc: Global, strokes: u32, paths: usize) -> Result<Vec<u8>, AllocError> {
    let mut text = Vec::from_slice(alloc, b"canvas 1 1\nlayer 1 0 0\n".as_slice())?;
    for no in 0..strokes {
        let stroke = format!(in alloc; "stroke {no} 1\n")?;
        text.extend_from_slice(stroke.as_bytes())?;
        for _ in 0..paths {
            let path = format!(in alloc; "path {no} 0 hard ff0000ff over 255 8 -16384 0 -1 0\n")?;
            text.extend_from_slice(path.as_bytes())?;
        }
        let end = format!(in alloc; "end {no}\n")?;
        text.extend_from_slice(end.as_bytes())?;
    }
    Ok(text)
}

/// The first fault of that many paths.
fn fault_of_paths(alloc: Global, strokes: u32, paths: usize) -> Option<(u32, Cause)> {
    let Ok(text) = many_paths(alloc, strokes, paths) else {
        return None;
    };
    if text.len() > 1048576 {
        return None;
    }
    first_fault(read(alloc, &text))
}

#[test]
fn paths_have_limits(rt: HostRuntime) {
    // A stroke takes 16 of these paths, a script 256.
    let rows = [
        (1, 16, None),
        (1, 17, Some((20, TooManyJobs))),
        (16, 16, None),
        (17, 16, Some((2 + 16 * 18 + 2, TooManyJobs))),
    ];
    for (strokes, paths, fault) in rows {
        assert!(rt; fault_of_paths(rt.alloc(), strokes, paths) == fault);
    }
}

/// Whether the line is printed as the other.
fn is_printed_as(alloc: Global, line: &[u8], canonical: &[u8]) -> bool {
    let (Ok(text), Ok(wanted)) = (with_lines(alloc, line), with_lines(alloc, canonical)) else {
        return false;
    };
    if text.len() > 1000 {
        return false;
    }
    let Ok(script) = read(alloc, &text) else {
        return false;
    };
    print(alloc, &script).is_ok_and(|printed| printed.as_slice() == wanted.as_slice())
}

#[test]
fn spellings_of_jobs(rt: HostRuntime) {
    let canonical: [&[u8]; 9] = [
        b"fill 1 con 3 0 5 6 ff000080 over 7",
        b"fill 1 seq 0 0 4096 1 00000000 erase 0",
        b"fill 1 bar 16383 4 1 16 00ff0001 multiply 255",
        b"dab 1 uni 3 4 128 soft 0000ff80 screen 7",
        b"dab 1 seq 3 4 0 hard ff000080 addition 7",
        b"dab 1 seq -3 -4 5 hard ff000080 over 7",
        b"blur 1 seq 3 4 5 6 7",
        b"track 1 uni -1 -1 0 hard 00000000 screen 7 20 5 5 5 5 5 5",
        b"track 1 seq -256 255 128 soft 0000ff80 erase 0 255 -32 -7 1 2 3 4 5 6 7 8 9 10 11 12 13 14",
    ];
    for line in canonical {
        assert!(rt; is_printed_as(rt.alloc(), line, line));
    }
    let others: [&[u8]; 6] = [
        b"fill 1 con 3 -0 5 6  ff000080 over 7",
        b"fill\t1 con 3 0 5 6 ff000080 over 7",
        b" fill 1 con 3 0 5 6 ff000080 over 7 ",
        b"fill 1 con 3 0 5 6 ff000080 over 7\r",
        b"fill 1 con 3 0 5 6 FF000080 over 7",
        b"fill 00001 con 000003 00000 5 6 ff000080 over 7",
    ];
    for line in others {
        assert!(rt; is_printed_as(rt.alloc(), line, canonical[0]));
    }
}

#[test]
fn paths_are_printed_as_tracks(rt: HostRuntime) {
    let path = b"path 1 1 hard ff000080 over 255 1 0 0 1 0";
    let tracks =
        b"track 1 con -1 -1 1 hard ff000080 over 255 1 0 0 1 0\ntrack 1 con 0 -1 1 hard ff000080 over 255 1 0 0 1 0\ntrack 1 con -1 0 1 hard ff000080 over 255 1 0 0 1 0\ntrack 1 con 0 0 1 hard ff000080 over 255 1 0 0 1 0";
    assert!(rt; is_printed_as(rt.alloc(), path, tracks));
}

/// What the lines of two texts are read as.
fn read_two(alloc: Global, first: &[u8], second: &[u8]) -> Result<Script, ReadRefusal>
    requires first { length first.now < 1000 }
    requires second { length second.now < 1000 }
{
    Reader::new(alloc, 100)?.feed(first)?.feed(second)?.finish()
}

const WHOLE: &[u8] = b"canvas 2 1\nlayer 1 0 0\nstroke 1 1\nend 1\nexport";

#[test]
fn pieces(rt: HostRuntime) {
    let front = b"canvas 2 1\nlayer 1 0 0\nstroke 1 1";
    let (Ok(whole), Ok(fed)) = (
        read(rt.alloc(), WHOLE),
        read_two(rt.alloc(), front, b"end 1\nexport"),
    ) else {
        panic!(rt; "not read");
    };
    assert!(rt; whole.canvas() == fed.canvas() && whole.commands() == fed.commands());
    let bad = read_two(rt.alloc(), b"canvas 1 1\n\n#", b"undo\nundone");
    assert!(rt; first_fault(bad) == Some((5, UnknownWord)));
}

#[test]
fn prints(rt: HostRuntime) {
    let text =
        b"canvas 01 1\nlayer 1 -0 0 00FF00ff\n  stroke 1 1\n\n#c\nfill 1 seq 0 -0 01 1 FF000080 over 255\nend 1\r\nexport";
    let Ok(script) = read(rt.alloc(), text) else {
        panic!(rt; "not read");
    };
    assert_eq!(rt; script.len(), 5);
    let Ok(printed) = print(rt.alloc(), &script) else {
        panic!(rt; "not printed");
    };
    assert!(rt;
        printed.as_slice()
            == b"canvas 1 1 ffffff\nlayer 1 0 0 00ff00ff\nstroke 1 1\nfill 1 seq 0 0 1 1 ff000080 over 255\nend 1\nexport\n".as_slice()
    );
}

#[test]
fn scripts_of_commands(rt: HostRuntime) {
    let Ok(script) = read(rt.alloc(), WHOLE) else {
        panic!(rt; "not read");
    };
    let Ok(commands) = Vec::from_slice(rt.alloc(), script.commands()) else {
        panic!(rt; "no memory");
    };
    let Ok(made) = Script::from_commands(rt.alloc(), script.canvas(), commands) else {
        panic!(rt; "not made");
    };
    assert!(rt; made.commands() == script.commands());
    let Ok(alone) = Vec::from_slice(rt.alloc(), &[Command::End { no: 1 }]) else {
        panic!(rt; "no memory");
    };
    let refused = Script::from_commands(rt.alloc(), script.canvas(), alone);
    assert!(rt; matches!(refused, Err(MakeRefusal::NotScript)));
}
