//! Scripts that artists draw: what comes of them as a script, and then what the words ask for.

use crate::runs::{Seen, ran_by};
use std::alloc::Global;
use std::sync::Wait;
use std::test::*;
use std::thread::Threads;

/// Words, scripts, and what is written.
const DRAWN: [(&str, &[u8], &[u8]); 3] = [
    (
        "--artists 2",
        b"canvas 1 1\nexport\n",
        b"canvas 1 1 ffffff\nexport\nP6\n1 1\n255\n\xff\xff\xff",
    ),
    (
        "--artists 1",
        b"canvas 1 1\nlayer 1 0 0\nstroke 1 1\nfill 1 seq 0 0 1 1 ff000080 over 255\nend 1\nexport\n",
        b"canvas 1 1 ffffff\nlayer 1 0 0\nstroke 1 1\nfill 1 seq 0 0 1 1 ff000080 over 255\nend 1\nexport\nP6\n1 1\n255\n\xff\x7f\x7f",
    ),
    (
        "--artists=16 --emit=log --workers 0",
        b"canvas 1 1 000000\nlayer 01 0 0 000000ff\nundo\n",
        b"canvas 1 1 000000\nlayer 1 0 0 000000ff\nundo\n1 layer done\n2 undo done\n",
    ),
];

#[test]
fn histories_and_what_they_show(rt: HostRuntime) -> Result<(), Fail> {
    for (words, script, out) in DRAWN {
        let got = ran_by(&rt, rt.alloc(), words, script)?;
        assert!(rt; got.is(0, out, b""), "{words}");
    }
    Ok(())
}

/// How many artists draw the generated script.
const ARTISTS: u32 = 4;

/// The artist whose command the line is: of a stroke's lines the one with the stroke's number, by their own
/// number as remainder.
fn artist_of(line: &str) -> u32 {
    let mut fields = line.split_ascii_whitespace();
    let word = fields.next();
    let number = fields.next();
    let ("stroke" | "fill" | "dab" | "move" | "blur" | "track" | "end" | "cancel") = word.unwrap_or(
        "",
    ) else {
        return 0;
    };
    match number.unwrap_or("").parse::<u32>() {
        Ok(number) => number % ARTISTS,
        Err(_) => 0,
    }
}

/// The artist's lines of a text.
fn lines_of<'a>(alloc: Global, text: &'a str, artist: u32) -> Result<Vec<&'a str>, Fail> {
    let mut own = Vec::new(alloc);
    for line in text.lines() {
        if artist_of(line) == artist {
            own.push(line)?;
        }
    }
    Ok(own)
}

/// The script that was written, and the summary behind it without its first word.
fn parts(seen: &Seen) -> Result<(&str, &str), Fail> {
    let Ok(text) = str::from_utf8(&seen.out) else {
        return Err("not a text".into());
    };
    match text.split_once("entries ") {
        Some(parts) => Ok(parts),
        None => Err("no summary".into()),
    }
}

/// Whether the command, run on what was written as a script, gives the summary behind it.
fn is_summary<R: Threads + Wait + Sync>(rt: &R, alloc: Global, seen: &Seen) -> Result<bool, Fail> {
    let (script, summary) = parts(seen)?;
    let again = ran_by(rt, alloc, "--emit sum", script.as_bytes())?;
    let (before, told) = parts(&again)?;
    Ok(again.code == seen.code && before.is_empty() && told == summary)
}

/// A single artist draws the generated script in its order. Of four, each keeps to the order of its own
/// commands, and what comes of it is a script.
#[test]
fn generated(rt: HostRuntime) -> Result<(), Fail> {
    let alloc = rt.alloc();
    let one = ran_by(&rt, alloc, "--demo 1 --artists 1 --emit sum", b"")?;
    let four = ran_by(&rt, alloc, "--demo 1 --artists 4 --emit sum", b"")?;
    assert!(rt; is_summary(&rt, alloc, &one)? && is_summary(&rt, alloc, &four)?);
    let (order, _) = parts(&one)?;
    let (history, _) = parts(&four)?;
    for artist in 0..ARTISTS {
        let sent = lines_of(alloc, order, artist)?;
        assert!(rt;
            lines_of(alloc, history, artist)?.as_slice() == sent.as_slice(),
            "{artist}"
        );
    }
    Ok(())
}
