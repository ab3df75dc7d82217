//! Several artists on one image.

ghost use Rattle.std.specs.Prelude.{◌≡◌, ◌≤◌, ◌<◌, ◌^◌, IfOk, length};
ghost use Rattle.turn_lock.specs.Passes.{fresh};

use crate::compared::is_told;
use crate::gates::Senders;
use artists::{Drawn, artist_for, paint_together};
use doc_model::{Canvas, Command};
use geom_core::NoMemory;
use io_edge::NoGate;
use pixel_core::Pixel;
use plain_painter::{drawn_script, plain_frames};
use script_text::{ReadRefusal, Script, print, read};
use std::alloc::Global;
use std::process::Abort;
use std::sync::Wait;
use std::test::*;
use std::thread::Threads;
use studio::{Pass, Sent, Studio};

/// How many drawn scripts are painted.
const SEEDS: u64 = 20;

/// A studio of two artists on a canvas of one point, and their passes.
fn opened(alloc: Global) -> Result<(Studio, Pass, Pass), Fail>
    ensures artists { IfOk result (λ r. r.0.artists ≡ 2) }
    ensures one { IfOk result (λ r. r.1 ≡ fresh r.0.id 0) }
    ensures two { IfOk result (λ r. r.2 ≡ fresh r.0.id 1) }
{
    let canvas = Canvas {
        w: 1,
        h: 1,
        paper: Pixel::new(255, 255, 255, 255),
    };
    let (studio, mut passes) = Studio::new(alloc, canvas, 1, 2)?;
    let (Some(two), Some(one)) = (passes.pop(), passes.pop()) else {
        unreachable!()
    };
    Ok((studio, one, two))
}

/// What is answered to three commands, and the history at the end.
fn answered<R: Wait + Abort>(rt: &R, studio: Studio, one: Pass, two: Pass) -> Result<(), Fail>
    requires artists { studio.artists ≡ 2 }
    requires one { one ≡ fresh studio.id 0 }
    requires two { two ≡ fresh studio.id 1 }
{
    let (mut one, mut two) = (one, two);
    let end = Command::End { no: 1 };
    assert_eq!(rt; studio.send(rt, &mut one, &end)?, Sent::Unlawful);
    let undone = studio.send(rt, &mut one, &Command::Undo)?;
    assert_eq!(rt; undone, Sent::Accepted { place: 0 });
    let exported = studio.send(rt, &mut two, &Command::Export)?;
    assert_eq!(rt; exported, Sent::Accepted { place: 1 });
    studio.back(&mut one, two);
    assert_eq!(rt; (one.artist(), one.calls(), one.joined()), (0, 3, 1));
    let closed = studio.close(one);
    assert_eq!(rt;
        closed.desk.commands(),
        [Command::Undo, Command::Export].as_slice()
    );
    assert_eq!(rt; closed.signers.as_slice(), [0, 1].as_slice());
    Ok(())
}

#[test]
fn a_command_is_accepted_where_it_may_follow(rt: HostRuntime) -> Result<(), Fail> {
    let (studio, one, two) = opened(rt.alloc())?;
    answered(&rt, studio, one, two)
}

/// All commands of a stroke are of one artist.
#[test]
fn whose_commands_are_whose(rt: HostRuntime) {
    let (no, layer, exclusive) = (5, 1, false);
    for (command, artist) in [
        (
            Command::Stroke {
                no,
                layer,
                exclusive,
            },
            1,
        ),
        (Command::End { no }, 1),
        (Command::Cancel { no }, 1),
        (Command::Undo, 0),
    ] {
        assert_eq!(rt; artist_for(4, &command), artist);
    }
}

/// Whether what is printed of the script says that script.
fn reads_back(alloc: Global, script: &Script) -> Result<bool, Fail> {
    let text = print(alloc, script)?;
    if text.len() > 1_000_000 {
        return Err("too long".into());
    }
    match read(alloc, &text) {
        Ok(again) => Ok(again.canvas() == script.canvas() && again.commands() == script.commands()),
        Err(_) => Ok(false),
    }
}

/// A drawn script, drawn by so many artists.
fn drawn<R: Threads + Wait + Sync>(
    rt: &R,
    alloc: Global,
    seed: u64,
    artists: u8,
    gate: &Senders,
) -> Result<Drawn, Fail> {
    let Some(script) = drawn_script(alloc, seed)? else {
        return Err("no script".into());
    };
    if artists == 0 || artists > 16 || script.len() > 1_000_000 {
        return Err("too many".into());
    }
    Ok(paint_together(rt, alloc, script, artists, 2, gate)?)
}

#[test]
fn artists_draw_one_history(rt: HostRuntime) -> Result<(), Fail> {
    let alloc = rt.alloc();
    for seed in 0..SEEDS {
        for artists in [1, 2, 16] {
            let gate = Senders::new();
            let drawn = drawn(&rt, alloc, seed, artists, &gate)?;
            let told = plain_frames(alloc, &drawn.script)?;
            assert!(rt;
                is_told(&drawn.desk, &told),
                "seed {seed}, {artists} artists"
            );
            assert!(rt;
                reads_back(alloc, &drawn.script)?,
                "seed {seed}, {artists} artists"
            );
            assert!(rt;
                gate.was_told_once(artists),
                "seed {seed}, {artists} artists"
            );
        }
    }
    Ok(())
}

/// Two strokes, which are of two artists.
const TWO_STROKES: &[u8] =
    b"canvas 2 1\nlayer 1 0 0\nstroke 1 1\nfill 1 seq 0 0 1 1 ff0000ff over 255\nend 1\nstroke 2 1\nfill 2 seq 1 0 1 1 0000ffff over 255\nend 2\nexport\n";

/// Whether two artists send all commands of a script, and its desk has what is told.
fn is_drawn_whole<R: Threads + Wait + Sync>(rt: &R, alloc: Global) -> Result<bool, NoMemory> {
    let script = match read(alloc, TWO_STROKES) {
        Ok(script) => script,
        Err(ReadRefusal::NoMemory) => return Err(NoMemory),
        Err(ReadRefusal::Fault(_)) => return Ok(false),
    };
    let count = script.len();
    if count > 1_000_000 {
        return Ok(false);
    }
    let drawn = paint_together(rt, alloc, script, 2, 1, &NoGate)?;
    let told = plain_frames(alloc, &drawn.script)?;
    Ok(drawn.script.len() == count && is_told(&drawn.desk, &told))
}

/// With any one allocation failing, no command is lost, and the desk has what is told.
#[test]
fn artists_lose_no_command(rt: HostRuntime) -> Result<(), Fail> {
    let is_whole = match is_drawn_whole(&rt, rt.alloc()) {
        Err(NoMemory) => is_drawn_whole(&rt, rt.alloc()),
        is_whole => is_whole,
    };
    assert!(rt; is_whole?);
    Ok(())
}
