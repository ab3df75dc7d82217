//! What a crew paints, against what is told of the script plainly.

ghost use Rattle.std.specs.Prelude.{◌≤◌};

use crate::gates::Yields;
use crate::painted::{CREWS, painted, script_of};
use desk_core::Desk;
use doc_model::{Change, Command, Job, Kind, Outcome};
use frame_core::Frame;
use geom_core::{NoMemory, Rect};
use io_edge::NoGate;
use pixel_core::{Op, Pixel};
use plain_painter::{Told, drawn_script, plain_frames};
use script_text::Script;
use std::alloc::Global;
use std::sync::Wait;
use std::test::Fail;
use std::thread::Threads;
use worked_scripts::{ROWS, Row, WIDE};

/// How many drawn scripts are painted.
const SEEDS: u64 = 60;

/// The number of the stroke that comes last.
const LAST: u32 = 900;

/// Whether the frame has these colours, in row order.
fn shows(frame: &Frame, colours: &[[u8; 3]]) -> bool {
    let mut colours = colours.iter();
    for y in 0..frame.height() {
        for x in 0..frame.width() {
            if colours.next() != Some(&frame.at(x, y)) {
                return false;
            }
        }
    }
    colours.next().is_none()
}

/// Whether there is a frame for each, with its colours.
fn all_show(frames: &[Frame], told: &[Vec<[u8; 3]>]) -> bool {
    frames.len() == told.len()
        && frames
            .iter()
            .zip(told)
            .all(|(frame, colours)| shows(frame, colours))
}

/// Whether the desk has the outcomes and the frames that are told.
pub(crate) fn is_told(desk: &Desk, told: &Told) -> bool {
    desk.outcomes() == told.outcomes.as_slice() && all_show(desk.frames(), &told.frames)
}

/// The numbers of the strokes that were done.
fn done(alloc: Global, commands: &[Command], outcomes: &[Outcome]) -> Result<Vec<u32>, NoMemory> {
    let mut done = Vec::new(alloc);
    let mut outcomes = outcomes.iter();
    for command in commands {
        match command {
            Command::Add { .. } | Command::End { .. } | Command::Cancel { .. } => {}
            Command::Stroke { no, .. } => {
                if outcomes.next() == Some(&Outcome::Done) {
                    done.push(*no)?;
                }
            }
            _ => {
                let _other = outcomes.next();
            }
        }
    }
    Ok(done)
}

/// How often the jobs of a script enter the gate where there are workers, with the sum of their numbers: each
/// job of a stroke that was done does once. A caller that is alone paints small jobs in place, outside the gate.
fn due(alloc: Global, script: &Script, outcomes: &[Outcome]) -> Result<(u64, u64), NoMemory> {
    let mut jobs = 0u64;
    let mut numbers = 0u64;
    for no in done(alloc, script.commands(), outcomes)?.iter() {
        let mut job = 0u64;
        for command in script.commands() {
            if matches!(command, Command::Add { no: n, .. } if n == no) {
                job = job.wrapping_add(1);
                jobs = jobs.wrapping_add(1);
                let number = u64::from(*no).wrapping_mul(1000).wrapping_add(job);
                numbers = numbers.wrapping_add(number);
            }
        }
    }
    Ok((jobs, numbers))
}

/// The script with one job more at its end, of a stroke on a layer of its own: a crew that stops early
/// never enters the gate for it.
fn with_last_job(alloc: Global, script: &Script) -> Result<Script, Fail> {
    let Ok(rect) = Rect::new(0, 0, 1, 1) else {
        return Err("no rectangle".into());
    };
    let fill = Job::Fill {
        rect,
        colour: Pixel::new(1, 2, 3, 255),
        op: Op::Over,
        strength: 255,
    };
    let mut commands = Vec::from_slice(alloc, script.commands())?;
    let tail = [
        Command::Change(Change::Layer {
            id: 900,
            parent: 0,
            place: 0,
            ground: Pixel::CLEAR,
        }),
        Command::Stroke {
            no: LAST,
            layer: 900,
            exclusive: false,
        },
        Command::Add {
            no: LAST,
            kind: Kind::Seq,
            job: fill,
        },
        Command::End { no: LAST },
    ];
    commands.extend_from_slice(tail.as_slice())?;
    match Script::from_commands(alloc, script.canvas(), commands) {
        Ok(script) => Ok(script),
        Err(_) => Err("no script".into()),
    }
}

/// A drawn script, with one job more at its end.
fn drawn(alloc: Global, seed: u64) -> Result<Script, Fail> {
    match drawn_script(alloc, seed)? {
        Some(script) => with_last_job(alloc, &script),
        None => Err("no script".into()),
    }
}

#[test]
fn any_number_of_workers_paints_what_is_told(rt: HostRuntime) -> Result<(), Fail> {
    let alloc = rt.alloc();
    for seed in 0..SEEDS {
        let script = drawn(alloc, seed)?;
        let told = plain_frames(alloc, &script)?;
        let due = due(alloc, &script, &told.outcomes)?;
        for workers in CREWS {
            let gate = Yields::new(seed);
            let desk = painted(&rt, alloc, &script, workers, &gate)?;
            assert!(rt; is_told(&desk, &told), "seed {seed}, {workers} workers");
            if workers > 0 {
                assert_eq!(rt; gate.entered(), due, "seed {seed}, {workers} workers");
            }
        }
    }
    Ok(())
}

/// Whether the first rows of the frames have these colours one after another, of each point in so many from
/// the left.
fn rows_show(frames: &[Frame], each: usize, colours: &[[u8; 3]]) -> bool
    requires { 1 ≤ each }
{
    let mut colours = colours.iter();
    for frame in frames {
        for x in (0..frame.width()).step_by(each) {
            if frame.height() == 0 || colours.next() != Some(&frame.at(x, 0)) {
                return false;
            }
        }
    }
    colours.next().is_none()
}

/// Whether so many workers paint what the row has, of each point in so many from the left.
fn is_painted<R: Threads + Wait + Sync>(
    rt: &R,
    alloc: Global,
    row: &Row,
    each: usize,
    workers: u8,
) -> Result<bool, Fail>
    requires { 1 ≤ each }
{
    let script = script_of(alloc, row.script)?;
    let desk = painted(rt, alloc, &script, workers, &NoGate)?;
    Ok(desk.outcomes() == row.outcomes && rows_show(desk.frames(), each, row.colours))
}

#[test]
fn worked_scripts(rt: HostRuntime) -> Result<(), Fail> {
    for workers in [0, 1, 4] {
        for row in &ROWS {
            let shows = is_painted(&rt, rt.alloc(), row, 1, workers)?;
            assert!(rt; shows, "{workers} workers");
        }
        for row in &WIDE {
            let shows = is_painted(&rt, rt.alloc(), row, 64, workers)?;
            assert!(rt; shows, "{workers} workers");
        }
    }
    Ok(())
}
