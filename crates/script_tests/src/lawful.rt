//! Which commands may follow others, and why not.

use command_log::{CommandLog, Misfit};
use doc_model::{Command, Job, Kind};
use geom_core::Rect;
use std::process::Abort;
use std::test::*;

/// Adds a blur of that radius to a stroke.
fn blur(rt: &impl Abort, no: u32, r: u8) -> Command {
    let rect = Rect::new(0, 0, 1, 1).expect(rt, "a rectangle of the world");
    let (kind, job) = (Kind::Seq, Job::Blur { rect, r });
    Command::Add { no, kind, job }
}

fn stroke(no: u32) -> Command {
    Command::Stroke {
        no,
        layer: 1,
        exclusive: false,
    }
}

/// Behind two strokes, of which the second is open. What forbids a job of too large a radius is its own limit.
#[test]
fn commands_of_strokes(rt: HostRuntime) {
    let mut log = CommandLog::new(rt.alloc());
    for command in [stroke(1), Command::End { no: 1 }, stroke(2)] {
        assert!(rt; log.add(command).is_ok());
    }
    let rows = [
        (stroke(1), Some(Misfit::UsedAgain), false),
        (stroke(3), None, true),
        (Command::End { no: 1 }, Some(Misfit::ClosedStroke), false),
        (
            Command::Cancel { no: 3 },
            Some(Misfit::UnknownStroke),
            false,
        ),
        (blur(&rt, 2, 16), None, true),
        (blur(&rt, 2, 17), None, false),
    ];
    for (command, misfit, may) in rows {
        assert_eq!(rt; log.misfit(&command), misfit);
        assert_eq!(rt; log.may_follow(&command), may);
    }
}

#[test]
fn exports(rt: HostRuntime) {
    let mut log = CommandLog::new(rt.alloc());
    for _ in 0..64 {
        assert!(rt; log.may_follow(&Command::Export));
        assert!(rt; log.add(Command::Export).is_ok());
    }
    assert!(rt; !log.may_follow(&Command::Export));
    assert_eq!(rt; log.misfit(&Command::Export), Some(Misfit::TooManyExports));
}
