//! What jobs read and write, and their limits, worked out by hand.

use crate::fixtures::rect;
use doc_model::Job;
use geom_core::Rect;
use pixel_core::{Op, Pixel};

fn dab(x: i32, y: i32, r: u8) -> Job {
    Job::Dab {
        x,
        y,
        r,
        soft: true,
        colour: Pixel::CLEAR,
        op: Op::Over,
        strength: 255,
    }
}

fn moving(rect: Rect, dx: i32, dy: i32) -> Job {
    Job::Move { rect, dx, dy }
}

/// Whether the job checks, and reads and writes these rectangles.
fn looks_at(job: &Job, reads: &[Rect], writes: &[Rect]) -> bool {
    match job.check() {
        Ok(()) => *job.reads().as_slice() == *reads && *job.writes().as_slice() == *writes,
        Err(_) => false,
    }
}

#[test]
fn reads_leave_the_world(rt: HostRuntime) {
    let edge = rect(&rt, -16384, 0, 64, 1);
    let whole = rect(&rt, -16384, -16384, 32768, 32768);
    let rows = [
        (dab(-16384, 16383, 0), true),
        (dab(-16384, 0, 1), false),
        (dab(0, 16383, 1), false),
        (dab(i32::MIN, i32::MAX, 255), false),
        (moving(edge, 16384, 0), true),
        (moving(edge, -1, 0), false),
        (moving(edge, 32704, 16383), true),
        (moving(edge, 32705, 0), false),
        (moving(edge, 0, i32::MIN), false),
        (Job::Blur { rect: edge, r: 1 }, false),
        (Job::Blur { rect: whole, r: 0 }, true),
        (
            Job::Blur {
                rect: whole,
                r: 255,
            },
            false,
        ),
    ];
    for (job, checks) in rows {
        assert_eq!(rt; job.check().is_ok(), checks);
    }
}

#[test]
fn reads_and_writes(rt: HostRuntime) {
    let small = rect(&rt, 10, 20, 3, 4);
    let fill = Job::Fill {
        rect: small,
        colour: Pixel::CLEAR,
        op: Op::Over,
        strength: 255,
    };
    let square = rect(&rt, 3, 4, 5, 5);
    let grown = rect(&rt, 8, 18, 7, 8);
    let both = [small, rect(&rt, -90, 27, 3, 4)];
    for (job, reads, writes) in [
        (fill, [small].as_slice(), [small].as_slice()),
        (dab(5, 6, 2), [square].as_slice(), [square].as_slice()),
        (moving(small, -100, 7), both.as_slice(), both.as_slice()),
        (
            Job::Blur { rect: small, r: 2 },
            [grown].as_slice(),
            [small].as_slice(),
        ),
    ] {
        assert!(rt; looks_at(&job, reads, writes));
    }
}

#[test]
fn limits(rt: HostRuntime) {
    let rows = [
        (dab(0, 0, 128), true),
        (dab(0, 0, 129), false),
        (moving(rect(&rt, 0, 0, 4096, 1), 0, 0), true),
        (moving(rect(&rt, 0, 0, 1, 4097), 0, 0), false),
        (
            Job::Blur {
                rect: rect(&rt, 0, 0, 1, 1),
                r: 0,
            },
            false,
        ),
        (
            Job::Blur {
                rect: rect(&rt, 0, 0, 1, 1),
                r: 16,
            },
            true,
        ),
        (
            Job::Blur {
                rect: rect(&rt, 0, 0, 1, 1),
                r: 17,
            },
            false,
        ),
    ];
    for (job, within) in rows {
        assert_eq!(rt; job.is_within_limits(), within);
    }
}
