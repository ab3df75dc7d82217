//! Strokes worked out by hand.

use crate::fixtures::crosses;
use doc_model::{Job, Kind};
use geom_core::Rect;
use pixel_core::{Op, Pixel};
use std::alloc::Global;
use stroke_core::{AddFault, OpenStroke};

/// What a stroke answers: its pair and how many jobs it keeps.
type Answer = (Option<(u32, u32)>, u32);

fn row(x: u8, w: u8) -> Rect {
    Rect::new(i32::from(x), 0, u32::from(w) + 1, 1).unwrap_or(Rect::default())
}

/// Fills the columns from `x` to `last` of row 0.
fn fill(x: u8, last: u8) -> Job {
    Job::Fill {
        rect: row(x, last.saturating_sub(x)),
        colour: Pixel::CLEAR,
        op: Op::Over,
        strength: 255,
    }
}

/// Moves the pixel of the column `x` to the column `to`.
fn shift(x: u8, to: u8) -> Job {
    Job::Move {
        rect: row(x, 0),
        dx: i32::from(to) - i32::from(x),
        dy: 0,
    }
}

/// Blurs one pixel by the pixels beside it.
fn blur(x: u8) -> Job {
    Job::Blur {
        rect: row(x, 0),
        r: 1,
    }
}

/// A stroke that was fed these jobs. None where there is no memory.
fn stroke_of(alloc: Global, jobs: &[(Kind, Job)]) -> Option<OpenStroke> {
    let mut stroke = OpenStroke::new(alloc, 7, 3, true);
    for (kind, job) in jobs {
        if job.check().is_err() || stroke.job_count() >= 4096 {
            return None;
        }
        if stroke.add(*kind, *job) == Err(AddFault::NoMemory) {
            return None;
        }
    }
    Some(stroke)
}

fn answer(alloc: Global, jobs: &[(Kind, Job)]) -> Option<Answer> {
    let stroke = stroke_of(alloc, jobs)?;
    Some((stroke.overlap(), stroke.job_count()))
}

#[test]
fn conflicts(rt: HostRuntime) {
    let alloc = rt.alloc();
    let side_by_side = [(Kind::Con, fill(0, 31)), (Kind::Con, fill(32, 63))];
    assert_eq!(rt; answer(alloc, &side_by_side), Some((None, 2)));
    let third = [
        (Kind::Con, fill(0, 1)),
        (Kind::Con, fill(2, 2)),
        (Kind::Con, fill(1, 1)),
        (Kind::Seq, fill(0, 0)),
    ];
    assert_eq!(rt; answer(alloc, &third), Some((Some((1, 3)), 2)));
    let both_unique = [(Kind::Uni, fill(0, 1)), (Kind::Uni, fill(1, 1))];
    assert_eq!(rt; answer(alloc, &both_unique), Some((None, 2)));
    let between = [
        (Kind::Con, shift(0, 10)),
        (Kind::Uni, fill(4, 5)),
        (Kind::Uni, fill(5, 6)),
    ];
    assert_eq!(rt; answer(alloc, &between), Some((None, 3)));
    let one_unique = [(Kind::Con, fill(0, 1)), (Kind::Uni, fill(1, 1))];
    assert_eq!(rt; answer(alloc, &one_unique), Some((Some((1, 2)), 1)));
    let barrier = [
        (Kind::Con, fill(0, 0)),
        (Kind::Bar, fill(1, 1)),
        (Kind::Con, fill(0, 1)),
        (Kind::Con, fill(0, 0)),
    ];
    assert_eq!(rt; answer(alloc, &barrier), Some((Some((3, 4)), 3)));
    let near = [(Kind::Con, blur(20)), (Kind::Con, blur(21))];
    assert_eq!(rt; answer(alloc, &near), Some((Some((1, 2)), 1)));
    let apart = [(Kind::Con, blur(20)), (Kind::Con, blur(22))];
    assert_eq!(rt; answer(alloc, &apart), Some((None, 2)));
}

/// What a stroke answers after a job for each of 130 columns, more than two blocks, and one more.
fn answer_after_columns(alloc: Global, last: Job) -> Option<Answer> {
    let mut jobs = [(Kind::Con, last); 131];
    for x in 0..130u8 {
        jobs[x as usize] = (Kind::Con, fill(x, x));
    }
    answer(alloc, &jobs)
}

#[test]
fn conflicts_in_several_blocks(rt: HostRuntime) {
    let alloc = rt.alloc();
    assert_eq!(rt;
        answer_after_columns(alloc, fill(130, 130)),
        Some((None, 131))
    );
    for (first, last, pair) in [
        (0, 0, (1, 131)),
        (63, 64, (64, 131)),
        (64, 129, (65, 131)),
        (99, 99, (100, 131)),
        (129, 140, (130, 131)),
    ] {
        assert_eq!(rt;
            answer_after_columns(alloc, fill(first, last)),
            Some((Some(pair), 130))
        );
    }
}

#[test]
fn closed(rt: HostRuntime) {
    let alloc = rt.alloc();
    let jobs = [(Kind::Seq, fill(0, 1)), (Kind::Con, fill(1, 1))];
    let stroke = stroke_of(alloc, &jobs);
    let ended = stroke.map(|stroke| stroke.end());
    assert!(rt; ended.is_some());
    if let Some(ended) = ended {
        assert!(rt;
            ended.no() == 7 && ended.layer() == 3 && ended.exclusive() && !ended.cancelled()
        );
        assert!(rt; ended.jobs() == jobs.as_slice());
        crosses(&ended);
    }
    assert!(rt; OpenStroke::new(alloc, 1, 1, false).cancel().cancelled());
}
