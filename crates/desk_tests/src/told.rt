//! What a desk shows, against what its script means.

use desk_core::Desk;
use doc_model::Outcome;
use frame_core::Frame;
use geom_core::NoMemory;
use plain_painter::plain_frames;
use script_text::Script;
use std::alloc::Global;

/// Whether the desk has the outcomes and frames that the plain evaluator tells of the script.
pub(crate) fn is_as_told(alloc: Global, desk: &Desk, script: &Script) -> Result<bool, NoMemory> {
    let told = plain_frames(alloc, script)?;
    Ok(tells(desk, &told.outcomes) && all_show(desk.frames(), &told.frames))
}

/// Whether the desk has these outcomes, also one by one.
fn tells(desk: &Desk, outcomes: &[Outcome]) -> bool {
    for i in 0..desk.outcome_count() {
        if outcomes.get(i) != Some(&desk.outcome(i)) {
            return false;
        }
    }
    desk.outcomes() == outcomes
}

/// Whether there is a frame for each, with its colours.
fn all_show(frames: &[Frame], told: &[Vec<[u8; 3]>]) -> bool {
    frames.len() == told.len()
        && frames
            .iter()
            .zip(told)
            .all(|(frame, colours)| shows(frame, colours))
}

/// Whether the frame has these colours, in row order.
fn shows(frame: &Frame, colours: &[[u8; 3]]) -> bool {
    let mut colours = colours.iter();
    for y in 0..frame.height() {
        for x in 0..frame.width() {
            if colours.next() != Some(&frame.at(x, y)) {
                return false;
            }
        }
    }
    colours.next().is_none()
}
