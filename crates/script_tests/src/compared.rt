//! Scripts through several crates: what a text that is cut off is read as, and strokes of generated scripts.

use crate::fixtures::first_fault;
use demo_gen::script_of;
use doc_model::{Command, Job, Kind};
use script_text::{Cause, read};
use std::alloc::Global;
use std::test::Fail;
use stroke_core::OpenStroke;

/// A stroke painted, undone and redone, with an export after each.
const THERE_AND_BACK: &[u8] =
    b"canvas 1 1\nlayer 1 0 0\nstroke 1 1\nfill 1 seq 0 0 1 1 ff0000ff over 255\nend 1\nexport\nundo\nexport\nredo\nexport\n";

/// The line and the cause of the first `len` bytes of that script, where they are bad.
fn fault_of(alloc: Global, len: usize) -> Option<(u32, Cause)> {
    let (front, _) = THERE_AND_BACK.split_at(len.min(THERE_AND_BACK.len()));
    first_fault(read(alloc, front))
}

#[test]
fn scripts_that_are_cut_off(rt: HostRuntime) -> Result<(), Fail> {
    let table = [
        (0, Some((1, Cause::CanvasMissing))),
        (9, Some((1, Cause::FieldCount))),
        (10, None),
        (25, Some((3, Cause::UnknownWord))),
        (200, None),
    ];
    for (len, want) in table {
        assert_eq!(rt; fault_of(rt.alloc(), len), want, "the first {len} bytes");
    }
    Ok(())
}

/// Whether the stroke keeps the job.
fn keeps(stroke: &mut OpenStroke, kind: Kind, job: Job) -> bool {
    job.check().is_ok() && stroke.job_count() < 4096 && stroke.add(kind, job).is_ok()
}

/// How many strokes there are of the generated script, of which no two jobs conflict.
fn strokes_without_overlap(alloc: Global, number: u32) -> Result<u32, Fail> {
    let script = script_of(alloc, number)?;
    let mut stroke = OpenStroke::new(alloc, 0, 0, false);
    let mut strokes = 0u32;
    for command in script.commands() {
        match *command {
            Command::Stroke {
                no,
                layer,
                exclusive,
            } => stroke = OpenStroke::new(alloc, no, layer, exclusive),
            Command::Add { kind, job, .. } => {
                if !keeps(&mut stroke, kind, job) {
                    return Err("a job conflicts".into());
                }
            }
            Command::End { .. } | Command::Cancel { .. } => strokes = strokes.wrapping_add(1),
            _ => {}
        }
    }
    Ok(strokes)
}

#[test]
fn no_stroke_of_a_generated_script_overlaps(rt: HostRuntime) -> Result<(), Fail> {
    for number in [0, 1] {
        assert_eq!(rt;
            strokes_without_overlap(rt.alloc(), number)?,
            40,
            "number {number}"
        );
    }
    Ok(())
}
