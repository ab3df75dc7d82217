//! Jobs of one run are painted side by side.

use crate::gates::Meet;
use crate::painted::{painted, script_of};
use script_text::Script;
use std::alloc::Global;
use std::sync::Wait;
use std::test::Fail;
use std::thread::Threads;

/// A stroke of two concurrent fills in one tile.
const TWO_FILLS: &[u8] =
    b"canvas 64 1\nlayer 1 0 0\nstroke 1 1\nfill 1 con 0 0 32 1 ff0000ff over 255\nfill 1 con 32 0 32 1 0000ffff over 255\nend 1\nexport\n";

/// Whether the gate was met by so many workers and the caller.
fn meets<R: Threads + Wait + Sync>(
    rt: &R,
    alloc: Global,
    script: &Script,
    workers: u8,
) -> Result<bool, Fail> {
    let gate = Meet::new();
    painted(rt, alloc, script, workers, &gate)?;
    Ok(gate.was_met())
}

#[test]
fn two_jobs_of_a_run_go_to_two_threads(rt: HostRuntime) -> Result<(), Fail> {
    let script = script_of(rt.alloc(), TWO_FILLS)?;
    for workers in [1, 2, 8, 16] {
        for _ in 0..50 {
            assert!(rt;
                meets(&rt, rt.alloc(), &script, workers)?,
                "{workers} workers"
            );
        }
    }
    assert!(rt; !meets(&rt, rt.alloc(), &script, 0)?);
    Ok(())
}
