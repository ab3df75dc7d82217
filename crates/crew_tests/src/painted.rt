//! Painting by a crew, for the tests.

ghost use Rattle.std.specs.Prelude.{◌≤◌, ◌^◌, IfOk, length};

use crew_run::run_crew;
use desk_core::Desk;
use io_edge::Gate;
use script_text::{Script, read};
use std::alloc::Global;
use std::sync::Wait;
use std::test::Fail;
use std::thread::Threads;

/// How many workers there are in turn.
pub(crate) const CREWS: [u8; 5] = [0, 1, 2, 8, 16];

/// The script of up to 4,096 bytes.
pub(crate) fn script_of(alloc: Global, bytes: &[u8]) -> Result<Script, Fail> {
    if bytes.len() > 4096 {
        return Err("too long".into());
    }
    match read(alloc, bytes) {
        Ok(script) => Ok(script),
        Err(_) => Err("not a script".into()),
    }
}

/// The desk of a script that so many workers have painted.
pub(crate) fn painted<R: Threads + Wait + Sync, G: Gate>(
    rt: &R,
    alloc: Global,
    script: &Script,
    workers: u8,
    gate: &G,
) -> Result<Desk, Fail> {
    if workers > 16 || script.len() > 1_000_000 {
        return Err("too many".into());
    }
    Ok(run_crew(rt, alloc, script, workers, gate)?)
}
