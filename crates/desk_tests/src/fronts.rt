//! The picture of a document in which a stroke is under way.

use crate::fixtures::made;
use crate::mixed::add_last;
use crate::scripts::settled;
use desk_core::Desk;
use doc_model::{Canvas, Command};
use geom_core::NoMemory;
use std::alloc::Global;

/// A settled desk whose one frame is the picture of a document after the first so many entries and the
/// first so many jobs of the next one. None where that isn't a stroke with as many jobs.
pub(crate) fn painted_front(
    alloc: Global,
    canvas: Canvas,
    commands: &[Command],
    entries: usize,
    jobs: u32,
) -> Result<Option<Desk>, NoMemory> {
    let front = front(alloc, commands, entries, jobs)?;
    match made(alloc, canvas, front)? {
        Some(script) => settled(alloc, &script, 1),
        None => Ok(None),
    }
}

/// The commands of the first entries and jobs, without the exports among them, and an export at the end.
fn front(
    alloc: Global,
    commands: &[Command],
    entries: usize,
    jobs: u32,
) -> Result<Vec<Command>, NoMemory> {
    let mut front = Vec::new(alloc);
    let (mut begun, mut left) = (0usize, jobs);
    for command in commands {
        if is_first(command) {
            begun = begun.wrapping_add(1);
        }
        if begun <= entries {
            add_seen(&mut front, command)?;
        } else if begun == entries.wrapping_add(1) && left > 0 {
            left = add_job(&mut front, command, left)?;
        }
    }
    add_last(&mut front, Command::Export)?;
    Ok(front)
}

/// Whether an entry begins with the command.
fn is_first(command: &Command) -> bool {
    !matches!(
        command,
        Command::Add { .. } | Command::End { .. } | Command::Cancel { .. }
    )
}

/// Adds a command that is no export.
fn add_seen(front: &mut Vec<Command>, command: &Command) -> Result<(), NoMemory> {
    match command {
        Command::Export => Ok(()),
        _ => add_last(front, *command),
    }
}

/// Adds a command of a stroke of which so many jobs are left, and its end behind the last. How many are left
/// then.
fn add_job(front: &mut Vec<Command>, command: &Command, left: u32) -> Result<u32, NoMemory> {
    add_last(front, *command)?;
    match command {
        Command::Add { no, .. } if left == 1 => {
            add_last(front, Command::End { no: *no })?;
            Ok(0)
        }
        Command::Add { .. } => Ok(left.wrapping_sub(1)),
        _ => Ok(left),
    }
}
