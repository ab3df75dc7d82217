//! Scripts drawn by chance, fed in other orders than entry by entry.

ghost use Rattle.std.specs.Prelude.{◌≤◌, ◌<◌};

use crate::fixtures::made;
use doc_model::{Change, Command, Look};
use geom_core::NoMemory;
use pixel_core::Op;
use plain_painter::{Draws, drawn_script};
use script_text::Script;
use std::alloc::Global;

/// How many changes are undone at the end, and redone.
const BACK: u32 = 6;

/// The ids that nodes of a drawn script have.
const LAST_ID: u16 = 8;

/// A script, and its commands entry by entry.
#[derive(Drop)]
pub(crate) struct Mixed {
    pub script: Script,
    pub entries: Vec<Command>,
}

/// The drawn script of that seed, with some strokes cancelled in the midst of their jobs, and with jobs and
/// ends of strokes that come after later entries. Behind it changes are undone and redone, and each layer is
/// shown by itself, with an export after each. None where what was drawn is no script.
///
/// # Errors
/// `NoMemory`.
pub(crate) fn mixed_script(
    alloc: Global,
    seed: u64,
    draws: &mut Draws,
) -> Result<Option<Mixed>, NoMemory> {
    let Some(drawn) = drawn_script(alloc, seed)? else {
        return Ok(None);
    };
    let mut entries = with_cancels(alloc, drawn.commands(), draws)?;
    add_history(&mut entries)?;
    add_layers(&mut entries)?;
    let mut commands = Vec::from_slice(alloc, &entries)?;
    for _ in 0..draws.below(8) {
        put_off(&mut commands, draws);
    }
    match made(alloc, drawn.canvas(), commands)? {
        Some(script) => Ok(Some(Mixed { script, entries })),
        None => Ok(None),
    }
}

/// Adds an item at the end.
pub(crate) fn add_last<T: Copy>(items: &mut Vec<T>, item: T) -> Result<(), NoMemory> {
    items.push(item)?;
    Ok(())
}

/// The number of the stroke of which the command is.
fn stroke_of(command: &Command) -> Option<u32> {
    match command {
        Command::Stroke { no, .. } => Some(*no),
        Command::Add { no, .. } => Some(*no),
        Command::End { no } => Some(*no),
        Command::Cancel { no } => Some(*no),
        _ => None,
    }
}

/// The commands, in which at times a cancel stands in the place of a job and of all that its stroke has after.
fn with_cancels(
    alloc: Global,
    commands: &[Command],
    draws: &mut Draws,
) -> Result<Vec<Command>, NoMemory> {
    let mut kept = Vec::new(alloc);
    let mut cancelled = None;
    for command in commands {
        let stroke = stroke_of(command);
        if stroke.is_some() && stroke == cancelled {
            continue;
        }
        match command {
            Command::Add { no, .. } if draws.once_in(12) => {
                cancelled = stroke;
                add_last(&mut kept, Command::Cancel { no: *no })?;
            }
            _ => add_last(&mut kept, *command)?,
        }
    }
    Ok(kept)
}

/// Whether the first command is a job or an end of a stroke, and the next is of no part of that stroke. Then
/// they mean the same the other way round.
fn may_swap(first: &Command, next: &Command) -> bool {
    let goes_on = matches!(
        first,
        Command::Add { .. } | Command::End { .. } | Command::Cancel { .. }
    );
    goes_on && stroke_of(first) != stroke_of(next)
}

/// Puts some jobs and ends of strokes behind commands that follow them.
fn put_off(commands: &mut [Command], draws: &mut Draws) {
    for i in 1..commands.len() {
        let swaps = i < commands.len() && may_swap(&commands[i - 1], &commands[i]);
        if swaps && draws.once_in(2) {
            commands.swap(i - 1, i);
        }
    }
}

/// Undoes some changes and redoes them, each with an export.
fn add_history(commands: &mut Vec<Command>) -> Result<(), NoMemory> {
    for i in 0..2 * BACK {
        let back = i < BACK;
        add_last(commands, if back { Command::Undo } else { Command::Redo })?;
        add_last(commands, Command::Export)?;
    }
    Ok(())
}

/// What makes a node seen by itself, or not at all.
fn seen(id: u16, visible: bool) -> Command {
    Command::Change(Change::Look {
        id,
        look: Look {
            opacity: 255,
            op: Op::Over,
            visible,
        },
    })
}

/// Puts each node into the root, and shows each by itself.
fn add_layers(commands: &mut Vec<Command>) -> Result<(), NoMemory> {
    for id in 1..=LAST_ID {
        let (parent, place) = (0, 0);
        add_last(
            commands,
            Command::Change(Change::Place { id, parent, place }),
        )?;
        add_last(commands, seen(id, false))?;
    }
    for id in 1..=LAST_ID {
        add_last(commands, seen(id, true))?;
        add_last(commands, Command::Export)?;
        add_last(commands, seen(id, false))?;
    }
    Ok(())
}
