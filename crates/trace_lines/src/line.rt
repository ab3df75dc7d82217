//! What a line of a trace says, and why lines are refused.

use doc_model::{Command, Patch};
use geom_core::TileKey;

/// What a line of a trace says. Slots are told by their places, from 0 on.
#[derive(Clone, Copy)]
pub enum Line {
    /// The command is fed.
    Feed(Command),
    /// A command is fed whose job has too many dabs or leaves the world, or a patch is walked that leaves
    /// it: so it never happens.
    Outside,
    /// The stroke at the head begins, finishes or leaves nothing, or another entry takes effect.
    Step,
    /// The next job starts in that slot.
    Start(u8),
    /// That tile of the job in that slot is laid on its layer.
    Publish(u8, TileKey),
    /// The job or the walk in that slot ends.
    End(u8),
    /// A walk of that patch, which waits, starts in that slot.
    Walk(u8, Patch),
    /// The walk in that slot lays that tile on the cache of that group.
    Put(u8, u16, TileKey),
}

/// Why a trace is refused.
#[derive(Clone, Copy, Debug, PartialEq, Eq)]
pub enum TraceCause {
    /// The line is of no form.
    BadLine,
    /// What the line says may not happen after the lines before it.
    NotEnabled,
    /// After the last line something is left to do.
    Unsettled,
}

/// The first line that is refused, and why.
#[derive(Clone, Copy, Debug, PartialEq, Eq)]
pub struct TraceFault {
    /// The line's number, from 1 on.
    pub line: u32,
    /// What is wrong with it.
    pub cause: TraceCause,
}
