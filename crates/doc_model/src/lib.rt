//! Documents of layers and groups: the plain types, and the definitions of what they mean.
//!
//! # Decisions
//!
//! - A node in the definitions is `paint` or `group`, and the root is the group 0, which no forest has, since
//!   it has no look, no siblings and no place. With one constructor some walks over trees would be shorter. But
//!   the language of definitions has no list of a type inside that very type, and the proofs of ten crates go
//!   by the two to know what has pixels.
//! - The definitions say `default_pixel` where the code says `ground`, since that word is taken in clauses.
//! - Places of jobs count from 0 inside; numbers from 1 stand in the pair of a conflict and in outcomes alone.
//! - Every document that a meaning reaches has each id once and never 0. No rule asks for it, but it follows
//!   from the refusals, and much rests on it (`changes_keep_limits`, `meaning_keeps_limits`).
//! - A track is kept inside its job, so that a job stays a value that is copied and compared; to share it would
//!   need a counted pointer in a command, whose copies may be refused. A command takes 68 bytes for that, in
//!   place of 40. A track's fields are private, so its type keeps to the limits, and whether its dabs lie in
//!   the world is asked of its points alone.
//! - The law of waiting updates speaks of any choice of walks that has the walk of all groups whenever it has
//!   any (`queued_covers`); the machine applies it to its own paths.
#![tactic(auto)]

mod canvas;
mod command;
mod job;
mod laws;
mod track;
mod tree;

pub use canvas::{Canvas, Patch, Walk};
pub use command::{Command, MOST_COMMANDS, Outcome};
pub use job::{Job, Kind, square_round};
pub use laws::{
    changes_keep_limits, conflicts_both_ways, dabs_stand_before, job_laws, jobs_commute,
    meaning_keeps_limits, one_outcome_an_entry, queued_covers, queued_keeps_places, redo_then_undo,
    refused_leaves_nothing, tiles_commute, undo_gives_back, undo_then_redo,
};
pub use track::{Segment, Stamp, Track, segment_at, track_dab, track_len};
pub use tree::{Change, Look, TreeFault};
