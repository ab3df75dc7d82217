//! What stands behind a desk: the machine's events and decisions over what the desk keeps. Each call that
//! changes it is one event.
//!
//! # Decisions
//!
//! - Whether the layer's tile may be exchanged is told by the jobs that were started, and else by pixels, never
//!   by addresses. Where no job from the ticket's index `since` on writes in a tile, and none before it is at
//!   work, the layer has there what the job's shot has, and the tile that was made of it takes its place unread
//!   (`Sparing`). Where more than 64 jobs lie between, none is looked at. To compare pixels took up to a
//!   quarter of the instructions of a crew, all under the lock.
//! - What is known so is one value (`Base`): `publish_whole` decides it, and it is passed down to the store.
//! - Small jobs are painted by events that the machine has: each starts in a free slot, publishes its one tile
//!   and ends. 64 are painted at most, so that to look for the next barrier isn't a pass over all jobs of the
//!   stroke each time.
#![tactic(auto)]

mod acts;
mod at_work;
mod choices;
mod ends;
mod job_starts;
mod laws;
mod laying;
mod machine;
mod own_work;
mod readers;
mod rows;
mod small_jobs;
mod sparing;
mod stroke_events;
mod tickets;
mod walks;
mod whole_jobs;

pub use laws::{settled_has_meaning, settled_shows_picture};
pub use machine::Machine;
pub use own_work::Lack;
pub use tickets::{PaintTicket, SlotId, WalkTicket};
