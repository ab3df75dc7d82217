//! The commands taken so far, and what has to be known of them to tell whether one more may follow.
//!
//! # Decisions
//!
//! - What is known of commands stands with them, in one type: an ordered map from strokes' numbers to whether
//!   they are open and how many jobs they have. So whether one more may follow is one look-up. The reader of
//!   scripts and the desk share it; the desk makes room first (`make_room`, `push`), since its queue may want
//!   memory too.
//! - A log may follow a list that others share (`CommandLog::following`): while each command is the list's next
//!   one, only their number is kept, so a script's commands stand in memory once while a desk paints it. Each
//!   is compared with the list's, since nothing can be told by addresses. The first other command costs a copy
//!   of all before it.
//! - The stroke that was started last is at hand beside the map, so a job of it needs no search.
//! - Whether a job meets the limits isn't asked as it is taken, since the reader of a script has read its
//!   numbers with their limits; `may_follow` asks it.
//! - `jobs_misfit` answers for all jobs of a path at once, before the first is added, so that a path that may
//!   not follow leaves nothing.
#![tactic(auto)]

mod front;
mod log;
mod refusal;
mod same;
mod shared;
mod table;

pub use log::CommandLog;
pub use refusal::{Misfit, Refusal};
pub use shared::Commands;
