//! Workers and the caller paint a script together, on one desk behind a lock. What lies under the lock
//! knows the script.
//!
//! # Decisions
//!
//! - What lies under the lock (`Board`) knows the script by a name, a type parameter that each call picks: its
//!   type says that the desk's canvas is the script's, that its fed commands begin the script's, and that whoever
//!   watches shows what the root shows. So nothing is compared at the end, and nothing else of what the threads
//!   do needs a proof.
//! - The crew feeds ahead until the entry at the head is closed, so no job of a cancelled stroke is ever
//!   started. It composes late: while jobs are at work for which the head waits it starts no walk, since what
//!   they change would be composed once more.
//! - One sleeper is woken, by whoever takes work and leaves some that is worth it; whoever ends work looks for
//!   the next in the same hold, so work is never left without a thread that is awake. No thread is started
//!   before there is work for two. Where memory runs out in a thread all stop, and the caller settles.
//! - A job of more than 60,000 points to lay is cut into ranges of tiles. A tile that a fill makes plain counts
//!   for 64 points, and one that it covers in part for a quarter, since each range made a plain tile of its own
//!   (`load_of`); one that a path meets counts for as many points as its dabs there have (`points_of`). No clause
//!   speaks of it.
//! - Whoever watches (`Watching`) lies under the lock beside the desk, and is told of each tile of a walk as it is
//!   laid, so updates come in the order of the desk's events. It says of each point what it shows there, or that
//!   it owes it; before the caller settles alone all is owed. A caller that is alone paints small jobs in place
//!   and enters the gate for none of these.
#![tactic(auto)]

mod board;
mod crew;
mod effort;
mod feeding;
mod pieces;
mod shown;
mod watching;
mod work;

pub use crew::{run_crew, run_watched};
pub use effort::points_of;
pub use shown::{Shown, run_shown};
pub use watching::Watching;
