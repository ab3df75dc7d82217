//! The desk: what stands behind the one lock. Each call is one event of the machine, or a list of them. Beside the
//! machine stands what of its caches may be out of date, so that its walks compose that alone: what is proved of it is
//! proved of states and steps, and not of what a machine keeps.
//!
//! # Decisions
//!
//! - The calls see no field of the machine: they choose among the calls of `Machine`, each of which promises a
//!   step, so what they promise is proved of states and runs alone.
//! - A desk reads as its machine, by `Deref`: what changes nothing and asks nothing of the damage stands once,
//!   with its contract. So whoever has a desk may make every reading call of a machine, also those that only
//!   `take`, `commit` and `settle` choose by, and none that changes it.
//! - The damage stands in the desk, beside the machine and not in it, since no one else calls the machine. One
//!   damaged part of a tile serves all groups, and no call takes memory for it. A job damages what it writes as
//!   it starts, so that nothing of a publish has to be known.
//! - Damage is forgotten as a whole where nothing is at work and nothing waits, and in the patch of a walk of
//!   all groups as that ends, where no job has been at work since it began (`calm`). Without the second a cell
//!   that waits twice would be composed whole twice. To forget tile by tile while jobs are at work would take a
//!   search of what waits and runs for each tile.
//! - Folds of lower children go by what events tell (layers, sorts of walks, serials): no pixel is compared.
//! - `take` makes an event of the head where one may happen, and else starts a walk: so composing comes late,
//!   and where a walk finds no memory, nothing of the head was possible.
//! - `commit` takes a job's tiles in one hold, made whole outside: to copy a tile's pixels under the lock takes
//!   longer than to paint it. `commit_made` and `publish_known_row` have the comparison of pixels as a
//!   `requires`. Walks come tile by tile (`publish_row`), so that nothing is gathered.
#![tactic(auto)]

mod answers;
mod asks;
mod changes;
mod commits;
mod desk;
mod events;
mod folds;
mod known;
mod laws;
mod looks;
mod settling;
mod small_jobs;
mod spread;
mod takes;
mod tickets;
mod walks;

pub use answers::{Ended, Fresh, Published};
pub use desk::Desk;
pub use desk_events::{PaintTicket, SlotId, WalkTicket};
pub use laws::{settled_has_meaning, settled_shows_picture};
pub use tickets::Taken;
