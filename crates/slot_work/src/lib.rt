//! What a desk asks of the work in its slots, and what it does with what was made of it.
//!
//! # Decisions
//!
//! - `gather` takes a store, the caches and a patch, and stands here, in the lowest crate that has both.
//!   Children that are groups on the path are gathered with their caches' tiles too, as the machine's walk
//!   reads them.
#![tactic(auto)]

mod gathering;
mod job_ends;
mod own_work;
mod painting;
mod points;
mod remaining;
mod renewing;
mod round;
mod rows;
mod slot_tests;
mod walking;
mod wholes;

pub use gathering::gather;
pub use job_ends::{is_painted, widen_all};
pub use own_work::{compose_own, paint_own};
pub use painting::{lay, meets_writes, takes_painted};
pub use points::{some_waits, some_works};
pub use remaining::{next_pair, next_tile};
pub use renewing::{move_by, renew};
pub use round::round_unsettled;
pub use rows::{is_row_of_walk, lay_row, reads_alike};
pub use slot_tests::{is_blocked, some_painter, some_walker};
pub use walking::{is_composed, is_tile_of, lay_composed, takes_composed};
pub use wholes::{are_lacking, are_of_job, exchange_whole};
