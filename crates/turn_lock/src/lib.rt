//! A lock that artists take in turn: its value has a history, to which each call may add one entry.
//!
//! # Decisions
//!
//! - The lock knows entries, artists and histories, and no desk: what lies under it is any value with a
//!   history, which says itself which entry may follow (`Board`). So it is proved without a desk.
//! - It has one word and one slot of the kit's `atomic_table`. Tickets would serve artists in their order; they
//!   would cost a second word, the line of those who wait as a part of the rule, and a limit, and no promise
//!   would gain.
//! - The rule says that there is one legal history, of which each pass has seen a beginning, that no number is
//!   kept twice, and that of a number which a pass keeps the history has just the entries that this pass made.
//!   The first pass keeps all numbers and gives them away, so the sum of what is kept never changes. What a
//!   step added is told by what is put back, since a step of a table can't be told an entry.
//! - A refused call leaves no trace in the history. So all that is said of the history at its turn is that
//!   there was one that goes on from what the pass saw, after which the entry might not follow.
#![tactic(auto)]

mod board;
mod calls;
mod lock;
mod rule;
mod sent;
mod steps;
mod view;

pub use board::Board;
pub use lock::{Pass, TurnLock};
pub use rule::{Law, Table};
pub use sent::Sent;
pub use view::{Terms, View};
