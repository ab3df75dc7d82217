//! What a desk keeps, the state of the machine that it stands for, and what each event leaves of it.
//!
//! # Decisions
//!
//! - Nothing but the invariant `IsDesk` ties the parts of a desk, and what an event leaves of them is told
//!   once, part by part (`After`): so what is proved of single slots is proved once for taking, publishing,
//!   ending and settling.
//! - Whether an event may happen is asked by its own definition (`Enabled`: there is a state to which the
//!   machine steps). No guard is written a second time; what the code tests is proved to be the guard, both
//!   ways.
#![tactic(auto)]

mod head;
mod newest;
mod work;

pub use head::Choice;
pub use newest::{Newest, has_key, has_pair};
pub use work::{Painter, Walker, Work};
