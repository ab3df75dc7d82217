//! A script as a trace: one order of the events of a desk that does it, as draws of a generator say.
//!
//! # Decisions
//!
//! - The crew keeps no trace. The desk makes many events in one call, of which it tells the caller nothing, so
//!   a recorder needs either a second form of each call with contracts that name the events, or slow calls and
//!   so an order which crews that don't record never make. What a trace is for, another order of the same steps
//!   to look at, `trace_of` gives.
//! - The outcomes come with the text, since the desk that it drives is settled then: the command knows its code
//!   and needn't paint the script again.
#![tactic(auto)]

mod scribe;
mod takes;
mod trace;
mod works;

pub use trace::{Traced, trace_of};
