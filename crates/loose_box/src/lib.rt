//! A boxed value behind its pointer, as a handle has it that a program in C keeps.
#![tactic(auto)]

mod loose;

pub use loose::Loose;
