//! Tests of the lower crates, from pixels to the pictures of groups, of what waits to be composed, and of
//! slots of workers: worked values, and that each call can succeed. They stand above the crates that they test, so that each of those is proved once.
//!
//! # Decisions
//!
//! - That shared values may go from thread to thread is tried in the crates of tests (`crosses`), where values
//!   of several crates stand at hand.
#![tactic(auto)]

#[cfg(test)]
mod blurs;
#[cfg(test)]
mod documents;
#[cfg(test)]
mod fixtures;
#[cfg(test)]
mod groups;
#[cfg(test)]
mod jobs;
#[cfg(test)]
mod masks;
#[cfg(test)]
mod pixels;
#[cfg(test)]
mod rectangles;
#[cfg(test)]
mod rows;
#[cfg(test)]
mod slots;
#[cfg(test)]
mod sources;
#[cfg(test)]
mod tiles;
#[cfg(test)]
mod tracks;
#[cfg(test)]
mod updates;
