//! Tests of scripts: what their texts are read as, how they are printed, generated ones, the bytes of pictures,
//! and traces. They stand above the crates that they test, so that each of those is proved once.
//!
//! # Decisions
//!
//! - The sums and the hash of generated scripts were worked out by a plain painter in C that was written from
//!   the rules, with whole arrays in place of tiles; it isn't in the repository. The hash is FNV-1a of 64 bits
//!   over all bytes of the two pixmaps.
#![tactic(auto)]

#[cfg(test)]
mod compared;
#[cfg(test)]
mod fixtures;
#[cfg(test)]
mod generated;
#[cfg(test)]
mod lawful;
#[cfg(test)]
mod pictures;
#[cfg(test)]
mod scripts;
#[cfg(test)]
mod traces;
