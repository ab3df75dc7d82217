//! Tests of the crates from trees and layers to stores, their frames, and walks over their groups: worked
//! histories and values, and that each call can succeed. They stand above the crates that they test, so that
//! each of those is proved once.
#![tactic(auto)]

#[cfg(test)]
mod books;
#[cfg(test)]
mod caches;
#[cfg(test)]
mod clear_moves;
#[cfg(test)]
mod devices;
#[cfg(test)]
mod fixtures;
#[cfg(test)]
mod queues;
#[cfg(test)]
mod reverts;
#[cfg(test)]
mod stacks;
#[cfg(test)]
mod stores;
#[cfg(test)]
mod strokes;
#[cfg(test)]
mod trees;
#[cfg(test)]
mod walk_starts;
#[cfg(test)]
mod walks;
