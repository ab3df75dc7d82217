//! Tests of the desk: worked scripts, its calls with what they answer, work that comes from elsewhere or
//! late, memory that runs out, and orders drawn by chance. They stand above the crates that they test, so
//! that each of those is proved once.
#![tactic(auto)]

#[cfg(test)]
mod calls;
#[cfg(test)]
mod fixtures;
#[cfg(test)]
mod fronts;
#[cfg(test)]
mod mixed;
#[cfg(test)]
mod orders;
#[cfg(test)]
mod plays;
#[cfg(test)]
mod scripts;
#[cfg(test)]
mod tickets;
#[cfg(test)]
mod told;
