//! Tests of the whole command, from bytes to bytes: each text that it writes, worked scripts, and what
//! it answers where something fails. They stand above the crate that they test, so that it is proved once.
#![tactic(auto)]

#[cfg(test)]
mod commands;
#[cfg(test)]
mod crews;
#[cfg(test)]
mod drawn;
#[cfg(test)]
mod rows;
#[cfg(test)]
mod runs;
#[cfg(test)]
mod texts;
#[cfg(test)]
mod traced;
