//! A desk for a program that isn't written in Rattle. Commands come as lines of text or as numbers, work goes out and
//! comes back as pieces that the program keeps, and a screen reads shots.
#![tactic(auto)]

mod feeding;
mod giving;
mod host;
mod opening;
mod path;
mod shot;
mod taking;
mod texts;
mod tiles;
mod views;

pub use host::Host;
pub use shot::Shot;
pub use texts::Written;
