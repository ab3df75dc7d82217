//! Tests of the crew: what it paints by any number of workers, and that they paint side by side. And of the live
//! view: what readers see, also of a script while it is painted. And of artists who draw one script.
#![tactic(auto)]

#[cfg(test)]
mod compared;
#[cfg(test)]
mod gates;
#[cfg(test)]
mod live;
#[cfg(test)]
mod looks;
#[cfg(test)]
mod meets;
#[cfg(test)]
mod painted;
#[cfg(test)]
mod stamps;
#[cfg(test)]
mod together;
