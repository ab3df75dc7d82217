//! What a walk over the groups of a tree reads, and the groups' pictures that it computes from it.
//!
//! # Decisions
//!
//! - A walk's inputs take a layer, not its tiles one by one: `add_child` grabs what the layer has on the patch,
//!   so ids needn't be distinct, and the clause is the machine's own. They are gathered once (`Gathered`) and
//!   never change then, so that slot and ticket share them whole (`Inputs::share`).
//! - A walk is composed tile by tile and on each tile of all groups (`compose_keys`), so that a tile stays in
//!   the processor's cache and threads share a walk. A child group on the path is read from what the walk has
//!   composed; its old pixels are never read. A picture of one pixel is lent without a tile (`Given`).
//! - `Inputs::same_in` is exact: it compares the patch's part of the tile and nothing else, by pixels, since
//!   that two counted pointers are the same can't be proved here.
//! - What is known of a walk beside what it reads (`Inputs::know`) is no part of what contracts see: so what
//!   was composed with it and without it is the same. Where there is no memory for it, the walk composes all.
//! - `plan` makes a path that may take memory past 17 groups; `all_groups` gives all groups in place, for undo
//!   and redo, which take none.
#![tactic(auto)]

mod composed;
mod folds;
mod gathered;
mod inputs;
mod known;
mod overlay;
mod paths;
mod row;
mod rows;
mod same;
mod spans;

pub use composed::{Composed, compose_key, compose_keys};
pub use folds::Fold;
pub use gathered::Gathered;
pub use inputs::Inputs;
pub use known::{Damaged, Footing, Known};
pub use paths::{Path, all_groups, plan};
pub use rows::Rows;
pub use same::same_values;
