//! What a program in C keeps of a desk, of a piece of work and of a shot.
#![tactic(auto)]

mod desk_handle;
mod piece_handle;
mod shot_handle;

pub use desk_handle::DeskHandle;
pub use piece_handle::PieceHandle;
pub use shot_handle::ShotHandle;
