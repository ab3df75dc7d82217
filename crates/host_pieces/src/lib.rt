//! Work that a desk's host keeps elsewhere: it is taken from the desk, done by any thread, and given back.
#![tactic(auto)]

mod giving;
mod held;
mod job_piece;
mod part;
mod piece;
mod taken_job;
mod walk_piece;

pub use job_piece::JobPiece;
pub use piece::Piece;
pub use walk_piece::WalkPiece;
