//! Frames and films, which show the canvas tile by tile, and marks and damage, which say what of it may have changed.
//!
//! # Decisions
//!
//! - A frame has its tiles in a list by places, 32 to a row as on the largest canvas, so that to put or to read
//!   one is one index. `rows_into` takes all rows of one tile before those of the next, since these stand one
//!   after another in memory.
//! - A frame keeps a tile as it is, or as the plies of which it is composed: other tiles, which are shared with
//!   the layers, with the way in which each is laid. Contracts see the 4,096 pixels either way, and of a `Cell`
//!   the plies too. Plies are composed row by row whenever they are read, on a stack of 17 rows, so that to read
//!   a frame takes no memory.
//! - Of each frame a film keeps the marks of the tiles that may differ from the frame before, told by pixels
//!   and not by tiles (`Renews`), since a cache is seen as a layer. So no pixels are compared where pictures
//!   are written.
//! - A damaged part is kept in six bytes (`Piece`), since it lies in one tile of the largest canvas: as
//!   rectangles of the world the parts of all tiles, and a few copies of them on their way, were most of the
//!   main thread's stack.
#![tactic(auto)]

mod cell;
mod colours;
mod damage;
mod film;
mod frame;
pub mod laws;
mod marks;
mod open_rows;
mod picture;
mod piece;
mod ply;

pub use cell::Cell;
pub use damage::Damage;
pub use film::Film;
pub use frame::Frame;
pub use marks::Marks;
pub use ply::Ply;
