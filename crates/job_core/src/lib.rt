//! Painting a tile of a job.
//!
//! # Decisions
//!
//! - A job's blocks may overlap: of a move both the source's block and the destination's hold the job's value
//!   on their common points. A tile that both rectangles meet is painted once. Where the destination covers the
//!   source's part of a tile there is one block.
//! - What was painted can be kept apart from its shot (`Made`): its type says that some painting made it, so a
//!   store can take it without the job and the shot.
//! - Neighbours that write within one tile can be painted with one look-up of it (`PointWork::run`), which
//!   costs more than a tiny fill does.
//! - A hard dab is laid as a colour on its chord. A soft one takes as many places next to the chord as make
//!   whole blocks of 16 (`whole_blocks`), since what is left over of a block is laid more slowly.
//! - A track is laid straight on its tile, dab by dab. It looks only at the dabs near the tile: along a
//!   segment's longer axis each step is one place, so two divisions tell which these may be.
#![tactic(auto)]

mod blocks;
mod blurs;
mod dabs;
mod fills;
mod ink;
mod made;
mod moves;
mod painted;
mod part;
mod points;
mod rows;
mod task;
mod tracks;

pub use made::Made;
pub use painted::{Painted, paint_tile};
pub use part::{moved_back, part_in, written};
pub use points::{PointWork, point_rect};
