//! Work that was put into a slot.

use doc_model::Job;
use tile_core::Shot;
use walker_core::Inputs;

/// A piece of work: the place of its slot, from 0, and its serial. No two works have the same serial.
#[derive(Clone, Copy, Debug, PartialEq, Eq)]
pub struct SlotId {
    pub place: u8,
    pub serial: u64,
}

/// A job to be painted, and the pixels that it reads as they were when it started.
#[derive(Drop)]
pub struct PaintTicket {
    pub slot: SlotId,
    /// The number of its stroke.
    pub stroke: u32,
    /// Its number in the stroke, from 1.
    pub job: u32,
    pub work: Job,
    /// The least index, from 0, of the jobs that were at work when it started, its own where none was:
    /// the others before it were done.
    pub since: u32,
    pub shot: Shot,
}

/// A patch to be composed anew, with all that the walk reads.
#[derive(Drop)]
pub struct WalkTicket {
    pub slot: SlotId,
    pub inputs: Inputs,
}
