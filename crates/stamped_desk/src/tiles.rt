//! Tiles of a job that was taken.

ghost use Rattle.std.specs.Prelude.{◌≡◌, ◌++◌, [], true, length, IfSome, OnErr, OnOk};
ghost use Rattle.stamped_desk.specs.Stamped.{AreMadeOf, AreOne, batch};

use crate::history::{Stamp, StampNaming};
use desk_core::{SlotId, Taken};
use geom_core::NoMemory;
use std::marker::Model;
use whole_tiles::Whole;

/// Tiles that were made whole, for the job in a slot, beside the stamp of the job that all were made of.
/// There is no stamp where it isn't known that all were made of one job.
#[derive(Drop)]
pub struct StampedTiles<J: StampNaming> {
    slot: SlotId,
    /// The least index of the jobs that were at work when that job started, its own where none was.
    pub(crate) since: u32,
    pub(crate) tiles: Vec<Whole>,
    pub(crate) stamp: Option<Stamp<J, Taken>>,
}

impl<J: StampNaming> Model for StampedTiles<J> {
    ghost use Rattle.std.specs.Prelude.{IfSome};
    ghost use Rattle.stamped_desk.specs.Stamped.{AreMadeOf, Batch, batch, batch_code};

    ghost Value = { Batch };

    ghost coded = { batch_code };

    ghost view = { λ t. batch t.slot t.tiles.items };

    ghost invariant = { λ t. IfSome t.stamp (λ s.
        AreMadeOf s t.since (batch t.slot t.tiles.items)) };
}

impl<J: StampNaming> StampedTiles<J> {
    /// Tiles that were made of one job, with its stamp.
    pub(crate) fn of_job(
        slot: SlotId,
        since: u32,
        tiles: Vec<Whole>,
        stamp: Option<Stamp<J, Taken>>,
    ) -> StampedTiles<J>
        requires { IfSome stamp (λ s. AreMadeOf s since (batch slot tiles.items)) }
        ensures { result ≡ batch slot tiles.items }
    {
        StampedTiles {
            slot,
            since,
            tiles,
            stamp,
        }
    }

    /// The slot that they are for.
    pub fn slot(&self) -> SlotId
        ensures { result ≡ self.now.slot }
    {
        self.slot
    }

    /// How many there are.
    pub fn len(&self) -> usize
        ensures { result ≡ length self.now.tiles }
    {
        self.tiles.len()
    }

    /// Moves tiles that were made for the same slot to the end.
    ///
    /// # Errors
    /// `NoMemory`; the tiles are as they were.
    pub fn append(&mut self, other: &mut StampedTiles<J>) -> Result<(), NoMemory>
        ensures ok { OnOk result (self.new
            ≡ batch self.old.slot (self.old.tiles ++ other.old.tiles)) }
        ensures moved { OnOk result (other.new ≡ batch other.old.slot []) }
        ensures err { OnErr result (self.new ≡ self.old) }
        ensures stays { OnErr result (other.new ≡ other.old) }
    {
        if !are_one(&self.stamp, &other.stamp) {
            self.stamp = None;
        }
        self.tiles.append(&mut other.tiles)?;
        Ok(())
    }
}

/// Whether both are there, and are one stamp.
fn are_one<J: StampNaming>(a: &Option<Stamp<J, Taken>>, b: &Option<Stamp<J, Taken>>) -> bool
    ensures { result ≡ true → AreOne a.now b.now }
{
    match (a, b) {
        (Some(a), Some(b)) => a.is_same(b),
        _ => false,
    }
}
