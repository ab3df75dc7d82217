//! A job that was taken.

ghost use Rattle.std.specs.Prelude.{All, ◌≡◌, ◌-◌, [], true, Some, IfOk, IfSome, length, take, drop};
ghost use Rattle.doc_model.specs.Jobs.{checks, reads};
ghost use Rattle.doc_model.specs.Lawful.{within_limits};
ghost use Rattle.slot_work.specs.Lacking.{keys_of_tiles};
ghost use Rattle.whole_tiles.specs.Plans.{tiles_of};
ghost use Rattle.desk_core.specs.declared.tickets.Taken.TheVariants as taken;
ghost use Rattle.stamped_desk.specs.Stamped.{IsMadeOf, batch};

use crate::history::{Stamp, StampNaming};
use crate::tiles::StampedTiles;
use desk_core::{PaintTicket, SlotId, Taken};
use geom_core::NoMemory;
use std::alloc::Global;
use std::marker::Model;
use whole_tiles::{Painting, Whole};

/// A job that any number of threads may paint, tile by tile, beside its stamp. Contracts see its ticket.
#[derive(Drop)]
pub struct StampedPainting<J: StampNaming> {
    slot: SlotId,
    stroke: u32,
    job: u32,
    since: u32,
    painting: Painting,
    stamp: Option<Stamp<J, Taken>>,
}

impl<J: StampNaming> Model for StampedPainting<J> {
    ghost use Rattle.std.specs.Prelude.{◌≡◌, Some, IfSome};
    ghost use Rattle.desk_events.specs.declared.tickets.PaintTicket.{PaintTicket};
    ghost use Rattle.desk_events.specs.contracts.tickets.PaintTicket.{the_row};
    ghost use Rattle.desk_core.specs.declared.tickets.Taken.TheVariants as taken;
    ghost use Rattle.stamped_desk.specs.Stamped.{ticket_of};

    ghost Value = { PaintTicket };

    ghost coded = { (the_row).coded };

    ghost view = { λ p. ticket_of p.slot p.stroke p.job p.since p.painting };

    ghost invariant = { λ p. IfSome p.stamp (λ s. s.value
        ≡ Some (taken.Paint (ticket_of p.slot p.stroke p.job p.since p.painting))) };
}

impl<J: StampNaming> StampedPainting<J> {
    /// The painting of the job of a ticket that was stamped as it was taken.
    ///
    /// # Errors
    /// `NoMemory`, for the list of its tiles.
    pub fn new(
        alloc: Global,
        ticket: PaintTicket,
        stamp: Option<Stamp<J, Taken>>,
    ) -> Result<StampedPainting<J>, NoMemory>
        requires checked { checks ticket.work ≡ true }
        requires limits { within_limits ticket.work ≡ true }
        requires kept { ticket.shot.rects ≡ reads ticket.work }
        requires stamped { IfSome stamp (λ s. s.value ≡ Some (taken.Paint ticket)) }
        ensures { IfOk result (λ p. p ≡ ticket) }
    {
        Ok(StampedPainting {
            slot: ticket.slot,
            stroke: ticket.stroke,
            job: ticket.job,
            since: ticket.since,
            painting: Painting::new(alloc, ticket.work, ticket.shot)?,
            stamp,
        })
    }

    /// The slot of its ticket.
    pub fn slot(&self) -> SlotId
        ensures { result ≡ self.now.slot }
    {
        self.slot
    }

    /// The number of its stroke.
    pub fn stroke(&self) -> u32
        ensures { result ≡ self.now.stroke }
    {
        self.stroke
    }

    /// Its number in the stroke, from 1.
    pub fn job(&self) -> u32
        ensures { result ≡ self.now.job }
    {
        self.job
    }

    /// How many tiles the job writes.
    pub fn tile_count(&self) -> usize
        ensures { result ≡ length (tiles_of self.now.work) }
    {
        self.painting.tile_count()
    }

    /// No tile of it yet, with room for so many.
    ///
    /// # Errors
    /// `NoMemory`.
    pub fn no_tiles(&self, alloc: Global, room: usize) -> Result<StampedTiles<J>, NoMemory>
        ensures { IfOk result (λ b. b ≡ batch self.now.slot []) }
    {
        let tiles = Vec::with_capacity(alloc, room)?;
        let stamp = copy_of(&self.stamp);
        Ok(StampedTiles::of_job(self.slot, self.since, tiles, stamp))
    }

    /// Its tiles from one place of the list to before another, or to its end, painted whole and in the list's order.
    /// Where a fill leaves one pixel all over neighbours, they share one tile.
    ///
    /// # Errors
    /// `NoMemory`.
    pub fn paint(&self, alloc: Global, from: usize, to: usize) -> Result<StampedTiles<J>, NoMemory>
        ensures slot { IfOk result (λ b. b.slot ≡ self.now.slot) }
        ensures keys { IfOk result (λ b. keys_of_tiles b.tiles
            ≡ take (to - from) (drop from (tiles_of self.now.work))) }
        ensures made { IfOk result (λ b. All (IsMadeOf self.now.work self.now.shot) b.tiles) }
    {
        let tiles = paint_all(alloc, &self.painting, from, to)?;
        let stamp = copy_of(&self.stamp);
        Ok(StampedTiles::of_job(self.slot, self.since, tiles, stamp))
    }
}

/// The same stamp, or none.
fn copy_of<J: StampNaming>(stamp: &Option<Stamp<J, Taken>>) -> Option<Stamp<J, Taken>>
    ensures { result ≡ stamp.now }
{
    match stamp {
        Some(stamp) => Some(stamp.again()),
        None => None,
    }
}

/// The tiles of a job from one place of the list to before another, or to its end, painted whole.
fn paint_all(
    alloc: Global,
    painting: &Painting,
    from: usize,
    to: usize,
) -> Result<Vec<Whole>, NoMemory>
    ensures keys { IfOk result (λ v. keys_of_tiles v.items
        ≡ take (to - from) (drop from (tiles_of painting.now.job))) }
    ensures made { IfOk result (λ v. All (IsMadeOf painting.now.job painting.now.shot) v.items) }
{
    let end = to.min(painting.tile_count()).max(from);
    let mut made = Vec::with_capacity(alloc, end - from)?;
    let mut plain = None;
    for i in from..end {
        let whole = painting.paint_like(alloc, i, &mut plain)?;
        made.push(whole)?;
    }
    Ok(made)
}
