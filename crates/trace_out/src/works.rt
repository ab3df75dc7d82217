//! What is done of the work at hand.

ghost use Rattle.std.specs.Prelude.{◌≡◌, ◌∷◌, [], true, false, Some, slice_get, IsSomeAnd, OnOk};
ghost use Rattle.std.specs.List.{list_any};
ghost use Rattle.geom_core.specs.Grid.{same_key, keys_of};
ghost use Rattle.geom_core.specs.Keys.{IsWorldKey};
ghost use Rattle.machine_model.specs.State.{is_free};
ghost use Rattle.machine_model.specs.Event.{Publish as PublishEvent};
ghost use Rattle.machine_model.specs.Step.{Step};
ghost use Rattle.desk_state.specs.Parts.{slot_of};
ghost use Rattle.desk_state.specs.Tied.{IsKept};
ghost use Rattle.desk_state.specs.After.{busy_painter, busy_walker};
ghost use Rattle.trace_out.specs.Writing.{IsTied};
ghost use Rattle.trace_out.specs.Lent.{IsLent, IsLentWalk, LacksTile, LacksPair, walk_of, MayEndLent};
ghost use Rattle.trace_out.specs.Goes.{GoesOnWriting, GoesOnPutting, SettlesPutting};

use crate::scribe::Scribe;
use desk_core::{Desk, Ended, Published, SlotId};
use desk_state::{Newest, Painter, Walker, Work, has_pair};
use geom_core::{NoMemory, TileKey};
use job_core::paint_tile;
use slot_work::{next_pair, next_tile};
use std::alloc::Global;
use trace_lines::{Line, add_line};
use walker_core::{Composed, compose_key};

impl Scribe {
    /// Publishes one more tile of the work at that place, or ends it where all are published.
    pub(crate) fn work_at(&mut self, place: u8) -> Result<(), NoMemory>
        requires tied { IsTied self.old.held self.old.desk }
        requires busy { IsSomeAnd (slice_get self.old.desk.slots place) (λ slot. is_free slot
            ≡ false) }
        ensures { OnOk result (GoesOnWriting self.old.desk self.old.out.items self.new) }
    {
        match self.held.clear(place) {
            Some(Work::Paint(painter)) => self.paint_at(place, painter),
            Some(Work::Walk(walker)) => self.compose_at(place, walker),
            None => unreachable!(),
        }
    }

    /// Publishes one more tile of a job, or ends it where all are published.
    fn paint_at(&mut self, place: u8, painter: Painter) -> Result<(), NoMemory>
        requires { IsLent self.old.held place (busy_painter painter) self.old.desk }
        ensures { OnOk result (GoesOnWriting self.old.desk self.old.out.items self.new) }
    {
        match next_tile(&painter) {
            Some(key) => self.publish(place, painter, key),
            None => {
                let serial = painter.serial;
                self.end(SlotId { place, serial })
            }
        }
    }

    /// Publishes a tile of a job.
    fn publish(&mut self, place: u8, mut painter: Painter, key: TileKey) -> Result<(), NoMemory>
        requires lent { IsLent self.old.held place (busy_painter painter) self.old.desk }
        requires lacks { LacksTile painter key }
        ensures { OnOk result (GoesOnWriting self.old.desk self.old.out.items self.new) }
    {
        publish_tile(self.alloc, &mut self.desk, place, &painter, key)?;
        painter.published.note(key)?;
        self.held.put(place, Work::Paint(painter), None);
        add_line(&mut self.out, &Line::Publish(place, key))?;
        Ok(())
    }

    /// Ends work whose tiles are all published.
    fn end(&mut self, slot: SlotId) -> Result<(), NoMemory>
        requires { MayEndLent self.old.held slot self.old.desk }
        ensures { OnOk result (GoesOnWriting self.old.desk self.old.out.items self.new) }
    {
        match self.desk.end(slot) {
            Ended::Done => {
                add_line(&mut self.out, &Line::End(slot.place))?;
                Ok(())
            }
            Ended::Nothing => unreachable!(),
        }
    }

    /// Publishes a tile of a walk of all its groups of which it isn't published, or ends the walk.
    fn compose_at(&mut self, place: u8, walker: Walker) -> Result<(), NoMemory>
        requires { IsLent self.old.held place (busy_walker walker) self.old.desk }
        ensures { OnOk result (GoesOnWriting self.old.desk self.old.out.items self.new) }
    {
        match next_pair(&walker) {
            Some((group, key)) => self.publish_groups(place, walker, group, key),
            None => {
                let serial = walker.serial;
                self.end(SlotId { place, serial })
            }
        }
    }

    /// Publishes a tile of a walk, first of the given group and then of the others of which it isn't published.
    fn publish_groups(
        &mut self,
        place: u8,
        mut walker: Walker,
        group: u16,
        key: TileKey,
    ) -> Result<(), NoMemory>
        requires lent { IsLent self.old.held place (busy_walker walker) self.old.desk }
        requires lacks { LacksPair walker group key }
        ensures { OnOk result (GoesOnWriting self.old.desk self.old.out.items self.new) }
    {
        let rect = walker.inputs.patch().rect;
        self.put_all(place, &mut walker, group, key)?;
        self.held.put(place, Work::Walk(walker), Some(rect));
        Ok(())
    }

    /// Publishes a tile of a walk that is out of its place, first of the given group and then of the others.
    fn put_all(
        &mut self,
        place: u8,
        walker: &mut Walker,
        group: u16,
        key: TileKey,
    ) -> Result<(), NoMemory>
        requires lent { IsLent self.old.held place (busy_walker walker.old) self.old.desk }
        requires lacks { LacksPair walker.old group key }
        ensures goes { OnOk result (GoesOnPutting self.old.desk self.old.out.items self.new.desk
            self.new.out.items) }
        ensures lent { OnOk result (IsLent self.new.held place (busy_walker walker.new)
            self.new.desk) }
        ensures inputs { walker.new.inputs ≡ walker.old.inputs }
    {
        let slot = SlotId {
            place,
            serial: walker.serial,
        };
        let composed = compose_key(self.alloc, &walker.inputs, key)?;
        self.put(slot, &composed, &mut walker.published, group, key)?;
        self.put_others(slot, &composed, &mut walker.published, key)?;
        Ok(())
    }

    /// Publishes a group's tile of a walk.
    fn put(
        &mut self,
        slot: SlotId,
        composed: &Composed<'_>,
        published: &mut Newest<(u16, TileKey)>,
        group: u16,
        key: TileKey,
    ) -> Result<(), NoMemory>
        requires composed { composed.now.keys ≡ key ∷ [] }
        requires lent { IsLentWalk self.old.held slot composed.now published.old self.old.desk }
        requires lacks { LacksPair (walk_of slot composed.now published.old) group key }
        ensures goes { OnOk result (GoesOnPutting self.old.desk self.old.out.items self.new.desk
            self.new.out.items) }
        ensures lent { OnOk result (IsLentWalk self.new.held slot composed.now published.new
            self.new.desk) }
    {
        match self.desk.publish_walk(slot, composed, group, key)? {
            Published::Stored => {
                published.note((group, key))?;
                add_line(&mut self.out, &Line::Put(slot.place, group, key))?;
                Ok(())
            }
            Published::Nothing => unreachable!(),
        }
    }

    /// Publishes a tile of a walk of all its groups of which it isn't published.
    fn put_others(
        &mut self,
        slot: SlotId,
        composed: &Composed<'_>,
        published: &mut Newest<(u16, TileKey)>,
        key: TileKey,
    ) -> Result<(), NoMemory>
        requires composed { composed.now.keys ≡ key ∷ [] }
        requires world { IsWorldKey key }
        requires in_patch { list_any (same_key key) (keys_of composed.now.readings.patch.rect)
            ≡ true }
        requires lent { IsLentWalk self.old.held slot composed.now published.old self.old.desk }
        ensures goes { OnOk result (SettlesPutting self.old.desk self.old.out.items self.new.desk
            self.new.out.items) }
        ensures lent { OnOk result (IsLentWalk self.new.held slot composed.now published.new
            self.new.desk) }
    {
        for group in composed.inputs().path() {
            if !has_pair(published, *group, key) {
                self.put(slot, composed, published, *group, key)?;
            }
        }
        Ok(())
    }
}

/// Paints a tile of the job in a slot, and publishes it.
fn publish_tile(
    alloc: Global,
    desk: &mut Desk,
    place: u8,
    painter: &Painter,
    key: TileKey,
) -> Result<(), NoMemory>
    requires runs { slice_get desk.old.slots place
        ≡ Some (slot_of (Some (busy_painter painter.now))) }
    requires kept { IsKept (Some (busy_painter painter.now)) }
    requires lacks { LacksTile painter.now key }
    ensures step { OnOk result (Step desk.old (PublishEvent place key) desk.new) }
    ensures world { OnOk result (IsWorldKey key) }
{
    let slot = SlotId {
        place,
        serial: painter.serial,
    };
    let painted = paint_tile(alloc, &painter.job, &painter.shot, key)?;
    let _known = painted.key();
    match desk.publish(slot, &painted)? {
        Published::Stored => Ok(()),
        Published::Nothing => unreachable!(),
    }
}
