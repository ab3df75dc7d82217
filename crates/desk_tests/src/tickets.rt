//! Work that is done outside of a desk.

ghost use Rattle.std.specs.Prelude.{◌≡◌, true};
ghost use Rattle.std.specs.List.{list_any, list_all};
ghost use Rattle.geom_core.specs.Areas.{lies_in};
ghost use Rattle.geom_core.specs.Grid.{same_key, all_keys_of};
ghost use Rattle.doc_model.specs.Jobs.{checks, reads, writes};
ghost use Rattle.doc_model.specs.Lawful.{within_limits};

use desk_core::{Desk, Ended, PaintTicket, Published, SlotId, Taken, WalkTicket};
use doc_model::Job;
use geom_core::{NoMemory, Rect, TileKey};
use job_core::paint_tile;
use memento_core::Steps;
use pixel_core::Pixel;
use slot_work::is_tile_of;
use std::alloc::Global;
use std::sync::ledger::Ledger;
use tile_core::Shot;
use walker_core::{Inputs, compose_key};
use whole_tiles::whole_tile_like;

/// A ticket that is held.
#[derive(Drop)]
pub(crate) enum Held {
    Paint(PaintTicket),
    Walk(WalkTicket),
}

/// What a take gives.
#[derive(Clone, Copy, PartialEq, Eq)]
pub(crate) enum Took {
    Did,
    Idle,
    Settled,
    Paint,
    Walk,
}

/// Takes. What comes of it, with the ticket where there is one.
pub(crate) fn take_ticket<L: Ledger>(
    desk: &mut Desk,
    steps: &mut Steps<L>,
) -> Result<(Took, Option<Held>), NoMemory> {
    Ok(told(desk.take(steps)?))
}

/// What was taken, and its ticket.
fn told(taken: Taken) -> (Took, Option<Held>) {
    match taken {
        Taken::Did => (Took::Did, None),
        Taken::Idle => (Took::Idle, None),
        Taken::Settled => (Took::Settled, None),
        Taken::Paint(ticket) => (Took::Paint, Some(Held::Paint(ticket))),
        Taken::Walk(ticket) => (Took::Walk, Some(Held::Walk(ticket))),
    }
}

impl Held {
    /// The slot of the work.
    pub(crate) fn slot(&self) -> SlotId {
        match self {
            Held::Paint(ticket) => ticket.slot,
            Held::Walk(ticket) => ticket.slot,
        }
    }

    /// Paints a tile of the work, or composes it for a group, and publishes it for the work in a slot. `Nothing`
    /// also where it isn't a tile of the work.
    pub(crate) fn publish(
        &self,
        alloc: Global,
        desk: &mut Desk,
        slot: SlotId,
        group: u16,
        key: TileKey,
    ) -> Result<Published, NoMemory> {
        match self {
            Held::Paint(ticket) => paint(alloc, desk, slot, &ticket.work, &ticket.shot, key),
            Held::Walk(ticket) => compose(alloc, desk, slot, &ticket.inputs, group, key),
        }
    }

    /// Whether nothing is taken of a tile for the work in a slot: what a job paints there, or what a walk
    /// composes, alone and as a row of all groups. False where a job doesn't paint there.
    pub(crate) fn tile_refused(
        &self,
        alloc: Global,
        desk: &mut Desk,
        slot: SlotId,
        key: TileKey,
    ) -> Result<bool, NoMemory> {
        match self {
            Held::Paint(ticket) => {
                if !can_paint(&ticket.work, &ticket.shot, key) {
                    return Ok(false);
                }
                let painted = paint_tile(alloc, &ticket.work, &ticket.shot, key)?;
                Ok(desk.publish(slot, &painted)? == Published::Nothing)
            }
            Held::Walk(ticket) => {
                let alone = compose(alloc, desk, slot, &ticket.inputs, 0, key)?;
                let row = compose_row(alloc, desk, slot, &ticket.inputs, key)?;
                Ok(alone == Published::Nothing && row == Published::Nothing)
            }
        }
    }

    /// Paints or composes the whole work, of a job its first tile, publishes it for the work in a slot, and ends
    /// that. `Nothing` where a tile isn't taken.
    pub(crate) fn commit(
        &self,
        alloc: Global,
        desk: &mut Desk,
        slot: SlotId,
    ) -> Result<Published, NoMemory> {
        match self {
            Held::Paint(ticket) => paint_first(alloc, desk, slot, &ticket.work, &ticket.shot),
            Held::Walk(ticket) => compose_whole(alloc, desk, slot, &ticket.inputs),
        }
    }

    /// Paints a tile of a job from green pixels, and publishes it. `Nothing` also of a walk.
    pub(crate) fn publish_on_green(
        &self,
        alloc: Global,
        desk: &mut Desk,
        key: TileKey,
    ) -> Result<Published, NoMemory> {
        match self {
            Held::Paint(ticket) => paint_on_green(alloc, desk, ticket.slot, &ticket.work, key),
            Held::Walk(_) => Ok(Published::Nothing),
        }
    }
}

/// Paints a tile of a job on green, and publishes it.
fn paint_on_green(
    alloc: Global,
    desk: &mut Desk,
    slot: SlotId,
    job: &Job,
    key: TileKey,
) -> Result<Published, NoMemory> {
    if job.check().is_err() {
        return Ok(Published::Nothing);
    }
    let reads = job.reads();
    let shot = Shot::new(alloc, reads.as_slice(), Pixel::new(0, 255, 0, 255))?;
    paint(alloc, desk, slot, job, &shot, key)
}

/// Paints a tile of a job from a shot, and publishes it.
fn paint(
    alloc: Global,
    desk: &mut Desk,
    slot: SlotId,
    job: &Job,
    shot: &Shot,
    key: TileKey,
) -> Result<Published, NoMemory> {
    if !can_paint(job, shot, key) {
        return Ok(Published::Nothing);
    }
    let painted = paint_tile(alloc, job, shot, key)?;
    desk.publish(slot, &painted)
}

/// Paints the first tile of a job, and publishes it as all that the job writes.
fn paint_first(
    alloc: Global,
    desk: &mut Desk,
    slot: SlotId,
    job: &Job,
    shot: &Shot,
) -> Result<Published, NoMemory> {
    match first_tile(job) {
        Some(key) if can_paint(job, shot, key) => {
            let mut tiles = Vec::new(alloc);
            tiles.push(whole_tile_like(alloc, job, shot, key, &mut None)?)?;
            desk.commit(slot, &tiles)
        }
        _ => Ok(Published::Nothing),
    }
}

/// The first tile that a job writes.
fn first_tile(job: &Job) -> Option<TileKey> {
    if job.check().is_err() {
        return None;
    }
    let writes = job.writes();
    let rect = writes.as_slice().first()?;
    if rect.tile_count() == 0 {
        return None;
    }
    Some(rect.tile_at(0))
}

/// Composes a tile of a walk, and publishes it of a group.
fn compose(
    alloc: Global,
    desk: &mut Desk,
    slot: SlotId,
    inputs: &Inputs,
    group: u16,
    key: TileKey,
) -> Result<Published, NoMemory> {
    if !is_tile_of(&inputs.patch().rect, key) {
        return Ok(Published::Nothing);
    }
    let composed = compose_key(alloc, inputs, key)?;
    desk.publish_walk(slot, &composed, group, key)
}

/// Composes a tile of a walk, and publishes it of all its groups.
fn compose_row(
    alloc: Global,
    desk: &mut Desk,
    slot: SlotId,
    inputs: &Inputs,
    key: TileKey,
) -> Result<Published, NoMemory> {
    if !is_tile_of(&inputs.patch().rect, key) {
        return Ok(Published::Nothing);
    }
    let composed = compose_key(alloc, inputs, key)?;
    desk.publish_row(slot, &composed, key)
}

/// Composes the tiles of a walk, publishes each of all its groups, and ends the walk.
fn compose_whole(
    alloc: Global,
    desk: &mut Desk,
    slot: SlotId,
    inputs: &Inputs,
) -> Result<Published, NoMemory> {
    let rect = inputs.patch().rect;
    for i in 0..rect.tile_count() {
        if compose_row(alloc, desk, slot, inputs, rect.tile_at(i))? == Published::Nothing {
            return Ok(Published::Nothing);
        }
    }
    match desk.end(slot) {
        Ended::Done => Ok(Published::Stored),
        Ended::Nothing => Ok(Published::Nothing),
    }
}

/// Whether the tile is one of theirs.
#[tactic(auto, using(crate::proofs::Following::key_at))]
fn is_tile_of_some(rects: &[Rect], key: TileKey) -> bool
    ensures { result ≡ true → list_any (same_key key) (all_keys_of rects.now) ≡ true }
{
    for rect in rects {
        if is_tile_of(rect, key) {
            return true;
        }
    }
    false
}

/// Whether the shot shows all that the rectangles have.
fn shows_all(rects: &[Rect], shot: &Shot) -> bool
    ensures { result ≡ list_all (λ a. list_any (lies_in a) shot.now.rects) rects.now }
{
    rects.iter().all(|rect| shot.covers(rect))
}

/// Whether a tile of the job can be painted from the shot.
fn can_paint(job: &Job, shot: &Shot, key: TileKey) -> bool
    ensures checked { result ≡ true → checks job.now ≡ true }
    ensures limits { result ≡ true → within_limits job.now ≡ true }
    ensures seen { result ≡ true → list_all (λ a. list_any (lies_in a) shot.now.rects)
        (reads job.now) ≡ true }
    ensures met { result ≡ true → list_any (same_key key) (all_keys_of (writes job.now)) ≡ true }
{
    if job.check().is_err() || !job.is_within_limits() {
        return false;
    }
    let reads = job.reads();
    let writes = job.writes();
    shows_all(reads.as_slice(), shot) && is_tile_of_some(writes.as_slice(), key)
}
