//! Calls of desks, and what they answer.

ghost use Rattle.std.specs.Prelude.{◌≡◌, ◌<◌};

use crate::fixtures::{desk_for, feed, script_of, settle};
use crate::tickets::{Held, Took, take_ticket};
use desk_core::{Desk, Ended, Fresh, Published, SlotId};
use frame_core::Frame;
use geom_core::{NoMemory, Rect, TileKey};
use memento_core::Steps;
use pixel_core::Pixel;
use script_text::Script;
use std::alloc::Global;
use std::marker::Brand;
use std::sync::ledger::{Blank, Ledger};

/// The tile whose corner is (0, 0).
const ORIGIN: TileKey = TileKey { row: 0, col: 0 };

/// The tile to its right.
const BESIDE: TileKey = TileKey { row: 0, col: 1 };

/// A call, and what it answers. A ticket has the number of its take, from 0 on, among those that gave
/// tickets.
#[derive(Clone, Copy)]
pub(crate) enum Call {
    /// Feeds the next commands, so many.
    Feed(usize),
    /// Takes, and keeps the ticket.
    Take(Took),
    /// Publishes the tile at the corner, painted by the first ticket, or composed for the root, for the
    /// work of the second.
    Publish(usize, usize, Published),
    /// The same of a walk's ticket for some group.
    Group(usize, u16, Published),
    /// Composes the whole walk of the first ticket, or paints the first tile of its job, and commits that as the whole
    /// work of the second.
    Whole(usize, usize, Published),
    /// Publishes the tile at the corner of a job's ticket, painted on green.
    OnGreen(usize, Published),
    /// Publishes and commits by a ticket, and ends, for that slot: each answers `Nothing`, and the desk
    /// tells what it told.
    Stray(usize, SlotId),
    /// The same for the slot of the work of the second ticket.
    Late(usize, usize),
    /// The same of the tile beside the corner, without the calls that name no tile.
    Beside(usize, usize),
    /// Ends the work of a ticket.
    End(usize, Ended),
    /// Feeds what is left, and settles.
    Settle,
    /// Looks at a point of the first row.
    Look(u16, [u8; 4], Fresh),
    /// The colours of a point in the first row of a frame.
    Frame(usize, u16, [u8; 3]),
}

/// A new desk with a script and so many slots, and calls of it.
pub(crate) struct Play {
    pub script: &'static [u8],
    pub slots: u8,
    pub calls: &'static [Call],
}

/// Makes the calls of plays, each on a desk of its own. The tickets are kept from play to play. The number
/// of a call, in its play from 0 on, which answers otherwise.
pub(crate) fn first_odd(alloc: Global, plays: &[Play]) -> Result<Option<usize>, NoMemory> {
    let mut held = Vec::new(alloc);
    for play in plays {
        let odd = odd_call(alloc, play, &mut held)?;
        if odd.is_some() {
            return Ok(odd);
        }
    }
    Ok(None)
}

/// The number of the first call of a play that answers otherwise.
fn odd_call(alloc: Global, play: &Play, held: &mut Vec<Held>) -> Result<Option<usize>, NoMemory> {
    let Some(script) = script_of(alloc, play.script)? else {
        return Ok(Some(0));
    };
    let mut desk = desk_for(alloc, &script, play.slots.clamp(1, 17))?;
    first_of::<Brand>(alloc, &mut desk, &script, held, play.calls, Blank::new(1))
}

/// The same of a desk and its script.
fn first_of<L: Ledger>(
    alloc: Global,
    desk: &mut Desk,
    script: &Script,
    held: &mut Vec<Held>,
    calls: &[Call],
    blank: Blank,
) -> Result<Option<usize>, NoMemory>
    requires name { blank.name ≡ L.name }
    requires parts { blank.parts ≡ L.parts }
    requires some { 0 < blank.parts }
{
    let mut steps = Steps::<L>::new(blank);
    for i in 0..calls.len() {
        if !is_answered(alloc, desk, script, &mut steps, held, calls[i])? {
            return Ok(Some(i));
        }
    }
    Ok(None)
}

/// Whether a call answers as told.
fn is_answered<L: Ledger>(
    alloc: Global,
    desk: &mut Desk,
    script: &Script,
    steps: &mut Steps<L>,
    held: &mut Vec<Held>,
    call: Call,
) -> Result<bool, NoMemory> {
    match call {
        Call::Feed(count) => {
            feed(desk, script, count)?;
            Ok(true)
        }
        Call::Settle => settle(alloc, desk, script, steps),
        Call::Take(took) => Ok(take(desk, steps, held)? == took),
        Call::Publish(by, of, answer) => publishes(alloc, desk, held, by, of, 0, answer),
        Call::Group(by, group, answer) => publishes(alloc, desk, held, by, by, group, answer),
        Call::Whole(by, of, answer) => commits(alloc, desk, held, by, of, answer),
        Call::OnGreen(by, answer) => publishes_green(alloc, desk, held, by, answer),
        Call::Stray(by, slot) => is_stray(alloc, desk, held, by, slot),
        Call::Late(by, of) => is_late(alloc, desk, held, by, of),
        Call::Beside(by, of) => is_beside(alloc, desk, held, by, of),
        Call::End(of, answer) => Ok(ends(desk, held, of, answer)),
        Call::Look(x, bytes, fresh) => Ok(looks(desk, x, bytes, fresh)),
        Call::Frame(frame, x, colours) => Ok(
            frame < desk.frame_count() && is_at(Some(desk.frame(frame)), x, 0, colours),
        ),
    }
}

/// Takes, and keeps the ticket.
fn take<L: Ledger>(
    desk: &mut Desk,
    steps: &mut Steps<L>,
    held: &mut Vec<Held>,
) -> Result<Took, NoMemory> {
    let (took, ticket) = take_ticket(desk, steps)?;
    if let Some(ticket) = ticket {
        held.push(ticket)?;
    }
    Ok(took)
}

/// Whether a publish by one ticket, for the work of another, has that answer. After `Nothing` the desk tells
/// what it told.
fn publishes(
    alloc: Global,
    desk: &mut Desk,
    held: &[Held],
    by: usize,
    of: usize,
    group: u16,
    answer: Published,
) -> Result<bool, NoMemory> {
    if by >= held.len() || of >= held.len() {
        return Ok(false);
    }
    let slot = held[of].slot();
    let before = told(desk);
    let answered = held[by].publish(alloc, desk, slot, group, ORIGIN)?;
    Ok(answered == answer && (answered != Published::Nothing || told(desk) == before))
}

/// Whether the work of one ticket, committed for that of another, has that answer.
fn commits(
    alloc: Global,
    desk: &mut Desk,
    held: &[Held],
    by: usize,
    of: usize,
    answer: Published,
) -> Result<bool, NoMemory> {
    if by >= held.len() || of >= held.len() {
        return Ok(false);
    }
    Ok(held[by].commit(alloc, desk, held[of].slot())? == answer)
}

/// The same of what a job's ticket paints on green.
fn publishes_green(
    alloc: Global,
    desk: &mut Desk,
    held: &[Held],
    by: usize,
    answer: Published,
) -> Result<bool, NoMemory> {
    if by >= held.len() {
        return Ok(false);
    }
    Ok(held[by].publish_on_green(alloc, desk, ORIGIN)? == answer)
}

/// Whether a slot takes nothing of a ticket's work, and ends nothing, and the desk tells what it told.
fn is_stray(
    alloc: Global,
    desk: &mut Desk,
    held: &[Held],
    by: usize,
    slot: SlotId,
) -> Result<bool, NoMemory> {
    if by >= held.len() {
        return Ok(false);
    }
    let before = told(desk);
    let tile = held[by].tile_refused(alloc, desk, slot, ORIGIN)?;
    let whole = held[by].commit(alloc, desk, slot)?;
    let ended = desk.end(slot);
    Ok(tile && whole == Published::Nothing && ended == Ended::Nothing && told(desk) == before)
}

/// The same of the slot of another ticket's work.
fn is_late(
    alloc: Global,
    desk: &mut Desk,
    held: &[Held],
    by: usize,
    of: usize,
) -> Result<bool, NoMemory> {
    if of >= held.len() {
        return Ok(false);
    }
    is_stray(alloc, desk, held, by, held[of].slot())
}

/// Whether the work of a ticket takes nothing of the tile beside the corner, as another has it, and the
/// desk tells what it told.
fn is_beside(
    alloc: Global,
    desk: &mut Desk,
    held: &[Held],
    by: usize,
    of: usize,
) -> Result<bool, NoMemory> {
    if by >= held.len() || of >= held.len() {
        return Ok(false);
    }
    let before = told(desk);
    let refused = held[by].tile_refused(alloc, desk, held[of].slot(), BESIDE)?;
    Ok(refused && told(desk) == before)
}

/// What a desk tells of itself: how many commands it was fed, how many entries have an outcome and how many
/// of them made a frame, whether commands are of use and whether the head may go, and what it shows at the
/// corner.
fn told(desk: &Desk) -> (usize, usize, usize, bool, bool, Option<(Pixel, Fresh)>) {
    (
        desk.fed_count(),
        desk.outcome_count(),
        desk.frame_count(),
        desk.wants_commands(),
        desk.head_may_go(),
        look(desk, 0, 0),
    )
}

/// Whether the end of a ticket's work has that answer.
fn ends(desk: &mut Desk, held: &[Held], of: usize, answer: Ended) -> bool {
    of < held.len() && desk.end(held[of].slot()) == answer
}

/// Whether a point of the first row has these bytes, and is as fresh.
fn looks(desk: &Desk, x: u16, bytes: [u8; 4], fresh: Fresh) -> bool {
    match look(desk, x, 0) {
        Some((pixel, seen)) => {
            let is_dirty = fresh == Fresh::Dirty;
            pixel.bytes() == bytes && seen == fresh && is_dirty_at(desk, x) == is_dirty
        }
        None => false,
    }
}

/// Whether a rectangle of one point of the first row will be composed anew.
fn is_dirty_at(desk: &Desk, x: u16) -> bool {
    match Rect::new(i32::from(x), 0, 1, 1) {
        Ok(point) => desk.dirty_in(&point).is_some(),
        Err(_) => false,
    }
}

/// What a desk shows at a point. None beyond its canvas.
pub(crate) fn look(desk: &Desk, x: u16, y: u16) -> Option<(Pixel, Fresh)> {
    let canvas = desk.canvas();
    if x >= canvas.w || y >= canvas.h {
        return None;
    }
    Some(desk.look(x, y))
}

/// Whether there is the frame, with these colours at a point.
pub(crate) fn is_at(frame: Option<&Frame>, x: u16, y: u16, colours: [u8; 3]) -> bool {
    match frame {
        Some(frame) => x < frame.width() && y < frame.height() && frame.at(x, y) == colours,
        None => false,
    }
}
