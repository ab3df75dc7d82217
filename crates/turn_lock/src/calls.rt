//! A call, from its wait for the turn to the turn's end.
ghost use Rattle.std.specs.Prelude.{◌≡◌, ◌<◌, ◌≤◌, ◌+◌, ◌*◌, ◌∷◌, [], None};
ghost use Rattle.turn_lock.specs.Answers.{added};
ghost use Rattle.turn_lock.specs.Turns.{kept_count, keeps, made_count};
ghost use Rattle.turn_lock.specs.Steps.{SitsAt, TakesTurn, TakesOut, SeatHasTurn, ended, resting, Finds, MayGive};

use crate::board::Board;
use crate::rule::{AWAITED, FREE};
use crate::sent::Sent;
use crate::steps::{Place, Steps, begin, begin_or_queue, end, give, take};
use geom_core::NoMemory;
use std::sync::Wait;

/// Waits until nobody has the turn.
fn queue<E, F, D: Board<E, F>, R: Wait>(rt: &R, table: &Steps<E, F, D>, seat: &mut Place<E, F, D>)
    requires table { SitsAt seat.old.table_id table.now.table_id }
    requires number { 0 < kept_count seat.old.me.0 }
    ensures table { seat.new.table_id ≡ seat.old.table_id }
    ensures turn { TakesTurn D.artist D.lawful D.history D.fixed seat.old.me seat.new.me }
{
    for _ in rt.forever() {
        let found = begin_or_queue(table, seat);
        if found == FREE {
            return;
        }
        table.park(rt, 0, AWAITED as u32);
    }
    unreachable!()
}

/// Takes the turn, after a wait where somebody has it.
fn wait_turn<E, F, D: Board<E, F>, R: Wait>(
    rt: &R,
    table: &Steps<E, F, D>,
    seat: &mut Place<E, F, D>,
)
    requires table { SitsAt seat.old.table_id table.now.table_id }
    requires number { 0 < kept_count seat.old.me.0 }
    ensures table { seat.new.table_id ≡ seat.old.table_id }
    ensures turn { TakesTurn D.artist D.lawful D.history D.fixed seat.old.me seat.new.me }
{
    if begin(table, seat) != FREE {
        queue(rt, table, seat);
    }
}

/// Waits for the turn, and takes the value out.
fn take_turn<E, F, D: Board<E, F>, R: Wait>(
    rt: &R,
    table: &Steps<E, F, D>,
    seat: &mut Place<E, F, D>,
) -> D
    requires table { SitsAt seat.old.table_id table.now.table_id }
    requires number { 0 < kept_count seat.old.me.0 }
    requires slot { seat.old.me.1 ≡ [] }
    ensures table { seat.new.table_id ≡ seat.old.table_id }
    ensures view { TakesOut D.history D.fixed seat.old.me result seat.new.me }
    ensures found { Finds D.artist D.lawful D.history D.fixed seat.old.me.0 result }
{
    wait_turn(rt, table, seat);
    take(table, seat)
}

/// Puts the value back in, and ends the turn.
fn end_turn<E, F, D: Board<E, F>>(table: &Steps<E, F, D>, seat: &mut Place<E, F, D>, value: D)
    requires table { SitsAt seat.old.table_id table.now.table_id }
    requires slot { seat.old.me.1 ≡ (0, None) ∷ [] }
    requires turn { MayGive D.artist D.lawful D.history D.fixed seat.old.me.0 value }
    ensures table { seat.new.table_id ≡ seat.old.table_id }
    ensures view { seat.new.me ≡ (ended seat.old.me.0 (D.history value), []) }
{
    give(table, seat, value);
    end(table, seat);
}

/// Offers the entry to the value, at the seat's turn.
pub(crate) fn call<E, F, D: Board<E, F>, R: Wait>(
    rt: &R,
    table: &Steps<E, F, D>,
    seat: &mut Place<E, F, D>,
    entry: &E,
) -> Result<Sent, NoMemory>
    // The seat rests, and may make one more entry, of an artist whose number it keeps.
    requires table { SitsAt seat.old.table_id table.now.table_id }
    requires slot { seat.old.me.1 ≡ [] }
    requires few { made_count seat.old.me.0 + 1 ≤ kept_count seat.old.me.0 * 1048576 }
    requires own { 0 < keeps (D.artist entry.now) seat.old.me.0 }

    // It had the turn, and rests again, with what was added and the history that it left.
    ensures table { seat.new.table_id ≡ seat.old.table_id }
    ensures turn { SeatHasTurn D.artist D.lawful seat.old.me.0 entry.now result seat.new.me.0.seen }
    ensures view { seat.new.me
        ≡ (resting seat.old.me.0 (added entry.now result) seat.new.me.0.seen, []) }
{
    let mut value = take_turn(rt, table, seat);
    let answer = value.accept(entry);
    end_turn(table, seat, value);
    answer
}
