//! The steps of a call at the table.
ghost use Rattle.std.specs.Prelude.{◌≡◌, ◌<◌, ◌≤◌, ◌+◌, ℕ, ◌∷◌, [], Some, None, length};
ghost use Rattle.turn_lock.specs.Turns.{kept_count, start_view, joined_view};
ghost use Rattle.turn_lock.specs.Steps.{SitsAt, BothSitAt, TakesFree, MayEnd, EndsTurn, CutsFirst};

use crate::board::Board;
use crate::rule::{AWAITED, Begin, Count, Cut, End, FREE, Law, Merge, TAKEN};
use crate::view::{Terms, View};
use atomic_table::{Seat, Shared};

pub(crate) type Steps<E, F, D> = Shared<Option<D>, View<E, F>, Terms<F>, Law<D>>;

pub(crate) type Place<E, F, D> = Seat<Option<D>, View<E, F>>;

/// Takes the turn where nobody has it, which a 0 tells.
pub(crate) fn begin<E, F, D: Board<E, F>>(table: &Steps<E, F, D>, seat: &mut Place<E, F, D>) -> u64
    requires table { SitsAt seat.old.table_id table.now.table_id }
    requires number { 0 < kept_count seat.old.me.0 }
    ensures table { seat.new.table_id ≡ seat.old.table_id }
    ensures turn { TakesFree D.artist D.lawful D.history D.fixed seat.old.me result seat.new.me }
{
    table.compare_exchange::<Begin<D>>(seat, 0, FREE, TAKEN)
}

/// Takes the turn where nobody has it, which a 0 tells. Where somebody has it, the word tells from now
/// on that others may wait.
pub(crate) fn begin_or_queue<E, F, D: Board<E, F>>(
    table: &Steps<E, F, D>,
    seat: &mut Place<E, F, D>,
) -> u64
    requires table { SitsAt seat.old.table_id table.now.table_id }
    requires number { 0 < kept_count seat.old.me.0 }
    ensures table { seat.new.table_id ≡ seat.old.table_id }
    ensures turn { TakesFree D.artist D.lawful D.history D.fixed seat.old.me result seat.new.me }
{
    table.swap::<Begin<D>>(seat, 0, AWAITED)
}

/// Takes the value out of the slot.
pub(crate) fn take<E, F, D: Board<E, F>>(table: &Steps<E, F, D>, seat: &mut Place<E, F, D>) -> D
    requires table { seat.old.table_id ≡ table.now.table_id }
    requires slot { (x : D) × (seat.old.me.1 ≡ (0, Some x) ∷ []) }
    ensures table { seat.new.table_id ≡ seat.old.table_id }
    ensures value { seat.old.me.1 ≡ (0, Some result) ∷ [] }
    ensures view { seat.new.me ≡ (seat.old.me.0, (0, None) ∷ []) }
{
    let Some(value) = table.exchange(seat, 0, None) else {
        unreachable!()
    };
    value
}

/// Puts a value back into the slot.
pub(crate) fn give<E, F, D: Board<E, F>>(
    table: &Steps<E, F, D>,
    seat: &mut Place<E, F, D>,
    value: D,
)
    requires table { seat.old.table_id ≡ table.now.table_id }
    requires slot { seat.old.me.1 ≡ (0, None) ∷ [] }
    ensures table { seat.new.table_id ≡ seat.old.table_id }
    ensures view { seat.new.me ≡ (seat.old.me.0, (0, Some value) ∷ []) }
{
    let before = table.exchange(seat, 0, Some(value));
    let None = before else { unreachable!() };
}

/// Ends the turn, and wakes one of those who may wait.
pub(crate) fn end<E, F, D: Board<E, F>>(table: &Steps<E, F, D>, seat: &mut Place<E, F, D>)
    requires table { SitsAt seat.old.table_id table.now.table_id }
    requires turn { MayEnd D.artist D.lawful D.history D.fixed seat.old.me }
    ensures table { seat.new.table_id ≡ seat.old.table_id }
    ensures view { EndsTurn D.history seat.old.me seat.new.me }
{
    if table.swap::<End<D>>(seat, 0, FREE) == AWAITED {
        table.wake_one(0);
    }
}

/// Tells that a seat keeps no more numbers than there may be artists.
pub(crate) fn count<E, F, D: Board<E, F>>(table: &Steps<E, F, D>, seat: &mut Place<E, F, D>)
    requires table { SitsAt seat.old.table_id table.now.table_id }
    ensures table { seat.new.table_id ≡ seat.old.table_id }
    ensures same { seat.new.me ≡ seat.old.me }
    ensures few { length seat.new.me.0.kept ≤ 16 }
{
    table.load::<Count>(seat, 0);
}

/// Gives a seat's first number to a new seat, at the start.
pub(crate) fn cut<E, F, D: Board<E, F>>(
    table: &Steps<E, F, D>,
    seat: &mut Place<E, F, D>,
) -> Place<E, F, D>
    requires table { SitsAt seat.old.table_id table.now.table_id }
    requires start { (n : ℕ) × (more : ℕ) × (seat.old.me ≡ (start_view n (more + 1), [])) }
    ensures table { (seat.new.table_id ≡ seat.old.table_id)
        × (result.table_id ≡ seat.old.table_id) }
    ensures views { CutsFirst seat.old.me result.me seat.new.me }
{
    table.split_seat::<Cut>(seat)
}

/// Makes two seats that rest one.
pub(crate) fn merge<E, F, D: Board<E, F>>(
    table: &Steps<E, F, D>,
    seat: &mut Place<E, F, D>,
    other: Place<E, F, D>,
)
    requires table { BothSitAt seat.old.table_id other.table_id table.now.table_id }
    requires rests { (seat.old.me.0.turn ≡ None) × (other.me.0.turn ≡ None) × (other.me.1 ≡ []) }
    ensures table { seat.new.table_id ≡ seat.old.table_id }
    ensures view { seat.new.me ≡ (joined_view seat.old.me.0 other.me.0, seat.old.me.1) }
{
    table.join_seat::<Merge>(seat, other);
}
