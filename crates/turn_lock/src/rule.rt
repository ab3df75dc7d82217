//! The rule of the table, which has one word and one slot.
use crate::board::Board;
use crate::view::{Terms, View};
use atomic_table::{Join, Play, Split, TableRule};
use std::alloc::Global;
use std::marker::PhantomData;

/// The word where nobody has the turn. The slot has the value then.
pub(crate) const FREE: u64 = 0;

/// The word where somebody has the turn, and nobody waits.
pub(crate) const TAKEN: u64 = 1;

/// The word where somebody has the turn, and others may wait.
pub(crate) const AWAITED: u64 = 2;

/// The rule of the table.
pub struct Law<D> {
    board: PhantomData<D>,
}

impl<E, F, D: Board<E, F>> TableRule<Option<D>, View<E, F>, Terms<F>> for Law<D> {
    ghost use Rattle.turn_lock.specs.Turns.{Kept, first_view};

    ghost holds = { Kept D.artist D.lawful D.history D.fixed };

    ghost first = { first_view };
}

pub type Table<E, F, D> = atomic_table::Table<Option<D>, View<E, F>, Terms<F>, Law<D>, Global>;

/// A seat takes the turn, if nobody has it.
pub struct Begin<D> {
    board: PhantomData<D>,
}

impl<E, F, D: Board<E, F>> Play<Option<D>, View<E, F>> for Begin<D> {
    ghost use Rattle.turn_lock.specs.Steps.{Begins};

    ghost then = { Begins D.artist D.lawful D.history D.fixed };
}

/// A turn ends.
pub struct End<D> {
    board: PhantomData<D>,
}

impl<E, F, D: Board<E, F>> Play<Option<D>, View<E, F>> for End<D> {
    ghost use Rattle.turn_lock.specs.Steps.{Ends};

    ghost then = { Ends D.artist D.lawful D.history D.fixed };
}

/// How many numbers a seat may keep is told.
pub struct Count;

impl<S, E, F> Play<Option<S>, View<E, F>> for Count {
    ghost use Rattle.turn_lock.specs.Steps.{Counts};

    ghost then = { Counts };
}

/// A new seat has the first number of a seat that keeps the others.
pub struct Cut;

impl<E, F> Split<View<E, F>> for Cut {
    ghost use Rattle.turn_lock.specs.Turns.{left_view, right_view};

    ghost left = { left_view };

    ghost right = { right_view };
}

/// A seat takes in another.
pub struct Merge;

impl<E, F> Join<View<E, F>> for Merge {
    ghost use Rattle.turn_lock.specs.Turns.{joined_view, spent_view};

    ghost both = { joined_view };

    ghost spent = { spent_view };
}
