//! What a seat knows, and what the table was told.
use std::collections::LinkedList;

/// What a seat knows. No value of it is made.
pub struct View<E, F> {
    /// The artists' numbers that the seat keeps, its own first.
    pub kept: LinkedList<u64>,
    /// The entries that it made, and those of the seats that it took in.
    pub made: LinkedList<E>,
    /// The history that it has seen.
    pub seen: LinkedList<E>,
    /// Where it has the turn: the history that it found, and what stays of the value.
    pub turn: Option<(LinkedList<E>, F)>,
}

/// What the table is told once: how many artists there are, and what stays of the value.
#[derive(Drop)]
pub struct Terms<F> {
    pub artists: u64,
    pub fixed: F,
}
