//! A walk that was taken.

ghost use Rattle.std.specs.Prelude.{◌≡◌, Some, IfSome};
ghost use Rattle.desk_core.specs.declared.tickets.Taken.TheVariants as taken;

use crate::history::{Stamp, StampNaming};
use desk_core::{Taken, WalkTicket};
use std::marker::Model;

/// A walk beside its stamp. Contracts see its ticket.
#[derive(Drop)]
pub struct StampedWalk<J: StampNaming> {
    ticket: WalkTicket,
    pub(crate) stamp: Option<Stamp<J, Taken>>,
}

impl<J: StampNaming> Model for StampedWalk<J> {
    ghost use Rattle.std.specs.Prelude.{◌≡◌, Some, IfSome};
    ghost use Rattle.desk_events.specs.declared.tickets.WalkTicket.{WalkTicket};
    ghost use Rattle.desk_events.specs.contracts.tickets.WalkTicket.{the_row};
    ghost use Rattle.desk_core.specs.declared.tickets.Taken.TheVariants as taken;

    ghost Value = { WalkTicket };

    ghost coded = { (the_row).coded };

    ghost view = { λ w. w.ticket };

    ghost invariant = { λ w. IfSome w.stamp (λ s. s.value ≡ Some (taken.Walk w.ticket)) };
}

impl<J: StampNaming> StampedWalk<J> {
    /// The walk of a ticket that was stamped as it was taken.
    pub fn new(ticket: WalkTicket, stamp: Option<Stamp<J, Taken>>) -> StampedWalk<J>
        requires { IfSome stamp (λ s. s.value ≡ Some (taken.Walk ticket)) }
        ensures { result ≡ ticket }
    {
        StampedWalk { ticket, stamp }
    }

    /// The ticket.
    pub fn ticket(&self) -> &WalkTicket
        ensures { result.now ≡ self.now }
    {
        &self.ticket
    }
}
