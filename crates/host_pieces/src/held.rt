//! A walk's ticket, which several pieces may have.

ghost use Rattle.std.specs.Prelude.{◌≡◌, IfOk};

use desk_core::WalkTicket;
use geom_core::NoMemory;
use std::alloc::Global;
use std::marker::Model;
use std::sync::Arc;

/// A walk's ticket. Contracts see the ticket.
#[derive(Drop)]
pub(crate) struct Held {
    by: Holding,
}

/// Who may have it.
#[derive(Drop)]
pub(crate) enum Holding {
    /// One piece: there was no memory for more.
    One(WalkTicket),
    /// Pieces that have parts of the walk.
    Parts(Arc<WalkTicket>),
}

impl Model for Held {
    ghost use Rattle.desk_events.specs.contracts.tickets.WalkTicket as ticket;
    ghost use Rattle.desk_events.specs.declared.tickets.WalkTicket.{WalkTicket};
    ghost use Rattle.host_pieces.specs.Holdings.{ticket_in};

    ghost Value = { WalkTicket };

    ghost coded = { (ticket.the_row).coded };

    ghost view = { λ h. ticket_in h.by };
}

impl Held {
    /// A ticket for as many pieces as there will be, or for one where there is no memory for that.
    pub(crate) fn new(alloc: Global, ticket: WalkTicket) -> Held
        ensures { result ≡ ticket }
    {
        let by = match Arc::new(alloc, ticket) {
            Ok(ticket) => Holding::Parts(ticket),
            Err(failed) => Holding::One(failed.value),
        };
        Held { by }
    }

    /// The ticket.
    pub(crate) fn ticket(&self) -> &WalkTicket
        ensures { result.now ≡ self.now }
    {
        match &self.by {
            Holding::One(ticket) => ticket,
            Holding::Parts(ticket) => ticket,
        }
    }

    /// Whether it is for one piece alone.
    pub(crate) fn is_for_one(&self) -> bool {
        match &self.by {
            Holding::One(_) => true,
            Holding::Parts(_) => false,
        }
    }

    /// The same ticket for another piece.
    ///
    /// # Errors
    /// `NoMemory`, also where it is for one piece alone.
    pub(crate) fn share(&self) -> Result<Held, NoMemory>
        ensures { IfOk result (λ h. h ≡ self.now) }
    {
        let Holding::Parts(ticket) = &self.by else {
            return Err(NoMemory);
        };
        let ticket = Arc::try_clone(ticket)?;
        Ok(Held {
            by: Holding::Parts(ticket),
        })
    }
}
