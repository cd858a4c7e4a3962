//! What a worker holds for the work that it was given.
ghost use Rattle.std.specs.Prelude.{◌≡◌};

use mx_types::{HandleId, Ticket, Work};
use std::marker::Model;
use std::snapshot::Snapshot;

/// The right to finish one addition's work, or to put it back into the queue. One that is dropped stays out for good: its control state
/// can't retire old history any more.
#[derive(Drop)]
pub struct Claim<Q: Work> {
    handle: HandleId,
    ticket: Ticket,
    slot: u8,
    work: Snapshot<Q>,
}

impl<Q: Work> Model for Claim<Q> {
    ghost use Rattle.mx_journal.specs.Core.{Claimed};

    ghost Value = { Claimed };

    ghost view = { λ c. record { handle = c.handle; ticket = c.ticket; slot = c.slot; origin = Q.origin c.work.value } };
}

impl<Q: Work> Claim<Q> {
    pub(crate) fn of(handle: HandleId, ticket: Ticket, slot: u8, work: &Q) -> Claim<Q>
        ensures { result ≡ record { handle = handle; ticket = ticket; slot = slot; origin = Q.origin work.now } }
    {
        Claim {
            handle,
            ticket,
            slot,
            work: Snapshot::of(work),
        }
    }

    /// The handle that was added.
    pub fn handle(&self) -> HandleId
        ensures { result ≡ self.now.handle }
    {
        self.handle
    }

    /// The ticket of the addition.
    pub fn ticket(&self) -> Ticket
        ensures { result ≡ self.now.ticket }
    {
        self.ticket
    }

    /// The slot of the handle in the table.
    pub fn slot(&self) -> u8
        ensures { result ≡ self.now.slot }
    {
        self.slot
    }
}
