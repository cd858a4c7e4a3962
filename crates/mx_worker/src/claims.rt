//! A worker's claim, as the right of its turns.
ghost use Rattle.std.specs.Prelude.{◌≡◌};

use mx_link::Link;
use mx_lock::TiedClaim;
use mx_sink::Delivery;
use mx_transfer_core::Queued;
use mx_turn::{Right, Tied};
use mx_types::Ticket;
use std::marker::Model;

/// A claim of queued work. Contracts see it as the claim.
#[derive(Drop)]
pub(crate) struct WorkerClaim<L: Link, D: Delivery> {
    claim: TiedClaim<Queued<L, D>>,
}

impl<L: Link, D: Delivery> Model for WorkerClaim<L, D> {
    ghost use Rattle.mx_lock.specs.Ties.{TiedClaimed};

    ghost Value = { TiedClaimed };

    ghost view = { λ c. c.claim };
}

impl<L: Link, D: Delivery> Tied for WorkerClaim<L, D> {
    ghost of = { λ c. c.of };
}

impl<L: Link, D: Delivery> Right for WorkerClaim<L, D> {
    ghost ticket_of = { λ c. c.ticket };

    ghost slot_of = { λ c. c.slot };

    ghost origin_of = { λ c. c.origin };

    fn ticket(&self) -> Ticket
        ensures { result ≡ self.now.ticket }
    {
        self.claim.ticket()
    }
}

impl<L: Link, D: Delivery> WorkerClaim<L, D> {
    pub fn new(claim: TiedClaim<Queued<L, D>>) -> WorkerClaim<L, D>
        ensures { result ≡ claim }
    {
        WorkerClaim { claim }
    }

    pub fn claim(&self) -> &TiedClaim<Queued<L, D>>
        ensures { result.now ≡ self.now }
    {
        &self.claim
    }

    pub fn into_claim(self) -> TiedClaim<Queued<L, D>>
        ensures { result ≡ self }
    {
        self.claim
    }
}
