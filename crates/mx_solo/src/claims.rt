//! A claim of the control core, as the right that a worker's turns go by.
ghost use Rattle.std.specs.Prelude.{◌≡◌};

use mx_journal::Claim;
use mx_link::Link;
use mx_sink::Delivery;
use mx_transfer_core::Queued;
use mx_turn::{Right, Tied};
use mx_types::Ticket;
use std::marker::Model;

/// A claim of queued work. Contracts see it as the claim.
#[derive(Drop)]
pub(crate) struct SoloClaim<L: Link, D: Delivery> {
    claim: Claim<Queued<L, D>>,
}

impl<L: Link, D: Delivery> Model for SoloClaim<L, D> {
    ghost use Rattle.mx_journal.specs.Core.{Claimed};

    ghost Value = { Claimed };

    ghost view = { λ c. c.claim };
}

impl<L: Link, D: Delivery> Tied for SoloClaim<L, D> {
    ghost use Rattle.mx_solo.specs.Seats.{no_ties};

    // There is no list of ties: a claim never leaves its multi handle.
    ghost of = { λ _. no_ties };
}

impl<L: Link, D: Delivery> Right for SoloClaim<L, D> {
    ghost ticket_of = { λ c. c.ticket };

    ghost slot_of = { λ c. c.slot };

    ghost origin_of = { λ c. c.origin };

    fn ticket(&self) -> Ticket
        ensures { result ≡ self.now.ticket }
    {
        self.claim.ticket()
    }
}

impl<L: Link, D: Delivery> SoloClaim<L, D> {
    pub fn new(claim: Claim<Queued<L, D>>) -> SoloClaim<L, D>
        ensures { result ≡ claim }
    {
        SoloClaim { claim }
    }

    pub fn into_claim(self) -> Claim<Queued<L, D>>
        ensures { result ≡ self }
    {
        self.claim
    }
}
