//! The claims that a player keeps.
ghost use Rattle.std.specs.Prelude.{◌≡◌, ◌+◌, ◌<◌, ◌≤◌, ◌++◌, ◌∷◌, [], true, false, length, IfOk, IfSome, IfNone};
ghost use Rattle.mx_types.specs.Origin.{no_request};
ghost use Rattle.mx_journal.specs.History.{has_ticket};
ghost use Rattle.mx_run_local.specs.Turns.{without_claim};

use crate::player::NoWork;
use mx_journal::Claim;
use mx_types::{OutOfMemory, Ticket};
use std::alloc::Global;
use std::marker::Model;

/// The claims of additions, each at the index of its ticket, where it is found at once however many there were. The place of one that was
/// taken stays empty.
#[derive(Drop)]
pub struct Claims {
    /// The ticket of the first place.
    first: usize,
    places: Vec<Option<Claim<NoWork>>>,
}

impl Model for Claims {
    ghost use Rattle.std.specs.Prelude.{◌+◌, ◌≤◌, length, vec_capacity};
    ghost use Rattle.mx_run_local.specs.Players.{Kept, tickets_at, AreAtTheirPlaces};

    ghost Value = { Kept };

    ghost view = { λ c. record { first = c.first; made = length c.places.items; tickets = tickets_at c.places.items; space = vec_capacity c.places } };

    ghost invariant = { λ c. AreAtTheirPlaces c.first c.places.items × (c.first + length c.places.items ≤ 4294967296) };
}

impl Claims {
    /// No claims, with the space for those of so many additions from that ticket on.
    pub fn new(alloc: Global, first: u32, space: u32) -> Result<Claims, OutOfMemory>
        ensures { IfOk result (λ c. c ≡ record { first = first; made = 0; tickets = []; space = space }) }
    {
        Ok(Claims {
            first: first as usize,
            places: Vec::with_capacity(alloc, space as usize)?,
        })
    }

    // rule play-claims
    /// Keeps the claim of the next addition.
    pub fn keep(&mut self, claim: Claim<NoWork>)
        requires next { claim.ticket.0 ≡ self.old.first + self.old.made }
        requires space { self.old.made < self.old.space }
        requires origin { claim.origin ≡ no_request }
        ensures few { length self.old.tickets ≤ self.old.made }
        ensures kept { self.new ≡ record self.old { made = self.old.made + 1; tickets = self.old.tickets ++ claim.ticket ∷ [] } }
    {
        // proof: a ticket is a `u32`
        let _ = claim.ticket();
        self.places.push_reserved(Some(claim));
    }

    // rule play-claims
    /// Takes the claim on a ticket. None where none is kept.
    pub fn take(&mut self, ticket: Ticket) -> Option<Claim<NoWork>>
        ensures none { IfNone result ((has_ticket ticket self.old.tickets ≡ false) × (self.new ≡ self.old)) }
        ensures some { IfSome result (λ c. (has_ticket ticket self.old.tickets ≡ true)
            × (self.new ≡ record self.old { tickets = without_claim ticket self.old.tickets })) }
        ensures its { IfSome result (λ c. (c.ticket ≡ ticket) × (c.origin ≡ no_request)) }
        ensures once { IfSome result (λ c. (length self.old.tickets ≡ length self.new.tickets + 1) × (has_ticket ticket self.new.tickets ≡ false)) }
        ensures place { IfSome result (λ c. (self.old.first ≤ ticket.0) × (ticket.0 < self.old.first + self.old.made)) }
    {
        let place = ticket.0 as usize;
        if place < self.first {
            return None;
        }
        let at = place - self.first;
        if at >= self.places.len() {
            return None;
        }
        self.places[at].take()
    }

    /// Keeps a claim again that was taken.
    pub fn keep_again(&mut self, claim: Claim<NoWork>)
        requires place { (self.old.first ≤ claim.ticket.0) × (claim.ticket.0 < self.old.first + self.old.made) }
        requires taken { has_ticket claim.ticket self.old.tickets ≡ false }
        requires origin { claim.origin ≡ no_request }
        ensures count { length self.new.tickets ≡ length self.old.tickets + 1 }
        ensures first { self.new.first ≡ self.old.first }
        ensures made { self.new.made ≡ self.old.made }
        ensures space { self.new.space ≡ self.old.space }
    {
        let at = claim.ticket().0 as usize - self.first;
        self.places[at] = Some(claim);
    }

    /// Drops all claims: the first place is then that of the next addition.
    pub fn clear(&mut self)
        ensures { self.new ≡ record { first = self.old.first + self.old.made; made = 0; tickets = []; space = self.old.space } }
    {
        self.first += self.places.len();
        self.places.clear();
    }
}
