//! The engine that a worker calls, and what it gets from it.
ghost use Rattle.std.specs.Prelude.{◌≡◌, ◌↔◌, ℕ, List, [], None, true, ◌∷◌, ◌++◌, option_map, IsTrue, IfSome, min};
ghost use Rattle.logbook.specs.Pages.{Book};
ghost use Rattle.mx_types.specs.declared.names.Ticket.{Ticket as OneTicket};
ghost use Rattle.mx_types.specs.declared.origin.Origin.{Origin};
ghost use Rattle.mx_request.specs.Request.{request_origin};
ghost use Rattle.mx_turn.specs.Turn.{IsLate, longest_wait, time_left};
ghost use Rattle.mx_turn.specs.Engines.{HasWaited};

use mx_link::Link;
use mx_sink::Delivery;
use mx_transfer_core::{Outcome, TransferCore};
use mx_types::{Look, Ticket};
use std::marker::Model;

/// The longest wait of a turn, in milliseconds.
pub const LONGEST_WAIT: u64 = 20;

/// What belongs to one engine: the one with this list of ties.
pub trait Tied {
    /// Which list of ties it is, for contracts alone.
    ghost of: { Self → Book };
}

/// The right to a claimed transfer. It belongs to the engine that gave it.
pub trait Right: Tied + Drop {
    /// The ticket, the slot and the request of its addition, for contracts alone.
    ghost ticket_of: { Self → OneTicket };

    ghost slot_of: { Self → ℕ };

    ghost origin_of: { Self → Origin };

    /// The ticket of the addition that it claims.
    fn ticket(&self) -> Ticket
        ensures { result ≡ ticket_of self.now };
}

// rule worker-own-claim: A worker records an end only with the claim of its own transfer: both are of one request, by the invariants of
// `Claimed` and `Finished`.
/// A claimed transfer, which has not ended, and the right to it, which is of its request. Contracts see the ticket, the slot, the state of
/// the transfer, and of which list of ties the right is. The transfer is boxed, since it goes from list to list in each turn.
pub struct Claimed<L: Link, C: Right, D: Delivery> {
    right: C,
    transfer: Box<TransferCore<L, D>>,
    // Its last poll waited.
    has_waited: bool,
}

// Written out, and not derived: a crate that drops one cites its proof.
impl<L: Link, C: Right, D: Delivery> Drop for Claimed<L, C, D> {
    fn drop(self) {
        let Claimed {
            right,
            transfer,
            has_waited: _,
        } = self;
        drop(right);
        drop(transfer);
    }
}

impl<L: Link, C: Right, D: Delivery> Model for Claimed<L, C, D> {
    ghost use Rattle.std.specs.Prelude.{◌≡◌, None, true};
    ghost use Rattle.mx_request.specs.Request.{request_origin};
    ghost use Rattle.mx_turn.specs.Engines.{HeldView, HasWaited};

    ghost Value = { HeldView L };

    ghost view = { λ h. record { held = record { ticket = C.ticket_of h.right; slot = C.slot_of h.right; transfer = h.transfer.value }; of = C.of h.right } };

    ghost invariant = { λ h. (h.transfer.value.code ≡ None) × (request_origin h.transfer.value.request ≡ C.origin_of h.right) × (h.has_waited ≡ true → HasWaited h.transfer.value.now) };
}

impl<L: Link, C: Right, D: Delivery> Tied for Claimed<L, C, D> {
    ghost of = { λ h. h.of };
}

impl<L: Link, C: Right, D: Delivery> Claimed<L, C, D> {
    /// A transfer with the right to it.
    pub fn new(right: C, transfer: Box<TransferCore<L, D>>) -> Claimed<L, C, D>
        requires running { transfer.value.code ≡ None }
        requires origin { request_origin transfer.value.request ≡ C.origin_of right }
        ensures { result ≡ record { held = record { ticket = C.ticket_of right; slot = C.slot_of right; transfer = transfer.value }; of = C.of right } }
    {
        Claimed {
            right,
            transfer,
            has_waited: false,
        }
    }

    /// A transfer whose last poll waited, with the right to it.
    pub fn waiting(right: C, transfer: Box<TransferCore<L, D>>) -> Claimed<L, C, D>
        requires running { transfer.value.code ≡ None }
        requires origin { request_origin transfer.value.request ≡ C.origin_of right }
        requires waited { HasWaited transfer.value.now }
        ensures { result ≡ record { held = record { ticket = C.ticket_of right; slot = C.slot_of right; transfer = transfer.value }; of = C.of right } }
    {
        Claimed {
            right,
            transfer,
            has_waited: true,
        }
    }

    /// Whether its last poll is known to have waited.
    pub fn has_waited(&self) -> bool
        ensures { result ≡ true → HasWaited self.now.held.transfer.now }
    {
        self.has_waited
    }

    /// The right and the transfer, by move.
    pub fn into_parts(self) -> (C, Box<TransferCore<L, D>>)
        ensures parts { self ≡ record { held = record { ticket = C.ticket_of result.0; slot = C.slot_of result.0; transfer = result.1.value }; of = C.of result.0 } }
        ensures running { result.1.value.code ≡ None }
        ensures origin { request_origin result.1.value.request ≡ C.origin_of result.0 }
    {
        let Claimed {
            right,
            transfer,
            has_waited: _,
        } = self;
        (right, transfer)
    }

    /// The ticket of the addition whose transfer it holds.
    pub fn ticket(&self) -> Ticket
        ensures { result ≡ self.now.held.ticket }
    {
        self.right.ticket()
    }

    /// Whether a link was attached once.
    pub fn started(&self) -> bool
        ensures { result ≡ self.now.held.transfer.now.is_started }
    {
        self.transfer.started()
    }

    /// Its deadline.
    pub fn deadline(&self) -> Option<u64>
        ensures { result ≡ self.now.held.transfer.now.deadline }
    {
        self.transfer.deadline()
    }

    /// Whether its deadline isn't after this moment.
    pub fn is_late(&self, now: u64) -> bool
        ensures { IsTrue result ↔ IsLate now self.now.held }
    {
        match self.transfer.deadline() {
            Some(deadline) => deadline <= now,
            None => false,
        }
    }

    /// The milliseconds until its deadline, and at most the longest wait.
    pub fn time_left(&self, now: u64) -> u32
        ensures { result ≡ min longest_wait (time_left now self.now.held.transfer.now.deadline) }
    {
        let left = match self.transfer.deadline() {
            Some(deadline) => deadline.saturating_sub(now),
            None => LONGEST_WAIT,
        };
        if left < LONGEST_WAIT {
            left as u32
        } else {
            LONGEST_WAIT as u32
        }
    }

    /// It does nothing: a call gives its caller's proof the fact that the transfer has not ended.
    pub fn know(&self)
        ensures { self.now.held.transfer.code ≡ None }
    {
        // proof: the transfer has not ended
        let _transfer = &self.transfer;
    }
}

// rule worker-own-claim
/// The right to a claimed transfer, and the outcome that ends it, which are of one request. Contracts see the ticket, the outcome, and of
/// which list of ties the right is.
pub struct Finished<C: Right, D: Delivery> {
    right: C,
    outcome: Outcome<D>,
}

// Written out, and not derived: a crate that drops one cites its proof.
impl<C: Right, D: Delivery> Drop for Finished<C, D> {
    fn drop(self) {
        let Finished { right, outcome } = self;
        drop(right);
        drop(outcome);
    }
}

impl<C: Right, D: Delivery> Model for Finished<C, D> {
    ghost use Rattle.std.specs.Prelude.{◌≡◌};
    ghost use Rattle.mx_request.specs.Request.{request_origin};
    ghost use Rattle.mx_turn.specs.Engines.{EndView};

    ghost Value = { EndView };

    ghost view = { λ f. record { end = record { ticket = C.ticket_of f.right; outcome = f.outcome }; of = C.of f.right } };

    ghost invariant = { λ f. request_origin f.outcome.request ≡ C.origin_of f.right };
}

impl<C: Right, D: Delivery> Tied for Finished<C, D> {
    ghost of = { λ f. f.of };
}

impl<C: Right, D: Delivery> Finished<C, D> {
    /// An outcome with the right to the transfer that it ends.
    pub fn new(right: C, outcome: Outcome<D>) -> Finished<C, D>
        requires { request_origin outcome.request ≡ C.origin_of right }
        ensures { result ≡ record { end = record { ticket = C.ticket_of right; outcome = outcome }; of = C.of right } }
    {
        Finished { right, outcome }
    }

    /// The right and the outcome, by move.
    pub fn into_parts(self) -> (C, Outcome<D>)
        ensures parts { self ≡ record { end = record { ticket = C.ticket_of result.0; outcome = result.1 }; of = C.of result.0 } }
        ensures origin { request_origin result.1.request ≡ C.origin_of result.0 }
    {
        let Finished { right, outcome } = self;
        (right, outcome)
    }
}

/// The engine, through a seat of the worker's own. It gives rights of its own list of ties, and takes these alone. `finish` takes the end
/// out of an `Option`, where it stays if refused: the prover covers no impl of a trait whose methods take such a value by move.
pub trait Engine<L: Link, C: Right, D: Delivery>: Tied + Drop {
    /// What contracts know of the engine as it began.
    type Start;

    ghost use Rattle.mx_turn.specs.Workers.{Deed, Return, claims, looks, notes, gives_back};
    ghost use Rattle.mx_turn.specs.Engines.{HandsIn};

    // What was done at it so far, in order.
    ghost did: { Self → List (Deed L) };

    // How it began.
    ghost start: { Self → Self.Start };

    /// Asks for a transfer.
    fn claim(&mut self) -> Option<Claimed<L, C, D>>
        ensures did { did self.new ≡ did self.old ++ claims (option_map (λ h. h.held) result) ∷ [] }
        ensures own { IfSome result (λ h. h.of ≡ Self.of self.old) }
        ensures same { (Self.of self.new ≡ Self.of self.old) × (start self.new ≡ start self.old) };

    /// Looks at a ticket.
    fn look(&mut self, ticket: Ticket) -> Option<Look>
        ensures did { did self.new ≡ did self.old ++ looks ticket result ∷ [] }
        ensures same { (Self.of self.new ≡ Self.of self.old) × (start self.new ≡ start self.old) };

    /// Notes how many bytes a claimed transfer has received.
    fn note(&mut self, right: &C, count: u32)
        ensures did { did self.new ≡ did self.old ++ notes (C.ticket_of right.now) (C.slot_of right.now) count ∷ [] }
        ensures same { (Self.of self.new ≡ Self.of self.old) × (start self.new ≡ start self.old) };

    /// Hands in an end. One that is refused memory stays in its place.
    fn finish(&mut self, finished: &mut Option<Finished<C, D>>)
        requires own { IfSome finished.old (λ f. f.of ≡ Self.of self.old) }
        ensures did { IfSome finished.old (λ f. HandsIn (did self.old) (did self.new) f finished.new) }
        ensures same { (Self.of self.new ≡ Self.of self.old) × (start self.new ≡ start self.old) };

    /// Gives a transfer back.
    fn give_back(&mut self, held: &mut Option<Claimed<L, C, D>>)
        requires own { IfSome held.old (λ h. h.of ≡ Self.of self.old) }
        ensures did { IfSome held.old (λ h. (r : Return) × (did self.new ≡ did self.old ++ gives_back h.held r ∷ [])) }
        ensures same { (Self.of self.new ≡ Self.of self.old) × (start self.new ≡ start self.old) };
}
