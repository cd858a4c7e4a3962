//! The seats of this crate's multi handle, each with its handle.
ghost use Rattle.std.specs.Prelude.{◌≡◌};

use crate::hand::Hand;
use crate::sample::{End, Job};
use mx_journal::FinishReply;
use mx_multi::{Application, AtWork, Seated};
use mx_types::{Call, Look, OutOfMemory, Reply, Ticket};
use std::alloc::Global;
use std::sync::Wait;

/// An application thread's seat.
pub type Client<'a> = Seated<'a, Application, Job, End>;

/// Makes a call, an addition with this crate's work; None where it was answered `WrongSeat` or None, or where it is a worker's.
pub fn make<R: Wait>(rt: &R, client: &mut Client, call: Call) -> Option<Reply>
    ensures { client.new.of ≡ client.old.of }
{
    match call {
        Call::Add(handle) => match client.add(rt, handle, Job) {
            Ok(reply) => Some(reply.reply()),
            Err(_) => None,
        },
        Call::Handles | Call::Running | Call::State(_) => {
            let Some(reply) = client.read(call) else {
                return None;
            };
            Some(reply)
        }
        _ => {
            let Some(reply) = client.make(rt, call) else {
                return None;
            };
            Some(reply)
        }
    }
}

/// A worker's seat, and what it has claimed.
#[derive(Drop)]
pub struct Worker<'a> {
    pub seat: Seated<'a, AtWork, Job, End>,
    pub hand: Hand,
    pub ghost claims: { hand ≡ seat.of.engine.ties },
}

impl<'a> Worker<'a> {
    /// A worker at the seat, with no claim yet.
    pub fn new(alloc: Global, seat: Seated<'a, AtWork, Job, End>) -> Worker<'a>
        ensures { result.seat ≡ seat.entry }
    {
        let hand = Hand::new(alloc, seat.multi().first_ties());
        Worker { seat, hand }
    }

    /// Takes the next work, and keeps the claim alone: its ticket.
    pub fn claim<R: Wait>(&mut self, rt: &R) -> Result<Option<Ticket>, OutOfMemory>
        ensures { self.new.seat.of ≡ self.old.seat.of }
    {
        let Some((claim, _work)) = self.seat.claim(rt) else {
            return Ok(None);
        };
        let ticket = claim.ticket();
        self.hand.keep(claim)?;
        Ok(Some(ticket))
    }

    /// What it sees of a ticket.
    pub fn look(&mut self, ticket: Ticket) -> Option<Look>
        ensures { self.new.seat.of ≡ self.old.seat.of }
    {
        let Some(look) = self.seat.look(ticket) else {
            return None;
        };
        Some(look)
    }

    /// Ends the transfer of the last claim; None where it was answered `WrongSeat`, or where there is no claim. A claim that comes back as
    /// memory was refused is kept again, where there is memory for that.
    pub fn finish<R: Wait>(&mut self, rt: &R, end: End) -> Option<Reply>
        ensures { self.new.seat.of ≡ self.old.seat.of }
    {
        let claim = self.hand.take()?;
        match self.seat.finish(rt, claim, end) {
            Ok(FinishReply::OutOfMemory(claim, _)) => {
                let _kept = self.hand.keep(claim);
                Some(Reply::OutOfMemory)
            }
            Ok(FinishReply::Recorded) => Some(Reply::Recorded),
            Ok(FinishReply::Stale(_)) => Some(Reply::Stale),
            Err(_) => None,
        }
    }

    /// Gives the work of all claims back. A claim that was answered `WrongSeat` is dropped.
    pub fn give_all_back<R: Wait>(&mut self, rt: &R)
        ensures { self.new.seat.of ≡ self.old.seat.of }
    {
        for _ in 0..self.hand.claims().len() {
            let Some(claim) = self.hand.take() else {
                return;
            };
            drop(self.seat.give_back(rt, claim, Job));
        }
    }
}
