//! What a worker did, and what was counted of it.
ghost use Rattle.std.specs.Prelude.{◌≡◌, ◌∷◌, ◌++◌, []};
ghost use Rattle.mx_turn.specs.Workers.{finishes, gives_back};
ghost use Rattle.mx_worker.specs.Work.{AreCounted, IsUncounted, finish_of, handed_back, return_of};

use crate::claims::WorkerClaim;
use mx_journal::{FinishReply, GiveBackReply};
use mx_link::Link;
use mx_sink::Delivery;
use mx_turn::{Claimed, Done, Finished};
use mx_types::History;
use std::marker::Model;
use std::snapshot::Snapshot;

/// What a worker did, and how many ends were recorded, how many were stale, and how many transfers went back to the queue.
#[derive(Drop)]
pub(crate) struct Log<L: Link, D: Delivery> {
    did: History<Done<L, WorkerClaim<L, D>, D>>,
    recorded: u32,
    stale: u32,
    given_back: u32,
}

impl<L: Link, D: Delivery> Model for Log<L, D> {
    ghost use Rattle.mx_worker.specs.Work.{AreCounted, LogView};

    ghost Value = { LogView L };

    ghost view = { λ l. record { did = l.did; recorded_count = l.recorded; stale_count = l.stale; given_back_count = l.given_back } };

    ghost invariant = { λ l. AreCounted l.did l.recorded l.stale l.given_back };
}

impl<L: Link, D: Delivery> Log<L, D> {
    pub fn new() -> Log<L, D>
        ensures { result ≡ record { did = []; recorded_count = 0; stale_count = 0; given_back_count = 0 } }
    {
        Log {
            did: History::new(),
            recorded: 0,
            stale: 0,
            given_back: 0,
        }
    }

    // rule worker-counts
    /// How many ends were recorded, how many were stale, and how many transfers went back to the queue.
    pub fn counts(&self) -> (u32, u32, u32)
        ensures { AreCounted self.now.did result.0 result.1 result.2 }
    {
        (self.recorded, self.stale, self.given_back)
    }

    /// Notes what isn't counted.
    pub fn note(&mut self, done: Done<L, WorkerClaim<L, D>, D>)
        requires { IsUncounted done }
        ensures { self.new.did ≡ self.old.did ++ done ∷ [] }
    {
        self.did.note(done);
    }

    // rule worker-counts
    /// Notes what the call answered by which this end was handed in. Where memory was refused, the claim and the outcome come back. It is
    /// generic over both, so that what is dropped is dropped as one value.
    pub fn note_end<C: Drop, O: Drop, W: Drop>(
        &mut self,
        answer: Result<FinishReply<C, O>, W>,
        end: Snapshot<Finished<WorkerClaim<L, D>, D>>,
    ) -> Option<(C, O)>
        ensures did { self.new.did ≡ self.old.did ++ finishes end.value.end.ticket end.value.end.outcome (finish_of answer) ∷ [] }
        ensures back { result ≡ handed_back answer }
    {
        match answer {
            Ok(FinishReply::Recorded) => {
                self.did.note(Done::recorded(end));
                self.recorded = self.recorded.saturating_add(1);
                None
            }
            Ok(FinishReply::Stale(outcome)) => {
                self.did.note(Done::stale(end));
                self.stale = self.stale.saturating_add(1);
                drop(outcome);
                None
            }
            Ok(FinishReply::OutOfMemory(claim, outcome)) => {
                self.did.note(Done::lacking(end));
                Some((claim, outcome))
            }
            Err(refused) => {
                self.did.note(Done::unseated(end));
                drop(refused);
                None
            }
        }
    }

    /// Notes what the call answered by which this transfer was given back. What doesn't go back to the queue is dropped, as one value.
    pub fn note_return<Q: Drop, W: Drop>(
        &mut self,
        answer: Result<GiveBackReply<Q>, W>,
        given: Snapshot<Claimed<L, WorkerClaim<L, D>, D>>,
    )
        ensures { self.new.did ≡ self.old.did ++ gives_back given.value.held (return_of answer) ∷ [] }
    {
        match answer {
            Ok(GiveBackReply::Back) => {
                self.did.note(Done::returned(given));
                self.given_back = self.given_back.saturating_add(1);
            }
            Ok(GiveBackReply::Stale(queued)) => {
                self.did.note(Done::ended_before(given));
                drop(queued);
            }
            Err(refused) => {
                self.did.note(Done::unreturned(given));
                drop(refused);
            }
        }
    }
}
