//! A worker's calls on the multi handle.
ghost use Rattle.std.specs.Prelude.{◌≡◌, ◌∷◌, ◌++◌, [], option_map, IfSome};
ghost use Rattle.mx_turn.specs.Workers.{Return, claims, looks, notes, gives_back};
ghost use Rattle.mx_request.specs.Request.{request_origin};
ghost use Rattle.mx_turn.specs.Engines.{HandsIn};
ghost use Rattle.mx_worker.specs.Work.{AreCounted, AreHeld, IsDone, end_of};

use crate::claims::WorkerClaim;
use crate::log::Log;
use crate::worker::WorkerEnd;
use mx_link::Link;
use mx_lock::TiedClaim;
use mx_multi::{AtWork, Seated};
use mx_sink::Delivery;
use mx_transfer_core::{Outcome, Queued};
use mx_turn::{Claimed, Done, Engine, Finished, Tied};
use mx_types::{Look, Ticket};
use std::marker::Model;
use std::mem;
use std::snapshot::Snapshot;
use std::sync::Wait;

/// The seat of a running worker, beside the seat as the worker began, and what was done with it since. Only the calls here touch it.
pub(crate) struct Tally<'m, 'r, R: Wait, L: Link, D: Delivery> {
    rt: &'r R,
    start: Snapshot<Seated<'m, AtWork, Queued<L, D>, Outcome<D>>>,
    seat: Seated<'m, AtWork, Queued<L, D>, Outcome<D>>,
    log: Log<L, D>,
}

impl<'m, 'r, R: Wait, L: Link, D: Delivery> Drop for Tally<'m, 'r, R, L, D> {
    fn drop(self) {
        let Tally {
            rt: _,
            start,
            seat,
            log,
        } = self;
        drop(start);
        drop(seat);
        drop(log);
    }
}

impl<'m, 'r, R: Wait, L: Link, D: Delivery> Model for Tally<'m, 'r, R, L, D> {
    ghost use Rattle.mx_chain.specs.Chains.{ChainState};
    ghost use Rattle.mx_worker.specs.Work.{IsDone, TallyView};

    ghost Value = { TallyView L (ChainState L) };

    ghost view = { λ t. record { start = t.start.value; seat = t.seat; did = t.log.did } };

    ghost invariant = { λ t. IsDone t.start.value t.seat t.log.did };
}

impl<'m, 'r, R: Wait, L: Link, D: Delivery> Tied for Tally<'m, 'r, R, L, D> {
    ghost of = { λ t. t.start.of.engine.ties };
}

// A claim and its transfer, as a worker holds them.
fn held_of<L: Link, D: Delivery>(
    claimed: Option<(TiedClaim<Queued<L, D>>, Queued<L, D>)>,
) -> Option<Claimed<L, WorkerClaim<L, D>, D>>
    requires { IfSome claimed (λ r. r.0.origin ≡ request_origin r.1.request) }
    ensures { AreHeld claimed result }
{
    match claimed {
        Some((claim, queued)) => Some(Claimed::new(
            WorkerClaim::new(claim),
            queued.into_transfer(),
        )),
        None => None,
    }
}

// An end that came back.
fn finished_of<L: Link, D: Delivery>(
    back: Option<(TiedClaim<Queued<L, D>>, Outcome<D>)>,
) -> Option<Finished<WorkerClaim<L, D>, D>>
    requires { IfSome back (λ r. request_origin r.1.request ≡ r.0.origin) }
    ensures { result ≡ option_map end_of back }
{
    match back {
        Some((claim, outcome)) => Some(Finished::new(WorkerClaim::new(claim), outcome)),
        None => None,
    }
}

impl<'m, 'r, R: Wait, L: Link, D: Delivery> Tally<'m, 'r, R, L, D> {
    pub fn new(
        rt: &'r R,
        seat: Seated<'m, AtWork, Queued<L, D>, Outcome<D>>,
    ) -> Tally<'m, 'r, R, L, D>
        ensures { result ≡ record { start = seat.entry; seat = seat.entry; did = [] } }
    {
        Tally {
            rt,
            start: Snapshot::of(&seat),
            seat,
            log: Log::new(),
        }
    }

    // rule worker-seat
    /// The end of a run that memory for its start was refused, or wasn't.
    pub fn end(self, refused: bool) -> WorkerEnd<'m, L, D>
        ensures seat { result.seat ≡ self.entry.seat }
        ensures done { IsDone self.entry.start result.seat self.entry.did }
        ensures counted { AreCounted self.entry.did result.recorded result.stale result.given_back }
        ensures refused { result.refused ≡ refused }
    {
        let Tally {
            rt: _,
            start,
            seat,
            log,
        } = self;
        let (recorded, stale, given_back) = log.counts();
        drop(log);
        drop(start);
        WorkerEnd {
            seat,
            recorded,
            stale,
            given_back,
            refused,
        }
    }

    // Hands in an end. One that is refused memory comes back.
    fn hand_in(
        &mut self,
        finished: Finished<WorkerClaim<L, D>, D>,
    ) -> Option<Finished<WorkerClaim<L, D>, D>>
        requires own { finished.of ≡ self.old.start.of.engine.ties }
        ensures did { HandsIn self.old.did self.new.did finished result }
        ensures same { self.new.start ≡ self.old.start }
    {
        let end = Snapshot::of(&finished);
        let (right, outcome) = finished.into_parts();
        let answer = self.seat.finish(self.rt, right.into_claim(), outcome);
        finished_of(self.log.note_end(answer, end))
    }

    // Gives a transfer back. One that doesn't go back to the queue is dropped.
    fn hand_back(&mut self, held: Claimed<L, WorkerClaim<L, D>, D>)
        requires own { held.of ≡ self.old.start.of.engine.ties }
        ensures did { (r : Return) × (self.new.did ≡ self.old.did ++ gives_back held.held r ∷ []) }
        ensures same { self.new.start ≡ self.old.start }
    {
        let given = Snapshot::of(&held);
        let (right, transfer) = held.into_parts();
        let answer = self
            .seat
            .give_back(self.rt, right.into_claim(), Queued::of(transfer));
        self.log.note_return(answer, given);
    }
}

impl<'m, 'r, R: Wait, L: Link, D: Delivery> Engine<L, WorkerClaim<L, D>, D>
    for Tally<'m, 'r, R, L, D> {
    type Start = Seated<'m, AtWork, Queued<L, D>, Outcome<D>>;

    ghost did = { λ t. t.did };

    ghost start = { λ t. t.start };

    fn claim(&mut self) -> Option<Claimed<L, WorkerClaim<L, D>, D>>
        ensures did { self.new.did ≡ self.old.did ++ claims (option_map (λ h. h.held) result) ∷ [] }
        ensures own { IfSome result (λ h. h.of ≡ self.old.start.of.engine.ties) }
        ensures same { (self.new.start.of.engine.ties ≡ self.old.start.of.engine.ties) × (self.new.start ≡ self.old.start) }
    {
        let held = held_of(self.seat.claim(self.rt));
        self.log.note(Done::claims(&held));
        held
    }

    fn look(&mut self, ticket: Ticket) -> Option<Look>
        ensures did { self.new.did ≡ self.old.did ++ looks ticket result ∷ [] }
        ensures same { (self.new.start.of.engine.ties ≡ self.old.start.of.engine.ties) × (self.new.start ≡ self.old.start) }
    {
        let seen = self.seat.look(ticket);
        self.log.note(Done::looks(ticket, seen));
        seen
    }

    fn note(&mut self, right: &WorkerClaim<L, D>, count: u32)
        ensures did { self.new.did ≡ self.old.did ++ notes right.now.ticket right.now.slot count ∷ [] }
        ensures same { (self.new.start.of.engine.ties ≡ self.old.start.of.engine.ties) × (self.new.start ≡ self.old.start) }
    {
        self.seat.note(right.claim(), count);
        self.log.note(Done::notes(right, count));
    }

    fn finish(&mut self, finished: &mut Option<Finished<WorkerClaim<L, D>, D>>)
        requires own { IfSome finished.old (λ f. f.of ≡ self.old.start.of.engine.ties) }
        ensures did { IfSome finished.old (λ f. HandsIn self.old.did self.new.did f finished.new) }
        ensures same { (self.new.start.of.engine.ties ≡ self.old.start.of.engine.ties) × (self.new.start ≡ self.old.start) }
    {
        let Some(end) = finished.take() else {
            return;
        };
        let handed = self.hand_in(end);
        // An assignment would write out in this function how an end is dropped: a call takes less to prove.
        drop(mem::replace(finished, handed));
    }

    fn give_back(&mut self, held: &mut Option<Claimed<L, WorkerClaim<L, D>, D>>)
        requires own { IfSome held.old (λ h. h.of ≡ self.old.start.of.engine.ties) }
        ensures did { IfSome held.old (λ h. (r : Return) × (self.new.did ≡ self.old.did ++ gives_back h.held r ∷ [])) }
        ensures same { (self.new.start.of.engine.ties ≡ self.old.start.of.engine.ties) × (self.new.start ≡ self.old.start) }
    {
        let Some(given) = held.take() else {
            return;
        };
        self.hand_back(given);
    }
}
