//! The control core, as the engine of a worker on the same thread.
ghost use Rattle.std.specs.Prelude.{◌≡◌, ◌∷◌, ◌++◌, [], None, option_map, IfSome};
ghost use Rattle.mx_turn.specs.Engines.{HandsIn};
ghost use Rattle.mx_turn.specs.Turn.{Each};
ghost use Rattle.mx_turn.specs.Workers.{Return, claims, looks, notes, finishes, gives_back};
ghost use Rattle.mx_solo.specs.Seats.{DoesAt, Ends, GivesBack, finish_by, no_ties, reply_of_end, return_by};

use crate::claims::SoloClaim;
use crate::quiet::Quiet;
use mx_journal::{Control, FinishReply, GiveBackReply};
use mx_link::Link;
use mx_sink::Delivery;
use mx_transfer_core::{Outcome, Queued};
use mx_turn::{Claimed, Done, Engine, Finished, Tied};
use mx_types::{History, Look, Ticket, Who};
use std::marker::Model;
use std::snapshot::Snapshot;

/// The control core of a multi handle on one thread.
pub(crate) type Core<L, D> = Control<Queued<L, D>, Outcome<D>>;

/// Who hands in the ends of transfers.
const WORKER: Who = Who::Worker(0);

/// The control core, beside how it was when a worker began its turns, and what was done with it since: each of that is a step of it. A spare
/// seat has none, and nothing can be done there.
#[derive(Drop)]
pub(crate) struct Seat<L: Link, D: Delivery> {
    start: Snapshot<Option<Core<L, D>>>,
    core: Option<Core<L, D>>,
    log: Quiet,
    did: History<Done<L, SoloClaim<L, D>, D>>,
}

impl<L: Link, D: Delivery> Model for Seat<L, D> {
    ghost use Rattle.mx_turn.specs.Turn.{Each};
    ghost use Rattle.mx_solo.specs.Seats.{DoesAt, SeatView};

    ghost Value = { SeatView L };

    ghost view = { λ s. record { start = s.start.value; core = s.core; did = s.did } };

    ghost invariant = { λ s. Each DoesAt s.did s.start.value s.core };
}

impl<L: Link, D: Delivery> Tied for Seat<L, D> {
    ghost use Rattle.mx_solo.specs.Seats.{no_ties};

    ghost of = { λ _. no_ties };
}

// Takes queued work, where there is some.
fn take<L: Link, D: Delivery>(
    core: &mut Option<Core<L, D>>,
) -> Option<Claimed<L, SoloClaim<L, D>, D>>
    ensures does { DoesAt (claims (option_map (λ h. h.held) result)) core.old core.new }
    ensures own { IfSome result (λ h. h.of ≡ no_ties) }
{
    let Some(core) = core else {
        return None;
    };
    match core.claim() {
        Some((claim, queued)) => {
            let transfer = queued.into_transfer();
            // proof: its hops begin with its request
            transfer.know();
            Some(Claimed::new(SoloClaim::new(claim), transfer))
        }
        None => None,
    }
}

// What the core says of a ticket.
fn look_at<L: Link, D: Delivery>(core: &Option<Core<L, D>>, ticket: Ticket) -> Option<Look>
    ensures { DoesAt (looks ticket result) core.now core.now }
{
    match core {
        Some(core) => Some(core.look(ticket)),
        None => None,
    }
}

// Records an end. False where it is stale: then what it ended with is dropped.
fn record<L: Link, D: Delivery>(
    core: &mut Core<L, D>,
    log: &mut Quiet,
    finished: Finished<SoloClaim<L, D>, D>,
) -> bool
    ensures { Ends finished.end.ticket finished.end.outcome (reply_of_end result) core.old core.new }
{
    let (right, outcome) = finished.into_parts();
    match core.finish(log, WORKER, right.into_claim(), outcome) {
        FinishReply::Recorded => true,
        FinishReply::Stale(stale) => {
            drop(stale);
            false
        }
        FinishReply::OutOfMemory(_, _) => unreachable!(),
    }
}

// Puts a transfer back into the queue. False where it has ended before, or was removed: then it is dropped.
fn put_back<L: Link, D: Delivery>(
    core: &mut Core<L, D>,
    held: Claimed<L, SoloClaim<L, D>, D>,
) -> bool
    ensures { GivesBack held.held result core.old core.new }
{
    let (right, transfer) = held.into_parts();
    match core.give_back(right.into_claim(), Queued::of(transfer)) {
        GiveBackReply::Back => true,
        GiveBackReply::Stale(queued) => {
            drop(queued);
            false
        }
    }
}

// What is noted of an end.
fn done_by_end<L: Link, D: Delivery>(
    is_recorded: bool,
    end: Snapshot<Finished<SoloClaim<L, D>, D>>,
) -> Done<L, SoloClaim<L, D>, D>
    ensures { result ≡ finishes end.value.end.ticket end.value.end.outcome (finish_by is_recorded) }
{
    if is_recorded {
        return Done::recorded(end);
    }
    Done::stale(end)
}

// What is noted of a transfer that was given back.
fn done_by_return<L: Link, D: Delivery>(
    is_back: bool,
    given: Snapshot<Claimed<L, SoloClaim<L, D>, D>>,
) -> Done<L, SoloClaim<L, D>, D>
    ensures { result ≡ gives_back given.value.held (return_by is_back) }
{
    if is_back {
        return Done::returned(given);
    }
    Done::ended_before(given)
}

impl<L: Link, D: Delivery> Seat<L, D> {
    /// A seat with this core, or a spare one, at which nothing was done yet.
    pub fn of(core: Option<Core<L, D>>) -> Seat<L, D>
        ensures { result ≡ record { start = core; core = core; did = [] } }
    {
        Seat {
            start: Snapshot::of(&core),
            core,
            log: Quiet::new(),
            did: History::new(),
        }
    }

    /// The core: what was done since it was handed in are steps of it.
    pub fn into_core(self) -> Option<Core<L, D>>
        ensures core { result ≡ self.core }
        ensures done { Each DoesAt self.did self.start result }
    {
        self.core
    }

    // Hands in an end. At a spare seat it is dropped.
    fn hand_in(&mut self, finished: Finished<SoloClaim<L, D>, D>)
        ensures did { HandsIn self.old.did self.new.did finished None }
        ensures same { self.new.start ≡ self.old.start }
    {
        let end = Snapshot::of(&finished);
        let Some(core) = &mut self.core else {
            drop(finished);
            self.did.note(Done::unseated(end));
            return;
        };
        let is_recorded = record(core, &mut self.log, finished);
        self.did.note(done_by_end(is_recorded, end));
    }

    // Gives a transfer back. At a spare seat it is dropped.
    fn hand_back(&mut self, held: Claimed<L, SoloClaim<L, D>, D>)
        ensures did { (r : Return) × (self.new.did ≡ self.old.did ++ gives_back held.held r ∷ []) }
        ensures same { self.new.start ≡ self.old.start }
    {
        let given = Snapshot::of(&held);
        let Some(core) = &mut self.core else {
            drop(held);
            self.did.note(Done::unreturned(given));
            return;
        };
        let is_back = put_back(core, held);
        self.did.note(done_by_return(is_back, given));
    }
}

impl<L: Link, D: Delivery> Engine<L, SoloClaim<L, D>, D> for Seat<L, D> {
    ghost use Rattle.mx_solo.specs.Seats.{OneCore};

    type Start = Option<Core<L, D>>;

    ghost did = { λ s. s.did };

    ghost start = { λ s. s.start };

    fn claim(&mut self) -> Option<Claimed<L, SoloClaim<L, D>, D>>
        ensures did { self.new.did ≡ self.old.did ++ claims (option_map (λ h. h.held) result) ∷ [] }
        ensures own { IfSome result (λ h. h.of ≡ no_ties) }
        ensures same { (no_ties ≡ no_ties) × (self.new.start ≡ self.old.start) }
    {
        let held = take(&mut self.core);
        self.did.note(Done::claims(&held));
        held
    }

    fn look(&mut self, ticket: Ticket) -> Option<Look>
        ensures did { self.new.did ≡ self.old.did ++ looks ticket result ∷ [] }
        ensures same { (no_ties ≡ no_ties) × (self.new.start ≡ self.old.start) }
    {
        let seen = look_at(&self.core, ticket);
        self.did.note(Done::looks(ticket, seen));
        seen
    }

    fn note(&mut self, right: &SoloClaim<L, D>, count: u32)
        ensures did { self.new.did ≡ self.old.did ++ notes right.now.ticket right.now.slot count ∷ [] }
        ensures same { (no_ties ≡ no_ties) × (self.new.start ≡ self.old.start) }
    {
        self.did.note(Done::notes(right, count));
    }

    fn finish(&mut self, finished: &mut Option<Finished<SoloClaim<L, D>, D>>)
        requires own { IfSome finished.old (λ f. f.of ≡ no_ties) }
        ensures did { IfSome finished.old (λ f. HandsIn self.old.did self.new.did f finished.new) }
        ensures same { (no_ties ≡ no_ties) × (self.new.start ≡ self.old.start) }
    {
        let Some(end) = finished.take() else {
            return;
        };
        self.hand_in(end);
    }

    fn give_back(&mut self, held: &mut Option<Claimed<L, SoloClaim<L, D>, D>>)
        requires own { IfSome held.old (λ h. h.of ≡ no_ties) }
        ensures did { IfSome held.old (λ h. (r : Return) × (self.new.did ≡ self.old.did ++ gives_back h.held r ∷ [])) }
        ensures same { (no_ties ≡ no_ties) × (self.new.start ≡ self.old.start) }
    {
        let Some(given) = held.take() else {
            return;
        };
        self.hand_back(given);
    }
}
