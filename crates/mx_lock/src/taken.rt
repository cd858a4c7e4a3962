//! The engine, taken out of the lock.
ghost use Rattle.std.specs.Prelude.{◌≡◌, ◌≤◌, ◌-◌, ◌∷◌, [], false, true, Some, IfNone, IfSome, MatchOption};
ghost use Rattle.std.specs.List.{AllByRecursion};
ghost use mathlib.Core.List.{IsPrefix};
ghost use Rattle.mx_journal.specs.History.{has_ticket, is_maker, retire, running};
ghost use Rattle.mx_journal.specs.Answers.{handle_of};
ghost use Rattle.mx_journal.specs.Core.{claimed, one_out, queued, retired};
ghost use Rattle.mx_journal.specs.Replies.{IsGivenBack, is_back, queue_given};
ghost use Rattle.mx_journal.specs.Receipts.{is_poll};
ghost use Rattle.mx_journal.specs.Slots.{slot_of};
ghost use Rattle.mx_board.specs.Board.{caught_up};
ghost use Rattle.mx_lock.specs.Engine.{HasNoOther, Leaves, content};
ghost use Rattle.mx_lock.specs.Queues.{LeavesWork};
ghost use Rattle.mx_lock.specs.Ties.{Has, Tells, tie};

use crate::claim::TiedClaim;
use crate::deeds::Deed;
use crate::engine::{Engine, Parts};
use mx_board::{BoardReader, BoardWriter};
use mx_journal::GiveBackReply;
use mx_types::{Ending, Who, Work};
use std::marker::Model;
use std::sync::Wait;

/// The engine, taken out of the lock. It has no `Drop`: it ends only by being given back or put back, or with the lock.
/// Contracts see what `Engine` has.
pub struct Taken<Q: Work + Drop, O: Ending + Drop> {
    engine: Engine<Q, O>,
}

impl<Q: Work + Drop, O: Ending + Drop> Model for Taken<Q, O> {
    ghost use Rattle.mx_lock.specs.Engine.{EngineState};

    ghost Value = { EngineState Q O };

    ghost view = { λ t. t.engine };
}

impl<Q: Work + Drop, O: Ending + Drop> Taken<Q, O> {
    pub(crate) fn of(engine: Engine<Q, O>) -> Taken<Q, O>
        ensures { result ≡ engine }
    {
        Taken { engine }
    }

    pub(crate) fn into_engine(self) -> Engine<Q, O>
        ensures { result ≡ self }
    {
        let Taken { engine } = self;
        engine
    }

    // Never lent mutably: a caller could then put another engine in its place, and drop this one.
    /// The engine of the lock, to look at.
    pub fn engine(&self) -> &Engine<Q, O>
        ensures { result.now ≡ self.now }
    {
        &self.engine
    }

    /// Makes a call for a maker, and publishes what it left.
    pub fn run<D: Deed<Q, O>, R: Wait>(self, rt: &R, deed: D, who: Who) -> (Taken<Q, O>, D::Reply)
        requires maker { is_maker who ≡ true }
        requires own { D.own deed self.ties.book }
        ensures leaves { Leaves who (D.call deed) self (D.reply result.1) result.0 }
        ensures back { D.back deed result.1 }
        ensures tells { Tells (D.tie deed result.1) result.0.ties.entries }
        ensures work { LeavesWork (D.moved deed result.1) self.core result.0.core }
        ensures quiet { is_poll (D.call deed) ≡ false }
    {
        let Taken { engine } = self;
        let (engine, reply) = engine.run(rt, deed, who);
        (Taken { engine }, reply)
    }

    /// Retires its old history, over a board of what is kept; it goes into a lock of its own.
    pub fn retire<R: Wait>(self, rt: &R, log: BoardWriter) -> Engine<Q, O>
        requires none { self.core.out ≡ 0 }
        requires log { (log.events ≡ retire self.core.journal) × (log.published ≡ retire self.core.journal) }
        ensures { result ≡ record { core = retired self.core; published = retire self.core.journal; book = log.book; ties = self.ties } }
    {
        let Taken { engine } = self;
        engine.retire(rt, log)
    }

    /// Brings a reader up to the journal.
    pub fn refresh(&mut self, reader: &mut BoardReader)
        requires begins { IsPrefix reader.old.seen self.old.core.journal }
        requires book { reader.old.book ≡ self.old.book }
        ensures same { self.new ≡ self.old }
        ensures reader { reader.new ≡ caught_up reader.old.who self.old.core.journal self.old.book }
    {
        reader.catch_up(&mut self.engine.parts.log)
    }

    // rule multi-least-ticket
    /// Takes the work of the lowest ticket in the queue.
    pub fn claim(&mut self) -> Option<(TiedClaim<Q>, Q)>
        ensures journal { (self.new.core.journal ≡ self.old.core.journal) × (self.new.core.opening ≡ self.old.core.opening) × (self.new.book ≡ self.old.book) }
        ensures ties { self.new.ties ≡ self.old.ties }
        ensures origin { IfSome result (λ r. r.0.origin ≡ Q.origin r.1) }
        ensures own { IfSome result (λ r. r.0.of ≡ self.new.ties.book) }
        ensures request { IfSome result (λ r. Has self.new.ties.entries (tie r.0.ticket r.0.origin)) }
        ensures endings { self.new.core.endings ≡ self.old.core.endings }
        ensures out { MatchOption result (self.new.core.out ≡ self.old.core.out) (λ _. self.new.core.out ≡ one_out self.old.core.out) }
        ensures none { IfNone result ((self.old.core.queue ≡ []) × (self.new.core.queue ≡ [])) }
        ensures some { IfSome result (λ r. self.old.core.queue ≡ (r.0.ticket, r.1) ∷ self.new.core.queue) }
        ensures claimed { IfSome result (λ r. has_ticket r.0.ticket (claimed self.new.core.journal self.new.core.queue) ≡ true) }
        ensures least { IfSome result (λ r. AllByRecursion (λ t. r.0.ticket.0 ≤ t.0) (queued self.old.core.queue)) }
        ensures handle { IfSome result (λ r. handle_of r.0.ticket self.old.core.journal ≡ Some r.0.handle) }
        ensures slot { IfSome result (λ r. slot_of r.0.ticket self.old.core.journal ≡ Some r.0.slot) }
    {
        let parts: &mut Parts<Q, O> = &mut self.engine.parts;
        let Some((claim, work)) = parts.core.claim() else {
            return None;
        };
        Some((TiedClaim::of(claim, parts.ties.mark()), work))
    }

    /// Puts claimed work back into the queue, to the place of its ticket; `Stale` hands it back. The claim is spent.
    pub fn give_back(&mut self, claim: TiedClaim<Q>, work: Q) -> GiveBackReply<Q>
        requires origin { Q.origin work ≡ claim.origin }
        requires own { claim.of ≡ self.old.ties.book }
        ensures journal { (self.new.core.journal ≡ self.old.core.journal) × (self.new.core.opening ≡ self.old.core.opening) × (self.new.book ≡ self.old.book) }
        ensures ties { self.new.ties ≡ self.old.ties }
        ensures endings { self.new.core.endings ≡ self.old.core.endings }
        ensures out { self.new.core.out ≡ self.old.core.out - 1 }
        ensures back { is_back result ≡ has_ticket claim.ticket (claimed self.old.core.journal self.old.core.queue) }
        ensures runs { is_back result ≡ true → has_ticket claim.ticket (running self.old.core.journal) ≡ true }
        ensures queue { self.new.core.queue ≡ queue_given result self.old.core.queue claim.ticket work }
        ensures handed { IsGivenBack work result }
        ensures claims { HasNoOther (content self.old).claimed (content self.new).claimed }
    {
        let parts: &mut Parts<Q, O> = &mut self.engine.parts;
        let (claim, mark) = claim.into_parts();
        let all = parts.ties.mark();
        // proof: both marks are of one list, and what holds of a core
        all.are_of_one_list(&mark);
        parts.core.sound();
        parts.core.give_back(claim, work)
    }
}
