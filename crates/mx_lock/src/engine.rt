//! What the lock keeps: the control state, and the board that is published of it.
ghost use Rattle.std.specs.Prelude.{◌≡◌, [], false, length, nat_lt, true, IfOk, IfSome};
ghost use mathlib.Core.List.{IsPrefix};
ghost use Rattle.mx_append_log.specs.Log.{DecidesBeginning};
ghost use Rattle.mx_journal.specs.Core.{IsSound, retired};
ghost use Rattle.mx_journal.specs.History.{is_legal, is_maker, made_by, retire};
ghost use Rattle.mx_journal.specs.Answers.{is_ready};
ghost use Rattle.mx_journal.specs.Receipts.{is_poll};
ghost use Rattle.mx_journal.specs.Table.{IsTableOf};
ghost use Rattle.mx_board.specs.Board.{caught_up, confirmed_of, mark_of};
ghost use Rattle.mx_lock.specs.Engine.{IsLocked, Leaves};
ghost use Rattle.mx_lock.specs.Queues.{LeavesWork};
ghost use Rattle.mx_lock.specs.Ties.{AreOfAdditions, IsTied, Tells};
ghost use Rattle.mx_types.specs.Limits.{IsHistory};

use crate::deeds::Deed;
use crate::ties::{TieLog, TieMark};
use mx_board::{BoardReader, BoardWriter, JournalMark};
use mx_journal::{Control, Table};
use mx_types::{Ending, Event, OutOfMemory, Who, Work};
use std::alloc::Global;
use std::marker::Model;
use std::mem;
use std::snapshot::Snapshot;
use std::sync::Wait;

/// What a call changes: the control state, the board, which is its log, and the ties of additions.
pub struct Parts<Q: Work + Drop, O: Ending + Drop> {
    pub core: Control<Q, O>,
    pub log: BoardWriter,
    pub ties: TieLog,
}

// Written out, and not derived: a crate that drops an engine's parts cites its proof.
impl<Q: Work + Drop, O: Ending + Drop> Drop for Parts<Q, O> {
    fn drop(self) {
        let Parts { core, log, ties } = self;
        drop(core);
        drop(log);
        drop(ties);
    }
}

impl<Q: Work + Drop, O: Ending + Drop> Parts<Q, O> {
    // The board. What else there is ends.
    fn into_log(self) -> BoardWriter {
        let Parts { core, log, ties } = self;
        drop(core);
        drop(ties);
        log
    }
}

/// The control state, and the board. The published version is always that of the control state's journal. Beside the journal it has the
/// request of each addition, for contracts alone. All of it is boxed, so that an engine is cheap to move.
pub struct Engine<Q: Work + Drop, O: Ending + Drop> {
    pub(crate) parts: Box<Parts<Q, O>>,
}

// Written out, and not derived: a crate that drops an engine cites its proof.
impl<Q: Work + Drop, O: Ending + Drop> Drop for Engine<Q, O> {
    fn drop(self) {
        let Engine { parts } = self;
        drop(parts);
    }
}

impl<Q: Work + Drop, O: Ending + Drop> Model for Engine<Q, O> {
    ghost use Rattle.std.specs.Prelude.{◌≡◌};
    ghost use Rattle.mx_lock.specs.Engine.{EngineState};
    ghost use Rattle.mx_lock.specs.Ties.{IsTied};

    ghost Value = { EngineState Q O };

    ghost view = { λ s. record { core = s.parts.value.core; published = s.parts.value.log.published; book = s.parts.value.log.book; ties = s.parts.value.ties } };

    ghost invariant = { λ s. (s.parts.value.log.events ≡ s.parts.value.core.journal) × (s.parts.value.log.published ≡ s.parts.value.core.journal) × IsTied O.origin s.parts.value.core s.parts.value.ties.entries };
}

impl<Q: Work + Drop, O: Ending + Drop> Engine<Q, O> {
    /// With no events, over a board that has none. The board comes back where a growth is refused.
    pub fn new(alloc: Global, history: u32, log: BoardWriter) -> Result<Engine<Q, O>, BoardWriter>
        requires history { IsHistory history }
        requires log { (log.events ≡ []) × (log.published ≡ []) }
        ensures { IfOk result (λ s. (s.core.journal ≡ []) × (s.core.opening ≡ record { history = history; first = 0; from = 0 }) × (s.ties.entries ≡ []) × (s.book ≡ log.book)) }
    {
        match Control::new(alloc, history) {
            Ok(core) => Engine::over(alloc, core, log),
            Err(OutOfMemory) => Err(log),
        }
    }

    // Of a control state that has no events.
    fn over(
        alloc: Global,
        core: Control<Q, O>,
        log: BoardWriter,
    ) -> Result<Engine<Q, O>, BoardWriter>
        requires core { (core.journal ≡ []) × (core.origins ≡ []) × (core.endings ≡ []) }
        requires log { (log.events ≡ []) × (log.published ≡ []) }
        ensures { IfOk result (λ s. (s.core ≡ core) × (s.ties.entries ≡ []) × (s.book ≡ log.book)) }
    {
        let ties = TieLog::new();
        match Box::new(alloc, Parts { core, log, ties }) {
            Ok(parts) => Ok(Engine { parts }),
            Err(refused) => Err(refused.value.into_log()),
        }
    }

    /// What retiring would keep of the journal: the events of the handles that are added, in order.
    ///
    /// # Errors
    ///
    /// `OutOfMemory` where the space for them is refused.
    pub fn kept(&self, alloc: Global) -> Result<Vec<Event>, OutOfMemory>
        ensures { IfOk result (λ v. v.items ≡ retire self.now.core.journal) }
    {
        self.parts.core.kept(alloc)
    }

    /// Whether a claim is out.
    pub fn claim_out(&self) -> bool
        ensures { result ≡ nat_lt 0 self.now.core.out }
    {
        self.parts.core.claim_out()
    }

    /// Retires old history, over a board of what is kept. The board that was there ends: it waits for the readers that read, and
    /// every read of it answers None from then on. The list of ties stays.
    pub fn retire<R: Wait>(self, rt: &R, log: BoardWriter) -> Engine<Q, O>
        requires none { self.core.out ≡ 0 }
        requires log { (log.events ≡ retire self.core.journal) × (log.published ≡ retire self.core.journal) }
        ensures { result ≡ record { core = retired self.core; published = retire self.core.journal; book = log.book; ties = self.ties } }
    {
        let Engine { mut parts } = self;
        let _reply = parts.core.retire();
        let old = mem::replace(&mut parts.log, log);
        let _table = old.close(rt);
        Engine { parts }
    }

    // Makes a call for a maker, and publishes what it left.
    pub(crate) fn run<D: Deed<Q, O>, R: Wait>(
        self,
        rt: &R,
        deed: D,
        who: Who,
    ) -> (Engine<Q, O>, D::Reply)
        requires maker { is_maker who ≡ true }
        requires own { D.own deed self.ties.book }
        ensures leaves { Leaves who (D.call deed) self (D.reply result.1) result.0 }
        ensures back { D.back deed result.1 }
        ensures tells { Tells (D.tie deed result.1) result.0.ties.entries }
        ensures work { LeavesWork (D.moved deed result.1) self.core result.0.core }
        ensures quiet { is_poll (D.call deed) ≡ false }
    {
        let Engine { mut parts } = self;
        let reply = deed.make(rt, who, &mut parts);
        let engine = Engine::publish(rt, parts);
        (engine, reply)
    }

    // Publishes what a call has left.
    fn publish<R: Wait>(rt: &R, parts: Box<Parts<Q, O>>) -> Engine<Q, O>
        requires { (parts.value.log.events ≡ parts.value.core.journal) × IsTied O.origin parts.value.core parts.value.ties.entries }
        ensures is { result ≡ record { core = parts.value.core; published = parts.value.core.journal; book = parts.value.log.book; ties = parts.value.ties } }
        ensures sound { IsSound O.code_of O.size_of result.core.opening.history result.core.journal result.core.queue result.core.endings }
    {
        let mut parts = parts;
        // proof: what holds of a core
        parts.core.sound();
        parts.log.publish(rt);
        Engine { parts }
    }

    // rule multi-lock
    /// What holds of every engine in a lock, for contracts alone: the control state is sound, and the version that is
    /// published is that of its journal; there is a tie for each addition, and queued work and endings are of their tickets'
    /// additions.
    pub fn know(&self) -> Snapshot<Engine<Q, O>>
        ensures is { result.value ≡ self.now }
        ensures locked { IsLocked O.code_of O.size_of self.now }
        ensures tied { AreOfAdditions Q.origin O.origin self.now.core self.now.ties.entries }
    {
        // proof: what holds of a core
        self.parts.core.sound();
        Snapshot::of(self)
    }

    /// The published version: the table of the journal.
    pub fn published(&self) -> &Table
        ensures { IsTableOf self.now.core.journal result.now }
    {
        // proof: what holds of an engine
        let _ = &self.parts;
        self.parts.log.table()
    }

    /// A mark of the whole journal.
    pub fn mark(&self) -> JournalMark
        ensures { result ≡ mark_of self.now.core.journal self.now.book }
    {
        // proof: what holds of an engine
        let _ = &self.parts;
        self.parts.log.mark()
    }

    /// A mark of all ties.
    pub fn tie_mark(&self) -> TieMark
        ensures { result ≡ self.now.ties }
    {
        // proof: what holds of an engine
        let _ = &self.parts;
        self.parts.ties.mark()
    }

    /// Brings a mark up to all ties.
    pub fn tell(&self, mark: &mut TieMark)
        requires { self.now.ties.book ≡ mark.old.book }
        ensures book { mark.new.book ≡ mark.old.book }
        ensures grown { IsPrefix mark.old.entries mark.new.entries }
        ensures all { IsPrefix self.now.ties.entries mark.new.entries }
    {
        // proof: what holds of an engine
        let _ = &self.parts;
        mark.learn(&self.parts.ties.mark())
    }

    /// How many events the journal has.
    pub fn len(&self) -> u32
        ensures length { result ≡ length self.now.core.journal }
        ensures legal { is_legal self.now.core.journal ≡ true }
    {
        // proof: what holds of a core
        self.parts.core.sound();
        self.parts.core.len()
    }

    /// The ticket from which on additions are numbered.
    pub fn first(&self) -> u32
        ensures { result ≡ self.now.core.opening.first }
    {
        self.parts.core.first()
    }

    /// Whether an event at or after the mark lets a poll return.
    pub fn is_ready(&self, since: u32) -> bool
        ensures { result ≡ is_ready since self.now.core.journal }
    {
        self.parts.core.poll_ready(since)
    }

    /// How many events the maker made.
    pub fn made(&self, who: Who) -> u32
        requires { is_maker who ≡ true }
        ensures { result ≡ made_by who self.now.core.journal }
    {
        // proof: what holds of an engine
        let _ = &self.parts;
        self.parts.log.made(who)
    }

    /// Whether the journal begins with what a reader has seen. With what is confirmed of that it does begin: it is no older.
    pub fn begins_with<R: Wait>(&self, rt: &R, reader: &BoardReader) -> bool
        requires { reader.now.book ≡ self.now.book }
        ensures begins { DecidesBeginning result reader.now.seen self.now.core.journal }
        ensures newer { IsPrefix (confirmed_of reader.now) self.now.core.journal }
    {
        self.parts.log.covers(rt, reader);
        // proof: what is confirmed is no longer than the journal, whose length is a u32
        let _len = self.len();
        let confirmed = reader.confirmed();
        let next = self.parts.core.event(confirmed as u32);
        reader.is_behind(&self.mark(), next)
    }

    /// A reader for a maker, which has seen the whole journal. None where every place for a reader is in use.
    pub fn reader(&mut self, who: Who) -> Option<BoardReader>
        requires { is_maker who ≡ true }
        ensures same { self.new ≡ self.old }
        ensures is { IfSome result (λ r. r ≡ caught_up who self.old.core.journal self.old.book) }
    {
        // proof: what holds of an engine
        let _ = &self.parts;
        self.parts.log.reader(who)
    }

    /// Ends the board: it waits for the readers that read, and gives the memory of both copies back. The control state goes
    /// with its queue and its endings.
    pub fn close<R: Wait>(self, rt: &R) {
        let Engine { parts } = self;
        let log = Box::into_inner(parts).into_log();
        drop(log.close(rt));
    }
}
