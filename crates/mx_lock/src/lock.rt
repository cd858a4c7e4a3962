//! The lock: a channel with one place, which holds the engine, under a rule over the keys.
ghost use Rattle.std.specs.Prelude.{◌≡◌, ◌≢◌, [], true, false, IfErr, IfOk, MatchResult};
ghost use mathlib.Core.List.{IsPrefix};
ghost use Rattle.crossbeam_channel.specs.Claims.{view};
ghost use Rattle.mx_journal.specs.Laws.{HasAtMostOneMore};
ghost use Rattle.mx_board.specs.Board.{caught_up, confirmed_of};
ghost use Rattle.mx_lock.specs.Engine.{content};
ghost use Rattle.mx_lock.specs.Lock.{maker, engine_of, first_key, IsFoundBy, IsKeyOf, Took, given, released, founded, parent, child};

use crate::engine::Engine;
use crate::key_view::KeyView;
use crate::rule::{Founds, Gives, LockRule, NewKey, PutsBack, Takes};
use crate::taken::Taken;
use crate::ties::TieMark;
use crossbeam_channel::{Pass, RuledReceiver, RuledSender, bounded_with};
use mx_board::BoardReader;
use mx_types::{Ending, OutOfMemory, Work};
use std::alloc::Global;
use std::marker::Model;
use std::snapshot::Snapshot;
use std::sync::Wait;

/// The right to take the engine out of a lock, one a maker. Contracts see what it knows.
pub type Key<Q, O> = Pass<Engine<Q, O>, KeyView>;

/// The engine's place. Contracts see which lock it is.
pub struct Lock<Q: Work + Drop, O: Ending + Drop> {
    into: RuledSender<Engine<Q, O>, KeyView, LockRule>,
    from: RuledReceiver<Engine<Q, O>, KeyView, LockRule>,
}

// Written out, and not derived: a crate that drops a lock cites its proof.
impl<Q: Work + Drop, O: Ending + Drop> Drop for Lock<Q, O> {
    fn drop(self) {
        let Lock { into, from } = self;
        drop(into);
        drop(from);
    }
}

impl<Q: Work + Drop, O: Ending + Drop> Model for Lock<Q, O> {
    ghost use Rattle.std.specs.Prelude.{◌≡◌};
    ghost use Rattle.crossbeam_channel.specs.Claims.{IsKeyed};
    ghost use Rattle.crossbeam_channel.specs.Ends.{sends_on, receives_on};
    ghost use Rattle.mx_lock.specs.Engine.{EngineState};
    ghost use Rattle.mx_lock.specs.Lock.{LockView};

    ghost Value = { LockView (EngineState Q O) };

    ghost view = { λ l. record { table = (sends_on l.into).stamps.shared.table_id; keys = (sends_on l.into).stamps.shared.key } };

    ghost invariant = { λ l. (receives_on l.from ≡ sends_on l.into) × IsKeyed (sends_on l.into) };
}

/// A lock without an engine yet, with its only key: all memory that a lock takes. Contracts see which lock it is.
pub struct EmptyLock<Q: Work + Drop, O: Ending + Drop> {
    lock: Lock<Q, O>,
    key: Key<Q, O>,
}

// Written out, and not derived: a crate that drops one cites its proof.
impl<Q: Work + Drop, O: Ending + Drop> Drop for EmptyLock<Q, O> {
    fn drop(self) {
        let EmptyLock { lock, key } = self;
        drop(lock);
        drop(key);
    }
}

impl<Q: Work + Drop, O: Ending + Drop> Model for EmptyLock<Q, O> {
    ghost use Rattle.std.specs.Prelude.{◌≡◌};
    ghost use Rattle.mx_lock.specs.Engine.{EngineState};
    ghost use Rattle.mx_lock.specs.Lock.{LockView, IsKeyOf, first_key};

    ghost Value = { LockView (EngineState Q O) };

    ghost view = { λ e. e.lock };

    ghost invariant = { λ e. IsKeyOf e.lock e.key × (e.key.me.0.client ≡ first_key) };
}

impl<Q: Work + Drop, O: Ending + Drop> EmptyLock<Q, O> {
    /// The place for an engine.
    ///
    /// # Errors
    ///
    /// `OutOfMemory` where it is refused.
    pub fn new(alloc: Global) -> Result<EmptyLock<Q, O>, OutOfMemory> {
        let Ok((into, from, key)) = bounded_with::<Engine<Q, O>, KeyView, LockRule, Global>(
            alloc, 1,
        ) else {
            return Err(OutOfMemory);
        };
        Ok(EmptyLock {
            lock: Lock { into, from },
            key,
        })
    }

    // That key is no seat's: who owns the multi handle has it, so no seat can make keys.
    /// The lock with an engine, and the key that makes keys, which has seen its journal.
    pub fn found<R: Wait>(self, rt: &R, engine: Engine<Q, O>) -> (Lock<Q, O>, Key<Q, O>)
        ensures lock { result.0 ≡ self }
        ensures key { IsKeyOf result.0 result.1 × (view result.1 ≡ founded (content engine)) }
    {
        let EmptyLock { lock, mut key } = self;
        lock.put_first(rt, &mut key, engine);
        (lock, key)
    }
}

impl<Q: Work + Drop, O: Ending + Drop> Lock<Q, O> {
    // Puts the first engine in.
    fn put_first<R: Wait>(&self, rt: &R, key: &mut Key<Q, O>, engine: Engine<Q, O>)
        requires own { IsKeyOf self.now key.old }
        requires first { view key.old ≡ first_key }
        ensures kept { IsKeyOf self.now key.new }
        ensures founded { view key.new ≡ founded (content engine) }
    {
        let mut engine = engine;
        for _ in rt.forever() {
            match self.into.send_as::<Founds, R>(rt, key, engine) {
                Ok(()) => return,
                Err(refused) => engine = refused.into_inner(),
            }
        }
        unreachable!()
    }

    /// One more key.
    pub fn another(&self, key: &mut Key<Q, O>) -> Key<Q, O>
        requires own { IsKeyOf self.now key.old }
        requires makes { ((view key.old).next ≢ 0) × ((view key.old).told ≡ true) }
        ensures kept { IsKeyOf self.now key.new × (view key.new ≡ parent (view key.old)) }
        ensures new { IsKeyOf self.now result × (view result ≡ child (view key.old)) }
    {
        self.into.another::<NewKey>(key)
    }

    // Takes the engine, and waits until it is there.
    fn take<R: Wait>(&self, rt: &R, key: &mut Key<Q, O>) -> Taken<Q, O>
        requires own { IsKeyOf self.now key.old }
        requires free { ((view key.old).holding ≡ false) × ((view key.old).told ≡ true) }
        ensures kept { IsKeyOf self.now key.new }
        ensures took { Took content (view key.old) result (view key.new) }
    {
        for _ in rt.forever() {
            if let Ok(engine) = self.from.recv_as::<Takes, R>(rt, key) {
                return Taken::of(engine);
            }
        }
        unreachable!()
    }

    // Puts the engine in, with the journal that was found or with one event of the key's maker more.
    fn give<R: Wait>(&self, rt: &R, key: &mut Key<Q, O>, engine: Engine<Q, O>)
        requires own { IsKeyOf self.now key.old }
        requires held { ((view key.old).holding ≡ true) × ((view key.old).told ≡ true) }
        requires engine { engine_of (view key.old) ≡ (content engine).engine }
        requires grows { HasAtMostOneMore (maker (view key.old).number) (view key.old).held (content engine).journal }
        ensures kept { IsKeyOf self.now key.new }
        ensures gave { view key.new ≡ given (view key.old) (content engine) }
    {
        let mut engine = engine;
        for _ in rt.forever() {
            match self.into.send_as::<Gives, R>(rt, key, engine) {
                Ok(()) => return,
                Err(refused) => engine = refused.into_inner(),
            }
        }
        unreachable!()
    }

    /// Puts the engine back as it was found: no event was made, and no work left the queue.
    pub fn put_back<R: Wait>(&self, rt: &R, key: &mut Key<Q, O>, taken: Taken<Q, O>)
        requires own { IsKeyOf self.now key.old }
        requires held { ((view key.old).holding ≡ true) × ((view key.old).told ≡ true) }
        requires engine { engine_of (view key.old) ≡ (content taken).engine }
        requires same { (content taken).journal ≡ (view key.old).held }
        requires queue { (content taken).claimed ≡ (view key.old).found }
        ensures kept { IsKeyOf self.now key.new }
        ensures gave { view key.new ≡ released (view key.old) }
    {
        let mut engine = taken.into_engine();
        for _ in rt.forever() {
            match self.into.send_as::<PutsBack, R>(rt, key, engine) {
                Ok(()) => return,
                Err(refused) => engine = refused.into_inner(),
            }
        }
        unreachable!()
    }

    // rule multi-wrong-seat
    // rule multi-queue
    /// Takes the engine for a reader, where the journal begins with what the reader has seen. Else the engine is put back
    /// as it was found, and what was found comes back, for contracts alone: its journal begins with what is confirmed of what
    /// the reader has seen, but not with all of it.
    pub fn enter<R: Wait>(
        &self,
        rt: &R,
        key: &mut Key<Q, O>,
        reader: &BoardReader,
    ) -> Result<Taken<Q, O>, Snapshot<Engine<Q, O>>>
        requires own { IsKeyOf self.now key.old }
        requires free { ((view key.old).holding ≡ false) × ((view key.old).told ≡ true) }
        requires book { reader.now.book ≡ (engine_of (view key.old)).book }
        ensures kept { IsKeyOf self.now key.new }
        ensures entered { MatchResult result (λ t. Took content (view key.old) t (view key.new) × IsPrefix reader.now.seen t.core.journal) (λ _. view key.new ≡ released (view key.old)) }
        ensures right { IfErr result (λ x. IsFoundBy O.code_of O.size_of (view key.old) x.value × (IsPrefix reader.now.seen x.value.core.journal → ⊥)) }
        ensures newer { IfErr result (λ x. IsPrefix (confirmed_of reader.now) x.value.core.journal) }
    {
        let taken = self.take(rt, key);
        let found = taken.engine();
        if found.begins_with(rt, reader) {
            return Ok(taken);
        }
        // proof: what holds of the engine that was found
        let known = found.know();
        self.put_back(rt, key, taken);
        Err(known)
    }

    /// Gives the engine back, and brings the reader up to its journal and the mark up to all ties.
    pub fn leave<R: Wait>(
        &self,
        rt: &R,
        key: &mut Key<Q, O>,
        taken: Taken<Q, O>,
        reader: &mut BoardReader,
        ties: &mut TieMark,
    )
        requires own { IsKeyOf self.now key.old }
        requires held { ((view key.old).holding ≡ true) × ((view key.old).told ≡ true) }
        requires engine { engine_of (view key.old) ≡ (content taken).engine }
        requires grows { HasAtMostOneMore (maker (view key.old).number) (view key.old).held (content taken).journal }
        requires begins { IsPrefix reader.old.seen taken.core.journal }
        requires book { reader.old.book ≡ taken.book }
        requires ties { taken.ties.book ≡ ties.old.book }
        ensures kept { IsKeyOf self.now key.new }
        ensures told { (ties.new.book ≡ ties.old.book) × IsPrefix ties.old.entries ties.new.entries × IsPrefix taken.ties.entries ties.new.entries }
        ensures gave { view key.new ≡ given (view key.old) (content taken) }
        ensures reader { reader.new ≡ caught_up reader.old.who taken.core.journal taken.book }
    {
        let mut taken = taken;
        taken.refresh(reader);
        taken.engine().tell(ties);
        self.give(rt, key, taken.into_engine());
    }

    /// Takes the engine, and ends it.
    pub fn end<R: Wait>(&self, rt: &R, key: &mut Key<Q, O>)
        requires own { IsKeyOf self.now key.old }
        requires free { ((view key.old).holding ≡ false) × ((view key.old).told ≡ true) }
    {
        let last = self.take(rt, key);
        last.into_engine().close(rt);
    }
}
