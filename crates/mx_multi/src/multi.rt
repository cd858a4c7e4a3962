//! The multi handle that threads share, and what its calls are made of.
ghost use Rattle.std.specs.Prelude.{◌⊎◌, ◌≡◌, false, true, length, take, IfOk, OnErr, OnOk, MatchBool, MatchResult};
ghost use Rattle.std.specs.Bool.{OnFalse};
ghost use Rattle.mx_types.specs.declared.call.Call.{Call};
ghost use Rattle.mx_types.specs.declared.reply.Reply.{Reply};
ghost use Rattle.crossbeam_channel.specs.Claims.{view};
ghost use mathlib.Core.List.{IsPrefix};
ghost use Rattle.mx_board.specs.Board.{AreOfOneJournal, OneBeginsOther, confirmed_of};
ghost use Rattle.mx_lock.specs.Lock.{IsKeyOf};
ghost use Rattle.mx_lock.specs.Ties.{AreOfAdditions, Tells};
ghost use Rattle.mx_multi.specs.Seats.{IsAhead, Stands, Sees, FindsNoneReady, FindsOther, FoundState, LeavesState, MeetsOther};

use crate::meet::see;
use crate::open::Limits;
use crate::retire::finds;
use crate::seat::{Seat, SeatOf, note_receipt};
use mx_board::{BoardReader, JournalMark, ProgressTable, are_of_one_journal};
use mx_lock::{Deed, Engine, Key, Lock, TieMark, lets_polls_return};
use mx_types::{AddedHandles, Call, Ending, Reply, Work};
use std::marker::Model;
use std::snapshot::Snapshot;
use std::sync::{Condvar, Mutex, Wait};
use std::time::{Clock, Duration};

/// The seat has seen a journal that isn't the beginning of this one. `confirmed_seats_are_right` rules that out for a seat whose events are all
/// confirmed, as they are after an answered call under the lock. Where a read has shown it another event since, no contract rules it out. What
/// the call was given comes back, and nothing was changed.
#[derive(Drop)]
pub struct WrongSeat<T>(pub T);

/// The handles that are added, with the number of events that the seat had then seen.
#[derive(Drop)]
pub struct HandleList {
    pub cut: u32,
    pub list: AddedHandles,
}

/// A multi handle that threads share, each through a seat of its own. Who opened it has it as an `OwnedMulti`, which lends it.
pub struct Multi<Q: Work + Drop, O: Ending + Drop> {
    pub(crate) lock: Lock<Q, O>,
    /// The journal with which it began, which distinguishes journals.
    pub(crate) start: JournalMark,
    /// The ties with which it began, which distinguish such lists, for contracts alone: they have no size.
    pub(crate) ties: TieMark,
    /// How many bytes each transfer has received.
    pub(crate) words: ProgressTable,
    pub(crate) limits: Limits,
    /// The ticket from which on additions are numbered.
    pub(crate) first: u32,
    /// How many events were kept at the last retiring.
    pub(crate) from: u32,
    /// How many wake-ups and ends there were, for those that wait.
    pub(crate) changes: Mutex<u64>,
    pub(crate) changed: Condvar,
}

// Written out, and not derived: a crate that drops a multi handle cites its proof.
impl<Q: Work + Drop, O: Ending + Drop> Drop for Multi<Q, O> {
    fn drop(self) {
        let Multi {
            lock,
            start,
            ties,
            words,
            limits: _,
            first: _,
            from: _,
            changes,
            changed,
        } = self;
        drop(lock);
        drop(start);
        drop(ties);
        drop(words);
        drop(changes);
        drop(changed);
    }
}

impl<Q: Work + Drop, O: Ending + Drop> Model for Multi<Q, O> {
    ghost use Rattle.std.specs.Prelude.{◌≡◌, true};
    ghost use Rattle.mx_multi.specs.Opening.{are_within};
    ghost use Rattle.mx_multi.specs.Seats.{MultiView};

    ghost Value = { MultiView Q O };

    ghost view = { λ m. record { table = m.lock.table; keys = m.lock.keys; engine = record { book = m.start.book; opening = record { history = m.limits.history; first = m.first; from = m.from }; ties = m.ties.book }; words = m.words.id; limits = m.limits } };

    ghost invariant = { λ m. are_within m.limits ≡ true };
}

// Whether the journal begins with what a reader has seen, and has no event more of its maker.
pub(crate) fn fits<Q: Work + Drop, O: Ending + Drop, R: Wait>(
    rt: &R,
    found: &Engine<Q, O>,
    reader: &BoardReader,
) -> bool
    requires { reader.now.book ≡ found.now.book }
    ensures ahead { MatchBool result (IsAhead reader.now found.now.core.journal) (IsAhead reader.now found.now.core.journal → ⊥) }
    ensures newer { IsPrefix (confirmed_of reader.now) found.now.core.journal }
{
    if !found.begins_with(rt, reader) {
        return false;
    }
    found.made(reader.who()) == reader.made()
}

impl<Q: Work + Drop, O: Ending + Drop> Multi<Q, O> {
    // rule multi-sleeping-poll, unproved: A poll that sleeps is woken.
    //
    // Wakes those that wait, which then look again: they take the lock of the count, so that is free by then.
    pub(crate) fn tell<R: Wait>(&self, rt: &R) {
        let mut changes = self.changes.lock(rt);
        *changes = changes.wrapping_add(1);
        drop(changes);
        self.changed.notify_all();
    }

    // rule multi-linearized
    // rule multi-wrong-seat
    // rule multi-out-of-memory
    // Makes a call under the lock.
    pub(crate) fn act<K, D: Deed<Q, O>, R: Wait>(
        &self,
        rt: &R,
        seat: &mut SeatOf<K, Q, O>,
        deed: D,
    ) -> Result<D::Reply, WrongSeat<D>>
        requires own { seat.old.of ≡ self.now }
        requires claim { D.own deed self.now.engine.ties }
        ensures stands { MatchResult result (λ r. Stands seat.old seat.new (D.call deed) (D.reply r)) (λ w. (seat.new ≡ seat.old) × (w.0 ≡ deed)) }
        ensures back { IfOk result (λ r. D.back deed r) }
        ensures tells { IfOk result (λ r. Tells (D.tie deed r) seat.new.ties) }
        ensures left { IfOk result (λ r. LeavesState O.code_of O.size_of seat.old seat.new (D.reply r) (D.moved deed r)) }
        ensures confirmed { OnOk result (seat.new.confirmed ≡ length seat.new.seen) }
        ensures right { OnErr result (FindsOther O.code_of O.size_of seat.old) }
    {
        let taken = match self.lock.enter(rt, &mut seat.key, &seat.reader) {
            Ok(taken) => taken,
            Err(_found) => return Err(WrongSeat(deed)),
        };
        let found = taken.engine();
        // proof: what holds of the engine that was found
        let _known = found.know();
        let who = seat.reader.who();
        let call = deed.as_call();
        let (taken, reply) = taken.run(rt, deed, who);
        let left = taken.engine();
        // proof: what holds of the engine that is left
        let _left = left.know();
        self.lock
            .leave(rt, &mut seat.key, taken, &mut seat.reader, &mut seat.ties);
        let cut = seat.reader.cut();
        let answer = D::as_reply(&reply);
        if lets_polls_return(&answer) {
            self.tell(rt);
        }
        note_receipt(&mut seat.mine, cut, call, answer);
        Ok(reply)
    }

    /// The engine in the lock, for contracts alone: the control state is sound, its journal is what the seat has then seen,
    /// and the version that is published is that of this journal. `WrongSeat`, and nothing changes, where the seat isn't one
    /// of this multi handle's.
    ///
    /// No clause says that it leaves queue and endings as they were.
    pub fn locked_state<R: Wait>(
        &self,
        rt: &R,
        seat: &mut Seat<Q, O>,
    ) -> Result<Snapshot<Engine<Q, O>>, WrongSeat<()>>
        requires own { seat.old.of ≡ self.now }
        ensures sees { MatchResult result (λ x. Sees seat.old seat.new) (λ _. seat.new ≡ seat.old) }
        ensures found { IfOk result (λ x. FoundState O.code_of O.size_of seat.new x.value) }
        ensures right { OnErr result (FindsOther O.code_of O.size_of seat.old) }
        ensures tied { IfOk result (λ x. AreOfAdditions Q.origin O.origin x.value.core x.value.ties.entries) }
        ensures claims { seat.new.claims ≡ seat.old.claims }
        ensures given { seat.new.given ≡ seat.old.given }
    {
        let taken = match self.lock.enter(rt, &mut seat.key, &seat.reader) {
            Ok(taken) => taken,
            Err(_found) => return Err(WrongSeat(())),
        };
        let found = taken.engine();
        // proof: what holds of the engine that was found, and of its journal
        let known = found.know();
        let _cut = found.len();
        self.lock
            .leave(rt, &mut seat.key, taken, &mut seat.reader, &mut seat.ties);
        Ok(known)
    }

    // Not `meet_all` of two: a slice can't be made of seats that are held apart without moving them.
    // rule multi-meeting
    // Lets both seats see the journal. False, and nothing changes, where a seat isn't one of this multi handle's.
    pub(crate) fn try_meet<R: Wait>(
        &self,
        rt: &R,
        one: &mut Seat<Q, O>,
        two: &mut Seat<Q, O>,
    ) -> bool
        requires own { (one.old.of ≡ self.now) × (two.old.of ≡ self.now) }
        ensures meets { MatchBool result (Sees one.old one.new × Sees two.old two.new × (one.new.seen ≡ two.new.seen)) ((one.new ≡ one.old) × (two.new ≡ two.old)) }
        ensures claims { (one.new.claims ≡ one.old.claims) × (two.new.claims ≡ two.old.claims) }
        ensures given { (one.new.given ≡ one.old.given) × (two.new.given ≡ two.old.given) }
        ensures right { OnFalse result (FindsOther O.code_of O.size_of one.old ⊎ MeetsOther O.code_of O.size_of two.old) }
    {
        let mut taken = match self.lock.enter(rt, &mut one.key, &one.reader) {
            Ok(taken) => taken,
            Err(_found) => return false,
        };
        let found = taken.engine();
        if finds(rt, found, two) {
            // proof: what holds of the journal that was found
            let _cut = found.len();
            see(&mut taken, two);
            self.lock
                .leave(rt, &mut one.key, taken, &mut one.reader, &mut one.ties);
            return true;
        }
        // proof: what holds of the engine that was found
        let _known = found.know();
        self.lock.put_back(rt, &mut one.key, taken);
        false
    }

    /// What two seats have seen are prefixes of one journal, but for the last event of each, which only a read may have shown; and of their
    /// confirmed events one list is a prefix of the other. Where all that both have seen is confirmed, as it is after an answered call under
    /// the lock, that is true of all of it.
    pub fn are_of_one_journal<J, K>(&self, one: &SeatOf<J, Q, O>, two: &SeatOf<K, Q, O>)
        requires own { (one.now.of ≡ self.now) × (two.now.of ≡ self.now) }
        ensures seen { AreOfOneJournal one.now.seen two.now.seen }
        ensures confirmed { OneBeginsOther (take one.now.confirmed one.now.seen) (take two.now.confirmed two.now.seen) }
        ensures whole { one.now.confirmed ≡ length one.now.seen → two.now.confirmed ≡ length two.now.seen → OneBeginsOther one.now.seen two.now.seen }
    {
        are_of_one_journal(&one.reader, &two.reader)
    }

    // Takes the engine out, by a key of its lock, and ends it: no call is answered any more.
    pub(crate) fn end<R: Wait>(&self, rt: &R, key: &mut Key<Q, O>)
        requires own { IsKeyOf (record { table = self.now.table; keys = self.now.keys }) key.old }
        requires free { ((view key.old).holding ≡ false) × ((view key.old).told ≡ true) }
    {
        self.lock.end(rt, key);
    }

    pub(crate) fn heard<R: Wait>(&self, rt: &R) -> u64 {
        *self.changes.lock(rt)
    }

    // rule multi-sleeping-poll
    // Waits until there was a wake-up or an end since the count `heard`.
    pub(crate) fn wait_after<R: Wait>(&self, rt: &R, heard: u64) {
        let changes = self.changes.lock(rt);
        let _changes = self
            .changed
            .wait_while(rt, changes, |changes| *changes == heard);
    }

    // Waits until there was a wake-up or an end since the count `heard`, or so many milliseconds.
    pub(crate) fn wait_after_for<R: Wait + Clock>(&self, rt: &R, heard: u64, milliseconds: u32) {
        let changes = self.changes.lock(rt);
        let most = Duration::from_millis(u64::from(milliseconds));
        let _told = self
            .changed
            .wait_timeout_while(rt, changes, most, |changes| *changes == heard);
    }

    // rule multi-linearized
    // Polls once. False, and nothing changes, where no event of a journal that begins with what the seat has seen lets it return.
    pub(crate) fn try_poll<R: Wait>(
        &self,
        rt: &R,
        seat: &mut Seat<Q, O>,
    ) -> Result<bool, WrongSeat<()>>
        requires own { seat.old.of ≡ self.now }
        ensures polls { MatchResult result (λ woken. MatchBool woken (Stands seat.old seat.new Call.Poll Reply.Woken × (seat.new.confirmed ≡ length seat.new.seen)) (seat.new ≡ seat.old)) (λ _. seat.new ≡ seat.old) }
        ensures asleep { IfOk result (λ woken. OnFalse woken (FindsNoneReady O.code_of O.size_of seat.old)) }
        ensures right { OnErr result (FindsOther O.code_of O.size_of seat.old) }
    {
        let taken = match self.lock.enter(rt, &mut seat.key, &seat.reader) {
            Ok(taken) => taken,
            Err(_found) => return Err(WrongSeat(())),
        };
        let found = taken.engine();
        if found.is_ready(seat.polled) {
            let cut = found.len();
            self.lock
                .leave(rt, &mut seat.key, taken, &mut seat.reader, &mut seat.ties);
            seat.polled = cut;
            note_receipt(&mut seat.mine, cut, Call::Poll, Reply::Woken);
            return Ok(true);
        }
        // proof: what holds of the engine that was found
        let _known = found.know();
        self.lock.put_back(rt, &mut seat.key, taken);
        Ok(false)
    }
}
