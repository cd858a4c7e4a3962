//! A seat with its multi handle: what programs call.
ghost use Rattle.std.specs.Prelude.{◌⊎◌, ◌≡◌, ◌++◌, ◌∷◌, [], false, true, length, take, Some, IfNone, IfSome, IfOk, OnErr, OnOk, MatchBool, MatchResult, MatchOption};
ghost use Rattle.std.specs.Bool.{OnFalse};
ghost use Rattle.mx_types.specs.declared.call.Call.{Call};
ghost use Rattle.mx_types.specs.declared.reply.Reply.{Reply};
ghost use Rattle.mx_journal.specs.History.{has_ticket, running};
ghost use Rattle.mx_journal.specs.Answers.{handle_of};
ghost use Rattle.mx_journal.specs.Slots.{slot_of};
ghost use Rattle.mx_journal.specs.Replies.{IsGivenBack, is_back, handed_back, work_back, IsHandedBack, reply_of_add, reply_of_finish, reply_of_info, reply_of_pause, reply_of_remove, reply_of_wakeup};
ghost use Rattle.mx_lock.specs.Queues.{moves_added, moves_none, moves_read, moves_recorded};
ghost use Rattle.mx_lock.specs.Ties.{Has, Tells, tie, tie_added, tie_read};
ghost use Rattle.mx_append_log.specs.Log.{AreOfOneList};
ghost use Rattle.mx_board.specs.Board.{AreOfOneJournal, OneBeginsOther};
ghost use Rattle.mx_multi.specs.Laws.{AreToldAlike, RanScript};
ghost use Rattle.mx_multi.specs.Progress.{IsProgress, noted_by};
ghost use Rattle.mx_multi.specs.Seats.{FindsNoneReady, FindsOther, MeetsOther, HasReceipts, Stands, Sees, SeesVersion, GivesBack, ClaimsLeast, ClaimsNothing, LeavesState, given_with};

use crate::multi::{HandleList, Multi, WrongSeat};
use crate::progress::read_word;
use crate::seat::{Application, AtWork, SeatOf, note_given, note_handles, note_receipt};
use mx_board::Progress;
use mx_journal::{
    AddReply, FinishReply, GiveBackReply, InfoReply, PauseReply, RemoveReply, WakeupReply,
};
use mx_lock::{Addition, Deed, Finishing, Pausing, Reading, Removal, TiedClaim, Waking};
use mx_types::{Call, Ending, HandleId, Look, Reply, State, Ticket, Work};
use std::marker::Model;
use std::sync::Wait;
use std::time::Clock;

/// A seat with the multi handle that gave it: so each call is one that the seat may make. Contracts see what they see of the seat.
pub struct Seated<'m, K, Q: Work + Drop, O: Ending + Drop> {
    multi: &'m Multi<Q, O>,
    seat: SeatOf<K, Q, O>,
}

// Written out, and not derived: a crate that drops a seat cites its proof.
impl<'m, K, Q: Work + Drop, O: Ending + Drop> Drop for Seated<'m, K, Q, O> {
    fn drop(self) {
        let Seated { multi: _, seat } = self;
        drop(seat);
    }
}

impl<'m, K, Q: Work + Drop, O: Ending + Drop> Model for Seated<'m, K, Q, O> {
    ghost use Rattle.std.specs.Prelude.{◌≡◌};
    ghost use Rattle.mx_multi.specs.Seats.{SeatView};

    ghost Value = { SeatView Q O };

    ghost view = { λ s. s.seat };

    ghost invariant = { λ s. s.seat.of ≡ s.multi.now };
}

impl<Q: Work + Drop, O: Ending + Drop> Multi<Q, O> {
    /// One of its seats, with this multi handle.
    pub fn at<K>(&self, seat: SeatOf<K, Q, O>) -> Seated<'_, K, Q, O>
        requires own { seat.of ≡ self.now }
        ensures { result ≡ seat }
    {
        Seated { multi: self, seat }
    }
}

impl<'m, K, Q: Work + Drop, O: Ending + Drop> Seated<'m, K, Q, O> {
    /// The multi handle.
    pub fn multi(&self) -> &'m Multi<Q, O>
        ensures { result.now ≡ self.now.of }
    {
        self.multi
    }

    /// The seat, without its multi handle.
    pub fn into_seat(self) -> SeatOf<K, Q, O>
        ensures { result ≡ self.entry }
    {
        let Seated { multi: _, seat } = self;
        seat
    }

    /// How many events the seat has seen.
    pub fn cut(&self) -> u32
        ensures { result ≡ length self.now.seen }
    {
        self.seat.cut()
    }

    /// Each seat is placed: the receipts of all its calls are in what it has seen.
    pub fn is_placed(&self)
        ensures { HasReceipts self.now }
    {
        self.seat.is_placed()
    }

    /// What this seat and another of its multi handle have seen are prefixes of one journal, as `Multi::are_of_one_journal` has it.
    pub fn are_of_one_journal<J>(&self, other: &Seated<'_, J, Q, O>)
        requires own { other.now.of ≡ self.now.of }
        ensures seen { AreOfOneJournal self.now.seen other.now.seen }
        ensures confirmed { OneBeginsOther (take self.now.confirmed self.now.seen) (take other.now.confirmed other.now.seen) }
        ensures whole { self.now.confirmed ≡ length self.now.seen → other.now.confirmed ≡ length other.now.seen → OneBeginsOther self.now.seen other.now.seen }
    {
        self.multi.are_of_one_journal(&self.seat, &other.seat)
    }

    /// What this seat and another of its multi handle were told of requests is of one list, as `Multi::are_told_alike` has it.
    pub fn are_told_alike<J>(&self, other: &Seated<'_, J, Q, O>)
        requires own { other.now.of ≡ self.now.of }
        ensures list { AreOfOneList self.now.ties other.now.ties }
        ensures alike { AreToldAlike self.now.ties other.now.ties }
    {
        self.multi.are_told_alike(&self.seat, &other.seat)
    }
}

impl<'m, K, Q: Work + Drop, O: Ending + Drop> Seated<'m, K, Q, O> {
    // A call under the lock, of which nothing has to come back.
    fn ask<D: Deed<Q, O> + Drop, R: Wait>(
        &mut self,
        rt: &R,
        deed: D,
    ) -> Result<D::Reply, WrongSeat<()>>
        requires claim { D.own deed self.old.of.engine.ties }
        ensures stands { MatchResult result (λ r. Stands self.old self.new (D.call deed) (D.reply r)) (λ _. self.new ≡ self.old) }
        ensures tells { IfOk result (λ r. Tells (D.tie deed r) self.new.ties) }
        ensures left { IfOk result (λ r. LeavesState O.code_of O.size_of self.old self.new (D.reply r) (D.moved deed r)) }
        ensures confirmed { OnOk result (self.new.confirmed ≡ length self.new.seen) }
        ensures right { OnErr result (FindsOther O.code_of O.size_of self.old) }
    {
        match self.multi.act(rt, &mut self.seat, deed) {
            Ok(reply) => Ok(reply),
            Err(_) => Err(WrongSeat(())),
        }
    }

    // The reply of such a call, which is all that is kept of its answer.
    fn answered<D: Deed<Q, O> + Drop, R: Wait>(&mut self, rt: &R, deed: D) -> Option<Reply>
    where
        D::Reply: Drop,
        requires claim { D.own deed self.old.of.engine.ties }
        ensures { MatchOption result (self.new ≡ self.old) (λ r. Stands self.old self.new (D.call deed) r) }
    {
        match self.ask(rt, deed) {
            Ok(reply) => Some(D::as_reply(&reply)),
            Err(_) => None,
        }
    }
}

// What pauses a handle's transfer.
fn pausing(handle: HandleId) -> Pausing
    ensures { result ≡ record { handle = handle; pauses = true } }
{
    Pausing {
        handle,
        pauses: true,
    }
}

// What resumes it.
fn resuming(handle: HandleId) -> Pausing
    ensures { result ≡ record { handle = handle; pauses = false } }
{
    Pausing {
        handle,
        pauses: false,
    }
}

impl<'m, Q: Work + Drop, O: Ending + Drop> Seated<'m, Application, Q, O> {
    /// Adds a handle with its work (curl_multi_add_handle(3)). The seat is then told that the ticket's addition is of the work's
    /// request.
    ///
    /// # Refusals
    ///
    /// The first that applies, in this order; each hands the work back. After all but the first the seat has seen the journal that the call
    /// found:
    ///
    /// - `WrongSeat`: the journal in the lock doesn't begin with what the seat has seen, though it does with what is confirmed of that; the
    ///   seat stays as it was;
    /// - `AddedAlready`: the handle is added;
    /// - `TableFull`: as many handles are added as can be;
    /// - `TicketsSpent`: no ticket is left;
    /// - `HistoryFull`: the history has no room for the addition and its end, reading and removal;
    /// - `OutOfMemory`: memory for the event was refused.
    pub fn add<R: Wait>(
        &mut self,
        rt: &R,
        handle: HandleId,
        work: Q,
    ) -> Result<AddReply<Q>, WrongSeat<Q>>
        ensures stands { MatchResult result (λ r. Stands self.old self.new (Call.Add handle) (reply_of_add r)) (λ w. (self.new ≡ self.old) × (w.0 ≡ work)) }
        ensures back { IfOk result (λ r. handed_back r ≡ work_back r work) }
        ensures tells { IfOk result (λ r. Tells (tie_added r (Q.origin work)) self.new.ties) }
        ensures left { IfOk result (λ r. LeavesState O.code_of O.size_of self.old self.new (reply_of_add r) (moves_added r work)) }
        ensures confirmed { OnOk result (self.new.confirmed ≡ length self.new.seen) }
        ensures right { OnErr result (FindsOther O.code_of O.size_of self.old) }
    {
        let deed = Addition { handle, work };
        match self.multi.act(rt, &mut self.seat, deed) {
            Ok(reply) => Ok(reply),
            Err(WrongSeat(deed)) => Err(WrongSeat(deed.work)),
        }
    }

    /// Removes a handle, whatever its state (curl_multi_remove_handle(3)).
    ///
    /// # Refusals
    ///
    /// The first that applies, in this order, as for `add`: `WrongSeat`, `NotAdded`, `OutOfMemory`.
    pub fn remove<R: Wait>(
        &mut self,
        rt: &R,
        handle: HandleId,
    ) -> Result<RemoveReply, WrongSeat<()>>
        ensures stands { MatchResult result (λ r. Stands self.old self.new (Call.Remove handle) (reply_of_remove r)) (λ _. self.new ≡ self.old) }
        ensures left { IfOk result (λ r. LeavesState O.code_of O.size_of self.old self.new (reply_of_remove r) moves_none) }
        ensures confirmed { OnOk result (self.new.confirmed ≡ length self.new.seen) }
        ensures right { OnErr result (FindsOther O.code_of O.size_of self.old) }
    {
        self.ask(rt, Removal(handle))
    }

    /// Pauses a handle's transfer.
    ///
    /// # Refusals
    ///
    /// The first that applies, in this order, as for `add`: `WrongSeat`, `NotAdded`, `NotRunning` (its transfer ended), `NoChange` (it is
    /// paused), `HistoryFull`, `OutOfMemory`.
    pub fn pause<R: Wait>(&mut self, rt: &R, handle: HandleId) -> Result<PauseReply, WrongSeat<()>>
        ensures stands { MatchResult result (λ r. Stands self.old self.new (Call.Pause handle) (reply_of_pause r)) (λ _. self.new ≡ self.old) }
        ensures left { IfOk result (λ r. LeavesState O.code_of O.size_of self.old self.new (reply_of_pause r) moves_none) }
        ensures confirmed { OnOk result (self.new.confirmed ≡ length self.new.seen) }
        ensures right { OnErr result (FindsOther O.code_of O.size_of self.old) }
    {
        self.ask(rt, pausing(handle))
    }

    /// Resumes a handle's transfer.
    ///
    /// # Refusals
    ///
    /// Those of `pause`, in the same order, with `NoChange` where it isn't paused.
    pub fn unpause<R: Wait>(
        &mut self,
        rt: &R,
        handle: HandleId,
    ) -> Result<PauseReply, WrongSeat<()>>
        ensures stands { MatchResult result (λ r. Stands self.old self.new (Call.Unpause handle) (reply_of_pause r)) (λ _. self.new ≡ self.old) }
        ensures left { IfOk result (λ r. LeavesState O.code_of O.size_of self.old self.new (reply_of_pause r) moves_none) }
        ensures confirmed { OnOk result (self.new.confirmed ≡ length self.new.seen) }
        ensures right { OnErr result (FindsOther O.code_of O.size_of self.old) }
    {
        self.ask(rt, resuming(handle))
    }

    /// Reads the first message (curl_multi_info_read(3)). The seat is then told that the addition under its ticket is of the ending's
    /// request, whoever worked.
    ///
    /// # Refusals
    ///
    /// The first that applies, in this order, as for `add`: `WrongSeat`, `Empty` (no message waits), `OutOfMemory`.
    pub fn info_read<R: Wait>(&mut self, rt: &R) -> Result<InfoReply<O>, WrongSeat<()>>
        ensures stands { MatchResult result (λ r. Stands self.old self.new Call.InfoRead (reply_of_info O.code_of O.size_of r)) (λ _. self.new ≡ self.old) }
        ensures tells { IfOk result (λ r. Tells (tie_read O.origin r) self.new.ties) }
        ensures left { IfOk result (λ r. LeavesState O.code_of O.size_of self.old self.new (reply_of_info O.code_of O.size_of r) (moves_read r)) }
        ensures confirmed { OnOk result (self.new.confirmed ≡ length self.new.seen) }
        ensures right { OnErr result (FindsOther O.code_of O.size_of self.old) }
    {
        self.ask(rt, Reading)
    }

    /// Lets polls return (curl_multi_wakeup(3)).
    ///
    /// # Refusals
    ///
    /// The first that applies, in this order, as for `add`: `WrongSeat`, `Failure` (the history has no room), `OutOfMemory`.
    pub fn wakeup<R: Wait>(&mut self, rt: &R) -> Result<WakeupReply, WrongSeat<()>>
        ensures stands { MatchResult result (λ r. Stands self.old self.new Call.Wakeup (reply_of_wakeup r)) (λ _. self.new ≡ self.old) }
        ensures left { IfOk result (λ r. LeavesState O.code_of O.size_of self.old self.new (reply_of_wakeup r) moves_none) }
        ensures confirmed { OnOk result (self.new.confirmed ≡ length self.new.seen) }
        ensures right { OnErr result (FindsOther O.code_of O.size_of self.old) }
    {
        self.ask(rt, Waking)
    }

    /// Waits until there is a wake-up or an end at or after what the seat had seen at its last poll (curl_multi_poll(3)). It sleeps until
    /// there is one.
    ///
    /// No clause says that it leaves queue and endings as they were.
    pub fn poll<R: Wait>(&mut self, rt: &R) -> Result<(), WrongSeat<()>>
        ensures stands { MatchResult result (λ _. Stands self.old self.new Call.Poll Reply.Woken) (λ _. self.new ≡ self.old) }
        ensures confirmed { OnOk result (self.new.confirmed ≡ length self.new.seen) }
        ensures right { OnErr result (FindsOther O.code_of O.size_of self.old) }
    {
        let multi = self.multi();
        for _ in rt.forever() {
            // The count is read before the journal: an event that comes after the look is counted after the count was read, and ends the
            // wait.
            let heard = multi.heard(rt);
            match self.try_poll(rt) {
                Ok(true) => return Ok(()),
                Ok(false) => multi.wait_after(rt, heard),
                Err(wrong) => return Err(wrong),
            }
        }
        unreachable!()
    }

    // Polls once. False, and nothing changes, where no event of a journal that begins with what the seat has seen lets it return.
    fn try_poll<R: Wait>(&mut self, rt: &R) -> Result<bool, WrongSeat<()>>
        ensures polls { MatchResult result (λ woken. MatchBool woken (Stands self.old self.new Call.Poll Reply.Woken × (self.new.confirmed ≡ length self.new.seen)) (self.new ≡ self.old)) (λ _. self.new ≡ self.old) }
        ensures asleep { IfOk result (λ woken. OnFalse woken (FindsNoneReady O.code_of O.size_of self.old)) }
        ensures right { OnErr result (FindsOther O.code_of O.size_of self.old) }
    {
        self.multi.try_poll(rt, &mut self.seat)
    }

    /// As `poll`, but waits at most so many milliseconds: true where there was such a wake-up or end; false, and no call was made, where
    /// there was none when it last looked. No clause says that it waits, or no longer than that.
    pub fn poll_for<R: Wait + Clock>(
        &mut self,
        rt: &R,
        milliseconds: u32,
    ) -> Result<bool, WrongSeat<()>>
        ensures polls { MatchResult result (λ woken. MatchBool woken (Stands self.old self.new Call.Poll Reply.Woken × (self.new.confirmed ≡ length self.new.seen)) (self.new ≡ self.old)) (λ _. self.new ≡ self.old) }
        ensures asleep { IfOk result (λ woken. OnFalse woken (FindsNoneReady O.code_of O.size_of self.old)) }
        ensures right { OnErr result (FindsOther O.code_of O.size_of self.old) }
    {
        let multi = self.multi();
        let heard = multi.heard(rt);
        match self.try_poll(rt) {
            Ok(false) => {
                multi.wait_after_for(rt, heard, milliseconds);
                self.try_poll(rt)
            }
            answer => answer,
        }
    }

    /// The handles that are added, in order, by the version that was published last (curl_multi_get_handles(3)), with the
    /// number of events that the seat has then seen. It takes no lock and no memory. None, and nothing changes, where no version can be
    /// read.
    pub fn handles(&mut self) -> Option<HandleList>
        ensures { MatchOption result (self.new ≡ self.old) (λ r. Stands self.old self.new Call.Handles (Reply.Handles r.list) × (r.cut ≡ length self.new.seen)) }
    {
        let Some(answer) = self.seat.reader.handles() else {
            return None;
        };
        let cut = self.seat.reader.cut();
        let list = note_handles(&mut self.seat.mine, cut, answer);
        Some(HandleList { cut, list })
    }

    /// How many transfers run, paused ones too, by the version that was published last. It takes no lock and no memory.
    /// None, and nothing changes, where no version can be read.
    pub fn running(&mut self) -> Option<u32>
        ensures { MatchOption result (self.new ≡ self.old) (λ r. Stands self.old self.new Call.Running (Reply.Running r)) }
    {
        let Some(answer) = self.seat.reader.running() else {
            return None;
        };
        let cut = self.seat.reader.cut();
        note_receipt(
            &mut self.seat.mine,
            cut,
            Call::Running,
            Reply::Running(answer),
        );
        Some(answer)
    }

    /// The state of a handle, by the version that was published last. It takes no lock and no memory. None, and nothing
    /// changes, where no version can be read.
    pub fn state(&mut self, handle: HandleId) -> Option<State>
        ensures { MatchOption result (self.new ≡ self.old) (λ r. Stands self.old self.new (Call.State handle) (Reply.State r)) }
    {
        let Some(answer) = self.seat.reader.state(handle) else {
            return None;
        };
        let cut = self.seat.reader.cut();
        note_receipt(
            &mut self.seat.mine,
            cut,
            Call::State(handle),
            Reply::State(answer),
        );
        Some(answer)
    }

    /// How far a handle's transfer is, by the version that was published last and the word of its slot, which is no less
    /// than any that the seat has read there. It takes no lock and no memory. None, and nothing changes, where there is no
    /// version to be had.
    pub fn progress(&mut self, handle: HandleId) -> Option<Progress>
        ensures { MatchOption result (self.new ≡ self.old) (λ p. SeesVersion self.old self.new × IsProgress handle self.new.seen self.old.words self.new.words p) }
    {
        let multi = self.multi;
        let Some(found) = self.seat.reader.find(handle) else {
            return None;
        };
        let Some(found) = found else {
            return Some(Progress::NotAdded);
        };
        Some(read_word(&multi.words, &mut self.seat.notes, found))
    }

    /// Both seats, of one multi handle, see the journal. It answers how many events that has. `WrongSeat`, and nothing changes,
    /// where a seat isn't one of the multi handle's.
    ///
    /// No clause says that it leaves queue and endings as they were.
    pub fn meet<R: Wait>(
        &mut self,
        rt: &R,
        other: &mut Seated<'m, Application, Q, O>,
    ) -> Result<u32, WrongSeat<()>>
        requires own { other.old.of ≡ self.old.of }
        ensures meets { MatchResult result (λ n. Sees self.old self.new × Sees other.old other.new × (self.new.seen ≡ other.new.seen) × (n ≡ length self.new.seen)) (λ _. (self.new ≡ self.old) × (other.new ≡ other.old)) }
        ensures claims { (self.new.claims ≡ self.old.claims) × (other.new.claims ≡ other.old.claims) }
        ensures given { (self.new.given ≡ self.old.given) × (other.new.given ≡ other.old.given) }
        ensures right { OnErr result (FindsOther O.code_of O.size_of self.old ⊎ MeetsOther O.code_of O.size_of other.old) }
    {
        let met = self.multi.try_meet(rt, &mut self.seat, &mut other.seat);
        if met {
            return Ok(self.seat.cut());
        }
        Err(WrongSeat(()))
    }

    /// Makes a call that needs no work. None, and nothing changes, where it was answered `WrongSeat` or None, and where it is an
    /// addition or a worker's call. Of a message that is read the ending is dropped.
    pub fn make<R: Wait>(&mut self, rt: &R, call: Call) -> Option<Reply>
        ensures { MatchOption result (self.new ≡ self.old) (λ r. Stands self.old self.new call r) }
    {
        match call {
            Call::Remove(handle) => self.answered(rt, Removal(handle)),
            Call::Pause(handle) => self.answered(rt, pausing(handle)),
            Call::Unpause(handle) => self.answered(rt, resuming(handle)),
            Call::InfoRead => self.answered(rt, Reading),
            Call::Wakeup => self.answered(rt, Waking),
            Call::Poll => match self.poll(rt) {
                Ok(()) => Some(Reply::Woken),
                Err(_) => None,
            },
            _ => self.read(call),
        }
    }

    // rule multi-reads
    /// Makes a call that reads a published version, and waits for nothing. None, and nothing changes, where no version can be read, and
    /// where it is another call.
    pub fn read(&mut self, call: Call) -> Option<Reply>
        ensures { MatchOption result (self.new ≡ self.old) (λ r. Stands self.old self.new call r) }
    {
        match call {
            Call::Handles => match self.handles() {
                Some(handles) => Some(Reply::Handles(handles.list)),
                None => None,
            },
            Call::Running => match self.running() {
                Some(count) => Some(Reply::Running(count)),
                None => None,
            },
            Call::State(handle) => match self.state(handle) {
                Some(state) => Some(Reply::State(state)),
                None => None,
            },
            _ => None,
        }
    }

    // rule multi-scripts, unproved: A script is run to its end where each of its calls is answered.
    /// Makes the calls of a script, until one is answered None. It answers how many were made: their receipts, whose calls are those of the
    /// script, come after all that the seat had. No clause says that it makes any.
    pub fn run_script<R: Wait>(&mut self, rt: &R, script: &[Call]) -> usize
        ensures { RanScript self.old self.new (take result script.now) }
    {
        let mut made = 0;
        for call in script {
            let Some(_reply) = self.make(rt, *call) else {
                return made;
            };
            made += 1;
        }
        made
    }
}

impl<'m, Q: Work + Drop, O: Ending + Drop> Seated<'m, AtWork, Q, O> {
    // rule multi-least-ticket
    /// Takes the work of the lowest ticket in the queue, which then runs as this worker's seat has seen; its claim has the
    /// handle and the slot of that addition, and is of its request. None where the queue is empty, which the seat has then seen
    /// too, or where the seat isn't one of this multi handle's, and nothing changes.
    pub fn claim<R: Wait>(&mut self, rt: &R) -> Option<(TiedClaim<Q>, Q)>
        ensures sees { MatchOption result ((self.new ≡ self.old) ⊎ Sees self.old self.new) (λ r. Sees self.old self.new) }
        ensures claims { MatchOption result (self.new.claims ≡ self.old.claims) (λ r. self.new.claims ≡ self.old.claims ++ r.0.ticket ∷ []) }
        ensures given { self.new.given ≡ self.old.given }
        ensures runs { IfSome result (λ r. has_ticket r.0.ticket (running self.new.seen) ≡ true) }
        ensures origin { IfSome result (λ r. r.0.origin ≡ Q.origin r.1) }
        ensures own { IfSome result (λ r. r.0.of ≡ self.new.of.engine.ties) }
        ensures request { IfSome result (λ r. Has self.new.ties (tie r.0.ticket r.0.origin)) }
        ensures handle { IfSome result (λ r. handle_of r.0.ticket self.new.seen ≡ Some r.0.handle) }
        ensures slot { IfSome result (λ r. slot_of r.0.ticket self.new.seen ≡ Some r.0.slot) }
        ensures queue { MatchOption result ((self.new ≡ self.old) ⊎ ClaimsNothing O.code_of O.size_of self.new) (λ r. ClaimsLeast O.code_of O.size_of self.new r.0.ticket r.1) }
        ensures right { IfNone result (((self.new ≡ self.old) × FindsOther O.code_of O.size_of self.old) ⊎ (Sees self.old self.new × ClaimsNothing O.code_of O.size_of self.new)) }
        ensures of { self.new.of ≡ self.old.of }
    {
        let multi = self.multi;
        let mut taken = match multi.lock.enter(rt, &mut self.seat.key, &self.seat.reader) {
            Ok(taken) => taken,
            Err(_found) => return None,
        };
        let found = taken.engine();
        // proof: what holds of the engine that was found, and of its journal
        let _known = found.know();
        let _cut = found.len();
        let claimed = taken.claim();
        let left = taken.engine();
        // proof: what holds of the engine that is left
        let _left = left.know();
        multi.lock.leave(
            rt,
            &mut self.seat.key,
            taken,
            &mut self.seat.reader,
            &mut self.seat.ties,
        );
        let Some(claimed) = claimed else {
            return None;
        };
        Some(claimed)
    }

    /// What a worker sees of a ticket, by the version that was published last. It takes no lock and no memory. None, and
    /// nothing changes, where no version can be read.
    pub fn look(&mut self, ticket: Ticket) -> Option<Look>
        ensures { MatchOption result (self.new ≡ self.old) (λ r. Stands self.old self.new (Call.Look ticket) (Reply.Look r)) }
    {
        let Some(answer) = self.seat.reader.look(ticket) else {
            return None;
        };
        let cut = self.seat.reader.cut();
        note_receipt(
            &mut self.seat.mine,
            cut,
            Call::Look(ticket),
            Reply::Look(answer),
        );
        Some(answer)
    }

    /// Notes that a claimed transfer has received so many bytes of its response. Where a greater word was noted for its slot,
    /// of a newer ticket or a greater count, that stays. It takes no lock and no memory.
    pub fn note(&mut self, claim: &TiedClaim<Q>, count: u32)
        ensures { self.new ≡ noted_by self.old claim.now.slot claim.now.ticket count }
    {
        let multi = self.multi;
        multi
            .words
            .note(&mut self.seat.notes, claim.slot(), claim.ticket(), count)
    }

    /// Records the end of a claimed transfer, with a claim that this multi handle gave. What isn't recorded comes back.
    ///
    /// # Refusals
    ///
    /// The first that applies, in this order. After all but the first the seat has seen the journal that the call found:
    ///
    /// - `WrongSeat`: the journal in the lock doesn't begin with what the seat has seen, though it does with what is confirmed of that; the
    ///   seat stays as it was, and claim and ending are handed back;
    /// - `Stale`: the claimed addition was removed, or has ended; the ending is handed back, and the claim is spent;
    /// - `OutOfMemory`: memory for the event was refused; claim and ending are handed back.
    pub fn finish<R: Wait>(
        &mut self,
        rt: &R,
        claim: TiedClaim<Q>,
        ending: O,
    ) -> Result<FinishReply<TiedClaim<Q>, O>, WrongSeat<(TiedClaim<Q>, O)>>
        requires claim { claim.of ≡ self.old.of.engine.ties }
        requires origin { O.origin ending ≡ claim.origin }
        ensures stands { MatchResult result (λ r. Stands self.old self.new (Call.Finish claim.ticket (O.code_of ending) (O.size_of ending)) (reply_of_finish r)) (λ w. (self.new ≡ self.old) × (w.0 ≡ (claim, ending))) }
        ensures back { IfOk result (λ r. IsHandedBack claim ending r) }
        ensures left { IfOk result (λ r. LeavesState O.code_of O.size_of self.old self.new (reply_of_finish r) (moves_recorded r claim.ticket ending)) }
        ensures confirmed { OnOk result (self.new.confirmed ≡ length self.new.seen) }
        ensures right { OnErr result (FindsOther O.code_of O.size_of self.old) }
    {
        let deed = Finishing { claim, ending };
        match self.multi.act(rt, &mut self.seat, deed) {
            Ok(reply) => Ok(reply),
            Err(WrongSeat(deed)) => Err(WrongSeat((deed.claim, deed.ending))),
        }
    }

    /// Gives claimed work back: to its place by ticket in the queue. `Stale` hands the work back, where the ticket doesn't run
    /// any more, or is queued. `WrongSeat` hands back claim and work, and nothing changes.
    pub fn give_back<R: Wait>(
        &mut self,
        rt: &R,
        claim: TiedClaim<Q>,
        work: Q,
    ) -> Result<GiveBackReply<Q>, WrongSeat<(TiedClaim<Q>, Q)>>
        requires claim { claim.of ≡ self.old.of.engine.ties }
        requires origin { Q.origin work ≡ claim.origin }
        ensures sees { MatchResult result (λ r. Sees self.old self.new) (λ w. (self.new ≡ self.old) × (w.0 ≡ (claim, work))) }
        ensures back { IfOk result (λ r. IsGivenBack work r) }
        ensures runs { IfOk result (λ r. is_back r ≡ true → has_ticket claim.ticket (running self.new.seen) ≡ true) }
        ensures queue { IfOk result (λ r. GivesBack O.code_of O.size_of self.new claim.ticket work r) }
        ensures claims { self.new.claims ≡ self.old.claims }
        ensures given { IfOk result (λ r. self.new.given ≡ given_with r claim.ticket self.old.given) }
        ensures right { OnErr result (FindsOther O.code_of O.size_of self.old) }
    {
        let multi = self.multi;
        let mut taken = match multi.lock.enter(rt, &mut self.seat.key, &self.seat.reader) {
            Ok(taken) => taken,
            Err(_found) => return Err(WrongSeat((claim, work))),
        };
        let found = taken.engine();
        // proof: what holds of the engine that was found, and of its journal
        let _known = found.know();
        let _cut = found.len();
        let ticket = claim.ticket();
        let reply = taken.give_back(claim, work);
        let left = taken.engine();
        // proof: what holds of the engine that is left
        let _left = left.know();
        multi.lock.leave(
            rt,
            &mut self.seat.key,
            taken,
            &mut self.seat.reader,
            &mut self.seat.ties,
        );
        note_given(&mut self.seat.given, ticket, &reply);
        Ok(reply)
    }
}
