//! Retiring old history: the multi handle goes on as it was, with room in its history.
ghost use Rattle.std.specs.Prelude.{◌⊎◌, ◌≡◌, ◌≤◌, ◌+◌, [], false, length, true, vec_capacity, vec_len, IfOk, MatchBool, MatchOption, MatchResult};
ghost use Rattle.std.specs.List.{All};
ghost use Rattle.std.specs.VecDeque.{deque_len};
ghost use Rattle.mx_append_log.specs.Log.{AreOfOneList};
ghost use Rattle.mx_board.specs.Progress.{new_seat};
ghost use Rattle.mx_journal.specs.History.{retire};
ghost use Rattle.mx_lock.specs.Engine.{content};
ghost use Rattle.mx_multi.specs.Opening.{AreRooms};
ghost use Rattle.mx_multi.specs.Retiring.{refusal_number, AllFind, AllToldOf, Hinders, IsRefused, IsRetiredTo, MatchRetiring, MayRetire, OneFindsOther};
ghost use Rattle.mx_multi.specs.Seats.{Finds, IsNoOlder};

use crate::founding::{Rooms, rooms_by};
use crate::multi::{Multi, fits};
use crate::owned::OwnedMulti;
use crate::seat::{Seat, SeatOf, WorkerSeat};
use mx_board::{BoardWriter, board_of};
use mx_journal::laws::retiring_keeps;
use mx_lock::Engine;
use mx_types::{Ending, OutOfMemory, Work};
use std::alloc::Global;
use std::sync::Wait;
use thiserror::Error;

/// Why a multi handle isn't retired: the first of these that holds.
#[derive(Clone, Copy, Debug, PartialEq, Eq, Error)]
pub enum Refusal {
    /// A seat has seen a journal that isn't the beginning of this one.
    #[error("a seat is of another multi handle")]
    WrongSeat,
    /// There are fewer seats, or fewer workers' seats, than `open` gave.
    #[error("a seat is missing")]
    SeatsMissing,
    /// A claim was made that hasn't come back.
    #[error("a claim hasn't come back")]
    ClaimOut,
    /// A growth was refused.
    #[error("out of memory")]
    OutOfMemory,
}

impl Refusal {
    /// The number of the refusal.
    pub fn number(self) -> u32
        ensures { result ≡ refusal_number self }
    {
        match self {
            Refusal::WrongSeat => 0,
            Refusal::SeatsMissing => 1,
            Refusal::ClaimOut => 2,
            Refusal::OutOfMemory => 3,
        }
    }
}

/// What a retiring answers: the handle with its seats anew, or why not, with what was handed in.
#[derive(Drop)]
pub enum Retiring<T> {
    Retired(T),
    Refused(Refusal, T),
}

/// A multi handle with its seats and its workers' seats.
pub type Handle<Q, O> = (OwnedMulti<Q, O>, Vec<Seat<Q, O>>, Vec<WorkerSeat<Q, O>>);

// Whether the journal begins with what the seat has seen, and has no event more of its own. The seat's list of ties and the engine's are
// prefixes of one.
pub(crate) fn finds<K, Q: Work + Drop, O: Ending + Drop, R: Wait>(
    rt: &R,
    found: &Engine<Q, O>,
    seat: &SeatOf<K, Q, O>,
) -> bool
    requires { seat.now.of.engine ≡ (content found.now).engine }
    ensures newer { IsNoOlder seat.now found.now.core.journal }
    ensures finds { MatchBool result (Finds seat.now found.now.core.journal) (Finds seat.now found.now.core.journal → ⊥) }
    ensures told { AreOfOneList seat.now.ties found.now.ties.entries }
{
    // proof: the seat's ties and the engine's are of one list
    seat.ties.are_of_one_list(&found.tie_mark());
    fits(rt, found, &seat.reader)
}

// Whether that holds of each of the seats.
fn all_find<K, Q: Work + Drop, O: Ending + Drop, R: Wait>(
    rt: &R,
    found: &Engine<Q, O>,
    seats: &[SeatOf<K, Q, O>],
) -> bool
    requires { All (λ s. s.of.engine ≡ (content found.now).engine) seats.now }
    ensures { MatchBool result (AllFind found.now.core.journal seats.now × AllToldOf found.now.ties.entries seats.now) (OneFindsOther found.now.core.journal seats.now) }
{
    for seat in seats {
        if !finds(rt, found, seat) {
            return false;
        }
    }
    true
}

// Whether that holds of each of the seats, and of each of the workers' seats.
pub(crate) fn both_find<Q: Work + Drop, O: Ending + Drop, R: Wait>(
    rt: &R,
    found: &Engine<Q, O>,
    seats: &[Seat<Q, O>],
    workers: &[WorkerSeat<Q, O>],
) -> bool
    requires { All (λ s. s.of.engine ≡ (content found.now).engine) seats.now × All (λ s. s.of.engine ≡ (content found.now).engine) workers.now }
    ensures { MatchBool result ((AllFind found.now.core.journal seats.now × AllToldOf found.now.ties.entries seats.now) × (AllFind found.now.core.journal workers.now × AllToldOf found.now.ties.entries workers.now)) (OneFindsOther found.now.core.journal seats.now ⊎ OneFindsOther found.now.core.journal workers.now) }
{
    if !all_find(rt, found, seats) {
        return false;
    }
    all_find(rt, found, workers)
}

impl<Q: Work + Drop, O: Ending + Drop> OwnedMulti<Q, O> {
    // rule multi-retire
    /// Retires old history: of the journal only the events of the handles that are added are kept, and the multi handle goes on with
    /// new seats, which have seen those. Handles, their work, their messages and pauses stay as they are. No ticket that
    /// was given is given again, and the list of requests goes on. Progress words, and the numbers of events that makers made, begin anew;
    /// a wake-up that no poll has seen is gone, also that of an unread message: read messages before the next poll.
    ///
    /// It takes all seats and workers' seats, so no call is under way: each `run_worker` has returned.
    ///
    /// # Refusals
    ///
    /// The first that applies, in this order; each hands everything back as it was:
    ///
    /// - `WrongSeat`: a seat has seen a journal that isn't the beginning of this one. Where there is no application's seat,
    ///   this isn't looked at;
    /// - `SeatsMissing`: there are fewer seats, or fewer workers' seats, than `open` gave;
    /// - `ClaimOut`: a claim was made that hasn't come back by `finish`, recorded or stale, or by `give_back`. One that was dropped blocks
    ///   retiring for good;
    /// - `OutOfMemory`: a growth was refused. All of them come before the first change.
    pub fn retire<R: Wait>(
        self,
        rt: &R,
        alloc: Global,
        seats: Vec<Seat<Q, O>>,
        workers: Vec<WorkerSeat<Q, O>>,
    ) -> Retiring<Handle<Q, O>>
        requires own { All (λ s. s.of ≡ self) seats.items × All (λ s. s.of ≡ self) workers.items }
        ensures { MatchRetiring result (λ r. IsRetiredTo O.code_of O.size_of self seats.items workers.items r.0 r.1.items r.2.items) (λ why r. (r.0 ≡ self) × (r.1.items ≡ seats.items) × (r.2.items ≡ workers.items) × IsRefused O.code_of O.size_of self seats.items workers.items why) }
    {
        let mut seats = seats;
        let Some(last) = seats.pop() else {
            return Retiring::Refused(Refusal::SeatsMissing, (self, seats, workers));
        };
        match last.retire_by(rt, alloc, self.shared(), &seats, &workers) {
            Ok(retired) => {
                // By calls, which are less to prove than drops at the end of the block.
                drop(seats);
                drop(workers);
                self.release();
                Retiring::Retired(retired)
            }
            Err((why, last)) => {
                seats.push_reserved(last);
                Retiring::Refused(why, (self, seats, workers))
            }
        }
    }
}

impl<Q: Work + Drop, O: Ending + Drop> Multi<Q, O> {
    // What blocks retiring, with one seat beside these; else all growths for it.
    pub(crate) fn prepare<R: Wait>(
        &self,
        rt: &R,
        alloc: Global,
        engine: &Engine<Q, O>,
        seats: &[Seat<Q, O>],
        workers: &[WorkerSeat<Q, O>],
    ) -> Result<(Rooms<Q, O>, BoardWriter), Refusal>
        requires engine { (content engine.now).engine ≡ self.now.engine }
        requires own { All (λ s. s.of ≡ self.now) seats.now × All (λ s. s.of ≡ self.now) workers.now }
        ensures may { MatchResult result (λ _. MayRetire engine.now self.now.limits seats.now workers.now) (λ why. Hinders engine.now self.now.limits seats.now workers.now why) }
        ensures log { IfOk result (λ r. (r.1.events ≡ retire engine.now.core.journal) × (r.1.published ≡ retire engine.now.core.journal)) }
        ensures rooms { IfOk result (λ r. AreRooms self.now.limits (retire engine.now.core.journal) r.1.book r.0) }
    {
        if let Some(why) = self.hinders(rt, engine, seats, workers) {
            return Err(why);
        }
        match self.grow(rt, alloc, engine) {
            Ok(grown) => Ok(grown),
            Err(OutOfMemory) => Err(Refusal::OutOfMemory),
        }
    }

    // rule multi-retire
    // What blocks retiring, with one seat beside these, refused memory aside.
    fn hinders<R: Wait>(
        &self,
        rt: &R,
        engine: &Engine<Q, O>,
        seats: &[Seat<Q, O>],
        workers: &[WorkerSeat<Q, O>],
    ) -> Option<Refusal>
        requires engine { (content engine.now).engine ≡ self.now.engine }
        requires own { All (λ s. s.of ≡ self.now) seats.now × All (λ s. s.of ≡ self.now) workers.now }
        ensures { MatchOption result (MayRetire engine.now self.now.limits seats.now workers.now) (λ why. Hinders engine.now self.now.limits seats.now workers.now why) }
    {
        if !both_find(rt, engine, seats, workers) {
            return Some(Refusal::WrongSeat);
        }
        if seats.len() + 1 < usize::from(self.limits.seats)
            || workers.len() < usize::from(self.limits.workers)
        {
            return Some(Refusal::SeatsMissing);
        }
        if engine.claim_out() {
            return Some(Refusal::ClaimOut);
        }
        None
    }

    // All growths of a retiring: a board of what is kept, and rooms with readers of it.
    fn grow<R: Wait>(
        &self,
        rt: &R,
        alloc: Global,
        engine: &Engine<Q, O>,
    ) -> Result<(Rooms<Q, O>, BoardWriter), OutOfMemory>
        requires engine { (content engine.now).engine ≡ self.now.engine }
        ensures log { IfOk result (λ r. (r.1.events ≡ retire engine.now.core.journal) × (r.1.published ≡ retire engine.now.core.journal)) }
        ensures rooms { IfOk result (λ r. AreRooms self.now.limits (retire engine.now.core.journal) r.1.book r.0) }
    {
        // proof: what holds of the engine, and what retiring keeps
        let _known = engine.know();
        retiring_keeps();
        let kept = engine.kept(alloc)?;
        let places = usize::from(self.limits.seats) + usize::from(self.limits.workers);
        let log = board_of(rt, alloc, places, &kept)?;
        rooms_by(rt, alloc, log, self.limits)
    }
}
