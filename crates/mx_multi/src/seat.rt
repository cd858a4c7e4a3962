//! A caller's seat at a multi handle.
ghost use Rattle.std.specs.Prelude.{◌≡◌, ◌++◌, ◌∷◌, [], length, IfErr, IfOk};
ghost use Rattle.std.specs.List.{All};
ghost use Rattle.mx_types.specs.declared.call.Call.{Call};
ghost use Rattle.mx_types.specs.declared.reply.Reply.{Reply};
ghost use Rattle.mx_multi.specs.Retiring.{IsRefused, IsRetiredTo};
ghost use Rattle.mx_multi.specs.Seats.{HasReceipts, given_with};

use crate::founding::found;
use crate::multi::Multi;
use crate::open::Limits;
use crate::retire::{Handle, Refusal};
use mx_board::{BoardReader, NoteSeat};
use mx_journal::GiveBackReply;
use mx_lock::{Key, TieMark};
use mx_types::{AddedHandles, Call, Ending, History, Receipt, Reply, Ticket, Work};
use std::alloc::Global;
use std::marker::{Model, PhantomData};
use std::sync::Wait;

/// The role of an application's thread: it adds, removes, pauses and reads.
pub struct Application;

/// The role of a worker: it claims what was added, and ends it.
pub struct AtWork;

/// An application thread's seat.
pub type Seat<Q, O> = SeatOf<Application, Q, O>;

/// A worker's seat.
pub type WorkerSeat<Q, O> = SeatOf<AtWork, Q, O>;

/// How many events a history has, those that the last retiring kept among them, and the most that it may have.
#[derive(Clone, Copy, PartialEq, Eq)]
pub struct HistoryUse {
    pub events: u32,
    pub most: u32,
}

/// A thread's seat, in a role: its key to the lock, and what it has seen. Contracts see of which multi handle it is, whose
/// it is, the events that it has seen and how many of them are confirmed, how many they were at its last poll, the tickets
/// that it has claimed and those that it has given back, the progress words that it has noted and read, of which requests additions
/// are, as it was told under the lock, and the receipts of all its calls that were answered.
pub struct SeatOf<K, Q: Work + Drop, O: Ending + Drop> {
    pub(crate) role: PhantomData<K>,
    pub(crate) key: Key<Q, O>,
    pub(crate) reader: BoardReader,
    /// How many events it had seen at its last poll.
    pub(crate) polled: u32,
    /// Its right to the progress words.
    pub(crate) notes: NoteSeat,
    /// What its multi handle was opened with.
    pub(crate) limits: Limits,
    /// Of which requests additions are, for contracts alone: it has no size.
    pub(crate) ties: TieMark,
    /// The receipts of its answered calls, for contracts alone: it has no size.
    pub(crate) mine: History<Receipt>,
    /// The tickets that it has given back, for contracts alone: it has no size.
    pub(crate) given: History<Ticket>,
}

// Written out, and not derived: a crate that drops a seat cites its proof.
impl<K, Q: Work + Drop, O: Ending + Drop> Drop for SeatOf<K, Q, O> {
    fn drop(self) {
        let SeatOf {
            role: _,
            key,
            reader,
            polled: _,
            notes,
            limits: _,
            ties,
            mine,
            given,
        } = self;
        drop(key);
        drop(reader);
        drop(notes);
        drop(ties);
        drop(mine);
        drop(given);
    }
}

impl<K, Q: Work + Drop, O: Ending + Drop> Model for SeatOf<K, Q, O> {
    ghost use Rattle.std.specs.Prelude.{◌≡◌, []};
    ghost use Rattle.mx_lock.specs.Lock.{engine_of};
    ghost use Rattle.mx_multi.specs.Seats.{SeatView, HasReceipts, IsSeat};

    ghost Value = { SeatView Q O };

    ghost view = { λ s. record { of = record { table = s.key.table_id; keys = s.key.me.0.of; engine = engine_of s.key.me.0.client; words = s.notes.of; limits = s.limits }; who = s.reader.who; seen = s.reader.seen; confirmed = s.reader.confirmed; polled = s.polled; claims = s.key.me.0.client.claims; given = s.given; words = s.notes; ties = s.ties.entries; mine = s.mine } };

    ghost invariant = { λ s. IsSeat s.key.me.0.client s.reader × (s.key.me.1 ≡ []) × HasReceipts (record { of = record { table = s.key.table_id; keys = s.key.me.0.of; engine = engine_of s.key.me.0.client; words = s.notes.of; limits = s.limits }; who = s.reader.who; seen = s.reader.seen; confirmed = s.reader.confirmed; polled = s.polled; claims = s.key.me.0.client.claims; given = s.given; words = s.notes; ties = s.ties.entries; mine = s.mine }) × (s.ties.book ≡ (engine_of s.key.me.0.client).ties) };
}

impl<K, Q: Work + Drop, O: Ending + Drop> SeatOf<K, Q, O> {
    /// How many events the seat has seen.
    pub fn cut(&self) -> u32
        ensures { result ≡ length self.now.seen }
    {
        self.reader.cut()
    }

    /// How full the history was when the seat last saw it, and how much it holds: it looks at nothing.
    pub fn history(&self) -> HistoryUse
        ensures { (result.events ≡ length self.now.seen) × (result.most ≡ self.now.of.limits.history) }
    {
        HistoryUse {
            events: self.reader.cut(),
            most: self.limits.history,
        }
    }

    /// Each seat is placed: the receipts of all its calls are in what it has seen.
    pub fn is_placed(&self)
        ensures { HasReceipts self.now }
    {
        // proof: what holds of a seat
        let _ = &self.reader;
    }
}

impl<Q: Work + Drop, O: Ending + Drop> SeatOf<Application, Q, O> {
    // Retires its multi handle through this seat beside the others. A refusal hands it back. It is taken apart first: once the engine is
    // retired, its key isn't that of a seat, and can only be dropped by itself.
    pub(crate) fn retire_by<R: Wait>(
        self,
        rt: &R,
        alloc: Global,
        multi: &Multi<Q, O>,
        seats: &[Seat<Q, O>],
        workers: &[WorkerSeat<Q, O>],
    ) -> Result<Handle<Q, O>, (Refusal, Seat<Q, O>)>
        requires own { (self.of ≡ multi.now) × All (λ s. s.of ≡ multi.now) seats.now × All (λ s. s.of ≡ multi.now) workers.now }
        ensures retired { IfOk result (λ r. IsRetiredTo O.code_of O.size_of multi.now (seats.now ++ self ∷ []) workers.now r.0 r.1.items r.2.items) }
        ensures last { IfErr result (λ r. r.1 ≡ self) }
        ensures refused { IfErr result (λ r. IsRefused O.code_of O.size_of multi.now (seats.now ++ self ∷ []) workers.now r.0) }
    {
        let SeatOf {
            role,
            mut key,
            reader,
            polled,
            notes,
            limits,
            ties,
            mine,
            given,
        } = self;
        let taken = match multi.lock.enter(rt, &mut key, &reader) {
            Ok(taken) => taken,
            Err(_found) => {
                let last = SeatOf {
                    role,
                    key,
                    reader,
                    polled,
                    notes,
                    limits,
                    ties,
                    mine,
                    given,
                };
                return Err((Refusal::WrongSeat, last));
            }
        };
        let engine = taken.engine();
        // proof: what holds of the engine, and the seat's ties and its are of one list
        let _known = engine.know();
        ties.are_of_one_list(&engine.tie_mark());
        match multi.prepare(rt, alloc, engine, seats, workers) {
            Ok((rooms, log)) => {
                let retired = taken.retire(rt, log);
                drop(key);
                drop(reader);
                drop(notes);
                drop(ties);
                drop(mine);
                drop(given);
                Ok(found(rt, rooms, retired, multi.limits))
            }
            Err(why) => {
                multi.lock.put_back(rt, &mut key, taken);
                let last = SeatOf {
                    role,
                    key,
                    reader,
                    polled,
                    notes,
                    limits,
                    ties,
                    mine,
                    given,
                };
                Err((why, last))
            }
        }
    }
}

// Adds the receipt of an answered call after the others. It is for contracts alone: nothing of it is kept.
pub(crate) fn note_receipt(mine: &mut History<Receipt>, cut: u32, call: Call, reply: Reply)
    ensures { mine.new ≡ mine.old ++ record { cut = cut; call = call; reply = reply } ∷ [] }
{
    mine.note(Receipt { cut, call, reply })
}

// Adds the receipt of a list of handles after the others, as `note_receipt`, and hands the list back: it isn't copied.
pub(crate) fn note_handles(
    mine: &mut History<Receipt>,
    cut: u32,
    list: AddedHandles,
) -> AddedHandles
    ensures same { result ≡ list }
    ensures noted { mine.new ≡ mine.old ++ record { cut = cut; call = Call.Handles; reply = Reply.Handles result } ∷ [] }
{
    let receipt = Receipt {
        cut,
        call: Call::Handles,
        reply: Reply::Handles(list),
    };
    mine.show(&receipt);
    let Reply::Handles(list) = receipt.reply else {
        unreachable!()
    };
    list
}

// Adds a ticket to those that were given back, where its work went back. It is for contracts alone: nothing of it is kept.
pub(crate) fn note_given<Q: Drop>(
    given: &mut History<Ticket>,
    ticket: Ticket,
    reply: &GiveBackReply<Q>,
)
    ensures { given.new ≡ given_with reply.now ticket given.old }
{
    match reply {
        GiveBackReply::Back => given.note(ticket),
        GiveBackReply::Stale(_) => {}
    }
}
