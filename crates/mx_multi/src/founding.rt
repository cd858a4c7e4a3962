//! Opening a multi handle over an engine: all allocations come first, and after them nothing is refused.
ghost use Rattle.std.specs.Prelude.{◌≡◌, ◌≤◌, ◌+◌, [], length, false, true, vec_capacity, vec_len, IfOk};
ghost use Rattle.std.specs.List.{All};
ghost use Rattle.std.specs.VecDeque.{deque_len};
ghost use Rattle.crossbeam_channel.specs.Claims.{view};
ghost use Rattle.mx_board.specs.Progress.{new_seat};
ghost use Rattle.mx_lock.specs.Lock.{engine_of, founder_at, known_of, IsKeyOf};
ghost use Rattle.mx_multi.specs.Opening.{are_within, first_of, maker_of, AreNew, AreReaders, AreRooms, IsFounded};
ghost use Rattle.mx_types.specs.Limits.{most_seats};

use crate::multi::Multi;
use crate::open::Limits;
use crate::owned::OwnedMulti;
use crate::seat::{Application, AtWork, Seat, SeatOf, WorkerSeat};
use mx_board::{BoardReader, BoardWriter, JournalMark, NoteSeat, ProgressTable};
use mx_lock::{EmptyLock, Engine, Key, Lock, TieMark};
use mx_types::{Ending, History, MOST_SEATS, OutOfMemory, Who, Work};
use std::alloc::Global;
use std::collections::VecDeque;
use std::marker::PhantomData;
use std::sync::{Condvar, Mutex, Wait};

/// All memory that a multi handle takes beside its engine: a lock, progress words, a reader for each seat, and places for the seats.
#[derive(Drop)]
pub(crate) struct Rooms<Q: Work + Drop, O: Ending + Drop> {
    lock: EmptyLock<Q, O>,
    words: ProgressTable,
    notes: Vec<NoteSeat>,
    for_seats: VecDeque<BoardReader>,
    for_workers: VecDeque<BoardReader>,
    seats: Vec<Seat<Q, O>>,
    workers: Vec<WorkerSeat<Q, O>>,
}

fn maker(worker: bool, number: u8) -> Who
    ensures { result ≡ maker_of worker number }
{
    if worker {
        return Who::Worker(number);
    }
    Who::Seat(number)
}

// Readers for seats or workers, which have seen all that is published.
fn readers(
    alloc: Global,
    log: &mut BoardWriter,
    count: u8,
    worker: bool,
) -> Result<VecDeque<BoardReader>, OutOfMemory>
    requires few { count ≤ most_seats }
    requires published { log.old.published ≡ log.old.events }
    ensures same { log.new ≡ log.old }
    ensures readers { IfOk result (λ v. AreReaders worker 0 log.old.events log.old.book v.items × (deque_len v ≡ count)) }
{
    let mut readers = VecDeque::new(alloc);
    for number in 0..count {
        let Some(reader) = log.reader(maker(worker, number)) else {
            return Err(OutOfMemory);
        };
        readers.push_back(reader)?;
    }
    Ok(readers)
}

// Readers for the seats, and for the workers.
fn all_readers(
    alloc: Global,
    log: &mut BoardWriter,
    limits: Limits,
) -> Result<(VecDeque<BoardReader>, VecDeque<BoardReader>), OutOfMemory>
    requires within { are_within limits ≡ true }
    requires published { log.old.published ≡ log.old.events }
    ensures same { log.new ≡ log.old }
    ensures readers { IfOk result (λ r. AreReaders false 0 log.old.events log.old.book r.0.items × (deque_len r.0 ≡ limits.seats) × AreReaders true 0 log.old.events log.old.book r.1.items × (deque_len r.1 ≡ limits.workers)) }
{
    let for_seats = readers(alloc, log, limits.seats, false)?;
    let for_workers = readers(alloc, log, limits.workers, true)?;
    Ok((for_seats, for_workers))
}

// Places for the seats, and for the workers' seats.
fn seat_places<Q: Work + Drop, O: Ending + Drop>(
    alloc: Global,
    limits: Limits,
) -> Result<(Vec<Seat<Q, O>>, Vec<WorkerSeat<Q, O>>), OutOfMemory>
    ensures none { IfOk result (λ r. (r.0.items ≡ []) × (r.1.items ≡ [])) }
    ensures enough { IfOk result (λ r. (limits.seats ≤ vec_capacity r.0) × (limits.workers ≤ vec_capacity r.1)) }
{
    let seats = Vec::with_capacity(alloc, usize::from(limits.seats))?;
    let workers = Vec::with_capacity(alloc, usize::from(limits.workers))?;
    Ok((seats, workers))
}

/// Makes the rooms, with readers of this board.
///
/// # Errors
///
/// `OutOfMemory` where a growth is refused.
fn make_rooms<Q: Work + Drop, O: Ending + Drop>(
    alloc: Global,
    log: &mut BoardWriter,
    limits: Limits,
) -> Result<Rooms<Q, O>, OutOfMemory>
    requires within { are_within limits ≡ true }
    requires published { log.old.published ≡ log.old.events }
    ensures same { log.new ≡ log.old }
    ensures rooms { IfOk result (AreRooms limits log.old.events log.old.book) }
{
    // What is much to drop comes last.
    let (for_seats, for_workers) = all_readers(alloc, log, limits)?;
    let (words, notes) = ProgressTable::new(alloc, limits.seats + limits.workers)?;
    let (seats, workers) = seat_places(alloc, limits)?;
    let lock = EmptyLock::new(alloc)?;
    Ok(Rooms {
        lock,
        words,
        notes,
        for_seats,
        for_workers,
        seats,
        workers,
    })
}

/// The rooms, with readers of this board, beside it. Where a growth is refused the board is closed.
///
/// # Errors
///
/// `OutOfMemory` where a growth is refused.
pub(crate) fn rooms_by<Q: Work + Drop, O: Ending + Drop, R: Wait>(
    rt: &R,
    alloc: Global,
    log: BoardWriter,
    limits: Limits,
) -> Result<(Rooms<Q, O>, BoardWriter), OutOfMemory>
    requires within { are_within limits ≡ true }
    requires published { log.published ≡ log.events }
    ensures log { IfOk result (λ r. r.1 ≡ log) }
    ensures rooms { IfOk result (λ r. AreRooms limits log.events log.book r.0) }
{
    let mut log = log;
    match make_rooms(alloc, &mut log, limits) {
        Ok(rooms) => Ok((rooms, log)),
        Err(OutOfMemory) => {
            let _table = log.close(rt);
            Err(OutOfMemory)
        }
    }
}

// A seat for each reader, with the next keys.
fn seated<K, Q: Work + Drop, O: Ending + Drop>(
    lock: &Lock<Q, O>,
    founder: &mut Key<Q, O>,
    words: &ProgressTable,
    notes: &mut Vec<NoteSeat>,
    ties: &TieMark,
    from: u32,
    readers: VecDeque<BoardReader>,
    places: Vec<SeatOf<K, Q, O>>,
    worker: bool,
    limits: Limits,
) -> Vec<SeatOf<K, Q, O>>
    requires few { deque_len readers ≤ most_seats }
    requires own { IsKeyOf lock.now founder.old }
    requires founder { view founder.old ≡ founder_at (known_of (view founder.old)) (first_of worker) }
    requires readers { AreReaders worker 0 (view founder.old).seen (engine_of (view founder.old)).book readers.items }
    requires begun { (from ≡ (engine_of (view founder.old)).opening.from) × (from ≡ length (view founder.old).seen) }
    requires notes { All (λ s. s ≡ new_seat words.now) notes.old.items }
    requires enough { deque_len readers ≤ vec_len notes.old }
    requires places { (places.items ≡ []) × (deque_len readers ≤ vec_capacity places) }
    requires ties { ties.now.book ≡ (engine_of (view founder.old)).ties }
    ensures kept { IsKeyOf lock.now founder.new }
    ensures next { view founder.new ≡ founder_at (known_of (view founder.old)) (first_of worker + vec_len result) }
    ensures new { AreNew (record { table = lock.now.table; keys = lock.now.keys; engine = engine_of (view founder.old); words = words.now.id; limits = limits }) (view founder.old).seen ties.now.entries worker 0 result.items }
    ensures notes { All (λ s. s ≡ new_seat words.now) notes.new.items × (vec_len notes.new + vec_len result ≡ vec_len notes.old) }
    ensures all { vec_len result ≡ deque_len readers }
{
    let mut readers = readers;
    let mut seats = places;
    // proof: the seats' notes are of these words
    let _ = words;
    while let Some(reader) = readers.pop_front() {
        let key = lock.another(founder);
        let Some(own_notes) = notes.pop() else {
            unreachable!()
        };
        let given = History::new();
        seats.push_reserved(SeatOf {
            role: PhantomData,
            key,
            reader,
            polled: from,
            notes: own_notes,
            limits,
            ties: ties.again(),
            mine: History::new(),
            given,
        });
    }
    seats
}

// Drops keys, so that those of the workers come next.
fn skip<Q: Work + Drop, O: Ending + Drop>(lock: &Lock<Q, O>, founder: &mut Key<Q, O>, seats: u8)
    requires few { seats ≤ most_seats }
    requires own { IsKeyOf lock.now founder.old }
    requires founder { view founder.old ≡ founder_at (known_of (view founder.old)) (1 + seats) }
    ensures kept { IsKeyOf lock.now founder.new }
    ensures next { view founder.new ≡ founder_at (known_of (view founder.old)) 17 }
{
    for spare in seats..MOST_SEATS as u8 {
        // proof: the invariant counts by it
        let _ = spare;
        let _key = lock.another(founder);
    }
}

/// A multi handle over an engine whose journal the readers in the rooms have seen, with these limits, by its owner; its seats, and its
/// workers' seats.
pub(crate) fn found<Q: Work + Drop, O: Ending + Drop, R: Wait>(
    rt: &R,
    rooms: Rooms<Q, O>,
    engine: Engine<Q, O>,
    limits: Limits,
) -> (OwnedMulti<Q, O>, Vec<Seat<Q, O>>, Vec<WorkerSeat<Q, O>>)
    requires within { are_within limits ≡ true }
    requires history { engine.core.opening.history ≡ limits.history }
    requires begun { engine.core.opening.from ≡ length engine.core.journal }
    requires rooms { AreRooms limits engine.core.journal engine.book rooms }
    ensures { IsFounded limits engine result.0 result.1.items result.2.items }
{
    let Rooms {
        lock,
        words,
        mut notes,
        for_seats,
        for_workers,
        seats,
        workers,
    } = rooms;
    let start = engine.mark();
    let ties = engine.tie_mark();
    let first = engine.first();
    let from = engine.len();
    let (lock, mut founder) = lock.found(rt, engine);
    let seats = seated::<Application, Q, O>(
        &lock,
        &mut founder,
        &words,
        &mut notes,
        &ties,
        from,
        for_seats,
        seats,
        false,
        limits,
    );
    skip(&lock, &mut founder, limits.seats);
    let workers = seated::<AtWork, Q, O>(
        &lock,
        &mut founder,
        &words,
        &mut notes,
        &ties,
        from,
        for_workers,
        workers,
        true,
        limits,
    );
    let multi = Multi::of_parts(lock, start, ties, words, limits, first, from);
    let owned = OwnedMulti::with_key(multi, founder);
    (owned, seats, workers)
}

impl<Q: Work + Drop, O: Ending + Drop> Multi<Q, O> {
    // A multi handle of these parts.
    fn of_parts(
        lock: Lock<Q, O>,
        start: JournalMark,
        ties: TieMark,
        words: ProgressTable,
        limits: Limits,
        first: u32,
        from: u32,
    ) -> Multi<Q, O>
        requires { are_within limits ≡ true }
        ensures { result ≡ record { table = lock.table; keys = lock.keys; engine = record { book = start.book; opening = record { history = limits.history; first = first; from = from }; ties = ties.book }; words = words.id; limits = limits } }
    {
        Multi {
            lock,
            start,
            ties,
            words,
            limits,
            first,
            from,
            changes: Mutex::new(0),
            changed: Condvar::new(),
        }
    }
}
