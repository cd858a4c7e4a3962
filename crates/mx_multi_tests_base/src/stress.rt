//! Seats of one multi handle on many threads, and the same calls on one.
ghost use Rattle.std.specs.Prelude.{◌≡◌, ◌<◌, ℕ, length, slice_index_or, IfSome};
ghost use Rattle.std.specs.List.{All};

use crate::client::{Client, Worker};
use crate::entries::{Entry, Notes, Stop};
use crate::hold::Hold;
use crate::one_thread::OneThread;
use crate::party::{Chance, Party, Place, Task};
use crate::sample::{End, Job, SampleMulti};
use mx_multi::{Seat, WorkerSeat};
use mx_types::{OutOfMemory, Who};
use std::alloc::Global;
use std::sync::{Arc, Wait};
use std::thread::{Threads, for_each_mut};

/// How many threads there are at most, each with two seats and a worker's.
pub const THREADS: usize = 8;

/// The seats of a multi handle that no thread has.
#[derive(Drop)]
pub struct Pool<'a> {
    pub multi: &'a SampleMulti,
    pub seats: Vec<Seat<Job, End>>,
    pub workers: Vec<WorkerSeat<Job, End>>,
    pub ghost own: { All (λ s. s.of ≡ multi.now) seats.items × All (λ s. s.of ≡ multi.now) workers.items },
}

fn notes_of(alloc: Global, who: Who) -> Notes {
    Notes {
        alloc,
        who,
        entries: Vec::new(alloc),
    }
}

// The task of a worker's number.
fn task_of(tasks: &[Task], number: u8) -> Task {
    match tasks.get(usize::from(number)) {
        Some(task) => *task,
        None => Task::Nothing,
    }
}

// The numbers by chance of a worker's number.
fn chance_of(tasks: &[Task], number: u8) -> Chance {
    match task_of(tasks, number) {
        Task::Chance(seed, _) => Chance::new(seed.wrapping_add(u64::from(number))),
        _ => Chance::new(0),
    }
}

impl<'a> Pool<'a> {
    // The last seat with its handle.
    fn take(&mut self) -> Option<Client<'a>>
        ensures same { self.new.multi ≡ self.old.multi }
        ensures own { IfSome result (λ c. c.of ≡ self.old.multi.now) }
    {
        let seat = self.seats.pop()?;
        Some(self.multi.at(seat))
    }

    // The last worker's seat with its handle, and no claim yet.
    fn take_worker(&mut self, alloc: Global) -> Option<Worker<'a>>
        ensures same { self.new.multi ≡ self.old.multi }
        ensures own { IfSome result (λ w. w.seat.of ≡ self.old.multi.now) }
    {
        let seat = self.workers.pop()?;
        Some(Worker::new(alloc, self.multi.at(seat)))
    }

    // The last seat, numbered by how many are before it, and no call yet.
    fn take_place(&mut self, alloc: Global) -> Option<Place<'a>>
        ensures same { self.new.multi ≡ self.old.multi }
        ensures own { IfSome result (λ p. p.client.of ≡ self.old.multi.now) }
    {
        let client = self.take()?;
        let number = (self.seats.len() % 16) as u8;
        Some(Place {
            client,
            notes: notes_of(alloc, Who::Seat(number)),
        })
    }

    // The last two seats, the last but one first.
    fn take_places(&mut self, alloc: Global) -> Option<(Place<'a>, Place<'a>)>
        ensures same { self.new.multi ≡ self.old.multi }
        ensures own { IfSome result (λ p. (p.0.client.of ≡ self.old.multi.now) × (p.1.client.of ≡ self.old.multi.now)) }
    {
        let two = self.take_place(alloc)?;
        match self.take_place(alloc) {
            Some(one) => Some((one, two)),
            None => {
                drop(two);
                None
            }
        }
    }

    // The last two seats with the last worker's seat, which do the task of that worker's number. None where there are not so many.
    fn take_party(&mut self, alloc: Global, tasks: &[Task]) -> Option<Party<'a>>
        ensures same { self.new.multi ≡ self.old.multi }
        ensures own { IfSome result (λ p. p.one.client.of ≡ self.old.multi.now) }
    {
        let (one, two) = self.take_places(alloc)?;
        let Some(worker) = self.take_worker(alloc) else {
            drop(one);
            drop(two);
            return None;
        };
        let number = (self.workers.len() % 16) as u8;
        Some(Party {
            one,
            two,
            worker,
            notes: notes_of(alloc, Who::Worker(number)),
            chance: chance_of(tasks, number),
            task: task_of(tasks, number),
            stop: None,
        })
    }

    // Adds a seat after the others.
    fn put(&mut self, client: Client) -> Result<(), OutOfMemory>
        requires { client.of ≡ self.old.multi.now }
        ensures { self.new.multi ≡ self.old.multi }
    {
        self.seats.push(client.into_seat())?;
        Ok(())
    }

    // Adds a worker's seat after the others.
    fn put_worker(&mut self, worker: Worker) -> Result<(), OutOfMemory>
        requires { worker.seat.of ≡ self.old.multi.now }
        ensures { self.new.multi ≡ self.old.multi }
    {
        let Worker { seat, hand } = worker;
        drop(hand);
        self.workers.push(seat.into_seat())?;
        Ok(())
    }

    // Adds the seats of a thread after the others.
    fn put_seats(&mut self, one: Client, two: Client, worker: Worker) -> Result<(), OutOfMemory>
        requires own { (one.of ≡ self.old.multi.now) × (two.of ≡ self.old.multi.now) × (worker.seat.of ≡ self.old.multi.now) }
        ensures { self.new.multi ≡ self.old.multi }
    {
        let first = self.put(one);
        let second = self.put(two);
        let third = self.put_worker(worker);
        first?;
        second?;
        third
    }
}

/// The threads, each with its seats.
#[derive(Drop)]
struct Parties<'a> {
    multi: &'a SampleMulti,
    list: Vec<Party<'a>>,
    ghost own: { All (λ p. p.one.client.of ≡ multi.now) list.items },
}

// Adds a party after the others, which have seats of this multi handle.
fn keep_party<'a>(
    multi: &'a SampleMulti,
    party: Party<'a>,
    parties: &mut Vec<Party<'a>>,
) -> Result<(), OutOfMemory>
    requires own { (party.one.client.of ≡ multi.now) × All (λ p. p.one.client.of ≡ multi.now) parties.old.items }
    ensures own { All (λ p. p.one.client.of ≡ multi.now) parties.new.items }
{
    // For the prover alone.
    let _ = multi;
    parties.push(party)?;
    Ok(())
}

// Each party does its task, in a thread of its own.
fn run_parties<R: Threads + Wait + Sync>(rt: &R, parties: &mut [Party], hold: &Arc<Hold>)
    ensures count { length parties.new ≡ length parties.old }
    ensures each { (k : ℕ) (d : Party) → k < length parties.old → (slice_index_or parties.new k d).one.client.of ≡ (slice_index_or parties.old k d).one.client.of }
{
    for_each_mut(
        rt,
        parties,
        THREADS,
        &|_: usize, party: &mut Party|
            ensures { party.new.one.client.of ≡ party.old.one.client.of }
        { party.run(rt, hold) },
    );
}

impl<'a> Parties<'a> {
    // None yet.
    fn new(alloc: Global, multi: &'a SampleMulti) -> Parties<'a>
        ensures { result.multi.now ≡ multi.now }
    {
        Parties {
            multi,
            list: Vec::new(alloc),
        }
    }

    // A party for each task, as far as there are seats.
    fn fill(
        &mut self,
        alloc: Global,
        pool: &mut Pool<'a>,
        tasks: &[Task],
    ) -> Result<(), OutOfMemory>
        requires { self.old.multi.now ≡ pool.old.multi.now }
        ensures same { self.new.multi ≡ self.old.multi }
        ensures pool { pool.new.multi ≡ pool.old.multi }
    {
        for _ in 0..tasks.len() {
            match pool.take_party(alloc, tasks) {
                Some(party) => self.keep(party)?,
                None => return Ok(()),
            }
        }
        Ok(())
    }

    // Adds a party after the others.
    fn keep(&mut self, party: Party<'a>) -> Result<(), OutOfMemory>
        requires { party.one.client.of ≡ self.old.multi.now }
        ensures { self.new.multi ≡ self.old.multi }
    {
        keep_party(self.multi, party, &mut self.list)
    }

    fn run<R: Threads + Wait + Sync>(&mut self, rt: &R, hold: &Arc<Hold>)
        ensures { self.new.multi ≡ self.old.multi }
    {
        run_parties(rt, self.list.as_mut_slice(), hold);
    }

    // The last of them.
    fn take(&mut self) -> Option<Party<'a>>
        ensures same { self.new.multi ≡ self.old.multi }
        ensures own { IfSome result (λ p. p.one.client.of ≡ self.old.multi.now) }
    {
        let party = self.list.pop()?;
        Some(party)
    }

    // Takes all parties apart, or those up to one that stopped.
    fn take_all_apart(&mut self, pool: &mut Pool, all: &mut Vec<Entry>) -> Result<(), Stop>
        requires { self.old.multi.now ≡ pool.old.multi.now }
        ensures same { self.new.multi ≡ self.old.multi }
        ensures pool { pool.new.multi ≡ pool.old.multi }
    {
        for _ in 0..self.list.len() {
            match self.take() {
                Some(party) => take_apart(pool, party, all)?,
                None => return Ok(()),
            }
        }
        Ok(())
    }
}

// Moves the answers to a maker after the others'.
fn take_entries(notes: Notes, all: &mut Vec<Entry>) -> Result<(), OutOfMemory> {
    let mut notes = notes;
    all.append(&mut notes.entries)?;
    Ok(())
}

// Moves the answers to the makers of a party after the others', and puts their seats back.
fn take_apart(pool: &mut Pool, party: Party, all: &mut Vec<Entry>) -> Result<(), Stop>
    requires { party.one.client.of ≡ pool.old.multi.now }
    ensures { pool.new.multi ≡ pool.old.multi }
{
    let Party {
        one,
        two,
        worker,
        notes,
        stop,
        ..
    } = party;
    let first = take_entries(one.notes, all);
    let second = take_entries(two.notes, all);
    let third = take_entries(notes, all);
    pool.put_seats(one.client, two.client, worker)?;
    first?;
    second?;
    third?;
    match stop {
        Some(stop) => Err(stop),
        None => Ok(()),
    }
}

// Each thread does its task at seats of the pool. What was answered is noted after the others.
fn run_noted<'a, R: Threads + Wait + Sync>(
    rt: &R,
    alloc: Global,
    pool: &mut Pool<'a>,
    parties: &mut Parties<'a>,
    tasks: &[Task],
    hold: &Arc<Hold>,
    all: &mut Vec<Entry>,
) -> Result<(), Stop>
    requires { parties.old.multi.now ≡ pool.old.multi.now }
    ensures { pool.new.multi ≡ pool.old.multi }
{
    parties.fill(alloc, pool, tasks)?;
    parties.run(rt, hold);
    parties.take_all_apart(pool, all)
}

/// Each thread does its task at seats of the pool: what was answered, each maker's in its own order. All claimed work was given back then.
/// Where it stops, a thread did; seats may be missing then.
pub fn run<R: Threads + Wait + Sync>(
    rt: &R,
    alloc: Global,
    pool: &mut Pool,
    tasks: &[Task],
    hold: &Arc<Hold>,
) -> Result<Vec<Entry>, Stop>
    ensures { pool.new.multi ≡ pool.old.multi }
{
    let mut all = Vec::new(alloc);
    let mut parties = Parties::new(alloc, pool.multi);
    let noted = run_noted(rt, alloc, pool, &mut parties, tasks, hold, &mut all);
    drop(parties);
    match noted {
        Ok(()) => Ok(all),
        Err(stop) => Err(stop),
    }
}

// The key by which calls are ordered.
fn order_of(entry: &Entry) -> (u32, bool) {
    (entry.cut, !entry.makes_event)
}

/// Puts the calls into the order of their cuts, at equal cuts the call first that made the event, and makes them on one thread, after those
/// that it has made. The index of the first that differs there.
pub fn differs_from(
    alloc: Global,
    one: &mut OneThread,
    entries: &mut Vec<Entry>,
) -> Result<Option<usize>, OutOfMemory> {
    entries.sort_by_key(order_of)?;
    one.first_that_differs(alloc, entries.as_slice())
}
