//! A multi handle with all its seats, which can be retired.
ghost use Rattle.std.specs.Prelude.{◌≡◌, IfSome};
ghost use Rattle.std.specs.List.{All};

use mx_journal::{FinishReply, GiveBackReply};
use mx_multi::{
    AtWork, HistoryUse, Limits, OpenError, OwnedMulti, Progress, Refusal, Retiring, Seat, SeatOf,
    Seated, WorkerSeat, run_two,
};
use mx_multi_tests_base::client::make;
use mx_multi_tests_base::entries::{Entry, Stop};
use mx_multi_tests_base::hand::Hand;
use mx_multi_tests_base::hold::Hold;
use mx_multi_tests_base::party::Task;
use mx_multi_tests_base::sample::{End, Job, SampleMulti};
use mx_multi_tests_base::stress;
use mx_multi_tests_base::stress::Pool;
use mx_types::{Call, HandleId, Look, OutOfMemory, Reply, Ticket};
use std::alloc::Global;
use std::mem::replace;
use std::sync::{Arc, Wait};
use std::thread::Threads;
use std::time::Clock;

/// A multi handle, all its seats and its workers' seats, and what the first worker has claimed.
pub struct Whole {
    pub multi: OwnedMulti<Job, End>,
    pub seats: Vec<Seat<Job, End>>,
    pub workers: Vec<WorkerSeat<Job, End>>,
    pub hand: Hand,
    pub ghost own: { All (λ s. s.of ≡ multi) seats.items × All (λ s. s.of ≡ multi) workers.items },
    pub ghost claims: { hand ≡ multi.engine.ties },
}

// Takes the last seat.
fn pop_at<K>(
    multi: &SampleMulti,
    seats: &mut Vec<SeatOf<K, Job, End>>,
) -> Option<SeatOf<K, Job, End>>
    requires { All (λ s. s.of ≡ multi.now) seats.old.items }
    ensures all { All (λ s. s.of ≡ multi.now) seats.new.items }
    ensures own { IfSome result (λ s. s.of ≡ multi.now) }
{
    let _ = multi;
    let seat = seats.pop()?;
    Some(seat)
}

// Puts a seat in the place of the one with this number, and answers that one; or answers the seat, where there are fewer.
fn replace_at<K>(
    multi: &SampleMulti,
    seats: &mut Vec<SeatOf<K, Job, End>>,
    number: usize,
    seat: SeatOf<K, Job, End>,
) -> SeatOf<K, Job, End>
    requires own { (seat.of ≡ multi.now) × All (λ s. s.of ≡ multi.now) seats.old.items }
    ensures all { All (λ s. s.of ≡ multi.now) seats.new.items }
    ensures own { result.of ≡ multi.now }
{
    let _ = multi;
    if number < seats.len() {
        return replace(&mut seats[number], seat);
    }
    seat
}

// Takes the seat with this number, the last one where there are fewer. Where it isn't the last, that has its place meanwhile. None where
// there is no seat.
fn take_at<'m, K>(
    multi: &'m SampleMulti,
    seats: &mut Vec<SeatOf<K, Job, End>>,
    number: usize,
) -> Option<Seated<'m, K, Job, End>>
    requires { All (λ s. s.of ≡ multi.now) seats.old.items }
    ensures all { All (λ s. s.of ≡ multi.now) seats.new.items }
    ensures own { IfSome result (λ s. s.of ≡ multi.now) }
{
    let last = pop_at(multi, seats)?;
    let seat = replace_at(multi, seats, number, last);
    Some(multi.at(seat))
}

// Puts a seat that `take_at` took back, at this number.
fn put_at<K>(
    multi: &SampleMulti,
    seats: &mut Vec<SeatOf<K, Job, End>>,
    number: usize,
    seat: Seated<'_, K, Job, End>,
) -> Result<(), OutOfMemory>
    requires own { (seat.of ≡ multi.now) × All (λ s. s.of ≡ multi.now) seats.old.items }
    ensures { All (λ s. s.of ≡ multi.now) seats.new.items }
{
    let last = replace_at(multi, seats, number, seat.into_seat());
    seats.push(last)?;
    Ok(())
}

// Gives the work of the last claim back at a worker's seat, as `Whole::give_back`.
fn give_back_at<R: Wait>(
    rt: &R,
    worker: &mut Seated<'_, AtWork, Job, End>,
    hand: &mut Hand,
) -> Option<bool>
    requires { hand.old ≡ worker.old.of.engine.ties }
    ensures of { worker.new.of ≡ worker.old.of }
    ensures hand { hand.new ≡ hand.old }
{
    let claim = hand.take()?;
    match worker.give_back(rt, claim, Job) {
        Ok(GiveBackReply::Back) => Some(true),
        Ok(GiveBackReply::Stale(_)) => Some(false),
        Err(_) => None,
    }
}

// Ends the transfer of the last claim at a worker's seat, as `Whole::finish`.
fn finish_at<R: Wait>(
    rt: &R,
    worker: &mut Seated<'_, AtWork, Job, End>,
    hand: &mut Hand,
    end: End,
) -> Option<Reply>
    requires { hand.old ≡ worker.old.of.engine.ties }
    ensures of { worker.new.of ≡ worker.old.of }
    ensures hand { hand.new ≡ hand.old }
{
    let claim = hand.take()?;
    match worker.finish(rt, claim, end) {
        Ok(FinishReply::OutOfMemory(claim, _)) => {
            let _kept = hand.keep(claim);
            Some(Reply::OutOfMemory)
        }
        Ok(FinishReply::Recorded) => Some(Reply::Recorded),
        Ok(FinishReply::Stale(_)) => Some(Reply::Stale),
        Err(_) => None,
    }
}

// Lets two seats meet: how many events both have then seen. None where it was answered `WrongSeat`, and where they have seen other numbers.
fn meet_both<R: Wait>(
    rt: &R,
    multi: &SampleMulti,
    one: Seat<Job, End>,
    two: Seat<Job, End>,
) -> (Seat<Job, End>, Seat<Job, End>, Option<u32>)
    requires { (one.of ≡ multi.now) × (two.of ≡ multi.now) }
    ensures { (result.0.of ≡ multi.now) × (result.1.of ≡ multi.now) }
{
    let mut one = multi.at(one);
    let mut two = multi.at(two);
    let met = one.meet(rt, &mut two).ok();
    let are_equal = met == Some(one.cut()) && met == Some(two.cut());
    let met = if are_equal { met } else { None };
    (one.into_seat(), two.into_seat(), met)
}

impl Whole {
    pub fn open<R: Wait>(rt: &R, alloc: Global, limits: Limits) -> Result<Whole, OpenError> {
        match SampleMulti::open(rt, alloc, limits) {
            Ok((multi, seats, workers)) => {
                let hand = Hand::new(alloc, multi.shared().first_ties());
                Ok(Whole {
                    multi,
                    seats,
                    workers,
                    hand,
                })
            }
            Err(error) => Err(error),
        }
    }

    /// Closes the multi handle.
    pub fn close<R: Wait>(self, rt: &R) {
        let Whole {
            multi,
            seats,
            workers,
            hand,
        } = self;
        drop(seats);
        drop(workers);
        drop(hand);
        multi.close(rt);
    }

    /// Makes a call at the seat with this number, an addition with this crate's work; None where there is no such seat, where it was
    /// answered `WrongSeat` or None, or where it is a worker's.
    pub fn make<R: Wait>(&mut self, rt: &R, number: usize, call: Call) -> Option<Reply>
        ensures { self.new.multi ≡ self.old.multi }
    {
        let mut client = take_at(self.multi.shared(), &mut self.seats, number)?;
        let reply = make(rt, &mut client, call);
        put_at(self.multi.shared(), &mut self.seats, number, client).ok()?;
        reply
    }

    /// Polls at the seat with this number, for so many milliseconds at most: whether the poll returned. None where there is no such seat,
    /// or where it was answered `WrongSeat`.
    pub fn poll_for<R: Wait + Clock>(
        &mut self,
        rt: &R,
        number: usize,
        milliseconds: u32,
    ) -> Option<bool>
        ensures { self.new.multi ≡ self.old.multi }
    {
        let mut client = take_at(self.multi.shared(), &mut self.seats, number)?;
        let woken = client.poll_for(rt, milliseconds).ok();
        put_at(self.multi.shared(), &mut self.seats, number, client).ok()?;
        woken
    }

    /// Takes the next work at the first worker's seat, and keeps the claim alone: its ticket.
    pub fn claim<R: Wait>(&mut self, rt: &R) -> Result<Option<Ticket>, OutOfMemory>
        ensures { self.new.multi ≡ self.old.multi }
    {
        let Some(mut worker) = take_at(self.multi.shared(), &mut self.workers, 0) else {
            return Ok(None);
        };
        let claimed = worker.claim(rt);
        put_at(self.multi.shared(), &mut self.workers, 0, worker)?;
        let Some((claim, _work)) = claimed else {
            return Ok(None);
        };
        let ticket = claim.ticket();
        self.hand.keep(claim)?;
        Ok(Some(ticket))
    }

    /// What the first worker sees of a ticket. None where there is no such seat, or no answer.
    pub fn look(&mut self, ticket: Ticket) -> Option<Look>
        ensures { self.new.multi ≡ self.old.multi }
    {
        let mut worker = take_at(self.multi.shared(), &mut self.workers, 0)?;
        let look = worker.look(ticket);
        put_at(self.multi.shared(), &mut self.workers, 0, worker).ok()?;
        look
    }

    /// The first worker notes so many bytes for its last claim. False where there is none.
    pub fn note(&mut self, count: u32) -> bool
        ensures { self.new.multi ≡ self.old.multi }
    {
        let Some(claim) = self.hand.claims().last() else {
            return false;
        };
        let Some(mut worker) = take_at(self.multi.shared(), &mut self.workers, 0) else {
            return false;
        };
        worker.note(claim, count);
        put_at(self.multi.shared(), &mut self.workers, 0, worker).is_ok()
    }

    /// The last seat reads the progress of a handle's transfer. None where there is no such seat, or no answer.
    pub fn progress(&mut self, handle: HandleId) -> Option<Progress>
        ensures { self.new.multi ≡ self.old.multi }
    {
        let seat = self.take_last()?;
        let mut client = self.multi.shared().at(seat);
        let progress = client.progress(handle);
        let seat = client.into_seat();
        self.put_last(seat).ok()?;
        progress
    }

    /// The last seat makes the calls of a script: how many, and how many events it has then seen. None where there is no such seat.
    pub fn run<R: Wait>(
        &mut self,
        rt: &R,
        calls: &[Call],
    ) -> Result<Option<(usize, u32)>, OutOfMemory>
        ensures { self.new.multi ≡ self.old.multi }
    {
        let Some(seat) = self.take_last() else {
            return Ok(None);
        };
        let mut client = self.multi.shared().at(seat);
        let made = client.run_script(rt, calls);
        let cut = client.cut();
        let seat = client.into_seat();
        self.put_last(seat)?;
        Ok(Some((made, cut)))
    }

    /// The last two seats meet: how many events both have then seen. None where there are no such seats, where it was answered
    /// `WrongSeat`, and where they have seen other numbers.
    pub fn meet_two<R: Wait>(&mut self, rt: &R) -> Result<Option<u32>, OutOfMemory>
        ensures { self.new.multi ≡ self.old.multi }
    {
        let Some(two) = self.take_last() else {
            return Ok(None);
        };
        let Some(one) = self.take_last() else {
            return Ok(None);
        };
        let (one, two, met) = meet_both(rt, self.multi.shared(), one, two);
        let first = self.put_last(one);
        let second = self.put_last(two);
        first?;
        second?;
        Ok(met)
    }

    /// Two threads make the calls of a script each, at the last two seats: how many each made, where they met, and how many events each
    /// seat has then seen.
    pub fn run_two<R: Threads + Wait + Sync>(
        &mut self,
        rt: &R,
        scripts: (&[Call], &[Call]),
    ) -> Result<Option<((usize, usize), [u32; 2])>, OutOfMemory>
        ensures { self.new.multi ≡ self.old.multi }
    {
        let Some(two) = self.take_last() else {
            return Ok(None);
        };
        let Some(one) = self.take_last() else {
            return Ok(None);
        };
        let (one, two, made) = run_two(rt, self.multi.shared(), one, scripts.0, two, scripts.1);
        let cuts = [one.cut(), two.cut()];
        let first = self.put_last(one);
        let second = self.put_last(two);
        first?;
        second?;
        match made {
            Some(made) => Ok(Some((made, cuts))),
            None => Ok(None),
        }
    }

    /// Gives the work of the last claim back: whether its ticket ran and was claimed. None where it was answered `WrongSeat`, or where
    /// there is no claim.
    pub fn give_back<R: Wait>(&mut self, rt: &R) -> Option<bool>
        ensures { self.new.multi ≡ self.old.multi }
    {
        let mut worker = take_at(self.multi.shared(), &mut self.workers, 0)?;
        let given = give_back_at(rt, &mut worker, &mut self.hand);
        put_at(self.multi.shared(), &mut self.workers, 0, worker).ok()?;
        given
    }

    /// Ends the transfer of the last claim; None where it was answered `WrongSeat`, or where there is no claim. A claim that comes back as
    /// memory was refused is kept again, where there is memory for that.
    pub fn finish<R: Wait>(&mut self, rt: &R, end: End) -> Option<Reply>
        ensures { self.new.multi ≡ self.old.multi }
    {
        let mut worker = take_at(self.multi.shared(), &mut self.workers, 0)?;
        let reply = finish_at(rt, &mut worker, &mut self.hand, end);
        put_at(self.multi.shared(), &mut self.workers, 0, worker).ok()?;
        reply
    }

    /// How many events the seat with this number has seen; None where there is no such seat.
    pub fn cut(&self, number: usize) -> Option<u32> {
        Some(self.seats.get(number)?.cut())
    }

    /// How many events the first worker's seat has seen; None where there is no such seat.
    pub fn worker_cut(&self) -> Option<u32> {
        Some(self.workers.first()?.cut())
    }

    /// How full the history was when the seat with this number last saw it; None where there is no such seat.
    pub fn history(&self, number: usize) -> Option<HistoryUse> {
        Some(self.seats.get(number)?.history())
    }

    /// Whether each seat and each worker's seat has seen so many events.
    pub fn have_all_seen(&self, events: u32) -> bool {
        for seat in &self.seats {
            if seat.cut() != events {
                return false;
            }
        }
        for seat in &self.workers {
            if seat.cut() != events {
                return false;
            }
        }
        true
    }

    /// Lets all seats see one journal: how many events it has. None where there is no seat, or where it was answered `WrongSeat`.
    pub fn meet_all<R: Wait>(&mut self, rt: &R) -> Option<u32>
        ensures { self.new.multi ≡ self.old.multi }
    {
        if self.seats.is_empty() {
            return None;
        }
        let Ok(events) = self
            .multi
            .shared()
            .meet_all(rt, self.seats.as_mut_slice(), self.workers.as_mut_slice())
        else {
            return None;
        };
        Some(events)
    }

    /// Retires the multi handle; or why not, and then all is as it was. Once it is retired, there is no claim of the first worker.
    pub fn retire<R: Wait>(self, rt: &R, alloc: Global) -> (Whole, Option<Refusal>)
        ensures { IfSome result.1 (λ _. result.0.multi ≡ self.multi) }
    {
        let Whole {
            multi,
            seats,
            workers,
            hand,
        } = self;
        match multi.retire(rt, alloc, seats, workers) {
            Retiring::Retired((multi, seats, workers)) => {
                let hand = Hand::new(alloc, multi.shared().first_ties());
                let whole = Whole {
                    multi,
                    seats,
                    workers,
                    hand,
                };
                (whole, None)
            }
            Retiring::Refused(why, (multi, seats, workers)) => {
                let whole = Whole {
                    multi,
                    seats,
                    workers,
                    hand,
                };
                (whole, Some(why))
            }
        }
    }

    // The last seat, which is then missing.
    fn take_last(&mut self) -> Option<Seat<Job, End>>
        ensures same { self.new.multi ≡ self.old.multi }
        ensures own { IfSome result (λ s. s.of ≡ self.old.multi) }
    {
        let seat = self.seats.pop()?;
        Some(seat)
    }

    // Adds a seat after the others.
    fn put_last(&mut self, seat: Seat<Job, End>) -> Result<(), OutOfMemory>
        requires { seat.of ≡ self.old.multi }
        ensures { self.new.multi ≡ self.old.multi }
    {
        self.seats.push(seat)?;
        Ok(())
    }

    /// Threads do their tasks at the seats, as `stress::run`.
    pub fn beside<R: Threads + Wait + Sync>(
        self,
        rt: &R,
        alloc: Global,
        tasks: &[Task],
        hold: &Arc<Hold>,
    ) -> (Whole, Result<Vec<Entry>, Stop>) {
        let Whole {
            multi,
            seats,
            workers,
            hand,
        } = self;
        let mut pool = Pool {
            multi: multi.shared(),
            seats,
            workers,
        };
        let told = stress::run(rt, alloc, &mut pool, tasks, hold);
        let Pool { seats, workers, .. } = pool;
        let whole = Whole {
            multi,
            seats,
            workers,
            hand,
        };
        (whole, told)
    }

    /// The same without the last seat. Where nothing was retired, that seat is put back; where memory for it is refused, it is dropped, and
    /// the answer is `OutOfMemory`.
    pub fn retire_without_last<R: Wait>(self, rt: &R, alloc: Global) -> (Whole, Option<Refusal>) {
        let mut whole = self;
        let held = whole.take_last();
        let (mut whole, refused) = whole.retire(rt, alloc);
        if refused.is_some()
            && let Some(seat) = held
            && whole.put_last(seat).is_err()
        {
            return (whole, Some(Refusal::OutOfMemory));
        }
        (whole, refused)
    }
}
