//! The requests that were added at a seat, or at two, and what they ended with.
ghost use Rattle.std.specs.Prelude.{◌≡◌, ◌⊎◌, ◌^◌, [], ◌<◌, ◌≤◌, false, All, count_by, length, slice_set, is_some, None, Some, IfErr, IfNone, IfOk, IfSome, MatchOption, OnOk, slice_get, ◌↔◌, IsTrue, OnErr};
ghost use Rattle.mx_types.specs.declared.call.Call.{Call};
ghost use Rattle.mx_types.specs.declared.reply.Reply.{Reply};
ghost use Rattle.mx_request.specs.Request.{request_origin};
ghost use Rattle.mx_lock.specs.Ties.{Has, tie};
ghost use Rattle.mx_desk.specs.Adding.{HandsBack, IfMade, MatchAdding};
ghost use Rattle.mx_desk.specs.Additions.{AreAtFirst, IsTold, awaits_at};
ghost use Rattle.mx_multi.specs.Seats.{Stands};
ghost use Rattle.mx_desk.specs.Calls.{AtLast, IsRefused, handle_at};
ghost use Rattle.mx_desk.specs.Desks.{HasRoom, IsNewDesk};
ghost use Rattle.mx_desk.specs.Ties.{AreLater, ties_at, ties_of};
ghost use Rattle.mx_run_io.specs.declared.stop.Stop.TheVariants as stop;

use crate::adding::Adding;
use crate::addition::Addition;
use crate::seats::{Seats, Told};
use mx_chain::Outcome;
use mx_link::Link;
use mx_multi::{Application, Seated};
use mx_request::Request;
use mx_request::laws::origin_is_whole_request;
use mx_run_io::Stop;
use mx_sink::{Delivery, Held};
use mx_transfer_core::Queued;
use mx_types::{HandleId, OutOfMemory, Ticket};
use std::alloc::{AllocGlobal, Global};
use std::marker::Model;
use std::rt::Clock;
use std::sync::Wait;

/// A request that has ended: the number under which it was added, the ticket of its addition, and what its transfer ended with.
#[derive(Drop)]
pub struct Ended<D: Delivery = Held> {
    pub at: usize,
    pub ticket: Ticket,
    pub outcome: Outcome<D>,
}

// Whether the end of this ticket's addition, which was made at that seat, is awaited under that number.
fn awaits(additions: &[Option<Addition>], at: usize, ticket: Ticket, is_beside: bool) -> bool
    ensures { result ≡ awaits_at additions.now at ticket is_beside }
{
    match additions.get(at) {
        Some(Some(addition)) => addition.is_of(ticket, is_beside),
        _ => false,
    }
}

// The handle of a number under which nothing is added, if there is that number.
fn free_handle(additions: &[Option<Addition>], at: usize) -> Option<HandleId>
    ensures { MatchOption result ((slice_get additions.now at ≡ Some None → ⊥) ⊎ (2 ^ 32 ≤ at)) (λ handle. (slice_get additions.now at ≡ Some None) × (handle ≡ handle_at at)) }
{
    let Some(None) = additions.get(at) else {
        return None;
    };
    match u32::try_from(at) {
        Ok(handle) => Some(HandleId(handle)),
        Err(_) => None,
    }
}

// So many numbers, under which nothing is added.
fn none_added(alloc: Global, count: usize) -> Result<Vec<Option<Addition>>, OutOfMemory>
    ensures none { IfOk result (λ v. All (λ o. o ≡ None) v.items) }
    ensures count { IfOk result (λ v. length v.items ≡ count) }
{
    let mut additions = Vec::with_capacity(alloc, count)?;
    for made in 0..count {
        // proof: the invariant counts by it
        let _ = made;
        additions.push_reserved(None);
    }
    Ok(additions)
}

// Whether an addition was made at the seat beside the first one.
fn is_any_beside(additions: &[Option<Addition>]) -> bool
    ensures { result ≡ false → AreAtFirst additions.now }
{
    for addition in additions {
        if let Some(addition) = addition {
            if addition.is_beside() {
                return true;
            }
        }
    }
    false
}

// Puts an addition, or none, under one of the numbers, in place of what is there.
fn put(additions: &mut Vec<Option<Addition>>, at: usize, addition: Option<Addition>)
    requires { at < length additions.old.items }
    ensures { additions.new.items ≡ slice_set additions.old.items at addition }
{
    additions[at] = addition;
}

// Adds a request under a number, under which nothing is added, at the seat that came last, if its multi handle takes one more. It owns no desk,
// so its exits restore none.
fn add_at<L: Link, D: Delivery, R: Wait + AllocGlobal>(
    rt: &R,
    seats: &mut Seats<'_, '_, L, D>,
    additions: &[Option<Addition>],
    at: usize,
    request: Request,
    delivery: D,
) -> Adding<Addition, D>
    requires { D.handed delivery ≡ [] }
    ensures free { IfMade result (λ _. slice_get additions.now at ≡ Some None) }
    ensures request { IfMade result (λ a. a.request ≡ request) }
    ensures told { IfMade result (λ a. IsTold (ties_at (ties_of seats.new) a.beside) a) }
    ensures place { IfMade result (λ a. a.beside ≡ is_some seats.old.beside) }
    ensures stands { IfMade result (λ a. AtLast (λ s t. Stands s t (Call.Add (handle_at at)) (Reply.Added a.ticket)) seats.old seats.new) }
    ensures none { MatchAdding result (λ _. Unit {0}) ((((slice_get additions.now at ≡ Some None → ⊥) ⊎ (2 ^ 32 ≤ at)) × (seats.new ≡ seats.old)) ⊎ AtLast (IsRefused (handle_at at)) seats.old seats.new) (Unit {0}) }
    ensures back { HandsBack D.handed request result }
    ensures later { AreLater (ties_of seats.old) (ties_of seats.new) }
{
    match free_handle(additions, at) {
        Some(handle) => seats.add(rt, handle, request, delivery),
        None => Adding::Refused(request, delivery),
    }
}

// How many bytes all added transfers have received, as far as that is known.
fn all_that_came<L: Link, D: Delivery>(
    seats: &mut Seats<'_, '_, L, D>,
    additions: &[Option<Addition>],
) -> u64
    ensures ties { ties_of seats.new ≡ ties_of seats.old }
{
    let mut sum = 0u64;
    for (at, addition) in additions.iter().enumerate() {
        if let Some(addition) = addition {
            sum = sum.saturating_add(seats.came(addition.is_beside(), at));
        }
    }
    sum
}

/// An application's seat, perhaps with one at another multi handle beside it, and the requests that were added at them, each under a number
/// of the caller's own, which is the number of its handle. Contracts see the seats, the addition under each number and its request, how many
/// may be added at a time, and whether the multi handle of the seat that came last takes no more.
pub struct Desk<'e, 'm, L: Link, D: Delivery = Held> {
    seats: Seats<'e, 'm, L, D>,
    additions: Vec<Option<Addition>>,
    waiting: usize,
    // How many of these were added at the seat beside the first one.
    beside: usize,
    width: usize,
    is_full: bool,
}

// Written out, and not derived: a crate that drops a desk cites its proof.
impl<'e, 'm, L: Link, D: Delivery> Drop for Desk<'e, 'm, L, D> {
    fn drop(self) {
        let Desk {
            seats,
            additions,
            waiting: _,
            beside: _,
            width: _,
            is_full: _,
        } = self;
        drop(seats);
        drop(additions);
    }
}

impl<'e, 'm, L: Link, D: Delivery> Model for Desk<'e, 'm, L, D> {
    ghost use Rattle.std.specs.Prelude.{map};
    ghost use Rattle.mx_chain.specs.Chains.{ChainState};
    ghost use Rattle.mx_desk.specs.Desks.{DeskValue, IsDesk, asked_at};
    ghost use Rattle.mx_desk.specs.Ties.{ties_of};

    ghost Value = { DeskValue (ChainState L) };

    ghost view = { λ d. record { seats = d.seats; added = d.additions.items; asked = map asked_at d.additions.items; width = d.width; full = d.is_full } };

    ghost invariant = { λ d. IsDesk (ties_of d.seats) d.additions.items d.width d.waiting };
}

impl<'e, 'm, L: Link, D: Delivery> Desk<'e, 'm, L, D> {
    ghost use Rattle.mx_desk.specs.Calls.{AtSeat, FreesAt, ReadsMessage, Wait};
    ghost use Rattle.mx_desk.specs.Desks.{Adds, AddsNone, Ends, IsBeside, StandsAdded, Stays, TakesEnd, TakesOut};

    /// Nothing is added. There are so many numbers, from 0 on, and at most `width` requests are added at a time. An error drops the seat.
    pub fn new(
        alloc: Global,
        seat: Seated<'e, Application, Queued<L, D>, Outcome<D>>,
        count: usize,
        width: usize,
    ) -> Result<Desk<'e, 'm, L, D>, OutOfMemory>
        ensures { IfOk result (IsNewDesk seat.entry count width) }
    {
        match none_added(alloc, count) {
            Ok(additions) => Ok(Desk {
                seats: Seats::new(seat),
                additions,
                waiting: 0,
                beside: 0,
                width,
                is_full: false,
            }),
            Err(error) => {
                drop(seat);
                Err(error)
            }
        }
    }

    // rule save-long-runs
    /// The desk with this seat beside its first one, or with none, in place of the one that is there: what is added is as it was. Requests
    /// are added at the new seat then; with none no more is added, as the multi handle of the first seat took no more. None comes back, and
    /// the desk is dropped, where a request is still added at the seat that is there.
    pub fn with_beside<'n>(
        self,
        seat: Option<Seated<'n, Application, Queued<L, D>, Outcome<D>>>,
    ) -> Option<Desk<'e, 'n, L, D>>
        ensures stays { IfSome result (Stays self.entry) }
        ensures beside { IfSome result (IsBeside self.entry seat.entry) }
    {
        let Desk {
            seats,
            additions,
            waiting,
            beside: _,
            width,
            is_full: _,
        } = self;
        if is_any_beside(additions.as_slice()) {
            drop(seats);
            drop(additions);
            drop(seat);
            return None;
        }
        let is_full = seat.is_none();
        Some(Desk {
            seats: seats.with(seat),
            additions,
            waiting,
            beside: 0,
            width,
            is_full,
        })
    }

    /// Whether nothing is added.
    pub fn is_empty(&self) -> bool
        ensures { IsTrue result ↔ (count_by is_some self.now.asked ≡ 0) }
    {
        self.waiting == 0
    }

    /// Whether nothing is added at the seat that came last. No clause says so.
    pub fn is_idle(&self) -> bool {
        if self.seats.are_two() {
            self.beside == 0
        } else {
            self.is_empty()
        }
    }

    /// Whether one more request may be added.
    pub fn has_room(&self) -> bool
        ensures { IsTrue result ↔ HasRoom self.now }
    {
        self.waiting < self.width
    }

    /// How many requests are added.
    pub fn len(&self) -> usize
        ensures { result ≡ count_by is_some self.now.asked }
    {
        self.waiting
    }

    /// How many bytes the added transfers have received, as far as that is known.
    pub fn arrived(&mut self) -> u64
        ensures stays { Stays self.old self.new }
        ensures added { (self.new.added ≡ self.old.added) × (self.new.full ≡ self.old.full) }
    {
        all_that_came(&mut self.seats, self.additions.as_slice())
    }

    /// Whether an addition was refused at the seat that came last, for another reason than memory: its multi handle takes no more.
    pub fn is_full(&self) -> bool
        ensures { result ≡ self.now.full }
    {
        self.is_full
    }

    // rule save-requests
    /// Adds a request, with its delivery, which has no content yet, under a number, under which nothing is added, at the seat that came last.
    /// Its ticket comes back. It is refused where the multi handle takes no more, since its history has no room, or there is no such number, or
    /// something is added under it, and where memory is refused: then what is added is as it was, and the request and its delivery come back.
    pub fn add<R: Wait + AllocGlobal>(
        &mut self,
        rt: &R,
        at: usize,
        request: Request,
        delivery: D,
    ) -> Adding<Ticket, D>
        requires room { HasRoom self.old }
        requires none { D.handed delivery ≡ [] }
        ensures added { MatchAdding result (λ _. Adds self.old self.new at request) (Stays self.old self.new) (Stays self.old self.new) }
        ensures stands { MatchAdding result (λ ticket. StandsAdded self.old self.new at ticket request) (AddsNone self.old self.new at)
            ((self.new.added ≡ self.old.added) × (self.new.full ≡ self.old.full)) }
        ensures back { HandsBack D.handed request result }
    {
        let added = add_at(
            rt,
            &mut self.seats,
            self.additions.as_slice(),
            at,
            request,
            delivery,
        );
        match added {
            Adding::Made(addition) => {
                let ticket = addition.ticket();
                self.beside = self
                    .beside
                    .saturating_add(usize::from(addition.is_beside()));
                put(&mut self.additions, at, Some(addition));
                self.waiting += 1;
                Adding::Made(ticket)
            }
            Adding::Refused(request, delivery) => {
                self.is_full = true;
                Adding::Refused(request, delivery)
            }
            Adding::OutOfMemory(request, delivery) => Adding::OutOfMemory(request, delivery),
        }
    }

    // rule save-requests
    // Takes out an addition whose end came at that seat: nothing is added under its number then.
    fn take(&mut self, at: usize, told: &Told<D>) -> Result<(), Stop>
        requires told { Has (ties_at (ties_of self.old.seats) told.now.is_beside) (tie told.now.message.ticket (request_origin told.now.message.outcome.request)) }
        ensures ended { OnOk result (Ends self.old self.new at told.now.message.outcome.request) }
        ensures out { OnOk result (TakesOut self.old self.new at (record { ticket = told.now.message.ticket; beside = told.now.is_beside; request = told.now.message.outcome.request })) }
        ensures seats { self.new.seats ≡ self.old.seats }
        ensures why { IfErr result (λ e. e ≡ stop.NoMessage) }
    {
        // proof: what holds of a request, and requests of one origin are one
        told.message.outcome.request().know();
        origin_is_whole_request();
        if awaits(
            self.additions.as_slice(),
            at,
            told.message.ticket,
            told.is_beside,
        ) {
            put(&mut self.additions, at, None);
            self.beside = self.beside.saturating_sub(usize::from(told.is_beside));
            self.waiting -= 1;
            return Ok(());
        }
        Err(Stop::NoMessage)
    }

    // Takes out an addition whose end came at that seat, and removes its handle there.
    fn close<R: Wait>(&mut self, rt: &R, at: usize, told: &Told<D>) -> Result<(), Stop>
        requires told { Has (ties_at (ties_of self.old.seats) told.now.is_beside) (tie told.now.message.ticket (request_origin told.now.message.outcome.request)) }
        ensures ended { OnOk result (Ends self.old self.new at told.now.message.outcome.request) }
        ensures out { OnOk result (TakesOut self.old self.new at (record { ticket = told.now.message.ticket; beside = told.now.is_beside; request = told.now.message.outcome.request })) }
        ensures freed { OnOk result (FreesAt told.now.message.handle told.now.is_beside self.old.seats self.new.seats) }
        ensures why { IfErr result (λ e. (e ≡ stop.OutOfMemory) ⊎ (e ≡ stop.NoMessage)) }
    {
        self.take(at, told)?;
        self.seats.remove(rt, told.is_beside, told.message.handle)
    }

    // The end of a request that was added.
    fn end<R: Wait>(&mut self, rt: &R, told: Told<D>) -> Result<Ended<D>, Stop>
        requires told { Has (ties_at (ties_of self.old.seats) told.is_beside) (tie told.message.ticket (request_origin told.message.outcome.request)) }
        ensures ended { IfOk result (λ e. Ends self.old self.new e.at e.outcome.request) }
        ensures out { IfOk result (λ e. TakesOut self.old self.new e.at (record { ticket = e.ticket; beside = told.is_beside; request = e.outcome.request })) }
        ensures freed { IfOk result (λ e. FreesAt (handle_at e.at) told.is_beside self.old.seats self.new.seats) }
        ensures message { IfOk result (λ e. (handle_at e.at ≡ told.message.handle) × (e.ticket ≡ told.message.ticket) × (e.outcome ≡ told.message.outcome)) }
        ensures why { IfErr result (λ e. (e ≡ stop.OutOfMemory) ⊎ (e ≡ stop.NoMessage)) }
    {
        let at = told.message.handle.0 as usize;
        match self.close(rt, at, &told) {
            Ok(()) => Ok(Ended {
                at,
                ticket: told.message.ticket,
                outcome: told.message.outcome,
            }),
            Err(stop) => {
                drop(told);
                Err(stop)
            }
        }
    }

    /// Reads the next message, for which it waits as long as that, at most: the request has ended that was added under its number, and its
    /// handle is removed. Where none came it answers None. After an error it isn't known what is added. Where requests are added at both
    /// seats it waits for less, so that a message of neither waits for long.
    ///
    /// The errors are `OutOfMemory`, where the removal is refused memory, and `NoMessage`, where no message could be read, or one came that
    /// is of no addition; no clause says which of the two comes. The handle stays added only where the seat is answered `WrongSeat`.
    pub fn next<R: Wait + AllocGlobal + Clock>(
        &mut self,
        rt: &R,
        milliseconds: u32,
    ) -> Result<Option<Ended<D>>, Stop>
        ensures ended { IfOk result (λ o. MatchOption o (Stays self.old self.new) (λ e. Ends self.old self.new e.at e.outcome.request)) }
        ensures taken { IfOk result (λ o. IfSome o (λ e. TakesEnd self.old self.new e.at e.ticket e.outcome)) }
        ensures none { IfOk result (λ o. IfNone o ((self.new.added ≡ self.old.added) × (self.new.full ≡ self.old.full) × Wait self.old.seats self.new.seats)) }
        ensures why { IfErr result (λ e. (e ≡ stop.OutOfMemory) ⊎ (e ≡ stop.NoMessage)) }
    {
        let first_waits = self.waiting > self.beside;
        let beside_waits = self.beside > 0;
        match self.seats.next(rt, first_waits, beside_waits, milliseconds) {
            Ok(Some(told)) => Ok(Some(self.end(rt, told)?)),
            Ok(None) => Ok(None),
            Err(_) => Err(Stop::NoMessage),
        }
    }
}
