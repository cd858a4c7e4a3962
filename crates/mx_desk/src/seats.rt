//! The seats of a desk: the first one, and perhaps one of another multi handle beside it.
ghost use Rattle.std.specs.Prelude.{◌≡◌, [], false, true, IfErr, IfNone, IfOk, IfSome, MatchOption, None, is_some, Ok, OnOk, Some};
ghost use Rattle.mx_types.specs.declared.call.Call.{Call};
ghost use Rattle.mx_types.specs.declared.reply.Reply.{Reply};
ghost use mathlib.Core.List.{IsPrefix};
ghost use Rattle.mx_request.specs.Request.{request_origin};
ghost use Rattle.mx_lock.specs.Ties.{Has, tie};
ghost use Rattle.mx_desk.specs.Adding.{AnswersSo, HandsBack, IfMade, MatchAdding};
ghost use Rattle.mx_desk.specs.Additions.{IsTold};
ghost use Rattle.mx_message.specs.Message.{Waited};
ghost use Rattle.mx_multi.specs.Seats.{Stands};
ghost use Rattle.mx_desk.specs.Calls.{AtLast, AtSeat, FreesAt, IsFreed, IsRefused, ReadsMessage, Wait};
ghost use Rattle.mx_desk.specs.Ties.{AreLater, ties_at, ties_of, two};
ghost use Rattle.mx_run_io.specs.declared.stop.Stop.TheVariants as stop;

use crate::adding::Adding;
use crate::addition::Addition;
use mx_chain::Outcome;
use mx_journal::{AddReply, RemoveReply};
use mx_link::Link;
use mx_message::{Message, NoMessage, next_end_within};
use mx_multi::{Application, Progress, Seated, WrongSeat};
use mx_request::Request;
use mx_run_io::Stop;
use mx_sink::Delivery;
use mx_transfer_core::Queued;
use mx_types::{HandleId, Ticket};
use std::alloc::{AllocFailed, AllocGlobal};
use std::marker::Model;
use std::rt::Clock;
use std::snapshot::Snapshot;
use std::sync::Wait;

/// The longest that a message is waited for at one seat, in milliseconds, while one may come at the other.
const SLICE_MS: u32 = 20;

/// A message, and whether the seat beside the first one has read it.
#[derive(Drop)]
pub(crate) struct Told<D: Delivery> {
    pub message: Message<D>,
    pub is_beside: bool,
}

/// What a seat answered to an addition: its ticket, or the work that comes back.
#[derive(Drop)]
pub(crate) enum Answered<Q> {
    Made(Ticket),
    Refused(Q),
    OutOfMemory(Q),
}

// What a seat answered to an addition. The multi handle takes no more where its history is full, its tickets are spent, or the handle is added
// already.
fn answer_of<Q>(answer: Result<AddReply<Q>, WrongSeat<Q>>) -> Answered<Q>
    ensures { AnswersSo answer result }
{
    match answer {
        Ok(AddReply::Added(ticket)) => Answered::Made(ticket),
        Ok(AddReply::AddedAlready(work)) => Answered::Refused(work),
        Ok(AddReply::TableFull(work)) => Answered::Refused(work),
        Ok(AddReply::TicketsSpent(work)) => Answered::Refused(work),
        Ok(AddReply::HistoryFull(work)) => Answered::Refused(work),
        Ok(AddReply::OutOfMemory(work)) => Answered::OutOfMemory(work),
        Err(WrongSeat(work)) => Answered::Refused(work),
    }
}

// Adds work under this handle, if the multi handle takes it.
fn add_work<L: Link, D: Delivery, R: Wait>(
    rt: &R,
    seat: &mut Seated<'_, Application, Queued<L, D>, Outcome<D>>,
    handle: HandleId,
    work: Queued<L, D>,
) -> Adding<Ticket, D>
    requires { work.content ≡ [] }
    ensures told { IfMade result (λ t. Has seat.new.ties (tie t (request_origin work.request))) }
    ensures stands { MatchAdding result (λ t. Stands seat.old seat.new (Call.Add handle) (Reply.Added t)) (IsRefused handle seat.old seat.new) (Unit {0}) }
    ensures back { HandsBack D.handed work.request result }
    ensures later { IsPrefix seat.old.ties seat.new.ties }
{
    match answer_of(seat.add(rt, handle, work)) {
        Answered::Made(ticket) => Adding::Made(ticket),
        Answered::Refused(work) => {
            let (request, delivery) = work.into_parts();
            Adding::Refused(request, delivery)
        }
        Answered::OutOfMemory(work) => {
            let (request, delivery) = work.into_parts();
            Adding::OutOfMemory(request, delivery)
        }
    }
}

// Adds a transfer of the request, with its delivery, under this handle, if the multi handle takes one more.
fn add_transfer<L: Link, D: Delivery, R: Wait + AllocGlobal>(
    rt: &R,
    seat: &mut Seated<'_, Application, Queued<L, D>, Outcome<D>>,
    is_beside: bool,
    handle: HandleId,
    request: Request,
    delivery: D,
) -> Adding<Addition, D>
    requires { D.handed delivery ≡ [] }
    ensures request { IfMade result (λ a. a.request ≡ request) }
    ensures told { IfMade result (IsTold seat.new.ties) }
    ensures place { IfMade result (λ a. a.beside ≡ is_beside) }
    ensures stands { MatchAdding result (λ a. Stands seat.old seat.new (Call.Add handle) (Reply.Added a.ticket)) (IsRefused handle seat.old seat.new) (Unit {0}) }
    ensures back { HandsBack D.handed request result }
    ensures later { IsPrefix seat.old.ties seat.new.ties }
{
    // proof: what holds of a request
    request.know();
    let asked = Snapshot::of(&request);
    let work = match Queued::delivering(rt.alloc(), request, delivery) {
        Ok(work) => work,
        Err(AllocFailed { value }) => {
            drop(asked);
            let (request, delivery) = value;
            return Adding::OutOfMemory(request, delivery);
        }
    };
    match add_work(rt, seat, handle, work) {
        Adding::Made(ticket) => Adding::Made(Addition::new(ticket, is_beside, asked)),
        Adding::Refused(request, delivery) => {
            drop(asked);
            Adding::Refused(request, delivery)
        }
        Adding::OutOfMemory(request, delivery) => {
            drop(asked);
            Adding::OutOfMemory(request, delivery)
        }
    }
}

// Removes a handle. One that can't be removed is added still, so that the next addition under it is refused.
fn remove_at<L: Link, D: Delivery, R: Wait>(
    rt: &R,
    seat: &mut Seated<'_, Application, Queued<L, D>, Outcome<D>>,
    handle: HandleId,
) -> Result<(), Stop>
    ensures freed { OnOk result (IsFreed handle seat.old seat.new) }
    ensures later { IsPrefix seat.old.ties seat.new.ties }
    ensures why { IfErr result (λ e. e ≡ stop.OutOfMemory) }
{
    match seat.remove(rt, handle) {
        Ok(RemoveReply::OutOfMemory) => Err(Stop::OutOfMemory),
        _ => Ok(()),
    }
}

// How many bytes the transfer of a handle has received, as far as that is known.
fn came_at<L: Link, D: Delivery>(
    seat: &mut Seated<'_, Application, Queued<L, D>, Outcome<D>>,
    handle: HandleId,
) -> u64
    ensures ties { seat.new.ties ≡ seat.old.ties }
{
    match seat.progress(handle) {
        Some(Progress::Bytes(_, bytes)) => u64::from(bytes),
        _ => 0,
    }
}

// Reads the next message of a seat, for which it waits as long as that, at most.
fn read<L: Link, D: Delivery, R: Wait + Clock>(
    rt: &R,
    seat: &mut Seated<'_, Application, Queued<L, D>, Outcome<D>>,
    is_beside: bool,
    milliseconds: u32,
) -> Result<Option<Told<D>>, NoMessage>
    ensures later { IsPrefix seat.old.ties seat.new.ties }
    ensures place { IfOk result (λ o. IfSome o (λ t. t.is_beside ≡ is_beside)) }
    ensures told { IfOk result (λ o. IfSome o (λ t. Has seat.new.ties (tie t.message.ticket (request_origin t.message.outcome.request)))) }
    ensures read { IfOk result (λ o. MatchOption o (Waited seat.old seat.new) (λ t. ReadsMessage t.message.handle t.message.ticket t.message.outcome seat.old seat.new)) }
{
    match next_end_within(rt, seat, milliseconds)? {
        Some(message) => Ok(Some(Told { message, is_beside })),
        None => Ok(None),
    }
}

// Reads the next message of two seats: it looks at the first one, and waits at the other for a while.
fn read_both<L: Link, D: Delivery, R: Wait + Clock>(
    rt: &R,
    first: &mut Seated<'_, Application, Queued<L, D>, Outcome<D>>,
    beside: &mut Seated<'_, Application, Queued<L, D>, Outcome<D>>,
    milliseconds: u32,
) -> Result<Option<Told<D>>, NoMessage>
    ensures first { IsPrefix first.old.ties first.new.ties }
    ensures beside { IsPrefix beside.old.ties beside.new.ties }
    ensures told { IfOk result (λ o. IfSome o (λ t. Has (ties_at (record { first = first.new.ties; beside = beside.new.ties }) t.is_beside)
        (tie t.message.ticket (request_origin t.message.outcome.request)))) }
    ensures read { IfOk result (λ o. MatchOption o (Wait (two first.old beside.old) (two first.new beside.new))
        (λ t. AtSeat (ReadsMessage t.message.handle t.message.ticket t.message.outcome) t.is_beside (two first.old beside.old) (two first.new beside.new))) }
{
    if let Some(told) = read(rt, first, false, 0)? {
        return Ok(Some(told));
    }
    read(rt, beside, true, milliseconds.min(SLICE_MS))
}

/// An application's seat, and perhaps one at another multi handle beside it. Contracts see both.
pub(crate) struct Seats<'e, 'm, L: Link, D: Delivery> {
    first: Seated<'e, Application, Queued<L, D>, Outcome<D>>,
    beside: Option<Seated<'m, Application, Queued<L, D>, Outcome<D>>>,
}

// Written out, and not derived: a crate that drops a desk cites its proof.
impl<'e, 'm, L: Link, D: Delivery> Drop for Seats<'e, 'm, L, D> {
    fn drop(self) {
        let Seats { first, beside } = self;
        drop(first);
        drop(beside);
    }
}

impl<'e, 'm, L: Link, D: Delivery> Model for Seats<'e, 'm, L, D> {
    ghost use Rattle.mx_chain.specs.Chains.{ChainState};
    ghost use Rattle.mx_desk.specs.Ties.{SeatsView};

    ghost Value = { SeatsView (ChainState L) };

    ghost view = { λ s. record { first = s.first; beside = s.beside } };
}

impl<'e, 'm, L: Link, D: Delivery> Seats<'e, 'm, L, D> {
    /// One seat.
    pub fn new(first: Seated<'e, Application, Queued<L, D>, Outcome<D>>) -> Seats<'e, 'm, L, D>
        ensures { result ≡ record { first = first.entry; beside = None } }
    {
        Seats {
            first,
            beside: None,
        }
    }

    /// The first seat with this one beside it, or with none, in place of the one that is there, which is dropped.
    pub fn with<'n>(
        self,
        beside: Option<Seated<'n, Application, Queued<L, D>, Outcome<D>>>,
    ) -> Seats<'e, 'n, L, D>
        ensures { result ≡ record { first = self.entry.first; beside = beside.entry } }
    {
        let Seats {
            first,
            beside: there,
        } = self;
        drop(there);
        Seats { first, beside }
    }

    /// Whether there are two.
    pub fn are_two(&self) -> bool {
        self.beside.is_some()
    }

    /// Adds a transfer of the request, with its delivery, under this handle at the seat that came last, if its multi handle takes one more.
    pub fn add<R: Wait + AllocGlobal>(
        &mut self,
        rt: &R,
        handle: HandleId,
        request: Request,
        delivery: D,
    ) -> Adding<Addition, D>
        requires { D.handed delivery ≡ [] }
        ensures request { IfMade result (λ a. a.request ≡ request) }
        ensures told { IfMade result (λ a. IsTold (ties_at (ties_of self.new) a.beside) a) }
        ensures place { IfMade result (λ a. a.beside ≡ is_some self.old.beside) }
        ensures stands { MatchAdding result (λ a. AtLast (λ s t. Stands s t (Call.Add handle) (Reply.Added a.ticket)) self.old self.new) (AtLast (IsRefused handle) self.old self.new) (Unit {0}) }
        ensures back { HandsBack D.handed request result }
        ensures later { AreLater (ties_of self.old) (ties_of self.new) }
    {
        match &mut self.beside {
            Some(seat) => add_transfer(rt, seat, true, handle, request, delivery),
            None => add_transfer(rt, &mut self.first, false, handle, request, delivery),
        }
    }

    /// Reads the next message of the seats, for which it waits as long as that, at most, or a while: where both may be told one it looks at
    /// the first one, and waits at the other.
    pub fn next<R: Wait + Clock>(
        &mut self,
        rt: &R,
        first_waits: bool,
        beside_waits: bool,
        milliseconds: u32,
    ) -> Result<Option<Told<D>>, NoMessage>
        ensures told { IfOk result (λ o. IfSome o (λ t. Has (ties_at (ties_of self.new) t.is_beside) (tie t.message.ticket (request_origin t.message.outcome.request)))) }
        ensures read { IfOk result (λ o. MatchOption o (Wait self.old self.new) (λ t. AtSeat (ReadsMessage t.message.handle t.message.ticket t.message.outcome) t.is_beside self.old self.new)) }
        ensures later { AreLater (ties_of self.old) (ties_of self.new) }
    {
        match &mut self.beside {
            Some(seat) if beside_waits => {
                if first_waits {
                    return read_both(rt, &mut self.first, seat, milliseconds);
                }
                read(rt, seat, true, milliseconds)
            }
            _ => read(rt, &mut self.first, false, milliseconds),
        }
    }

    /// Removes a handle at the seat at which it was added.
    pub fn remove<R: Wait>(&mut self, rt: &R, is_beside: bool, handle: HandleId) -> Result<(), Stop>
        ensures freed { OnOk result (FreesAt handle is_beside self.old self.new) }
        ensures later { AreLater (ties_of self.old) (ties_of self.new) }
        ensures why { IfErr result (λ e. e ≡ stop.OutOfMemory) }
    {
        match &mut self.beside {
            Some(seat) => {
                if is_beside {
                    remove_at(rt, seat, handle)
                } else {
                    remove_at(rt, &mut self.first, handle)
                }
            }
            None => remove_at(rt, &mut self.first, handle),
        }
    }

    /// How many bytes the transfer has received that was added at one of the seats, under this number, as far as that is known.
    pub fn came(&mut self, is_beside: bool, at: usize) -> u64
        ensures ties { ties_of self.new ≡ ties_of self.old }
    {
        let Ok(handle) = u32::try_from(at) else {
            return 0;
        };
        match &mut self.beside {
            Some(seat) if is_beside => came_at(seat, HandleId(handle)),
            _ => came_at(&mut self.first, HandleId(handle)),
        }
    }
}
