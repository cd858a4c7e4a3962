//! The multi handles of a run, one after another.
ghost use Rattle.std.specs.Prelude.{◌≡◌, ◌≢◌, true, List, Option, Err, IfOk, Ok, OnOk, min, vec_len};
ghost use Rattle.mx_desk.specs.Desks.{IsNewDesk};
ghost use Rattle.mx_multi.specs.Opening.{are_within};
ghost use Rattle.mx_request.specs.Request.{RequestValue};
ghost use Rattle.mx_fetch.specs.Handles.{IsBack};
ghost use Rattle.mx_fetch.specs.declared.turned.Turned.TheVariants as how;

use crate::fetch::Fetch;
use crate::handle::beside_gates;
use crate::second::{Second, fetch_seconds};
use crate::spare::Spare;
use crate::turned::Turned;
use mx_chain::Outcome;
use mx_crew::{Crew, Opened, open_one};
use mx_desk::Desk;
use mx_gate::Gate;
use mx_link::Link;
use mx_multi::{Application, Limits, Seated};
use mx_run_io::Stop;
use mx_sink::Delivery;
use mx_transfer_core::Queued;
use mx_types::OutOfMemory;
use std::alloc::{AllocGlobal, Global};
use std::rt::Clock;
use std::sync::Wait;
use std::thread::Threads;

// rule save-long-runs
/// How long a history may be full while something is added still, in milliseconds, until another multi handle is opened beside it.
const PATIENCE_MS: u32 = 500;

/// What multi handles are opened with, how many numbers a desk has, and how many requests are added at a time.
#[derive(Clone, Copy)]
pub struct Room {
    pub limits: Limits,
    pub numbers: usize,
    pub width: usize,
}

/// What a run has with it at each multi handle, and how it turned there. The run is boxed, since each handle takes frames of its own on the
/// stack, through which it is moved.
#[derive(Drop)]
pub(crate) struct First<E, G> {
    pub errand: Box<E>,
    pub spare: Option<Spare<G>>,
    pub room: Room,
    pub turned: Result<Turned, Stop>,
}

// The run, which stops so.
fn refused<D: Delivery, E: Fetch<D> + Drop, G>(first: First<E, G>, stop: Stop) -> First<E, G>
    ensures room { result.room ≡ first.room }
    ensures run { E.is_same first.errand.value result.errand.value }
    ensures turned { result.turned ≡ Err stop }
{
    let mut first = first;
    first.turned = Err(stop);
    first
}

// How the run turned once it came back from second multi handles: where there was none it waits at its desk until all has ended there.
fn after_seconds<'m, L: Link, D: Delivery, R: Wait + AllocGlobal + Clock, E: Fetch<D> + Drop>(
    rt: &R,
    crew: &Crew,
    second: Second<'m, L, D, E>,
) -> (Box<E>, Result<Turned, Stop>)
    requires { IsBack (E.is_asked second.errand.value) (E.has_turned second.errand.value) second.desk second.turned }
    ensures run { E.is_same second.entry.errand.value result.0.value }
    ensures turned { IfOk result.1 (E.has_turned result.0.value) }
{
    let Second {
        mut desk,
        mut errand,
        turned,
    } = second;
    if let Some(turned) = turned {
        drop(desk);
        return (errand, turned);
    }
    let turned = match &mut desk {
        Some(desk) => errand.fetch(rt, crew, desk, None),
        None => Err(Stop::NoMessage),
    };
    drop(desk);
    (errand, turned)
}

// rule get-width
// Fetches at a desk, and while that is held up at second multi handles.
fn fetch_first<
    'm,
    L: Link + Send,
    D: Delivery + Send,
    R: Threads + Wait + Clock + AllocGlobal + Sync,
    G: Gate<Link = L> + Send + Drop,
    E: Fetch<D> + Drop,
>(rt: &R, crew: &Crew, desk: Desk<'m, 'm, L, D>, first: First<E, G>) -> First<E, G>
    requires within { are_within first.room.limits ≡ true }
    requires one { first.room.limits.seats ≡ 1 }
    requires width { desk.width ≡ first.room.width }
    requires asked { E.is_asked first.errand.value desk.asked }
    ensures room { result.room ≡ first.room }
    ensures run { E.is_same first.errand.value result.errand.value }
    ensures turned { IfOk result.turned (E.has_turned result.errand.value) }
{
    let First {
        mut errand,
        spare,
        room,
        turned: _,
    } = first;
    let mut desk = desk;
    let turned = errand.fetch(rt, crew, &mut desk, Some(PATIENCE_MS));
    if !matches!(turned, Ok(Turned::Held)) {
        drop(desk);
        return First {
            errand,
            spare,
            room,
            turned,
        };
    }
    let second = Second {
        desk: Some(desk),
        errand,
        turned: None,
    };
    let (second, spare) = fetch_seconds(rt, spare, room.limits, second);
    let (errand, turned) = after_seconds(rt, crew, second);
    First {
        errand,
        spare,
        room,
        turned,
    }
}

// A desk of this seat, at which nothing is added yet.
fn desk_of<'m, L: Link, D: Delivery>(
    alloc: Global,
    seat: Seated<'m, Application, Queued<L, D>, Outcome<D>>,
    room: Room,
) -> Result<Desk<'m, 'm, L, D>, OutOfMemory>
    ensures { IfOk result (IsNewDesk seat.entry room.numbers room.width) }
{
    Desk::new(alloc, seat, room.numbers, room.width)
}

// Fetches at a desk of this seat, at which nothing is added yet.
fn fetch_seated<
    'm,
    L: Link + Send,
    D: Delivery + Send,
    R: Threads + Wait + Clock + AllocGlobal + Sync,
    G: Gate<Link = L> + Send + Drop,
    E: Fetch<D> + Drop,
>(
    rt: &R,
    crew: &Crew,
    seat: Seated<'m, Application, Queued<L, D>, Outcome<D>>,
    first: First<E, G>,
) -> First<E, G>
    requires within { are_within first.room.limits ≡ true }
    requires one { first.room.limits.seats ≡ 1 }
    requires asked { (asked : List (Option RequestValue)) → E.is_asked first.errand.value asked }
    ensures room { result.room ≡ first.room }
    ensures run { E.is_same first.errand.value result.errand.value }
    ensures turned { IfOk result.turned (E.has_turned result.errand.value) }
{
    match desk_of(rt.alloc(), seat, first.room) {
        Ok(desk) => fetch_first(rt, crew, desk, first),
        Err(_) => refused::<D, E, G>(first, Stop::OutOfMemory),
    }
}

// Fetches at a new multi handle, with a worker at each gate, and closes it. The gates come back.
fn fetch_once<
    L: Link + Send,
    D: Delivery + Send,
    R: Threads + Wait + Clock + AllocGlobal + Sync,
    G: Gate<Link = L> + Send + Drop,
    E: Fetch<D> + Drop,
>(rt: &R, crew: &Crew, gates: Vec<G>, first: First<E, G>) -> (First<E, G>, Result<Vec<G>, Stop>)
    requires within { are_within first.room.limits ≡ true }
    requires one { first.room.limits.seats ≡ 1 }
    requires asked { (asked : List (Option RequestValue)) → E.is_asked first.errand.value asked }
    ensures room { result.0.room ≡ first.room }
    ensures run { E.is_same first.errand.value result.0.errand.value }
    ensures turned { IfOk result.0.turned (E.has_turned result.0.errand.value) }
    ensures gates { IfOk result.1 (λ back. vec_len back ≡ min first.room.limits.workers (vec_len gates)) }
{
    match open_one::<L, D, R>(rt, first.room.limits) {
        Ok(opened) => {
            let Opened {
                multi,
                seat,
                workers,
            } = opened;
            let shared = multi.shared();
            let seat = shared.at(seat);
            let limits = first.room.limits;
            let fetched = beside_gates(
                rt,
                crew,
                shared,
                workers,
                gates,
                limits,
                move |stands: Result<(), Stop>| -> First<E, G>
                    requires { (are_within first.room.limits ≡ true) × (first.room.limits.seats ≡ 1) × ((asked : List (Option RequestValue)) → E.is_asked first.errand.value asked) }
                    ensures room { result.room ≡ first.room }
                    ensures run { E.is_same first.errand.value result.errand.value }
                    ensures turned { IfOk result.turned (E.has_turned result.errand.value) }
                {
                    match stands {
                        Ok(()) => fetch_seated(rt, crew, seat, first),
                        Err(stop) => {
                            drop(seat);
                            refused::<D, E, G>(first, stop)
                        }
                    }
                },
            );
            multi.close(rt);
            fetched
        }
        Err(_) => {
            drop(gates);
            (
                refused::<D, E, G>(first, Stop::OutOfMemory),
                Err(Stop::OutOfMemory),
            )
        }
    }
}

// rule save-long-runs
/// Fetches at one multi handle after another, with a worker at each gate, until all has ended. One whose history is full is followed by the
/// next once all has ended that was added there. Where that takes more than half a second, and there are further gates, the next is opened
/// beside it. No third one is: where the history of the second is full, too, the run waits until all has ended that was added there, and goes
/// on with another second one, or, where all has ended that was added at the first, with the next. It may wait.
pub(crate) fn run_on<
    L: Link + Send,
    D: Delivery + Send,
    R: Threads + Wait + Clock + AllocGlobal + Sync,
    G: Gate<Link = L> + Send + Drop,
    E: Fetch<D> + Drop,
>(rt: &R, crew: &Crew, gates: Vec<G>, first: First<E, G>) -> First<E, G>
    requires within { are_within first.room.limits ≡ true }
    requires one { first.room.limits.seats ≡ 1 }
    requires gates { vec_len gates ≡ first.room.limits.workers }
    requires asked { (asked : List (Option RequestValue)) → E.is_asked first.errand.value asked }
    ensures run { E.is_same first.errand.value result.errand.value }
    ensures turned { IfOk result.turned (E.has_turned result.errand.value) }
    ensures ended { result.turned ≢ Ok how.HistoryFull }
{
    let (mut gates, mut first) = (gates, first);
    for _ in rt.forever() {
        crew.resume();
        let (back, free) = fetch_once::<L, D, R, G, E>(rt, crew, gates, first);
        first = back;
        if !matches!(first.turned, Ok(Turned::HistoryFull)) {
            return first;
        }
        match free {
            Ok(free) => gates = free,
            Err(stop) => {
                first.turned = Err(stop);
                return first;
            }
        }
    }
    unreachable!()
}
