//! Two workers on threads of their own, and one more thread that reads the messages.
ghost use Rattle.std.specs.Prelude.{◌≡◌, All};

use crate::holding::{Flags, HoldingGate, LOOKS};
use crate::messages::{Wanted, compare, handle_of};
use crate::open::{Parts, open};
use crate::play::AGAIN;
use crate::runs::{added, work_of};
use crate::trouble::{Trouble, holds};
use mx_crew::{Worked, WorkerSlot, run_beside, worker_slots};
use mx_gate::Gate;
use mx_journal::InfoReply;
use mx_link::Link;
use mx_multi::{Application, Multi, Seat, Seated, WorkerSeat};
use mx_transfer_core::Outcome;
use mx_types::{HandleId, OutOfMemory};
use mx_worker::Queued;
use std::alloc::AllocGlobal;
use std::rt::Clock;
use std::sync::Wait;
use std::sync::atomic::Ordering;
use std::test::Fail;
use std::thread;
use std::thread::Threads;
use std::time::Duration;

/// What two workers are to serve.
pub struct Plan {
    pub name: &'static str,
    /// The URLs of the handles 1 and 2.
    pub urls: [&'static str; 2],
    /// Whether the first answer is to come first.
    pub is_in_order: bool,
    pub first: Wanted,
    /// Where either may come first, that of handle 2.
    pub second: Wanted,
    /// How many of the two ends one worker may record at most.
    pub most: u32,
}

/// One worker is held in an open until the other's message was read. So they run at the same time: both messages have code 0, and that of
/// ticket 1 comes first.
pub static HELD: Plan = Plan {
    name: "two workers run at the same time",
    urls: ["http://held.example/", "http://free.example/"],
    is_in_order: true,
    first: Wanted::Answer(
        1,
        b"GET / HTTP/1.1\r\nHost: free.example\r\nAccept: */*\r\n\r\n",
        b"hello",
    ),
    second: Wanted::Answer(
        0,
        b"GET / HTTP/1.1\r\nHost: held.example\r\nAccept: */*\r\n\r\n",
        b"hello",
    ),
    most: 1,
};

/// Both answers, in whichever order.
pub static EITHER: Plan = Plan {
    name: "two workers serve two",
    urls: ["http://a.example/", "http://b.example/"],
    is_in_order: false,
    first: Wanted::Answer(
        0,
        b"GET / HTTP/1.1\r\nHost: a.example\r\nAccept: */*\r\n\r\n",
        b"hello",
    ),
    second: Wanted::Answer(
        1,
        b"GET / HTTP/1.1\r\nHost: b.example\r\nAccept: */*\r\n\r\n",
        b"hello",
    ),
    most: 2,
};

// How a message compares with what it should be.
fn compare_one(reply: &Option<InfoReply<Outcome>>, wanted: Wanted) -> Result<(), Trouble> {
    match reply {
        Some(reply) => compare(reply, wanted),
        None => Err(Trouble::Wrong),
    }
}

// Both results: a refused one counts before a wrong one.
fn both(first: Result<(), Trouble>, second: Result<(), Trouble>) -> Result<(), Trouble> {
    match (first, second) {
        (Ok(()), Ok(())) => Ok(()),
        (Err(Trouble::Refused), _) | (_, Err(Trouble::Refused)) => Err(Trouble::Refused),
        _ => Err(Trouble::Wrong),
    }
}

// How the two messages compare with the two answers.
fn compare_both(
    plan: &Plan,
    one: &Option<InfoReply<Outcome>>,
    two: &Option<InfoReply<Outcome>>,
) -> Result<(), Trouble> {
    let is_second = match one {
        Some(reply) => handle_of(reply) == Some(2),
        None => false,
    };
    if is_second && !plan.is_in_order {
        return both(compare_one(two, plan.first), compare_one(one, plan.second));
    }
    both(compare_one(one, plan.first), compare_one(two, plan.second))
}

// The first message, if there is one.
fn read<L: Link, R: Wait>(
    rt: &R,
    seat: &mut Seated<'_, Application, Queued<L>, Outcome>,
) -> Option<InfoReply<Outcome>> {
    match seat.info_read(rt) {
        Ok(reply) => handle_of(&reply).is_some().then_some(reply),
        Err(_) => None,
    }
}

// The first message, once it is there; None where it doesn't come.
fn await_message<L: Link, R: Wait + Clock>(
    rt: &R,
    seat: &mut Seated<'_, Application, Queued<L>, Outcome>,
) -> Option<InfoReply<Outcome>> {
    for _ in 0..LOOKS {
        if let Some(message) = read(rt, seat) {
            return Some(message);
        }
        thread::sleep(rt, Duration::from_millis(1));
    }
    None
}

// How what comes compares with the two answers. The workers are informed of the first message.
fn read_both<L: Link, R: Wait + Clock>(
    rt: &R,
    seat: Seated<'_, Application, Queued<L>, Outcome>,
    flags: &Flags,
    plan: &Plan,
) -> Result<(), Trouble> {
    let mut seat = seat;
    let one = await_message(rt, &mut seat);
    flags.is_read.store(true, Ordering::SeqCst);
    let two = await_message(rt, &mut seat);
    drop(seat);
    let compared = compare_both(plan, &one, &two);
    drop(one);
    drop(two);
    compared
}

// Fails unless the workers recorded two ends, and none of them more than it may.
fn check_recorded<L: Link, G>(worked: &[Worked<L, G>], plan: &Plan) -> Result<(), Trouble> {
    let (mut all, mut most) = (0u32, 0u32);
    for one in worked {
        let recorded = one.counts().recorded;
        all = all.saturating_add(recorded);
        most = most.max(recorded);
    }
    holds(all == 2 && most <= plan.most)
}

// Runs a worker at each slot, and reads beside them.
fn serve_slots<
    'm,
    L: Link + Send,
    R: Threads + Wait + AllocGlobal + Clock + Sync,
    G: Gate<Link = L> + Send + Drop,
>(
    rt: &R,
    seat: Seated<'m, Application, Queued<L>, Outcome>,
    slots: Vec<WorkerSlot<'m, L, G>>,
    flags: &Flags,
    plan: &Plan,
) -> Result<(), Trouble> {
    let (answers, counted) = run_beside(rt, &flags.crew, slots, move |stands| match stands {
        Ok(()) => read_both(rt, seat, flags, plan),
        Err(_) => Err(Trouble::Refused),
    });
    match counted {
        Ok(worked) => both(answers, check_recorded(worked.as_slice(), plan)),
        Err(_) => Err(Trouble::Refused),
    }
}

// Adds the URLs.
fn add_both<L: Link, R: Wait + AllocGlobal>(
    rt: &R,
    seat: &mut Seated<'_, Application, Queued<L>, Outcome>,
    plan: &Plan,
) -> Result<(), Trouble> {
    let one = work_of(rt.alloc(), plan.urls[0], 5000, 0)?;
    added(seat.add(rt, HandleId(1), one))?;
    let two = work_of(rt.alloc(), plan.urls[1], 5000, 0)?;
    added(seat.add(rt, HandleId(2), two))
}

// Adds the URLs, runs a worker for each gate, each in a thread of its own, and reads two messages beside them.
fn serve_at<
    L: Link + Send,
    R: Threads + Wait + AllocGlobal + Clock + Sync,
    G: Gate<Link = L> + Send + Drop,
>(
    rt: &R,
    multi: &Multi<Queued<L>, Outcome>,
    seat: Seat<Queued<L>, Outcome>,
    workers: Vec<WorkerSeat<Queued<L>, Outcome>>,
    gates: Vec<G>,
    flags: &Flags,
    plan: &Plan,
) -> Result<(), Trouble>
    requires seat { seat.of ≡ multi.now }
    requires workers { All (λ s. s.of ≡ multi.now) workers.items }
{
    let mut seat = multi.at(seat);
    add_both(rt, &mut seat, plan)?;
    match worker_slots(rt.alloc(), multi, workers, gates) {
        Ok(slots) => serve_slots(rt, seat, slots, flags, plan),
        Err(_) => Err(Trouble::NoMemory),
    }
}

// The same, at a multi handle of its own.
fn serve_gates<
    L: Link + Send,
    R: Threads + Wait + AllocGlobal + Clock + Sync,
    G: Gate<Link = L> + Send + Drop,
>(rt: &R, gates: Vec<G>, flags: &Flags, plan: &Plan) -> Result<(), Trouble> {
    let Parts {
        multi,
        seat,
        workers,
    } = open(rt, 4)?;
    let served = serve_at(rt, multi.shared(), seat, workers, gates, flags, plan);
    multi.close(rt);
    served
}

// A gate for each of two workers.
fn two_gates<'a, R: Clock + AllocGlobal>(
    rt: &'a R,
    flags: &'a Flags,
) -> Result<Vec<HoldingGate<'a, R>>, OutOfMemory> {
    let mut gates = Vec::new(rt.alloc());
    for _ in 0..2 {
        gates.push(HoldingGate::of(rt, flags))?;
    }
    Ok(gates)
}

// Serves what is planned.
fn serve<R: Threads + Wait + AllocGlobal + Clock + Sync>(
    rt: &R,
    plan: &Plan,
) -> Result<(), Trouble> {
    let flags = Flags::new(rt.alloc())?;
    let gates = two_gates(rt, &flags)?;
    serve_gates(rt, gates, &flags, plan)
}

/// Serves what is planned, and once more where that was refused memory: then it has to come as if nothing had been refused, and only then
/// it fails by `AGAIN`. Without a refusal it passes.
pub fn try_plan<R: Threads + Wait + AllocGlobal + Clock + Sync>(
    rt: &R,
    plan: &Plan,
) -> Result<(), Fail> {
    match serve(rt, plan) {
        Ok(()) => Ok(()),
        Err(Trouble::NoMemory) => Err(OutOfMemory.into()),
        Err(Trouble::Wrong) => Err(plan.name.into()),
        Err(Trouble::Refused) => match serve(rt, plan) {
            Ok(()) => Err(AGAIN.into()),
            Err(_) => Err(plan.name.into()),
        },
    }
}

// rule worker-threads
#[test]
fn two_workers_run_at_the_same_time(rt: HostRuntime) -> Result<(), Fail> {
    try_plan(&rt, &HELD)
}
