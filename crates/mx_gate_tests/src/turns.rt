//! Turns of gates over sockets: what ends them, and how long they take.

use crate::gates::{RIGHT, Ringed, Work, at_gate};
use mx_gate::{Bell, Gate, Turn};
use std::alloc::AllocError;
use std::sync::atomic::{AtomicBool, Ordering};
use std::test::Fail;
use std::thread;
use std::thread::{JoinHandle, Threads};
use std::time::{Duration, Instant};

/// The moment, where the clock gives one.
pub(crate) fn now(rt: &HostRuntime) -> Option<Instant> {
    Instant::now(rt).ok()
}

/// Whether since then so many milliseconds have passed at least, and fewer than so many. False where the clock gave no moment.
pub(crate) fn has_passed(rt: &HostRuntime, start: Option<Instant>, least: u64, below: u64) -> bool {
    let Some(start) = start else {
        return false;
    };
    match start.elapsed(rt) {
        Ok(passed) => {
            passed >= Duration::from_millis(least) && passed < Duration::from_millis(below)
        }
        Err(_) => false,
    }
}

/// A thread that rings after a while.
fn ringer<R: Threads>(threads: &R, rt: &HostRuntime, bell: Bell) -> Option<JoinHandle<bool>> {
    let rt_there = *rt;
    let rings = move || {
        thread::sleep(&rt_there, Duration::from_millis(50));
        bell.ring().is_ok()
    };
    thread::spawn(threads, rings).ok()
}

/// A long turn in which a thread rings the bell ends in time, but not before the ring.
fn turns_until_rung<R: Threads, G: Gate + Ringed>(
    threads: &R,
    rt: &HostRuntime,
    gate: &mut G,
) -> bool {
    let start = now(rt);
    let Ok(bell) = gate.new_bell() else {
        return false;
    };
    let Some(ringer) = ringer(threads, rt, bell) else {
        return false;
    };
    let turn = gate.turn(20_000);
    let in_time = has_passed(rt, start, 40, 10_000);
    (turn == Turn::Continue) & in_time & ringer.join(threads)
}

/// Rings two bells: whether both were rung.
fn ring_two<G: Ringed>(gate: &G) -> Result<bool, AllocError> {
    let one = gate.new_bell()?;
    let two = gate.new_bell()?;
    let are_rung = one.ring().is_ok() && two.ring().is_ok();
    drop(one);
    drop(two);
    Ok(are_rung)
}

/// A ring ends the next wait.
fn is_rung_before<G: Gate + Ringed>(rt: &HostRuntime, gate: &mut G) -> bool {
    let start = now(rt);
    let are_rung = ring_two(gate) == Ok(true);
    gate.turn(20_000);
    has_passed(rt, start, 0, 10_000) && are_rung
}

/// Whether a turn of 20 milliseconds takes less than 35. Where the machine has much else to do one may take longer, but not each of a
/// hundred.
fn ends_in_time<G: Gate>(rt: &HostRuntime, gate: &mut G) -> bool {
    for _ in 0..100 {
        let start = now(rt);
        gate.turn(20);
        if has_passed(rt, start, 0, 35) {
            return true;
        }
    }
    false
}

/// A hundred turns that don't wait take less than 290 milliseconds, and longer together with one that waits 300.
fn takes_its_time<G: Gate>(rt: &HostRuntime, gate: &mut G) -> bool {
    let start = now(rt);
    for _ in 0..100 {
        gate.turn(0);
    }
    let at_once = has_passed(rt, start, 0, 290);
    gate.turn(300);
    let waited = has_passed(rt, start, 290, 10_000);
    at_once && waited && ends_in_time(rt, gate)
}

/// Turns stop while the flag is set, and go on when it is clear again.
fn stops_by_the_flag<G: Gate>(gate: &mut G, stop: &AtomicBool) -> bool {
    let clear = gate.turn(0);
    stop.store(true, Ordering::SeqCst);
    let set = gate.turn(0);
    let still = gate.turn(0);
    stop.store(false, Ordering::SeqCst);
    let again = gate.turn(0);
    (clear, set) == (Turn::Continue, Turn::Stop) && (still, again) == (Turn::Stop, Turn::Continue)
}

/// The turns that a test takes.
#[derive(Clone, Copy)]
pub(crate) enum Turns {
    /// A thread rings the bell during one.
    RungMeanwhile,
    /// Two bells are rung before one.
    RungBefore,
    /// They are measured.
    Times,
    /// The flag is set and cleared between them.
    Flag,
}

/// Whether all is as it should be.
pub(crate) fn takes<R: Threads, G: Gate + Ringed>(
    threads: &R,
    rt: &HostRuntime,
    gate: &mut G,
    stop: &AtomicBool,
    turns: Turns,
) -> bool {
    match turns {
        Turns::RungMeanwhile => turns_until_rung(threads, rt, gate),
        Turns::RungBefore => is_rung_before(rt, gate),
        Turns::Times => takes_its_time(rt, gate),
        Turns::Flag => stops_by_the_flag(gate, stop),
    }
}

static ROWS: [(&'static str, Turns); 4] = [
    ("the_bell_ends_a_wait", Turns::RungMeanwhile),
    ("a_ring_ends_the_next_wait", Turns::RungBefore),
    // rule gate-stop
    ("a_wait_takes_its_time", Turns::Times),
    // rule gate-stop
    ("the_flag_stops_turns_while_it_is_set", Turns::Flag),
];

#[test]
fn turns_of_a_gate(rt: HostRuntime) -> Result<(), Fail> {
    for row in &ROWS {
        if at_gate(&rt, &rt, &rt, None, Work::Turns(row.1))? != RIGHT {
            return Err(row.0.into());
        }
    }
    Ok(())
}
