//! Moments of gates over sockets, by a clock of the tests' own.

use crate::gates::{RIGHT, Ringed, Work, at_gate, flag};
use crate::outside::Outside;
use mx_gate::{Gate, SocketGate};
use mx_types::Code;
use std::sync::atomic::Ordering;
use std::test::Fail;
use std::thread::Threads;
use std::time::Instant;

/// The moment of a gate, once the clock is set to that.
fn moment_at<G: Gate>(outside: &Outside<'_>, gate: &mut G, milliseconds: u64) -> u64 {
    outside.milliseconds.store(milliseconds, Ordering::SeqCst);
    gate.now()
}

/// The clock goes on, falls, fails and goes on. The moments of a gate that began at 1000 stay where it fails or falls.
pub(crate) fn tells_moments<G: Gate>(outside: &Outside<'_>, gate: &mut G) -> bool {
    let begun = gate.now();
    let later = moment_at(outside, gate, 1500);
    let fallen = moment_at(outside, gate, 1200);
    outside.is_clock_broken.store(true, Ordering::SeqCst);
    let broken = moment_at(outside, gate, 2000);
    outside.is_clock_broken.store(false, Ordering::SeqCst);
    [begun, later, fallen, broken, gate.now()] == [0, 500, 500, 500, 1000]
}

/// A gate that began at 1000, as it says.
pub(crate) fn tells_since<G: Gate + Ringed>(
    outside: &Outside<'_>,
    start: Instant,
    gate: &mut G,
) -> bool {
    let early = moment_at(outside, gate, 1400);
    let late = moment_at(outside, gate, 2500);
    gate.begun() == start && (early, late) == (400, 1500)
}

/// What is done with a clock.
#[derive(Clone, Copy)]
enum Doing {
    Moments,
    /// A gate that begins now, and a later one that has its start, give the same moments.
    Same,
    /// No gate is made while the clock is broken.
    Broken,
}

static ROWS: [(&'static str, Doing); 3] = [
    (
        "moments_stay_where_the_clock_fails_or_falls",
        Doing::Moments,
    ),
    ("gates_with_one_start_tell_the_same_moments", Doing::Same),
    ("a_gate_without_a_clock_is_refused", Doing::Broken),
];

/// Whether no gate is made while the clock is broken.
fn is_refused(outside: &Outside<'_>) -> Result<bool, Fail> {
    let stop = flag(outside.alloc)?;
    outside.is_clock_broken.store(true, Ordering::SeqCst);
    let refused = SocketGate::new(outside, outside.alloc, stop).err();
    Ok(refused == Some(Code::CouldntConnect))
}

/// Whether two gates with one start give the same moments, one that begins at 1000, and one that is made at 1400.
fn are_same<R: Threads>(
    threads: &R,
    rt: &HostRuntime,
    outside: &Outside<'_>,
) -> Result<bool, Fail> {
    let start = Instant::now(outside)?;
    let work = Work::Since(outside, start);
    let one = at_gate(threads, rt, outside, None, work)?;
    outside.milliseconds.store(1400, Ordering::SeqCst);
    let two = at_gate(threads, rt, outside, Some(start), work)?;
    Ok(one == RIGHT && two == RIGHT)
}

fn is_so<R: Threads>(
    threads: &R,
    rt: &HostRuntime,
    outside: &Outside<'_>,
    doing: Doing,
) -> Result<bool, Fail> {
    outside.milliseconds.store(1000, Ordering::SeqCst);
    match doing {
        Doing::Moments => {
            Ok(at_gate(threads, rt, outside, None, Work::Moments(outside))? == RIGHT)
        }
        Doing::Same => are_same(threads, rt, outside),
        Doing::Broken => is_refused(outside),
    }
}

#[test]
fn moments(rt: HostRuntime) -> Result<(), Fail> {
    for row in &ROWS {
        let outside = Outside::new(rt.alloc(), &[]);
        let so = is_so(&rt, &rt, &outside, row.1);
        drop(outside);
        if !so? {
            return Err(row.0.into());
        }
    }
    Ok(())
}
