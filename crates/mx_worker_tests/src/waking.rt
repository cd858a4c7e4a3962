//! Which workers wake where requests were added.

use crate::trouble::{Trouble, holds};
use mx_crew::{Crew, Runtime};
use mx_gate::Gate;
use std::alloc::AllocGlobal;
use std::net::{Net, TcpListener, TcpStream};
use std::test::Fail;
use std::time::Instant;

/// How long a worker waits that is to wake before, in milliseconds.
const LONG_MS: u32 = 60_000;

/// How long a worker waits that isn't woken, in milliseconds.
const SHORT_MS: u32 = 20;

/// How many requests are added, and which of three workers wake.
struct Waking {
    added: usize,
    wake: [bool; 3],
}

/// One after another of one crew.
static IN_TURN: [Waking; 4] = [
    Waking {
        added: 1,
        wake: [true, false, false],
    },
    Waking {
        added: 2,
        wake: [false, true, true],
    },
    Waking {
        added: 1,
        wake: [true, false, false],
    },
    Waking {
        added: 3,
        wake: [true, true, true],
    },
];

// Whether a worker that waits at this gate wakes before its time is half over.
fn wakes<G: Gate>(gate: &mut G, wait_ms: u32) -> bool {
    let start = gate.now();
    gate.turn(wait_ms);
    gate.now().saturating_sub(start) < u64::from(wait_ms / 2)
}

// Fails unless the workers of these gates wake as they are to.
fn check<G: Gate>(crew: &Crew, gates: &mut [G], row: &Waking) -> Result<(), Trouble> {
    crew.wake(row.added);
    let mut at = 0usize;
    for gate in gates {
        let is_to_wake = matches!(row.wake.get(at), Some(true));
        let wait_ms = if is_to_wake { LONG_MS } else { SHORT_MS };
        holds(wakes(gate, wait_ms) == is_to_wake)?;
        at = at.saturating_add(1);
    }
    Ok(())
}

// Wakes workers of three gates.
fn wake_in_turn<R: Runtime + Net<Listener = TcpListener, Stream = TcpStream>>(
    rt: &R,
    crew: &mut Crew,
) -> Result<(), Trouble> {
    let Ok(start) = Instant::now(rt) else {
        return Err(Trouble::Refused);
    };
    let Ok(gates) = crew.gates(rt, start, 3) else {
        return Err(Trouble::NoMemory);
    };
    let mut gates = gates;
    for row in &IN_TURN {
        check(crew, gates.as_mut_slice(), row)?;
    }
    Ok(())
}

#[test]
fn workers_are_woken_in_turn(rt: HostRuntime) -> Result<(), Fail> {
    let mut crew = Crew::new(rt.alloc())?;
    match wake_in_turn(&rt, &mut crew) {
        Ok(()) => Ok(()),
        Err(Trouble::Wrong) => Err("another worker wakes".into()),
        Err(_) => Err("there is no gate".into()),
    }
}
