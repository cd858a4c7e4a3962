//! A gate and a link that are refused memory. They are made again, and have then to answer as if they had been the first; only then does
//! the test fail, by a text of its own. What it needs for itself is refused as any allocation is. Without a refusal it passes.

use crate::gates::{RIGHT, Seen, Work, at_gate, listening};
use crate::outside::endpoint;
use mx_request::Endpoint;
use mx_types::Code;
use std::sync::atomic::{AtomicBool, Ordering};
use std::test::Fail;
use std::thread::Threads;

/// What a test ends with in which a call was refused memory.
const AGAIN: &str = "memory was refused, and the call answered when it was made again";

// Opens a link of a new gate, each again where memory was refused, which it says here; and awaits its connection.
fn open_by<R: Threads>(
    threads: &R,
    rt: &HostRuntime,
    there: &Endpoint,
    again: &AtomicBool,
) -> Result<Seen, Fail> {
    let work = Work::Again(there, again);
    let seen = at_gate(threads, rt, rt, None, work)?;
    if seen != Err(Code::OutOfMemory) {
        return Ok(seen);
    }
    again.store(true, Ordering::SeqCst);
    at_gate(threads, rt, rt, None, work)
}

// The same, to this port.
fn open_to<R: Threads>(
    threads: &R,
    rt: &HostRuntime,
    port: u16,
    again: &AtomicBool,
) -> Result<Seen, Fail> {
    let there = endpoint(rt.alloc(), "127.0.0.1", port)?;
    let opened = open_by(threads, rt, &there, again);
    drop(there);
    opened
}

/// Nobody accepts the connection, which is made all the same.
#[test]
fn a_gate_and_its_link_are_made_again(rt: HostRuntime) -> Result<(), Fail> {
    let (listener, port) = listening(&rt, "127.0.0.1:0")?;
    let again = AtomicBool::new(false);
    let opened = open_to(&rt, &rt, port, &again);
    drop(listener);
    if opened? != RIGHT {
        return Err("the connection".into());
    }
    if again.load(Ordering::SeqCst) {
        return Err(AGAIN.into());
    }
    Ok(())
}
