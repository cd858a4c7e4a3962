//! Rows of a multi handle on one thread: its calls, and the turns that take place in them, over scripted links.

use crate::gates::gate_of;
use crate::messages::{Wanted, compare};
use crate::runs::work_of;
use crate::steps::{COUNTED, Opening, RUN, Run};
use crate::table::AT_ONCE;
use crate::trouble::{Trouble, holds};
use mx_gate::ScriptGate;
use mx_journal::{AddReply, PauseReply, RemoveReply};
use mx_link::{ScriptLink, ScriptRead};
use mx_solo::Solo;
use mx_types::{Code, HandleId, OutOfMemory};
use std::alloc::Global;
use std::test::Fail;

/// A call, with its expected result.
#[derive(Clone, Copy)]
enum SoloCall {
    /// Adds a GET of the URL under a handle. It has so many milliseconds, and no deadline where these are 0.
    Add(u32, &'static str, u32),
    Remove(u32),
    Pause(u32),
    Unpause(u32),
    /// Takes turns. So many transfers run then.
    Perform(u32),
    /// How long a wait may last from this moment on.
    Timeout(u64, Option<u64>),
    /// Reads a message.
    Read(Wanted),
    /// Retires old history, of which so many events are kept.
    Retire(u32),
}

/// A row: the gate of a multi handle, and the calls on it.
struct OneThread {
    name: &'static str,
    gate: Run,
    calls: &'static [SoloCall],
}

/// A link that gives nothing for two turns.
const SLOW: Opening = Opening::Link(&[
    ScriptRead::WouldBlock,
    ScriptRead::WouldBlock,
    ScriptRead::Bytes(COUNTED),
]);

/// Gates whose turns go on.
const GATE: Run = Run { turns: 100, ..RUN };

static ROWS: [OneThread; 8] = [
    OneThread {
        name: "two responses are read in the order of their ends",
        gate: Run {
            links: &[SLOW, AT_ONCE],
            ..GATE
        },
        calls: &[
            SoloCall::Add(1, "http://a.example/one", 0),
            SoloCall::Add(2, "http://a.example/two", 0),
            SoloCall::Timeout(0, Some(0)),
            SoloCall::Perform(0),
            SoloCall::Read(Wanted::Of(2, Code::Ok, b"hello")),
            SoloCall::Read(Wanted::Of(1, Code::Ok, b"hello")),
            SoloCall::Read(Wanted::Nothing),
        ],
    },
    OneThread {
        name: "a transfer waits for its link, and no call waits",
        gate: Run {
            links: &[SLOW],
            ..GATE
        },
        calls: &[
            SoloCall::Add(1, "http://a.example/", 0),
            SoloCall::Perform(1),
            SoloCall::Timeout(0, None),
            SoloCall::Read(Wanted::Nothing),
            SoloCall::Perform(0),
            SoloCall::Read(Wanted::Of(1, Code::Ok, b"hello")),
        ],
    },
    // rule turn-gone
    OneThread {
        name: "a transfer that is removed in flight has no message",
        gate: Run {
            links: &[SLOW],
            ..GATE
        },
        calls: &[
            SoloCall::Add(1, "http://a.example/", 0),
            SoloCall::Perform(1),
            SoloCall::Remove(1),
            SoloCall::Timeout(0, Some(0)),
            SoloCall::Perform(0),
            SoloCall::Read(Wanted::Nothing),
        ],
    },
    // rule turn-paused
    OneThread {
        name: "a paused transfer is given no link",
        gate: Run {
            links: &[AT_ONCE],
            ..GATE
        },
        calls: &[
            SoloCall::Add(1, "http://a.example/", 0),
            SoloCall::Pause(1),
            SoloCall::Perform(1),
            SoloCall::Timeout(0, None),
            SoloCall::Unpause(1),
            SoloCall::Timeout(0, Some(0)),
            SoloCall::Perform(0),
            SoloCall::Read(Wanted::Of(1, Code::Ok, b"hello")),
        ],
    },
    OneThread {
        name: "a deadline comes between two calls",
        gate: Run {
            links: &[SLOW],
            moments: &[100, 100, 105],
            ..GATE
        },
        calls: &[
            SoloCall::Add(1, "http://a.example/", 5),
            SoloCall::Perform(1),
            SoloCall::Timeout(100, Some(5)),
            SoloCall::Timeout(103, Some(2)),
            SoloCall::Timeout(200, Some(0)),
            SoloCall::Perform(0),
            SoloCall::Read(Wanted::Of(1, Code::OperationTimedout, b"")),
        ],
    },
    OneThread {
        name: "no link can be opened",
        gate: Run {
            links: &[Opening::Refused(Code::CouldntResolveHost)],
            ..GATE
        },
        calls: &[
            SoloCall::Add(1, "http://a.example/", 0),
            SoloCall::Perform(0),
            SoloCall::Read(Wanted::Of(1, Code::CouldntResolveHost, b"")),
        ],
    },
    OneThread {
        name: "a handle that is removed and added again is fetched again",
        gate: Run {
            links: &[SLOW, AT_ONCE],
            ..GATE
        },
        calls: &[
            SoloCall::Add(1, "http://a.example/one", 0),
            SoloCall::Perform(1),
            SoloCall::Remove(1),
            SoloCall::Add(1, "http://a.example/two", 0),
            SoloCall::Perform(0),
            SoloCall::Read(Wanted::Of(1, Code::Ok, b"hello")),
            SoloCall::Read(Wanted::Nothing),
        ],
    },
    OneThread {
        name: "history is retired while a transfer is in flight",
        gate: Run {
            links: &[SLOW],
            ..GATE
        },
        calls: &[
            SoloCall::Retire(0),
            SoloCall::Add(1, "http://a.example/", 0),
            SoloCall::Perform(1),
            SoloCall::Retire(1),
            SoloCall::Perform(0),
            SoloCall::Retire(2),
            SoloCall::Read(Wanted::Of(1, Code::Ok, b"hello")),
            SoloCall::Remove(1),
            SoloCall::Retire(0),
        ],
    },
];

// Adds a GET, which has room.
fn add(
    solo: &mut Solo<ScriptLink>,
    alloc: Global,
    handle: u32,
    url: &str,
    timeout_ms: u32,
) -> Result<(), Trouble> {
    let work = work_of(alloc, url, timeout_ms, 0)?;
    match solo.add(HandleId(handle), work) {
        AddReply::Added(_) => Ok(()),
        _ => Err(Trouble::Wrong),
    }
}

// Makes a call. Fails unless it answers as it should.
fn make(
    solo: &mut Solo<ScriptLink>,
    gate: &mut ScriptGate<ScriptLink>,
    alloc: Global,
    call: SoloCall,
) -> Result<(), Trouble> {
    match call {
        SoloCall::Add(handle, url, timeout_ms) => add(solo, alloc, handle, url, timeout_ms),
        SoloCall::Remove(handle) => holds(solo.remove(HandleId(handle)) == RemoveReply::Removed),
        SoloCall::Pause(handle) => holds(solo.pause(HandleId(handle)) == PauseReply::Changed),
        SoloCall::Unpause(handle) => holds(solo.unpause(HandleId(handle)) == PauseReply::Changed),
        SoloCall::Perform(running) => holds(solo.perform(gate) == running),
        SoloCall::Timeout(now, wait) => holds(solo.timeout(now) == wait),
        SoloCall::Read(wanted) => compare(&solo.info_read(), wanted),
        SoloCall::Retire(kept) => holds(solo.retire() == kept),
    }
}

// Makes the calls of a row.
fn play(alloc: Global, row: &OneThread) -> Result<(), Trouble> {
    let mut gate = gate_of(alloc, &row.gate)?;
    let mut solo = Solo::new(alloc, 2048, 4)?;
    for call in row.calls {
        make(&mut solo, &mut gate, alloc, *call)?;
    }
    Ok(())
}

/// Plays the rows. Fails with the first that goes otherwise, and names it.
pub fn are_so(alloc: Global) -> Result<(), Fail> {
    for row in &ROWS {
        match play(alloc, row) {
            Ok(()) => {}
            Err(Trouble::NoMemory) | Err(Trouble::Refused) => return Err(OutOfMemory.into()),
            Err(Trouble::Wrong) => return Err(row.name.into()),
        }
    }
    Ok(())
}
