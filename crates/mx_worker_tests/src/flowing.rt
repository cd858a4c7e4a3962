//! Workers whose transfers hand their content to sinks.
ghost use Rattle.std.specs.Prelude.{◌≡◌, [], All, true};

use crate::gates::gate_of;
use crate::open::{Parts, open};
use crate::runs::{added, request_of};
use crate::steps::{Opening, RUN, Run};
use crate::trouble::{Trouble, holds};
use mx_journal::InfoReply;
use mx_link::{ScriptLink, ScriptRead};
use mx_multi::{Application, AtWork, Seated};
use mx_sink::{Outlet, Sink, SinkError};
use mx_transfer_core::Outcome;
use mx_types::{Code, HandleId, OutOfMemory};
use mx_worker::{Queued, run_worker};
use std::alloc::{AllocGlobal, Global};
use std::sync::Wait;
use std::test::Fail;

/// A sink that has no room at so many looks, and takes so many pieces before it fails.
#[derive(Drop)]
struct FussySink {
    bytes: Vec<u8>,
    // How often it is still to say that it has no room.
    looks: u32,
    // How many pieces it is still to take.
    pieces: u32,
    has_room: bool,
}

impl Sink for FussySink {
    ghost got = { λ s. s.bytes.items };

    ghost room = { λ s. s.has_room };

    ghost target = { λ s. [] };

    fn has_room(&mut self) -> bool {
        self.has_room = self.looks == 0;
        self.looks = self.looks.saturating_sub(1);
        self.has_room
    }

    fn put(&mut self, bytes: &[u8]) -> Result<usize, SinkError> {
        if self.pieces == 0 {
            return Err(SinkError::WriteError);
        }
        if self.bytes.extend_from_slice(bytes).is_err() {
            return Err(SinkError::OutOfMemory);
        }
        self.pieces -= 1;
        Ok(bytes.len())
    }
}

type Work = Queued<ScriptLink, Outlet<FussySink>>;

type End = Outcome<Outlet<FussySink>>;

/// A transfer and its sink.
#[derive(Clone, Copy)]
struct Flow {
    /// How often its sink has no room, and how many pieces it takes.
    looks: u32,
    pieces: u32,
    /// Its milliseconds, where these aren't 0.
    timeout_ms: u32,
    /// What its message says, what its sink got, and what that had no room for.
    code: Code,
    got: &'static [u8],
    left: &'static [u8],
}

/// One that is delivered whole.
const WHOLE: Flow = Flow {
    looks: 0,
    pieces: 1_000,
    timeout_ms: 0,
    code: Code::Ok,
    got: b"hello",
    left: b"",
};

/// A row: transfers that are added at once, and served by one worker; and the handles of the messages, in order.
struct Flowing {
    name: &'static str,
    flows: &'static [Flow],
    run: Run,
    handles: &'static [u32],
}

/// A response in three pieces, with a look between them that finds nothing to read.
const PIECES: Opening = Opening::Link(&[
    ScriptRead::Bytes(b"HTTP/1.1 200 OK\r\nContent-Length: 5\r\n\r\nhe"),
    ScriptRead::WouldBlock,
    ScriptRead::Bytes(b"ll"),
    ScriptRead::WouldBlock,
    ScriptRead::Bytes(b"o"),
]);

static ROWS: [Flowing; 6] = [
    Flowing {
        name: "content comes in pieces",
        flows: &[WHOLE],
        run: Run {
            turns: 6,
            links: &[PIECES],
            recorded: 1,
            ..RUN
        },
        handles: &[0],
    },
    // rule turn-room
    Flowing {
        name: "a sink without room pauses its transfer, and no other",
        flows: &[Flow { looks: 4, ..WHOLE }, WHOLE],
        run: Run {
            turns: 9,
            links: &[PIECES, PIECES],
            recorded: 2,
            ..RUN
        },
        handles: &[1, 0],
    },
    // rule turn-room
    Flowing {
        name: "the deadline comes while a sink has no room",
        flows: &[Flow {
            looks: 1_000,
            timeout_ms: 5,
            code: Code::OperationTimedout,
            got: b"",
            ..WHOLE
        }],
        run: Run {
            turns: 9,
            links: &[PIECES],
            ticks: 40,
            recorded: 1,
            ..RUN
        },
        handles: &[0],
    },
    Flowing {
        name: "a sink fails at its first piece",
        flows: &[Flow {
            pieces: 0,
            code: Code::WriteError,
            got: b"",
            left: b"he",
            ..WHOLE
        }],
        run: Run {
            turns: 6,
            links: &[PIECES],
            recorded: 1,
            ..RUN
        },
        handles: &[0],
    },
    Flowing {
        name: "a sink fails at its last piece",
        flows: &[Flow {
            pieces: 2,
            code: Code::WriteError,
            got: b"hell",
            left: b"o",
            ..WHOLE
        }],
        run: Run {
            turns: 6,
            links: &[PIECES],
            recorded: 1,
            ..RUN
        },
        handles: &[0],
    },
    Flowing {
        name: "a link fails in the body",
        flows: &[Flow {
            code: Code::PartialFile,
            got: b"he",
            ..WHOLE
        }],
        run: Run {
            turns: 6,
            links: &[Opening::Link(&[
                ScriptRead::Bytes(b"HTTP/1.1 200 OK\r\nContent-Length: 5\r\n\r\nhe"),
                ScriptRead::End,
            ])],
            recorded: 1,
            ..RUN
        },
        handles: &[0],
    },
];

// The work of a flow.
fn work_of(alloc: Global, flow: &Flow) -> Result<Work, Trouble> {
    let request = request_of(alloc, "http://a.example/", flow.timeout_ms, 0)?;
    let sink = FussySink {
        bytes: Vec::new(alloc),
        looks: flow.looks,
        pieces: flow.pieces,
        has_room: true,
    };
    match Queued::delivering(alloc, request, Outlet::new(alloc, sink, None)) {
        Ok(work) => Ok(work),
        Err(_) => Err(Trouble::NoMemory),
    }
}

// Fails unless a flow ended as it should.
fn check_end(end: End, flow: &Flow) -> Result<(), Trouble> {
    let code = end.code();
    let (outlet, rest) = end.into_delivery();
    let is_rest = rest.is_empty();
    drop(rest);
    let is_so = outlet.left() == flow.left && outlet.sink().bytes.as_slice() == flow.got;
    drop(outlet);
    if code == Code::OutOfMemory {
        return Err(Trouble::Refused);
    }
    holds(code == flow.code && is_so && is_rest)
}

// Fails unless a message is of this handle, and says what its flow should.
fn check(reply: InfoReply<End>, own: u32, flows: &[Flow]) -> Result<(), Trouble> {
    match reply {
        InfoReply::Message { handle, ending, .. } => match flows.get(own as usize) {
            Some(flow) if handle.0 == own => check_end(ending, flow),
            _ => {
                drop(ending);
                Err(Trouble::Wrong)
            }
        },
        InfoReply::Empty => Err(Trouble::Wrong),
        InfoReply::OutOfMemory => Err(Trouble::Refused),
    }
}

// Adds each flow of a row under its place.
fn add_each<R: Wait + AllocGlobal>(
    rt: &R,
    seat: &mut Seated<'_, Application, Work, End>,
    flows: &[Flow],
) -> Result<(), Trouble> {
    let mut own = 0u32;
    for flow in flows {
        let work = work_of(rt.alloc(), flow)?;
        added(seat.add(rt, HandleId(own), work))?;
        own = own.saturating_add(1);
    }
    Ok(())
}

// Reads the messages of a row.
fn read_each<R: Wait>(
    rt: &R,
    seat: &mut Seated<'_, Application, Work, End>,
    row: &Flowing,
) -> Result<(), Trouble> {
    for own in row.handles {
        let Ok(reply) = seat.info_read(rt) else {
            return Err(Trouble::Wrong);
        };
        check(reply, *own, row.flows)?;
    }
    Ok(())
}

// Runs a worker, which is to end as the row says. Its seat is dropped.
fn run<R: Wait + AllocGlobal>(
    rt: &R,
    worker: Seated<'_, AtWork, Work, End>,
    row: &Flowing,
) -> Result<(), Trouble> {
    let mut gate = match gate_of(rt.alloc(), &row.run) {
        Ok(gate) => gate,
        Err(trouble) => {
            drop(worker);
            return Err(trouble);
        }
    };
    let end = run_worker(rt, worker, &mut gate);
    let ended = (end.recorded, end.stale, end.given_back);
    let is_refused = end.refused;
    drop(end);
    drop(gate);
    if is_refused {
        return Err(Trouble::Refused);
    }
    holds(ended == (row.run.recorded, row.run.stale, row.run.given_back))
}

// Plays a row with these seats.
fn play_seated<'m, R: Wait + AllocGlobal>(
    rt: &R,
    seat: &mut Seated<'m, Application, Work, End>,
    worker: Seated<'m, AtWork, Work, End>,
    row: &Flowing,
) -> Result<(), Trouble> {
    if let Err(trouble) = add_each(rt, seat, row.flows) {
        drop(worker);
        return Err(trouble);
    }
    run(rt, worker, row)?;
    read_each(rt, seat, row)
}

// Plays a row at the parts of a multi handle.
fn play_parts<R: Wait + AllocGlobal>(
    rt: &R,
    parts: Parts<Work, End>,
    row: &Flowing,
) -> Result<(), Trouble>
    requires seat { parts.seat.of ≡ parts.multi }
    requires workers { All (λ s. s.of ≡ parts.multi) parts.workers.items }
{
    let Parts {
        multi,
        seat,
        mut workers,
    } = parts;
    let shared = multi.shared();
    let mut seat = shared.at(seat);
    let played = match workers.pop() {
        Some(worker) => play_seated(rt, &mut seat, shared.at(worker), row),
        None => Err(Trouble::Wrong),
    };
    drop(seat);
    drop(workers);
    multi.close(rt);
    played
}

/// Plays the rows. Fails with the first that goes otherwise, and names it.
pub fn are_so<R: Wait + AllocGlobal>(rt: &R) -> Result<(), Fail> {
    for row in &ROWS {
        let parts = open(rt, 4)?;
        match play_parts(rt, parts, row) {
            Ok(()) => {}
            Err(Trouble::NoMemory) | Err(Trouble::Refused) => return Err(OutOfMemory.into()),
            Err(Trouble::Wrong) => return Err(row.name.into()),
        }
    }
    Ok(())
}
