//! Transfers that hand the content of their response to a sink, over scripted links.

use crate::replay::{Stop, holds};
use futures::task::Poll;
use futures::test::MockTask;
use mx_link::{ScriptLink, ScriptRead};
use mx_request::{Request, RequestError};
use mx_sink::{MemorySink, Outlet};
use mx_transfer::{Outcome, Transfer};
use mx_types::{Code, Method, Settings};
use std::alloc::Global;

/// What a transfer is made of, and what is seen of its end.
#[derive(Clone, Copy)]
struct Delivered {
    /// What it is about.
    name: &'static str,
    /// How many bytes its sink takes.
    room: usize,
    /// What its link answers to reads, and then the end.
    reads: &'static [ScriptRead<'static>],
    code: Code,
    /// The bytes that the sink got, those that it had no room for, and those that came then.
    got: &'static [u8],
    left: &'static [u8],
    rest: &'static [u8],
}

/// A response whose body comes in three pieces, into a sink that takes all of them.
const ALL: Delivered = Delivered {
    name: "all_is_taken",
    room: 100,
    reads: &[
        ScriptRead::Bytes(b"HTTP/1.1 200 OK\r\nContent-Length: 5\r\n\r\nhe"),
        ScriptRead::WouldBlock,
        ScriptRead::Bytes(b"ll"),
        ScriptRead::WouldBlock,
        ScriptRead::Bytes(b"o"),
    ],
    code: Code::Ok,
    got: b"hello",
    left: b"",
    rest: b"",
};

static ROWS: [Delivered; 5] = [
    ALL,
    Delivered {
        name: "room_for_three_bytes",
        room: 3,
        got: b"hel",
        left: b"l",
        rest: b"o",
        ..ALL
    },
    Delivered {
        name: "no_room_at_the_end",
        room: 4,
        got: b"hell",
        rest: b"o",
        ..ALL
    },
    Delivered {
        name: "body_that_is_cut_off",
        reads: &[
            ScriptRead::Bytes(b"HTTP/1.1 200 OK\r\nContent-Length: 5\r\n\r\nhe"),
            ScriptRead::WouldBlock,
            ScriptRead::End,
        ],
        code: Code::PartialFile,
        got: b"he",
        ..ALL
    },
    Delivered {
        name: "no_body",
        reads: &[ScriptRead::Bytes(b"HTTP/1.1 204 No Content\r\n\r\n")],
        got: b"",
        ..ALL
    },
];

/// Fails unless it has ended as the row says. An end with `OutOfMemory` is reported as that.
fn check_end(outcome: Outcome<Outlet<MemorySink>>, row: &Delivered) -> Result<(), Stop> {
    let code = outcome.code();
    let (outlet, rest) = outcome.into_delivery();
    let is_rest = rest.as_slice() == row.rest;
    drop(rest);
    let is_left = outlet.left() == row.left;
    let is_got = outlet.sink().as_slice() == row.got;
    drop(outlet);
    if code == Code::OutOfMemory {
        return Err(Stop::Memory);
    }
    holds(code == row.code, "the code")?;
    holds(is_got, "what the sink got")?;
    holds(is_left, "what is left")?;
    holds(is_rest, "the rest")
}

/// Polls until it has ended, and at most eight times. Fails unless it ends as the row says.
fn play_on(
    task: &MockTask,
    transfer: &mut Transfer<ScriptLink, Outlet<MemorySink>>,
    row: &Delivered,
) -> Result<(), Stop> {
    for _ in 0..8 {
        if transfer.spent() {
            return Err(Stop::Part("when it ends"));
        }
        if let Poll::Ready(outcome) = task.poll(transfer) {
            return check_end(outcome, row);
        }
    }
    Err(Stop::Part("that it ends"))
}

/// Fails unless the transfer of the row goes so.
fn play(alloc: Global, task: &MockTask, row: &Delivered) -> Result<(), Stop> {
    let request = match Request::build(alloc, Method::Get, "http://h/", Settings::new(alloc)) {
        Ok(request) => request,
        Err(RequestError::OutOfMemory) => return Err(Stop::Memory),
        Err(_) => return Err(Stop::Part("the request")),
    };
    let link = ScriptLink::new(alloc, row.reads, &[])?;
    let outlet = Outlet::new(alloc, MemorySink::new(alloc, row.room), None);
    let mut transfer = Transfer::delivering(alloc, request, outlet);
    transfer.attach(link, false);
    play_on(task, &mut transfer, row)
}

/// Fails with the first row that isn't so, and names it.
pub(crate) fn are_so(alloc: Global, task: &MockTask) -> Result<(), Stop> {
    for row in &ROWS {
        match play(alloc, task, row) {
            Ok(()) => {}
            Err(Stop::Part(part)) => return Err(Stop::Row(row.name, Method::Get, part)),
            Err(stop) => return Err(stop),
        }
    }
    Ok(())
}
