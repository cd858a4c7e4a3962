//! A transfer whose connection takes some polls, over a stream of the test's own.

use crate::replay::{Stop, request_of, verdict};
use crate::responses::COUNTED;
use crate::rows::Row;
use crate::table::GET;
use futures::task::Poll;
use futures::test::MockTask;
use mx_link::{Called, Link, Stream, StreamLink};
use mx_transfer::Transfer;
use mx_types::{Code, History, Method};
use std::alloc::Global;
use std::io::ErrorKind;
use std::test::Fail;

/// A stream that has no peer for some checks, and then one, or an error. It takes what is written, and answers with `COUNTED`.
#[derive(Drop)]
struct SlowStream {
    waits: u32,
    is_refused: bool,
    given: usize,
    results: History<Called>,
}

impl Stream for SlowStream {
    ghost results = { λ stream. stream.results };

    fn take_error(&mut self) -> Result<Option<ErrorKind>, ErrorKind> {
        let result = if self.waits == 0 && self.is_refused {
            Ok(Some(ErrorKind::ConnectionRefused))
        } else {
            Ok(None)
        };
        self.results.note(Called::Error(result));
        result
    }

    fn find_peer(&mut self) -> Result<(), ErrorKind> {
        let result = if self.waits == 0 {
            Ok(())
        } else {
            Err(ErrorKind::NotConnected)
        };
        self.waits = self.waits.saturating_sub(1);
        self.results.note(Called::Peer(result));
        result
    }

    fn read(&mut self, buffer: &mut [u8]) -> Result<usize, ErrorKind> {
        let left = &COUNTED[self.given.min(COUNTED.len())..];
        let n = left.len().min(buffer.len());
        buffer[..n].copy_from_slice(&left[..n]);
        self.given = self.given.saturating_add(n);
        let result = Ok(n);
        self.results.note(Called::to_read(result, buffer));
        result
    }

    fn write(&mut self, bytes: &[u8]) -> Result<usize, ErrorKind> {
        let result = Ok(bytes.len());
        self.results.note(Called::to_write(result, bytes));
        result
    }
}

/// The code, or nothing where it is pending or has ended before.
fn poll<L: Link>(task: &MockTask, transfer: &mut Transfer<L>) -> Option<Code> {
    if transfer.spent() {
        return None;
    }
    match task.poll(transfer) {
        Poll::Ready(ended) => {
            let code = ended.code();
            drop(ended);
            Some(code)
        }
        Poll::Pending => None,
    }
}

/// What is seen of a transfer over three polls.
#[derive(Clone, Copy, PartialEq)]
struct Polls {
    token: Option<u64>,
    codes: [Option<Code>; 3],
    /// The first poll leaves its task asleep.
    asleep: bool,
    /// Whether the task that waits for the link then wakes it.
    woken: bool,
    received: u32,
    code: Option<Code>,
}

fn take_polls<L: Link>(task: &MockTask, transfer: &mut Transfer<L>) -> Polls {
    let token = transfer.token();
    let first = poll(task, transfer);
    let asleep = !task.is_woken();
    transfer.wake();
    let woken = task.is_woken();
    let codes = [first, poll(task, transfer), poll(task, transfer)];
    Polls {
        token,
        codes,
        asleep,
        woken,
        received: transfer.received(),
        code: transfer.code(),
    }
}

/// A GET of the root.
static ROOT: Row<'static> = Row {
    url: "http://127.0.0.1/",
    ..GET
};

/// A link whose connection takes so many checks, and then stands or is refused.
fn slow_link(waits: u32, is_refused: bool) -> StreamLink<SlowStream> {
    let stream = SlowStream {
        waits,
        is_refused,
        given: 0,
        results: History::new(),
    };
    StreamLink::over(stream, 9)
}

/// Hands over a link, where one is wanted.
fn attach<L: Link>(transfer: &mut Transfer<L>, link: L) {
    if transfer.wants().is_some() {
        transfer.attach(link, false);
    }
}

/// Hands over a link, and polls.
fn connect_over<L: Link>(alloc: Global, task: &MockTask, link: L) -> Result<Polls, Stop> {
    let request = request_of(alloc, Method::Get, &ROOT)?;
    let mut transfer = Transfer::new(alloc, request);
    attach(&mut transfer, link);
    let polls = take_polls(task, &mut transfer);
    drop(transfer);
    Ok(polls)
}

/// What is seen of a connection that is made at the third poll.
const STANDS: Polls = Polls {
    token: Some(9),
    codes: [None, None, Some(Code::Ok)],
    asleep: true,
    woken: true,
    received: 43,
    code: Some(Code::Ok),
};

/// What is seen of one that is refused at the second poll.
const FAILS: Polls = Polls {
    codes: [None, Some(Code::CouldntConnect), None],
    received: 0,
    code: Some(Code::CouldntConnect),
    ..STANDS
};

/// Fails with this name unless just this is seen of a connection that takes so many checks, and then stands or is refused.
fn connect(
    alloc: Global,
    task: &MockTask,
    name: &'static str,
    link: StreamLink<SlowStream>,
    polls: &Polls,
) -> Result<(), Stop> {
    let seen = connect_over(alloc, task, link)?;
    if seen == *polls {
        return Ok(());
    }
    Err(Stop::Part(name))
}

fn connect_all(alloc: Global, task: &MockTask) -> Result<(), Stop> {
    let name = "a_connection_takes_its_polls";
    connect(alloc, task, name, slow_link(2, false), &STANDS)?;
    // rule exchange-connect
    let name = "a_connection_that_fails_is_code_7";
    connect(alloc, task, name, slow_link(1, true), &FAILS)
}

#[test]
fn connections_that_take_some_polls(rt: HostRuntime) -> Result<(), Fail> {
    let task = MockTask::new(&rt)?;
    let connected = connect_all(rt.alloc(), &task);
    drop(task);
    verdict(rt.alloc(), connected)
}
