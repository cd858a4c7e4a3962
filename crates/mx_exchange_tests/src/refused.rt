//! Links and transfers that are refused memory, as any of their growths may be. A transfer that was ends with 27 and without a body, and
//! then a new one has to end as if it had been the first; a copy of a body that was refused is made again, and so is a link. Only then does
//! a test fail, by a text of its own. What it needs for itself is refused as any allocation is. Without a refusal all of them pass.

use crate::faults::one_by_one;
use crate::hops::TWICE;
use crate::links::{LinkCall, first_wrong};
use crate::replay::{Stop, attach_script, poll, request_of, transfer_of, verdict};
use crate::responses::{CHUNKED, COUNTED, FOUND};
use futures::test::MockTask;
use mx_link::{Read, ScriptLink, ScriptRead, Write};
use mx_transfer::{Outcome, Transfer};
use mx_types::{Code, Ending, Method, OutOfMemory};
use std::alloc::Global;
use std::test::Fail;

/// What a test ends with in which a call was refused memory.
const AGAIN: &str = "memory was refused, and the call answered when it was made again";

/// How a call went.
#[derive(Clone, Copy, PartialEq)]
enum Went {
    /// It answered as it should.
    Right,
    /// It was refused memory.
    Refused,
    /// It answered something else.
    Wrong,
}

/// A transfer that ends with the body `hello` in one part: the bytes that its last link gives, how many hops it has, and whether it keeps
/// the heads alone of those that it follows.
#[derive(Clone, Copy)]
struct Row<'a> {
    links: &'a [&'a [ScriptRead<'a>]],
    wire: &'a [u8],
    hops: usize,
    heads_alone: bool,
}

// How a transfer ended. Of one that was refused memory the bytes that its last link gave are there up to some read.
fn end_of(outcome: &Outcome, row: &Row<'_>) -> Went {
    let is_empty = outcome.part_count() == 0 && outcome.body_len() == 0;
    if outcome.code() == Code::OutOfMemory {
        let is_front = outcome.hops() < row.hops || row.wire.starts_with(outcome.wire());
        return if is_empty && is_front {
            Went::Refused
        } else {
            Went::Wrong
        };
    }
    let is_right = (outcome.code(), outcome.status(), outcome.hops()) == (Code::Ok, 200, row.hops)
        && outcome.wire() == row.wire
        && outcome.part_count() == 1
        && outcome.part(0) == Some(b"hello")
        && outcome.size() == 5;
    if is_right { Went::Right } else { Went::Wrong }
}

// Copies the body.
fn copy(alloc: Global, outcome: &Outcome) -> Went {
    match outcome.copy_body(alloc) {
        Err(OutOfMemory) => Went::Refused,
        Ok(body) if body.as_slice() == b"hello".as_slice() => Went::Right,
        Ok(_) => Went::Wrong,
    }
}

// How a transfer ended, and how its body was copied then: once more where that was refused memory.
fn judge(alloc: Global, outcome: &Outcome, row: &Row<'_>) -> Went {
    let went = end_of(outcome, row);
    if went != Went::Right {
        return went;
    }
    match copy(alloc, outcome) {
        Went::Refused if copy(alloc, outcome) != Went::Right => Went::Wrong,
        went => went,
    }
}

// Polls until it has ended or wants a link: how it ended, if it did.
fn poll_on(
    alloc: Global,
    task: &MockTask,
    transfer: &mut Transfer<ScriptLink>,
    row: &Row<'_>,
) -> Option<Went> {
    for _ in 0..4 {
        if transfer.spent() || transfer.wants().is_some() {
            return None;
        }
        if let Some(outcome) = poll(task, transfer) {
            let went = judge(alloc, &outcome, row);
            drop(outcome);
            return Some(went);
        }
    }
    None
}

// Serves a transfer by the links of a row, one for each hop.
fn serve(
    alloc: Global,
    task: &MockTask,
    transfer: &mut Transfer<ScriptLink>,
    row: &Row<'_>,
) -> Result<Went, Stop> {
    for reads in row.links {
        attach_script(alloc, transfer, *reads, &[], false)?;
        if let Some(went) = poll_on(alloc, task, transfer, row) {
            return Ok(went);
        }
    }
    Ok(Went::Wrong)
}

// Serves a new transfer.
fn run(alloc: Global, task: &MockTask, row: &Row<'_>) -> Result<Went, Stop> {
    let request = request_of(alloc, Method::Get, &TWICE)?;
    let mut transfer = transfer_of(alloc, request, row.heads_alone);
    let served = serve(alloc, task, &mut transfer, row);
    drop(transfer);
    served
}

// Serves a new transfer, and another where memory was refused.
fn run_again(alloc: Global, task: &MockTask, row: &Row<'_>) -> Result<(), Stop> {
    match run(alloc, task, row)? {
        Went::Right => Ok(()),
        Went::Wrong => Err(Stop::Part("another end")),
        Went::Refused => match run(alloc, task, row)? {
            Went::Right => Err(Stop::Part(AGAIN)),
            _ => Err(Stop::Part("another end when memory was available")),
        },
    }
}

fn run_byte_by_byte(alloc: Global, task: &MockTask) -> Result<(), Stop> {
    let reads = one_by_one(alloc, 72, None)?;
    let row = Row {
        links: &[reads.as_slice()],
        wire: CHUNKED,
        hops: 1,
        heads_alone: false,
    };
    let ran = run_again(alloc, task, &row);
    drop(reads);
    ran
}

/// A response that comes byte by byte.
#[test]
fn a_transfer_is_made_again(rt: HostRuntime) -> Result<(), Fail> {
    let task = MockTask::new(&rt)?;
    let ran = run_byte_by_byte(rt.alloc(), &task);
    drop(task);
    verdict(rt.alloc(), ran)
}

fn run_chain(alloc: Global, task: &MockTask) -> Result<(), Stop> {
    let row = Row {
        links: &[&[ScriptRead::Bytes(FOUND)], &[ScriptRead::Bytes(COUNTED)]],
        wire: COUNTED,
        hops: 2,
        heads_alone: false,
    };
    let heads_alone = true;
    run_again(alloc, task, &row)?;
    run_again(alloc, task, &Row { heads_alone, ..row })
}

/// A response after a redirect.
#[test]
fn a_chain_is_made_again(rt: HostRuntime) -> Result<(), Fail> {
    let task = MockTask::new(&rt)?;
    let ran = run_chain(rt.alloc(), &task);
    drop(task);
    verdict(rt.alloc(), ran)
}

static READS: [ScriptRead<'static>; 4] = [
    ScriptRead::Bytes(b"hello"),
    ScriptRead::WouldBlock,
    ScriptRead::End,
    ScriptRead::Fault,
];

static WRITES: [Write; 3] = [Write::Bytes(2), Write::WouldBlock, Write::Fault];

static ASKED: [LinkCall<'static>; 9] = [
    LinkCall::Read(Read::Bytes(3), b"hel"),
    LinkCall::Read(Read::Bytes(2), b"lo-"),
    LinkCall::Read(Read::WouldBlock, b"---"),
    LinkCall::Read(Read::End, b"---"),
    LinkCall::Read(Read::Fault, b"---"),
    LinkCall::Write(b"hello", Write::Bytes(2)),
    LinkCall::Write(b"llo", Write::WouldBlock),
    LinkCall::Write(b"llo", Write::Fault),
    LinkCall::Write(b"llo", Write::Bytes(3)),
];

// The link, made again where memory was refused; and whether it was.
fn link(alloc: Global) -> Result<(ScriptLink, bool), OutOfMemory> {
    match ScriptLink::new(alloc, &READS, &WRITES) {
        Ok(link) => Ok((link, false)),
        Err(OutOfMemory) => Ok((ScriptLink::new(alloc, &READS, &WRITES)?, true)),
    }
}

#[test]
fn a_link_is_made_again(rt: HostRuntime) -> Result<(), Fail> {
    let (mut link, is_refused) = link(rt.alloc())?;
    let wrong = first_wrong(&mut link, &ASKED);
    drop(link);
    if wrong.is_some() {
        return Err("the link answers something else".into());
    }
    if is_refused {
        return Err(AGAIN.into());
    }
    Ok(())
}
