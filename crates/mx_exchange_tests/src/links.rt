//! Links that follow a script, and links over a stream that is interrupted: a row is a link, the calls of it, and what each answers.

use crate::interrupted::interrupted;
use mx_link::{Connect, Link, Read, ScriptLink, ScriptRead, Write};
use mx_types::OutOfMemory;
use std::alloc::{AllocGlobal, Global};
use std::test::Fail;

/// A call of a link, and what it is to answer.
#[derive(Clone, Copy)]
pub(crate) enum LinkCall<'a> {
    /// A read into a buffer of three dashes, and what is then at its front.
    Read(Read, &'a [u8]),
    /// A write of these bytes, one at least.
    Write(&'a [u8], Write),
    /// Whether the connection is made.
    Connect(Connect),
    Token(u64),
    /// How many reads and writes have failed.
    Failures(u64),
}

/// What a link is made of.
#[derive(Clone, Copy)]
enum Made {
    /// Its reads and its writes answer so, and then they end, or take all.
    Script(&'static [ScriptRead<'static>], &'static [Write]),
    /// Its stream is interrupted so often, and then gives `x`s and takes bytes, one at a time.
    Interrupted(u32),
}

struct Row {
    name: &'static str,
    link: Made,
    steps: &'static [LinkCall<'static>],
}

static SCRIPTED: [Row; 3] = [
    Row {
        name: "what_a_buffer_cannot_hold_comes_with_the_next_read",
        link: Made::Script(
            &[
                ScriptRead::Bytes(b"hello"),
                ScriptRead::Bytes(b""),
                ScriptRead::WouldBlock,
            ],
            &[],
        ),
        steps: &[
            LinkCall::Read(Read::Bytes(3), b"hel"),
            LinkCall::Read(Read::Bytes(2), b"lo-"),
            LinkCall::Read(Read::WouldBlock, b"---"),
            LinkCall::Read(Read::End, b"---"),
        ],
    },
    // rule link-failures
    Row {
        name: "a_fault_is_counted",
        link: Made::Script(&[ScriptRead::End, ScriptRead::Fault], &[]),
        steps: &[
            LinkCall::Token(0),
            LinkCall::Connect(Connect::Done),
            LinkCall::Read(Read::End, b"---"),
            LinkCall::Failures(0),
            LinkCall::Read(Read::Fault, b"---"),
            LinkCall::Failures(1),
        ],
    },
    // rule link-counts
    Row {
        name: "writes_take_what_is_planned",
        link: Made::Script(
            &[],
            &[
                Write::Bytes(0),
                Write::Bytes(2),
                Write::WouldBlock,
                Write::Bytes(9),
                Write::Fault,
            ],
        ),
        steps: &[
            LinkCall::Write(b"hello", Write::Bytes(2)),
            LinkCall::Write(b"llo", Write::WouldBlock),
            LinkCall::Write(b"llo", Write::Bytes(3)),
            LinkCall::Write(b"!", Write::Fault),
            LinkCall::Write(b"all of it", Write::Bytes(9)),
        ],
    },
];

// rule link-interrupted
/// What is interrupted (EINTR) is asked again at once, 64 times at most: the answer is that of the call that went through.
static INTERRUPTED: [Row; 6] = [
    Row {
        name: "an_interrupted_read_is_made_again",
        link: Made::Interrupted(1),
        steps: &[LinkCall::Read(Read::Bytes(1), b"x--")],
    },
    Row {
        name: "an_interrupted_write_is_made_again",
        link: Made::Interrupted(1),
        steps: &[LinkCall::Write(b"bytes", Write::Bytes(1))],
    },
    Row {
        name: "a_read_is_made_again_64_times",
        link: Made::Interrupted(64),
        steps: &[LinkCall::Read(Read::Bytes(1), b"x--")],
    },
    Row {
        name: "a_write_is_made_again_64_times",
        link: Made::Interrupted(64),
        steps: &[LinkCall::Write(b"bytes", Write::Bytes(1))],
    },
    Row {
        name: "a_read_that_is_interrupted_65_times_has_failed",
        link: Made::Interrupted(65),
        steps: &[LinkCall::Read(Read::Fault, b"")],
    },
    Row {
        name: "a_write_that_is_interrupted_65_times_has_failed",
        link: Made::Interrupted(65),
        steps: &[LinkCall::Write(b"bytes", Write::Fault)],
    },
];

/// What a read into a buffer of three dashes answers, and the buffer.
pub(crate) fn read_three<L: Link>(link: &mut L) -> (Read, [u8; 3]) {
    let mut buffer = [b'-'; 3];
    let read = link.try_read(&mut buffer);
    (read, buffer)
}

/// What a write answers; of nothing, that it took nothing.
pub(crate) fn write<L: Link>(link: &mut L, bytes: &[u8]) -> Write {
    if bytes.is_empty() {
        return Write::Bytes(0);
    }
    link.try_write(bytes)
}

/// Makes the call: whether it answers so.
fn is_so<L: Link>(link: &mut L, step: LinkCall<'_>) -> bool {
    match step {
        LinkCall::Read(answer, front) => {
            let (read, buffer) = read_three(link);
            read == answer && buffer.starts_with(front)
        }
        LinkCall::Write(bytes, answer) => write(link, bytes) == answer,
        LinkCall::Connect(answer) => link.try_connect() == answer,
        LinkCall::Token(token) => link.token() == token,
        LinkCall::Failures(count) => link.failures() == count,
    }
}

/// The place of the first call that answers otherwise, counted from 0.
pub(crate) fn first_wrong<L: Link>(link: &mut L, steps: &[LinkCall<'_>]) -> Option<usize> {
    for place in 0..steps.len() {
        if !is_so(link, steps[place]) {
            return Some(place);
        }
    }
    None
}

/// The same, of a link that is dropped then.
fn first_wrong_over<L: Link>(link: L, steps: &[LinkCall<'_>]) -> Option<usize> {
    let mut link = link;
    let wrong = first_wrong(&mut link, steps);
    drop(link);
    wrong
}

/// The same, of a new link.
fn first_wrong_of(alloc: Global, row: &Row) -> Result<Option<usize>, OutOfMemory> {
    match row.link {
        Made::Script(reads, writes) => {
            let link = ScriptLink::new(alloc, reads, writes)?;
            Ok(first_wrong_over(link, row.steps))
        }
        Made::Interrupted(count) => Ok(first_wrong_over(interrupted(count), row.steps)),
    }
}

/// Fails with the first row that isn't so, and names it.
fn are_so(alloc: Global, rows: &[Row]) -> Result<(), Fail> {
    for row in rows {
        if let Some(place) = first_wrong_of(alloc, row)? {
            let name = row.name;
            return Err(format!(in alloc; "{name}: step {place} answers something else")?.into());
        }
    }
    Ok(())
}

#[test]
fn links_without_a_socket(rt: HostRuntime) -> Result<(), Fail> {
    are_so(rt.alloc(), &SCRIPTED)?;
    are_so(rt.alloc(), &INTERRUPTED)
}
