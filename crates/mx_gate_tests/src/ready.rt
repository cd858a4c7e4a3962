//! Links over a link that answers as planned: a row has those answers, the calls, and what each call answers.

use crate::outside::verdict;
use crate::peers::write;
use mx_gate::{ReadyLink, Signals};
use mx_link::{Link, Read, ScriptLink, ScriptRead, Write};
use mx_types::OutOfMemory;
use std::alloc::Global;
use std::sync::Arc;
use std::test::Fail;

/// A call of a link with its expected answer, or what is reported of connections.
#[derive(Clone, Copy)]
enum Step {
    /// A read into a buffer of two dashes, and the buffer after it.
    Read(Read, [u8; 2]),
    /// A read into a buffer of one dash, which is then full of this byte.
    ReadOne(u8),
    /// A write of the last so many of three bytes, one at least.
    Write(usize, Write),
    /// The connections from one token to before another may be read.
    TellReads(u64, u64),
    /// The other side of the connection of a token sends no more.
    TellEnd(u64),
    /// The connection of a token may be written to.
    TellWrite(u64),
    /// How many of its calls failed.
    Failures(u64),
}

const NOTHING: Step = Step::Read(Read::WouldBlock, *b"--");

const END: Step = Step::Read(Read::End, *b"--");

const TELL_READ: Step = Step::TellReads(0, 1);

const NO_ROOM: Step = Step::Write(3, Write::WouldBlock);

struct Row {
    name: &'static str,
    reads: &'static [ScriptRead<'static>],
    writes: &'static [Write],
    steps: &'static [Step],
}

static ROWS: [Row; 5] = [
    // rule gate-waiting-link
    Row {
        name: "a_link_that_waits_to_read_is_asked_once",
        reads: &[
            ScriptRead::WouldBlock,
            ScriptRead::Bytes(b"ab"),
            ScriptRead::WouldBlock,
            ScriptRead::End,
        ],
        writes: &[],
        steps: &[
            NOTHING,
            NOTHING,
            NOTHING,
            Step::TellWrite(0),
            NOTHING,
            TELL_READ,
            Step::Read(Read::Bytes(2), *b"ab"),
            NOTHING,
            NOTHING,
            TELL_READ,
            END,
            Step::Failures(0),
        ],
    },
    Row {
        name: "a_link_that_waits_to_write_is_asked_once",
        reads: &[],
        writes: &[Write::WouldBlock, Write::Bytes(2), Write::Fault],
        steps: &[
            NO_ROOM,
            NO_ROOM,
            NO_ROOM,
            TELL_READ,
            NO_ROOM,
            Step::TellWrite(0),
            Step::Write(3, Write::Bytes(2)),
            Step::Write(1, Write::Fault),
            Step::Failures(1),
        ],
    },
    Row {
        name: "what_is_told_of_another_connection_tells_nothing",
        reads: &[ScriptRead::WouldBlock, ScriptRead::End],
        writes: &[],
        steps: &[
            NOTHING,
            Step::TellReads(1, 256),
            NOTHING,
            TELL_READ,
            END,
            Step::Failures(0),
        ],
    },
    // rule gate-short-read
    Row {
        name: "a_link_that_gave_less_than_it_was_asked_for_is_not_asked",
        reads: &[
            ScriptRead::Bytes(b"a"),
            ScriptRead::Bytes(b"bc"),
            ScriptRead::Bytes(b"d"),
            ScriptRead::Bytes(b"e"),
            ScriptRead::End,
        ],
        writes: &[],
        steps: &[
            Step::Read(Read::Bytes(1), *b"a-"),
            NOTHING,
            Step::TellWrite(0),
            NOTHING,
            TELL_READ,
            Step::Read(Read::Bytes(2), *b"bc"),
            Step::Read(Read::Bytes(1), *b"d-"),
            NOTHING,
            Step::ReadOne(b'e'),
            END,
            Step::Failures(0),
        ],
    },
    // rule gate-short-read
    Row {
        name: "a_link_whose_end_was_told_is_asked_until_it_gives_it",
        reads: &[
            ScriptRead::Bytes(b"a"),
            ScriptRead::Bytes(b"b"),
            ScriptRead::End,
        ],
        writes: &[],
        steps: &[
            Step::TellEnd(1),
            Step::Read(Read::Bytes(1), *b"a-"),
            NOTHING,
            Step::TellEnd(0),
            TELL_READ,
            Step::Read(Read::Bytes(1), *b"b-"),
            END,
            Step::Failures(0),
        ],
    },
];

/// Reads into two dashes, and compares.
fn reads<L: Link>(link: &mut ReadyLink<L>, answer: Read, bytes: [u8; 2]) -> bool {
    let mut buffer = [b'-'; 2];
    let read = link.try_read(&mut buffer);
    read == answer && buffer == bytes
}

/// Reads into one dash, and compares.
fn reads_one<L: Link>(link: &mut ReadyLink<L>, byte: u8) -> bool {
    let mut buffer = [b'-'; 1];
    let read = link.try_read(&mut buffer);
    read == Read::Bytes(1) && buffer[0] == byte
}

/// Takes the step: whether it answers so.
fn is_so<L: Link>(link: &mut ReadyLink<L>, signals: &Signals, step: Step) -> bool {
    match step {
        Step::Read(answer, bytes) => reads(link, answer, bytes),
        Step::ReadOne(byte) => reads_one(link, byte),
        Step::Write(count, answer) => {
            let bytes = b"abc";
            write(link, &bytes[3 - count.min(3)..]) == answer
        }
        Step::Failures(count) => link.failures() == count,
        Step::TellReads(from, to) => {
            for token in from..to {
                signals.tell_read(token);
            }
            true
        }
        Step::TellEnd(token) => {
            signals.tell_end(token);
            true
        }
        Step::TellWrite(token) => {
            signals.tell_write(token);
            true
        }
    }
}

/// The place of the first step that answers otherwise, counted from 0.
fn first_wrong<L: Link>(
    link: &mut ReadyLink<L>,
    signals: &Signals,
    steps: &[Step],
) -> Option<usize> {
    for place in 0..steps.len() {
        if !is_so(link, signals, steps[place]) {
            return Some(place);
        }
    }
    None
}

/// The same, of a link over the row's script that is told by these signals.
fn first_wrong_by(
    alloc: Global,
    row: &Row,
    signals: &Arc<Signals>,
) -> Result<Option<usize>, OutOfMemory> {
    let script = ScriptLink::new(alloc, row.reads, row.writes)?;
    let told = Arc::try_clone(signals)?;
    let mut link = ReadyLink::over(script, told);
    let wrong = first_wrong(&mut link, signals, row.steps);
    drop(link);
    Ok(wrong)
}

/// The same, by new signals.
fn first_wrong_of(alloc: Global, row: &Row) -> Result<Option<usize>, OutOfMemory> {
    let signals = Arc::new(alloc, Signals::new(alloc)?)?;
    let wrong = first_wrong_by(alloc, row, &signals);
    drop(signals);
    wrong
}

/// Fails with the first row that isn't so, and names it.
pub(crate) fn are_so(alloc: Global) -> Result<(), Fail> {
    for row in &ROWS {
        verdict(row.name, first_wrong_of(alloc, row)?)?;
    }
    Ok(())
}
