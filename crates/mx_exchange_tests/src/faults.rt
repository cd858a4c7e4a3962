//! A link that fails or ends at each read and at each write of one transfer: the code, and the bytes that came before.

use crate::replay::{Stop, is_so, verdict};
use crate::responses::CHUNKED;
use crate::rows::Call::{Fresh, Poll, Reused};
use crate::rows::{Call, Ends, Row, Waiting};
use crate::table::{GET, LOST, SERVED};
use futures::test::MockTask;
use mx_link::ScriptRead::{Bytes, End, Fault, WouldBlock};
use mx_link::{ScriptRead, Write};
use mx_types::{Code, OutOfMemory};
use std::alloc::Global;
use std::test::Fail;

/// A GET whose request has 56 bytes.
static SHORT: Row<'static> = Row {
    url: "http://127.0.0.1:8080/a?b",
    ..GET
};

/// It has read 64 times, as often as a poll does at most, and asks for the next.
const READING: Waiting = Waiting {
    asks: true,
    received: 64,
    ..SERVED
};

/// Reads of `CHUNKED`, a byte each, of which one answers something else.
struct ReadRow {
    name: &'static str,
    /// Which read that is: the first and the last one that are tried.
    at: (usize, usize),
    answer: ScriptRead<'static>,
    /// With which code and which status the transfer ends then.
    ends: (Code, u16),
}

/// The head has 47 bytes.
static READS: [ReadRow; 5] = [
    ReadRow {
        name: "a_fault_in_the_head",
        at: (0, 46),
        answer: Fault,
        ends: (Code::RecvError, 0),
    },
    ReadRow {
        name: "a_fault_behind_the_head",
        at: (47, 71),
        answer: Fault,
        ends: (Code::RecvError, 200),
    },
    ReadRow {
        name: "an_end_before_the_head",
        at: (0, 0),
        answer: End,
        ends: (Code::GotNothing, 0),
    },
    ReadRow {
        name: "an_end_in_the_head",
        at: (1, 46),
        answer: End,
        ends: (Code::WeirdServerReply, 0),
    },
    ReadRow {
        name: "an_end_behind_the_head",
        at: (47, 71),
        answer: End,
        ends: (Code::PartialFile, 200),
    },
];

/// Reads of one byte each, so many of `CHUNKED`, and then perhaps one that answers this.
pub(crate) fn one_by_one(
    alloc: Global,
    count: usize,
    last: Option<ScriptRead<'static>>,
) -> Result<Vec<ScriptRead<'static>>, OutOfMemory> {
    let mut reads = Vec::new(alloc);
    for at in 0..count.min(72) {
        reads.push(Bytes(&CHUNKED[at..at + 1]))?;
    }
    if let Some(answer) = last {
        reads.push(answer)?;
    }
    Ok(reads)
}

/// Fails unless these calls show this.
fn sees<'a>(
    alloc: Global,
    task: &MockTask,
    name: &'static str,
    calls: &'a [Call<'a>],
    waits: &'a [Waiting],
    ends: Ends<'a>,
) -> Result<(), Stop> {
    let row = Row {
        name,
        calls,
        waits,
        ends,
        ..SHORT
    };
    is_so(alloc, task, &row)
}

/// Over a fresh link that reads so it ends so, in its second poll where there are more reads than one poll has.
fn ends_by(
    alloc: Global,
    task: &MockTask,
    name: &'static str,
    reads: &[ScriptRead<'_>],
    ends: Ends<'_>,
) -> Result<(), Stop> {
    let waits: &[Waiting] = if reads.len() > 64 { &[READING] } else { &[] };
    sees(
        alloc,
        task,
        name,
        &[Fresh(reads, &[]), Poll, Poll],
        waits,
        ends,
    )
}

/// It ends so where so many bytes are read, and then perhaps something else is answered.
fn ends_at(
    alloc: Global,
    task: &MockTask,
    name: &'static str,
    at: usize,
    last: Option<ScriptRead<'static>>,
    ends: Ends<'_>,
) -> Result<(), Stop> {
    let reads = one_by_one(alloc, at, last)?;
    let ended = ends_by(alloc, task, name, reads.as_slice(), ends);
    drop(reads);
    ended
}

/// It ends so where the first, the second and so on up to the last of these reads answers something else.
fn ends_at_each(alloc: Global, task: &MockTask, row: &ReadRow) -> Result<(), Stop> {
    let (first, last) = row.at;
    let (code, status) = row.ends;
    for at in first..=last {
        let ends = Ends::Failed(code, status, &CHUNKED[..at.min(72)]);
        ends_at(alloc, task, row.name, at, Some(row.answer), ends)?;
    }
    Ok(())
}

/// So many writes of one byte, and one that fails.
fn fails_at_write(alloc: Global, at: usize) -> Result<Vec<Write>, OutOfMemory> {
    let mut writes = vec![in alloc; Write::Bytes(1); at]?;
    writes.push(Write::Fault)?;
    Ok(writes)
}

/// Over a fresh link that writes so a transfer fails.
fn fails_over_fresh(alloc: Global, task: &MockTask, writes: &[Write]) -> Result<(), Stop> {
    let name = "a_fault_at_a_write";
    let calls = [Fresh(&[Bytes(CHUNKED)], writes), Poll];
    let ends = Ends::Failed(Code::SendError, 0, b"");
    sees(alloc, task, name, &calls, &[], ends)
}

/// Over a link that was in use it wants a fresh one first.
fn fails_over_reused(alloc: Global, task: &MockTask, writes: &[Write]) -> Result<(), Stop> {
    let name = "a_fault_at_a_write_of_a_reused_link";
    let fresh = Fresh(&[Bytes(CHUNKED)], writes);
    let calls = [Reused(&[WouldBlock], writes), Poll, fresh, Poll];
    let ends = Ends::Failed(Code::SendError, 0, b"");
    sees(alloc, task, name, &calls, &[LOST], ends)
}

/// Over a fresh link whose fault is behind the last write it ends well.
fn ends_over(alloc: Global, task: &MockTask, writes: &[Write]) -> Result<(), Stop> {
    let name = "a_fault_behind_the_last_write";
    let calls = [Fresh(&[Bytes(CHUNKED)], writes), Poll];
    sees(alloc, task, name, &calls, &[], Ends::Hello(CHUNKED, 1))
}

/// The request has 56 bytes.
fn ends_by_writes(alloc: Global, task: &MockTask, at: usize, writes: &[Write]) -> Result<(), Stop> {
    if at >= 56 {
        return ends_over(alloc, task, writes);
    }
    fails_over_fresh(alloc, task, writes)?;
    fails_over_reused(alloc, task, writes)
}

fn a_fault_at_a_write(alloc: Global, task: &MockTask, at: usize) -> Result<(), Stop> {
    let writes = fails_at_write(alloc, at)?;
    let ended = ends_by_writes(alloc, task, at, writes.as_slice());
    drop(writes);
    ended
}

// rule exchange-retry
fn a_fault_at_each_write(alloc: Global, task: &MockTask) -> Result<(), Stop> {
    for at in 0..=56 {
        a_fault_at_a_write(alloc, task, at)?;
    }
    Ok(())
}

fn play_all(alloc: Global, task: &MockTask) -> Result<(), Stop> {
    let ends = Ends::Hello(CHUNKED, 1);
    ends_at(alloc, task, "a_byte_at_a_time", 72, None, ends)?;
    for row in &READS {
        ends_at_each(alloc, task, row)?;
    }
    a_fault_at_each_write(alloc, task)
}

#[test]
fn faults_and_ends_at_each_call(rt: HostRuntime) -> Result<(), Fail> {
    let task = MockTask::new(&rt)?;
    let played = play_all(rt.alloc(), &task);
    drop(task);
    verdict(rt.alloc(), played)
}
