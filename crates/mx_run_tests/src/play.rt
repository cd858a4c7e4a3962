//! Scripts whose reads or writes fail, and one that fills the table and the history.
//!
//! `run_play` is called in one function, which has no contract, and what a row owns is owned by functions that end in one place: so the
//! proof is short.
use crate::fakes::{Full, PieceReader};
use crate::tally::RowTally;
use crate::unwritten::{Command, see_buffers};
use mx_run_io::{Input, Output};
use mx_run_local::{MOST_SCRIPT_READS, run_play};
use std::alloc::{AllocError, Global};
use std::io::{Read, Write};

/// What `play` ends with, with a history of 1,024 events; `None` where the reads are more than may be.
fn run<R: Read + Drop, W: Write + Drop>(
    alloc: Global,
    reader: R,
    most: u64,
    writer: W,
) -> Option<u8> {
    if most > MOST_SCRIPT_READS {
        return None;
    }
    Some(run_play(
        alloc,
        1024,
        0,
        &mut Input::new(reader, most),
        &mut Output::new(writer),
    ))
}

/// A reader that gives a byte a read, and fails after so many reads.
fn trickle(script: &str, reads: usize) -> PieceReader<'_> {
    PieceReader {
        bytes: script.as_bytes(),
        most: 1,
        reads,
    }
}

/// A script that trickles in, by how many reads, how many are allowed, what is printed, and the exit status.
type Row<'a> = (&'a str, usize, u64, &'a str, u8);

/// Whether `play` prints that and ends so.
fn plays(alloc: Global, row: Row<'_>) -> bool {
    let (script, reads, most, printed, status) = row;
    let mut written = Vec::new(alloc);
    let ended = run(alloc, trickle(script, reads), most, &mut written);
    ended == Some(status) && written.as_slice() == printed.as_bytes()
}

/// 34 bytes, in lines that end at 6, 12, 13, 19, 27 and 34.
const SCRIPT: &str = "add 1\n# one\n\nadd 1\nhandles\nrunning";

/// What it prints.
const REPLIES: &str = "added 0\nadded-already\nhandles 1\nrunning 1\n";

/// By which numbers of reads, from one to another, this is printed of `SCRIPT` where the next one fails.
static FAULTS: [(usize, usize, &str); 4] = [
    (0, 5, "FAULT 56\n"),
    (6, 18, "added 0\nFAULT 56\n"),
    (19, 26, "added 0\nadded-already\nFAULT 56\n"),
    (27, 34, "added 0\nadded-already\nhandles 1\nFAULT 56\n"),
];

// rule program-failed-read
fn see_failing_reads(alloc: Global, tally: &mut RowTally) -> Result<(), AllocError> {
    for fault in &FAULTS {
        let (first, last, printed) = *fault;
        for reads in first..=last {
            let is_right = plays(alloc, (SCRIPT, reads, MOST_SCRIPT_READS, printed, 56));
            tally.hold("a read that fails", is_right)?;
        }
    }
    let is_right = plays(alloc, (SCRIPT, 35, MOST_SCRIPT_READS, REPLIES, 0));
    tally.hold("bytes that trickle in", is_right)
}

/// What a line of six bytes and one more, of which the end is seen by the eighth read, print where so many reads are allowed.
fn printed_by(most: u64) -> (&'static str, u8) {
    if most < 6 {
        ("FAULT 56\n", 56)
    } else if most < 8 {
        ("added 0\nFAULT 56\n", 56)
    } else {
        ("added 0\nbad-line 2\n", 122)
    }
}

// rule program-reads
fn see_most_reads(alloc: Global, tally: &mut RowTally) -> Result<(), AllocError> {
    for most in 0..=8 {
        let (printed, status) = printed_by(most);
        let is_right = plays(alloc, ("add 1\nx", 8, most, printed, status));
        tally.hold("a read past the most", is_right)?;
    }
    Ok(())
}

/// A number of reads of `SCRIPT`, a byte each, after which one fails, what is printed, and the exit status.
type WrittenRow<'a> = (usize, &'a str, u8);

/// The whole script, its first line, and nothing of it.
static WRITTEN: [WrittenRow<'static>; 3] = [
    (35, REPLIES, 0),
    (6, "added 0\nFAULT 56\n", 56),
    (0, "FAULT 56\n", 56),
];

/// The exit status where the writer takes so many writes; `None` where it took other bytes than it should.
fn answers_full(alloc: Global, row: WrittenRow<'_>, writes: u8) -> Option<u8> {
    let (reads, printed, status) = row;
    let mut taken = Vec::new(alloc);
    let writer = Full {
        taken: &mut taken,
        writes,
    };
    let answer = run(alloc, trickle(SCRIPT, reads), MOST_SCRIPT_READS, writer);
    let is_whole = answer == Some(status) && taken.as_slice() == printed.as_bytes();
    if is_whole || answer == Some(121) && printed.as_bytes().starts_with(&taken) {
        answer
    } else {
        None
    }
}

/// Whether the first write fails where there may be none, and none fails where there may be 39.
fn is_answered(answer: Option<u8>, writes: u8, status: u8) -> bool {
    match writes {
        0 => answer == Some(121),
        39 => answer == Some(status),
        _ => answer.is_some(),
    }
}

// rule program-unwritten
fn see_failing_writes(alloc: Global, tally: &mut RowTally) -> Result<(), AllocError> {
    for row in &WRITTEN {
        for writes in 0..40 {
            let answer = answers_full(alloc, *row, writes);
            tally.hold("a write that fails", is_answered(answer, writes, row.2))?;
        }
    }
    Ok(())
}

/// Whether a writer answers to a short script that it couldn't be written.
pub(crate) fn is_unwritten<W: Write + Drop>(alloc: Global, writer: W) -> bool {
    run(alloc, SCRIPT.as_bytes(), MOST_SCRIPT_READS, writer) == Some(121)
}

fn add_line(alloc: Global, text: &mut String, word: &str, number: u32) -> Result<(), AllocError> {
    let line = format!(in alloc; "{word} {number}\n")?;
    let added = text.push_str(line.as_str());
    drop(line);
    added
}

/// Adds the word with each of 256 numbers, a line each, and then the end.
fn add_numbered(alloc: Global, text: &mut String, word: &str, end: &str) -> Result<(), AllocError> {
    for number in 0..256 {
        add_line(alloc, text, word, number)?;
    }
    text.push_str(end)
}

/// The word with each of 256 numbers, a line each, and then the end.
fn numbered(alloc: Global, word: &str, end: &str) -> Result<String, AllocError> {
    let mut text = String::new(alloc);
    add_numbered(alloc, &mut text, word, end)?;
    Ok(text)
}

/// What follows 256 additions: one more has no room, and one is there. With the three events that each may still bring they fill a history
/// of 1,024, so that nothing but these is written down.
const BEHIND: &str = "add 256\nadd 0\npause 0\nwakeup\ndone 0 0 1\nread\nremove 0\nadd 256\n";

/// What is printed of it.
const PRINTED_BEHIND: &str =
    "table-full\nadded-already\nhistory-full\nfailure\nrecorded\nmessage 0 0 0 1 left 0\nremoved\nhistory-full\n";

/// Whether `play` prints that of a script, and ends well.
fn plays_whole(alloc: Global, script: &str, printed: &str) -> bool {
    let mut written = Vec::new(alloc);
    let ended = run(alloc, script.as_bytes(), MOST_SCRIPT_READS, &mut written);
    ended == Some(0) && written.as_slice() == printed.as_bytes()
}

/// Whether it does of additions, and of what stands behind them.
fn plays_full(alloc: Global, script: &str) -> Result<bool, AllocError> {
    let printed = numbered(alloc, "added", PRINTED_BEHIND)?;
    let is_right = plays_whole(alloc, script, printed.as_str());
    drop(printed);
    Ok(is_right)
}

// rule core-add-refusals
// rule core-room
fn see_full(alloc: Global, tally: &mut RowTally) -> Result<(), AllocError> {
    let script = numbered(alloc, "add", BEHIND)?;
    let is_right = plays_full(alloc, script.as_str());
    drop(script);
    tally.hold("the table and the history are full", is_right?)
}

/// Goes through all of them.
pub(crate) fn see_all(alloc: Global, tally: &mut RowTally) -> Result<(), AllocError> {
    see_failing_reads(alloc, tally)?;
    see_most_reads(alloc, tally)?;
    see_failing_writes(alloc, tally)?;
    see_buffers(alloc, Command::Play, tally)?;
    see_full(alloc, tally)
}
