//! `run_body` over long responses, over bytes that begin no response, and with writes that fail after a buffer.
//!
//! It is called in one function, which has no contract, and what a row owns is owned by functions with one exit: so the proof is short.
use crate::fakes::Filler;
use crate::long::{Long, add_long, bytes_of};
use crate::tally::RowTally;
use crate::unwritten::{Command, see_buffers};
use mx_responses_tests_base::bytes::{COUNTED, HEAD};
use mx_run_io::{Input, Output};
use mx_run_local::{MOST_BODY_READS, run_body};
use mx_types::Method;
use std::alloc::{AllocError, Global};
use std::io::{Read, Write};

/// What `body` ends with.
pub(crate) fn run<R: Read + Drop, W: Write + Drop>(
    alloc: Global,
    method: Method,
    reader: R,
    writer: W,
) -> u8 {
    run_body(
        alloc,
        method,
        &mut Input::new(reader, MOST_BODY_READS),
        &mut Output::new(writer),
    )
}

/// Whether `body` ends with that status, and writes that output.
pub(crate) fn prints<R: Read + Drop>(
    alloc: Global,
    method: Method,
    reader: R,
    status: u32,
    output: &[u8],
) -> bool {
    let mut written = Vec::new(alloc);
    let ended = run(alloc, method, reader, &mut written);
    u32::from(ended) == status && written.as_slice() == output
}

/// The same where it reads these bytes.
pub(crate) fn prints_of(
    alloc: Global,
    method: Method,
    input: &[u8],
    status: u32,
    output: &[u8],
) -> bool {
    prints(alloc, method, input, status, output)
}

/// One after the other.
fn joined(alloc: Global, both: &[Long<'_>; 2]) -> Result<Vec<u8>, AllocError> {
    let mut bytes = bytes_of(alloc, both[0])?;
    add_long(&mut bytes, both[1])?;
    Ok(bytes)
}

/// Whether `body` writes both, one after the other, where it reads these bytes.
fn prints_both(alloc: Global, input: &[u8], both: &[Long<'_>; 2]) -> Result<bool, AllocError> {
    let output = joined(alloc, both)?;
    let are_printed = prints_of(alloc, Method::Get, input, 0, output.as_slice());
    drop(output);
    Ok(are_printed)
}

/// A chunked body of 70,000 pieces of one byte, one of 70,000 bytes (11170 in hexadecimal), and one of two: more pieces than one write
/// takes, and between them one that is longer than a write.
static MANY_PIECES: [Long<'static>; 2] = [
    (
        b"HTTP/1.1 200 OK\r\nTransfer-Encoding: chunked\r\n\r\n",
        b"1\r\na\r\n",
        70_000,
        b"11170\r\n",
    ),
    (b"", b"b", 70_000, b"\r\n2\r\ncd\r\n0\r\n\r\n"),
];

/// What is printed of it.
static GATHERED: [Long<'static>; 2] = [
    (
        b"OK status=200 body=140002 keep=yes left=0\n",
        b"a",
        70_000,
        b"",
    ),
    (b"", b"b", 70_000, b"cd"),
];

fn are_gathered(alloc: Global) -> Result<bool, AllocError> {
    let input = joined(alloc, &MANY_PIECES)?;
    let gathered = prints_both(alloc, input.as_slice(), &GATHERED);
    drop(input);
    gathered
}

fn see_pieces(alloc: Global, tally: &mut RowTally) -> Result<(), AllocError> {
    tally.hold("pieces are gathered", are_gathered(alloc)?)
}

/// Each front of a head, but for none of it, is refused.
fn see_cuts(alloc: Global, tally: &mut RowTally) -> Result<(), AllocError> {
    for cut in 1..HEAD.len() {
        let is_right = prints_of(alloc, Method::Get, &HEAD[..cut], 8, b"FAULT 8\n");
        tally.hold("a head that is cut", is_right)?;
    }
    Ok(())
}

/// Sets each byte by a linear congruential generator: its next state.
fn set_random(bytes: &mut [u8], mut state: u32) -> u32 {
    for at in 0..bytes.len() {
        state = state.wrapping_mul(1664525).wrapping_add(1013904223);
        bytes[at] = (state >> 24) as u8;
    }
    state
}

/// Each of 200 random inputs is refused: the first byte of each begins no head.
fn see_random(alloc: Global, tally: &mut RowTally) -> Result<(), AllocError> {
    let mut state: u32 = 20261122;
    let mut bytes = [b'!'; 101];
    for _ in 0..200 {
        state = set_random(&mut bytes[1..], state);
        let is_right = prints_of(alloc, Method::Get, bytes.as_slice(), 8, b"FAULT 8\n");
        tally.hold("random bytes", is_right)?;
    }
    Ok(())
}

/// Whether a writer answers to a response that it couldn't be written.
pub(crate) fn is_unwritten<W: Write + Drop>(alloc: Global, writer: W) -> bool {
    run(alloc, Method::Get, COUNTED, writer) == 121
}

/// A head and so many letters, and what `body` gives: the exit status, and a line and so many letters.
#[derive(Clone, Copy)]
struct Filled {
    name: &'static str,
    head: &'static [u8],
    letters: usize,
    status: u8,
    line: &'static [u8],
    count: usize,
}

/// 19 bytes.
const OPEN: &[u8] = b"HTTP/1.0 200 OK\r\n\r\n";

static FILLED: [Filled; 4] = [
    Filled {
        name: "two mebibytes counted",
        head: b"HTTP/1.1 200 OK\r\nContent-Length: 2097152\r\n\r\n",
        letters: 2_097_159,
        status: 0,
        line: b"OK status=200 body=2097152 keep=yes left=7\n",
        count: 2_097_152,
    },
    Filled {
        name: "two hundred full reads",
        head: OPEN,
        letters: 13_107_200,
        status: 0,
        line: b"OK status=200 body=13107200 keep=no left=0\n",
        count: 13_107_200,
    },
    Filled {
        name: "as many bytes as a response may have",
        head: OPEN,
        letters: 67_108_845,
        status: 0,
        line: b"OK status=200 body=67108845 keep=no left=0\n",
        count: 67_108_845,
    },
    // rule program-body-reads
    Filled {
        name: "one byte more than a response may have",
        head: OPEN,
        letters: 67_108_846,
        status: 63,
        line: b"FAULT 63\n",
        count: 0,
    },
];

/// Whether it is that line, and then so many letters.
fn are_line_and_letters(written: &[u8], line: &[u8], count: usize) -> bool {
    match written.strip_prefix(line) {
        Some(letters) => letters.len() == count && letters.iter().all(|byte| *byte == b'v'),
        None => false,
    }
}

fn is_filled(alloc: Global, row: Filled) -> bool {
    let mut written = Vec::new(alloc);
    let reader = Filler {
        first: row.head,
        letters: row.letters,
    };
    let ended = run(alloc, Method::Get, reader, &mut written);
    ended == row.status && are_line_and_letters(&written, row.line, row.count)
}

fn see_filled(alloc: Global, tally: &mut RowTally) -> Result<(), AllocError> {
    for row in &FILLED {
        tally.hold(row.name, is_filled(alloc, *row))?;
    }
    Ok(())
}

/// Goes through all of them.
pub(crate) fn see_all(alloc: Global, tally: &mut RowTally) -> Result<(), AllocError> {
    see_pieces(alloc, tally)?;
    see_cuts(alloc, tally)?;
    see_random(alloc, tally)?;
    see_buffers(alloc, Command::Body, tally)?;
    see_filled(alloc, tally)
}
