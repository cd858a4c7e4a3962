//! `run_body` over the responses of `mx_responses_tests_base`, whole, and with reads and writes that fail.
use crate::body::{prints, prints_of, run};
use crate::fakes::{Full, PieceReader};
use crate::tally::RowTally;
use mx_responses_tests_base::response::Response;
use mx_responses_tests_base::table::responses;
use mx_types::Method;
use std::alloc::{AllocError, Global};

/// The line that is printed of a response that is decoded, and leaves so many bytes.
fn ok_line(alloc: Global, response: &Response, left: usize) -> Result<String, AllocError> {
    let status = response.status;
    let body = response.body.len();
    let keep = if response.keep { "yes" } else { "no" };
    format!(in alloc; "OK status={status} body={body} keep={keep} left={left}\n")
}

/// The line that is printed of a response that has so many bytes.
fn line_of(alloc: Global, response: &Response, len: usize) -> Result<String, AllocError> {
    let number = response.code.number();
    if number != 0 {
        return format!(in alloc; "FAULT {number}\n");
    }
    let left = len.saturating_sub(response.decided.unwrap_or(len));
    ok_line(alloc, response, left)
}

/// Adds what is printed of it.
fn add_output(
    alloc: Global,
    output: &mut Vec<u8>,
    response: &Response,
    len: usize,
) -> Result<(), AllocError> {
    let line = line_of(alloc, response, len)?;
    let added = output.extend_from_slice(line.as_bytes());
    drop(line);
    added?;
    output.extend_from_slice(response.body)
}

/// A response, and its result.
#[derive(Clone, Copy)]
struct Row<'a> {
    name: &'static str,
    method: Method,
    bytes: &'a [u8],
    /// The exit status.
    status: u32,
    output: &'a [u8],
}

fn row_of<'a>(response: &Response, bytes: &'a [u8], output: &'a [u8]) -> Row<'a> {
    Row {
        name: response.name,
        method: response.method,
        bytes,
        status: response.code.number(),
        output,
    }
}

/// Whether `body` ends so, and writes that output, where a reader gives a byte a read, and fails after so many reads.
fn prints_by(alloc: Global, row: Row<'_>, reads: usize, status: u32, output: &[u8]) -> bool {
    let reader = PieceReader {
        bytes: row.bytes,
        most: 1,
        reads,
    };
    prints(alloc, row.method, reader, status, output)
}

// rule program-failed-read
/// Whether a failed read is printed wherever it comes, and the row where all went well: one read for each byte, and one for the end.
fn tells_failing_reads(alloc: Global, row: Row<'_>) -> bool {
    let count = row.bytes.len();
    for reads in 0..=count {
        if !prints_by(alloc, row, reads, 56, b"FAULT 56\n") {
            return false;
        }
    }
    prints_by(alloc, row, count.saturating_add(1), row.status, row.output)
}

/// What `body` ends with where the writer takes so many writes; `None` where it took other bytes than it should.
fn ends_full(alloc: Global, row: Row<'_>, writes: u8) -> Option<u32> {
    let mut taken = Vec::new(alloc);
    let writer = Full {
        taken: &mut taken,
        writes,
    };
    let ended = u32::from(run(alloc, row.method, row.bytes, writer));
    let is_whole = ended == row.status && taken.as_slice() == row.output;
    if is_whole || ended == 121 && row.output.starts_with(&taken) {
        Some(ended)
    } else {
        None
    }
}

// rule program-unwritten
/// Whether each write that fails is reported: the first of them fails where there may be none, and none fails where there may be 39.
fn tells_failing_writes(alloc: Global, row: Row<'_>) -> bool {
    let mut last = None;
    for writes in 0..40 {
        last = ends_full(alloc, row, writes);
        if last.is_none() || writes == 0 && last != Some(121) {
            return false;
        }
    }
    last == Some(row.status)
}

/// Tries it whole, with each read failing where it has at most 200 bytes, and with each write failing.
fn see_row(alloc: Global, tally: &mut RowTally, row: Row<'_>) -> Result<(), AllocError> {
    let is_printed = prints_of(alloc, row.method, row.bytes, row.status, row.output);
    tally.see(is_printed, row.name, "printed otherwise\n")?;
    if row.bytes.len() <= 200 {
        tally.see(
            tells_failing_reads(alloc, row),
            row.name,
            "a read that fails\n",
        )?;
    }
    tally.see(
        tells_failing_writes(alloc, row),
        row.name,
        "a write that fails\n",
    )
}

fn see_bytes(
    alloc: Global,
    tally: &mut RowTally,
    response: &Response,
    bytes: &[u8],
) -> Result<(), AllocError> {
    let mut output = Vec::new(alloc);
    let seen = match add_output(alloc, &mut output, response, bytes.len()) {
        Ok(()) => see_row(alloc, tally, row_of(response, bytes, output.as_slice())),
        Err(error) => Err(error),
    };
    drop(output);
    seen
}

fn see_response(
    alloc: Global,
    tally: &mut RowTally,
    response: &Response,
) -> Result<(), AllocError> {
    let bytes = response.bytes(alloc)?;
    let seen = see_bytes(alloc, tally, response, bytes.as_slice());
    drop(bytes);
    seen
}

fn see_part(alloc: Global, tally: &mut RowTally, rows: &[Response]) -> Result<(), AllocError> {
    for response in rows {
        see_response(alloc, tally, response)?;
    }
    Ok(())
}

/// Goes through all of them.
pub(crate) fn see_all(alloc: Global, tally: &mut RowTally) -> Result<(), AllocError> {
    for rows in responses() {
        see_part(alloc, tally, rows)?;
    }
    Ok(())
}
