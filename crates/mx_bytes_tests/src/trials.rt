//! Each response of the table, tried in each way.

use crate::cuts::{agrees_at_each_cut, is_known_anywhere};
use crate::heads::{begins_with_interim, is_read_in_time};
use crate::pieces::agrees_in_all_pieces;
use crate::told::{is_taken_anyhow, is_taken_in_ones, is_whole_told};
use mx_responses_tests_base::response::Response;
use mx_responses_tests_base::table::responses;
use std::alloc::{AllocError, Global};
use std::test::Fail;

/// How a response is tried.
#[derive(Clone, Copy)]
enum Trial {
    Whole,
    CutAnywhere,
    AByteAtATime,
    /// Its first head, where that isn't an interim one.
    Head,
    HeadInOnes,
    /// Where it has at most 1,000 bytes.
    BothDecoders,
    /// Where it has at most 200 bytes.
    BehindAnInterimHead,
}

fn passes(alloc: Global, trial: Trial, row: &Response, bytes: &[u8]) -> bool {
    match trial {
        Trial::Whole => is_whole_told(alloc, row, bytes),
        Trial::CutAnywhere => is_taken_anyhow(alloc, row, bytes),
        Trial::AByteAtATime => is_taken_in_ones(alloc, row, bytes),
        Trial::Head => begins_with_interim(bytes) || is_read_in_time(row, bytes),
        Trial::HeadInOnes => begins_with_interim(bytes) || is_known_anywhere(alloc, bytes),
        Trial::BothDecoders => bytes.len() > 1000 || agrees_in_all_pieces(alloc, bytes),
        Trial::BehindAnInterimHead => bytes.len() > 200 || agrees_at_each_cut(alloc, bytes),
    }
}

/// Whether a response passes it with all of its bytes.
fn passes_with(alloc: Global, trial: Trial, row: &Response) -> bool {
    match row.bytes(alloc) {
        Ok(bytes) => passes(alloc, trial, row, &bytes),
        Err(AllocError) => false,
    }
}

/// Trials by the row of a response, and their names.
static TOLD: [(Trial, &str); 3] = [
    // rule body-to-the-end
    (Trial::Whole, "whole"),
    // rule body-in-pieces
    (Trial::CutAnywhere, "cut anywhere"),
    (Trial::AByteAtATime, "a byte at a time"),
];

/// Trials by an executable definition, too.
static COMPARED: [(Trial, &str); 4] = [
    // rule head-first-bad-byte
    // rule head-first-cause
    (Trial::Head, "its head"),
    (Trial::HeadInOnes, "its head, a byte at a time"),
    // rule body-in-pieces
    (Trial::BothDecoders, "both decoders"),
    (Trial::BehindAnInterimHead, "behind an interim head"),
];

/// The name of the first row that doesn't pass, or whose bytes find no memory.
fn first_wrong(alloc: Global, trial: Trial, rows: &[Response]) -> Option<&'static str> {
    for row in rows {
        if !passes_with(alloc, trial, row) {
            return Some(row.name);
        }
    }
    None
}

/// The name of the first response of all that doesn't.
fn first_wrong_of_all(alloc: Global, trial: Trial) -> Option<&'static str> {
    for rows in responses() {
        let wrong = first_wrong(alloc, trial, rows);
        if wrong.is_some() {
            return wrong;
        }
    }
    None
}

/// Fails with the trial, and with the name of the first response that doesn't pass it.
fn passed(alloc: Global, trial: &(Trial, &'static str)) -> Result<(), Fail> {
    let (trial, what) = *trial;
    match first_wrong_of_all(alloc, trial) {
        Some(name) => Err(Fail::new(format_args!("{name}: {what}"))),
        None => Ok(()),
    }
}

/// The same of the first of these trials that fails.
fn passed_each(alloc: Global, trials: &[(Trial, &'static str)]) -> Result<(), Fail> {
    for trial in trials {
        passed(alloc, trial)?;
    }
    Ok(())
}

#[test]
fn responses_as_told(rt: HostRuntime) -> Result<(), Fail> {
    passed_each(rt.alloc(), &TOLD)
}

#[test]
fn responses_by_both_programs(rt: HostRuntime) -> Result<(), Fail> {
    passed_each(rt.alloc(), &COMPARED)
}
