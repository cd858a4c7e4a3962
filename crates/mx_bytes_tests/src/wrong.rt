//! The first response of the table that isn't read as its row says, in pieces of some length.

use crate::{readers, streams};
use mx_responses_tests_base::response::Response;
use mx_responses_tests_base::table::responses;
use std::alloc::Global;
use std::test::Fail;

/// A name, and the length of pieces.
pub(crate) type Wrong = (&'static str, usize);

/// What reads the responses.
#[derive(Clone, Copy)]
pub(crate) enum By {
    /// A stream, which hands the content on.
    Stream,
    /// A reader of each kind.
    Readers,
}

/// The first length of pieces in which a row is read wrongly; 0 where its bytes find no memory.
fn wrong_len_of(alloc: Global, row: &Response, by: By) -> Option<usize> {
    match by {
        By::Stream => streams::wrong_len_of(alloc, row),
        By::Readers => readers::wrong_len_of(alloc, row),
    }
}

/// The first of these rows that is.
fn first_wrong(alloc: Global, rows: &[Response], by: By) -> Option<Wrong> {
    for row in rows {
        if let Some(len) = wrong_len_of(alloc, row, by) {
            return Some((row.name, len));
        }
    }
    None
}

/// The first of all responses.
pub(crate) fn first_wrong_of_all(alloc: Global, by: By) -> Option<Wrong> {
    for rows in responses() {
        let wrong = first_wrong(alloc, rows, by);
        if wrong.is_some() {
            return wrong;
        }
    }
    None
}

/// Fails with what is wrong, if something is.
pub(crate) fn verdict(wrong: Option<Wrong>) -> Result<(), Fail> {
    match wrong {
        Some((name, len)) => Err(Fail::new(format_args!("{name}: in pieces of {len}"))),
        None => Ok(()),
    }
}
