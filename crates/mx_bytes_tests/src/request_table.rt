//! All rows of requests, and scripts of deadlines and idle links.

use crate::request_row::{Rows, first_wrong};
use crate::{deadlines, fields, idle, redirects, refusals, urls};
use std::alloc::Global;
use std::test::Fail;

/// How many parts of the table are rows of requests.
const PARTS: u32 = 11;

/// The rows of a part, which are about one thing. Naming a long table makes a proof longer by its rows, so each part of it is named in one
/// function.
fn part(number: u32) -> Rows {
    match number {
        0 => urls::sent(),
        1 => urls::hostile(),
        2 => urls::refused(),
        3 => urls::limits(),
        4 => fields::alone(),
        5 => fields::with_body(),
        6 => redirects::at_301_to_303(),
        7 => redirects::at_307_and_308(),
        8 => redirects::locations(),
        9 => redirects::refused_locations(),
        _ => redirects::chains(),
    }
}

/// The name of the first row of requests that is wrong.
fn wrong_row(alloc: Global) -> Option<&'static str> {
    for number in 0..PARTS {
        let wrong = first_wrong(alloc, part(number));
        if wrong.is_some() {
            return wrong;
        }
    }
    None
}

/// How many parts of the table are something else.
const OTHERS: u32 = 7;

/// The name of what is wrong in one of them.
fn wrong_in(alloc: Global, number: u32) -> Option<&'static str> {
    match number {
        0 => refusals::wrong_refusal(alloc),
        1 => refusals::wrong_url(alloc),
        2 => refusals::wrong_location(alloc),
        3 => idle::wrong_idle(alloc),
        4 => idle::wrong_limit(alloc),
        5 => deadlines::wrong_deadline(),
        _ => redirects::wrong_statuses(),
    }
}

/// The name of what is wrong in the first of them in which something is.
fn wrong_other(alloc: Global) -> Option<&'static str> {
    for number in 0..OTHERS {
        let wrong = wrong_in(alloc, number);
        if wrong.is_some() {
            return wrong;
        }
    }
    None
}

/// Fails with the first character that is wrong.
fn are_characters_so(alloc: Global) -> Result<(), Fail> {
    match fields::wrong_character(alloc) {
        Some(character) => Err(Fail::new(format_args!("character {character:?}"))),
        None => Ok(()),
    }
}

/// Fails with the name of the first row, or of what else is wrong.
fn are_so(alloc: Global) -> Result<(), Fail> {
    match wrong_row(alloc).or(wrong_other(alloc)) {
        Some(name) => Err(name.into()),
        None => are_characters_so(alloc),
    }
}

#[test]
fn rows_and_scripts(rt: HostRuntime) -> Result<(), Fail> {
    are_so(rt.alloc())
}
