//! All rows of bytes, and scripts of decoders.

use crate::row::{Row, first_wrong};
use crate::{chunked, heads, limits, locations, pieces, reasons};
use std::alloc::Global;
use std::test::Fail;

/// How many parts the table has.
const PARTS: u32 = 13;

/// The rows of a part, which are about one thing. Naming a long table makes a proof longer by its rows, so each part of it is named in one
/// function.
fn part(number: u32) -> &'static [Row] {
    match number {
        0 => heads::heads(),
        1 => heads::lengths(),
        2 => heads::codings(),
        3 => locations::found(),
        4 => locations::not_found(),
        5 => chunked::bodies(),
        6 => chunked::bad(),
        7 => chunked::sizes(),
        8 => reasons::refused(),
        9 => reasons::ends(),
        10 => reasons::long(),
        11 => pieces::pieces(),
        _ => limits::limits(),
    }
}

/// The name of the first row or script that is wrong.
fn first_wrong_of_all(alloc: Global) -> Option<&'static str> {
    for number in 0..PARTS {
        let wrong = first_wrong(alloc, part(number));
        if wrong.is_some() {
            return wrong;
        }
    }
    pieces::wrong_script(alloc)
}

/// Fails with the name of the first row or script that is wrong.
fn are_so(alloc: Global) -> Result<(), Fail> {
    match first_wrong_of_all(alloc) {
        Some(name) => Err(name.into()),
        None => Ok(()),
    }
}

#[test]
fn rows_and_scripts(rt: HostRuntime) -> Result<(), Fail> {
    chunked::call_laws();
    are_so(rt.alloc())
}
