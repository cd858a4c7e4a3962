//! The options that take a number.
ghost use Rattle.std.specs.Prelude.{◌≡◌, true, nat_eq, IfSome, map, string_bytes};
ghost use Rattle.std.specs.List.{starts_with};
ghost use Rattle.mx_command.specs.Said.{IsNamedAt};

use crate::save::GREATEST_LIMIT;
use mx_types::{LEAST_HISTORY, MOST_HISTORY};

/// An option that takes a number from the least to the greatest, and the text that says so.
pub struct NumberRow {
    pub name: &'static str,
    pub least: u64,
    pub most: u64,
    pub wanted: &'static str,
}

static NUMBERS: [NumberRow; 9] = [
    NumberRow {
        name: "--workers",
        least: 1,
        most: 16,
        wanted: "a number of threads, 1 to 16, as 4",
    },
    NumberRow {
        name: "--at-once",
        least: 1,
        most: 256,
        wanted: "a number of transfers, 1 to 256, as 8",
    },
    NumberRow {
        name: "--timeout-ms",
        least: 0,
        most: u32::MAX as u64,
        wanted: "milliseconds, as 5000",
    },
    NumberRow {
        name: "--max-connects",
        least: 0,
        most: 64,
        wanted: "a number of connections, 0 to 64, as 4",
    },
    NumberRow {
        name: "--max-redirects",
        least: 0,
        most: 255,
        wanted: "a number of redirects, 0 to 255, as 10",
    },
    NumberRow {
        name: "--max-filesize",
        least: 1,
        most: GREATEST_LIMIT,
        wanted: "a number of bytes, 1 to 9223372036854775807, as 1048576",
    },
    NumberRow {
        name: "--retry",
        least: 0,
        most: 255,
        wanted: "a number of further tries, 0 to 255, as 2",
    },
    NumberRow {
        name: "--history",
        least: LEAST_HISTORY as u64,
        most: MOST_HISTORY as u64,
        wanted: "a number of events, 4 to 1048576, as 65536",
    },
    NumberRow {
        name: "--first-ticket",
        least: 0,
        most: u32::MAX as u64,
        wanted: "a ticket, 0 to 4294967295, as 0",
    },
];

// The option that the word begins with.
fn row_of(word: &str) -> Option<&'static NumberRow>
    ensures { IfSome result (λ row. starts_with nat_eq word.now row.now.name.now ≡ true) }
{
    for row in &NUMBERS {
        if word.as_bytes().starts_with(row.name.as_bytes()) {
            return Some(row);
        }
    }
    None
}

// Whether the text is a number that the option takes.
fn is_taken(row: &NumberRow, text: &str) -> bool {
    match text.parse::<u64>() {
        Ok(number) => row.least <= number && number <= row.most,
        Err(_) => false,
    }
}

// The value of the option that the word at that place begins with: after `=`, or the next word.
fn value_at<'a>(words: &'a [String], at: usize) -> Option<&'a str> {
    match words.get(at)?.as_str().split_once('=') {
        Some((_, value)) => Some(value),
        None => Some(words.get(at.saturating_add(1))?.as_str()),
    }
}

/// The option at that place, if it has a value that it doesn't take.
pub(crate) fn refused_at(words: &[String], at: usize) -> Option<&'static NumberRow>
    ensures { IfSome result (λ row. IsNamedAt (map string_bytes words.now) at row.now.name.now) }
{
    let row = row_of(words.get(at)?.as_str())?;
    let value = value_at(words, at)?;
    if is_taken(row, value) {
        return None;
    }
    Some(row)
}
