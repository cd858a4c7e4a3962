//! Readers of a board, and seats of a table of progress words: what each row answers, on one thread and on several.

use crate::boards::{kept, own_event, three_threads, two_seats};
use crate::refused::end;
use crate::words::{greatest, two_threads};
use mx_types::OutOfMemory;
use std::alloc::Global;
use std::sync::Wait;
use std::test::Fail;
use std::thread::Threads;

/// A board on one thread, or the words of a table: each row is made again where memory was refused.
static ROWS: [&str; 4] = [
    // rule board-published
    "two_seats_add_a_handle_each",
    // rule board-own-events
    // rule board-catch-up
    "a_reader_waits_for_its_own_event",
    "a_kept_history_is_read_as_it_stands",
    // rule board-progress-word
    "a_word_is_the_greatest_that_was_noted",
];

// Whether the row of this number is answered as it says, and whether memory was refused.
fn is_so<R: Wait>(rt: &R, alloc: Global, number: usize) -> Result<(bool, bool), OutOfMemory> {
    match number {
        0 => two_seats(rt, alloc),
        1 => own_event(rt, alloc),
        2 => kept(rt, alloc),
        _ => greatest(alloc),
    }
}

// The first row that isn't answered as it says, and whether memory was refused.
fn first_wrong<R: Wait>(
    rt: &R,
    alloc: Global,
) -> Result<(Option<&'static str>, bool), OutOfMemory> {
    let mut refused = false;
    for (number, row) in ROWS.iter().enumerate() {
        let (is_so, is_refused) = is_so(rt, alloc, number)?;
        if !is_so {
            return Ok((Some(*row), false));
        }
        refused = refused || is_refused;
    }
    Ok((None, refused))
}

// The same of the rows whose readers and seats are in threads of their own.
fn first_wrong_beside<R: Threads + Wait + Sync>(
    rt: &R,
    alloc: Global,
) -> Result<Option<&'static str>, OutOfMemory> {
    if !three_threads(rt, alloc)? {
        return Ok(Some("two_threads_read_what_a_third_adds"));
    }
    if !two_threads(rt, alloc)? {
        return Ok(Some("notes_of_two_threads"));
    }
    Ok(None)
}

// The end of a test: it names the first wrong row, and says where a call was refused memory.
fn end_of(wrong: Option<&'static str>, is_refused: bool) -> Result<(), Fail> {
    match wrong {
        Some(row) => Err(row.into()),
        None => end(is_refused),
    }
}

/// A board, which is made again where memory was refused, answers its readers as each row says.
#[test]
fn boards(rt: HostRuntime) -> Result<(), Fail> {
    let (wrong, refused) = first_wrong(&rt, rt.alloc())?;
    end_of(wrong, refused)
}

/// Readers of a board, and the seats of a table of words, in threads of their own.
#[test]
fn boards_beside_their_readers(rt: HostRuntime) -> Result<(), Fail> {
    let wrong = first_wrong_beside(&rt, rt.alloc())?;
    end_of(wrong, false)
}
