//! Responses that are read in pieces of some lengths, with bytes behind them, by a reader of each kind: one that holds them, and one that hands
//! their content on. Both say what the table says.

use crate::streams::{REDIRECT, REDIRECTED, code_before_end, is_place, limit_of};
use crate::told::are_parts;
use crate::wrong::{By, first_wrong_of_all, verdict};
use mx_body::{Part, Stand, heads_len};
use mx_reader::{Reader, laws};
use mx_responses_tests_base::response::Response;
use mx_types::{Code, OutOfMemory};
use std::alloc::{AllocError, Global};
use std::test::Fail;

/// The lengths of pieces. No row has as many bytes as the last, which is all at once.
const LENS: [usize; 3] = [1, 7, 1_000_000];

/// What comes behind a response that is decided before its end.
const BEHIND: &[u8] = b"HTTP/1.1 200 OK\r\n\r\n";

/// The kinds of reader.
#[derive(Clone, Copy)]
enum Kind {
    Holding,
    Flowing,
}

/// A response that is read: its row, all bytes that are fed, and the length of the pieces.
#[derive(Clone, Copy)]
struct Reading<'a> {
    row: &'a Response,
    bytes: &'a [u8],
    len: usize,
}

/// The code of a state; `None` where nothing is decided yet.
fn code_of(stand: Stand) -> Option<Code> {
    match stand {
        Stand::More => None,
        Stand::Complete => Some(Code::Ok),
        Stand::Fault(code) => Some(code),
    }
}

/// Whether the reader has the state that a call answered; not where memory was refused.
fn is_state(reader: &Reader, answer: Result<Stand, OutOfMemory>) -> bool {
    match answer {
        Ok(stand) => code_of(stand) == code_of(reader.stand()),
        Err(OutOfMemory) => false,
    }
}

/// Feeds the bytes in pieces of that length, also those behind the decision: whether each answer is the state of the reader.
fn feed_all(reader: &mut Reader, reading: Reading<'_>, out: &mut Vec<u8>) -> bool {
    for piece in reading.bytes.chunks(reading.len.max(1)) {
        let answer = reader.feed(piece, out);
        if !is_state(reader, answer) {
            return false;
        }
    }
    true
}

/// How many of the bytes are fed: up to and with the piece that decides.
fn fed_of(reading: Reading<'_>) -> usize {
    let all = reading.bytes.len();
    match reading.row.decided {
        Some(decided) => decided
            .div_ceil(reading.len.max(1))
            .saturating_mul(reading.len)
            .min(all),
        None => all,
    }
}

/// Whether the connection may serve another request: the row says so, and no byte is behind the response.
fn may_keep(row: &Response, fed: usize) -> bool {
    row.keep && row.decided == Some(fed)
}

// rule body-stream-in-pieces
/// Whether a reader of all bytes says what the row says.
fn says(reader: &Reader, row: &Response, fed: usize) -> bool {
    (code_of(reader.stand()) == Some(row.code))
        & (reader.status() == row.status)
        & (reader.received() == fed as u64)
        & (reader.is_unfed() == (fed == 0))
        & (reader.may_keep() == may_keep(row, fed))
}

// rule body-stream-end
/// Feeds a response, and ends it: whether the reader says what its row says, before the end and with it.
fn reads(reader: &mut Reader, reading: Reading<'_>, out: &mut Vec<u8>) -> bool {
    let is_fed = feed_all(reader, reading, out);
    let is_before = code_of(reader.stand()) == code_before_end(reading.row);
    let answer = reader.end();
    is_fed & is_before & is_state(reader, answer) & says(reader, reading.row, fed_of(reading))
}

/// Whether that is handed on of a whole response: its body, or nothing of one that is held.
fn is_handed_on(kind: Kind, row: &Response, out: &[u8]) -> bool {
    match kind {
        Kind::Holding => out.is_empty(),
        Kind::Flowing => row.code != Code::Ok || out == row.body,
    }
}

/// How many bytes a reader keeps: all that were fed, or the heads.
fn kept_of(kind: Kind, reading: Reading<'_>) -> usize {
    match kind {
        Kind::Holding => fed_of(reading),
        Kind::Flowing => heads_len(reading.bytes),
    }
}

/// Whether the parts are those of the row; none where the content was handed on.
fn has_parts(kind: Kind, row: &Response, parts: &[Part]) -> bool {
    match kind {
        Kind::Holding => are_parts(parts, row.parts),
        Kind::Flowing => parts.is_empty(),
    }
}

/// Whether that is kept: the first bytes.
fn is_front(kind: Kind, reading: Reading<'_>, kept: &[u8]) -> bool {
    let len = kept_of(kind, reading).min(reading.bytes.len());
    kept == &reading.bytes[..len]
}

/// Whether a reader that read all keeps what it should, and gives it up.
fn gives(reader: Reader, kind: Kind, reading: Reading<'_>) -> bool {
    let is_seen = is_front(kind, reading, reader.kept());
    let (kept, parts) = reader.into_parts();
    let is_right = is_seen
        & is_front(kind, reading, kept.as_slice())
        & has_parts(kind, reading.row, parts.as_slice());
    drop(kept);
    drop(parts);
    is_right
}

/// A reader of that kind.
fn reader_of(alloc: Global, kind: Kind, reading: Reading<'_>) -> Reader {
    match kind {
        Kind::Holding => Reader::holding(alloc, reading.row.method),
        Kind::Flowing => Reader::flowing(
            alloc,
            reading.row.method,
            Some(limit_of(reading.row, reading.bytes)),
        ),
    }
}

/// Whether a new reader of that kind reads a response so.
fn is_read(alloc: Global, kind: Kind, reading: Reading<'_>) -> bool {
    let mut reader = reader_of(alloc, kind, reading);
    let mut out = Vec::new(alloc);
    let is_right = reads(&mut reader, reading, &mut out)
        & is_handed_on(kind, reading.row, out.as_slice());
    drop(out);
    gives(reader, kind, reading) & is_right
}

/// The first length of pieces in which one of the kinds doesn't.
fn wrong_len(alloc: Global, row: &Response, bytes: &[u8]) -> Option<usize> {
    for len in LENS {
        let reading = Reading { row, bytes, len };
        if !is_read(alloc, Kind::Holding, reading) || !is_read(alloc, Kind::Flowing, reading) {
            return Some(len);
        }
    }
    None
}

/// The bytes of a row, and others behind them where its end doesn't decide.
fn bytes_of(alloc: Global, row: &Response) -> Result<Vec<u8>, AllocError> {
    let mut bytes = row.bytes(alloc)?;
    if row.decided.is_some() {
        bytes.extend_from_slice(BEHIND)?;
    }
    Ok(bytes)
}

/// The first length of pieces in which a row is read wrongly; 0 where its bytes find no memory.
pub(crate) fn wrong_len_of(alloc: Global, row: &Response) -> Option<usize> {
    match bytes_of(alloc, row) {
        Ok(bytes) => wrong_len(alloc, row, &bytes),
        Err(AllocError) => Some(0),
    }
}

/// Whether a new reader of that kind that reads the redirect has its location.
fn redirects(alloc: Global, kind: Kind) -> bool {
    let reading = Reading {
        row: &REDIRECTED,
        bytes: REDIRECT,
        len: 7,
    };
    let mut reader = reader_of(alloc, kind, reading);
    let mut out = Vec::new(alloc);
    let is_right = reads(&mut reader, reading, &mut out) & is_place(reader.location());
    drop(out);
    drop(reader);
    is_right
}

#[test]
fn readers_say_what_is_told(rt: HostRuntime) -> Result<(), Fail> {
    laws::bytes_decide();
    laws::whole_has_all();
    laws::more_is_undecided();
    laws::codes_are_listed();
    verdict(first_wrong_of_all(rt.alloc(), By::Readers))
}

#[test]
fn readers_have_the_location(rt: HostRuntime) -> Result<(), Fail> {
    let are_right = redirects(rt.alloc(), Kind::Holding) & redirects(rt.alloc(), Kind::Flowing);
    assert!(rt; are_right);
    Ok(())
}
