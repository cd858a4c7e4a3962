//! The responses of the table, whole and cut anywhere: each is decided with the byte that decides it, and has its expected result.

use crate::heads::front;
use crate::pieces::{decoder, end, feed, read};
use mx_body::{Decoder, Part, Stand, Verdict, decode_whole};
use mx_responses_tests_base::response::Response;
use mx_types::{Code, OutOfMemory};
use std::alloc::Global;

/// The first cut of a response that has so many bytes: one of more than 1,000 is cut in its last 100 alone.
fn first_cut(len: usize) -> usize {
    if len > 1000 { len - 100 } else { 0 }
}

/// Whether so many bytes of a row decide, or these and their end.
fn is_decided(row: &Response, len: usize, ended: bool) -> bool {
    match row.decided {
        Some(decided) => decided <= len,
        None => ended,
    }
}

/// Where a response ends that has so many bytes.
fn end_of(row: &Response, len: usize) -> usize {
    row.decided.unwrap_or(len)
}

/// Whether the parts begin and end there.
pub(crate) fn are_parts(parts: &[Part], told: &[(u32, u32)]) -> bool {
    if parts.len() != told.len() {
        return false;
    }
    for at in 0..parts.len() {
        if (parts[at].start, parts[at].end) != told[at] {
            return false;
        }
    }
    true
}

/// Whether the verdict of `decode_whole` on so many bytes of a row, or on these and their end, is so.
pub(crate) fn is_verdict(
    verdict: &Result<Verdict, OutOfMemory>,
    row: &Response,
    len: usize,
    ended: bool,
) -> bool {
    let is_decided = is_decided(row, len, ended);
    match verdict {
        Ok(
            Verdict::Complete {
                status,
                len: end,
                parts,
                keep,
            },
        ) => {
            is_decided
                && row.code == Code::Ok
                && (*status, *end as usize, *keep) == (row.status, end_of(row, len), row.keep)
                && are_parts(parts, row.parts)
        }
        Ok(Verdict::More) => !is_decided,
        Ok(Verdict::Fault(code)) => is_decided && *code == row.code,
        Err(OutOfMemory) => false,
    }
}

/// Whether it is, where these bytes of the row are decoded.
pub(crate) fn is_told(alloc: Global, row: &Response, bytes: &[u8], ended: bool) -> bool {
    let verdict = decode_whole(alloc, row.method, bytes, ended);
    let is_told = is_verdict(&verdict, row, bytes.len(), ended);
    drop(verdict);
    is_told
}

/// Whether it is for each front of a row, and for all of it with its end.
pub(crate) fn is_whole_told(alloc: Global, row: &Response, bytes: &[u8]) -> bool {
    for len in first_cut(bytes.len())..=bytes.len() {
        if !is_told(alloc, row, &bytes[..len], false) {
            return false;
        }
    }
    is_told(alloc, row, bytes, true)
}

/// Whether the decoder says so of so many bytes of a row, or of these and their end.
pub(crate) fn says(decoder: &Decoder, row: &Response, len: usize, ended: bool) -> bool {
    if !is_decided(row, len, ended) {
        return decoder.stand() == Stand::More;
    }
    match decoder.stand() {
        Stand::Complete => {
            row.code == Code::Ok
                && decoder.status() == row.status
                && decoder.len() == end_of(row, len)
                && are_parts(decoder.parts(), row.parts)
                && decoder.keep() == row.keep
        }
        Stand::More => false,
        Stand::Fault(code) => code == row.code && decoder.status() == row.status,
    }
}

/// Feeds a piece that ends at that length of a row: whether the decoder then says what the row says of so many bytes.
fn takes(decoder: &mut Decoder, row: &Response, piece: &[u8], len: usize) -> bool {
    feed(decoder, piece).is_some() && says(decoder, row, len, false)
}

/// Feeds a row in three pieces, of which the first two end there, and the end: whether the decoder says after each what the row says.
fn takes_three(
    decoder: &mut Decoder,
    row: &Response,
    bytes: &[u8],
    first: usize,
    second: usize,
) -> bool {
    let (front, back) = bytes.split_at(second.min(bytes.len()));
    let (front, middle) = front.split_at(first.min(front.len()));
    takes(decoder, row, front, front.len())
        && takes(decoder, row, middle, second)
        && takes(decoder, row, back, bytes.len())
        && end(decoder).is_some()
        && says(decoder, row, bytes.len(), true)
}

/// Whether a new decoder does so.
fn is_taken(alloc: Global, row: &Response, bytes: &[u8], first: usize, second: usize) -> bool {
    let mut decoder = decoder(alloc, row.method);
    let is_taken = takes_three(&mut decoder, row, bytes, first, second);
    drop(decoder);
    is_taken
}

/// A response of more bytes is cut in two, and not in three.
const CUT_IN_THREE: usize = 120;

/// Whether decoders do so where the row is cut there, and anywhere after it.
fn is_taken_behind(alloc: Global, row: &Response, bytes: &[u8], first: usize) -> bool {
    let nearest = if bytes.len() > CUT_IN_THREE {
        bytes.len()
    } else {
        first
    };
    for second in nearest..=bytes.len() {
        if !is_taken(alloc, row, bytes, first, second) {
            return false;
        }
    }
    true
}

/// Whether they do wherever it is cut.
pub(crate) fn is_taken_anyhow(alloc: Global, row: &Response, bytes: &[u8]) -> bool {
    for first in first_cut(bytes.len())..=bytes.len() {
        if !is_taken_behind(alloc, row, bytes, first) {
            return false;
        }
    }
    true
}

/// Feeds a row one byte at a time, and the end: whether the decoder says after each what the row says.
fn takes_ones(decoder: &mut Decoder, row: &Response, bytes: &[u8]) -> bool {
    for at in 0..bytes.len() {
        if !takes(decoder, row, &bytes[at..at + 1], at + 1) {
            return false;
        }
    }
    end(decoder).is_some() && says(decoder, row, bytes.len(), true)
}

/// Feeds bytes after the decision, and the end: whether the decoder stays as it was.
fn stays(decoder: &mut Decoder) -> bool {
    let before = read(decoder);
    feed(decoder, b"HTTP").is_some() && end(decoder).is_some() && read(decoder) == before
}

/// Takes a decoder apart: whether it has the parts of a row, and these bytes.
fn comes_to(decoder: Decoder, row: &Response, bytes: &[u8]) -> bool {
    let (wire, parts) = decoder.into_parts();
    wire.as_slice() == bytes && are_parts(&parts, row.parts)
}

/// Whether a new decoder takes a row so, stays as it was after it, and has the bytes up to that which decides.
pub(crate) fn is_taken_in_ones(alloc: Global, row: &Response, bytes: &[u8]) -> bool {
    let mut decoder = decoder(alloc, row.method);
    let is_right = takes_ones(&mut decoder, row, bytes) && stays(&mut decoder);
    comes_to(decoder, row, front(bytes, end_of(row, bytes.len()))) && is_right
}
