//! Rows: bytes, and what is seen of them. The offsets and lengths of all rows were counted by hand.

use crate::chunked::{has_parts, is_bad_at_last, is_scanned, is_too_large_from, waits_for_each};
use crate::cuts::is_known_anywhere;
use crate::heads::{is_framed, is_head, is_kept, refuses_front, wants_more_of};
use crate::limits::{LimitedBody, is_told_anyhow};
use crate::locations::{is_located, is_located_behind};
use crate::pieces::{completes, has_all_chunks, is_refused_at_last};
use crate::reasons::{is_cut_so, is_fault, is_refused, is_whole};
use mx_body::chunked::scan::ChunkedScan;
use mx_head::Framing;
use mx_reason::{Cut, Fault};
use mx_types::{Code, Method};
use std::alloc::Global;

/// The bytes of a row.
#[derive(Clone, Copy)]
pub(crate) enum Bytes {
    /// These.
    Of(&'static [u8]),
    /// A front, a unit so often, and an end.
    Often(&'static [u8], &'static [u8], usize, &'static [u8]),
    /// A front, and then `x` until there are so many.
    Filled(&'static [u8], usize),
    /// A front, and so many chunks of 65,536 bytes.
    Chunks(&'static [u8], usize),
    /// A head of so many short field lines, and one that makes it so long.
    LongField(usize, usize),
}

/// What is seen of them.
#[derive(Clone, Copy)]
pub(crate) enum Expected {
    /// A head of this length, status and minor version.
    Head(usize, u16, u8),
    /// More bytes are needed where so many of them are read as a head.
    Wants(usize),
    /// So many of them are refused as a head.
    Refuses(usize, Code),
    /// How the head frames its body in the answer to that method, and whether it keeps its connection.
    Framed(Method, Result<Framing, Code>, bool),
    /// Whether the head keeps its connection.
    Keeps(bool),
    /// The head is known to a decoder with the byte with which `read_head` knows it.
    KnownInTime,
    /// Where the location of the head, and of the response, begins and ends, and its value.
    Location(Option<(usize, usize)>, &'static [u8]),
    /// The same of a response that has an interim head.
    LocationBehind(Option<(usize, usize)>, &'static [u8]),
    /// 100,000 chunks of one byte, in pieces of that length.
    ManyChunks(usize),
    /// A whole response of that status and that length, in pieces of each of these lengths.
    Completes(&'static [usize], u16, usize),
    /// A decoder refuses the last of them, and none before it.
    RefusedAtLast(Code),
    /// A response at a limit.
    Told(LimitedBody),
    /// What a scan for a chunked body with that limit finds.
    Scan(u32, ChunkedScan),
    /// They are a chunked body, and no proper prefix of them is.
    Waits,
    /// The last of them is the first that no chunked body has.
    BadAtLast,
    /// They are the digits of a size that is too large with the digit of this number, from 1.
    TooLargeFrom(usize),
    /// Where the parts of the chunked body at that offset begin and end.
    Parts(u32, &'static [(u32, u32)]),
    /// They are refused with so many of them, for this, with the code of that number.
    Refused(usize, Fault, u32),
    /// The same of so many bytes that only all of them are tried.
    RefusedAsAll(usize, Fault, u32),
    /// Where they end.
    Ends(Cut),
    /// They begin with a whole response to that method.
    Whole(Method),
}

/// A row's name, its bytes, and what is seen of them.
pub(crate) type Row = (&'static str, Bytes, Expected);

/// Adds bytes; false where memory is refused.
fn add(bytes: &mut Vec<u8>, more: &[u8]) -> bool {
    bytes.extend_from_slice(more).is_ok()
}

/// Adds the unit so often.
fn add_units(bytes: &mut Vec<u8>, unit: &[u8], count: usize) -> bool {
    let mut is_added = true;
    for _ in 0..count {
        is_added = add(bytes, unit) & is_added;
    }
    is_added
}

/// Adds the front, the unit so often, and the end.
fn add_often(bytes: &mut Vec<u8>, front: &[u8], unit: &[u8], count: usize, end: &[u8]) -> bool {
    add(bytes, front) & add_units(bytes, unit, count) & add(bytes, end)
}

/// 4,096 times `x`.
const BLOCK: [u8; 4096] = [b'x'; 4096];

/// Adds the front, and then as many bytes that there are `len` in all.
fn add_filled(bytes: &mut Vec<u8>, front: &[u8], len: usize) -> bool {
    let mut is_added = bytes.reserve(len).is_ok() & add(bytes, front);
    let block = BLOCK;
    for _ in 0..16_400 {
        let left = len.saturating_sub(bytes.len());
        is_added = add(bytes, &block[..left.min(4096)]) & is_added;
    }
    is_added
}

/// Adds the front, and so many chunks of 65,536 bytes.
fn add_chunks(bytes: &mut Vec<u8>, front: &[u8], count: usize) -> bool {
    let mut is_added = add(bytes, front);
    for _ in 0..count {
        is_added = add_often(bytes, b"10000\r\n", b"0123456789abcdef", 4096, b"\r\n") & is_added;
    }
    is_added
}

/// Adds a status line, so many short field lines, and one that is as long as the head of that length needs.
fn add_long_field(bytes: &mut Vec<u8>, count: usize, len: usize) -> bool {
    let is_begun = add_often(bytes, b"HTTP/1.1 200 OK\r\n", b"A: b\r\n", count, b"B: ");
    let letters = len.saturating_sub(bytes.len().saturating_add(4));
    add_often(bytes, b"", b"c", letters, b"\r\n\r\n") & is_begun
}

/// Adds all bytes of a row; false where memory is refused.
fn add_bytes(all: &mut Vec<u8>, bytes: &Bytes) -> bool {
    match *bytes {
        Bytes::Of(bytes) => add(all, bytes),
        Bytes::Often(front, unit, count, end) => add_often(all, front, unit, count, end),
        Bytes::Filled(front, len) => add_filled(all, front, len),
        Bytes::Chunks(front, count) => add_chunks(all, front, count),
        Bytes::LongField(count, len) => add_long_field(all, count, len),
    }
}

/// Bytes of a row, and whether they are all there: they aren't where memory is refused.
pub(crate) fn bytes_of(alloc: Global, bytes: &Bytes) -> (Vec<u8>, bool) {
    let mut all = Vec::new(alloc);
    let are_all = add_bytes(&mut all, bytes);
    (all, are_all)
}

/// Whether a row has as many bytes as it says.
fn is_as_long(told: &Bytes, len: usize) -> bool {
    match *told {
        Bytes::Filled(_, all) | Bytes::LongField(_, all) => len == all,
        _ => true,
    }
}

/// Whether this is seen of these bytes.
fn is_seen(alloc: Global, seen: &Expected, bytes: &[u8]) -> bool {
    match *seen {
        Expected::Head(len, status, minor) => is_head(bytes, len, status, minor),
        Expected::Wants(len) => wants_more_of(bytes, len),
        Expected::Refuses(len, code) => refuses_front(bytes, len, code),
        Expected::Framed(method, framing, keep) => is_framed(method, bytes, framing, keep),
        Expected::Keeps(keep) => is_kept(bytes, keep),
        Expected::KnownInTime => is_known_anywhere(alloc, bytes),
        Expected::Location(place, value) => is_located(alloc, bytes, place, value),
        Expected::LocationBehind(place, value) => is_located_behind(alloc, bytes, place, value),
        Expected::ManyChunks(len) => has_all_chunks(alloc, bytes, len),
        Expected::Completes(lens, status, len) => completes(alloc, bytes, lens, status, len),
        Expected::RefusedAtLast(code) => is_refused_at_last(alloc, bytes, code),
        Expected::Told(told) => is_told_anyhow(alloc, told, bytes),
        Expected::Scan(limit, scan) => is_scanned(bytes, limit, scan),
        Expected::Waits => waits_for_each(bytes),
        Expected::BadAtLast => is_bad_at_last(bytes),
        Expected::TooLargeFrom(digit) => is_too_large_from(bytes, digit),
        Expected::Parts(at, parts) => has_parts(alloc, bytes, at, parts),
        Expected::Refused(at, fault, number) => is_refused(alloc, bytes, at, fault, number),
        Expected::RefusedAsAll(at, fault, number) => {
            fault.code().number() == number && is_fault(alloc, bytes, at, fault)
        }
        Expected::Ends(cut) => is_cut_so(alloc, bytes, cut),
        Expected::Whole(method) => is_whole(alloc, method, bytes),
    }
}

/// Whether a row's bytes are as long as it says, and what is seen of them is so.
fn is_right(alloc: Global, row: &Row) -> bool {
    let (bytes, are_all) = bytes_of(alloc, &row.1);
    are_all & is_as_long(&row.1, bytes.len()) & is_seen(alloc, &row.2, &bytes)
}

/// The name of the first of these rows of which something else is seen, or whose bytes find no memory.
pub(crate) fn first_wrong(alloc: Global, rows: &[Row]) -> Option<&'static str> {
    for row in rows {
        if !is_right(alloc, row) {
            return Some(row.0);
        }
    }
    None
}
