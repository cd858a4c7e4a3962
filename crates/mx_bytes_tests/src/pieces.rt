//! Responses fed in pieces.
//!
//! Each call is in a function of its own with no contract, which keeps the proof of the tests short.

use crate::row::Bytes::{Of, Often};
use crate::row::{Bytes, Expected, Row, bytes_of};
use mx_body::{Decoder, Part, Stand, Verdict, decode_whole};
use mx_responses_tests_base::bytes::CHUNKED;
use mx_types::{Code, Method};
use std::alloc::Global;

/// What can be read of a decoder, and the state of its bytes.
#[derive(Clone, Copy, PartialEq, Eq)]
pub(crate) struct Reading {
    stand: Stand,
    status: u16,
    len: usize,
    keep: bool,
    fed: usize,
}

/// Reads all that there is to read.
pub(crate) fn read(decoder: &Decoder) -> Reading {
    Reading {
        stand: decoder.stand(),
        status: decoder.status(),
        len: decoder.len(),
        keep: decoder.keep(),
        fed: decoder.wire().len(),
    }
}

/// `None` where memory is refused.
pub(crate) fn feed(decoder: &mut Decoder, piece: &[u8]) -> Option<Stand> {
    decoder.feed(piece).ok()
}

/// `None` where memory is refused.
pub(crate) fn end(decoder: &mut Decoder) -> Option<Stand> {
    decoder.end().ok()
}

/// Feeds the bytes one by one, until one isn't answered `More`: how many were, and the last answer.
pub(crate) fn feed_each(decoder: &mut Decoder, bytes: &[u8]) -> (usize, Option<Stand>) {
    for i in 0..bytes.len() {
        let stand = feed(decoder, &bytes[i..i + 1]);
        if stand != Some(Stand::More) {
            return (i, stand);
        }
    }
    (bytes.len(), Some(Stand::More))
}

pub(crate) fn decoder(alloc: Global, method: Method) -> Decoder {
    Decoder::new(alloc, method)
}

fn wire_of(decoder: Decoder) -> Vec<u8> {
    decoder.into_wire()
}

/// Feeds the bytes in pieces of that length; the last may be shorter. Returns the last answer; `None` where memory is refused.
fn feed_pieces(decoder: &mut Decoder, bytes: &[u8], len: usize) -> Option<Stand> {
    let mut stand = Some(decoder.stand());
    for piece in bytes.chunks(len.max(1)) {
        stand = feed(decoder, piece);
    }
    stand
}

/// Whether the parts are the bytes at 50, 56, 62 and so on.
fn are_single_bytes(parts: &[Part]) -> bool {
    let mut start: u32 = 50;
    let mut are_single = true;
    for part in parts {
        are_single = are_single & (part.start == start) & (part.end == start.saturating_add(1));
        start = start.saturating_add(6);
    }
    are_single
}

/// Whether these are the parts of 100,000 chunks of one byte.
fn are_many_parts(parts: &[Part]) -> bool {
    parts.len() == 100_000 && are_single_bytes(parts)
}

/// Whether a decoder has read 100,000 chunks of one byte.
pub(crate) fn has_many_chunks(decoder: &Decoder) -> bool {
    let whole = Reading {
        stand: Stand::Complete,
        status: 200,
        len: 600_052,
        keep: true,
        fed: 600_052,
    };
    read(decoder) == whole && are_many_parts(decoder.parts())
}

/// Feeds the bytes of 100,000 chunks in pieces of that length: whether the last byte decides, and they are read so.
fn takes_many_chunks(decoder: &mut Decoder, bytes: &[u8], len: usize) -> bool {
    let last = if len == 1 {
        feed_each(decoder, bytes) == (600_051, Some(Stand::Complete))
    } else {
        feed_pieces(decoder, bytes, len) == Some(Stand::Complete)
    };
    last & has_many_chunks(decoder)
}

/// Whether a new decoder does so, and is taken apart into these bytes and their parts.
pub(crate) fn has_all_chunks(alloc: Global, bytes: &[u8], len: usize) -> bool {
    let mut decoder = decoder(alloc, Method::Get);
    let is_taken = takes_many_chunks(&mut decoder, bytes, len);
    let (wire, parts) = decoder.into_parts();
    is_taken && wire.as_slice() == bytes && are_many_parts(&parts)
}

/// Whether the decoder says what `decode_whole` says of the same bytes; false where that is out of memory.
pub(crate) fn agrees(
    decoder: &Decoder,
    method: Method,
    bytes: &[u8],
    alloc: Global,
    ended: bool,
) -> bool {
    match decode_whole(alloc, method, bytes, ended) {
        Ok(
            Verdict::Complete {
                status,
                len,
                parts,
                keep,
            },
        ) => {
            (decoder.stand() == Stand::Complete)
                & (decoder.status() == status)
                & (decoder.len() == len as usize)
                & (decoder.parts() == parts.as_slice())
                & (decoder.keep() == keep)
        }
        Ok(Verdict::More) => decoder.stand() == Stand::More,
        Ok(Verdict::Fault(code)) => decoder.stand() == Stand::Fault(code),
        Err(_) => false,
    }
}

/// The same of all bytes fed.
fn agrees_now(alloc: Global, decoder: &Decoder, method: Method, ended: bool) -> bool {
    agrees(decoder, method, decoder.wire(), alloc, ended)
}

/// Feeds a piece, and compares then.
pub(crate) fn agrees_behind(
    alloc: Global,
    decoder: &mut Decoder,
    method: Method,
    piece: &[u8],
) -> bool {
    feed(decoder, piece).is_some() && agrees_now(alloc, decoder, method, false)
}

/// Feeds the end, and compares then.
fn agrees_at_end(alloc: Global, decoder: &mut Decoder, method: Method) -> bool {
    let decided = decoder.stand() != Stand::More;
    end(decoder).is_some() && agrees_now(alloc, decoder, method, !decided)
}

/// Feeds the bytes in pieces of that length and compares after each, until it is decided; then at the end.
fn agrees_at_each(
    alloc: Global,
    decoder: &mut Decoder,
    method: Method,
    bytes: &[u8],
    len: usize,
) -> bool {
    for piece in bytes.chunks(len.max(1)) {
        if !agrees_behind(alloc, decoder, method, piece) {
            return false;
        }
    }
    agrees_at_end(alloc, decoder, method)
}

/// Whether a new decoder does so.
fn agrees_in_pieces(alloc: Global, method: Method, bytes: &[u8], len: usize) -> bool {
    let mut decoder = decoder(alloc, method);
    let agrees = agrees_at_each(alloc, &mut decoder, method, bytes, len);
    drop(decoder);
    agrees
}

/// Whether they agree on the bytes as the answer to two methods, in pieces of each length.
pub(crate) fn agrees_in_all_pieces(alloc: Global, bytes: &[u8]) -> bool {
    let mut agrees = true;
    for method in [Method::Get, Method::Head] {
        for len in [1, 2, 7, 600] {
            agrees = agrees_in_pieces(alloc, method, bytes, len) & agrees;
        }
    }
    agrees
}

/// Whether a response of that status and that length is whole, in pieces of that length.
fn is_complete(decoder: &mut Decoder, bytes: &[u8], piece: usize, status: u16, len: usize) -> bool {
    let last = feed_pieces(decoder, bytes, piece);
    last == Some(Stand::Complete) && decoder.status() == status && decoder.len() == len
}

/// Whether it is to a new decoder.
fn completes_in(alloc: Global, bytes: &[u8], piece: usize, status: u16, len: usize) -> bool {
    let mut decoder = decoder(alloc, Method::Get);
    let is_complete = is_complete(&mut decoder, bytes, piece, status, len);
    drop(decoder);
    is_complete
}

/// Whether it is in pieces of each of these lengths.
pub(crate) fn completes(
    alloc: Global,
    bytes: &[u8],
    pieces: &[usize],
    status: u16,
    len: usize,
) -> bool {
    let mut completes = true;
    for piece in pieces {
        completes = completes_in(alloc, bytes, *piece, status, len) & completes;
    }
    completes
}

/// Whether a decoder that is fed all but the last byte, and then that one, refuses that one so.
fn refuses_last(decoder: &mut Decoder, bytes: &[u8], code: Code) -> bool {
    let (front, last) = bytes.split_at(bytes.len().saturating_sub(1));
    feed(decoder, front) == Some(Stand::More) && feed(decoder, last) == Some(Stand::Fault(code))
}

/// Whether a new decoder does so.
pub(crate) fn is_refused_at_last(alloc: Global, bytes: &[u8], code: Code) -> bool {
    let mut decoder = decoder(alloc, Method::Get);
    let is_refused = refuses_last(&mut decoder, bytes, code);
    drop(decoder);
    is_refused
}

/// The head of `CHUNKED` alone.
const CHUNKED_HEAD: &[u8] = b"HTTP/1.1 200 OK\r\nTransfer-Encoding: chunked\r\n\r\n";

/// 47 bytes, 100,000 chunks of one byte, the last chunk, and no trailer.
const MANY_CHUNKS: Bytes = Often(CHUNKED_HEAD, b"1\r\nx\r\n", 100_000, b"0\r\n\r\n");

/// An interim head of 28 bytes, and the front of a head.
const LONG_FRONT: &[u8] = b"HTTP/1.1 103 Early Hints\r\n\r\nHTTP/1.1 204 No Content\r\nA: ";

static PIECES: [Row; 6] = [
    ("many_chunks_in_ones", MANY_CHUNKS, Expected::ManyChunks(1)),
    (
        "many_chunks_in_sevens",
        MANY_CHUNKS,
        Expected::ManyChunks(7),
    ),
    (
        "many_chunks_by_16384",
        MANY_CHUNKS,
        Expected::ManyChunks(16_384),
    ),
    (
        "many_chunks_at_once",
        MANY_CHUNKS,
        Expected::ManyChunks(600_052),
    ),
    // a head of 65,536 bytes, of which 28 are before the value and 4 after it
    (
        "longest_head_behind_an_interim_head",
        Often(LONG_FRONT, b"a", 65_504, b"\r\n\r\n"),
        Expected::Completes(&[100, 16_384, 65_564], 204, 65_564),
    ),
    // with one byte more before its end, the 65,536th byte makes it too large
    (
        "longer_head_behind_an_interim_head",
        Often(LONG_FRONT, b"a", 65_505, b"\r\n\r"),
        Expected::RefusedAtLast(Code::TooLarge),
    ),
];

/// Responses in pieces.
pub(crate) fn pieces() -> &'static [Row] {
    &PIECES
}

/// A piece, how often it is fed, and the last answer.
pub(crate) type Feed = (Bytes, u32, Stand);

/// A name; pieces that are fed; how long the response is then, where it is whole; and of how many bytes a decoder then has room for no
/// more, if it is to have none.
pub(crate) type Script = (&'static str, &'static [Feed], Option<usize>, Option<usize>);

static SCRIPTS: [Script; 3] = [
    (
        "empty_pieces",
        &[
            (Of(b""), 1, Stand::More),
            (Of(CHUNKED), 1, Stand::Complete),
            (Of(b""), 1, Stand::Complete),
        ],
        Some(72),
        None,
    ),
    // a head of 43 bytes; room for a known length is taken at once
    (
        "room_for_a_length",
        &[
            (
                Of(b"HTTP/1.1 200 OK\r\nContent-Length: 100000\r\n\r\n"),
                1,
                Stand::More,
            ),
            (Bytes::Filled(b"", 100), 1, Stand::More),
            (Bytes::Filled(b"", 100), 999, Stand::Complete),
        ],
        Some(100_043),
        Some(100_043),
    ),
    // it grows no further than the limit
    (
        "room_at_the_limit",
        &[
            (Of(b"HTTP/1.0 200 OK\r\n\r\n"), 1, Stand::More),
            (Bytes::Filled(b"", 65_536), 1023, Stand::More),
            (
                Bytes::Filled(b"", 65_536),
                1,
                Stand::Fault(Code::FilesizeExceeded),
            ),
        ],
        None,
        Some(67_108_883),
    ),
];

/// Feeds the same piece so many times: the last answer.
fn feed_again(decoder: &mut Decoder, piece: &[u8], count: u32) -> Option<Stand> {
    let mut stand = Some(decoder.stand());
    for _ in 0..count {
        stand = feed(decoder, piece);
    }
    stand
}

/// Feeds a piece as often as it says: whether it is answered so.
fn feed_as(alloc: Global, decoder: &mut Decoder, feed: &Feed) -> bool {
    let (piece, is_all) = bytes_of(alloc, &feed.0);
    is_all & (feed_again(decoder, &piece, feed.1) == Some(feed.2))
}

/// Feeds these pieces: whether each is answered so.
fn feed_script(alloc: Global, decoder: &mut Decoder, feeds: &[Feed]) -> bool {
    let mut is_right = true;
    for feed in feeds {
        is_right = feed_as(alloc, decoder, feed) & is_right;
    }
    is_right
}

/// How many bytes a decoder has, and room for how many. It is dropped.
fn room_of(decoder: Decoder) -> (usize, usize) {
    let wire = decoder.into_wire();
    let room = (wire.len(), wire.capacity());
    drop(wire);
    room
}

/// Whether there are that many bytes and room for no more, where that is asked for.
fn is_full(room: (usize, usize), len: Option<usize>) -> bool {
    match len {
        Some(len) => room == (len, len),
        None => true,
    }
}

/// Whether a script goes as it should.
fn goes(alloc: Global, script: &Script) -> bool {
    let mut decoder = decoder(alloc, Method::Get);
    let is_right = feed_script(alloc, &mut decoder, script.1);
    let len = decoder.len();
    let room = room_of(decoder);
    let is_long = script.2.is_none() || script.2 == Some(len);
    is_right & is_long & is_full(room, script.3)
}

/// The name of the first script that doesn't, or whose pieces find no memory.
pub(crate) fn wrong_script(alloc: Global) -> Option<&'static str> {
    for script in &SCRIPTS {
        if !goes(alloc, script) {
            return Some(script.0);
        }
    }
    None
}
