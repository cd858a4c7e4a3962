//! Responses whose content is handed on, in pieces of each length. Each row of the table has the result of a response that is held; rows at
//! a limit of their own hand on what is within it.

use crate::wrong::{By, Wrong, first_wrong_of_all, verdict};
use mx_body::Part;
use mx_flow::{Stream, StreamState};
use mx_head::{Framing, HeadStep, framing, read_head};
use mx_reason::reason_of;
use mx_responses_tests_base::bases::{LARGE, OPEN, SHORT, WHOLE};
use mx_responses_tests_base::bytes::COUNTED;
use mx_responses_tests_base::response::Response;
use mx_types::{Code, OutOfMemory};
use std::alloc::{AllocError, Global};
use std::test::Fail;

/// The lengths of pieces. No row has as many bytes as the last, which is all at once.
const LENS: [usize; 5] = [1, 2, 3, 7, 1_000_000];

/// The code of a state; `None` where nothing is decided yet.
fn code_of(stand: StreamState) -> Option<Code> {
    match stand {
        StreamState::More => None,
        StreamState::Whole => Some(Code::Ok),
        StreamState::Fault(code) => Some(code),
    }
}

/// Feeds a piece: how many of its bytes are taken; `None` where memory is refused, or another state is answered than the stream has.
fn feed(stream: &mut Stream, piece: &[u8], out: &mut Vec<u8>) -> Option<usize> {
    match stream.feed(piece, out) {
        Ok((stand, taken)) => if code_of(stand) == code_of(stream.stand()) {
            Some(taken)
        } else {
            None
        },
        Err(OutOfMemory) => None,
    }
}

/// Feeds the bytes in pieces of that length, also those behind the decision: how many are taken, as `feed` says.
fn feed_all(stream: &mut Stream, bytes: &[u8], len: usize, out: &mut Vec<u8>) -> Option<usize> {
    let mut taken: usize = 0;
    for piece in bytes.chunks(len.max(1)) {
        match feed(stream, piece, out) {
            Some(more) => taken = taken.saturating_add(more),
            None => return None,
        }
    }
    Some(taken)
}

/// How many bytes of a row are taken in pieces of that length: up to the one that decides, and where no final head has come the rest of its
/// piece, too.
fn taken_of(row: &Response, all: usize, len: usize) -> usize {
    match row.decided {
        Some(decided) => if row.status == 0 {
            decided.div_ceil(len.max(1)).saturating_mul(len).min(all)
        } else {
            decided
        },
        None => all,
    }
}

/// The code of a row before its end; `None` where its end decides.
pub(crate) fn code_before_end(row: &Response) -> Option<Code> {
    match row.decided {
        Some(_) => Some(row.code),
        None => None,
    }
}

/// Whether a response that is whole before its end keeps its connection.
fn keeps(stream: &Stream) -> bool {
    match stream.stand() {
        StreamState::More => false,
        StreamState::Whole => stream.keeps(),
        StreamState::Fault(_) => false,
    }
}

// rule body-stream-end
// rule body-stream-fault
/// Whether a stream to which a row came says what the row says, before its end and with it.
fn says(stream: &Stream, row: &Response) -> bool {
    (code_of(stream.stand()) == code_before_end(row))
        & (code_of(stream.end()) == Some(row.code))
        & (stream.status() == row.status)
        & (keeps(stream) == row.keep)
}

/// Feeds a row in pieces of that length: whether the stream takes what it should, and then says what the row says.
fn takes(stream: &mut Stream, row: &Response, bytes: &[u8], len: usize, out: &mut Vec<u8>) -> bool {
    let taken = feed_all(stream, bytes, len, out);
    taken == Some(taken_of(row, bytes.len(), len)) && says(stream, row)
}

/// What a row says of the content.
#[derive(Clone, Copy)]
enum ToldContent {
    /// The content of a whole response.
    OfWhole,
    /// What is handed on, also where the response is refused.
    OfAny,
}

// rule body-stream-reason
/// Whether the stream of a row of the table tells the reason of a response that is held. It tells none where the body is too large.
fn tells_why(
    alloc: Global,
    stream: &Stream,
    row: &Response,
    bytes: &[u8],
    told: ToldContent,
) -> bool {
    match told {
        ToldContent::OfWhole => {
            row.code == Code::FilesizeExceeded
                || stream.why() == reason_of(alloc, row.method, bytes)
        }
        ToldContent::OfAny => true,
    }
}

/// Whether the content that was handed on is that of a row.
fn is_content(content: &[u8], row: &Response, told: ToldContent) -> bool {
    match told {
        ToldContent::OfWhole => row.code != Code::Ok || content == row.body,
        ToldContent::OfAny => content == row.body,
    }
}

/// Whether a new stream takes the row so, and hands its content on.
fn is_handed_on(
    alloc: Global,
    row: &Response,
    bytes: &[u8],
    most_bytes: Option<u64>,
    len: usize,
    told: ToldContent,
) -> bool {
    let mut stream = Stream::new(alloc, row.method, most_bytes);
    let mut out = Vec::new(alloc);
    let is_taken = takes(&mut stream, row, bytes, len, &mut out);
    let is_told = tells_why(alloc, &stream, row, bytes, told);
    let is_right = is_taken & is_told & is_content(&out, row, told);
    drop(out);
    drop(stream);
    is_right
}

// rule body-stream-in-pieces
/// The first length of pieces in which it doesn't.
fn wrong_len(
    alloc: Global,
    row: &Response,
    bytes: &[u8],
    most_bytes: Option<u64>,
    told: ToldContent,
) -> Option<usize> {
    for len in LENS {
        if !is_handed_on(alloc, row, bytes, most_bytes, len, told) {
            return Some(len);
        }
    }
    None
}

/// The most bytes of a whole response that is held.
const MOST_BYTES: u64 = 67_108_864;

/// The limit of the content of a row of the table. A response that is held has its head within its limit, too, where its length is compared
/// with that; a stream counts the content alone, so its limit is less by the head.
pub(crate) fn limit_of(row: &Response, bytes: &[u8]) -> u64 {
    match read_head(bytes) {
        HeadStep::Head(head) => match framing(row.method, &head) {
            Ok(Framing::Counted(_)) => MOST_BYTES.saturating_sub(head.len() as u64),
            _ => MOST_BYTES,
        },
        _ => MOST_BYTES,
    }
}

/// The same of a row of the table; 0 where its bytes find no memory.
pub(crate) fn wrong_len_of(alloc: Global, row: &Response) -> Option<usize> {
    match row.bytes(alloc) {
        Ok(bytes) => wrong_len(
            alloc,
            row,
            &bytes,
            Some(limit_of(row, &bytes)),
            ToldContent::OfWhole,
        ),
        Err(AllocError) => Some(0),
    }
}

/// A response whose body is the content that is handed on, also where it is refused; and the most bytes that its content may have.
type Limited = (Response, Option<u64>);

/// 67 bytes: two chunks, of which the sizes are at 47 and 54, and the data at 50 and 57.
pub(crate) const TWO_CHUNKS: &[u8] =
    b"HTTP/1.1 200 OK\r\nTransfer-Encoding: chunked\r\n\r\n2\r\nhe\r\n3\r\nllo\r\n0\r\n\r\n";

/// 24 bytes, of which the last five are the body.
const TO_THE_END: &[u8] = b"HTTP/1.1 200 OK\r\n\r\nhello";

static LIMITED: [Limited; 9] = [
    // rule body-stream-size
    (
        Response {
            name: "length_at_its_limit",
            front: COUNTED,
            decided: Some(43),
            body: b"hello",
            ..WHOLE
        },
        Some(5),
    ),
    // rule body-stream-too-large
    (
        Response {
            name: "length_over_its_limit",
            front: COUNTED,
            decided: Some(38),
            ..LARGE
        },
        Some(4),
    ),
    (
        Response {
            name: "chunks_at_their_limit",
            front: TWO_CHUNKS,
            decided: Some(67),
            body: b"hello",
            ..WHOLE
        },
        Some(5),
    ),
    // rule body-stream-size
    (
        Response {
            name: "chunks_over_their_limit",
            front: TWO_CHUNKS,
            decided: Some(60),
            body: b"hell",
            ..LARGE
        },
        Some(4),
    ),
    // rule body-stream-too-large
    (
        Response {
            name: "size_over_its_limit",
            front: TWO_CHUNKS,
            decided: Some(55),
            body: b"he",
            ..LARGE
        },
        Some(2),
    ),
    (
        Response {
            name: "open_body_at_its_limit",
            front: TO_THE_END,
            body: b"hello",
            ..OPEN
        },
        Some(5),
    ),
    // rule body-stream-size
    (
        Response {
            name: "open_body_over_its_limit",
            front: TO_THE_END,
            decided: Some(24),
            body: b"hell",
            ..LARGE
        },
        Some(4),
    ),
    // rule body-stream-limit
    (
        Response {
            name: "greatest_length_of_content",
            front: b"HTTP/1.1 200 OK\r\nContent-Length: 9223372036854775807\r\n\r\nhello",
            body: b"hello",
            ..SHORT
        },
        None,
    ),
    // rule body-stream-limit
    (
        Response {
            name: "greater_length_of_content",
            front: b"HTTP/1.1 200 OK\r\nContent-Length: 9223372036854775808\r\n\r\nhello",
            decided: Some(56),
            ..LARGE
        },
        Some(18_446_744_073_709_551_615),
    ),
];

/// The first length of pieces in which a response at a limit isn't handed on so; 0 where its bytes find no memory.
fn wrong_len_at_limit(alloc: Global, limited: &Limited) -> Option<usize> {
    match limited.0.bytes(alloc) {
        Ok(bytes) => wrong_len(alloc, &limited.0, &bytes, limited.1, ToldContent::OfAny),
        Err(AllocError) => Some(0),
    }
}

/// The first of these that isn't.
fn first_wrong_limited(alloc: Global, rows: &[Limited]) -> Option<Wrong> {
    for row in rows {
        if let Some(len) = wrong_len_at_limit(alloc, row) {
            return Some((row.0.name, len));
        }
    }
    None
}

/// An interim head of 42 bytes, a redirect of 62, whose location is at 72, and a body.
pub(crate) const REDIRECT: &[u8] = b"HTTP/1.1 103 Early Hints\r\nLocation: /a\r\n\r\n\
    HTTP/1.1 301 Moved\r\nLocation: http://b/\r\nContent-Length: 2\r\n\r\nok";

/// The row of the redirect.
pub(crate) static REDIRECTED: Response = Response {
    decided: Some(106),
    status: 301,
    body: b"ok",
    ..WHOLE
};

/// Whether that is the place of the redirect's location.
pub(crate) fn is_place(place: Option<Part>) -> bool {
    match place {
        Some(place) => place.start == 72 && place.end == 81,
        None => false,
    }
}

/// Whether a stream keeps these heads, has the redirect's location, and gives the heads up.
fn gives_heads(stream: Stream, heads: &[u8]) -> bool {
    let is_kept = is_place(stream.location()) & (stream.heads() == heads);
    let given = stream.into_heads();
    let is_given = given.as_slice() == heads;
    drop(given);
    is_kept & is_given
}

/// Whether a new stream that takes the redirect in pieces of that length does so.
fn redirects(alloc: Global, len: usize) -> bool {
    let mut stream = Stream::new(alloc, REDIRECTED.method, None);
    let mut out = Vec::new(alloc);
    let is_taken = takes(&mut stream, &REDIRECTED, REDIRECT, len, &mut out);
    drop(out);
    gives_heads(stream, &REDIRECT[..104]) & is_taken
}

/// The first length of pieces in which the redirect is wrong.
fn wrong_redirect(alloc: Global) -> Option<Wrong> {
    for len in LENS {
        if !redirects(alloc, len) {
            return Some(("redirect", len));
        }
    }
    None
}

/// What is gone through.
#[derive(Clone, Copy)]
enum Rows {
    Table,
    Limited,
    Redirect,
}

/// The first row of them that is wrong.
fn wrong_in(alloc: Global, rows: Rows) -> Option<Wrong> {
    match rows {
        Rows::Table => first_wrong_of_all(alloc, By::Stream),
        Rows::Limited => first_wrong_limited(alloc, &LIMITED),
        Rows::Redirect => wrong_redirect(alloc),
    }
}

/// Fails with the first row that is wrong, and the length of pieces.
fn are_so(alloc: Global, rows: Rows) -> Result<(), Fail> {
    verdict(wrong_in(alloc, rows))
}

#[test]
fn streams_as_told(rt: HostRuntime) -> Result<(), Fail> {
    are_so(rt.alloc(), Rows::Table)
}

#[test]
fn streams_at_limits_and_heads(rt: HostRuntime) -> Result<(), Fail> {
    are_so(rt.alloc(), Rows::Limited)?;
    are_so(rt.alloc(), Rows::Redirect)
}
