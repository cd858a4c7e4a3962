//! Heads (RFC 9112, sections 2 to 6 and 9).

use crate::row::Bytes::{LongField, Of};
use crate::row::{Expected, Row};
use mx_head::{Framing, HeadStep, framing, keeps, read_head};
use mx_responses_tests_base::response::Response;
use mx_types::{Code, Method};

/// The first bytes, as many of them as there are.
pub(crate) fn front(bytes: &[u8], len: usize) -> &[u8] {
    &bytes[..len.min(bytes.len())]
}

/// Whether a head of this length, status and minor version is at the front.
pub(crate) fn is_head(bytes: &[u8], len: usize, status: u16, minor: u8) -> bool {
    match read_head(bytes) {
        HeadStep::Head(head) => {
            head.len() == len && head.status() == status && head.minor() == minor
        }
        _ => false,
    }
}

/// Whether more is wanted of that many bytes.
pub(crate) fn wants_more_of(bytes: &[u8], len: usize) -> bool {
    len <= bytes.len() && read_head(front(bytes, len)) == HeadStep::More
}

/// Whether that many bytes are refused with that code.
pub(crate) fn refuses_front(bytes: &[u8], len: usize, code: Code) -> bool {
    len <= bytes.len() && read_head(front(bytes, len)) == HeadStep::Fault(code)
}

/// Whether the head at the front frames its body so, and keeps its connection or doesn't.
pub(crate) fn is_framed(
    method: Method,
    bytes: &[u8],
    framed: Result<Framing, Code>,
    keep: bool,
) -> bool {
    match read_head(bytes) {
        HeadStep::Head(head) => framing(method, &head) == framed && keeps(&head) == keep,
        _ => false,
    }
}

/// Whether the head at the front keeps its connection or doesn't.
pub(crate) fn is_kept(bytes: &[u8], keep: bool) -> bool {
    match read_head(bytes) {
        HeadStep::Head(head) => keeps(&head) == keep,
        _ => false,
    }
}

/// Whether the first head of a response is an interim one.
pub(crate) fn begins_with_interim(bytes: &[u8]) -> bool {
    bytes.starts_with(b"HTTP/1.1 1")
}

/// Whether more is wanted of the 1,000 fronts that have fewer bytes than so many.
fn wants_more_before(bytes: &[u8], len: usize) -> bool {
    for cut in len.saturating_sub(1000)..len {
        if read_head(front(bytes, cut)) != HeadStep::More {
            return false;
        }
    }
    true
}

/// Whether a response's head is read where it ends, or refused with the byte that decides, and more is wanted before.
pub(crate) fn is_read_in_time(row: &Response, bytes: &[u8]) -> bool {
    match read_head(bytes) {
        HeadStep::Head(head) => {
            head.status() == row.status && wants_more_before(bytes, head.len())
        }
        HeadStep::More => row.status == 0 && row.decided.is_none(),
        HeadStep::Fault(code) => {
            let len = row.decided.unwrap_or(0);
            row.status == 0
                && code == row.code
                && read_head(front(bytes, len)) == HeadStep::Fault(code)
                && wants_more_before(bytes, len)
        }
    }
}

static HEADS: [Row; 15] = [
    (
        "head_before_a_body",
        Of(b"HTTP/1.1 200 OK\r\nContent-Length: 5\r\n\r\nhello"),
        Expected::Head(38, 200, 1),
    ),
    (
        "head_of_line_feeds_alone",
        Of(b"\r\n\nHTTP/1.0 404\n\n<html>"),
        Expected::Head(17, 404, 0),
    ),
    (
        "head_of_status_999",
        Of(b"HTTP/1.1 999 \r\n\r\n"),
        Expected::Head(17, 999, 1),
    ),
    // rule head-size
    // as long as a head may be, and longer
    (
        "head_of_65536_without_its_last",
        LongField(0, 65_536),
        Expected::Wants(65_535),
    ),
    (
        "head_of_65537_without_two",
        LongField(0, 65_537),
        Expected::Wants(65_535),
    ),
    (
        "head_of_65537_without_its_last",
        LongField(0, 65_537),
        Expected::Refuses(65_536, Code::TooLarge),
    ),
    // rule head-size
    (
        "head_of_65537",
        LongField(0, 65_537),
        Expected::Refuses(65_537, Code::TooLarge),
    ),
    (
        "head_of_70000",
        LongField(0, 70_000),
        Expected::Refuses(70_000, Code::TooLarge),
    ),
    (
        "head_of_65536_in_one_field_line",
        LongField(0, 65_536),
        Expected::Framed(Method::Get, Ok(Framing::Close), true),
    ),
    // rule head-size
    (
        "head_of_65536_in_128_field_lines",
        LongField(127, 65_536),
        Expected::Framed(Method::Get, Ok(Framing::Close), true),
    ),
    // the same, a byte at a time
    (
        "head_of_65535_in_ones",
        LongField(0, 65_535),
        Expected::KnownInTime,
    ),
    (
        "head_of_65536_in_ones",
        LongField(0, 65_536),
        Expected::KnownInTime,
    ),
    (
        "head_of_65536_in_128_field_lines_in_ones",
        LongField(127, 65_536),
        Expected::KnownInTime,
    ),
    (
        "head_of_65537_in_ones",
        LongField(0, 65_537),
        Expected::KnownInTime,
    ),
    (
        "head_of_65537_in_129_field_lines_in_ones",
        LongField(128, 65_537),
        Expected::KnownInTime,
    ),
];

/// Heads, and their limits.
pub(crate) fn heads() -> &'static [Row] {
    &HEADS
}

/// No length that counts, and a connection that is kept.
const BAD_LENGTH: Expected = Expected::Framed(Method::Get, Err(Code::WeirdServerReply), true);

// rule head-content-length
static LENGTHS: [Row; 15] = [
    (
        "length_5",
        Of(b"HTTP/1.1 200 OK\r\nContent-Length: 5\r\n\r\n"),
        Expected::Framed(Method::Get, Ok(Framing::Counted(5)), true),
    ),
    (
        "length_5_twice_in_a_line",
        Of(b"HTTP/1.1 200 OK\r\ncontent-length:5, 5\r\n\r\n"),
        Expected::Framed(Method::Get, Ok(Framing::Counted(5)), true),
    ),
    (
        "length_5_in_two_lines",
        Of(b"HTTP/1.1 200 OK\r\nContent-Length: 5\r\nA: b\r\nCONTENT-LENGTH:\t005 \r\n\r\n"),
        Expected::Framed(Method::Get, Ok(Framing::Counted(5)), true),
    ),
    (
        "length_0",
        Of(b"HTTP/1.1 200 OK\r\nContent-Length: 0\r\n\r\n"),
        Expected::Framed(Method::Get, Ok(Framing::Counted(0)), true),
    ),
    (
        "lengths_5_and_6_in_a_line",
        Of(b"HTTP/1.1 200 OK\r\nContent-Length: 5, 6\r\n\r\n"),
        BAD_LENGTH,
    ),
    (
        "lengths_5_and_6_in_two_lines",
        Of(b"HTTP/1.1 200 OK\r\nContent-Length: 5\r\nContent-Length: 6\r\n\r\n"),
        BAD_LENGTH,
    ),
    (
        "length_with_a_plus",
        Of(b"HTTP/1.1 200 OK\r\nContent-Length: +5\r\n\r\n"),
        BAD_LENGTH,
    ),
    (
        "length_with_a_minus",
        Of(b"HTTP/1.1 200 OK\r\nContent-Length: -5\r\n\r\n"),
        BAD_LENGTH,
    ),
    (
        "length_with_a_blank",
        Of(b"HTTP/1.1 200 OK\r\nContent-Length: 5 5\r\n\r\n"),
        BAD_LENGTH,
    ),
    (
        "length_in_hex",
        Of(b"HTTP/1.1 200 OK\r\nContent-Length: 0x5\r\n\r\n"),
        BAD_LENGTH,
    ),
    (
        "length_and_a_comma",
        Of(b"HTTP/1.1 200 OK\r\nContent-Length: 5,\r\n\r\n"),
        BAD_LENGTH,
    ),
    (
        "empty_length",
        Of(b"HTTP/1.1 200 OK\r\nContent-Length:\r\n\r\n"),
        BAD_LENGTH,
    ),
    // rule head-huge-length
    (
        "greatest_length_of_64_bits",
        Of(b"HTTP/1.1 200 OK\r\nContent-Length: 18446744073709551615\r\n\r\n"),
        Expected::Framed(Method::Get, Ok(Framing::Counted(u64::MAX)), true),
    ),
    // rule head-huge-length
    (
        "length_of_65_bits",
        Of(b"HTTP/1.1 200 OK\r\nContent-Length: 18446744073709551616\r\n\r\n"),
        Expected::Framed(Method::Get, Ok(Framing::Counted(u64::MAX)), true),
    ),
    // rule head-huge-length
    (
        "two_lengths_of_65_bits",
        Of(
            b"HTTP/1.1 200 OK\r\nContent-Length: 18446744073709551616, 18446744073709551617\r\n\r\n",
        ),
        BAD_LENGTH,
    ),
];

/// Lengths of bodies.
pub(crate) fn lengths() -> &'static [Row] {
    &LENGTHS
}

static CODINGS: [Row; 14] = [
    // rule head-transfer-coding
    (
        "chunked_coding",
        Of(b"HTTP/1.1 200 OK\r\nTransfer-Encoding: chunked\r\n\r\n"),
        Expected::Framed(Method::Get, Ok(Framing::Chunked), true),
    ),
    // rule head-transfer-coding
    (
        "two_codings",
        Of(b"HTTP/1.1 200 OK\r\nTransfer-Encoding: gzip, chunked\r\n\r\n"),
        Expected::Framed(Method::Get, Err(Code::BadContentEncoding), true),
    ),
    // rule head-transfer-coding
    (
        "coding_before_a_bad_length",
        Of(b"HTTP/1.1 200 OK\r\nTransfer-Encoding: chunked\r\nContent-Length: x\r\n\r\n"),
        Expected::Framed(Method::Get, Ok(Framing::Chunked), false),
    ),
    // rule head-transfer-coding
    (
        "coding_of_http_1_0",
        Of(b"HTTP/1.0 200 OK\r\nTransfer-Encoding: chunked\r\n\r\n"),
        Expected::Framed(Method::Get, Err(Code::WeirdServerReply), false),
    ),
    // rule head-no-body
    (
        "length_in_an_answer_to_head",
        Of(b"HTTP/1.1 200 OK\r\nContent-Length: 5\r\n\r\n"),
        Expected::Framed(Method::Head, Ok(Framing::Empty), true),
    ),
    // rule head-no-body
    (
        "length_of_no_content",
        Of(b"HTTP/1.1 204 No Content\r\nContent-Length: 5\r\n\r\n"),
        Expected::Framed(Method::Post, Ok(Framing::Empty), true),
    ),
    // rule head-no-body
    (
        "coding_of_not_modified",
        Of(b"HTTP/1.1 304 Not Modified\r\nTransfer-Encoding: gzip\r\n\r\n"),
        Expected::Framed(Method::Get, Ok(Framing::Empty), true),
    ),
    (
        "no_connection",
        Of(b"HTTP/1.1 200 OK\r\n\r\n"),
        Expected::Keeps(true),
    ),
    (
        "connection_x_close",
        Of(b"HTTP/1.1 200 OK\r\nConnection: x-close\r\n\r\n"),
        Expected::Keeps(true),
    ),
    // rule head-connection
    (
        "connection_close_in_capitals",
        Of(b"HTTP/1.1 200 OK\r\nconnection:CLOSE\r\n\r\n"),
        Expected::Keeps(false),
    ),
    // rule head-connection
    (
        "connection_close_and_keep_alive",
        Of(b"HTTP/1.1 200 OK\r\nConnection: close, keep-alive\r\n\r\n"),
        Expected::Keeps(false),
    ),
    // rule head-connection
    (
        "connection_keep_alive_of_http_1_0_in_the_second_line",
        Of(b"HTTP/1.0 200 OK\r\nConnection: te\r\nConnection: , Keep-Alive\r\n\r\n"),
        Expected::Keeps(true),
    ),
    // rule head-connection
    (
        "no_connection_of_http_1_0",
        Of(b"HTTP/1.0 200 OK\r\n\r\n"),
        Expected::Keeps(false),
    ),
    // rule head-connection
    (
        "connection_keep_alive_of_http_1_0_and_an_empty_coding",
        Of(b"HTTP/1.0 200 OK\r\nConnection: keep-alive\r\nTransfer-Encoding:\r\n\r\n"),
        Expected::Keeps(false),
    ),
];

/// Transfer codings and statuses, which come before lengths, and connections that are kept.
pub(crate) fn codings() -> &'static [Row] {
    &CODINGS
}
