//! Chunked bodies, good and bad (RFC 9112, section 7.1).

use crate::heads::front;
use crate::row::Bytes::{Of, Often};
use crate::row::{Expected, Row};
use crate::told::are_parts;
use mx_body::chunked::laws;
use mx_body::chunked::parts::chunked_parts;
use mx_body::chunked::scan::{ChunkedScan, scan_chunked};
use std::alloc::Global;

const LIMIT: u32 = 67_108_864;

/// Whether a scan finds that.
pub(crate) fn is_scanned(bytes: &[u8], limit: u32, scan: ChunkedScan) -> bool {
    scan_chunked(bytes, limit) == scan
}

/// Whether more is wanted of each front, and the whole is a body.
pub(crate) fn waits_for_each(bytes: &[u8]) -> bool {
    for len in 0..bytes.len() {
        if !is_scanned(&bytes[..len], LIMIT, ChunkedScan::Short) {
            return false;
        }
    }
    is_scanned(bytes, LIMIT, ChunkedScan::Whole { len: bytes.len() })
}

/// Whether the last byte is wrong, and none before it.
pub(crate) fn is_bad_at_last(bytes: &[u8]) -> bool {
    let before = front(bytes, bytes.len().saturating_sub(1));
    is_scanned(before, LIMIT, ChunkedScan::Short) && is_scanned(bytes, LIMIT, ChunkedScan::Bad)
}

/// Whether a size is too large with the digit of that number and each after it, and with none before.
pub(crate) fn is_too_large_from(digits: &[u8], digit: usize) -> bool {
    for len in 1..=digits.len() {
        let scan = if len < digit {
            ChunkedScan::Short
        } else {
            ChunkedScan::TooLarge
        };
        if !is_scanned(front(digits, len), LIMIT, scan) {
            return false;
        }
    }
    true
}

/// Whether the bytes, of which there are few, begin with a chunked body that has these parts where it begins at the offset.
pub(crate) fn has_parts(alloc: Global, bytes: &[u8], at: u32, told: &[(u32, u32)]) -> bool {
    if bytes.len() > 1000 || at > 1000 {
        return false;
    }
    match scan_chunked(bytes, LIMIT) {
        ChunkedScan::Whole { len } => match chunked_parts(alloc, &bytes[..len], at) {
            Ok(parts) => are_parts(&parts, told),
            Err(_) => false,
        },
        _ => false,
    }
}

/// Calls the laws: their contracts are the test.
pub(crate) fn call_laws() {
    laws::chunked_is_one();
    laws::parts_are_data();
    laws::chunked_is_sound();
    laws::one_scan();
    laws::rfc_chunked_is_chunked();
    laws::framing_is_strict();
    laws::places_tell();
}

/// A body that goes on.
const SHORT: Expected = Expected::Scan(LIMIT, ChunkedScan::Short);

/// A size over the limit.
const TOO_LARGE: Expected = Expected::Scan(LIMIT, ChunkedScan::TooLarge);

static BODIES: [Row; 20] = [
    (
        "no_chunk_scanned",
        Of(b"0\r\n\r\n"),
        Expected::Scan(LIMIT, ChunkedScan::Whole { len: 5 }),
    ),
    (
        "no_chunk_before_a_head",
        Of(b"0\r\n\r\nHTTP/1.1 200 OK"),
        Expected::Scan(LIMIT, ChunkedScan::Whole { len: 5 }),
    ),
    (
        "chunk_with_an_extension_and_a_trailer",
        Of(b"5;x=y\r\nhello\r\n0\r\nA: b\r\n\r\n"),
        Expected::Scan(LIMIT, ChunkedScan::Whole { len: 25 }),
    ),
    (
        "chunk_with_a_quoted_extension",
        Of(b"5 \t;x=\"\\\"\"\r\nhello\r\n0;last\r\n\r\n"),
        Expected::Scan(LIMIT, ChunkedScan::Whole { len: 29 }),
    ),
    (
        "size_of_40_digits",
        Of(b"0000000000000000000000000000000000000005\r\nhello\r\n0\r\n\r\n"),
        Expected::Scan(LIMIT, ChunkedScan::Whole { len: 54 }),
    ),
    (
        "sizes_in_either_case",
        Of(b"A\r\n0123456789\r\na\r\n0123456789\r\n000\r\n\r\n"),
        Expected::Scan(LIMIT, ChunkedScan::Whole { len: 37 }),
    ),
    (
        "chunk_that_is_a_head",
        Of(b"13\r\nHTTP/1.1 200 OK\r\n\r\n\r\n0\r\n\r\n"),
        Expected::Scan(LIMIT, ChunkedScan::Whole { len: 30 }),
    ),
    (
        "chunk_that_is_a_line_end",
        Of(b"2\r\n\r\n\r\n0\r\n\r\n"),
        Expected::Scan(LIMIT, ChunkedScan::Whole { len: 12 }),
    ),
    (
        "two_trailers",
        Of(b"0\r\nETag: a\r\nAge: 1\r\n\r\n"),
        Expected::Scan(LIMIT, ChunkedScan::Whole { len: 22 }),
    ),
    (
        "trailers_like_chunks",
        Of(b"0\r\nhello\r\n0\r\n\r\n"),
        Expected::Scan(LIMIT, ChunkedScan::Whole { len: 15 }),
    ),
    (
        "chunk_that_waits_for_each_byte",
        Of(b"5;x\r\nhello\r\n0\r\na: b\r\n\r\n"),
        Expected::Waits,
    ),
    // so many zeros before a size, and a trailer line of so many bytes
    (
        "size_behind_65536_zeros",
        Often(b"", b"0", 65_536, b"5\r\nhello\r\n0\r\n\r\n"),
        Expected::Scan(LIMIT, ChunkedScan::Whole { len: 65_551 }),
    ),
    (
        "trailer_of_65536_bytes_without_the_last_byte",
        Often(b"0\r\n", b"a", 65_536, b"\r\n\r"),
        SHORT,
    ),
    (
        "trailer_of_65536_bytes",
        Often(b"0\r\n", b"a", 65_536, b"\r\n\r\n"),
        Expected::Scan(LIMIT, ChunkedScan::Whole { len: 65_543 }),
    ),
    // rule body-parts
    // where the data are
    (
        "part_of_a_chunk",
        Of(b"5;x=y\r\nhello\r\n0\r\nA: b\r\n\r\n"),
        Expected::Parts(47, &[(54, 59)]),
    ),
    (
        "parts_of_no_chunk",
        Of(b"0\r\n\r\n"),
        Expected::Parts(47, &[]),
    ),
    // a trailer isn't delivered, whatever it looks like
    (
        "parts_of_trailers_like_chunks",
        Of(b"0\r\nhello\r\n5\r\nhello\r\n\r\n"),
        Expected::Parts(0, &[]),
    ),
    // rule body-parts
    (
        "parts_of_three_chunks",
        Of(b"1\r\na\r\n02\r\nbc\r\n3;\r\ndef\r\n0\r\n\r\n"),
        Expected::Parts(0, &[(3, 4), (10, 12), (18, 21)]),
    ),
    (
        "part_that_is_a_head",
        Of(b"13\r\nHTTP/1.1 200 OK\r\n\r\n\r\n0\r\n\r\n"),
        Expected::Parts(0, &[(4, 23)]),
    ),
    ("nothing_scanned", Of(b""), SHORT),
];

/// Chunked bodies.
pub(crate) fn bodies() -> &'static [Row] {
    &BODIES
}

// rule body-chunk-framing
static BAD: [Row; 21] = [
    ("bare_lf_behind_a_size", Of(b"5\n"), Expected::BadAtLast),
    (
        "bare_lf_behind_an_extension",
        Of(b"5;a\n"),
        Expected::BadAtLast,
    ),
    (
        "bare_cr_in_an_extension",
        Of(b"5;a\rb"),
        Expected::BadAtLast,
    ),
    ("two_cr_behind_a_size", Of(b"5\r\r"), Expected::BadAtLast),
    ("letter_behind_a_size", Of(b"5x"), Expected::BadAtLast),
    ("letter_behind_a_zero", Of(b"0x"), Expected::BadAtLast),
    ("minus_as_a_size", Of(b"-"), Expected::BadAtLast),
    ("blank_as_a_size", Of(b" "), Expected::BadAtLast),
    ("semicolon_as_a_size", Of(b";"), Expected::BadAtLast),
    ("cr_as_a_size", Of(b"\r"), Expected::BadAtLast),
    ("lf_as_a_size", Of(b"\n"), Expected::BadAtLast),
    (
        "letter_behind_data",
        Of(b"5\r\nhelloX"),
        Expected::BadAtLast,
    ),
    ("digit_behind_data", Of(b"5\r\nhello0"), Expected::BadAtLast),
    (
        "bare_lf_behind_data",
        Of(b"5\r\nhello\n"),
        Expected::BadAtLast,
    ),
    (
        "bare_cr_behind_data",
        Of(b"5\r\nhello\rX"),
        Expected::BadAtLast,
    ),
    ("bare_lf_as_the_end", Of(b"0\r\n\n"), Expected::BadAtLast),
    (
        "bare_lf_behind_a_trailer",
        Of(b"0\r\na: b\n"),
        Expected::BadAtLast,
    ),
    (
        "two_cr_behind_a_trailer",
        Of(b"0\r\na: b\r\r"),
        Expected::BadAtLast,
    ),
    (
        "bare_lf_behind_trailers",
        Of(b"0\r\na: b\r\n\n"),
        Expected::BadAtLast,
    ),
    ("bare_cr_as_the_end", Of(b"0\r\n\rX"), Expected::BadAtLast),
    (
        "bare_lf_before_a_body",
        Of(b"5\nhello\r\n0\r\n\r\n"),
        Expected::Scan(LIMIT, ChunkedScan::Bad),
    ),
];

/// Bytes of which the last one is wrong.
pub(crate) fn bad() -> &'static [Row] {
    &BAD
}

static SIZES: [Row; 13] = [
    ("greatest_size_scanned", Of(b"4000000"), SHORT),
    ("greatest_size_and_its_end", Of(b"4000000\r\n"), SHORT),
    // rule body-chunk-size
    (
        "greatest_size_behind_zeros",
        Of(b"000000000000000000004000000\r\n"),
        SHORT,
    ),
    // rule body-chunk-size
    ("size_over_the_limit", Of(b"4000001"), TOO_LARGE),
    (
        "size_over_the_limit_behind_zeros",
        Of(b"00000000000000000000004000001"),
        TOO_LARGE,
    ),
    (
        "letter_in_a_size",
        Of(b"400000x"),
        Expected::Scan(LIMIT, ChunkedScan::Bad),
    ),
    (
        "letter_behind_a_size_over_the_limit",
        Of(b"4000001x"),
        TOO_LARGE,
    ),
    (
        "size_of_2_to_the_32_and_5",
        Of(b"100000005\r\nhello\r\n0\r\n\r\n"),
        TOO_LARGE,
    ),
    (
        "size_of_2_to_the_64_and_5",
        Of(b"10000000000000005\r\nhello\r\n0\r\n\r\n"),
        TOO_LARGE,
    ),
    (
        "size_over_the_limit_behind_a_chunk",
        Of(b"1\r\na\r\n4000001\r\n"),
        TOO_LARGE,
    ),
    (
        "size_at_a_limit_of_5",
        Of(b"5"),
        Expected::Scan(5, ChunkedScan::Short),
    ),
    (
        "size_over_a_limit_of_5",
        Of(b"6"),
        Expected::Scan(5, ChunkedScan::TooLarge),
    ),
    // rule body-chunk-size
    // 1 to 40 digits, each the greatest
    (
        "sizes_of_1_to_40_digits",
        Often(b"", b"F", 40, b""),
        Expected::TooLargeFrom(7),
    ),
];

/// Sizes at their limit.
pub(crate) fn sizes() -> &'static [Row] {
    &SIZES
}
