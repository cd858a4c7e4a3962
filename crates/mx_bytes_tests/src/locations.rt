//! Locations (RFC 9110, section 10.2.2).

use crate::pieces::{decoder, feed};
use crate::row::Bytes::Of;
use crate::row::{Expected, Row};
use mx_body::Decoder;
use mx_head::{HeadStep, read_head};
use mx_types::Method;
use std::alloc::Global;

/// A place: its first offset, and that after its end.
type Offsets = (usize, usize);

/// Where the location of the head at the front is in it; `None` where there is no head, too.
fn place_in_head(input: &[u8]) -> Option<Offsets> {
    match read_head(input) {
        HeadStep::Head(head) => {
            let span = head.location()?;
            Some((span.start, span.end))
        }
        HeadStep::More => None,
        HeadStep::Fault(_) => None,
    }
}

/// Where the decoder places the location.
fn place_in_response(decoder: &Decoder) -> Option<Offsets> {
    let place = decoder.location()?;
    Some((place.start as usize, place.end as usize))
}

/// Feeds the bytes in pieces of that length; false where memory is refused.
fn feed_all(decoder: &mut Decoder, bytes: &[u8], len: usize) -> bool {
    for piece in bytes.chunks(len.max(1)) {
        if feed(decoder, piece).is_none() {
            return false;
        }
    }
    true
}

/// Whether a decoder has that location, at that place.
fn has_location(decoder: &Decoder, place: Option<Offsets>, value: &[u8]) -> bool {
    let (start, end) = place.unwrap_or((0, 0));
    place_in_response(decoder) == place && decoder.wire().get(start..end) == Some(value)
}

/// Whether a new decoder that is fed the bytes in pieces of that length has it.
fn has_location_by(
    alloc: Global,
    bytes: &[u8],
    len: usize,
    place: Option<Offsets>,
    value: &[u8],
) -> bool {
    let mut decoder = decoder(alloc, Method::Get);
    let is_right = feed_all(&mut decoder, bytes, len) && has_location(&decoder, place, value);
    drop(decoder);
    is_right
}

/// Whether it has, in pieces of each length.
pub(crate) fn is_located_behind(
    alloc: Global,
    bytes: &[u8],
    place: Option<Offsets>,
    value: &[u8],
) -> bool {
    has_location_by(alloc, bytes, 1, place, value)
        && has_location_by(alloc, bytes, 7, place, value)
        && has_location_by(alloc, bytes, 600, place, value)
}

/// Whether the head at the front has that location, too.
pub(crate) fn is_located(
    alloc: Global,
    bytes: &[u8],
    place: Option<Offsets>,
    value: &[u8],
) -> bool {
    place_in_head(bytes) == place && is_located_behind(alloc, bytes, place, value)
}

static FOUND: [Row; 10] = [
    (
        "location",
        Of(b"HTTP/1.1 301 Moved\r\nLocation: http://a/\r\n\r\n"),
        Expected::Location(Some((30, 39)), b"http://a/"),
    ),
    (
        "location_of_created",
        Of(b"HTTP/1.1 201 Created\r\nLocation: /n\r\n\r\n"),
        Expected::Location(Some((32, 34)), b"/n"),
    ),
    // a second line counts for nothing
    (
        "two_locations",
        Of(b"HTTP/1.1 302 Found\r\nLocation: /a\r\nLocation: /b\r\n\r\n"),
        Expected::Location(Some((30, 32)), b"/a"),
    ),
    (
        "location_before_an_empty_one",
        Of(b"HTTP/1.1 302 Found\r\nLocation: /a\r\nLocation:\r\n\r\n"),
        Expected::Location(Some((30, 32)), b"/a"),
    ),
    (
        "location_in_either_case_without_a_blank",
        Of(b"HTTP/1.1 302 Found\r\nlOcAtIoN:/a\r\n\r\n"),
        Expected::Location(Some((29, 31)), b"/a"),
    ),
    // blanks around the value are no part of it
    (
        "location_between_blanks",
        Of(b"HTTP/1.1 302 Found\r\nLocation: \t /a b \t\r\n\r\n"),
        Expected::Location(Some((32, 36)), b"/a b"),
    ),
    (
        "location_with_bytes_above_127",
        Of(b"HTTP/1.1 302 Found\r\nLocation: /\xff\xc3\xa9\r\n\r\n"),
        Expected::Location(Some((30, 34)), b"/\xff\xc3\xa9"),
    ),
    (
        "location_behind_names_that_only_end_so",
        Of(b"HTTP/1.1 302 Found\r\nX-Location: /x\r\nContent-Location: /y\r\nLocation: /z\r\n\r\n"),
        Expected::Location(Some((68, 70)), b"/z"),
    ),
    (
        "location_behind_empty_lines",
        Of(b"\r\n\nHTTP/1.0 301\nLocation: /a\n\n"),
        Expected::Location(Some((26, 28)), b"/a"),
    ),
    // the framing is refused, and the head is known
    (
        "location_and_a_bad_length",
        Of(b"HTTP/1.1 302 Found\r\nLocation: /a\r\nContent-Length: 5, 6\r\n\r\n"),
        Expected::Location(Some((30, 32)), b"/a"),
    ),
];

/// The first location of a head.
pub(crate) fn found() -> &'static [Row] {
    &FOUND
}

static NOT_FOUND: [Row; 14] = [
    (
        "no_location",
        Of(b"HTTP/1.1 302 Found\r\n\r\n"),
        Expected::Location(None, b""),
    ),
    (
        "empty_location",
        Of(b"HTTP/1.1 302 Found\r\nLocation:\r\n\r\n"),
        Expected::Location(None, b""),
    ),
    // an empty first line is none, whatever the second has
    (
        "empty_location_before_another",
        Of(b"HTTP/1.1 302 Found\r\nLocation:\r\nLocation: /b\r\n\r\n"),
        Expected::Location(None, b""),
    ),
    (
        "blank_location_before_another",
        Of(b"HTTP/1.1 302 Found\r\nLocation: \t \r\nLocation: /b\r\n\r\n"),
        Expected::Location(None, b""),
    ),
    (
        "names_like_location",
        Of(b"HTTP/1.1 302 Found\r\nX-Location: /x\r\nLocations: /y\r\n\r\n"),
        Expected::Location(None, b""),
    ),
    (
        "location_of_nothing",
        Of(b""),
        Expected::Location(None, b""),
    ),
    (
        "location_of_a_head_without_its_end",
        Of(b"HTTP/1.1 302 Found\r\nLocation: /a\r\n"),
        Expected::Location(None, b""),
    ),
    (
        "location_of_a_head_without_its_last_byte",
        Of(b"HTTP/1.1 302 Found\r\nLocation: /a\r\n\r"),
        Expected::Location(None, b""),
    ),
    (
        "location_of_a_refused_head",
        Of(b"HTTP/1.1 302 Found\r\nLocation: /a\r\nA b: c\r\n\r\n"),
        Expected::Location(None, b""),
    ),
    // an interim head of 43 bytes, whose location isn't the response's
    (
        "location_of_an_interim_head_alone",
        Of(b"HTTP/1.1 103 Early Hints\r\nLocation: /no\r\n\r\n"),
        Expected::LocationBehind(None, b""),
    ),
    // rule redirect-interim-location
    (
        "location_of_an_interim_head",
        Of(b"HTTP/1.1 103 Early Hints\r\nLocation: /no\r\n\r\nHTTP/1.1 302 Found\r\n\r\n"),
        Expected::LocationBehind(None, b""),
    ),
    // rule redirect-interim-location
    (
        "location_behind_an_interim_head",
        Of(
            b"HTTP/1.1 103 Early Hints\r\nLocation: /no\r\n\r\nHTTP/1.1 302 Found\r\nLocation: /a\r\n\r\n",
        ),
        Expected::LocationBehind(Some((73, 75)), b"/a"),
    ),
    (
        "location_behind_an_interim_head_before_half_a_body",
        Of(
            b"HTTP/1.1 103 Early Hints\r\nLocation: /no\r\n\r\nHTTP/1.1 302 Found\r\nLocation: /a\r\nContent-Length: 5\r\n\r\nab",
        ),
        Expected::LocationBehind(Some((73, 75)), b"/a"),
    ),
    (
        "location_behind_an_interim_head_before_half_a_chunk",
        Of(
            b"HTTP/1.1 103 Early Hints\r\nLocation: /no\r\n\r\nHTTP/1.1 302 Found\r\nLocation: /a\r\nTransfer-Encoding: chunked\r\n\r\n5\r\nab",
        ),
        Expected::LocationBehind(Some((73, 75)), b"/a"),
    ),
];

/// Heads without a location, and responses with interim heads.
pub(crate) fn not_found() -> &'static [Row] {
    &NOT_FOUND
}
