//! Responses as long as one may be.

use crate::row::Bytes::Filled;
use crate::row::{Expected, Row};
use crate::told::is_told;
use mx_responses_tests_base::bases::{LARGE, OPEN, SHORT};
use mx_responses_tests_base::response::Response;
use std::alloc::Global;

/// The most bytes of a whole response.
const MOST_BYTES: usize = 67_108_864;

/// A body that goes on to the end of that many bytes.
static OPEN_BODY: Response = Response {
    parts: &[(19, 67_108_864)],
    ..OPEN
};

/// A body that hasn't ended.
static SHORT_BODY: Response = SHORT;

/// One byte more decides that it can't be.
static ONE_BYTE_MORE: Response = Response {
    decided: Some(MOST_BYTES + 1),
    ..LARGE
};

/// The result of a response at a limit.
#[derive(Clone, Copy)]
pub(crate) enum LimitedBody {
    /// A body of all its bytes, where they end there.
    Open,
    /// A body that hasn't ended.
    Short,
    /// Too many bytes, with the last one.
    OneByteMore,
}

/// The response that has that result.
fn response_of(told: LimitedBody) -> &'static Response {
    match told {
        LimitedBody::Open => &OPEN_BODY,
        LimitedBody::Short => &SHORT_BODY,
        LimitedBody::OneByteMore => &ONE_BYTE_MORE,
    }
}

/// Whether it has that result, before its end and with it.
pub(crate) fn is_told_anyhow(alloc: Global, told: LimitedBody, bytes: &[u8]) -> bool {
    let row = response_of(told);
    is_told(alloc, row, bytes, true) && is_told(alloc, row, bytes, false)
}

static LIMITS: [Row; 4] = [
    // rule body-size
    (
        "open_body_at_the_limit",
        Filled(b"HTTP/1.0 200 OK\r\n\r\n", MOST_BYTES),
        Expected::Told(LimitedBody::Open),
    ),
    // rule body-size
    (
        "open_body_past_the_limit",
        Filled(b"HTTP/1.0 200 OK\r\n\r\n", MOST_BYTES + 1),
        Expected::Told(LimitedBody::OneByteMore),
    ),
    // the greatest size, which can't fit after a head
    (
        "chunk_at_the_limit",
        Filled(
            b"HTTP/1.1 200 OK\r\nTransfer-Encoding: chunked\r\n\r\n4000000\r\n",
            MOST_BYTES,
        ),
        Expected::Told(LimitedBody::Short),
    ),
    (
        "chunk_past_the_limit",
        Filled(
            b"HTTP/1.1 200 OK\r\nTransfer-Encoding: chunked\r\n\r\n4000000\r\n",
            MOST_BYTES + 1,
        ),
        Expected::Told(LimitedBody::OneByteMore),
    ),
];

/// Responses at the limit of all bytes.
pub(crate) fn limits() -> &'static [Row] {
    &LIMITS
}
