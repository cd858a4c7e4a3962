//! Heads (RFC 9112, sections 2 to 9). The offsets were counted, and none was taken from a decoder.

use crate::bases::{LONG_HEAD, NO_HEAD, OPEN, WHOLE};
use crate::bytes::{COUNTED, HINTS, NO_CONTENT};
use crate::response::Response;
use mx_types::Code;

static REFUSED: [Response; 23] = [
    // no bytes, and heads that don't end
    Response {
        name: "nothing",
        code: Code::GotNothing,
        ..NO_HEAD
    },
    Response {
        name: "status_line_that_does_not_end",
        front: b"HTTP/1.1 20",
        ..NO_HEAD
    },
    Response {
        name: "head_that_does_not_end",
        front: b"HTTP/1.1 200 OK\r\nA: b",
        ..NO_HEAD
    },
    // bytes that begin no head: the last that counts is wrong
    Response {
        name: "letter_before_a_head",
        front: b"X",
        decided: Some(1),
        ..NO_HEAD
    },
    Response {
        name: "zero_byte",
        front: b"\0",
        decided: Some(1),
        ..NO_HEAD
    },
    Response {
        name: "bytes_of_no_text",
        front: b"\0\x01\x02\x80\xff\xfe\r\n\r\n",
        decided: Some(1),
        ..NO_HEAD
    },
    Response {
        name: "blank_before_a_head",
        front: b" HTTP/1.1 200 OK\r\n\r\n",
        decided: Some(1),
        ..NO_HEAD
    },
    Response {
        name: "version_2",
        front: b"HTTP/2",
        decided: Some(6),
        ..NO_HEAD
    },
    Response {
        name: "version_2_0",
        front: b"HTTP/2.0 200 OK\r\n\r\n",
        decided: Some(6),
        ..NO_HEAD
    },
    Response {
        name: "status_of_a_letter",
        front: b"HTTP/1.1 20x",
        decided: Some(12),
        ..NO_HEAD
    },
    Response {
        name: "status_of_four_digits",
        front: b"HTTP/1.1 2000",
        decided: Some(13),
        ..NO_HEAD
    },
    Response {
        name: "carriage_return_in_a_reason",
        front: b"HTTP/1.1 200 O\rK",
        decided: Some(16),
        ..NO_HEAD
    },
    Response {
        name: "carriage_return_behind_a_reason",
        front: b"HTTP/1.1 200 OK\rA: b\r\n\r\n",
        decided: Some(17),
        ..NO_HEAD
    },
    Response {
        name: "field_line_that_begins_with_a_blank",
        front: b"HTTP/1.1 200 OK\r\n :",
        decided: Some(18),
        ..NO_HEAD
    },
    Response {
        name: "name_with_a_blank",
        front: b"HTTP/1.1 200 OK\r\nA b: c\r\n\r\n",
        decided: Some(19),
        ..NO_HEAD
    },
    Response {
        name: "name_with_a_blank_and_no_colon",
        front: b"HTTP/1.1 200 OK\r\nFoo bar\r\n\r\n",
        decided: Some(21),
        ..NO_HEAD
    },
    Response {
        name: "name_with_a_blank_behind",
        front: b"HTTP/1.1 200 OK\r\nA : b\r\n\r\n",
        decided: Some(19),
        ..NO_HEAD
    },
    Response {
        name: "name_with_a_zero_byte",
        front: b"HTTP/1.1 200 OK\r\nA\0: b\r\n\r\n",
        decided: Some(19),
        ..NO_HEAD
    },
    Response {
        name: "value_that_is_a_zero_byte",
        front: b"HTTP/1.1 200 OK\r\nA: \0",
        decided: Some(21),
        ..NO_HEAD
    },
    Response {
        name: "value_with_a_zero_byte",
        front: b"HTTP/1.1 200 OK\r\nA: b\0c\r\n\r\n",
        decided: Some(22),
        ..NO_HEAD
    },
    Response {
        name: "value_with_a_carriage_return",
        front: b"HTTP/1.1 200 OK\r\nA: b\rc",
        decided: Some(23),
        ..NO_HEAD
    },
    Response {
        name: "folded_value",
        front: b"HTTP/1.1 200 OK\r\nA: b\r\n c\r\n\r\n",
        decided: Some(24),
        ..NO_HEAD
    },
    Response {
        name: "carriage_return_before_no_line_feed",
        front: b"HTTP/1.1 200 OK\r\nA: b\r\n\rc",
        decided: Some(25),
        ..NO_HEAD
    },
];

/// Bytes that begin no head: the last that counts is wrong; before them no bytes, and heads that don't end.
pub(crate) fn refused() -> &'static [Response] {
    &REFUSED
}

static LIMITS: [Response; 10] = [
    // as many field lines as may be, and more
    Response {
        name: "colon_as_field_line_128",
        front: b"HTTP/1.1 200 OK\r\n",
        unit: b"A: b\r\n",
        count: 127,
        end: b":",
        decided: Some(780),
        ..NO_HEAD
    },
    Response {
        name: "field_lines_128",
        front: b"HTTP/1.1 200 OK\r\n",
        unit: b"A: b\r\n",
        count: 128,
        end: b"\r\n",
        ..OPEN
    },
    Response {
        name: "field_lines_128_and_half_an_end",
        front: b"HTTP/1.1 200 OK\r\n",
        unit: b"A: b\r\n",
        count: 128,
        end: b"\r",
        ..NO_HEAD
    },
    Response {
        name: "field_lines_128_and_a_bad_end",
        front: b"HTTP/1.1 200 OK\r\n",
        unit: b"A: b\r\n",
        count: 128,
        end: b"\rx",
        decided: Some(787),
        ..NO_HEAD
    },
    // rule head-field-count
    Response {
        name: "colon_as_field_line_129",
        front: b"HTTP/1.1 200 OK\r\n",
        unit: b"A: b\r\n",
        count: 128,
        end: b":",
        decided: Some(786),
        ..LONG_HEAD
    },
    Response {
        name: "zero_byte_as_field_line_129",
        front: b"HTTP/1.1 200 OK\r\n",
        unit: b"A: b\r\n",
        count: 128,
        end: b"\0",
        decided: Some(786),
        ..LONG_HEAD
    },
    Response {
        name: "field_line_129_that_does_not_end",
        front: b"HTTP/1.1 200 OK\r\n",
        unit: b"A: b\r\n",
        count: 128,
        end: b"A: b",
        decided: Some(786),
        ..LONG_HEAD
    },
    Response {
        name: "field_lines_129",
        front: b"HTTP/1.1 200 OK\r\n",
        unit: b"A: b\r\n",
        count: 129,
        end: b"\r\n",
        decided: Some(786),
        ..LONG_HEAD
    },
    // as many bytes of a head as may be, of which 43 aren't in the value, and one more
    Response {
        name: "head_of_65536_bytes",
        front: b"HTTP/1.1 200 OK\r\nA: ",
        unit: b"v",
        count: 65_493,
        end: b"\r\nContent-Length: 0\r\n\r\n",
        decided: Some(65_536),
        ..WHOLE
    },
    Response {
        name: "head_of_65537_bytes",
        front: b"HTTP/1.1 200 OK\r\nA: ",
        unit: b"v",
        count: 65_494,
        end: b"\r\nContent-Length: 0\r\n\r\n",
        decided: Some(65_536),
        ..LONG_HEAD
    },
];

/// Heads at their limits.
pub(crate) fn limits() -> &'static [Response] {
    &LIMITS
}

static INTERIM: [Response; 13] = [
    Response {
        name: "interim_head",
        front: b"HTTP/1.1 103 Early Hints\r\n\r\nHTTP/1.1 204 No Content\r\n\r\n",
        decided: Some(55),
        status: 204,
        ..WHOLE
    },
    Response {
        name: "interim_head_of_100",
        front: b"HTTP/1.1 100 Continue\r\n\r\nHTTP/1.1 204 No Content\r\n\r\n",
        decided: Some(52),
        status: 204,
        ..WHOLE
    },
    Response {
        name: "two_interim_heads",
        front: b"HTTP/1.1 100 Continue\r\n\r\nHTTP/1.1 103 Early Hints\r\nA: b\r\n\r\nHTTP/1.1 200 OK\r\nContent-Length: 5\r\n\r\nhello",
        decided: Some(102),
        parts: &[(97, 102)],
        body: b"hello",
        ..WHOLE
    },
    Response {
        name: "two_interim_heads_before_chunks",
        front: b"HTTP/1.1 100 Continue\r\n\r\nHTTP/1.1 103 Early Hints\r\n\r\n\
        HTTP/1.1 200 OK\r\nTransfer-Encoding: chunked\r\n\r\n2\r\nhe\r\n3\r\nllo\r\n0\r\n\r\nHTTP",
        decided: Some(120),
        parts: &[(103, 105), (110, 113)],
        body: b"hello",
        ..WHOLE
    },
    Response {
        name: "interim_head_alone",
        front: b"HTTP/1.1 103 Early Hints\r\n\r\n",
        ..NO_HEAD
    },
    Response {
        name: "interim_head_before_a_bad_one",
        front: b"HTTP/1.1 100 Continue\r\n\r\nHTTP/1.1 20x",
        decided: Some(37),
        ..NO_HEAD
    },
    Response {
        name: "switching_protocols",
        front: b"HTTP/1.1 101 Switching Protocols\r\n\r\n",
        decided: Some(36),
        ..NO_HEAD
    },
    Response {
        name: "switching_protocols_behind_an_interim_head",
        front: b"HTTP/1.1 103 Early Hints\r\n\r\nHTTP/1.1 101 Switching Protocols\r\n\r\n",
        decided: Some(64),
        ..NO_HEAD
    },
    Response {
        name: "interim_heads_16",
        unit: HINTS,
        count: 16,
        end: NO_CONTENT,
        decided: Some(475),
        status: 204,
        ..WHOLE
    },
    Response {
        name: "interim_heads_16_before_a_body",
        unit: HINTS,
        count: 16,
        end: COUNTED,
        decided: Some(491),
        parts: &[(486, 491)],
        body: b"hello",
        ..WHOLE
    },
    Response {
        name: "interim_heads_17_alone",
        unit: HINTS,
        count: 17,
        decided: Some(476),
        ..NO_HEAD
    },
    // rule body-interim-heads
    Response {
        name: "interim_heads_17",
        unit: HINTS,
        count: 17,
        end: NO_CONTENT,
        decided: Some(476),
        ..NO_HEAD
    },
    Response {
        name: "interim_heads_17_before_a_body",
        unit: HINTS,
        count: 17,
        end: COUNTED,
        decided: Some(476),
        ..NO_HEAD
    },
];

/// Interim heads, of which there may be 16.
pub(crate) fn interim() -> &'static [Response] {
    &INTERIM
}
