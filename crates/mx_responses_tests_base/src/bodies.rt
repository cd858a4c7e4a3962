//! Bodies (RFC 9112, sections 2 to 9). The offsets were counted, and none was taken from a decoder.

use crate::bases::{BAD_CHUNKS, LARGE, NO_BODY, OPEN, OTHER_CODING, SHORT, WHOLE};
use crate::bytes::{CHUNKED, COUNTED, HEAD, NO_CONTENT};
use crate::response::Response;
use mx_types::Method;

static UNCOUNTED: [Response; 12] = [
    // no bodies
    Response {
        name: "answer_to_head",
        method: Method::Head,
        front: HEAD,
        decided: Some(38),
        ..WHOLE
    },
    Response {
        name: "no_content",
        front: NO_CONTENT,
        decided: Some(27),
        status: 204,
        ..WHOLE
    },
    Response {
        name: "no_content_and_more",
        front: b"HTTP/1.1 204 No Content\r\n\r\nHTTP",
        decided: Some(27),
        status: 204,
        ..WHOLE
    },
    Response {
        name: "no_content_with_odd_fields",
        front: b"HTTP/1.1 204 No Content\r\nA:\r\nB: \t \nC-1.x_~: d\te\r\n\n",
        decided: Some(50),
        status: 204,
        ..WHOLE
    },
    Response {
        name: "not_modified_with_another_coding",
        front: b"HTTP/1.1 304 Not Modified\r\nTransfer-Encoding: gzip\r\n\r\n",
        decided: Some(54),
        status: 304,
        ..WHOLE
    },
    Response {
        name: "not_modified_of_http_1_0_with_a_coding",
        front: b"HTTP/1.0 304 Not Modified\r\nTransfer-Encoding: chunked\r\nConnection: keep-alive\r\n\r\n",
        decided: Some(81),
        status: 304,
        keep: false,
        ..WHOLE
    },
    // bodies that the end ends
    Response {
        name: "open_body",
        front: b"HTTP/1.1 200 OK\r\n\r\nhello",
        parts: &[(19, 24)],
        body: b"hello",
        ..OPEN
    },
    Response {
        name: "open_body_of_http_1_0",
        front: b"HTTP/1.0 200 OK\r\n\r\nabc",
        parts: &[(19, 22)],
        body: b"abc",
        ..OPEN
    },
    Response {
        name: "line_feeds_alone",
        front: b"\r\n\nHTTP/1.0 404\n\n<html>",
        status: 404,
        parts: &[(17, 23)],
        body: b"<html>",
        ..OPEN
    },
    Response {
        name: "status_999",
        front: b"HTTP/1.1 999 \r\n\r\n",
        status: 999,
        ..OPEN
    },
    Response {
        name: "no_reason",
        front: b"HTTP/1.1 200\r\n\r\n",
        ..OPEN
    },
    Response {
        name: "byte_above_127",
        front: b"\r\nHTTP/1.1 301 Moved\r\nLocation: http://a/\r\nX:\tobs \xff\n\r\n",
        status: 301,
        ..OPEN
    },
];

/// Responses without a body, and bodies that the end ends.
pub(crate) fn uncounted() -> &'static [Response] {
    &UNCOUNTED
}

static COUNTED_BODIES: [Response; 22] = [
    // bodies with a length
    Response {
        name: "length",
        front: COUNTED,
        decided: Some(43),
        parts: &[(38, 43)],
        body: b"hello",
        ..WHOLE
    },
    // rule program-response-line
    Response {
        name: "length_and_more",
        front: b"HTTP/1.1 200 OK\r\nContent-Length: 5\r\n\r\nhelloHTTP",
        decided: Some(43),
        parts: &[(38, 43)],
        body: b"hello",
        ..WHOLE
    },
    Response {
        name: "length_and_much_more",
        front: COUNTED,
        unit: b"v",
        count: 200_000,
        decided: Some(43),
        parts: &[(38, 43)],
        body: b"hello",
        ..WHOLE
    },
    // rule body-truncated
    Response {
        name: "length_of_one_byte_more",
        front: b"HTTP/1.1 200 OK\r\nContent-Length: 5\r\n\r\nhell",
        ..SHORT
    },
    Response {
        name: "length_twice",
        front: b"HTTP/1.1 200 OK\r\nContent-Length: 5, 5\r\n\r\nhello",
        decided: Some(46),
        parts: &[(41, 46)],
        body: b"hello",
        ..WHOLE
    },
    Response {
        name: "length_twice_with_a_zero",
        front: b"HTTP/1.1 200 OK\r\nContent-Length: 05, 5\r\n\r\nhello",
        decided: Some(47),
        parts: &[(42, 47)],
        body: b"hello",
        ..WHOLE
    },
    Response {
        name: "length_twice_with_blanks",
        front: b"HTTP/1.1 200 OK\r\nContent-Length:   0005\t,5 \r\n\r\nhello",
        decided: Some(52),
        parts: &[(47, 52)],
        body: b"hello",
        ..WHOLE
    },
    Response {
        name: "two_lengths",
        front: b"HTTP/1.1 200 OK\r\nContent-Length: 5, 6\r\n\r\nhello",
        decided: Some(41),
        ..NO_BODY
    },
    Response {
        name: "two_lengths_and_no_body",
        front: b"HTTP/1.1 200 OK\r\nContent-Length: 5, 6\r\n\r\n",
        decided: Some(41),
        ..NO_BODY
    },
    Response {
        name: "empty_length_between_two",
        front: b"HTTP/1.1 200 OK\r\nContent-Length: 5,,5\r\n\r\nhello",
        decided: Some(41),
        ..NO_BODY
    },
    Response {
        name: "length_with_a_sign",
        front: b"HTTP/1.1 200 OK\r\nContent-Length: +5\r\n\r\nhello",
        decided: Some(39),
        ..NO_BODY
    },
    Response {
        name: "length_with_a_point",
        front: b"HTTP/1.1 200 OK\r\nContent-Length: 5.0\r\n\r\nhello",
        decided: Some(40),
        ..NO_BODY
    },
    Response {
        name: "length_of_no_digit",
        front: b"HTTP/1.1 200 OK\r\nContent-Length: \xff\r\n\r\nhello",
        decided: Some(38),
        ..NO_BODY
    },
    Response {
        name: "two_lengths_past_64_bits",
        front: b"HTTP/1.1 200 OK\r\nContent-Length: 18446744073709551616, 18446744073709551615\r\n\r\nhello",
        decided: Some(79),
        ..NO_BODY
    },
    Response {
        name: "two_lengths_past_64_bits_turned",
        front: b"HTTP/1.1 200 OK\r\nContent-Length: 18446744073709551615, 18446744073709551616\r\n\r\nhello",
        decided: Some(79),
        ..NO_BODY
    },
    Response {
        name: "length_past_64_bits",
        front: b"HTTP/1.1 200 OK\r\nContent-Length: 18446744073709551616\r\n\r\nhello",
        decided: Some(57),
        ..LARGE
    },
    // the most that fits after a head of 45 bytes, and more
    Response {
        name: "length_that_fits",
        front: b"HTTP/1.1 200 OK\r\nContent-Length: 67108819\r\n\r\n",
        ..SHORT
    },
    Response {
        name: "length_that_does_not_fit",
        front: b"HTTP/1.1 200 OK\r\nContent-Length: 67108820\r\n\r\n",
        decided: Some(45),
        ..LARGE
    },
    Response {
        name: "length_of_all_bytes",
        front: b"HTTP/1.1 200 OK\r\nContent-Length: 67108864\r\n\r\nhello",
        decided: Some(45),
        ..LARGE
    },
    // connections that are closed or kept
    Response {
        name: "length_and_close",
        front: b"HTTP/1.1 200 OK\r\nConnection: close\r\nContent-Length: 5\r\n\r\nhello",
        decided: Some(62),
        parts: &[(57, 62)],
        body: b"hello",
        keep: false,
        ..WHOLE
    },
    Response {
        name: "length_of_http_1_0",
        front: b"HTTP/1.0 200 OK\r\nContent-Length: 5\r\n\r\nhello",
        decided: Some(43),
        parts: &[(38, 43)],
        body: b"hello",
        keep: false,
        ..WHOLE
    },
    Response {
        name: "length_of_http_1_0_and_keep_alive",
        front: b"HTTP/1.0 200 OK\r\nConnection: keep-alive\r\nContent-Length: 5\r\n\r\nhello",
        decided: Some(67),
        parts: &[(62, 67)],
        body: b"hello",
        ..WHOLE
    },
];

/// Bodies with a length.
pub(crate) fn counted() -> &'static [Response] {
    &COUNTED_BODIES
}

static CHUNKED_BODIES: [Response; 18] = [
    Response {
        name: "chunk",
        front: CHUNKED,
        decided: Some(72),
        parts: &[(54, 59)],
        body: b"hello",
        ..WHOLE
    },
    Response {
        name: "chunk_and_half_an_end",
        front: b"HTTP/1.1 200 OK\r\nTransfer-Encoding: chunked\r\n\r\n5;x=y\r\nhello\r\n0\r\nA: b\r\n\r",
        ..SHORT
    },
    Response {
        name: "chunk_and_trailers_that_do_not_end",
        front: b"HTTP/1.1 200 OK\r\nTransfer-Encoding: chunked\r\n\r\n5\r\nhello\r\n00\r\nA: b\r\nC: d\r\n",
        ..SHORT
    },
    Response {
        name: "no_chunk",
        front: b"HTTP/1.1 200 OK\r\nTransfer-Encoding: chunked\r\n\r\n0\r\n\r\n",
        decided: Some(52),
        ..WHOLE
    },
    Response {
        name: "two_chunks",
        front: b"HTTP/1.1 200 OK\r\nTransfer-Encoding: chunked\r\n\r\n2\r\nhe\r\n3\r\nllo\r\n0\r\n\r\n",
        decided: Some(67),
        parts: &[(50, 52), (57, 60)],
        body: b"hello",
        ..WHOLE
    },
    Response {
        name: "two_chunks_and_more",
        front: b"HTTP/1.1 200 OK\r\nTransfer-Encoding: chunked\r\n\r\n2\r\nhe\r\n3\r\nllo\r\n0\r\n\r\nHTTP",
        decided: Some(67),
        parts: &[(50, 52), (57, 60)],
        body: b"hello",
        ..WHOLE
    },
    Response {
        name: "two_chunks_and_a_version",
        front: b"HTTP/1.1 200 OK\r\nTransfer-Encoding: chunked\r\n\r\n2\r\nhe\r\n3\r\nllo\r\n0\r\n\r\nHTTP/1.1",
        decided: Some(67),
        parts: &[(50, 52), (57, 60)],
        body: b"hello",
        ..WHOLE
    },
    Response {
        name: "two_chunks_of_one_byte",
        front: b"HTTP/1.1 200 OK\r\nTransfer-Encoding: chunked\r\n\r\n1\r\na\r\n1\r\nb\r\n0\r\n\r\n",
        decided: Some(64),
        parts: &[(50, 51), (56, 57)],
        body: b"ab",
        ..WHOLE
    },
    Response {
        name: "four_chunks",
        front: b"HTTP/1.1 200 OK\r\nTransfer-Encoding: chunked\r\n\r\n\
        1\r\na\r\nA\r\n0123456789\r\n2\r\nbc\r\na;x\r\n0123456789\r\n00\r\nB: c\r\n\r\n",
        decided: Some(104),
        parts: &[(50, 51), (56, 66), (71, 73), (80, 90)],
        body: b"a0123456789bc0123456789",
        ..WHOLE
    },
    Response {
        name: "two_chunks_and_no_last_one",
        front: b"HTTP/1.1 200 OK\r\nTransfer-Encoding: chunked\r\n\r\n1\r\na\r\n5\r\nhello\r\n",
        ..SHORT
    },
    Response {
        name: "chunk_and_a_length",
        front: b"HTTP/1.1 200 OK\r\nTransfer-Encoding: chunked\r\nContent-Length: 3\r\n\r\n5\r\nhello\r\n0\r\n\r\n",
        decided: Some(81),
        parts: &[(69, 74)],
        body: b"hello",
        keep: false,
        ..WHOLE
    },
    Response {
        name: "letter_behind_a_chunk",
        front: b"HTTP/1.1 200 OK\r\nTransfer-Encoding: chunked\r\n\r\n5\r\nhelloX",
        decided: Some(56),
        ..BAD_CHUNKS
    },
    Response {
        name: "letter_behind_the_second_chunk",
        front: b"HTTP/1.1 200 OK\r\nTransfer-Encoding: chunked\r\n\r\n1\r\na\r\n5\r\nhelloX",
        decided: Some(62),
        ..BAD_CHUNKS
    },
    Response {
        name: "carriage_return_and_letter_behind_a_chunk",
        front: b"HTTP/1.1 200 OK\r\nTransfer-Encoding: chunked\r\n\r\n1\r\na\r\n5\r\nhello\rX",
        decided: Some(63),
        ..BAD_CHUNKS
    },
    Response {
        name: "line_feed_alone_behind_a_chunk",
        front: b"HTTP/1.1 200 OK\r\nTransfer-Encoding: chunked\r\n\r\n1\r\na\r\n5\r\nhello\nX",
        decided: Some(62),
        ..BAD_CHUNKS
    },
    Response {
        name: "line_feed_alone_behind_a_size",
        front: b"HTTP/1.1 200 OK\r\nTransfer-Encoding: chunked\r\n\r\n5\nhello",
        decided: Some(49),
        ..BAD_CHUNKS
    },
    Response {
        name: "line_feed_alone_behind_a_size_and_much_more",
        front: b"HTTP/1.1 200 OK\r\nTransfer-Encoding: chunked\r\n\r\n5\nhello",
        unit: b"v",
        count: 200_000,
        decided: Some(49),
        ..BAD_CHUNKS
    },
    Response {
        name: "line_feed_alone_behind_the_second_size",
        front: b"HTTP/1.1 200 OK\r\nTransfer-Encoding: chunked\r\n\r\n1\r\na\r\n5\nhello\r\n",
        decided: Some(55),
        ..BAD_CHUNKS
    },
];

/// Bodies in chunks.
pub(crate) fn chunked() -> &'static [Response] {
    &CHUNKED_BODIES
}

static SIZES: [Response; 10] = [
    // 4000000 is the greatest size, so the seventh digit decides
    Response {
        name: "greatest_size",
        front: b"HTTP/1.1 200 OK\r\nTransfer-Encoding: chunked\r\n\r\n4000000\r\n",
        ..SHORT
    },
    Response {
        name: "greatest_size_behind_a_chunk",
        front: b"HTTP/1.1 200 OK\r\nTransfer-Encoding: chunked\r\n\r\n1\r\na\r\n4000000\r\nhello\r\n",
        ..SHORT
    },
    Response {
        name: "size_that_is_too_large",
        front: b"HTTP/1.1 200 OK\r\nTransfer-Encoding: chunked\r\n\r\n4000001\r\n",
        decided: Some(54),
        ..LARGE
    },
    Response {
        name: "size_that_is_too_large_behind_a_chunk",
        front: b"HTTP/1.1 200 OK\r\nTransfer-Encoding: chunked\r\n\r\n1\r\na\r\n5\r\nhello\r\n4000001\r\n",
        decided: Some(70),
        ..LARGE
    },
    Response {
        name: "size_that_is_too_large_behind_an_extension",
        front: b"HTTP/1.1 200 OK\r\nTransfer-Encoding: chunked\r\n\r\n5 ;a\r\nhello\r\n4000001\r\n",
        decided: Some(67),
        ..LARGE
    },
    Response {
        name: "size_past_64_bits",
        front: b"HTTP/1.1 200 OK\r\nTransfer-Encoding: chunked\r\n\r\nFFFFFFFFFFFFFFFFF\r\n",
        decided: Some(54),
        ..LARGE
    },
    // other codings
    Response {
        name: "other_coding",
        front: b"HTTP/1.1 200 OK\r\nTransfer-Encoding: gzip\r\n\r\n",
        decided: Some(44),
        ..OTHER_CODING
    },
    Response {
        name: "other_coding_and_a_body",
        front: b"HTTP/1.1 200 OK\r\nTransfer-Encoding: gzip\r\n\r\nhello",
        decided: Some(44),
        ..OTHER_CODING
    },
    Response {
        name: "other_coding_before_chunked",
        front: b"HTTP/1.1 200 OK\r\nTransfer-Encoding: gzip, chunked\r\n\r\n",
        decided: Some(53),
        ..OTHER_CODING
    },
    Response {
        name: "chunked_of_http_1_0",
        front: b"HTTP/1.0 200 OK\r\nTransfer-Encoding: chunked\r\n\r\n",
        decided: Some(47),
        ..NO_BODY
    },
];

/// Sizes of chunks, and codings.
pub(crate) fn sizes() -> &'static [Response] {
    &SIZES
}

static CAPTURES: [Response; 4] = [
    Response {
        name: "nginx_with_a_length",
        front: b"HTTP/1.1 200 OK\r\nServer: nginx/1.22.1\r\nDate: Sun, 22 Nov 2026 08:49:54 GMT\r\n\
        Content-Type: text/plain\r\nContent-Length: 14\r\nLast-Modified: Sun, 22 Nov 2026 08:49:52 GMT\r\n\
        Connection: close\r\nETag: \"6b02acb0-e\"\r\nAccept-Ranges: bytes\r\n\r\nhello, world.\n",
        decided: Some(245),
        parts: &[(231, 245)],
        body: b"hello, world.\n",
        keep: false,
        ..WHOLE
    },
    Response {
        name: "nginx_to_the_end",
        front: b"HTTP/1.1 200 OK\r\nServer: nginx/1.22.1\r\nDate: Sun, 22 Nov 2026 08:49:54 GMT\r\n\
        Content-Type: text/html\r\nConnection: close\r\n\r\ntime: none\n",
        parts: &[(122, 133)],
        body: b"time: none\n",
        ..OPEN
    },
    Response {
        name: "nginx_in_chunks",
        front: b"HTTP/1.1 200 OK\r\nServer: nginx/1.22.1\r\nDate: Sun, 22 Nov 2026 08:49:55 GMT\r\n\
        Content-Type: text/html\r\nTransfer-Encoding: chunked\r\nConnection: close\r\n\r\n\
        b\r\ntime: none\n\r\n0\r\n\r\n",
        decided: Some(171),
        parts: &[(153, 164)],
        body: b"time: none\n",
        keep: false,
        ..WHOLE
    },
    Response {
        name: "python_with_a_length",
        front: b"HTTP/1.0 200 OK\r\nServer: SimpleHTTP/0.6 Python/3.11.7\r\n\
        Date: Sun, 22 Nov 2026 08:49:56 GMT\r\nContent-type: text/plain\r\nContent-Length: 14\r\n\
        Last-Modified: Sun, 22 Nov 2026 08:49:52 GMT\r\n\r\nhello, world.\n",
        decided: Some(200),
        parts: &[(186, 200)],
        body: b"hello, world.\n",
        keep: false,
        ..WHOLE
    },
];

/// What nginx 1.22 and Python's `http.server` sent on loopback.
pub(crate) fn captures() -> &'static [Response] {
    &CAPTURES
}
