//! Why bytes aren't a whole response, and where that is decided.

use crate::row::Bytes::{Chunks, Of, Often};
use crate::row::{Expected, Row};
use mx_reason::{Cut, Defect, Fault, Reason, reason_of};
use mx_types::Method;
use std::alloc::Global;

fn reason(alloc: Global, wire: &[u8]) -> Option<Reason> {
    reason_of(alloc, Method::Get, wire)
}

/// Whether that is wrong in these bytes, as is decided with so many.
pub(crate) fn is_fault(alloc: Global, wire: &[u8], at: usize, fault: Fault) -> bool {
    let what = Defect::Fault(fault);
    reason(alloc, wire) == Some(Reason { at, what })
}

/// Whether nothing is decided of these bytes.
fn is_cut(alloc: Global, wire: &[u8]) -> bool {
    match reason(alloc, wire) {
        Some(
            Reason {
                at,
                what: Defect::Cut(_),
            },
        ) => at == wire.len(),
        _ => false,
    }
}

/// Whether bytes are refused so, with the code of that number: all of them, as many as decide, and not one less.
pub(crate) fn is_refused(alloc: Global, wire: &[u8], at: usize, fault: Fault, number: u32) -> bool {
    fault.code().number() == number
        && is_fault(alloc, wire, at, fault)
        && is_fault(alloc, &wire[..at.min(wire.len())], at, fault)
        && is_cut(alloc, &wire[..at.saturating_sub(1).min(wire.len())])
}

/// Whether bytes end there.
pub(crate) fn is_cut_so(alloc: Global, wire: &[u8], cut: Cut) -> bool {
    let what = Defect::Cut(cut);
    let at = wire.len();
    reason(alloc, wire) == Some(Reason { at, what })
}

/// Whether bytes begin with a whole response, for which there is no reason.
pub(crate) fn is_whole(alloc: Global, method: Method, wire: &[u8]) -> bool {
    reason_of(alloc, method, wire).is_none()
}

// rule reason-refused
static REFUSED: [Row; 25] = [
    (
        "letter_as_a_status_line",
        Of(b"X"),
        Expected::Refused(1, Fault::StatusLine, 8),
    ),
    (
        "ssh_as_a_status_line",
        Of(b"SSH-2.0-OpenSSH_9.2\r\n"),
        Expected::Refused(1, Fault::StatusLine, 8),
    ),
    (
        "letter_behind_empty_lines",
        Of(b"\r\n\r\nX"),
        Expected::Refused(5, Fault::StatusLine, 8),
    ),
    (
        "status_line_of_version_2",
        Of(b"HTTP/2 200\r\n\r\n"),
        Expected::Refused(6, Fault::StatusLine, 8),
    ),
    (
        "status_line_with_a_letter_in_its_status",
        Of(b"HTTP/1.1 2x0 OK\r\n\r\n"),
        Expected::Refused(11, Fault::StatusLine, 8),
    ),
    (
        "status_line_with_a_bare_cr",
        Of(b"HTTP/1.1 200 O\rK\r\n\r\n"),
        Expected::Refused(16, Fault::StatusLine, 8),
    ),
    (
        "field_line_that_is_folded",
        Of(b"HTTP/1.1 200 OK\r\n folded\r\n\r\n"),
        Expected::Refused(18, Fault::FieldLine, 8),
    ),
    (
        "field_line_without_a_colon",
        Of(b"HTTP/1.1 200 OK\r\nNo Colon\r\n\r\n"),
        Expected::Refused(20, Fault::FieldLine, 8),
    ),
    (
        "field_line_with_a_zero_byte",
        Of(b"HTTP/1.1 200 OK\r\nA: \0\r\n\r\n"),
        Expected::Refused(21, Fault::FieldLine, 8),
    ),
    (
        "bad_field_line_behind_an_interim_head",
        Of(b"HTTP/1.1 100 \r\n\r\nHTTP/1.1 200 OK\r\nA b: c\r\n\r\n"),
        Expected::Refused(36, Fault::FieldLine, 8),
    ),
    (
        "other_protocol",
        Of(b"HTTP/1.1 101 Switching\r\n\r\nmore"),
        Expected::Refused(26, Fault::InterimHead, 8),
    ),
    (
        "length_with_a_letter",
        Of(b"HTTP/1.1 200 OK\r\nContent-Length: 5x\r\n\r\nhello"),
        Expected::Refused(39, Fault::BadFraming, 8),
    ),
    (
        "lengths_that_differ",
        Of(b"HTTP/1.1 200 OK\r\nContent-Length: 5\r\nContent-Length: 6\r\n\r\nhello"),
        Expected::Refused(57, Fault::BadFraming, 8),
    ),
    (
        "framing_of_http_1_0_with_a_coding",
        Of(b"HTTP/1.0 200 OK\r\nTransfer-Encoding: chunked\r\n\r\n0\r\n\r\n"),
        Expected::Refused(47, Fault::BadFraming, 8),
    ),
    (
        "coding_gzip",
        Of(b"HTTP/1.1 200 OK\r\nTransfer-Encoding: gzip\r\n\r\nhello"),
        Expected::Refused(44, Fault::OtherCoding, 61),
    ),
    (
        "length_over_the_limit",
        Of(b"HTTP/1.1 200 OK\r\nContent-Length: 67108864\r\n\r\nhello"),
        Expected::Refused(45, Fault::LongBody(67_108_864), 63),
    ),
    (
        "chunk_over_the_limit",
        Of(b"HTTP/1.1 200 OK\r\nTransfer-Encoding: chunked\r\n\r\n4000001\r\nhello"),
        Expected::Refused(54, Fault::LargeChunk, 63),
    ),
    (
        "letter_as_a_size_line",
        Of(b"HTTP/1.1 200 OK\r\nTransfer-Encoding: chunked\r\n\r\nhello"),
        Expected::Refused(48, Fault::SizeLine, 56),
    ),
    (
        "bare_lf_as_the_end_of_a_size_line",
        Of(b"HTTP/1.1 200 OK\r\nTransfer-Encoding: chunked\r\n\r\n5\nhello"),
        Expected::Refused(49, Fault::SizeLine, 56),
    ),
    (
        "bare_lf_as_the_end_of_an_extension",
        Of(b"HTTP/1.1 200 OK\r\nTransfer-Encoding: chunked\r\n\r\n5;a\nhello"),
        Expected::Refused(51, Fault::SizeLine, 56),
    ),
    (
        "letter_as_the_end_of_a_chunk",
        Of(b"HTTP/1.1 200 OK\r\nTransfer-Encoding: chunked\r\n\r\n5\r\nhellothere"),
        Expected::Refused(56, Fault::ChunkEnd, 56),
    ),
    (
        "bare_cr_as_the_end_of_a_chunk",
        Of(b"HTTP/1.1 200 OK\r\nTransfer-Encoding: chunked\r\n\r\n5\r\nhello\rX"),
        Expected::Refused(57, Fault::ChunkEnd, 56),
    ),
    (
        "letter_as_the_second_size_line",
        Of(b"HTTP/1.1 200 OK\r\nTransfer-Encoding: chunked\r\n\r\n5\r\nhello\r\nX"),
        Expected::Refused(58, Fault::SizeLine, 56),
    ),
    (
        "bare_lf_as_the_end_of_trailers",
        Of(b"HTTP/1.1 200 OK\r\nTransfer-Encoding: chunked\r\n\r\n0\r\n\n"),
        Expected::Refused(51, Fault::Trailer, 56),
    ),
    (
        "bare_lf_as_the_end_of_a_trailer",
        Of(b"HTTP/1.1 200 OK\r\nTransfer-Encoding: chunked\r\n\r\n0\r\nA: b\n"),
        Expected::Refused(55, Fault::Trailer, 56),
    ),
];

/// Bytes that are refused.
pub(crate) fn refused() -> &'static [Row] {
    &REFUSED
}

// rule reason-truncated
static ENDS: [Row; 15] = [
    ("end_before_a_head", Of(b""), Expected::Ends(Cut::Head)),
    (
        "end_in_a_status_line",
        Of(b"HTTP/1.1 20"),
        Expected::Ends(Cut::Head),
    ),
    (
        "end_behind_an_interim_head",
        Of(b"HTTP/1.1 100 \r\n\r\nHT"),
        Expected::Ends(Cut::Head),
    ),
    (
        "end_before_a_body",
        Of(b"HTTP/1.1 200 OK\r\nContent-Length: 5\r\n\r\n"),
        Expected::Ends(Cut::Counted { came: 0, of: 5 }),
    ),
    (
        "end_in_a_body",
        Of(b"HTTP/1.1 200 OK\r\nContent-Length: 5\r\n\r\nhell"),
        Expected::Ends(Cut::Counted { came: 4, of: 5 }),
    ),
    (
        "end_before_chunks",
        Of(b"HTTP/1.1 200 OK\r\nTransfer-Encoding: chunked\r\n\r\n"),
        Expected::Ends(Cut::Chunked),
    ),
    (
        "end_in_the_last_chunk",
        Of(b"HTTP/1.1 200 OK\r\nTransfer-Encoding: chunked\r\n\r\n5\r\nhello\r\n0\r\n"),
        Expected::Ends(Cut::Chunked),
    ),
    (
        "end_of_an_empty_open_body",
        Of(b"HTTP/1.1 200 OK\r\n\r\n"),
        Expected::Ends(Cut::Close),
    ),
    (
        "end_of_an_open_body",
        Of(b"HTTP/1.0 200 OK\r\n\r\nhello"),
        Expected::Ends(Cut::Close),
    ),
    (
        "whole_with_a_length",
        Of(b"HTTP/1.1 200 OK\r\nContent-Length: 5\r\n\r\nhello"),
        Expected::Whole(Method::Get),
    ),
    (
        "whole_with_no_length",
        Of(b"HTTP/1.1 200 OK\r\nContent-Length: 0\r\n\r\n"),
        Expected::Whole(Method::Get),
    ),
    (
        "whole_without_content",
        Of(b"HTTP/1.1 204 No Content\r\n\r\nmore"),
        Expected::Whole(Method::Get),
    ),
    (
        "whole_in_chunks",
        Of(b"HTTP/1.1 200 OK\r\nTransfer-Encoding: chunked\r\n\r\n5\r\nhello\r\n0\r\n\r\n"),
        Expected::Whole(Method::Get),
    ),
    (
        "whole_in_no_chunks",
        Of(b"HTTP/1.1 200 OK\r\nTransfer-Encoding: chunked\r\n\r\n0\r\nA: b\r\n\r\n\x00"),
        Expected::Whole(Method::Get),
    ),
    (
        "whole_answer_to_head",
        Of(b"HTTP/1.1 200 OK\r\nContent-Length: 5\r\n\r\n"),
        Expected::Whole(Method::Head),
    ),
];

/// Bytes that end before anything is decided, and whole responses.
pub(crate) fn ends() -> &'static [Row] {
    &ENDS
}

/// The head of a chunked body.
const CHUNKED: &[u8] = b"HTTP/1.1 200 OK\r\nTransfer-Encoding: chunked\r\n\r\n";

static LONG: [Row; 6] = [
    (
        "one_field_line_too_many",
        Often(b"HTTP/1.1 200 OK\r\n", b"A: b\r\n", 128, b"c"),
        Expected::Refused(786, Fault::ManyFields, 100),
    ),
    (
        "head_without_an_end",
        Often(b"HTTP/1.1 200 OK\r\nA: ", b"0123456789", 7000, b""),
        Expected::Refused(65_536, Fault::LongHead, 100),
    ),
    (
        "one_interim_head_too_many",
        Often(b"", b"HTTP/1.1 100 \r\n\r\n", 20, b""),
        Expected::Refused(289, Fault::InterimHead, 8),
    ),
    (
        "more_bytes_than_there_may_be",
        Often(
            b"HTTP/1.1 200 OK\r\n\r\n",
            b"0123456789abcdef",
            4_194_304,
            b"",
        ),
        Expected::RefusedAsAll(67_108_865, Fault::ManyBytes, 63),
    ),
    (
        "more_chunks_than_there_may_be",
        Chunks(CHUNKED, 1024),
        Expected::RefusedAsAll(67_108_865, Fault::ManyBytes, 63),
    ),
    (
        "bad_byte_far_behind",
        Often(CHUNKED, b"5\r\nhello\r\n", 100_000, b"5\r\nhello!"),
        Expected::Refused(1_000_056, Fault::ChunkEnd, 56),
    ),
];

/// Bytes that are refused at the limits of a head, of interim heads, and of a response.
pub(crate) fn long() -> &'static [Row] {
    &LONG
}
