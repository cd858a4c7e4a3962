//! Calls that may be refused memory. One that was is made again, and has then to answer as if it had been the first; only then does its
//! test fail, by a text of its own. What a test needs for itself is refused as any allocation is. Without a refusal all of them pass.

use crate::pieces::{decoder, has_many_chunks, read};
use crate::streams::TWO_CHUNKS;
use crate::told::{is_verdict, says};
use mx_body::{Decoder, Stand, decode_whole};
use mx_reader::Reader;
use mx_responses_tests_base::bytes::CHUNKED;
use mx_responses_tests_base::response::Response;
use mx_responses_tests_base::table::responses;
use mx_types::{Method, OutOfMemory};
use std::alloc::{AllocError, Global};
use std::test::Fail;

/// What a test ends with in which a call was refused memory.
pub(crate) const AGAIN: &str = "memory was refused, and the call answered when it was made again";

// The end of a test, in which memory was refused at a call or not.
fn end_with(is_refused: bool) -> Result<(), Fail> {
    if is_refused {
        return Err(AGAIN.into());
    }
    Ok(())
}

// Decodes a response as a whole, again where memory was refused: whether it was, and whether the verdict is as expected.
fn decode(alloc: Global, row: &Response, bytes: &[u8]) -> (bool, bool) {
    let first = decode_whole(alloc, row.method, bytes, true);
    if first.is_ok() {
        return (false, is_verdict(&first, row, bytes.len(), true));
    }
    let second = decode_whole(alloc, row.method, bytes, true);
    (true, is_verdict(&second, row, bytes.len(), true))
}

/// A call of a decoder.
#[derive(Clone, Copy)]
enum DecoderCall<'a> {
    Feed(&'a [u8]),
    End,
}

fn make(decoder: &mut Decoder, call: DecoderCall<'_>) -> Result<Stand, OutOfMemory> {
    match call {
        DecoderCall::Feed(piece) => decoder.feed(piece),
        DecoderCall::End => decoder.end(),
    }
}

// Makes a call, again where memory was refused, if the decoder is as it was then; and whether memory was refused.
fn make_again(decoder: &mut Decoder, call: DecoderCall<'_>) -> (Result<Stand, OutOfMemory>, bool) {
    let before = read(decoder);
    match make(decoder, call) {
        Err(OutOfMemory) if read(decoder) == before => (make(decoder, call), true),
        stand => (stand, false),
    }
}

// Feeds the bytes in pieces of that length, and then the end: whether memory was refused, and whether the decoder says what its row says.
fn feed_all(decoder: &mut Decoder, row: &Response, bytes: &[u8], len: usize) -> (bool, bool) {
    let mut is_refused = false;
    for piece in bytes.chunks(len.max(1)) {
        let (stand, lacked) = make_again(decoder, DecoderCall::Feed(piece));
        is_refused = is_refused || lacked;
        if stand.is_err() {
            return (is_refused, false);
        }
    }
    let (stand, lacked) = make_again(decoder, DecoderCall::End);
    let is_right = stand.is_ok() && says(decoder, row, bytes.len(), true);
    (is_refused || lacked, is_right)
}

// Feeds them to a new decoder.
fn feed_by(alloc: Global, row: &Response, bytes: &[u8], len: usize) -> (bool, bool) {
    let mut decoder = decoder(alloc, row.method);
    let fed = feed_all(&mut decoder, row, bytes, len);
    drop(decoder);
    fed
}

// Feeds them to new decoders, in pieces of each length.
fn feed_new(alloc: Global, row: &Response, bytes: &[u8]) -> (bool, bool) {
    let mut is_refused = false;
    for len in [1, 7, 600] {
        let (lacked, is_right) = feed_by(alloc, row, bytes, len);
        is_refused = is_refused || lacked;
        if !is_right {
            return (is_refused, false);
        }
    }
    (is_refused, true)
}

/// How responses are decoded.
#[derive(Clone, Copy)]
enum Way {
    Whole,
    InPieces,
}

// Decodes a response so: whether memory was refused, and whether its verdict is as expected.
fn decode_by(alloc: Global, way: Way, row: &Response) -> Result<(bool, bool), AllocError> {
    let bytes = row.bytes(alloc)?;
    let decoded = match way {
        Way::Whole => decode(alloc, row, &bytes),
        Way::InPieces => feed_new(alloc, row, &bytes),
    };
    drop(bytes);
    Ok(decoded)
}

/// Whether memory was refused, and the name of the first response whose verdict is wrong.
type Decoded = (bool, Option<&'static str>);

// Decodes these responses so.
fn decode_rows(alloc: Global, way: Way, rows: &[Response]) -> Result<Decoded, AllocError> {
    let mut is_refused = false;
    for row in rows {
        let (lacked, is_right) = decode_by(alloc, way, row)?;
        is_refused = is_refused || lacked;
        if !is_right {
            return Ok((is_refused, Some(row.name)));
        }
    }
    Ok((is_refused, None))
}

// Decodes all responses so.
fn decode_all(alloc: Global, way: Way) -> Result<Decoded, AllocError> {
    let mut is_refused = false;
    for rows in responses() {
        let (lacked, wrong) = decode_rows(alloc, way, rows)?;
        is_refused = is_refused || lacked;
        if wrong.is_some() {
            return Ok((is_refused, wrong));
        }
    }
    Ok((is_refused, None))
}

// Decodes all responses so: it fails with the name of the first whose verdict is wrong.
fn try_all(alloc: Global, way: Way) -> Result<(), Fail> {
    let (is_refused, wrong) = decode_all(alloc, way)?;
    match wrong {
        Some(name) => Err(name.into()),
        None => end_with(is_refused),
    }
}

// rule body-out-of-memory
#[test]
fn whole_responses_are_decoded_again(rt: HostRuntime) -> Result<(), Fail> {
    try_all(rt.alloc(), Way::Whole)
}

// rule body-out-of-memory
#[test]
fn pieces_are_fed_again(rt: HostRuntime) -> Result<(), Fail> {
    try_all(rt.alloc(), Way::InPieces)
}

// Feeds a piece to a reader, again where memory was refused, if the reader and what was handed on are as they were then: whether memory was
// refused, and whether the piece was taken.
fn read_again(reader: &mut Reader, piece: &[u8], out: &mut Vec<u8>) -> (bool, bool) {
    let before = (reader.received(), out.len());
    match reader.feed(piece, out) {
        Ok(_) => (false, true),
        Err(OutOfMemory) => {
            let is_same = (reader.received(), out.len()) == before;
            (true, is_same && reader.feed(piece, out).is_ok())
        }
    }
}

// Reads a response of two chunks in pieces: whether memory was refused, and whether its content was handed on.
fn read_chunks(reader: &mut Reader, out: &mut Vec<u8>) -> (bool, bool) {
    let mut is_refused = false;
    for piece in TWO_CHUNKS.chunks(9) {
        let (lacked, is_taken) = read_again(reader, piece, out);
        is_refused = is_refused || lacked;
        if !is_taken {
            return (is_refused, false);
        }
    }
    let is_whole = reader.stand() == Stand::Complete;
    (
        is_refused,
        is_whole && out.as_slice() == b"hello".as_slice(),
    )
}

// rule body-out-of-memory
#[test]
fn content_is_handed_on_again(rt: HostRuntime) -> Result<(), Fail> {
    let mut reader = Reader::flowing(rt.alloc(), Method::Get, None);
    let mut out = Vec::new(rt.alloc());
    let (is_refused, is_right) = read_chunks(&mut reader, &mut out);
    drop(out);
    drop(reader);
    if !is_right {
        return Err("two chunks are handed on wrongly".into());
    }
    end_with(is_refused)
}

// The byte at that offset of the head, 100,000 chunks of one byte, and the end. It takes no memory.
fn byte_of_many_chunks(at: usize) -> u8 {
    let (bytes, at): (&[u8], usize) = if at < 47 {
        (CHUNKED, at)
    } else if at < 600_047 {
        (b"1\r\nx\r\n", (at - 47) % 6)
    } else {
        (b"0\r\n\r\n", at - 600_047)
    };
    bytes.get(at).copied().unwrap_or(0)
}

// Feeds those bytes, until one isn't answered `More`: how many were, the last answer, and whether memory was refused.
fn feed_many_chunks(decoder: &mut Decoder) -> (usize, Option<Stand>, bool) {
    let mut is_refused = false;
    for at in 0..600_052 {
        let byte = byte_of_many_chunks(at);
        let (stand, lacked) = make_again(decoder, DecoderCall::Feed(&[byte]));
        is_refused = is_refused || lacked;
        if stand != Ok(Stand::More) {
            return (at, stand.ok(), is_refused);
        }
    }
    (600_052, Some(Stand::More), is_refused)
}

// Feeds them: it fails where the decoder has then read something else.
fn feed_many_again(decoder: &mut Decoder) -> Result<(), Fail> {
    let (at, stand, is_refused) = feed_many_chunks(decoder);
    if at == 600_051 && stand == Some(Stand::Complete) && has_many_chunks(decoder) {
        return end_with(is_refused);
    }
    Err("many chunks".into())
}

/// All memory that is asked for is the decoder's, so that any one growth may be refused.
#[test]
fn many_chunks_go_on_behind_a_refused_growth(rt: HostRuntime) -> Result<(), Fail> {
    feed_many_again(&mut decoder(rt.alloc(), Method::Get))
}
