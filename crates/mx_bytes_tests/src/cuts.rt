//! Heads, and responses after an interim head, in pieces: after each piece a decoder says what the executable definitions say of the same
//! bytes.

use crate::heads::front;
use crate::pieces::{agrees_behind, decoder, feed};
use mx_body::{Decoder, Stand};
use mx_head::{HeadStep, read_head};
use mx_types::Method;
use std::alloc::Global;

const INTERIM: &[u8] = b"HTTP/1.1 103 Early Hints\r\nLink: </a>\r\n\r\n";

/// Whether the decoder says of a head what `read_head` says.
fn says_of(decoder: &Decoder, head: &[u8]) -> bool {
    match read_head(head) {
        HeadStep::Head(head) => decoder.status() == head.status(),
        HeadStep::More => decoder.stand() == Stand::More && decoder.status() == 0,
        HeadStep::Fault(code) => decoder.stand() == Stand::Fault(code),
    }
}

/// Feeds these pieces, and compares after each.
fn agrees_behind_each(alloc: Global, decoder: &mut Decoder, pieces: &[&[u8]]) -> bool {
    for piece in pieces {
        if !agrees_behind(alloc, decoder, Method::Get, *piece) {
            return false;
        }
    }
    true
}

/// Feeds an interim head, and then a response in two pieces.
fn agrees_in_two(alloc: Global, front: &[u8], back: &[u8]) -> bool {
    let mut decoder = decoder(alloc, Method::Get);
    let agrees = agrees_behind_each(alloc, &mut decoder, &[INTERIM, front, back]);
    drop(decoder);
    agrees
}

/// Whether it does so wherever the response is cut.
pub(crate) fn agrees_at_each_cut(alloc: Global, bytes: &[u8]) -> bool {
    for cut in 0..bytes.len() {
        if !agrees_in_two(alloc, &bytes[..cut], &bytes[cut..]) {
            return false;
        }
    }
    true
}

/// Feeds the bytes one by one until they are decided or a final head is known: how many were.
fn feed_until_known(decoder: &mut Decoder, bytes: &[u8]) -> usize {
    for i in 0..bytes.len() {
        let stand = feed(decoder, &bytes[i..i + 1]);
        if stand != Some(Stand::More) || decoder.status() != 0 {
            return i.saturating_add(1);
        }
    }
    bytes.len()
}

/// Feeds an interim head or nothing, and then a head one byte at a time: it is known with the byte with which `read_head` knows it.
fn knows_in_time(decoder: &mut Decoder, before: &[u8], head: &[u8]) -> bool {
    let stand = feed(decoder, before);
    let fed = feed_until_known(decoder, head);
    stand == Some(Stand::More)
        && read_head(front(head, fed.saturating_sub(1))) == HeadStep::More
        && says_of(decoder, front(head, fed))
}

/// Whether a new decoder knows it so.
fn is_known_in_time(alloc: Global, before: &[u8], head: &[u8]) -> bool {
    let mut decoder = decoder(alloc, Method::Get);
    let is_known = knows_in_time(&mut decoder, before, head);
    drop(decoder);
    is_known
}

/// Whether it is known so at the front, and after an interim head.
pub(crate) fn is_known_anywhere(alloc: Global, head: &[u8]) -> bool {
    is_known_in_time(alloc, b"", head) && is_known_in_time(alloc, INTERIM, head)
}
