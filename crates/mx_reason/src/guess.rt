//! Where a wire is likely to be refused. Only the time of the search depends on it.
ghost use Rattle.std.specs.Prelude.{◌≤◌, length};

use crate::walk::{Walked, walk};
use mx_body::MOST_BYTES;
use mx_body::chunked::place::ChunkedPlace;
use mx_head::{Framing, MOST_HEAD_BYTES, framing};
use mx_types::Method;

/// How many bytes of a chunked body settle it; all, where it isn't settled.
fn settled_at(body: &[u8]) -> usize
    ensures { result ≤ length body.now }
{
    let mut place = ChunkedPlace::Start;
    let mut at = 0;
    while at < body.len() {
        let (next, len) = place.advance(MOST_BYTES as u32, &body[at..]);
        at += len;
        match next {
            ChunkedPlace::Done | ChunkedPlace::Bad | ChunkedPlace::TooLarge => return at,
            _ => place = next,
        }
    }
    at
}

/// After how many bytes the wire is likely to be refused.
pub(crate) fn guess(method: Method, wire: &[u8]) -> usize {
    match walk(wire) {
        Walked::Final { head, end } => match framing(method, &head) {
            Ok(Framing::Chunked) => (end + settled_at(&wire[end..])).min(MOST_BYTES + 1),
            Ok(Framing::Close) => MOST_BYTES + 1,
            _ => end,
        },
        Walked::Refused { end } => end,
        Walked::Open { start } => start.saturating_add(MOST_HEAD_BYTES),
    }
}
