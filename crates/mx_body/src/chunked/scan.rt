//! What the first bytes of an input are, read as a chunked body.

ghost use Rattle.std.specs.Prelude.{◌≡◌};
ghost use Rattle.mx_body.specs.ChunkedScan.{IsChunkedScan};

use crate::chunked::place::ChunkedPlace;

/// What the first bytes of an input are, read as a chunked body with no size over a limit.
#[derive(Clone, Copy, PartialEq, Eq)]
pub enum ChunkedScan {
    /// The first `len` bytes are a chunked body.
    Whole { len: usize },
    /// The bytes are a proper prefix of one.
    Short,
    /// A size is over the limit, and nothing before its last digit is wrong.
    TooLarge,
    /// A byte isn't allowed at its place, and nothing before it is wrong.
    Bad,
}

/// Reads an input from its front, up to the end of a chunked body (RFC 9112, section 7.1), or to the first
/// byte with which it can't be one.
///
/// A size may have any number of leading zeros. No byte of data is looked at.
pub fn scan_chunked(input: &[u8], limit: u32) -> ChunkedScan
    ensures { IsChunkedScan limit input.now result }
{
    let mut place = ChunkedPlace::Start;
    let mut at = 0;
    while at < input.len() {
        let (next, len) = place.advance(limit, &input[at..]);
        at += len;
        match next {
            ChunkedPlace::Done => return ChunkedScan::Whole { len: at },
            ChunkedPlace::Bad => return ChunkedScan::Bad,
            ChunkedPlace::TooLarge => return ChunkedScan::TooLarge,
            _ => place = next,
        }
    }
    ChunkedScan::Short
}
