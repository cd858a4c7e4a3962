//! Where the data of a chunked body are.

ghost use Rattle.std.specs.Prelude.{◌≡◌, ◌+◌, ◌<◌, ◌^◌, ◌≢◌, [], length, IfOk, OnErr, option_to_list};
ghost use Rattle.mx_body.specs.Chunked.{ChunkedBody, IsChunkedBody, chunked_bytes, chunk_parts};
ghost use Rattle.mx_body.specs.ChunkedPlace.{begun, data_left};

use crate::Part;
use crate::chunked::place::ChunkedPlace;
use mx_types::OutOfMemory;
use std::alloc::Global;

pub(crate) fn begun(place: ChunkedPlace, next: ChunkedPlace, at: u32) -> Option<Part>
    requires { at + data_left next < 2 ^ 32 }
    ensures { option_to_list result ≡ begun place next at }
{
    match (place, next) {
        (ChunkedPlace::SizeLf(_), ChunkedPlace::Data(left)) => Some(Part {
            start: at,
            end: at + left,
        }),
        _ => None,
    }
}

// rule body-parts
/// The parts of a chunked body that `scan_chunked` found whole, one for each chunk with data, in order.
///
/// `input` is the body, which begins at the offset `at`; the parts are offsets counted as `at` is. The error comes where memory for another
/// part is refused.
pub fn chunked_parts(alloc: Global, input: &[u8], at: u32) -> Result<Vec<Part>, OutOfMemory>
    requires whole { (body : ChunkedBody) × IsChunkedBody body × (input.now ≡ chunked_bytes body) }
    requires room { at + length input.now < 2 ^ 32 }
    ensures parts { IfOk result (λ parts. (body : ChunkedBody) → IsChunkedBody body
        → input.now ≡ chunked_bytes body → parts.items ≡ chunk_parts at body.chunks) }
    // a body with no data takes no memory
    ensures memory { OnErr result ((body : ChunkedBody) → IsChunkedBody body
        → input.now ≡ chunked_bytes body → body.chunks ≢ []) }
{
    let mut parts = Vec::new(alloc);
    let mut place = ChunkedPlace::Start;
    let mut read = 0;
    while read < input.len() {
        let (next, len) = place.advance(u32::MAX, &input[read..]);
        read += len;
        if let Some(part) = begun(place, next, at + read as u32) {
            parts.push(part)?;
        }
        place = next;
    }
    Ok(parts)
}
