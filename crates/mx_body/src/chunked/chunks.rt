//! Chunks of a chunked body, and trailer lines, that a reader passes one after the other, where they are complete.

ghost use Rattle.std.specs.Prelude.{◌≡◌, ◌+◌, ◌<◌, ◌≤◌, ◌^◌, ℕ, List, length, take, true, false, IsTrue, None, Some, IfSome, IfOk};
ghost use Rattle.mx_head.specs.Limits.{most_bytes};
ghost use Rattle.mx_body.specs.declared.part.Part.{Part};
ghost use Rattle.mx_body.specs.declared.chunked.place.ChunkedPlace.TheVariants.{Start, Data, TrailerStart};
ghost use Rattle.mx_body.specs.ChunkedPlace.{is_settled};
ghost use Rattle.mx_body.specs.ChunkedReader.{ReadTo};
ghost use Rattle.mx_body.specs.ChunkedStretch.{IsStretch};

use crate::Part;
use crate::chunked::place::ChunkedPlace;
use crate::chunked::stretch::{add_part, digits, go_over, is_crlf_at, line_bytes, part_at};
use crate::limits::MOST_BYTES;
use mx_types::OutOfMemory;

/// The line of a chunk with data at the front, if it has no extension: how many bytes it has with its CRLF, and the size.
fn data_line(limit: u32, input: &[u8]) -> Option<(usize, u32)>
    ensures within { IfSome result (λ r. r.0 ≤ length input.now) }
    ensures some { IfSome result (λ r. 0 < r.1) }
    ensures fits { IfSome result (λ r. r.1 ≤ limit) }
    ensures line { IfSome result (λ r. IsStretch limit Start input.now (record { next = Data r.1; len = r.0; ahead = Some r.1 })) }
{
    let (size, n) = digits(limit, 0, input);
    if size == 0 || !is_crlf_at(input, n) {
        return None;
    }
    Some((n + 2, size))
}

/// Whether data of that size are at the front with their CRLF.
fn has_data(size: u32, input: &[u8]) -> bool
    requires { 0 < size }
    ensures within { IsTrue result → size + 2 ≤ length input.now }
    ensures there { IsTrue result → (limit : ℕ) → IsStretch limit (Data size) input.now (record { next = Start; len = size + 2; ahead = None }) }
{
    let n = size as usize;
    n <= input.len() && is_crlf_at(input, n)
}

/// Reads on before a chunk: passes the complete ones, and the line of the next where data follow it.
fn pass_chunks(
    parts: &mut Vec<Part>,
    at: u32,
    body: &[u8],
    from: usize,
) -> Result<(ChunkedPlace, usize), OutOfMemory>
    requires read { ReadTo most_bytes at body.now from Start parts.old.items }
    requires room { at + length body.now + most_bytes < 2 ^ 32 }
    ensures read { IfOk result (λ r. ReadTo most_bytes at body.now r.1 r.0 parts.new.items) }
    ensures onward { IfOk result (λ r. from ≤ r.1) }
    ensures open { IfOk result (λ r. is_settled r.0 ≡ false) }
    ensures longer { length parts.old.items ≤ length parts.new.items }
    ensures front { (n : ℕ) → n ≤ length parts.old.items → take n parts.new.items ≡ take n parts.old.items }
{
    let mut read = from;
    while read < body.len() {
        let Some((line, size)) = data_line(MOST_BYTES as u32, &body[read..]) else {
            break;
        };
        read += line;
        let start = at + read as u32;
        parts.push(Part {
            start,
            end: start + size,
        })?;
        if !has_data(size, &body[read..]) {
            return Ok((ChunkedPlace::Data(size), read));
        }
        read += size as usize + 2;
    }
    Ok((ChunkedPlace::Start, read))
}

/// The end of the complete trailer lines from an offset on, at which the first of them begins.
fn lines_end(body: &[u8], from: usize) -> usize
    requires { from ≤ length body.now }
    ensures onward { from ≤ result }
    ensures read { (at : ℕ) (parts : List Part) → ReadTo most_bytes at body.now from TrailerStart parts → ReadTo most_bytes at body.now result TrailerStart parts }
{
    let mut end = from;
    while end < body.len() {
        let rest = &body[end..];
        let n = line_bytes(rest);
        if n == 0 || !is_crlf_at(rest, n) {
            break;
        }
        end += n + 2;
    }
    end
}

/// Reads on over a stretch; before a chunk it passes the complete chunks, and before a trailer line the complete lines. A refusal of memory
/// leaves the parts that were there.
pub(crate) fn pass(
    parts: &mut Vec<Part>,
    at: u32,
    body: &[u8],
    place: ChunkedPlace,
    read: usize,
) -> Result<(ChunkedPlace, usize), OutOfMemory>
    requires read { ReadTo most_bytes at body.now read place parts.old.items }
    requires some { read < length body.now }
    requires room { at + length body.now + most_bytes < 2 ^ 32 }
    ensures read { IfOk result (λ r. ReadTo most_bytes at body.now r.1 r.0 parts.new.items) }
    ensures onward { IfOk result (λ r. read < r.1) }
    // what settles the bytes is one byte, so that nothing was settled before it
    ensures by_one_byte { IfOk result (λ r. is_settled r.0 ≡ true → r.1 ≡ read + 1) }
    ensures longer { length parts.old.items ≤ length parts.new.items }
    ensures front { (n : ℕ) → n ≤ length parts.old.items → take n parts.new.items ≡ take n parts.old.items }
{
    let stretch = go_over(place, MOST_BYTES as u32, &body[read..]);
    let end = read + stretch.len;
    add_part(parts, part_at(stretch.ahead, at + end as u32))?;
    match stretch.next {
        ChunkedPlace::Start => pass_chunks(parts, at, body, end),
        ChunkedPlace::TrailerStart => Ok((ChunkedPlace::TrailerStart, lines_end(body, end))),
        next => Ok((next, end)),
    }
}
