//! Bytes of a chunked body that a reader passes at once: a line up to its end, or data and the CRLF after them.

ghost use Rattle.std.specs.Prelude.{◌≡◌, ◌+◌, ◌<◌, ◌≤◌, ◌∷◌, ◌++◌, ℕ, [], length, take, slice_index, true, IsTrue, None, Some, ◌⊎◌, ◌==◌, ◌^◌, option_to_list, OnOk, OnErr, if◌then◌else◌};
ghost use Rattle.std.specs.Char.{is_ascii_hexdigit};
ghost use Rattle.mx_body.specs.declared.chunked.place.ChunkedPlace.{ChunkedPlace};
ghost use Rattle.mx_body.specs.declared.chunked.place.ChunkedPlace.TheVariants.{Start, Size, Extension, Data, TrailerStart, Trailer};
ghost use Rattle.mx_body.specs.Chunked.{is_line_byte};
ghost use Rattle.mx_body.specs.ChunkedPlace.{begun, after_line};
ghost use Rattle.mx_body.specs.ChunkedStretch.{GoesOn, IsStretch, part_begun};

use crate::Part;
use crate::chunked::place::{ChunkedPlace, after_line};
use httparse::parse_hex_digit;
use memchr::memchr2;
use mx_types::OutOfMemory;

/// Some bytes that are passed at once.
#[derive(Clone, Copy)]
pub(crate) struct Stretch {
    /// The place after them.
    pub(crate) next: ChunkedPlace,
    /// How many there are.
    pub(crate) len: usize,
    /// Where they end the line of a chunk with data, how many bytes of data follow.
    pub(crate) ahead: Option<u32>,
}

/// Whether CR LF is at that offset.
pub(crate) fn is_crlf_at(input: &[u8], at: usize) -> bool
    requires { at ≤ length input.now }
    ensures within { IsTrue result → at + 2 ≤ length input.now }
    ensures there { IsTrue result → take (at + 2) input.now ≡ take at input.now ++ 13 ∷ 10 ∷ [] }
{
    input.len() - at >= 2 && input[at] == b'\r' && input[at + 1] == b'\n'
}

/// The digits at the front, after others that have the value `size`: the value of all, and how many are passed. It stops before a digit
/// with which the value is over the limit.
pub(crate) fn digits(limit: u32, size: u32, input: &[u8]) -> (u32, usize)
    ensures first { 0 < result.1 → is_ascii_hexdigit (slice_index input.now 0) ≡ true }
    ensures goes_on { GoesOn limit (Size size) (Size result.0) result.1 input.now }
{
    let mut value = size;
    let mut n = 0;
    while n < input.len() {
        let Some(digit) = parse_hex_digit(input[n]) else {
            break;
        };
        let next = u64::from(value) * 16 + digit;
        if next > u64::from(limit) {
            break;
        }
        value = next as u32;
        n += 1;
    }
    (value, n)
}

/// How many bytes other than CR and LF are at the front.
pub(crate) fn line_bytes(input: &[u8]) -> usize
    ensures within { result ≤ length input.now }
    ensures line { (k : ℕ) → k < result → is_line_byte (slice_index input.now k) ≡ true }
{
    memchr2(b'\r', b'\n', input).unwrap_or(input.len())
}

/// How many bytes of data begin at the second place, where it is reached from the first by a byte.
fn data_begun(place: ChunkedPlace, next: ChunkedPlace) -> Option<u32>
    ensures part { (at : ℕ) → part_begun result at ≡ begun place next at }
    ensures ahead { (left : ℕ) → result ≡ Some left → next ≡ Data left }
{
    match (place, next) {
        (ChunkedPlace::SizeLf(_), ChunkedPlace::Data(left)) => Some(left),
        _ => None,
    }
}

/// One byte, or the data that are there.
fn step(place: ChunkedPlace, limit: u32, input: &[u8]) -> Stretch
    requires { 0 < length input.now }
    ensures { IsStretch limit place input.now result }
{
    let (next, len) = place.advance(limit, input);
    Stretch {
        next,
        len,
        ahead: data_begun(place, next),
    }
}

/// The part whose data begin at the offset, where some are ahead.
pub(crate) fn part_at(ahead: Option<u32>, at: u32) -> Option<Part>
    requires { (left : ℕ) → ahead ≡ Some left → at + left < 2 ^ 32 }
    ensures { option_to_list result ≡ part_begun ahead at }
{
    let left = ahead?;
    Some(Part {
        start: at,
        end: at + left,
    })
}

/// Adds a part, if there is one. A refusal of memory leaves the parts as they were.
pub(crate) fn add_part(parts: &mut Vec<Part>, part: Option<Part>) -> Result<(), OutOfMemory>
    ensures added { OnOk result (parts.new.items ≡ parts.old.items ++ option_to_list part) }
    ensures refused { OnErr result (parts.new.items ≡ parts.old.items) }
{
    if let Some(part) = part {
        parts.push(part)?;
    }
    Ok(())
}

/// How many bytes of data follow the line of a chunk of that size, if any do.
fn data_of(size: u32) -> Option<u32>
    ensures { result ≡ (if size == 0 then None else Some size) }
{
    if size == 0 { None } else { Some(size) }
}

/// The stretch of `n` bytes that lead to `next`, with the CRLF after them where that ends a chunk's line of that size.
fn line_of_size(size: u32, next: ChunkedPlace, n: usize, input: &[u8]) -> Stretch
    requires some { 0 < n }
    requires within { n ≤ length input.now }
    requires next { (next ≡ Size size) ⊎ (next ≡ Extension size) }
    ensures { (limit : ℕ) (place : ChunkedPlace) → GoesOn limit place next n input.now → IsStretch limit place input.now result }
{
    if !is_crlf_at(input, n) {
        return Stretch {
            next,
            len: n,
            ahead: None,
        };
    }
    Stretch {
        next: after_line(size),
        len: n + 2,
        ahead: data_of(size),
    }
}

/// The stretch of the bytes after digits with the value `size`; `place` is theirs, or, where there are none, the start.
fn from_size(place: ChunkedPlace, limit: u32, size: u32, input: &[u8]) -> Stretch
    requires some { 0 < length input.now }
    requires place { (place ≡ Size size) ⊎ ((place ≡ Start) × (size ≡ 0)) }
    ensures { IsStretch limit place input.now result }
{
    let (value, n) = digits(limit, size, input);
    if n == 0 {
        return step(place, limit, input);
    }
    line_of_size(value, ChunkedPlace::Size(value), n, input)
}

fn from_extension(limit: u32, size: u32, input: &[u8]) -> Stretch
    requires { 0 < length input.now }
    ensures { IsStretch limit (Extension size) input.now result }
{
    let n = line_bytes(input);
    if n == 0 {
        return step(ChunkedPlace::Extension(size), limit, input);
    }
    line_of_size(size, ChunkedPlace::Extension(size), n, input)
}

/// The stretch of the bytes of a trailer line, from its beginning or from within.
fn from_trailer(place: ChunkedPlace, limit: u32, input: &[u8]) -> Stretch
    requires some { 0 < length input.now }
    requires place { (place ≡ TrailerStart) ⊎ (place ≡ Trailer) }
    ensures { IsStretch limit place input.now result }
{
    let n = line_bytes(input);
    if n == 0 {
        return step(place, limit, input);
    }
    if is_crlf_at(input, n) {
        return Stretch {
            next: ChunkedPlace::TrailerStart,
            len: n + 2,
            ahead: None,
        };
    }
    Stretch {
        next: ChunkedPlace::Trailer,
        len: n,
        ahead: None,
    }
}

/// The stretch of data of which `left` bytes are to come, with the CRLF after them where it is there.
fn from_data(limit: u32, left: u32, input: &[u8]) -> Stretch
    requires { 0 < length input.now }
    ensures { IsStretch limit (Data left) input.now result }
{
    let n = left as usize;
    if 0 < n && n <= input.len() && is_crlf_at(input, n) {
        return Stretch {
            next: ChunkedPlace::Start,
            len: n + 2,
            ahead: None,
        };
    }
    step(ChunkedPlace::Data(left), limit, input)
}

/// The bytes at the front that are passed at once from a place.
pub(crate) fn go_over(place: ChunkedPlace, limit: u32, input: &[u8]) -> Stretch
    requires { 0 < length input.now }
    ensures { IsStretch limit place input.now result }
{
    match place {
        ChunkedPlace::Start => from_size(place, limit, 0, input),
        ChunkedPlace::Size(size) => from_size(place, limit, size, input),
        ChunkedPlace::Extension(size) => from_extension(limit, size, input),
        ChunkedPlace::TrailerStart | ChunkedPlace::Trailer => from_trailer(place, limit, input),
        ChunkedPlace::Data(left) => from_data(limit, left, input),
        _ => step(place, limit, input),
    }
}
