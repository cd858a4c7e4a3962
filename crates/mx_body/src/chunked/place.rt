//! A reader of a chunked body that takes a byte at a time, or a run of data at once. It keeps no bytes.

ghost use Rattle.std.specs.Prelude.{◌≡◌, ℕ, ◌+◌, ◌*◌, ◌<◌, ◌≤◌, length, take, true};
ghost use Rattle.mx_body.specs.ChunkedPlace.{sized, after_digits, in_line, expect, after_line, next_place, place_after, is_settled, begun, parts_begun};

use httparse::parse_hex_digit;

/// A reader's place after some bytes of a chunked body.
#[derive(Clone, Copy)]
pub enum ChunkedPlace {
    /// Before the first digit of a size.
    Start,
    /// After some digits of a size, with the value so far.
    Size(u32),
    /// Between a size and its CRLF.
    Extension(u32),
    /// After the CR of a size line.
    SizeLf(u32),
    /// In a chunk's data, of which so many bytes are still to come: one at least.
    Data(u32),
    /// Before the CR after a chunk's data.
    DataCr,
    /// Before the LF after a chunk's data.
    DataLf,
    /// At the beginning of a trailer line, or of the CRLF that ends the body.
    TrailerStart,
    /// In a trailer line.
    Trailer,
    /// After the CR of a trailer line.
    TrailerLf,
    /// After the last CR of the body.
    EndLf,
    /// Right after the body.
    Done,
    /// The bytes begin no chunked body.
    Bad,
    /// A size is over the limit.
    TooLarge,
}

// rule body-chunk-size
fn sized(limit: u32, size: u64) -> ChunkedPlace
    ensures { result ≡ sized limit size }
{
    if size <= u64::from(limit) {
        ChunkedPlace::Size(size as u32)
    } else {
        ChunkedPlace::TooLarge
    }
}

fn size_with(size: u32, digit: u64) -> u64
    requires { digit < 16 }
    ensures { result ≡ size * 16 + digit }
{
    u64::from(size) * 16 + digit
}

fn after_digits(size: u32, b: u8) -> ChunkedPlace
    ensures { result ≡ after_digits size b }
{
    match b {
        b' ' | b'\t' | b';' => ChunkedPlace::Extension(size),
        b'\r' => ChunkedPlace::SizeLf(size),
        _ => ChunkedPlace::Bad,
    }
}

fn in_line(b: u8, on: ChunkedPlace, ends: ChunkedPlace) -> ChunkedPlace
    ensures { result ≡ in_line b on ends }
{
    match b {
        b'\r' => ends,
        b'\n' => ChunkedPlace::Bad,
        _ => on,
    }
}

fn expect(b: u8, wanted: u8, next: ChunkedPlace) -> ChunkedPlace
    ensures { result ≡ expect b wanted next }
{
    if b == wanted { next } else { ChunkedPlace::Bad }
}

pub(crate) fn after_line(size: u32) -> ChunkedPlace
    ensures { result ≡ after_line size }
{
    if size == 0 {
        ChunkedPlace::TrailerStart
    } else {
        ChunkedPlace::Data(size)
    }
}

impl ChunkedPlace {
    // rule body-chunk-framing
    /// The place after one more byte, where no size may be over the limit.
    pub fn step(self, limit: u32, b: u8) -> ChunkedPlace
        ensures { result ≡ next_place limit self b }
    {
        match self {
            ChunkedPlace::Start => match parse_hex_digit(b) {
                Some(digit) => sized(limit, digit),
                None => ChunkedPlace::Bad,
            },
            ChunkedPlace::Size(size) => match parse_hex_digit(b) {
                Some(digit) => sized(limit, size_with(size, digit)),
                None => after_digits(size, b),
            },
            ChunkedPlace::Extension(size) => in_line(
                b,
                ChunkedPlace::Extension(size),
                ChunkedPlace::SizeLf(size),
            ),
            ChunkedPlace::SizeLf(size) => expect(b, b'\n', after_line(size)),
            ChunkedPlace::Data(left) => if left <= 1 {
                ChunkedPlace::DataCr
            } else {
                ChunkedPlace::Data(left - 1)
            },
            ChunkedPlace::DataCr => expect(b, b'\r', ChunkedPlace::DataLf),
            ChunkedPlace::DataLf => expect(b, b'\n', ChunkedPlace::Start),
            ChunkedPlace::TrailerStart => in_line(b, ChunkedPlace::Trailer, ChunkedPlace::EndLf),
            ChunkedPlace::Trailer => in_line(b, ChunkedPlace::Trailer, ChunkedPlace::TrailerLf),
            ChunkedPlace::TrailerLf => expect(b, b'\n', ChunkedPlace::TrailerStart),
            ChunkedPlace::EndLf => expect(b, b'\n', ChunkedPlace::Done),
            ChunkedPlace::Done | ChunkedPlace::Bad => ChunkedPlace::Bad,
            ChunkedPlace::TooLarge => ChunkedPlace::TooLarge,
        }
    }

    /// The place after the next byte, or, within data, after the data that is there; and how many bytes that is.
    pub fn advance(self, limit: u32, input: &[u8]) -> (ChunkedPlace, usize)
        requires { 0 < length input.now }
        ensures moved { 0 < result.1 }
        ensures within { result.1 ≤ length input.now }
        ensures place { result.0 ≡ place_after limit self (take result.1 input.now) }
        // a part can begin only with the last of these bytes
        ensures part { (at : ℕ) → parts_begun limit self at (take result.1 input.now)
            ≡ begun self result.0 (at + result.1) }
        // what settles the bytes is one byte, so that nothing was settled before it
        ensures by_one_byte { is_settled result.0 ≡ true → result.1 ≡ 1 }
    {
        match self {
            ChunkedPlace::Data(left) if left > 0 => {
                let there = input.len() as u64;
                if u64::from(left) <= there {
                    (ChunkedPlace::DataCr, left as usize)
                } else {
                    (ChunkedPlace::Data(left - there as u32), input.len())
                }
            }
            _ => (self.step(limit, input[0]), 1),
        }
    }
}
