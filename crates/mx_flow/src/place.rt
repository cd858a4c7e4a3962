//! A reader of a chunked body that takes a byte at a time, with sizes of 64 bits. It keeps no bytes.

ghost use Rattle.std.specs.Prelude.{◌≡◌, ◌+◌, ◌-◌, ◌*◌, ◌<◌, ◌≤◌, ◌==◌, if◌then◌else◌};
ghost use Rattle.mx_body.specs.declared.chunked.place.ChunkedPlace.TheVariants.{Data, DataCr};
ghost use Rattle.mx_body.specs.ChunkedPlace.{sized, after_digits, in_line, expect, after_line, next_place, is_settled, data_left};
ghost use Rattle.mx_flow.specs.Steps.{place_of};

use httparse::parse_hex_digit;

/// A reader's place after some bytes of a chunked body, as `ChunkedPlace` has it for sizes of 32 bits.
#[derive(Clone, Copy)]
pub(crate) enum WidePlace {
    Start,
    Size(u64),
    Extension(u64),
    SizeLf(u64),
    Data(u64),
    DataCr,
    DataLf,
    TrailerStart,
    Trailer,
    TrailerLf,
    EndLf,
    Done,
    Bad,
    TooLarge,
}

// rule body-stream-too-large
fn sized(limit: u64, size: u128) -> WidePlace
    ensures { place_of result ≡ sized limit size }
{
    if size <= u128::from(limit) {
        WidePlace::Size(size as u64)
    } else {
        WidePlace::TooLarge
    }
}

fn size_with(size: u64, digit: u64) -> u128
    requires { digit < 16 }
    ensures { result ≡ size * 16 + digit }
{
    u128::from(size) * 16 + u128::from(digit)
}

fn after_digits(size: u64, b: u8) -> WidePlace
    ensures { place_of result ≡ after_digits size b }
{
    match b {
        b' ' | b'\t' | b';' => WidePlace::Extension(size),
        b'\r' => WidePlace::SizeLf(size),
        _ => WidePlace::Bad,
    }
}

fn in_line(b: u8, on: WidePlace, ends: WidePlace) -> WidePlace
    ensures { place_of result ≡ in_line b (place_of on) (place_of ends) }
{
    match b {
        b'\r' => ends,
        b'\n' => WidePlace::Bad,
        _ => on,
    }
}

fn expect(b: u8, wanted: u8, next: WidePlace) -> WidePlace
    ensures { place_of result ≡ expect b wanted (place_of next) }
{
    if b == wanted { next } else { WidePlace::Bad }
}

fn after_line(size: u64) -> WidePlace
    ensures { place_of result ≡ after_line size }
{
    if size == 0 {
        WidePlace::TrailerStart
    } else {
        WidePlace::Data(size)
    }
}

impl WidePlace {
    /// The place after one more byte, where no size may be over the limit.
    pub(crate) fn step(self, limit: u64, b: u8) -> WidePlace
        ensures { place_of result ≡ next_place limit (place_of self) b }
    {
        match self {
            WidePlace::Start => match parse_hex_digit(b) {
                Some(digit) => sized(limit, u128::from(digit)),
                None => WidePlace::Bad,
            },
            WidePlace::Size(size) => match parse_hex_digit(b) {
                Some(digit) => sized(limit, size_with(size, digit)),
                None => after_digits(size, b),
            },
            WidePlace::Extension(size) => in_line(
                b,
                WidePlace::Extension(size),
                WidePlace::SizeLf(size),
            ),
            WidePlace::SizeLf(size) => expect(b, b'\n', after_line(size)),
            WidePlace::Data(left) => if left <= 1 {
                WidePlace::DataCr
            } else {
                WidePlace::Data(left - 1)
            },
            WidePlace::DataCr => expect(b, b'\r', WidePlace::DataLf),
            WidePlace::DataLf => expect(b, b'\n', WidePlace::Start),
            WidePlace::TrailerStart => in_line(b, WidePlace::Trailer, WidePlace::EndLf),
            WidePlace::Trailer => in_line(b, WidePlace::Trailer, WidePlace::TrailerLf),
            WidePlace::TrailerLf => expect(b, b'\n', WidePlace::TrailerStart),
            WidePlace::EndLf => expect(b, b'\n', WidePlace::Done),
            WidePlace::Done | WidePlace::Bad => WidePlace::Bad,
            WidePlace::TooLarge => WidePlace::TooLarge,
        }
    }

    /// How many bytes of a chunk's data are still to come.
    pub(crate) fn data_left(self) -> u64
        ensures { result ≡ data_left (place_of self) }
    {
        match self {
            WidePlace::Data(left) => left,
            _ => 0,
        }
    }

    /// Whether the bytes so far settle what they are.
    pub(crate) fn is_settled(self) -> bool
        ensures { result ≡ is_settled (place_of self) }
    {
        match self {
            WidePlace::Done | WidePlace::Bad | WidePlace::TooLarge => true,
            _ => false,
        }
    }
}

/// The place after n bytes of data, of which that many were still to come.
pub(crate) fn behind(left: u64, n: u64) -> WidePlace
    requires { n ≤ left }
    ensures { place_of result ≡ if n == left then DataCr else Data (left - n) }
{
    if n == left {
        WidePlace::DataCr
    } else {
        WidePlace::Data(left - n)
    }
}
