//! The results of the field lines of a head.

ghost use Rattle.std.specs.Prelude.{◌≡◌, ◌≤◌, ◌||◌, ◌&&◌, ◌<◌, ◌-◌, ◌^◌, ◌==◌, min, List, [], ◌∷◌, length, map, fold, All, codes, IsTrue, ℕ, Some, IfSome, IfNone, option_copied, option_map, slice_get};
ghost use Rattle.std.specs.List.{list_all, list_any};
ghost use Rattle.std.specs.Str.Parse.{digits_value};
ghost use Rattle.httparse.specs.Spans.{IsHeaderWithin, IsWithin, header_bytes, span_bytes};
ghost use Rattle.mx_head.specs.Fields.{elements_of, elements, first_value, nonempty};
ghost use Rattle.mx_head.specs.Framing.{has_word, is_number, is_number_of};
ghost use Rattle.mx_head.specs.Steps.{seen_after, seen_after_line, coding_seen, stripped};
ghost use Rattle.mx_head.specs.Summary.{coding_of, length_of};

use crate::elements::{comma_list, first_element};
use crate::text::same_word;
use crate::types::{Coding, Length};
use httparse::spans::{HeaderSpan, Span};

/// The result of the elements of Transfer-Encoding that were read.
#[derive(Clone, Copy)]
enum Seen {
    Nothing,
    Blank,
    Chunked,
    Other,
}

impl Seen {
    fn add(self, element: &[u8]) -> Seen
        ensures { result ≡ seen_after self element.now }
    {
        match self {
            Seen::Other => Seen::Other,
            Seen::Chunked if element.is_empty() => Seen::Chunked,
            Seen::Chunked => Seen::Other,
            _ if element.is_empty() => Seen::Blank,
            _ if same_word(element, b"chunked") => Seen::Chunked,
            _ => Seen::Other,
        }
    }

    fn add_all(self, value: &[u8]) -> Seen
        ensures { result ≡ fold seen_after self (elements_of value.now) }
    {
        let mut seen = self;
        for element in comma_list(value) {
            seen = seen.add(element);
        }
        seen
    }

    fn add_line(self, name: &[u8], value: &[u8]) -> Seen
        ensures { result ≡ seen_after_line self (name.now, value.now) }
    {
        if same_word(name, b"transfer-encoding") {
            self.add_all(value)
        } else {
            self
        }
    }

    fn coding(self) -> Coding
        ensures { result ≡ coding_seen self }
    {
        match self {
            Seen::Nothing => Coding::Absent,
            Seen::Blank => Coding::Other,
            Seen::Chunked => Coding::Chunked,
            Seen::Other => Coding::Other,
        }
    }
}

/// The result of the Transfer-Encoding lines.
pub(crate) fn coding(buf: &[u8], headers: &[HeaderSpan]) -> Coding
    requires { All (IsHeaderWithin (length buf.now)) headers.now }
    ensures { result ≡ coding_of (elements (codes "transfer-encoding")
        (map (header_bytes buf.now) headers.now)) }
{
    let mut seen = Seen::Nothing;
    for header in headers {
        seen = seen.add_line(header.name.of(buf), header.value.of(buf));
    }
    seen.coding()
}

fn has_word(value: &[u8], word: &[u8]) -> bool
    ensures { result ≡ has_word word.now (elements_of value.now) }
{
    comma_list(value).any(|e| same_word(e, word))
}

/// Whether one of the elements of Connection is the word.
pub(crate) fn has_option(buf: &[u8], headers: &[HeaderSpan], word: &[u8]) -> bool
    requires { All (IsHeaderWithin (length buf.now)) headers.now }
    ensures { result ≡ has_word word.now (elements (codes "connection")
        (map (header_bytes buf.now) headers.now)) }
{
    let mut found = false;
    for header in headers {
        if same_word(header.name.of(buf), b"connection") {
            found |= has_word(header.value.of(buf), word);
        }
    }
    found
}

fn strip_zeros(mut digits: &[u8]) -> &[u8]
    ensures { result.now ≡ stripped digits.now }
{
    while let [first, rest @ ..] = digits
        && *first == b'0'
    {
        digits = rest;
    }
    digits
}

fn is_number(digits: &[u8]) -> bool
    ensures { result ≡ is_number digits.now }
{
    let mut all = true;
    for b in digits {
        all &= b.is_ascii_digit();
    }
    !digits.is_empty() && all
}

// rule head-huge-length
/// The number that the digits write, or the greatest if it is past 64 bits.
fn value_of(digits: &[u8]) -> u64
    requires { IsTrue (is_number digits.now) }
    ensures { result ≡ min (digits_value 10 digits.now) (2 ^ 64 - 1) }
{
    let mut n: u64 = 0;
    for b in digits {
        n = n
            .saturating_mul(10)
            .saturating_add(u64::from(b.saturating_sub(b'0')));
    }
    n
}

fn is_number_of(first: &[u8], digits: &[u8]) -> bool
    requires { IsTrue (is_number first.now) }
    ensures { result ≡ is_number_of (digits_value 10 first.now) digits.now }
{
    is_number(digits) && strip_zeros(first) == strip_zeros(digits)
}

// rule head-content-length
fn all_numbers_of(value: &[u8], first: &[u8]) -> bool
    requires { IsTrue (is_number first.now) }
    ensures { result ≡ list_all (is_number_of (digits_value 10 first.now)) (elements_of value.now) }
{
    let mut same = true;
    for element in comma_list(value) {
        same &= is_number_of(first, element);
    }
    same
}

/// The first element of Content-Length.
fn first_length<'a>(buf: &'a [u8], headers: &[HeaderSpan]) -> Option<&'a [u8]>
    requires { All (IsHeaderWithin (length buf.now)) headers.now }
    ensures { option_copied result ≡ slice_get (elements (codes "content-length")
        (map (header_bytes buf.now) headers.now)) 0 }
{
    for header in headers {
        if same_word(header.name.of(buf), b"content-length") {
            return Some(first_element(header.value.of(buf)));
        }
    }
    None
}

fn all_lengths_of(buf: &[u8], headers: &[HeaderSpan], first: &[u8]) -> bool
    requires within { All (IsHeaderWithin (length buf.now)) headers.now }
    requires number { IsTrue (is_number first.now) }
    ensures { result ≡ list_all (is_number_of (digits_value 10 first.now))
        (elements (codes "content-length") (map (header_bytes buf.now) headers.now)) }
{
    let mut same = true;
    for header in headers {
        if same_word(header.name.of(buf), b"content-length") {
            same &= all_numbers_of(header.value.of(buf), first);
        }
    }
    same
}

/// The result of the Content-Length lines.
pub(crate) fn length(buf: &[u8], headers: &[HeaderSpan]) -> Length
    requires { All (IsHeaderWithin (length buf.now)) headers.now }
    ensures { result ≡ length_of (elements (codes "content-length")
        (map (header_bytes buf.now) headers.now)) }
{
    match first_length(buf, headers) {
        None => Length::Absent,
        Some(first) if is_number(first) && all_lengths_of(buf, headers, first) => {
            Length::Counted(value_of(first))
        }
        Some(_) => Length::Invalid,
    }
}

/// The span, unless it is empty.
fn unless_empty(buf: &[u8], span: Span) -> Option<Span>
    requires { IsWithin (length buf.now) span }
    ensures value { option_map (span_bytes buf.now) result ≡ nonempty (Some (span_bytes buf.now span)) }
    ensures same { IfSome result (λ s. s ≡ span) }
{
    if span.of(buf).is_empty() {
        return None;
    }
    Some(span)
}

/// Where the value of the first Location line is; `None` where it is empty.
pub(crate) fn location(buf: &[u8], headers: &[HeaderSpan]) -> Option<Span>
    requires { All (IsHeaderWithin (length buf.now)) headers.now }
    ensures value { option_map (span_bytes buf.now) result
        ≡ nonempty (first_value (codes "location") (map (header_bytes buf.now) headers.now)) }
    ensures within { (len : ℕ) → All (IsHeaderWithin len) headers.now → IfSome result (IsWithin len) }
{
    for header in headers {
        if same_word(header.name.of(buf), b"location") {
            return unless_empty(buf, header.value);
        }
    }
    None
}
