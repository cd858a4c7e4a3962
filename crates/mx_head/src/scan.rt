//! A scan of the bytes of a head as they come, each byte once. It finds no field: it says whether the bytes so far are a proper prefix of a
//! head, so that a head is parsed only once there may be an answer.

ghost use Rattle.std.specs.Prelude.{◌≡◌, ℕ, ◌≤◌, ◌==◌, List, length, take, fold, true};
ghost use Rattle.httparse.specs.Grammar.{AllPass, is_token_byte, is_value_byte};
ghost use Rattle.mx_head.specs.Scan as spec;
ghost use Rattle.mx_head.specs.Scan.{HasScanned, is_open};

use crate::limits::MOST_FIELDS;
use httparse::{is_header_name_token, is_header_value, is_header_value_token};
use memchr::memchr2;

/// The place in the grammar of a head after the bytes so far.
#[derive(Clone, Copy)]
pub(crate) enum Spot {
    /// At the beginning of a line, before the status line.
    Blank,
    /// After the CR of an empty line, before the status line.
    BlankReturn,
    /// In the status line, after so many bytes of its version and its code.
    Opening(u8),
    /// Right after the status code.
    Code,
    /// In a reason phrase or in a field's value.
    Text,
    /// After the CR of a line with some text.
    Return,
    /// At the beginning of a line, after the status line.
    Line,
    /// In a field's name.
    Name,
    /// After the CR of the empty line.
    LastReturn,
    /// No proper prefix of a head.
    Settled,
}

/// A spot, and how many field lines have begun before it.
#[derive(Clone, Copy)]
pub(crate) struct Reached {
    pub(crate) spot: Spot,
    pub(crate) fields: usize,
}

/// How far the bytes of a head have been scanned.
#[derive(Clone, Copy)]
pub struct HeadScan {
    pub(crate) read: usize,
    pub(crate) reached: Reached,
}

/// Whether the byte may be there in the version and the code of a status line: `HTTP/1.1 200`.
fn fits_opening(at: u8, b: u8) -> bool
    ensures { result ≡ spec.fits_opening at b }
{
    if at < 7 {
        return b == b"HTTP/1."[at as usize];
    }
    if at == 7 {
        return b == b'0' || b == b'1';
    }
    if at == 8 {
        return b == b' ';
    }
    b.is_ascii_digit()
}

/// After that many bytes of the version and the code, and one more.
fn in_opening(at: u8, b: u8) -> Spot
    ensures { result ≡ spec.in_opening at b }
{
    if !fits_opening(at, b) {
        return Spot::Settled;
    }
    if at < 11 {
        Spot::Opening(at + 1)
    } else {
        Spot::Code
    }
}

/// After a byte that is no text: a line end, or nothing of a head.
fn line_end(b: u8) -> Spot
    ensures { result ≡ spec.line_end b }
{
    match b {
        b'\r' => Spot::Return,
        b'\n' => Spot::Line,
        _ => Spot::Settled,
    }
}

/// How many bytes at the front may be in a field's name.
fn name_run(text: &[u8]) -> usize
    ensures within { result ≤ length text.now }
    ensures name { AllPass is_token_byte (take result text.now) }
{
    let mut n = 0;
    while n < text.len() && is_header_name_token(text[n]) {
        n += 1;
    }
    n
}

/// How many bytes at the front may be in a value, a byte at a time.
fn value_run(text: &[u8]) -> usize
    ensures within { result ≤ length text.now }
    ensures value { AllPass is_value_byte (take result text.now) }
{
    let mut n = 0;
    while n < text.len() && is_header_value_token(text[n]) {
        n += 1;
    }
    n
}

/// A text of fewer bytes is read a byte at a time: looking for the end of its line first costs more than it saves.
const SHORT: usize = 16;

/// How many bytes at the front may be in a value, sixteen at a time where all up to the end of the line may.
fn value_line(text: &[u8]) -> usize
    ensures within { result ≤ length text.now }
    ensures value { AllPass is_value_byte (take result text.now) }
{
    if text.len() < SHORT {
        return value_run(text);
    }
    let line = memchr2(b'\r', b'\n', text).unwrap_or(text.len());
    if is_header_value(&text[..line]) {
        line
    } else {
        value_run(text)
    }
}

impl Spot {
    /// How many bytes at the front leave the place as it is.
    fn run(self, text: &[u8]) -> usize
        ensures within { result ≤ length text.now }
        ensures stays { (n : ℕ) → fold spec.after (spec.reached self n) (take result text.now) ≡ spec.reached self n }
    {
        match self {
            Spot::Text => value_line(text),
            Spot::Name => name_run(text),
            _ => 0,
        }
    }

    fn is_line(self) -> bool
        ensures { result ≡ spec.is_line self }
    {
        match self {
            Spot::Line => true,
            _ => false,
        }
    }

    fn is_settled(self) -> bool
        ensures { result ≡ spec.is_settled self }
    {
        match self {
            Spot::Settled => true,
            _ => false,
        }
    }

    /// The spot after one more byte, where that begins no field line.
    fn step(self, b: u8) -> Spot
        ensures { result ≡ spec.step self b }
    {
        match self {
            Spot::Blank => match b {
                b'\r' => Spot::BlankReturn,
                b'\n' => Spot::Blank,
                _ => in_opening(0, b),
            },
            Spot::BlankReturn => if b == b'\n' {
                Spot::Blank
            } else {
                Spot::Settled
            },
            Spot::Opening(at) => in_opening(at, b),
            Spot::Code => if b == b' ' { Spot::Text } else { line_end(b) },
            Spot::Text => if is_header_value_token(b) {
                Spot::Text
            } else {
                line_end(b)
            },
            Spot::Return => if b == b'\n' {
                Spot::Line
            } else {
                Spot::Settled
            },
            Spot::Line => if b == b'\r' {
                Spot::LastReturn
            } else {
                Spot::Settled
            },
            Spot::Name => if is_header_name_token(b) {
                Spot::Name
            } else if b == b':' {
                Spot::Text
            } else {
                Spot::Settled
            },
            Spot::LastReturn => Spot::Settled,
            Spot::Settled => Spot::Settled,
        }
    }
}

impl Reached {
    /// What is reached after one more byte.
    fn after(self, b: u8) -> Reached
        ensures { result ≡ spec.after self b }
    {
        if self.spot.is_line() && self.fields < MOST_FIELDS && is_header_name_token(b) {
            return Reached {
                spot: Spot::Name,
                fields: self.fields + 1,
            };
        }
        Reached {
            spot: self.spot.step(b),
            fields: self.fields,
        }
    }
}

impl HeadScan {
    /// Before the first byte of a head.
    pub fn new() -> HeadScan
        ensures { (text : List ℕ) → HasScanned text result }
    {
        HeadScan {
            read: 0,
            reached: Reached {
                spot: Spot::Blank,
                fields: 0,
            },
        }
    }

    /// Reads the bytes that it has not seen, up to one that settles them.
    pub(crate) fn read_on(&mut self, text: &[u8])
        requires { HasScanned text.now self.old }
        ensures scanned { HasScanned text.now self.new }
        ensures all { is_open self.new ≡ true → self.new.read ≡ length text.now }
    {
        let mut reached = self.reached;
        let mut read = self.read;
        while read < text.len() {
            let run = reached.spot.run(&text[read..]);
            if run > 0 {
                read += run;
                continue;
            }
            reached = reached.after(text[read]);
            read += 1;
            if reached.spot.is_settled() {
                break;
            }
        }
        self.reached = reached;
        self.read = read;
    }

    /// Whether it has seen no byte.
    pub(crate) fn is_new(&self) -> bool
        ensures { result ≡ (self.now.read == 0) }
    {
        self.read == 0
    }

    /// Whether the bytes that it has seen are a proper prefix of a head.
    pub(crate) fn is_open(&self) -> bool
        ensures { result ≡ is_open self.now }
    {
        !self.reached.spot.is_settled()
    }
}
