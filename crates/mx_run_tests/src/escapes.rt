//! Bytes as rows of text write them. `\r`, `\n`, `\t`, `\s` (a space) and `\\` are bytes, and `\x41` is one by its number; `\{3}` repeats
//! the byte before it three times in all; after a backslash at the end of a line there is no LF.
use std::alloc::{AllocError, Global};

/// What was read of an escape.
#[derive(Clone, Copy)]
enum Escape {
    Nothing,
    /// Its backslash.
    Open,
    /// `\x`, and perhaps the value of its first digit.
    Number(Option<u8>),
    /// `\{`, and the count so far.
    Count(usize),
}

fn digit(byte: u8) -> u8 {
    match byte {
        b'0'..=b'9' => byte - b'0',
        b'a'..=b'f' => byte - b'a' + 10,
        _ => 0,
    }
}

/// Adds a byte, after which no escape is open.
fn add(bytes: &mut Vec<u8>, byte: u8) -> Result<Escape, AllocError> {
    bytes.push(byte)?;
    Ok(Escape::Nothing)
}

/// Repeats the last byte so many times.
fn repeat(bytes: &mut Vec<u8>, count: usize) -> Result<Escape, AllocError> {
    if let Some(last) = bytes.last().copied() {
        for _ in 1..count {
            bytes.push(last)?;
        }
    }
    Ok(Escape::Nothing)
}

/// Goes on after a backslash.
fn open(bytes: &mut Vec<u8>, byte: u8) -> Result<Escape, AllocError> {
    match byte {
        b'r' => add(bytes, b'\r'),
        b'n' => add(bytes, b'\n'),
        b't' => add(bytes, b'\t'),
        b's' => add(bytes, b' '),
        b'x' => Ok(Escape::Number(None)),
        b'{' => Ok(Escape::Count(0)),
        _ => add(bytes, byte),
    }
}

fn step(bytes: &mut Vec<u8>, escape: Escape, byte: u8) -> Result<Escape, AllocError> {
    match escape {
        Escape::Nothing if byte == b'\\' => Ok(Escape::Open),
        Escape::Nothing => add(bytes, byte),
        Escape::Open => open(bytes, byte),
        Escape::Number(None) => Ok(Escape::Number(Some(digit(byte)))),
        Escape::Number(Some(high)) => add(bytes, high.wrapping_mul(16) | digit(byte)),
        Escape::Count(count) if byte == b'}' => repeat(bytes, count),
        Escape::Count(count) => Ok(Escape::Count(
            count
                .saturating_mul(10)
                .saturating_add(usize::from(digit(byte))),
        )),
    }
}

/// Adds the bytes that a text stands for, and says whether it ends with a backslash.
pub(crate) fn add_unescaped(bytes: &mut Vec<u8>, text: &str) -> Result<bool, AllocError> {
    let mut escape = Escape::Nothing;
    for byte in text.as_bytes() {
        escape = step(bytes, escape, *byte)?;
    }
    Ok(matches!(escape, Escape::Open))
}

/// The escape of a byte that has one of its own.
fn escape_of(byte: u8) -> Option<&'static str> {
    if byte == b'\\' {
        Some("\\\\")
    } else if byte == b'\r' {
        Some("\\r")
    } else if byte == b'\t' {
        Some("\\t")
    } else {
        None
    }
}

/// Adds a byte by its number.
fn add_number(alloc: Global, text: &mut String, byte: u8) -> Result<(), AllocError> {
    let escape = format!(in alloc; "\\x{byte:02x}")?;
    let added = text.push_str(escape.as_str());
    drop(escape);
    added
}

/// What is seen, in lines as rows have them.
#[derive(Drop)]
pub(crate) struct SeenText {
    alloc: Global,
    pub(crate) text: String,
    /// The last byte, and how often it came, which isn't in the text yet.
    last: Option<u8>,
    count: usize,
    /// Whether a line is begun.
    is_open: bool,
}

/// A byte that comes more often is written once, with its count.
const MOST_WRITTEN: usize = 16;

impl SeenText {
    pub(crate) fn new(alloc: Global) -> SeenText {
        SeenText {
            alloc,
            text: String::new(alloc),
            last: None,
            count: 0,
            is_open: false,
        }
    }

    fn write_byte(&mut self, byte: u8) -> Result<(), AllocError> {
        if let Some(escape) = escape_of(byte) {
            return self.text.push_str(escape);
        }
        if b' ' <= byte && byte <= b'~' {
            return self.text.push(char::from(byte));
        }
        add_number(self.alloc, &mut self.text, byte)
    }

    fn write_run(&mut self, byte: u8) -> Result<(), AllocError> {
        if self.count > MOST_WRITTEN {
            self.write_byte(byte)?;
            let count = self.count;
            return self
                .text
                .push_str(format!(in self.alloc; "\\{{{count}}}")?.as_str());
        }
        for _ in 0..self.count {
            self.write_byte(byte)?;
        }
        Ok(())
    }

    /// Writes the last byte, where it isn't in the text yet.
    fn settle(&mut self, mark: char) -> Result<(), AllocError> {
        let Some(byte) = self.last else {
            return Ok(());
        };
        if !self.is_open {
            self.text.push(mark)?;
            if byte != b'\n' {
                self.text.push(' ')?;
            }
        }
        self.is_open = byte != b'\n';
        if byte == b'\n' {
            self.text.push('\n')?;
        } else {
            self.write_run(byte)?;
        }
        self.last = None;
        Ok(())
    }

    fn see_byte(&mut self, mark: char, byte: u8) -> Result<(), AllocError> {
        if self.last == Some(byte) && byte != b'\n' {
            self.count = self.count.saturating_add(1);
            return Ok(());
        }
        self.settle(mark)?;
        self.last = Some(byte);
        self.count = 1;
        Ok(())
    }

    /// Adds bytes, in lines that begin with the mark.
    pub(crate) fn see(&mut self, mark: char, bytes: &[u8]) -> Result<(), AllocError> {
        for byte in bytes {
            self.see_byte(mark, *byte)?;
        }
        self.settle(mark)?;
        if self.is_open {
            self.is_open = false;
            self.text.push_str("\\\n")?;
        }
        Ok(())
    }

    /// Adds an exit status.
    pub(crate) fn end(&mut self, status: u8) -> Result<(), AllocError> {
        self.text
            .push_str(format!(in self.alloc; "= {status}\n")?.as_str())
    }
}
