//! What a line of a list says.
ghost use Rattle.std.specs.Prelude.{◌≡◌, ◌+◌, nat_lt, length, take, option_map, IfOk};
ghost use Rattle.mx_save_rules.specs.Entries.{told_if, told, url_or_not, trimmed, without_mark, is_comment, is_blank, entry_by, entry_of_front};

use std::alloc::{AllocError, Global};
use std::str;

// rule list-bad-lines
/// The most bytes that a line may have before its LF: as many as a URL may.
pub const MOST_LINE: usize = 65_536;

/// What a line of a list says, without the ASCII white space at its ends.
#[derive(Drop)]
pub enum Entry {
    /// A text, which may be a URL or not.
    Url(String),
    /// Bytes that aren't UTF-8, so they are no URL.
    NotText(Vec<u8>),
    // It is an entry, so that no URL is left out silently.
    /// The front of a line of more than [`MOST_LINE`] bytes: its first `MOST_LINE + 1` bytes.
    TooLong(Vec<u8>),
}

/// A byte order mark in UTF-8.
const MARK: [u8; 3] = [0xef, 0xbb, 0xbf];

/// The line without a byte order mark at its beginning.
fn without_mark(line: &[u8]) -> &[u8]
    ensures { result.now ≡ without_mark line.now }
{
    match line.strip_prefix(&MARK) {
        Some(rest) => rest,
        None => line,
    }
}

fn trimmed(text: &[u8]) -> &[u8]
    ensures { result.now ≡ trimmed text.now }
{
    text.trim_ascii()
}

// rule list-entries
fn is_comment(text: &[u8]) -> bool
    ensures { result ≡ is_comment text.now }
{
    matches!(text, [b'#', ..])
}

fn url_or_not(alloc: Global, text: &[u8]) -> Result<Entry, AllocError>
    ensures { IfOk result (λ entry. told entry ≡ url_or_not text.now) }
{
    match str::from_utf8(text) {
        Ok(url) => Ok(Entry::Url(String::from_str(alloc, url)?)),
        Err(_) => Ok(Entry::NotText(Vec::from_slice(alloc, text)?)),
    }
}

// rule list-bad-lines
fn entry_by(alloc: Global, is_long: bool, text: &[u8]) -> Result<Option<Entry>, AllocError>
    ensures { IfOk result (λ entry. told_if entry ≡ entry_by is_long text.now) }
{
    if is_comment(text) {
        return Ok(None);
    }
    if is_long {
        return Ok(Some(Entry::TooLong(Vec::from_slice(alloc, text)?)));
    }
    if text.is_empty() {
        return Ok(None);
    }
    Ok(Some(url_or_not(alloc, text)?))
}

/// What a line says, of which the first bytes are given: `MOST_LINE + 1`, or all if it is shorter.
pub(crate) fn entry_of_front(
    alloc: Global,
    is_first: bool,
    front: &[u8],
) -> Result<Option<Entry>, AllocError>
    ensures { IfOk result (λ entry. told_if entry ≡ entry_of_front is_first front.now) }
{
    let text = if is_first { without_mark(front) } else { front };
    entry_by(alloc, front.len() > MOST_LINE, trimmed(text))
}
