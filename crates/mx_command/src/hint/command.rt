//! The command that was meant.
ghost use Rattle.std.specs.Prelude.{◌≡◌, ◌≤◌, IfOk, IfSome};
ghost use Rattle.mx_command.specs.Hints.{distance, is_url};

use std::alloc::{AllocError, Global};
use strsim::{jaro, levenshtein};

static COMMANDS: [&str; 5] = ["get", "save", "body", "play", "help"];

/// How long a word may be that is compared with the commands.
const LONGEST: usize = 16;

// The first command that is at most so many edits away from the word.
fn within(alloc: Global, word: &str, most: usize) -> Result<Option<&'static str>, AllocError>
    ensures { IfOk result (λ o. IfSome o (λ name. distance word.now name.now ≤ most)) }
{
    for name in &COMMANDS {
        if levenshtein(alloc, word, *name)? <= most {
            return Ok(Some(*name));
        }
    }
    Ok(None)
}

// Whether clap has named a command itself: it does so from this similarity on.
fn is_named(alloc: Global, word: &str) -> Result<bool, AllocError> {
    for name in &COMMANDS {
        if jaro(alloc, word, *name)? > 0.7 {
            return Ok(true);
        }
    }
    Ok(false)
}

/// The command that is nearest to a word, at most two edits away, if clap hasn't named one.
pub(crate) fn nearest(alloc: Global, word: &str) -> Result<Option<&'static str>, AllocError>
    ensures { IfOk result (λ o. IfSome o (λ name. distance word.now name.now ≤ 2)) }
{
    if word.len() > LONGEST || is_named(alloc, word)? {
        return Ok(None);
    }
    match within(alloc, word, 1)? {
        Some(name) => Ok(Some(name)),
        None => within(alloc, word, 2),
    }
}

/// Whether the word may be a URL.
pub(crate) fn is_url(word: &str) -> bool
    ensures { result ≡ is_url word.now }
{
    let bytes = word.as_bytes();
    bytes.contains(&b':') || bytes.contains(&b'/') || bytes.contains(&b'.')
}
