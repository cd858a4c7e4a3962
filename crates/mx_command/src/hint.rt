//! A hint after clap's words.
ghost use Rattle.std.specs.Prelude.{IfOk, IfSome, map, string_bytes};
ghost use Rattle.mx_command.specs.Said.{IsSaid, IsSaidToWord, IsSaidToValue, IsCommandWord};

pub(crate) mod command;
pub(crate) mod number;

use crate::hint::command::{is_url, nearest};
use crate::hint::number::{NumberRow, refused_at};
use clap::error::ErrorKind;
use std::alloc::{AllocError, Global};
use std::fmt;

/// A hint after clap's words.
#[derive(Clone, Copy)]
pub enum UsageHint {
    /// The command that is nearest to a word that is no command.
    Nearest(&'static str),
    /// A URL is in the place of a command.
    Url,
    /// What an option takes, where its value is another.
    Wanted(&'static NumberRow),
}

impl fmt::Display for UsageHint {
    fn fmt<W: fmt::Write>(&self, f: &mut fmt::Formatter<W>) -> fmt::Result {
        match self {
            UsageHint::Nearest(name) => write!(f, "the nearest command is `{name}`"),
            UsageHint::Url => f.write_str("a URL is fetched by `mxfetch get URL`"),
            UsageHint::Wanted(row) => {
                let name = row.name;
                let wanted = row.wanted;
                write!(f, "{name} takes {wanted}")
            }
        }
    }
}

// The word in the place of a command: the first one after the program's name, or after `help`.
fn command_word(words: &[String]) -> Option<&str>
    ensures { IfSome result (λ word. IsCommandWord (map string_bytes words.now) word.now) }
{
    let word = words.get(1)?.as_str();
    if word == "help" {
        return Some(words.get(2)?.as_str());
    }
    Some(word)
}

// The hint for a word that is no command.
fn of_word(alloc: Global, word: &str) -> Result<Option<UsageHint>, AllocError>
    ensures { IfOk result (λ o. IfSome o (IsSaidToWord word.now)) }
{
    if is_url(word) {
        return Ok(Some(UsageHint::Url));
    }
    Ok(match nearest(alloc, word)? {
        Some(name) => Some(UsageHint::Nearest(name)),
        None => None,
    })
}

// The hint for the first option whose value it doesn't take.
fn of_value(words: &[String]) -> Option<UsageHint>
    ensures { IfSome result (IsSaidToValue (map string_bytes words.now)) }
{
    for at in 0..words.len() {
        if let Some(row) = refused_at(words, at) {
            return Some(UsageHint::Wanted(row));
        }
    }
    None
}

/// What is said to these words, which are a command line that is refused as that kind of error, if anything is. No clause says that
/// anything is, or that the command that is named is the nearest.
pub fn hint_of(
    alloc: Global,
    words: &[String],
    kind: ErrorKind,
) -> Result<Option<UsageHint>, AllocError>
    ensures { IfOk result (λ o. IfSome o (IsSaid kind (map string_bytes words.now))) }
{
    match kind {
        ErrorKind::InvalidSubcommand => match command_word(words) {
            Some(word) => of_word(alloc, word),
            None => Ok(None),
        },
        ErrorKind::ValueValidation => Ok(of_value(words)),
        _ => Ok(None),
    }
}
