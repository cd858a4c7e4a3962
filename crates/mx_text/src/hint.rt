//! Hints for common first mistakes.
ghost use Rattle.std.specs.Prelude.{◌≡◌, ◌↔◌, IsTrue, Some};
ghost use Rattle.mx_text.specs.Hints.{is_url_code, BeginsInAnyCase, IsUrlHint, hint_words, body_hint, file_limit_hint};

use mx_reason::{Defect, Fault, Reason};
use mx_types::Code;

/// A hint for a common first mistake.
#[derive(Clone, Copy)]
pub enum Hint {
    /// A URL begins with `http://`.
    NoScheme,
    /// There is no TLS.
    Https,
    /// A response was changed when it was saved.
    NotRaw,
    /// Too many files were open for a connection.
    FileLimit,
}

impl Hint {
    /// The words.
    pub fn as_str(self) -> &'static str
        ensures { result.now ≡ hint_words self }
    {
        match self {
            Hint::NoScheme => "a URL begins with http://",
            Hint::Https => "there is no TLS here, so https can't be fetched",
            Hint::NotRaw => {
                "a response is read as it came: curl saves it with -si --raw --http1.1"
            }
            Hint::FileLimit => {
                "too many files were open for a connection: ulimit -n allows more, --at-once fewer transfers"
            }
        }
    }
}

/// Whether a code may say that a URL was refused.
fn is_url_code(code: Code) -> bool
    ensures { result ≡ is_url_code code }
{
    matches!(code, Code::UnsupportedProtocol | Code::UrlMalformat)
}

/// Whether the URL begins with that, in letters of any case.
fn begins_with(url: &[u8], front: &[u8]) -> bool
    ensures { IsTrue result ↔ BeginsInAnyCase front.now url.now }
{
    front.len() <= url.len() && url[..front.len()].eq_ignore_ascii_case(front)
}

// rule program-url-hint
/// The hint for a URL that failed with that code, if any.
pub fn url_hint(url: &[u8], code: Code) -> Option<Hint>
    ensures { IsUrlHint url.now code result }
{
    if !is_url_code(code) {
        return None;
    }
    if begins_with(url, b"https:") {
        return Some(Hint::Https);
    }
    if begins_with(url, b"http:") {
        return None;
    }
    Some(Hint::NoScheme)
}

// rule program-file-limit-hint
/// The hint for a run, if any: where it `met` the limit of open files.
pub fn file_limit_hint(met: bool) -> Option<Hint>
    ensures { result ≡ file_limit_hint met }
{
    if met { Some(Hint::FileLimit) } else { None }
}

/// The hint for a response that isn't whole for that reason, if any: where its first line isn't a status line, or a chunk's size isn't one,
/// it may have been changed when it was saved.
pub fn body_hint(reason: Option<Reason>) -> Option<Hint>
    ensures { result ≡ body_hint reason }
{
    match reason {
        Some(
            Reason {
                what: Defect::Fault(Fault::StatusLine),
                ..
            },
        ) => Some(Hint::NotRaw),
        Some(
            Reason {
                what: Defect::Fault(Fault::SizeLine),
                ..
            },
        ) => Some(Hint::NotRaw),
        _ => None,
    }
}
