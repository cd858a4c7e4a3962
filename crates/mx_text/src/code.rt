//! The words of a code.
ghost use Rattle.std.specs.Prelude.{◌≡◌};
ghost use Rattle.mx_text.specs.Words.{code_words, cut_words};

use mx_types::{Code, OUT_OF_MEMORY};

/// The words of a code where no bytes are known to be refused.
pub fn code_words(code: Code) -> &'static str
    ensures { result.now ≡ code_words code }
{
    match code {
        Code::Ok => "all went well",
        Code::UnsupportedProtocol => "the scheme isn't http",
        Code::UrlMalformat => "the URL doesn't parse, or has a user name or a password",
        Code::CouldntResolveHost => "host not found",
        Code::CouldntConnect => "the connection was refused, or could not be made",
        Code::WeirdServerReply => "not an HTTP response",
        Code::PartialFile => "the response ended within its body",
        Code::WriteError => "the content could not be written",
        Code::OutOfMemory => OUT_OF_MEMORY,
        Code::OperationTimedout => "timed out",
        Code::TooManyRedirects => "too many redirects",
        Code::GotNothing => "the connection ended before a byte came",
        Code::SendError => "the request could not be sent",
        Code::RecvError => "a read failed",
        Code::BadContentEncoding => "a transfer coding other than one chunked",
        Code::FilesizeExceeded => "the response is too large",
        Code::TooLarge => "the head is too large",
    }
}

/// The words of a code where the bytes that came aren't refused, and end in a response.
pub(crate) fn cut_words(code: Code) -> &'static str
    ensures { result.now ≡ cut_words code }
{
    match code {
        Code::WeirdServerReply => "the response ended within its head",
        _ => code_words(code),
    }
}
