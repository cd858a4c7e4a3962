//! How a transfer ended.
ghost use Rattle.std.specs.Prelude.{◌≡◌};
ghost use Rattle.mx_types.specs.Code.{code_number};

/// How a transfer ended, after libcurl's `CURLcode` (libcurl-errors(3)). Which fault gives which code is
/// this engine's own choice.
#[derive(Clone, Copy, PartialEq, Eq)]
pub enum Code {
    /// 0: a whole response was read, whatever its status.
    Ok,
    /// 1: the URL's scheme isn't `http`.
    UnsupportedProtocol,
    /// 3: the URL doesn't parse, has user information, or a field of the request is refused.
    UrlMalformat,
    /// 6: the lookup of the host failed.
    CouldntResolveHost,
    /// 7: connecting failed.
    CouldntConnect,
    /// 8: the bytes begin no response head, or one that is refused.
    WeirdServerReply,
    /// 18: the input ended in a body whose end is known.
    PartialFile,
    /// 23: where the content goes it couldn't be written.
    WriteError,
    /// 27: a growth was refused.
    OutOfMemory,
    /// 28: the deadline isn't after the moment handed in.
    OperationTimedout,
    /// 47: more redirects than the request allows.
    TooManyRedirects,
    /// 52: the input ended before any byte.
    GotNothing,
    /// 55: a write failed.
    SendError,
    /// 56: a read failed, or the framing of a chunked body is bad.
    RecvError,
    /// 61: a transfer coding other than one `chunked`.
    BadContentEncoding,
    /// 63: the exchange can't fit in 67,108,864 bytes, or a request's body is over 1,048,576 bytes.
    FilesizeExceeded,
    /// 100, this engine's own: a head over 65,536 bytes or 128 field lines.
    TooLarge,
}

impl Code {
    /// The code's number: libcurl's, and from 100 on this engine's own.
    pub fn number(self) -> u32
        ensures { result ≡ code_number self }
    {
        match self {
            Code::Ok => 0,
            Code::UnsupportedProtocol => 1,
            Code::UrlMalformat => 3,
            Code::CouldntResolveHost => 6,
            Code::CouldntConnect => 7,
            Code::WeirdServerReply => 8,
            Code::PartialFile => 18,
            Code::WriteError => 23,
            Code::OutOfMemory => 27,
            Code::OperationTimedout => 28,
            Code::TooManyRedirects => 47,
            Code::GotNothing => 52,
            Code::SendError => 55,
            Code::RecvError => 56,
            Code::BadContentEncoding => 61,
            Code::FilesizeExceeded => 63,
            Code::TooLarge => 100,
        }
    }
}
