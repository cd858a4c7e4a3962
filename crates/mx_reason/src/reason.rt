//! The values that stand for a reason.
ghost use Rattle.std.specs.Prelude.{◌≡◌};
ghost use Rattle.mx_reason.specs.Faults.{fault_code};

use mx_types::Code;

/// Why the bytes of an exchange are no whole response.
#[derive(Clone, Copy, PartialEq, Eq)]
pub struct Reason {
    /// After how many bytes it is decided; how many there are, where nothing is.
    pub at: usize,
    pub what: Defect,
}

/// What is wrong with them.
#[derive(Clone, Copy, PartialEq, Eq)]
pub enum Defect {
    /// They are refused, whatever follows.
    Fault(Fault),
    /// They end before anything is decided.
    Cut(Cut),
}

/// What is wrong where bytes are refused.
#[derive(Clone, Copy, PartialEq, Eq)]
pub enum Fault {
    /// A byte in or before a status line with which the bytes begin no head (RFC 9112, section 4).
    StatusLine,
    /// A byte after a status line with which the bytes begin no head (RFC 9112, sections 2.1 and 5).
    FieldLine,
    /// A head's 129th field line begins.
    ManyFields,
    /// The head has 65,536 bytes and doesn't end.
    LongHead,
    /// A head of status 101, or the 17th interim head.
    InterimHead,
    /// Content-Length isn't one number, or HTTP/1.0 has a Transfer-Encoding (RFC 9112, sections 6.1 and 6.3).
    BadFraming,
    /// A transfer coding other than one `chunked`.
    OtherCoding,
    /// Content-Length is so many bytes, with which the response is too large.
    LongBody(u64),
    /// A chunk's size is over 67,108,864.
    LargeChunk,
    /// A byte in the line of a chunk's size, or its extension, that isn't allowed there (RFC 9112, section 7.1).
    SizeLine,
    /// No CRLF follows a chunk's data.
    ChunkEnd,
    /// A byte in the trailer section that isn't allowed there (RFC 9112, section 7.1.2).
    Trailer,
    /// There are more than 67,108,864 bytes.
    ManyBytes,
}

/// Where bytes end that decide nothing.
#[derive(Clone, Copy, PartialEq, Eq)]
pub enum Cut {
    /// In a head, or before it.
    Head,
    /// In a body of which so many bytes came, and which has more.
    Counted { came: usize, of: u64 },
    /// In a chunked body.
    Chunked,
    /// In a body that ends where the connection does.
    Close,
}

impl Fault {
    /// The code with which such bytes are refused.
    pub fn code(self) -> Code
        ensures { result ≡ fault_code self }
    {
        match self {
            Fault::StatusLine | Fault::FieldLine | Fault::InterimHead | Fault::BadFraming => {
                Code::WeirdServerReply
            }
            Fault::ManyFields | Fault::LongHead => Code::TooLarge,
            Fault::OtherCoding => Code::BadContentEncoding,
            Fault::LongBody(_) | Fault::LargeChunk | Fault::ManyBytes => Code::FilesizeExceeded,
            Fault::SizeLine | Fault::ChunkEnd | Fault::Trailer => Code::RecvError,
        }
    }
}
