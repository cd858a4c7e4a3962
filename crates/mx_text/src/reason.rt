//! The words of a reason.
ghost use Rattle.std.specs.Prelude.{◌≡◌, Some};
ghost use Rattle.mx_text.specs.Words.{fault_words, cut_text};

use mx_reason::{Cut, Fault};
use std::fmt;

/// What is wrong where bytes are refused, with the section that says so; where none is named, it is a limit of this engine's own.
pub fn fault_words(fault: Fault) -> &'static str
    ensures { result.now ≡ fault_words fault }
{
    match fault {
        Fault::StatusLine => "it isn't allowed in a status line (RFC 9112, section 4)",
        Fault::FieldLine => "it isn't allowed in a field line (RFC 9112, sections 2.1 and 5)",
        Fault::ManyFields => "a 129th field line begins, and a head may have 128",
        Fault::LongHead => "a head has 65536 bytes, as many as it may, and doesn't end",
        Fault::InterimHead => { "status 101, or a 17th interim response (RFC 9110, section 15.2)" }
        Fault::BadFraming => {
            "Content-Length isn't one number, or HTTP/1.0 has a Transfer-Encoding (RFC 9112, sections 6.1 and 6.3)"
        }
        Fault::OtherCoding => {
            "a transfer coding other than one chunked (RFC 9112, sections 6.1 and 7)"
        }
        Fault::LongBody(_) => {
            "with its Content-Length the response has more than 67108864 bytes (RFC 9112, section 6.2)"
        }
        Fault::LargeChunk => "a chunk has more than 67108864 bytes (RFC 9112, section 7.1)",
        Fault::SizeLine => {
            "it isn't allowed in the line of a chunk's size (RFC 9112, section 7.1)"
        }
        Fault::ChunkEnd => "no CRLF follows a chunk's data (RFC 9112, section 7.1)",
        Fault::Trailer => "it isn't allowed in a trailer section (RFC 9112, section 7.1.2)",
        Fault::ManyBytes => "the response has more than 67108864 bytes",
    }
}

/// How much of a response came, after the words of a code: how many bytes, and where they end.
#[derive(Clone, Copy)]
pub(crate) struct CutText {
    pub at: usize,
    pub cut: Cut,
}

impl fmt::Display for CutText {
    ghost output = { λ t. Some (cut_text t.at t.cut) };

    fn fmt<W: fmt::Write>(&self, f: &mut fmt::Formatter<W>) -> fmt::Result {
        let at = self.at;
        match self.cut {
            Cut::Head if at == 0 => f.write_str(""),
            Cut::Head => write!(f, ": {at} bytes came, and no whole head"),
            Cut::Counted { came, of } => write!(f, ": {came} of {of} bytes of the body came"),
            Cut::Chunked => write!(f, ": {at} bytes came, and no last chunk"),
            Cut::Close => write!(
                f,
                ": {at} bytes came, of a body that ends with its connection"
            ),
        }
    }
}
