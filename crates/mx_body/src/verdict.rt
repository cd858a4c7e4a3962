//! What the bytes of an exchange decide.

ghost use Rattle.std.specs.Prelude.{◌≡◌};

use crate::part::Part;
use mx_types::Code;

/// What the bytes of an exchange decide. All offsets are counted from the beginning of the input.
#[derive(Drop)]
pub enum Verdict {
    /// The input begins with a whole response.
    Complete {
        /// The status of its final head, which is not one of 100 to 199.
        status: u16,
        /// Where the response ends in the input.
        len: u32,
        /// Where the data of its body are in the input, in order; none is empty.
        parts: Vec<Part>,
        /// Whether the connection may serve another request (RFC 9112, section 9.3).
        keep: bool,
    },
    /// Nothing is decided yet: more bytes, or the end of the input, will.
    More,
    /// The input begins with no response, and never will.
    Fault(Code),
}

impl Verdict {
    ghost use Rattle.mx_body.specs.Decoder as spec;

    /// Where a whole response ends; 0 where there is none.
    pub fn len(&self) -> usize
        ensures { result ≡ spec.len_of self.now }
    {
        match self {
            Verdict::Complete { len, .. } => *len as usize,
            _ => 0,
        }
    }

    /// Whether the connection may serve another request; `false` where there is no whole response.
    pub fn keep(&self) -> bool
        ensures { result ≡ spec.keep_of self.now }
    {
        match self {
            Verdict::Complete { keep, .. } => *keep,
            _ => false,
        }
    }

    /// Where the data of the body are; none where there is no whole response.
    pub fn parts(&self) -> &[Part]
        ensures { result.now ≡ spec.parts_of self.now }
    {
        match self {
            Verdict::Complete { parts, .. } => parts.as_slice(),
            _ => &[],
        }
    }
}
