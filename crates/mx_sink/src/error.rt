//! Why a sink takes no bytes.
ghost use Rattle.std.specs.Prelude.{◌≡◌};
ghost use Rattle.mx_sink.specs.Sinks.{sink_code, sink_words};

use mx_types::{Code, OUT_OF_MEMORY};
use std::error::Error;
use std::fmt;

/// Why a sink took no bytes: a code for its transfer, after libcurl's `CURLcode` (libcurl-errors(3)).
#[derive(Clone, Copy, Debug, PartialEq, Eq)]
pub enum SinkError {
    /// 23: the content couldn't be written.
    WriteError,
    /// 27: memory was refused.
    OutOfMemory,
}

impl SinkError {
    /// Its code: 23 or 27.
    pub fn code(self) -> Code
        ensures { result ≡ sink_code self }
    {
        match self {
            SinkError::WriteError => Code::WriteError,
            SinkError::OutOfMemory => Code::OutOfMemory,
        }
    }

    /// The error in words, with no capital and no full stop.
    pub fn words(self) -> &'static str
        ensures { result.now ≡ sink_words self }
    {
        match self {
            SinkError::WriteError => "the content could not be written",
            SinkError::OutOfMemory => OUT_OF_MEMORY,
        }
    }
}

impl fmt::Display for SinkError {
    fn fmt<W: fmt::Write>(&self, f: &mut fmt::Formatter<W>) -> fmt::Result {
        write!(f, "{}", self.words())
    }
}

impl Error for SinkError {}
