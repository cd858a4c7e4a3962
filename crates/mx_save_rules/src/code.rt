//! The code with which a URL ends.
ghost use Rattle.std.specs.Prelude.{◌≡◌, ◌<◌};
ghost use Rattle.mx_save_rules.specs.Codes.{save_number};

use mx_types::Code;

/// The code with which a URL ends: that of its transfer, or one that only a save has (libcurl-errors(3)).
#[derive(Clone, Copy, PartialEq, Eq)]
pub enum SaveCode {
    /// The transfer's code, or the one with which its URL was refused.
    Transfer(Code),
    /// 22: the response is whole, and its status isn't one that is saved.
    HttpReturnedError,
    /// 23: the file or its folder couldn't be written.
    WriteError,
}

impl SaveCode {
    /// The code's number.
    pub fn number(self) -> u8
        ensures number { result ≡ save_number self }
        ensures small { result < 101 }
    {
        match self {
            SaveCode::Transfer(code) => code.number() as u8,
            SaveCode::HttpReturnedError => 22,
            SaveCode::WriteError => 23,
        }
    }
}
