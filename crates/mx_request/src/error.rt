//! Why a request is refused.
ghost use Rattle.std.specs.Prelude.{◌≡◌};
ghost use Rattle.mx_request.specs.declared.error.RequestError.TheVariants as refusal;

use mx_types::{Code, OutOfMemory};
use std::alloc::AllocError;
use thiserror::Error;

/// Why a request is refused.
#[derive(Clone, Copy, Debug, PartialEq, Eq, Error)]
pub enum RequestError {
    /// The URL's scheme isn't `http`.
    #[error("the scheme of the URL isn't http")]
    Scheme,
    /// The text is over 65,536 bytes, or it is no URL by the URL Standard.
    #[error("the URL doesn't parse, or is over 65,536 bytes")]
    Malformed,
    /// The URL has a user name or a password.
    #[error("the URL has a user name or a password")]
    UserInfo,
    /// More than 64 fields; a name that is no token, or one that the engine keeps for itself; a value, that of
    /// the user agent too, over 8,192 bytes, with a control other than HTAB, or with SP or HTAB at an end.
    #[error("a header field can't be sent: its name, its value or the number of fields isn't allowed")]
    BadField,
    /// The body is over 1,048,576 bytes.
    #[error("the body is over 1,048,576 bytes")]
    BodyTooLarge,
    /// A growth was refused.
    #[error("out of memory")]
    OutOfMemory,
}

impl RequestError {
    ghost use Rattle.mx_request.specs.RequestError.{refusal_number, refusal_code};

    /// The number of the refusal, from 1 on.
    pub fn number(self) -> u32
        ensures { result ≡ refusal_number self }
    {
        match self {
            RequestError::Scheme => 1,
            RequestError::Malformed => 2,
            RequestError::UserInfo => 3,
            RequestError::BadField => 4,
            RequestError::BodyTooLarge => 5,
            RequestError::OutOfMemory => 6,
        }
    }

    /// The code that a transfer of such a request ends with (libcurl-errors(3)).
    pub fn code(self) -> Code
        ensures { result ≡ refusal_code self }
    {
        match self {
            RequestError::Scheme => Code::UnsupportedProtocol,
            RequestError::Malformed | RequestError::UserInfo | RequestError::BadField => {
                Code::UrlMalformat
            }
            RequestError::BodyTooLarge => Code::FilesizeExceeded,
            RequestError::OutOfMemory => Code::OutOfMemory,
        }
    }
}

impl From<AllocError> for RequestError {
    ghost from_gives = { λ _ e. e ≡ refusal.OutOfMemory };

    fn from(_error: AllocError) -> RequestError {
        RequestError::OutOfMemory
    }
}

impl From<OutOfMemory> for RequestError {
    ghost from_gives = { λ _ e. e ≡ refusal.OutOfMemory };

    fn from(_error: OutOfMemory) -> RequestError {
        RequestError::OutOfMemory
    }
}
