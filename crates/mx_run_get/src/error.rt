//! Why a run of `get` stopped before each URL had its end, or couldn't print the ends.
ghost use Rattle.std.specs.Prelude.{◌≡◌};
ghost use Rattle.mx_run_get.specs.declared.error.FetchError.TheVariants as cause;

use mx_run_io::Stop;
use std::alloc::AllocError;
use thiserror::Error;

/// Why a run of `get` stopped before each URL had its end, or couldn't print the ends.
#[derive(Clone, Copy, Debug, PartialEq, Eq, Error)]
pub enum FetchError {
    /// There are more URLs than `MOST_URLS`. It is tried first, and nothing is fetched.
    #[error("there are more than 256 URLs")]
    TooManyUrls,
    /// A growth was refused.
    #[error("out of memory")]
    OutOfMemory,
    /// The system's clock couldn't be read.
    #[error("the system's clock can't be read")]
    NoClock,
    /// The system gave no poll for a worker's sockets, or nothing that wakes it.
    #[error("the system gives no poll of sockets")]
    NoPoll,
    /// A worker's thread couldn't be started.
    #[error("a thread can't be started")]
    NoThread,
    /// No message of a transfer that was added was read, as memory was refused; or one came that is of another addition.
    #[error("no message came of a transfer that was added")]
    NoMessage,
    /// The output couldn't be written or flushed.
    #[error("the output can't be written")]
    Unwritten,
}

impl FetchError {
    ghost use Rattle.mx_run_get.specs.FetchError.{fetch_number};

    /// The number of the cause, from 1 on.
    pub fn number(self) -> u32
        ensures { result ≡ fetch_number self }
    {
        match self {
            FetchError::TooManyUrls => 1,
            FetchError::OutOfMemory => 2,
            FetchError::NoClock => 3,
            FetchError::NoPoll => 4,
            FetchError::NoThread => 5,
            FetchError::NoMessage => 6,
            FetchError::Unwritten => 7,
        }
    }
}

impl From<AllocError> for FetchError {
    ghost from_gives = { λ _ e. e ≡ cause.OutOfMemory };

    fn from(_error: AllocError) -> FetchError {
        FetchError::OutOfMemory
    }
}

impl From<Stop> for FetchError {
    ghost use Rattle.mx_run_get.specs.FetchError.{cause_of_stop};

    ghost from_gives = { λ stop e. e ≡ cause_of_stop stop };

    fn from(stop: Stop) -> FetchError {
        match stop {
            Stop::OutOfMemory => FetchError::OutOfMemory,
            Stop::NoClock => FetchError::NoClock,
            Stop::NoPoll => FetchError::NoPoll,
            Stop::NoThread => FetchError::NoThread,
            Stop::Unwritten | Stop::Unread | Stop::NoMessage => FetchError::NoMessage,
        }
    }
}
