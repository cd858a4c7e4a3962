//! Why a run stops before all URLs have ended.
ghost use Rattle.std.specs.Prelude.{◌≡◌};
ghost use Rattle.mx_run_io.specs.declared.stop.Stop.TheVariants as stop;

use mx_types::OutOfMemory;
use std::alloc::{AllocError, AllocFailed};
use thiserror::Error;

/// Why a run stops before all URLs have ended.
#[derive(Clone, Copy, Debug, PartialEq, Eq, Error)]
pub enum Stop {
    /// A growth was refused.
    #[error("out of memory")]
    OutOfMemory,
    /// The output couldn't be written or flushed.
    #[error("the output can't be written")]
    Unwritten,
    /// The list of URLs couldn't be read.
    #[error("the list of URLs can't be read")]
    Unread,
    /// The system's clock couldn't be read.
    #[error("the system's clock can't be read")]
    NoClock,
    /// The system gave no poll for a worker's sockets, or nothing that wakes it.
    #[error("the system gives no poll of sockets")]
    NoPoll,
    /// A worker's thread couldn't be started.
    #[error("a thread can't be started")]
    NoThread,
    /// No message of a transfer that was added was read, as memory was refused; or one came that is of no addition of the run.
    #[error("no message came of a transfer that was added")]
    NoMessage,
}

impl From<AllocError> for Stop {
    ghost from_gives = { λ _ e. e ≡ stop.OutOfMemory };

    fn from(_error: AllocError) -> Stop {
        Stop::OutOfMemory
    }
}

/// The value that couldn't be stored is dropped.
impl<T: Drop> From<AllocFailed<T>> for Stop {
    ghost from_gives = { λ _ e. e ≡ stop.OutOfMemory };

    fn from(_refused: AllocFailed<T>) -> Stop {
        Stop::OutOfMemory
    }
}

impl From<OutOfMemory> for Stop {
    ghost from_gives = { λ _ e. e ≡ stop.OutOfMemory };

    fn from(_error: OutOfMemory) -> Stop {
        Stop::OutOfMemory
    }
}
