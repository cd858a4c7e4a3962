//! Out of memory.
use std::alloc::{AllocError, AllocFailed};
use std::error::Error;
use std::fmt;

/// What is told where memory was refused. Errors that `thiserror` words have it as a literal.
pub const OUT_OF_MEMORY: &str = "out of memory";

/// Memory was refused. The whole engine uses this one type for it; each call says what it leaves then.
#[derive(Clone, Copy, Debug, PartialEq, Eq)]
pub struct OutOfMemory;

impl fmt::Display for OutOfMemory {
    fn fmt<W: fmt::Write>(&self, f: &mut fmt::Formatter<W>) -> fmt::Result {
        f.write_str(OUT_OF_MEMORY)
    }
}

impl Error for OutOfMemory {}

impl From<AllocError> for OutOfMemory {
    fn from(_error: AllocError) -> OutOfMemory {
        OutOfMemory
    }
}

/// The value that couldn't be stored is dropped.
impl<T: Drop> From<AllocFailed<T>> for OutOfMemory {
    fn from(_refused: AllocFailed<T>) -> OutOfMemory {
        OutOfMemory
    }
}
