//! Why a row ends before its end.

use mx_types::OutOfMemory;
use std::alloc::{AllocError, AllocFailed};

/// Why a row ends before its end.
#[derive(Clone, Copy)]
pub enum Trouble {
    /// A call was refused memory.
    Refused,
    /// The test's own memory was refused.
    NoMemory,
    /// Something else came than should.
    Wrong,
}

impl From<AllocError> for Trouble {
    fn from(_error: AllocError) -> Trouble {
        Trouble::NoMemory
    }
}

impl<T: Drop> From<AllocFailed<T>> for Trouble {
    fn from(_refused: AllocFailed<T>) -> Trouble {
        Trouble::NoMemory
    }
}

impl From<OutOfMemory> for Trouble {
    fn from(_error: OutOfMemory) -> Trouble {
        Trouble::NoMemory
    }
}

/// Fails unless something is as it should be.
pub fn holds(is_so: bool) -> Result<(), Trouble> {
    if is_so {
        return Ok(());
    }
    Err(Trouble::Wrong)
}
