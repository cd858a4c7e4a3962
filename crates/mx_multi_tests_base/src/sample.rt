//! A multi handle with nothing to transfer.

use crate::hold::Hold;
use mx_multi::Multi;
use mx_types::{Code, Ending, Work};
use std::sync::Arc;

/// Work that is about nothing.
#[derive(Drop)]
pub struct Job;

impl Work for Job {
    ghost use Rattle.mx_types.specs.Origin.{no_request};

    ghost origin = { λ _. no_request };
}

/// An ending with a code and a size.
#[derive(Drop)]
pub struct End {
    pub code: Code,
    pub size: u32,
    /// What it waits for before it gives its code: the call that asks for it keeps the lock meanwhile.
    pub hold: Option<Arc<Hold>>,
}

impl End {
    pub fn new(code: Code, size: u32) -> End {
        End {
            code,
            size,
            hold: None,
        }
    }

    /// One for which the call that asks its code keeps the lock.
    pub fn held(code: Code, size: u32, hold: Arc<Hold>) -> End {
        End {
            code,
            size,
            hold: Some(hold),
        }
    }
}

impl Ending for End {
    ghost use Rattle.mx_types.specs.Origin.{no_request};

    ghost origin = { λ _. no_request };

    ghost code_of = { λ e. e.code };

    ghost size_of = { λ e. e.size };

    fn code(&self) -> Code {
        if let Some(hold) = &self.hold {
            hold.stay();
        }
        self.code
    }

    fn size(&self) -> u32 {
        self.size
    }
}

pub type SampleMulti = Multi<Job, End>;
