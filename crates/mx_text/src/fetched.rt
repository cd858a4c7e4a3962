//! What a handle ended with.
ghost use Rattle.std.specs.Prelude.{◌≡◌};
ghost use Rattle.mx_text.specs.Fetched.{code_of, status_of, fetched_of};

use crate::failure::Failure;
use mx_chain::Outcome;
use mx_types::Code;
use std::alloc::Global;

/// What a handle ended with.
#[derive(Drop)]
pub enum Fetched {
    /// Its URL was refused.
    Refused(Code),
    /// Its transfer ended, and all that came is kept.
    Ended(Outcome),
    /// Its transfer failed, and what it received is dropped.
    Failed(Failure),
}

impl Fetched {
    // rule get-failures
    /// What a transfer ended with. The bytes of a failed one are dropped.
    pub fn of(alloc: Global, outcome: Outcome) -> Fetched
        ensures { result ≡ fetched_of outcome }
    {
        match outcome.code() {
            Code::Ok => Fetched::Ended(outcome),
            _ => Fetched::Failed(Failure::of(alloc, outcome)),
        }
    }

    /// The code.
    pub fn code(&self) -> Code
        ensures { result ≡ code_of self.now }
    {
        match self {
            Fetched::Refused(code) => *code,
            Fetched::Ended(outcome) => outcome.code(),
            Fetched::Failed(failure) => failure.code(),
        }
    }

    /// The status of the final head, 0 where none was read.
    pub fn status(&self) -> u16
        ensures { result ≡ status_of self.now }
    {
        match self {
            Fetched::Refused(_) => 0,
            Fetched::Ended(outcome) => outcome.status(),
            Fetched::Failed(failure) => failure.status(),
        }
    }
}
