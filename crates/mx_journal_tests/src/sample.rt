//! Endings, work and claims for the tests, a log that refuses an append, and what a test of rows fails with.

use mx_journal::{Claim, Log, VecLog};
use mx_types::{Code, Ending, Event, OutOfMemory, Who, Work};
use std::alloc::Global;
use std::marker::Model;
use std::test::Fail;

/// The maker of all events but the ends.
pub const SEAT: Who = Who::Seat(3);

/// The maker of the ends.
pub const WORKER: Who = Who::Worker(0);

/// An ending without a request.
#[derive(Drop)]
pub struct CodeEnding {
    pub code: Code,
}

impl Ending for CodeEnding {
    ghost use Rattle.mx_types.specs.Origin.{no_request};

    ghost origin = { λ _. no_request };

    ghost code_of = { λ e. e.code };

    ghost size_of = { λ _. 0 };

    fn code(&self) -> Code {
        self.code
    }

    fn size(&self) -> u32 {
        0
    }
}

/// Work that is known by its number, without a request.
#[derive(Drop)]
pub struct NumberedWork {
    pub number: u32,
}

impl Work for NumberedWork {
    ghost use Rattle.mx_types.specs.Origin.{no_request};

    ghost origin = { λ _. no_request };
}

/// A claim with its work.
#[derive(Drop)]
pub struct Held {
    pub claim: Claim<NumberedWork>,
    pub job: NumberedWork,
}

impl Model for Held {
    ghost use Rattle.std.specs.Prelude.{◌≡◌};
    ghost use Rattle.mx_types.specs.Origin.{no_request};

    ghost Value = { Unit {0} };

    ghost view = { λ _. tt };

    ghost invariant = { λ h. h.claim.origin ≡ no_request };
}

/// A log that refuses at most one append: the one that finds `accepts` at 0.
#[derive(Drop)]
pub struct RefusesOnce {
    pub list: VecLog,
    accepts: u32,
    refused: bool,
}

impl RefusesOnce {
    /// An empty log that refuses the append of this number; none without a number.
    pub fn new(alloc: Global, refused: Option<u32>) -> RefusesOnce {
        RefusesOnce {
            list: VecLog::new(alloc),
            accepts: refused.unwrap_or(0),
            refused: refused.is_none(),
        }
    }
}

impl Log for RefusesOnce {
    ghost events = { λ l. l.list };

    fn append(&mut self, event: Event) -> Result<(), OutOfMemory> {
        if self.accepts == 0 && !self.refused {
            self.refused = true;
            return Err(OutOfMemory);
        }
        self.accepts = self.accepts.saturating_sub(1);
        self.list.append(event)
    }
}

/// The end of a row: it fails with the row and the step that is wrong.
pub fn verdict(row: &'static str, wrong: Option<usize>) -> Result<(), Fail> {
    match wrong {
        Some(step) => Err(Fail::new(format_args!("{row}: step {step}"))),
        None => Ok(()),
    }
}
