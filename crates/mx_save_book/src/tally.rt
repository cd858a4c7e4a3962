//! The progress of a run.
ghost use Rattle.std.specs.Prelude.{◌≡◌, ◌+◌, cond, []};
ghost use Rattle.mx_save_rules.specs.Ends.{is_failure};
ghost use Rattle.mx_save_book.specs.Lines.{counted, tally_of};

use mx_save_rules::{End, Verdict};

/// How many URLs of a run have ended, how many of these failed, and how many bytes the bodies of the others have.
#[derive(Clone, Copy)]
pub struct Tally {
    pub ended: u64,
    pub failed: u64,
    pub bytes: u64,
}

impl Tally {
    /// None has ended.
    pub fn new() -> Tally
        ensures { result ≡ tally_of [] }
    {
        Tally {
            ended: 0,
            failed: 0,
            bytes: 0,
        }
    }

    /// With one end more. A count stops at the greatest number of 64 bits.
    pub fn with(self, end: &End) -> Tally
        ensures { result ≡ record {
          ended = counted (self.ended + 1);
          failed = counted (self.failed + cond (is_failure end.now.verdict) 1 0);
          bytes = counted (self.bytes + end.now.length);
        } }
    {
        let failed = match end.verdict() {
            Verdict::Failed => 1,
            Verdict::Saved | Verdict::Done | Verdict::Skipped => 0,
        };
        Tally {
            ended: self.ended.saturating_add(1),
            failed: self.failed.saturating_add(failed),
            bytes: self.bytes.saturating_add(end.length()),
        }
    }
}
