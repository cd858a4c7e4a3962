//! What is left of an end that was printed.
ghost use Rattle.std.specs.Prelude.{◌≡◌};
ghost use Rattle.mx_text.specs.Fetched.{code_of};
ghost use Rattle.mx_run_get.specs.Explained.{IsWhyOf};

use mx_text::{FailureReport, Fetched};
use std::marker::Model;
use std::snapshot::Snapshot;

/// What a URL ended with: its code, and why it failed, as far as the received bytes show.
pub fn told_of(fetched: &Fetched) -> FailureReport
    ensures code { result.code ≡ code_of fetched.now }
    ensures reason { IsWhyOf fetched.now result.reason }
{
    match fetched {
        Fetched::Refused(code) => FailureReport::by_code(*code),
        Fetched::Ended(outcome) => FailureReport::by_code(outcome.code()),
        Fetched::Failed(failure) => FailureReport {
            code: failure.code(),
            reason: failure.reason(),
        },
    }
}

/// What is left of an end that was printed: what is reported of it. It has no bytes of a response; contracts still see the whole end.
#[derive(Drop)]
pub struct PrintedEnd {
    told: FailureReport,
    end: Snapshot<Fetched>,
}

impl Model for PrintedEnd {
    ghost use Rattle.std.specs.Prelude.{◌≡◌};
    ghost use Rattle.mx_text.specs.Fetched.{code_of};
    ghost use Rattle.mx_text.specs.declared.fetched.Fetched.{Fetched};
    ghost use Rattle.mx_run_get.specs.Explained.{IsWhyOf};

    ghost Value = { Fetched };

    ghost view = { λ p. p.end.value };

    ghost invariant = { λ p. record {
      code : p.told.code ≡ code_of p.end.value;
      reason : IsWhyOf p.end.value p.told.reason;
    } };
}

impl PrintedEnd {
    /// What is left of this end.
    pub fn of(fetched: &Fetched) -> PrintedEnd
        ensures { result ≡ fetched.now }
    {
        PrintedEnd {
            told: told_of(fetched),
            end: Snapshot::of(fetched),
        }
    }

    /// What is reported of it.
    pub fn told(&self) -> FailureReport
        ensures code { result.code ≡ code_of self.now }
        ensures reason { IsWhyOf self.now result.reason }
    {
        self.told
    }
}
