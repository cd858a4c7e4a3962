//! What is reported of a failure.
ghost use Rattle.std.specs.Prelude.{◌≡◌, Some, None};
ghost use Rattle.mx_text.specs.Words.{told_text};

use crate::code::{code_words, cut_words};
use crate::reason::{CutText, fault_words};
use mx_reason::{Defect, Reason};
use mx_types::Code;
use std::fmt;

/// What is reported of a failure: the words of its code; of a response that is refused, at which of its bytes, counted from 1, and what is
/// wrong there; of one that ended, how much of it came.
#[derive(Clone, Copy)]
pub struct FailureReport {
    pub code: Code,
    /// What was wrong with the bytes that came, if it is known.
    pub reason: Option<Reason>,
}

impl FailureReport {
    // rule program-failure-line
    /// A failure of which its code is known.
    pub fn by_code(code: Code) -> FailureReport
        ensures code { result.code ≡ code }
        ensures reason { result.reason ≡ None }
    {
        FailureReport { code, reason: None }
    }
}

impl fmt::Display for FailureReport {
    ghost output = { λ t. Some (told_text t.code t.reason) };

    fn fmt<W: fmt::Write>(&self, f: &mut fmt::Formatter<W>) -> fmt::Result {
        let Some(Reason { at, what }) = self.reason else {
            return f.write_str(code_words(self.code));
        };
        match what {
            Defect::Fault(fault) => {
                let words = fault_words(fault);
                write!(f, "the response is refused at byte {at}: {words}")
            }
            Defect::Cut(cut) => {
                let words = cut_words(self.code);
                let came = CutText { at, cut };
                write!(f, "{words}{came}")
            }
        }
    }
}
