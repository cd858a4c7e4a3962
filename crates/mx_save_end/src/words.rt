//! What is said of a URL that failed.
ghost use Rattle.std.specs.Prelude.{◌≡◌, ◌≢◌, ◌++◌, List, ℕ, IfOk, codes, string_bytes};
ghost use Rattle.mx_types.specs.declared.code.Code.TheVariants as code;
ghost use Rattle.mx_text.specs.Words.{told_text};
ghost use Rattle.mx_save.specs.Words.{left_text};
ghost use Rattle.mx_save_end.specs.Said.{IsSaidBy};

use mx_save::Discarded;
use mx_text::FailureReport;
use mx_types::Code;
use std::alloc::{AllocError, Global};

// rule save-failures
// rule file-no-part-left
/// The words for a URL for which nothing is saved: why its transfer failed, or, if the response is whole, that its status isn't 2xx; and then
/// that its part is left, if it is.
pub(crate) fn failure_words(
    alloc: Global,
    report: FailureReport,
    discarded: &Discarded,
) -> Result<String, AllocError>
    ensures { IfOk result (λ text. IsSaidBy (codes "the status of the response isn't 2xx") report.code report.reason
        discarded.now.part discarded.now.left (string_bytes text)) }
{
    match report.code {
        Code::Ok => format!(in alloc; "the status of the response isn't 2xx{discarded}"),
        _ => format!(in alloc; "{report}{discarded}"),
    }
}

// rule save-failures
// rule file-no-part-left
/// The words for a URL that ends because its part is left: why its transfer failed, or, if the response is whole, that its body isn't saved;
/// and then that its part is left, if it is.
pub(crate) fn left_words(
    alloc: Global,
    report: FailureReport,
    discarded: &Discarded,
) -> Result<String, AllocError>
    ensures { IfOk result (λ text. IsSaidBy (codes "its body isn't saved") report.code report.reason
        discarded.now.part discarded.now.left (string_bytes text)) }
{
    match report.code {
        Code::Ok => format!(in alloc; "its body isn't saved{discarded}"),
        _ => format!(in alloc; "{report}{discarded}"),
    }
}
