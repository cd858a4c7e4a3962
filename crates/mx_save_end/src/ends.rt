//! The ends of URLs for which nothing is saved.
ghost use Rattle.std.specs.Prelude.{◌≡◌, ◌≢◌, IfOk, Some, codes};
ghost use Rattle.mx_save.specs.Words.{unsaved_text};
ghost use Rattle.mx_save_rules.specs.Codes.{save_number};
ghost use Rattle.mx_save_rules.specs.Ends.{failed_end};
ghost use Rattle.mx_save_rules.specs.declared.code.SaveCode.TheVariants as save;
ghost use Rattle.mx_save_end.specs.Said.{IsFailedWith, folder_code, unsaved_code};

use crate::words::{failure_words, left_words};
use mx_folder::FolderError;
use mx_save::{Discarded, SaveError, Unsaved};
use mx_save_rules::{End, SaveCode, Transferred};
use mx_text::FailureReport;
use mx_types::Code;
use std::alloc::{AllocError, Global};

// The code for an error of the folder.
fn folder_code(error: FolderError) -> SaveCode
    ensures code { result ≡ folder_code error }
    ensures failed { save_number result ≢ 0 }
{
    match error {
        FolderError::OutOfMemory => SaveCode::Transfer(Code::OutOfMemory),
        _ => SaveCode::WriteError,
    }
}

// The code for a body that wasn't saved.
fn code_of(error: SaveError) -> SaveCode
    ensures code { result ≡ unsaved_code error }
    ensures failed { save_number result ≢ 0 }
{
    match error {
        SaveError::Create(error)
        | SaveError::Write(error)
        | SaveError::Flush(error)
        | SaveError::Place(error) => folder_code(error),
        SaveError::OutOfMemory => SaveCode::Transfer(Code::OutOfMemory),
    }
}

// rule file-no-part-left
/// The end of a URL whose body wasn't saved, with the reason.
pub fn unsaved_end(
    alloc: Global,
    url: Vec<u8>,
    told: Transferred,
    unsaved: &Unsaved,
) -> Result<End, AllocError>
    ensures { IfOk result (λ end. end ≡ failed_end url.items (unsaved_code unsaved.now.error) told
        (Some (unsaved_text unsaved.now.error unsaved.now.part unsaved.now.left))) }
{
    let words = format!(in alloc; "{unsaved}")?;
    Ok(End::failed(url, code_of(unsaved.error), told, Some(words)))
}

// rule file-no-part-left
/// The end of a URL whose part is left, where nothing was to be saved, or the URL would have been retried.
pub fn left_end(
    alloc: Global,
    url: Vec<u8>,
    told: Transferred,
    report: FailureReport,
    discarded: &Discarded,
) -> Result<End, AllocError>
    ensures { IfOk result (λ end. IsFailedWith (codes "its body isn't saved") url.items save.WriteError told report.code report.reason
        discarded.now.part discarded.now.left end) }
{
    let words = left_words(alloc, report, discarded)?;
    Ok(End::failed(url, SaveCode::WriteError, told, Some(words)))
}

// rule save-failures
/// The end of a URL for which nothing is saved, with this code.
pub fn failed_end(
    alloc: Global,
    url: Vec<u8>,
    code: SaveCode,
    told: Transferred,
    report: FailureReport,
    discarded: &Discarded,
) -> Result<End, AllocError>
    requires { save_number code ≢ 0 }
    ensures { IfOk result (λ end. IsFailedWith (codes "the status of the response isn't 2xx") url.items code told report.code report.reason
        discarded.now.part discarded.now.left end) }
{
    let words = failure_words(alloc, report, discarded)?;
    Ok(End::failed(url, code, told, Some(words)))
}
