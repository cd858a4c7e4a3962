//! The lines of a failure.
ghost use Rattle.std.specs.Prelude.{◌≡◌, ◌≢◌, ◌++◌, ◌↔◌, true, IsErr, IfSome, OnOk};
ghost use Rattle.percent_encoding.specs.Iter.{encoded_text};
ghost use Rattle.mx_types.specs.Code.{code_number};
ghost use Rattle.mx_run_io.specs.Ends.{has_failed_write, Wrote};
ghost use Rattle.mx_text.specs.Words.{told_text};
ghost use Rattle.mx_text.specs.Hints.{IsUrlHint, body_hint, file_limit_hint};
ghost use Rattle.mx_text.specs.Lines.{shown, line_front, line_back, failure_line, hint_line, body_line, body_lines, IsFailureText, Writes};

use crate::hint::{Hint, body_hint, file_limit_hint, url_hint};
use crate::report::FailureReport;
use mx_run_io::{Output, WriteFailed};
use mx_types::Code;
use percent_encoding::{AsciiSet, CONTROLS, PercentEncode, ascii_set, percent_encode};
use std::fmt::Display;
use std::io::Write;

/// What is escaped beside the bytes above 127: what isn't visible in ASCII.
const HIDDEN: AsciiSet = ascii_set!(CONTROLS.add(b' '));

/// The bytes as they are shown: each that isn't visible in ASCII as `%XX`, with capital digits.
pub fn shown(bytes: &[u8]) -> PercentEncode<'_>
    ensures { encoded_text result ≡ shown bytes.now }
{
    percent_encode(bytes, HIDDEN)
}

// Prints what comes before the words: the URL.
fn print_front<W: Write>(output: &mut Output<W>, url: &[u8]) -> Result<(), WriteFailed>
    ensures bytes { OnOk result (Wrote W.contents output.old output.new (line_front url.now)) }
    ensures failed { IsErr result ↔ (has_failed_write output.new ≡ true) }
{
    let url = shown(url);
    output.print(format_args!("mxfetch: {url}: "))
}

// Prints what comes after the words: the number of the code.
fn print_back<W: Write>(output: &mut Output<W>, number: u32) -> Result<(), WriteFailed>
    ensures bytes { OnOk result (Wrote W.contents output.old output.new (line_back number)) }
    ensures failed { IsErr result ↔ (has_failed_write output.new ≡ true) }
{
    output.print(format_args!(" ({number})\n"))
}

// rule program-failure-line
/// Prints the line of a URL that failed: the URL, what is said of it, and the number of its code.
pub fn print_words<W: Write, D: Display + Drop>(
    output: &mut Output<W>,
    url: &[u8],
    words: D,
    number: u32,
) -> Result<(), WriteFailed>
    ensures bytes { OnOk result (IfSome (D.output words) (λ text. Wrote W.contents output.old output.new (failure_line url.now text number))) }
    ensures failed { IsErr result ↔ (has_failed_write output.new ≡ true) }
{
    print_front(output, url)?;
    output.print(words)?;
    print_back(output, number)
}

// Prints the line of a hint.
fn print_hint<W: Write>(output: &mut Output<W>, hint: Option<Hint>) -> Result<(), WriteFailed>
    requires { has_failed_write output.old ≢ true }
    ensures bytes { OnOk result (Wrote W.contents output.old output.new (hint_line hint)) }
    ensures failed { IsErr result ↔ (has_failed_write output.new ≡ true) }
{
    match hint {
        Some(hint) => {
            let words = hint.as_str();
            output.print(format_args!("  hint: {words}\n"))
        }
        None => Ok(()),
    }
}

/// Prints what is reported of a URL that failed with that code: a line with the words, and then the line of a hint where the code and the
/// URL call for one.
pub fn print_failure<W: Write, D: Display + Drop>(
    output: &mut Output<W>,
    url: &[u8],
    words: D,
    code: Code,
) -> Result<(), WriteFailed>
    ensures bytes { OnOk result (IfSome (D.output words) (λ text. Writes (IsFailureText url.now code text) (Wrote W.contents output.old output.new))) }
    ensures failed { IsErr result ↔ (has_failed_write output.new ≡ true) }
{
    let hint = url_hint(url, code);
    print_words(output, url, words, code.number())?;
    print_hint(output, hint)
}

/// Prints what is said of a run that met the limit of open files, and nothing of another.
pub fn print_file_limit<W: Write>(output: &mut Output<W>, met: bool) -> Result<(), WriteFailed>
    ensures bytes { OnOk result (Wrote W.contents output.old output.new (hint_line (file_limit_hint met))) }
    ensures failed { IsErr result → has_failed_write output.new ≡ true }
{
    match file_limit_hint(met) {
        Some(hint) => {
            let words = hint.as_str();
            output.print(format_args!("  hint: {words}\n"))
        }
        None => Ok(()),
    }
}

/// Prints the line of a run that failed as a whole: what is said of it, and the number of its code.
pub fn print_cause<W: Write>(
    output: &mut Output<W>,
    words: &str,
    number: u32,
) -> Result<(), WriteFailed>
    ensures bytes { OnOk result (Wrote W.contents output.old output.new (body_line words.now number)) }
    ensures failed { IsErr result ↔ (has_failed_write output.new ≡ true) }
{
    output.print(format_args!("mxfetch: {words} ({number})\n"))
}

// Prints the line of a response that isn't whole.
fn print_told<W: Write>(output: &mut Output<W>, told: FailureReport) -> Result<(), WriteFailed>
    ensures bytes { OnOk result (Wrote W.contents output.old output.new (body_line (told_text told.code told.reason) (code_number told.code))) }
    ensures failed { IsErr result ↔ (has_failed_write output.new ≡ true) }
{
    let number = told.code.number();
    output.print(format_args!("mxfetch: {told} ({number})\n"))
}

/// Prints what is reported of a response that isn't whole, a line, and then the line of a hint where there is one.
pub fn print_body_failure<W: Write>(
    output: &mut Output<W>,
    told: FailureReport,
) -> Result<(), WriteFailed>
    ensures bytes { OnOk result (Wrote W.contents output.old output.new (body_lines told.code told.reason)) }
    ensures failed { IsErr result ↔ (has_failed_write output.new ≡ true) }
{
    print_told(output, told)?;
    print_hint(output, body_hint(told.reason))
}
