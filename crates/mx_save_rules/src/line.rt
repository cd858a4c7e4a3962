//! The line of a URL.
ghost use Rattle.std.specs.Prelude.{◌≡◌, ◌++◌, ◌∷◌, ◌↔◌, [], true, IsErr, OnOk, Some, string_bytes, option_map};
ghost use Rattle.std.specs.Fmt.{decimal};
ghost use Rattle.percent_encoding.specs.Iter.{encoded_text};
ghost use Rattle.mx_run_io.specs.Ends.{has_failed_write, Wrote};
ghost use Rattle.mx_save_rules.specs.Words.{verdict_word};
ghost use Rattle.mx_save_rules.specs.Codes.{save_number};
ghost use Rattle.mx_save_rules.specs.Texts.{shown, file_field, front_text, end_line};

use crate::end::End;
use mx_run_io::{Output, WriteFailed};
use percent_encoding::{AsciiSet, CONTROLS, PercentEncode, ascii_set, percent_encode};
use std::io::Write;

/// What is escaped beside the bytes above 127: what isn't visible in ASCII.
const HIDDEN: AsciiSet = ascii_set!(CONTROLS.add(b' '));

/// The bytes as they are shown.
pub(crate) fn shown(bytes: &[u8]) -> PercentEncode<'_>
    ensures { encoded_text result ≡ shown bytes.now }
{
    percent_encode(bytes, HIDDEN)
}

// Prints what comes before the name of the file.
fn print_front<W: Write>(output: &mut Output<W>, end: &End) -> Result<(), WriteFailed>
    ensures bytes { OnOk result (Wrote W.contents output.old output.new
        (front_text (verdict_word end.now.verdict) (save_number end.now.code) end.now.status end.now.length)) }
    ensures failed { IsErr result ↔ (has_failed_write output.new ≡ true) }
{
    let verdict = end.verdict.as_str();
    let code = end.code.number();
    let status = end.transferred.status;
    let length = end.transferred.length;
    output.print(format_args!("{verdict} {code} {status} {length} "))
}

// Prints the name of the file, `-` for none.
fn print_file<W: Write>(output: &mut Output<W>, end: &End) -> Result<(), WriteFailed>
    ensures bytes { OnOk result (Wrote W.contents output.old output.new (file_field end.now.file)) }
    ensures failed { IsErr result ↔ (has_failed_write output.new ≡ true) }
{
    match &end.file {
        Some(name) => output.print(shown(name.as_bytes())),
        None => output.write_all(b"-"),
    }
}

// Prints the URL, and what comes before and after it.
fn print_url<W: Write>(output: &mut Output<W>, end: &End) -> Result<(), WriteFailed>
    ensures bytes { OnOk result (Wrote W.contents output.old output.new (32 ∷ (shown end.now.url ++ 10 ∷ []))) }
    ensures failed { IsErr result ↔ (has_failed_write output.new ≡ true) }
{
    let url = shown(&end.url);
    output.print(format_args!(" {url}\n"))
}

// rule save-lines
/// Prints the line of a URL: verdict, code, status, length, file and URL, with one space between. Of the file and the URL each byte that
/// isn't visible ASCII is escaped as `%XX`, with capital digits; where no file is named, it is `-`.
///
/// It needs no memory. It isn't flushed.
pub fn print_line<W: Write>(output: &mut Output<W>, end: &End) -> Result<(), WriteFailed>
    ensures bytes { OnOk result (Wrote W.contents output.old output.new (end_line end.now)) }
    ensures failed { IsErr result ↔ (has_failed_write output.new ≡ true) }
{
    print_front(output, end)?;
    print_file(output, end)?;
    print_url(output, end)
}
