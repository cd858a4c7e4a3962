//! What is reported of a URL's end.
ghost use Rattle.std.specs.Prelude.{◌≡◌, ◌<◌, ◌≤◌, true, IsErr, OnOk, Some, length, map, option_map, slice_get};
ghost use Rattle.mx_run_io.specs.Ends.{has_failed_write, Wrote};
ghost use Rattle.mx_chain.specs.Hops.{is_ok};
ghost use Rattle.mx_text.specs.Lines.{Writes};
ghost use Rattle.mx_run_get.specs.Explained.{IsEndText, AreEndTexts, IsRunText};

use crate::printed::PrintedEnd;
use mx_run_io::{Output, WriteFailed};
use mx_text::{Fetched, print_failure, print_file_limit};
use mx_types::Code;
use std::io::Write;

fn is_ok(code: Code) -> bool
    ensures { result ≡ is_ok code }
{
    matches!(code, Code::Ok)
}

// Prints what is reported of a URL of which this is left.
fn print_left<W: Write>(
    output: &mut Output<W>,
    url: &[u8],
    end: &PrintedEnd,
) -> Result<(), WriteFailed>
    ensures bytes { OnOk result (Writes (IsEndText url.now end.now) (Wrote W.contents output.old output.new)) }
    ensures failed { IsErr result → has_failed_write output.new ≡ true }
{
    let told = end.told();
    if is_ok(told.code) {
        return Ok(());
    }
    print_failure(output, url, told, told.code)
}

/// Prints what is reported of a URL that ended so: nothing with code 0, else a line, and then the line of a hint where there is one.
pub fn print_end<W: Write>(
    output: &mut Output<W>,
    url: &[u8],
    fetched: &Fetched,
) -> Result<(), WriteFailed>
    ensures bytes { OnOk result (Writes (IsEndText url.now fetched.now) (Wrote W.contents output.old output.new)) }
    ensures failed { IsErr result → has_failed_write output.new ≡ true }
{
    print_left(output, url, &PrintedEnd::of(fetched))
}

// The bytes of a URL.
fn url_at<'a>(urls: &[&'a str], i: usize) -> &'a [u8]
    requires { i < length urls.now }
    ensures { option_map (λ u. u.now) (slice_get urls.now i) ≡ Some result.now }
{
    urls[i].as_bytes()
}

// Prints what is reported of the first URLs, which ended so, in their order.
fn print_ends<W: Write>(
    output: &mut Output<W>,
    urls: &[&str],
    ends: &[PrintedEnd],
) -> Result<(), WriteFailed>
    requires { length ends.now ≤ length urls.now }
    ensures bytes { OnOk result (Writes (AreEndTexts (map (λ u. u.now) urls.now) ends.now) (Wrote W.contents output.old output.new)) }
    ensures failed { IsErr result → has_failed_write output.new ≡ true }
{
    for (i, end) in ends.iter().enumerate() {
        print_left(output, url_at(urls, i), end)?;
    }
    Ok(())
}

// rule program-file-limit-hint
/// Prints what is reported of the first URLs, which ended so, in their order, and then a hint, where the run met the limit of open files.
pub(crate) fn print_all<W: Write>(
    output: &mut Output<W>,
    urls: &[&str],
    ends: &[PrintedEnd],
    met_limit: bool,
) -> Result<(), WriteFailed>
    requires { length ends.now ≤ length urls.now }
    ensures bytes { OnOk result (Writes (IsRunText (map (λ u. u.now) urls.now) ends.now met_limit) (Wrote W.contents output.old output.new)) }
    ensures failed { IsErr result → has_failed_write output.new ≡ true }
{
    print_ends(output, urls, ends)?;
    print_file_limit(output, met_limit)
}
