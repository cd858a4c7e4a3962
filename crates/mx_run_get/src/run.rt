//! The command `get`.
ghost use Rattle.std.specs.Prelude.{◌≡◌, ◌≢◌, ◌<◌, ◌↔◌, [], true, false, Err, IfOk, IfErr, Ok, OnOk, length, map, take};
ghost use Rattle.mx_types.specs.Code.{code_number};
ghost use Rattle.mx_types.specs.declared.code.Code.TheVariants as codes;
ghost use Rattle.mx_run_io.specs.Faults.{PrintsFault};
ghost use Rattle.mx_run_io.specs.Options.{are_within};
ghost use Rattle.mx_run_io.specs.Ends.{has_failed_write, is_pending, Wrote, EndsRun};
ghost use Rattle.mx_text.specs.Texts.{texts_from, exit_status};
ghost use Rattle.mx_run_get.specs.Asked.{AreEndsOf};
ghost use Rattle.mx_run_get.specs.Run.{AnswersUrls, PrintsEnds, PrintsFirst};
ghost use Rattle.mx_run_get.specs.declared.error.FetchError.TheVariants as fetch_error;

use crate::error::FetchError;
use crate::fetch::{MOST_URLS, RunEnd, fetch_into};
use crate::printed::PrintedEnd;
use crate::printer::Printer;
use mx_crew::Runtime;
use mx_run_io::{Options, Output, Stop, UNWRITTEN, end_with};
use mx_types::Code;
use std::alloc::AllocGlobal;
use std::io::Write;
use std::net::{Net, TcpListener, TcpStream};

/// How a run of `get` ended: its exit status, or why it has none, and its output.
#[derive(Drop)]
pub struct GetEnd<W, S> {
    pub output: Output<W>,
    pub status: S,
}

/// How a run of `get` ended, what is left of the ends that it printed, and whether a connection couldn't be begun since too many files were
/// open.
#[derive(Drop)]
pub(crate) struct Got<W> {
    pub output: Output<W>,
    pub printed: Vec<PrintedEnd>,
    pub status: Result<u8, FetchError>,
    pub met_file_limit: bool,
}

// The exit status of a run that ended or stopped so, or why it has none, once its output is flushed.
fn settle<W: Write>(
    output: &mut Output<W>,
    stopped: Result<(), Stop>,
    status: u8,
) -> Result<u8, FetchError>
    requires { status < UNWRITTEN }
    ensures status { IfOk result (λ s. s ≡ status) }
    ensures ended { OnOk result (stopped ≡ Ok tt) }
    ensures written { OnOk result (has_failed_write output.new ≢ true) }
    ensures flushed { OnOk result (is_pending output.new ≡ false) }
    ensures settled { IfErr result (λ e. e ≢ fetch_error.Unwritten → is_pending output.new ≡ false) }
    ensures unwritten { IfErr result (λ e. (e ≡ fetch_error.Unwritten) ↔ (has_failed_write output.new ≡ true)) }
    ensures began { IfErr result (λ e. e ≢ fetch_error.TooManyUrls) }
    ensures bytes { has_failed_write output.new ≢ true → Wrote W.contents output.old output.new [] }
    ensures stays { has_failed_write output.old ≡ true → has_failed_write output.new ≡ true }
{
    match (output.flush(), stopped) {
        (Err(_), _) => Err(FetchError::Unwritten),
        (Ok(()), Ok(())) => Ok(status),
        (Ok(()), Err(stop)) => Err(FetchError::from(stop)),
    }
}

/// Fetches the URLs by GET, and prints what each ended with, in their order, each as soon as all before it are printed. All that is printed is
/// flushed. Where it stops early the ends of the first URLs are printed. With more than `MOST_URLS` URLs nothing is fetched.
pub(crate) fn get<R: Runtime + Net<Listener = TcpListener, Stream = TcpStream>, W: Write + Drop>(
    rt: &R,
    urls: &[&str],
    options: Options,
    output: Output<W>,
) -> Got<W>
    requires { are_within options ≡ true }
    ensures first { AreEndsOf options.timeout_ms options.max_redirects (take (length result.printed.items) (map (λ u. u.now) urls.now)) result.printed.items }
    ensures all { OnOk result.status (length result.printed.items ≡ length urls.now) }
    ensures printed { OnOk result.status (Wrote W.contents output result.output (texts_from 0 result.printed.items)) }
    ensures stopped { IfErr result.status (λ e. e ≢ fetch_error.Unwritten → Wrote W.contents output result.output (texts_from 0 result.printed.items)) }
    ensures status { IfOk result.status (λ status. status ≡ exit_status result.printed.items) }
    ensures small { IfOk result.status (λ status. status < UNWRITTEN) }
    ensures written { OnOk result.status (has_failed_write result.output ≢ true) }
    ensures flushed { OnOk result.status (is_pending result.output ≡ false) }
    ensures settled { IfErr result.status (λ e. e ≢ fetch_error.Unwritten → e ≢ fetch_error.TooManyUrls → is_pending result.output ≡ false) }
    ensures unwritten { IfErr result.status (λ e. e ≡ fetch_error.Unwritten → has_failed_write result.output ≡ true) }
    ensures unbegun { IfErr result.status (λ e. e ≡ fetch_error.TooManyUrls → result.output ≡ output) }
    ensures many { MOST_URLS < length urls.now → result.status ≡ Err fetch_error.TooManyUrls }
    ensures few { IfErr result.status (λ e. e ≡ fetch_error.TooManyUrls → MOST_URLS < length urls.now) }
{
    if urls.len() > MOST_URLS {
        return Got {
            output,
            printed: Vec::new(rt.alloc()),
            status: Err(FetchError::TooManyUrls),
            met_file_limit: false,
        };
    }
    let printer = Printer::new(rt.alloc(), output);
    let RunEnd {
        taker,
        stopped,
        met_file_limit,
    } = fetch_into::<R, Printer<W>>(rt, urls, options, printer);
    let (mut output, printed, status) = taker.into_parts();
    let status = settle(&mut output, stopped, status);
    Got {
        output,
        printed,
        status,
        met_file_limit,
    }
}

/// Prints `FAULT 27`, whatever the run lacked, after what it printed.
pub(crate) fn print_unfetched<W: Write>(output: &mut Output<W>) -> u8
    ensures ends { EndsRun output.new result }
    ensures printed { has_failed_write output.new ≢ true → PrintsFault (code_number codes.OutOfMemory)
        (Wrote W.contents output.old output.new) result }
{
    let status = end_with(output, Code::OutOfMemory);
    output.end(status)
}

// rule get-at-once
/// Fetches the URLs by GET, and prints what each ended with, in their order: a line, the body, and the end of a line. Each is printed, and its
/// body dropped, as soon as all before it are printed. The answer is the exit status: the number of the first code that isn't `Ok`, or 0 where
/// there is none; and the output. All that is printed is flushed, and what could be printed is before another message is awaited. It may wait.
///
/// It answers `Unwritten` where the output couldn't be written, and only there; it stops at the first write that fails. With each other cause
/// the ends of the first URLs are printed, perhaps none. With more than `MOST_URLS` URLs it answers `TooManyUrls`, and nothing is fetched.
///
/// No clause says when an end is printed or its body dropped, nor that a failed write ends the run.
pub fn try_get<R: Runtime + Net<Listener = TcpListener, Stream = TcpStream>, W: Write + Drop>(
    rt: &R,
    urls: &[&str],
    options: Options,
    output: Output<W>,
) -> GetEnd<W, Result<u8, FetchError>>
    requires { are_within options ≡ true }
    ensures printed { IfOk result.status (λ status. PrintsEnds options.timeout_ms options.max_redirects (map (λ u. u.now) urls.now)
        (Wrote W.contents output result.output) status) }
    ensures small { IfOk result.status (λ status. status ≢ UNWRITTEN) }
    ensures written { OnOk result.status (has_failed_write result.output ≢ true) }
    ensures flushed { OnOk result.status (is_pending result.output ≡ false) }
    ensures settled { IfErr result.status (λ e. e ≢ fetch_error.Unwritten → e ≢ fetch_error.TooManyUrls → is_pending result.output ≡ false) }
    ensures unwritten { IfErr result.status (λ e. e ≡ fetch_error.Unwritten → has_failed_write result.output ≡ true) }
    ensures first { IfErr result.status (λ e. e ≢ fetch_error.Unwritten → PrintsFirst options.timeout_ms options.max_redirects
        (map (λ u. u.now) urls.now) [] (Wrote W.contents output result.output)) }
    ensures unbegun { IfErr result.status (λ e. e ≡ fetch_error.TooManyUrls → result.output ≡ output) }
    ensures many { MOST_URLS < length urls.now → result.status ≡ Err fetch_error.TooManyUrls }
    ensures few { IfErr result.status (λ e. e ≡ fetch_error.TooManyUrls → MOST_URLS < length urls.now) }
{
    let Got {
        output,
        printed,
        status,
        met_file_limit: _,
    } = get(rt, urls, options, output);
    drop(printed);
    GetEnd { output, status }
}

// The exit status of a run that ended so, or has none: then `FAULT 27` is printed, unless the output couldn't be written.
fn end_so<W: Write>(output: &mut Output<W>, status: Result<u8, FetchError>) -> u8
    requires small { IfOk status (λ s. s ≢ UNWRITTEN) }
    requires written { OnOk status (has_failed_write output.old ≢ true) }
    requires flushed { OnOk status (is_pending output.old ≡ false) }
    requires unwritten { IfErr status (λ e. e ≡ fetch_error.Unwritten → has_failed_write output.old ≡ true) }
    ensures ends { EndsRun output.new result }
    ensures ended { IfOk status (λ s. (result ≡ s) × (output.new ≡ output.old)) }
    ensures stopped { IfErr status (λ e. has_failed_write output.new ≢ true → (e ≢ fetch_error.Unwritten)
        × PrintsFault (code_number codes.OutOfMemory) (Wrote W.contents output.old output.new) result) }
{
    match status {
        Ok(status) => status,
        Err(FetchError::Unwritten) => UNWRITTEN,
        Err(_) => print_unfetched(output),
    }
}

// rule get-at-once
/// Fetches the URLs by GET, and prints what each ended with, in their order: a line, the body, and the end of a line. Each is printed, and its
/// body dropped, as soon as all before it are printed. The exit status is the number of the first code that isn't `Ok`, 0 where there is none,
/// or 121 where the output couldn't be written: it stops at the first write that fails. All that is printed is flushed, unless the status is
/// 121, and what could be printed is before another message is awaited. It may wait.
///
/// With one worker each URL is added after the message of the one before; with more `at_once` are added at first, and one more after each
/// message. Where memory, a thread, a poll of the system's or its clock is refused, a transfer wasn't added, no message came of one that
/// was, or there are more URLs than `MOST_URLS`, `FAULT 27` is printed after the ends of the first URLs, perhaps none, once the workers have
/// ended: `try_get` says which.
///
/// No clause says when an end is printed or its body dropped, nor that a failed write ends the run.
pub fn run_get<R: Runtime + Net<Listener = TcpListener, Stream = TcpStream>, W: Write + Drop>(
    rt: &R,
    urls: &[&str],
    options: Options,
    output: Output<W>,
) -> GetEnd<W, u8>
    requires { are_within options ≡ true }
    ensures ends { EndsRun result.output result.status }
    ensures answered { has_failed_write result.output ≢ true → AnswersUrls options.timeout_ms options.max_redirects (map (λ u. u.now) urls.now)
        (Wrote W.contents output result.output) result.status }
{
    let GetEnd { mut output, status } = try_get(rt, urls, options, output);
    let status = end_so(&mut output, status);
    GetEnd { output, status }
}
