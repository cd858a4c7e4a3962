//! The command `get`, explained.
ghost use Rattle.std.specs.Prelude.{◌≡◌, ◌≢◌, ◌<◌, ◌≤◌, true, false, length, map, IfErr, IfOk, OnOk};
ghost use Rattle.mx_types.specs.Code.{code_number};
ghost use Rattle.mx_types.specs.declared.code.Code.TheVariants as codes;
ghost use Rattle.mx_run_io.specs.Faults.{PrintsFault};
ghost use Rattle.mx_run_io.specs.Options.{are_within};
ghost use Rattle.mx_run_io.specs.Ends.{has_failed_write, is_pending, Wrote, EndsRun};
ghost use Rattle.mx_run_get.specs.Run.{AnswersUrls};
ghost use Rattle.mx_text.specs.Lines.{Writes, body_line};
ghost use Rattle.mx_run_get.specs.Explained.{IsRunText};
ghost use Rattle.mx_run_get.specs.declared.error.FetchError.TheVariants as fetch_error;
ghost use Rattle.mx_run_get.specs.Causes.{cause_words};
ghost use Rattle.mx_run_get.specs.Explains.{ExplainsUrls};

use crate::error::FetchError;
use crate::explained::print_all;
use crate::printed::PrintedEnd;
use crate::run::{GetEnd, Got, get, print_unfetched};
use mx_crew::Runtime;
use mx_run_io::{Options, Output, UNWRITTEN};
use mx_text::print_cause;
use mx_types::OUT_OF_MEMORY;
use std::io::Write;
use std::net::{Net, TcpListener, TcpStream};

/// Why a run stopped, in words.
fn cause_words(cause: FetchError) -> &'static str
    ensures { result.now ≡ cause_words cause }
{
    match cause {
        FetchError::TooManyUrls => "there are more than 256 URLs",
        FetchError::OutOfMemory => OUT_OF_MEMORY,
        FetchError::NoClock => "the system's clock can't be read",
        FetchError::NoPoll => "the system gives no poll of sockets, or has too many open files",
        FetchError::NoThread => "a thread can't be started",
        FetchError::NoMessage => "no message came of a transfer",
        FetchError::Unwritten => "the output can't be written",
    }
}

// Prints `FAULT 27`, whatever the run lacked, after what it printed, and reports what that was.
fn print_stopped<W: Write, E: Write>(
    cause: FetchError,
    output: &mut Output<W>,
    told: &mut Output<E>,
) -> u8
    ensures ends { EndsRun output.new result }
    ensures printed { has_failed_write output.new ≢ true → PrintsFault (code_number codes.OutOfMemory)
        (Wrote W.contents output.old output.new) result }
    ensures told { has_failed_write told.new ≢ true → Wrote E.contents told.old told.new (body_line (cause_words cause) 27) }
{
    let status = print_unfetched(output);
    let _ = print_cause(told, cause_words(cause), 27);
    status
}

// The exit status of a run that ended so, or has none: then `FAULT 27` is printed, unless the output couldn't be written. It reports on the
// ends that were printed, or, beside that fault, what the run lacked.
fn end_told<W: Write, E: Write>(
    output: &mut Output<W>,
    told: &mut Output<E>,
    urls: &[&str],
    printed: &[PrintedEnd],
    met_limit: bool,
    status: Result<u8, FetchError>,
) -> u8
    requires few { length printed.now ≤ length urls.now }
    requires small { IfOk status (λ s. s < UNWRITTEN) }
    requires written { OnOk status (has_failed_write output.old ≢ true) }
    requires flushed { OnOk status (is_pending output.old ≡ false) }
    requires unwritten { IfErr status (λ e. e ≡ fetch_error.Unwritten → has_failed_write output.old ≡ true) }
    ensures ends { EndsRun output.new result }
    ensures ended { IfOk status (λ s. (result ≡ s) × (output.new ≡ output.old)) }
    ensures told { OnOk status (has_failed_write told.new ≢ true
        → Writes (IsRunText (map (λ u. u.now) urls.now) printed.now met_limit) (Wrote E.contents told.old told.new)) }
    ensures stopped { IfErr status (λ e. has_failed_write output.new ≢ true → (e ≢ fetch_error.Unwritten)
        × PrintsFault (code_number codes.OutOfMemory) (Wrote W.contents output.old output.new) result) }
    ensures cause { IfErr status (λ e. has_failed_write output.new ≢ true → has_failed_write told.new ≢ true
        → Wrote E.contents told.old told.new (body_line (cause_words e) 27)) }
{
    match status {
        Ok(status) => {
            let _ = print_all(told, urls, printed, met_limit);
            status
        }
        Err(FetchError::Unwritten) => {
            let _ = print_all(told, urls, printed, met_limit);
            UNWRITTEN
        }
        Err(cause) => print_stopped(cause, output, told),
    }
}

// rule program-explain
/// Does what `run_get` does, and reports why each URL failed, in their order: a line with the words of its code; for a response that is
/// refused its byte, counted from 1, and what is wrong there; for a truncated one how much of it came; then a hint where there is one; and
/// last, where a connection couldn't be begun since too many files were open, a hint that says so. Where `FAULT 27` is printed, it reports
/// what the run lacked, and that alone. Where the output couldn't be written it reports on the URLs whose ends were printed. The report is
/// written into an output of its own, once the other is flushed; whether that succeeds doesn't change the exit status. It may wait.
///
/// No clause says that the cause that is named beside `FAULT 27`, or the hint of too many open files, is the right one, nor what is reported
/// where the output couldn't be written.
pub fn run_get_explained<
    R: Runtime + Net<Listener = TcpListener, Stream = TcpStream>,
    W: Write + Drop,
    E: Write,
>(rt: &R, urls: &[&str], options: Options, output: Output<W>, told: &mut Output<E>) -> GetEnd<W, u8>
    requires { are_within options ≡ true }
    ensures ends { EndsRun result.output result.status }
    ensures answered { has_failed_write result.output ≢ true → AnswersUrls options.timeout_ms options.max_redirects (map (λ u. u.now) urls.now)
        (Wrote W.contents output result.output) result.status }
    ensures explained { has_failed_write result.output ≢ true → has_failed_write told.new ≢ true
        → ExplainsUrls options.timeout_ms options.max_redirects (map (λ u. u.now) urls.now)
        (Wrote W.contents output result.output) (Wrote E.contents told.old told.new) result.status }
{
    let Got {
        mut output,
        printed,
        status,
        met_file_limit,
    } = get(rt, urls, options, output);
    let status = end_told(
        &mut output,
        told,
        urls,
        printed.as_slice(),
        met_file_limit,
        status,
    );
    drop(printed);
    GetEnd { output, status }
}
