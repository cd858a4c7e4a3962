//! The command `get --body`.
ghost use Rattle.std.specs.Prelude.{◌≡◌, true};
ghost use Rattle.mx_run_io.specs.Options.{are_within};

use crate::body::fetch_body;
use crate::writer_sink::WriterSink;
use mx_crew::Runtime;
use mx_run_io::{Options, Output, Stop};
use mx_text::{FailureReport, build_get, print_cause, print_failure};
use mx_types::{Code, OUT_OF_MEMORY};
use std::alloc::AllocGlobal;
use std::io::Write;
use std::net::{Net, TcpListener, TcpStream};

// Reports how a URL failed, if it did. The answer is the exit status.
fn report<E: Write>(stderr: &mut Output<E>, url: &str, told: FailureReport) -> u8 {
    if told.code != Code::Ok {
        // What can't be reported is left out.
        let _told = print_failure(stderr, url.as_bytes(), told, told.code);
    }
    told.code.number() as u8
}

// Why nothing was fetched, in words.
fn stop_words(stop: Stop) -> &'static str {
    match stop {
        Stop::OutOfMemory => OUT_OF_MEMORY,
        Stop::NoClock => "the system's clock can't be read",
        Stop::NoPoll => "the system gives no poll of sockets, or has too many open files",
        Stop::NoThread => "a thread can't be started",
        _ => "no message came of a transfer",
    }
}

// Reports why nothing was fetched. The answer is the exit status.
fn report_stop<E: Write>(stderr: &mut Output<E>, stop: Stop) -> u8 {
    let number = Code::OutOfMemory.number();
    let _told = print_cause(stderr, stop_words(stop), number);
    number as u8
}

/// Fetches the URL by GET, and writes the body of its response to standard output as it comes, and nothing else. Where it fails it reports
/// that on standard error, by a line. The answer is the number of the code with which it ended, 0 where the whole body was written, 23 where
/// it couldn't be, and 27 where nothing was fetched. It may wait. What of this a contract says `fetch_body` has.
pub fn run_get_body<
    R: Runtime + Net<Listener = TcpListener, Stream = TcpStream>,
    W: Write + Send + Drop,
    E: Write,
>(rt: &R, url: &str, options: Options, stdout: W, stderr: &mut Output<E>) -> u8
    requires { are_within options ≡ true }
{
    let request = match build_get(rt.alloc(), url, options.timeout_ms, options.max_redirects) {
        Ok(request) => request,
        Err(error) => {
            drop(stdout);
            return report(stderr, url, FailureReport::by_code(error.code()));
        }
    };
    match fetch_body(rt, request, options, WriterSink::new(Output::new(stdout))) {
        Ok(end) => {
            let told = FailureReport {
                code: end.code,
                reason: end.reason,
            };
            drop(end);
            report(stderr, url, told)
        }
        Err(stop) => report_stop(stderr, stop),
    }
}
