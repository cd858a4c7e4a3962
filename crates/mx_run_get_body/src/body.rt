//! The body of one request, written as it comes.
ghost use Rattle.std.specs.Prelude.{◌≡◌, ◌⊎◌, ◌↔◌, [], true, false, ◌++◌, length, IfOk, IsTrue};
ghost use Rattle.mx_types.specs.declared.code.Code.TheVariants as one;
ghost use Rattle.mx_multi.specs.Opening.{are_within as are_limits_within};
ghost use Rattle.mx_run_io.specs.Options.{are_within};
ghost use Rattle.mx_text.specs.Failures.{IsFlowingWhy};
ghost use Rattle.mx_run_get_body.specs.Bodies.{IsWritten};
ghost use Rattle.mx_sink.specs.Outlets.{handed_of};

use crate::fetching::Fetching;
use crate::writer_sink::WriterSink;
use mx_crew::Runtime;
use mx_fetch::{FetchEnd, Room, fetch_over_sockets};
use mx_multi::Limits;
use mx_reason::Reason;
use mx_request::Request;
use mx_run_io::{Options, Stop};
use mx_sink::{Delivery, Outlet, Window};
use mx_text::flowing_why_of;
use mx_transfer_core::Outcome;
use mx_types::Code;
use std::alloc::AllocGlobal;
use std::io::Write;
use std::net::{Net, TcpListener, TcpStream};
use std::snapshot::Snapshot;
use std::time::Instant;

/// The events that the history of the multi handle has room for, of which one request needs four.
const HISTORY: u32 = 16;

/// How the transfer of a request ended, and the sink of its body.
#[derive(Drop)]
pub struct BodyEnd<W: Write + Drop> {
    /// The code of the transfer, or `WriteError` where the body couldn't be written.
    pub code: Code,
    /// Why the transfer failed, as far as the bytes that came show.
    pub reason: Option<Reason>,
    pub sink: WriterSink<W>,
    /// What the transfer ended with, for contracts alone.
    pub outcome: Snapshot<Outcome<Outlet<WriterSink<W>>>>,
}

// What is opened for one request: a multi handle with one worker.
fn room(options: Options) -> Room
    requires { are_within options ≡ true }
    ensures within { are_limits_within result.limits ≡ true }
    ensures one { result.limits.seats ≡ 1 }
{
    Room {
        limits: Limits {
            seats: 1,
            workers: 1,
            history: HISTORY,
            max_connects: options.max_connects,
        },
        numbers: 1,
        width: 1,
    }
}

// Writes what its delivery had no room for, if it can. The answer is the sink, and what was not written, in order.
fn write_rest<W: Write + Drop>(
    outlet: Outlet<WriterSink<W>>,
    rest: Window,
) -> (WriterSink<W>, Vec<u8>, Window)
    ensures { handed_of (λ s. s.got) outlet ++ rest.items ≡ result.0.got ++ (result.1.items ++ result.2.items) }
{
    let mut outlet = outlet;
    let mut rest = rest;
    if outlet.make_room() {
        outlet.take(&mut rest);
    }
    let (sink, left) = outlet.into_parts();
    (sink, left, rest)
}

// Whether there is neither.
fn are_empty(left: &[u8], rest: &[u8]) -> bool
    ensures { IsTrue result ↔ (length left.now ≡ 0) × (length rest.now ≡ 0) }
{
    left.is_empty() && rest.is_empty()
}

// The code of a transfer of which all content was written and flushed, or not.
fn told_by(code: Code, is_all: bool) -> Code
    ensures is { (result ≡ code) ⊎ ((result ≡ one.WriteError) × (code ≡ one.Ok) × (is_all ≡ false)) }
    ensures all { result ≡ one.Ok → is_all ≡ true }
{
    if code == Code::Ok && !is_all {
        return Code::WriteError;
    }
    code
}

// How the transfer ended, where all that could be written is.
fn settle<W: Write + Drop>(outcome: Outcome<Outlet<WriterSink<W>>>) -> BodyEnd<W>
    ensures written { IsWritten W.contents outcome.request result.outcome.value result.code result.sink }
    ensures reason { IsFlowingWhy result.outcome.value result.reason }
{
    // proof: what holds of an outcome
    outcome.know_end();
    let about = Snapshot::of(&outcome);
    let code = outcome.code();
    let reason = flowing_why_of(&outcome);
    let (outlet, rest) = outcome.into_delivery();
    let (mut sink, left, rest) = write_rest(outlet, rest);
    let is_flushed = sink.flush().is_ok();
    // proof: what holds of a sink
    sink.know();
    let is_all = are_empty(&left, rest.as_slice());
    let flushed = told_by(code, is_flushed);
    let told = told_by(flushed, is_all);
    drop(left);
    drop(rest);
    BodyEnd {
        code: told,
        reason,
        sink,
        outcome: about,
    }
}

// The end of a run, where the transfer has ended.
fn end_of<W: Write + Drop>(
    end: FetchEnd<Fetching<Outlet<WriterSink<W>>>>,
) -> Result<BodyEnd<W>, Stop>
    ensures written { IfOk result (λ e. IsWritten W.contents end.errand.value.request e.outcome.value e.code e.sink) }
    ensures reason { IfOk result (λ e. IsFlowingWhy e.outcome.value e.reason) }
{
    let FetchEnd {
        errand,
        stopped,
        ..
    } = end;
    let ended = Box::into_inner(errand).into_end();
    match (stopped, ended) {
        (Ok(()), Some(outcome)) => Ok(settle(outcome)),
        (Ok(()), None) => Err(Stop::NoMessage),
        (Err(stop), ended) => {
            drop(ended);
            Err(stop)
        }
    }
}

// rule get-body
// rule get-body-failures
/// Sends the request, follows redirects as its settings say, and writes the body of the last response to the sink as it comes. It may wait.
///
/// What the sink got is a prefix of the content of that response, and with `Code::Ok` all of it, flushed: then that response is whole by
/// RFC 9112. It answers why it stopped, and the sink is dropped, where memory is refused, and where the system has no clock, no poll or no
/// thread for it; no clause says that the cause is the right one, nor that the sink is the one that was given.
pub fn fetch_body<
    R: Runtime + Net<Listener = TcpListener, Stream = TcpStream>,
    W: Write + Send + Drop,
>(rt: &R, request: Request, options: Options, sink: WriterSink<W>) -> Result<BodyEnd<W>, Stop>
    requires within { are_within options ≡ true }
    requires none { sink.got ≡ [] }
    ensures written { IfOk result (λ e. IsWritten W.contents request e.outcome.value e.code e.sink) }
    ensures reason { IfOk result (λ e. IsFlowingWhy e.outcome.value e.reason) }
{
    let Ok(start) = Instant::now(rt) else {
        return Err(Stop::NoClock);
    };
    let outlet = Outlet::new(rt.alloc(), sink, None);
    let fetching = Box::new(rt.alloc(), Fetching::new(request, outlet))?;
    end_of(fetch_over_sockets::<Outlet<WriterSink<W>>, R, Fetching<Outlet<WriterSink<W>>>>(
        rt,
        fetching,
        start,
        room(options),
        false,
    ))
}
