//! A run of workers on threads.
ghost use Rattle.std.specs.Prelude.{◌≡◌, ◌≢◌, ◌<◌, [], true, Err, IfErr, IfOk, Ok, OnOk, length, map, take};
ghost use Rattle.mx_fetch.specs.declared.turned.Turned.TheVariants as how;
ghost use Rattle.mx_multi.specs.Opening.{are_within as are_limits_within};
ghost use Rattle.mx_run_io.specs.Options.{are_within, width};
ghost use Rattle.mx_run_get.specs.Asked.{AreEndsOf};
ghost use Rattle.mx_run_get.specs.Getting.{HasLeft};
ghost use Rattle.mx_run_get.specs.declared.error.FetchError.TheVariants as fetch_error;

use crate::error::FetchError;
use crate::getting::Getting;
use crate::taker::TakeEnds;
use mx_crew::Runtime;
use mx_fetch::{FetchEnd, Room, fetch_over_sockets};
use mx_multi::Limits;
use mx_run_io::{Options, Stop};
use mx_sink::Held;
use mx_text::Fetched;
use std::alloc::AllocGlobal;
use std::net::{Net, TcpListener, TcpStream};
use std::time::Instant;

/// The most URLs of a run.
pub const MOST_URLS: usize = 256;

/// The events that the history of a multi handle has room for: eight for each URL, of which four are needed.
const HISTORY: u32 = 2048;

// What a multi handle is opened with: what the options ask for, a seat that adds, and a number for each URL.
fn room(options: Options) -> Room
    requires { are_within options ≡ true }
    ensures limits { result.limits ≡ record { seats = 1; workers = options.workers; history = HISTORY; max_connects = options.max_connects } }
    ensures within { are_limits_within result.limits ≡ true }
    ensures numbers { result.numbers ≡ MOST_URLS }
    ensures width { result.width ≡ width options }
{
    Room {
        limits: Limits {
            seats: 1,
            workers: options.workers,
            history: HISTORY,
            max_connects: options.max_connects,
        },
        numbers: MOST_URLS,
        width: usize::from(options.width()),
    }
}

/// How a run ended: what took its ends, why it stopped before all had ended, if it did, and whether a connection couldn't be begun since too
/// many files were open.
#[derive(Drop)]
pub(crate) struct RunEnd<T> {
    pub taker: T,
    pub stopped: Result<(), Stop>,
    pub met_file_limit: bool,
}

// The end of a run. Where all have ended all ends are taken.
fn end_of<'u, T: TakeEnds + Drop>(end: FetchEnd<Getting<'u, T>>) -> RunEnd<T>
    requires { OnOk end.stopped (HasLeft end.errand.value how.AllEnded) }
    ensures first { AreEndsOf end.entry.errand.value.options.timeout_ms end.entry.errand.value.options.max_redirects (take (length (T.taken result.taker)) end.entry.errand.value.urls) (T.taken result.taker) }
    ensures all { OnOk result.stopped (length (T.taken result.taker) ≡ length end.entry.errand.value.urls) }
    ensures begun { T.begun result.taker ≡ end.entry.errand.value.begun }
{
    let FetchEnd {
        errand,
        stopped,
        met_file_limit,
    } = end;
    RunEnd {
        taker: Box::into_inner(errand).into_taker(),
        stopped,
        met_file_limit,
    }
}

// It stopped before it began.
fn unbegun<T>(taker: T, stop: Stop) -> RunEnd<T>
    ensures taker { result.taker ≡ taker }
    ensures stopped { result.stopped ≡ Err stop }
{
    RunEnd {
        taker,
        stopped: Err(stop),
        met_file_limit: false,
    }
}

/// Fetches the URLs with workers over sockets, whose clocks have one start, and gives their ends, in their order, to what takes them, each as
/// soon as all before it are given. Where it stops early those of the first URLs are given.
pub(crate) fn fetch_into<
    R: Runtime + Net<Listener = TcpListener, Stream = TcpStream>,
    T: TakeEnds + Drop,
>(rt: &R, urls: &[&str], options: Options, taker: T) -> RunEnd<T>
    requires within { are_within options ≡ true }
    requires none { T.taken taker ≡ [] }
    ensures first { AreEndsOf options.timeout_ms options.max_redirects (take (length (T.taken result.taker)) (map (λ u. u.now) urls.now)) (T.taken result.taker) }
    ensures all { OnOk result.stopped (length (T.taken result.taker) ≡ length urls.now) }
    ensures begun { T.begun result.taker ≡ T.begun taker }
{
    let Ok(start) = Instant::now(rt) else {
        return unbegun(taker, Stop::NoClock);
    };
    match Getting::boxed(rt.alloc(), urls, options, taker) {
        Ok(getting) => end_of(fetch_over_sockets::<Held, R, Getting<'_, T>>(
            rt,
            getting,
            start,
            room(options),
            false,
        )),
        Err(taker) => unbegun(taker, Stop::OutOfMemory),
    }
}

// rule get-url-count: `get` takes 1 to 256 URLs (clauses `many` and `few`).
/// Fetches the URLs by GET. What is answered is what each ended with, in their order: the code of its refusal, or what a
/// transfer of its request ended with. It may wait.
///
/// With one worker each URL is added after the message of the one before; with more `at_once` are added at first, and one more after each
/// message. All workers have ended when it returns. It answers
///
/// - `TooManyUrls` where there are more than `MOST_URLS`, and only there;
/// - `NoClock`, `NoPoll`, `NoThread` where the system has none for the workers;
/// - `OutOfMemory` where a growth was refused;
/// - `NoMessage` where no message of a transfer came.
///
/// `Unwritten` is none of its answers; which of the others comes no clause says, but for the first. `met_file_limit` says whether a
/// connection couldn't be begun since too many files were open; no clause says that it does.
pub fn fetch_all<R: Runtime + Net<Listener = TcpListener, Stream = TcpStream>>(
    rt: &R,
    urls: &[&str],
    options: Options,
    met_file_limit: &mut bool,
) -> Result<Vec<Fetched>, FetchError>
    requires { are_within options ≡ true }
    ensures ends { IfOk result (λ ends. AreEndsOf options.timeout_ms options.max_redirects (map (λ u. u.now) urls.now) ends.items) }
    ensures many { MOST_URLS < length urls.now → result ≡ Err fetch_error.TooManyUrls }
    ensures few { IfErr result (λ e. e ≡ fetch_error.TooManyUrls → MOST_URLS < length urls.now) }
    ensures written { IfErr result (λ e. e ≢ fetch_error.Unwritten) }
{
    if urls.len() > MOST_URLS {
        return Err(FetchError::TooManyUrls);
    }
    let ends = Vec::with_capacity(rt.alloc(), urls.len())?;
    let RunEnd {
        taker,
        stopped,
        met_file_limit: met,
    } = fetch_into::<R, Vec<Fetched>>(rt, urls, options, ends);
    *met_file_limit = met;
    match stopped {
        Ok(()) => Ok(taker),
        Err(stop) => {
            drop(taker);
            Err(FetchError::from(stop))
        }
    }
}
