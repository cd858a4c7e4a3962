//! What a worker's run needs: its request, its start, what it ended with.
ghost use Rattle.std.specs.Prelude.{◌≡◌};

use crate::steps::Answer;
use crate::trouble::{Trouble, holds};
use mx_gate::Gate;
use mx_journal::AddReply;
use mx_link::{Link, ScriptLink};
use mx_multi::{AtWork, Seated};
use mx_request::{Request, RequestError};
use mx_transfer_core::Outcome;
use mx_types::{Method, Reply, Settings, State};
use mx_worker::{Queued, run_worker};
use std::alloc::{AllocGlobal, Global};
use std::sync::Wait;

/// A GET of the URL, which has so many milliseconds, or no deadline where these are 0, and follows so many redirects at most.
pub fn request_of(
    alloc: Global,
    url: &str,
    timeout_ms: u32,
    max_redirects: u8,
) -> Result<Request, Trouble> {
    let mut settings = Settings::new(alloc);
    settings.timeout_ms = timeout_ms;
    settings.max_redirects = max_redirects;
    match Request::build(alloc, Method::Get, url, settings) {
        Ok(request) => Ok(request),
        Err(RequestError::OutOfMemory) => Err(Trouble::NoMemory),
        Err(_) => Err(Trouble::Wrong),
    }
}

/// The work of such a request, whose response is held.
pub fn work_of<L: Link>(
    alloc: Global,
    url: &str,
    timeout_ms: u32,
    max_redirects: u8,
) -> Result<Queued<L>, Trouble> {
    let request = request_of(alloc, url, timeout_ms, max_redirects)?;
    match Queued::new(alloc, request) {
        Ok(work) => Ok(work),
        Err(_) => Err(Trouble::NoMemory),
    }
}

/// Fails unless an addition was made. It is generic over the work, so that what is handed back is dropped as one value.
pub fn added<Q: Drop, W: Drop>(answer: Result<AddReply<Q>, W>) -> Result<(), Trouble> {
    match answer {
        Ok(AddReply::Added(_)) => Ok(()),
        Ok(AddReply::OutOfMemory(_)) => Err(Trouble::Refused),
        _ => Err(Trouble::Wrong),
    }
}

// Whether a reply is what it should be.
fn is_answer(reply: &Reply, answer: Answer) -> bool {
    match (answer, reply) {
        (Answer::Removed, Reply::Removed) => true,
        (Answer::NotAdded, Reply::NotAdded) => true,
        (Answer::Changed, Reply::Changed) => true,
        (Answer::NoChange, Reply::NoChange) => true,
        (Answer::NotRunning, Reply::NotRunning) => true,
        (Answer::Paused(own), Reply::State(State::Paused(ticket))) => ticket.0 == own,
        (Answer::Done(own, code), Reply::State(State::Done(ticket, ended))) => {
            ticket.0 == own && *ended == code
        }
        (Answer::Running(count), Reply::Running(running)) => *running == count,
        (Answer::Handle(own), Reply::Handles(handles)) => {
            let handles = handles.as_slice();
            handles.len() == 1 && handles[0].0 == own
        }
        _ => false,
    }
}

/// Fails unless a reply is what it should be: as refused where memory was.
pub fn compare_reply(reply: &Reply, answer: Answer) -> Result<(), Trouble> {
    if matches!(reply, Reply::OutOfMemory) {
        return Err(Trouble::Refused);
    }
    holds(is_answer(reply, answer))
}

/// What a worker ended with.
#[derive(Clone, Copy)]
pub struct Ran {
    pub recorded: u32,
    pub stale: u32,
    pub given_back: u32,
    /// Whether memory for its start was refused at first.
    pub is_second: bool,
}

/// Runs a worker, once more where memory for its start was refused. One that was refused is to have done nothing.
pub fn work<L: Link, R: Wait + AllocGlobal, G: Gate<Link = L>>(
    rt: &R,
    worker: Seated<'_, AtWork, Queued<L>, Outcome>,
    gate: &mut G,
) -> Result<Ran, Trouble> {
    let mut worker = worker;
    for is_second in [false, true] {
        let end = run_worker(rt, worker, gate);
        if !end.refused {
            return Ok(Ran {
                recorded: end.recorded,
                stale: end.stale,
                given_back: end.given_back,
                is_second,
            });
        }
        if end.recorded != 0 || end.stale != 0 || end.given_back != 0 {
            return Err(Trouble::Wrong);
        }
        worker = end.seat;
    }
    Err(Trouble::Refused)
}
