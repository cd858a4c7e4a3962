//! A transfer over scripted links that is called by hand, and compared with its row as it goes.
//!
//! What was seen is not kept: each part is compared at once with what the row says of it. So the functions own little, and of what is costly
//! to drop at most one value, which they drop by a call. Where a call of the transfer has a condition, that is checked first.

use crate::rows::{Call, Ends, ExpectedHop, Links, Row, Waiting, Wanted, end_of};
use futures::task::Poll;
use futures::test::MockTask;
use mx_link::{ScriptLink, ScriptRead, Write};
use mx_request::{Request, RequestError};
use mx_transfer::{Outcome, Transfer};
use mx_types::{Code, Ending as _, Method, OutOfMemory, Settings};
use std::alloc::Global;
use std::test::Fail;

/// Why a row stops before its end.
#[derive(Clone, Copy)]
pub(crate) enum Stop {
    /// Memory was refused.
    Memory,
    /// Something else was seen of this.
    Part(&'static str),
    /// The same, of the row with this name and this method.
    Row(&'static str, Method, &'static str),
}

impl From<OutOfMemory> for Stop {
    fn from(_refused: OutOfMemory) -> Stop {
        Stop::Memory
    }
}

/// The end of a test. It fails with the row, the method and what differs.
pub(crate) fn verdict(alloc: Global, played: Result<(), Stop>) -> Result<(), Fail> {
    match played {
        Ok(()) => Ok(()),
        Err(Stop::Memory) => Err(OutOfMemory.into()),
        Err(Stop::Part(part)) => Err(part.into()),
        Err(Stop::Row(name, method, part)) => {
            let method = method.as_str();
            Err(format!(in alloc; "{name}, {method}: the row says otherwise of {part}")?.into())
        }
    }
}

/// How much of a row was seen so far: all of that is as the row says.
#[derive(Clone, Copy)]
struct Seen {
    waits: usize,
    links: usize,
    is_ended: bool,
}

/// Fails unless the part is as the row says.
pub(crate) fn holds(is_so: bool, part: &'static str) -> Result<(), Stop> {
    if is_so {
        return Ok(());
    }
    Err(Stop::Part(part))
}

/// Whether an outcome has this hop, counted from 0: all of its bytes, or its heads alone.
fn is_hop(outcome: &Outcome, at: usize, hop: &ExpectedHop<'_>, is_whole: bool) -> bool {
    let sent = match outcome.hop_request(at) {
        Some(request) => request.bytes() == hop.sent,
        None => false,
    };
    let wire = if is_whole { Some(hop.reply) } else { None };
    sent && outcome.hop_wire(at) == wire
        && outcome.hop_heads(at) == Some(hop.heads)
        && outcome.hop_status(at) == Some(hop.status)
}

/// Whether an outcome has no such hop, counted from 0.
fn is_no_hop(outcome: &Outcome, at: usize) -> bool {
    outcome.hop_request(at).is_none()
        && outcome.hop_wire(at).is_none()
        && outcome.hop_heads(at).is_none()
        && outcome.hop_status(at).is_none()
}

// rule redirect-heads
/// Whether an outcome has these hops and no more, and of all but the last their heads alone where these are kept.
fn are_hops(outcome: &Outcome, chain: &[ExpectedHop<'_>], heads_alone: bool) -> bool {
    for at in 0..chain.len() {
        let is_whole = !heads_alone || at == chain.len() - 1;
        if !is_hop(outcome, at, &chain[at], is_whole) {
            return false;
        }
    }
    is_no_hop(outcome, chain.len())
}

/// Whether an outcome has this body: in one part, or in none where there is no body. The copy of all parts is the same.
fn has_body(alloc: Global, outcome: &Outcome, body: Option<&[u8]>) -> Result<bool, OutOfMemory> {
    let bytes = body.unwrap_or(b"");
    let parts = if body.is_some() { 1 } else { 0 };
    let copy = outcome.copy_body(alloc)?;
    Ok(
        copy.as_slice() == bytes
            && outcome.part(0) == body
            && (outcome.part_count(), outcome.size() as usize) == (parts, bytes.len()),
    )
}

/// Fails unless the row's transfer ends with this outcome. An end with `OutOfMemory` is reported as that.
fn check_end(
    alloc: Global,
    outcome: &Outcome,
    links: u32,
    row: &Row<'_>,
    heads_alone: bool,
) -> Result<(), Stop> {
    if outcome.code() == Code::OutOfMemory {
        return Err(Stop::Memory);
    }
    let Some(end) = end_of(row.ends) else {
        return Err(Stop::Part("that it has ended"));
    };
    let is_so = has_body(alloc, outcome, end.body)?
        && (outcome.code(), outcome.status(), outcome.hops()) == (end.code, end.status, row.hops)
        && outcome.wire() == end.wire
        && links == end.links;
    holds(is_so, "its end")?;
    let has_hops = row.chain.is_empty() || are_hops(outcome, row.chain, heads_alone);
    holds(has_hops, "its hops")
}

/// Fails unless these are the next links of the row, where it has any.
fn check_links(links: Links, row: &Row<'_>, seen: &mut Seen) -> Result<(), Stop> {
    let is_next = match row.links.get(seen.links) {
        Some(expected) => links == *expected,
        None => row.links.is_empty(),
    };
    seen.links = seen.links.saturating_add(1);
    holds(is_next, "its links")
}

/// Fails unless this is what the row says of the next poll that answers `Pending`.
fn check_wait(waiting: Waiting, row: &Row<'_>, seen: &mut Seen) -> Result<(), Stop> {
    let is_next = match row.waits.get(seen.waits) {
        Some(expected) => waiting == *expected,
        None => false,
    };
    seen.waits = seen.waits.saturating_add(1);
    holds(is_next, "a poll that answered `Pending`")
}

/// Sets the body.
fn set_body(alloc: Global, settings: &mut Settings, bytes: &[u8]) -> Result<(), OutOfMemory> {
    settings.body = Some(Vec::from_slice(alloc, bytes)?);
    Ok(())
}

/// A field `cookie`.
fn cookie(alloc: Global, value: &str) -> Result<(String, String), OutOfMemory> {
    let name = String::from_str(alloc, "cookie")?;
    let value = String::from_str(alloc, value)?;
    Ok((name, value))
}

/// Adds that field.
fn add_cookie(alloc: Global, settings: &mut Settings, value: &str) -> Result<(), OutOfMemory> {
    let field = cookie(alloc, value)?;
    settings.fields.push(field)?;
    Ok(())
}

/// Adds the body, and a field `cookie`.
fn fill(alloc: Global, settings: &mut Settings, row: &Row<'_>) -> Result<(), OutOfMemory> {
    settings.timeout_ms = row.timeout_ms;
    settings.max_redirects = row.max_redirects;
    if let Some(bytes) = row.body {
        set_body(alloc, settings, bytes)?;
    }
    match row.cookie {
        Some(value) => add_cookie(alloc, settings, value),
        None => Ok(()),
    }
}

/// The settings of a row.
fn settings_of(alloc: Global, row: &Row<'_>) -> Result<Settings, OutOfMemory> {
    let mut settings = Settings::new(alloc);
    fill(alloc, &mut settings, row)?;
    Ok(settings)
}

/// The request of a row.
pub(crate) fn request_of(alloc: Global, method: Method, row: &Row<'_>) -> Result<Request, Stop> {
    let settings = settings_of(alloc, row)?;
    match Request::build(alloc, method, row.url, settings) {
        Ok(request) => Ok(request),
        Err(RequestError::OutOfMemory) => Err(Stop::Memory),
        Err(_) => Err(Stop::Part("its request, which is refused")),
    }
}

fn wants_of(transfer: &Transfer<ScriptLink>) -> Wanted {
    match transfer.wants() {
        None => Wanted::Nothing,
        Some(want) => {
            if want.fresh {
                return Wanted::Fresh;
            }
            let endpoint = want.endpoint;
            Wanted::Any(endpoint.port)
        }
    }
}

/// Hands over the link; false where no such link is wanted.
fn attach(transfer: &mut Transfer<ScriptLink>, link: ScriptLink, is_reused: bool) -> bool {
    let fits = match transfer.wants() {
        None => false,
        Some(want) => !(want.fresh && is_reused),
    };
    if fits {
        transfer.attach(link, is_reused);
    }
    fits
}

/// Hands over a link that answers so; fails where no such link is wanted.
pub(crate) fn attach_script(
    alloc: Global,
    transfer: &mut Transfer<ScriptLink>,
    reads: &[ScriptRead<'_>],
    writes: &[Write],
    is_reused: bool,
) -> Result<(), Stop> {
    let link = ScriptLink::new(alloc, reads, writes)?;
    holds(
        attach(transfer, link, is_reused),
        "a link that isn't wanted",
    )
}

/// Whether it gives a link.
fn gives_link(transfer: &mut Transfer<ScriptLink>) -> bool {
    let link = transfer.take_link();
    let is_given = link.is_some();
    drop(link);
    is_given
}

/// Takes the links that it gives.
fn take_links(transfer: &mut Transfer<ScriptLink>) -> Links {
    let home = match transfer.link_endpoint() {
        Some(endpoint) => Some(endpoint.port),
        None => None,
    };
    Links {
        home,
        wants: wants_of(transfer),
        received: transfer.received(),
        code: transfer.code(),
        given: u32::from(gives_link(transfer)) + u32::from(gives_link(transfer)),
    }
}

fn waits(task: &MockTask, transfer: &Transfer<ScriptLink>) -> Waiting {
    Waiting {
        asks: task.is_woken(),
        wants: wants_of(transfer),
        started: transfer.started(),
        received: transfer.received(),
        deadline: transfer.deadline(),
    }
}

/// Polls once: the outcome, or nothing where it is pending or has ended before.
pub(crate) fn poll(task: &MockTask, transfer: &mut Transfer<ScriptLink>) -> Option<Outcome> {
    if transfer.spent() {
        return None;
    }
    match task.poll(transfer) {
        Poll::Ready(ended) => Some(ended),
        Poll::Pending => None,
    }
}

/// Polls once, and compares what is seen then.
fn check_poll(
    alloc: Global,
    task: &MockTask,
    transfer: &mut Transfer<ScriptLink>,
    row: &Row<'_>,
    heads_alone: bool,
    seen: &mut Seen,
) -> Result<(), Stop> {
    match poll(task, transfer) {
        None => check_wait(waits(task, transfer), row, seen),
        Some(outcome) => {
            let links = take_links(transfer);
            let ended = check_end(alloc, &outcome, links.given, row, heads_alone);
            drop(outcome);
            seen.is_ended = true;
            ended?;
            check_links(links, row, seen)
        }
    }
}

/// Says that no link can be had; fails where none is wanted.
fn fail_link(transfer: &mut Transfer<ScriptLink>) -> Result<(), Stop> {
    let fits = transfer.wants().is_some();
    if fits {
        transfer.fail_link(Code::CouldntResolveHost);
    }
    holds(fits, "a link that isn't wanted")
}

/// Makes the call; fails where it can't be made now.
fn make(
    alloc: Global,
    task: &MockTask,
    transfer: &mut Transfer<ScriptLink>,
    call: Call<'_>,
    row: &Row<'_>,
    heads_alone: bool,
    seen: &mut Seen,
) -> Result<(), Stop> {
    match call {
        Call::Fresh(reads, writes) => attach_script(alloc, transfer, reads, writes, false),
        Call::Reused(reads, writes) => attach_script(alloc, transfer, reads, writes, true),
        Call::NoLink => fail_link(transfer),
        Call::Prepare(now, is_paused) => {
            transfer.prepare(now, is_paused);
            Ok(())
        }
        Call::Poll => check_poll(alloc, task, transfer, row, heads_alone, seen),
        Call::TakeLinks => check_links(take_links(transfer), row, seen),
    }
}

/// Makes all calls of the row. Nothing is asked of the transfer once it has ended.
fn make_each(
    alloc: Global,
    task: &MockTask,
    transfer: &mut Transfer<ScriptLink>,
    row: &Row<'_>,
    heads_alone: bool,
    seen: &mut Seen,
) -> Result<(), Stop> {
    for call in row.calls {
        if !seen.is_ended {
            make(alloc, task, transfer, *call, row, heads_alone, seen)?;
        }
    }
    Ok(())
}

/// Fails unless all that the row says was seen.
fn check_seen(row: &Row<'_>, seen: &Seen) -> Result<(), Stop> {
    let has_waited = seen.waits == row.waits.len();
    let has_links = row.links.is_empty() || seen.links == row.links.len();
    let is_ended = !matches!(row.ends, Ends::Never);
    holds(has_waited, "a poll that answered `Pending`")?;
    holds(has_links, "its links")?;
    holds(seen.is_ended == is_ended, "whether it has ended")
}

/// Makes all calls of the row, and fails unless all that it says was seen.
fn make_all(
    alloc: Global,
    task: &MockTask,
    transfer: &mut Transfer<ScriptLink>,
    row: &Row<'_>,
    heads_alone: bool,
) -> Result<(), Stop> {
    let mut seen = Seen {
        waits: 0,
        links: 0,
        is_ended: false,
    };
    make_each(alloc, task, transfer, row, heads_alone, &mut seen)?;
    check_seen(row, &seen)
}

/// A transfer that keeps all bytes of its hops, or their heads alone.
pub(crate) fn transfer_of(
    alloc: Global,
    request: Request,
    heads_alone: bool,
) -> Transfer<ScriptLink> {
    if heads_alone {
        return Transfer::keeping_heads(alloc, request);
    }
    Transfer::new(alloc, request)
}

/// Compares what is seen of a new transfer over the calls of a row, up to its end.
fn play(
    alloc: Global,
    task: &MockTask,
    method: Method,
    row: &Row<'_>,
    heads_alone: bool,
) -> Result<(), Stop> {
    let request = request_of(alloc, method, row)?;
    let mut transfer = transfer_of(alloc, request, heads_alone);
    let made = make_all(alloc, task, &mut transfer, row, heads_alone);
    drop(transfer);
    made
}

/// Names the row and the method where a part differs.
fn named(played: Result<(), Stop>, name: &'static str, method: Method) -> Result<(), Stop> {
    match played {
        Err(Stop::Part(part)) => Err(Stop::Row(name, method, part)),
        played => played,
    }
}

/// Fails unless just this is seen of a new transfer over the calls of the row, up to its end, whether it keeps all bytes of its hops or not.
pub(crate) fn is_so(alloc: Global, task: &MockTask, row: &Row<'_>) -> Result<(), Stop> {
    for method in row.methods {
        for heads_alone in [false, true] {
            let played = play(alloc, task, *method, row, heads_alone);
            named(played, row.name, *method)?;
        }
    }
    Ok(())
}

/// Fails with the first row that isn't so, and names it.
pub(crate) fn are_so(alloc: Global, task: &MockTask, parts: &[&[Row<'_>]]) -> Result<(), Stop> {
    for rows in parts {
        for row in *rows {
            is_so(alloc, task, row)?;
        }
    }
    Ok(())
}
