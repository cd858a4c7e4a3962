//! What the exports do, with what their handles lead to.
ghost use Rattle.std.specs.Prelude.{◌≡◌, ◌≤◌, ◌++◌, ◌⊎◌, ℕ, Option, IfErr, IfOk, drop, length, map, option_copied, take};
ghost use Rattle.std.specs.List.{All};
ghost use Rattle.mx_request.specs.Request.{RequestValue};
ghost use Rattle.mx_history.specs.Answers.{state_of};
ghost use Rattle.mx_history.specs.History.{added};
ghost use Rattle.mx_solo.specs.Seats.{WaitsNoLonger};
ghost use Rattle.mx_types.specs.Code.{code_number};
ghost use Rattle.mx_types.specs.declared.code.Code.{Code as OneCode};
ghost use Rattle.mx_embedded.specs.Multis.{gate_in};
ghost use Rattle.mx_embedded.specs.Words.{IsRequestOf, RefusesWords};
ghost use Rattle.mx_c.specs.Answers.{Adds, AnswersAdd, AnswersRead, AnswersResolve, AnswersTimeout, IsFirstEnding, IsTicketTold, Reads, body_by, result_number, told_state, wait_number};

use crate::codes::{BAD_ARGUMENT, EMPTY, OK, OUT_OF_MEMORY, code_of_add, told_state, wait_number};
use crate::objects::Object;
use crate::structs::{mx_how, mx_message, mx_state};
use mx_embedded::{Ended, HostLink, SocketMulti, Words, name_link, request_of};
use mx_journal::{AddReply, InfoReply};
use mx_request::Request;
use mx_transfer_core::Queued;
use mx_types::{Code, Ending, HandleId, LEAST_HISTORY, MOST_HISTORY, Ticket};
use std::alloc::Global;

/// The most idle connections.
const MOST_CONNECTS: u32 = 64;

/// The bit of the flags that says that there is a body.
const HAS_BODY: u32 = 1;

/// A multi handle in a box.
pub(crate) fn open(alloc: Global, history: u32, max_connects: u32) -> Result<Box<Object>, u32> {
    // proof: the type of the links
    name_link::<HostLink>();
    if !(LEAST_HISTORY..=MOST_HISTORY).contains(&history) || max_connects > MOST_CONNECTS {
        return Err(BAD_ARGUMENT);
    }
    match SocketMulti::open(alloc, history, max_connects as u8) {
        Ok(multi) => in_box(alloc, Object::Multi(multi)),
        Err(_) => Err(OUT_OF_MEMORY),
    }
}

/// A box of it.
pub(crate) fn in_box(alloc: Global, object: Object) -> Result<Box<Object>, u32>
    ensures object { IfOk result (λ boxed. boxed.value ≡ object) }
    ensures memory { IfErr result (λ code. code ≡ 3) }
{
    // proof: the type of the links
    name_link::<HostLink>();
    match Box::new(alloc, object) {
        Ok(object) => Ok(object),
        Err(refused) => {
            drop(refused);
            Err(OUT_OF_MEMORY)
        }
    }
}

// Tells the ticket of an addition that was taken.
fn tell_ticket<Q: Drop>(reply: &AddReply<Q>, ticket: &mut u32)
    ensures { IsTicketTold reply.now ticket.old ticket.new }
{
    if let AddReply::Added(Ticket(given)) = reply {
        *ticket = *given;
    }
}

// Adds a transfer of the request, and tells its ticket.
fn add(
    alloc: Global,
    multi: &mut SocketMulti,
    handle: u32,
    request: Request,
    ticket: &mut u32,
) -> u32
    ensures { ((result ≡ 3) × (ticket.new ≡ ticket.old)) ⊎ Adds handle request ticket.old ticket.new multi.old.solo.core multi.new.solo.core result }
{
    match Queued::new(alloc, request) {
        Ok(work) => {
            let reply = multi.solo.add(HandleId(handle), work);
            tell_ticket(&reply, ticket);
            code_of_add(&reply)
        }
        Err(refused) => {
            drop(refused);
            OUT_OF_MEMORY
        }
    }
}

/// The words of a request.
pub(crate) fn words_of<'b>(
    method: &'b [u8],
    url: &'b [u8],
    fields: &'b [u8],
    body: &'b [u8],
    how: &mx_how,
) -> Words<'b>
    ensures text { (result.method.now ≡ method.now) × (result.url.now ≡ url.now) × (result.fields.now ≡ fields.now) }
    ensures body { option_copied result.body ≡ body_by how.now.flags body.now }
    ensures numbers { (result.timeout_ms ≡ how.now.timeout_ms) × (result.max_redirects ≡ how.now.max_redirects) }
{
    Words {
        method,
        url,
        fields,
        body: if how.flags & HAS_BODY != 0 {
            Some(body)
        } else {
            None
        },
        timeout_ms: how.timeout_ms,
        max_redirects: how.max_redirects,
    }
}

// Builds the request, and adds its transfer.
fn build_and_add(
    alloc: Global,
    multi: &mut SocketMulti,
    handle: u32,
    words: Words<'_>,
    ticket: &mut u32,
    refused: &mut u32,
) -> u32
    ensures { ((result ≡ 3) × (ticket.new ≡ ticket.old) × (refused.new ≡ refused.old))
        ⊎ (((result ≡ 110) × (ticket.new ≡ ticket.old) × ((c : OneCode)
        × RefusesWords words.entry.method.now words.entry.url.now words.entry.fields.now (option_copied words.entry.body) words.entry.timeout_ms words.entry.max_redirects c
        × (refused.new ≡ code_number c)))
        ⊎ ((request : RequestValue)
        × IsRequestOf words.entry.method.now words.entry.url.now words.entry.fields.now (option_copied words.entry.body) words.entry.timeout_ms words.entry.max_redirects request
        × Adds handle request ticket.old ticket.new multi.old.solo.core multi.new.solo.core result × (refused.new ≡ refused.old))) }
{
    // proof: the type of the links
    name_link::<HostLink>();
    match request_of(alloc, words) {
        Ok(request) => add(alloc, multi, handle, request, ticket),
        Err(Code::OutOfMemory) => OUT_OF_MEMORY,
        Err(code) => {
            *refused = code.number();
            BAD_ARGUMENT
        }
    }
}

/// The same to the multi handle that it is.
#[tactic(auto, using(crate::proofs::AnswerLemmas::added))]
pub(crate) fn add_to(
    alloc: Global,
    object: &mut Object,
    handle: u32,
    words: Words<'_>,
    ticket: &mut u32,
    refused: &mut u32,
) -> u32
    ensures { AnswersAdd handle
        (IsRequestOf words.entry.method.now words.entry.url.now words.entry.fields.now (option_copied words.entry.body) words.entry.timeout_ms words.entry.max_redirects)
        (RefusesWords words.entry.method.now words.entry.url.now words.entry.fields.now (option_copied words.entry.body) words.entry.timeout_ms words.entry.max_redirects)
        object.old ticket.old ticket.new refused.old refused.new result }
{
    // proof: the type of the links
    name_link::<HostLink>();
    match object {
        Object::Multi(multi) => build_and_add(alloc, multi, handle, words, ticket, refused),
        Object::Outcome(_) => BAD_ARGUMENT,
    }
}

/// Has links to a host be opened at the addresses that the text has.
pub(crate) fn resolve(alloc: Global, object: &mut Object, host: &[u8], addresses: &[u8]) -> u32
    ensures { AnswersResolve host.now addresses.now object.old result }
{
    // proof: the type of the links
    name_link::<HostLink>();
    match object {
        Object::Multi(multi) => match multi.resolve(alloc, host, addresses) {
            Ok(()) => OK,
            Err(Code::OutOfMemory) => OUT_OF_MEMORY,
            Err(_) => BAD_ARGUMENT,
        },
        Object::Outcome(_) => BAD_ARGUMENT,
    }
}

// Reads a message, and hands its outcome over.
fn read(multi: &mut SocketMulti, message: &mut mx_message) -> Result<Ended, u32>
    ensures read { Reads multi.old.solo.core multi.new.solo.core message.old message.new (result_number result) }
    ensures first { IfOk result (IsFirstEnding multi.old.solo.core) }
{
    // proof: the type of the links
    name_link::<HostLink>();
    match multi.solo.info_read() {
        InfoReply::Message {
            handle,
            ticket,
            ending,
            left,
        } => {
            *message = mx_message {
                handle: handle.0,
                ticket: ticket.0,
                code: ending.code().number(),
                left,
            };
            Ok(Ended::of(ending))
        }
        InfoReply::Empty => Err(EMPTY),
        InfoReply::OutOfMemory => Err(OUT_OF_MEMORY),
    }
}

// Reads a message of the multi handle, with its outcome in the other.
fn read_into(object: &mut Object, message: &mut mx_message, ended: &mut Object) -> Result<(), u32>
    ensures { AnswersRead object.old message.old message.new (result_number result) }
{
    // proof: the type of the links
    name_link::<HostLink>();
    match object {
        Object::Multi(multi) => {
            let outcome = read(multi, message)?;
            ended.put(outcome);
            Ok(())
        }
        Object::Outcome(_) => Err(BAD_ARGUMENT),
    }
}

/// Reads a message of the multi handle, with its outcome in a box.
#[tactic(auto, using(crate::proofs::AnswerLemmas::without_memory))]
pub(crate) fn read_boxed(
    alloc: Global,
    object: &mut Object,
    message: &mut mx_message,
) -> Result<Box<Object>, u32>
    ensures { AnswersRead object.old message.old message.new (result_number result) }
{
    // proof: the type of the links
    name_link::<HostLink>();
    let mut ended = in_box(alloc, Object::Outcome(None))?;
    match read_into(object, message, &mut ended) {
        Ok(()) => Ok(ended),
        Err(code) => {
            drop(ended);
            Err(code)
        }
    }
}

/// The state of a handle.
pub(crate) fn state_of(multi: &SocketMulti, handle: u32) -> mx_state
    ensures { result ≡ told_state (state_of (record { 0 = handle }) multi.now.solo.core.journal) }
{
    // proof: the type of the links
    name_link::<HostLink>();
    told_state(multi.solo.state(HandleId(handle)))
}

// How many milliseconds a wait may last; -1 where nothing but the descriptor ends it.
fn wait_of(multi: &mut SocketMulti) -> i64
    ensures { (wait : Option ℕ) × (latest : ℕ) × ((gate_in multi.old.gate).latest ≤ latest) × All (λ h. WaitsNoLonger wait latest h.transfer.now.deadline) multi.old.solo.worker.held × (result ≡ wait_number wait) }
{
    // proof: the type of the links
    name_link::<HostLink>();
    wait_number(multi.timeout())
}

/// The same of the multi handle that it is; -1 of an outcome.
pub(crate) fn timeout_of(object: &mut Object) -> i64
    ensures { AnswersTimeout object.old result }
{
    // proof: the type of the links
    name_link::<HostLink>();
    match object {
        Object::Multi(multi) => wait_of(multi),
        Object::Outcome(_) => -1,
    }
}

// Writes the numbers of the handles, as many as there is room for.
fn write_all(handles: &[HandleId], out: &mut [u32])
    ensures { out.new ≡ take (length out.old) (map (λ h. h.0) handles.now) ++ drop (length handles.now) out.old }
{
    for at in 0..handles.len().min(out.len()) {
        out[at] = handles[at].0;
    }
}

/// Writes the handles that are added, as many as there is room for. The answer is how many are added.
pub(crate) fn handles_of(multi: &SocketMulti, out: &mut [u32]) -> u32
    ensures count { result ≡ length (added multi.now.solo.core.journal) }
    ensures written { out.new ≡ take (length out.old) (map (λ h. h.0) (map (λ a. a.handle) (added multi.now.solo.core.journal))) ++ drop result out.old }
{
    // proof: the type of the links
    name_link::<HostLink>();
    let handles = multi.solo.handles();
    write_all(handles.as_slice(), out);
    handles.as_slice().len() as u32
}
