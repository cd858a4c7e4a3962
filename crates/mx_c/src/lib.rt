//! The multi handle on one thread, for C: what c/mx_multi.h declares.
#![tactic(auto)]

ghost use Rattle.std.specs.Prelude.{◌≡◌, MatchOption, length, option_map};
ghost use Rattle.std.specs.Option.{option_and_then};
ghost use Rattle.std.specs.Option.{option_map_or};
ghost use Rattle.mx_chain.specs.Outcomes.{wire_at};
ghost use Rattle.mx_embedded.specs.Contents.{AreHeadsCopied, IsCopiedFrom, body_of, request_at};
ghost use Rattle.mx_types.specs.declared.call.Call.TheVariants as call;
ghost use Rattle.mx_embedded.specs.Words.{IsRequestOf, RefusesWords};
ghost use Rattle.mx_c.specs.Answers.{AnswersAdd, AnswersCall, AnswersPerform, AnswersRead, AnswersResolve, AnswersTimeout, IsEndOf, TellsHandles, TellsState, body_by, ended_of, part_at, status_at};

mod calls;
mod codes;
mod handles;
mod objects;
mod outcomes;
mod pointers;
mod structs;

use crate::calls::{add_to, handles_of, open, read_boxed, resolve, state_of, timeout_of, words_of};
use crate::codes::{BAD_ARGUMENT, EMPTY, OK, code_of_pause, code_of_remove};
use crate::handles::leave;
pub use crate::handles::{Handle, Opaque};
use crate::objects::Object;
use crate::outcomes::{end_of, status_of};
use crate::pointers::pointer_to;
pub use crate::structs::{mx_end, mx_how, mx_message, mx_state};
use mx_embedded::{HostLink, name_link};
use mx_types::HandleId;
use std::alloc::Global;

/// Opens a multi handle.
#[unsafe(no_mangle)]
pub extern "C" fn mx_multi_open(
    alloc: Global,
    history: u32,
    max_connects: u32,
    out: &mut *mut Opaque,
) -> u32 {
    // proof: the type of the links
    name_link::<HostLink>();
    match open(alloc, history, max_connects) {
        Ok(object) => {
            *out = Handle::of(object).into_raw();
            OK
        }
        Err(code) => code,
    }
}

/// Ends a multi handle, with all that runs, its messages and its connections.
#[unsafe(no_mangle)]
pub extern "C" fn mx_multi_close(multi: Handle) {
    // proof: the type of the links
    name_link::<HostLink>();
    let _object = multi.into_box();
}

/// Drops from the history what no added handle needs.
#[unsafe(no_mangle)]
pub extern "C" fn mx_multi_retire(multi: Handle) -> u32 {
    // proof: the type of the links
    name_link::<HostLink>();
    let mut object = multi.into_box();
    let code = match &mut *object {
        Object::Multi(multi) => {
            let _kept = multi.solo.retire();
            OK
        }
        Object::Outcome(_) => BAD_ARGUMENT,
    };
    leave(object);
    code
}

/// Adds a handle with its transfer.
#[unsafe(no_mangle)]
pub extern "C" fn mx_multi_add(
    alloc: Global,
    multi: Handle,
    handle: u32,
    method: &[u8],
    url: &[u8],
    fields: &[u8],
    body: &[u8],
    how: &mx_how,
    ticket: &mut u32,
    refused: &mut u32,
) -> u32
    ensures { AnswersAdd handle (IsRequestOf method.now url.now fields.now (body_by how.now.flags body.now) how.now.timeout_ms how.now.max_redirects)
        (RefusesWords method.now url.now fields.now (body_by how.now.flags body.now) how.now.timeout_ms how.now.max_redirects)
        multi.content ticket.old ticket.new refused.old refused.new result }
{
    // proof: the type of the links
    name_link::<HostLink>();
    let mut object = multi.into_box();
    let words = words_of(method, url, fields, body, how);
    let code = add_to(alloc, &mut object, handle, words, ticket, refused);
    leave(object);
    code
}

/// Has links to a host be opened at addresses of the caller's, which are text with a comma between any two; none has the host be looked up
/// again.
#[unsafe(no_mangle)]
pub extern "C" fn mx_multi_resolve(
    alloc: Global,
    multi: Handle,
    host: &[u8],
    addresses: &[u8],
) -> u32
    ensures { AnswersResolve host.now addresses.now multi.content result }
{
    // proof: the type of the links
    name_link::<HostLink>();
    let mut object = multi.into_box();
    let code = resolve(alloc, &mut object, host, addresses);
    leave(object);
    code
}

/// Removes a handle, whether its transfer runs or is done.
#[unsafe(no_mangle)]
pub extern "C" fn mx_multi_remove(multi: Handle, handle: u32) -> u32
    ensures { AnswersCall (call.Remove (record { 0 = handle })) multi.content result }
{
    // proof: the type of the links
    name_link::<HostLink>();
    let mut object = multi.into_box();
    let code = match &mut *object {
        Object::Multi(multi) => code_of_remove(multi.solo.remove(HandleId(handle))),
        Object::Outcome(_) => BAD_ARGUMENT,
    };
    leave(object);
    code
}

/// Pauses a handle's transfer.
#[unsafe(no_mangle)]
pub extern "C" fn mx_multi_pause(multi: Handle, handle: u32) -> u32
    ensures { AnswersCall (call.Pause (record { 0 = handle })) multi.content result }
{
    // proof: the type of the links
    name_link::<HostLink>();
    let mut object = multi.into_box();
    let code = match &mut *object {
        Object::Multi(multi) => code_of_pause(multi.solo.pause(HandleId(handle))),
        Object::Outcome(_) => BAD_ARGUMENT,
    };
    leave(object);
    code
}

/// Resumes a handle's transfer.
#[unsafe(no_mangle)]
pub extern "C" fn mx_multi_unpause(multi: Handle, handle: u32) -> u32
    ensures { AnswersCall (call.Unpause (record { 0 = handle })) multi.content result }
{
    // proof: the type of the links
    name_link::<HostLink>();
    let mut object = multi.into_box();
    let code = match &mut *object {
        Object::Multi(multi) => code_of_pause(multi.solo.unpause(HandleId(handle))),
        Object::Outcome(_) => BAD_ARGUMENT,
    };
    leave(object);
    code
}

/// Goes on with all transfers as far as that is possible without a wait.
#[unsafe(no_mangle)]
pub extern "C" fn mx_multi_perform(multi: Handle, running: &mut u32) -> u32
    ensures { AnswersPerform multi.content running.old running.new result }
{
    // proof: the type of the links
    name_link::<HostLink>();
    let mut object = multi.into_box();
    let code = match &mut *object {
        Object::Multi(multi) => {
            *running = multi.perform();
            OK
        }
        Object::Outcome(_) => BAD_ARGUMENT,
    };
    leave(object);
    code
}

/// The descriptor to wait for.
#[unsafe(no_mangle)]
pub extern "C" fn mx_multi_fd(multi: Handle) -> i32 {
    // proof: the type of the links
    name_link::<HostLink>();
    let object = multi.into_box();
    let descriptor = match &*object {
        Object::Multi(multi) => multi.descriptor(),
        Object::Outcome(_) => -1,
    };
    leave(object);
    descriptor
}

/// How long a wait may last.
#[unsafe(no_mangle)]
pub extern "C" fn mx_multi_timeout(multi: Handle) -> i64
    ensures { AnswersTimeout multi.content result }
{
    // proof: the type of the links
    name_link::<HostLink>();
    let mut object = multi.into_box();
    let timeout = timeout_of(&mut object);
    leave(object);
    timeout
}

/// Reads a message, with its outcome.
#[unsafe(no_mangle)]
pub extern "C" fn mx_multi_info_read(
    alloc: Global,
    multi: Handle,
    message: &mut mx_message,
    outcome: &mut *mut Opaque,
) -> u32
    ensures { AnswersRead multi.content message.old message.new result }
{
    // proof: the type of the links
    name_link::<HostLink>();
    let mut object = multi.into_box();
    let code = match read_boxed(alloc, &mut object, message) {
        Ok(ended) => {
            *outcome = Handle::of(ended).into_raw();
            OK
        }
        Err(code) => code,
    };
    leave(object);
    code
}

/// The state of a handle.
#[unsafe(no_mangle)]
pub extern "C" fn mx_multi_state(multi: Handle, handle: u32, state: &mut mx_state) -> u32
    ensures { TellsState (record { 0 = handle }) multi.content state.old state.new result }
{
    // proof: the type of the links
    name_link::<HostLink>();
    let object = multi.into_box();
    let code = match &*object {
        Object::Multi(multi) => {
            *state = state_of(multi, handle);
            OK
        }
        Object::Outcome(_) => BAD_ARGUMENT,
    };
    leave(object);
    code
}

/// The handles that are added, in the order of their addition, and how many they are.
#[unsafe(no_mangle)]
pub extern "C" fn mx_multi_handles(multi: Handle, handles: &mut [u32]) -> u32
    ensures { TellsHandles multi.content handles.old handles.new result }
{
    // proof: the type of the links
    name_link::<HostLink>();
    let object = multi.into_box();
    let count = match &*object {
        Object::Multi(multi) => handles_of(multi, handles),
        Object::Outcome(_) => 0,
    };
    leave(object);
    count
}

/// What an outcome tells in numbers.
#[unsafe(no_mangle)]
pub extern "C" fn mx_outcome_end(outcome: Handle, end: &mut mx_end) -> u32
    ensures { MatchOption (ended_of outcome.content) ((result ≡ 110) × (end.new ≡ end.old)) (λ o. (result ≡ 0) × IsEndOf o end.new) }
{
    // proof: the type of the links
    name_link::<HostLink>();
    let object = outcome.into_box();
    let code = match object.ended() {
        Some(ended) => {
            *end = end_of(ended);
            OK
        }
        None => BAD_ARGUMENT,
    };
    leave(object);
    code
}

/// The status of a hop's response.
#[unsafe(no_mangle)]
pub extern "C" fn mx_outcome_status(outcome: Handle, hop: u32) -> u32
    ensures { result ≡ option_map_or (λ o. status_at o hop) (ended_of outcome.content) 0 }
{
    // proof: the type of the links
    name_link::<HostLink>();
    let object = outcome.into_box();
    let status = match object.ended() {
        Some(ended) => status_of(ended, hop),
        None => 0,
    };
    leave(object);
    status
}

/// The request of a hop.
#[unsafe(no_mangle)]
pub extern "C" fn mx_outcome_request(outcome: Handle, hop: u32, from: u64, out: &mut [u8]) -> u64
    ensures { MatchOption (ended_of outcome.content) ((result ≡ 0) × (out.new ≡ out.old)) (λ o. IsCopiedFrom (request_at o hop) from out.old out.new result) }
{
    // proof: the type of the links
    name_link::<HostLink>();
    let object = outcome.into_box();
    let copied = match object.ended() {
        Some(ended) => ended.read_request(hop as usize, from, out),
        None => 0,
    };
    leave(object);
    copied as u64
}

/// The heads of a hop's response.
#[unsafe(no_mangle)]
pub extern "C" fn mx_outcome_heads(outcome: Handle, hop: u32, from: u64, out: &mut [u8]) -> u64
    ensures { MatchOption (ended_of outcome.content) ((result ≡ 0) × (out.new ≡ out.old)) (λ o. AreHeadsCopied o hop from out.old out.new result) }
{
    // proof: the type of the links
    name_link::<HostLink>();
    let object = outcome.into_box();
    let copied = match object.ended() {
        Some(ended) => ended.read_heads(hop as usize, from, out),
        None => 0,
    };
    leave(object);
    copied as u64
}

/// All bytes of a hop's response.
#[unsafe(no_mangle)]
pub extern "C" fn mx_outcome_wire(outcome: Handle, hop: u32, from: u64, out: &mut [u8]) -> u64
    ensures { MatchOption (ended_of outcome.content) ((result ≡ 0) × (out.new ≡ out.old)) (λ o. IsCopiedFrom (wire_at o hop) from out.old out.new result) }
{
    // proof: the type of the links
    name_link::<HostLink>();
    let object = outcome.into_box();
    let copied = match object.ended() {
        Some(ended) => ended.read_wire(hop as usize, from, out),
        None => 0,
    };
    leave(object);
    copied as u64
}

/// The body.
#[unsafe(no_mangle)]
pub extern "C" fn mx_outcome_body(outcome: Handle, from: u64, out: &mut [u8]) -> u64
    ensures { IsCopiedFrom (option_map body_of (ended_of outcome.content)) from out.old out.new result }
{
    // proof: the type of the links
    name_link::<HostLink>();
    let mut object = outcome.into_box();
    let copied = object.read_body(from, out);
    leave(object);
    copied as u64
}

/// Tells where a part of the body lies, and how long it is.
#[unsafe(no_mangle)]
pub extern "C" fn mx_outcome_part(
    outcome: Handle,
    part: u32,
    at: &mut *const u8,
    len: &mut u64,
) -> u32
    ensures { MatchOption (option_and_then (λ o. part_at o part) (ended_of outcome.content)) ((result ≡ 111) × (len.new ≡ len.old)) (λ bytes. (result ≡ 0) × (len.new ≡ length bytes)) }
{
    // proof: the type of the links
    name_link::<HostLink>();
    let object = outcome.into_box();
    let code = match object.part(part) {
        Some(bytes) => {
            *at = pointer_to(bytes);
            *len = bytes.len() as u64;
            OK
        }
        None => EMPTY,
    };
    leave(object);
    code
}

/// Ends an outcome.
#[unsafe(no_mangle)]
pub extern "C" fn mx_outcome_close(outcome: Handle) {
    // proof: the type of the links
    name_link::<HostLink>();
    let _object = outcome.into_box();
}
