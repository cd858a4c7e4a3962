//! What a list of events means, computed from the whole list by plain, slow programs. The contract of each is the definition itself, which
//! the other contracts of this crate use; the table keeps the same event by event.
ghost use Rattle.std.specs.Prelude.{◌≡◌, ◌==◌, ◌<◌, ◌≤◌, ◌&&◌, ◌||◌, if◌then◌else◌, length, map, max, nat_lt, nat_le, not, IfOk, OnOk};
ghost use Rattle.std.specs.List.{filter, find, list_any};
ghost use Rattle.std.specs.Option.{option_to_list};
ghost use Rattle.mx_types.specs.declared.event.Event.{Event};
ghost use Rattle.mx_types.specs.declared.event.What.{What};
ghost use Rattle.mx_types.specs.declared.names.Ticket.{Ticket};
ghost use Rattle.mx_types.specs.declared.names.HandleId.{HandleId};
ghost use Rattle.mx_history.specs.History.{same_handle, same_ticket, addition_of, message_of, wakes, removes, ends, reads, pauses, resumes, occurs, added, waiting, running, paused, past, beyond, retire, only_of, is_of_such, ticket_in, last_is_pause, may_follow, is_legal, has_ticket, same_maker, made_by, missing, due_of, due, has_room, end_by, end_of, phase_of};
ghost use Rattle.mx_history.specs.Answers.{is_ready, look_of, state_of, ticket_of};
ghost use Rattle.mx_history.specs.Slots.{has_slot, lowest_free, slot_of, slots, slots_after};
ghost use Rattle.mx_history.specs.Definitions.{addition_pair, message_parts};

use crate::row::Phase;
use mx_types::{Code, Event, HandleId, Look, MOST_HANDLES, OutOfMemory, State, Ticket, What, Who};
use std::alloc::Global;

fn removes(ticket: Ticket, what: &What) -> bool
    ensures { result ≡ removes ticket what.now }
{
    matches!(what, What::Removed(_, other) if ticket == *other)
}

fn ends(ticket: Ticket, what: &What) -> bool
    ensures { result ≡ ends ticket what.now }
{
    matches!(what, What::Done(other, _, _) if ticket == *other)
}

fn reads(ticket: Ticket, what: &What) -> bool
    ensures { result ≡ reads ticket what.now }
{
    matches!(what, What::Read(other) if ticket == *other)
}

fn pauses(ticket: Ticket, what: &What) -> bool
    ensures { result ≡ pauses ticket what.now }
{
    matches!(what, What::Paused(other) if ticket == *other)
}

fn resumes(ticket: Ticket, what: &What) -> bool
    ensures { result ≡ resumes ticket what.now }
{
    matches!(what, What::Resumed(other) if ticket == *other)
}

/// Whether a poll that waits is to return.
pub fn wakes(what: &What) -> bool
    ensures { result ≡ wakes what.now }
{
    matches!(what, What::Wake | What::Done(..))
}

/// One more than the ticket that an addition was given; 0 for what adds nothing.
pub fn past(what: &What) -> u64
    ensures value { result ≡ past what.now }
    ensures few { result ≤ 4294967296 }
{
    match what {
        What::Added(_, ticket) => ticket.0 as u64 + 1,
        _ => 0,
    }
}

/// Whether an event removes the ticket's addition.
pub fn is_removed(events: &[Event], ticket: Ticket) -> bool
    ensures { result ≡ occurs (removes ticket) events.now }
{
    events.iter().any(|e| removes(ticket, &e.what))
}

/// Whether an event ends the ticket's transfer.
pub fn is_ended(events: &[Event], ticket: Ticket) -> bool
    ensures { result ≡ occurs (ends ticket) events.now }
{
    events.iter().any(|e| ends(ticket, &e.what))
}

/// Whether an event reads the ticket's message.
pub fn is_read(events: &[Event], ticket: Ticket) -> bool
    ensures { result ≡ occurs (reads ticket) events.now }
{
    events.iter().any(|e| reads(ticket, &e.what))
}

/// Whether an event reads the ticket's message, or removes its addition.
pub fn is_taken(events: &[Event], ticket: Ticket) -> bool
    ensures { result ≡ occurs (λ e. reads ticket e || removes ticket e) events.now }
{
    events
        .iter()
        .any(|e| reads(ticket, &e.what) || removes(ticket, &e.what))
}

// Whether the ticket is paused after the event, where it was so before.
fn paused_after(ticket: Ticket, what: &What, paused: bool) -> bool
    ensures { result ≡ (if pauses ticket what.now || resumes ticket what.now then pauses ticket what.now else paused) }
{
    if pauses(ticket, what) {
        return true;
    }
    if resumes(ticket, what) {
        return false;
    }
    paused
}

/// Whether the last pause or resumption of the ticket is a pause.
#[tactic(auto, using(crate::proofs::Defined::last_more))]
pub fn is_last_paused(events: &[Event], ticket: Ticket) -> bool
    ensures { result ≡ last_is_pause ticket events.now }
{
    let mut paused = false;
    for event in events {
        paused = paused_after(ticket, &event.what, paused);
    }
    paused
}

// The addition that an event makes, where no later event removes it.
fn addition_left(what: &What, later: &[Event]) -> Option<(HandleId, Ticket)>
    ensures { option_to_list result ≡ map addition_pair (filter (λ a. not (occurs (removes a.ticket) later.now)) (option_to_list (addition_of what.now))) }
{
    match what {
        What::Added(handle, ticket) => {
            if is_removed(later, *ticket) {
                None
            } else {
                Some((*handle, *ticket))
            }
        }
        _ => None,
    }
}

// The message that an event brings, where no later event reads or removes it.
fn message_left(what: &What, later: &[Event]) -> Option<(Ticket, Code, u32)>
    ensures { option_to_list result ≡ map message_parts (filter (λ m. not (occurs (λ e. reads m.ticket e || removes m.ticket e) later.now)) (option_to_list (message_of what.now))) }
{
    match what {
        What::Done(ticket, code, size) => {
            if is_taken(later, *ticket) {
                None
            } else {
                Some((*ticket, *code, *size))
            }
        }
        _ => None,
    }
}

/// The additions with no later removal, in order: each handle and its ticket.
pub fn added(alloc: Global, events: &[Event]) -> Result<Vec<(HandleId, Ticket)>, OutOfMemory>
    ensures { IfOk result (λ v. v.items ≡ map addition_pair (added events.now)) }
{
    let mut list = Vec::new(alloc);
    for at in 0..events.len() {
        if let Some(addition) = addition_left(&events[at].what, &events[at + 1..]) {
            list.push(addition)?;
        }
    }
    Ok(list)
}

/// The messages with no later reading or removal, in order: each ticket, its code and the length of its body.
pub fn waiting(alloc: Global, events: &[Event]) -> Result<Vec<(Ticket, Code, u32)>, OutOfMemory>
    ensures { IfOk result (λ v. v.items ≡ map message_parts (waiting events.now)) }
{
    let mut list = Vec::new(alloc);
    for at in 0..events.len() {
        if let Some(message) = message_left(&events[at].what, &events[at + 1..]) {
            list.push(message)?;
        }
    }
    Ok(list)
}

/// The tickets that are added, in order.
pub fn tickets(alloc: Global, events: &[Event]) -> Result<Vec<Ticket>, OutOfMemory>
    ensures { IfOk result (λ v. v.items ≡ map (λ a. a.ticket) (added events.now)) }
{
    let additions = added(alloc, events)?;
    let mut list = Vec::new(alloc);
    for addition in additions.iter() {
        list.push(addition.1)?;
    }
    Ok(list)
}

/// The tickets that are added and have not ended, in order.
pub fn running(alloc: Global, events: &[Event]) -> Result<Vec<Ticket>, OutOfMemory>
    ensures { IfOk result (λ v. v.items ≡ running events.now) }
{
    let mut list = tickets(alloc, events)?;
    list.retain(|t| !is_ended(events, *t));
    Ok(list)
}

/// The running tickets that were paused last, in order.
pub fn paused(alloc: Global, events: &[Event]) -> Result<Vec<Ticket>, OutOfMemory>
    ensures { IfOk result (λ v. v.items ≡ paused events.now) }
{
    let mut list = running(alloc, events)?;
    list.retain(|t| is_last_paused(events, *t));
    Ok(list)
}

/// One more than the greatest ticket that an addition was given, or 0 where there is none.
#[tactic(auto, using(crate::proofs::Defined::beyond_next))]
pub fn beyond(events: &[Event]) -> u64
    ensures { result ≡ beyond events.now }
{
    let mut most: u64 = 0;
    for event in events {
        most = greater(most, past(&event.what));
    }
    most
}

/// The greater of two numbers.
pub fn greater(one: u64, other: u64) -> u64
    ensures { result ≡ max one other }
{
    if one < other { other } else { one }
}

fn has_handle(list: &[(HandleId, Ticket)], handle: HandleId) -> bool
    ensures { result ≡ list_any (λ a. same_handle handle a.0) list.now }
{
    list.iter().any(|a| handle == a.0)
}

// Whether a handle may be added under the ticket, where these are added and no greater ticket than before `beyond` was given.
fn may_be_added(list: &[(HandleId, Ticket)], beyond: u64, handle: HandleId, ticket: Ticket) -> bool
    ensures { result ≡ (not (list_any (λ a. same_handle handle a.0) list.now) && nat_lt (length list.now) MOST_HANDLES && nat_le beyond ticket.0) }
{
    if has_handle(list, handle) {
        return false;
    }
    if list.len() >= MOST_HANDLES {
        return false;
    }
    beyond <= ticket.0 as u64
}

fn is_added(list: &[(HandleId, Ticket)], handle: HandleId, ticket: Ticket) -> bool
    ensures { result ≡ list_any (λ a. same_handle handle a.0 && same_ticket ticket a.1) list.now }
{
    list.iter().any(|a| handle == a.0 && ticket == a.1)
}

/// Whether the event is allowed after the events: a multi handle that is at them may make it.
pub fn may_follow(alloc: Global, events: &[Event], what: &What) -> Result<bool, OutOfMemory>
    ensures { IfOk result (λ b. b ≡ may_follow events.now what.now) }
{
    Ok(match what {
        What::Added(handle, ticket) => {
            may_be_added(&added(alloc, events)?, beyond(events), *handle, *ticket)
        }
        What::Removed(handle, ticket) => is_added(&added(alloc, events)?, *handle, *ticket),
        What::Done(ticket, _, _) => has_ticket(&running(alloc, events)?, *ticket),
        What::Read(ticket) => match waiting(alloc, events)?.first() {
            Some(message) => *ticket == message.0,
            None => false,
        },
        What::Paused(ticket) => {
            has_ticket(&running(alloc, events)?, *ticket)
                && !has_ticket(&paused(alloc, events)?, *ticket)
        }
        What::Resumed(ticket) => has_ticket(&paused(alloc, events)?, *ticket),
        What::Wake => true,
    })
}

fn has_ticket(tickets: &[Ticket], ticket: Ticket) -> bool
    ensures { result ≡ has_ticket ticket tickets.now }
{
    tickets.iter().any(|t| ticket == *t)
}

/// Whether the events are a legal history: each may follow those before it.
pub fn is_legal(alloc: Global, events: &[Event]) -> Result<bool, OutOfMemory>
    ensures { IfOk result (λ b. b ≡ is_legal events.now) }
{
    for at in 0..events.len() {
        if !may_follow(alloc, &events[..at], &events[at].what)? {
            return Ok(false);
        }
    }
    Ok(true)
}

/// Whether a Wake or a Done is at or after the mark.
pub fn is_ready(mark: usize, events: &[Event]) -> bool
    ensures { result ≡ is_ready mark events.now }
{
    events.iter().skip(mark).any(|e| wakes(&e.what))
}

/// Whether both are one seat, or one worker.
fn same_maker(one: Who, other: Who) -> bool
    ensures { result ≡ same_maker one other }
{
    match (one, other) {
        (Who::Seat(m), Who::Seat(n)) | (Who::Worker(m), Who::Worker(n)) => m == n,
        _ => false,
    }
}

/// How many of the events the maker made.
pub fn made(events: &[Event], who: Who) -> usize
    ensures { result ≡ made_by who events.now }
{
    events.iter().filter(|e| same_maker(e.who, who)).count()
}

// 1 for an event that has not come, 0 for one that has.
fn missing(came: bool) -> u32
    ensures value { result ≡ (if came then 0 else 1) }
    ensures few { result ≤ 1 }
{
    if came { 0 } else { 1 }
}

/// How many of an end, a reading and a removal the ticket has to come.
pub fn due_of(events: &[Event], ticket: Ticket) -> u32
    ensures value { result ≡ due_of ticket events.now }
    ensures few { result ≤ 3 }
{
    missing(is_ended(events, ticket))
        + missing(is_read(events, ticket))
        + missing(is_removed(events, ticket))
}

/// How many events the added tickets have to come.
#[tactic(auto, using(crate::proofs::Defined::sum_next))]
pub fn due(alloc: Global, events: &[Event]) -> Result<u64, OutOfMemory>
    ensures value { IfOk result (λ n. n ≡ due events.now) }
    ensures few { IfOk result (λ n. n < 9223372036854775808) }
{
    let list = tickets(alloc, events)?;
    let mut due: u64 = 0;
    for ticket in list.iter() {
        due += due_of(events, *ticket) as u64;
    }
    Ok(due)
}

/// Whether a history of so many events at most has room for `more` events beside these and those that are due.
pub fn has_room(
    alloc: Global,
    history: u32,
    events: &[Event],
    more: u32,
) -> Result<bool, OutOfMemory>
    ensures { IfOk result (λ b. b ≡ has_room history events.now more) }
{
    let due = due(alloc, events)?;
    Ok(events.len() as u64 + due + more as u64 <= history as u64)
}

fn has_slot(slots: &[(Ticket, u8)], slot: u8) -> bool
    ensures { result ≡ has_slot slot slots.now }
{
    slots.iter().any(|s| s.1 == slot)
}

/// The lowest of 0 to 255 that is no ticket's slot; 255 where each is one.
pub fn lowest_free(slots: &[(Ticket, u8)]) -> u8
    ensures { result ≡ lowest_free slots.now }
{
    let mut slot: u8 = 0;
    while slot < 255 && has_slot(slots, slot) {
        slot += 1;
    }
    slot
}

// The slots after an event.
fn enter(list: &mut Vec<(Ticket, u8)>, what: &What) -> Result<(), OutOfMemory>
    ensures { OnOk result (list.new.items ≡ slots_after list.old.items what.now) }
{
    match what {
        What::Added(_, ticket) => {
            let slot = lowest_free(list);
            list.push((*ticket, slot))?;
        }
        What::Removed(_, ticket) => list.retain(|s| s.0 != *ticket),
        _ => {}
    }
    Ok(())
}

/// The added tickets with their slots, in order: each takes the lowest that is free at its addition.
#[tactic(auto, using(crate::proofs::Defined::slots_next))]
pub fn slots(alloc: Global, events: &[Event]) -> Result<Vec<(Ticket, u8)>, OutOfMemory>
    ensures { IfOk result (λ v. v.items ≡ slots events.now) }
{
    let mut list = Vec::new(alloc);
    for event in events {
        enter(&mut list, &event.what)?;
    }
    Ok(list)
}

fn find_slot(list: &[(Ticket, u8)], ticket: Ticket) -> Option<(Ticket, u8)>
    ensures { result ≡ find (λ s. same_ticket ticket s.0) list.now }
{
    list.iter().copied().find(|s| ticket == s.0)
}

/// The slot of an added ticket.
pub fn slot_of(alloc: Global, events: &[Event], ticket: Ticket) -> Result<Option<u8>, OutOfMemory>
    ensures { IfOk result (λ o. o ≡ slot_of ticket events.now) }
{
    match find_slot(&slots(alloc, events)?, ticket) {
        None => Ok(None),
        Some(found) => Ok(Some(found.1)),
    }
}

fn find_handle(list: &[(HandleId, Ticket)], handle: HandleId) -> Option<(HandleId, Ticket)>
    ensures { result ≡ find (λ a. same_handle handle a.0) list.now }
{
    list.iter().copied().find(|a| handle == a.0)
}

/// The ticket under which the handle is added.
pub fn ticket_of(
    alloc: Global,
    events: &[Event],
    handle: HandleId,
) -> Result<Option<Ticket>, OutOfMemory>
    ensures { IfOk result (λ o. o ≡ ticket_of handle events.now) }
{
    match find_handle(&added(alloc, events)?, handle) {
        None => Ok(None),
        Some(found) => Ok(Some(found.1)),
    }
}

// The code that the event ends the ticket's transfer with, and whether a later event reads the message.
fn end_by(what: &What, later: &[Event], ticket: Ticket) -> Option<(Code, bool)>
    ensures { result ≡ end_by ticket what.now later.now }
{
    match what {
        What::Done(other, code, _) if ticket == *other => Some((*code, is_read(later, ticket))),
        _ => None,
    }
}

/// The code that the ticket's transfer first ended with, and whether its message was read after that.
pub fn end_of(events: &[Event], ticket: Ticket) -> Option<(Code, bool)>
    ensures { result ≡ end_of ticket events.now }
{
    for at in 0..events.len() {
        if let Some(end) = end_by(&events[at].what, &events[at + 1..], ticket) {
            return Some(end);
        }
    }
    None
}

/// The phase of the ticket's addition.
pub fn phase_of(events: &[Event], ticket: Ticket) -> Phase
    ensures { result ≡ phase_of ticket events.now }
{
    match end_of(events, ticket) {
        Some((code, true)) => Phase::Read(code),
        Some((code, false)) => Phase::Done(code),
        None if is_last_paused(events, ticket) => Phase::Paused,
        None => Phase::Running,
    }
}

/// The state of the handle.
pub fn state_of(alloc: Global, events: &[Event], handle: HandleId) -> Result<State, OutOfMemory>
    ensures { IfOk result (λ s. s ≡ state_of handle events.now) }
{
    Ok(match ticket_of(alloc, events, handle)? {
        None => State::NotAdded,
        Some(ticket) => phase_of(events, ticket).state(ticket),
    })
}

/// What a worker sees of the ticket.
pub fn look_of(alloc: Global, events: &[Event], ticket: Ticket) -> Result<Look, OutOfMemory>
    ensures { IfOk result (λ l. l ≡ look_of ticket events.now) }
{
    if !has_ticket(&running(alloc, events)?, ticket) {
        return Ok(Look::Gone);
    }
    if has_ticket(&paused(alloc, events)?, ticket) {
        return Ok(Look::Paused);
    }
    Ok(Look::Go)
}

// The ticket that the event is of; a Wake is of none.
fn ticket_in(what: &What) -> Option<Ticket>
    ensures { result ≡ ticket_in what.now }
{
    match what {
        What::Added(_, ticket)
        | What::Removed(_, ticket)
        | What::Done(ticket, _, _)
        | What::Read(ticket)
        | What::Paused(ticket)
        | What::Resumed(ticket) => Some(*ticket),
        What::Wake => None,
    }
}

// Whether the event is of one of the tickets.
fn is_of_one(tickets: &[Ticket], what: &What) -> bool
    ensures { result ≡ is_of_such (λ t. has_ticket t tickets.now) what.now }
{
    match ticket_in(what) {
        None => false,
        Some(ticket) => has_ticket(tickets, ticket),
    }
}

/// What retiring keeps: the events of the tickets that are added, in order.
pub fn retire(alloc: Global, events: &[Event]) -> Result<Vec<Event>, OutOfMemory>
    ensures { IfOk result (λ v. v.items ≡ retire events.now) }
{
    let list = tickets(alloc, events)?;
    let mut kept = Vec::new(alloc);
    for event in events {
        if is_of_one(&list, &event.what) {
            kept.push(*event)?;
        }
    }
    Ok(kept)
}
