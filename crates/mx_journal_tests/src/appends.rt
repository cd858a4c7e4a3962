//! Out of memory: a log that refuses one append, over calls that each make an event; beside it, what the executable definitions of
//! `mx_journal::definitions` read off that log.

use crate::caller::{Caller, Said, Step};
use crate::sample::{CodeEnding, NumberedWork, SEAT, verdict};
use mx_journal::{Control, Log, definitions};
use mx_types::{Code, Event, HandleId, OutOfMemory, State, Ticket};
use std::alloc::Global;
use std::test::Fail;

/// Each of these calls makes an event. A claim is made beside each addition.
static SCRIPT: [(Step, Said); 14] = [
    (Step::Add(7, 7), Said::Added(0)),
    (Step::Add(9, 9), Said::Added(1)),
    (Step::Pause(7), Said::Changed),
    (Step::Unpause(7), Said::Changed),
    (Step::Pause(9), Said::Changed),
    (Step::Wakeup, Said::Ok),
    (Step::Finish(Code::Ok), Said::Recorded),
    (Step::Finish(Code::Ok), Said::Recorded),
    (Step::Read, Said::Message(9, 1, Code::Ok, 1)),
    (Step::Remove(9), Said::Removed),
    (Step::Add(9, 9), Said::Added(2)),
    (Step::Read, Said::Message(7, 0, Code::Ok, 0)),
    (Step::Wakeup, Said::Ok),
    (Step::Remove(7), Said::Removed),
];

// Whether as many run as are read off the log, the seat has made as many calls, and a reader at 5 is woken just where one is there.
fn numbers_agree(
    alloc: Global,
    control: &Control<NumberedWork, CodeEnding>,
    events: &[Event],
) -> bool {
    match definitions::running(alloc, events) {
        Ok(running) => {
            (control.running() as usize == running.len())
                & (control.made(SEAT) as usize == definitions::made(events, SEAT))
                & (control.poll_ready(5) == definitions::is_ready(5, events))
        }
        Err(OutOfMemory) => false,
    }
}

// Whether the states of handles 7 and 9 are those that are read off the log.
fn states_agree(
    alloc: Global,
    control: &Control<NumberedWork, CodeEnding>,
    events: &[Event],
) -> bool {
    let mut agree = true;
    for handle in [HandleId(7), HandleId(9)] {
        let told = definitions::state_of(alloc, events, handle);
        agree = (told == Ok(control.state(handle))) & agree;
    }
    agree
}

// Whether the looks of the first three tickets are those that are read off the log.
fn looks_agree(
    alloc: Global,
    control: &Control<NumberedWork, CodeEnding>,
    events: &[Event],
) -> bool {
    let mut agree = true;
    for ticket in 0..3 {
        let told = definitions::look_of(alloc, events, Ticket(ticket));
        agree = (told == Ok(control.look(Ticket(ticket)))) & agree;
    }
    agree
}

fn are_handles(handles: &[HandleId], added: &[(HandleId, Ticket)]) -> bool {
    if handles.len() != added.len() {
        return false;
    }
    for at in 0..added.len() {
        if handles[at] != added[at].0 {
            return false;
        }
    }
    true
}

fn are_tickets(tickets: &[Ticket], waiting: &[(Ticket, Code, u32)]) -> bool {
    if tickets.len() != waiting.len() {
        return false;
    }
    for at in 0..waiting.len() {
        if tickets[at] != waiting[at].0 {
            return false;
        }
    }
    true
}

// Whether the core lists the handles that the executable definitions find added.
fn handles_agree(
    alloc: Global,
    control: &Control<NumberedWork, CodeEnding>,
    events: &[Event],
) -> bool {
    match definitions::added(alloc, events) {
        Ok(added) => are_handles(control.handles().as_slice(), added.as_slice()),
        Err(OutOfMemory) => false,
    }
}

// Whether the core lists the tickets of the messages that the executable definitions find waiting.
fn messages_agree(
    alloc: Global,
    control: &Control<NumberedWork, CodeEnding>,
    events: &[Event],
) -> bool {
    match definitions::waiting(alloc, events) {
        Ok(waiting) => are_tickets(control.waiting(), waiting.as_slice()),
        Err(OutOfMemory) => false,
    }
}

// Whether the core answers what the executable definitions read off its log. Where these find no memory it doesn't.
fn agrees(alloc: Global, control: &Control<NumberedWork, CodeEnding>, events: &[Event]) -> bool {
    (definitions::is_legal(alloc, events) == Ok(true))
        & numbers_agree(alloc, control, events)
        & states_agree(alloc, control, events)
        & looks_agree(alloc, control, events)
        & handles_agree(alloc, control, events)
        & messages_agree(alloc, control, events)
}

// Whether these are added, claims are out or not, and there are so many events.
fn is_as_before(caller: &Caller, handles: &[HandleId], is_out: bool, events: usize) -> bool {
    (caller.control.handles().as_slice() == handles)
        & (caller.control.claim_out() == is_out)
        & (caller.log.list.events().len() == events)
}

// Makes a call after so many events, once more where it was refused memory, and nothing changed then: what it answers, and whether it was
// refused.
fn make_again(
    alloc: Global,
    caller: &mut Caller,
    step: Step,
    handles: &[HandleId],
    events: usize,
) -> (Said, bool) {
    let is_out = caller.control.claim_out();
    let said = caller.makes(alloc, step);
    if !matches!(said, Said::OutOfMemory) {
        return (said, false);
    }
    if !is_as_before(caller, handles, is_out, events) {
        return (Said::Else, true);
    }
    (caller.makes(alloc, step), true)
}

// The same, of handles that are added now.
fn make(alloc: Global, caller: &mut Caller, step: Step, events: usize) -> (Said, bool) {
    let before = caller.control.handles();
    make_again(alloc, caller, step, before.as_slice(), events)
}

// Whether a call, the one with this number, answers what it is to answer, and the core then what is read off its log. It is refused memory
// just where it has the number of the append that the log refuses.
fn plays_call(
    alloc: Global,
    caller: &mut Caller,
    at: usize,
    call: (Step, Said),
    refused: u32,
) -> bool {
    let (step, said) = call;
    let (told, is_refused) = make(alloc, caller, step, at);
    let is_told = (told == said)
        & (is_refused == (at == refused as usize))
        & (caller.control.len() as usize == at.wrapping_add(1));
    if matches!(step, Step::Add(..)) {
        caller.makes(alloc, Step::Claim);
    }
    is_told & agrees(alloc, &caller.control, caller.log.list.events())
}

// The first call that answers otherwise.
fn plays_all(alloc: Global, caller: &mut Caller, refused: u32) -> Option<usize> {
    for at in 0..SCRIPT.len() {
        if !plays_call(alloc, caller, at, SCRIPT[at], refused) {
            return Some(at);
        }
    }
    let nine = caller.control.state(HandleId(9));
    let is_so = (nine == State::Running(Ticket(2))) & (caller.control.made(SEAT) == 12);
    if is_so { None } else { Some(14) }
}

// The same of a new core, with a log that refuses its append of this number.
fn plays(alloc: Global, refused: u32) -> Option<usize> {
    match Caller::new(alloc, 64, 0, Some(refused)) {
        Ok(mut caller) => {
            let wrong = plays_all(alloc, &mut caller, refused);
            drop(caller);
            wrong
        }
        Err(OutOfMemory) => Some(0),
    }
}

// Of each append that may be refused: fails with the first call that answers otherwise.
fn play_each(alloc: Global) -> Result<(), Fail> {
    for refused in 0..15 {
        verdict("a_refused_log_changes_nothing", plays(alloc, refused))?;
    }
    Ok(())
}

/// A refused append changes nothing, and the core answers at each step what is read off its log.
#[test]
fn a_refused_log_changes_nothing(rt: HostRuntime) -> Result<(), Fail> {
    play_each(rt.alloc())
}
