//! A control core whose calls are refused memory. One that was is made again, and has then to answer as if it had been the first; only then
//! does the test fail, by a text of its own. Without a refusal it passes. Which appends of its log may be refused is tried in `appends`.

use crate::sample::{CodeEnding, NumberedWork, SEAT};
use mx_journal::{AddReply, Control, RemoveReply, VecLog, WakeupReply};
use mx_types::{Event, HandleId, OutOfMemory, Ticket, What};
use std::alloc::Global;
use std::test::Fail;

/// What a test ends with in which a call was refused memory.
const AGAIN: &str = "memory was refused, and the call answered when it was made again";

/// The end of a test, in which memory was refused at a call or not.
pub fn end(is_refused: bool) -> Result<(), Fail> {
    if is_refused {
        return Err(AGAIN.into());
    }
    Ok(())
}

// A control state, made again where memory was refused; and whether it was.
fn control(alloc: Global) -> Result<(Control<NumberedWork, CodeEnding>, bool), OutOfMemory> {
    match Control::new(alloc, 64) {
        Ok(control) => Ok((control, false)),
        Err(OutOfMemory) => Ok((Control::new(alloc, 64)?, true)),
    }
}

// Adds a handle, again where memory was refused: its ticket, and whether it was.
fn add(
    control: &mut Control<NumberedWork, CodeEnding>,
    log: &mut VecLog,
    handle: HandleId,
) -> (Option<Ticket>, bool) {
    let job = NumberedWork { number: handle.0 };
    match control.add(log, SEAT, handle, job) {
        AddReply::Added(ticket) => (Some(ticket), false),
        AddReply::OutOfMemory(job) => match control.add(log, SEAT, handle, job) {
            AddReply::Added(ticket) => (Some(ticket), true),
            _ => (None, true),
        },
        _ => (None, false),
    }
}

// Makes four events, of which the first may be refused memory: whether all were made, and whether memory was refused.
fn make_four(control: &mut Control<NumberedWork, CodeEnding>, log: &mut VecLog) -> (bool, bool) {
    let (first, is_refused) = add(control, log, HandleId(7));
    let (second, _) = add(control, log, HandleId(8));
    let woken = matches!(control.wakeup(log, SEAT), WakeupReply::Ok);
    let removed = matches!(control.remove(log, SEAT, HandleId(8)), RemoveReply::Removed);
    let tickets = (first, second) == (Some(Ticket(0)), Some(Ticket(1)));
    (tickets && woken && removed, is_refused)
}

// What is kept of those, found out again where memory was refused; and whether it was.
fn kept(
    alloc: Global,
    control: &Control<NumberedWork, CodeEnding>,
) -> Result<(Vec<Event>, bool), OutOfMemory> {
    match control.kept(alloc) {
        Ok(kept) => Ok((kept, false)),
        Err(OutOfMemory) => Ok((control.kept(alloc)?, true)),
    }
}

static KEPT: [Event; 1] = [Event {
    who: SEAT,
    what: What::Added(HandleId(7), Ticket(0)),
}];

// Whether four events are made and then kept as they should be, and whether memory was refused.
fn makes_and_keeps(
    alloc: Global,
    control: &mut Control<NumberedWork, CodeEnding>,
) -> Result<(bool, bool), OutOfMemory> {
    let mut log = VecLog::new(alloc);
    let (are_made, at_an_event) = make_four(control, &mut log);
    drop(log);
    let (kept, at_last) = kept(alloc, control)?;
    let are_kept = kept.as_slice() == KEPT.as_slice();
    drop(kept);
    Ok((are_made && are_kept, at_an_event || at_last))
}

#[test]
fn a_control_state_is_made_again(rt: HostRuntime) -> Result<(), Fail> {
    let (mut control, at_first) = control(rt.alloc())?;
    let kept = makes_and_keeps(rt.alloc(), &mut control);
    drop(control);
    let (are_right, at_last) = kept?;
    if !are_right {
        return Err("other events".into());
    }
    end(at_first || at_last)
}
