//! What the executable definitions of `mx_journal::definitions` say of lists of events.

use crate::sample::SEAT;
use mx_journal::definitions;
use mx_types::{Code, Event, HandleId, OutOfMemory, State, Ticket, What};
use std::alloc::Global;
use std::test::Fail;

const ADDED: Event = Event {
    who: SEAT,
    what: What::Added(HandleId(7), Ticket(0)),
};

const AGAIN: Event = Event {
    who: SEAT,
    what: What::Added(HandleId(7), Ticket(1)),
};

const NUMBERED_AGAIN: Event = Event {
    who: SEAT,
    what: What::Added(HandleId(8), Ticket(0)),
};

const EIGHT: Event = Event {
    who: SEAT,
    what: What::Added(HandleId(8), Ticket(1)),
};

const NINE: Event = Event {
    who: SEAT,
    what: What::Added(HandleId(9), Ticket(2)),
};

const PAUSED: Event = Event {
    who: SEAT,
    what: What::Paused(Ticket(0)),
};

const RESUMED: Event = Event {
    who: SEAT,
    what: What::Resumed(Ticket(0)),
};

const DONE: Event = Event {
    who: SEAT,
    what: What::Done(Ticket(0), Code::Ok, 3),
};

const READ: Event = Event {
    who: SEAT,
    what: What::Read(Ticket(0)),
};

const REMOVED: Event = Event {
    who: SEAT,
    what: What::Removed(HandleId(7), Ticket(0)),
};

const WHOLE: &[Event] = &[ADDED, PAUSED, RESUMED, DONE, READ, REMOVED, AGAIN];

/// Additions 0 and 1, the end, the reading and the removal of the first, and addition 2.
const THREE: &[Event] = &[ADDED, EIGHT, DONE, READ, REMOVED, NINE];

/// What is said of a list.
enum Fact {
    /// Whether it is a history of a multi handle.
    Legal(bool),
    Beyond(u64),
    /// The first message that waits, and the first ticket that is paused.
    First(Option<(Ticket, Code, u32)>, Option<Ticket>),
    /// What is due.
    Due(u64),
    /// Whether 12 events have room for so many more than are due.
    Room(u32, bool),
    /// The state of handle 7.
    Seven(State),
    /// The slot of ticket 0, and the tickets that have slots, with these.
    Slots(Option<u8>, &'static [(Ticket, u8)]),
}

/// A name, a list, how many events of it are looked at, and what is said of these.
struct Row(&'static str, &'static [Event], usize, Fact);

const MESSAGE: Option<(Ticket, Code, u32)> = Some((Ticket(0), Code::Ok, 3));

static ROWS: [Row; 21] = [
    Row("a_whole_history", WHOLE, 7, Fact::Legal(true)),
    Row("added_twice", &[ADDED, AGAIN], 2, Fact::Legal(false)),
    Row(
        "a_ticket_twice",
        &[ADDED, NUMBERED_AGAIN],
        2,
        Fact::Legal(false),
    ),
    Row("resumed_unpaused", &[ADDED, RESUMED], 2, Fact::Legal(false)),
    Row(
        "paused_twice",
        &[ADDED, PAUSED, PAUSED],
        3,
        Fact::Legal(false),
    ),
    Row("read_before_the_end", &[ADDED, READ], 2, Fact::Legal(false)),
    Row("two_ends", &[ADDED, DONE, DONE], 3, Fact::Legal(false)),
    Row(
        "an_end_behind_a_removal",
        &[ADDED, REMOVED, DONE],
        3,
        Fact::Legal(false),
    ),
    Row("beyond_all_tickets", WHOLE, 7, Fact::Beyond(2)),
    Row("a_message", &[ADDED, DONE], 2, Fact::First(MESSAGE, None)),
    Row(
        "a_message_of_what_is_removed",
        &[ADDED, DONE, REMOVED],
        3,
        Fact::First(None, None),
    ),
    Row(
        "a_pause",
        &[ADDED, PAUSED],
        2,
        Fact::First(None, Some(Ticket(0))),
    ),
    Row(
        "a_pause_behind_the_end",
        &[ADDED, PAUSED, DONE],
        3,
        Fact::First(MESSAGE, None),
    ),
    Row("due_of_two_additions", THREE, 2, Fact::Due(6)),
    Row("due_behind_an_end", THREE, 3, Fact::Due(5)),
    Row("due_behind_a_reading", THREE, 4, Fact::Due(4)),
    Row("due_behind_a_removal", THREE, 5, Fact::Due(3)),
    Row("room_for_what_is_due", THREE, 6, Fact::Room(0, true)),
    Row("no_room_for_one_more", THREE, 6, Fact::Room(1, false)),
    Row(
        "before_its_removal",
        THREE,
        4,
        Fact::Seven(State::Read(Ticket(0), Code::Ok)),
    ),
    // rule core-slots
    Row(
        "the_lowest_slot_first",
        THREE,
        6,
        Fact::Slots(None, &[(Ticket(1), 1), (Ticket(2), 0)]),
    ),
];

// Whether the first message that waits is this.
fn is_message(alloc: Global, events: &[Event], message: &Option<(Ticket, Code, u32)>) -> bool {
    match definitions::waiting(alloc, events) {
        Ok(waiting) => waiting.first().copied() == *message,
        Err(OutOfMemory) => false,
    }
}

// Whether the first ticket that is paused is this.
fn is_paused(alloc: Global, events: &[Event], ticket: &Option<Ticket>) -> bool {
    match definitions::paused(alloc, events) {
        Ok(paused) => paused.first().copied() == *ticket,
        Err(OutOfMemory) => false,
    }
}

// Whether the slots are these, and the first is that of ticket 0.
fn are_slots(alloc: Global, events: &[Event], first: Option<u8>, slots: &[(Ticket, u8)]) -> bool {
    match definitions::slots(alloc, events) {
        Ok(told) => {
            (told.as_slice() == slots)
                & (definitions::slot_of(alloc, events, Ticket(0)) == Ok(first))
        }
        Err(OutOfMemory) => false,
    }
}

// Whether this is said. Nothing is where there is no memory.
fn is_said(alloc: Global, events: &[Event], fact: &Fact) -> bool {
    match fact {
        Fact::Legal(is_legal) => definitions::is_legal(alloc, events) == Ok(*is_legal),
        Fact::Beyond(ticket) => definitions::beyond(events) == *ticket,
        Fact::First(message, ticket) => {
            is_message(alloc, events, message) & is_paused(alloc, events, ticket)
        }
        Fact::Due(due) => definitions::due(alloc, events) == Ok(*due),
        Fact::Room(more, is_there) => {
            definitions::has_room(alloc, 12, events, *more) == Ok(*is_there)
        }
        Fact::Seven(state) => definitions::state_of(alloc, events, HandleId(7)) == Ok(*state),
        Fact::Slots(first, slots) => are_slots(alloc, events, *first, *slots),
    }
}

// Fails with the first row of which something else is said.
fn compare_each(alloc: Global) -> Result<(), Fail> {
    for Row(name, list, count, fact) in &ROWS {
        if !is_said(alloc, list.get(..*count).unwrap_or(&[]), fact) {
            return Err((*name).into());
        }
    }
    Ok(())
}

// rule core-slots
/// The executable definitions say of each list what its row says.
#[test]
fn the_definitions_tell_histories(rt: HostRuntime) -> Result<(), Fail> {
    compare_each(rt.alloc())
}
