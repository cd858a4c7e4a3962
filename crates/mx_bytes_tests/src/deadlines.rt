//! Deadlines, by scripts of calls.

use mx_turn::Deadlines;
use mx_types::Ticket;

/// A call of deadlines, and what it answers.
#[derive(Clone, Copy)]
enum DeadlineCall {
    /// Sets the deadline of a ticket.
    Set(Ticket, u64),
    /// Clears it.
    Clear(Ticket),
    /// The first moment.
    Next(Option<u64>),
    /// Takes what is due at a moment.
    Due(u64, &'static [Ticket]),
    /// Whether there is room for a ticket.
    HasRoom(Ticket, bool),
}

/// A script: its name, and the calls.
type Script = (&'static str, &'static [DeadlineCall]);

static SCRIPTS: [Script; 2] = [
    // rule deadline-due
    (
        "due_tickets_come_by_moment_then_ticket",
        &[
            DeadlineCall::Set(Ticket(4), 100),
            DeadlineCall::Set(Ticket(2), 100),
            DeadlineCall::Set(Ticket(9), 50),
            DeadlineCall::Due(49, &[]),
            DeadlineCall::Next(Some(50)),
            DeadlineCall::Due(100, &[Ticket(9), Ticket(2), Ticket(4)]),
            DeadlineCall::Next(None),
        ],
    ),
    // rule deadline-count
    (
        "deadline_is_replaced_and_cleared",
        &[
            DeadlineCall::Set(Ticket(1), 10),
            DeadlineCall::Set(Ticket(2), 20),
            DeadlineCall::Set(Ticket(1), 30),
            DeadlineCall::Next(Some(20)),
            DeadlineCall::Clear(Ticket(2)),
            DeadlineCall::Next(Some(30)),
            DeadlineCall::HasRoom(Ticket(3), true),
            DeadlineCall::Due(30, &[Ticket(1)]),
        ],
    ),
];

/// Sets a deadline, where there is room: whether there is.
fn set(deadlines: &mut Deadlines, ticket: Ticket, moment: u64) -> bool {
    if !deadlines.has_room_for(ticket) {
        return false;
    }
    deadlines.set(ticket, moment);
    true
}

/// Makes a call: whether it answers so.
fn make_call(deadlines: &mut Deadlines, call: DeadlineCall) -> bool {
    match call {
        DeadlineCall::Set(ticket, moment) => set(deadlines, ticket, moment),
        DeadlineCall::Clear(ticket) => {
            deadlines.clear(ticket);
            true
        }
        DeadlineCall::Next(moment) => deadlines.next() == moment,
        DeadlineCall::Due(now, tickets) => deadlines.due(now).as_slice() == tickets,
        DeadlineCall::HasRoom(ticket, has_room) => deadlines.has_room_for(ticket) == has_room,
    }
}

/// Whether a script goes as it should.
fn goes(calls: &[DeadlineCall]) -> bool {
    let mut deadlines = Deadlines::new();
    let mut is_right = true;
    for one in calls {
        is_right = make_call(&mut deadlines, *one) && is_right;
    }
    is_right
}

/// The name of the first script that doesn't.
pub(crate) fn wrong_deadline() -> Option<&'static str> {
    for script in &SCRIPTS {
        if !goes(script.1) {
            return Some(script.0);
        }
    }
    None
}
