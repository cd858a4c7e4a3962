//! Rows of calls, each with what it answers: work that is given back, handles that are removed (curl_multi_remove_handle(3)), and old
//! history that is retired.

use crate::caller::{Caller, Said, Step};
use crate::sample::verdict;
use mx_types::{Code, GREATEST_TICKET, HandleId, Look, OutOfMemory, State, Ticket, What};
use std::alloc::Global;
use std::test::Fail;

type Part = &'static [(Step, Said)];

/// Handle 7 with work 70, and handle 8 with work 80.
const TWO_ADDED: Part = &[
    (Step::Add(7, 70), Said::Added(0)),
    (Step::Add(8, 80), Said::Added(1)),
];

/// Two are claimed, and given back in the other order: the next claims go by ticket.
const BY_TICKET: Part = &[
    (Step::Claim, Said::Claimed(0, 70)),
    (Step::Claim, Said::Claimed(1, 80)),
    (Step::Next, Said::NoClaim),
    (Step::GiveBack, Said::Back),
    (Step::GiveBack, Said::Back),
    (Step::Events, Said::Events(2, 2)),
    (Step::Next, Said::Claimed(0, 70)),
    (Step::Claim, Said::Claimed(1, 80)),
    (Step::Finish(Code::Ok), Said::Recorded),
];

/// After the handle's removal the work is stale, and nothing changes then.
const BACK_WHEN_REMOVED: Part = &[
    (Step::Claim, Said::Claimed(0, 70)),
    (Step::Remove(7), Said::Removed),
    (Step::GiveBack, Said::StaleWork(70)),
    (Step::Events, Said::Events(3, 3)),
    (Step::Next, Said::Claimed(1, 80)),
    (Step::Next, Said::NoClaim),
];

/// A paused transfer's work goes back to its place, too, and is claimed from there while it is paused.
const BACK_WHILE_PAUSED: Part = &[
    (Step::Claim, Said::Claimed(0, 70)),
    (Step::Pause(7), Said::Changed),
    (Step::GiveBack, Said::Back),
    (Step::Next, Said::Claimed(0, 70)),
];

/// The next claim is the first, as if there had been none before it.
const NO_TRACE: Part = &[
    (Step::Undo, Said::Undone),
    (Step::Next, Said::Claimed(0, 70)),
];

const ADDED: Part = &[(Step::Add(7, 70), Said::Added(0))];

const PAUSED: Part = &[(Step::Pause(7), Said::Changed)];

const CLAIMED: Part = &[(Step::Claim, Said::Claimed(0, 70))];

const DONE: Part = &[(Step::Finish(Code::Ok), Said::Recorded)];

const READ: Part = &[(Step::Read, Said::Message(7, 0, Code::Ok, 0))];

/// The handle is removed, and nothing of it is left.
const REMOVED: Part = &[
    (Step::Remove(7), Said::Removed),
    (Step::Look(0), Said::Look(Look::Gone)),
    (Step::State(7), Said::State(State::NotAdded)),
    (Step::Read, Said::Empty),
    (Step::Next, Said::NoClaim),
];

/// A claim that is held hands back what it is given.
const STALE_END: Part = &[(
    Step::Finish(Code::PartialFile),
    Said::StaleEnd(Code::PartialFile),
)];

const STALE_WORK: Part = &[(Step::GiveBack, Said::StaleWork(70))];

const TWO_EVENTS: Part = &[(Step::Events, Said::Events(2, 2))];

const THREE_EVENTS: Part = &[(Step::Events, Said::Events(3, 3))];

const FOUR_EVENTS: Part = &[(Step::Events, Said::Events(4, 4))];

/// The handle is added as if it had never been, but for the next ticket.
const AGAIN: Part = &[
    (Step::Add(7, 80), Said::Added(1)),
    (Step::State(7), Said::State(State::Running(Ticket(1)))),
    (Step::Look(0), Said::Look(Look::Gone)),
    (Step::Next, Said::Claimed(1, 80)),
];

/// Of three additions the second is removed; the first is done and unread, and the third is paused, with its work back in the queue.
const MIXED: Part = &[
    (Step::Add(7, 7), Said::Added(0)),
    (Step::Claim, Said::Claimed(0, 7)),
    (Step::Finish(Code::Ok), Said::Recorded),
    (Step::Add(8, 8), Said::Added(1)),
    (Step::Claim, Said::Claimed(1, 8)),
    (Step::Finish(Code::Ok), Said::Recorded),
    (Step::Wakeup, Said::Ok),
    (Step::Add(9, 9), Said::Added(2)),
    (Step::Claim, Said::Claimed(2, 9)),
    (Step::Pause(9), Said::Changed),
    (Step::Remove(8), Said::Removed),
    (Step::Retire, Said::ClaimOut),
    (Step::GiveBack, Said::Back),
];

/// What is seen of that, before it is retired and after.
const SEEN: Part = &[
    (Step::Running, Said::Count(1)),
    (Step::Waiting, Said::First(1, Some(Ticket(0)))),
    (
        Step::State(7),
        Said::State(State::Done(Ticket(0), Code::Ok)),
    ),
    (Step::State(8), Said::State(State::NotAdded)),
    (Step::State(9), Said::State(State::Paused(Ticket(2)))),
];

const KEPT: &[What] = &[
    What::Added(HandleId(7), Ticket(0)),
    What::Done(Ticket(0), Code::Ok, 0),
    What::Added(HandleId(9), Ticket(2)),
    What::Paused(Ticket(2)),
];

/// None of six calls of the seat is left in the journal.
const RETIRED: Part = &[
    (Step::Made, Said::Count(6)),
    (Step::RetireTo(KEPT), Said::Retired(4)),
    (Step::Made, Said::Count(0)),
];

/// The message of the first is there, and the work of the third, which is claimed where a fourth is added.
const BEHIND: Part = &[
    (Step::Read, Said::Message(7, 0, Code::Ok, 0)),
    (Step::Add(8, 8), Said::Added(3)),
    (Step::Claim, Said::Claimed(2, 9)),
    (Step::Finish(Code::Ok), Said::Recorded),
    (Step::Made, Said::Count(2)),
    (
        Step::RetireAndSee(9),
        Said::State(State::Done(Ticket(2), Code::Ok)),
    ),
];

/// A history of 8 events that is full of removed handles' events. After retiring the next ticket is given, and a claim that is out blocks
/// the second retiring.
const SMALL: Part = &[
    (Step::Add(1, 1), Said::Added(0)),
    (Step::Claim, Said::Claimed(0, 1)),
    (Step::Finish(Code::Ok), Said::Recorded),
    (Step::Read, Said::Message(1, 0, Code::Ok, 0)),
    (Step::Remove(1), Said::Removed),
    (Step::Wakeup, Said::Ok),
    (Step::Add(2, 2), Said::HistoryFull),
    (Step::Retire, Said::Retired(0)),
    (Step::Add(2, 2), Said::Added(1)),
    (Step::Claim, Said::Claimed(1, 2)),
    (Step::Retire, Said::ClaimOut),
    (Step::Finish(Code::PartialFile), Said::Recorded),
    (Step::Retire, Said::Retired(2)),
    (Step::Poll(2), Said::Ready(false)),
    (Step::Read, Said::Message(2, 1, Code::PartialFile, 0)),
    (Step::Read, Said::Empty),
    (
        Step::State(2),
        Said::State(State::Read(Ticket(1), Code::PartialFile)),
    ),
];

/// The greatest ticket is given, and none after it, retired or not.
const LAST: Part = &[
    (Step::Add(1, 1), Said::Added(GREATEST_TICKET)),
    (Step::Claim, Said::Claimed(GREATEST_TICKET, 1)),
    (Step::Add(1, 1), Said::AddedAlready),
    (Step::Remove(1), Said::Removed),
    (Step::Add(2, 2), Said::TicketsSpent),
    (Step::GiveBack, Said::StaleWork(1)),
    (Step::Retire, Said::Retired(0)),
    (Step::Add(2, 2), Said::TicketsSpent),
];

const NONE_LEFT: Part = &[(Step::Add(1, 1), Said::TicketsSpent)];

/// A core of so many events that begins with this ticket, and the calls on it.
#[derive(Clone, Copy)]
struct Row {
    name: &'static str,
    history: u32,
    first: u32,
    parts: &'static [Part],
}

static ROWS: [Row; 18] = [
    // rule core-requeued-work
    Row {
        name: "given_back_work_is_claimed_by_ticket",
        history: 64,
        first: 0,
        parts: &[TWO_ADDED, BY_TICKET],
    },
    Row {
        name: "given_back_work_of_a_removed_handle_is_stale",
        history: 64,
        first: 0,
        parts: &[TWO_ADDED, BACK_WHEN_REMOVED],
    },
    Row {
        name: "given_back_work_may_be_paused",
        history: 64,
        first: 0,
        parts: &[TWO_ADDED, BACK_WHILE_PAUSED],
    },
    Row {
        name: "a_claim_that_is_given_back_left_no_trace",
        history: 64,
        first: 0,
        parts: &[TWO_ADDED, NO_TRACE],
    },
    Row {
        name: "removed_in_the_queue",
        history: 64,
        first: 0,
        parts: &[ADDED, REMOVED, TWO_EVENTS, AGAIN],
    },
    Row {
        name: "removed_while_paused",
        history: 64,
        first: 0,
        parts: &[ADDED, PAUSED, REMOVED, THREE_EVENTS, AGAIN],
    },
    // rule core-stale-completion
    Row {
        name: "claimed_removed_and_ended",
        history: 64,
        first: 0,
        parts: &[ADDED, CLAIMED, REMOVED, STALE_END, TWO_EVENTS, AGAIN],
    },
    // rule core-requeued-work
    Row {
        name: "claimed_removed_and_given_back",
        history: 64,
        first: 0,
        parts: &[ADDED, CLAIMED, REMOVED, STALE_WORK, TWO_EVENTS, AGAIN],
    },
    Row {
        name: "claimed_paused_removed_and_ended",
        history: 64,
        first: 0,
        parts: &[
            ADDED,
            CLAIMED,
            PAUSED,
            REMOVED,
            STALE_END,
            THREE_EVENTS,
            AGAIN,
        ],
    },
    Row {
        name: "claimed_paused_removed_and_given_back",
        history: 64,
        first: 0,
        parts: &[
            ADDED,
            CLAIMED,
            PAUSED,
            REMOVED,
            STALE_WORK,
            THREE_EVENTS,
            AGAIN,
        ],
    },
    Row {
        name: "paused_claimed_removed_and_ended",
        history: 64,
        first: 0,
        parts: &[
            ADDED,
            PAUSED,
            CLAIMED,
            REMOVED,
            STALE_END,
            THREE_EVENTS,
            AGAIN,
        ],
    },
    Row {
        name: "paused_claimed_removed_and_given_back",
        history: 64,
        first: 0,
        parts: &[
            ADDED,
            PAUSED,
            CLAIMED,
            REMOVED,
            STALE_WORK,
            THREE_EVENTS,
            AGAIN,
        ],
    },
    // rule core-done-stays-added
    Row {
        name: "removed_when_done",
        history: 64,
        first: 0,
        parts: &[ADDED, CLAIMED, DONE, REMOVED, THREE_EVENTS, AGAIN],
    },
    // rule core-done-stays-added
    Row {
        name: "removed_when_read",
        history: 64,
        first: 0,
        parts: &[ADDED, CLAIMED, DONE, READ, REMOVED, FOUR_EVENTS, AGAIN],
    },
    // rule core-retire-keeps
    Row {
        name: "what_is_added_is_kept",
        history: 64,
        first: 0,
        parts: &[MIXED, SEEN, RETIRED, SEEN, BEHIND],
    },
    // rule core-tickets
    // rule core-retire-claims
    Row {
        name: "a_small_history_is_retired_and_filled_again",
        history: 8,
        first: 0,
        parts: &[SMALL],
    },
    // rule core-tickets
    Row {
        name: "no_ticket_is_given_behind_the_greatest",
        history: 64,
        first: GREATEST_TICKET,
        parts: &[LAST],
    },
    Row {
        name: "no_ticket_is_left",
        history: 64,
        first: GREATEST_TICKET + 1,
        parts: &[NONE_LEFT],
    },
];

// The first call that answers otherwise, after so many.
fn plays_part(alloc: Global, caller: &mut Caller, part: Part, behind: usize) -> Option<usize> {
    for at in 0..part.len() {
        let (step, said) = part[at];
        if caller.makes(alloc, step) != said {
            return Some(behind.wrapping_add(at));
        }
    }
    None
}

// The first call of these parts that answers otherwise.
fn plays_parts(alloc: Global, caller: &mut Caller, parts: &[Part]) -> Option<usize> {
    let mut behind = 0usize;
    for part in parts {
        let wrong = plays_part(alloc, caller, *part, behind);
        if wrong.is_some() {
            return wrong;
        }
        behind = behind.wrapping_add(part.len());
    }
    None
}

// The same of a row.
fn plays(alloc: Global, row: &Row) -> Option<usize> {
    // One of two, which the prover knows for numbers of events.
    let history = if row.history == 8 { 8 } else { 64 };
    match Caller::new(alloc, history, row.first, None) {
        Ok(mut caller) => {
            let wrong = plays_parts(alloc, &mut caller, row.parts);
            drop(caller);
            wrong
        }
        Err(OutOfMemory) => Some(0),
    }
}

fn play_each(alloc: Global) -> Result<(), Fail> {
    for row in &ROWS {
        verdict(row.name, plays(alloc, row))?;
    }
    Ok(())
}

/// Each call of each row answers what it is to answer.
#[test]
fn calls_answer_as_their_rows_say(rt: HostRuntime) -> Result<(), Fail> {
    play_each(rt.alloc())
}
