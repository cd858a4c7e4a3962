//! Scripts of calls on one thread, each with what it answers and how many events the seat has then seen.

use crate::play::{Expected, FailedStep, Script, ScriptStep};
use crate::whole::Whole;
use mx_multi::{HistoryUse, Limits, OpenError, Progress, Refusal};
use mx_types::{Call, Code, HandleId, OutOfMemory, Ticket};
use std::alloc::Global;
use std::sync::Wait;

/// Four seats and a worker's, with a history of 2,048 events.
pub const FOUR_SEATS: Limits = Limits {
    seats: 4,
    workers: 1,
    history: 2048,
    max_connects: 4,
};

/// Three seats and a worker's, with a history of 64 events.
const THREE_SEATS: Limits = Limits {
    seats: 3,
    workers: 1,
    history: 64,
    max_connects: 0,
};

/// One seat and one worker's, with a history of 16 events.
pub const SHORT_HISTORY: Limits = Limits {
    seats: 1,
    workers: 1,
    history: 16,
    max_connects: 0,
};

const ONE: HandleId = HandleId(1);

const TWO: HandleId = HandleId(2);

const THREE: HandleId = HandleId(3);

const FOUR: HandleId = HandleId(4);

const SEVEN: HandleId = HandleId(7);

const FIRST: Ticket = Ticket(0);

const SECOND: Ticket = Ticket(1);

/// What is added is claimed, ended, polled for and read.
const DOCUMENTED: &[ScriptStep] = &[
    ScriptStep::Make(3, Call::Add(ONE), Expected::Added(FIRST), 1),
    ScriptStep::Claim(FIRST),
    ScriptStep::Finish(Code::Ok, 5, 2),
    ScriptStep::Make(3, Call::Poll, Expected::Text("woken"), 2),
    ScriptStep::Make(3, Call::InfoRead, Expected::Message(ONE, FIRST), 3),
];

/// Wake-ups let one poll return, which takes all of them.
const WAKE_UPS: &[ScriptStep] = &[
    ScriptStep::Make(3, Call::Wakeup, Expected::Text("ok"), 1),
    ScriptStep::Make(3, Call::Wakeup, Expected::Text("ok"), 2),
    ScriptStep::Make(3, Call::Poll, Expected::Text("woken"), 2),
    ScriptStep::Make(3, Call::Wakeup, Expected::Text("ok"), 3),
    ScriptStep::Make(3, Call::Poll, Expected::Text("woken"), 3),
];

/// A poll that may wait a millisecond returns where a wake-up has come since the last one, and else says that none had.
const SHORT_POLLS: &[ScriptStep] = &[
    ScriptStep::PollFor(0, false),
    ScriptStep::Make(1, Call::Wakeup, Expected::Text("ok"), 1),
    ScriptStep::PollFor(0, true),
    ScriptStep::PollFor(0, false),
];

/// A transfer that is paused, resumed and done, and what each call says of it.
const PAUSED: &[ScriptStep] = &[
    ScriptStep::Make(3, Call::Add(THREE), Expected::Text("added 0"), 1),
    ScriptStep::Make(3, Call::Pause(THREE), Expected::Text("changed"), 2),
    ScriptStep::Make(3, Call::Pause(THREE), Expected::Text("no-change"), 2),
    ScriptStep::Make(3, Call::State(THREE), Expected::Text("paused 0"), 2),
    ScriptStep::Make(3, Call::Unpause(THREE), Expected::Text("changed"), 3),
    ScriptStep::Make(3, Call::Unpause(THREE), Expected::Text("no-change"), 3),
    ScriptStep::Claim(FIRST),
    ScriptStep::Finish(Code::OperationTimedout, 0, 4),
    ScriptStep::Make(3, Call::Pause(THREE), Expected::Text("not-running"), 4),
    ScriptStep::Make(3, Call::Pause(FOUR), Expected::Text("not-added"), 4),
    ScriptStep::Make(3, Call::State(THREE), Expected::Text("done 0 28"), 4),
    ScriptStep::Make(3, Call::Running, Expected::Text("running 0"), 4),
    ScriptStep::Make(3, Call::Handles, Expected::Text("handles 3"), 4),
    ScriptStep::Make(3, Call::Remove(THREE), Expected::Text("removed"), 5),
];

/// Every call that may be refused memory: an addition, a pause, a resume, a wake-up, an end, a message and a removal.
const EVERY_CALL: &[ScriptStep] = &[
    ScriptStep::Make(3, Call::Add(SEVEN), Expected::Text("added 0"), 1),
    ScriptStep::Make(3, Call::Add(SEVEN), Expected::Text("added-already"), 1),
    ScriptStep::Make(3, Call::Pause(SEVEN), Expected::Text("changed"), 2),
    ScriptStep::Make(3, Call::Unpause(SEVEN), Expected::Text("changed"), 3),
    ScriptStep::Make(3, Call::Wakeup, Expected::Text("ok"), 4),
    ScriptStep::Make(3, Call::Poll, Expected::Text("woken"), 4),
    ScriptStep::Claim(FIRST),
    ScriptStep::Finish(Code::Ok, 5, 5),
    ScriptStep::Make(3, Call::Poll, Expected::Text("woken"), 5),
    ScriptStep::Make(
        3,
        Call::InfoRead,
        Expected::Text("message 7 0 0 5 left 0"),
        6,
    ),
    ScriptStep::Make(3, Call::InfoRead, Expected::Text("empty"), 6),
    ScriptStep::Make(3, Call::Handles, Expected::Text("handles 7"), 6),
    ScriptStep::Make(3, Call::Remove(SEVEN), Expected::Text("removed"), 7),
    ScriptStep::Make(3, Call::Running, Expected::Text("running 0"), 7),
];

/// Two seats add a handle each, meet, and list both; where nothing is removed, the journal stays as it is. A meeting shows each
/// seat what the other has added. A script of reads is run to its end.
const TWO_ADDED: &[ScriptStep] = &[
    ScriptStep::Make(3, Call::Add(ONE), Expected::Text("added 0"), 1),
    ScriptStep::Make(2, Call::Add(TWO), Expected::Text("added 1"), 2),
    ScriptStep::MeetTwo(2),
    ScriptStep::Make(3, Call::Handles, Expected::Text("handles 1 2"), 2),
    ScriptStep::Run(&[Call::Handles, Call::Running, Call::State(TWO)], 2),
    ScriptStep::Make(3, Call::Remove(HandleId(9)), Expected::Text("not-added"), 2),
    ScriptStep::Make(3, Call::Add(THREE), Expected::Text("added 2"), 3),
    ScriptStep::MeetTwo(3),
];

/// A read looks at what is published, not at what its seat has seen: the first seat reads what the second one added.
const READ_ANEW: &[ScriptStep] = &[
    ScriptStep::Make(3, Call::Add(ONE), Expected::Text("added 0"), 1),
    ScriptStep::Make(2, Call::Add(TWO), Expected::Text("added 1"), 2),
    ScriptStep::Make(3, Call::Handles, Expected::Text("handles 1 2"), 2),
    ScriptStep::Make(3, Call::Remove(HandleId(9)), Expected::Text("not-added"), 2),
    ScriptStep::Make(2, Call::Remove(ONE), Expected::Text("removed"), 3),
    ScriptStep::Make(3, Call::Running, Expected::Text("running 1"), 3),
    ScriptStep::Make(3, Call::State(ONE), Expected::Text("not-added"), 3),
];

/// The bytes that were noted for an addition are its own: a newer one of the same handle begins with none.
const PROGRESS: &[ScriptStep] = &[
    ScriptStep::Make(0, Call::Add(ONE), Expected::Text("added 0"), 1),
    ScriptStep::Claim(FIRST),
    ScriptStep::Note(5),
    ScriptStep::Progress(ONE, Progress::Bytes(FIRST, 5)),
    ScriptStep::Make(0, Call::Remove(ONE), Expected::Text("removed"), 2),
    ScriptStep::Make(0, Call::Add(ONE), Expected::Text("added 1"), 3),
    ScriptStep::Progress(ONE, Progress::Bytes(SECOND, 0)),
    ScriptStep::Note(9),
    ScriptStep::Progress(ONE, Progress::Bytes(SECOND, 0)),
    ScriptStep::Claim(SECOND),
    ScriptStep::Note(3),
    ScriptStep::Progress(ONE, Progress::Bytes(SECOND, 3)),
    ScriptStep::Progress(HandleId(8), Progress::NotAdded),
];

/// Work that was given back is claimed by its ticket again; that of a removed handle isn't taken back.
const GIVEN_BACK: &[ScriptStep] = &[
    ScriptStep::Make(3, Call::Add(ONE), Expected::Text("added 0"), 1),
    ScriptStep::Make(3, Call::Add(TWO), Expected::Text("added 1"), 2),
    ScriptStep::Claim(FIRST),
    ScriptStep::Claim(SECOND),
    ScriptStep::GiveBack(true),
    ScriptStep::GiveBack(true),
    ScriptStep::Claim(FIRST),
    ScriptStep::Make(3, Call::Remove(ONE), Expected::Text("removed"), 3),
    ScriptStep::GiveBack(false),
    ScriptStep::Claim(SECOND),
    ScriptStep::Finish(Code::Ok, 2, 4),
    ScriptStep::Make(
        3,
        Call::InfoRead,
        Expected::Text("message 2 1 0 2 left 0"),
        5,
    ),
];

pub static SCRIPTS: [Script<'static>; 9] = [
    // rule multi-out-of-memory
    Script {
        name: "every_call_that_may_find_no_memory",
        limits: FOUR_SEATS,
        steps: EVERY_CALL,
    },
    Script {
        name: "what_is_added_is_ended_and_read",
        limits: FOUR_SEATS,
        steps: DOCUMENTED,
    },
    Script {
        name: "a_poll_takes_all_wake_ups",
        limits: FOUR_SEATS,
        steps: WAKE_UPS,
    },
    Script {
        name: "a_poll_waits_no_longer_than_it_may",
        limits: FOUR_SEATS,
        steps: SHORT_POLLS,
    },
    Script {
        name: "a_transfer_is_paused_and_done",
        limits: FOUR_SEATS,
        steps: PAUSED,
    },
    // rule multi-scripts
    // rule multi-meeting
    Script {
        name: "two_seats_add_a_handle_each",
        limits: FOUR_SEATS,
        steps: TWO_ADDED,
    },
    Script {
        name: "a_read_looks_anew",
        limits: FOUR_SEATS,
        steps: READ_ANEW,
    },
    // rule multi-progress
    Script {
        name: "progress_is_of_the_newest_addition",
        limits: FOUR_SEATS,
        steps: PROGRESS,
    },
    // rule multi-least-ticket
    Script {
        name: "given_back_work_is_claimed_by_its_ticket",
        limits: FOUR_SEATS,
        steps: GIVEN_BACK,
    },
];

/// All seats meet. Then a missing seat blocks retiring, and next a claim that hasn't come back: nothing has changed. Once it is given back,
/// the events of the handles that are added stay, and tickets go on.
const CLAIM_OUT: &[ScriptStep] = &[
    ScriptStep::Make(0, Call::Add(ONE), Expected::Text("added 0"), 1),
    ScriptStep::Make(1, Call::Add(TWO), Expected::Text("added 1"), 2),
    ScriptStep::Make(2, Call::Wakeup, Expected::Text("ok"), 3),
    ScriptStep::MeetAll(3),
    ScriptStep::Make(2, Call::Handles, Expected::Text("handles 1 2"), 3),
    ScriptStep::HinderedWithoutLast(Refusal::SeatsMissing),
    ScriptStep::Claim(Ticket(0)),
    ScriptStep::HinderedWithoutLast(Refusal::SeatsMissing),
    ScriptStep::Hindered(Refusal::ClaimOut),
    ScriptStep::Make(0, Call::Add(ONE), Expected::Text("added-already"), 3),
    ScriptStep::MeetAll(3),
    ScriptStep::GiveBack(true),
    ScriptStep::Retire(Some(2)),
    ScriptStep::Make(2, Call::Handles, Expected::Text("handles 1 2"), 2),
    ScriptStep::Make(1, Call::Add(THREE), Expected::Text("added 2"), 3),
    ScriptStep::Claim(Ticket(0)),
    ScriptStep::Finish(Code::Ok, 5, 4),
    ScriptStep::MeetAll(4),
];

/// An unread message, a pause and the work in the queue stay; what was done and removed is gone.
const KEPT: &[ScriptStep] = &[
    ScriptStep::Make(0, Call::Add(FOUR), Expected::Text("added 0"), 1),
    ScriptStep::Claim(Ticket(0)),
    ScriptStep::Finish(Code::Ok, 9, 2),
    ScriptStep::Make(
        0,
        Call::InfoRead,
        Expected::Text("message 4 0 0 9 left 0"),
        3,
    ),
    ScriptStep::Make(0, Call::Remove(FOUR), Expected::Text("removed"), 4),
    ScriptStep::Make(1, Call::Add(ONE), Expected::Text("added 1"), 5),
    ScriptStep::Claim(Ticket(1)),
    ScriptStep::Finish(Code::OperationTimedout, 7, 6),
    ScriptStep::Make(1, Call::Add(TWO), Expected::Text("added 2"), 7),
    ScriptStep::Make(1, Call::Pause(TWO), Expected::Text("changed"), 8),
    ScriptStep::Make(2, Call::Add(THREE), Expected::Text("added 3"), 9),
    ScriptStep::Make(2, Call::Wakeup, Expected::Text("ok"), 10),
    ScriptStep::Retire(Some(5)),
    ScriptStep::Make(0, Call::Handles, Expected::Text("handles 1 2 3"), 5),
    ScriptStep::Make(0, Call::State(ONE), Expected::Text("done 1 28"), 5),
    ScriptStep::Make(0, Call::State(TWO), Expected::Text("paused 2"), 5),
    ScriptStep::Make(0, Call::State(THREE), Expected::Text("running 3"), 5),
    ScriptStep::Make(0, Call::State(FOUR), Expected::Text("not-added"), 5),
    ScriptStep::Make(1, Call::Running, Expected::Text("running 2"), 5),
    ScriptStep::Make(
        1,
        Call::InfoRead,
        Expected::Text("message 1 1 28 7 left 0"),
        6,
    ),
    ScriptStep::Make(1, Call::InfoRead, Expected::Text("empty"), 6),
    ScriptStep::Make(1, Call::Unpause(TWO), Expected::Text("changed"), 7),
    ScriptStep::Claim(Ticket(2)),
    ScriptStep::Claim(Ticket(3)),
    ScriptStep::Finish(Code::Ok, 3, 8),
    ScriptStep::Make(
        2,
        Call::InfoRead,
        Expected::Text("message 3 3 0 3 left 0"),
        9,
    ),
    ScriptStep::Make(2, Call::Add(FOUR), Expected::Text("added 4"), 10),
    ScriptStep::Finish(Code::Ok, 2, 11),
    ScriptStep::Make(
        2,
        Call::InfoRead,
        Expected::Text("message 2 2 0 2 left 0"),
        12,
    ),
    ScriptStep::Make(2, Call::Remove(TWO), Expected::Text("removed"), 13),
    ScriptStep::Retire(Some(7)),
    ScriptStep::Make(2, Call::Handles, Expected::Text("handles 1 3 4"), 7),
    ScriptStep::Make(2, Call::State(ONE), Expected::Text("read 1 28"), 7),
    ScriptStep::Claim(Ticket(4)),
];

pub static RETIRINGS: [Script<'static>; 2] = [
    // rule multi-retire
    // rule multi-meet-all
    Script {
        name: "a_claim_hinders_until_it_is_back",
        limits: THREE_SEATS,
        steps: CLAIM_OUT,
    },
    // rule multi-retire
    Script {
        name: "what_is_added_stays_as_it_is",
        limits: THREE_SEATS,
        steps: KEPT,
    },
];

// A handle is added, its transfer is ended, and the message is read, after so many events.
fn push_transfer(
    steps: &mut Vec<ScriptStep>,
    handle: HandleId,
    ticket: u32,
    events: u32,
) -> Result<(), OutOfMemory> {
    let ticket = Ticket(ticket);
    let added = events.wrapping_add(1);
    let ended = events.wrapping_add(2);
    let read = events.wrapping_add(3);
    steps.push(ScriptStep::Make(0, Call::Add(handle), Expected::Added(ticket), added))?;
    steps.push(ScriptStep::Claim(ticket))?;
    steps.push(ScriptStep::Finish(Code::Ok, 5, ended))?;
    steps.push(ScriptStep::Make(0, Call::InfoRead, Expected::Message(handle, ticket), read))?;
    Ok(())
}

// Handle 2 is added, ended and removed three times, whose first ticket this is; then the history is full, since a fourth has no room
// beside handle 1; and all is retired but that.
fn push_round(steps: &mut Vec<ScriptStep>, first: u32) -> Result<(), OutOfMemory> {
    for number in 0..3u32 {
        let events = number.wrapping_mul(4).wrapping_add(3);
        push_transfer(steps, TWO, first.wrapping_add(number), events)?;
        let removed = events.wrapping_add(4);
        steps.push(ScriptStep::Make(0, Call::Remove(TWO), Expected::Text("removed"), removed))?;
    }
    steps.push(ScriptStep::Make(0, Call::Add(TWO), Expected::Text("history-full"), 15))?;
    steps.push(ScriptStep::History(HistoryUse {
        events: 15,
        most: 16,
    }))?;
    steps.push(ScriptStep::Retire(Some(3)))?;
    Ok(())
}

/// A history of 16 events that fills up is retired, and goes on: ten times, and no ticket is given again.
pub fn full_history(alloc: Global) -> Result<Vec<ScriptStep>, OutOfMemory> {
    let mut steps = Vec::new(alloc);
    push_transfer(&mut steps, ONE, 0, 0)?;
    for round in 0..10u32 {
        push_round(&mut steps, round.wrapping_mul(3).wrapping_add(1))?;
    }
    Ok(steps)
}

/// 256 additions have the tickets 0 to 255, and the next finds no room.
pub fn full_table(alloc: Global) -> Result<Vec<ScriptStep>, OutOfMemory> {
    let mut steps = Vec::new(alloc);
    for number in 0..256u32 {
        let added = Expected::Added(Ticket(number));
        let cut = number.wrapping_add(1);
        steps.push(ScriptStep::Make(1, Call::Add(HandleId(number)), added, cut))?;
    }
    let none = Expected::Text("table-full");
    steps.push(ScriptStep::Make(1, Call::Add(HandleId(256)), none, 256))?;
    Ok(steps)
}

/// Numbers outside their limits: of seats, of workers' seats, of events and of idle connections.
static BAD_LIMITS: [(u8, u8, u32, u8); 7] = [
    (0, 1, 2048, 4),
    (17, 1, 2048, 4),
    (4, 0, 2048, 4),
    (4, 17, 2048, 4),
    (4, 1, 3, 4),
    (4, 1, 1048577, 4),
    (4, 1, 2048, 65),
];

// Whether these limits are refused as bad. What is opened all the same is closed.
fn are_bad<R: Wait>(rt: &R, alloc: Global, limits: Limits) -> bool {
    match Whole::open(rt, alloc, limits) {
        Ok(whole) => {
            whole.close(rt);
            false
        }
        Err(error) => matches!(error, OpenError::BadLimits),
    }
}

/// The first of the numbers outside their limits that isn't refused.
pub fn first_opened<R: Wait>(rt: &R, alloc: Global) -> Option<FailedStep> {
    for (step, (seats, workers, history, max_connects)) in BAD_LIMITS.iter().enumerate() {
        let limits = Limits {
            seats: *seats,
            workers: *workers,
            history: *history,
            max_connects: *max_connects,
        };
        if !are_bad(rt, alloc, limits) {
            // rule multi-limits
            return Some(FailedStep {
                row: "bad_limits_are_refused",
                step,
            });
        }
    }
    None
}
