//! Scripts whose calls are made by threads at the same time: reads while another call keeps the lock, turns that are taken by polls and
//! wake-ups, and calls by chance, which one thread answers the same.

use crate::play::{Expected, Script, ScriptStep, try_rows};
use crate::rows::FOUR_SEATS;
use mx_multi::Limits;
use mx_multi_tests_base::party::{Act, Task};
use mx_types::{Call, Code, HandleId, OutOfMemory, Ticket};
use std::alloc::Global;
use std::test::Fail;

const ONE: HandleId = HandleId(1);

/// Two threads with two seats and a worker's seat each.
const TWO_THREADS: Limits = Limits {
    seats: 4,
    workers: 2,
    history: 8192,
    max_connects: 4,
};

/// 16 seats and 8 workers' seats.
const EIGHT_THREADS: Limits = Limits {
    seats: 16,
    workers: 8,
    history: 1_048_576,
    max_connects: 0,
};

/// Two threads make the calls of a script each, at a seat of their own, and both seats have then seen what both did.
const TWO_SCRIPTS: &[ScriptStep] = &[ScriptStep::Two(
    &[Call::Wakeup, Call::Poll, Call::Running],
    &[
        Call::Handles,
        Call::Wakeup,
        Call::State(HandleId(1)),
        Call::Poll,
    ],
    2,
)];

/// Reads are answered while the end of a transfer, in another thread, asks for its code under the lock, by what was published before.
const HELD_LOCK: &[ScriptStep] = &[ScriptStep::Beside(
    &[
        Task::Acts(&[
            Act::Make(Call::Add(ONE), "added 0", 1),
            Act::Claim,
            Act::FinishHeld(Code::Ok, 5),
        ]),
        Task::Acts(&[
            Act::AwaitHold,
            Act::Make(Call::Handles, "handles 1", 1),
            Act::Make(Call::Running, "running 1", 1),
            Act::Make(Call::State(ONE), "running 0", 1),
            Act::Release,
        ]),
    ],
    1,
)];

/// What one seat adds or removes, each other seat sees in its first call; one that lists all during the addition sees all of it or nothing.
const SEEN: &[ScriptStep] = &[
    ScriptStep::Beside(
        &[
            Task::Acts(&[
                Act::Make(Call::Add(ONE), "added 0", 1),
                Act::Make(Call::Handles, "handles 1", 1),
            ]),
            Task::Acts(&[Act::Any(Call::Handles)]),
        ],
        1,
    ),
    ScriptStep::Make(2, Call::Handles, Expected::Text("handles 1"), 1),
    ScriptStep::Make(3, Call::Running, Expected::Text("running 1"), 1),
    ScriptStep::Make(1, Call::State(ONE), Expected::Text("running 0"), 1),
    ScriptStep::Look(Ticket(0), Expected::Text("go"), 1),
    ScriptStep::MeetTwo(1),
    ScriptStep::Make(0, Call::Remove(ONE), Expected::Text("removed"), 2),
    ScriptStep::Make(2, Call::Handles, Expected::Text("handles"), 2),
    ScriptStep::Make(3, Call::Running, Expected::Text("running 0"), 2),
    ScriptStep::Make(1, Call::State(ONE), Expected::Text("not-added"), 2),
    ScriptStep::Look(Ticket(0), Expected::Text("gone"), 2),
];

/// 1,000 turns of two threads, which pause and resume a handle, poll, and wake each other: a wake-up that is lost leaves both asleep.
const TURNS: &[ScriptStep] = &[
    ScriptStep::Beside(
        &[
            Task::Acts(&[
                Act::Make(Call::Add(ONE), "added 0", 1),
                Act::Turns(false, 1000),
            ]),
            Task::Acts(&[Act::Turns(true, 1000)]),
        ],
        1,
    ),
    ScriptStep::Make(0, Call::State(ONE), Expected::Text("running 0"), 4001),
];

/// Two polls at a time, and one wake-up for both: if it woke only one, the other would stay asleep.
const POLLS: &[ScriptStep] = &[
    ScriptStep::Beside(
        &[
            Task::Acts(&[Act::Say(Call::Poll, "woken")]),
            Task::Acts(&[Act::Say(Call::Poll, "woken")]),
            Task::Acts(&[Act::Say(Call::Wakeup, "ok")]),
        ],
        300,
    ),
    ScriptStep::Make(0, Call::Running, Expected::Text("running 0"), 300),
];

static ROWS: [Script<'static>; 6] = [
    // rule multi-scripts
    Script {
        name: "two_threads_make_all_their_calls",
        limits: FOUR_SEATS,
        steps: TWO_SCRIPTS,
    },
    // rule multi-reads
    Script {
        name: "reads_take_no_lock",
        limits: TWO_THREADS,
        steps: HELD_LOCK,
    },
    Script {
        name: "seats_see_what_another_did",
        limits: TWO_THREADS,
        steps: SEEN,
    },
    // rule multi-woken
    // rule multi-sleeping-poll
    Script {
        name: "no_wake_up_is_lost",
        limits: TWO_THREADS,
        steps: TURNS,
    },
    Script {
        name: "one_wake_up_wakes_two_polls",
        limits: Limits {
            seats: 6,
            workers: 3,
            history: 2048,
            max_connects: 4,
        },
        steps: POLLS,
    },
    // rule multi-linearized
    Script {
        name: "one_thread_answers_the_same",
        limits: EIGHT_THREADS,
        steps: &[ScriptStep::Storm(20261123, 4000)],
    },
];

// 40 turns of each of eight threads, and the same again after each of a hundred retirings.
fn retired_storms(alloc: Global) -> Result<Vec<ScriptStep>, OutOfMemory> {
    let mut steps = Vec::new(alloc);
    let seed = 20261127;
    steps.push(ScriptStep::Storm(seed, 40))?;
    for number in 1..101u64 {
        steps.push(ScriptStep::Retire(None))?;
        steps.push(ScriptStep::Storm(seed ^ number << 32, 40))?;
    }
    Ok(steps)
}

/// What threads do at the same time is answered as its row says, and as one thread answers it.
#[test]
fn threads_answer_as_one_does(rt: HostRuntime) -> Result<(), Fail> {
    let steps = retired_storms(rt.alloc())?;
    // rule multi-retire
    let storms = Script {
        name: "a_retired_handle_answers_as_one_thread_does",
        limits: Limits {
            history: 8192,
            ..EIGHT_THREADS
        },
        steps: steps.as_slice(),
    };
    let played = try_rows(&rt, rt.alloc(), &ROWS, storms, false);
    drop(steps);
    played
}
