//! Rows of what becomes of transfers that one worker holds.

use crate::messages::Wanted;
use crate::steps::{Answer, COUNTED, Meanwhile, Opening, RUN, Run, Scenario, Step};
use mx_link::ScriptRead;
use mx_types::{Call, Code, HandleId};

/// As many bytes as `COUNTED` less two, of which the last three are the body.
pub const OTHER: &[u8] = b"HTTP/1.1 200 OK\r\nContent-Length: 3\r\n\r\nbye";

/// A link that gives one response at once.
pub const AT_ONCE: Opening = Opening::Link(&[ScriptRead::Bytes(COUNTED)]);

/// A link that gives the other response at once.
pub const OTHER_AT_ONCE: Opening = Opening::Link(&[ScriptRead::Bytes(OTHER)]);

/// A link that gives nothing.
const SILENT: Opening = Opening::Link(&[ScriptRead::WouldBlock, ScriptRead::WouldBlock]);

/// The request that the transfer of `http://a.example/` sends (RFC 9112, section 3).
const FROM_A: &[u8] = b"GET / HTTP/1.1\r\nHost: a.example\r\nAccept: */*\r\n\r\n";

/// That of `http://b.example/`.
const FROM_B: &[u8] = b"GET / HTTP/1.1\r\nHost: b.example\r\nAccept: */*\r\n\r\n";

/// That of `http://a.example/again`.
const FROM_AGAIN: &[u8] = b"GET /again HTTP/1.1\r\nHost: a.example\r\nAccept: */*\r\n\r\n";

const THREE: HandleId = HandleId(3);

/// Rows that are played with each growth of memory refused, too.
pub static SERVING: [Scenario; 3] = [
    // rule worker-own-claim
    // rule worker-seat
    // rule worker-counts
    // rule turn-claims
    // Two handles and one worker: both messages have code 0, each the outcome of its own request.
    Scenario {
        name: "one worker serves two",
        keeps: 4,
        times: 1,
        steps: &[
            Step::Add(1, "http://a.example/", 0),
            Step::Add(2, "http://b.example/", 0),
            Step::Run(Run {
                turns: 3,
                links: &[AT_ONCE, OTHER_AT_ONCE],
                recorded: 2,
                ..RUN
            }),
            Step::Read(Wanted::Answer(0, FROM_A, b"hello")),
            Step::Read(Wanted::Answer(1, FROM_B, b"bye")),
            Step::Read(Wanted::Nothing),
        ],
    },
    // A worker never begins a transfer that was removed, and its handle gets no message.
    Scenario {
        name: "a removed handle gets no message",
        keeps: 4,
        times: 1,
        steps: &[
            Step::Add(1, "http://a.example/", 0),
            Step::Add(2, "http://b.example/", 0),
            Step::Make(Call::Remove(HandleId(1)), Answer::Removed),
            Step::Run(Run {
                turns: 3,
                links: &[AT_ONCE],
                recorded: 1,
                ..RUN
            }),
            Step::Read(Wanted::Of(2, Code::Ok, b"hello")),
            Step::Read(Wanted::Nothing),
        ],
    },
    // rule turn-paused
    // A transfer of one millisecond that is paused and resumed before a worker claims it, and then ends at its deadline: what each call
    // says of it.
    Scenario {
        name: "a paused transfer ends at its deadline",
        keeps: 4,
        times: 1,
        steps: &[
            Step::Add(3, "http://a.example/", 1),
            Step::Make(Call::Pause(THREE), Answer::Changed),
            Step::Make(Call::Pause(THREE), Answer::NoChange),
            Step::Make(Call::State(THREE), Answer::Paused(0)),
            Step::Make(Call::Unpause(THREE), Answer::Changed),
            Step::Make(Call::Unpause(THREE), Answer::NoChange),
            Step::Run(Run {
                turns: 1,
                links: &[SILENT],
                moments: &[0, 1],
                recorded: 1,
                ..RUN
            }),
            Step::Make(Call::Pause(THREE), Answer::NotRunning),
            Step::Make(Call::Pause(HandleId(4)), Answer::NotAdded),
            Step::Make(Call::State(THREE), Answer::Done(0, Code::OperationTimedout)),
            Step::Make(Call::Running, Answer::Running(0)),
            Step::Make(Call::Handles, Answer::Handle(3)),
            Step::Make(Call::Remove(THREE), Answer::Removed),
        ],
    },
];

/// A response that comes in three pieces, with waits between them.
const SLOW: Opening = Opening::Link(&[
    ScriptRead::WouldBlock,
    ScriptRead::Bytes(b"HTTP/1.1 200 OK\r\nContent-"),
    ScriptRead::WouldBlock,
    ScriptRead::Bytes(b"Length: 5\r\n\r\nhe"),
    ScriptRead::WouldBlock,
    ScriptRead::Bytes(b"llo"),
]);

/// A worker that takes over, over slow links.
pub const SLOW_RUN: Run = Run {
    turns: 16,
    links: &[SLOW, SLOW, SLOW, SLOW, SLOW, SLOW, SLOW, SLOW],
    ..RUN
};

/// Stopped at any turn of a run of eight transfers, a worker leaves what another can end: every handle gets one message, and every body is
/// whole.
pub static TAKING_OVER: [Scenario; 1] = [Scenario {
    name: "another worker takes over at any turn",
    keeps: 4,
    times: 16,
    steps: &[
        Step::AddEach(0, 7, "http://a.example/"),
        Step::TakeOver(8),
        Step::ReadAll(b"hello"),
        Step::Read(Wanted::Nothing),
    ],
}];

/// Rows of what a worker that is stopped gives back.
pub static GIVING_BACK: [Scenario; 3] = [
    // rule turn-stop
    // A worker that is stopped gives back a transfer that has no link yet, and another ends it.
    Scenario {
        name: "what has not started is given back",
        keeps: 4,
        times: 1,
        steps: &[
            Step::Add(1, "http://a.example/", 0),
            Step::Make(Call::Pause(HandleId(1)), Answer::Changed),
            Step::Run(Run {
                given_back: 1,
                ..RUN
            }),
            Step::Make(Call::Unpause(HandleId(1)), Answer::Changed),
            Step::Run(Run {
                links: &[AT_ONCE],
                recorded: 1,
                ..RUN
            }),
            Step::Read(Wanted::Of(1, Code::Ok, b"hello")),
        ],
    },
    // rule worker-requeued-deadline
    // A transfer that was given back keeps its deadline: it has ten milliseconds, is given back at the moment 100, and the next worker has
    // it at 110 and ends it.
    Scenario {
        name: "what is given back keeps its deadline",
        keeps: 4,
        times: 1,
        steps: &[
            Step::Add(1, "http://a.example/", 10),
            Step::Make(Call::Pause(HandleId(1)), Answer::Changed),
            Step::Run(Run {
                moments: &[100],
                given_back: 1,
                ..RUN
            }),
            Step::Make(Call::Unpause(HandleId(1)), Answer::Changed),
            Step::Run(Run {
                links: &[AT_ONCE],
                moments: &[110],
                recorded: 1,
                ..RUN
            }),
            Step::Read(Wanted::Of(1, Code::OperationTimedout, b"")),
        ],
    },
    // rule turn-stop
    // Handles 0 to 4, of which 0, 2 and 3 are paused. A worker that is stopped ends what has started, and gives back the others, before
    // what no worker had claimed. They are resumed, the last one first: the next worker claims them in the order of their tickets.
    Scenario {
        name: "what has started is ended",
        keeps: 0,
        times: 1,
        steps: &[
            Step::AddEach(0, 4, "http://a.example/"),
            Step::Make(Call::Pause(HandleId(0)), Answer::Changed),
            Step::Make(Call::Pause(HandleId(2)), Answer::Changed),
            Step::Make(Call::Pause(HandleId(3)), Answer::Changed),
            Step::Run(Run {
                turns: 3,
                links: &[SLOW],
                recorded: 1,
                given_back: 3,
                ..RUN
            }),
            Step::Make(Call::Unpause(HandleId(3)), Answer::Changed),
            Step::Make(Call::Unpause(HandleId(2)), Answer::Changed),
            Step::Make(Call::Unpause(HandleId(0)), Answer::Changed),
            Step::Run(Run {
                turns: 3,
                links: &[AT_ONCE, AT_ONCE, AT_ONCE, AT_ONCE],
                recorded: 4,
                ..RUN
            }),
            Step::Read(Wanted::Of(1, Code::Ok, b"hello")),
            Step::Read(Wanted::Of(0, Code::Ok, b"hello")),
            Step::Read(Wanted::Of(2, Code::Ok, b"hello")),
            Step::Read(Wanted::Of(3, Code::Ok, b"hello")),
            Step::Read(Wanted::Of(4, Code::Ok, b"hello")),
        ],
    },
];

/// A worker that could claim 70 transfers has claimed 64.
pub static HOLDING: [Scenario; 1] = [Scenario {
    name: "a worker holds 64 at most",
    keeps: 4,
    times: 1,
    steps: &[
        Step::AddPaused(0, 69, "http://a.example/"),
        Step::Run(Run {
            turns: 80,
            given_back: 64,
            ..RUN
        }),
    ],
}];

/// Rows of how transfers end.
pub static ENDING: [Scenario; 10] = [
    // A gate that can't open gives the code of the message.
    Scenario {
        name: "a host that isn't resolved gives its code",
        keeps: 4,
        times: 1,
        steps: &[
            Step::Add(1, "http://a.example/", 0),
            Step::Run(Run {
                turns: 2,
                links: &[Opening::Refused(Code::CouldntResolveHost)],
                recorded: 1,
                ..RUN
            }),
            Step::Read(Wanted::Of(1, Code::CouldntResolveHost, b"")),
        ],
    },
    Scenario {
        name: "a connection that isn't made gives its code",
        keeps: 4,
        times: 1,
        steps: &[
            Step::Add(1, "http://a.example/", 0),
            Step::Run(Run {
                turns: 2,
                links: &[Opening::Refused(Code::CouldntConnect)],
                recorded: 1,
                ..RUN
            }),
            Step::Read(Wanted::Of(1, Code::CouldntConnect, b"")),
        ],
    },
    Scenario {
        name: "a link without memory gives its code",
        keeps: 4,
        times: 1,
        steps: &[
            Step::Add(1, "http://a.example/", 0),
            Step::Run(Run {
                turns: 2,
                links: &[Opening::Refused(Code::OutOfMemory)],
                recorded: 1,
                ..RUN
            }),
            Step::Read(Wanted::Of(1, Code::OutOfMemory, b"")),
        ],
    },
    // A transfer whose link gives nothing ends with 28 at its deadline, and the wait before is no longer than that. In the turn at 100 it
    // is claimed, in that at 107 three milliseconds are left, and in that at 110 nothing is held any more.
    Scenario {
        name: "a deadline ends a transfer",
        keeps: 4,
        times: 1,
        steps: &[
            Step::Add(1, "http://a.example/", 10),
            Step::Run(Run {
                turns: 1,
                links: &[SILENT],
                moments: &[100, 107, 110],
                recorded: 1,
                ..RUN
            }),
            Step::Read(Wanted::Of(1, Code::OperationTimedout, b"")),
            Step::Waits(&[0, 3, 20]),
        ],
    },
    // rule turn-progress
    // A seat reads how many bytes came for a transfer, whether it ended whole or within its response: the first link gives 40 bytes, three
    // less than a response has, and nothing more.
    Scenario {
        name: "a worker notes how far a transfer is",
        keeps: 4,
        times: 1,
        steps: &[
            Step::Add(1, "http://a.example/", 10),
            Step::Add(2, "http://b.example/", 0),
            Step::Look(2, 1, 0),
            Step::Run(Run {
                turns: 2,
                links: &[
                    Opening::Link(&[
                        ScriptRead::Bytes(b"HTTP/1.1 200 OK\r\nContent-Length: 5\r\n\r\nhe"),
                        ScriptRead::WouldBlock,
                    ]),
                    AT_ONCE,
                ],
                moments: &[100, 105, 110],
                recorded: 2,
                ..RUN
            }),
            Step::Look(1, 0, 40),
            Step::Look(2, 1, 43),
        ],
    },
    // A worker whose start is refused says so, claims nothing, and gives its seat back as it was: then it starts there, and serves what was
    // added. checks/refused-growths.sh refuses each start.
    Scenario {
        name: "a refused start leaves the seat as it was",
        keeps: 4,
        times: 1,
        steps: &[
            Step::Add(1, "http://a.example/", 0),
            Step::Run(Run {
                turns: 1,
                links: &[AT_ONCE],
                recorded: 1,
                ..RUN
            }),
            Step::Read(Wanted::Of(1, Code::Ok, b"hello")),
        ],
    },
    // rule worker-counts
    // A transfer that ends after its handle was removed has a stale end, which is counted once, and no message. The handle, added again, is
    // fetched whole by another worker, under its new ticket.
    Scenario {
        name: "an end after the removal is stale",
        keeps: 4,
        times: 1,
        steps: &[
            Step::Add(1, "http://a.example/one", 0),
            Step::Run(Run {
                turns: 2,
                links: &[AT_ONCE, AT_ONCE, AT_ONCE],
                meanwhile: Meanwhile::AtOpening(Call::Remove(HandleId(1))),
                stale: 1,
                ..RUN
            }),
            Step::LinksLeft(2),
            Step::Read(Wanted::Nothing),
            Step::Add(1, "http://a.example/again", 0),
            Step::Run(Run {
                turns: 1,
                links: &[OTHER_AT_ONCE],
                recorded: 1,
                ..RUN
            }),
            Step::Read(Wanted::Answer(1, FROM_AGAIN, b"bye")),
        ],
    },
    // rule turn-gone
    // A transfer that a worker holds is dropped as soon as its look says that its handle is gone, without a message.
    Scenario {
        name: "a held transfer whose handle is removed is dropped",
        keeps: 4,
        times: 1,
        steps: &[
            Step::Add(1, "http://a.example/one", 0),
            Step::Run(Run {
                turns: 2,
                links: &[SILENT, AT_ONCE, AT_ONCE],
                meanwhile: Meanwhile::InTurn(Call::Remove(HandleId(1))),
                ..RUN
            }),
            Step::LinksLeft(2),
            Step::Read(Wanted::Nothing),
            Step::Add(1, "http://a.example/again", 0),
            Step::Run(Run {
                turns: 1,
                links: &[OTHER_AT_ONCE],
                recorded: 1,
                ..RUN
            }),
            Step::Read(Wanted::Answer(1, FROM_AGAIN, b"bye")),
        ],
    },
    // Its link is dropped with it, though the worker keeps idle links: for the next transfer to the same endpoint the gate opens another.
    Scenario {
        name: "the link of a removed handle serves no other",
        keeps: 4,
        times: 1,
        steps: &[
            Step::Add(1, "http://a.example/one", 0),
            Step::Add(2, "http://a.example/two", 0),
            Step::Run(Run {
                turns: 2,
                links: &[SILENT, AT_ONCE, AT_ONCE],
                meanwhile: Meanwhile::InTurn(Call::Remove(HandleId(1))),
                recorded: 1,
                ..RUN
            }),
            Step::LinksLeft(1),
            Step::Read(Wanted::Of(2, Code::Ok, b"hello")),
            Step::Add(1, "http://a.example/again", 0),
            Step::Run(Run {
                turns: 1,
                links: &[OTHER_AT_ONCE],
                recorded: 1,
                ..RUN
            }),
            Step::Read(Wanted::Answer(2, FROM_AGAIN, b"bye")),
        ],
    },
    // rule turn-order
    // rule turn-clock
    // The clock is read once at the beginning of a turn and once before each transfer but the first. As many transfers as a worker holds
    // are claimed, one a turn. So the last transfer is polled for the first time at 2079, and the last turn begins at 2144: 75 milliseconds
    // after 2079 its first ten transfers have been polled. The one that is due then is served next, not after the 53 others.
    Scenario {
        name: "the due are served between two polls",
        keeps: 0,
        times: 1,
        steps: &[
            Step::AddEach(1, 63, "http://a.example/"),
            Step::Add(64, "http://b.example/", 75),
            Step::Run(Run {
                turns: 66,
                links: &[Opening::Late {
                    links: 64,
                    turn: 66,
                }],
                ticks: 4096,
                recorded: 64,
                ..RUN
            }),
            Step::ReadEach(1, 10, b"hello"),
            Step::Read(Wanted::Of(64, Code::OperationTimedout, b"")),
            Step::ReadEach(11, 63, b"hello"),
        ],
    },
];

/// Rows of transfers that a worker's seat claims, polls and ends by itself, with no worker: at the deadline, whether paused or not.
pub static BY_HAND: [Scenario; 2] = [
    Scenario {
        name: "a paused transfer is ended by hand",
        keeps: 4,
        times: 1,
        steps: &[
            Step::Add(1, "http://a.example/", 1),
            Step::Make(Call::Pause(HandleId(1)), Answer::Changed),
            Step::ByHand(true),
            Step::Read(Wanted::Of(1, Code::OperationTimedout, b"")),
        ],
    },
    Scenario {
        name: "a resumed transfer is ended by hand",
        keeps: 4,
        times: 1,
        steps: &[
            Step::Add(1, "http://a.example/", 1),
            Step::Make(Call::Pause(HandleId(1)), Answer::Changed),
            Step::Make(Call::Unpause(HandleId(1)), Answer::Changed),
            Step::ByHand(false),
            Step::Read(Wanted::Of(1, Code::OperationTimedout, b"")),
        ],
    },
];
