//! Rows of which links a worker takes, and of how long it has its gate wait for them.

use crate::messages::Wanted;
use crate::steps::{COUNTED, Opening, RUN, Run, Scenario, Step};
use crate::table::{AT_ONCE, OTHER, OTHER_AT_ONCE};
use mx_link::ScriptRead;
use mx_types::Code;

/// Two responses over one link, with a look between them that finds nothing to read.
const TWICE: Opening = Opening::Link(&[
    ScriptRead::Bytes(COUNTED),
    ScriptRead::WouldBlock,
    ScriptRead::Bytes(OTHER),
]);

/// Serves two URLs of one endpoint, one after the other: the first link gives two responses, the second link one.
const SERVE_TWO: Step = Step::Run(Run {
    turns: 3,
    links: &[TWICE, OTHER_AT_ONCE],
    recorded: 2,
    ..RUN
});

/// A redirect to the same endpoint, and another response to a later request.
const HERE: Opening = Opening::Link(&[
    ScriptRead::Bytes(b"HTTP/1.1 302 Found\r\nLocation: /b\r\nContent-Length: 0\r\n\r\n"),
    ScriptRead::WouldBlock,
    ScriptRead::Bytes(OTHER),
]);

/// A redirect to another port, and another response to a later request.
const THERE: Opening = Opening::Link(&[
    ScriptRead::Bytes(
        b"HTTP/1.1 302 Found\r\nLocation: http://a.example:81/b\r\nContent-Length: 0\r\n\r\n",
    ),
    ScriptRead::WouldBlock,
    ScriptRead::Bytes(OTHER),
]);

/// A redirect back to the first port, and another response to a later request.
const BACK: Opening = Opening::Link(&[
    ScriptRead::Bytes(
        b"HTTP/1.1 302 Found\r\nLocation: http://a.example/c\r\nContent-Length: 0\r\n\r\n",
    ),
    ScriptRead::WouldBlock,
    ScriptRead::Bytes(COUNTED),
]);

/// Serves one transfer, whose first hop leads on to the same endpoint.
const GO_HERE: Step = Step::Run(Run {
    turns: 3,
    links: &[HERE, AT_ONCE],
    recorded: 1,
    ..RUN
});

/// Serves one transfer, whose first hop leads on to another port, and its second back to the first.
const GO_BACK: Step = Step::Run(Run {
    turns: 3,
    links: &[THERE, BACK, AT_ONCE],
    recorded: 1,
    ..RUN
});

/// Rows of the links that a worker takes for one transfer after another, and for the hops of one.
pub static LINKS: [Scenario; 13] = [
    // rule turn-links
    // The worker keeps its link, and the gate opens one.
    Scenario {
        name: "an idle link serves the next transfer",
        keeps: 4,
        times: 1,
        steps: &[
            Step::Add(1, "http://a.example/one", 0),
            Step::Add(2, "http://a.example/two", 0),
            SERVE_TWO,
            Step::Read(Wanted::Of(1, Code::Ok, b"hello")),
            Step::Read(Wanted::Of(2, Code::Ok, b"bye")),
            Step::LinksLeft(1),
        ],
    },
    // A worker that keeps no idle link has the gate open two.
    Scenario {
        name: "without idle links each transfer has its own",
        keeps: 0,
        times: 1,
        steps: &[
            Step::Add(1, "http://a.example/one", 0),
            Step::Add(2, "http://a.example/two", 0),
            SERVE_TWO,
            Step::Read(Wanted::Of(1, Code::Ok, b"hello")),
            Step::Read(Wanted::Of(2, Code::Ok, b"bye")),
            Step::LinksLeft(0),
        ],
    },
    // The link of a hop serves the next one where that goes to the same endpoint.
    Scenario {
        name: "a link serves the next hop",
        keeps: 4,
        times: 1,
        steps: &[
            Step::Follow(1, "http://a.example/", 2),
            GO_HERE,
            Step::Read(Wanted::Of(1, Code::Ok, b"bye")),
            Step::LinksLeft(1),
        ],
    },
    // A hop to another port has a link of its own.
    Scenario {
        name: "a hop to another port has its own link",
        keeps: 4,
        times: 1,
        steps: &[
            Step::Follow(1, "http://a.example/", 2),
            Step::Run(Run {
                turns: 3,
                links: &[THERE, AT_ONCE, AT_ONCE],
                recorded: 1,
                ..RUN
            }),
            Step::Read(Wanted::Of(1, Code::Ok, b"hello")),
            Step::LinksLeft(1),
        ],
    },
    // A third hop, back at the first port, has the first link again, though it was kept two hops ago.
    Scenario {
        name: "a hop back has the first link again",
        keeps: 4,
        times: 1,
        steps: &[
            Step::Follow(1, "http://a.example/", 2),
            GO_BACK,
            Step::Read(Wanted::Of(1, Code::Ok, b"bye")),
            Step::LinksLeft(1),
        ],
    },
    // A worker that keeps no idle link has the gate open one for each hop.
    Scenario {
        name: "without idle links the next hop has its own",
        keeps: 0,
        times: 1,
        steps: &[
            Step::Follow(1, "http://a.example/", 2),
            GO_HERE,
            Step::Read(Wanted::Of(1, Code::Ok, b"hello")),
            Step::LinksLeft(0),
        ],
    },
    Scenario {
        name: "without idle links a hop back has its own",
        keeps: 0,
        times: 1,
        steps: &[
            Step::Follow(1, "http://a.example/", 2),
            GO_BACK,
            Step::Read(Wanted::Of(1, Code::Ok, b"hello")),
            Step::LinksLeft(0),
        ],
    },
    // With the limit 0 a redirect is a response as any other.
    Scenario {
        name: "with the limit 0 no redirect is followed",
        keeps: 4,
        times: 1,
        steps: &[
            Step::Follow(1, "http://a.example/", 0),
            GO_HERE,
            Step::Read(Wanted::Of(1, Code::Ok, b"")),
            Step::LinksLeft(1),
        ],
    },
    // With the limit 1 the second redirect ends the transfer.
    Scenario {
        name: "with the limit 1 the second redirect isn't followed",
        keeps: 4,
        times: 1,
        steps: &[
            Step::Follow(1, "http://a.example/", 1),
            GO_BACK,
            Step::Read(Wanted::Of(1, Code::TooManyRedirects, b"")),
            Step::LinksLeft(1),
        ],
    },
    // rule turn-files
    // The idle link of the first endpoint is dropped, and the gate opens one to the second once more. The third transfer has its own.
    Scenario {
        name: "idle links are dropped where too many files are open",
        keeps: 4,
        times: 1,
        steps: &[
            Step::Add(1, "http://a.example/one", 0),
            Step::Add(2, "http://b.example/two", 0),
            Step::Add(3, "http://a.example/three", 0),
            Step::Run(Run {
                calm: 2,
                lacks: 1,
                ..SERVE_BETWEEN
            }),
            Step::Read(Wanted::Of(1, Code::Ok, b"hello")),
            Step::Read(Wanted::Of(2, Code::Ok, b"hello")),
            Step::Read(Wanted::Of(3, Code::Ok, b"bye")),
            Step::LinksLeft(0),
        ],
    },
    // rule turn-files
    // In the third turn, in which the third transfer is claimed: the idle link of its endpoint is dropped before.
    Scenario {
        name: "idle links are dropped in a turn in which too many files are open",
        keeps: 4,
        times: 1,
        steps: &[
            Step::Add(1, "http://a.example/one", 0),
            Step::Add(2, "http://b.example/two", 0),
            Step::Add(3, "http://a.example/three", 0),
            Step::Run(Run {
                turns: 4,
                links: &[TWICE, AT_ONCE, OTHER_AT_ONCE],
                calm: 2,
                lacks: 1,
                recorded: 3,
                ..RUN
            }),
            Step::Read(Wanted::Of(1, Code::Ok, b"hello")),
            Step::Read(Wanted::Of(2, Code::Ok, b"hello")),
            Step::Read(Wanted::Of(3, Code::Ok, b"bye")),
            Step::LinksLeft(0),
        ],
    },
    // For another cause the transfer fails, and the idle link stays.
    Scenario {
        name: "idle links stay where a link is refused for another cause",
        keeps: 4,
        times: 1,
        steps: &[
            Step::Add(1, "http://a.example/one", 0),
            Step::Add(2, "http://b.example/two", 0),
            Step::Add(3, "http://a.example/three", 0),
            Step::Run(SERVE_BETWEEN),
            Step::Read(Wanted::Of(1, Code::Ok, b"hello")),
            Step::Read(Wanted::Of(2, Code::CouldntConnect, b"")),
            Step::Read(Wanted::Of(3, Code::Ok, b"bye")),
            Step::LinksLeft(2),
        ],
    },
    // Where that doesn't help, the transfer fails.
    Scenario {
        name: "a link is opened once more where too many files are open, and no more often",
        keeps: 4,
        times: 1,
        steps: &[
            Step::Add(1, "http://a.example/", 0),
            Step::Run(Run {
                turns: 3,
                links: &[
                    Opening::Refused(Code::CouldntConnect),
                    Opening::Refused(Code::CouldntConnect),
                    AT_ONCE,
                ],
                calm: 1,
                lacks: 2,
                recorded: 1,
                ..RUN
            }),
            Step::Read(Wanted::Of(1, Code::CouldntConnect, b"")),
            Step::LinksLeft(1),
        ],
    },
];

/// Serves a transfer, one of another endpoint, for which a link is refused first, and one more of the first endpoint.
const SERVE_BETWEEN: Run = Run {
    turns: 4,
    links: &[
        TWICE,
        Opening::Refused(Code::CouldntConnect),
        AT_ONCE,
        OTHER_AT_ONCE,
    ],
    recorded: 3,
    ..RUN
};

/// Serves one transfer that begins at the moment 100 over a link that gives its response at the third look.
const SERVE_LATE: Step = Step::Run(Run {
    turns: 4,
    links: &[Opening::Link(&[
        ScriptRead::WouldBlock,
        ScriptRead::WouldBlock,
        ScriptRead::Bytes(COUNTED),
    ])],
    moments: &[100],
    recorded: 1,
    ..RUN
});

/// A response of more pieces than a poll reads, if each is a byte.
const LONG: &[u8] = b"HTTP/1.1 200 OK\r\n\
Server: one that says more of itself than anybody wants to know, and sends it byte by byte\r\n\
A: 1\r\nB: 2\r\nC: 3\r\nD: 4\r\nE: 5\r\nContent-Length: 5\r\n\r\nhello";

/// Rows of how long a worker has its gate wait. In its first turn it claims, and there may be more: it doesn't wait.
pub static WAITING: [Scenario; 6] = [
    // rule turn-wait
    // In the second turn the deadline is 7 milliseconds away.
    Scenario {
        name: "a turn waits until the next deadline",
        keeps: 4,
        times: 1,
        steps: &[
            Step::Add(1, "http://a.example/", 7),
            SERVE_LATE,
            Step::Read(Wanted::Of(1, Code::Ok, b"hello")),
            Step::Waits(&[0, 7, 20, 20, 20]),
        ],
    },
    // It is farther than the longest wait.
    Scenario {
        name: "a turn waits no longer than the longest wait",
        keeps: 4,
        times: 1,
        steps: &[
            Step::Add(1, "http://a.example/", 21),
            SERVE_LATE,
            Step::Read(Wanted::Of(1, Code::Ok, b"hello")),
            Step::Waits(&[0, 20, 20, 20, 20]),
        ],
    },
    Scenario {
        name: "a turn without a deadline waits the longest wait",
        keeps: 4,
        times: 1,
        steps: &[
            Step::Add(1, "http://a.example/", 0),
            SERVE_LATE,
            Step::Read(Wanted::Of(1, Code::Ok, b"hello")),
            Step::Waits(&[0, 20, 20, 20, 20]),
        ],
    },
    // rule turn-wait-for-link
    // While no link can be opened yet, the worker waits as long as where there is nothing to do: it doesn't spin. Once one can be, it is
    // opened.
    Scenario {
        name: "a worker waits for a name",
        keeps: 4,
        times: 1,
        steps: &[
            Step::Add(1, "http://a.example/", 0),
            Step::Run(Run {
                turns: 4,
                links: &[AT_ONCE],
                delays: 3,
                moments: &[100],
                recorded: 1,
                ..RUN
            }),
            Step::Read(Wanted::Of(1, Code::Ok, b"hello")),
            Step::Waits(&[0, 20, 20, 20, 20]),
        ],
    },
    // rule turn-wait
    // One that asked to be polled again, after the most reads of a poll, isn't kept waiting.
    Scenario {
        name: "a transfer that asks is polled at once",
        keeps: 4,
        times: 1,
        steps: &[
            Step::Add(1, "http://a.example/", 0),
            Step::Run(Run {
                turns: 4,
                links: &[Opening::ByteByByte(LONG)],
                moments: &[100],
                recorded: 1,
                ..RUN
            }),
            Step::Read(Wanted::Of(1, Code::Ok, b"hello")),
            Step::Waits(&[0, 0, 20, 20, 20]),
        ],
    },
    // rule turn-wait-for-link
    // The second transfer is given the link that the first has left, which the server closes once it is written to. The transfer wants a
    // fresh link, and the worker has that opened without a wait.
    Scenario {
        name: "a lost link is replaced at once",
        keeps: 4,
        times: 1,
        steps: &[
            Step::Add(1, "http://a.example/", 0),
            Step::Add(2, "http://a.example/", 0),
            Step::Run(Run {
                turns: 4,
                links: &[
                    Opening::Link(&[
                        ScriptRead::Bytes(COUNTED),
                        ScriptRead::WouldBlock,
                        ScriptRead::WouldBlock,
                        ScriptRead::End,
                    ]),
                    AT_ONCE,
                ],
                moments: &[100],
                recorded: 2,
                ..RUN
            }),
            Step::Read(Wanted::Of(1, Code::Ok, b"hello")),
            Step::Read(Wanted::Of(2, Code::Ok, b"hello")),
            Step::Waits(&[0, 0, 0, 20, 20]),
        ],
    },
];
