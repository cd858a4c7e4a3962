//! The table of transfers of one hop. The offsets and lengths were counted by hand.

use crate::responses::{CHUNKED, COUNTED, HEAD};
use crate::rows::Call::{Fresh, NoLink, Poll, Prepare, Reused};
use crate::rows::{Call, Ends, Row, Waiting, Wanted};
use mx_link::ScriptRead::{Bytes, End, Fault, WouldBlock};
use mx_link::Write;
use mx_types::{Code, Method};

/// Two heads of interim responses, the final one, and its body.
const INTERIM: &[u8] =
    b"HTTP/1.1 100 Continue\r\n\r\nHTTP/1.1 103 Early Hints\r\nA: b\r\n\r\nHTTP/1.1 200 OK\r\nContent-Length: 5\r\n\r\nhello";

/// 24 bytes, of which the last five are the body.
const UNFRAMED: &[u8] = b"HTTP/1.1 200 OK\r\n\r\nhello";

/// 47 bytes, four of them after the response.
const LEFT_OVER: &[u8] = b"HTTP/1.1 200 OK\r\nContent-Length: 5\r\n\r\nhelloHTTP";

const CLOSES: &[u8] = b"HTTP/1.1 200 OK\r\nConnection: close\r\nContent-Length: 5\r\n\r\nhello";

const OLD: &[u8] = b"HTTP/1.0 200 OK\r\nContent-Length: 5\r\n\r\nhello";

const OLD_STAYS: &[u8] =
    b"HTTP/1.0 200 OK\r\nConnection: keep-alive\r\nContent-Length: 5\r\n\r\nhello";

/// The greatest moment.
const LAST: u64 = 18_446_744_073_709_551_615;

/// It has a link, no deadline, and was given nothing.
pub(crate) const SERVED: Waiting = Waiting {
    asks: false,
    wants: Wanted::Nothing,
    started: true,
    received: 0,
    deadline: None,
};

const ASKS: Waiting = Waiting {
    asks: true,
    ..SERVED
};

/// It has dropped its link, and wants a fresh one.
pub(crate) const LOST: Waiting = Waiting {
    wants: Wanted::Fresh,
    ..SERVED
};

/// It has no link yet.
const UNSERVED: Waiting = Waiting {
    wants: Wanted::Any(8080),
    started: false,
    ..SERVED
};

const DUE_AT_110: Waiting = Waiting {
    deadline: Some(110),
    ..UNSERVED
};

const ASKS_UNTIL_110: Waiting = Waiting {
    asks: true,
    ..DUE_AT_110
};

const DUE_AT_LAST: Waiting = Waiting {
    deadline: Some(LAST),
    ..UNSERVED
};

/// A fresh link that gives `COUNTED`.
const FRESH: Call<'static> = Fresh(&[Bytes(COUNTED)], &[]);

/// A link that was in use before, and ends before it gives a byte.
const ENDS: Call<'static> = Reused(&[WouldBlock, End], &[]);

/// One whose first write fails.
const FAILS: Call<'static> = Reused(&[WouldBlock], &[Write::Fault]);

/// A GET of more than 64 bytes, which `COUNTED` answers.
pub(crate) const GET: Row<'static> = Row {
    name: "",
    methods: &[Method::Get],
    url: "http://127.0.0.1:8080/a/longer/path?b",
    body: None,
    cookie: None,
    timeout_ms: 0,
    max_redirects: 0,
    calls: &[FRESH, Poll],
    waits: &[],
    links: &[],
    ends: Ends::Hello(COUNTED, 1),
    hops: 1,
    chain: &[],
};

/// One whose reused link is lost, and which wants a fresh one.
const AGAIN: Row<'static> = Row {
    waits: &[LOST],
    ..GET
};

/// One of ten milliseconds that has not ended.
const TIMED: Row<'static> = Row {
    timeout_ms: 10,
    ends: Ends::Never,
    ..GET
};

/// What comes over one link.
static RESPONSES: [Row<'static>; 3] = [
    Row {
        name: "interim_heads_are_passed_over",
        calls: &[Fresh(&[Bytes(INTERIM)], &[]), Poll],
        ends: Ends::Hello(INTERIM, 1),
        ..GET
    },
    Row {
        name: "the_end_of_the_link_ends_a_body",
        calls: &[Fresh(&[Bytes(UNFRAMED), End], &[]), Poll],
        ends: Ends::Hello(UNFRAMED, 0),
        ..GET
    },
    Row {
        name: "a_head_has_no_body",
        methods: &[Method::Head],
        calls: &[Fresh(&[Bytes(HEAD)], &[]), Poll],
        ends: Ends::Bodiless(Code::Ok, 200, HEAD),
        ..GET
    },
];

/// Whether a link is kept then (RFC 9112, section 9.3).
static KEPT_LINKS: [Row<'static>; 4] = [
    // rule exchange-kept-link
    Row {
        name: "a_link_with_bytes_left_over_is_not_kept",
        calls: &[Fresh(&[Bytes(LEFT_OVER)], &[]), Poll],
        ends: Ends::Hello(LEFT_OVER, 0),
        ..GET
    },
    Row {
        name: "a_link_that_closes_is_not_kept",
        calls: &[Fresh(&[Bytes(CLOSES)], &[]), Poll],
        ends: Ends::Hello(CLOSES, 0),
        ..GET
    },
    Row {
        name: "a_link_of_http_1_0_is_not_kept",
        calls: &[Fresh(&[Bytes(OLD)], &[]), Poll],
        ends: Ends::Hello(OLD, 0),
        ..GET
    },
    Row {
        name: "a_link_of_http_1_0_that_stays_is_kept",
        calls: &[Fresh(&[Bytes(OLD_STAYS)], &[]), Poll],
        ends: Ends::Hello(OLD_STAYS, 1),
        ..GET
    },
];

static FAILURES: [Row<'static>; 2] = [
    Row {
        name: "a_fault_after_the_head",
        calls: &[Fresh(&[Bytes(HEAD), Fault], &[]), Poll],
        ends: Ends::Failed(Code::RecvError, 200, HEAD),
        ..GET
    },
    Row {
        name: "no_link_can_be_had",
        calls: &[NoLink, Poll],
        ends: Ends::Failed(Code::CouldntResolveHost, 0, b""),
        ..GET
    },
];

/// Only GET and HEAD are sent again, no other method even if it is idempotent (RFC 9110, section 9.2.2).
static SENT_AGAIN: [Row<'static>; 3] = [
    Row {
        name: "a_get_is_sent_again_over_a_fresh_link",
        calls: &[ENDS, Poll, FRESH, Poll],
        ..AGAIN
    },
    // rule exchange-retry
    Row {
        name: "a_get_is_sent_again_once",
        calls: &[ENDS, Poll, Fresh(&[End], &[]), Poll],
        ends: Ends::Failed(Code::GotNothing, 0, b""),
        ..AGAIN
    },
    Row {
        name: "a_failed_write_is_tried_again",
        calls: &[FAILS, Poll, FRESH, Poll],
        ..AGAIN
    },
];

static SENT_ONCE: [Row<'static>; 2] = [
    Row {
        name: "a_post_is_not_sent_again",
        methods: &[Method::Post],
        calls: &[ENDS, Poll],
        ends: Ends::Failed(Code::GotNothing, 0, b""),
        ..GET
    },
    Row {
        name: "other_methods_are_not_tried_again",
        methods: &[Method::Post, Method::Put, Method::Delete, Method::Options],
        calls: &[FAILS, Poll],
        ends: Ends::Failed(Code::SendError, 0, b""),
        ..GET
    },
];

/// Links that were in use before, and serve nothing.
static PROBES: [Row<'static>; 3] = [
    // rule exchange-probe
    Row {
        name: "what_a_probe_reads_is_in_no_wire",
        methods: &[Method::Get, Method::Post],
        calls: &[Reused(&[Bytes(CHUNKED)], &[]), Poll, FRESH, Poll],
        ..AGAIN
    },
    Row {
        name: "a_link_that_has_ended_serves_nothing",
        methods: &[Method::Post],
        calls: &[Reused(&[End], &[]), Poll, FRESH, Poll],
        ..AGAIN
    },
    Row {
        name: "a_link_that_has_failed_serves_nothing",
        methods: &[Method::Post],
        calls: &[Reused(&[Fault], &[]), Poll, FRESH, Poll],
        ..AGAIN
    },
];

/// Polls that answer `Pending`.
static POLLS: [Row<'static>; 3] = [
    // rule exchange-call-sizes
    Row {
        name: "one_byte_written_then_all",
        calls: &[
            Fresh(&[Bytes(COUNTED)], &[Write::Bytes(1), Write::WouldBlock]),
            Poll,
            Poll,
        ],
        waits: &[SERVED],
        ..GET
    },
    // rule exchange-turn-limits
    Row {
        name: "a_poll_writes_64_times_at_most",
        calls: &[Fresh(&[Bytes(COUNTED)], &[Write::Bytes(1); 64]), Poll, Poll],
        waits: &[ASKS],
        ..GET
    },
    // rule exchange-order
    Row {
        name: "a_paused_transfer_touches_no_link",
        calls: &[FRESH, Prepare(0, true), Poll, Prepare(0, false), Poll],
        waits: &[ASKS],
        ..GET
    },
];

static DEADLINES: [Row<'static>; 3] = [
    // rule exchange-pause
    Row {
        name: "a_deadline_counts_while_paused",
        calls: &[
            Prepare(100, false),
            Poll,
            Prepare(109, true),
            Poll,
            Prepare(110, true),
            Poll,
        ],
        waits: &[DUE_AT_110, ASKS_UNTIL_110],
        ends: Ends::Failed(Code::OperationTimedout, 0, b""),
        ..TIMED
    },
    // rule exchange-timeout
    Row {
        name: "a_deadline_is_held_at_the_greatest_moment",
        calls: &[Prepare(LAST - 3, false), Poll],
        waits: &[DUE_AT_LAST],
        ..TIMED
    },
    // rule exchange-timeout
    Row {
        name: "no_timeout_is_no_deadline",
        timeout_ms: 0,
        calls: &[Prepare(LAST, false), Poll],
        waits: &[UNSERVED],
        ..TIMED
    },
];

/// Transfers of one hop.
pub(crate) fn rows() -> [&'static [Row<'static>]; 8] {
    [
        &RESPONSES,
        &KEPT_LINKS,
        &FAILURES,
        &SENT_AGAIN,
        &SENT_ONCE,
        &PROBES,
        &POLLS,
        &DEADLINES,
    ]
}
