//! Rows of transfers of several hops: their deadline, their retries, their links and how they end. The lengths were counted by hand.

use crate::responses::{COUNTED, FOUND, HEAD, TEMPORARY};
use crate::rows::Call::{Fresh, NoLink, Poll, Prepare, Reused, TakeLinks};
use crate::rows::{Call, Ends, Links, Row, Waiting, Wanted};
use crate::table::GET;
use mx_link::ScriptRead::{Bytes, End, Fault, WouldBlock};
use mx_types::{Code, Method};

/// What each chain begins with.
pub(crate) const HERE: &str = "http://127.0.0.1:8080/a";

/// A redirect to its own URL, of 55 bytes.
const ITSELF: &[u8] = b"HTTP/1.1 302 Found\r\nLocation: /a\r\nContent-Length: 0\r\n\r\n";

/// A redirect to another port, of 73 bytes.
const AWAY: &[u8] =
    b"HTTP/1.1 302 Found\r\nLocation: http://127.0.0.1:81/\r\nContent-Length: 0\r\n\r\n";

/// A redirect over a link that closes, of 74 bytes.
const FOUND_CLOSES: &[u8] =
    b"HTTP/1.1 302 Found\r\nLocation: /b\r\nConnection: close\r\nContent-Length: 0\r\n\r\n";

/// An empty body over a link that closes, of 57 bytes.
const CLOSES: &[u8] = b"HTTP/1.1 200 OK\r\nConnection: close\r\nContent-Length: 0\r\n\r\n";

/// A link that gives `FOUND`.
const GIVES_FOUND: Call<'static> = Fresh(&[Bytes(FOUND)], &[]);

/// A link that gives `ITSELF`.
const GIVES_ITSELF: Call<'static> = Fresh(&[Bytes(ITSELF)], &[]);

/// A link that gives `AWAY`.
const GIVES_AWAY: Call<'static> = Fresh(&[Bytes(AWAY)], &[]);

/// A link that was in use before, and is lost before it gives a byte.
const LOST: Call<'static> = Reused(&[WouldBlock, End], &[]);

/// A redirect of 55 bytes was followed.
const FOLLOWED: Waiting = Waiting {
    asks: true,
    wants: Wanted::Any(8080),
    started: true,
    received: 55,
    deadline: None,
};

/// One of 73 bytes was followed.
const FOLLOWED_AWAY: Waiting = Waiting {
    wants: Wanted::Any(81),
    received: 73,
    ..FOLLOWED
};

/// It follows one redirect, and ends at its second hop.
pub(crate) const TWICE: Row<'static> = Row {
    url: HERE,
    max_redirects: 1,
    waits: &[FOLLOWED],
    hops: 2,
    ..GET
};

static HOP_DEADLINES: [Row<'static>; 1] = [
    // rule redirect-deadline
    Row {
        name: "one_deadline_is_for_all_hops",
        timeout_ms: 100,
        calls: &[
            Prepare(10, false),
            GIVES_FOUND,
            Poll,
            Prepare(109, false),
            Fresh(&[WouldBlock], &[]),
            Poll,
            Prepare(110, false),
            Poll,
        ],
        waits: &[
            Waiting {
                deadline: Some(110),
                ..FOLLOWED
            },
            Waiting {
                asks: false,
                wants: Wanted::Nothing,
                deadline: Some(110),
                ..FOLLOWED
            },
        ],
        ends: Ends::Failed(Code::OperationTimedout, 0, b""),
        ..TWICE
    },
];

static HOP_RETRIES: [Row<'static>; 2] = [
    Row {
        name: "each_hop_is_tried_again_once",
        calls: &[
            LOST,
            Poll,
            GIVES_FOUND,
            Poll,
            LOST,
            Poll,
            Fresh(&[Bytes(COUNTED)], &[]),
            Poll,
        ],
        waits: &[
            Waiting {
                asks: false,
                wants: Wanted::Fresh,
                received: 0,
                ..FOLLOWED
            },
            FOLLOWED,
            Waiting {
                asks: false,
                wants: Wanted::Fresh,
                ..FOLLOWED
            },
        ],
        ends: Ends::Hello(COUNTED, 1),
        ..TWICE
    },
    Row {
        name: "a_later_post_is_not_tried_again",
        methods: &[Method::Post],
        calls: &[Fresh(&[Bytes(TEMPORARY)], &[]), Poll, LOST, Poll],
        waits: &[Waiting {
            received: 68,
            ..FOLLOWED
        }],
        ends: Ends::Failed(Code::GotNothing, 0, b""),
        ..TWICE
    },
];

static HOP_ENDS: [Row<'static>; 2] = [
    Row {
        name: "a_fault_of_the_last_hop_ends_it",
        calls: &[GIVES_FOUND, Poll, Fresh(&[Bytes(HEAD), Fault], &[]), Poll],
        ends: Ends::Failed(Code::RecvError, 200, HEAD),
        ..TWICE
    },
    // the link of the hop before is still there
    Row {
        name: "no_link_for_the_last_hop_ends_it",
        calls: &[GIVES_FOUND, Poll, NoLink, Poll],
        ends: Ends::Bodiless(Code::CouldntResolveHost, 0, b""),
        ..TWICE
    },
];

static HOP_LIMITS: [Row<'static>; 1] = [
    // rule redirect-limit
    // it is followed as often as may be
    Row {
        name: "a_redirect_to_itself_ends_with_47",
        max_redirects: 3,
        calls: &[
            GIVES_ITSELF,
            Poll,
            GIVES_ITSELF,
            Poll,
            GIVES_ITSELF,
            Poll,
            GIVES_ITSELF,
            Poll,
        ],
        waits: &[
            FOLLOWED,
            Waiting {
                received: 110,
                ..FOLLOWED
            },
            Waiting {
                received: 165,
                ..FOLLOWED
            },
        ],
        ends: Ends::Bodiless(Code::TooManyRedirects, 302, ITSELF),
        hops: 4,
        ..TWICE
    },
];

/// It has had no link, and wants one to the first port.
const BEGUN: Links = Links {
    home: None,
    wants: Wanted::Any(8080),
    received: 0,
    code: None,
    given: 0,
};

/// It has ended, all went well, and it has no link.
const DONE: Links = Links {
    wants: Wanted::Nothing,
    code: Some(Code::Ok),
    ..BEGUN
};

static HOP_LINKS: [Row<'static>; 3] = [
    Row {
        name: "a_link_is_handed_out_after_each_hop",
        calls: &[
            TakeLinks,
            GIVES_AWAY,
            Poll,
            TakeLinks,
            Fresh(&[Bytes(COUNTED)], &[]),
            Poll,
        ],
        waits: &[FOLLOWED_AWAY],
        links: &[
            BEGUN,
            Links {
                home: Some(8080),
                wants: Wanted::Any(81),
                received: 73,
                given: 1,
                ..BEGUN
            },
            Links {
                home: Some(81),
                received: 116,
                given: 1,
                ..DONE
            },
        ],
        ends: Ends::Hello(COUNTED, 1),
        ..TWICE
    },
    Row {
        name: "a_link_that_is_not_taken_is_dropped_for_the_next",
        calls: &[GIVES_AWAY, Poll, Fresh(&[Bytes(CLOSES)], &[]), Poll],
        waits: &[FOLLOWED_AWAY],
        links: &[Links {
            received: 130,
            ..DONE
        }],
        ends: Ends::Failed(Code::Ok, 200, CLOSES),
        ..TWICE
    },
    Row {
        name: "a_link_that_closes_is_not_handed_out_between_hops",
        calls: &[Fresh(&[Bytes(FOUND_CLOSES)], &[]), Poll, TakeLinks],
        waits: &[Waiting {
            received: 74,
            ..FOLLOWED
        }],
        links: &[Links {
            home: Some(8080),
            received: 74,
            ..BEGUN
        }],
        ends: Ends::Never,
        ..TWICE
    },
];

/// Transfers of several hops: how they end, and which links are handed out.
pub(crate) fn rows() -> [&'static [Row<'static>]; 5] {
    [
        &HOP_DEADLINES,
        &HOP_RETRIES,
        &HOP_ENDS,
        &HOP_LIMITS,
        &HOP_LINKS,
    ]
}
