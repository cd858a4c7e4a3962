//! Rows of chains of hops, as redirects lead on: what each hop sends and is given, and what the chain ends with. All was written by hand.

use crate::hops::HERE;
use crate::responses::{COUNTED, FOUND, HEAD, TEMPORARY};
use crate::rows::Call::{Fresh, Poll};
use crate::rows::{Call, Ends, ExpectedHop, Row, Waiting, Wanted};
use crate::table::GET;
use mx_link::ScriptRead::Bytes;
use mx_types::{Code, Method};

const GET_A: &[u8] = b"GET /a HTTP/1.1\r\nHost: 127.0.0.1:8080\r\nAccept: */*\r\n\r\n";

const GET_B: &[u8] = b"GET /b HTTP/1.1\r\nHost: 127.0.0.1:8080\r\nAccept: */*\r\n\r\n";

const GET_C: &[u8] = b"GET /c HTTP/1.1\r\nHost: 127.0.0.1:8080\r\nAccept: */*\r\n\r\n";

const POST_A: &[u8] =
    b"POST /a HTTP/1.1\r\nHost: 127.0.0.1:8080\r\nAccept: */*\r\nContent-Length: 2\r\n\r\nhi";

const POST_C: &[u8] =
    b"POST /c HTTP/1.1\r\nHost: 127.0.0.1:8080\r\nAccept: */*\r\nContent-Length: 2\r\n\r\nhi";

const PUT_A: &[u8] =
    b"PUT /a HTTP/1.1\r\nHost: 127.0.0.1:8080\r\nAccept: */*\r\nContent-Length: 2\r\n\r\nhi";

const PUT_C: &[u8] =
    b"PUT /c HTTP/1.1\r\nHost: 127.0.0.1:8080\r\nAccept: */*\r\nContent-Length: 2\r\n\r\nhi";

/// 67 bytes.
const MOVED: &[u8] = b"HTTP/1.1 301 Moved Permanently\r\nLocation: /c\r\nContent-Length: 0\r\n\r\n";

/// 59 bytes.
const SEE_OTHER: &[u8] = b"HTTP/1.1 303 See Other\r\nLocation: /c\r\nContent-Length: 0\r\n\r\n";

const GIVES_FOUND: Call<'static> = Fresh(&[Bytes(FOUND)], &[]);

const GIVES_COUNTED: Call<'static> = Fresh(&[Bytes(COUNTED)], &[]);

/// A redirect with status 302 was followed, and its link gave 55 bytes.
const FOLLOWED: Waiting = Waiting {
    asks: true,
    wants: Wanted::Any(8080),
    started: true,
    received: 55,
    deadline: None,
};

/// The same, of 307.
const FOLLOWED_307: Waiting = Waiting {
    received: 68,
    ..FOLLOWED
};

/// The same, of 301.
const FOLLOWED_301: Waiting = Waiting {
    received: 67,
    ..FOLLOWED
};

/// The same, of 303.
const FOLLOWED_303: Waiting = Waiting {
    received: 59,
    ..FOLLOWED
};

/// The same, of one that leads to another port.
const FOLLOWED_AWAY: Waiting = Waiting {
    wants: Wanted::Any(8081),
    received: 75,
    ..FOLLOWED
};

/// It follows one redirect at most, and ends at its first response.
const AT_ONCE: Row<'static> = Row {
    url: HERE,
    max_redirects: 1,
    ..GET
};

/// It follows one redirect.
const ON: Row<'static> = Row {
    url: HERE,
    max_redirects: 1,
    waits: &[FOLLOWED],
    hops: 2,
    ..GET
};

/// It leads to another port.
const AWAY: &[u8] =
    b"HTTP/1.1 302 Found\r\nLocation: http://127.0.0.1:8081/\r\nContent-Length: 0\r\n\r\n";

/// It leads back to the first port.
const BACK: &[u8] =
    b"HTTP/1.1 308 Permanent Redirect\r\nLocation: http://127.0.0.1:8080/d\r\nContent-Length: 0\r\n\r\n";

/// Both were followed.
const FOLLOWED_BACK: Waiting = Waiting {
    received: 164,
    ..FOLLOWED
};

const GET_A_COOKIE: &[u8] =
    b"GET /a HTTP/1.1\r\nHost: 127.0.0.1:8080\r\nAccept: */*\r\ncookie: a=1\r\n\r\n";

const GET_ROOT: &[u8] = b"GET / HTTP/1.1\r\nHost: 127.0.0.1:8081\r\nAccept: */*\r\n\r\n";

const GET_D_COOKIE: &[u8] =
    b"GET /d HTTP/1.1\r\nHost: 127.0.0.1:8080\r\nAccept: */*\r\ncookie: a=1\r\n\r\n";

static REDIRECTS: [Row<'static>; 2] = [
    // rule redirect-condition
    Row {
        name: "a_redirect_is_followed",
        max_redirects: 2,
        calls: &[GIVES_FOUND, Poll, GIVES_COUNTED, Poll],
        chain: &[
            ExpectedHop {
                sent: GET_A,
                reply: FOUND,
                heads: FOUND,
                status: 302,
            },
            ExpectedHop {
                sent: GET_B,
                reply: COUNTED,
                heads: HEAD,
                status: 200,
            },
        ],
        ..ON
    },
    Row {
        name: "a_redirect_past_the_limit_is_47",
        calls: &[GIVES_FOUND, Poll, GIVES_FOUND, Poll],
        ends: Ends::Bodiless(Code::TooManyRedirects, 302, FOUND),
        chain: &[
            ExpectedHop {
                sent: GET_A,
                reply: FOUND,
                heads: FOUND,
                status: 302,
            },
            ExpectedHop {
                sent: GET_B,
                reply: FOUND,
                heads: FOUND,
                status: 302,
            },
        ],
        ..ON
    },
];

static COOKIES: [Row<'static>; 1] = [Row {
    name: "a_cookie_goes_to_the_first_endpoint_alone",
    cookie: Some("a=1"),
    max_redirects: 2,
    calls: &[
        Fresh(&[Bytes(AWAY)], &[]),
        Poll,
        Fresh(&[Bytes(BACK)], &[]),
        Poll,
        GIVES_COUNTED,
        Poll,
    ],
    waits: &[FOLLOWED_AWAY, FOLLOWED_BACK],
    hops: 3,
    chain: &[
        ExpectedHop {
            sent: GET_A_COOKIE,
            reply: AWAY,
            heads: AWAY,
            status: 302,
        },
        ExpectedHop {
            sent: GET_ROOT,
            reply: BACK,
            heads: BACK,
            status: 308,
        },
        ExpectedHop {
            sent: GET_D_COOKIE,
            reply: COUNTED,
            heads: HEAD,
            status: 200,
        },
    ],
    ..ON
}];

/// The heads of `HINTED_AND_MOVED`, 95 bytes.
const HINTED_HEADS: &[u8] =
    b"HTTP/1.1 103 Early Hints\r\nLink: </x>\r\n\r\nHTTP/1.1 302 Found\r\nLocation: /b\r\nContent-Length: 5\r\n\r\n";

/// A redirect behind an interim head, with a body: 100 bytes.
const HINTED_AND_MOVED: &[u8] =
    b"HTTP/1.1 103 Early Hints\r\nLink: </x>\r\n\r\nHTTP/1.1 302 Found\r\nLocation: /b\r\nContent-Length: 5\r\n\r\nmoved";

/// The head of `MOVED_IN_CHUNKS`, 64 bytes.
const CHUNKED_HEAD: &[u8] =
    b"HTTP/1.1 302 Found\r\nLocation: /b\r\nTransfer-Encoding: chunked\r\n\r\n";

/// A redirect with a body in chunks: 85 bytes.
const MOVED_IN_CHUNKS: &[u8] =
    b"HTTP/1.1 302 Found\r\nLocation: /b\r\nTransfer-Encoding: chunked\r\n\r\n5\r\nmoved\r\n0\r\nA: b\r\n\r\n";

/// A hop whose redirect has a body behind an interim head, and one whose body is in chunks.
const WITH_BODIES: [ExpectedHop<'static>; 3] = [
    ExpectedHop {
        sent: GET_A,
        reply: HINTED_AND_MOVED,
        heads: HINTED_HEADS,
        status: 302,
    },
    ExpectedHop {
        sent: GET_B,
        reply: MOVED_IN_CHUNKS,
        heads: CHUNKED_HEAD,
        status: 302,
    },
    ExpectedHop {
        sent: GET_B,
        reply: COUNTED,
        heads: HEAD,
        status: 200,
    },
];

// rule redirect-heads
static BODIES: [Row<'static>; 1] = [Row {
    name: "redirects_with_bodies_are_followed",
    max_redirects: 2,
    calls: &[
        Fresh(&[Bytes(HINTED_AND_MOVED)], &[]),
        Poll,
        Fresh(&[Bytes(MOVED_IN_CHUNKS)], &[]),
        Poll,
        GIVES_COUNTED,
        Poll,
    ],
    waits: &[
        Waiting {
            received: 100,
            ..FOLLOWED
        },
        Waiting {
            received: 185,
            ..FOLLOWED
        },
    ],
    hops: 3,
    chain: &WITH_BODIES,
    ..ON
}];

/// It has no Location.
const UNLOCATED: &[u8] = b"HTTP/1.1 302 Found\r\nContent-Length: 0\r\n\r\n";

/// Its first Location is empty.
const EMPTY: &[u8] =
    b"HTTP/1.1 302 Found\r\nLocation: \r\nLocation: /b\r\nContent-Length: 0\r\n\r\n";

/// Only its interim head has a Location.
const HINTED: &[u8] =
    b"HTTP/1.1 103 Early Hints\r\nLocation: /b\r\n\r\nHTTP/1.1 302 Found\r\nContent-Length: 0\r\n\r\n";

static NOT_FOLLOWED: [Row<'static>; 2] = [
    // rule redirect-condition
    Row {
        name: "without_a_limit_none_is_followed",
        max_redirects: 0,
        calls: &[Fresh(&[Bytes(FOUND)], &[]), Poll],
        ends: Ends::Bodiless(Code::Ok, 302, FOUND),
        chain: &[ExpectedHop {
            sent: GET_A,
            reply: FOUND,
            heads: FOUND,
            status: 302,
        }],
        ..AT_ONCE
    },
    Row {
        name: "a_location_of_an_interim_head_is_no_redirect",
        calls: &[Fresh(&[Bytes(HINTED)], &[]), Poll],
        ends: Ends::Bodiless(Code::Ok, 302, HINTED),
        chain: &[ExpectedHop {
            sent: GET_A,
            reply: HINTED,
            heads: HINTED,
            status: 302,
        }],
        ..AT_ONCE
    },
];

static NO_LOCATIONS: [Row<'static>; 2] = [
    Row {
        name: "no_location_is_no_redirect",
        calls: &[Fresh(&[Bytes(UNLOCATED)], &[]), Poll],
        ends: Ends::Bodiless(Code::Ok, 302, UNLOCATED),
        chain: &[ExpectedHop {
            sent: GET_A,
            reply: UNLOCATED,
            heads: UNLOCATED,
            status: 302,
        }],
        ..AT_ONCE
    },
    // rule redirect-condition
    Row {
        name: "an_empty_location_is_no_redirect",
        calls: &[Fresh(&[Bytes(EMPTY)], &[]), Poll],
        ends: Ends::Bodiless(Code::Ok, 302, EMPTY),
        chain: &[ExpectedHop {
            sent: GET_A,
            reply: EMPTY,
            heads: EMPTY,
            status: 302,
        }],
        ..AT_ONCE
    },
];

const TO_HTTPS: &[u8] = b"HTTP/1.1 302 Found\r\nLocation: https://x/\r\nContent-Length: 0\r\n\r\n";

const TO_USER: &[u8] = b"HTTP/1.1 302 Found\r\nLocation: http://u@x/\r\nContent-Length: 0\r\n\r\n";

const TO_BRACKET: &[u8] = b"HTTP/1.1 302 Found\r\nLocation: http://[\r\nContent-Length: 0\r\n\r\n";

const TO_BYTE_255: &[u8] = b"HTTP/1.1 302 Found\r\nLocation: /\xff\r\nContent-Length: 0\r\n\r\n";

static REFUSED_LOCATIONS: [Row<'static>; 2] = [
    Row {
        name: "a_location_of_another_scheme_is_refused",
        calls: &[Fresh(&[Bytes(TO_HTTPS)], &[]), Poll],
        ends: Ends::Bodiless(Code::UnsupportedProtocol, 302, TO_HTTPS),
        chain: &[ExpectedHop {
            sent: GET_A,
            reply: TO_HTTPS,
            heads: TO_HTTPS,
            status: 302,
        }],
        ..AT_ONCE
    },
    Row {
        name: "a_location_with_a_user_is_refused",
        calls: &[Fresh(&[Bytes(TO_USER)], &[]), Poll],
        ends: Ends::Bodiless(Code::UrlMalformat, 302, TO_USER),
        chain: &[ExpectedHop {
            sent: GET_A,
            reply: TO_USER,
            heads: TO_USER,
            status: 302,
        }],
        ..AT_ONCE
    },
];

static MALFORMED_LOCATIONS: [Row<'static>; 2] = [
    Row {
        name: "a_location_with_a_bad_host_is_refused",
        calls: &[Fresh(&[Bytes(TO_BRACKET)], &[]), Poll],
        ends: Ends::Bodiless(Code::UrlMalformat, 302, TO_BRACKET),
        chain: &[ExpectedHop {
            sent: GET_A,
            reply: TO_BRACKET,
            heads: TO_BRACKET,
            status: 302,
        }],
        ..AT_ONCE
    },
    Row {
        name: "a_location_that_is_not_ascii_is_refused",
        calls: &[Fresh(&[Bytes(TO_BYTE_255)], &[]), Poll],
        ends: Ends::Bodiless(Code::UrlMalformat, 302, TO_BYTE_255),
        chain: &[ExpectedHop {
            sent: GET_A,
            reply: TO_BYTE_255,
            heads: TO_BYTE_255,
            status: 302,
        }],
        ..AT_ONCE
    },
];

/// A request with the body `hi`.
const WITH_HI: Row<'static> = Row {
    body: Some(b"hi"),
    ..ON
};

/// The status decides the method (RFC 9110, section 15.4).
static REWRITTEN: [Row<'static>; 3] = [
    Row {
        name: "a_post_is_a_get_behind_303",
        methods: &[Method::Post],
        calls: &[Fresh(&[Bytes(SEE_OTHER)], &[]), Poll, GIVES_COUNTED, Poll],
        waits: &[FOLLOWED_303],
        chain: &[
            ExpectedHop {
                sent: POST_A,
                reply: SEE_OTHER,
                heads: SEE_OTHER,
                status: 303,
            },
            ExpectedHop {
                sent: GET_C,
                reply: COUNTED,
                heads: HEAD,
                status: 200,
            },
        ],
        ..WITH_HI
    },
    Row {
        name: "a_post_is_a_get_behind_301",
        methods: &[Method::Post],
        calls: &[Fresh(&[Bytes(MOVED)], &[]), Poll, GIVES_COUNTED, Poll],
        waits: &[FOLLOWED_301],
        chain: &[
            ExpectedHop {
                sent: POST_A,
                reply: MOVED,
                heads: MOVED,
                status: 301,
            },
            ExpectedHop {
                sent: GET_C,
                reply: COUNTED,
                heads: HEAD,
                status: 200,
            },
        ],
        ..WITH_HI
    },
    Row {
        name: "a_put_is_a_get_behind_303",
        methods: &[Method::Put],
        calls: &[Fresh(&[Bytes(SEE_OTHER)], &[]), Poll, GIVES_COUNTED, Poll],
        waits: &[FOLLOWED_303],
        chain: &[
            ExpectedHop {
                sent: PUT_A,
                reply: SEE_OTHER,
                heads: SEE_OTHER,
                status: 303,
            },
            ExpectedHop {
                sent: GET_C,
                reply: COUNTED,
                heads: HEAD,
                status: 200,
            },
        ],
        ..WITH_HI
    },
];

static KEPT_METHODS: [Row<'static>; 2] = [
    Row {
        name: "a_post_stays_one_behind_307",
        methods: &[Method::Post],
        calls: &[Fresh(&[Bytes(TEMPORARY)], &[]), Poll, GIVES_COUNTED, Poll],
        waits: &[FOLLOWED_307],
        chain: &[
            ExpectedHop {
                sent: POST_A,
                reply: TEMPORARY,
                heads: TEMPORARY,
                status: 307,
            },
            ExpectedHop {
                sent: POST_C,
                reply: COUNTED,
                heads: HEAD,
                status: 200,
            },
        ],
        ..WITH_HI
    },
    Row {
        name: "a_put_stays_one_behind_301",
        methods: &[Method::Put],
        calls: &[Fresh(&[Bytes(MOVED)], &[]), Poll, GIVES_COUNTED, Poll],
        waits: &[FOLLOWED_301],
        chain: &[
            ExpectedHop {
                sent: PUT_A,
                reply: MOVED,
                heads: MOVED,
                status: 301,
            },
            ExpectedHop {
                sent: PUT_C,
                reply: COUNTED,
                heads: HEAD,
                status: 200,
            },
        ],
        ..WITH_HI
    },
];

/// Redirects that are followed, and one too many; those with bodies; responses that lead nowhere; those with a Location that is refused; and requests with a
/// body.
pub(crate) fn rows() -> [&'static [Row<'static>]; 9] {
    [
        &REDIRECTS,
        &COOKIES,
        &BODIES,
        &NOT_FOLLOWED,
        &NO_LOCATIONS,
        &REFUSED_LOCATIONS,
        &MALFORMED_LOCATIONS,
        &REWRITTEN,
        &KEPT_METHODS,
    ]
}
