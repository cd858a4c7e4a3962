//! Calls of requests, of endpoints and of idle links that may be refused memory, and are made again as those of `refused`.

use crate::idle::{put, take};
use crate::refused::AGAIN;
use crate::request_row::{GET, Row, Seen, is_right};
use crate::settings::{Given, settings_of};
use mx_request::{Endpoint, Request, RequestError};
use mx_turn::IdleCache;
use mx_types::{Method, OutOfMemory};
use std::alloc::{AllocError, Global};
use std::test::Fail;

/// A POST with a user agent, a field, the body `hi` and a limit of time.
const POST: Row = Row {
    method: Method::Post,
    given: Given::All,
    ..GET
};

static ROWS: [Row; 8] = [
    Row {
        name: "url_with_port_query_and_fragment",
        url: "http://127.0.0.1:8080/a?b#c",
        seen: Seen::Sent("GET /a?b HTTP/1.1\r\nHost: 127.0.0.1:8080\r\nAccept: */*\r\n\r\n"),
        ..GET
    },
    Row {
        name: "url_in_capitals_with_port_80_and_a_blank",
        url: "HTTP://EXAMPLE.com:80/x y",
        seen: Seen::Sent("GET /x%20y HTTP/1.1\r\nHost: example.com\r\nAccept: */*\r\n\r\n"),
        ..GET
    },
    Row {
        name: "all_that_settings_add",
        url: "http://example.com/p",
        seen: Seen::Sent(
            "POST /p HTTP/1.1\r\nHost: example.com\r\nUser-Agent: mx/1\r\nAccept: */*\r\nX-A: 1\r\nContent-Length: 2\r\n\r\nhi",
        ),
        ..POST
    },
    Row {
        name: "a_callers_own_accept",
        given: Given::Field("accept", "text/plain"),
        seen: Seen::Sent("GET / HTTP/1.1\r\nHost: example.com\r\naccept: text/plain\r\n\r\n"),
        ..GET
    },
    Row {
        name: "https_with_a_user",
        url: "https://u@example.com/",
        seen: Seen::Refused(RequestError::Scheme),
        ..GET
    },
    Row {
        name: "no_scheme",
        url: "example.com",
        seen: Seen::Refused(RequestError::Malformed),
        ..GET
    },
    Row {
        name: "user",
        url: "http://u@example.com/",
        seen: Seen::Refused(RequestError::UserInfo),
        ..GET
    },
    Row {
        name: "field_with_a_cr",
        given: Given::Field("X-A", "1\r2"),
        seen: Seen::Refused(RequestError::BadField),
        ..GET
    },
];

/// Why a part stops before its end.
#[derive(Clone, Copy)]
enum Stop {
    /// Memory was refused to what the test needs for itself.
    Memory,
    /// A call answered this.
    Other(&'static str),
}

impl From<AllocError> for Stop {
    fn from(_refused: AllocError) -> Stop {
        Stop::Memory
    }
}

/// How a call went.
#[derive(Clone, Copy, PartialEq, Eq)]
enum Went {
    /// It answered as it should.
    Right,
    /// It was refused memory.
    Refused,
    /// It answered something else.
    Wrong,
}

// How an answer compares with what is to be seen.
fn judge_answer(
    alloc: Global,
    answer: &Result<Request, RequestError>,
    given: Given,
    seen: &Seen,
) -> Went {
    if is_right(alloc, answer, given, seen) {
        return Went::Right;
    }
    match answer {
        Err(RequestError::OutOfMemory) => Went::Refused,
        _ => Went::Wrong,
    }
}

// The same, of an answer that is dropped then.
fn compare(
    alloc: Global,
    answer: Result<Request, RequestError>,
    given: Given,
    seen: &Seen,
) -> Went {
    let went = judge_answer(alloc, &answer, given, seen);
    drop(answer);
    went
}

// Builds a row's request.
fn build(alloc: Global, row: &Row) -> Result<Went, AllocError> {
    let settings = settings_of(alloc, row.given)?;
    let answer = Request::build(alloc, row.method, row.url, settings);
    Ok(compare(alloc, answer, row.given, &row.seen))
}

// Whether memory was refused at one of the calls, each of which is made again then. It fails where one went wrong.
fn judge(went: Went, again: Went) -> Result<bool, Stop> {
    match (went, again) {
        (Went::Right, _) => Ok(false),
        (Went::Refused, Went::Right) => Ok(true),
        (Went::Refused, _) => Err(Stop::Other("another answer when it was made again")),
        (Went::Wrong, _) => Err(Stop::Other("another answer")),
    }
}

// Builds a row's request, again where that didn't go right.
fn build_row_again(alloc: Global, row: &Row) -> Result<bool, Stop> {
    let went = build(alloc, row)?;
    if went == Went::Right {
        return Ok(false);
    }
    let again = build(alloc, row)?;
    judge(went, again)
}

// Builds the requests of these rows, again where memory was refused.
fn build_again(alloc: Global, rows: &[Row]) -> Result<bool, Stop> {
    let mut is_refused = false;
    for row in rows {
        let refused = build_row_again(alloc, row)?;
        is_refused = is_refused || refused;
    }
    Ok(is_refused)
}

/// The request to /c that follows that POST.
const FOLLOWS: Seen = Seen::Sent(
    "GET /c HTTP/1.1\r\nHost: h\r\nUser-Agent: mx/1\r\nAccept: */*\r\nX-A: 1\r\n\r\n",
);

// Follows a request at a redirect.
fn follow(alloc: Global, request: &Request) -> Went {
    let answer = request.follow(alloc, 302, b"/c");
    compare(alloc, answer, Given::All, &FOLLOWS)
}

// Follows a request, again where that didn't go right.
fn follow_twice(alloc: Global, request: &Request) -> Result<bool, Stop> {
    let went = follow(alloc, request);
    if went == Went::Right {
        return Ok(false);
    }
    judge(went, follow(alloc, request))
}

// The request that is followed.
fn followed(alloc: Global) -> Result<Request, Stop> {
    let settings = settings_of(alloc, Given::All)?;
    match Request::build(alloc, Method::Post, "http://h/p", settings) {
        Ok(request) => Ok(request),
        Err(RequestError::OutOfMemory) => Err(Stop::Memory),
        Err(_) => Err(Stop::Other("a request that is refused")),
    }
}

// Follows a request, again where memory was refused.
fn follow_again(alloc: Global) -> Result<bool, Stop> {
    let request = followed(alloc)?;
    let is_refused = follow_twice(alloc, &request);
    drop(request);
    is_refused
}

// Copies an endpoint.
fn copy(alloc: Global, endpoint: &Endpoint) -> Went {
    match endpoint.copy(alloc) {
        Err(OutOfMemory) => Went::Refused,
        Ok(copy) => {
            let is_same = copy == *endpoint;
            drop(copy);
            if is_same { Went::Right } else { Went::Wrong }
        }
    }
}

// Copies an endpoint, again where that didn't go right.
fn copy_twice(alloc: Global, endpoint: &Endpoint) -> Result<bool, Stop> {
    let went = copy(alloc, endpoint);
    if went == Went::Right {
        return Ok(false);
    }
    judge(went, copy(alloc, endpoint))
}

// Copies an endpoint, again where memory was refused.
fn copy_again(alloc: Global) -> Result<bool, Stop> {
    let host = String::from_str(alloc, "[::1]")?;
    let endpoint = Endpoint { host, port: 81 };
    let is_refused = copy_twice(alloc, &endpoint);
    drop(endpoint);
    is_refused
}

// Makes a cache of two links, again where memory was refused; and whether it was.
fn cache(alloc: Global) -> Result<(IdleCache<u32>, bool), AllocError> {
    match IdleCache::with_limit(alloc, 2) {
        Ok(cache) => Ok((cache, false)),
        Err(OutOfMemory) => match IdleCache::with_limit(alloc, 2) {
            Ok(cache) => Ok((cache, true)),
            Err(OutOfMemory) => Err(AllocError),
        },
    }
}

// Puts three links of two endpoints, and takes two: whether the first comes back, and the third is taken.
fn put_three(alloc: Global, cache: &mut IdleCache<u32>) -> Result<bool, AllocError> {
    let back = [
        put(alloc, cache, "a", 1)?,
        put(alloc, cache, "b", 2)?,
        put(alloc, cache, "a", 3)?,
    ];
    let taken = [take(alloc, cache, "a")?, take(alloc, cache, "a")?];
    Ok(back == [None, None, Some(1)] && taken == [Some(3), None] && cache.len() == 1)
}

// Fills a cache that is made again where memory was refused.
fn fill_again(alloc: Global) -> Result<bool, Stop> {
    let (mut cache, is_refused) = cache(alloc)?;
    let are_right = put_three(alloc, &mut cache);
    drop(cache);
    if are_right? {
        return Ok(is_refused);
    }
    Err(Stop::Other("another link"))
}

// Whether memory was refused at one of the calls.
fn call_again(alloc: Global) -> Result<bool, Stop> {
    let is_copied_again = copy_again(alloc)?;
    let is_filled_again = fill_again(alloc)?;
    let is_followed_again = follow_again(alloc)?;
    let is_built_again = build_again(alloc, &ROWS)?;
    Ok(is_copied_again || is_filled_again || is_followed_again || is_built_again)
}

#[test]
fn calls_are_made_again(rt: HostRuntime) -> Result<(), Fail> {
    match call_again(rt.alloc()) {
        Ok(false) => Ok(()),
        Ok(true) => Err(AGAIN.into()),
        Err(Stop::Memory) => Err(AllocError.into()),
        Err(Stop::Other(said)) => Err(said.into()),
    }
}
