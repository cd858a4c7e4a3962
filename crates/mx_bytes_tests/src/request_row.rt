//! Rows: a request that is built, those that follow it at redirects, and what is seen of each.

use crate::settings::{Given, kept_of, settings_of};
use mx_request::{Endpoint, Request, RequestError, is_redirect};
use mx_types::{Method, Settings};
use std::alloc::{AllocError, Global};

/// What is seen of a request.
#[derive(Clone, Copy)]
pub(crate) enum Seen {
    /// Its bytes.
    Sent(&'static str),
    /// The target and the host of a GET without settings.
    Get(&'static str, &'static str),
    /// The host and the port of its endpoint.
    Endpoint(&'static str, u16),
    /// That there is one.
    Built,
    /// Why there is none.
    Refused(RequestError),
}

/// A status, a Location, and what is seen of the request that follows.
#[derive(Clone, Copy)]
pub(crate) struct Hop(pub u16, pub &'static [u8], pub Seen);

/// A request that is built, and those that follow it.
#[derive(Clone, Copy)]
pub(crate) struct Row {
    /// What it is about.
    pub name: &'static str,
    pub method: Method,
    pub url: &'static str,
    pub given: Given,
    /// What is seen of the first.
    pub seen: Seen,
    /// Each follows the one before; the request before stays where one is refused.
    pub hops: &'static [Hop],
}

/// A GET without settings.
pub(crate) const GET: Row = Row {
    name: "",
    method: Method::Get,
    url: "http://example.com/",
    given: Given::Nothing,
    seen: Seen::Built,
    hops: &[],
};

/// A GET at the endpoint 127.0.0.1:8080.
pub(crate) const FROM: Row = Row {
    url: "http://127.0.0.1:8080/a/b?c#d",
    ..GET
};

/// Whether these texts, one after another, are the bytes.
fn are_parts(bytes: &[u8], parts: &[&str]) -> bool {
    let mut rest = bytes;
    for part in parts {
        match rest.strip_prefix(part.as_bytes()) {
            Some(behind) => rest = behind,
            None => return false,
        }
    }
    rest.is_empty()
}

/// Whether a request has the bytes of these texts, which begin with its method.
fn has_bytes(request: &Request, sent: &[&str]) -> bool {
    let bytes = request.bytes();
    are_parts(bytes, sent) && bytes.starts_with(request.method().as_str().as_bytes())
}

/// Whether a request has the bytes of a GET without settings.
fn is_get(request: &Request, target: &str, host: &str) -> bool {
    has_bytes(
        request,
        &[
            "GET ",
            target,
            " HTTP/1.1\r\nHost: ",
            host,
            "\r\nAccept: */*\r\n\r\n",
        ],
    )
}

/// Whether a copy of an endpoint equals it, and has that host and that port.
fn is_copy(copy: &Endpoint, endpoint: &Endpoint, host: &str, port: u16) -> bool {
    (*copy == *endpoint) & (copy.host.as_str() == host) & (copy.port == port)
}

/// Whether an endpoint is copied so.
fn is_copied(alloc: Global, endpoint: &Endpoint, host: &str, port: u16) -> bool {
    match endpoint.copy(alloc) {
        Ok(copy) => {
            let is_copy = is_copy(&copy, endpoint, host, port);
            drop(copy);
            is_copy
        }
        Err(_) => false,
    }
}

/// Whether an endpoint differs from that of this host and another port.
fn is_no_other(alloc: Global, endpoint: &Endpoint, host: &str) -> bool {
    match String::from_str(alloc, host) {
        Ok(host) => *endpoint != Endpoint { host, port: 9 },
        Err(AllocError) => false,
    }
}

/// Whether that is seen of a request.
fn is_seen(alloc: Global, request: &Request, seen: &Seen) -> bool {
    match *seen {
        Seen::Sent(sent) => has_bytes(request, &[sent]),
        Seen::Get(target, host) => is_get(request, target, host),
        Seen::Endpoint(host, port) => {
            is_copied(alloc, request.endpoint(), host, port)
                && is_no_other(alloc, request.endpoint(), host)
        }
        Seen::Built => true,
        Seen::Refused(_) => false,
    }
}

/// Whether a request keeps what a chain keeps of its settings.
fn is_kept(request: &Request, given: Given) -> bool {
    let (timeout_ms, max_redirects) = kept_of(given);
    (request.timeout_ms() == timeout_ms) & (request.max_redirects() == max_redirects)
}

/// Whether a request with these settings gives what the row says.
pub(crate) fn is_right(
    alloc: Global,
    answer: &Result<Request, RequestError>,
    given: Given,
    seen: &Seen,
) -> bool {
    match answer {
        Ok(request) => is_seen(alloc, request, seen) && is_kept(request, given),
        Err(refused) => match *seen {
            Seen::Refused(told) => *refused == told,
            _ => false,
        },
    }
}

/// Follows a request, where its status is one that sends on.
fn follow(alloc: Global, request: &Request, hop: &Hop) -> Option<Result<Request, RequestError>> {
    if is_redirect(hop.0) {
        Some(request.follow(alloc, hop.0, hop.1))
    } else {
        None
    }
}

/// Puts the request that follows, if there is one, in place of the one before.
fn go_on(request: &mut Request, answer: Result<Request, RequestError>) {
    if let Ok(next) = answer {
        *request = next;
    }
}

/// Follows a request, and goes on with the one that follows: whether the expected is seen.
fn take_hop(alloc: Global, request: &mut Request, given: Given, hop: &Hop) -> bool {
    match follow(alloc, request, hop) {
        Some(answer) => {
            let is_right = is_right(alloc, &answer, given, &hop.2);
            go_on(request, answer);
            is_right
        }
        None => false,
    }
}

/// Whether what follows a request is as it should be, at each of these hops.
fn takes_all(alloc: Global, request: &mut Request, given: Given, hops: &[Hop]) -> bool {
    let mut is_all_right = true;
    for hop in hops {
        is_all_right = take_hop(alloc, request, given, hop) && is_all_right;
    }
    is_all_right
}

/// Whether an answer is as it should be, and what follows it. Nothing follows one that is refused.
fn follows(
    alloc: Global,
    answer: &mut Result<Request, RequestError>,
    row: &Row,
    hops: &[Hop],
) -> bool {
    let is_right = is_right(alloc, answer, row.given, &row.seen);
    match answer {
        Ok(request) => takes_all(alloc, request, row.given, hops) && is_right,
        Err(_) => hops.is_empty() && is_right,
    }
}

/// Whether a row goes as it should with these settings and these hops.
fn goes_with(alloc: Global, settings: Settings, row: &Row, hops: &[Hop]) -> bool {
    let mut answer = Request::build(alloc, row.method, row.url, settings);
    let goes = follows(alloc, &mut answer, row, hops);
    drop(answer);
    goes
}

/// Whether it does with its settings. It doesn't where there is no memory for them.
fn goes(alloc: Global, row: &Row, hops: &[Hop]) -> bool {
    match settings_of(alloc, row.given) {
        Ok(settings) => goes_with(alloc, settings, row, hops),
        Err(AllocError) => false,
    }
}

/// The name of the first of these rows that doesn't.
fn first_wrong_row(alloc: Global, rows: &[Row]) -> Option<&'static str> {
    for row in rows {
        if !goes(alloc, row, row.hops) {
            return Some(row.name);
        }
    }
    None
}

/// A name, the method of a request, and one hop.
pub(crate) type Led = (&'static str, Method, Hop);

/// The name of the first of these that doesn't go as it should, where requests at that endpoint are built with these settings.
fn first_wrong_led(alloc: Global, given: Given, rows: &[Led]) -> Option<&'static str> {
    for one in rows {
        if !leads(alloc, given, one) {
            return Some(one.0);
        }
    }
    None
}

/// Whether one of them does.
fn leads(alloc: Global, given: Given, led: &Led) -> bool {
    let (_, method, hop) = *led;
    let row = Row {
        method,
        given,
        ..FROM
    };
    goes(alloc, &row, &[hop])
}

/// Rows of one kind. Those of one hop have no slice within them, which makes a shorter proof.
#[derive(Clone, Copy)]
pub(crate) enum Rows {
    Any(&'static [Row]),
    /// Requests as `FROM` with these settings, each with its method, and one hop of each.
    Led(Given, &'static [Led]),
}

/// The name of the first of these rows that doesn't go as it should.
pub(crate) fn first_wrong(alloc: Global, rows: Rows) -> Option<&'static str> {
    match rows {
        Rows::Any(rows) => first_wrong_row(alloc, rows),
        Rows::Led(given, rows) => first_wrong_led(alloc, given, rows),
    }
}
