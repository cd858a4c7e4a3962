//! Addresses of hosts over a network of the tests' own, and the codes of what fails.
use crate::outside::{At, Outside, address, endpoint, set, v4};
use mx_gate::{addresses_of, connect_code, meets_file_limit};
use mx_names::{lookup_code, unbracketed};
use mx_request::Endpoint;
use mx_types::{Code, History};
use std::alloc::{AllocError, Global};
use std::io::{Error, ErrorKind};
use std::net::SocketAddr;
use std::test::Fail;

/// What lookups give: these addresses, four at most, or this error.
#[derive(Clone, Copy)]
enum Gives {
    All(&'static [At]),
    Fails(ErrorKind),
}

/// What a host has then: these addresses, each with its port, or this code.
#[derive(Clone, Copy)]
enum Has {
    All(&'static [At]),
    Code(Code),
}

#[derive(Clone, Copy)]
struct Row {
    name: &'static str,
    host: &'static str,
    port: u16,
    gives: Gives,
    has: Has,
}

// rule gate-first-address
const NAMED: Row = Row {
    name: "ipv4_comes_first_and_else_the_order_stays",
    host: "example.com",
    port: 8080,
    gives: Gives::All(&[
        At::V6(1),
        At::V4([192, 0, 2, 2]),
        At::V6(4),
        At::V4([192, 0, 2, 3]),
    ]),
    has: Has::All(&[
        At::V4([192, 0, 2, 2]),
        At::V4([192, 0, 2, 3]),
        At::V6(1),
        At::V6(4),
    ]),
};

static ROWS: [Row; 8] = [
    NAMED,
    Row {
        name: "one_address",
        gives: Gives::All(&[At::V6(1)]),
        has: Has::All(&[At::V6(1)]),
        ..NAMED
    },
    Row {
        name: "two_addresses",
        gives: Gives::All(&[At::V4([192, 0, 2, 1]), At::V6(2)]),
        has: Has::All(&[At::V4([192, 0, 2, 1]), At::V6(2)]),
        ..NAMED
    },
    // rule gate-codes
    Row {
        name: "no_address",
        gives: Gives::All(&[]),
        has: Has::Code(Code::CouldntResolveHost),
        ..NAMED
    },
    Row {
        name: "a_lookup_that_fails",
        gives: Gives::Fails(ErrorKind::NotFound),
        has: Has::Code(Code::CouldntResolveHost),
        ..NAMED
    },
    Row {
        name: "a_lookup_without_memory",
        gives: Gives::Fails(ErrorKind::OutOfMemory),
        has: Has::Code(Code::OutOfMemory),
        ..NAMED
    },
    // rule gate-spelled-address
    // an address is not looked up
    Row {
        name: "an_ipv4_address",
        host: "192.0.2.7",
        port: 81,
        gives: Gives::Fails(ErrorKind::NotFound),
        has: Has::All(&[At::V4([192, 0, 2, 7])]),
    },
    Row {
        name: "an_ipv6_address",
        host: "[2001:db8::7]",
        port: 81,
        gives: Gives::Fails(ErrorKind::NotFound),
        has: Has::All(&[At::V6(7)]),
    },
];

fn are(found: &[SocketAddr], all: &[At], port: u16) -> bool {
    if found.len() != all.len() {
        return false;
    }
    for i in 0..all.len() {
        if found[i] != address(all[i], port) {
            return false;
        }
    }
    true
}

/// What an endpoint has over a network whose lookups give these addresses, or fail so.
fn found(
    alloc: Global,
    all: &[SocketAddr],
    refusal: Option<ErrorKind>,
    there: &Endpoint,
) -> Result<Vec<SocketAddr>, Code> {
    let mut outside = Outside::new(alloc, all);
    outside.refusal = refusal;
    let found = addresses_of(&outside, alloc, there, &mut History::new());
    drop(outside);
    found
}

/// Whether that is what the row says.
fn is_found(found: &Result<Vec<SocketAddr>, Code>, row: &Row) -> bool {
    match (found, row.has) {
        (Ok(found), Has::All(all)) => are(found.as_slice(), all, row.port),
        (Err(code), Has::Code(other)) => *code == other,
        _ => false,
    }
}

/// Whether an endpoint has what the row says.
fn is_right(alloc: Global, row: &Row, there: &Endpoint) -> bool {
    let mut all = [v4([0; 4], 0); 4];
    let (count, refusal) = match row.gives {
        Gives::All(given) => (set(&mut all, given), None),
        Gives::Fails(kind) => (0, Some(kind)),
    };
    let found = found(alloc, &all[..count], refusal, there);
    let is_found = is_found(&found, row);
    drop(found);
    is_found
}

/// Whether a host has what its row says.
fn is_so(alloc: Global, row: &Row) -> bool {
    match endpoint(alloc, row.host, row.port) {
        Ok(there) => is_right(alloc, row, &there),
        Err(AllocError) => false,
    }
}

/// The first row whose host has something else.
fn wrong_row(alloc: Global) -> Option<&'static str> {
    for row in &ROWS {
        if !is_so(alloc, row) {
            return Some(row.name);
        }
    }
    None
}

/// A host, and the same without its brackets.
static HOSTS: [(&'static str, &'static str); 11] = [
    ("[::1]", "::1"),
    ("[2001:db8::7]", "2001:db8::7"),
    ("192.0.2.1", "192.0.2.1"),
    ("example.com", "example.com"),
    ("[", "["),
    ("]", "]"),
    ("[]", ""),
    ("[x", "[x"),
    ("x]", "x]"),
    ("[[x]]", "[x]"),
    ("", ""),
];

// rule gate-codes
/// An error, and the codes of a lookup and of a connection that fail with it.
static CODES: [(&'static str, ErrorKind, Code, Code); 2] = [
    (
        "a refused connection",
        ErrorKind::ConnectionRefused,
        Code::CouldntResolveHost,
        Code::CouldntConnect,
    ),
    (
        "want_of_memory_has_its_own_code",
        ErrorKind::OutOfMemory,
        Code::OutOfMemory,
        Code::OutOfMemory,
    ),
];

// rule gate-file-limit
/// Errors of the system, and whether each says that too many files are open.
static FILE_LIMITS: [(&'static str, i32, bool); 4] = [
    ("ENFILE", 23, true),
    ("EMFILE", 24, true),
    ("ENOMEM", 12, false),
    ("ECONNREFUSED", 111, false),
];

/// The first host with another text within its brackets.
fn wrong_host() -> Option<&'static str> {
    for row in &HOSTS {
        if unbracketed(row.0) != row.1 {
            return Some(row.0);
        }
    }
    None
}

/// Whether an error has these codes.
fn has_codes(kind: ErrorKind, lookup: Code, connect: Code) -> bool {
    let error = Error::from(kind);
    let has_codes = lookup_code(&error) == lookup && connect_code(&error) == connect;
    drop(error);
    has_codes
}

/// The first error with other codes.
fn wrong_code() -> Option<&'static str> {
    for row in &CODES {
        if !has_codes(row.1, row.2, row.3) {
            return Some(row.0);
        }
    }
    None
}

/// Whether this error says that too many files are open.
fn is_file_limit(error: Error) -> bool {
    let is_limit = meets_file_limit(&error);
    drop(error);
    is_limit
}

/// The first error that says otherwise of the limit of files.
fn wrong_limit() -> Option<&'static str> {
    for row in &FILE_LIMITS {
        if is_file_limit(Error::from_raw_os_error(row.1)) != row.2 {
            return Some(row.0);
        }
    }
    if is_file_limit(Error::from(ErrorKind::OutOfMemory)) {
        return Some("out of memory is no limit of files");
    }
    None
}

/// The first row of a part of the tables that isn't so.
fn wrong_of(alloc: Global, number: u32) -> Option<&'static str> {
    match number {
        0 => wrong_row(alloc),
        1 => wrong_host(),
        2 => wrong_code(),
        _ => wrong_limit(),
    }
}

/// Fails with the first of all.
fn are_all_so(alloc: Global) -> Result<(), Fail> {
    for number in 0..4 {
        if let Some(name) = wrong_of(alloc, number) {
            return Err(name.into());
        }
    }
    Ok(())
}

#[test]
fn addresses_and_codes(rt: HostRuntime) -> Result<(), Fail> {
    are_all_so(rt.alloc())
}
