//! Connections of gates over sockets: those that succeed, and those that fail.

use crate::gates::{RIGHT, Seen, Task, Work, at_gate, joined, listening, one_server};
use crate::outside::{Outside, endpoint, v4};
use mx_request::Endpoint;
use mx_types::Code;
use std::alloc::AllocGlobal;
use std::net::Net;
use std::rt::Clock;
use std::test::Fail;
use std::thread::Threads;

/// What listens at a port of `127.0.0.1`.
#[derive(Clone, Copy)]
enum There {
    /// A thread that serves one connection.
    Server,
    /// A listener that accepts nothing.
    Listener,
    /// Nobody.
    Nobody,
}

/// The expected result of a connection.
#[derive(Clone, Copy)]
enum Comes {
    /// A link at which all is as it should be.
    Right,
    /// A refusal: the system may refuse at once, or once it was asked whether the connection is made.
    Refused,
    /// No link, and this code.
    Code(Code),
}

/// What is done.
#[derive(Clone, Copy)]
enum Doing {
    /// It sends and reads.
    Sends,
    /// It sees that the connection fails.
    Fails,
    /// It sees the tokens of three links.
    Tokens,
}

#[derive(Clone, Copy)]
struct Row {
    name: &'static str,
    there: There,
    host: &'static str,
    /// Its port, where it isn't the listener's.
    port: Option<u16>,
    /// Lookups are by the tests' own network. Of its three addresses only the last is the listener's.
    by_outside: bool,
    doing: Doing,
    comes: Comes,
}

const SENDS: Row = Row {
    name: "a_link_writes_and_reads_and_sees_the_end",
    there: There::Server,
    host: "127.0.0.1",
    port: None,
    by_outside: false,
    doing: Doing::Sends,
    comes: Comes::Right,
};

const FAILS: Row = Row {
    there: There::Nobody,
    doing: Doing::Fails,
    comes: Comes::Refused,
    ..SENDS
};

static ROWS: [Row; 7] = [
    SENDS,
    // rule gate-dialling
    Row {
        name: "a_host_is_reached_at_its_second_address",
        host: "two.test",
        by_outside: true,
        ..SENDS
    },
    Row {
        name: "tokens_rise_from_1",
        there: There::Listener,
        doing: Doing::Tokens,
        ..SENDS
    },
    Row {
        name: "a_refused_connection_is_told",
        ..FAILS
    },
    Row {
        name: "a_host_that_refuses_at_each_address_is_told",
        host: "two.test",
        by_outside: true,
        ..FAILS
    },
    Row {
        name: "an_address_that_no_connection_goes_to_is_7",
        host: "255.255.255.255",
        port: Some(80),
        comes: Comes::Code(Code::CouldntConnect),
        ..FAILS
    },
    // RFC 2606, section 2: no name ends in .invalid
    Row {
        name: "a_host_that_does_not_resolve_is_6",
        host: "nowhere.invalid",
        port: Some(80),
        comes: Comes::Code(Code::CouldntResolveHost),
        ..FAILS
    },
];

/// What is done at a gate.
fn work_of(doing: Doing, there: &Endpoint) -> Work<'_> {
    match doing {
        Doing::Sends => Work::Link(there, Task::Send),
        Doing::Fails => Work::Link(there, Task::Fail),
        Doing::Tokens => Work::Tokens(there),
    }
}

/// What is seen at a new gate over this network.
fn at<R: Threads, N: Net + Clock + AllocGlobal>(
    threads: &R,
    rt: &HostRuntime,
    net: &N,
    port: u16,
    row: &Row,
) -> Result<Seen, Fail> {
    let there = endpoint(rt.alloc(), row.host, row.port.unwrap_or(port))?;
    let seen = at_gate(threads, rt, net, None, work_of(row.doing, &there));
    drop(there);
    seen
}

/// What is seen where the listener is at this port.
fn at_port<R: Threads>(threads: &R, rt: &HostRuntime, port: u16, row: &Row) -> Result<Seen, Fail> {
    if !row.by_outside {
        return at(threads, rt, rt, port, row);
    }
    let all = [
        v4([127, 0, 0, 2], 0),
        v4([127, 0, 0, 3], 0),
        v4([127, 0, 0, 1], 0),
    ];
    let outside = Outside::new(rt.alloc(), &all);
    let seen = at(threads, rt, &outside, port, row);
    drop(outside);
    seen
}

/// The same where a listener accepts nothing, or nobody listens any more.
fn unserved<R: Threads>(
    threads: &R,
    rt: &HostRuntime,
    row: &Row,
    is_there: bool,
) -> Result<(Seen, bool), Fail> {
    let (listener, port) = listening(rt, "127.0.0.1:0")?;
    let listener = if is_there {
        Some(listener)
    } else {
        drop(listener);
        None
    };
    let seen = at_port(threads, rt, port, row);
    drop(listener);
    Ok((seen?, true))
}

/// The same, and whether a server has served.
fn beside_server<R: Threads>(
    threads: &R,
    rt: &HostRuntime,
    row: &Row,
) -> Result<(Seen, bool), Fail> {
    let (port, server) = one_server(threads, rt, "127.0.0.1:0")?;
    let seen = at_port(threads, rt, port, row);
    joined(threads, seen, server)
}

/// The same, and whether the listener has served what it is to serve.
fn beside<R: Threads>(threads: &R, rt: &HostRuntime, row: &Row) -> Result<(Seen, bool), Fail> {
    match row.there {
        There::Server => beside_server(threads, rt, row),
        There::Listener => unserved(threads, rt, row, true),
        There::Nobody => unserved(threads, rt, row, false),
    }
}

/// Whether this is what comes.
fn has_come(seen: Seen, comes: Comes) -> bool {
    match comes {
        Comes::Right => seen == RIGHT,
        Comes::Refused => seen == RIGHT || seen == Err(Code::CouldntConnect),
        Comes::Code(code) => seen == Err(code),
    }
}

#[test]
fn connections(rt: HostRuntime) -> Result<(), Fail> {
    for row in &ROWS {
        let (seen, is_served) = beside(&rt, &rt, row)?;
        if !is_served || !has_come(seen, row.comes) {
            return Err(row.name.into());
        }
    }
    Ok(())
}
