//! Gates that wait for no name, over lookups of the tests' own and the system's.

use crate::fakes::{Hanging, Seen, lookup};
use crate::gates::{RIGHT, Task, at_link, flag, given, joined, one_server};
use crate::outside::endpoint;
use crate::turns::{has_passed, now};
use mx_gate::{Gate, SocketGate};
use mx_named_gate::{NameBell, NamedGate};
use mx_names::Resolver;
use mx_request::Endpoint;
use mx_types::Code;
use std::alloc::AllocGlobal;
use std::net::{Net, TcpListener};
use std::rt::Clock;
use std::sync::atomic::Ordering;
use std::sync::{Arc, Wait};
use std::test::Fail;
use std::thread::Threads;
use std::time::Instant;

/// What is done at a gate with each host.
#[derive(Clone, Copy)]
enum Doing {
    /// A link to it is opened, once that can be, and has four bytes sent back by a server at this address.
    Send(&'static str),
    /// It is waited for until it can be opened, and is refused with 6, twice.
    Refused,
    /// It can't be opened, and `good` meanwhile can.
    Beside,
}

struct Row {
    name: &'static str,
    hosts: &'static [&'static str],
    doing: Doing,
    /// Hosts are looked up by the system.
    by_system: bool,
    /// Where the system has no IPv6 it is left out.
    needs_ipv6: bool,
    /// How many lookups of the tests' own begin, where that is counted.
    begun: Option<u64>,
    /// In how many milliseconds all is done; a test has 60 seconds. The bell ends the wait for each host, so three waits of ten seconds are
    /// enough.
    within_ms: u64,
}

const REACHED: Row = Row {
    name: "hosts_are_reached_once_they_are_known",
    hosts: &["good", "late", "two", "localhost", "127.0.0.1"],
    doing: Doing::Send("127.0.0.1:0"),
    by_system: false,
    needs_ipv6: false,
    begun: Some(4),
    within_ms: 9000,
};

static ROWS: [Row; 5] = [
    // rule name-no-second-lookup
    Row {
        name: "a_host_without_addresses_is_6",
        hosts: &["none"],
        doing: Doing::Refused,
        begun: Some(1),
        within_ms: 60_000,
        ..REACHED
    },
    Row {
        name: "a_host_that_hangs_delays_no_other",
        hosts: &["hang"],
        doing: Doing::Beside,
        begun: None,
        within_ms: 60_000,
        ..REACHED
    },
    REACHED,
    Row {
        name: "a_host_is_reached_at_its_ipv6_address_alone",
        hosts: &["localhost", "[::1]"],
        doing: Doing::Send("[::1]:0"),
        needs_ipv6: true,
        begun: None,
        within_ms: 60_000,
        ..REACHED
    },
    Row {
        name: "the_system_looks_names_up",
        hosts: &["localhost"],
        by_system: true,
        begun: None,
        within_ms: 60_000,
        ..REACHED
    },
];

/// Whether a link to the endpoint can be opened, once it can; each wait lasts until the bell rings, and at most so long.
fn can_open<R: Clock + AllocGlobal + Threads + Wait + Copy + Send + Drop + 'static, G: Gate>(
    rt: &R,
    resolver: &Resolver<Hanging, NameBell>,
    gate: &mut G,
    there: &Endpoint,
    wait_ms: u32,
) -> bool {
    for _ in 0..3u32 {
        gate.now();
        if gate.can_open(there) {
            return true;
        }
        resolver.start_wanted(rt);
        gate.turn(wait_ms);
    }
    false
}

/// Whether a link to the endpoint is refused with 6, twice.
fn is_refused<G: Gate>(rt: &HostRuntime, gate: &mut G, there: &Endpoint) -> bool {
    let refused = Err(Code::CouldntResolveHost);
    at_link(rt, gate, there, Task::Send) == refused
        && at_link(rt, gate, there, Task::Send) == refused
}

/// Whether all is as it should be at a gate, which is dropped then. The other endpoint is that of `good`.
fn does<R: Clock + AllocGlobal + Threads + Wait + Copy + Send + Drop + 'static, G: Gate + Drop>(
    rt: &R,
    host: &HostRuntime,
    resolver: &Resolver<Hanging, NameBell>,
    gate: G,
    ends: (&Endpoint, &Endpoint),
    doing: Doing,
) -> bool {
    let mut gate = gate;
    let (there, good) = ends;
    if matches!(doing, Doing::Beside) {
        let first = can_open(rt, resolver, &mut gate, there, 5);
        let other = can_open(rt, resolver, &mut gate, good, 10_000);
        let last = can_open(rt, resolver, &mut gate, there, 5);
        return !first & other & !last;
    }
    let is_told = can_open(rt, resolver, &mut gate, there, 10_000);
    if matches!(doing, Doing::Refused) {
        return is_told && is_refused(host, &mut gate, there);
    }
    is_told && at_link(host, &mut gate, there, Task::Send) == RIGHT
}

/// The same, at a new gate that began then.
fn at_gate<R: Net + Clock + AllocGlobal + Threads + Wait + Copy + Send + Drop + 'static>(
    rt: &R,
    host: &HostRuntime,
    resolver: &Resolver<Hanging, NameBell>,
    start: Instant,
    ends: (&Endpoint, &Endpoint),
    doing: Doing,
) -> Result<bool, Fail> {
    let gate = given(SocketGate::starting_at(rt, host.alloc(), flag(host.alloc())?, start))?;
    match NamedGate::new(rt, gate, resolver) {
        Ok(gate) => Ok(does(rt, host, resolver, gate, ends, doing)),
        Err(error) => Err(error.into()),
    }
}

/// The same, with a new resolver.
fn looks_up<R: Net + Clock + AllocGlobal + Threads + Wait + Copy + Send + Drop + 'static>(
    rt: &R,
    host: &HostRuntime,
    lookup: Hanging,
    ends: (&Endpoint, &Endpoint),
    doing: Doing,
) -> Result<bool, Fail> {
    let start = Instant::now(host)?;
    let resolver = Resolver::new(host.alloc(), lookup, start)?;
    let does = at_gate(rt, host, &resolver, start, ends, doing);
    drop(resolver);
    does
}

/// The same, of a host, and of `good`, at this port.
fn tries<R: Net + Clock + AllocGlobal + Threads + Wait + Copy + Send + Drop + 'static>(
    rt: &R,
    host: &HostRuntime,
    seen: &Arc<Seen>,
    row: &Row,
    name: &str,
    port: u16,
) -> Result<bool, Fail> {
    let there = endpoint(host.alloc(), name, port)?;
    let good = endpoint(host.alloc(), "good", port)?;
    let lookup = lookup(host, seen, row.by_system)?;
    looks_up(rt, host, lookup, (&there, &good), row.doing)
}

/// The same, and whether the host is served where it is to be.
fn is_served<R: Net + Clock + AllocGlobal + Threads + Wait + Copy + Send + Drop + 'static>(
    rt: &R,
    host: &HostRuntime,
    seen: &Arc<Seen>,
    row: &Row,
    name: &str,
) -> Result<bool, Fail> {
    let Doing::Send(address) = row.doing else {
        return tries(rt, host, seen, row, name, 80);
    };
    let (port, server) = one_server(rt, host, address)?;
    let sent = tries(rt, host, seen, row, name, port);
    let (is_sent, is_served) = joined(rt, sent, server)?;
    Ok(is_sent && is_served)
}

/// The first host of a row of which that isn't so, or what else isn't.
fn first_wrong<R: Net + Clock + AllocGlobal + Threads + Wait + Copy + Send + Drop + 'static>(
    rt: &R,
    host: &HostRuntime,
    seen: &Arc<Seen>,
    row: &Row,
) -> Result<Option<&'static str>, Fail> {
    let start = now(host);
    for at in 0..row.hosts.len() {
        if !is_served(rt, host, seen, row, row.hosts[at])? {
            return Ok(Some(row.hosts[at]));
        }
    }
    if !has_passed(host, start, 0, row.within_ms) {
        return Ok(Some("in time"));
    }
    let begun = seen.begun.load(Ordering::SeqCst);
    if row.begun.unwrap_or(begun) != begun {
        return Ok(Some("how many lookups began"));
    }
    Ok(None)
}

/// Fails with what isn't so of a row. Lookups that hang are released then.
fn try_row<R: Net + Clock + AllocGlobal + Threads + Wait + Copy + Send + Drop + 'static>(
    rt: &R,
    host: &HostRuntime,
    row: &Row,
) -> Result<(), Fail> {
    if row.needs_ipv6 && TcpListener::bind(host, "[::1]:0").is_err() {
        return Ok(());
    }
    let seen = Seen::new(host.alloc())?;
    let wrong = first_wrong(rt, host, &seen, row);
    seen.free.store(true, Ordering::SeqCst);
    drop(seen);
    match wrong? {
        None => Ok(()),
        Some(what) => Err(format!(in host.alloc(); "{}: {what}", row.name)?.into()),
    }
}

#[test]
fn gates_that_wait_for_no_name(rt: HostRuntime) -> Result<(), Fail> {
    for row in &ROWS {
        try_row(&rt, &rt, row)?;
    }
    Ok(())
}
