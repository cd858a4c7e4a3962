//! A new gate over sockets, and a new link of it: one function owns each, lends it to what a test does there, and drops it. So a test's own
//! functions own neither.

use crate::moments::{tells_moments, tells_since};
use crate::outside::Outside;
use crate::peers::{Peer, PeerSignals, meets};
use crate::turns::{Turns, takes};
use mx_gate::{Bell, Gate, SocketGate};
use mx_link::{Connect, Link, Read, Write};
use mx_request::Endpoint;
use mx_types::Code;
use std::alloc::{AllocError, AllocGlobal, Global};
use std::io::{Read as _, Write as _};
use std::net::{Net, TcpListener, TcpStream};
use std::rt::Clock;
use std::sync::Arc;
use std::sync::atomic::{AtomicBool, Ordering};
use std::test::Fail;
use std::thread;
use std::thread::{JoinHandle, Threads};
use std::time::Instant;

/// How often a test waits for a link, ten milliseconds each time, before it gives up.
pub(crate) const TURNS: u32 = 1000;

/// What a test does at a link.
#[derive(Clone, Copy)]
pub(crate) enum Task<'a> {
    /// It writes four bytes to a peer that sends them back, reads them and sees the end. The link is the first of its gate.
    Send,
    /// It sees that the connection fails.
    Fail,
    /// It sees that the link has this token.
    Token(u64),
    /// It sees that the connection is made.
    Connect,
    /// It meets a peer that waits until the test has it go on, and offers these bytes in each write.
    Meet(&'a PeerSignals, Peer, &'a [u8]),
}

/// What a test does at a gate.
#[derive(Clone, Copy)]
pub(crate) enum Work<'a> {
    /// This, at a link to the endpoint.
    Link(&'a Endpoint, Task<'a>),
    /// It opens three links to the endpoint, one after another, and sees their tokens.
    Tokens(&'a Endpoint),
    /// It takes turns.
    Turns(Turns),
    /// It moves the clock.
    Moments(&'a Outside<'a>),
    /// It moves the clock, of a gate that began then.
    Since(&'a Outside<'a>, Instant),
    /// It opens a link to the endpoint, again where memory was refused, which it says here.
    Again(&'a Endpoint, &'a AtomicBool),
}

/// What is seen: nothing where something isn't as it should be, else how many bytes its peer has to have read; or the code with which no
/// link is opened, which is `OutOfMemory` where memory for the gate was refused, too.
pub(crate) type Seen = Result<Option<u64>, Code>;

/// All is as it should be.
pub(crate) const RIGHT: Seen = Ok(Some(0));

/// The first answer that isn't that the connection is still being made.
pub(crate) fn connect<G: Gate>(gate: &mut G, link: &mut G::Link) -> Connect {
    for _ in 0..TURNS {
        match link.try_connect() {
            Connect::WouldBlock => {
                gate.turn(10);
            }
            answer => return answer,
        }
    }
    Connect::WouldBlock
}

/// The first read that isn't `WouldBlock`.
pub(crate) fn read<G: Gate>(gate: &mut G, link: &mut G::Link) -> (Read, [u8; 8]) {
    let mut buffer = [b'-'; 8];
    for _ in 0..TURNS {
        match link.try_read(&mut buffer) {
            Read::WouldBlock => {
                gate.turn(10);
            }
            answer => return (answer, buffer),
        }
    }
    (Read::WouldBlock, buffer)
}

fn sends_and_reads<G: Gate>(gate: &mut G, link: &mut G::Link) -> bool {
    let connected = connect(gate, link);
    let written = link.try_write(b"ping");
    let came = read(gate, link);
    let (last, _) = read(gate, link);
    (connected, written, last) == (Connect::Done, Write::Bytes(4), Read::End)
        && came == (Read::Bytes(4), *b"ping----")
        && (link.token(), link.failures()) == (1, 0)
}

fn do_task<G: Gate>(
    rt: &HostRuntime,
    gate: &mut G,
    link: &mut G::Link,
    task: Task<'_>,
) -> Option<u64> {
    match task {
        Task::Send => sends_and_reads(gate, link).then_some(0),
        Task::Fail => (connect(gate, link) == Connect::Fault).then_some(0),
        Task::Token(token) => (link.token() == token).then_some(0),
        Task::Connect => (connect(gate, link) == Connect::Done).then_some(0),
        Task::Meet(told, peer, bytes) => meets(rt, gate, link, told, peer, bytes),
    }
}

/// What is seen at a new link to the endpoint.
pub(crate) fn at_link<G: Gate>(
    rt: &HostRuntime,
    gate: &mut G,
    there: &Endpoint,
    task: Task<'_>,
) -> Seen {
    let mut link = gate.open(there)?;
    let seen = do_task(rt, gate, &mut link, task);
    drop(link);
    Ok(seen)
}

/// Each link is dropped before the next.
fn has_three_tokens<G: Gate>(rt: &HostRuntime, gate: &mut G, there: &Endpoint) -> bool {
    for token in 1..=3 {
        if at_link(rt, gate, there, Task::Token(token)) != RIGHT {
            return false;
        }
    }
    true
}

/// What the gate of a test gives beside links, turns and moments. What a test does there is generic in the gate: so only the function that
/// makes one has to know which it is.
pub(crate) trait Ringed {
    /// A bell that ends its waits.
    fn new_bell(&self) -> Result<Bell, AllocError>;

    /// When it began.
    fn begun(&self) -> Instant;
}

impl<'r, N: Net + Clock + AllocGlobal> Ringed for SocketGate<'r, N> {
    fn new_bell(&self) -> Result<Bell, AllocError> {
        self.bell()
    }

    fn begun(&self) -> Instant {
        self.start()
    }
}

/// What is seen at a new link, which is opened again where memory was refused.
fn at_link_again<G: Gate>(
    rt: &HostRuntime,
    gate: &mut G,
    there: &Endpoint,
    again: &AtomicBool,
) -> Seen {
    let seen = at_link(rt, gate, there, Task::Connect);
    if seen != Err(Code::OutOfMemory) {
        return seen;
    }
    again.store(true, Ordering::SeqCst);
    at_link(rt, gate, there, Task::Connect)
}

fn do_work<R: Threads, G: Gate + Ringed>(
    threads: &R,
    rt: &HostRuntime,
    gate: &mut G,
    stop: &AtomicBool,
    work: Work<'_>,
) -> Seen {
    let is_right = match work {
        Work::Link(there, task) => return at_link(rt, gate, there, task),
        Work::Again(there, again) => return at_link_again(rt, gate, there, again),
        Work::Tokens(there) => has_three_tokens(rt, gate, there),
        Work::Turns(turns) => takes(threads, rt, gate, stop, turns),
        Work::Moments(outside) => tells_moments(outside, gate),
        Work::Since(outside, start) => tells_since(outside, start, gate),
    };
    Ok(is_right.then_some(0))
}

/// A flag that isn't set.
pub(crate) fn flag(alloc: Global) -> Result<Arc<AtomicBool>, AllocError> {
    Ok(Arc::new(alloc, AtomicBool::new(false))?)
}

/// What a gate gives, or the number of the code with which it is refused.
pub(crate) fn given<T>(given: Result<T, Code>) -> Result<T, Fail> {
    match given {
        Ok(value) => Ok(value),
        Err(code) => Err(Fail::from(code.number())),
    }
}

// What is seen at a gate, which is dropped then.
fn at_given<R: Threads, G: Gate + Ringed + Drop>(
    threads: &R,
    rt: &HostRuntime,
    gate: G,
    stop: &AtomicBool,
    work: Work<'_>,
) -> Seen {
    let mut gate = gate;
    do_work(threads, rt, &mut gate, stop, work)
}

// What is seen at a new gate over this network, which is stopped by the flag. No other function makes a gate over sockets: in each one that
// knows which gate it has, it is proved anew that this is one.
fn at_new<R: Threads, N: Net + Clock + AllocGlobal>(
    threads: &R,
    rt: &HostRuntime,
    net: &N,
    stop: Arc<AtomicBool>,
    flag: &AtomicBool,
    start: Option<Instant>,
    work: Work<'_>,
) -> Result<Seen, Fail> {
    let gate = match start {
        Some(start) => SocketGate::starting_at(net, rt.alloc(), stop, start),
        None => SocketGate::new(net, rt.alloc(), stop),
    };
    match gate {
        Ok(gate) => Ok(at_given(threads, rt, gate, flag, work)),
        Err(Code::OutOfMemory) => Ok(Err(Code::OutOfMemory)),
        Err(code) => Err(Fail::from(code.number())),
    }
}

/// What is seen at a new gate over this network, which began then, or begins now.
pub(crate) fn at_gate<R: Threads, N: Net + Clock + AllocGlobal>(
    threads: &R,
    rt: &HostRuntime,
    net: &N,
    start: Option<Instant>,
    work: Work<'_>,
) -> Result<Seen, Fail> {
    let stop = flag(rt.alloc())?;
    let seen = at_new(threads, rt, net, Arc::try_clone(&stop)?, &stop, start, work);
    drop(stop);
    seen
}

/// A listener at a port of this address that was free, and that port.
pub(crate) fn listening(rt: &HostRuntime, address: &str) -> Result<(TcpListener, u16), Fail> {
    let listener = TcpListener::bind(rt, address)?;
    let port = listener.local_addr()?.port();
    Ok((listener, port))
}

/// Reads four bytes and sends them back.
fn send_back(stream: &mut TcpStream) -> bool {
    let mut four = [0; 4];
    stream.read_exact(&mut four).is_ok() && stream.write_all(&four).is_ok()
}

/// Serves one connection.
fn serve_one(listener: &TcpListener) -> bool {
    let Ok((mut stream, _)) = listener.accept() else {
        return false;
    };
    let is_served = send_back(&mut stream);
    drop(stream);
    is_served
}

/// A thread that serves one connection, and its port: it reads four bytes and sends them back.
pub(crate) fn one_server<R: Threads>(
    threads: &R,
    rt: &HostRuntime,
    address: &str,
) -> Result<(u16, JoinHandle<bool>), Fail> {
    let (listener, port) = listening(rt, address)?;
    let server = thread::spawn(threads, move || serve_one(&listener))?;
    Ok((port, server))
}

/// The result, and the answer of the thread beside it, which is joined only where there is a result.
pub(crate) fn joined<R: Threads, T: Drop, U: Drop>(
    threads: &R,
    done: Result<T, Fail>,
    there: JoinHandle<U>,
) -> Result<(T, U), Fail> {
    match done {
        Ok(done) => Ok((done, there.join(threads))),
        Err(fail) => {
            drop(there);
            Err(fail)
        }
    }
}
