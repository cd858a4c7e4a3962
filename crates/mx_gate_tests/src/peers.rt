//! Links whose peer waits until the test has it go on, so that the test knows when bytes, room, the end or an error come: when such a link
//! makes a system call, and when not.

use crate::gates::{TURNS, Task, Work, at_gate, connect, joined, listening, read};
use crate::outside::endpoint;
use mx_gate::Gate;
use mx_link::{Connect, Link, Read, Write};
use std::alloc::AllocGlobal;
use std::io::{Read as _, Write as _};
use std::net::{TcpListener, TcpStream};
use std::sync::Arc;
use std::sync::atomic::{AtomicBool, Ordering};
use std::test::Fail;
use std::thread;
use std::thread::{JoinHandle, Threads};
use std::time::Duration;

/// How many bytes a write offers. That is less than a connection has room for in all, and no divisor of it, so that a write is short.
const OFFERED: usize = 1_000_003;

/// How often a test and its peer look for the other's signal, a millisecond apart, and how often a peer reads at most. A peer that gave up
/// while the test still fills the connection would make room for it, and unproved builds fill it slowly.
const LOOKS: u32 = 200_000;

/// The signals between a test and its peer: that the peer is to go on, and that it has sent.
#[derive(Drop)]
pub(crate) struct PeerSignals {
    go: AtomicBool,
    sent: AtomicBool,
}

/// What a peer does.
#[derive(Clone, Copy)]
pub(crate) enum Peer {
    /// It sends `ab` once the test has it go on, and closes later.
    SendsLate,
    /// It sends `ab` at once, `cd` once the test has it go on, and closes later.
    SendsTwice,
    /// It sends `ab` once the test has it go on, and closes.
    SendsAndCloses,
    /// It reads to the end, once the test has it go on.
    Reads,
    /// It closes with bytes unread, once the test has it go on: the connection is then reset.
    Resets,
}

/// Waits for the other's signal.
fn wait_for(rt: &HostRuntime, told: &AtomicBool) {
    for _ in 0..LOOKS {
        if told.load(Ordering::SeqCst) {
            return;
        }
        thread::sleep(rt, Duration::from_millis(1));
    }
}

/// What a peer sends at once, and what once the test has it go on.
fn sent_by(peer: Peer) -> (&'static [u8], &'static [u8]) {
    match peer {
        Peer::SendsLate | Peer::SendsAndCloses => (b"", b"ab"),
        Peer::SendsTwice => (b"ab", b"cd"),
        Peer::Reads | Peer::Resets => (b"", b""),
    }
}

/// Reads to the end: how many bytes came.
fn read_all(stream: &mut TcpStream) -> u64 {
    let mut all: u64 = 0;
    let mut buffer = [0; 4096];
    for _ in 0..LOOKS {
        match stream.read(&mut buffer) {
            Ok(0) => return all,
            Ok(n) => all = all.saturating_add(n as u64),
            Err(_) => return all,
        }
    }
    all
}

/// Does what the peer does over a connection: how many bytes it read, or nothing where it failed.
fn serve(rt: &HostRuntime, stream: &mut TcpStream, told: &PeerSignals, peer: Peer) -> Option<u64> {
    let (first, rest) = sent_by(peer);
    let is_begun = stream.write_all(first).is_ok();
    wait_for(rt, &told.go);
    if matches!(peer, Peer::Reads) {
        return Some(read_all(stream));
    }
    (stream.write_all(rest).is_ok() && is_begun).then_some(0)
}

/// Closes the connection, of a peer that closes later a while after the test is told that it has sent.
fn close(rt: &HostRuntime, stream: TcpStream, told: &PeerSignals, peer: Peer) {
    if matches!(peer, Peer::SendsLate | Peer::SendsTwice) {
        told.sent.store(true, Ordering::SeqCst);
        thread::sleep(rt, Duration::from_millis(100));
    }
    drop(stream);
    told.sent.store(true, Ordering::SeqCst);
}

/// Accepts one connection, and is its peer.
fn be_peer(
    rt: &HostRuntime,
    listener: &TcpListener,
    told: &PeerSignals,
    peer: Peer,
) -> Option<u64> {
    let Ok((mut stream, _)) = listener.accept() else {
        return None;
    };
    let served = serve(rt, &mut stream, told, peer);
    close(rt, stream, told, peer);
    served
}

/// Whether the connection is made, and the first two bytes are read where some come at once.
fn begins<G: Gate>(gate: &mut G, link: &mut G::Link, comes_at_once: bool) -> bool {
    let connected = connect(gate, link) == Connect::Done;
    let is_read = !comes_at_once || reads_two(gate, link, b"ab------");
    connected && is_read
}

/// Whether two bytes are read, into a buffer that is then this.
fn reads_two<G: Gate>(gate: &mut G, link: &mut G::Link, bytes: &[u8; 8]) -> bool {
    read(gate, link) == (Read::Bytes(2), *bytes)
}

/// Whether a read finds nothing.
fn finds_nothing<L: Link>(link: &mut L) -> bool {
    let mut buffer = [0; 8];
    link.try_read(&mut buffer) == Read::WouldBlock
}

/// Has the peer go on, and waits until it has sent.
fn go_on(rt: &HostRuntime, told: &PeerSignals) {
    told.go.store(true, Ordering::SeqCst);
    wait_for(rt, &told.sent);
}

/// Reads the first two bytes, where some come at once. Then it finds nothing to read, before a turn not even bytes that came; after the
/// turn it reads those and the end.
fn reads_after_a_turn<G: Gate>(
    rt: &HostRuntime,
    gate: &mut G,
    link: &mut G::Link,
    told: &PeerSignals,
    comes_at_once: bool,
) -> bool {
    let is_begun = begins(gate, link, comes_at_once);
    gate.turn(0);
    let early = finds_nothing(link);
    go_on(rt, told);
    let before = finds_nothing(link);
    let bytes = if comes_at_once {
        b"cd------"
    } else {
        b"ab------"
    };
    let after = reads_two(gate, link, bytes);
    let (last, _) = read(gate, link);
    is_begun && early && before && after && last == Read::End
}

/// Takes one turn when bytes and the end have come, and reads both.
fn reads_to_the_end<G: Gate>(
    rt: &HostRuntime,
    gate: &mut G,
    link: &mut G::Link,
    told: &PeerSignals,
) -> bool {
    let connected = connect(gate, link);
    go_on(rt, told);
    thread::sleep(rt, Duration::from_millis(20));
    gate.turn(1000);
    let mut buffer = [b'-'; 8];
    let first = (link.try_read(&mut buffer), buffer);
    let last = link.try_read(&mut buffer);
    connected == Connect::Done && first == (Read::Bytes(2), *b"ab------") && last == Read::End
}

/// What a write answers; of nothing, that it failed.
pub(crate) fn write<L: Link>(link: &mut L, bytes: &[u8]) -> Write {
    if bytes.is_empty() {
        return Write::Fault;
    }
    link.try_write(bytes)
}

/// Writes until a write takes nothing: how many bytes were taken, and that write's answer.
fn fill<L: Link>(link: &mut L, bytes: &[u8]) -> (u64, Write) {
    let mut taken: u64 = 0;
    for _ in 0..TURNS {
        match write(link, bytes) {
            Write::Bytes(n) => taken = taken.saturating_add(n as u64),
            answer => return (taken, answer),
        }
    }
    (taken, Write::Bytes(0))
}

/// The first write that isn't `WouldBlock`.
fn write_on<G: Gate>(gate: &mut G, link: &mut G::Link, bytes: &[u8]) -> Write {
    for _ in 0..TURNS {
        match write(link, bytes) {
            Write::WouldBlock => {
                gate.turn(10);
            }
            answer => return answer,
        }
    }
    Write::WouldBlock
}

/// Writes until there is no room, has the peer go on, and writes on: how many bytes were taken where the link gets room, and none where it
/// gets an error.
fn writes_all<G: Gate>(
    gate: &mut G,
    link: &mut G::Link,
    told: &PeerSignals,
    peer: Peer,
    bytes: &[u8],
) -> Option<u64> {
    let connected = connect(gate, link);
    let (taken, full) = fill(link, bytes);
    told.go.store(true, Ordering::SeqCst);
    let last = write_on(gate, link, bytes);
    if (connected, full) != (Connect::Done, Write::WouldBlock) {
        return None;
    }
    match (peer, last) {
        (Peer::Reads, Write::Bytes(n)) => Some(taken.saturating_add(n as u64)),
        (Peer::Resets, Write::Fault) => Some(0),
        _ => None,
    }
}

/// What is seen at a link to such a peer, whose writes offer these bytes.
pub(crate) fn meets<G: Gate>(
    rt: &HostRuntime,
    gate: &mut G,
    link: &mut G::Link,
    told: &PeerSignals,
    peer: Peer,
    bytes: &[u8],
) -> Option<u64> {
    match peer {
        Peer::SendsLate => reads_after_a_turn(rt, gate, link, told, false).then_some(0),
        Peer::SendsTwice => reads_after_a_turn(rt, gate, link, told, true).then_some(0),
        Peer::SendsAndCloses => reads_to_the_end(rt, gate, link, told).then_some(0),
        _ => writes_all(gate, link, told, peer, bytes),
    }
}

/// A thread that is a peer, and its port.
fn peer_there<R: Threads>(
    threads: &R,
    rt: &HostRuntime,
    told: Arc<PeerSignals>,
    peer: Peer,
) -> Result<(u16, JoinHandle<Option<u64>>), Fail> {
    let (listener, port) = listening(rt, "127.0.0.1:0")?;
    let rt_there = *rt;
    let there = thread::spawn(threads, move || be_peer(&rt_there, &listener, &told, peer))?;
    Ok((port, there))
}

/// What is seen at a link to the peer at this port.
fn meet<R: Threads>(
    threads: &R,
    rt: &HostRuntime,
    port: u16,
    told: &PeerSignals,
    peer: Peer,
) -> Result<Option<u64>, Fail> {
    let there = endpoint(rt.alloc(), "127.0.0.1", port)?;
    let bytes = vec![in rt.alloc(); b'x'; OFFERED]?;
    let work = Work::Link(&there, Task::Meet(told, peer, bytes.as_slice()));
    let seen = at_gate(threads, rt, rt, None, work);
    drop(there);
    drop(bytes);
    Ok(seen?.ok().flatten())
}

/// Whether the link sees what it is to, and its peer read all that was taken, by these signals.
fn is_met_by<R: Threads>(
    threads: &R,
    rt: &HostRuntime,
    told: &Arc<PeerSignals>,
    peer: Peer,
) -> Result<bool, Fail> {
    let (port, there) = peer_there(threads, rt, Arc::try_clone(told)?, peer)?;
    let near = meet(threads, rt, port, told, peer);
    let (near, far) = joined(threads, near, there)?;
    Ok(near.is_some() && near == far)
}

/// The same, by new ones.
fn is_met<R: Threads>(threads: &R, rt: &HostRuntime, peer: Peer) -> Result<bool, Fail> {
    let go = AtomicBool::new(false);
    let sent = AtomicBool::new(false);
    let told = Arc::new(rt.alloc(), PeerSignals { go, sent })?;
    let is_met = is_met_by(threads, rt, &told, peer);
    drop(told);
    is_met
}

static ROWS: [(&'static str, Peer); 5] = [
    // rule gate-waiting-link
    // bytes that came are not read before a turn has reported them
    (
        "a_link_that_waits_is_not_asked_before_a_turn",
        Peer::SendsLate,
    ),
    // nor are they after a read that left none
    (
        "a_link_that_gave_all_is_not_asked_before_a_turn",
        Peer::SendsTwice,
    ),
    // rule gate-short-read
    // the end that was reported with the last bytes isn't reported again, so the link asks for it
    (
        "the_end_in_one_edge_with_bytes_is_seen",
        Peer::SendsAndCloses,
    ),
    // rule gate-waiting-writer
    // its peer reads what its writes took, by their answers, the short ones too
    ("a_writer_is_told_of_room", Peer::Reads),
    // rule gate-waiting-writer
    ("a_writer_is_told_of_an_error", Peer::Resets),
];

#[test]
fn peers_that_wait(rt: HostRuntime) -> Result<(), Fail> {
    for row in &ROWS {
        if !is_met(&rt, &rt, row.1)? {
            return Err(row.0.into());
        }
    }
    Ok(())
}
