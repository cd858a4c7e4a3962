//! Links over sockets of this machine.

use crate::links::{read_three, write};
use mio::net::{TcpListener, TcpStream};
use mio::{Events, Poll, Token};
use mx_link::{Connect, Link, Read, TcpLink, Write};
use std::net::{Ipv4Addr, SocketAddr};
use std::test::Fail;
use std::time::Duration;
use std::{io, net};

// How often a test asks again, ten milliseconds apart, before it gives up.
const TURNS: u32 = 1000;

/// A poll of the system's, and room for its events.
#[derive(Drop)]
struct Waiter {
    poll: Poll,
    events: Events,
}

impl Waiter {
    fn new(rt: &HostRuntime) -> Result<Waiter, Fail> {
        let poll = Poll::new(rt)?;
        let events = Events::with_capacity(rt.alloc(), 8)?;
        Ok(Waiter { poll, events })
    }

    // Waits for at most ten milliseconds.
    fn wait(&mut self) -> io::Result<()> {
        self.poll
            .poll(&mut self.events, Some(Duration::from_millis(10)))
    }

    // Whether the poll reports the token.
    fn is_told(&mut self, token: Token) -> io::Result<bool> {
        for _ in 0..TURNS {
            self.wait()?;
            if self.events.iter().any(|event| event.token() == token) {
                return Ok(true);
            }
        }
        Ok(false)
    }

    // The first answer of a connecting link that isn't `WouldBlock`.
    fn connect<L: Link>(&mut self, link: &mut L) -> io::Result<Connect> {
        for _ in 0..TURNS {
            match link.try_connect() {
                Connect::WouldBlock => self.wait()?,
                answer => return Ok(answer),
            }
        }
        Ok(Connect::WouldBlock)
    }

    // The first read that isn't `WouldBlock`.
    fn read<L: Link>(&mut self, link: &mut L) -> io::Result<(Read, [u8; 3])> {
        for _ in 0..TURNS {
            match read_three(link) {
                (Read::WouldBlock, _) => self.wait()?,
                answer => return Ok(answer),
            }
        }
        Ok((Read::WouldBlock, *b"---"))
    }

    fn accept(&mut self, listener: &TcpListener) -> io::Result<TcpStream> {
        for _ in 0..TURNS {
            match listener.accept() {
                Err(e) if e.kind() == io::ErrorKind::WouldBlock => self.wait()?,
                Err(e) => return Err(e),
                Ok((stream, _)) => return Ok(stream),
            }
        }
        Err(io::Error::from(io::ErrorKind::TimedOut))
    }
}

fn listen(rt: &HostRuntime) -> io::Result<TcpListener> {
    TcpListener::bind(rt, SocketAddr::from((Ipv4Addr::LOCALHOST, 0)))
}

// A link to the address, whose token is 7.
fn connecting(rt: &HostRuntime, address: SocketAddr, waiter: &Waiter) -> io::Result<TcpLink> {
    let mut link = TcpLink::new(TcpStream::connect(rt, address)?, 7);
    link.register(waiter.poll.registry())?;
    Ok(link)
}

// Whether bytes go from the far link to the near one, and back.
fn talk<L: Link>(waiter: &mut Waiter, near: &mut L, far: &mut TcpLink) -> io::Result<bool> {
    let is_empty = read_three(near).0 == Read::WouldBlock;
    let is_sent = write(far, b"abc") == Write::Bytes(3);
    let is_there = waiter.read(near)? == (Read::Bytes(3), *b"abc");
    let is_answered = write(near, b"de") == Write::Bytes(2);
    let is_back = waiter.read(far)? == (Read::Bytes(2), *b"de-");
    Ok(is_empty && is_sent && is_there && is_answered && is_back)
}

// Exchanges bytes over this link with one that the listener accepts, which is then closed.
fn talk_with<L: Link>(
    waiter: &mut Waiter,
    listener: &TcpListener,
    near: &mut L,
) -> io::Result<bool> {
    let mut far = TcpLink::new(waiter.accept(listener)?, 8);
    let talked = talk(waiter, near, &mut far);
    drop(far);
    talked
}

// Whether the link's token is reported and the link is connected, whether bytes go both ways, and whether it then shows the end, no failure
// and its token.
fn talks_and_ends<L: Link>(
    waiter: &mut Waiter,
    listener: &TcpListener,
    near: &mut L,
) -> io::Result<bool> {
    let stands = waiter.is_told(Token(7))? && waiter.connect(near)? == Connect::Done;
    let talks = stands && talk_with(waiter, listener, near)?;
    let ends = talks && waiter.read(near)?.0 == Read::End;
    Ok(ends && near.failures() == 0 && near.token() == 7)
}

// rule link-bytes
fn a_socket_reads_and_writes_and_sees_the_end(
    rt: &HostRuntime,
    waiter: &mut Waiter,
) -> io::Result<bool> {
    let listener = listen(rt)?;
    let mut near = connecting(rt, listener.local_addr()?, waiter)?;
    let seen = talks_and_ends(waiter, &listener, &mut near);
    drop(near);
    drop(listener);
    seen
}

// Whether a link sees a refused connection, and waits when it asks again: its error was reported, and it has no peer.
fn is_refused<L: Link>(waiter: &mut Waiter, link: &mut L) -> io::Result<bool> {
    let first = waiter.connect(link)?;
    let failed = link.failures();
    Ok(first == Connect::Fault && failed == 1 && link.try_connect() == Connect::WouldBlock)
}

fn a_refused_connection_is_a_fault(rt: &HostRuntime, waiter: &mut Waiter) -> io::Result<bool> {
    let address = listen(rt)?.local_addr()?;
    let mut link = connecting(rt, address, waiter)?;
    let seen = is_refused(waiter, &mut link);
    drop(link);
    seen
}

// Opens a connection more: its first answer.
fn stand(
    rt: &HostRuntime,
    address: SocketAddr,
    standing: &mut Vec<TcpLink>,
) -> io::Result<Connect> {
    let mut link = TcpLink::new(TcpStream::connect(rt, address)?, 7);
    let answer = link.try_connect();
    standing.push(link)?;
    Ok(answer)
}

// Opens connections until one is not there yet: whether there was one.
fn stand_until_one_waits(
    rt: &HostRuntime,
    address: SocketAddr,
    standing: &mut Vec<TcpLink>,
) -> io::Result<bool> {
    for _ in 0..TURNS {
        if stand(rt, address, standing)? == Connect::WouldBlock {
            return Ok(true);
        }
    }
    Ok(false)
}

fn a_connection_that_is_not_there_yet_would_block(rt: &HostRuntime) -> io::Result<bool> {
    // it accepts nothing, so once its queue is full a connection stays unmade
    let listener = net::TcpListener::bind(rt, SocketAddr::from((Ipv4Addr::LOCALHOST, 0)))?;
    let address = listener.local_addr()?;
    let mut standing = Vec::new(rt.alloc());
    let waits = stand_until_one_waits(rt, address, &mut standing);
    drop(standing);
    drop(listener);
    waits
}

// The first that isn't so.
fn first_wrong(rt: &HostRuntime, waiter: &mut Waiter) -> io::Result<Option<&'static str>> {
    if !a_socket_reads_and_writes_and_sees_the_end(rt, waiter)? {
        return Ok(Some("a_socket_reads_and_writes_and_sees_the_end"));
    }
    if !a_refused_connection_is_a_fault(rt, waiter)? {
        return Ok(Some("a_refused_connection_is_a_fault"));
    }
    if !a_connection_that_is_not_there_yet_would_block(rt)? {
        return Ok(Some("a_connection_that_is_not_there_yet_would_block"));
    }
    Ok(None)
}

#[test]
fn links_over_sockets(rt: HostRuntime) -> Result<(), Fail> {
    let mut waiter = Waiter::new(&rt)?;
    let wrong = first_wrong(&rt, &mut waiter);
    drop(waiter);
    match wrong? {
        None => Ok(()),
        Some(name) => Err(name.into()),
    }
}
