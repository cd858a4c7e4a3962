//! A network and a clock that answer what a test wants.
ghost use Rattle.std.specs.Prelude.{◌≤◌};

use mx_request::Endpoint;
use std::alloc::{Alloc, AllocError, Global};
use std::io;
use std::net::{Ipv4Addr, Ipv6Addr, Net, SocketAddr, TcpListener, TcpStream};
use std::rt::Clock;
use std::sync::atomic::{AtomicBool, AtomicU64, Ordering};
use std::test::Fail;
use std::time::Duration;

/// The endpoint of a host and a port.
pub(crate) fn endpoint(alloc: Global, host: &str, port: u16) -> Result<Endpoint, AllocError> {
    let host = String::from_str(alloc, host)?;
    Ok(Endpoint { host, port })
}

/// The end of a row: it fails with the row and the step that is wrong.
pub(crate) fn verdict(row: &'static str, wrong: Option<usize>) -> Result<(), Fail> {
    match wrong {
        Some(step) => Err(Fail::new(format_args!("{row}: step {step} answers something else"))),
        None => Ok(()),
    }
}

/// An address of these bytes.
pub(crate) fn v4(bytes: [u8; 4], port: u16) -> SocketAddr {
    SocketAddr::from((Ipv4Addr::from(bytes), port))
}

/// An address of the block for documentation (RFC 3849) with this last number.
pub(crate) fn v6(last: u16, port: u16) -> SocketAddr {
    SocketAddr::from((Ipv6Addr::new(0x2001, 0xdb8, 0, 0, 0, 0, 0, last), port))
}

/// An address of these bytes, or one of the block for documentation with this last number, or `::1`.
#[derive(Clone, Copy)]
pub(crate) enum At {
    V4([u8; 4]),
    V6(u16),
    LocalV6,
}

pub(crate) fn address(at: At, port: u16) -> SocketAddr {
    match at {
        At::V4(bytes) => v4(bytes, port),
        At::V6(last) => v6(last, port),
        At::LocalV6 => SocketAddr::from((Ipv6Addr::LOCALHOST, port)),
    }
}

/// Sets the addresses from the first on: how many.
pub(crate) fn set(all: &mut [SocketAddr; 4], given: &[At]) -> usize
    ensures { result ≤ 4 }
{
    let count = given.len().min(4);
    for i in 0..count {
        all[i] = address(given[i], 0);
    }
    count
}

/// A runtime whose lookups give these addresses, or fail, and whose clock shows what the test sets.
#[derive(Drop)]
pub(crate) struct Outside<'a> {
    pub alloc: Global,
    pub addresses: &'a [SocketAddr],
    pub refusal: Option<io::ErrorKind>,
    pub milliseconds: AtomicU64,
    pub is_clock_broken: AtomicBool,
}

impl Outside<'_> {
    pub(crate) fn new(alloc: Global, addresses: &[SocketAddr]) -> Outside<'_> {
        Outside {
            alloc,
            addresses,
            refusal: None,
            milliseconds: AtomicU64::new(0),
            is_clock_broken: AtomicBool::new(false),
        }
    }
}

impl Alloc for Outside<'_> {
    type A = Global;

    fn alloc(&self) -> Global {
        self.alloc
    }
}

impl Clock for Outside<'_> {
    fn monotonic(&self) -> io::Result<Duration> {
        if self.is_clock_broken.load(Ordering::SeqCst) {
            return Err(io::Error::from(io::ErrorKind::Unsupported));
        }
        Ok(Duration::from_millis(self.milliseconds.load(Ordering::SeqCst)))
    }

    fn since_1970(&self) -> io::Result<Duration> {
        self.monotonic()
    }
}

impl Net for Outside<'_> {
    type Stream = TcpStream;

    type Listener = TcpListener;

    fn bind(&self, _address: SocketAddr) -> io::Result<TcpListener> {
        Err(io::Error::from(io::ErrorKind::Unsupported))
    }

    fn connect(&self, _address: SocketAddr) -> io::Result<TcpStream> {
        Err(io::Error::from(io::ErrorKind::Unsupported))
    }

    fn lookup_host(&self, _host: &str, port: u16, found: &mut [SocketAddr]) -> io::Result<usize> {
        if let Some(kind) = self.refusal {
            return Err(io::Error::from(kind));
        }
        let count = self.addresses.len().min(found.len());
        for at in 0..count {
            found[at] = self.addresses[at];
            found[at].set_port(port);
        }
        Ok(count)
    }
}
