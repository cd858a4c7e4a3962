//! What stands for the network and the clock of a runtime.
ghost use Rattle.std.specs.Prelude.{◌≡◌, ◌≤◌, length, take, pos, ◌+ℤ◌, ◌*ℤ◌, ◌≤ℤ◌, ◌<ℤ◌, IfOk, IfSome, IsSome};
ghost use Rattle.std.specs.List.{All};
ghost use Rattle.std.specs.Net.Socket.{socket_port};
ghost use Rattle.std.specs.Duration.{as_nanos};

use crate::addresses::{NO_ADDRESS, address_of};
use libc::types::timespec;
use os::RawAddr;
use std::io;
use std::net::{Net, SocketAddr, TcpListener, TcpStream};
use std::rt::Clock;
use std::time::Duration;

/// The most addresses of a name that are asked for.
const MOST_ADDRESSES: usize = 32;

/// The network and the clock, as the C library gives them. It opens no socket itself: mio's sockets need it as a mark alone, and `bind` and
/// `connect` answer `Unsupported`.
#[derive(Clone, Copy)]
pub struct Host;

// Each of the addresses, at this port, into the front of `found`. The first that is of another family ends it.
fn decode_all(raw: &[RawAddr], port: u16, found: &mut [SocketAddr]) -> io::Result<()>
    requires { length raw.now ≤ length found.old }
    ensures ports { IfOk result (λ _. All (λ address. socket_port address ≡ port) (take (length raw.now) found.new)) }
    ensures length { length found.new ≡ length found.old }
{
    for at in 0..raw.len() {
        found[at] = address_of(&raw[at], port)?;
    }
    Ok(())
}

impl Net for Host {
    type Stream = TcpStream;

    type Listener = TcpListener;

    fn bind(&self, _addr: SocketAddr) -> io::Result<TcpListener> {
        Err(io::Error::from(io::ErrorKind::Unsupported))
    }

    fn connect(&self, _addr: SocketAddr) -> io::Result<TcpStream> {
        Err(io::Error::from(io::ErrorKind::Unsupported))
    }

    /// The first addresses of the name, each at the port, by getaddrinfo(3), which blocks meanwhile.
    fn lookup_host(&self, host: &str, port: u16, found: &mut [SocketAddr]) -> io::Result<usize>
        ensures in_bounds { IfOk result (λ n. n ≤ length found.new) }
        ensures ports { IfOk result (λ n. All (λ address. socket_port address ≡ port) (take n found.new)) }
    {
        let mut raw = [NO_ADDRESS; MOST_ADDRESSES];
        let raw = &mut raw[..found.len().min(MOST_ADDRESSES)];
        let got = os::lookup_host(host.as_bytes(), raw);
        if got < 0 {
            return Err(io::Error::from(io::ErrorKind::Uncategorized));
        }
        let many = raw.len().min(got as usize);
        decode_all(&raw[..many], port, found)?;
        Ok(many)
    }
}

// The time of so many seconds and nanoseconds; `None` where it is before zero, or where it is too long.
fn duration_of(seconds: i64, nanoseconds: i64) -> Option<Duration>
    ensures time { IfSome result (λ d. pos (as_nanos d) ≡ seconds *ℤ pos 1_000_000_000 +ℤ nanoseconds) }
    ensures some { pos 0 ≤ℤ seconds → pos 0 ≤ℤ nanoseconds → nanoseconds <ℤ pos 1_000_000_000 → IsSome result }
{
    let (Ok(seconds), Ok(nanoseconds)) = (u64::try_from(seconds), u32::try_from(nanoseconds)) else {
        return None;
    };
    Duration::from_secs(seconds).checked_add(Duration::from_nanos(u64::from(nanoseconds)))
}

// The time of a clock of the system.
fn time_of(clock: i32) -> io::Result<Duration> {
    let mut time = timespec {
        tv_sec: 0,
        tv_nsec: 0,
    };
    if libc::clock_gettime(clock, &mut time) != 0 {
        return Err(io::Error::from(io::ErrorKind::Unsupported));
    }
    duration_of(time.tv_sec, time.tv_nsec).ok_or(io::Error::from(io::ErrorKind::Unsupported))
}

impl Clock for Host {
    fn monotonic(&self) -> io::Result<Duration> {
        time_of(libc::CLOCK_MONOTONIC)
    }

    fn since_1970(&self) -> io::Result<Duration> {
        time_of(libc::CLOCK_REALTIME)
    }
}
