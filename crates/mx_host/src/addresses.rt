//! The addresses of a host as the system gives them.
ghost use Rattle.std.specs.Prelude.{◌≡◌, ◌↔◌, IfOk, IsOk};
ghost use Rattle.std.specs.Net.SockAddr.{HoldsSockAddr};
ghost use Rattle.std.specs.Net.Socket.{socket_port};
ghost use Rattle.mx_host.specs.Hosts.{IsAddressIn};

use libc::net::{AF_INET, AF_INET6};
use os::RawAddr;
use std::io;
use std::net::{Ipv4Addr, Ipv6Addr, SocketAddr, SocketAddrV4, SocketAddrV6};

/// How many bytes an address of the system has at most (`sockaddr_storage`).
const MOST_BYTES: usize = 128;

/// The length of an IPv4 address with its family and port (`sockaddr_in`).
const V4_LEN: u32 = 16;

/// That of an IPv6 address (`sockaddr_in6`).
const V6_LEN: u32 = 28;

/// An address of no family, to be written over.
pub(crate) const NO_ADDRESS: RawAddr = RawAddr {
    bytes: [0; MOST_BYTES],
    len: 0,
};

/// The address in these bytes, at this port. `InvalidInput` comes where it is neither an IPv4 nor an IPv6 address, whole.
pub(crate) fn address_of(raw: &RawAddr, port: u16) -> io::Result<SocketAddr>
    ensures known { IsOk result ↔ HoldsSockAddr raw.now.bytes raw.now.len }
    ensures ip { IfOk result (IsAddressIn raw.now.bytes) }
    ensures port { IfOk result (λ address. socket_port address ≡ port) }
{
    let bytes = &raw.bytes;
    let family = i32::from(u16::from_le_bytes([bytes[0], bytes[1]]));
    if family == AF_INET && raw.len >= V4_LEN {
        let ip = Ipv4Addr::new(bytes[4], bytes[5], bytes[6], bytes[7]);
        return Ok(SocketAddr::V4(SocketAddrV4::new(ip, port)));
    }
    if family == AF_INET6 && raw.len >= V6_LEN {
        let mut octets = [0u8; 16];
        octets.copy_from_slice(&bytes[8..24]);
        let ip = Ipv6Addr::from_octets(octets);
        let scope = u32::from_le_bytes([bytes[24], bytes[25], bytes[26], bytes[27]]);
        return Ok(SocketAddr::V6(SocketAddrV6::new(ip, port, 0, scope)));
    }
    Err(io::Error::from(io::ErrorKind::InvalidInput))
}
