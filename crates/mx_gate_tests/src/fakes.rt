//! Lookups of a few hosts, what tests see of them, and answers as numbers.

use crate::hosts::addresses;
use crate::outside::{At, set, v4};
use mx_names::{Addresses, HostAnswer, Lookup, SystemLookup};
use mx_types::Code;
use std::alloc::{AllocError, Global};
use std::net::{IpAddr, SocketAddr};
use std::sync::Arc;
use std::sync::atomic::{AtomicBool, AtomicU64, Ordering};
use std::thread;
use std::time::Duration;

/// A lookup that knows the hosts `both`, `four` and `six`, and on this machine `good`, `late`, `hang`, `two` and `localhost`. It has no
/// memory for `huge`.
#[derive(Drop)]
pub(crate) struct Fake {
    pub alloc: Global,
}

/// The hosts that it knows, and their addresses.
static HOSTS: [(&'static str, &'static [At]); 8] = [
    (
        "both",
        &[
            At::V6(1),
            At::V4([192, 0, 2, 2]),
            At::V6(3),
            At::V4([192, 0, 2, 4]),
        ],
    ),
    ("four", &[At::V4([192, 0, 2, 5])]),
    ("six", &[At::V6(6)]),
    ("good", &[At::V4([127, 0, 0, 1])]),
    ("late", &[At::V4([127, 0, 0, 1])]),
    ("hang", &[At::V4([127, 0, 0, 1])]),
    ("two", &[At::V4([127, 0, 0, 2]), At::V4([127, 0, 0, 1])]),
    ("localhost", &[At::LocalV6, At::V4([127, 0, 0, 1])]),
];

/// The addresses of a host; none where it isn't known.
fn known(host: &str) -> &'static [At] {
    for row in &HOSTS {
        let (name, all) = *row;
        if name == host {
            return all;
        }
    }
    &[]
}

impl Lookup for Fake {
    ghost gives = { λ host outcome. Unit {0} };

    fn look_up(&self, host: &str) -> Result<Addresses, Code> {
        if host == "huge" {
            return Err(Code::OutOfMemory);
        }
        let mut all = [v4([0; 4], 0); 4];
        let count = set(&mut all, known(host));
        addresses(self.alloc, &all[..count])
    }
}

/// What a test sees of its lookups: how many began, how often the bell was rung, and whether those that hang are released.
#[derive(Drop)]
pub(crate) struct Seen {
    pub begun: AtomicU64,
    pub rings: AtomicU64,
    pub free: AtomicBool,
}

impl Seen {
    pub(crate) fn new(alloc: Global) -> Result<Arc<Seen>, AllocError> {
        let begun = AtomicU64::new(0);
        let rings = AtomicU64::new(0);
        let free = AtomicBool::new(false);
        Ok(Arc::new(alloc, Seen { begun, rings, free })?)
    }
}

/// A lookup of which this is seen, or one by the system.
pub(crate) fn lookup(
    rt: &HostRuntime,
    seen: &Arc<Seen>,
    by_system: bool,
) -> Result<Hanging, AllocError> {
    let seen = Arc::try_clone(seen)?;
    let fake = Fake { alloc: rt.alloc() };
    Ok(Hanging {
        rt: *rt,
        fake,
        seen,
        by_system,
    })
}

/// A lookup in which hosts that begin with `hang` hang until they are released, or for ten seconds, and `late` takes 50 milliseconds; or one
/// by the system.
#[derive(Drop)]
pub(crate) struct Hanging {
    rt: HostRuntime,
    fake: Fake,
    seen: Arc<Seen>,
    by_system: bool,
}

/// Waits as the lookup of that host does.
fn hang(rt: &HostRuntime, seen: &Seen, host: &str) {
    seen.begun.fetch_add(1, Ordering::SeqCst);
    if host == "late" {
        thread::sleep(rt, Duration::from_millis(50));
    }
    if !host.starts_with("hang") {
        return;
    }
    for _ in 0..10_000u32 {
        if seen.free.load(Ordering::SeqCst) {
            return;
        }
        thread::sleep(rt, Duration::from_millis(1));
    }
}

impl Lookup for Hanging {
    ghost gives = { λ host outcome. Unit {0} };

    fn look_up(&self, host: &str) -> Result<Addresses, Code> {
        if self.by_system {
            return SystemLookup::new(self.rt).look_up(host);
        }
        hang(&self.rt, &self.seen, host);
        self.fake.look_up(host)
    }
}

/// An address as a number: its last number, and 100 more where it is an IPv6 address.
fn number_of(address: &SocketAddr) -> u64 {
    match address.ip() {
        IpAddr::V4(ip) => u64::from(ip.octets()[3]),
        IpAddr::V6(ip) => 100 + u64::from(ip.octets()[15]),
    }
}

/// Whether these are the addresses as numbers.
fn are(addresses: &[SocketAddr], numbers: &[u64]) -> bool {
    if addresses.len() != numbers.len() {
        return false;
    }
    for at in 0..numbers.len() {
        if number_of(&addresses[at]) != numbers[at] {
            return false;
        }
    }
    true
}

/// Whether an answer is this in numbers: those of its addresses; the number of its code after 0; none where nothing is known.
pub(crate) fn says(answer: &HostAnswer, numbers: &[u64]) -> bool {
    match answer {
        HostAnswer::Known(addresses) => are(addresses.as_slice(), numbers),
        HostAnswer::Failed(code) => numbers == [0, u64::from(code.number())].as_slice(),
        HostAnswer::NotYet => numbers.is_empty(),
    }
}
