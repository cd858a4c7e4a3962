//! A resolver, whose lookups are on threads.

use crate::fakes::{Hanging, Seen, lookup, says};
use mx_names::{Resolver, Ring};
use mx_types::History;
use std::alloc::{AllocError, AllocGlobal};
use std::rt::Clock;
use std::sync::atomic::Ordering;
use std::sync::{Arc, Wait};
use std::test::Fail;
use std::thread;
use std::thread::Threads;
use std::time::{Duration, Instant};

/// A bell that counts.
#[derive(Drop)]
struct Count(Arc<Seen>);

impl Ring for Count {
    fn ring(&self) {
        self.0.rings.fetch_add(1, Ordering::SeqCst);
    }
}

/// Whether this is what is known of the host, in numbers; None where nothing is.
fn tells<R: Threads + Clock + Wait + AllocGlobal + Copy + Send + Drop + 'static>(
    rt: &R,
    resolver: &Resolver<Hanging, Count>,
    host: &str,
    expected: &[u64],
) -> Option<bool> {
    let answer = resolver.ask(rt, host, 0, 0, &mut History::new());
    let told = if says(&answer, &[]) {
        None
    } else {
        Some(says(&answer, expected))
    };
    drop(answer);
    told
}

/// The same once something is known; false where nothing is after ten seconds.
fn is_told<R: Threads + Clock + Wait + AllocGlobal + Copy + Send + Drop + 'static>(
    rt: &R,
    resolver: &Resolver<Hanging, Count>,
    host: &str,
    expected: &[u64],
) -> bool {
    for _ in 0..10_000u32 {
        if let Some(is_so) = tells(rt, resolver, host, expected) {
            return is_so;
        }
        thread::sleep(rt, Duration::from_millis(1));
    }
    false
}

/// The first of these hosts of which something else is known.
fn first_untold<R: Threads + Clock + Wait + AllocGlobal + Copy + Send + Drop + 'static>(
    rt: &R,
    resolver: &Resolver<Hanging, Count>,
) -> Option<&'static str> {
    for row in &TOLD {
        let (host, expected) = *row;
        if !is_told(rt, resolver, host, expected) {
            return Some(host);
        }
    }
    None
}

/// Three hosts that don't hang, and what is known of them.
static TOLD: [(&'static str, &'static [u64]); 3] = [
    ("both", &[2, 4, 101, 103]),
    ("none", &[0, 6]),
    ("[2001:db8::7]", &[107]),
];

/// Asks once of so many hosts that hang. False where memory is refused.
fn ask_of_hanging<R: Threads + Clock + Wait + AllocGlobal + Copy + Send + Drop + 'static>(
    rt: &R,
    resolver: &Resolver<Hanging, Count>,
    count: u64,
) -> bool {
    for number in 0..count {
        let Ok(host) = format!(in rt.alloc(); "hang{number}") else {
            return false;
        };
        tells(rt, resolver, host.as_str(), &[]);
        drop(host);
    }
    true
}

/// How many lookups began, once so many have, or after ten seconds.
fn begun(rt: &HostRuntime, seen: &Seen, count: u64) -> u64 {
    for _ in 0..10_000u32 {
        if seen.begun.load(Ordering::SeqCst) >= count {
            break;
        }
        thread::sleep(rt, Duration::from_millis(1));
    }
    seen.begun.load(Ordering::SeqCst)
}

/// A bell is added to a resolver. False where memory is refused.
fn add_bell<R: Wait>(rt: &R, seen: &Arc<Seen>, resolver: &Resolver<Hanging, Count>) -> bool {
    match Arc::try_clone(seen) {
        Ok(seen) => resolver.add_bell(rt, Count(seen)).is_ok(),
        Err(AllocError) => false,
    }
}

/// The first of three hosts with another answer while 63 lookups hang. The resolver has no bell before.
fn first_wrong<R: Threads + Clock + Wait + AllocGlobal + Copy + Send + Drop + 'static>(
    rt: &R,
    host: &HostRuntime,
    seen: &Arc<Seen>,
    resolver: &Resolver<Hanging, Count>,
) -> Option<&'static str> {
    let is_rung = add_bell(rt, seen, resolver);
    if !is_rung || !ask_of_hanging(rt, resolver, 63) || !ask_of_hanging(rt, resolver, 63) {
        return Some("memory");
    }
    let untold = first_untold(rt, resolver);
    if untold.is_some() {
        return untold;
    }
    if begun(host, seen, 65) != 65 {
        return Some("how many lookups began");
    }
    if seen.rings.load(Ordering::SeqCst) == 0 {
        return Some("the bell");
    }
    None
}

/// The same, of a new resolver.
fn first_wrong_of_new<R: Threads + Clock + Wait + AllocGlobal + Copy + Send + Drop + 'static>(
    rt: &R,
    host: &HostRuntime,
    seen: &Arc<Seen>,
) -> Result<Option<&'static str>, Fail> {
    let start = Instant::now(host)?;
    let resolver = Resolver::new(host.alloc(), lookup(host, seen, false)?, start)?;
    let wrong = first_wrong(rt, host, seen, &resolver);
    drop(resolver);
    Ok(wrong)
}

// rule name-spelled-address
// rule name-hanging-lookups
/// Those that hang are released at last.
#[test]
fn lookups_that_hang_delay_no_other(rt: HostRuntime) -> Result<(), Fail> {
    let seen = Seen::new(rt.alloc())?;
    let wrong = first_wrong_of_new(&rt, &rt, &seen);
    seen.free.store(true, Ordering::SeqCst);
    drop(seen);
    match wrong? {
        None => Ok(()),
        Some(what) => Err(what.into()),
    }
}
