//! Idle links, by scripts of calls.

use mx_request::Endpoint;
use mx_turn::IdleCache;
use std::alloc::{AllocError, Global};

/// A call of a cache, and what it answers.
#[derive(Clone, Copy)]
enum Idle {
    /// Puts a link for a host: which link is given back.
    Put(&'static str, u32, Option<u32>),
    /// Puts the links of so many numbers, from 0, of which none is given back.
    PutAll(&'static str, u32),
    /// Takes a link of a host.
    Take(&'static str, Option<u32>),
    /// Counts the links.
    Len(u32),
}

/// A script: its name, the most links that are kept, and the calls.
type Script = (&'static str, usize, &'static [Idle]);

static SCRIPTS: [Script; 3] = [
    // rule idle-newest-first
    (
        "newest_is_taken_and_oldest_leaves",
        2,
        &[
            Idle::Put("a", 1, None),
            Idle::Put("b", 2, None),
            Idle::Put("a", 3, Some(1)),
            Idle::Take("a", Some(3)),
            Idle::Take("a", None),
            Idle::Len(1),
        ],
    ),
    // rule idle-limit-0
    (
        "limit_of_0_gives_each_link_back",
        0,
        &[
            Idle::Put("a", 1, Some(1)),
            Idle::Take("a", None),
            Idle::Len(0),
        ],
    ),
    (
        "put_65_of_64_gives_the_first_back",
        64,
        &[
            Idle::PutAll("a", 64),
            Idle::Put("a", 64, Some(0)),
            Idle::Len(64),
            Idle::Take("a", Some(64)),
        ],
    ),
];

/// Limits beyond memory.
static BEYOND: [(&str, usize); 2] = [
    ("limit_of_2_to_the_56", 1 << 56),
    ("greatest_limit", usize::MAX),
];

pub(crate) fn endpoint(alloc: Global, host: &str) -> Result<Endpoint, AllocError> {
    let host = String::from_str(alloc, host)?;
    Ok(Endpoint { host, port: 80 })
}

/// Puts a link.
pub(crate) fn put(
    alloc: Global,
    cache: &mut IdleCache<u32>,
    host: &str,
    link: u32,
) -> Result<Option<u32>, AllocError> {
    let there = endpoint(alloc, host)?;
    Ok(cache.put(there, link))
}

/// Puts so many links: the first that is given back.
fn put_all(
    alloc: Global,
    cache: &mut IdleCache<u32>,
    host: &str,
    count: u32,
) -> Result<Option<u32>, AllocError> {
    for link in 0..count {
        let back = put(alloc, cache, host, link);
        if back != Ok(None) {
            return back;
        }
    }
    Ok(None)
}

/// Takes a link.
pub(crate) fn take(
    alloc: Global,
    cache: &mut IdleCache<u32>,
    host: &str,
) -> Result<Option<u32>, AllocError> {
    let there = endpoint(alloc, host)?;
    let link = cache.take(&there);
    drop(there);
    Ok(link)
}

/// Puts or takes a link, or counts them: which link is given back or taken, or how many there are.
fn answer(
    alloc: Global,
    cache: &mut IdleCache<u32>,
    call: Idle,
) -> Result<Option<u32>, AllocError> {
    match call {
        Idle::Put(host, link, _) => put(alloc, cache, host, link),
        Idle::PutAll(host, count) => put_all(alloc, cache, host, count),
        Idle::Take(host, _) => take(alloc, cache, host),
        Idle::Len(_) => Ok(u32::try_from(cache.len()).ok()),
    }
}

/// What a call is to answer.
fn expected(call: Idle) -> Option<u32> {
    match call {
        Idle::Put(_, _, link) | Idle::Take(_, link) => link,
        Idle::PutAll(..) => None,
        Idle::Len(len) => Some(len),
    }
}

/// Makes these calls: whether each answers so.
fn call_each(alloc: Global, cache: &mut IdleCache<u32>, calls: &[Idle]) -> bool {
    let mut is_right = true;
    for one in calls {
        is_right = (answer(alloc, cache, *one) == Ok(expected(*one))) & is_right;
    }
    is_right
}

/// Whether a script goes as it should.
fn goes(alloc: Global, script: &Script) -> bool {
    match IdleCache::with_limit(alloc, script.1) {
        Ok(mut cache) => call_each(alloc, &mut cache, script.2),
        Err(_) => false,
    }
}

/// The name of the first script that doesn't, or that finds no memory.
pub(crate) fn wrong_idle(alloc: Global) -> Option<&'static str> {
    for script in &SCRIPTS {
        if !goes(alloc, script) {
            return Some(script.0);
        }
    }
    None
}

/// Whether a cache of that limit is made.
fn is_made(alloc: Global, limit: usize) -> bool {
    IdleCache::<u32>::with_limit(alloc, limit).is_ok()
}

/// The name of the first limit beyond memory that is taken.
pub(crate) fn wrong_limit(alloc: Global) -> Option<&'static str> {
    for (name, limit) in &BEYOND {
        if is_made(alloc, *limit) {
            return Some(*name);
        }
    }
    None
}
