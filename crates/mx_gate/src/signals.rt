//! What the system reported of a gate's connections.
use std::alloc::{AllocError, Global};
use std::sync::atomic::{AtomicU64, Ordering};

/// How many counts there are of each kind. Tokens that differ by a multiple of it share one: their links may then make a needless call, but
/// miss none.
const COUNTS: u64 = 256;

/// How often the system reported that a connection may be read, how often that it may be written to, and how often that its other side
/// sends no more. A gate counts, and its links look.
#[derive(Drop)]
pub struct Signals {
    reads: Vec<AtomicU64>,
    ends: Vec<AtomicU64>,
    writes: Vec<AtomicU64>,
}

fn zeros(alloc: Global) -> Result<Vec<AtomicU64>, AllocError> {
    let mut counts = Vec::with_capacity(alloc, COUNTS as usize)?;
    for _ in 0..COUNTS {
        counts.push(AtomicU64::new(0))?;
    }
    Ok(counts)
}

fn tell(counts: &[AtomicU64], token: u64) {
    if let Some(count) = counts.get((token % COUNTS) as usize) {
        count.fetch_add(1, Ordering::SeqCst);
    }
}

fn told(counts: &[AtomicU64], token: u64) -> u64 {
    match counts.get((token % COUNTS) as usize) {
        Some(count) => count.load(Ordering::SeqCst),
        None => 0,
    }
}

impl Signals {
    /// Nothing was reported yet.
    ///
    /// The one error is that memory was refused.
    pub fn new(alloc: Global) -> Result<Signals, AllocError> {
        Ok(Signals {
            reads: zeros(alloc)?,
            ends: zeros(alloc)?,
            writes: zeros(alloc)?,
        })
    }

    /// Counts that the connection may be read.
    pub fn tell_read(&self, token: u64) {
        tell(&self.reads, token);
    }

    /// Counts that the other side of the connection sends no more, or that it failed. Who also reports that it may be read reports this
    /// first: a link that has seen that report then finds this one, too.
    pub fn tell_end(&self, token: u64) {
        tell(&self.ends, token);
    }

    /// Counts that the connection is made, failed, or may be written to.
    pub fn tell_write(&self, token: u64) {
        tell(&self.writes, token);
    }

    /// How often it was reported that the connection may be read.
    pub fn reads_told(&self, token: u64) -> u64 {
        told(&self.reads, token)
    }

    /// How often it was reported that the other side of the connection sends no more, or that it failed.
    pub fn ends_told(&self, token: u64) -> u64 {
        told(&self.ends, token)
    }

    /// How often it was reported that the connection is made, failed, or may be written to.
    pub fn writes_told(&self, token: u64) -> u64 {
        told(&self.writes, token)
    }
}
