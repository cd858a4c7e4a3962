//! What the workers of a run know of one another where too many files are open.

use std::sync::atomic::{AtomicU64, Ordering};

/// For so many milliseconds connections that couldn't be begun are tried again; then they fail.
const PATIENCE_MS: u64 = 500;

/// After so many milliseconds a shortage counts as a new one.
const RENEWAL_MS: u64 = 5_000;

/// How many milliseconds a worker lets pass between two tries. Meanwhile files may be opened by what other workers have closed.
const AGAIN_MS: u32 = 10;

/// How often a worker of a run couldn't begin a connection since too many files were open.
#[derive(Drop)]
pub(crate) struct Shortages {
    count: AtomicU64,
}

impl Shortages {
    pub fn new() -> Shortages {
        Shortages {
            count: AtomicU64::new(0),
        }
    }

    pub fn tell(&self) {
        self.count.fetch_add(1, Ordering::SeqCst);
    }

    pub fn count(&self) -> u64 {
        self.count.load(Ordering::SeqCst)
    }
}

/// A shortage of files: when it began, and when a connection was tried last.
#[derive(Clone, Copy)]
struct Shortage {
    since: u64,
    tried: u64,
}

impl Shortage {
    fn is_old(&self, now: u64) -> bool {
        now.saturating_sub(self.since) >= RENEWAL_MS
    }

    // It is tried again for a while, and then connections fail, until it counts as a new one.
    fn is_over(&self, now: u64) -> bool {
        now.saturating_sub(self.since) >= PATIENCE_MS && !self.is_old(now)
    }

    // It is time to try again.
    fn is_due(&self, now: u64) -> bool {
        now.saturating_sub(self.tried) >= u64::from(AGAIN_MS)
    }

    // When it began, or begins where it is old.
    fn since(&self, now: u64) -> u64 {
        if self.is_old(now) { now } else { self.since }
    }

    // How long the worker may wait.
    fn wait(&self, now: u64, wait_ms: u32) -> u32 {
        if now.saturating_sub(self.since) < PATIENCE_MS {
            wait_ms.min(AGAIN_MS)
        } else {
            wait_ms
        }
    }
}

/// A worker's own shortage, if it has one, and how many of the run's it knows of.
#[derive(Clone, Copy)]
pub(crate) struct Watch {
    seen: u64,
    own: Option<Shortage>,
}

impl Watch {
    pub fn new() -> Watch {
        Watch { seen: 0, own: None }
    }

    /// Whether a connection may be tried now: in a shortage it is from time to time.
    pub fn may_try(&self, now: u64) -> bool {
        match self.own {
            Some(shortage) => shortage.is_due(now) || shortage.is_over(now),
            None => true,
        }
    }

    /// Whether one that can't be begun now may be tried again.
    pub fn may_try_again(&self, now: u64) -> bool {
        match self.own {
            Some(shortage) => !shortage.is_over(now),
            None => true,
        }
    }

    /// One couldn't be begun now, since too many files were open.
    pub fn begin(&mut self, now: u64) {
        let since = match self.own {
            Some(shortage) => shortage.since(now),
            None => now,
        };
        self.own = Some(Shortage { since, tried: now });
    }

    /// One was begun.
    pub fn end(&mut self) {
        self.own = None;
    }

    /// How long the worker may wait: not long where it is to try again.
    pub fn wait(&self, now: u64, wait_ms: u32) -> u32 {
        match self.own {
            Some(shortage) => shortage.wait(now, wait_ms),
            None => wait_ms,
        }
    }

    /// Whether a worker of the run told of a shortage since this was asked last.
    pub fn has_news(&mut self, shortages: &Shortages) -> bool {
        let count = shortages.count();
        let has_news = count != self.seen;
        self.seen = count;
        has_news
    }
}
