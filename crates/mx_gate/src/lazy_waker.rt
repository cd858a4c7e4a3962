//! What ends the waits of a poll.

use mio::{Registry, Token, Waker};
use std::io;
use std::sync::atomic::{AtomicU8, Ordering};

// No wait is under way, and nobody woke it since the last one.
const AWAKE: u8 = 0;

// A wait is under way, or about to begin.
const WAITS: u8 = 1;

// Somebody woke it since the last wait.
const WOKEN: u8 = 2;

/// A waker of a poll that makes a system call only where one waits: else it leaves a note, which the next wait finds. One thread waits, and
/// any thread wakes it. No clause says what ends a wait.
#[derive(Drop)]
pub(crate) struct LazyWaker {
    waker: Waker,
    state: AtomicU8,
}

impl LazyWaker {
    /// A waker that woke nobody yet, which the poll of this registry reports under that token.
    pub fn new(registry: &Registry, token: Token) -> io::Result<LazyWaker> {
        Ok(LazyWaker {
            waker: Waker::new(registry, token)?,
            state: AtomicU8::new(AWAKE),
        })
    }

    /// Ends the wait that is under way, else the next one.
    pub fn wake(&self) -> io::Result<()> {
        if self.state.swap(WOKEN, Ordering::SeqCst) == WAITS {
            return self.waker.wake();
        }
        Ok(())
    }

    /// Begins a wait, where one is wanted and nobody woke it since the last. The answer is whether it begins: then who wakes it ends it.
    pub fn begin(&self, is_wanted: bool) -> bool {
        is_wanted && self.state.swap(WAITS, Ordering::SeqCst) != WOKEN
    }

    /// The wait is over, also where it didn't begin. What was done before somebody woke it until then is seen by its thread from then on.
    pub fn end(&self) {
        let _ = self.state.swap(AWAKE, Ordering::SeqCst);
    }
}
