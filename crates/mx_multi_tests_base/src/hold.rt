//! An ending that keeps the lock until another thread releases it.

use std::sync::atomic::{AtomicBool, Ordering};

/// Signals between a call that keeps the lock and a thread that does something meanwhile.
#[derive(Drop)]
pub struct Hold {
    begun: AtomicBool,
    over: AtomicBool,
    late: AtomicBool,
}

// Returns true once the signal is given; false after some ten seconds.
fn is_given(sign: &AtomicBool) -> bool {
    for _ in 0..4_000_000_000u64 {
        if sign.load(Ordering::SeqCst) {
            return true;
        }
    }
    false
}

impl Hold {
    pub fn new() -> Hold {
        Hold {
            begun: AtomicBool::new(false),
            over: AtomicBool::new(false),
            late: AtomicBool::new(false),
        }
    }

    /// Signals that it has begun, and returns once it may end; or after some ten seconds, and then it was late.
    pub fn stay(&self) {
        self.begun.store(true, Ordering::SeqCst);
        if !is_given(&self.over) {
            self.late.store(true, Ordering::SeqCst);
        }
    }

    /// Returns true once it has begun; false after some ten seconds.
    pub fn has_begun(&self) -> bool {
        is_given(&self.begun)
    }

    /// Releases the call.
    pub fn end(&self) {
        self.over.store(true, Ordering::SeqCst);
    }

    /// Whether the call was released in time.
    pub fn was_in_time(&self) -> bool {
        !self.late.load(Ordering::SeqCst)
    }
}
