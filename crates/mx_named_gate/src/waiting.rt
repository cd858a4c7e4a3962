//! The hosts that a gate waits for.
use mx_types::OutOfMemory;
use std::alloc::Global;

// A host that was asked for, since when, and whether its answer was given.
#[derive(Drop)]
struct Wait {
    host: String,
    since: u64,
    is_told: bool,
}

/// The hosts that were asked for and not answered at once, as far as memory was given for them. A host that was answered stays until
/// `forget_told`, so that all who wait for it ask since the same moment. No clause speaks of them: by a gate's contract it may ask
/// since any moment.
#[derive(Drop)]
pub(crate) struct Waiting {
    waits: Vec<Wait>,
}

impl Waiting {
    /// None.
    pub fn new(alloc: Global) -> Waiting {
        Waiting {
            waits: Vec::new(alloc),
        }
    }

    /// Since when the host is asked for, if it is.
    pub fn since(&self, host: &str) -> Option<u64> {
        let wait = self.waits.iter().find(|w| w.host.as_str() == host)?;
        Some(wait.since)
    }

    /// Notes that the host is asked for since this moment, unless it is. An error leaves all as it was.
    pub fn begin(&mut self, alloc: Global, host: &str, now: u64) -> Result<(), OutOfMemory> {
        if self.since(host).is_some() {
            return Ok(());
        }
        let host = String::from_str(alloc, host)?;
        self.waits.push(Wait {
            host,
            since: now,
            is_told: false,
        })?;
        Ok(())
    }

    /// Notes that the host was answered.
    pub fn end(&mut self, host: &str) {
        for wait in &mut self.waits {
            if wait.host.as_str() == host {
                wait.is_told = true;
            }
        }
    }

    /// Forgets the hosts that were answered.
    pub fn forget_told(&mut self) {
        self.waits.retain(|w| !w.is_told);
    }
}
