//! How URLs are fetched.
ghost use Rattle.std.specs.Prelude.{◌≡◌};
ghost use Rattle.mx_run_io.specs.Options.{are_within, width};

/// How URLs are fetched.
#[derive(Clone, Copy, PartialEq, Eq)]
pub struct Options {
    /// How many workers fetch, each on a thread of its own: 1 to 16.
    pub workers: u8,
    /// The greatest number of transfers that are added at a time where there is more than one worker, 1 to 256.
    pub at_once: u16,
    /// The longest that a transfer may take, in milliseconds; 0 for no limit.
    pub timeout_ms: u32,
    /// The greatest number of idle connections that a worker keeps, 0 to 64.
    pub max_connects: u8,
    /// The greatest number of redirects that a transfer follows; 0 where none is followed.
    pub max_redirects: u8,
}

impl Options {
    // rule get-options
    /// Whether each number is within its limits.
    pub fn are_within(&self) -> bool
        ensures { result ≡ are_within self.now }
    {
        1 <= self.workers
            && self.workers <= 16
            && 1 <= self.at_once
            && self.at_once <= 256
            && self.max_connects <= 64
    }

    // rule get-width
    /// How many transfers are added at a time: one where there is one worker.
    pub fn width(&self) -> u16
        ensures { result ≡ width self.now }
    {
        if self.workers == 1 { 1 } else { self.at_once }
    }
}
