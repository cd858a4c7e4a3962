//! The moments of a run.
use mx_run_io::Stop;
use std::rt::Clock;
use std::time::Instant;

/// The clock of a run: milliseconds since it began.
#[derive(Clone, Copy, Drop)]
pub struct Timer {
    start: Instant,
}

impl Timer {
    /// The clock of a run that began then.
    pub fn new(start: Instant) -> Timer {
        Timer { start }
    }

    /// When the run began.
    pub fn start(&self) -> Instant {
        self.start
    }

    /// The moment now. `NoClock` comes where the system's clock can't be read.
    pub fn now<R: Clock>(&self, rt: &R) -> Result<u64, Stop> {
        match self.start.elapsed(rt) {
            Ok(passed) => Ok(u64::try_from(passed.as_millis()).unwrap_or(u64::MAX)),
            Err(_) => Err(Stop::NoClock),
        }
    }
}
