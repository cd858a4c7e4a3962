//! Whether the workers of a run have started.
ghost use Rattle.std.specs.Prelude.{◌≡◌, true, IfErr};
ghost use Rattle.mx_crew.specs.Stops.{is_crew_stop};

use mx_run_io::Stop;
use std::sync::Wait;
use std::sync::atomic::{AtomicU64, Ordering};

/// What a worker adds whose start was refused, so that one word counts both.
const REFUSED: u64 = 1 << 16;

/// How often the start of a worker is tried before it tells that it is refused memory.
const TRIES: u32 = 5;

/// How many workers of a run have started, and the starts of how many were refused memory.
#[derive(Drop)]
pub(crate) struct Starts {
    told: AtomicU64,
}

impl Starts {
    pub fn new() -> Starts {
        Starts {
            told: AtomicU64::new(0),
        }
    }

    // Adds what a worker tells, and wakes who waits for it.
    fn tell(&self, what: u64) {
        self.told.fetch_add(what, Ordering::SeqCst);
        self.told.wake_all();
    }

    /// Waits until one of so many workers has started. `OutOfMemory` comes where the starts of all were refused.
    pub fn await_one<R: Wait>(&self, rt: &R, count: usize) -> Result<(), Stop>
        ensures why { IfErr result (λ e. is_crew_stop e ≡ true) }
    {
        for _ in rt.forever() {
            let told = self.told.load(Ordering::SeqCst);
            if told % REFUSED > 0 || count == 0 {
                return Ok(());
            }
            if told / REFUSED >= count as u64 {
                return Err(Stop::OutOfMemory);
            }
            self.told.park(rt, (told & 0xffff_ffff) as u32);
        }
        unreachable!()
    }
}

/// What a worker tells of its start, once.
#[derive(Drop)]
pub(crate) struct StartReport<'s> {
    starts: &'s Starts,
    has_started: bool,
    refusals: u32,
}

impl<'s> StartReport<'s> {
    pub fn new(starts: &'s Starts) -> StartReport<'s> {
        StartReport {
            starts,
            has_started: false,
            refusals: 0,
        }
    }

    /// The worker has started.
    pub fn tell(&mut self) {
        if !self.has_started {
            self.has_started = true;
            self.starts.tell(1);
        }
    }

    /// Its start was refused memory once more, unless it has started.
    pub fn tell_refusal(&mut self) {
        if self.has_started || self.refusals >= TRIES {
            return;
        }
        self.refusals += 1;
        if self.refusals == TRIES {
            self.starts.tell(REFUSED);
        }
    }

    /// The worker has ended.
    pub fn end(&self) {
        if !self.has_started && self.refusals < TRIES {
            self.starts.tell(REFUSED);
        }
    }
}
