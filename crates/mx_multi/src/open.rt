//! Opening a multi handle.
ghost use Rattle.std.specs.Prelude.{◌≡◌, ◌&&◌, nat_le, true, false, Err, IfOk, IfErr};
ghost use Rattle.mx_multi.specs.Opening.{are_within, open_number, IsOpened};
ghost use Rattle.mx_types.specs.Limits.{is_history, most_seats};

use crate::founding::{found, rooms_by};
use crate::multi::Multi;
use crate::owned::OwnedMulti;
use crate::seat::{Seat, WorkerSeat};
use mx_board::board;
use mx_lock::{Engine, TieMark};
use mx_types::{Ending, LEAST_HISTORY, MOST_HISTORY, MOST_SEATS, OutOfMemory, Work};
use std::alloc::Global;
use std::sync::Wait;
use thiserror::Error;

/// The most idle connections that a worker may be allowed to keep.
pub const MOST_CONNECTS: u8 = 64;

/// What a multi handle is opened with.
#[derive(Clone, Copy)]
pub struct Limits {
    /// Seats for application threads, 1 to [`MOST_SEATS`].
    pub seats: u8,
    /// Seats for workers, 1 to [`MOST_SEATS`].
    pub workers: u8,
    /// The greatest number of events of its history, [`LEAST_HISTORY`] to [`MOST_HISTORY`].
    pub history: u32,
    /// The greatest number of idle connections that a worker keeps, 0 to [`MOST_CONNECTS`].
    pub max_connects: u8,
}

impl Limits {
    // rule multi-limits
    /// Whether each number is within its limits.
    pub fn are_within(&self) -> bool
        ensures { result ≡ are_within self.now }
    {
        is_seat_count(self.seats)
            && is_seat_count(self.workers)
            && is_history(self.history)
            && self.max_connects <= MOST_CONNECTS
    }
}

// Whether there can be so many seats of a kind.
fn is_seat_count(count: u8) -> bool
    ensures { result ≡ (nat_le 1 count && nat_le count most_seats) }
{
    1 <= count && usize::from(count) <= MOST_SEATS
}

// Whether a history can have so many events.
fn is_history(events: u32) -> bool
    ensures { result ≡ is_history events }
{
    LEAST_HISTORY <= events && events <= MOST_HISTORY
}

/// Why a multi handle was not opened.
#[derive(Clone, Copy, Debug, PartialEq, Eq, Error)]
pub enum OpenError {
    /// A number isn't within its limits, which is tried first.
    #[error("a number of seats, workers, events or idle connections isn't within its limits")]
    BadLimits,
    /// A growth was refused.
    #[error("out of memory")]
    OutOfMemory,
}

impl OpenError {
    /// The number of the refusal, from 1 on.
    pub fn number(self) -> u32
        ensures { result ≡ open_number self }
    {
        match self {
            OpenError::BadLimits => 1,
            OpenError::OutOfMemory => 2,
        }
    }
}

impl<Q: Work + Drop, O: Ending + Drop> Multi<Q, O> {
    /// Opens a multi handle, with its seats and its workers' seats, for an owner who closes it. It waits until the empty version is published.
    ///
    /// # Errors
    ///
    /// `BadLimits`, tried first, where a number isn't within its limits ([`Limits`]); `OutOfMemory` where memory is refused. No clause says
    /// that an error frees what was allocated.
    pub fn open<R: Wait>(
        rt: &R,
        alloc: Global,
        limits: Limits,
    ) -> Result<(OwnedMulti<Q, O>, Vec<Seat<Q, O>>, Vec<WorkerSeat<Q, O>>), OpenError>
        ensures bad { are_within limits ≡ false → result ≡ Err OpenError.BadLimits }
        ensures good { IfErr result (λ e. e ≡ OpenError.BadLimits → are_within limits ≡ false) }
        ensures opened { IfOk result (λ r. IsOpened limits r.0 r.1.items r.2.items) }
    {
        if !limits.are_within() {
            return Err(OpenError::BadLimits);
        }
        match Multi::open_within(rt, alloc, limits) {
            Ok(opened) => Ok(opened),
            Err(OutOfMemory) => Err(OpenError::OutOfMemory),
        }
    }

    fn open_within<R: Wait>(
        rt: &R,
        alloc: Global,
        limits: Limits,
    ) -> Result<(OwnedMulti<Q, O>, Vec<Seat<Q, O>>, Vec<WorkerSeat<Q, O>>), OutOfMemory>
        requires { are_within limits ≡ true }
        ensures { IfOk result (λ r. IsOpened limits r.0 r.1.items r.2.items) }
    {
        let places = usize::from(limits.seats) + usize::from(limits.workers);
        let log = board(rt, alloc, places)?;
        let (rooms, log) = rooms_by(rt, alloc, log, limits)?;
        match Engine::new(alloc, limits.history, log) {
            Ok(engine) => Ok(found(rt, rooms, engine, limits)),
            Err(log) => {
                // By a call, which is less to prove than a drop at the end of the block.
                drop(rooms);
                let _table = log.close(rt);
                Err(OutOfMemory)
            }
        }
    }

    /// The ties with which it began, for contracts alone: they show which claims are of this multi handle.
    pub fn first_ties(&self) -> TieMark
        ensures { result.book ≡ self.now.engine.ties }
    {
        self.ties.again()
    }

    /// How many idle connections a worker keeps at most: what it was opened with.
    pub fn max_connects(&self) -> u8
        ensures { result ≡ self.now.limits.max_connects }
    {
        self.limits.max_connects
    }
}
