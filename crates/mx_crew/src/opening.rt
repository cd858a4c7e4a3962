//! The multi handle of a crew.
ghost use Rattle.std.specs.Prelude.{◌≡◌, true, All, IfOk, vec_len};
ghost use Rattle.mx_multi.specs.Opening.{are_within};

use mx_link::Link;
use mx_multi::{Limits, Multi, OpenError, OwnedMulti, Seat, WorkerSeat};
use mx_sink::{Delivery, Held};
use mx_transfer_core::{Outcome, Queued};
use mx_types::OutOfMemory;
use std::alloc::AllocGlobal;
use std::sync::Wait;

/// A multi handle with one seat for an application, and the workers' seats.
pub struct Opened<L: Link, D: Delivery = Held> {
    pub multi: OwnedMulti<Queued<L, D>, Outcome<D>>,
    pub seat: Seat<Queued<L, D>, Outcome<D>>,
    pub workers: Vec<WorkerSeat<Queued<L, D>, Outcome<D>>>,
}

/// Opens a multi handle with these limits, which have one seat for an application, and are within theirs: so `OutOfMemory` is the only
/// refusal.
pub fn open_one<L: Link, D: Delivery, R: Wait + AllocGlobal>(
    rt: &R,
    limits: Limits,
) -> Result<Opened<L, D>, OutOfMemory>
    requires within { are_within limits ≡ true }
    requires one { limits.seats ≡ 1 }
    ensures seat { IfOk result (λ o. o.seat.of ≡ o.multi) }
    ensures workers { IfOk result (λ o. All (λ s. s.of ≡ o.multi) o.workers.items) }
    ensures count { IfOk result (λ o. vec_len o.workers ≡ limits.workers) }
    ensures opening { IfOk result (λ o. o.multi.engine.opening ≡ record { history = limits.history; first = 0; from = 0 }) }
    ensures limits { IfOk result (λ o. o.multi.limits ≡ limits) }
{
    let (multi, mut seats, workers) = match Multi::open(rt, rt.alloc(), limits) {
        Ok(opened) => opened,
        Err(OpenError::OutOfMemory) => return Err(OutOfMemory),
        Err(OpenError::BadLimits) => unreachable!(),
    };
    let Some(seat) = seats.pop() else {
        unreachable!()
    };
    drop(seats);
    Ok(Opened {
        multi,
        seat,
        workers,
    })
}
