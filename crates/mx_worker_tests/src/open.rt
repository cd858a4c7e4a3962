//! A multi handle with one seat and two workers' seats.
ghost use Rattle.std.specs.Prelude.{◌≡◌, All, IfOk};

use mx_link::ScriptLink;
use mx_multi::{Limits, Multi, OwnedMulti, Seat, WorkerSeat};
use mx_transfer_core::Outcome;
use mx_types::{Ending, OutOfMemory, Work};
use mx_worker::Queued;
use std::alloc::AllocGlobal;
use std::sync::Wait;

/// A multi handle's parts, of any work.
pub struct Parts<Q: Work + Drop, O: Ending + Drop> {
    pub multi: OwnedMulti<Q, O>,
    pub seat: Seat<Q, O>,
    pub workers: Vec<WorkerSeat<Q, O>>,
}

/// Those of a multi handle over scripted links.
pub type ScriptParts = Parts<Queued<ScriptLink>, Outcome>;

/// Opens a multi handle, whose workers keep so many idle links.
pub fn open<Q: Work + Drop, O: Ending + Drop, R: Wait + AllocGlobal>(
    rt: &R,
    max_connects: u8,
) -> Result<Parts<Q, O>, OutOfMemory>
    ensures seat { IfOk result (λ o. o.seat.of ≡ o.multi) }
    ensures workers { IfOk result (λ o. All (λ s. s.of ≡ o.multi) o.workers.items) }
{
    let limits = Limits {
        seats: 1,
        workers: 2,
        history: 2048,
        max_connects,
    };
    let Ok((multi, mut seats, workers)) = Multi::open(rt, rt.alloc(), limits) else {
        return Err(OutOfMemory);
    };
    match seats.pop() {
        Some(seat) => Ok(Parts {
            multi,
            seat,
            workers,
        }),
        None => {
            drop(workers);
            multi.close(rt);
            Err(OutOfMemory)
        }
    }
}
