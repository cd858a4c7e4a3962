//! One multi handle, from its opening to its end.
ghost use Rattle.std.specs.Prelude.{◌≡◌, All, IfOk, IsOkAnd, min, vec_len};
ghost use Rattle.mx_fetch.specs.Handles.{IsOpenedAs};

use mx_chain::Outcome;
use mx_crew::{Crew, Worked, run_beside, worker_slots};
use mx_gate::Gate;
use mx_link::Link;
use mx_multi::{Limits, Multi, WorkerSeat};
use mx_run_io::Stop;
use mx_sink::Delivery;
use mx_transfer_core::Queued;
use mx_types::OutOfMemory;
use std::alloc::{AllocGlobal, Global};
use std::sync::Wait;
use std::thread::Threads;

// The gates of workers that have ended.
fn gates_of<L: Link, G: Drop, D: Delivery>(
    alloc: Global,
    worked: Vec<Worked<L, G, D>>,
) -> Result<Vec<G>, OutOfMemory>
    ensures { IfOk result (λ gates. vec_len gates ≡ vec_len worked) }
{
    let mut gates = Vec::with_capacity(alloc, worked.len())?;
    let mut worked = worked;
    while let Some(one) = worked.pop() {
        gates.push_reserved(one.into_gate());
    }
    Ok(gates)
}

// The gates of a crew, if there was one.
fn free<L: Link, G: Drop, D: Delivery>(
    alloc: Global,
    worked: Result<Vec<Worked<L, G, D>>, Stop>,
) -> Result<Vec<G>, Stop>
    ensures { IfOk result (λ gates. IsOkAnd worked (λ w. vec_len gates ≡ vec_len w)) }
{
    match worked {
        Ok(worked) => Ok(gates_of(alloc, worked)?),
        Err(stop) => Err(stop),
    }
}

/// Runs an application beside a worker at each gate, as far as a multi handle, which was opened with these limits, has seats for them. It is
/// told why there is none, where there isn't. The gates come back.
pub(crate) fn beside_gates<
    'm,
    L: Link + Send,
    D: Delivery + Send,
    R: Threads + Wait + AllocGlobal + Sync,
    G: Gate<Link = L> + Send + Drop,
    T: Drop,
    A: FnOnce(Result<(), Stop>) -> T + Drop,
>(
    rt: &'m R,
    crew: &'m Crew,
    multi: &'m Multi<Queued<L, D>, Outcome<D>>,
    workers: Vec<WorkerSeat<Queued<L, D>, Outcome<D>>>,
    gates: Vec<G>,
    limits: Limits,
    application: A,
) -> (T, Result<Vec<G>, Stop>)
    requires opened { IsOpenedAs limits multi.now }
    requires workers { All (λ s. s.of ≡ multi.now) workers.items }
    requires counts { vec_len workers ≡ limits.workers }
    requires application { (stands : _) → A.pre application stands }
    ensures told { (stands : _) × A.post application stands result.0 }
    ensures gates { IfOk result.1 (λ back. vec_len back ≡ min limits.workers (vec_len gates)) }
{
    match worker_slots(rt.alloc(), multi, workers, gates) {
        Ok(slots) => {
            let (told, worked) = run_beside(rt, crew, slots, application);
            (told, free(rt.alloc(), worked))
        }
        Err(refused) => {
            drop(refused);
            (application(Err(Stop::OutOfMemory)), Err(Stop::OutOfMemory))
        }
    }
}
