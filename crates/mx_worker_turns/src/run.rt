//! A worker's run, from its start to its end.
ghost use Rattle.std.specs.Prelude.{◌≡◌, MatchResult};
ghost use Rattle.mx_worker_turns.specs.WorkerSteps.{HasRun};

use crate::worker::Worker;
use mx_gate::Gate;
use mx_link::Link;
use mx_sink::Delivery;
use mx_turn::{Engine, Right};
use std::alloc::AllocGlobal;
use std::sync::Wait;

/// Runs a worker that has room for so many idle links, from a start with nothing in flight, until it was told to stop and has nothing in
/// flight. Where memory for its start is refused, the engine comes back as it was, and the gate was asked nothing.
pub fn run_at<
    L: Link,
    C: Right,
    D: Delivery,
    E: Engine<L, C, D>,
    R: Wait + AllocGlobal,
    G: Gate<Link = L>,
>(rt: &R, engine: E, limit: u8, gate: &mut G) -> Result<E, E>
    ensures { MatchResult result (λ e. HasRun L.history L.token_of limit (E.did engine) (E.did e) (G.said gate.old) (G.said gate.new) × (E.start e ≡ E.start engine)) (λ back. (back ≡ engine) × (G.said gate.new ≡ G.said gate.old)) }
{
    let mut worker = match Worker::new(rt.alloc(), engine, limit) {
        Ok(worker) => worker,
        Err(back) => return Err(back),
    };
    worker.run(rt, gate);
    Ok(worker.into_engine())
}
