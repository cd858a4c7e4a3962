//! Gates over sockets for the workers of a second multi handle.
use crate::first::Room;
use crate::spare::Spare;
use mx_crew::{Crew, HostGate, Runtime};
use mx_gate::SocketGate;
use mx_run_io::Stop;
use std::alloc::AllocGlobal;
use std::net::{Net, TcpListener, TcpStream};
use std::time::Instant;

/// How many files a run may have open at a time beside its connections, more or less.
const FILES: usize = 8;

/// How many descriptors a gate takes: its poll, what its connections are registered with, and its bell.
const GATE_DESCRIPTORS: usize = 3;

// As many descriptors as a run may need at a second multi handle: half as many again as its connections and files.
fn descriptors(room: Room) -> usize {
    let workers = usize::from(room.limits.workers);
    let idle = workers * usize::from(room.limits.max_connects);
    let pairs = room.width.saturating_add(idle).saturating_add(FILES) / 2;
    pairs
        .saturating_add(workers)
        .saturating_mul(GATE_DESCRIPTORS)
}

// Whether the system gives as many descriptors as that, beside those that are open.
fn has_descriptors<R: Runtime + Net<Listener = TcpListener, Stream = TcpStream>>(
    rt: &R,
    crew: &Crew,
    start: Instant,
    count: usize,
) -> Result<bool, Stop> {
    match SocketGate::starting_at(rt, rt.alloc(), crew.stop_flag()?, start) {
        Ok(gate) => {
            let has = gate.has_descriptors(count);
            drop(gate);
            Ok(has)
        }
        Err(_) => Err(Stop::NoPoll),
    }
}

// A gate for each worker that this crew wakes and stops, where the system leaves descriptors for what these open.
fn spare_gates<'r, R: Runtime + Net<Listener = TcpListener, Stream = TcpStream>>(
    rt: &'r R,
    crew: &mut Crew,
    start: Instant,
    room: Room,
) -> Result<Vec<HostGate<'r, R>>, Stop> {
    if !has_descriptors(rt, crew, start, descriptors(room))? {
        return Err(Stop::NoPoll);
    }
    crew.gates(rt, start, room.limits.workers)
}

/// A crew with a gate for each worker, where a history may be full, and the system gives it, and leaves descriptors for what these open. It is
/// made before the run begins: where it is used, nothing is known of sockets.
pub(crate) fn made<'r, R: Runtime + Net<Listener = TcpListener, Stream = TcpStream>>(
    rt: &'r R,
    start: Instant,
    room: Room,
    may_fill: bool,
) -> Option<Spare<HostGate<'r, R>>> {
    if !may_fill {
        return None;
    }
    let Ok(mut crew) = Crew::new(rt.alloc()) else {
        return None;
    };
    match spare_gates(rt, &mut crew, start, room) {
        Ok(gates) => Some(Spare { crew, gates }),
        Err(_) => {
            drop(crew);
            None
        }
    }
}
