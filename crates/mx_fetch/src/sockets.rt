//! A run over sockets.
ghost use Rattle.std.specs.Prelude.{◌≡◌, true, Err, List, Ok, Option, OnOk, vec_len};
ghost use Rattle.mx_multi.specs.Opening.{are_within};
ghost use Rattle.mx_request.specs.Request.{RequestValue};
ghost use Rattle.mx_fetch.specs.declared.turned.Turned.TheVariants as how;

use crate::fetch::Fetch;
use crate::first::{First, Room, run_on};
use crate::gates::made;
use crate::spare::Spare;
use crate::turned::Turned;
use mx_crew::{Crew, Runtime};
use mx_gate::Gate;
use mx_link::Link;
use mx_named_gate::PacedGate;
use mx_run_io::Stop;
use mx_sink::Delivery;
use std::alloc::AllocGlobal;
use std::net::{Net, TcpListener, TcpStream};
use std::time::Instant;

/// How a fetch ended: what fetched, why it stopped before all had ended, if it did, and whether a connection couldn't be begun since too many
/// files were open.
#[derive(Drop)]
pub struct FetchEnd<E> {
    pub errand: Box<E>,
    pub stopped: Result<(), Stop>,
    pub met_file_limit: bool,
}

// How a run ended, where it turned so at its last multi handle.
fn end_of(turned: Result<Turned, Stop>) -> Result<(), Stop>
    ensures { OnOk result (turned ≡ Ok how.AllEnded) }
{
    match turned {
        Ok(Turned::AllEnded) => Ok(()),
        Ok(_) => Err(Stop::NoMessage),
        Err(stop) => Err(stop),
    }
}

// Whether a connection couldn't be begun at one of the spare gates since too many files were open.
fn spare_met_file_limit<G>(spare: &Option<Spare<G>>) -> bool {
    match spare {
        Some(spare) => spare.crew.met_file_limit(),
        None => false,
    }
}

// It stopped before it began.
fn unbegun<E: Drop>(errand: Box<E>, stop: Stop) -> FetchEnd<E>
    ensures errand { result.errand ≡ errand }
    ensures stopped { result.stopped ≡ Err stop }
{
    FetchEnd {
        errand,
        stopped: Err(stop),
        met_file_limit: false,
    }
}

// Fetches at these gates, and at the spare ones where it needs them. It knows nothing of sockets: what its exits drop is of any link.
fn fetch_at_gates<
    L: Link + Send,
    D: Delivery + Send,
    R: Runtime,
    G: Gate<Link = L> + Send + Drop,
    E: Fetch<D> + Drop,
>(
    rt: &R,
    crew: &Crew,
    gates: Vec<G>,
    spare: Option<Spare<G>>,
    room: Room,
    errand: Box<E>,
) -> FetchEnd<E>
    requires within { are_within room.limits ≡ true }
    requires one { room.limits.seats ≡ 1 }
    requires gates { vec_len gates ≡ room.limits.workers }
    requires asked { (asked : List (Option RequestValue)) → E.is_asked errand.value asked }
    ensures run { E.is_same errand.value result.errand.value }
    ensures ended { OnOk result.stopped (E.has_turned result.errand.value how.AllEnded) }
{
    let first = First {
        errand,
        spare,
        room,
        turned: Err(Stop::NoMessage),
    };
    let First {
        errand,
        spare,
        room: _,
        turned,
    } = run_on::<L, D, R, G, E>(rt, crew, gates, first);
    let met_file_limit = crew.met_file_limit() || spare_met_file_limit(&spare);
    drop(spare);
    FetchEnd {
        errand,
        stopped: end_of(turned),
        met_file_limit,
    }
}

// The same, at gates that open a few links at a time. What calls it with gates over sockets knows nothing of how they do so: it takes the
// prover half as much to compare the methods of such gates where those of `PacedGate` aren't around them.
fn fetch_at_paced<D: Delivery + Send, R: Runtime, N: Gate + Send + Drop, E: Fetch<D> + Drop>(
    rt: &R,
    crew: &Crew,
    gates: Vec<PacedGate<N>>,
    spare: Option<Spare<PacedGate<N>>>,
    room: Room,
    errand: Box<E>,
) -> FetchEnd<E>
where
    N::Link: Send,
    requires within { are_within room.limits ≡ true }
    requires one { room.limits.seats ≡ 1 }
    requires gates { vec_len gates ≡ room.limits.workers }
    requires asked { (asked : List (Option RequestValue)) → E.is_asked errand.value asked }
    ensures run { E.is_same errand.value result.errand.value }
    ensures ended { OnOk result.stopped (E.has_turned result.errand.value how.AllEnded) }
{
    fetch_at_gates::<N::Link, D, R, PacedGate<N>, E>(rt, crew, gates, spare, room, errand)
}

// Fetches with workers over sockets that this crew wakes and stops. It owns no crew, so its exits drop none.
fn fetch_by<
    D: Delivery + Send,
    R: Runtime + Net<Listener = TcpListener, Stream = TcpStream>,
    E: Fetch<D> + Drop,
>(
    rt: &R,
    crew: &mut Crew,
    errand: Box<E>,
    start: Instant,
    room: Room,
    may_fill: bool,
) -> FetchEnd<E>
    requires within { are_within room.limits ≡ true }
    requires one { room.limits.seats ≡ 1 }
    requires asked { (asked : List (Option RequestValue)) → E.is_asked errand.value asked }
    ensures run { E.is_same errand.value result.errand.value }
    ensures ended { OnOk result.stopped (E.has_turned result.errand.value how.AllEnded) }
{
    match crew.gates(rt, start, room.limits.workers) {
        Ok(gates) => {
            let spare = made(rt, start, room, may_fill);
            fetch_at_paced::<D, R, _, E>(rt, crew, gates, spare, room, errand)
        }
        Err(stop) => unbegun(errand, stop),
    }
}

/// Fetches with workers over sockets, at one multi handle after another, until all has ended. One whose history is full is followed by the next
/// once all has ended that was added there; where that takes more than half a second, a second one is opened beside it. The workers' clocks
/// have that start. `may_fill` says whether a history may be full before all has ended: only then gates are made for a second multi handle. It
/// may wait.
///
/// It stops where memory is refused, and where the system has no poll or no thread for it; no clause says that the cause is the right one, nor
/// that `met_file_limit` is.
pub fn fetch_over_sockets<
    D: Delivery + Send,
    R: Runtime + Net<Listener = TcpListener, Stream = TcpStream>,
    E: Fetch<D> + Drop,
>(rt: &R, errand: Box<E>, start: Instant, room: Room, may_fill: bool) -> FetchEnd<E>
    requires within { are_within room.limits ≡ true }
    requires one { room.limits.seats ≡ 1 }
    requires asked { (asked : List (Option RequestValue)) → E.is_asked errand.value asked }
    ensures run { E.is_same errand.value result.errand.value }
    ensures ended { OnOk result.stopped (E.has_turned result.errand.value how.AllEnded) }
{
    match Crew::new(rt.alloc()) {
        Ok(mut crew) => {
            let end = fetch_by::<D, R, E>(rt, &mut crew, errand, start, room, may_fill);
            drop(crew);
            end
        }
        Err(_) => unbegun(errand, Stop::OutOfMemory),
    }
}
