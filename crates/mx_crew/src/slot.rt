//! A worker's slot.
ghost use Rattle.std.specs.Prelude.{◌≡◌, ◌≤◌, ◌∷◌, ◌++◌, [], false, All, IfErr, IfOk, min, vec_capacity, vec_len};
ghost use Rattle.mx_gate.specs.Said.{waited};
ghost use Rattle.mx_crew.specs.Gates.{OpensWithin};
ghost use Rattle.mx_crew.specs.Worked.{EndsTry, HasWorked, IsOfSlot, again_ms};

use crate::beside::Job;
use crate::gate::{Before, Common, RunGate};
use crate::worked::{Counts, SeatThen, Worked};
use mx_gate::{Gate, Turn};
use mx_link::Link;
use mx_multi::{AtWork, Multi, Seated, WorkerSeat};
use mx_sink::{Delivery, Held};
use mx_transfer_core::{Outcome, Queued};
use mx_worker::{WorkerEnd, run_worker};
use std::alloc::{AllocGlobal, Global};
use std::marker::Brand;
use std::snapshot::Snapshot;
use std::sync::Wait;

/// How long a worker waits whose start was refused memory, in milliseconds.
const START_AGAIN: u32 = 20;

/// A worker's seat and its gate.
#[derive(Drop)]
pub struct WorkerSlot<'m, L: Link, G, D: Delivery = Held> {
    pub seat: Seated<'m, AtWork, Queued<L, D>, Outcome<D>>,
    pub gate: G,
}

/// Memory for slots was refused: seats and gates come back.
#[derive(Drop)]
pub struct NoWorkerSlots<L: Link, G, D: Delivery = Held> {
    pub seats: Vec<WorkerSeat<Queued<L, D>, Outcome<D>>>,
    pub gates: Vec<G>,
}

/// A slot for each seat, as far as there are gates. Seats or gates left over are dropped. Where memory is refused, seats and gates are
/// handed back.
pub fn worker_slots<'m, L: Link, D: Delivery, G: Gate<Link = L> + Drop>(
    alloc: Global,
    multi: &'m Multi<Queued<L, D>, Outcome<D>>,
    seats: Vec<WorkerSeat<Queued<L, D>, Outcome<D>>>,
    gates: Vec<G>,
) -> Result<Vec<WorkerSlot<'m, L, G, D>>, NoWorkerSlots<L, G, D>>
    requires { All (λ s. s.of ≡ multi.now) seats.items }
    ensures count { IfOk result (λ slots. vec_len slots ≡ min (vec_len seats) (vec_len gates)) }
    ensures back { IfErr result (λ e. (e.seats ≡ seats) × (e.gates ≡ gates)) }
{
    let Ok(mut slots) = Vec::with_capacity(alloc, seats.len()) else {
        return Err(NoWorkerSlots { seats, gates });
    };
    let (mut seats, mut gates) = (seats, gates);
    fill(multi, &mut seats, &mut gates, &mut slots);
    drop(seats);
    drop(gates);
    Ok(slots)
}

// Makes a slot of each gate, as far as there are seats: there is room for them. It owns none of these, so its exits drop none but a gate.
fn fill<'m, L: Link, D: Delivery, G: Gate<Link = L> + Drop>(
    multi: &'m Multi<Queued<L, D>, Outcome<D>>,
    seats: &mut Vec<WorkerSeat<Queued<L, D>, Outcome<D>>>,
    gates: &mut Vec<G>,
    slots: &mut Vec<WorkerSlot<'m, L, G, D>>,
)
    requires own { All (λ s. s.of ≡ multi.now) seats.old.items }
    requires none { vec_len slots.old ≡ 0 }
    requires room { vec_len seats.old ≤ vec_capacity slots.old }
    ensures { vec_len slots.new ≡ min (vec_len seats.old) (vec_len gates.old) }
{
    while let Some(gate) = gates.pop() {
        let Some(seat) = seats.pop() else {
            drop(gate);
            return;
        };
        slots.push_reserved(WorkerSlot {
            seat: multi.at(seat),
            gate,
        });
    }
}

// What a worker counted, and its seat then.
#[derive(Drop)]
struct SlotEnd<L: Link, D: Delivery> {
    counts: Counts,
    last: SeatThen<L, D>,
}

// What a worker did. Its seat is dropped.
fn done_of<L: Link, D: Delivery>(end: WorkerEnd<'_, L, D>) -> SlotEnd<L, D>
    ensures seat { result.last.value ≡ end.entry.seat }
    ensures counts { result.counts ≡ record { recorded = end.entry.recorded; stale = end.entry.stale; given_back = end.entry.given_back } }
{
    let WorkerEnd {
        seat,
        recorded,
        stale,
        given_back,
        ..
    } = end;
    let seat = seat.into_seat();
    let last = Snapshot::of(&seat);
    drop(seat);
    SlotEnd {
        counts: Counts {
            recorded,
            stale,
            given_back,
        },
        last,
    }
}

// Works until the gate stops it, and says what it did. The seat comes back as it was where memory for the start was refused, and the gate
// doesn't stop it.
#[tactic(auto, using(crate::proofs::Workers::try_ran, crate::proofs::Workers::try_refused))]
fn work_once<'m, L: Link, D: Delivery, R: Wait + AllocGlobal, G: Gate<Link = L>>(
    rt: &R,
    seat: Seated<'m, AtWork, Queued<L, D>, Outcome<D>>,
    gate: &mut G,
) -> Result<SlotEnd<L, D>, Seated<'m, AtWork, Queued<L, D>, Outcome<D>>>
    ensures ends { IfOk result (λ done. EndsTry L.history L.token_of seat.entry done.last.value (G.said gate.old) (G.said gate.new) done.counts) }
    ensures again { IfErr result (λ again. (again ≡ seat.entry) × (G.said gate.new ≡ G.said gate.old ++ waited again_ms false ∷ [])) }
{
    let end = run_worker(rt, seat, gate);
    if end.refused && matches!(gate.turn(START_AGAIN), Turn::Continue) {
        return Err(end.seat);
    }
    Ok(done_of(end))
}

// Works until the gate stops it, and says what it did. Where memory for its start is refused, it tries again after a while.
#[tactic(auto, using(crate::proofs::Workers::refused_again, crate::proofs::Workers::has_worked))]
fn work_on<'m, L: Link, D: Delivery, R: Wait + AllocGlobal, G: Gate<Link = L>>(
    rt: &R,
    seat: Seated<'m, AtWork, Queued<L, D>, Outcome<D>>,
    gate: &mut G,
) -> SlotEnd<L, D>
    requires { G.said gate.old ≡ [] }
    ensures { HasWorked L.history L.token_of seat.entry result.last.value (G.said gate.new) result.counts }
{
    let mut seat = seat;
    for _ in rt.forever() {
        match work_once(rt, seat, gate) {
            Ok(done) => return done,
            Err(again) => seat = again,
        }
    }
    unreachable!()
}

// The seat as it is, and a copy of it for contracts.
fn shown<'m, L: Link, D: Delivery>(
    seat: Seated<'m, AtWork, Queued<L, D>, Outcome<D>>,
) -> (Seated<'m, AtWork, Queued<L, D>, Outcome<D>>, SeatThen<L, D>)
    ensures same { result.0 ≡ seat.entry }
    ensures then { result.1.value ≡ seat.entry }
{
    let multi = seat.multi();
    let seat = seat.into_seat();
    let then = Snapshot::of(&seat);
    (multi.at(seat), then)
}

// Works as `Job::work` says. What the gate had said is picked by who calls it.
fn work_at<'m, L: Link, D: Delivery, R: Wait + AllocGlobal, G: Gate<Link = L>, B: Before>(
    rt: &R,
    common: &Common,
    seat: Seated<'m, AtWork, Queued<L, D>, Outcome<D>>,
    gate: G,
) -> Worked<L, G, D>
    requires { B.said ≡ G.said gate }
    ensures seat { result.start ≡ seat.entry }
    ensures gate { OpensWithin G.said B.said result.gate result.said }
{
    let (seat, start) = shown(seat);
    let mut gate: RunGate<'_, G, B> = RunGate::new(common, gate);
    let done = work_on(rt, seat, &mut gate);
    let (gate, said) = gate.into_parts();
    Worked::new(done.counts, gate, start, done.last, said)
}

impl<'m, L: Link, G: Gate<Link = L> + Drop, D: Delivery> Job<Worked<L, G, D>>
    for WorkerSlot<'m, L, G, D> {
    ghost gives = { λ slot worked. IsOfSlot G.said slot.seat slot.gate worked };

    // Works until the gate stops it, and says what it did: the gate comes back. Where memory for its start is refused, it tries again after a
    // while, and the gate tells so. Tests show that it ends only where its gate stops it.
    fn work<R: Wait + AllocGlobal>(self, rt: &R, common: &Common) -> Worked<L, G, D> {
        let WorkerSlot { seat, gate } = self;
        work_at::<L, D, R, G, Brand>(rt, common, seat, gate)
    }
}
