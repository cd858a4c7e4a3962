//! A worker's run.
ghost use Rattle.std.specs.Prelude.{◌≡◌, true, false};
ghost use Rattle.mx_worker.specs.Work.{WorkerRan};

use crate::tally::Tally;
use mx_gate::Gate;
use mx_link::Link;
use mx_multi::{AtWork, Seated};
use mx_sink::{Delivery, Held};
use mx_transfer_core::{Outcome, Queued};
use mx_worker_turns::run_at;
use std::alloc::AllocGlobal;
use std::sync::Wait;

/// What a worker ends with. The counts stay at the greatest number of 32 bits.
#[derive(Drop)]
pub struct WorkerEnd<'m, L: Link, D: Delivery = Held> {
    pub seat: Seated<'m, AtWork, Queued<L, D>, Outcome<D>>,
    /// How many ends were recorded.
    pub recorded: u32,
    /// How many ends were not recorded, as the transfer didn't run any more.
    pub stale: u32,
    /// How many transfers went back to the queue.
    pub given_back: u32,
    /// Memory for its start was refused, and it did nothing.
    pub refused: bool,
}

/// Runs a worker at a multi handle: it claims transfers, polls them over links of its gate, notes how many bytes they have received, and
/// records their ends. What is gone it gives back. Once its gate answers `Stop` it claims nothing more, gives back what has not started,
/// and goes on with the rest.
///
/// What it does is turn after turn of the worker that mx_turn defines, from a start with nothing in flight to its end; the seat's further
/// receipts, claims and written words are those of these turns. Each claim has come back, once: with an end, which was recorded or stale,
/// or with its transfer, which went back to the queue, or had ended before or was removed; or, where the seat isn't the multi handle's any
/// more, it is lost. Where memory for the start is refused, nothing was claimed, and the seat is as it was.
///
/// No clause says that it ends: one that has started and stays paused keeps it. Nor does one say that the queue was empty where it claimed
/// nothing, why a version couldn't be read, or that a link that might be kept is dropped only where memory is refused.
pub fn run_worker<'m, L: Link, D: Delivery, R: Wait + AllocGlobal, G: Gate<Link = L>>(
    rt: &R,
    seat: Seated<'m, AtWork, Queued<L, D>, Outcome<D>>,
    gate: &mut G,
) -> WorkerEnd<'m, L, D>
    ensures ran { result.refused ≡ false → WorkerRan L.history L.token_of seat.entry result.seat (G.said gate.old) (G.said gate.new) result.recorded result.stale result.given_back }
    ensures refused { result.refused ≡ true → (result.seat ≡ seat.entry) × (G.said gate.new ≡ G.said gate.old) }
    ensures none { result.refused ≡ true → (result.recorded ≡ 0) × (result.stale ≡ 0) × (result.given_back ≡ 0) }
{
    let limit = seat.multi().max_connects();
    match run_at(rt, Tally::new(rt, seat), limit, gate) {
        Ok(tally) => tally.end(false),
        Err(tally) => tally.end(true),
    }
}
