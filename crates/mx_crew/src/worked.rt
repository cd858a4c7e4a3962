//! What came of a worker of a run.
ghost use Rattle.std.specs.Prelude.{◌≡◌};
ghost use Rattle.mx_crew.specs.Worked.{HasWorked};

use mx_gate::Said;
use mx_link::Link;
use mx_multi::WorkerSeat;
use mx_sink::{Delivery, Held};
use mx_transfer_core::{Outcome, Queued};
use mx_types::History;
use std::marker::Model;
use std::snapshot::Snapshot;

/// What a worker did: how many ends it recorded, how many were stale, and how many transfers went back to the queue.
#[derive(Clone, Copy)]
pub struct Counts {
    pub recorded: u32,
    pub stale: u32,
    pub given_back: u32,
}

/// A worker's seat at one moment, for contracts alone.
pub(crate) type SeatThen<L, D> = Snapshot<WorkerSeat<Queued<L, D>, Outcome<D>>>;

/// What a worker of a run did, and its gate, which is free again. Contracts see, too, its seat as the run began and as it ended, and all that
/// it was told in the run, by the run or by its gate. What it counted is what it did with that seat.
pub struct Worked<L: Link, G, D: Delivery = Held> {
    counts: Counts,
    gate: G,
    start: SeatThen<L, D>,
    last: SeatThen<L, D>,
    said: History<Said>,
}

// Written out, and not derived: a crate that drops one cites its proof.
impl<L: Link, G: Drop, D: Delivery> Drop for Worked<L, G, D> {
    fn drop(self) {
        let Worked {
            counts: _,
            gate,
            start,
            last,
            said,
        } = self;
        drop(gate);
        drop(start);
        drop(last);
        drop(said);
    }
}

impl<L: Link, G, D: Delivery> Model for Worked<L, G, D> {
    ghost use Rattle.mx_crew.specs.Worked.{HasWorked, WorkedState};

    ghost Value = { WorkedState L G };

    ghost view = { λ w. record { counts = w.counts; gate = w.gate; start = w.start.value; last = w.last.value; said = w.said } };

    ghost invariant = { λ w. HasWorked L.history L.token_of w.start.value w.last.value w.said w.counts };
}

impl<L: Link, G, D: Delivery> Worked<L, G, D> {
    // What a worker did with its seat, from the start of the run to its last moment.
    pub(crate) fn new(
        counts: Counts,
        gate: G,
        start: SeatThen<L, D>,
        last: SeatThen<L, D>,
        said: History<Said>,
    ) -> Worked<L, G, D>
        requires { HasWorked L.history L.token_of start.value last.value said counts }
        ensures { result ≡ record { counts = counts; gate = gate; start = start.value; last = last.value; said = said } }
    {
        Worked {
            counts,
            gate,
            start,
            last,
            said,
        }
    }

    /// What it did.
    pub fn counts(&self) -> Counts
        ensures { result ≡ self.now.counts }
    {
        self.counts
    }

    /// What holds of each: it counted what it did with its seat. It does nothing: a call gives its caller's proof the law.
    pub fn know(&self)
        ensures { HasWorked L.history L.token_of self.now.start self.now.last self.now.said self.now.counts }
    {
        // proof: what holds of one
        let _counts = &self.counts;
    }

    /// Its gate.
    pub fn into_gate(self) -> G
        ensures { result ≡ self.gate }
    {
        let Worked {
            counts: _,
            gate,
            start,
            last,
            said,
        } = self;
        drop(start);
        drop(last);
        drop(said);
        gate
    }
}
