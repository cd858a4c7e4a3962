//! What a worker has in flight.
ghost use Rattle.std.specs.Prelude.{◌≡◌, ◌<◌, ◌≤◌, ◌↔◌, ◌∷◌, ◌++◌, [], map, IsTrue, IfOk};
ghost use Rattle.mx_types.specs.Limits.{most_transfers};
ghost use Rattle.mx_worker_turns.specs.WorkerSteps.{in_flight_count};

use crate::queue::Queue;
use mx_link::Link;
use mx_sink::Delivery;
use mx_turn::{Claimed, Finished, Right, Tied};
use mx_types::{MOST_TRANSFERS, OutOfMemory};
use std::alloc::Global;
use std::marker::Model;
use std::mem;

/// The transfers that a worker holds, in order of claim, and the ends that were refused memory: at most [`MOST_TRANSFERS`] together, all of
/// one engine. Contracts see both lists, and of which list of ties they are.
#[derive(Drop)]
pub(crate) struct InFlight<L: Link, C: Right, D: Delivery, E: Tied> {
    held: Queue<Claimed<L, C, D>, E>,
    set_aside: Queue<Finished<C, D>, E>,
}

impl<L: Link, C: Right, D: Delivery, E: Tied> Model for InFlight<L, C, D, E> {
    ghost use Rattle.std.specs.Prelude.{◌≡◌, ◌+◌, ◌≤◌, length, map};
    ghost use Rattle.mx_types.specs.Limits.{most_transfers};
    ghost use Rattle.mx_worker_turns.specs.WorkerSteps.{InFlightView};

    ghost Value = { InFlightView L };

    ghost view = { λ r. record { held = map (λ h. h.held) r.held.items; set_aside = map (λ e. e.end) r.set_aside.items; of = r.held.of } };

    ghost invariant = { λ r. (length r.held.items + length r.set_aside.items ≤ most_transfers) × (r.set_aside.of ≡ r.held.of) };
}

impl<L: Link, C: Right, D: Delivery, E: Tied> InFlight<L, C, D, E> {
    /// Nothing in flight, and room for as many as there may be.
    pub fn new(alloc: Global, engine: &E) -> Result<InFlight<L, C, D, E>, OutOfMemory>
        ensures { IfOk result (λ in_flight. in_flight ≡ record { held = []; set_aside = []; of = E.of engine.now }) }
    {
        let (held, set_aside) = Queue::pair(alloc, engine)?;
        Ok(InFlight { held, set_aside })
    }

    // rule turn-in-flight
    pub fn has_room(&self) -> bool
        ensures { IsTrue result ↔ (in_flight_count self.now < most_transfers) }
    {
        self.held.len() + self.set_aside.len() < MOST_TRANSFERS
    }

    pub fn is_empty(&self) -> bool
        ensures { IsTrue result ↔ ((self.now.held ≡ []) × (self.now.set_aside ≡ [])) }
    {
        self.held.is_empty() && self.set_aside.is_empty()
    }

    /// The transfers that it holds.
    pub fn held(&self) -> &Queue<Claimed<L, C, D>, E>
        ensures { map (λ h. h.held) result.now.items ≡ self.now.held }
    {
        &self.held
    }

    /// Gives the queue of the transfers that it holds, and takes this one in its place.
    pub fn swap_held(&mut self, spare: &mut Queue<Claimed<L, C, D>, E>)
        requires spare { spare.old.items ≡ [] }
        requires of { spare.old.of ≡ self.old.of }
        ensures left { self.new ≡ record self.old { held = [] } }
        ensures given { map (λ h. h.held) spare.new.items ≡ self.old.held }
        ensures of { spare.new.of ≡ self.old.of }
        ensures fits { in_flight_count self.old ≤ most_transfers }
    {
        mem::swap(&mut self.held, spare);
    }

    /// Gives the ends that were refused memory, likewise.
    pub fn swap_set_aside(&mut self, spare: &mut Queue<Finished<C, D>, E>)
        requires spare { spare.old.items ≡ [] }
        requires of { spare.old.of ≡ self.old.of }
        ensures left { self.new ≡ record self.old { set_aside = [] } }
        ensures given { map (λ e. e.end) spare.new.items ≡ self.old.set_aside }
        ensures of { spare.new.of ≡ self.old.of }
        ensures fits { in_flight_count self.old ≤ most_transfers }
    {
        mem::swap(&mut self.set_aside, spare);
    }

    /// Adds a transfer after the others.
    pub fn hold(&mut self, held: Claimed<L, C, D>)
        requires room { in_flight_count self.old < most_transfers }
        requires of { held.of ≡ self.old.of }
        ensures { self.new ≡ record self.old { held = self.old.held ++ held.held ∷ [] } }
    {
        self.held.push(held);
    }

    /// Adds an end that was refused memory after the others.
    pub fn set_aside(&mut self, finished: Finished<C, D>)
        requires room { in_flight_count self.old < most_transfers }
        requires of { finished.of ≡ self.old.of }
        ensures { self.new ≡ record self.old { set_aside = self.old.set_aside ++ finished.end ∷ [] } }
    {
        self.set_aside.push(finished);
    }
}
