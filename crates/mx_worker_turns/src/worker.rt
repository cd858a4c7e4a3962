//! A worker.
ghost use Rattle.std.specs.Prelude.{◌≡◌, ◌↔◌, [], IsTrue, MatchResult, IfSome, All};
ghost use Rattle.mx_turn.specs.Workers.{IsOver, starts};
ghost use Rattle.mx_turn.specs.Turn.{WorkerTurn, Runs};
ghost use Rattle.mx_worker_turns.specs.Picks.{Bounds};
ghost use Rattle.mx_worker_turns.specs.WorkerSteps.{beside};

use crate::in_flight::InFlight;
use crate::lent::Lent;
use crate::queue::Queue;
use crate::worker_core::WorkerCore;
use mx_gate::Gate;
use mx_link::Link;
use mx_sink::Delivery;
use mx_turn::{Claimed, Engine, Finished, Links, Right};
use std::alloc::Global;
use std::marker::Model;
use std::sync::Wait;

/// A worker, at an engine. Contracts see what it has in flight, its idle links and what it did at the engine, of which list of ties its
/// claims are, and how the engine began. What its gate said is kept beside it.
///
/// The spare queues are empty between its turns. A turn swaps what it holds into one of them, and goes through that.
#[derive(Drop)]
pub struct Worker<L: Link, C: Right, D: Delivery, E: Engine<L, C, D>> {
    core: WorkerCore<L, C, D, E>,
    spare_held: Queue<Claimed<L, C, D>, E>,
    spare_ends: Queue<Finished<C, D>, E>,
}

impl<L: Link, C: Right, D: Delivery, E: Engine<L, C, D>> Model for Worker<L, C, D, E> {
    ghost use Rattle.std.specs.Prelude.{◌≡◌, []};
    ghost use Rattle.mx_worker_turns.specs.WorkerSteps.{WorkerView};

    ghost Value = { WorkerView L E.Start };

    ghost view = { λ w. w.core };

    ghost invariant = { λ w. (w.spare_held ≡ record { items = []; of = w.core.of }) × (w.spare_ends ≡ record { items = []; of = w.core.of }) };
}

// The queues that a worker needs memory for.
#[derive(Drop)]
struct Queues<L: Link, C: Right, D: Delivery, E: Engine<L, C, D>> {
    in_flight: InFlight<L, C, D, E>,
    spare_held: Queue<Claimed<L, C, D>, E>,
    spare_ends: Queue<Finished<C, D>, E>,
}

// All that a worker needs memory for.
#[derive(Drop)]
struct Tools<L: Link, C: Right, D: Delivery, E: Engine<L, C, D>> {
    queues: Queues<L, C, D, E>,
    links: Links<L>,
}

fn make_queues<L: Link, C: Right, D: Delivery, E: Engine<L, C, D>>(
    alloc: Global,
    engine: &E,
) -> Option<Queues<L, C, D, E>>
    ensures in_flight { IfSome result (λ q. q.in_flight ≡ record { held = []; set_aside = []; of = E.of engine.now }) }
    ensures held { IfSome result (λ q. q.spare_held ≡ record { items = []; of = E.of engine.now }) }
    ensures ends { IfSome result (λ q. q.spare_ends ≡ record { items = []; of = E.of engine.now }) }
{
    let Ok(in_flight) = InFlight::new(alloc, engine) else {
        return None;
    };
    let Ok((spare_held, spare_ends)) = Queue::pair(alloc, engine) else {
        drop(in_flight);
        return None;
    };
    Some(Queues {
        in_flight,
        spare_held,
        spare_ends,
    })
}

fn make_tools<L: Link, C: Right, D: Delivery, E: Engine<L, C, D>>(
    alloc: Global,
    engine: &E,
    limit: u8,
) -> Option<Tools<L, C, D, E>>
    ensures in_flight { IfSome result (λ t. t.queues.in_flight ≡ record { held = []; set_aside = []; of = E.of engine.now }) }
    ensures links { IfSome result (λ t. t.links ≡ record { links = []; limit = limit }) }
    ensures held { IfSome result (λ t. t.queues.spare_held ≡ record { items = []; of = E.of engine.now }) }
    ensures ends { IfSome result (λ t. t.queues.spare_ends ≡ record { items = []; of = E.of engine.now }) }
{
    let Some(queues) = make_queues(alloc, engine) else {
        return None;
    };
    let Ok(links) = Links::new(alloc, limit) else {
        drop(queues);
        return None;
    };
    Some(Tools { queues, links })
}

impl<L: Link, C: Right, D: Delivery, E: Engine<L, C, D>> Worker<L, C, D, E> {
    /// A worker with nothing in flight, and with room for so many idle links. Where memory is refused, the engine comes back.
    pub fn new(alloc: Global, engine: E, limit: u8) -> Result<Worker<L, C, D, E>, E>
        ensures { MatchResult result (λ w. w ≡ record { worker = record (starts limit) { did = E.did engine }; of = E.of engine; start = E.start engine }) (λ back. back ≡ engine) }
    {
        let Some(tools) = make_tools(alloc, &engine, limit) else {
            return Err(engine);
        };
        let Tools { queues, links } = tools;
        let Queues {
            in_flight,
            spare_held,
            spare_ends,
        } = queues;
        Ok(Worker {
            core: WorkerCore::new(engine, in_flight, links, Lent::new(alloc)),
            spare_held,
            spare_ends,
        })
    }

    /// The engine. What the worker has in flight is dropped.
    pub fn into_engine(self) -> E
        ensures { (E.did result ≡ self.worker.did) × (E.start result ≡ self.start) }
    {
        let Worker {
            core,
            spare_held,
            spare_ends,
        } = self;
        drop(spare_held);
        drop(spare_ends);
        core.into_engine()
    }

    /// Gives its engine, and takes this one in its place, which is of the same list of ties.
    pub fn swap_engine(&mut self, engine: &mut E)
        requires of { E.of engine.old ≡ self.old.of }
        ensures taken { self.new ≡ record self.old { worker = record self.old.worker { did = E.did engine.old }; start = E.start engine.old } }
        ensures given { (E.did engine.new ≡ self.old.worker.did) × (E.start engine.new ≡ self.old.start) }
        ensures same { E.of engine.new ≡ E.of engine.old }
    {
        self.core.swap_engine(engine);
    }

    /// Whether something could go on at once after its last turn.
    pub fn can_go_on(&self) -> bool
        ensures { result ≡ self.now.worker.can_go_on }
    {
        self.core.can_go_on()
    }

    /// A deadline before which none of its transfers' comes, where one of them has one.
    pub fn least_deadline(&self) -> Option<u64>
        ensures { All (λ h. Bounds result h.transfer.now.deadline) self.now.worker.held }
    {
        self.core.least_deadline()
    }

    /// Whether it was told to stop, and has nothing in flight.
    pub fn is_over(&self) -> bool
        ensures { IsTrue result ↔ IsOver self.now.worker }
    {
        self.core.is_over()
    }

    /// One turn: it claims, tries the ends again that were refused memory, goes through its transfers, waits at the gate, and gives back
    /// what has not started once it is told to stop.
    pub fn turn<G: Gate<Link = L>>(&mut self, gate: &mut G)
        ensures turn { WorkerTurn L.history L.token_of (beside self.old.worker (G.said gate.old)) (beside self.new.worker (G.said gate.new)) }
        ensures same { self.new ≡ record self.old { worker = self.new.worker } }
    {
        self.core
            .turn(gate, &mut self.spare_held, &mut self.spare_ends);
    }

    /// Turn after turn, until it was told to stop and has nothing in flight.
    pub fn run<R: Wait, G: Gate<Link = L>>(&mut self, rt: &R, gate: &mut G)
        ensures runs { Runs L.history L.token_of (beside self.old.worker (G.said gate.old)) (beside self.new.worker (G.said gate.new)) }
        ensures over { IsOver self.new.worker }
        ensures same { self.new ≡ record self.old { worker = self.new.worker } }
    {
        for _ in rt.forever() {
            if self.is_over() {
                return;
            }
            self.turn(gate);
        }
        unreachable!()
    }
}
