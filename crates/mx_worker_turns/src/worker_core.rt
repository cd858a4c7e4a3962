//! A worker's core: what it holds, and what it does with it.
ghost use Rattle.std.specs.Prelude.{◌≡◌, ◌<◌, ◌≤◌, ◌+◌, ◌↔◌, ◌||◌, ◌&&◌, not, length, map, List, [], None, Some, true, false, IsTrue, fold, min, All};
ghost use Rattle.mx_types.specs.Limits.{most_transfers};
ghost use Rattle.mx_types.specs.declared.reply.Look.TheVariants as look;
ghost use Rattle.mx_request.specs.Request.{request_origin};
ghost use Rattle.mx_exchange.specs.Exchanges.{WantsLink, IsDue};
ghost use Rattle.mx_transfer_core.specs.Cores.{IfEnded, IfGoing, IsPolled, how_of};
ghost use Rattle.mx_gate.specs.Said.{Said, is_stop};
ghost use Rattle.mx_turn.specs.Workers.{Return, gives_back, in_hand, does, holds, IsOver};
ghost use Rattle.mx_turn.specs.Turn.{Each, Claims, Retries, LooksAt, GivesBack, GoesThrough, Stops, WorkerTurn, is_go, longest_wait, prepared, time_left, wait_of};
ghost use Rattle.mx_turn.specs.Engines.{HandsIn, HasWaited};
ghost use Rattle.mx_worker_turns.specs.Picks.{Bounds};
ghost use Rattle.mx_worker_turns.specs.WorkerSteps.{Advances, AwaitsLink, IfWaits, IsNoted, IsReadied, Polls, Relieves, Serves, beside};

use crate::in_flight::InFlight;
use crate::lent::Lent;
use crate::next::{is_due, least_deadline, take_next};
use crate::queue::Queue;
use mx_gate::{Gate, Turn};
use mx_link::Link;
use mx_sink::Delivery;
use mx_transfer_core::{Polled, TransferCore};
use mx_turn::{Claimed, Engine, Finished, LONGEST_WAIT, Links, Right, Tied};
use mx_types::Look;
use std::marker::Model;
use std::mem;

/// A worker without its spare queues. Contracts see the worker, of which list of ties its claims are, and how its engine began.
#[derive(Drop)]
pub(crate) struct WorkerCore<L: Link, C: Right, D: Delivery, E: Engine<L, C, D>> {
    engine: E,
    in_flight: InFlight<L, C, D, E>,
    links: Links<L>,
    lent: Lent,
    is_stopping: bool,
    can_go_on: bool,
}

impl<L: Link, C: Right, D: Delivery, E: Engine<L, C, D>> Model for WorkerCore<L, C, D, E> {
    ghost use Rattle.std.specs.Prelude.{◌≡◌, []};
    ghost use Rattle.mx_worker_turns.specs.WorkerSteps.{WorkerView};

    ghost Value = { WorkerView L E.Start };

    ghost view = { λ d. record {
      worker = record { held = d.in_flight.held; set_aside = d.in_flight.set_aside; idle = d.links; is_stopping = d.is_stopping; can_go_on = d.can_go_on; did = E.did d.engine; said = [] };
      of = E.of d.engine;
      start = E.start d.engine;
    } };

    ghost invariant = { λ d. d.in_flight.of ≡ E.of d.engine };
}

// The lesser of the longest wait and the milliseconds to the next deadline of these.
fn least_left<L: Link, C: Right, D: Delivery, E: Tied>(
    held: &Queue<Claimed<L, C, D>, E>,
    now: u64,
) -> u32
    ensures { result ≡ fold (λ ms h. min ms (time_left now h.held.transfer.now.deadline)) longest_wait held.now.items }
{
    let mut least = LONGEST_WAIT as u32;
    for place in 0..held.len() {
        least = least.min(held.get(place).time_left(now));
    }
    least
}

// One poll, with the memory that the worker lends.
fn poll_once<L: Link, D: Delivery>(lent: &mut Lent, transfer: &mut TransferCore<L, D>) -> Polled<D>
    requires running { transfer.old.code ≡ None }
    ensures steps { IsPolled L.history transfer.old transfer.new (how_of result) }
    ensures waited { IfWaits result (HasWaited transfer.new.now) }
    ensures value { IfEnded result (λ o. o.request ≡ transfer.old.request) }
    ensures again { IfGoing result (transfer.new.code ≡ None) }
    ensures same { IfGoing result (transfer.new.request ≡ transfer.old.request) }
{
    lent.swap(transfer);
    let polled = transfer.poll();
    lent.swap(transfer);
    polled
}

// Whether a transfer wants a link.
fn wants_link<L: Link, D: Delivery>(transfer: &TransferCore<L, D>) -> bool
    ensures { IsTrue result ↔ WantsLink transfer.now.now }
{
    transfer.wants().is_some()
}

// Whether a poll of a transfer that is ready would change nothing: its last poll waited, it goes on, wants a link still, and its deadline has
// not come.
fn awaits_link<L: Link, D: Delivery>(
    has_waited: bool,
    goes: bool,
    now: u64,
    transfer: &TransferCore<L, D>,
) -> bool
    ensures { IsTrue result → (has_waited ≡ true) × (goes ≡ true) × WantsLink transfer.now.now × ¬ (IsDue transfer.now.now.deadline now) }
{
    has_waited && goes && wants_link(transfer) && !is_due(transfer.deadline(), now)
}

// Whether a look found that a transfer is gone.
fn is_gone(seen: Option<Look>) -> bool
    ensures { IsTrue result ↔ (seen ≡ Some look.Gone) }
{
    matches!(seen, Some(Look::Gone))
}

// rule turn-paused
// Whether a look found that a transfer may go on.
fn may_go(seen: Option<Look>) -> bool
    ensures { result ≡ is_go seen }
{
    matches!(seen, Some(Look::Go))
}

// rule turn-room
// Whether a transfer goes on: one that may, and whose delivery has room.
fn goes_on(may_go: bool, has_room: bool) -> bool
    ensures { result ≡ (may_go && has_room) }
{
    may_go && has_room
}

// rule turn-wait-for-link
// Whether a transfer that waits could go on at once: one that may go on, and wants a link that may be opened.
fn could_go_on(goes: bool, delayed: bool, wants: bool) -> bool
    ensures { result ≡ (goes && (not delayed && wants)) }
{
    goes && !delayed && wants
}

// Hands in an end. One that is refused memory comes back.
fn hand_in<L: Link, C: Right, D: Delivery, E: Engine<L, C, D>>(
    engine: &mut E,
    finished: Finished<C, D>,
) -> Option<Finished<C, D>>
    requires own { finished.of ≡ E.of engine.old }
    ensures did { HandsIn (E.did engine.old) (E.did engine.new) finished result }
    ensures same { (E.of engine.new ≡ E.of engine.old) × (E.start engine.new ≡ E.start engine.old) }
{
    let mut place = Some(finished);
    engine.finish(&mut place);
    place
}

impl<L: Link, C: Right, D: Delivery, E: Engine<L, C, D>> WorkerCore<L, C, D, E> {
    pub fn new(
        engine: E,
        in_flight: InFlight<L, C, D, E>,
        links: Links<L>,
        lent: Lent,
    ) -> WorkerCore<L, C, D, E>
        requires { in_flight.of ≡ E.of engine }
        ensures { result ≡ record {
          worker = record { held = in_flight.held; set_aside = in_flight.set_aside; idle = links; is_stopping = false; can_go_on = false; did = E.did engine; said = [] };
          of = E.of engine;
          start = E.start engine;
        } }
    {
        WorkerCore {
            engine,
            in_flight,
            links,
            lent,
            is_stopping: false,
            can_go_on: false,
        }
    }

    /// The engine.
    pub fn into_engine(self) -> E
        ensures { (E.did result ≡ self.worker.did) × (E.start result ≡ self.start) }
    {
        let WorkerCore {
            engine,
            in_flight,
            links,
            lent,
            ..
        } = self;
        drop(in_flight);
        drop(links);
        drop(lent);
        engine
    }

    /// Gives its engine, and takes this one in its place, which is of the same list of ties.
    pub fn swap_engine(&mut self, engine: &mut E)
        requires of { E.of engine.old ≡ self.old.of }
        ensures taken { self.new ≡ record self.old { worker = record self.old.worker { did = E.did engine.old }; start = E.start engine.old } }
        ensures given { (E.did engine.new ≡ self.old.worker.did) × (E.start engine.new ≡ self.old.start) }
        ensures same { E.of engine.new ≡ E.of engine.old }
    {
        mem::swap(&mut self.engine, engine);
    }

    /// Whether something could go on at once after its last turn.
    pub fn can_go_on(&self) -> bool
        ensures { result ≡ self.now.worker.can_go_on }
    {
        self.can_go_on
    }

    /// A deadline before which none of its transfers' comes, where one of them has one.
    pub fn least_deadline(&self) -> Option<u64>
        ensures { All (λ h. Bounds result h.transfer.now.deadline) self.now.worker.held }
    {
        least_deadline(self.in_flight.held())
    }

    // rule turn-over
    /// Whether it was told to stop, and has nothing in flight.
    pub fn is_over(&self) -> bool
        ensures { IsTrue result ↔ IsOver self.now.worker }
    {
        self.is_stopping && self.in_flight.is_empty()
    }

    // rule turn-claims
    // Holds a transfer, after the others.
    fn hold(&mut self, held: Claimed<L, C, D>)
        requires room { in_hand self.old.worker < most_transfers }
        requires own { held.of ≡ self.old.of }
        ensures held { self.new ≡ record self.old { worker = holds self.old.worker held.held } }
    {
        self.in_flight.hold(held);
    }

    // Notes whether something could go on at once: then this turn isn't to wait.
    fn go_on_if(&mut self, could: bool)
        ensures goes_on { self.new ≡ record self.old { worker = record self.old.worker { can_go_on = (self.old.worker.can_go_on || could) } } }
    {
        self.can_go_on = self.can_go_on || could;
    }

    // Holds on to a transfer that was polled, which could go on at once, or couldn't.
    fn hold_on(&mut self, held: Claimed<L, C, D>, could: bool)
        requires room { in_hand self.old.worker < most_transfers }
        requires own { held.of ≡ self.old.of }
        ensures held { self.new.worker ≡ holds (record self.old.worker { can_go_on = (self.old.worker.can_go_on || could) }) held.held }
        ensures same { self.new ≡ record self.old { worker = self.new.worker } }
    {
        self.go_on_if(could);
        self.hold(held);
    }

    // rule turn-files
    // Asks the gate whether too many files are open, and drops the idle links where they are.
    fn relieve<G: Gate<Link = L>>(&mut self, gate: &mut G)
        ensures relieves { Relieves self.old.worker self.new.worker (G.said gate.old) (G.said gate.new) }
        ensures same { self.new ≡ record self.old { worker = self.new.worker } }
    {
        self.links.relieve(gate);
    }

    // rule turn-claims
    // Claims a transfer, if there is one and it has room for it.
    fn claim(&mut self)
        ensures claims { Claims self.old.worker self.new.worker }
        ensures same { self.new ≡ record self.old { worker = self.new.worker } }
    {
        if self.is_stopping || !self.in_flight.has_room() {
            return;
        }
        let Some(claimed) = self.engine.claim() else {
            return;
        };
        // proof: the transfer has not ended
        claimed.know();
        self.hold(claimed);
        let has_room = self.in_flight.has_room();
        self.go_on_if(has_room);
    }

    // Hands in an end. One that is refused memory is set aside.
    fn record(&mut self, finished: Finished<C, D>)
        requires room { in_hand self.old.worker < most_transfers }
        requires own { finished.of ≡ self.old.of }
        ensures retries { Retries finished.end self.old.worker self.new.worker }
        ensures same { self.new ≡ record self.old { worker = self.new.worker } }
    {
        if let Some(finished) = hand_in(&mut self.engine, finished) {
            self.in_flight.set_aside(finished);
        }
    }

    // rule turn-paused
    // Gives a transfer the moment and whether it is paused, and a link where it goes on and wants one. The answer is whether none can be
    // opened for it yet.
    fn make_ready<G: Gate<Link = L>>(
        &mut self,
        gate: &mut G,
        now: u64,
        goes: bool,
        transfer: &mut TransferCore<L, D>,
    ) -> bool
        ensures ready { IsReadied L.history L.token_of (prepared now goes transfer.old) transfer.new goes result (beside self.old.worker (G.said gate.old)) (beside self.new.worker (G.said gate.new)) }
        ensures code { transfer.new.code ≡ transfer.old.code }
        ensures request { transfer.new.request ≡ transfer.old.request }
        ensures same { self.new ≡ record self.old { worker = self.new.worker } }
    {
        transfer.prepare(now, !goes);
        if !goes {
            return false;
        }
        self.links.supply(gate, transfer)
    }

    // rule turn-progress
    // Notes how many bytes a transfer has received, and keeps the link that a hop left.
    fn note(&mut self, right: &C, transfer: &mut TransferCore<L, D>)
        ensures noted { IsNoted (record { ticket = C.ticket_of right.now; slot = C.slot_of right.now; transfer = transfer.old }) transfer.new self.old.worker self.new.worker }
        ensures same { self.new ≡ record self.old { worker = self.new.worker } }
    {
        self.engine.note(right, transfer.received());
        self.links.keep(transfer);
    }

    // Polls a transfer once, and notes what it has received before its end is recorded: from then on the slot may be another transfer's.
    fn poll(&mut self, right: &C, transfer: &mut TransferCore<L, D>) -> Polled<D>
        requires running { transfer.old.code ≡ None }
        ensures polls { Polls L.history (record { ticket = C.ticket_of right.now; slot = C.slot_of right.now; transfer = transfer.old }) transfer.new self.old.worker self.new.worker (how_of result) }
        ensures waited { IfWaits result (HasWaited transfer.new.now) }
        ensures value { IfEnded result (λ o. o.request ≡ transfer.old.request) }
        ensures again { IfGoing result (transfer.new.code ≡ None) }
        ensures request { IfGoing result (transfer.new.request ≡ transfer.old.request) }
        ensures same { self.new ≡ record self.old { worker = self.new.worker } }
    {
        let stepped = poll_once(&mut self.lent, transfer);
        self.note(right, transfer);
        stepped
    }

    // Polls a transfer that is ready, and holds it on unless it has ended.
    fn serve(&mut self, right: C, transfer: Box<TransferCore<L, D>>, goes: bool, delayed: bool)
        requires room { in_hand self.old.worker < most_transfers }
        requires own { C.of right ≡ self.old.of }
        requires running { transfer.value.code ≡ None }
        requires origin { request_origin transfer.value.request ≡ C.origin_of right }
        ensures serves { (said : List Said) → Serves L.history (record { ticket = C.ticket_of right; slot = C.slot_of right; transfer = transfer.value }) goes delayed (beside self.old.worker said) (beside self.new.worker said) }
        ensures same { self.new ≡ record self.old { worker = self.new.worker } }
    {
        let mut transfer = transfer;
        let polled: &mut TransferCore<L, D> = &mut transfer;
        match self.poll(&right, polled) {
            Polled::Waits => {
                let wants = wants_link(polled);
                self.hold_on(
                    Claimed::waiting(right, transfer),
                    could_go_on(goes, delayed, wants),
                );
            }
            Polled::Asks => self.hold_on(Claimed::new(right, transfer), goes),
            Polled::Ended(outcome) => {
                drop(transfer);
                self.record(Finished::new(right, outcome));
            }
        }
    }

    // Holds on to a transfer that a poll wouldn't change.
    fn rest(&mut self, right: C, transfer: Box<TransferCore<L, D>>, delayed: bool)
        requires room { in_hand self.old.worker < most_transfers }
        requires own { C.of right ≡ self.old.of }
        requires running { transfer.value.code ≡ None }
        requires origin { request_origin transfer.value.request ≡ C.origin_of right }
        requires awaits { AwaitsLink transfer.value.now }
        ensures serves { (said : List Said) → Serves L.history (record { ticket = C.ticket_of right; slot = C.slot_of right; transfer = transfer.value }) true delayed (beside self.old.worker said) (beside self.new.worker said) }
        ensures same { self.new ≡ record self.old { worker = self.new.worker } }
    {
        let mut transfer = transfer;
        let rested: &mut TransferCore<L, D> = &mut transfer;
        self.note(&right, rested);
        self.hold_on(
            Claimed::waiting(right, transfer),
            could_go_on(true, delayed, true),
        );
    }

    // rule turn-room
    // Has the delivery of a transfer make room, makes the transfer ready, polls it once, and holds it on unless it has ended. One that a poll
    // wouldn't change isn't polled: a worker may hold many that wait for a link.
    fn advance<G: Gate<Link = L>>(
        &mut self,
        gate: &mut G,
        now: u64,
        held: Claimed<L, C, D>,
        may_go: bool,
    )
        requires room { in_hand self.old.worker < most_transfers }
        requires own { held.of ≡ self.old.of }
        ensures advances { Advances L.history L.token_of now held.held may_go (beside self.old.worker (G.said gate.old)) (beside self.new.worker (G.said gate.new)) }
        ensures same { self.new ≡ record self.old { worker = self.new.worker } }
    {
        let has_waited = held.has_waited();
        let (right, mut transfer) = held.into_parts();
        let ready: &mut TransferCore<L, D> = &mut transfer;
        let has_room = ready.make_room();
        let goes = goes_on(may_go, has_room);
        let delayed = self.make_ready(gate, now, goes, ready);
        if awaits_link(has_waited, goes, now, ready) {
            return self.rest(right, transfer, delayed);
        }
        self.serve(right, transfer, goes, delayed);
    }

    // rule worker-requeued-deadline
    // Requeues a transfer as it is, with its link. It is held no more, whatever the answer is.
    fn give_back(&mut self, held: Claimed<L, C, D>)
        requires own { held.of ≡ self.old.of }
        ensures gives { (r : Return) × (self.new.worker ≡ does self.old.worker (gives_back held.held r)) }
        ensures same { self.new ≡ record self.old { worker = self.new.worker } }
    {
        let mut place = Some(held);
        self.engine.give_back(&mut place);
        drop(place);
    }

    // rule turn-gone
    // rule turn-paused
    // Looks at a transfer, and polls it unless it is gone: then it is given back.
    fn look_at<G: Gate<Link = L>>(&mut self, gate: &mut G, now: u64, held: Claimed<L, C, D>)
        requires room { in_hand self.old.worker < most_transfers }
        requires own { held.of ≡ self.old.of }
        ensures looks { LooksAt L.history L.token_of now held.held (beside self.old.worker (G.said gate.old)) (beside self.new.worker (G.said gate.new)) }
        ensures same { self.new ≡ record self.old { worker = self.new.worker } }
    {
        let seen = self.engine.look(held.ticket());
        if is_gone(seen) {
            return self.give_back(held);
        }
        self.advance(gate, now, held, may_go(seen));
    }

    // rule turn-stop
    // Gives a transfer back that has not started. One that has is held on.
    fn hand_back(&mut self, held: Claimed<L, C, D>)
        requires room { in_hand self.old.worker < most_transfers }
        requires own { held.of ≡ self.old.of }
        ensures gives { GivesBack held.held self.old.worker self.new.worker }
        ensures same { self.new ≡ record self.old { worker = self.new.worker } }
    {
        if held.started() {
            self.hold(held);
            return;
        }
        self.give_back(held);
    }

    // rule turn-set-aside
    // Hands in the ends again that were set aside, in order.
    fn retry_those(&mut self, todo: &mut Queue<Finished<C, D>, E>)
        requires fits { length todo.old.items + in_hand self.old.worker ≤ most_transfers }
        requires own { todo.old.of ≡ self.old.of }
        ensures retries { Each Retries (map (λ e. e.end) todo.old.items) self.old.worker self.new.worker }
        ensures empty { todo.new.items ≡ [] }
        ensures of { todo.new.of ≡ todo.old.of }
        ensures same { self.new ≡ record self.old { worker = self.new.worker } }
    {
        for gone in 0..todo.len() {
            let Some(finished) = todo.pop() else {
                return;
            };
            self.record(finished);
        }
    }

    // Gives back what has not started, in order, and holds on to the rest.
    fn stop_those(&mut self, todo: &mut Queue<Claimed<L, C, D>, E>)
        requires fits { length todo.old.items + in_hand self.old.worker ≤ most_transfers }
        requires own { todo.old.of ≡ self.old.of }
        ensures gives { Each GivesBack (map (λ h. h.held) todo.old.items) self.old.worker self.new.worker }
        ensures empty { todo.new.items ≡ [] }
        ensures of { todo.new.of ≡ todo.old.of }
        ensures same { self.new ≡ record self.old { worker = self.new.worker } }
    {
        for gone in 0..todo.len() {
            let Some(held) = todo.pop() else {
                return;
            };
            self.hand_back(held);
        }
    }

    // Looks at each of these once: one that is due, while there is one, else the first. It reads the clock before each that isn't due, and
    // the answer is the last moment. One reading a turn would be too few: 64 transfers may make 64 reads each meanwhile.
    fn go_through<G: Gate<Link = L>>(
        &mut self,
        gate: &mut G,
        now: u64,
        todo: &mut Queue<Claimed<L, C, D>, E>,
    ) -> u64
        requires fits { length todo.old.items + in_hand self.old.worker ≤ most_transfers }
        requires own { todo.old.of ≡ self.old.of }
        ensures through { GoesThrough L.history L.token_of result (beside self.new.worker (G.said gate.new)) now true (map (λ h. h.held) todo.old.items) (beside self.old.worker (G.said gate.old)) }
        ensures empty { todo.new.items ≡ [] }
        ensures of { todo.new.of ≡ todo.old.of }
        ensures same { self.new ≡ record self.old { worker = self.new.worker } }
    {
        let mut least = least_deadline(todo);
        let mut moment = now;
        let mut is_new = true;
        for gone in 0..todo.len() {
            let Some(held) = take_next(gate, todo, &mut least, &mut moment, is_new) else {
                unreachable!()
            };
            self.look_at(gate, moment, held);
            is_new = false;
        }
        moment
    }

    // Tries the ends again that were set aside.
    fn retry_all(&mut self, todo: &mut Queue<Finished<C, D>, E>)
        requires spare { todo.old.items ≡ [] }
        requires own { todo.old.of ≡ self.old.of }
        ensures retries { Each Retries self.old.worker.set_aside (record self.old.worker { set_aside = [] }) self.new.worker }
        ensures spare { todo.new ≡ todo.old }
        ensures same { self.new ≡ record self.old { worker = self.new.worker } }
    {
        self.in_flight.swap_set_aside(todo);
        self.retry_those(todo);
    }

    // Goes through what it holds. The answer is the last moment.
    fn go_all<G: Gate<Link = L>>(
        &mut self,
        gate: &mut G,
        now: u64,
        todo: &mut Queue<Claimed<L, C, D>, E>,
    ) -> u64
        requires spare { todo.old.items ≡ [] }
        requires own { todo.old.of ≡ self.old.of }
        ensures through { GoesThrough L.history L.token_of result (beside self.new.worker (G.said gate.new)) now true self.old.worker.held (record (beside self.old.worker (G.said gate.old)) { held = [] }) }
        ensures spare { todo.new ≡ todo.old }
        ensures same { self.new ≡ record self.old { worker = self.new.worker } }
    {
        self.in_flight.swap_held(todo);
        self.go_through(gate, now, todo)
    }

    // rule turn-wait
    // How long it may wait.
    fn wait_ms(&self, now: u64) -> u32
        ensures { result ≡ wait_of now self.now.worker }
    {
        if self.can_go_on {
            return 0;
        }
        least_left(self.in_flight.held(), now)
    }

    // Gives back what has not started, in order of claim.
    fn stop(&mut self, todo: &mut Queue<Claimed<L, C, D>, E>)
        requires spare { todo.old.items ≡ [] }
        requires own { todo.old.of ≡ self.old.of }
        ensures gives { Each GivesBack self.old.worker.held (record self.old.worker { is_stopping = true; held = [] }) self.new.worker }
        ensures spare { todo.new ≡ todo.old }
        ensures same { self.new ≡ record self.old { worker = self.new.worker } }
    {
        self.is_stopping = true;
        self.in_flight.swap_held(todo);
        self.stop_those(todo);
    }

    // rule turn-stop
    // Begins to stop where it is told to, else goes on.
    fn hear(&mut self, turn: Turn, todo: &mut Queue<Claimed<L, C, D>, E>)
        requires spare { todo.old.items ≡ [] }
        requires own { todo.old.of ≡ self.old.of }
        ensures stops { Stops (is_stop turn) self.old.worker.is_stopping self.old.worker self.new.worker }
        ensures spare { todo.new ≡ todo.old }
        ensures same { self.new ≡ record self.old { worker = self.new.worker } }
    {
        if matches!(turn, Turn::Stop) && !self.is_stopping {
            self.stop(todo);
        }
    }

    /// One turn. The two queues are empty before and afterwards.
    pub fn turn<G: Gate<Link = L>>(
        &mut self,
        gate: &mut G,
        held: &mut Queue<Claimed<L, C, D>, E>,
        ends: &mut Queue<Finished<C, D>, E>,
    )
        requires held { held.old ≡ record { items = []; of = self.old.of } }
        requires ends { ends.old ≡ record { items = []; of = self.old.of } }
        ensures turn { WorkerTurn L.history L.token_of (beside self.old.worker (G.said gate.old)) (beside self.new.worker (G.said gate.new)) }
        ensures held { held.new ≡ held.old }
        ensures ends { ends.new ≡ ends.old }
        ensures same { self.new ≡ record self.old { worker = self.new.worker } }
    {
        self.can_go_on = false;
        let now = gate.now();
        self.relieve(gate);
        self.claim();
        self.retry_all(ends);
        let last = self.go_all(gate, now, held);
        let wait = self.wait_ms(last);
        let turn = gate.turn(wait);
        self.hear(turn, held);
    }
}
