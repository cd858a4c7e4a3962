//! The multi handle on one thread.
ghost use Rattle.std.specs.Prelude.{◌≡◌, ◌++◌, [], length, map, IfOk, All};
ghost use Rattle.mx_types.specs.Limits.{IsHistory};
ghost use Rattle.mx_types.specs.declared.call.Call.{Call};
ghost use Rattle.mx_history.specs.Answers.{state_of};
ghost use Rattle.mx_history.specs.History.{added, running};
ghost use Rattle.mx_journal.specs.Core.{retired, still_running, still_waiting};
ghost use Rattle.mx_journal.specs.Replies.{ending_read, handed_back, origins_added, queue_added, reply_of_add, reply_of_info, reply_of_pause, reply_of_remove, work_back};
ghost use Rattle.mx_chain.specs.Outcomes.{size_of};
ghost use Rattle.mx_turn.specs.Workers.{starts};
ghost use Rattle.mx_worker_turns.specs.WorkerSteps.{beside};
ghost use Rattle.mx_request.specs.Request.{request_origin};
ghost use Rattle.mx_solo.specs.Owning.{EndingsOwn};
ghost use Rattle.mx_solo.specs.Seats.{CalledAt, IsAdded, Performs, TurnsOn, WaitsNoLonger, code_of, new_core};

use crate::claims::SoloClaim;
use crate::quiet::Quiet;
use crate::seat::{Core, Seat};
use mx_gate::Gate;
use mx_journal::{AddReply, Control, InfoReply, PauseReply, RemoveReply};
use mx_link::Link;
use mx_sink::{Delivery, Held};
use mx_transfer_core::{Outcome, Queued};
use mx_types::{AddedHandles, HandleId, OutOfMemory, State, Who};
use mx_worker_turns::Worker;
use std::alloc::Global;
use std::marker::Model;

/// Who makes the calls.
const CALLER: Who = Who::Seat(0);

/// How many turns one call of `perform` takes at most, so that it comes back while a fast server sends without end.
const MOST_TURNS: u32 = 256;

/// A multi handle on one thread. Its calls add, remove, pause and read, and `perform` takes the turns of its one worker. Contracts see the
/// control core, and the worker as it is between two calls of `perform`: what it has in flight and its idle links.
#[derive(Drop)]
pub struct Solo<L: Link, D: Delivery = Held> {
    // There but while the worker takes its turns.
    core: Option<Core<L, D>>,
    worker: Worker<L, SoloClaim<L, D>, D, Seat<L, D>>,
    log: Quiet,
    // A call changed something since the last `perform`.
    is_touched: bool,
}

impl<L: Link, D: Delivery> Model for Solo<L, D> {
    ghost use Rattle.std.specs.Prelude.{◌≡◌, IsSome};
    ghost use Rattle.mx_solo.specs.Seats.{IsOwnAll, SoloView, no_ties, there, unnoted};

    ghost Value = { SoloView L };

    ghost view = { λ s. record { core = there s.core; worker = unnoted s.worker.worker } };

    ghost invariant = { λ s. (s.worker.of ≡ no_ties) × IsSome s.core × IsOwnAll s.core s.worker.worker };
}

// A turn, and turn after turn while something could go on at once.
fn turn_all<L: Link, D: Delivery, G: Gate<Link = L>>(
    worker: &mut Worker<L, SoloClaim<L, D>, D, Seat<L, D>>,
    gate: &mut G,
)
    ensures turns { TurnsOn L.history L.token_of (beside worker.old.worker (G.said gate.old)) (beside worker.new.worker (G.said gate.new)) }
    ensures same { worker.new ≡ record worker.old { worker = worker.new.worker } }
{
    worker.turn(gate);
    for _ in 1..MOST_TURNS {
        if !worker.can_go_on() {
            return;
        }
        worker.turn(gate);
    }
}

impl<L: Link, D: Delivery> Solo<L, D> {
    /// A multi handle with nothing added, with room for so many events and idle links. Returns `OutOfMemory` where memory for these is
    /// refused.
    pub fn new(alloc: Global, history: u32, max_connects: u8) -> Result<Solo<L, D>, OutOfMemory>
        requires { IsHistory history }
        ensures { IfOk result (λ s. (s.core ≡ new_core history) × (s.worker ≡ starts max_connects)) }
    {
        let core = Control::new(alloc, history)?;
        match Worker::new(alloc, Seat::of(None), max_connects) {
            Ok(worker) => Ok(Solo {
                core: Some(core),
                worker,
                log: Quiet::new(),
                is_touched: false,
            }),
            Err(spare) => {
                drop(core);
                drop(spare);
                Err(OutOfMemory)
            }
        }
    }

    /// Adds a handle with its transfer (curl_multi_add_handle(3)). The replies are those of a multi handle, but that memory is never refused.
    pub fn add(&mut self, handle: HandleId, work: Queued<L, D>) -> AddReply<Queued<L, D>>
        ensures called { CalledAt (Call.Add handle) self.old.core self.new.core (reply_of_add result) }
        ensures queue { self.new.core.queue ≡ queue_added result self.old.core.queue work }
        ensures origins { self.new.core.origins ≡ origins_added result self.old.core.origins (request_origin work.request) }
        ensures endings { self.new.core.endings ≡ self.old.core.endings }
        ensures own { IsAdded result self.new.core.origins work.request }
        ensures back { handed_back result ≡ work_back result work }
        ensures worker { self.new.worker ≡ self.old.worker }
    {
        let Some(core) = &mut self.core else {
            unreachable!()
        };
        self.is_touched = true;
        // proof: tickets number the origins
        core.sound();
        core.add(&mut self.log, CALLER, handle, work)
    }

    /// Removes a handle, whether it runs or is done (curl_multi_remove_handle(3)). A transfer that is in flight is dropped at the next
    /// `perform`, with its link.
    pub fn remove(&mut self, handle: HandleId) -> RemoveReply
        ensures called { CalledAt (Call.Remove handle) self.old.core self.new.core (reply_of_remove result) }
        ensures queue { self.new.core.queue ≡ still_running self.new.core.journal self.old.core.queue }
        ensures endings { self.new.core.endings ≡ still_waiting self.new.core.journal self.old.core.endings }
        ensures origins { self.new.core.origins ≡ self.old.core.origins }
        ensures worker { self.new.worker ≡ self.old.worker }
    {
        let Some(core) = &mut self.core else {
            unreachable!()
        };
        self.is_touched = true;
        core.remove(&mut self.log, CALLER, handle)
    }

    /// Pauses a handle's transfer (curl_easy_pause(3)).
    pub fn pause(&mut self, handle: HandleId) -> PauseReply
        ensures called { CalledAt (Call.Pause handle) self.old.core self.new.core (reply_of_pause result) }
        ensures queue { self.new.core.queue ≡ self.old.core.queue }
        ensures endings { self.new.core.endings ≡ self.old.core.endings }
        ensures origins { self.new.core.origins ≡ self.old.core.origins }
        ensures worker { self.new.worker ≡ self.old.worker }
    {
        let Some(core) = &mut self.core else {
            unreachable!()
        };
        self.is_touched = true;
        core.pause(&mut self.log, CALLER, handle)
    }

    /// Resumes a handle's transfer (curl_easy_pause(3)).
    pub fn unpause(&mut self, handle: HandleId) -> PauseReply
        ensures called { CalledAt (Call.Unpause handle) self.old.core self.new.core (reply_of_pause result) }
        ensures queue { self.new.core.queue ≡ self.old.core.queue }
        ensures endings { self.new.core.endings ≡ self.old.core.endings }
        ensures origins { self.new.core.origins ≡ self.old.core.origins }
        ensures worker { self.new.worker ≡ self.old.worker }
    {
        let Some(core) = &mut self.core else {
            unreachable!()
        };
        self.is_touched = true;
        core.unpause(&mut self.log, CALLER, handle)
    }

    /// Reads the message that has waited longest (curl_multi_info_read(3)): its outcome is the ending that the worker handed in first of those
    /// that wait, and of the request that was added under its ticket.
    pub fn info_read(&mut self) -> InfoReply<Outcome<D>>
        ensures called { CalledAt Call.InfoRead self.old.core self.new.core (reply_of_info code_of size_of result) }
        ensures queue { self.new.core.queue ≡ self.old.core.queue }
        ensures endings { self.old.core.endings ≡ ending_read result ++ self.new.core.endings }
        ensures own { EndingsOwn self.old.core.origins (ending_read result) }
        ensures origins { self.new.core.origins ≡ self.old.core.origins }
        ensures worker { self.new.worker ≡ self.old.worker }
    {
        let Some(core) = &mut self.core else {
            unreachable!()
        };
        core.info_read(&mut self.log, CALLER)
    }

    /// Retires old history: it keeps the events of the handles that are added, and says how many they are. Transfers that are in flight go on.
    pub fn retire(&mut self) -> u32
        ensures retired { self.new.core ≡ retired self.old.core }
        ensures kept { result ≡ length self.new.core.journal }
        ensures worker { self.new.worker ≡ self.old.worker }
    {
        let Some(core) = &mut self.core else {
            unreachable!()
        };
        core.retire_beside_claims()
    }

    /// Takes a turn, and more while something could go on at once, 256 at most. It waits for nothing but what the gate's turns wait for
    /// (curl_multi_perform(3)). The answer is how many transfers run then, paused ones too. No clause says how many turns it takes beside the
    /// first.
    pub fn perform<G: Gate<Link = L>>(&mut self, gate: &mut G) -> u32
        ensures performs { Performs L.history L.token_of self.old self.new (G.said gate.old) (G.said gate.new) }
        ensures origins { self.new.core.origins ≡ self.old.core.origins }
        ensures runs { result ≡ length (running self.new.core.journal) }
    {
        let mut seat = Seat::of(self.core.take());
        self.worker.swap_engine(&mut seat);
        turn_all(&mut self.worker, gate);
        self.worker.swap_engine(&mut seat);
        self.core = seat.into_core();
        self.is_touched = false;
        self.running()
    }

    /// How long a wait for the network may last from this moment on, in milliseconds (curl_multi_timeout(3)): not at all where something could
    /// go on at once, or a call changed something since the last `perform`; else until the first deadline of a transfer that is in flight, and
    /// `None` where there is none. The clause speaks of deadlines alone.
    pub fn timeout(&self, now: u64) -> Option<u64>
        ensures { All (λ h. WaitsNoLonger result now h.transfer.now.deadline) self.now.worker.held }
    {
        if self.worker.can_go_on() || self.is_touched {
            return Some(0);
        }
        match self.worker.least_deadline() {
            Some(deadline) => Some(deadline.saturating_sub(now)),
            None => None,
        }
    }

    /// How many transfers run, paused ones too.
    pub fn running(&self) -> u32
        ensures { result ≡ length (running self.now.core.journal) }
    {
        let Some(core) = &self.core else {
            unreachable!()
        };
        core.running()
    }

    /// The state of a handle.
    pub fn state(&self, handle: HandleId) -> State
        ensures { result ≡ state_of handle self.now.core.journal }
    {
        let Some(core) = &self.core else {
            unreachable!()
        };
        core.state(handle)
    }

    /// The handles that are added, in the order of their addition (curl_multi_get_handles(3)).
    pub fn handles(&self) -> AddedHandles
        ensures { result ≡ map (λ a. a.handle) (added self.now.core.journal) }
    {
        let Some(core) = &self.core else {
            unreachable!()
        };
        core.handles()
    }
}
