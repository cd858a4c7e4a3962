//! What a row is played on: the seat of an application, workers' seats, and the gate of the worker that runs.
ghost use Rattle.std.specs.Prelude.{◌≡◌, ◌≤◌, true, [], ◌∷◌, ◌++◌, IfOk, IfErr};
ghost use Rattle.mx_types.specs.Code.{is_link_code};
ghost use Rattle.mx_gate.specs.Said.{told, asked, opened, lacked, waited, numbered, is_stop};

use crate::by_hand::end_at;
use crate::gates::gate_of;
use crate::messages::{Wanted, compare, handle_of};
use crate::runs;
use crate::runs::Ran;
use crate::steps::{Answer, Meanwhile, Run};
use crate::trouble::{Trouble, holds};
use mx_gate::{Gate, ScriptGate, Turn};
use mx_journal::InfoReply;
use mx_link::ScriptLink;
use mx_multi::{Application, AtWork, Progress, Seated};
use mx_request::Endpoint;
use mx_transfer_core::Outcome;
use mx_types::{Call, Code, HandleId};
use mx_worker::Queued;
use std::alloc::AllocGlobal;
use std::sync::Wait;

/// The seat of an application, at its multi handle.
pub type Caller<'m> = Seated<'m, Application, Queued<ScriptLink>, Outcome>;

/// A worker's seat, at its multi handle.
pub type SeatedWorker<'m> = Seated<'m, AtWork, Queued<ScriptLink>, Outcome>;

/// What a row is played on. It is the gate of its workers: a scripted one that notes its waits, and in which the application may call.
#[derive(Drop)]
pub struct Stage<'r, 'm, R: Wait> {
    rt: &'r R,
    seat: Caller<'m>,
    /// Those that were not at work.
    workers: Vec<SeatedWorker<'m>>,
    gate: ScriptGate<ScriptLink>,
    meanwhile: Meanwhile,
    waits: Vec<u32>,
    /// Whether a call was refused memory, and was made again.
    pub has_lacked: bool,
}

impl<'r, 'm, R: Wait> Stage<'r, 'm, R> {
    // Makes the application's call, if it is one for such a moment.
    fn call_meanwhile(&mut self, is_opening: bool)
        ensures { self.new.gate ≡ self.old.gate }
    {
        let call = match (self.meanwhile, is_opening) {
            (Meanwhile::AtOpening(call), true) => call,
            (Meanwhile::InTurn(call), false) => call,
            _ => return,
        };
        let _reply = self.seat.make(self.rt, call);
    }
}

impl<'r, 'm, R: Wait> Gate for Stage<'r, 'm, R> {
    type Link = ScriptLink;

    ghost said = { λ stage. stage.gate.said };

    ghost latest = { λ stage. stage.gate.latest };

    fn now(&mut self) -> u64
        ensures told { result ≡ self.new.gate.latest }
        ensures rises { self.old.gate.latest ≤ self.new.gate.latest }
        ensures noted { self.new.gate.said ≡ self.old.gate.said ++ told result ∷ [] }
    {
        self.gate.now()
    }

    fn can_open(&mut self, endpoint: &Endpoint) -> bool
        ensures moment { self.new.gate.latest ≡ self.old.gate.latest }
        ensures noted { self.new.gate.said ≡ self.old.gate.said ++ asked endpoint.now result ∷ [] }
    {
        self.gate.can_open(endpoint)
    }

    fn open(&mut self, endpoint: &Endpoint) -> Result<ScriptLink, Code>
        ensures fresh { IfOk result (λ link. link.history ≡ []) }
        ensures code { IfErr result (λ code. is_link_code code ≡ true) }
        ensures moment { self.new.gate.latest ≡ self.old.gate.latest }
        ensures noted { self.new.gate.said ≡ self.old.gate.said ++ opened endpoint.now (numbered (λ _. 0) result) ∷ [] }
    {
        self.call_meanwhile(true);
        self.gate.open(endpoint)
    }

    fn lacks_files(&mut self) -> bool
        ensures moment { self.new.gate.latest ≡ self.old.gate.latest }
        ensures noted { self.new.gate.said ≡ self.old.gate.said ++ lacked result ∷ [] }
    {
        self.gate.lacks_files()
    }

    fn turn(&mut self, wait_ms: u32) -> Turn
        ensures moment { self.new.gate.latest ≡ self.old.gate.latest }
        ensures noted { self.new.gate.said ≡ self.old.gate.said ++ waited wait_ms (is_stop result) ∷ [] }
    {
        self.call_meanwhile(false);
        drop(self.waits.push(wait_ms));
        self.gate.turn(wait_ms)
    }
}

impl<'r, 'm, R: Wait + AllocGlobal> Stage<'r, 'm, R> {
    /// A stage with these seats, of which the workers' are taken from the last one on.
    pub fn new(rt: &'r R, seat: Caller<'m>, workers: Vec<SeatedWorker<'m>>) -> Stage<'r, 'm, R> {
        let alloc = rt.alloc();
        Stage {
            rt,
            seat,
            workers,
            gate: ScriptGate::new(alloc, 0),
            meanwhile: Meanwhile::Nothing,
            waits: Vec::new(alloc),
            has_lacked: false,
        }
    }

    /// Adds a GET of the URL under a handle, with these limits.
    pub fn add(
        &mut self,
        handle: u32,
        url: &str,
        timeout_ms: u32,
        max_redirects: u8,
    ) -> Result<(), Trouble> {
        let work = runs::work_of(self.rt.alloc(), url, timeout_ms, max_redirects)?;
        runs::added(self.seat.add(self.rt, HandleId(handle), work))
    }

    /// Makes a call, which is to have this answer.
    pub fn make(&mut self, call: Call, answer: Answer) -> Result<(), Trouble> {
        let Some(reply) = self.seat.make(self.rt, call) else {
            return Err(Trouble::Wrong);
        };
        let compared = runs::compare_reply(&reply, answer);
        drop(reply);
        compared
    }

    // Makes the gate of a run.
    fn plan(&mut self, run: &Run) -> Result<(), Trouble> {
        self.gate = gate_of(self.rt.alloc(), run)?;
        self.meanwhile = run.meanwhile;
        self.waits.clear();
        Ok(())
    }

    /// Runs a worker, and says what it ended with.
    pub fn work(&mut self, run: &Run) -> Result<Ran, Trouble> {
        self.plan(run)?;
        let Some(worker) = self.workers.pop() else {
            return Err(Trouble::Wrong);
        };
        let ran = runs::work(self.rt, worker, self)?;
        self.has_lacked = self.has_lacked || ran.is_second;
        Ok(ran)
    }

    /// Claims a transfer at a worker's seat, polls it at the moments 0 and 1, and records its end; the look at it has to give this.
    pub fn end_by_hand(&mut self, is_paused: bool) -> Result<(), Trouble> {
        let was_paused = end_at(self.rt, self.workers.pop());
        holds(was_paused == Some(is_paused))
    }

    /// Reads the progress of the handle's transfer.
    pub fn look(&mut self, handle: u32, ticket: u32, bytes: u32) -> Result<(), Trouble> {
        match self.seat.progress(HandleId(handle)) {
            Some(Progress::Bytes(own, count)) => holds(own.0 == ticket && count == bytes),
            _ => Err(Trouble::Wrong),
        }
    }

    /// How many links the last gate has left.
    pub fn links_left(&self, count: usize) -> Result<(), Trouble> {
        holds(self.gate.openings_left() == count)
    }

    /// The waits of the last gate.
    pub fn waits(&self, waits: &[u32]) -> Result<(), Trouble> {
        holds(self.waits.as_slice() == waits)
    }

    // What reading a message answers.
    fn read_once(&mut self) -> Result<InfoReply<Outcome>, Trouble> {
        match self.seat.info_read(self.rt) {
            Ok(reply) => Ok(reply),
            Err(_) => Err(Trouble::Wrong),
        }
    }

    // The same, once more where it was refused memory.
    fn read_reply(&mut self) -> Result<InfoReply<Outcome>, Trouble> {
        let reply = self.read_once()?;
        if !matches!(reply, InfoReply::OutOfMemory) {
            return Ok(reply);
        }
        drop(reply);
        self.has_lacked = true;
        self.read_once()
    }

    /// Reads a message, which has to be this one.
    pub fn read(&mut self, wanted: Wanted) -> Result<(), Trouble> {
        let reply = self.read_reply()?;
        let compared = compare(&reply, wanted);
        drop(reply);
        compared
    }

    /// Reads a message, which is to have code 0 and this body: its handle.
    pub fn read_handle(&mut self, body: &'static [u8]) -> Result<u32, Trouble> {
        let reply = self.read_reply()?;
        let compared = compare(&reply, Wanted::Whole(body));
        let handle = handle_of(&reply);
        drop(reply);
        compared?;
        handle.ok_or(Trouble::Wrong)
    }
}
