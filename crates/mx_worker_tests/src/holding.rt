//! A gate that holds a worker until a message was read: for workers on threads.
ghost use Rattle.std.specs.Prelude.{◌≡◌, ◌≤◌, true, [], ◌∷◌, ◌++◌, IfOk, IfErr};
ghost use Rattle.mx_types.specs.Code.{is_link_code};
ghost use Rattle.mx_gate.specs.Said.{told, asked, opened, lacked, waited, numbered, is_stop};

use mx_crew::Crew;
use mx_gate::{Gate, Said, Turn};
use mx_link::{ScriptLink, ScriptRead};
use mx_request::Endpoint;
use mx_types::{Code, History, OutOfMemory};
use std::alloc::{AllocGlobal, Global};
use std::rt::Clock;
use std::sync::atomic::{AtomicBool, Ordering};
use std::thread;
use std::time::Duration;

/// What each of its links gives.
const RESPONSE: &[u8] = b"HTTP/1.1 200 OK\r\nContent-Length: 5\r\n\r\nhello";

/// The most looks at a flag or at the messages, one a millisecond.
pub const LOOKS: u32 = 60_000;

/// The signals between the threads: that a message was read, and that both were.
#[derive(Drop)]
pub struct Flags {
    pub is_read: AtomicBool,
    pub crew: Crew,
}

impl Flags {
    /// Flags for one run.
    pub fn new(alloc: Global) -> Result<Flags, OutOfMemory> {
        Ok(Flags {
            is_read: AtomicBool::new(false),
            crew: Crew::new(alloc)?,
        })
    }
}

/// A gate to scripted links. It holds an open to `held.example` until a message was read.
#[derive(Drop)]
pub struct HoldingGate<'a, R> {
    rt: &'a R,
    flags: &'a Flags,
    moment: u64,
    said: History<Said>,
}

impl<'a, R: Clock + AllocGlobal> HoldingGate<'a, R> {
    /// A gate that looks at these flags.
    pub fn of(rt: &'a R, flags: &'a Flags) -> HoldingGate<'a, R> {
        HoldingGate {
            rt,
            flags,
            moment: 0,
            said: History::new(),
        }
    }

    // A link, once it is not held any more.
    fn link_to(&self, endpoint: &Endpoint) -> Result<ScriptLink, Code>
        ensures fresh { IfOk result (λ link. link.history ≡ []) }
        ensures code { IfErr result (λ code. is_link_code code ≡ true) }
    {
        if endpoint.host.as_str() == "held.example" && !self.hold() {
            return Err(Code::CouldntConnect);
        }
        match ScriptLink::new(self.rt.alloc(), &[ScriptRead::Bytes(RESPONSE)], &[]) {
            Ok(link) => Ok(link),
            Err(_) => Err(Code::OutOfMemory),
        }
    }

    // Whether a message was read in time.
    fn hold(&self) -> bool {
        for _ in 0..LOOKS {
            if self.flags.is_read.load(Ordering::SeqCst) {
                return true;
            }
            thread::sleep(self.rt, Duration::from_millis(1));
        }
        false
    }
}

impl<'a, R: Clock + AllocGlobal> Gate for HoldingGate<'a, R> {
    type Link = ScriptLink;

    ghost said = { λ gate. gate.said };

    ghost latest = { λ gate. gate.moment };

    fn now(&mut self) -> u64
        ensures told { result ≡ self.new.moment }
        ensures rises { self.old.moment ≤ self.new.moment }
        ensures noted { self.new.said ≡ self.old.said ++ told result ∷ [] }
    {
        self.said.note(Said::told(self.moment));
        self.moment
    }

    fn can_open(&mut self, endpoint: &Endpoint) -> bool
        ensures moment { self.new.moment ≡ self.old.moment }
        ensures noted { self.new.said ≡ self.old.said ++ asked endpoint.now result ∷ [] }
    {
        self.said.note(Said::asked(endpoint, true));
        true
    }

    fn open(&mut self, endpoint: &Endpoint) -> Result<ScriptLink, Code>
        ensures fresh { IfOk result (λ link. link.history ≡ []) }
        ensures code { IfErr result (λ code. is_link_code code ≡ true) }
        ensures moment { self.new.moment ≡ self.old.moment }
        ensures noted { self.new.said ≡ self.old.said ++ opened endpoint.now (numbered (λ _. 0) result) ∷ [] }
    {
        let answer = self.link_to(endpoint);
        self.said.note(Said::opened(endpoint, &answer));
        answer
    }

    fn lacks_files(&mut self) -> bool
        ensures moment { self.new.moment ≡ self.old.moment }
        ensures noted { self.new.said ≡ self.old.said ++ lacked result ∷ [] }
    {
        self.said.note(Said::lacked(false));
        false
    }

    fn turn(&mut self, wait_ms: u32) -> Turn
        ensures moment { self.new.moment ≡ self.old.moment }
        ensures noted { self.new.said ≡ self.old.said ++ waited wait_ms (is_stop result) ∷ [] }
    {
        thread::sleep(self.rt, Duration::from_millis(u64::from(wait_ms.min(1))));
        let turn = if self.flags.crew.is_stopped() {
            Turn::Stop
        } else {
            Turn::Continue
        };
        self.said.note(Said::waited(wait_ms, turn));
        turn
    }
}
