//! A gate that opens a few links to an endpoint at a time.
ghost use Rattle.std.specs.Prelude.{◌≡◌, ◌≤◌, ◌<◌, ℕ, false, true, [], ◌∷◌, ◌++◌, IfOk, IfErr, MatchBool};
ghost use Rattle.mx_types.specs.Code.{is_link_code};
ghost use Rattle.mx_gate.specs.Said.{told, asked, opened, lacked, waited, numbered, is_stop};
ghost use Rattle.mx_named_gate.specs.Pace.{IsPaced, allows, burst_of, pace_by};

use crate::pace::{Pace, VAIN_MS};
use crate::paced_laws::allows_paced;
use mx_gate::{Gate, Said, Turn};
use mx_request::Endpoint;
use mx_types::{Code, History};
use std::marker::Model;

/// A gate that opens links as the one within, but says that one can be opened to an endpoint only where fewer than 4 were, until it has
/// waited for 2 milliseconds or 16 have passed by its clock; then 4 more. `open` refuses none for that: its caller asks `can_open` first.
/// Endpoints may share what may be opened. Contracts see the gate within, and all that was said.
///
/// Its answers are those of the gate within, but for the links that it puts off.
pub struct PacedGate<G> {
    gate: G,
    pace: Pace,
    has_put_off: bool,
    said: History<Said>,
}

// Written out, and not derived: a crate that drops a gate cites its proof.
impl<G: Drop> Drop for PacedGate<G> {
    fn drop(self) {
        let PacedGate {
            gate,
            pace,
            has_put_off: _,
            said,
        } = self;
        drop(gate);
        drop(pace);
        drop(said);
    }
}

impl<G> Model for PacedGate<G> {
    ghost use Rattle.std.specs.Prelude.{◌≡◌};
    ghost use Rattle.mx_named_gate.specs.Pace.{PacedState, pace_by};

    ghost Value = { PacedState G };

    ghost view = { λ g. record { gate = g.gate; said = g.said } };

    ghost invariant = { λ g. g.pace ≡ pace_by g.said };
}

impl<G: Gate> PacedGate<G> {
    /// A gate that opens links as this one, of which it has opened none yet.
    pub fn new(gate: G) -> PacedGate<G>
        ensures { result ≡ record { gate = gate; said = [] } }
    {
        PacedGate {
            gate,
            pace: Pace::new(),
            has_put_off: false,
            said: History::new(),
        }
    }

    /// The gate within.
    pub fn into_inner(self) -> G
        ensures { result ≡ self.gate }
    {
        let PacedGate {
            gate,
            pace,
            has_put_off: _,
            said,
        } = self;
        drop(pace);
        drop(said);
        gate
    }

    // Whether a link can be opened now, by the pace and by the gate within, which is asked where the pace allows it.
    fn can(&mut self, endpoint: &Endpoint) -> bool
        ensures within { MatchBool (allows endpoint.now (pace_by self.old.said)) (G.said self.new.gate ≡ G.said self.old.gate ++ asked endpoint.now result ∷ []) ((result ≡ false) × (self.new.gate ≡ self.old.gate)) }
        ensures moment { G.latest self.new.gate ≡ G.latest self.old.gate }
        ensures paced { result ≡ true → IsPaced (burst_of endpoint.now self.old.said) }
        ensures said { self.new.said ≡ self.old.said }
    {
        // proof: what the table allows is within the pace
        allows_paced();
        if !self.pace.allows(endpoint) {
            self.has_put_off = true;
            return false;
        }
        self.gate.can_open(endpoint)
    }
}

impl<G: Gate> Gate for PacedGate<G> {
    type Link = G::Link;

    ghost said = { λ gate. gate.said };

    ghost latest = { λ gate. G.latest gate.gate };

    fn now(&mut self) -> u64
        ensures within { G.said self.new.gate ≡ G.said self.old.gate ++ told result ∷ [] }
        ensures told { result ≡ G.latest self.new.gate }
        ensures rises { G.latest self.old.gate ≤ G.latest self.new.gate }
        ensures noted { self.new.said ≡ self.old.said ++ told result ∷ [] }
    {
        let now = self.gate.now();
        self.pace.pass(now);
        self.said.note(Said::told(now));
        now
    }

    // rule gate-pace
    /// It says yes only where one more link to the endpoint is within the pace. Where the table of places allows one more it answers as the
    /// gate within, and else no: an endpoint that shares its place may have used it up.
    fn can_open(&mut self, endpoint: &Endpoint) -> bool
        ensures within { MatchBool (allows endpoint.now (pace_by self.old.said)) (G.said self.new.gate ≡ G.said self.old.gate ++ asked endpoint.now result ∷ []) ((result ≡ false) × (self.new.gate ≡ self.old.gate)) }
        ensures moment { G.latest self.new.gate ≡ G.latest self.old.gate }
        ensures paced { result ≡ true → IsPaced (burst_of endpoint.now self.old.said) }
        ensures noted { self.new.said ≡ self.old.said ++ asked endpoint.now result ∷ [] }
    {
        let can = self.can(endpoint);
        self.said.note(Said::asked(endpoint, can));
        can
    }

    fn open(&mut self, endpoint: &Endpoint) -> Result<G::Link, Code>
        ensures within { G.said self.new.gate ≡ G.said self.old.gate ++ opened endpoint.now (numbered G.Link.token_of result) ∷ [] }
        ensures fresh { IfOk result (λ link. G.Link.history link ≡ []) }
        ensures code { IfErr result (λ code. is_link_code code ≡ true) }
        ensures moment { G.latest self.new.gate ≡ G.latest self.old.gate }
        ensures noted { self.new.said ≡ self.old.said ++ opened endpoint.now (numbered G.Link.token_of result) ∷ [] }
    {
        let answer = self.gate.open(endpoint);
        self.said.note(Said::opened(endpoint, &answer));
        if answer.is_ok() {
            self.pace.note(endpoint);
        }
        answer
    }

    /// As the gate within says.
    fn lacks_files(&mut self) -> bool
        ensures within { G.said self.new.gate ≡ G.said self.old.gate ++ lacked result ∷ [] }
        ensures moment { G.latest self.new.gate ≡ G.latest self.old.gate }
        ensures noted { self.new.said ≡ self.old.said ++ lacked result ∷ [] }
    {
        let lacks = self.gate.lacks_files();
        self.said.note(Said::lacked(lacks));
        lacks
    }

    /// As the turn of the gate within, but for 2 milliseconds at most where a link was put off since the turn before. The clause says that it
    /// waits no longer than it is to.
    fn turn(&mut self, wait_ms: u32) -> Turn
        ensures within { (ms : ℕ) × (ms ≤ wait_ms) × (G.said self.new.gate ≡ G.said self.old.gate ++ waited ms (is_stop result) ∷ []) }
        ensures moment { G.latest self.new.gate ≡ G.latest self.old.gate }
        ensures noted { self.new.said ≡ self.old.said ++ waited wait_ms (is_stop result) ∷ [] }
    {
        let most = if self.has_put_off {
            wait_ms.min(VAIN_MS)
        } else {
            wait_ms
        };
        self.has_put_off = false;
        let turn = self.gate.turn(most);
        self.pace.wait();
        self.said.note(Said::waited(wait_ms, turn));
        turn
    }
}
