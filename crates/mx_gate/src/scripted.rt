//! A gate that answers from a script.
ghost use Rattle.std.specs.Prelude.{◌≡◌, ◌≤◌, ◌-◌, ◌==◌, ◌∷◌, ◌++◌, true, false, [], length, Some, None, IfOk, IfErr, OnOk, OnErr};
ghost use Rattle.mx_types.specs.Code.{is_link_code};
ghost use Rattle.mx_gate.specs.Gates.{turn_of};
ghost use Rattle.mx_gate.specs.Said.{told, asked, opened, lacked, waited, numbered, is_stop};
ghost use Rattle.mx_gate.specs.Script.{IsOpening, next_ask, next_lack, next_opening, next_moment};

use crate::gate::{Gate, Turn};
use crate::said::Said;
use mx_link::Link;
use mx_request::Endpoint;
use mx_types::{Code, History};
use std::alloc::{AllocFailed, Global};
use std::collections::VecDeque;
use std::marker::Model;

/// A gate that answers from five scripts, in memory. Contracts see what is left of them, the latest moment given, the last wait that was
/// asked for, and all that was said.
///
/// After its script a link can be opened, an `open` answers `CouldntConnect`, for another cause than too many open files, the moment stays,
/// and turns answer `Stop`. It never waits.
pub struct ScriptGate<L: Link> {
    openings: VecDeque<Result<L, Code>>,
    moments: VecDeque<u64>,
    asks: VecDeque<bool>,
    lacks: VecDeque<bool>,
    turns: u32,
    latest: u64,
    last_wait: Option<u32>,
    said: History<Said>,
}

// Written out, and not derived: a crate that drops a gate cites its proof.
impl<L: Link> Drop for ScriptGate<L> {
    fn drop(self) {
        let ScriptGate {
            openings,
            moments,
            asks,
            lacks,
            turns: _,
            latest: _,
            last_wait: _,
            said,
        } = self;
        drop(openings);
        drop(moments);
        drop(asks);
        drop(lacks);
        drop(said);
    }
}

impl<L: Link> Model for ScriptGate<L> {
    ghost use Rattle.std.specs.List.{AllByRecursion};
    ghost use Rattle.mx_gate.specs.Script.{ScriptGateState, IsOpening};

    ghost Value = { ScriptGateState L };

    ghost view = { λ g. record {
      openings = g.openings.items;
      moments = g.moments.items;
      asks = g.asks.items;
      lacks = g.lacks.items;
      turns = g.turns;
      latest = g.latest;
      last_wait = g.last_wait;
      said = g.said;
    } };

    ghost invariant = { λ g. AllByRecursion (IsOpening L.history) g.openings.items };
}

impl<L: Link> ScriptGate<L> {
    /// A gate with nothing planned, whose first `turns` turns answer `Continue`.
    pub fn new(alloc: Global, turns: u32) -> ScriptGate<L>
        ensures { result ≡ record { openings = []; moments = []; asks = []; lacks = []; turns = turns; latest = 0; last_wait = None; said = [] } }
    {
        ScriptGate {
            openings: VecDeque::new(alloc),
            moments: VecDeque::new(alloc),
            asks: VecDeque::new(alloc),
            lacks: VecDeque::new(alloc),
            turns,
            latest: 0,
            last_wait: None,
            said: History::new(),
        }
    }

    /// Adds what an `open` is to answer: a link that has answered nothing yet, or the code of one that can't be opened.
    ///
    /// The one error is that memory was refused; it hands back what was to be added.
    pub fn plan_opening(
        &mut self,
        opening: Result<L, Code>,
    ) -> Result<(), AllocFailed<Result<L, Code>>>
        requires { IsOpening L.history opening }
        ensures planned { OnOk result (self.new ≡ record self.old { openings = self.old.openings ++ opening ∷ [] }) }
        ensures refused { OnErr result (self.new ≡ self.old) }
        ensures back { IfErr result (λ failed. failed.value ≡ opening) }
    {
        self.openings.push_back(opening)
    }

    /// Adds a moment, which `now` is to give unless it gave a later one before.
    ///
    /// The one error is that memory was refused.
    pub fn plan_moment(&mut self, moment: u64) -> Result<(), AllocFailed<u64>>
        ensures planned { OnOk result (self.new ≡ record self.old { moments = self.old.moments ++ moment ∷ [] }) }
        ensures refused { OnErr result (self.new ≡ self.old) }
        ensures back { IfErr result (λ failed. failed.value ≡ moment) }
    {
        self.moments.push_back(moment)
    }

    /// Adds whether a link can be opened when the gate is asked.
    ///
    /// The one error is that memory was refused.
    pub fn plan_ask(&mut self, can: bool) -> Result<(), AllocFailed<bool>>
        ensures planned { OnOk result (self.new ≡ record self.old { asks = self.old.asks ++ can ∷ [] }) }
        ensures refused { OnErr result (self.new ≡ self.old) }
        ensures back { IfErr result (λ failed. failed.value ≡ can) }
    {
        self.asks.push_back(can)
    }

    /// Adds whether too many files are open when the gate is asked.
    ///
    /// The one error is that memory was refused.
    pub fn plan_lack(&mut self, lacks: bool) -> Result<(), AllocFailed<bool>>
        ensures planned { OnOk result (self.new ≡ record self.old { lacks = self.old.lacks ++ lacks ∷ [] }) }
        ensures refused { OnErr result (self.new ≡ self.old) }
        ensures back { IfErr result (λ failed. failed.value ≡ lacks) }
    {
        self.lacks.push_back(lacks)
    }

    /// How many openings are left.
    pub fn openings_left(&self) -> usize
        ensures { result ≡ length self.now.openings }
    {
        self.openings.len()
    }

    /// The wait that the last turn was given, in milliseconds.
    pub fn last_wait(&self) -> Option<u32>
        ensures { result ≡ self.now.last_wait }
    {
        self.last_wait
    }
}

impl<L: Link> Gate for ScriptGate<L> {
    type Link = L;

    ghost said = { λ gate. gate.said };

    ghost latest = { λ gate. gate.latest };

    fn now(&mut self) -> u64
        ensures told { result ≡ self.new.latest }
        ensures rises { self.old.latest ≤ self.new.latest }
        ensures planned { next_moment self.old.latest self.old.moments ≡ (result, self.new.moments) }
        ensures others { self.new ≡ record self.old { latest = result; moments = self.new.moments; said = self.new.said } }
        ensures noted { self.new.said ≡ self.old.said ++ told result ∷ [] }
    {
        if let Some(moment) = self.moments.pop_front() {
            self.latest = self.latest.max(moment);
        }
        self.said.note(Said::told(self.latest));
        self.latest
    }

    fn can_open(&mut self, endpoint: &Endpoint) -> bool
        ensures moment { self.new.latest ≡ self.old.latest }
        ensures planned { next_ask self.old.asks ≡ (result, self.new.asks) }
        ensures others { self.new ≡ record self.old { asks = self.new.asks; said = self.new.said } }
        ensures noted { self.new.said ≡ self.old.said ++ asked endpoint.now result ∷ [] }
    {
        let can = self.asks.pop_front().unwrap_or(true);
        self.said.note(Said::asked(endpoint, can));
        can
    }

    fn open(&mut self, endpoint: &Endpoint) -> Result<L, Code>
        ensures fresh { IfOk result (λ link. L.history link ≡ []) }
        ensures code { IfErr result (λ code. is_link_code code ≡ true) }
        ensures moment { self.new.latest ≡ self.old.latest }
        ensures planned { next_opening self.old.openings ≡ (result, self.new.openings) }
        ensures others { self.new ≡ record self.old { openings = self.new.openings; said = self.new.said } }
        ensures noted { self.new.said ≡ self.old.said ++ opened endpoint.now (numbered L.token_of result) ∷ [] }
    {
        let answer = match self.openings.pop_front() {
            Some(opening) => opening,
            None => Err(Code::CouldntConnect),
        };
        self.said.note(Said::opened(endpoint, &answer));
        answer
    }

    fn lacks_files(&mut self) -> bool
        ensures moment { self.new.latest ≡ self.old.latest }
        ensures planned { next_lack self.old.lacks ≡ (result, self.new.lacks) }
        ensures others { self.new ≡ record self.old { lacks = self.new.lacks; said = self.new.said } }
        ensures noted { self.new.said ≡ self.old.said ++ lacked result ∷ [] }
    {
        let lacks = self.lacks.pop_front().unwrap_or(false);
        self.said.note(Said::lacked(lacks));
        lacks
    }

    fn turn(&mut self, wait_ms: u32) -> Turn
        ensures stop { result ≡ turn_of (self.old.turns == 0) }
        ensures rest { self.new ≡ record self.old { turns = self.old.turns - 1; last_wait = Some wait_ms; said = self.new.said } }
        ensures noted { self.new.said ≡ self.old.said ++ waited wait_ms (is_stop result) ∷ [] }
    {
        self.last_wait = Some(wait_ms);
        if self.turns == 0 {
            self.said.note(Said::waited(wait_ms, Turn::Stop));
            return Turn::Stop;
        }
        self.turns -= 1;
        self.said.note(Said::waited(wait_ms, Turn::Continue));
        Turn::Continue
    }
}
