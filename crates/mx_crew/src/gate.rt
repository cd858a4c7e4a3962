//! A worker's gate in a run.
ghost use Rattle.std.specs.Prelude.{◌≡◌, ◌∷◌, ◌++◌, true, [], IfOk, IfErr};
ghost use Rattle.mx_types.specs.Code.{is_link_code};
ghost use Rattle.mx_gate.specs.Said.{asked, opened, numbered};
ghost use Rattle.mx_crew.specs.Gates.{OpensWithin, OpensOnce};

use crate::shortage::{Shortages, Watch};
use crate::starts::{StartReport, Starts};
use mx_gate::{Gate, Said, Turn};
use mx_request::Endpoint;
use mx_types::{Code, History};
use std::marker::{Brand, Model, PhantomData};
use std::sync::Wait;

/// What the gates of a run have in common.
#[derive(Drop)]
pub(crate) struct Common {
    pub starts: Starts,
    pub shortages: Shortages,
}

impl Common {
    pub fn new() -> Common {
        Common {
            starts: Starts::new(),
            shortages: Shortages::new(),
        }
    }
}

/// All that a gate had said before a run. Each call that makes a gate of a run picks it.
pub(crate) trait Before {
    ghost use Rattle.std.specs.Prelude.{List};
    ghost use Rattle.mx_gate.specs.Said.{Said as OneSaid};

    ghost said: { List OneSaid };
}

impl Before for Brand {
    ghost said = { [] };
}

/// A worker's gate in a run. It answers as the gate within, but for these. All that the gate within had said before the run is a beginning of
/// what it has said, and each link that is opened in the run is opened by it.
///
/// It tells whether its worker has started: a worker asks for the moment first, and where its start is refused memory it waits without
/// having asked for one.
///
/// Where a connection can't be begun since too many files are open, the gates of the run each say so once to their workers, which then drop
/// their idle connections; a worker asks at least every 20 milliseconds. The connection is put off: for half a second one is tried every
/// 10 milliseconds, and between tries the gate says that none can be opened yet. After that connections fail.
pub(crate) struct RunGate<'s, G: Gate, B: Before> {
    gate: G,
    start: StartReport<'s>,
    shortages: &'s Shortages,
    watch: Watch,
    latest: u64,
    said: History<Said>,
    before: PhantomData<B>,
}

impl<'s, G: Gate, B: Before> Model for RunGate<'s, G, B> {
    ghost use Rattle.mx_crew.specs.Gates.{OpensWithin, RunGateState};

    ghost Value = { RunGateState G };

    ghost view = { λ g. record { gate = g.gate; said = g.said } };

    ghost invariant = { λ g. OpensWithin G.said B.said g.gate g.said };
}

impl<'s, G: Gate, B: Before> RunGate<'s, G, B> {
    pub fn new(common: &'s Common, gate: G) -> RunGate<'s, G, B>
        requires { B.said ≡ G.said gate }
        ensures { result.said ≡ [] }
    {
        RunGate {
            gate,
            start: StartReport::new(&common.starts),
            shortages: &common.shortages,
            watch: Watch::new(),
            latest: 0,
            said: History::new(),
            before: PhantomData,
        }
    }

    /// The gate within, once its worker has ended, and all that this gate said.
    pub fn into_parts(self) -> (G, History<Said>)
        ensures said { result.1 ≡ self.entry.said }
        ensures gate { OpensWithin G.said B.said result.0 result.1 }
    {
        let RunGate {
            gate,
            start,
            shortages: _,
            watch: _,
            latest: _,
            said,
            before: _,
        } = self;
        start.end();
        (gate, said)
    }
}

// Opens a link, and tells all gates of the run where that fails since too many files are open, and may be tried again.
fn open_or_tell<G: Gate>(
    gate: &mut G,
    endpoint: &Endpoint,
    watch: &mut Watch,
    shortages: &Shortages,
    now: u64,
) -> Result<G::Link, Code>
    ensures fresh { IfOk result (λ link. G.Link.history link ≡ []) }
    ensures code { IfErr result (λ code. is_link_code code ≡ true) }
    ensures moment { G.latest gate.new ≡ G.latest gate.old }
    ensures said { OpensOnce (G.said gate.old) (G.said gate.new) (opened endpoint.now (numbered G.Link.token_of result)) }
{
    let answer = gate.open(endpoint);
    if answer.is_ok() {
        watch.end();
    } else if watch.may_try_again(now) && gate.lacks_files() {
        watch.begin(now);
        shortages.tell();
    }
    answer
}

impl<'s, G: Gate, B: Before> Gate for RunGate<'s, G, B> {
    type Link = G::Link;

    ghost said = { λ gate. gate.said };

    ghost latest = { λ gate. G.latest gate.gate };

    fn now(&mut self) -> u64 {
        self.start.tell();
        self.latest = self.gate.now();
        self.said.note(Said::told(self.latest));
        self.latest
    }

    fn can_open(&mut self, endpoint: &Endpoint) -> bool {
        let can = self.watch.may_try(self.latest) && self.gate.can_open(endpoint);
        self.said.note(Said::asked(endpoint, can));
        can
    }

    fn open(&mut self, endpoint: &Endpoint) -> Result<G::Link, Code> {
        let answer = open_or_tell(
            &mut self.gate,
            endpoint,
            &mut self.watch,
            self.shortages,
            self.latest,
        );
        self.said.note(Said::opened(endpoint, &answer));
        answer
    }

    fn lacks_files(&mut self) -> bool {
        let lacks = self.watch.has_news(self.shortages);
        self.said.note(Said::lacked(lacks));
        lacks
    }

    fn turn(&mut self, wait_ms: u32) -> Turn {
        self.start.tell_refusal();
        let turn = self.gate.turn(self.watch.wait(self.latest, wait_ms));
        self.said.note(Said::waited(wait_ms, turn));
        turn
    }
}
