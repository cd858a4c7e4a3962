//! A gate to the network that waits for no name.
ghost use Rattle.std.specs.Prelude.{◌≡◌, ◌≤◌, ◌<◌, true, [], ◌∷◌, ◌++◌, length, None, Some, IfOk, IfErr};
ghost use Rattle.mx_types.specs.Code.{is_link_code};
ghost use Rattle.mx_names.specs.Addresses.{is_lookup_code};
ghost use Rattle.mx_names.specs.Asked.{HasLookupCode};
ghost use Rattle.mx_gate.specs.Said.{told, asked, opened, lacked, waited, numbered, is_stop};
ghost use Rattle.mx_gate.specs.Gates.{next_token};
ghost use Rattle.mx_gate.specs.Dialling.{addresses_of};
ghost use Rattle.mx_named_gate.specs.Named.{IsToldOf, IsKept, IsKeptOn, IsNoted, IsTold, Hears, Asks, OpensBy, AreOf, most_host};

use crate::bell::NameBell;
use crate::waiting::Waiting;
use mx_gate::{Gate, Said, SocketGate, SocketLink, Turn, number_of};
use mx_names::{Asked, HostAnswer, Lookup, Resolver};
use mx_request::Endpoint;
use mx_types::{Code, History, OutOfMemory};
use std::alloc::{AllocGlobal, Global};
use std::marker::{Model, PhantomData};
use std::net::Net;
use std::rt::Clock;
use std::sync::Wait;

// For a host of so many bytes there is room: no domain name has more (RFC 1035, section 3.1).
const MOST_HOST: usize = 255;

// Room for a host, and the resolver's answer on the host that stands there, where one is kept.
struct Kept<L: Lookup> {
    host: String,
    answer: Option<HostAnswer>,
    by: PhantomData<L>,
}

// Written out, and not derived: no lookup is dropped with it.
impl<L: Lookup> Drop for Kept<L> {
    fn drop(self) {
        let Kept {
            host,
            answer,
            by: _,
        } = self;
        drop(host);
        drop(answer);
    }
}

impl<L: Lookup> Model for Kept<L> {
    ghost use Rattle.std.specs.Prelude.{IfSome, option_map, string_bytes, string_capacity};
    ghost use Rattle.mx_named_gate.specs.Named.{KeptState, IsKept};

    ghost Value = { KeptState };

    ghost view = { λ k. record { told = option_map (λ answer. record { host = string_bytes k.host; answer = answer }) k.answer; room = string_capacity k.host } };

    ghost invariant = { λ k. IfSome k.answer (IsKept L.gives (string_bytes k.host)) };
}

impl<L: Lookup> Kept<L> {
    // Room for a host, and no answer.
    fn new(alloc: Global) -> Result<Kept<L>, OutOfMemory>
        ensures { IfOk result (λ kept. kept ≡ record { told = None; room = most_host }) }
    {
        let host = String::with_capacity(alloc, MOST_HOST)?;
        Ok(Kept {
            host,
            answer: None,
            by: PhantomData,
        })
    }

    // The answer, where it is on this host. No answer is kept then.
    #[tactic(auto, using(crate::proofs::NamedLemmas::kept_alike, crate::proofs::NamedLemmas::kept_elsewhere))]
    fn take(&mut self, host: &str) -> Option<HostAnswer>
        ensures answer { IsKeptOn L.gives host.now self.old.told result }
        ensures spent { self.new ≡ record self.old { told = None } }
    {
        let answer = self.answer.take();
        if self.host.as_str() == host {
            answer
        } else {
            None
        }
    }

    // Keeps the answer on the host, in place of the other, where there is room for the host or memory for that is given.
    fn keep(&mut self, host: &str, answer: HostAnswer)
        requires { IsKept L.gives host.now answer }
        ensures noted { IsNoted host.now answer self.old.room self.new.told }
        ensures room { self.old.room ≤ self.new.room }
    {
        self.answer = None;
        self.host.clear();
        if self.host.push_str(host).is_ok() {
            self.answer = Some(answer);
        }
    }
}

/// A gate that opens TCP connections as a `SocketGate`, and has names looked up by a resolver, so that it is to wait for none. Contracts
/// see the gate within, the answer that is kept, for how many bytes of its host there is room, what the resolver's table was asked, and all
/// that was said.
///
/// Its `now` and `turn` have the bound `Wait` since the other methods of `Gate` need it. They take no lock, but `turn` blocks as that of
/// the gate within. No clause says how long a call waits.
pub struct NamedGate<'r, R, L: Lookup> {
    rt: &'r R,
    gate: SocketGate<'r, R>,
    resolver: Resolver<L, NameBell>,
    waiting: Waiting,
    kept: Kept<L>,
    asked: History<Asked>,
    said: History<Said>,
}

// Written out, and not derived: a crate that drops a gate cites its proof.
impl<'r, R, L: Lookup + Drop> Drop for NamedGate<'r, R, L> {
    fn drop(self) {
        let NamedGate {
            rt: _,
            gate,
            resolver,
            waiting,
            kept,
            asked,
            said,
        } = self;
        drop(gate);
        drop(resolver);
        drop(waiting);
        drop(kept);
        drop(asked);
        drop(said);
    }
}

impl<'r, R, L: Lookup> Model for NamedGate<'r, R, L> {
    ghost use Rattle.mx_named_gate.specs.Named.{NamedGateState};

    ghost Value = { NamedGateState };

    ghost view = { λ g. record { gate = g.gate; kept = g.kept.told; room = g.kept.room; asked = g.asked; said = g.said } };
}

// The code of a lookup that failed.
fn failure(code: Code) -> Code
    ensures link { is_link_code result ≡ true }
    ensures same { is_lookup_code code ≡ true → result ≡ code }
{
    match code {
        Code::OutOfMemory => Code::OutOfMemory,
        _ => Code::CouldntResolveHost,
    }
}

// A share of the resolver, which rings the gate's bell from now on. It owns no gate, so its exits drop none.
fn listening<R: Net + Clock + AllocGlobal + Wait, L: Lookup>(
    rt: &R,
    gate: &SocketGate<'_, R>,
    resolver: &Resolver<L, NameBell>,
) -> Result<Resolver<L, NameBell>, OutOfMemory> {
    resolver.add_bell(rt, NameBell::of(gate.bell()?))?;
    resolver.share()
}

// The same, with room for an answer.
fn with_room<R: Net + Clock + AllocGlobal + Wait, L: Lookup>(
    rt: &R,
    gate: &SocketGate<'_, R>,
    resolver: &Resolver<L, NameBell>,
) -> Result<(Resolver<L, NameBell>, Kept<L>), OutOfMemory>
    ensures { IfOk result (λ r. r.1 ≡ record { told = None; room = most_host }) }
{
    let kept = Kept::new(rt.alloc())?;
    match listening(rt, gate, resolver) {
        Ok(resolver) => Ok((resolver, kept)),
        Err(error) => {
            drop(kept);
            Err(error)
        }
    }
}

impl<'r, R: Net + Clock + AllocGlobal + Wait, L: Lookup> NamedGate<'r, R, L> {
    /// A gate with this one within, which has answered nothing yet. It has its names looked up by this resolver, which is to ring the
    /// gate's bell where a lookup has ended; no clause says that it is this resolver, or that the bell is rung. Both are to have one
    /// start: `SocketGate::start` of the gate, and the start that the resolver was made with. The gate starts no thread: somebody is to
    /// begin the lookups that it wants, by `Resolver::serve`.
    ///
    /// The one error is that memory was refused. It drops the gate, and the resolver may keep the gate's bell, which then wakes nobody.
    pub fn new(
        rt: &'r R,
        gate: SocketGate<'r, R>,
        resolver: &Resolver<L, NameBell>,
    ) -> Result<NamedGate<'r, R, L>, OutOfMemory>
        ensures said { IfOk result (λ named. named.said ≡ []) }
        ensures fresh { IfOk result (λ named. (named.kept ≡ None) × (named.asked ≡ [])) }
        ensures room { IfOk result (λ named. named.room ≡ most_host) }
        ensures within { IfOk result (λ named. named.gate ≡ gate.entry) }
    {
        match with_room(rt, &gate, resolver) {
            Ok((resolver, kept)) => Ok(NamedGate {
                rt,
                gate,
                resolver,
                waiting: Waiting::new(rt.alloc()),
                kept,
                asked: History::new(),
                said: History::new(),
            }),
            Err(error) => Err(error),
        }
    }

    // The resolver's answer on the host now.
    #[tactic(auto, using(crate::proofs::NamedLemmas::is_told))]
    fn ask(&mut self, host: &str) -> HostAnswer
        ensures told { IsTold L.gives host.now self.old.gate.latest result self.old.asked self.new.asked }
        ensures same { self.new ≡ record self.old { asked = self.new.asked } }
    {
        let now = self.gate.latest();
        let since = self.waiting.since(host).unwrap_or(now);
        self.resolver
            .look(self.rt, host, since, now, &mut self.asked)
    }

    // The resolver's answer on the host: the one that is kept, if that is on this host.
    #[tactic(auto, using(crate::proofs::NamedLemmas::hears_kept, crate::proofs::NamedLemmas::hears_anew))]
    fn answer_of(&mut self, host: &str) -> HostAnswer
        ensures heard { Hears L.gives host.now self.old self.new result }
        ensures told { IsToldOf L.gives host.now result }
        ensures code { HasLookupCode result }
        ensures same { self.new ≡ record self.old { kept = None; asked = self.new.asked } }
    {
        match self.kept.take(host) {
            Some(answer) => answer,
            None => self.ask(host),
        }
    }

    // Keeps the resolver's answer on the host, where there is room for it or memory for that is given.
    fn keep(&mut self, host: &str, answer: HostAnswer)
        requires { IsKept L.gives host.now answer }
        ensures kept { IsNoted host.now answer self.old.room self.new.kept }
        ensures room { self.old.room ≤ self.new.room }
        ensures same { self.new ≡ record self.old { kept = self.new.kept; room = self.new.room } }
    {
        self.waiting.end(host);
        self.kept.keep(host, answer);
    }

    // Asks the resolver about the host, and keeps its answer, where there is room for the host. True where there is one.
    #[tactic(auto, using(crate::proofs::NamedLemmas::is_kept))]
    fn hear(&mut self, host: &str) -> bool
        ensures asks { Asks L.gives host.now self.old self.new result }
        ensures same { self.new ≡ record self.old { kept = self.new.kept; room = self.new.room; asked = self.new.asked } }
    {
        let answer = self.ask(host);
        if matches!(answer, HostAnswer::NotYet) {
            let now = self.gate.latest();
            // Where memory is refused, the host counts as asked for since a later moment.
            let _ = self.waiting.begin(self.rt.alloc(), host, now);
            return false;
        }
        self.keep(host, answer);
        true
    }

    // rule name-no-second-lookup
    // Opens a link by the answer on the endpoint's host. No answer is kept then.
    #[tactic(auto, using(crate::proofs::NamedLemmas::are_told, crate::proofs::NamedLemmas::are_own))]
    fn begin(&mut self, endpoint: &Endpoint) -> Result<SocketLink<'r, R>, Code>
        ensures code { IfErr result (λ code. is_link_code code ≡ true) }
        ensures opened { IfOk result (λ link. (link.link.token ≡ self.old.gate.next_token) × (link.history ≡ [])) }
        ensures moment { self.new.gate.latest ≡ self.old.gate.latest }
        ensures addresses { IfOk result (λ link. AreOf L.gives endpoint.now (addresses_of link.link) self.old.gate.found self.new.gate.found) }
        ensures some { IfOk result (λ link. 0 < length link.link.dialled) }
        ensures by { OpensBy L.gives endpoint.now (λ link. addresses_of link.link) self.old self.new result }
        ensures room { self.new.room ≡ self.old.room }
        ensures said { self.new.said ≡ self.old.said }
    {
        match self.answer_of(endpoint.host.as_str()) {
            HostAnswer::Known(addresses) => {
                match self.gate.open_at(endpoint, addresses.as_slice()) {
                    Ok(link) => Ok(link),
                    Err(code) => Err(code),
                }
            }
            HostAnswer::Failed(code) => Err(failure(code)),
            HostAnswer::NotYet => self.gate.open(endpoint),
        }
    }
}

impl<'r, R: Net + Clock + AllocGlobal + Wait, L: Lookup> Gate for NamedGate<'r, R, L> {
    type Link = SocketLink<'r, R>;

    ghost said = { λ gate. gate.said };

    ghost latest = { λ gate. gate.gate.latest };

    fn now(&mut self) -> u64
        ensures told { result ≡ self.new.gate.latest }
        ensures rises { self.old.gate.latest ≤ self.new.gate.latest }
        ensures within { self.new.gate.said ≡ self.old.gate.said ++ told result ∷ [] }
        ensures others { self.new ≡ record self.old { gate = self.new.gate; said = self.new.said } }
        ensures noted { self.new.said ≡ self.old.said ++ told result ∷ [] }
    {
        let now = self.gate.now();
        self.said.note(Said::told(now));
        now
    }

    /// It can where the resolver has an answer on the host: its addresses, or why it has none. Else a lookup of it is wanted or under way,
    /// and the resolver rings the bell of the gate where that has ended. No clause says that the bell is rung. It keeps the answer for the
    /// next `open`, in place of one that it kept before. On a host for whose bytes there is no room it keeps none where memory for them is
    /// refused; there is room for 255 bytes, which no domain name exceeds.
    fn can_open(&mut self, endpoint: &Endpoint) -> bool
        ensures moment { self.new.gate.latest ≡ self.old.gate.latest }
        ensures asks { Asks L.gives endpoint.now.host self.old self.new result }
        ensures others { self.new ≡ record self.old { kept = self.new.kept; room = self.new.room; asked = self.new.asked; said = self.new.said } }
        ensures noted { self.new.said ≡ self.old.said ++ asked endpoint.now result ∷ [] }
    {
        let can = self.hear(endpoint.host.as_str());
        self.said.note(Said::asked(endpoint, can));
        can
    }

    /// Begins to connect to the addresses that the resolver gives for the host, or answers why it has none. It uses the answer that
    /// `can_open` has kept on that host, and else asks now; where nothing is known yet, and only there, it looks the name up itself, and
    /// waits for that. The answer that was kept is spent, on whichever host it was: the next link isn't opened by it.
    fn open(&mut self, endpoint: &Endpoint) -> Result<SocketLink<'r, R>, Code>
        ensures fresh { IfOk result (λ link. link.history ≡ []) }
        ensures code { IfErr result (λ code. is_link_code code ≡ true) }
        ensures moment { self.new.gate.latest ≡ self.old.gate.latest }
        ensures token { IfOk result (λ link. link.link.token ≡ self.old.gate.next_token) }
        ensures addresses { IfOk result (λ link. AreOf L.gives endpoint.now (addresses_of link.link) self.old.gate.found self.new.gate.found) }
        ensures some { IfOk result (λ link. 0 < length link.link.dialled) }
        ensures by { OpensBy L.gives endpoint.now (λ link. addresses_of link.link) self.old self.new result }
        ensures room { self.new.room ≡ self.old.room }
        ensures noted { self.new.said ≡ self.old.said ++ opened endpoint.now (numbered (λ link. link.link.token) result) ∷ [] }
    {
        let answer = self.begin(endpoint);
        let number = number_of(&answer);
        self.said.note(Said::opened_under(endpoint, number));
        answer
    }

    /// As the gate within says.
    fn lacks_files(&mut self) -> bool
        ensures moment { self.new.gate.latest ≡ self.old.gate.latest }
        ensures within { self.new.gate.said ≡ self.old.gate.said ++ lacked result ∷ [] }
        ensures others { self.new ≡ record self.old { gate = self.new.gate; said = self.new.said } }
        ensures noted { self.new.said ≡ self.old.said ++ lacked result ∷ [] }
    {
        let lacks = self.gate.lacks_files();
        self.said.note(Said::lacked(lacks));
        lacks
    }

    /// As the turn of the gate within. Before it the hosts are forgotten on which the resolver has answered: a host without addresses that
    /// is asked for from then on is to be looked up again. No clause says what is forgotten, but that the answer that is kept isn't.
    fn turn(&mut self, wait_ms: u32) -> Turn
        ensures moment { self.new.gate.latest ≡ self.old.gate.latest }
        ensures within { self.new.gate.said ≡ self.old.gate.said ++ waited wait_ms (is_stop result) ∷ [] }
        ensures others { self.new ≡ record self.old { gate = self.new.gate; said = self.new.said } }
        ensures noted { self.new.said ≡ self.old.said ++ waited wait_ms (is_stop result) ∷ [] }
    {
        self.waiting.forget_told();
        let turn = self.gate.turn(wait_ms);
        self.said.note(Said::waited(wait_ms, turn));
        turn
    }
}
