//! A worker's idle links, and how a transfer gets one.
ghost use Rattle.std.specs.Prelude.{◌≡◌, [], true, false, IfOk, IfErr, IfSome, MatchOption, MatchResult};
ghost use Rattle.mx_types.specs.Code.{is_link_code};
ghost use Rattle.mx_exchange.specs.Exchanges.{WantsLink};
ghost use Rattle.mx_turn.specs.Turn.{Keeps, served_by, unserved, unlinked};
ghost use Rattle.mx_turn.specs.Supplies.{Supplies, HasNoIdle, IsPutOff, Opens, Relieves, TakesIdle};

use crate::idle::IdleCache;
use mx_gate::Gate;
use mx_link::Link;
use mx_request::Endpoint;
use mx_sink::Delivery;
use mx_transfer_core::TransferCore;
use mx_types::{Code, OutOfMemory};
use std::alloc::Global;
use std::marker::Model;

/// A worker's idle links, each with the endpoint that it goes to, and the limit of their number. Contracts see them as a cache's, the
/// oldest first.
pub struct Links<L: Link> {
    alloc: Global,
    idle: IdleCache<L>,
}

// Written out, and not derived: a crate that drops links cites its proof.
impl<L: Link> Drop for Links<L> {
    fn drop(self) {
        let Links { alloc: _, idle } = self;
        drop(idle);
    }
}

impl<L: Link> Model for Links<L> {
    ghost use Rattle.mx_turn.specs.Idle.{Idle};

    ghost Value = { Idle L };

    ghost view = { λ l. l.idle };
}

// Hands the transfer what was opened for it: a link, as one that was never in use, or the code of why there is none.
fn give<L: Link, D: Delivery>(transfer: &mut TransferCore<L, D>, opened: Result<L, Code>)
    requires wanted { WantsLink transfer.old.now }
    requires code { IfErr opened (λ code. is_link_code code ≡ true) }
    ensures given { MatchResult opened (λ link. transfer.new ≡ served_by transfer.old link false) (λ code. transfer.new ≡ unserved transfer.old code) }
{
    match opened {
        Ok(link) => transfer.attach(link, false),
        Err(code) => transfer.fail_link(code),
    }
}

impl<L: Link> Links<L> {
    /// No idle link yet, and room for as many as the limit. Returns `OutOfMemory` where memory for these is refused.
    pub fn new(alloc: Global, limit: u8) -> Result<Links<L>, OutOfMemory>
        ensures { IfOk result (λ links. links ≡ record { links = []; limit = limit }) }
    {
        Ok(Links {
            alloc,
            idle: IdleCache::with_limit(alloc, usize::from(limit))?,
        })
    }

    // rule turn-links
    // The newest idle link of the endpoint, unless only a fresh one will do.
    fn take(&mut self, endpoint: &Endpoint, fresh: bool) -> Option<L>
        ensures { MatchOption result (HasNoIdle endpoint.now fresh self.old self.new) (λ link. TakesIdle endpoint.now fresh self.old link self.new) }
    {
        if fresh {
            return None;
        }
        let Some(link) = self.idle.take(endpoint) else {
            return None;
        };
        Some(link)
    }

    // rule turn-files
    // A link that the gate opens to the endpoint. Where that fails since too many files are open, all idle links are dropped, and it is
    // opened once more, unless the gate says that none can be opened yet.
    fn open<G: Gate<Link = L>>(
        &mut self,
        gate: &mut G,
        endpoint: &Endpoint,
    ) -> Option<Result<L, Code>>
        ensures fresh { IfSome result (λ r. IfOk r (λ link. L.history link ≡ [])) }
        ensures code { IfSome result (λ r. IfErr r (λ code. is_link_code code ≡ true)) }
        ensures opens { MatchOption result (IsPutOff endpoint.now self.old self.new (G.said gate.old) (G.said gate.new)) (λ r. Opens L.token_of endpoint.now self.old self.new (G.said gate.old) (G.said gate.new) r) }
    {
        match gate.open(endpoint) {
            Ok(link) => Some(Ok(link)),
            Err(code) => {
                if !gate.lacks_files() {
                    return Some(Err(code));
                }
                self.idle.clear();
                if !gate.can_open(endpoint) {
                    return None;
                }
                Some(gate.open(endpoint))
            }
        }
    }

    // rule turn-files
    /// Asks the gate whether too many files are open, and drops all idle links where they are.
    pub fn relieve<G: Gate<Link = L>>(&mut self, gate: &mut G)
        ensures { Relieves self.old self.new (G.said gate.old) (G.said gate.new) }
    {
        if gate.lacks_files() {
            self.idle.clear();
        }
    }

    // rule turn-links
    /// Hands a link to the transfer where it wants one: the newest idle one of its endpoint, unless only a fresh one will do, else one that
    /// the gate opens. Where too many files are open for that, all idle links are dropped, and the gate opens it once more, where it says
    /// that it can. Where it fails, the transfer gets the code of why. The answer is whether the gate says that none can be opened yet: then
    /// it is given none.
    pub fn supply<G: Gate<Link = L>, D: Delivery>(
        &mut self,
        gate: &mut G,
        transfer: &mut TransferCore<L, D>,
    ) -> bool
        ensures supplied { Supplies L.history L.token_of transfer.old transfer.new self.old self.new (G.said gate.old) (G.said gate.new) result }
        ensures request { transfer.new.request ≡ transfer.old.request }
        ensures code { transfer.new.code ≡ transfer.old.code }
        ensures limit { self.new.limit ≡ self.old.limit }
    {
        let Some(want) = transfer.wants() else {
            return false;
        };
        if let Some(link) = self.take(want.endpoint, want.fresh) {
            transfer.attach(link, true);
            return false;
        }
        if !gate.can_open(want.endpoint) {
            return true;
        }
        let Some(opened) = self.open(gate, want.endpoint) else {
            return true;
        };
        give(transfer, opened);
        false
    }

    // rule redirect-idle-link
    /// Keeps the link that a hop of the transfer has left, where it may serve again. It is dropped where memory for a copy of its endpoint
    /// is refused; no clause says that it is dropped there alone.
    pub fn keep<D: Delivery>(&mut self, transfer: &mut TransferCore<L, D>)
        ensures kept { Keeps transfer.old self.old self.new }
        ensures rest { transfer.new ≡ unlinked transfer.old }
        ensures limit { self.new.limit ≡ self.old.limit }
    {
        let Some(link) = transfer.take_link() else {
            return;
        };
        let Some(endpoint) = transfer.link_endpoint() else {
            return;
        };
        if let Ok(endpoint) = endpoint.copy(self.alloc) {
            drop(self.idle.put(endpoint, link));
        }
    }
}
