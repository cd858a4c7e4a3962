//! A transfer, poll by poll.
ghost use Rattle.std.specs.Prelude.{◌≡◌, ◌≢◌, ◌≤◌, ◌↔◌, ◌++◌, ℕ, List, [], None, Some, true, false, IsSome, IfSome, is_some, option_map, option_copied};
ghost use Rattle.mx_types.specs.Code.{is_link_code};
ghost use Rattle.mx_line.specs.Endings.{IsUndecided};
ghost use Rattle.mx_exchange.specs.Exchanges.{WantsLink, IsDue, IsExchange, KeepsToken, attached, clocked};
ghost use Rattle.mx_chain.specs.Chains.{IsChain, begun, begun_with_heads, received_of, home_of};

use crate::handing::{end_of, hand_on};
use crate::polled::Polled;
use mx_chain::{Chain, ReadBuffer, Stepped, Want};
use mx_link::Link;
use mx_request::{Endpoint, Request};
use mx_sink::{Delivery, Held, Window};
use mx_types::{Code, Work};
use std::alloc::Global;
use std::marker::Model;
use std::mem;

/// A request, its hops, and what becomes of the content of its response. Contracts see its chain.
pub struct TransferCore<L: Link, D: Delivery = Held> {
    alloc: Global,
    chain: Chain<L>,
    // There until it has ended.
    delivery: Option<D>,
    // The content that came since the delivery last had room, in order.
    rest: Window,
}

// Written out, and not derived: a crate that drops transfers then cites the proof of this function, and proves none for each part of one.
impl<L: Link, D: Delivery> Drop for TransferCore<L, D> {
    fn drop(self) {
        let TransferCore {
            alloc: _,
            chain,
            delivery,
            rest,
        } = self;
        drop(chain);
        drop(delivery);
        drop(rest);
    }
}

impl<L: Link, D: Delivery> Model for TransferCore<L, D> {
    ghost use Rattle.mx_transfer_core.specs.Deliveries.{IsDelivering};
    ghost use Rattle.mx_chain.specs.Chains.{ChainState};

    ghost Value = { ChainState L };

    ghost view = { λ t. t.chain };

    ghost invariant = { λ t. IsDelivering D.flows D.handed t.chain t.delivery t.rest.items };
}

impl<L: Link, D: Delivery> Work for TransferCore<L, D> {
    ghost use Rattle.mx_request.specs.Request.{request_origin};

    ghost origin = { λ t. request_origin t.request };
}

impl<L: Link> TransferCore<L, Held> {
    /// A transfer of the request, whose responses are held, and which keeps all bytes of the hops that it follows. It takes no memory; what
    /// its polls grow comes from `alloc`.
    pub fn new(alloc: Global, request: Request) -> TransferCore<L, Held>
        ensures { result ≡ begun request }
    {
        TransferCore::of(alloc, Chain::new(alloc, request), Held)
    }

    /// The same, which keeps of each hop that it follows its heads alone: the body is freed before the next hop begins.
    pub fn keeping_heads(alloc: Global, request: Request) -> TransferCore<L, Held>
        ensures { result ≡ begun_with_heads request }
    {
        TransferCore::of(alloc, Chain::keeping_heads(alloc, request), Held)
    }
}

impl<L: Link, D: Delivery> TransferCore<L, D> {
    ghost use Rattle.mx_types.specs.declared.code.Code.TheVariants as Code;
    ghost use Rattle.mx_chain.specs.Chains.{bytes_in};
    ghost use Rattle.mx_chain.specs.Outcomes.{hops_of, limit_by};
    ghost use Rattle.mx_transfer_core.specs.Deliveries.{begun_for, MakesRoom};
    ghost use Rattle.mx_transfer_core.specs.Cores.{how_of, IfEnded, IfGoing, IsPolled};

    /// A transfer of the request, which keeps of each hop that it follows its heads alone. Its response is held, or its content is handed to
    /// the delivery, which has none yet, as it comes.
    pub fn delivering(alloc: Global, request: Request, delivery: D) -> TransferCore<L, D>
        requires { D.handed delivery ≡ [] }
        ensures { result ≡ begun_for (D.flows delivery) request }
    {
        let chain = match delivery.most_bytes() {
            None => Chain::keeping_heads(alloc, request),
            Some(most_bytes) => Chain::flowing(alloc, request, most_bytes),
        };
        TransferCore::of(alloc, chain, delivery)
    }

    fn of(alloc: Global, chain: Chain<L>, delivery: D) -> TransferCore<L, D>
        requires limit { chain.now.limit ≡ limit_by (D.flows delivery) }
        requires content { chain.content ≡ [] }
        requires none { D.handed delivery ≡ [] }
        ensures { result ≡ chain }
    {
        TransferCore {
            alloc,
            chain,
            delivery: Some(delivery),
            rest: Window::new(alloc),
        }
    }

    /// The request that was handed in, by move, of a transfer that has not ended. Its links and its delivery are dropped.
    pub fn into_request(self) -> Request
        requires { self.code ≡ None }
        ensures { result ≡ self.request }
    {
        let (request, delivery) = self.into_parts();
        drop(delivery);
        request
    }

    /// The request that was handed in, and the delivery, by move, of a transfer that has not ended. Its links are dropped.
    pub fn into_parts(self) -> (Request, D)
        requires { self.code ≡ None }
        ensures request { result.0 ≡ self.request }
        ensures limit { self.now.limit ≡ limit_by (D.flows result.1) }
        ensures handed { (rest : List ℕ) × (self.content ≡ D.handed result.1 ++ rest) }
    {
        let TransferCore {
            alloc: _,
            chain,
            delivery,
            rest,
        } = self;
        drop(rest);
        match delivery {
            Some(delivery) => (chain.into_request(), delivery),
            None => unreachable!(),
        }
    }

    /// Its delivery, until it has ended. What that was handed is a prefix of the content that was handed on.
    pub fn delivery(&self) -> Option<&D>
        ensures there { self.now.code ≡ None → IsSome result }
        ensures handed { self.now.code ≡ None → IfSome result (λ d. (rest : List ℕ) × (self.now.content ≡ D.handed d.now ++ rest)) }
    {
        self.delivery.as_ref()
    }

    /// Has the delivery pass on what it has left. The answer is whether the transfer may be polled as one that isn't paused: the delivery takes
    /// content now, as it always does where the response is held. Where the delivery has failed the transfer ends with its code at the next
    /// poll, unless its deadline has come by then.
    pub fn make_room(&mut self) -> bool
        requires { self.old.code ≡ None }
        ensures room { MakesRoom self.old self.new result }
        ensures running { self.new.code ≡ None }
        ensures request { self.new.request ≡ self.old.request }
    {
        let Some(delivery) = &mut self.delivery else {
            unreachable!()
        };
        let has_room = delivery.make_room();
        if has_room {
            return true;
        }
        if let Some(code) = delivery.fault() {
            self.chain.fail(code);
        }
        false
    }

    /// Gives the memory of the content, and takes this one in its place, as who lends one does before a poll and after it. Both are empty.
    /// Where the delivery had no room for content that came, it stays.
    pub fn swap_window(&mut self, other: &mut Window)
        requires { other.old.items ≡ [] }
        ensures same { self.new ≡ self.old }
        ensures empty { other.new.items ≡ [] }
    {
        if self.rest.is_empty() {
            mem::swap(&mut self.rest, other);
        }
    }

    /// The link that it wants, where it wants one.
    pub fn wants(&self) -> Option<Want<'_>>
        ensures wants { IsSome result ↔ WantsLink self.now.now }
        ensures which { IfSome result (λ want. (want.fresh ≡ self.now.now.needs_fresh) × (want.endpoint.now ≡ self.now.now.request.endpoint)) }
    {
        self.chain.wants()
    }

    /// Hands over a link that serves nothing else. One that was left of a hop before and not taken is dropped.
    pub fn attach(&mut self, link: L, is_reused: bool)
        requires wanted { WantsLink self.old.now }
        requires fresh { self.old.now.needs_fresh ≡ true → is_reused ≡ false }
        ensures { self.new ≡ record self.old { now = attached self.old.now link is_reused; linked = true; link = None } }
    {
        self.chain.attach(link, is_reused);
    }

    /// Gives the code that it ends with at its next poll, as no link can be opened.
    pub fn fail_link(&mut self, code: Code)
        requires wanted { WantsLink self.old.now }
        requires code { is_link_code code ≡ true }
        ensures { self.new ≡ record self.old { now = record self.old.now { failure = Some code } } }
    {
        self.chain.fail_link(code);
    }

    /// Gives the buffer of its reads, and takes this one in its place, as who lends one does before a poll and after it.
    pub fn swap_buffer(&mut self, other: &mut ReadBuffer)
        ensures { self.new ≡ self.old }
    {
        self.chain.swap_buffer(other);
    }

    /// Sets the inputs of the polls until the next call: the moment in milliseconds, and whether it is paused.
    pub fn prepare(&mut self, now: u64, is_paused: bool)
        ensures { self.new ≡ record self.old { now = record self.old.now { moment = now; is_paused = is_paused } } }
    {
        self.chain.prepare(now, is_paused);
    }

    /// Whether a link was attached once.
    pub fn started(&self) -> bool
        ensures { result ≡ self.now.now.is_started }
    {
        self.chain.started()
    }

    /// The moment at which it ends unless it has ended before, all its hops together.
    pub fn deadline(&self) -> Option<u64>
        ensures { result ≡ self.now.now.deadline }
    {
        self.chain.deadline()
    }

    /// How many bytes its links have given, in all hops; the answer is at most 4,294,967,295.
    pub fn received(&self) -> u32
        ensures { result ≡ received_of self.now }
    {
        self.chain.received()
    }

    /// The number under which the readiness of its link is reported.
    pub fn token(&self) -> Option<u64>
        ensures { result ≡ option_map L.token_of self.now.now.link }
    {
        self.chain.token()
    }

    /// What holds of every transfer. It does nothing: a call gives its caller's proof the law.
    pub fn know(&self)
        ensures chain { IsChain self.now }
        ensures hop { IsExchange L.history L.asked L.token_of self.now.now }
    {
        // proof: what holds of a chain
        self.chain.know();
    }

    /// Whether it has ended.
    pub fn spent(&self) -> bool
        ensures { result ≡ is_some self.now.code }
    {
        self.chain.spent()
    }

    /// The code that it ended with.
    pub fn code(&self) -> Option<Code>
        ensures { result ≡ self.now.code }
    {
        self.chain.code()
    }

    /// A link that served a hop which has ended, and may serve again; `None` where it was taken before, or another was attached.
    pub fn take_link(&mut self) -> Option<L>
        ensures link { result ≡ self.old.link }
        ensures rest { self.new ≡ record self.old { link = None } }
    {
        self.chain.take_link()
    }

    /// Where the link goes that was attached last. After the end it is given where that link may serve again.
    pub fn link_endpoint(&self) -> Option<&Endpoint>
        ensures { option_copied result ≡ home_of self.now }
    {
        self.chain.link_endpoint()
    }

    /// Takes one turn. The delivery, if it has room then, is handed what the turn and those before it have handed on. The code of what the
    /// transfer ended with is that of its chain; where that is 0 and the delivery has failed, it is the failure's.
    pub fn poll(&mut self) -> Polled<D>
        requires { self.old.code ≡ None }
        ensures turn { IsPolled L.history self.old self.new (how_of result) }
        ensures value { IfEnded result (λ outcome. outcome.request ≡ self.old.request) }
        ensures again { IfGoing result (self.new.code ≡ None) }
        ensures same { IfGoing result (self.new.request ≡ self.old.request) }
        // 28 comes where the deadline is due, and only there
        ensures late { IfEnded result (λ outcome. (outcome.code ≡ Code.OperationTimedout) ↔ IsDue (clocked self.old.now).deadline self.old.now.moment) }
        ensures ended { IfEnded result (λ outcome. IsSome self.new.code) }
        // a link that is left has an endpoint
        ensures home { IfEnded result (λ outcome. self.new.link ≢ None → IsSome self.new.home) }
        ensures received { IfEnded result (λ outcome. received_of self.new ≡ bytes_in (hops_of outcome)) }
        // the count of bytes never falls
        ensures counted { received_of self.old ≤ received_of self.new }
        ensures token { KeepsToken L.token_of self.old.now.link self.new.now.link }
        ensures known { IsChain self.new }
        ensures hop { IsExchange L.history L.asked L.token_of self.new.now }
        ensures undecided { IfGoing result (IsUndecided self.new.now.limit self.new.now.request.method self.new.now.answers) }
    {
        let stepped = self.chain.turn(&mut self.rest);
        let Some(delivery) = &mut self.delivery else {
            unreachable!()
        };
        hand_on(delivery, &mut self.rest);
        match stepped {
            Stepped::Waits => Polled::Waits,
            Stepped::Asks => Polled::Asks,
            Stepped::Ended(end) => {
                Polled::Ended(end_of(self.alloc, end, self.delivery.take(), &mut self.rest))
            }
        }
    }
}
