//! A transfer as a future.
ghost use Rattle.std.specs.Prelude.{◌≡◌, ◌≢◌, ◌≤◌, ◌↔◌, ◌⊎◌, ◌++◌, ℕ, List, None, Some, true, false, IsSome, IfSome, [], is_some, option_map, option_copied};
ghost use Rattle.mx_types.specs.Code.{is_link_code};
ghost use Rattle.mx_line.specs.Endings.{IsUndecided};
ghost use Rattle.mx_exchange.specs.Exchanges.{WantsLink, IsDue, IsExchange, KeepsToken, attached, clocked};
ghost use Rattle.mx_chain.specs.Chains.{IsChain, begun, begun_with_heads, received_of, home_of};
ghost use Rattle.mx_transfer_core.specs.Deliveries.{begun_for, MakesRoom};
ghost use Rattle.mx_transfer.specs.Transfers.{TransferState};

use futures::Future;
use futures::task::{Context, Poll, Source, Waker};
use mx_chain::{Outcome, Want};
use mx_link::Link;
use mx_request::{Endpoint, Request};
use mx_sink::{Delivery, Held};
use mx_transfer_core::{Polled, TransferCore};
use mx_types::{Code, Work};
use std::alloc::Global;
use std::marker::Model;

/// A transfer, and what it waits for: its link and its deadline.
pub struct Transfer<L: Link, D: Delivery = Held> {
    core: TransferCore<L, D>,
    link_source: Source,
    time_source: Source,
    // Of the task that polls it, for both sources.
    waker: Option<Waker>,
}

// Written out, and not derived: a crate that drops transfers then cites the proof of this function, and proves none for each part of one.
impl<L: Link, D: Delivery> Drop for Transfer<L, D> {
    fn drop(self) {
        let Transfer {
            core,
            link_source: _,
            time_source: _,
            waker,
        } = self;
        drop(core);
        drop(waker);
    }
}

impl<L: Link, D: Delivery> Model for Transfer<L, D> {
    ghost use Rattle.mx_transfer.specs.Transfers.{TransferState};

    ghost Value = { TransferState L };

    ghost view = { λ t. record {
      chain = t.core;
      link_source = t.link_source.id;
      time_source = t.time_source.id;
      waker = t.waker;
    } };
}

impl<L: Link, D: Delivery> Work for Transfer<L, D> {
    ghost use Rattle.mx_request.specs.Request.{request_origin};

    ghost origin = { λ t. request_origin t.chain.request };
}

impl<L: Link> Transfer<L, Held> {
    /// A transfer of the request, whose responses are held, and which keeps all bytes of the hops that it follows. It takes no memory; what
    /// its polls grow comes from `alloc`.
    pub fn new(alloc: Global, request: Request) -> Transfer<L, Held>
        ensures chain { result.chain ≡ begun request }
        ensures waker { result.waker ≡ None }
    {
        Transfer::of(TransferCore::new(alloc, request))
    }

    /// The same, which keeps of each hop that it follows its heads alone: the body is freed before the next hop begins.
    pub fn keeping_heads(alloc: Global, request: Request) -> Transfer<L, Held>
        ensures chain { result.chain ≡ begun_with_heads request }
        ensures waker { result.waker ≡ None }
    {
        Transfer::of(TransferCore::keeping_heads(alloc, request))
    }
}

impl<L: Link, D: Delivery> Transfer<L, D> {
    ghost use Rattle.futures.specs.Task.{Hears, IsArmed, Keeps};
    ghost use Rattle.futures.specs.Slot.{IsLeftIn};
    ghost use Rattle.futures.specs.declared.task.Poll.TheVariants as Poll;
    ghost use Rattle.mx_chain.specs.Outcomes.{limit_by};

    /// A transfer of the request, which keeps of each hop that it follows its heads alone. Its response is held, or its content is handed to
    /// the delivery, which has none yet, as it comes.
    pub fn delivering(alloc: Global, request: Request, delivery: D) -> Transfer<L, D>
        requires { D.handed delivery ≡ [] }
        ensures chain { result.chain ≡ begun_for (D.flows delivery) request }
        ensures waker { result.waker ≡ None }
    {
        Transfer::of(TransferCore::delivering(alloc, request, delivery))
    }

    // No poll of it has waited.
    fn of(core: TransferCore<L, D>) -> Transfer<L, D>
        ensures chain { result.chain ≡ core }
        ensures waker { result.waker ≡ None }
    {
        Transfer {
            core,
            link_source: Source::new(),
            time_source: Source::new(),
            waker: None,
        }
    }

    /// The request that was handed in, by move, of a transfer that has not ended. Its links and its delivery are dropped.
    pub fn into_request(self) -> Request
        requires { self.chain.code ≡ None }
        ensures { result ≡ self.chain.request }
    {
        let (request, delivery) = self.into_parts();
        drop(delivery);
        request
    }

    /// The request that was handed in, and the delivery, by move, of a transfer that has not ended. Its links are dropped.
    pub fn into_parts(self) -> (Request, D)
        requires { self.chain.code ≡ None }
        ensures request { result.0 ≡ self.chain.request }
        ensures limit { self.chain.now.limit ≡ limit_by (D.flows result.1) }
        ensures handed { (rest : List ℕ) × (self.chain.content ≡ D.handed result.1 ++ rest) }
    {
        let Transfer {
            core,
            link_source: _,
            time_source: _,
            waker,
        } = self;
        drop(waker);
        core.into_parts()
    }

    /// Its delivery, until it has ended. What that was handed is a prefix of the content that was handed on.
    pub fn delivery(&self) -> Option<&D>
        ensures there { self.now.chain.code ≡ None → IsSome result }
        ensures handed { self.now.chain.code ≡ None → IfSome result (λ d. (rest : List ℕ) × (self.now.chain.content ≡ D.handed d.now ++ rest)) }
    {
        self.core.delivery()
    }

    /// Has the delivery pass on what it has left. The answer is whether the transfer may be polled as one that isn't paused: the delivery takes
    /// content now, as it always does where the response is held. Where the delivery has failed the transfer ends with its code at the next
    /// poll, unless its deadline has come by then.
    pub fn make_room(&mut self) -> bool
        requires { self.old.chain.code ≡ None }
        ensures room { MakesRoom self.old.chain self.new.chain result }
        ensures running { self.new.chain.code ≡ None }
        ensures request { self.new.chain.request ≡ self.old.chain.request }
        ensures same { self.new ≡ record self.old { chain = self.new.chain } }
    {
        self.core.make_room()
    }

    /// The link that it wants, where it wants one.
    pub fn wants(&self) -> Option<Want<'_>>
        ensures wants { IsSome result ↔ WantsLink self.now.chain.now }
        ensures which { IfSome result (λ want. (want.fresh ≡ self.now.chain.now.needs_fresh) × (want.endpoint.now ≡ self.now.chain.now.request.endpoint)) }
    {
        self.core.wants()
    }

    /// Hands over a link that serves nothing else. One that was left of a hop before and not taken is dropped.
    pub fn attach(&mut self, link: L, is_reused: bool)
        requires wanted { WantsLink self.old.chain.now }
        requires fresh { self.old.chain.now.needs_fresh ≡ true → is_reused ≡ false }
        ensures { self.new ≡ record self.old { chain = record self.old.chain { now = attached self.old.chain.now link is_reused; linked = true; link = None } } }
    {
        self.core.attach(link, is_reused);
    }

    /// Gives the code that it ends with at its next poll, as no link can be opened.
    pub fn fail_link(&mut self, code: Code)
        requires wanted { WantsLink self.old.chain.now }
        requires code { is_link_code code ≡ true }
        ensures { self.new ≡ record self.old { chain = record self.old.chain { now = record self.old.chain.now { failure = Some code } } } }
    {
        self.core.fail_link(code);
    }

    /// Sets the inputs of the polls until the next call: the moment in milliseconds, and whether it is paused.
    pub fn prepare(&mut self, now: u64, is_paused: bool)
        ensures { self.new ≡ record self.old { chain = record self.old.chain { now = record self.old.chain.now { moment = now; is_paused = is_paused } } } }
    {
        self.core.prepare(now, is_paused);
    }

    /// Whether a link was attached once.
    pub fn started(&self) -> bool
        ensures { result ≡ self.now.chain.now.is_started }
    {
        self.core.started()
    }

    /// The moment at which it ends unless it has ended before, all its hops together.
    pub fn deadline(&self) -> Option<u64>
        ensures { result ≡ self.now.chain.now.deadline }
    {
        self.core.deadline()
    }

    /// How many bytes its links have given, in all hops; the answer is at most 4,294,967,295.
    pub fn received(&self) -> u32
        ensures { result ≡ received_of self.now.chain }
    {
        self.core.received()
    }

    /// The number under which the readiness of its link is reported.
    pub fn token(&self) -> Option<u64>
        ensures { result ≡ option_map L.token_of self.now.chain.now.link }
    {
        self.core.token()
    }

    /// Wakes the task whose poll waits: its link may have become ready, or its deadline may have come. Nothing happens where no
    /// poll waits.
    pub fn wake(&mut self)
        ensures { self.new ≡ record self.old { waker = None } }
    {
        if let Some(waker) = self.waker.take() {
            waker.wake();
        }
    }

    /// Whether it has ended.
    pub fn spent(&self) -> bool
        ensures { result ≡ is_some self.now.chain.code }
    {
        self.core.spent()
    }

    /// The code that it ended with.
    pub fn code(&self) -> Option<Code>
        ensures { result ≡ self.now.chain.code }
    {
        self.core.code()
    }

    /// A link that served a hop which has ended, and may serve again; `None` where it was taken before, or another was attached.
    pub fn take_link(&mut self) -> Option<L>
        ensures link { result ≡ self.old.chain.link }
        ensures rest { self.new ≡ record self.old { chain = record self.old.chain { link = None } } }
    {
        self.core.take_link()
    }

    /// Where the link goes that was attached last. After the end it is given where that link may serve again.
    pub fn link_endpoint(&self) -> Option<&Endpoint>
        ensures { option_copied result ≡ home_of self.now.chain }
    {
        self.core.link_endpoint()
    }

    // Registers with the deadline, where it has one.
    fn hear_deadline(&mut self, cx: &mut Context<'_>)
        ensures same { self.new ≡ record self.old { waker = self.new.waker } }
        ensures time { IsSome self.new.chain.now.deadline → Hears cx.new self.new.time_source }
        ensures kept { Keeps cx.old cx.new }
    {
        if self.core.deadline().is_some() {
            let _waiting: Poll<()> = cx.register(&self.time_source, &mut self.waker);
        }
    }

    // Registers with what the transfer waits for: its deadline, and its link. One waker is left, for both.
    fn wait(&mut self, cx: &mut Context<'_>) -> Poll<Outcome<D>>
        ensures pending { result ≡ Poll.Pending }
        ensures same { self.new ≡ record self.old { waker = self.new.waker } }
        ensures armed { IsArmed cx.new }
        ensures link { Hears cx.new self.new.link_source }
        ensures time { IsSome self.new.chain.now.deadline → Hears cx.new self.new.time_source }
        ensures kept { Keeps cx.old cx.new }
        ensures left { IsLeftIn cx.old cx.new self.new.waker }
    {
        self.hear_deadline(cx);
        cx.register(&self.link_source, &mut self.waker)
    }
}

impl<L: Link, D: Delivery> Future for Transfer<L, D> {
    type Output = Outcome<D>;

    ghost use Rattle.std.specs.Prelude.{◌≡◌, ◌≢◌, ◌≤◌, ◌⊎◌, ℕ, None, Some, IsSome};
    ghost use Rattle.futures.specs.Task.{Covers, Keeps};
    ghost use Rattle.futures.specs.Poll.{IfReady, OnPending};
    ghost use Rattle.mx_types.specs.declared.code.Code.TheVariants as Code;
    ghost use Rattle.mx_chain.specs.Chains.{bytes_in};
    ghost use Rattle.mx_chain.specs.Outcomes.{hops_of};
    ghost use Rattle.mx_transfer.specs.Transfers.{PollSo};

    ghost can_poll = { λ t. t.chain.code ≡ None };

    ghost needs = { λ t s. (s ≡ t.link_source) ⊎ (IsSome t.chain.now.deadline × (s ≡ t.time_source)) };

    ghost gives = { λ t outcome. outcome.request ≡ t.chain.request };

    /// Takes one turn. The delivery, if it has room then, is handed what the turn and those before it have handed on. The code of what the
    /// transfer ended with is that of its chain; where that is 0 and the delivery has failed, it is the failure's.
    fn poll(&mut self, cx: &mut Context<'_>) -> Poll<Outcome<D>>
        requires { self.old.chain.code ≡ None }
        ensures value { IfReady result (λ outcome. outcome.request ≡ self.old.chain.request) }
        ensures again { OnPending result (self.new.chain.code ≡ None) }
        ensures same { OnPending result (self.new.chain.request ≡ self.old.chain.request) }
        ensures registered { OnPending result (Covers cx.new (λ s. (s ≡ self.new.link_source) ⊎ (IsSome self.new.chain.now.deadline × (s ≡ self.new.time_source)))) }
        ensures kept { Keeps cx.old cx.new }
        ensures turn { PollSo L.history self.old self.new result cx.old cx.new }
        // 28 comes where the deadline is due, and only there
        ensures late { IfReady result (λ outcome. (outcome.code ≡ Code.OperationTimedout) ↔ IsDue (clocked self.old.chain.now).deadline self.old.chain.now.moment) }
        ensures ended { IfReady result (λ outcome. IsSome self.new.chain.code) }
        // a link that is left has an endpoint
        ensures home { IfReady result (λ outcome. self.new.chain.link ≢ None → IsSome self.new.chain.home) }
        ensures received { IfReady result (λ outcome. received_of self.new.chain ≡ bytes_in (hops_of outcome)) }
        // the count of bytes never falls
        ensures counted { received_of self.old.chain ≤ received_of self.new.chain }
        ensures token { KeepsToken L.token_of self.old.chain.now.link self.new.chain.now.link }
        ensures known { IsChain self.new.chain }
        ensures hop { IsExchange L.history L.asked L.token_of self.new.chain.now }
        ensures undecided { OnPending result (IsUndecided self.new.chain.now.limit self.new.chain.now.request.method self.new.chain.now.answers) }
    {
        match self.core.poll() {
            Polled::Ended(outcome) => Poll::Ready(outcome),
            Polled::Asks => cx.yield_now(),
            Polled::Waits => self.wait(cx),
        }
    }
}
