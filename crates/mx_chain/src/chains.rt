//! A transfer with its hops.
ghost use Rattle.std.specs.Prelude.{◌≡◌, ◌≢◌, ◌≤◌, ◌<◌, ◌↔◌, ◌⊎◌, ◌==◌, not, ◌&&◌, [], ℕ, Bool, true, false, None, Some, Ok, Err, IsSome, IfSome, IsTrue, MatchResult, is_some, option_map, option_copied, length};
ghost use Rattle.mx_request.specs.declared.error.RequestError.TheVariants as refusal;
ghost use Rattle.mx_line.specs.Lines.{HandsOver};
ghost use Rattle.mx_exchange.specs.Exchanges.{ExchangeState, WantsLink, IsDue, IsExchange, KeepsToken, TellsSending, attached, capped, clocked, renewed};
ghost use Rattle.mx_exchange.specs.Exchanges as exchanges;
ghost use Rattle.mx_exchange.specs.Turns as hop_turn;
ghost use Rattle.mx_flow.specs.Streams.{limit_of};
ghost use Rattle.mx_types.specs.Code.{is_link_code};
ghost use Rattle.mx_line.specs.Endings.{IsUndecided, is_given_code};
ghost use Rattle.mx_chain.specs.Hops.{is_redirect, next_of, LeadTo, EndsWith};
ghost use Rattle.mx_chain.specs.Passing.{SettlesContent};
ghost use Rattle.mx_chain.specs.Chains.{ChainState, IsChain, begun, begun_with_heads, begun_flowing, bytes_in, received_of, home_by, home_of, released, left_of};

use crate::ends::ChainEnd;
use crate::followed::Hops;
use crate::outcomes::is_ok;
use mx_exchange::{Exchange, Hop, ReadBuffer, Turned, Want};
use mx_link::Link;
use mx_request::{Endpoint, Request, RequestError, is_redirect};
use mx_sink::Window;
use mx_types::Code;
use std::alloc::Global;
use std::marker::Model;
use std::snapshot::Snapshot;

/// The result of a turn.
#[derive(Drop)]
pub enum Stepped {
    /// It waits: for a link, for the one that it has, or for its deadline.
    Waits,
    /// It asks for another turn at once.
    Asks,
    /// It has ended.
    Ended(ChainEnd),
}

/// A request, and its hops: one exchange after another, as redirects lead on.
pub struct Chain<L: Link> {
    alloc: Global,
    about: Snapshot<Request>,
    most: u8,
    hops: Hops,
    exchange: Exchange<L>,
    code: Option<Code>,
    // The bytes of the hops that were followed.
    earlier: u32,
    // What the hop under way hands on is dropped, as its final head sends its request on.
    drops: bool,
    // The link of a hop that has ended, until it is taken or another is attached.
    idle: Option<L>,
    // A link was attached in this hop.
    is_linked: bool,
    // Where the link goes that was attached last, once the transfer has ended.
    home: Option<Endpoint>,
}

// Written out, and not derived: a crate that drops a chain cites its proof.
impl<L: Link> Drop for Chain<L> {
    fn drop(self) {
        let Chain {
            alloc: _,
            about,
            most: _,
            hops,
            exchange,
            code: _,
            earlier: _,
            drops: _,
            idle,
            is_linked: _,
            home,
        } = self;
        drop(about);
        drop(hops);
        drop(exchange);
        drop(idle);
        drop(home);
    }
}

// A copy of an endpoint, where there is one and memory isn't refused.
fn copy_of(alloc: Global, endpoint: Option<&Endpoint>) -> Option<Endpoint>
    ensures { IfSome result (λ copy. option_copied endpoint.entry ≡ Some copy) }
{
    match endpoint {
        Some(endpoint) => endpoint.copy(alloc).ok(),
        None => None,
    }
}

// Whether a final head has come that sends its request on, after a turn.
fn sends_on<L: Link>(exchange: &Exchange<L>, turned: &Turned) -> bool
    requires { hop_turn.IfGoing turned.now (exchange.now.code ≡ None) }
    ensures { TellsSending (hop_turn.wire_by exchange.now (hop_turn.how_of turned.now)) result }
{
    match turned {
        Turned::Waits => exchange.sends_on(),
        Turned::Asks => exchange.sends_on(),
        Turned::Ended(hop) => {
            // proof: what holds of a hop
            hop.know();
            hop.sends_on()
        }
    }
}

// rule redirect-content
// Whether what the hop hands on is dropped, after a turn that has left so many bytes of content where there were `before`.
fn drops_by<L: Link>(
    most: u8,
    dropped: bool,
    exchange: &Exchange<L>,
    turned: &Turned,
    before: usize,
    len: usize,
) -> bool
    requires { hop_turn.IfGoing turned.now (exchange.now.code ≡ None) }
    ensures none { len ≤ before → result ≡ dropped }
    ensures some { before < len → (sends : Bool) × TellsSending (hop_turn.wire_by exchange.now (hop_turn.how_of turned.now)) sends × (result ≡ (not (most == 0) && sends)) }
{
    if len <= before {
        return dropped;
    }
    let sends = sends_on(exchange, turned);
    most != 0 && sends
}

// Takes what a turn has added behind so many bytes out again, where it is dropped. The answer is whether it is.
fn settle_content<L: Link>(
    most: u8,
    dropped: bool,
    exchange: &Exchange<L>,
    turned: &Turned,
    before: usize,
    out: &mut Window,
) -> bool
    requires { hop_turn.IfGoing turned.now (exchange.now.code ≡ None) }
    ensures { SettlesContent most dropped (hop_turn.wire_by exchange.now (hop_turn.how_of turned.now)) before out.old.items out.new.items result }
{
    let drops = drops_by(most, dropped, exchange, turned, before, out.len());
    if drops {
        out.truncate(before);
    }
    drops
}

// The request that follows a hop.
fn next_request(alloc: Global, hop: &Hop) -> Result<Request, RequestError>
    requires { (most : ℕ) × (is_redirect most hop.now ≡ true) }
    ensures { MatchResult result (λ next. next_of hop.now ≡ Ok next) (λ e. (next_of hop.now ≡ Err e) ⊎ (e ≡ refusal.OutOfMemory)) }
{
    match hop.location() {
        Some(location) => hop.request().follow(alloc, hop.status(), location),
        None => unreachable!(),
    }
}

impl<L: Link> Model for Chain<L> {
    ghost use Rattle.std.specs.Prelude.{◌≡◌};
    ghost use Rattle.mx_chain.specs.Chains.{ChainState, IsChain};
    ghost use Rattle.mx_chain.specs.Passing.{passed};

    ghost Value = { ChainState L };

    ghost view = { λ c. record {
      request = c.about.value;
      hops = c.hops.all;
      heads_alone = c.hops.heads_alone;
      now = c.exchange;
      linked = c.is_linked;
      earlier = c.earlier;
      code = c.code;
      link = c.idle;
      home = c.home;
      content = passed c.drops c.exchange.content;
    } };

    ghost invariant = { λ c. record {
      most : c.most ≡ c.about.value.settings.max_redirects;
      chain : IsChain (record {
        request = c.about.value;
        hops = c.hops.all;
        heads_alone = c.hops.heads_alone;
        now = c.exchange;
        linked = c.is_linked;
        earlier = c.earlier;
        code = c.code;
        link = c.idle;
        home = c.home;
        content = passed c.drops c.exchange.content;
      });
    } };
}

impl<L: Link> Chain<L> {
    ghost use Rattle.mx_chain.specs.Going.{IsFollowed, Decides, GoesOnTo};
    ghost use Rattle.mx_chain.specs.Steps.{how_of, content_by, IfEnded, IfGoing, Steps, SettlesHome};
    ghost use Rattle.mx_chain.specs.Outcomes.{IsChainEnd, hops_of};
    ghost use Rattle.mx_types.specs.declared.code.Code.TheVariants as code;

    /// A transfer of the request, whose responses are held, and which keeps all bytes of the hops that it follows. It takes no memory; what
    /// its turns grow comes from `alloc`.
    pub fn new(alloc: Global, request: Request) -> Chain<L>
        ensures { result ≡ begun request }
    {
        let about = Snapshot::of(&request);
        let most = request.max_redirects();
        Chain::make(alloc, about, most, Exchange::new(alloc, request), false)
    }

    /// The same, which keeps of each hop that it follows its heads alone: the body is freed before the next hop begins.
    pub fn keeping_heads(alloc: Global, request: Request) -> Chain<L>
        ensures { result ≡ begun_with_heads request }
    {
        let about = Snapshot::of(&request);
        let most = request.max_redirects();
        Chain::make(alloc, about, most, Exchange::new(alloc, request), true)
    }

    /// The same, which hands the content of its response on as it comes, and keeps the heads alone of that, too. The content may have
    /// `most_bytes` bytes, and never more than 9,223,372,036,854,775,807, which is also the limit where there is none.
    pub fn flowing(alloc: Global, request: Request, most_bytes: Option<u64>) -> Chain<L>
        ensures { result ≡ begun_flowing (limit_of most_bytes) request }
    {
        let about = Snapshot::of(&request);
        let most = request.max_redirects();
        Chain::make(
            alloc,
            about,
            most,
            Exchange::flowing(alloc, request, most_bytes),
            true,
        )
    }

    // A transfer of the request of this exchange, and whether it keeps heads alone.
    fn make(
        alloc: Global,
        about: Snapshot<Request>,
        most: u8,
        exchange: Exchange<L>,
        heads_alone: bool,
    ) -> Chain<L>
        requires most { most ≡ about.value.settings.max_redirects }
        requires begun { exchange ≡ exchanges.begun exchange.limit about.value }
        requires kept { heads_alone ≡ false → exchange.limit ≡ None }
        ensures { result ≡ record (begun about.value) { heads_alone = heads_alone; now = exchange } }
    {
        Chain {
            alloc,
            about,
            most,
            hops: Hops::new(alloc, heads_alone),
            exchange,
            code: None,
            earlier: 0,
            drops: false,
            idle: None,
            is_linked: false,
            home: None,
        }
    }

    /// The request that was handed in, by move, of a transfer that has not ended. Its links are dropped.
    pub fn into_request(self) -> Request
        requires { self.code ≡ None }
        ensures { result ≡ self.request }
    {
        let Chain {
            alloc: _,
            about: _,
            most: _,
            hops,
            exchange,
            code: _,
            earlier: _,
            drops: _,
            idle,
            is_linked: _,
            home,
        } = self;
        drop(idle);
        drop(home);
        match hops.into_first() {
            Some(request) => {
                drop(exchange);
                request
            }
            None => exchange.into_request(),
        }
    }

    /// The link that it wants, if any: one to the endpoint of the hop that is under way; of any kind when the hop begins.
    pub fn wants(&self) -> Option<Want<'_>>
        ensures wants { IsSome result ↔ WantsLink self.now.now }
        ensures which { IfSome result (λ want. (want.fresh ≡ self.now.now.needs_fresh) × (want.endpoint.now ≡ self.now.now.request.endpoint)) }
    {
        self.exchange.wants()
    }

    /// Hands over a link that serves nothing else, for the hop that is under way. One that was left of a hop before and not taken is
    /// dropped.
    pub fn attach(&mut self, link: L, is_reused: bool)
        requires wanted { WantsLink self.old.now }
        requires fresh { self.old.now.needs_fresh ≡ true → is_reused ≡ false }
        ensures { self.new ≡ record self.old { now = attached self.old.now link is_reused; linked = true; link = None } }
    {
        // proof: nothing was handed on without a link
        self.exchange.know();
        self.idle = None;
        self.is_linked = true;
        self.exchange.attach(link, is_reused);
    }

    /// Gives the code that it ends with at its next turn, as no link can be opened, unless its deadline has come by then.
    pub fn fail_link(&mut self, code: Code)
        requires wanted { WantsLink self.old.now }
        requires code { is_link_code code ≡ true }
        ensures { self.new ≡ record self.old { now = record self.old.now { failure = Some code } } }
    {
        self.exchange.fail_link(code);
    }

    /// Gives the code that it ends with at its next turn, as what takes the content can't go on, unless its deadline has come by then. Its
    /// link is asked nothing more.
    pub fn fail(&mut self, code: Code)
        requires going { self.old.code ≡ None }
        requires flowing { self.old.now.limit ≢ None }
        requires code { is_given_code code self.old.now.limit ≡ true }
        ensures { self.new ≡ record self.old { now = record self.old.now { failure = Some code } } }
    {
        self.exchange.fail(code);
    }

    /// Gives the buffer of its reads, and takes this one in its place, as who lends one does before a turn and after it.
    pub fn swap_buffer(&mut self, other: &mut ReadBuffer)
        ensures { self.new ≡ self.old }
    {
        self.exchange.swap_buffer(other);
    }

    /// Sets the inputs of the turns until the next call: the moment in milliseconds, and whether it is paused.
    pub fn prepare(&mut self, now: u64, is_paused: bool)
        ensures { self.new ≡ record self.old { now = record self.old.now { moment = now; is_paused = is_paused } } }
    {
        self.exchange.prepare(now, is_paused);
    }

    /// Whether a link was attached once.
    pub fn started(&self) -> bool
        ensures { result ≡ self.now.now.is_started }
    {
        self.exchange.started()
    }

    /// The moment at which it ends unless it has ended before, all its hops together.
    pub fn deadline(&self) -> Option<u64>
        ensures { result ≡ self.now.now.deadline }
    {
        self.exchange.deadline()
    }

    /// How many bytes its links have given, in all hops; the answer is at most 4,294,967,295.
    pub fn received(&self) -> u32
        ensures { result ≡ received_of self.now }
    {
        self.earlier.saturating_add(self.exchange.received())
    }

    /// The number under which the readiness of its link is reported.
    pub fn token(&self) -> Option<u64>
        ensures { result ≡ option_map L.token_of self.now.now.link }
    {
        self.exchange.token()
    }

    /// What holds of every transfer. It does nothing: a call gives its caller's proof the law.
    pub fn know(&self)
        ensures chain { IsChain self.now }
        ensures hop { IsExchange L.history L.asked L.token_of self.now.now }
    {
        // proof: what holds of an exchange
        self.exchange.know();
    }

    /// Whether it has ended.
    pub fn spent(&self) -> bool
        ensures { result ≡ is_some self.now.code }
    {
        self.code.is_some()
    }

    /// The code that it ended with.
    pub fn code(&self) -> Option<Code>
        ensures { result ≡ self.now.code }
    {
        self.code
    }

    /// A link that served a hop which has ended, and may serve again; `None` where it was taken before, or another was attached. It goes
    /// to `link_endpoint`.
    pub fn take_link(&mut self) -> Option<L>
        ensures link { result ≡ self.old.link }
        ensures rest { self.new ≡ record self.old { link = None } }
    {
        self.idle.take()
    }

    // rule redirect-idle-link
    /// Where the link goes that was attached last. After the end it is given where that link may serve again.
    pub fn link_endpoint(&self) -> Option<&Endpoint>
        ensures { option_copied result ≡ home_of self.now }
    {
        if self.code.is_some() {
            return self.home.as_ref();
        }
        if self.is_linked {
            return match self.exchange.request() {
                Some(request) => Some(request.endpoint()),
                None => None,
            };
        }
        match self.hops.last_request() {
            Some(served) => Some(served.endpoint()),
            None => None,
        }
    }

    // Sets the link aside that the hop leaves, where that may serve again.
    fn release(&mut self)
        requires { IsSome self.old.code }
        ensures { self.new ≡ record self.old { now = released self.old.now; link = left_of self.old.link self.old.now } }
    {
        if let Some(link) = self.exchange.take_link() {
            self.idle = Some(link);
        }
    }

    // Where the link goes that is left.
    fn home_of<'a>(&'a self, hop: &'a Hop) -> Option<&'a Endpoint>
        ensures { option_copied result ≡ home_by None self.now.linked hop.now.request self.now.hops None }
    {
        if self.is_linked {
            return Some(hop.request().endpoint());
        }
        match self.hops.last_request() {
            Some(before) => Some(before.endpoint()),
            None => None,
        }
    }

    // Copies the endpoint of the link that is left. Where memory for it is refused, the link is dropped.
    fn settle_home(&mut self, hop: &Hop)
        requires { IsSome self.old.code }
        ensures same { self.new ≡ record self.old { link = self.new.link; home = self.new.home } }
        ensures home { SettlesHome self.old self.old.link hop.now.request self.new }
    {
        self.home = None;
        if self.idle.is_none() {
            return;
        }
        let copy = copy_of(self.alloc, self.home_of(hop));
        if copy.is_none() {
            self.idle = None;
        }
        self.home = copy;
    }

    // Ends with this hop, whose link was set aside.
    fn end(&mut self, hop: Hop, code: Code) -> Stepped
        requires ended { IsSome self.old.code }
        requires unkept { self.old.now.is_kept ≡ false }
        requires leads { LeadTo self.old.request.settings.max_redirects self.old.request self.old.hops hop.request }
        requires cause { EndsWith self.old.request.settings.max_redirects (length self.old.hops) hop code }
        requires kept { self.old.heads_alone ≡ false → hop.limit ≡ None }
        ensures { GoesOnTo self.old hop self.new result }
    {
        // proof: what holds of a hop
        hop.know();
        self.settle_home(&hop);
        self.code = Some(code);
        let hops = self.hops.take(self.alloc);
        Stepped::Ended(ChainEnd::new(hops, hop, code))
    }

    // Begins the hop of the next request, with so many bytes before it.
    fn begin(&mut self, next: Request, earlier: u32)
        requires ended { IsSome self.old.code }
        requires leads { LeadTo self.old.request.settings.max_redirects self.old.request self.old.hops next }
        requires few { length self.old.hops ≤ self.old.request.settings.max_redirects }
        requires bytes { earlier ≡ bytes_in self.old.hops }
        ensures { self.new ≡ record self.old { now = renewed self.old.now next; linked = false; earlier = earlier; code = None; content = [] } }
    {
        self.exchange.renew(next);
        self.earlier = earlier;
        self.drops = false;
        self.is_linked = false;
        self.code = None;
    }

    // Follows the hop, whose link was set aside.
    fn follow(&mut self, hop: Hop, next: Request) -> Stepped
        requires ended { IsSome self.old.code }
        requires unkept { self.old.now.is_kept ≡ false }
        requires leads { LeadTo self.old.request.settings.max_redirects self.old.request self.old.hops hop.request }
        requires follows { IsFollowed self.old.request.settings.max_redirects (length self.old.hops) hop next }
        requires bytes { self.old.earlier ≡ bytes_in self.old.hops }
        requires wire { self.old.now.received ≡ capped (length hop.wire) }
        requires kept { self.old.heads_alone ≡ false → hop.limit ≡ None }
        ensures { GoesOnTo self.old hop self.new result }
    {
        // proof: what holds of a hop
        hop.know();
        let count = self.earlier.saturating_add(self.exchange.received());
        match self.hops.push(hop) {
            Err(refused) => {
                drop(next);
                self.end(refused.value, Code::OutOfMemory)
            }
            Ok(()) => {
                self.begin(next, count);
                Stepped::Asks
            }
        }
    }

    // rule redirect-condition
    // Whether the hop sends its request on.
    fn redirects(&self, hop: &Hop) -> bool
        ensures { result ≡ is_redirect self.now.request.settings.max_redirects hop.now }
    {
        self.most != 0 && is_ok(hop.code()) && is_redirect(hop.status()) && hop.location().is_some()
    }

    // rule redirect-limit
    // Whether as many hops were followed as may be.
    fn is_at_limit(&self) -> bool
        ensures full { IsTrue result → length self.now.hops ≡ self.now.request.settings.max_redirects }
        ensures room { result ≡ false → length self.now.hops < self.now.request.settings.max_redirects }
    {
        self.hops.len() >= usize::from(self.most)
    }

    // The request that follows the hop, or the code that the transfer ends with.
    fn decide(&self, hop: &Hop) -> Result<Request, Code>
        ensures { Decides self.now.request.settings.max_redirects (length self.now.hops) hop.now result }
    {
        if !self.redirects(hop) {
            return Err(hop.code());
        }
        if self.is_at_limit() {
            return Err(Code::TooManyRedirects);
        }
        match next_request(self.alloc, hop) {
            Ok(next) => Ok(next),
            Err(refused) => Err(refused.code()),
        }
    }

    // Goes on from a hop that has ended.
    fn go_on(&mut self, hop: Hop) -> Stepped
        requires ended { IsSome self.old.code }
        requires leads { LeadTo self.old.request.settings.max_redirects self.old.request self.old.hops hop.request }
        requires bytes { self.old.earlier ≡ bytes_in self.old.hops }
        requires wire { self.old.now.received ≡ capped (length hop.wire) }
        requires kept { self.old.heads_alone ≡ false → hop.limit ≡ None }
        ensures { GoesOnTo self.old hop self.new result }
    {
        self.release();
        match self.decide(&hop) {
            Ok(next) => self.follow(hop, next),
            Err(code) => self.end(hop, code),
        }
    }

    // rule redirect-content
    /// Takes one turn: at most one probe, 64 reads and 64 writes, all of one hop; where the content is handed on, at most 16 reads. Content
    /// that is handed on is added to `out`: nothing of a response that is held, nor of one whose final head sends its request on.
    pub fn turn(&mut self, out: &mut Window) -> Stepped
        requires { self.old.code ≡ None }
        ensures turn { Steps L.history self.old self.new (how_of result) }
        ensures handed { HandsOver self.old.content (content_by self.new (how_of result)) out.old.items out.new.items }
        ensures held { self.old.now.limit ≡ None → out.new.items ≡ out.old.items }
        ensures limit { (self.new.now.limit ≡ self.old.now.limit) × IfEnded result (λ o. o.last.limit ≡ self.old.now.limit) }
        ensures value { IfEnded result (λ o. o.request ≡ self.old.request) }
        ensures again { IfGoing result (self.new.code ≡ None) }
        ensures same { IfGoing result (self.new.request ≡ self.old.request) }
        // 28 comes where the deadline is due, and only there
        ensures late { IfEnded result (λ o. (o.code ≡ code.OperationTimedout) ↔ IsDue (clocked self.old.now).deadline self.old.now.moment) }
        ensures ended { IfEnded result (λ o. self.new.code ≡ Some o.code) }
        // a link that is left has an endpoint
        ensures home { IfEnded result (λ o. self.new.link ≢ None → IsSome self.new.home) }
        ensures received { IfEnded result (λ o. received_of self.new ≡ bytes_in (hops_of o)) }
        // the count of bytes never falls
        ensures counted { received_of self.old ≤ received_of self.new }
        ensures outcome { IfEnded result IsChainEnd }
        ensures token { KeepsToken L.token_of self.old.now.link self.new.now.link }
        ensures known { IsChain self.new }
        ensures hop { IsExchange L.history L.asked L.token_of self.new.now }
        ensures undecided { IfGoing result (IsUndecided self.new.now.limit self.new.now.request.method self.new.now.answers) }
    {
        // proof: what holds of the exchange before the turn
        self.exchange.know();
        let before = out.as_slice().len();
        let turned = self.exchange.turn(out);
        self.drops = settle_content(self.most, self.drops, &self.exchange, &turned, before, out);
        match turned {
            Turned::Waits => Stepped::Waits,
            Turned::Asks => Stepped::Asks,
            Turned::Ended(hop) => {
                self.code = Some(hop.code());
                let stepped = self.go_on(hop);
                // proof: what holds of a chain
                self.know();
                stepped
            }
        }
    }
}
