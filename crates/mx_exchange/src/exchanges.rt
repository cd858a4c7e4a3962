//! One request over a link, and after its end another one.
ghost use Rattle.std.specs.Prelude.{◌≡◌, ◌≢◌, true, false, [], Some, None, IsSome, IfSome, is_some, option_map, ◌↔◌, if◌then◌else◌};
ghost use Rattle.mx_link.specs.Answers.{given};
ghost use Rattle.mx_line.specs.Endings.{is_given_code};
ghost use Rattle.mx_exchange.specs.Exchanges.{IsExchange, TellsSending, WantsLink, begun, attached, renewed};
ghost use Rattle.mx_types.specs.Code.{is_link_code};
ghost use Rattle.mx_exchange.specs.Stages.{limit_by};
ghost use Rattle.mx_flow.specs.Streams.{limit_of};

mod stages;
pub(crate) mod turns;

use crate::exchanges::stages::{Live, Stage, received};
use crate::handling::Handling;
use mx_line::{Line, ReadBuffer};
use mx_link::Link;
use mx_request::{Endpoint, Request, is_redirect};
use mx_types::Code;
use std::alloc::Global;
use std::marker::Model;
use std::mem;
use std::snapshot::Snapshot;

/// The link that an exchange wants.
#[derive(Clone, Copy)]
pub struct Want<'a> {
    /// Where it goes.
    pub endpoint: &'a Endpoint,
    /// Only a link that was never in use will do.
    pub fresh: bool,
}

/// A request and the link that serves it, if one does.
pub struct Exchange<L: Link> {
    alloc: Global,
    handling: Handling,
    about: Snapshot<Request>,
    stage: Stage<L>,
    needs_fresh: bool,
    is_started: bool,
    failure: Option<Code>,
    moment: u64,
    is_paused: bool,
    is_polled: bool,
    deadline: Option<u64>,
    buffer: ReadBuffer,
}

// Written out, and not derived: a crate that drops an exchange cites its proof.
impl<L: Link> Drop for Exchange<L> {
    fn drop(self) {
        let Exchange {
            alloc: _,
            handling: _,
            about,
            stage,
            needs_fresh: _,
            is_started: _,
            failure: _,
            moment: _,
            is_paused: _,
            is_polled: _,
            deadline: _,
            buffer,
        } = self;
        drop(about);
        drop(stage);
        drop(buffer);
    }
}

impl<L: Link> Model for Exchange<L> {
    ghost use Rattle.std.specs.Prelude.{◌≡◌, true, IfSome};
    ghost use Rattle.mx_line.specs.Endings.{is_given_code};
    ghost use Rattle.mx_exchange.specs.Exchanges.{ExchangeState};
    ghost use Rattle.mx_exchange.specs.Stages.{limit_by, link_of, attached_of, answers_of, reused_of, probe_of, line_of, code_of, kept_of, received_of, content_of, IsStage};

    ghost Value = { ExchangeState L };

    ghost view = { λ t. record {
      request = t.about.value;
      limit = limit_by t.handling;
      link = link_of (line_of t.stage);
      attached = attached_of (line_of t.stage);
      answers = answers_of (line_of t.stage);
      is_reused = reused_of (line_of t.stage);
      needs_probe = probe_of (line_of t.stage);
      needs_fresh = t.needs_fresh;
      is_started = t.is_started;
      failure = t.failure;
      moment = t.moment;
      is_paused = t.is_paused;
      is_polled = t.is_polled;
      deadline = t.deadline;
      code = code_of t.stage;
      is_kept = kept_of t.stage;
      received = received_of t.stage;
      content = content_of t.stage;
    } };

    ghost invariant = { λ t. record {
      stage : IsStage L.history L.asked L.token_of t.about.value (limit_by t.handling) t.needs_fresh t.failure t.stage;
      failed : IfSome t.failure (λ c. is_given_code c (limit_by t.handling) ≡ true);
    } };
}

impl<L: Link> Exchange<L> {
    /// An exchange of the request, which holds the response. It takes no memory; what its turns grow comes from `alloc`.
    pub fn new(alloc: Global, request: Request) -> Exchange<L>
        ensures { result ≡ begun None request }
    {
        Exchange::make(alloc, request, Handling::Held)
    }

    /// The same, which keeps the heads alone and hands the content on as it comes. That may have `most_bytes` bytes, and never more than
    /// 9,223,372,036,854,775,807, which is also the limit where there is none.
    pub fn flowing(alloc: Global, request: Request, most_bytes: Option<u64>) -> Exchange<L>
        ensures { result ≡ begun (Some (limit_of most_bytes)) request }
    {
        Exchange::make(alloc, request, Handling::Flowing(most_bytes))
    }

    // An exchange of the request, and what becomes of the body.
    fn make(alloc: Global, request: Request, handling: Handling) -> Exchange<L>
        ensures { result ≡ begun (limit_by handling) request }
    {
        let about = Snapshot::of(&request);
        Exchange {
            alloc,
            handling,
            about,
            stage: Stage::Live(Live::new(alloc, request, handling)),
            needs_fresh: false,
            is_started: false,
            failure: None,
            moment: 0,
            is_paused: false,
            is_polled: false,
            deadline: None,
            buffer: ReadBuffer::new(alloc),
        }
    }

    /// The request, by move, of an exchange that has not ended. Its link, if it has one, is dropped.
    pub fn into_request(self) -> Request
        requires { self.code ≡ None }
        ensures { result ≡ self.request }
    {
        let Exchange {
            alloc: _,
            handling: _,
            about,
            stage,
            needs_fresh: _,
            is_started: _,
            failure: _,
            moment: _,
            is_paused: _,
            is_polled: _,
            deadline: _,
            buffer,
        } = self;
        drop(about);
        drop(buffer);
        match stage {
            Stage::Live(live) => live.request,
            Stage::Ended(_) => unreachable!(),
        }
    }

    /// The request, of one that has not ended.
    pub fn request(&self) -> Option<&Request>
        ensures going { IsSome result ↔ (self.now.code ≡ None) }
        ensures request { IfSome result (λ request. request.now ≡ self.now.request) }
    {
        match &self.stage {
            Stage::Live(live) => Some(&live.request),
            Stage::Ended(_) => None,
        }
    }

    // rule redirect-deadline
    /// Begins anew with another request, once it has ended. A link that it still has is dropped. Its clock goes on: the deadline stays.
    pub fn renew(&mut self, request: Request)
        requires { IsSome self.old.code }
        ensures { self.new ≡ renewed self.old request }
    {
        self.about = Snapshot::of(&request);
        let live = Live::new(self.alloc, request, self.handling);
        drop(mem::replace(&mut self.stage, Stage::Live(live)));
        self.needs_fresh = false;
        self.failure = None;
    }

    /// The link that it wants: `None` where it has one, has ended, or was given a code in place of one.
    pub fn wants(&self) -> Option<Want<'_>>
        ensures wants { IsSome result ↔ WantsLink self.now }
        ensures which { IfSome result (λ want. (want.fresh ≡ self.now.needs_fresh) × (want.endpoint.now ≡ self.now.request.endpoint)) }
    {
        match &self.stage {
            Stage::Live(live) if live.line.is_none() && self.failure.is_none() => Some(Want {
                endpoint: live.request.endpoint(),
                fresh: self.needs_fresh,
            }),
            _ => None,
        }
    }

    /// Hands over a link that serves nothing else. It was in use before where it is reused, which it must not be
    /// where only a fresh one is wanted.
    pub fn attach(&mut self, link: L, is_reused: bool)
        requires wanted { WantsLink self.old }
        requires fresh { self.old.needs_fresh ≡ true → is_reused ≡ false }
        ensures { self.new ≡ attached self.old link is_reused }
    {
        if let Stage::Live(live) = &mut self.stage {
            live.line = Some(Line::new(link, &live.request, is_reused));
            self.is_started = true;
        }
    }

    /// Gives the code that it ends with at its next turn, as no link can be opened, unless its deadline has come by then.
    pub fn fail_link(&mut self, code: Code)
        requires wanted { WantsLink self.old }
        requires code { is_link_code code ≡ true }
        ensures { self.new ≡ record self.old { failure = Some code } }
    {
        self.failure = Some(code);
    }

    /// Gives the code that it ends with at its next turn, as what takes the content can't go on, unless its deadline has come by then. Its
    /// link is asked nothing more, and isn't kept.
    pub fn fail(&mut self, reason: Code)
        requires going { self.old.code ≡ None }
        requires flowing { self.old.limit ≢ None }
        requires reason { is_given_code reason self.old.limit ≡ true }
        ensures { self.new ≡ record self.old { failure = Some reason } }
    {
        self.failure = Some(reason);
    }

    /// Gives the buffer of its reads, and takes this one in its place, as who lends one does before a turn and after it.
    pub fn swap_buffer(&mut self, other: &mut ReadBuffer)
        ensures { self.new ≡ self.old }
    {
        mem::swap(&mut self.buffer, other);
    }

    /// Sets the inputs of the turns until the next call: the moment in milliseconds, and whether it is paused.
    pub fn prepare(&mut self, now: u64, is_paused: bool)
        ensures { self.new ≡ record self.old { moment = now; is_paused = is_paused } }
    {
        self.moment = now;
        self.is_paused = is_paused;
    }

    /// Whether a link was attached once.
    pub fn started(&self) -> bool
        ensures { result ≡ self.now.is_started }
    {
        self.is_started
    }

    /// The moment at which it ends unless it has ended before, in milliseconds; `None` before the first turn, and
    /// where the request has no timeout.
    pub fn deadline(&self) -> Option<u64>
        ensures { result ≡ self.now.deadline }
    {
        self.deadline
    }

    /// How many bytes of a response its link has given: those of the wire, held at 4,294,967,295. Of one that is held they are at most
    /// 67,108,864, which may decide nothing yet, and those of one more read, at most 16,384.
    pub fn received(&self) -> u32
        ensures { result ≡ self.now.received }
    {
        match &self.stage {
            Stage::Live(live) => received(&live.reader),
            Stage::Ended(ended) => ended.received,
        }
    }

    /// The number under which the readiness of its link is reported; `None` where it has no link.
    pub fn token(&self) -> Option<u64>
        ensures { result ≡ option_map L.token_of self.now.link }
    {
        let line = match &self.stage {
            Stage::Live(live) => &live.line,
            Stage::Ended(ended) => &ended.line,
        };
        match line {
            Some(line) => Some(line.token()),
            None => None,
        }
    }

    /// What holds of every exchange. It does nothing: a call gives its caller's proof the law.
    pub fn know(&self)
        ensures { IsExchange L.history L.asked L.token_of self.now }
    {
        // proof: what holds of an exchange
        let _stage = &self.stage;
    }

    /// Whether a final head has come that sends its request on (RFC 9110, section 15.4), of one that has not ended.
    pub fn sends_on(&self) -> bool
        requires { self.now.code ≡ None }
        ensures { TellsSending (given self.now.answers) result }
    {
        match &self.stage {
            Stage::Live(live) => {
                let status = live.reader.status();
                let location = live.reader.location();
                is_redirect(status) && location.is_some()
            }
            Stage::Ended(_) => unreachable!(),
        }
    }

    /// Whether it has ended.
    pub fn spent(&self) -> bool
        ensures { result ≡ is_some self.now.code }
    {
        matches!(self.stage, Stage::Ended(_))
    }

    /// The code that it ended with.
    pub fn code(&self) -> Option<Code>
        ensures { result ≡ self.now.code }
    {
        match &self.stage {
            Stage::Live(_) => None,
            Stage::Ended(ended) => Some(ended.code),
        }
    }

    /// The link, once it has ended and where the link may be kept; `None` where it was taken before.
    pub fn take_link(&mut self) -> Option<L>
        ensures link { result ≡ if self.old.is_kept then self.old.link else None }
        ensures rest { self.new ≡ if self.old.is_kept
            then record self.old { link = None; attached = None; answers = []; is_reused = false; needs_probe = false; is_kept = false }
            else self.old }
    {
        match &mut self.stage {
            Stage::Ended(ended) if ended.is_kept => ended.take_link(),
            _ => None,
        }
    }
}
