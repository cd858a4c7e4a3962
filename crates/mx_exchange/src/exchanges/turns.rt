//! What a turn of an exchange does.
ghost use Rattle.std.specs.Prelude.{◌≡◌, ◌≤◌, true, false, [], Some, None, IsTrue, ◌↔◌, length};
ghost use Rattle.mx_line.specs.Lines.{HandsOver};
ghost use Rattle.mx_exchange.specs.Exchanges.{IsDue, IsServed, IsExchange, KeepsToken, capped, first_deadline, clocked, dropped};
ghost use Rattle.mx_line.specs.Endings.{IsUndecided, is_stop_code};

use super::Exchange;
use super::stages::{Ended, Live, Stage, end, received};
use crate::hops::Hop;
use mx_line::{Halt, ReadBuffer};
use mx_link::Link;
use mx_request::Request;
use mx_sink::Window;
use mx_types::Code;
use std::mem;
use std::snapshot::Snapshot;

/// The result of a turn.
#[derive(Drop)]
pub enum Turned {
    /// It waits: for a link, for the one that it has, or for its deadline.
    Waits,
    /// It asks for another turn at once.
    Asks,
    /// It has ended.
    Ended(Hop),
}

/// What comes before the link in a turn.
#[derive(Clone, Copy)]
pub(crate) enum Before {
    // It ends with this code.
    Stops(Code),
    // It is paused.
    Pauses,
    // The link comes next.
    Nothing,
}

impl<L: Link> Exchange<L> {
    ghost use Rattle.mx_exchange.specs.Turns.{how_of, content_by, MayTouch, ProbeSo, StopsWith, Exchanged, Turns, IfEnded, IfGoing};
    ghost use Rattle.mx_exchange.specs.Hops.{IsHop};
    ghost use Rattle.mx_types.specs.declared.code.Code.TheVariants as code;
    ghost use Rattle.mx_exchange.specs.Stages.{alive, over, link_of, ComesBefore, IsAlive, IsEnded};

    // rule exchange-timeout
    // The deadline that its first turn sets.
    fn first_deadline(&self) -> Option<u64>
        requires { self.now.code ≡ None }
        ensures { result ≡ first_deadline self.now.request self.now.moment }
    {
        let Stage::Live(live) = &self.stage else {
            unreachable!()
        };
        let timeout_ms = live.request.timeout_ms();
        if timeout_ms == 0 {
            return None;
        }
        Some(self.moment.saturating_add(u64::from(timeout_ms)))
    }

    // rule exchange-timeout
    // The first turn sets the deadline.
    fn start_clock(&mut self)
        requires { self.old.code ≡ None }
        ensures { self.new ≡ clocked self.old }
    {
        if self.is_polled {
            return;
        }
        self.deadline = self.first_deadline();
        self.is_polled = true;
    }

    // rule exchange-pause
    fn is_due(&self) -> bool
        ensures { IsTrue result ↔ IsDue self.now.deadline self.now.moment }
    {
        match self.deadline {
            Some(deadline) => deadline <= self.moment,
            None => false,
        }
    }

    // Begins anew: only a link that was never in use will do.
    fn begin_again(&mut self, request: Request)
        requires { request ≡ self.old.request }
        ensures { self.new ≡ record (dropped self.old) { code = None; is_kept = false } }
    {
        self.needs_fresh = true;
        let live = Live::new(self.alloc, request, self.handling);
        drop(mem::replace(&mut self.stage, Stage::Live(live)));
    }

    // Has ended, and leaves this.
    fn settle(&mut self, ended: Ended<L>)
        requires { IsEnded L.history L.asked L.token_of self.old.request self.old.limit self.old.needs_fresh self.old.failure ended }
        ensures { self.new ≡ over self.old ended }
    {
        drop(mem::replace(&mut self.stage, Stage::Ended(ended)));
    }

    // Ends without a further call on the link.
    fn stop(&mut self, live: Live<L>, code: Code) -> Hop
        requires live { IsAlive L.history L.asked L.token_of self.old.request self.old.limit self.old.needs_fresh self.old.failure live }
        requires listed { is_stop_code code self.old.limit ≡ true }
        ensures code { result.code ≡ code }
        ensures stopped { StopsWith (alive self.old live) self.new result }
    {
        let answers = live.answers();
        let is_reused = live.reused();
        let count = received(&live.reader);
        let Live {
            request,
            reader,
            line,
        } = live;
        self.settle(Ended {
            code,
            received: count,
            line,
            is_kept: false,
        });
        end(request, reader, code, answers, is_reused)
    }

    // Goes on with this stage.
    fn go_on(&mut self, live: Live<L>)
        requires { IsAlive L.history L.asked L.token_of self.old.request self.old.limit self.old.needs_fresh self.old.failure live }
        ensures { self.new ≡ alive self.old live }
    {
        drop(mem::replace(&mut self.stage, Stage::Live(live)));
    }

    // rule exchange-probe
    // Asks a reused link for a byte first, and drops the link unless it answers that it would wait. False where it was dropped.
    fn probe(&mut self, live: &mut Live<L>) -> bool
        requires away { self.old.link ≡ None }
        requires live { IsAlive L.history L.asked L.token_of self.old.request self.old.limit self.old.needs_fresh self.old.failure live.old }
        ensures probe { ProbeSo result L.history (alive self.old live.old) (alive self.new live.new) }
        ensures unread { live.new.reader ≡ live.old.reader }
        ensures live { IsAlive L.history L.asked L.token_of self.new.request self.new.limit self.new.needs_fresh self.new.failure live.new }
        ensures token { KeepsToken L.token_of (link_of live.old.line) (link_of live.new.line) }
    {
        let Some(line) = &mut live.line else {
            return true;
        };
        if !line.needs_probe() || line.probe() {
            return true;
        }
        live.line = None;
        self.needs_fresh = true;
        false
    }

    // Whether it has a link that is still to be probed.
    fn needs_probe(&self) -> bool
        requires { self.now.code ≡ None }
        ensures { result ≡ self.now.needs_probe }
    {
        let Stage::Live(live) = &self.stage else {
            unreachable!()
        };
        match &live.line {
            Some(line) => line.needs_probe(),
            None => false,
        }
    }

    // Probes the link where that is needed. False where it was dropped.
    fn probe_first(&mut self) -> bool
        requires going { self.old.code ≡ None }
        ensures probe { ProbeSo result L.history self.old self.new }
        ensures going { self.new.code ≡ None }
        ensures content { self.new.content ≡ self.old.content }
        ensures token { KeepsToken L.token_of self.old.link self.new.link }
    {
        if !self.needs_probe() {
            return true;
        }
        let mut live = self.take();
        let serves = self.probe(&mut live);
        self.go_on(live);
        serves
    }

    // rule exchange-kept-link
    // Asks the link, if there is one, with this buffer for its reads. What goes on stays in its place: most turns find nothing.
    fn exchange(&mut self, buffer: &mut ReadBuffer, out: &mut Window) -> Turned
        requires going { self.old.code ≡ None }
        requires probed { self.old.needs_probe ≡ false }
        ensures turn { Exchanged L.history self.old self.new (how_of result) }
        ensures handed { HandsOver self.old.content (content_by self.new (how_of result)) out.old.items out.new.items }
        ensures token { KeepsToken L.token_of self.old.link self.new.link }
    {
        let most_reads = self.handling.most_reads();
        let Stage::Live(live) = &mut self.stage else {
            unreachable!()
        };
        let Some(line) = &mut live.line else {
            return Turned::Waits;
        };
        match line.serve(&live.request, &mut live.reader, most_reads, buffer, out) {
            Halt::Blocked => Turned::Waits,
            Halt::Unfinished => Turned::Asks,
            Halt::Lost => {
                let Live { request, .. } = self.stage.take_live();
                self.begin_again(request);
                Turned::Waits
            }
            Halt::Over(code) => {
                let answers = line.answers();
                let is_reused = Snapshot::of(&line.is_reused());
                let Live {
                    request,
                    reader,
                    line,
                } = self.stage.take_live();
                let count = received(&reader);
                let is_kept = reader.may_keep();
                self.settle(Ended {
                    code,
                    received: count,
                    line,
                    is_kept,
                });
                Turned::Ended(end(request, reader, code, answers, is_reused))
            }
        }
    }

    // The same, with the buffer that it has.
    fn exchange_buffered(&mut self, out: &mut Window) -> Turned
        requires going { self.old.code ≡ None }
        requires probed { self.old.needs_probe ≡ false }
        ensures turn { Exchanged L.history self.old self.new (how_of result) }
        ensures handed { HandsOver self.old.content (content_by self.new (how_of result)) out.old.items out.new.items }
        ensures token { KeepsToken L.token_of self.old.link self.new.link }
    {
        let mut buffer = ReadBuffer::new(self.alloc);
        self.swap_buffer(&mut buffer);
        let turned = self.exchange(&mut buffer, out);
        self.swap_buffer(&mut buffer);
        turned
    }

    // Takes out what goes on.
    fn take(&mut self) -> Live<L>
        requires { self.old.code ≡ None }
        ensures is { alive self.new result ≡ self.old }
        ensures live { IsAlive L.history L.asked L.token_of self.new.request self.new.limit self.new.needs_fresh self.new.failure result }
        ensures away { self.new.link ≡ None }
    {
        self.stage.take_live()
    }

    // Whether it has no link.
    fn lacks_link(&self) -> bool
        ensures { IsTrue result → (self.now.link ≡ None) × (self.now.needs_probe ≡ false) }
    {
        match &self.stage {
            Stage::Live(live) => live.line.is_none(),
            Stage::Ended(_) => false,
        }
    }

    // Probes the link, and asks it. Where there is none, it is left as it is.
    fn touch(&mut self, out: &mut Window) -> Turned
        requires going { self.old.code ≡ None }
        requires may { MayTouch self.old }
        ensures turn { Turns L.history self.old self.new (how_of result) }
        ensures handed { HandsOver self.old.content (content_by self.new (how_of result)) out.old.items out.new.items }
        ensures token { KeepsToken L.token_of self.old.link self.new.link }
    {
        if self.lacks_link() {
            return Turned::Waits;
        }
        if !self.probe_first() {
            return Turned::Waits;
        }
        self.exchange_buffered(out)
    }

    // rule exchange-order
    // rule exchange-pause
    // What comes before the link: the deadline, the code given in place of the link, and the pause.
    fn before_link(&self) -> Before
        ensures { ComesBefore self.now result }
    {
        if self.is_due() {
            return Before::Stops(Code::OperationTimedout);
        }
        if let Some(code) = self.failure {
            return Before::Stops(code);
        }
        if self.is_paused {
            return Before::Pauses;
        }
        Before::Nothing
    }

    // rule exchange-order
    // Takes one turn.
    fn advance(&mut self, out: &mut Window) -> Turned
        requires { self.old.code ≡ None }
        ensures turn { Turns L.history (clocked self.old) self.new (how_of result) }
        ensures handed { HandsOver self.old.content (content_by self.new (how_of result)) out.old.items out.new.items }
        ensures token { KeepsToken L.token_of self.old.link self.new.link }
    {
        self.start_clock();
        match self.before_link() {
            Before::Stops(code) => {
                let live = self.take();
                Turned::Ended(self.stop(live, code))
            }
            Before::Pauses => Turned::Asks,
            Before::Nothing => self.touch(out),
        }
    }

    /// Takes one turn: at most one probe, 64 reads and 64 writes; where the content is handed on, at most 16 reads. Content that is handed on
    /// is added to `out`; of a response that is held none is.
    pub fn turn(&mut self, out: &mut Window) -> Turned
        requires { self.old.code ≡ None }
        ensures turn { Turns L.history (clocked self.old) self.new (how_of result) }
        ensures handed { HandsOver self.old.content (content_by self.new (how_of result)) out.old.items out.new.items }
        ensures value { IfEnded result (λ hop. hop.request ≡ self.old.request) }
        ensures again { IfGoing result (self.new.code ≡ None) }
        ensures same { IfGoing result (self.new.request ≡ self.old.request) }
        ensures limit { (self.new.limit ≡ self.old.limit) × IfEnded result (λ hop. hop.limit ≡ self.old.limit) }
        // 28 comes where the deadline is due, and only there
        ensures late { IfEnded result (λ hop. (hop.code ≡ code.OperationTimedout) ↔ IsDue (clocked self.old).deadline self.old.moment) }
        ensures ended { IfEnded result (λ hop. (self.new.code ≡ Some hop.code) × (self.new.received ≡ capped (length hop.wire))) }
        // the count of bytes never falls
        ensures counted { self.old.received ≤ self.new.received }
        ensures outcome { IfEnded result IsHop }
        ensures token { KeepsToken L.token_of self.old.link self.new.link }
        ensures known { IsExchange L.history L.asked L.token_of self.new }
        ensures served { IsServed L.history self.new }
        ensures undecided { IfGoing result (IsUndecided self.new.limit self.new.request.method self.new.answers) }
        ensures held { self.old.limit ≡ None → out.new.items ≡ out.old.items }
    {
        // proof: what holds of the exchange before the turn
        self.know();
        let turned = self.advance(out);
        // proof: what holds of the exchange after the turn
        self.know();
        match turned {
            Turned::Ended(hop) => {
                // proof: what holds of a hop
                hop.know();
                Turned::Ended(hop)
            }
            Turned::Asks => Turned::Asks,
            Turned::Waits => Turned::Waits,
        }
    }
}
