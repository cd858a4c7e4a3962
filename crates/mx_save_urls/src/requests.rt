//! The requests of a run that are added at a desk.
ghost use Rattle.std.specs.Prelude.{◌≡◌, ◌<◌, ℕ, [], true, count_by, is_some, List, Option, IfOk, MatchOption};
ghost use Rattle.mx_request.specs.Request.{RequestValue};
ghost use Rattle.mx_desk.specs.Adding.{MatchAdding};
ghost use Rattle.mx_save_urls.specs.Asked.{AddsRequest, EndsRequest};

use mx_desk::{Adding, Desk, Ended};
use mx_link::Link;
use mx_request::Request;
use mx_run_io::Stop;
use mx_sink::Delivery;
use mx_types::Ticket;
use std::alloc::AllocGlobal;
use std::rt::Clock;
use std::sync::Wait;

/// How a desk stands, by its methods of these names.
#[derive(Clone, Copy)]
pub(crate) struct DeskStanding {
    pub(crate) is_empty: bool,
    pub(crate) is_idle: bool,
    pub(crate) has_room: bool,
    pub(crate) is_full: bool,
    pub(crate) len: usize,
}

/// The requests that are added at a desk, each under a number of the run's own. The functions of a run know no more of their desk, so that
/// the many types within one stay out of their proofs.
pub(crate) trait Requests<D: Delivery> {
    /// The request that is added under each number.
    ghost asked: { Self → List (Option RequestValue) };

    /// How many may be added at a time.
    ghost width: { Self → ℕ };

    /// How the desk stands.
    fn standing(&self) -> DeskStanding
        ensures empty { result.is_empty ≡ true → count_by is_some (asked self.now) ≡ 0 }
        ensures room { result.has_room ≡ true → count_by is_some (asked self.now) < width self.now };

    /// As `Desk::arrived`.
    fn arrived(&mut self) -> u64
        ensures { asked self.new ≡ asked self.old };

    /// As `Desk::add`.
    fn add<R: Wait + AllocGlobal>(
        &mut self,
        rt: &R,
        at: usize,
        request: Request,
        delivery: D,
    ) -> Adding<Ticket, D>
        requires room { count_by is_some (asked self.old) < width self.old }
        requires none { D.handed delivery ≡ [] }
        ensures added { MatchAdding result (λ _. AddsRequest (asked self.old) (asked self.new) at request) (asked self.new ≡ asked self.old) (asked self.new ≡ asked self.old) };

    /// As `Desk::next`.
    fn next<R: Wait + AllocGlobal + Clock>(
        &mut self,
        rt: &R,
        milliseconds: u32,
    ) -> Result<Option<Ended<D>>, Stop>
        ensures { IfOk result (λ o. MatchOption o (asked self.new ≡ asked self.old) (λ e. EndsRequest (asked self.old) (asked self.new) e.at e.outcome.request)) };
}

impl<'e, 'm, L: Link, D: Delivery> Requests<D> for Desk<'e, 'm, L, D> {
    ghost asked = { λ d. d.asked };

    ghost width = { λ d. d.width };

    fn standing(&self) -> DeskStanding {
        DeskStanding {
            is_empty: self.is_empty(),
            is_idle: self.is_idle(),
            has_room: self.has_room(),
            is_full: self.is_full(),
            len: self.len(),
        }
    }

    fn arrived(&mut self) -> u64 {
        Desk::arrived(self)
    }

    fn add<R: Wait + AllocGlobal>(
        &mut self,
        rt: &R,
        at: usize,
        request: Request,
        delivery: D,
    ) -> Adding<Ticket, D>
        requires room { count_by is_some self.old.asked < self.old.width }
        requires none { D.handed delivery ≡ [] }
        ensures added { MatchAdding result (λ _. AddsRequest self.old.asked self.new.asked at request) (self.new.asked ≡ self.old.asked) (self.new.asked ≡ self.old.asked) }
    {
        Desk::add(self, rt, at, request, delivery)
    }

    fn next<R: Wait + AllocGlobal + Clock>(
        &mut self,
        rt: &R,
        milliseconds: u32,
    ) -> Result<Option<Ended<D>>, Stop> {
        Desk::next(self, rt, milliseconds)
    }
}
