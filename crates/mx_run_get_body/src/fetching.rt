//! What adds one request at a desk, and keeps what it ended with.
ghost use Rattle.std.proofs.Common.{refl, ◌∙◌};
ghost use Rattle.std.specs.Prelude.{◌≡◌, [], false, true, None, IfOk, IfSome, IsSome, OnOk};
ghost use Rattle.mx_run_get_body.specs.Bodies.{HasTurned, IsAwaited};

use mx_crew::Crew;
use mx_desk::{Adding, Desk, Ended};
use mx_fetch::{Fetch, Turned};
use mx_link::Link;
use mx_request::Request;
use mx_run_io::Stop;
use mx_sink::Delivery;
use mx_transfer_core::Outcome;
use std::alloc::AllocGlobal;
use std::marker::Model;
use std::rt::Clock;
use std::snapshot::Snapshot;
use std::sync::Wait;

/// The longest that a message is waited for, in milliseconds, before it is waited for again.
const LONGEST_WAIT_MS: u32 = 60_000;

/// A request and its delivery, until they are added, and what its transfer ended with, once it has.
#[derive(Drop)]
pub(crate) struct Fetching<D: Delivery> {
    about: Snapshot<Request>,
    next: Option<(Request, D)>,
    is_awaited: bool,
    end: Option<Outcome<D>>,
}

impl<D: Delivery> Model for Fetching<D> {
    ghost use Rattle.std.specs.Prelude.{◌≡◌, [], IfSome};
    ghost use Rattle.mx_run_get_body.specs.Bodies.{FetchingValue};

    ghost Value = { FetchingValue };

    ghost view = { λ f. record { request = f.about.value; awaited = f.is_awaited; end = f.end } };

    ghost invariant = { λ f. record {
      next : IfSome f.next (λ n. (n.0 ≡ f.about.value) × (D.handed n.1 ≡ []));
      end : IfSome f.end (λ o. o.request ≡ f.about.value);
    } };
}

impl<D: Delivery> Fetching<D> {
    /// The request isn't added yet.
    pub fn new(request: Request, delivery: D) -> Fetching<D>
        requires { D.handed delivery ≡ [] }
        ensures { result ≡ record { request = request; awaited = false; end = None } }
    {
        Fetching {
            about: Snapshot::of(&request),
            next: Some((request, delivery)),
            is_awaited: false,
            end: None,
        }
    }

    /// What its transfer ended with, once it has, by move.
    pub fn into_end(self) -> Option<Outcome<D>>
        ensures end { result ≡ self.end }
        ensures request { IfSome result (λ o. o.request ≡ self.request) }
    {
        let Fetching {
            about,
            next,
            is_awaited: _,
            end,
        } = self;
        drop(about);
        drop(next);
        end
    }

    // Adds the request, unless it was added before. The answer is whether it is added now.
    fn add<L: Link, R: Wait + AllocGlobal>(
        &mut self,
        rt: &R,
        desk: &mut Desk<'_, '_, L, D>,
    ) -> Result<bool, Stop>
        requires asked { IsAwaited self.old desk.old.asked }
        ensures asked { OnOk result (IsAwaited self.new desk.new.asked) }
        ensures same { self.new.request ≡ self.old.request }
    {
        let Some((request, delivery)) = self.next.take() else {
            return Ok(false);
        };
        if !desk.has_room() {
            drop(request);
            drop(delivery);
            return Err(Stop::NoMessage);
        }
        match desk.add(rt, 0, request, delivery) {
            Adding::Made(_) => {
                self.is_awaited = true;
                Ok(true)
            }
            Adding::Refused(request, delivery) => {
                self.next = Some((request, delivery));
                Err(Stop::NoMessage)
            }
            Adding::OutOfMemory(request, delivery) => {
                self.next = Some((request, delivery));
                Err(Stop::OutOfMemory)
            }
        }
    }

    // Waits for the next message. The answer is whether the transfer has ended.
    fn await_end<L: Link, R: Wait + AllocGlobal + Clock>(
        &mut self,
        rt: &R,
        desk: &mut Desk<'_, '_, L, D>,
    ) -> Result<bool, Stop>
        requires asked { IsAwaited self.old desk.old.asked }
        ensures asked { OnOk result (IsAwaited self.new desk.new.asked) }
        ensures ended { IfOk result (λ ended. ended ≡ true → IsSome self.new.end) }
        ensures same { self.new.request ≡ self.old.request }
    {
        let Some(Ended { at, outcome, .. }) = desk.next(rt, LONGEST_WAIT_MS)? else {
            return Ok(false);
        };
        if at != 0 || !self.is_awaited {
            drop(outcome);
            return Err(Stop::NoMessage);
        }
        self.is_awaited = false;
        self.end = Some(outcome);
        Ok(true)
    }

    // Adds the request, and waits until it has ended.
    fn take_turns<L: Link, R: Wait + AllocGlobal + Clock>(
        &mut self,
        rt: &R,
        crew: &Crew,
        desk: &mut Desk<'_, '_, L, D>,
    ) -> Result<Turned, Stop>
        requires asked { IsAwaited self.old desk.old.asked }
        ensures turned { IfOk result (HasTurned self.new) }
        ensures asked { OnOk result (IsAwaited self.new desk.new.asked) }
        ensures same { self.new.request ≡ self.old.request }
    {
        for _ in rt.forever() {
            if self.add(rt, desk)? {
                crew.wake(1);
            }
            if self.await_end(rt, desk)? {
                return Ok(Turned::AllEnded);
            }
        }
        unreachable!()
    }
}

impl<D: Delivery> Fetch<D> for Fetching<D> {
    ghost is_asked = { λ f asked. IsAwaited f asked };

    ghost has_turned = { λ f how. HasTurned f how };

    ghost is_same = { λ f g. g.request ≡ f.request };

    fn fetch<L: Link, R: Wait + AllocGlobal + Clock>(
        &mut self,
        rt: &R,
        crew: &Crew,
        desk: &mut Desk<'_, '_, L, D>,
        _patience: Option<u32>,
    ) -> Result<Turned, Stop> {
        self.take_turns(rt, crew, desk)
    }

    ghost same = { λ f. refl };

    ghost then = { λ f g h one two. two ∙ one };

    ghost none = { λ f left asked. absurd left };
}
