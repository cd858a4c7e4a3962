//! What adds the URLs of a run at a desk, and gives on what they ended with, in their order.
ghost use Rattle.std.proofs.Common.{◌∙◌, refl};
ghost use Rattle.std.specs.Prelude.{◌≡◌, ◌≢◌, ◌+◌, ◌<◌, ◌≤◌, List, [], Option, false, true, length, map, IfErr, IfOk, IfSome, IsTrue, Ok, OnOk, Some, slice_get};
ghost use Rattle.mx_desk.specs.Desks.{HasRoom};
ghost use Rattle.mx_request.specs.Request.{RequestValue};
ghost use Rattle.mx_request.specs.RequestError.{refusal_code};
ghost use Rattle.mx_request.specs.declared.error.RequestError.TheVariants as refusal;
ghost use Rattle.mx_text.specs.declared.fetched.Fetched.TheVariants as fetched;
ghost use Rattle.mx_run_get.specs.Getting.{AreAwaited, HasLeft, HasTakenAll, IsGetting, IsSameGetting, asked_next};
ghost use Rattle.mx_run_get.specs.Places.{asked_at, is_awaiting, is_awaiting_at, noted_at};
ghost use Rattle.mx_run_get.specs.declared.place.Place.{Place as AtPlace};

use crate::end::UrlEnd;
use crate::place::{Place, ended_at, take_at};
use crate::taker::TakeEnds;
use mx_crew::Crew;
use mx_desk::{Adding, Desk, Ended};
use mx_fetch::{Fetch, Turned};
use mx_link::Link;
use mx_request::{Request, RequestError};
use mx_run_io::{Options, Stop};
use mx_sink::Held;
use mx_text::build_get;
use std::alloc::{AllocFailed, AllocGlobal, Global};
use std::marker::Model;
use std::rt::Clock;
use std::snapshot::Snapshot;
use std::sync::Wait;

/// The longest that a message is waited for, in milliseconds, before it is waited for again.
const LONGEST_WAIT_MS: u32 = 60_000;

// What a URL ends with that is refused so, unless memory was.
fn refused(error: RequestError) -> Result<UrlEnd, Stop>
    ensures end { IfOk result (λ end. end ≡ fetched.Refused (refusal_code error)) }
    ensures other { IfOk result (λ _. error ≢ refusal.OutOfMemory) }
{
    match error {
        RequestError::OutOfMemory => Err(Stop::OutOfMemory),
        error => Ok(UrlEnd::refused(error.code())),
    }
}

/// The URLs of a run, how they are fetched, a place for each that was added or refused, in their order, and what takes their ends: the number
/// of a place is the number of its addition.
#[derive(Drop)]
pub struct Getting<'u, T: TakeEnds + Drop> {
    urls: &'u [&'u str],
    options: Options,
    places: Vec<Place>,
    taker: T,
}

impl<'u, T: TakeEnds + Drop> Model for Getting<'u, T> {
    ghost use Rattle.std.specs.Prelude.{map};
    ghost use Rattle.mx_run_get.specs.Getting.{GettingValue, IsGetting};

    ghost Value = { GettingValue };

    ghost view = { λ g. record { urls = map (λ u. u.now) g.urls.now; options = g.options; places = g.places.items; taken = T.taken g.taker; begun = T.begun g.taker } };

    ghost invariant = { λ g. IsGetting (record { urls = map (λ u. u.now) g.urls.now; options = g.options; places = g.places.items; taken = T.taken g.taker; begun = T.begun g.taker }) };
}

impl<'u, T: TakeEnds + Drop> Getting<'u, T> {
    /// No URL is added yet, and no end is taken. It is in a box, since it is moved through many frames of the stack. Where memory is refused
    /// what takes the ends comes back.
    pub fn boxed(
        alloc: Global,
        urls: &'u [&'u str],
        options: Options,
        taker: T,
    ) -> Result<Box<Getting<'u, T>>, T>
        requires { T.taken taker ≡ [] }
        ensures new { IfOk result (λ g. (g.value.urls ≡ map (λ u. u.now) urls.now) × (g.value.options ≡ options) × (g.value.places ≡ []) × (g.value.begun ≡ T.begun taker)) }
        ensures back { IfErr result (λ back. (T.taken back ≡ []) × (T.begun back ≡ T.begun taker)) }
    {
        let Ok(places) = Vec::with_capacity(alloc, urls.len()) else {
            return Err(taker);
        };
        let getting = Getting {
            urls,
            options,
            places,
            taker,
        };
        match Box::new(alloc, getting) {
            Ok(getting) => Ok(getting),
            Err(AllocFailed { value }) => Err(value.into_taker()),
        }
    }

    /// What took the ends.
    pub fn into_taker(self) -> T
        ensures taken { T.taken result ≡ self.entry.taken }
        ensures begun { T.begun result ≡ self.entry.begun }
        ensures asked { IsGetting self.entry }
    {
        let Getting {
            urls: _,
            options: _,
            places,
            taker,
        } = self;
        drop(places);
        taker
    }

    // Whether a URL is left to add.
    fn has_more(&self) -> bool
        ensures more { IsTrue result → length self.now.places < length self.now.urls }
        ensures all { result ≡ false → length self.now.places ≡ length self.now.urls }
        ensures is { IsGetting self.now }
    {
        self.places.len() < self.urls.len()
    }

    // Whether the next URL can be added now, or is refused.
    fn may_add<L: Link>(&self, desk: &Desk<'_, '_, L>) -> bool
        ensures more { IsTrue result → length self.now.places < length self.now.urls }
        ensures room { IsTrue result → HasRoom desk.now }
    {
        self.has_more() && !desk.is_full() && desk.has_room()
    }

    // Adds the transfer of the next URL's request, under the number of its place, if the desk takes one more.
    fn add_request<L: Link, R: Wait + AllocGlobal>(
        &mut self,
        rt: &R,
        desk: &mut Desk<'_, '_, L>,
        request: Request,
    ) -> Result<(), Stop>
        requires room { HasRoom desk.old }
        requires next { asked_next self.old ≡ Some (Ok request) }
        requires all { AreAwaited self.old.places desk.old.asked }
        ensures all { OnOk result (AreAwaited self.new.places desk.new.asked) }
        ensures same { IsSameGetting self.old self.new }
    {
        let asked = Snapshot::of(&request);
        match desk.add(rt, self.places.as_slice().len(), request, Held) {
            Adding::Made(_) => {
                self.places.push(Place::Awaited(asked))?;
                Ok(())
            }
            Adding::Refused(request, _) => {
                drop(request);
                drop(asked);
                Ok(())
            }
            Adding::OutOfMemory(request, _) => {
                drop(request);
                drop(asked);
                Err(Stop::OutOfMemory)
            }
        }
    }

    // Adds the transfer of the next URL, or notes at its place why it is refused.
    fn add<L: Link, R: Wait + AllocGlobal>(
        &mut self,
        rt: &R,
        desk: &mut Desk<'_, '_, L>,
    ) -> Result<(), Stop>
        requires more { length self.old.places < length self.old.urls }
        requires room { HasRoom desk.old }
        requires all { AreAwaited self.old.places desk.old.asked }
        ensures all { OnOk result (AreAwaited self.new.places desk.new.asked) }
        ensures same { IsSameGetting self.old self.new }
    {
        let url = self.urls[self.places.as_slice().len()];
        let Options {
            timeout_ms,
            max_redirects,
            ..
        } = self.options;
        match build_get(rt.alloc(), url, timeout_ms, max_redirects) {
            Ok(request) => self.add_request(rt, desk, request),
            Err(error) => {
                let end = refused(error)?;
                self.places.push(Place::Known(end))?;
                Ok(())
            }
        }
    }

    // rule get-ends
    // Notes what a transfer ended with, at the place of its number.
    fn note(&mut self, alloc: Global, ended: Ended) -> Result<(), Stop>
        requires asked { (place : AtPlace) → slice_get self.old.places ended.at ≡ Some place → is_awaiting place ≡ true → asked_at place ≡ Ok ended.outcome.request }
        ensures noted { OnOk result ((is_awaiting_at self.old.places ended.at ≡ true) × (self.new.places ≡ noted_at self.old.places ended.at ended.outcome)) }
        ensures same { IsSameGetting self.old self.new }
    {
        let Ended { at, outcome, .. } = ended;
        if ended_at(alloc, &mut self.places, at, outcome) {
            return Ok(());
        }
        Err(Stop::NoMessage)
    }

    // Waits for the next message, and notes it.
    fn await_one<L: Link, R: Wait + AllocGlobal + Clock>(
        &mut self,
        rt: &R,
        desk: &mut Desk<'_, '_, L>,
    ) -> Result<(), Stop>
        requires all { AreAwaited self.old.places desk.old.asked }
        ensures all { OnOk result (AreAwaited self.new.places desk.new.asked) }
        ensures same { IsSameGetting self.old self.new }
    {
        match desk.next(rt, LONGEST_WAIT_MS)? {
            Some(ended) => self.note(rt.alloc(), ended),
            None => Ok(()),
        }
    }

    // rule get-at-once
    // Gives on the next end, if it is known. The answer is whether it is.
    fn give_one(&mut self) -> Result<bool, Stop>
        ensures given { IfOk result (λ given. given ≡ true → (length self.new.taken ≡ length self.old.taken + 1) × (length self.new.taken ≤ length self.new.places)) }
        ensures all { IfOk result (λ given. given ≡ false → HasTakenAll self.new) }
        ensures places { length self.new.places ≡ length self.old.places }
        ensures awaited { (asked : List (Option RequestValue)) → AreAwaited self.old.places asked → AreAwaited self.new.places asked }
        ensures same { IsSameGetting self.old self.new }
    {
        let at = self.taker.count();
        let Some(end) = take_at(&mut self.places, at)? else {
            return Ok(false);
        };
        // proof: what holds of an end
        end.know();
        self.taker.take(end)?;
        Ok(true)
    }

    // rule get-at-once
    // Gives on all ends that are known before the first one that isn't, and has a reader see them.
    fn give_known(&mut self) -> Result<(), Stop>
        ensures all { OnOk result (HasTakenAll self.new) }
        ensures awaited { (asked : List (Option RequestValue)) → AreAwaited self.old.places asked → AreAwaited self.new.places asked }
        ensures same { IsSameGetting self.old self.new }
    {
        let mut is_any = false;
        while self.give_one()? {
            is_any = true;
        }
        if is_any {
            self.taker.flush()?;
        }
        Ok(())
    }

    // How the run leaves its desk, where nothing is added there.
    fn left<L: Link>(&self, desk: &Desk<'_, '_, L>) -> Option<Turned>
        requires all { AreAwaited self.now.places desk.now.asked }
        requires taken { HasTakenAll self.now }
        ensures { IfSome result (HasLeft self.now) }
    {
        if !desk.is_empty() {
            return None;
        }
        if self.has_more() {
            return Some(Turned::HistoryFull);
        }
        Some(Turned::AllEnded)
    }

    // rule get-width
    // Adds the URLs, each once there is room for it, waits for all messages, and gives on each end once all before it are given on. The workers
    // are woken before a message is awaited, where something was added since.
    fn take_turns<L: Link, R: Wait + AllocGlobal + Clock>(
        &mut self,
        rt: &R,
        crew: &Crew,
        desk: &mut Desk<'_, '_, L>,
    ) -> Result<Turned, Stop>
        requires all { AreAwaited self.old.places desk.old.asked }
        ensures turned { IfOk result (HasLeft self.new) }
        ensures all { OnOk result (AreAwaited self.new.places desk.new.asked) }
        ensures same { IsSameGetting self.old self.new }
    {
        let mut added = 0usize;
        for _ in rt.forever() {
            self.give_known()?;
            if self.may_add(desk) {
                self.add(rt, desk)?;
                added = added.saturating_add(1);
                continue;
            }
            if let Some(turned) = self.left(desk) {
                return Ok(turned);
            }
            if added > 0 {
                crew.wake(added);
                added = 0;
            }
            self.await_one(rt, desk)?;
        }
        unreachable!()
    }
}

impl<'u, T: TakeEnds + Drop> Fetch<Held> for Getting<'u, T> {
    ghost is_asked = { λ g asked. AreAwaited g.places asked };

    ghost has_turned = { λ g how. HasLeft g how };

    ghost is_same = { λ g h. IsSameGetting g h };

    fn fetch<L: Link, R: Wait + AllocGlobal + Clock>(
        &mut self,
        rt: &R,
        crew: &Crew,
        desk: &mut Desk<'_, '_, L>,
        _patience: Option<u32>,
    ) -> Result<Turned, Stop> {
        self.take_turns(rt, crew, desk)
    }

    ghost same = { λ g. (refl, refl, refl) };

    ghost then = { λ f g h k l. (l.0 ∙ k.0, l.1 ∙ k.1, l.2 ∙ k.2) };

    ghost none = { λ g left asked. left asked };
}
