//! A run, which goes from desk to desk.
ghost use Rattle.std.specs.Prelude.{◌≡◌, false, List, Option, IfOk, OnOk};
ghost use Rattle.std.proofs.Common.{◌∙◌, refl};
ghost use Rattle.mx_request.specs.Request.{RequestValue};
ghost use Rattle.mx_fetch.specs.declared.turned.Turned.{Turned as Left};
ghost use Rattle.mx_fetch.specs.declared.turned.Turned.TheVariants as how;
ghost use Rattle.mx_save_urls.specs.Works.{AreBroughtOn, IsSameWork};
ghost use Rattle.mx_save_urls.specs.Asked.{AreAsked, HasTurned};

use crate::requests::Requests;
use crate::timer::Timer;
use crate::turns::take_turns;
use crate::watch::Watch;
use crate::work::Work;
use mx_crew::Crew;
use mx_desk::Desk;
use mx_fetch::{Fetch, Turned};
use mx_folder::Folder;
use mx_link::Link;
use mx_run_io::Stop;
use mx_save_end::Spool;
use mx_sink::Delivery;
use std::alloc::AllocGlobal;
use std::io::{Read, Write};
use std::rt::Clock;
use std::sync::Wait;

/// What fetches at one desk after another, of which it knows the requests alone. Its members are those of `Fetch`.
pub(crate) trait FetchOn<D: Delivery> {
    ghost is_asked: { Self → List (Option RequestValue) → Type 0 };

    ghost has_turned: { Self → Left → Type 0 };

    ghost is_same: { Self → Self → Type 0 };

    /// As `Fetch::fetch`.
    fn fetch_on<K: Requests<D>, R: Wait + AllocGlobal + Clock>(
        &mut self,
        rt: &R,
        crew: &Crew,
        desk: &mut K,
        patience: Option<u32>,
    ) -> Result<Turned, Stop>
        requires asked { is_asked self.old (K.asked desk.old) }
        ensures turned { IfOk result (has_turned self.new) }
        ensures asked { OnOk result (is_asked self.new (K.asked desk.new)) }
        ensures run { is_same self.old self.new };

    ghost same: { (x : Self) → is_same x x };

    ghost then: { (x y z : Self) → is_same x y → is_same y z → is_same x z };

    ghost none: { (x : Self) → has_turned x how.HistoryFull → (asked : List (Option RequestValue)) → is_asked x asked };
}

/// What fetches so, at desks.
#[derive(Drop)]
pub(crate) struct AtDesks<T> {
    pub(crate) run: T,
}

impl<D: Delivery, T: FetchOn<D>> Fetch<D> for AtDesks<T> {
    ghost is_asked = { λ r asked. T.is_asked r.run asked };

    ghost has_turned = { λ r how. T.has_turned r.run how };

    ghost is_same = { λ r s. T.is_same r.run s.run };

    fn fetch<L: Link, R: Wait + AllocGlobal + Clock>(
        &mut self,
        rt: &R,
        crew: &Crew,
        desk: &mut Desk<'_, '_, L, D>,
        patience: Option<u32>,
    ) -> Result<Turned, Stop> {
        self.run.fetch_on(rt, crew, desk, patience)
    }

    ghost same = { λ r. T.same r.run };

    ghost then = { λ r s t h k. T.then r.run s.run t.run h k };

    ghost none = { λ r h asked. T.none r.run h asked };
}

/// A run: its URLs, who watches it, and its clock.
#[derive(Drop)]
pub(crate) struct Run<'a, F: Folder, W: Write, Rd: Read + Drop, V> {
    pub(crate) work: Work<'a, F, W, Rd>,
    pub(crate) watch: V,
    pub(crate) timer: Timer,
}

impl<'a, F: Folder, W: Write, Rd: Read + Drop, V: Watch> FetchOn<Spool<F>>
    for Run<'a, F, W, Rd, V> {
    ghost is_asked = { λ r asked. (r.work.book.is_stopped ≡ false) × AreAsked r.work.book.asking r.work.book.slots asked
        × AreBroughtOn r.work.book.slots r.work.waiting };

    ghost has_turned = { λ r how. (r.work.book.is_stopped ≡ false) × HasTurned r.work how × AreBroughtOn r.work.book.slots r.work.waiting };

    ghost is_same = { λ r s. IsSameWork r.work s.work };

    fn fetch_on<K: Requests<Spool<F>>, R: Wait + AllocGlobal + Clock>(
        &mut self,
        rt: &R,
        crew: &Crew,
        desk: &mut K,
        patience: Option<u32>,
    ) -> Result<Turned, Stop> {
        take_turns(
            rt,
            crew,
            desk,
            &mut self.work,
            &mut self.watch,
            self.timer,
            patience,
        )
    }

    ghost same = { λ r. record {
      book = record { asking = refl; output = refl; json = refl; folder = refl; flush = refl };
      first = refl;
    } };

    ghost then = { λ r s t h k. record {
      book = record {
        asking = k.book.asking ∙ h.book.asking;
        output = k.book.output ∙ h.book.output;
        json = k.book.json ∙ h.book.json;
        folder = k.book.folder ∙ h.book.folder;
        flush = k.book.flush ∙ h.book.flush;
      };
      first = k.first ∙ h.first;
    } };

    ghost none = { λ r h asked. (h.0, λ i job ticket number is. absurd (h.1 i job ticket number is), h.2) };
}
