//! A second multi handle, beside one that is held up.
ghost use Rattle.std.specs.Prelude.{◌≡◌, true, IfSome, None, Some};
ghost use Rattle.std.proofs.Common.{subst, sym};
ghost use Rattle.mx_multi.specs.Opening.{are_within};
ghost use Rattle.mx_fetch.specs.Handles.{IsBack};

use crate::fetch::Fetch;
use crate::handle::beside_gates;
use crate::spare::Spare;
use crate::turned::Turned;
use mx_chain::Outcome;
use mx_crew::{Crew, Opened, open_one};
use mx_desk::Desk;
use mx_gate::Gate;
use mx_link::Link;
use mx_multi::{Application, Limits, Seated};
use mx_run_io::Stop;
use mx_sink::Delivery;
use mx_transfer_core::Queued;
use std::alloc::AllocGlobal;
use std::mem;
use std::rt::Clock;
use std::sync::Wait;
use std::thread::Threads;

/// What a run has with it at a second multi handle: its desk, whose first seat is at the first one, and how it came back from there, where
/// it was there. The desk isn't left where the run stopped with something added at the second one.
#[derive(Drop)]
pub(crate) struct Second<'e, L: Link, D: Delivery, E> {
    pub desk: Option<Desk<'e, 'e, L, D>>,
    pub errand: Box<E>,
    pub turned: Option<Result<Turned, Stop>>,
}

/// What fetches at a seat that it is given. It is a type parameter to what runs a crew beside it, so that the closure there captures and
/// gives back no lifetime: the prover doesn't come to the end of such a closure's contract.
trait FetchAt<L: Link, D: Delivery> {
    /// It may be given a seat.
    ghost is_ready: { Self → Type 0 };

    /// It is so after it was given a seat, or none.
    ghost is_back: { Self → Self → Type 0 };

    /// Where there is no seat for it, it is back as it was.
    ghost unseated: { (x : Self) → is_ready x → is_back x x };

    /// Fetches at this seat, which it takes out of its place. It may wait.
    fn fetch_at<R: Wait + AllocGlobal + Clock>(
        &mut self,
        rt: &R,
        crew: &Crew,
        seat: &mut Option<Seated<'_, Application, Queued<L, D>, Outcome<D>>>,
    )
        requires { is_ready self.old }
        ensures { is_back self.old self.new };
}

// Fetches at a desk with this seat beside its first one. The desk comes back, unless something is added at that seat still.
fn fetch_two<'e, 'm, L: Link, D: Delivery, R: Wait + AllocGlobal + Clock, E: Fetch<D> + Drop>(
    rt: &R,
    crew: &Crew,
    desk: Desk<'e, 'e, L, D>,
    seat: Seated<'m, Application, Queued<L, D>, Outcome<D>>,
    errand: &mut E,
) -> (Option<Desk<'e, 'e, L, D>>, Result<Turned, Stop>)
    requires { E.is_asked errand.old desk.asked }
    ensures run { E.is_same errand.old errand.new }
    ensures back { IsBack (E.is_asked errand.new) (E.has_turned errand.new) result.0 (Some result.1) }
{
    let Some(mut two) = desk.with_beside(Some(seat)) else {
        return (None, Err(Stop::NoMessage));
    };
    let turned = errand.fetch(rt, crew, &mut two, None);
    // None of the desk's own lifetime: the prover covers no argument at another one than the callee's.
    let none: Option<Seated<'e, Application, Queued<L, D>, Outcome<D>>> = None;
    (two.with_beside(none), turned)
}

impl<'e, L: Link, D: Delivery, E: Fetch<D> + Drop> FetchAt<L, D> for Second<'e, L, D, E> {
    // It has not been there, and is the same run as itself: so it is back where it couldn't be there.
    ghost is_ready = { λ s. (s.turned ≡ None) × (E.is_same s.errand.value s.errand.value × IfSome s.desk (λ d. E.is_asked s.errand.value d.asked)) };

    ghost is_back = { λ s t. E.is_same s.errand.value t.errand.value × IsBack (E.is_asked t.errand.value) (E.has_turned t.errand.value) t.desk t.turned };

    ghost unseated = { λ s ready. (ready.1.0, subst (IsBack (E.is_asked s.errand.value) (E.has_turned s.errand.value) s.desk) (sym ready.0) ready.1.1) };

    // Fetches with this seat beside the first one, where there is a desk.
    fn fetch_at<R: Wait + AllocGlobal + Clock>(
        &mut self,
        rt: &R,
        crew: &Crew,
        seat: &mut Option<Seated<'_, Application, Queued<L, D>, Outcome<D>>>,
    ) {
        let Some(seat) = seat.take() else {
            return;
        };
        let Some(desk) = self.desk.take() else {
            return;
        };
        let (desk, turned) = fetch_two(rt, crew, desk, seat, &mut *self.errand);
        drop(mem::replace(&mut self.desk, desk));
        self.turned = Some(turned);
    }
}

// Fetches at a new multi handle, with a worker at each gate, and closes it. The gates come back.
fn fetch_opened<
    L: Link + Send,
    D: Delivery + Send,
    R: Threads + Wait + Clock + AllocGlobal + Sync,
    G: Gate<Link = L> + Send + Drop,
    F: FetchAt<L, D> + Drop,
>(rt: &R, crew: &Crew, gates: Vec<G>, limits: Limits, fetcher: F) -> (F, Result<Vec<G>, Stop>)
    requires within { are_within limits ≡ true }
    requires one { limits.seats ≡ 1 }
    requires ready { F.is_ready fetcher }
    ensures { F.is_back fetcher result.0 }
{
    match open_one::<L, D, R>(rt, limits) {
        Ok(opened) => {
            let Opened {
                multi,
                seat,
                workers,
            } = opened;
            let shared = multi.shared();
            let seat = shared.at(seat);
            let fetched = beside_gates(
                rt,
                crew,
                shared,
                workers,
                gates,
                limits,
                move |stands: Result<(), Stop>| -> F
                    requires { F.is_ready fetcher }
                    ensures { F.is_back fetcher result }
                {
                    let mut fetcher = fetcher;
                    match stands {
                        Ok(()) => {
                            let mut seat = Some(seat);
                            fetcher.fetch_at(rt, crew, &mut seat);
                            drop(seat);
                            fetcher
                        }
                        Err(_) => {
                            drop(seat);
                            fetcher
                        }
                    }
                },
            );
            multi.close(rt);
            fetched
        }
        Err(_) => {
            drop(gates);
            (fetcher, Err(Stop::OutOfMemory))
        }
    }
}

// Fetches at a new multi handle, with a worker at each of the gates, which come back with their crew.
fn fetch_once<
    L: Link + Send,
    D: Delivery + Send,
    R: Threads + Wait + Clock + AllocGlobal + Sync,
    G: Gate<Link = L> + Send + Drop,
    F: FetchAt<L, D> + Drop,
>(rt: &R, spare: Spare<G>, limits: Limits, fetcher: F) -> (F, Option<Spare<G>>)
    requires within { are_within limits ≡ true }
    requires one { limits.seats ≡ 1 }
    requires ready { F.is_ready fetcher }
    ensures { F.is_back fetcher result.0 }
{
    let Spare { crew, gates } = spare;
    crew.resume();
    let (fetcher, free) = fetch_opened::<L, D, R, G, F>(rt, &crew, gates, limits, fetcher);
    match free {
        Ok(gates) => (fetcher, Some(Spare { crew, gates })),
        Err(_) => {
            drop(crew);
            (fetcher, None)
        }
    }
}

/// Fetches at one multi handle after another beside the first one, for as long as that is held up, and as there are gates.
pub(crate) fn fetch_seconds<
    'e,
    L: Link + Send,
    D: Delivery + Send,
    R: Threads + Wait + Clock + AllocGlobal + Sync,
    G: Gate<Link = L> + Send + Drop,
    E: Fetch<D> + Drop,
>(
    rt: &R,
    spare: Option<Spare<G>>,
    limits: Limits,
    second: Second<'e, L, D, E>,
) -> (Second<'e, L, D, E>, Option<Spare<G>>)
    requires within { are_within limits ≡ true }
    requires one { limits.seats ≡ 1 }
    requires asked { IfSome second.desk (λ d. E.is_asked second.errand.value d.asked) }
    ensures run { E.is_same second.entry.errand.value result.0.errand.value }
    ensures back { IsBack (E.is_asked result.0.errand.value) (E.has_turned result.0.errand.value) result.0.desk result.0.turned }
{
    let (mut spare, mut second) = (spare, second);
    for _ in rt.forever() {
        second.turned = None;
        let Some(gates) = spare else {
            return (second, None);
        };
        (second, spare) = fetch_once::<L, D, R, G, Second<'e, L, D, E>>(rt, gates, limits, second);
        if !matches!(second.turned, Some(Ok(Turned::Held))) {
            return (second, spare);
        }
    }
    unreachable!()
}
