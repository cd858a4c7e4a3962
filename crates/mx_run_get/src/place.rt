//! The places of URLs, and the ends that are known there.
ghost use Rattle.std.specs.Prelude.{◌≡◌, ◌<◌, true, false, Some, slice_get, slice_set, vec_len, IfOk, IfNone, IfSome, IsErr};
ghost use Rattle.mx_run_get.specs.Places.{IsAwaitedAt, TakesAt, is_awaiting_at, noted_at};
ghost use Rattle.mx_run_get.specs.declared.place.Place.TheVariants as place;

use crate::end::UrlEnd;
use mx_request::Request;
use mx_run_io::Stop;
use mx_transfer_core::Outcome;
use std::alloc::Global;
use std::mem;
use std::snapshot::Snapshot;

/// What is at the place of a URL.
#[derive(Drop)]
pub enum Place {
    /// The end of its transfer is awaited. Contracts see the request.
    Awaited(Snapshot<Request>),
    /// What the URL ended with, which isn't taken yet.
    Known(UrlEnd),
    /// What it ended with was taken. Contracts see it.
    Taken(Snapshot<UrlEnd>),
}

// Whether an end is awaited at that place.
fn is_awaited(places: &[Place], at: usize) -> bool
    ensures { result ≡ is_awaiting_at places.now at }
{
    match places.get(at) {
        Some(Place::Awaited(_)) => true,
        _ => false,
    }
}

// Keeps an end at a place: it is known there from then on.
fn keep_at(places: &mut Vec<Place>, at: usize, end: UrlEnd)
    requires { at < vec_len places.old }
    ensures { places.new.items ≡ slice_set places.old.items at (place.Known end) }
{
    places[at] = Place::Known(end);
}

/// Keeps at a place what its transfer ended with, where the end is awaited there. The answer is whether it is.
pub fn ended_at(alloc: Global, places: &mut Vec<Place>, at: usize, outcome: Outcome) -> bool
    ensures awaited { result ≡ is_awaiting_at places.old.items at }
    ensures noted { result ≡ true → places.new.items ≡ noted_at places.old.items at outcome }
    ensures other { result ≡ false → places.new.items ≡ places.old.items }
{
    if is_awaited(places.as_slice(), at) {
        keep_at(places, at, UrlEnd::ended(alloc, outcome));
        return true;
    }
    drop(outcome);
    false
}

// The end that is known at that place, for contracts alone, if it is: `None` where it is awaited, and where there is no place, and
// `NoMessage` where it was taken.
fn known_at(places: &[Place], at: usize) -> Result<Option<Snapshot<UrlEnd>>, Stop>
    ensures known { IfOk result (λ seen. IfSome seen (λ end. slice_get places.now at ≡ Some (place.Known end.value))) }
    ensures awaited { IfOk result (λ seen. IfNone seen (IsAwaitedAt places.now at)) }
{
    match places.get(at) {
        Some(Place::Known(end)) => Ok(Some(Snapshot::of(end))),
        Some(Place::Taken(_)) => Err(Stop::NoMessage),
        _ => Ok(None),
    }
}

/// Takes the end that is known at that place, if it is: `None` where it is awaited, and where there is no place. `NoMessage`, where it was
/// taken before, is the only error.
pub fn take_at(places: &mut Vec<Place>, at: usize) -> Result<Option<UrlEnd>, Stop>
    ensures taken { IfOk result (λ end. IfSome end (λ e. TakesAt places.old.items at e places.new.items)) }
    ensures awaited { IfOk result (λ end. IfNone end (IsAwaitedAt places.old.items at × (places.new.items ≡ places.old.items))) }
    ensures stays { IsErr result → places.new.items ≡ places.old.items }
{
    let Some(seen) = known_at(places.as_slice(), at)? else {
        return Ok(None);
    };
    let Place::Known(end) = mem::replace(&mut places[at], Place::Taken(seen)) else {
        unreachable!();
    };
    Ok(Some(end))
}
