//! A caller that opens a multi handle, adds requests and reads their messages, and whose seats meet.

ghost use Rattle.std.specs.Prelude.{◌≡◌, ◌<◌, true, length, IfOk, IfSome};
ghost use Rattle.std.specs.List.{All};
ghost use Rattle.mx_types.specs.declared.code.Code.TheVariants as code;
ghost use Rattle.mx_request.specs.Request.{request_origin};
ghost use Rattle.mx_exchange.specs.Hops.{HasContent};
ghost use Rattle.mx_chain.specs.Outcomes.{IsOutcome};
ghost use Rattle.mx_lock.specs.Ties.{Has, tie};
ghost use Rattle.mx_multi.specs.Meeting.{Meets};
ghost use Rattle.mx_types.specs.declared.origin.Origin.{Origin};

use mx_chain::Outcome;
use mx_journal::AddReply;
use mx_lock::TiedClaim;
use mx_message::next_message;
use mx_multi::{
    Application, AtWork, Limits, Multi, OpenError, OwnedMulti, Seat, Seated, WorkerSeat,
};
use mx_types::{HandleId, Ticket, Work};
use std::alloc::Global;
use std::sync::Wait;

// The outcome of the next message, where that is of this ticket.
fn read_of<Q: Work + Drop, R: Wait>(
    rt: &R,
    seat: &mut Seated<'_, Application, Q, Outcome>,
    ticket: Ticket,
) -> Option<Outcome>
    ensures told { IfSome result (λ o. (origin : Origin) → Has seat.old.ties (tie ticket origin) → request_origin o.request ≡ origin) }
    ensures outcome { IfSome result (λ o. IsOutcome o) }
    ensures body { IfSome result (λ o. o.code ≡ code.Ok → HasContent o.last) }
{
    let Ok(message) = next_message(rt, seat) else {
        return None;
    };
    if message.ticket != ticket {
        return None;
    }
    Some(message.outcome)
}

/// Adds a transfer, and reads the next message. If that is of this addition, its outcome is that of the very request that was added: its
/// hops are a chain that begins with that request, and with `Code::Ok` its content is that of the response to the last request of the
/// chain.
pub fn add_and_read<Q: Work + Drop, R: Wait>(
    rt: &R,
    seat: &mut Seated<'_, Application, Q, Outcome>,
    handle: HandleId,
    work: Q,
) -> Option<Outcome>
    ensures request { IfSome result (λ o. request_origin o.request ≡ Q.origin work) }
    ensures outcome { IfSome result (λ o. IsOutcome o) }
    ensures body { IfSome result (λ o. o.code ≡ code.Ok → HasContent o.last) }
{
    let Ok(AddReply::Added(ticket)) = seat.add(rt, handle, work) else {
        return None;
    };
    let Some(outcome) = read_of(rt, seat, ticket) else {
        return None;
    };
    Some(outcome)
}

// Ends a claimed transfer, and drops what isn't recorded.
fn finish_one<Q: Work + Drop, R: Wait>(
    rt: &R,
    worker: &mut Seated<'_, AtWork, Q, Outcome>,
    claim: TiedClaim<Q>,
    outcome: Outcome,
) -> bool
    requires claim { claim.of ≡ worker.old.of.engine.ties }
    requires origin { request_origin outcome.request ≡ claim.origin }
    ensures of { worker.new.of ≡ worker.old.of }
{
    worker.finish(rt, claim, outcome).is_ok()
}

/// Ends a claimed transfer through a seat of the multi handle that gave the claim. The other seat, which may be of another multi handle,
/// would refuse that claim.
pub fn finish_claimed<Q: Work + Drop, R: Wait>(
    rt: &R,
    worker: &mut Seated<'_, AtWork, Q, Outcome>,
    other: &mut Seated<'_, AtWork, Q, Outcome>,
    claim: TiedClaim<Q>,
    outcome: Outcome,
) -> bool
    requires claim { claim.of ≡ worker.old.of.engine.ties }
    requires origin { request_origin outcome.request ≡ claim.origin }
{
    let _cut = other.cut();
    finish_one(rt, worker, claim, outcome)
}

/// Ends two claimed transfers, each with the outcome of its request.
pub fn finish_both<Q: Work + Drop, R: Wait>(
    rt: &R,
    worker: &mut Seated<'_, AtWork, Q, Outcome>,
    claims: (TiedClaim<Q>, TiedClaim<Q>),
    outcomes: (Outcome, Outcome),
) -> bool
    requires claims { (claims.0.of ≡ worker.old.of.engine.ties) × (claims.1.of ≡ worker.old.of.engine.ties) }
    requires origins { (request_origin outcomes.0.request ≡ claims.0.origin) × (request_origin outcomes.1.request ≡ claims.1.origin) }
{
    let (one, two) = claims;
    let (first, second) = outcomes;
    let is_first = finish_one(rt, worker, one, first);
    let is_second = finish_one(rt, worker, two, second);
    is_first && is_second
}

/// Claims work, and gives it back to the multi handle that gave the claim. The other seat, which may be of another one, would refuse that
/// claim.
pub fn claim_and_give_back<Q: Work + Drop, R: Wait>(
    rt: &R,
    worker: &mut Seated<'_, AtWork, Q, Outcome>,
    other: &mut Seated<'_, AtWork, Q, Outcome>,
) -> bool {
    let _cut = other.cut();
    let Some((claim, work)) = worker.claim(rt) else {
        return false;
    };
    worker.give_back(rt, claim, work).is_ok()
}

/// Opens a multi handle with these limits.
pub fn open_with<Q: Work + Drop, R: Wait>(
    rt: &R,
    alloc: Global,
    limits: Limits,
) -> Result<
    (
        OwnedMulti<Q, Outcome>,
        Vec<Seat<Q, Outcome>>,
        Vec<WorkerSeat<Q, Outcome>>,
    ),
    OpenError,
>
    ensures { IfOk result (λ r. r.0.limits ≡ limits) }
{
    Multi::open(rt, alloc, limits)
}

/// Lets two seats see one list of events, and answers whether they do.
pub fn meet_two<'m, Q: Work + Drop, R: Wait>(
    rt: &R,
    one: &mut Seated<'m, Application, Q, Outcome>,
    two: &mut Seated<'m, Application, Q, Outcome>,
) -> bool
    requires { two.old.of ≡ one.old.of }
    ensures { result ≡ true → one.new.seen ≡ two.new.seen }
{
    one.meet(rt, two).is_ok()
}

/// Lets all these seats see one list of events, and answers how many it has.
pub fn meet_each<Q: Work + Drop, R: Wait>(
    rt: &R,
    multi: &Multi<Q, Outcome>,
    seats: &mut [Seat<Q, Outcome>],
    workers: &mut [WorkerSeat<Q, Outcome>],
) -> Option<u32>
    requires some { 0 < length workers.old }
    requires own { All (λ s. s.of ≡ multi.now) seats.old × All (λ s. s.of ≡ multi.now) workers.old }
    ensures { IfSome result (λ n. Meets seats.old seats.new workers.old workers.new n) }
{
    let Ok(count) = multi.meet_all(rt, seats, workers) else {
        return None;
    };
    Some(count)
}
