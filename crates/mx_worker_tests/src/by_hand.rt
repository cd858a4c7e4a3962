//! A transfer that a worker's seat claims, and that is polled and ended by hand, with no worker.

use crate::polls::outcome_of;
use crate::stage::SeatedWorker;
use mx_journal::FinishReply;
use mx_types::Look;
use std::sync::Wait;

// Whether an end is recorded. It is generic over claim and end, so that what comes back is dropped as one value.
fn is_recorded<C: Drop, O: Drop, W: Drop>(answer: Result<FinishReply<C, O>, W>) -> bool {
    matches!(answer, Ok(FinishReply::Recorded))
}

// Claims a transfer, polls it at the moments 0 and 1 as the look at it says, and records its end. It says whether it was paused; None
// where any of this went otherwise.
fn end_claimed<R: Wait>(rt: &R, worker: &mut SeatedWorker<'_>) -> Option<bool> {
    let Some((claim, queued)) = worker.claim(rt) else {
        return None;
    };
    let is_paused = matches!(worker.look(claim.ticket()), Some(Look::Paused));
    let is_recorded = match outcome_of(queued, is_paused) {
        Some(outcome) => is_recorded(worker.finish(rt, claim, outcome)),
        None => {
            drop(claim);
            false
        }
    };
    is_recorded.then_some(is_paused)
}

/// Claims a transfer at the seat, polls it at the moments 0 and 1 as the look at it says, and records its end. It says whether it was
/// paused; None where any of this went otherwise, or there is no seat.
pub fn end_at<R: Wait>(rt: &R, worker: Option<SeatedWorker<'_>>) -> Option<bool> {
    let Some(worker) = worker else {
        return None;
    };
    let mut worker = worker;
    let was_paused = end_claimed(rt, &mut worker);
    drop(worker);
    was_paused
}
