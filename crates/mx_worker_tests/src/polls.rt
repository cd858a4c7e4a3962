//! Polls of a transfer by hand, with no worker.
ghost use Rattle.std.specs.Prelude.{◌≡◌, None, IfSome, IfNone};

use mx_link::ScriptLink;
use mx_transfer_core::{Outcome, Polled, TransferCore};
use mx_worker::Queued;

/// Polls a transfer once, at this moment, without a link: its outcome, if it ends.
pub fn poll_at(
    transfer: &mut TransferCore<ScriptLink>,
    moment: u64,
    is_paused: bool,
) -> Option<Outcome>
    requires running { transfer.old.code ≡ None }
    ensures request { IfSome result (λ outcome. outcome.request ≡ transfer.old.request) }
    ensures again { IfNone result (transfer.new.code ≡ None) }
    ensures kept { IfNone result (transfer.new.request ≡ transfer.old.request) }
{
    transfer.prepare(moment, is_paused);
    match transfer.poll() {
        Polled::Ended(outcome) => Some(outcome),
        Polled::Waits => None,
        Polled::Asks => None,
    }
}

// Polls a transfer at the moments 0 and 1: the outcome, if it ends at the second.
fn poll_twice(transfer: &mut TransferCore<ScriptLink>, is_paused: bool) -> Option<Outcome>
    requires running { transfer.old.code ≡ None }
    ensures request { IfSome result (λ outcome. outcome.request ≡ transfer.old.request) }
{
    if poll_at(transfer, 0, is_paused).is_some() {
        return None;
    }
    poll_at(transfer, 1, is_paused)
}

/// The same, of a transfer that was claimed.
pub fn outcome_of(queued: Queued<ScriptLink>, is_paused: bool) -> Option<Outcome>
    ensures request { IfSome result (λ outcome. outcome.request ≡ queued.request) }
{
    let mut transfer = queued.into_transfer();
    match poll_twice(&mut transfer, is_paused) {
        Some(outcome) => Some(outcome),
        None => None,
    }
}
