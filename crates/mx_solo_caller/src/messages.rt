//! Callers that add requests, have them performed, and read their messages.

ghost use Rattle.std.specs.Prelude.{◌≡◌, IfSome};
ghost use Rattle.mx_types.specs.declared.code.Code.TheVariants as code;
ghost use Rattle.mx_request.specs.Request.{request_origin};
ghost use Rattle.mx_exchange.specs.Hops.{HasBody};
ghost use Rattle.mx_chain.specs.Outcomes.{IsOutcome};
ghost use Rattle.mx_solo.specs.Owning.{IsOwn};

use mx_gate::Gate;
use mx_journal::{AddReply, InfoReply};
use mx_link::Link;
use mx_solo::Solo;
use mx_transfer_core::{Outcome, Queued};
use mx_types::{HandleId, Ticket};

// The outcome of the next message, where that is of this ticket.
fn read_of<L: Link>(solo: &mut Solo<L>, ticket: Ticket) -> Option<Outcome>
    ensures told { IfSome result (λ o. IsOwn solo.old.core.origins ticket o.request) }
    ensures outcome { IfSome result (λ o. IsOutcome o) }
    ensures body { IfSome result (λ o. o.code ≡ code.Ok → HasBody o.last) }
    ensures origins { solo.new.core.origins ≡ solo.old.core.origins }
{
    match solo.info_read() {
        InfoReply::Message {
            handle: _,
            ticket: its,
            ending,
            left: _,
        } => {
            if its != ticket {
                return None;
            }
            // proof: with `Ok` its response is whole
            let _code = ending.code();
            Some(ending)
        }
        _ => None,
    }
}

/// Adds a transfer, has it performed, and reads the next message. If that is of this addition, its outcome is that of the very request that
/// was added: its hops are a chain that begins with that request, and with `Code::Ok` its content is that of the whole response to the last
/// request of the chain.
pub fn add_and_read<L: Link, G: Gate<Link = L>>(
    solo: &mut Solo<L>,
    gate: &mut G,
    handle: HandleId,
    work: Queued<L>,
) -> Option<Outcome>
    ensures request { IfSome result (λ o. request_origin o.request ≡ request_origin work.request) }
    ensures outcome { IfSome result (λ o. IsOutcome o) }
    ensures body { IfSome result (λ o. o.code ≡ code.Ok → HasBody o.last) }
{
    let AddReply::Added(ticket) = solo.add(handle, work) else {
        return None;
    };
    let _running = solo.perform(gate);
    read_of(solo, ticket)
}

/// Calls between an addition and its message leave the requests that were added: an outcome is of the request that has its ticket there.
pub fn perform_and_read<L: Link, G: Gate<Link = L>>(
    solo: &mut Solo<L>,
    gate: &mut G,
    handle: HandleId,
    ticket: Ticket,
) -> Option<Outcome>
    ensures told { IfSome result (λ o. IsOwn solo.old.core.origins ticket o.request) }
{
    let _earlier = solo.info_read();
    let _paused = solo.pause(handle);
    let _running = solo.perform(gate);
    let _resumed = solo.unpause(handle);
    let _ended = solo.perform(gate);
    read_of(solo, ticket)
}
