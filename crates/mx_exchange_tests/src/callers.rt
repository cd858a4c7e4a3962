//! Callers of a transfer, like the layers above it: each has a contract, which follows from the clauses of what it calls with no proof
//! file. So the clauses say enough for the layers above.
ghost use Rattle.std.specs.Prelude.{◌≡◌, ◌≢◌, ◌≤◌, true, None, IsSome, length};
ghost use Rattle.futures.specs.Poll.{IfReady, OnPending};
ghost use Rattle.mx_types.specs.declared.code.Code.TheVariants as code;
ghost use Rattle.mx_line.specs.Order.{InOrder};
ghost use Rattle.mx_line.specs.Endings.{IsUndecided};
ghost use Rattle.mx_exchange.specs.Exchanges.{KeepsToken};
ghost use Rattle.mx_exchange.specs.Hops.{IsWhole, HasContent, IsFront};
ghost use Rattle.mx_chain.specs.Chains.{bytes_in, received_of};
ghost use Rattle.mx_chain.specs.Outcomes.{IsOutcome, hops_of, is_outcome_code};

use futures::Future;
use futures::task::{Context, Poll};
use mx_link::Link;
use mx_transfer::{Outcome, Transfer};
use mx_types::Code;

/// Polls once.
pub fn poll_once<L: Link>(transfer: &mut Transfer<L>, cx: &mut Context<'_>) -> Poll<Outcome>
    requires { transfer.old.chain.code ≡ None }
    ensures request { IfReady result (λ outcome. outcome.request ≡ transfer.old.chain.request) }
    ensures code { IfReady result (λ outcome. IsSome transfer.new.chain.code) }
    ensures received { IfReady result (λ outcome. received_of transfer.new.chain ≡ bytes_in (hops_of outcome)) }
    ensures again { OnPending result (transfer.new.chain.code ≡ None) }
    ensures kept { OnPending result (transfer.new.chain.request ≡ transfer.old.chain.request) }
    ensures undecided { OnPending result (IsUndecided transfer.new.chain.now.limit transfer.new.chain.now.request.method transfer.new.chain.now.answers) }
    ensures counted { received_of transfer.old.chain ≤ received_of transfer.new.chain }
    ensures token { KeepsToken L.token_of transfer.old.chain.now.link transfer.new.chain.now.link }
{
    transfer.poll(cx)
}

/// Whether the last hop of an outcome, wherever that comes from, is a whole response that no other followed.
pub fn is_whole(outcome: &Outcome) -> bool
    ensures whole { result ≡ true → IsWhole outcome.now.last }
    ensures content { result ≡ true → HasContent outcome.now.last }
    ensures only { outcome.now.code ≡ code.Ok → result ≡ true }
    ensures listed { is_outcome_code outcome.now.code outcome.now.last.limit ≡ true }
{
    // proof: its response is held
    outcome.know();
    outcome.code() == Code::Ok
}

/// How many parts its body has.
pub fn parts_of(outcome: &Outcome) -> usize
    ensures { outcome.now.code ≢ code.Ok → result ≡ 0 }
{
    outcome.part_count()
}

/// How many bytes of the last hop's link count. They are a prefix of what that link gave, and it was asked in order.
pub fn bytes_of(outcome: &Outcome) -> usize
    ensures count { result ≡ length outcome.now.wire }
    ensures front { IsFront outcome.now.last }
    ensures order { InOrder outcome.now.last.is_reused outcome.now.last.request.bytes outcome.now.last.answers }
{
    let _request = outcome.request();
    outcome.wire().len()
}

/// Takes the link of a transfer. What it ended with, or goes on with, stays.
pub fn link_of<L: Link>(transfer: &mut Transfer<L>) -> Option<L>
    ensures code { transfer.new.chain.code ≡ transfer.old.chain.code }
    ensures request { transfer.new.chain.request ≡ transfer.old.chain.request }
    ensures received { received_of transfer.new.chain ≡ received_of transfer.old.chain }
    ensures deadline { transfer.new.chain.now.deadline ≡ transfer.old.chain.now.deadline }
{
    transfer.take_link()
}
