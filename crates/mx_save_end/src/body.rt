//! The body of a whole response.
ghost use Rattle.std.specs.Prelude.{◌≡◌, ◌≢◌, ◌-◌, ◌^◌, None, IfSome, length, min};
ghost use Rattle.mx_types.specs.declared.code.Code.TheVariants as code;
ghost use Rattle.mx_save_end.specs.Bodies.{IsWholeBody, body_of};

use mx_chain::Outcome;
use mx_save::Body;
use mx_sink::{Delivery, Outlet, Sink};
use mx_types::Code;
use std::marker::Model;
use std::snapshot::Snapshot;

/// The outcome of a transfer that ended with code 0, for contracts alone: its response is whole, and its body may be saved. Contracts see
/// the outcome.
#[derive(Drop)]
pub struct WholeBody<D: Delivery> {
    outcome: Snapshot<Outcome<D>>,
}

impl<D: Delivery> Model for WholeBody<D> {
    ghost use Rattle.mx_chain.specs.Outcomes.{OutcomeValue};
    ghost use Rattle.mx_save_end.specs.Bodies.{IsWholeBody};

    ghost Value = { OutcomeValue };

    ghost view = { λ b. b.outcome.value };

    ghost invariant = { λ b. IsWholeBody b.outcome.value };
}

impl<D: Delivery> WholeBody<D> {
    /// The body of an outcome; `None` if its code isn't 0.
    pub fn of(outcome: &Outcome<D>) -> Option<WholeBody<D>>
        ensures whole { IfSome result (λ body. body ≡ outcome.now) }
        ensures other { result ≡ None → outcome.now.code ≢ code.Ok }
    {
        // proof: what holds of an outcome
        outcome.know_end();
        match outcome.code() {
            Code::Ok => Some(WholeBody {
                outcome: Snapshot::of(outcome),
            }),
            _ => None,
        }
    }

    /// What holds of every such body. It does nothing: a call gives its caller's proof the law.
    pub fn know(&self)
        ensures { IsWholeBody self.now }
    {
        // proof: what holds of a whole body
        let _outcome = &self.outcome;
    }
}

impl<D: Delivery> Body for WholeBody<D> {
    ghost use Rattle.mx_save_end.specs.Bodies.{body_of};

    ghost content = { λ b. body_of b };
}

// The body of a whole response that is handed on is what was handed on. It does nothing: a call gives its caller's proof the law.
pub(crate) fn know_handed<S: Sink>(outcome: &Outcome<Outlet<S>>)
    ensures { outcome.now.code ≡ code.Ok → body_of outcome.now ≡ outcome.now.content }
{
    // proof: what holds of an outcome
    outcome.know_end();
    // proof: the response is whole
    let _code = outcome.code();
    // proof: its content is handed on
    let _delivery = outcome.delivery();
}

// The length of the body if the response is whole; it saturates at `u64::MAX`.
pub(crate) fn body_len<S: Sink>(outcome: &Outcome<Outlet<S>>) -> u64
    ensures { outcome.now.code ≡ code.Ok → result ≡ min (length (body_of outcome.now)) (2 ^ 64 - 1) }
{
    // proof: the body is what was handed on
    know_handed(outcome);
    outcome.content_len()
}
