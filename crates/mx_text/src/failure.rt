//! What is kept of a transfer that failed.
ghost use Rattle.std.specs.Prelude.{◌≡◌, ◌≢◌, length};
ghost use Rattle.mx_types.specs.declared.code.Code.TheVariants as codes;
ghost use Rattle.mx_chain.specs.Outcomes.{is_unfollowed_code};
ghost use Rattle.mx_text.specs.Failures.{IsWhy, IsFlowingWhy};

use mx_chain::Outcome;
use mx_reason::{Reason, reason_of};
use mx_sink::Delivery;
use mx_types::{Code, Method};
use std::alloc::Global;
use std::marker::Model;
use std::snapshot::Snapshot;

/// A transfer that failed: its code, its status, how many bytes of a response came, and why the decoder refused them. The bytes
/// themselves are dropped, with those of the hops before; contracts still see the whole outcome.
#[derive(Drop)]
pub struct Failure {
    code: Code,
    status: u16,
    len: usize,
    why: Option<Reason>,
    outcome: Snapshot<Outcome>,
}

impl Model for Failure {
    ghost use Rattle.std.specs.Prelude.{◌≡◌, ◌≢◌, length};
    ghost use Rattle.mx_types.specs.declared.code.Code.TheVariants as codes;
    ghost use Rattle.mx_chain.specs.Outcomes.{OutcomeValue, IsOutcome};
    ghost use Rattle.mx_text.specs.Failures.{IsWhy};

    ghost Value = { OutcomeValue };

    ghost view = { λ f. f.outcome.value };

    ghost invariant = { λ f. record {
      code : f.code ≡ f.outcome.value.code;
      failed : f.code ≢ codes.Ok;
      status : f.status ≡ f.outcome.value.status;
      len : f.len ≡ length f.outcome.value.wire;
      why : IsWhy f.outcome.value f.why;
      outcome : IsOutcome f.outcome.value;
    } };
}

/// Whether the code may say why a hop wasn't followed. Then its bytes are a whole response, as a rule, and aren't decoded again.
fn is_unfollowed(code: Code) -> bool
    ensures { result ≡ is_unfollowed_code code }
{
    matches!(
        code,
        Code::TooManyRedirects | Code::UrlMalformat | Code::UnsupportedProtocol | Code::OutOfMemory
    )
}

/// The method of the last hop's request.
pub fn last_method<D: Delivery>(outcome: &Outcome<D>) -> Method
    ensures { result ≡ outcome.now.last.request.method }
{
    match outcome.hop_request(outcome.hops() - 1) {
        Some(request) => request.method(),
        None => unreachable!(),
    }
}

/// Why the decoder refused the bytes of the last hop, as far as it is looked for: the byte at which it refused them, or where they end, if
/// they were cut. `None` where they are a whole response, and where the code may say why a whole one wasn't followed.
pub fn why_of(alloc: Global, outcome: &Outcome) -> Option<Reason>
    ensures { IsWhy outcome.now result }
{
    if is_unfollowed(outcome.code()) {
        return None;
    }
    reason_of(alloc, last_method(outcome), outcome.wire())
}

// rule get-body-failures
/// The same of a response whose content is handed on. `None`, too, where the body is too large, where content couldn't be written, and where
/// the code is `Ok`.
pub fn flowing_why_of<D: Delivery>(outcome: &Outcome<D>) -> Option<Reason>
    ensures { IsFlowingWhy outcome.now result }
{
    let code = outcome.code();
    match code {
        Code::Ok | Code::WriteError => None,
        Code::FilesizeExceeded => {
            // proof: what holds of an outcome
            outcome.know_end();
            None
        }
        _ if is_unfollowed(code) => None,
        _ => outcome.why(),
    }
}

impl Failure {
    // rule get-failures
    /// What is kept of that outcome.
    pub(crate) fn of(alloc: Global, outcome: Outcome) -> Failure
        requires { outcome.code ≢ codes.Ok }
        ensures { result ≡ outcome }
    {
        // proof: what holds of an outcome
        outcome.know();
        Failure {
            code: outcome.code(),
            status: outcome.status(),
            len: outcome.wire().len(),
            why: why_of(alloc, &outcome),
            outcome: Snapshot::of(&outcome),
        }
    }

    /// The code.
    pub fn code(&self) -> Code
        ensures code { result ≡ self.now.code }
        ensures failed { result ≢ codes.Ok }
    {
        self.code
    }

    /// The status of the last hop's final head, 0 where none was read.
    pub fn status(&self) -> u16
        ensures { result ≡ self.now.status }
    {
        self.status
    }

    /// How many bytes of the last hop's response came: the length of its wire.
    pub fn wire_len(&self) -> usize
        ensures { result ≡ length self.now.wire }
    {
        self.len
    }

    /// After how many bytes of it the decoder refused it, and what was wrong there; or where it ended, if it was cut. `None` where it is a
    /// whole response, and where the code may say why a whole one wasn't followed.
    pub fn reason(&self) -> Option<Reason>
        ensures { IsWhy self.now result }
    {
        self.why
    }
}
