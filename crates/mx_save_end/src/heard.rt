//! What is known of a transfer that has ended.
ghost use Rattle.std.specs.Prelude.{◌≡◌, ◌⊎◌, ◌-◌, ◌^◌, true, min, length};
ghost use Rattle.mx_types.specs.declared.code.Code.TheVariants as code;
ghost use Rattle.mx_chain.specs.Outcomes.{hops_of};
ghost use Rattle.mx_text.specs.Failures.{IsFlowingWhy};
ghost use Rattle.mx_save_rules.specs.Decisions.{IsDecision};
ghost use Rattle.mx_sink.specs.Sinks.{is_sink_code};
ghost use Rattle.mx_save_end.specs.Heard.{IsHeard, IsTransferred};

use crate::body::{WholeBody, body_len, know_handed};
use crate::framing::framing_of;
use mx_chain::Outcome;
use mx_save_rules::{Decision, Transferred, verdict_of};
use mx_sink::{Delivery, Outlet, Sink};
use mx_text::{FailureReport, flowing_why_of, last_method};
use mx_types::Code;
use std::marker::Model;
use std::snapshot::Snapshot;

/// What is known of a transfer that has ended, after its delivery was taken. Contracts see its outcome, too.
#[derive(Drop)]
pub struct Heard<D: Delivery> {
    /// What is done with its response.
    pub decision: Decision,
    /// What is reported of it.
    pub told: Transferred,
    /// Why it failed, if it did.
    pub report: FailureReport,
    /// True where its code is 0. Where it is true, its code is 0, 23 or 27.
    pub is_sound: bool,
    /// Its body; `None` if its code isn't 0.
    pub body: Option<WholeBody<D>>,
    outcome: Snapshot<Outcome<D>>,
}

impl<D: Delivery> Model for Heard<D> {
    ghost use Rattle.mx_save_end.specs.Heard.{HeardValue, IsHeard};

    ghost Value = { HeardValue };

    ghost view = { λ h. record {
      decision = h.decision;
      told = h.told;
      report = h.report;
      is_sound = h.is_sound;
      body = h.body;
      outcome = h.outcome.value;
    } };

    ghost invariant = { λ h. IsHeard (record {
      decision = h.decision;
      told = h.told;
      report = h.report;
      is_sound = h.is_sound;
      body = h.body;
      outcome = h.outcome.value;
    }) };
}

// How many hops an outcome has; it saturates at `u32::MAX`.
fn hops_of<D: Delivery>(outcome: &Outcome<D>) -> u32
    ensures { result ≡ min (length (hops_of outcome.now)) (2 ^ 32 - 1) }
{
    let hops = outcome.hops();
    if hops > u32::MAX as usize {
        return u32::MAX;
    }
    hops as u32
}

// What is reported of a transfer.
fn transferred<S: Sink>(outcome: &Outcome<Outlet<S>>, tries: u32) -> Transferred
    ensures { IsTransferred outcome.now tries result }
{
    Transferred {
        status: outcome.status(),
        length: body_len(outcome),
        framing: framing_of(outcome),
        hops: hops_of(outcome),
        tries,
    }
}

// Whether its code is 0, or that of a failure of its delivery.
fn is_sound<D: Delivery>(outcome: &Outcome<D>) -> bool
    ensures known { result ≡ true → (outcome.now.code ≡ code.Ok) ⊎ (is_sink_code outcome.now.code ≡ true) }
    ensures whole { outcome.now.code ≡ code.Ok → result ≡ true }
{
    let code = outcome.code();
    match outcome.delivery().fault() {
        Some(fault) => code == fault,
        None => code == Code::Ok,
    }
}

// What is done with the response of a transfer.
fn decide<D: Delivery>(content_on_error: bool, outcome: &Outcome<D>) -> Decision
    ensures { IsDecision outcome.now.code outcome.now.last.request.method outcome.now.status content_on_error result }
{
    verdict_of(
        outcome.code(),
        last_method(outcome),
        outcome.status(),
        content_on_error,
    )
}

// What is reported of its failure: its code, and the reason that its bytes show.
fn report_of<D: Delivery>(outcome: &Outcome<D>) -> FailureReport
    ensures code { result.code ≡ outcome.now.code }
    ensures reason { IsFlowingWhy outcome.now result.reason }
{
    FailureReport {
        code: outcome.code(),
        reason: flowing_why_of(outcome),
    }
}

impl<S: Sink> Heard<Outlet<S>> {
    /// What is known of a transfer that has ended. `tries` counts the tries of its URL, this one included.
    pub fn of(content_on_error: bool, outcome: &Outcome<Outlet<S>>, tries: u32) -> Heard<Outlet<S>>
        ensures outcome { result.outcome ≡ outcome.now }
        ensures decided { IsDecision outcome.now.code outcome.now.last.request.method outcome.now.status content_on_error result.decision }
        ensures tries { result.told.tries ≡ tries }
    {
        // proof: what holds of an outcome
        outcome.know_end();
        // proof: the body of a whole response is what was handed on
        know_handed(outcome);
        Heard {
            decision: decide(content_on_error, outcome),
            told: transferred(outcome, tries),
            report: report_of(outcome),
            is_sound: is_sound(outcome),
            body: WholeBody::of(outcome),
            outcome: Snapshot::of(outcome),
        }
    }
}

impl<D: Delivery> Heard<D> {
    /// What holds of every `Heard`. It does nothing: a call gives its caller's proof the law.
    pub fn know(&self)
        ensures { IsHeard self.now }
    {
        // proof: what holds of it
        let _told = self.told;
    }
}
