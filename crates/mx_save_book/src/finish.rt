//! What a URL ends with, once its transfer has ended.
ghost use Rattle.std.specs.Prelude.{◌≡◌, ◌⊎◌, ◌∷◌, [], true, IfErr, IfOk, IfSome, IsSome, OnErr, OnOk, None};
ghost use Rattle.std.specs.List.{Contains};
ghost use Rattle.mx_folder.specs.declared.steps.FolderCall.TheVariants as calls;
ghost use Rattle.mx_save.specs.PartSinks.{part_with};
ghost use Rattle.mx_save.specs.Ledgers.{IsFresh};
ghost use Rattle.mx_save.specs.Made.{without};
ghost use Rattle.mx_save_end.specs.Bodies.{IsWholeBody};
ghost use Rattle.mx_save_rules.specs.Rules.{is_retried};
ghost use Rattle.mx_save_rules.specs.declared.decision.Decision.TheVariants as decision;
ghost use Rattle.mx_save_book.specs.Jobs.{Asks, ComesBack, HandsBack, IsEnding, IsHeardOf, IsLaterLedger, IsNeeded, IsPartOf, IsTry, LeavesPart};
ghost use Rattle.mx_save_book.specs.declared.finish.NotEnded.TheVariants as not_ended;

use crate::job::Job;
use mx_chain::Outcome;
use mx_folder::{Folder, FolderError, PartFile};
use mx_save::{Ledger, Made, PartSink};
use mx_save_end::{
    Heard, Spool, WholeBody, Written, failed_end, left_end, unsaved_end, written_of,
};
use mx_save_rules::{Asking, Decision, End, SaveCode};
use mx_sink::{Delivery, Outlet};
use std::alloc::{AllocError, Global};
use std::snapshot::Snapshot;

/// Why a URL whose transfer ended has no end.
#[derive(Drop)]
pub(crate) enum NotEnded {
    /// Out of memory.
    OutOfMemory,
    /// The part isn't the URL's, or hasn't all though no write of it was refused.
    NoPart,
    /// It is to be tried again.
    Again(Job),
}

impl From<AllocError> for NotEnded {
    ghost from_gives = { λ _ e. e ≡ not_ended.OutOfMemory };

    fn from(_error: AllocError) -> NotEnded {
        NotEnded::OutOfMemory
    }
}

// rule save-bodies
// Saves the body of a response that is whole, all of which was written to its part.
fn save<F: Folder, D: Delivery>(
    alloc: Global,
    asking: &Asking,
    ledger: &mut Ledger<F, WholeBody<D>>,
    job: Job,
    heard: Heard<D>,
    part: Made<F::Part>,
) -> Result<End, NotEnded>
    requires fresh { IsFresh job.name ledger.old.entries }
    requires heard { IsHeardOf asking.now job heard }
    requires save { heard.decision ≡ decision.Save }
    requires part { IsPartOf ledger.old part }
    requires whole { part.part ≡ part_with part.part.name heard.outcome.content None }
    ensures ending { IfOk result (IsEnding asking.now job heard.outcome ledger.old ledger.new) }
    ensures kept { OnErr result (ledger.new.entries ≡ ledger.old.entries) }
    ensures known { IfErr result (λ e. e ≡ not_ended.OutOfMemory) }
    ensures out { ledger.new.out ≡ without part.number ledger.old.out }
    ensures run { IsLaterLedger ledger.old ledger.new }
{
    // proof: what holds of a ledger, and of what is known of the transfer
    ledger.know();
    heard.know();
    // proof: what holds of what is asked
    let _asked = asking.method;
    let Heard { told, body, .. } = heard;
    let Some(body) = body else {
        unreachable!();
    };
    // proof: what holds of a whole body
    body.know();
    let Ok(file) = String::from_str(alloc, job.name.as_str()) else {
        let _left = ledger.discard(part);
        return Err(NotEnded::OutOfMemory);
    };
    match ledger.keep(&job.name, part, Snapshot::of(&body)) {
        Ok(()) => Ok(End::saved(job.url, file, told)),
        Err(unsaved) => {
            drop(file);
            Ok(unsaved_end(alloc, job.url, told, &unsaved)?)
        }
    }
}

// Ends a URL whose part refused a write.
fn give_up<F: Folder, D: Delivery>(
    alloc: Global,
    asking: &Asking,
    ledger: &mut Ledger<F, WholeBody<D>>,
    job: Job,
    heard: Heard<D>,
    part: Made<F::Part>,
    error: FolderError,
) -> Result<End, NotEnded>
    requires heard { IsHeardOf asking.now job heard }
    requires sound { heard.is_sound ≡ true }
    requires needed { IsNeeded heard.decision }
    requires part { IsPartOf ledger.old part }
    requires refused { part.part.refused ≡ (calls.Append, error) ∷ [] }
    ensures ending { IfOk result (IsEnding asking.now job heard.outcome ledger.old ledger.new) }
    ensures kept { ledger.new.entries ≡ ledger.old.entries }
    ensures known { IfErr result (λ e. e ≡ not_ended.OutOfMemory) }
    ensures out { ledger.new.out ≡ without part.number ledger.old.out }
    ensures run { IsLaterLedger ledger.old ledger.new }
{
    // proof: what holds of a ledger, and of what is known of the transfer
    ledger.know();
    heard.know();
    know_body(&heard);
    // proof: what holds of what is asked
    let _asked = asking.method;
    let told = heard.told;
    drop(heard);
    let unsaved = ledger.give_up(part, error);
    Ok(unsaved_end(alloc, job.url, told, &unsaved)?)
}

// Ends a URL whose response is whole, and has nothing to save.
fn done<F: Folder, D: Delivery>(
    alloc: Global,
    asking: &Asking,
    ledger: &mut Ledger<F, WholeBody<D>>,
    job: Job,
    heard: Heard<D>,
    part: Made<F::Part>,
) -> Result<End, NotEnded>
    requires heard { IsHeardOf asking.now job heard }
    requires done { heard.decision ≡ decision.Done }
    requires part { IsPartOf ledger.old part }
    ensures ending { IfOk result (IsEnding asking.now job heard.outcome ledger.old ledger.new) }
    ensures kept { ledger.new.entries ≡ ledger.old.entries }
    ensures known { IfErr result (λ e. e ≡ not_ended.OutOfMemory) }
    ensures out { ledger.new.out ≡ without part.number ledger.old.out }
    ensures run { IsLaterLedger ledger.old ledger.new }
{
    // proof: what holds of a ledger, of the transfer, and of what is asked
    ledger.know();
    heard.know();
    let _asked = asking.method;
    let told = heard.told;
    let report = heard.report;
    drop(heard);
    let discarded = ledger.discard(part);
    match discarded.left {
        None => Ok(End::done(job.url, told)),
        Some(_) => Ok(left_end(alloc, job.url, told, report, &discarded)?),
    }
}

// Ends a URL of which nothing is saved, with this code.
fn fail<F: Folder, D: Delivery>(
    alloc: Global,
    asking: &Asking,
    ledger: &mut Ledger<F, WholeBody<D>>,
    job: Job,
    heard: Heard<D>,
    part: Made<F::Part>,
    code: SaveCode,
) -> Result<End, NotEnded>
    requires heard { IsHeardOf asking.now job heard }
    requires failed { heard.decision ≡ decision.Fail code }
    requires part { IsPartOf ledger.old part }
    ensures ending { IfOk result (IsEnding asking.now job heard.outcome ledger.old ledger.new) }
    ensures kept { ledger.new.entries ≡ ledger.old.entries }
    ensures known { IfErr result (λ e. e ≡ not_ended.OutOfMemory) }
    ensures out { ledger.new.out ≡ without part.number ledger.old.out }
    ensures run { IsLaterLedger ledger.old ledger.new }
{
    // proof: what holds of a ledger, of the transfer, and of what is asked
    ledger.know();
    heard.know();
    let _asked = asking.method;
    let told = heard.told;
    let report = heard.report;
    drop(heard);
    let discarded = ledger.discard(part);
    Ok(failed_end(alloc, job.url, code, told, report, &discarded)?)
}

// Removes the part of a URL that is to be tried again. Where it is left, the URL has ended.
fn again<F: Folder, D: Delivery>(
    alloc: Global,
    asking: &Asking,
    ledger: &mut Ledger<F, WholeBody<D>>,
    job: Job,
    heard: Heard<D>,
    part: Made<F::Part>,
) -> Result<End, NotEnded>
    requires heard { IsHeardOf asking.now job heard }
    requires part { IsPartOf ledger.old part }
    requires retried { is_retried asking.now.method heard.outcome.code heard.outcome.status ≡ true }
    ensures ending { IfOk result (IsEnding asking.now job heard.outcome ledger.old ledger.new) }
    ensures kept { ledger.new.entries ≡ ledger.old.entries }
    ensures left { OnOk result (LeavesPart ledger.old ledger.new) }
    ensures came_back { IfErr result (ComesBack part.number ledger.old ledger.new) }
    ensures back { IfErr result (HandsBack job true) }
    ensures out { ledger.new.out ≡ without part.number ledger.old.out }
    ensures run { IsLaterLedger ledger.old ledger.new }
{
    // proof: what holds of a ledger, of the transfer, and of what is asked
    ledger.know();
    heard.know();
    let _asked = asking.method;
    let told = heard.told;
    let report = heard.report;
    drop(heard);
    let discarded = ledger.discard(part);
    match discarded.left {
        None => Err(NotEnded::Again(job)),
        Some(_) => Ok(left_end(alloc, job.url, told, report, &discarded)?),
    }
}

// What holds of the body of a whole response.
fn know_body<D: Delivery>(heard: &Heard<D>)
    ensures { IfSome heard.now.body IsWholeBody }
{
    if let Some(body) = &heard.body {
        // proof: what holds of it
        body.know();
    }
}

// Whether a response needs its body: to be saved, or to tell why a write was refused. One of which nothing is to be saved ends as it would
// without a body.
fn needs_body(is_sound: bool, decision: Decision) -> bool
    ensures { result ≡ true → IsNeeded decision }
{
    match decision {
        Decision::Save => true,
        Decision::Done | Decision::Fail(SaveCode::HttpReturnedError) => false,
        Decision::Fail(_) => is_sound,
    }
}

// The part of a transfer that has ended. Where its body isn't needed, what is gathered of it isn't written.
fn part_of<P: PartFile>(outcome: Outcome<Outlet<PartSink<P>>>, is_needed: bool) -> Written<P>
    ensures all { result.is_all ≡ true → P.value result.part ≡ part_with (P.value result.part).name outcome.content None }
    ensures refused { IfSome result.refused (λ e. (P.value result.part).refused ≡ (calls.Append, e) ∷ []) }
    ensures needed { IsSome result.refused → is_needed ≡ true }
{
    if is_needed {
        return written_of(outcome);
    }
    let (outlet, rest) = outcome.into_delivery();
    drop(rest);
    let (sink, left) = outlet.into_parts();
    drop(left);
    Written {
        part: sink.into_part(),
        refused: None,
        is_all: false,
    }
}

// Ends a URL whose transfer ended so, by what is done with its response.
fn settle<F: Folder, D: Delivery>(
    alloc: Global,
    asking: &Asking,
    ledger: &mut Ledger<F, WholeBody<D>>,
    job: Job,
    heard: Heard<D>,
    written: Written<Made<F::Part>>,
) -> Result<End, NotEnded>
    requires fresh { IsFresh job.name ledger.old.entries }
    requires heard { IsHeardOf asking.now job heard }
    requires part { IsPartOf ledger.old written.part }
    requires all { written.is_all ≡ true → written.part.part ≡ part_with written.part.part.name heard.outcome.content None }
    requires refused { IfSome written.refused (λ e. written.part.part.refused ≡ (calls.Append, e) ∷ []) }
    requires needed { IsSome written.refused → IsNeeded heard.decision }
    ensures ending { IfOk result (IsEnding asking.now job heard.outcome ledger.old ledger.new) }
    ensures kept { OnErr result (ledger.new.entries ≡ ledger.old.entries) }
    ensures known { IfErr result (λ e. (e ≡ not_ended.OutOfMemory) ⊎ (e ≡ not_ended.NoPart)) }
    ensures out { ledger.new.out ≡ without written.part.number ledger.old.out }
    ensures run { IsLaterLedger ledger.old ledger.new }
{
    let Written {
        part,
        refused,
        is_all,
    } = written;
    match refused {
        Some(error) if heard.is_sound => give_up(alloc, asking, ledger, job, heard, part, error),
        _ => match heard.decision {
            Decision::Save if is_all => save(alloc, asking, ledger, job, heard, part),
            Decision::Save => {
                let _left = ledger.discard(part);
                Err(NotEnded::NoPart)
            }
            Decision::Done => done(alloc, asking, ledger, job, heard, part),
            Decision::Fail(code) => fail(alloc, asking, ledger, job, heard, part, code),
        },
    }
}

/// Ends a URL whose transfer ended so: its body is saved if it should be, and else its part is removed. Where it may be tried again, that is
/// done first, and it comes back, unless the part is left. The number is that of its part.
pub(crate) fn finish<F: Folder>(
    alloc: Global,
    asking: &Asking,
    ledger: &mut Ledger<F, WholeBody<Spool<F>>>,
    job: Job,
    number: u64,
    outcome: Outcome<Spool<F>>,
    may_retry: bool,
) -> Result<End, NotEnded>
    requires fresh { IsFresh job.name ledger.old.entries }
    requires asked { Asks asking.now job.url.items outcome.request }
    requires tries { IsTry asking.now job.tries }
    requires out { Contains ledger.old.out number }
    requires retried { may_retry ≡ true → is_retried asking.now.method outcome.code outcome.status ≡ true }
    ensures ending { IfOk result (IsEnding asking.now job outcome ledger.old ledger.new) }
    ensures kept { OnErr result (ledger.new.entries ≡ ledger.old.entries) }
    ensures back { IfErr result (HandsBack job may_retry) }
    ensures left { OnOk result (may_retry ≡ true → LeavesPart ledger.old ledger.new) }
    ensures out { OnOk result (ledger.new.out ≡ without number ledger.old.out) }
    ensures came_back { IfErr result (ComesBack number ledger.old ledger.new) }
    ensures run { IsLaterLedger ledger.old ledger.new }
{
    let heard = Heard::of(asking.content_on_error, &outcome, job.tries);
    let is_needed = !may_retry && needs_body(heard.is_sound, heard.decision);
    let written = part_of(outcome, is_needed);
    if !ledger.is_of(&written.part, number) {
        return Err(NotEnded::NoPart);
    }
    if may_retry {
        return again(alloc, asking, ledger, job, heard, written.part);
    }
    settle(alloc, asking, ledger, job, heard, written)
}
