//! Where the bytes of a response have led.

ghost use Rattle.std.specs.Prelude.{◌≡◌, ◌⊎◌, ◌+◌, ◌≤◌, length, take, drop, None, Ok, IfOk, IfSome, OnErr};
ghost use Rattle.mx_head.specs.Summary.{framing_by};
ghost use Rattle.mx_body.specs.Steps.{HasHeadAt, IsFinalStepOn};
ghost use Rattle.mx_body.specs.declared.heads.FinalStep.TheVariants as final;
ghost use Rattle.mx_flow.specs.Flows.{IsFed, IsFlow};
ghost use Rattle.mx_flow.specs.Streams.{IsTaken};
ghost use Rattle.mx_flow.specs.Stages.{AreKept, IsStage, at_stage, headless, IsTakenBehind, HasBodyEnd};
ghost use Rattle.mx_flow.specs.declared.stage.Stage.TheVariants as stages;
ghost use Rattle.mx_flow.specs.Steps.{most_counted};
ghost use Rattle.mx_flow.specs.Whys.{HasDefect, HasNoWhy, IsCutWhereOpen, TellsWhy};
ghost use Rattle.mx_flow.specs.declared.flow.BodyState.TheVariants as body;
ghost use Rattle.mx_flow.specs.declared.stream_state.StreamState.TheVariants as stand;

use crate::flow::{BodyState, Flow};
use crate::stream_state::{StreamState, stand_of};
use mx_body::{FinalStep, Heads};
use mx_head::{Framing, Head, framing};
use mx_reason::{Reason, reason_of};
use mx_types::{Code, Method, OutOfMemory};
use std::alloc::Global;

/// The heads of a response, the last of which is its final head.
#[derive(Drop)]
pub(crate) struct KeptHeads {
    pub(crate) bytes: Vec<u8>,
    pub(crate) head: Head,
}

impl KeptHeads {
    /// The bytes, by move.
    pub(crate) fn into_bytes(self) -> Vec<u8>
        ensures { result.items ≡ self.bytes.items }
    {
        let KeptHeads { bytes, head: _ } = self;
        bytes
    }
}

/// Where the bytes of a response have led.
#[derive(Drop)]
pub(crate) enum Stage {
    /// No final head has come yet.
    Heads(Heads),
    /// No final head will ever come.
    BadHeads(Heads, Code),
    /// The framing of the final head is refused.
    BadFraming(KeptHeads, Code),
    /// The final head has come, and bytes of the body.
    Body(KeptHeads, Flow),
}

// Keeps the bytes up to the end of the final head.
fn keep_heads(heads: Heads, head: Head, end: usize) -> KeptHeads
    requires { HasHeadAt heads head end }
    ensures bytes { result.bytes.items ≡ take end heads }
    ensures head { result.head ≡ head }
    ensures kept { AreKept result }
{
    let mut bytes = heads.into_bytes();
    bytes.truncate(end);
    KeptHeads { bytes, head }
}

// Feeds a body, unless its bytes are decided.
fn feed_open(flow: &mut Flow, piece: &[u8], out: &mut Vec<u8>) -> Result<usize, OutOfMemory>
    ensures fed { IfOk result (λ n. IsFed flow.old flow.new n piece.now out.old.items out.new.items) }
    ensures known { IsFlow flow.new }
    ensures same { flow.new ≡ record flow.old { came = flow.new.came; state = flow.new.state } }
    ensures refused { OnErr result ((flow.new ≡ flow.old) × (out.new.items ≡ out.old.items)) }
{
    let taken = match flow.state() {
        BodyState::More => flow.feed(piece, out),
        _ => Ok(0),
    };
    // proof: the state of the flow is that of its bytes
    let _state = flow.state();
    taken
}

// Begins the body of that framing with the bytes after the final head, which ends at `end`. The first `len` bytes were there before.
fn begin_body(
    method: Method,
    framing: Framing,
    limit: u64,
    heads: Heads,
    len: usize,
    head: Head,
    end: usize,
    out: &mut Vec<u8>,
) -> (Stage, Result<usize, OutOfMemory>)
    requires head { HasHeadAt heads head end }
    requires framing { framing_by method head ≡ Ok framing }
    requires behind { len ≤ end }
    requires open { IsFinalStepOn (take len heads) final.More }
    ensures stage { IsStage method limit result.0 }
    ensures taken { IfOk result.1 (λ n. IsTakenBehind method limit heads len result.0 n out.old.items out.new.items) }
    ensures refused { OnErr result.1 ((result.0 ≡ stages.Heads (take len heads)) × (out.new.items ≡ out.old.items)) }
{
    let mut flow = Flow::new(framing, limit);
    match feed_open(&mut flow, &heads.as_slice()[end..], out) {
        Ok(n) => (
            Stage::Body(keep_heads(heads, head, end), flow),
            Ok(end - len + n),
        ),
        Err(error) => {
            let mut heads = heads;
            heads.truncate(len);
            (Stage::Heads(heads), Err(error))
        }
    }
}

// Goes on behind the final head, which ends at `end`.
fn begin(
    method: Method,
    limit: u64,
    heads: Heads,
    len: usize,
    head: Head,
    end: usize,
    out: &mut Vec<u8>,
) -> (Stage, Result<usize, OutOfMemory>)
    requires head { HasHeadAt heads head end }
    requires behind { len ≤ end }
    requires open { IsFinalStepOn (take len heads) final.More }
    ensures stage { IsStage method limit result.0 }
    ensures taken { IfOk result.1 (λ n. IsTakenBehind method limit heads len result.0 n out.old.items out.new.items) }
    ensures refused { OnErr result.1 ((result.0 ≡ stages.Heads (take len heads)) × (out.new.items ≡ out.old.items)) }
{
    match framing(method, &head) {
        Ok(framing) => begin_body(method, framing, limit, heads, len, head, end, out),
        Err(code) => (
            Stage::BadFraming(keep_heads(heads, head, end), code),
            Ok(end - len),
        ),
    }
}

// Goes on by the result of the heads, of which the first `len` bytes were there before.
fn go_on(
    method: Method,
    limit: u64,
    heads: Heads,
    len: usize,
    step: FinalStep,
    out: &mut Vec<u8>,
) -> (Stage, Result<usize, OutOfMemory>)
    requires within { len ≤ length heads }
    requires step { IsFinalStepOn heads step }
    requires open { IsFinalStepOn (take len heads) final.More }
    ensures stage { IsStage method limit result.0 }
    ensures taken { IfOk result.1 (λ n. IsTakenBehind method limit heads len result.0 n out.old.items out.new.items) }
    ensures refused { OnErr result.1 ((result.0 ≡ stages.Heads (take len heads)) × (out.new.items ≡ out.old.items)) }
{
    let left = heads.as_slice().len() - len;
    match step {
        FinalStep::More => (Stage::Heads(heads), Ok(left)),
        FinalStep::Fault(code) => (Stage::BadHeads(heads, code), Ok(left)),
        FinalStep::Head { head, end } => begin(method, limit, heads, len, head, end, out),
    }
}

// Takes bytes before the end of the final head.
fn feed_heads(
    method: Method,
    limit: u64,
    heads: Heads,
    piece: &[u8],
    out: &mut Vec<u8>,
) -> (Stage, Result<usize, OutOfMemory>)
    requires open { IsFinalStepOn heads final.More }
    ensures stage { IsStage method limit result.0 }
    ensures taken { IfOk result.1 (λ n. IsTaken (headless method limit heads stand.More) (at_stage method limit result.0) n piece.now out.old.items out.new.items) }
    ensures refused { OnErr result.1 ((result.0 ≡ stages.Heads heads) × (out.new.items ≡ out.old.items)) }
{
    let len = heads.as_slice().len();
    let mut heads = heads;
    match heads.read(piece) {
        Ok(step) => go_on(method, limit, heads, len, step, out),
        Err(error) => (Stage::Heads(heads), Err(error)),
    }
}

/// Takes bytes of a response, up to the one that decides, and hands their content on. `OutOfMemory` leaves the stage as it was.
pub(crate) fn feed_stage(
    method: Method,
    limit: u64,
    stage: Stage,
    piece: &[u8],
    out: &mut Vec<u8>,
) -> (Stage, Result<usize, OutOfMemory>)
    requires { IsStage method limit stage }
    ensures stage { IsStage method limit result.0 }
    ensures taken { IfOk result.1 (λ n. IsTaken (at_stage method limit stage) (at_stage method limit result.0) n piece.now out.old.items out.new.items) }
    ensures refused { OnErr result.1 ((result.0 ≡ stage) × (out.new.items ≡ out.old.items)) }
{
    match stage {
        Stage::Heads(heads) => feed_heads(method, limit, heads, piece, out),
        Stage::BadHeads(heads, code) => (Stage::BadHeads(heads, code), Ok(0)),
        Stage::BadFraming(kept, code) => (Stage::BadFraming(kept, code), Ok(0)),
        Stage::Body(kept, flow) => {
            let mut flow = flow;
            let taken = feed_open(&mut flow, piece, out);
            (Stage::Body(kept, flow), taken)
        }
    }
}

// Why the bytes of a body are no whole one, behind so many bytes of heads.
fn body_reason(len: usize, flow: &Flow) -> Option<Reason>
    ensures some { IfSome result (λ r. (r.at ≡ len + length flow.now.came) × HasDefect flow.now r.what) }
    ensures none { result ≡ None → (flow.now.state ≡ body.Whole) ⊎ (flow.now.state ≡ body.TooLarge) ⊎ (most_counted ≤ len + length flow.now.came) }
{
    let came = flow.count()? as usize;
    let at = len.checked_add(came)?;
    let what = flow.defect(came)?;
    Some(Reason { at, what })
}

// rule body-stream-reason
/// Why the bytes of a response are no whole response, as far as that is told.
pub(crate) fn why_of(alloc: Global, method: Method, limit: u64, stage: &Stage) -> Option<Reason>
    requires { IsStage method limit stage.now }
    ensures some { IfSome result (TellsWhy limit method (at_stage method limit stage.now).wire) }
    ensures cut { IfSome result (IsCutWhereOpen (at_stage method limit stage.now).stand) }
    ensures none { result ≡ None → HasNoWhy (at_stage method limit stage.now) }
{
    match stage {
        Stage::Heads(heads) => reason_of(alloc, method, heads.as_slice()),
        Stage::BadHeads(heads, _) => reason_of(alloc, method, heads.as_slice()),
        Stage::BadFraming(kept, _) => reason_of(alloc, method, kept.bytes.as_slice()),
        Stage::Body(kept, flow) => body_reason(kept.bytes.as_slice().len(), flow),
    }
}

// rule body-stream-end
/// The state of a body where the connection ends with it.
pub(crate) fn end_body(flow: &Flow) -> StreamState
    ensures { HasBodyEnd flow.now result }
{
    if flow.is_whole_at_end() {
        return StreamState::Whole;
    }
    match flow.state() {
        BodyState::More => StreamState::Fault(Code::PartialFile),
        state => stand_of(state),
    }
}
