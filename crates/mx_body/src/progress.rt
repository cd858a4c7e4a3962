//! Reading the bytes of an exchange as they come: each byte of a body once.

ghost use Rattle.std.specs.Prelude.{◌≡◌, ◌≤◌, ◌++◌, [], ℕ, List, true, false, length, take, drop, slice_range, min, Ok, IfOk, OnErr, IsTrue};
ghost use Rattle.mx_head.specs.declared.types.Framing.TheVariants.{Chunked};
ghost use Rattle.mx_head.specs.Limits.{most_bytes};
ghost use Rattle.mx_head.specs.Summary.{framing_by};
ghost use Rattle.mx_body.specs.ChunkedPlace.{is_settled};
ghost use Rattle.mx_body.specs.ChunkedReader.{HasRead};
ghost use Rattle.mx_body.specs.Decision.{IsVerdict, BeginsWithParts};
ghost use Rattle.mx_body.specs.Progress.{IsProgress, KnowsHead, status_read, location_read, place_at};
ghost use Rattle.mx_body.specs.Steps.{HasHeadAt};
ghost use Rattle.mx_types.specs.declared.method.Method.{Method};
ghost use Rattle.mx_body.specs.declared.verdict.Verdict.TheVariants.{More};

use crate::chunked::place::ChunkedPlace;
use crate::chunked::reader::ChunkedReader;
use crate::chunked::scan::ChunkedScan;
use crate::heads::{FinalStep, Passed, final_head_from};
use crate::limits::MOST_BYTES;
use crate::part::Part;
use crate::verdict::Verdict;
use crate::whole::{decode_body, decode_no_head, decode_short};
use mx_head::{Framing, Head, framing, keeps};
use mx_types::{Code, Method, OutOfMemory};
use std::alloc::Global;
use std::mem;

/// The place in an exchange, while nothing is decided.
#[derive(Clone, Copy)]
pub(crate) enum Phase {
    /// In a head.
    Heads(Passed),
    /// In a body of which only the length counts. The final head ends at `at`.
    Body { head: Head, at: usize },
    /// In a chunked body.
    Chunks { head: Head, at: usize },
}

/// How far the bytes of an exchange have been read.
#[derive(Drop)]
pub(crate) struct Progress {
    pub(crate) phase: Phase,
    pub(crate) reader: ChunkedReader,
}

impl Progress {
    /// No byte was read.
    #[tactic(auto, using(crate::proofs::EmptyLemmas::no_final))]
    pub(crate) fn new(alloc: Global) -> Progress
        ensures head { KnowsHead [] result.phase }
        ensures progress { (m : Method) → IsProgress m [] result }
    {
        Progress {
            phase: Phase::Heads(Passed::new()),
            reader: ChunkedReader::new(alloc, 0),
        }
    }

    /// How many bytes there will be in all, where the final head says so and they aren't too many; else 0.
    pub(crate) fn told_bytes(&self, method: Method) -> usize
        ensures { result ≤ most_bytes }
    {
        let Phase::Body { head, at } = &self.phase else {
            return 0;
        };
        match framing(method, head) {
            Ok(Framing::Counted(n)) => {
                let all = n.saturating_add(*at as u64);
                if all <= MOST_BYTES as u64 {
                    all as usize
                } else {
                    0
                }
            }
            _ => 0,
        }
    }

    /// The status of the final head, 0 where none was read.
    pub(crate) fn status(&self) -> u16
        ensures { result ≡ status_read self.now.phase }
    {
        match &self.phase {
            Phase::Heads(_) => 0,
            Phase::Body { head, .. } => head.status(),
            Phase::Chunks { head, .. } => head.status(),
        }
    }

    /// Where the location of the final head is.
    pub(crate) fn location(&self, wire: &[u8]) -> Option<Part>
        requires { KnowsHead wire.now self.now.phase }
        ensures { result ≡ location_read self.now.phase }
    {
        match &self.phase {
            Phase::Heads(_) => None,
            Phase::Body { head, at } => place_of(head, *at, wire),
            Phase::Chunks { head, at } => place_of(head, *at, wire),
        }
    }
}

/// Where in the bytes the value of the first Location line of the final head is (RFC 9110, section 10.2.2), which ends at `at`; `None` where
/// that is empty, or there is no such line. It takes no memory.
pub fn place_of(head: &Head, at: usize, wire: &[u8]) -> Option<Part>
    requires { HasHeadAt wire.now head.now at }
    ensures { result ≡ place_at head.now at }
{
    let span = head.location()?;
    let start = at - head.len();
    Some(Part {
        start: (start + span.start) as u32,
        end: (start + span.end) as u32,
    })
}

/// The verdict where a chunked body has been read on.
pub(crate) fn go_on_chunked(
    alloc: Global,
    method: Method,
    head: &Head,
    at: usize,
    wire: &[u8],
    reader: &mut ChunkedReader,
) -> Result<Verdict, OutOfMemory>
    requires head { HasHeadAt wire.now head.now at }
    requires chunked { framing_by method head.now ≡ Ok Chunked }
    requires read { HasRead most_bytes (slice_range wire.now at (min (length wire.now) most_bytes)) reader.old }
    requires open { is_settled reader.old.place ≡ false }
    requires at { reader.old.at ≡ at }
    ensures verdict { IfOk result (IsVerdict method wire.now false) }
    ensures read { result ≡ Ok More → HasRead most_bytes (drop at wire.now) reader.new }
    ensures open { result ≡ Ok More → is_settled reader.new.place ≡ false }
    ensures all { result ≡ Ok More → reader.new.read ≡ length (drop at wire.now) }
    ensures at { reader.new.at ≡ reader.old.at }
    ensures refused_place { OnErr result (reader.new.place ≡ reader.old.place) }
    ensures refused_read { OnErr result (reader.new.read ≡ reader.old.read) }
    ensures refused_parts { OnErr result (reader.new.parts.items ≡ reader.old.parts.items) }
{
    let body = &wire[at..wire.len().min(MOST_BYTES)];
    match reader.read_on(body)? {
        ChunkedScan::Short => Ok(decode_short(method, wire, false)),
        ChunkedScan::TooLarge => Ok(Verdict::Fault(Code::FilesizeExceeded)),
        ChunkedScan::Bad => Ok(Verdict::Fault(Code::RecvError)),
        ChunkedScan::Whole { len } => Ok(Verdict::Complete {
            status: head.status(),
            len: (at + len) as u32,
            parts: mem::replace(&mut reader.parts, Vec::new(alloc)),
            keep: keeps(head),
        }),
    }
}

/// The verdict where the final head, which ends at `at`, has just been read.
fn begin_body(
    alloc: Global,
    method: Method,
    head: Head,
    at: usize,
    wire: &[u8],
    progress: &mut Progress,
) -> Result<Verdict, OutOfMemory>
    requires head { HasHeadAt wire.now head at }
    ensures verdict { IfOk result (IsVerdict method wire.now false) }
    ensures progress { result ≡ Ok More → IsProgress method wire.now progress.new }
    ensures head { IfOk result (λ _. KnowsHead wire.now progress.new.phase) }
    ensures refused { OnErr result (progress.new ≡ progress.old) }
{
    match framing(method, &head) {
        Ok(Framing::Chunked) => {
            let mut reader = ChunkedReader::new(alloc, at as u32);
            let verdict = go_on_chunked(alloc, method, &head, at, wire, &mut reader)?;
            progress.phase = Phase::Chunks { head, at };
            progress.reader = reader;
            Ok(verdict)
        }
        _ => {
            let verdict = decode_body(alloc, method, &head, at, wire, false)?;
            progress.phase = Phase::Body { head, at };
            Ok(verdict)
        }
    }
}

/// Whether all bytes after the first so many are data of the chunk that is being read, without its end; then they are passed, and nothing
/// is decided. Else nothing changes.
fn pass_data(method: Method, wire: &[u8], before: usize, progress: &mut Progress) -> bool
    requires within { before ≤ length wire.now }
    requires progress { IsProgress method (take before wire.now) progress.old }
    ensures verdict { IsTrue result → IsVerdict method wire.now false More }
    ensures progress { IsTrue result → IsProgress method wire.now progress.new }
    ensures head { IsTrue result → KnowsHead wire.now progress.new.phase }
    ensures other { result ≡ false → progress.new ≡ progress.old }
{
    let Phase::Chunks { head: _, at } = progress.phase else {
        return false;
    };
    let ChunkedPlace::Data(left) = progress.reader.place else {
        return false;
    };
    let more = wire.len() - before;
    if more >= left as usize || wire.len() > MOST_BYTES {
        return false;
    }
    progress.reader.place = ChunkedPlace::Data(left - more as u32);
    progress.reader.read = wire.len() - at;
    true
}

/// The verdict where more bytes have come, of which the first so many were there before.
fn go_on(
    alloc: Global,
    method: Method,
    wire: &[u8],
    before: usize,
    progress: &mut Progress,
) -> Result<Verdict, OutOfMemory>
    requires within { before ≤ length wire.now }
    requires small { before ≤ most_bytes }
    requires progress { IsProgress method (take before wire.now) progress.old }
    ensures verdict { IfOk result (IsVerdict method wire.now false) }
    ensures progress { result ≡ Ok More → IsProgress method wire.now progress.new }
    ensures head { IfOk result (λ _. KnowsHead wire.now progress.new.phase) }
    ensures refused { OnErr result (IsProgress method (take before wire.now) progress.new) }
    ensures refused_phase { OnErr result (progress.new.phase ≡ progress.old.phase) }
{
    match &progress.phase {
        Phase::Heads(passed) => {
            let mut passed = *passed;
            match final_head_from(&wire[..wire.len().min(MOST_BYTES)], &mut passed) {
                FinalStep::Head { head, end } => {
                    begin_body(alloc, method, head, end, wire, progress)
                }
                FinalStep::More => {
                    progress.phase = Phase::Heads(passed);
                    Ok(decode_no_head(method, wire, false))
                }
                FinalStep::Fault(code) => Ok(Verdict::Fault(code)),
            }
        }
        Phase::Body { head, at } => decode_body(alloc, method, head, *at, wire, false),
        Phase::Chunks { head, at } => {
            go_on_chunked(alloc, method, head, *at, wire, &mut progress.reader)
        }
    }
}

/// The verdict where more bytes have come, as that of `go_on`. Data of a chunk are passed without being looked at.
pub(crate) fn read_more(
    alloc: Global,
    method: Method,
    wire: &[u8],
    before: usize,
    progress: &mut Progress,
) -> Result<Verdict, OutOfMemory>
    requires within { before ≤ length wire.now }
    requires small { before ≤ most_bytes }
    requires progress { IsProgress method (take before wire.now) progress.old }
    ensures verdict { IfOk result (IsVerdict method wire.now false) }
    ensures progress { result ≡ Ok More → IsProgress method wire.now progress.new }
    ensures head { IfOk result (λ _. KnowsHead wire.now progress.new.phase) }
    ensures refused { OnErr result (IsProgress method (take before wire.now) progress.new) }
    ensures refused_phase { OnErr result (progress.new.phase ≡ progress.old.phase) }
{
    if pass_data(method, wire, before, progress) {
        return Ok(Verdict::More);
    }
    go_on(alloc, method, wire, before, progress)
}

/// The verdict where the bytes have ended.
pub(crate) fn finish(
    alloc: Global,
    method: Method,
    wire: &[u8],
    progress: &Progress,
) -> Result<Verdict, OutOfMemory>
    requires progress { IsProgress method wire.now progress.now }
    requires small { length wire.now ≤ most_bytes }
    ensures verdict { IfOk result (IsVerdict method wire.now true) }
    ensures memory { OnErr result (BeginsWithParts method wire.now true) }
{
    match progress.phase {
        Phase::Heads(mut passed) => match final_head_from(wire, &mut passed) {
            FinalStep::Head { head, end } => decode_body(alloc, method, &head, end, wire, true),
            FinalStep::More => Ok(decode_no_head(method, wire, true)),
            FinalStep::Fault(code) => Ok(Verdict::Fault(code)),
        },
        Phase::Body { head, at } => decode_body(alloc, method, &head, at, wire, true),
        Phase::Chunks { head: _, at: _ } => Ok(decode_short(method, wire, true)),
    }
}
