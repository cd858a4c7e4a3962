//! Decoding all of the bytes at once.

ghost use Rattle.std.specs.Prelude.{◌≡◌, ℕ, ◌+◌, ◌<◌, ◌≤◌, ◌^◌, true, false, IfOk, OnErr, Ok};
ghost use Rattle.mx_head.specs.Limits.{most_bytes};
ghost use Rattle.mx_head.specs.declared.types.Framing.TheVariants.{Chunked};
ghost use Rattle.mx_head.specs.Summary.{framing_by};
ghost use Rattle.mx_body.specs.Response.{one_part};
ghost use Rattle.mx_body.specs.Decision.{first_bytes, IsVerdict, BeginsWithParts};
ghost use Rattle.mx_body.specs.Steps.{HasHeadAt, IsFinalStepOn, IsWholeAt, IsShortBody};
ghost use Rattle.mx_body.specs.declared.heads.FinalStep.TheVariants.{More};

use crate::chunked::parts::chunked_parts;
use crate::chunked::scan::{ChunkedScan, scan_chunked};
use crate::heads::{FinalStep, final_head};
use crate::limits::MOST_BYTES;
use crate::part::Part;
use crate::verdict::Verdict;
use mx_head::{Framing, Head, framing, keeps};
use mx_types::{Code, Method, OutOfMemory};
use std::alloc::Global;

/// The parts of a body in one piece.
fn one_part(alloc: Global, start: u32, len: u32) -> Result<Vec<Part>, OutOfMemory>
    requires { start + len < 2 ^ 32 }
    ensures parts { IfOk result (λ v. v.items ≡ one_part start len) }
    ensures memory { OnErr result (0 < len) }
{
    let mut parts = Vec::new(alloc);
    if len != 0 {
        parts.push(Part {
            start,
            end: start + len,
        })?;
    }
    Ok(parts)
}

/// A whole response, whose body is the `len` bytes from `at` on.
fn complete(
    alloc: Global,
    status: u16,
    at: u32,
    len: u32,
    keep: bool,
) -> Result<Verdict, OutOfMemory>
    requires { at + len < 2 ^ 32 }
    ensures whole { IfOk result (IsWholeAt status at len keep) }
    ensures memory { OnErr result (0 < len) }
{
    let parts = one_part(alloc, at, len)?;
    Ok(Verdict::Complete {
        status,
        len: at + len,
        parts,
        keep,
    })
}

/// The verdict where a chunked body is short.
pub(crate) fn decode_short(method: Method, input: &[u8], ended: bool) -> Verdict
    requires { IsShortBody method input.now ended }
    ensures { IsVerdict method input.now ended result }
{
    if input.len() > MOST_BYTES {
        Verdict::Fault(Code::FilesizeExceeded)
    } else if ended {
        Verdict::Fault(Code::PartialFile)
    } else {
        Verdict::More
    }
}

/// The verdict where a chunked body begins at `at`, after the final head. It is scanned before memory is
/// taken for its parts, so memory is refused only in place of `Complete`.
fn decode_chunked(
    alloc: Global,
    method: Method,
    head: &Head,
    at: usize,
    input: &[u8],
    ended: bool,
) -> Result<Verdict, OutOfMemory>
    requires head { HasHeadAt input.now head.now at }
    requires chunked { framing_by method head.now ≡ Ok Chunked }
    ensures verdict { IfOk result (IsVerdict method input.now ended) }
    ensures memory { OnErr result (BeginsWithParts method input.now ended) }
{
    let body = &input[at..input.len().min(MOST_BYTES)];
    match scan_chunked(body, MOST_BYTES as u32) {
        ChunkedScan::Short => Ok(decode_short(method, input, ended)),
        ChunkedScan::TooLarge => Ok(Verdict::Fault(Code::FilesizeExceeded)),
        ChunkedScan::Bad => Ok(Verdict::Fault(Code::RecvError)),
        ChunkedScan::Whole { len } => {
            let parts = chunked_parts(alloc, &body[..len], at as u32)?;
            Ok(Verdict::Complete {
                status: head.status(),
                len: (at + len) as u32,
                parts,
                keep: keeps(head),
            })
        }
    }
}

// rule body-size
/// Whether so many bytes of a body that begins at `at` are too many.
fn is_too_large(n: u64, at: usize) -> bool
    requires { at ≤ most_bytes }
    ensures too_many { result ≡ true → most_bytes < at + n }
    ensures few { result ≡ false → at + n ≤ most_bytes }
{
    n > (MOST_BYTES - at) as u64
}

/// Whether so many bytes of a body are among those after its head.
fn is_there(n: u64, left: usize) -> bool
    ensures there { result ≡ true → n ≤ left }
    ensures lacking { result ≡ false → left < n }
{
    n <= left as u64
}

// rule body-truncated
// rule body-to-the-end
/// The verdict where the final head ends at `at`.
pub(crate) fn decode_body(
    alloc: Global,
    method: Method,
    head: &Head,
    at: usize,
    input: &[u8],
    ended: bool,
) -> Result<Verdict, OutOfMemory>
    requires { HasHeadAt input.now head.now at }
    ensures verdict { IfOk result (IsVerdict method input.now ended) }
    ensures memory { OnErr result (BeginsWithParts method input.now ended) }
{
    let left = input.len() - at;
    match framing(method, head) {
        Err(code) => Ok(Verdict::Fault(code)),
        Ok(Framing::Empty) => complete(alloc, head.status(), at as u32, 0, keeps(head)),
        Ok(Framing::Counted(n)) => {
            if is_too_large(n, at) {
                return Ok(Verdict::Fault(Code::FilesizeExceeded));
            }
            if is_there(n, left) {
                return complete(alloc, head.status(), at as u32, n as u32, keeps(head));
            }
            if ended {
                Ok(Verdict::Fault(Code::PartialFile))
            } else {
                Ok(Verdict::More)
            }
        }
        Ok(Framing::Close) => {
            if input.len() > MOST_BYTES {
                return Ok(Verdict::Fault(Code::FilesizeExceeded));
            }
            if ended {
                complete(alloc, head.status(), at as u32, left as u32, false)
            } else {
                Ok(Verdict::More)
            }
        }
        Ok(Framing::Chunked) => decode_chunked(alloc, method, head, at, input, ended),
    }
}

// rule body-truncated
/// The verdict where the bytes that are looked at have no final head, and meet no cause of a fault.
pub(crate) fn decode_no_head(method: Method, input: &[u8], ended: bool) -> Verdict
    requires { IsFinalStepOn (first_bytes input.now) More }
    ensures { IsVerdict method input.now ended result }
{
    if input.len() > MOST_BYTES {
        return Verdict::Fault(Code::FilesizeExceeded);
    }
    if !ended {
        return Verdict::More;
    }
    if input.is_empty() {
        Verdict::Fault(Code::GotNothing)
    } else {
        Verdict::Fault(Code::WeirdServerReply)
    }
}

// rule body-out-of-memory: Out of memory (27) comes from `decode_whole` only in place of a complete response with a body: it masks no
// fault. A decoder that is fed in pieces may run out of memory at a piece, before a fault in that piece, and is then as it was.
/// The verdict on the bytes that the exchange for a request of that method gave, and whether they have
/// ended (RFC 9112, sections 6 to 8). Only the first 67,108,864 bytes are looked at.
///
/// It is `Complete` exactly where the input begins with a whole response, or, where only the end of the
/// input ends the body, is one. Else it is the fault of the shortest prefix that meets one:
/// - `WeirdServerReply`: bytes that begin no head, a status of 101, the 17th interim head, or a framing that
///   is refused;
/// - `TooLarge`: a head of more than 128 field lines or 65,536 bytes;
/// - `BadContentEncoding`: a transfer coding other than one `chunked`;
/// - `FilesizeExceeded`: a Content-Length with which the response is too large, or a chunk's size over
///   67,108,864;
/// - `RecvError`: a byte in a chunked body that isn't allowed at its place.
///
/// Where none of these comes, an input of more than 67,108,864 bytes is `FilesizeExceeded`, and one that
/// hasn't ended is `More`. One that has ended is `GotNothing` without a byte, `WeirdServerReply` in or before
/// a head, and `PartialFile` in a body. The fault of an input that hasn't ended is that of every continuation.
///
/// `OutOfMemory` comes only in place of `Complete`, and only where the body isn't empty.
pub fn decode_whole(
    alloc: Global,
    method: Method,
    input: &[u8],
    ended: bool,
) -> Result<Verdict, OutOfMemory>
    ensures verdict { IfOk result (IsVerdict method input.now ended) }
    ensures memory { OnErr result (BeginsWithParts method input.now ended) }
{
    match final_head(&input[..input.len().min(MOST_BYTES)]) {
        FinalStep::Head { head, end } => decode_body(alloc, method, &head, end, input, ended),
        FinalStep::More => Ok(decode_no_head(method, input, ended)),
        FinalStep::Fault(code) => Ok(Verdict::Fault(code)),
    }
}
