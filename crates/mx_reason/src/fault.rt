//! What is wrong where bytes are refused.
ghost use Rattle.std.specs.Prelude.{◌≡◌, ◌-◌, length};
ghost use Rattle.mx_head.specs.Limits.{most_bytes};
ghost use Rattle.mx_head.specs.Summary.{framing_by};
ghost use Rattle.mx_body.specs.declared.chunked.place.ChunkedPlace.TheVariants.{Start};
ghost use Rattle.mx_body.specs.ChunkedPlace.{place_after};
ghost use Rattle.mx_reason.specs.Faults.{fault_code, chunk_fault, framing_fault, before_last, TellsOfHead, TellsOfBody, TellsOfChunks, Tells};
ghost use Rattle.mx_reason.specs.Reasons.{Decides};
ghost use Rattle.mx_reason.specs.Steps.{IsRefusedHead, IsRefusedChunks, IsRefusedBody};

use crate::line::is_behind_status;
use crate::reason::Fault;
use crate::walk::{Walked, walk};
use mx_body::MOST_BYTES;
use mx_body::chunked::place::ChunkedPlace;
use mx_head::{Framing, Head, MOST_HEAD_BYTES, framing};
use mx_types::{Code, Method};

/// All bytes but the last.
fn before_last(bytes: &[u8]) -> &[u8]
    ensures { result.now ≡ before_last bytes.now }
{
    &bytes[..bytes.len().saturating_sub(1)]
}

/// What is wrong at the end of bytes that are refused at the place of a head.
fn fault_in_head(rest: &[u8], code: Code) -> Fault
    requires { IsRefusedHead rest.now code }
    ensures code { fault_code result ≡ code }
    ensures tells { TellsOfHead rest.now result }
{
    match code {
        Code::TooLarge if rest.len() == MOST_HEAD_BYTES => Fault::LongHead,
        Code::TooLarge => Fault::ManyFields,
        _ if is_behind_status(before_last(rest)) => Fault::FieldLine,
        _ => Fault::StatusLine,
    }
}

/// The place after some bytes of a chunked body.
fn place_behind(body: &[u8]) -> ChunkedPlace
    ensures { result ≡ place_after most_bytes Start body.now }
{
    let mut place = ChunkedPlace::Start;
    let mut at = 0;
    while at < body.len() {
        let (next, len) = place.advance(MOST_BYTES as u32, &body[at..]);
        at += len;
        place = next;
    }
    place
}

/// The part of a chunked body that a byte at this place belongs to.
fn chunk_fault(place: ChunkedPlace) -> Fault
    ensures { result ≡ chunk_fault place }
{
    match place {
        ChunkedPlace::Start
        | ChunkedPlace::Size(_)
        | ChunkedPlace::Extension(_)
        | ChunkedPlace::SizeLf(_) => Fault::SizeLine,
        ChunkedPlace::Data(_) | ChunkedPlace::DataCr | ChunkedPlace::DataLf => Fault::ChunkEnd,
        _ => Fault::Trailer,
    }
}

/// What is wrong at the end of bytes of a chunked body that are refused.
fn fault_in_chunks(body: &[u8], code: Code) -> Fault
    requires { IsRefusedChunks body.now code }
    ensures code { fault_code result ≡ code }
    ensures tells { TellsOfChunks body.now result }
{
    match code {
        Code::FilesizeExceeded => Fault::LargeChunk,
        _ => chunk_fault(place_behind(before_last(body))),
    }
}

/// What is wrong with a framing that is refused with that code.
fn framing_fault(code: Code) -> Fault
    ensures { result ≡ framing_fault code }
{
    match code {
        Code::BadContentEncoding => Fault::OtherCoding,
        _ => Fault::BadFraming,
    }
}

/// What is wrong at the end of bytes that are refused after a final head that ends at `at`.
fn fault_in_body(method: Method, head: &Head, at: usize, rest: &[u8], code: Code) -> Fault
    requires { IsRefusedBody (framing_by method head.now) at rest.now code }
    ensures code { fault_code result ≡ code }
    ensures tells { TellsOfBody (framing_by method head.now) at rest.now result }
{
    match framing(method, head) {
        Err(refused) => framing_fault(refused),
        Ok(Framing::Counted(n)) => Fault::LongBody(n),
        Ok(Framing::Chunked) => fault_in_chunks(rest, code),
        Ok(Framing::Empty) => unreachable!(),
        Ok(Framing::Close) => unreachable!(),
    }
}

/// What is wrong at the end of bytes of which the last one decides.
pub(crate) fn fault_of(method: Method, bytes: &[u8], code: Code) -> Fault
    requires { Decides method bytes.now code }
    ensures code { fault_code result ≡ code }
    ensures tells { Tells method bytes.now result }
{
    if bytes.len() > MOST_BYTES {
        return Fault::ManyBytes;
    }
    match walk(bytes) {
        Walked::Open { start } => fault_in_head(&bytes[start..], code),
        Walked::Refused { .. } => Fault::InterimHead,
        Walked::Final { head, end } => fault_in_body(method, &head, end, &bytes[end..], code),
    }
}
