//! What an exchange ends with.
ghost use Rattle.std.specs.Prelude.{◌≡◌, ◌≢◌, ◌<◌, ◌↔◌, ◌+◌, ◌^◌, ℕ, true, length, take, slice_range, Some, None, ◌&&◌, IsSome, IfSome, IfOk, is_some, option_copied};
ghost use Rattle.std.specs.List.{slice_get};
ghost use Rattle.mx_request.specs.Redirects.{is_redirect_status};
ghost use Rattle.mx_body.specs.declared.part.Part.{Part};
ghost use Rattle.mx_body.specs.Parts.{AreOrdered, joined};
ghost use Rattle.mx_reader.specs.Readers.{IsKept};
ghost use Rattle.mx_body.specs.Decision.{HasStatus, TellsLocation, IsPlaceIn};
ghost use Rattle.mx_link.specs.Answers.{given};
ghost use Rattle.mx_line.specs.Order.{InOrder};
ghost use Rattle.mx_exchange.specs.Hops.{IsHop, IsWhole, HasBody, HasContent, IsFront, TellsReason, hop_of, is_hop_code};
ghost use Rattle.mx_types.specs.declared.code.Code.TheVariants as code;

use crate::laws;
use mx_body::Part as BodyPart;
use mx_link::Answer;
use mx_reader::Reader;
use mx_reason::Reason;
use mx_request::{Request, is_redirect};
use mx_types::{Code, History, OutOfMemory};
use std::alloc::Global;
use std::marker::Model;
use std::snapshot::Snapshot;

/// What an exchange ended with: its request, the bytes of the response that are kept, the code, the status, and where the data of the body and
/// the value of the first Location line are in the bytes. For contracts alone it also has all bytes of the response, what was handed on of them,
/// what its link answered since it was attached or probed, and whether that link was in use before.
pub struct Hop {
    request: Request,
    read: Snapshot<Reader>,
    kept: Vec<u8>,
    code: Code,
    status: u16,
    parts: Vec<BodyPart>,
    location: Option<BodyPart>,
    why: Option<Reason>,
    answers: Snapshot<History<Answer>>,
    is_reused: Snapshot<bool>,
}

// Written out, and not derived: a crate that drops a hop cites its proof.
impl Drop for Hop {
    fn drop(self) {
        let Hop {
            request,
            read,
            kept,
            code: _,
            status: _,
            parts,
            location: _,
            why: _,
            answers,
            is_reused,
        } = self;
        drop(request);
        drop(read);
        drop(kept);
        drop(parts);
        drop(answers);
        drop(is_reused);
    }
}

impl Model for Hop {
    ghost use Rattle.std.specs.Prelude.{length};
    ghost use Rattle.mx_body.specs.Parts.{AreOrdered};
    ghost use Rattle.mx_body.specs.Decision.{IsPlaceIn};
    ghost use Rattle.mx_exchange.specs.Exchanges.{HopValue};
    ghost use Rattle.mx_exchange.specs.Hops.{IsHop, TellsReason, hop_of};

    ghost Value = { HopValue };

    ghost view = { λ o. hop_of o.request o.read.value o.kept.items o.code o.status o.parts.items o.location o.answers.value o.is_reused.value };

    ghost invariant = { λ o. record {
      ordered : AreOrdered 0 (length o.kept.items) o.parts.items;
      within : IsPlaceIn (length o.kept.items) o.location;
      outcome : IsHop (hop_of o.request o.read.value o.kept.items o.code o.status o.parts.items o.location o.answers.value o.is_reused.value);
      reason : TellsReason (hop_of o.request o.read.value o.kept.items o.code o.status o.parts.items o.location o.answers.value o.is_reused.value) o.why;
    } };
}

impl Hop {
    pub(crate) fn new(
        request: Request,
        read: Snapshot<Reader>,
        kept: Vec<u8>,
        code: Code,
        status: u16,
        parts: Vec<BodyPart>,
        location: Option<BodyPart>,
        why: Option<Reason>,
        answers: Snapshot<History<Answer>>,
        is_reused: Snapshot<bool>,
    ) -> Hop
        requires ordered { AreOrdered 0 (length kept.items) parts.items }
        requires within { IsPlaceIn (length kept.items) location }
        requires outcome { IsHop (hop_of request read.value kept.items code status parts.items location answers.value is_reused.value) }
        requires reason { TellsReason (hop_of request read.value kept.items code status parts.items location answers.value is_reused.value) why }
        ensures { result ≡ hop_of request read.value kept.items code status parts.items location answers.value is_reused.value }
    {
        Hop {
            request,
            read,
            kept,
            code,
            status,
            parts,
            location,
            why,
            answers,
            is_reused,
        }
    }

    /// What holds of every hop. It does nothing: a call gives its caller's proof the law.
    pub fn know(&self)
        ensures { IsHop self.now }
    {
        // proof: what holds of a hop
        let _code = self.code;
    }

    /// The request that was handed to the exchange. Its link was asked in order.
    pub fn request(&self) -> &Request
        ensures request { result.now ≡ self.now.request }
        ensures order { InOrder self.now.is_reused result.now.bytes self.now.answers }
    {
        &self.request
    }

    /// The bytes of the response that are kept: of one that is held all that came, of one that is handed on its heads. What came is a prefix of
    /// what the link gave, and all of it unless the code is `OutOfMemory`.
    pub fn kept(&self) -> &[u8]
        ensures kept { result.now ≡ self.now.kept }
        ensures keeps { IsKept self.now.limit self.now.wire result.now }
        ensures front { IsFront self.now }
        ensures all { self.now.code ≢ code.OutOfMemory → self.now.wire ≡ given self.now.answers }
    {
        self.kept.as_slice()
    }

    /// The code. Where it is `Ok`, the wire begins with a whole response, or is one, and its data are at the parts, or were handed on.
    pub fn code(&self) -> Code
        ensures code { result ≡ self.now.code }
        ensures whole { result ≡ code.Ok → IsWhole self.now }
        ensures body { result ≡ code.Ok → HasBody self.now }
        ensures content { result ≡ code.Ok → self.now.limit ≡ None → HasContent self.now }
        ensures listed { is_hop_code result self.now.limit ≡ true }
    {
        // proof: a hop that ends with `Ok` has the content, and which codes there are
        laws::ok_has_body();
        laws::ok_has_content();
        laws::codes_are_listed();
        self.code
    }

    /// The status of the final head, 0 where none was read.
    pub fn status(&self) -> u16
        ensures status { result ≡ self.now.status }
        ensures wire { HasStatus self.now.wire result }
    {
        self.status
    }

    /// Why the bytes of a response whose content was handed on are no whole response: after how many of them that is decided, and what is
    /// wrong there; or where they end, if nothing is decided. `None` where they are one, where the body is too large, and where more bytes
    /// came than are counted; and of a response that is held, which `reason_of` of `mx_reason` tells.
    pub fn why(&self) -> Option<Reason>
        ensures { TellsReason self.now result }
    {
        self.why
    }

    /// The value of the first Location line of the final head (RFC 9110, section 10.2.2); `None` where that is empty, or there is no such
    /// line, or no final head.
    pub fn location(&self) -> Option<&[u8]>
        ensures location { option_copied result ≡ self.now.location }
        ensures wire { TellsLocation self.now.wire self.now.location }
    {
        let place = self.location?;
        Some(&self.kept[place.start as usize..place.end as usize])
    }

    /// Whether its final head sends its request on (RFC 9110, section 15.4), whatever the code is.
    pub fn sends_on(&self) -> bool
        ensures { result ≡ (is_redirect_status self.now.status && is_some self.now.location) }
    {
        is_redirect(self.status) && self.location.is_some()
    }

    /// The request, by move.
    pub fn into_request(self) -> Request
        ensures { result ≡ self.request }
    {
        let (request, kept) = self.into_parts();
        drop(kept);
        request
    }

    /// The request and the bytes of the response that are kept, by move.
    pub fn into_parts(self) -> (Request, Vec<u8>)
        ensures request { result.0 ≡ self.request }
        ensures kept { result.1.items ≡ self.kept }
    {
        let Hop {
            request,
            read,
            kept,
            code: _,
            status: _,
            parts,
            location: _,
            why: _,
            answers,
            is_reused,
        } = self;
        drop(read);
        drop(parts);
        drop(answers);
        drop(is_reused);
        (request, kept)
    }

    /// How many parts the body has; 0 where the code isn't `Ok`.
    pub fn part_count(&self) -> usize
        ensures count { result ≡ length self.now.parts }
        ensures none { self.now.code ≢ code.Ok → result ≡ 0 }
    {
        self.parts.as_slice().len()
    }

    // The bytes of a part that is there.
    fn bytes_of(&self, i: usize) -> &[u8]
        requires { i < length self.now.parts }
        ensures { (p : Part) × (slice_get self.now.parts i ≡ Some p) × (result.now ≡ slice_range self.now.kept p.start p.end) }
    {
        let part = self.parts[i];
        &self.kept[part.start as usize..part.end as usize]
    }

    /// A part of the body, counted from 0; `None` past the last.
    pub fn part(&self, i: usize) -> Option<&[u8]>
        ensures some { i < length self.now.parts → IfSome result (λ bytes. (p : Part) × (slice_get self.now.parts i ≡ Some p) × (bytes.now ≡ slice_range self.now.wire p.start p.end)) }
        ensures count { IsSome result ↔ (i < length self.now.parts) }
    {
        // proof: where there are parts memory has all bytes
        self.know();
        if i >= self.part_count() {
            return None;
        }
        Some(self.bytes_of(i))
    }

    // The length of a part that is there.
    fn part_len(&self, i: usize) -> u32
        requires { i < length self.now.parts }
        ensures next { length (joined self.now.kept (take (i + 1) self.now.parts)) ≡ length (joined self.now.kept (take i self.now.parts)) + result }
        ensures fits { length (joined self.now.kept (take (i + 1) self.now.parts)) < 2 ^ 32 }
    {
        let place = self.parts[i];
        place.end - place.start
    }

    /// The length of the body in bytes.
    pub fn body_len(&self) -> u32
        ensures { result ≡ length (joined self.now.wire self.now.parts) }
    {
        // proof: where there are parts memory has all bytes
        self.know();
        let mut len = 0;
        for i in 0..self.part_count() {
            len += self.part_len(i);
        }
        len
    }

    /// The body: its parts, joined.
    ///
    /// Returns `OutOfMemory` where memory for it is refused.
    pub fn copy_body(&self, alloc: Global) -> Result<Vec<u8>, OutOfMemory>
        ensures { IfOk result (λ body. body.items ≡ joined self.now.wire self.now.parts) }
    {
        // proof: where there are parts memory has all bytes
        self.know();
        let mut body = Vec::new(alloc);
        for i in 0..self.part_count() {
            body.extend_from_slice(self.bytes_of(i))?;
        }
        Ok(body)
    }
}
