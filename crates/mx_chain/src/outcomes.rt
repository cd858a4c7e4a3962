//! What a transfer ends with: its hops.
ghost use Rattle.std.specs.Prelude.{◌≡◌, ◌≢◌, ◌<◌, ◌↔◌, ◌++◌, List, ℕ, true, length, slice_range, option_map, option_copied, Some, None, IsSome, IfSome, IfOk, ◌-◌, ◌^◌, min};
ghost use Rattle.std.specs.List.{slice_get};
ghost use Rattle.mx_body.specs.declared.part.Part.{Part};
ghost use Rattle.mx_body.specs.Parts.{joined};
ghost use Rattle.mx_body.specs.Decision.{HasHeads, HasStatus};
ghost use Rattle.mx_exchange.specs.Hops as hop;
ghost use Rattle.mx_line.specs.Order.{InOrder};
ghost use Rattle.mx_link.specs.Answers.{given};
ghost use Rattle.mx_chain.specs.Hops as spec;
ghost use Rattle.mx_chain.specs.Outcomes.{OutcomeValue, IsEnd, IsOutcome, AreHeadsAt, hops_of, limit_by, wire_at, is_outcome_code, settled_code};
ghost use Rattle.mx_types.specs.declared.code.Code.TheVariants as code;

use crate::followed::{Hops, heads_of};
use mx_exchange::Hop;
use mx_reason::Reason;
use mx_request::Request;
use mx_sink::{Delivery, Held, Window};
use mx_types::{Code, Ending, OutOfMemory};
use std::alloc::Global;
use std::marker::Model;

// rule redirect-outcome
/// What a transfer ended with: its hops, of which each but the last was followed, its delivery, and its code. The response is the last hop's:
/// it is held, or its content was handed to the delivery, but for a rest that the delivery had no room for.
pub struct Outcome<D: Delivery = Held> {
    pub(crate) earlier: Hops,
    pub(crate) last: Hop,
    // The code of its chain.
    pub(crate) code: Code,
    pub(crate) delivery: D,
    pub(crate) rest: Window,
}

// Written out, and not derived: a crate that drops an outcome cites its proof.
impl<D: Delivery> Drop for Outcome<D> {
    fn drop(self) {
        let Outcome {
            earlier,
            last,
            code: _,
            delivery,
            rest,
        } = self;
        drop(earlier);
        drop(last);
        drop(delivery);
        drop(rest);
    }
}

impl<D: Delivery> Model for Outcome<D> {
    ghost use Rattle.std.specs.Prelude.{◌≡◌};
    ghost use Rattle.mx_chain.specs.Outcomes.{OutcomeValue, IsChainEnd, IsHanded, limit_by, outcome_of, settled};

    ghost Value = { OutcomeValue };

    ghost view = { λ o. settled (D.fault o.delivery) (outcome_of o.earlier.heads_alone o.earlier.all o.last o.code) };

    ghost invariant = { λ o. record {
      end : IsChainEnd (outcome_of o.earlier.heads_alone o.earlier.all o.last o.code);
      limit : o.last.limit ≡ limit_by (D.flows o.delivery);
      content : IsHanded D.handed o.delivery (outcome_of o.earlier.heads_alone o.earlier.all o.last o.code).content o.rest.items;
    } };
}

/// Whether the code says that a whole response was read.
pub(crate) fn is_ok(code: Code) -> bool
    ensures { result ≡ spec.is_ok code }
{
    matches!(code, Code::Ok)
}

// The code of a transfer, by that of its chain and the failure of its delivery.
fn settle(code: Code, failure: Option<Code>) -> Code
    ensures { result ≡ settled_code failure code }
{
    match failure {
        Some(failure) if is_ok(code) => failure,
        _ => code,
    }
}

impl<D: Delivery> Outcome<D> {
    /// What holds of every outcome, whatever became of the content. It does nothing: a call gives its caller's proof the law.
    pub fn know_end(&self)
        ensures end { IsEnd self.now }
        ensures all { self.now.last.code ≢ code.OutOfMemory → self.now.wire ≡ given self.now.last.answers }
    {
        // proof: which failures there are, and what came
        let _failure = self.delivery.fault();
        let _kept = self.last.kept();
    }

    /// How many hops it has: one more than redirects were followed.
    pub fn hops(&self) -> usize
        ensures { result ≡ length (hops_of self.now) }
    {
        self.earlier.len() + 1
    }

    /// The request of a hop, counted from 0; `None` past the last.
    pub fn hop_request(&self, i: usize) -> Option<&Request>
        ensures { option_copied result ≡ option_map (λ o. o.request) (slice_get (hops_of self.now) i) }
    {
        if i == self.earlier.len() {
            return Some(self.last.request());
        }
        self.earlier.request(i)
    }

    /// The heads of the response of a hop, counted from 0: its interim heads and its final head (RFC 9112, section 2.1), and no bytes where
    /// it has no final head. `None` past the last.
    pub fn hop_heads(&self, i: usize) -> Option<&[u8]>
        ensures count { IsSome result ↔ (i < length (hops_of self.now)) }
        ensures heads { IfSome result (λ heads. AreHeadsAt self.now i heads.now) }
    {
        if i == self.earlier.len() {
            return Some(heads_of(&self.last));
        }
        self.earlier.heads(i)
    }

    /// The status of a hop, counted from 0; `None` past the last.
    pub fn hop_status(&self, i: usize) -> Option<u16>
        ensures { result ≡ option_map (λ o. o.status) (slice_get (hops_of self.now) i) }
    {
        if i == self.earlier.len() {
            return Some(self.last.status());
        }
        self.earlier.status(i)
    }

    /// The request that was handed to the transfer, which is the first hop's. The link of the last hop was asked in order.
    pub fn request(&self) -> &Request
        ensures request { result.now ≡ self.now.request }
        ensures order { InOrder self.now.last.is_reused self.now.last.request.bytes self.now.last.answers }
    {
        // proof: the last hop's link was asked in order
        let _last = self.last.request();
        match self.earlier.request(0) {
            Some(request) => request,
            None => self.last.request(),
        }
    }

    /// The code: the last hop's, or why no other followed it, or, where that is 0, the failure of its delivery. Where it is `Ok`, the response
    /// is whole, and the bytes at its parts, joined, and then what was handed on are its content: one of the two is empty.
    pub fn code(&self) -> Code
        ensures code { result ≡ self.now.code }
        ensures whole { result ≡ code.Ok → hop.IsWhole self.now.last }
        ensures body { result ≡ code.Ok → hop.HasBody self.now.last }
        ensures content { self.now.last.limit ≡ None → result ≡ code.Ok → hop.HasContent self.now.last }
        ensures handed { result ≡ code.Ok → self.now.content ≡ self.now.last.content }
        ensures listed { is_outcome_code result self.now.last.limit ≡ true }
    {
        let ended = self.last.code();
        // proof: the code is the last hop's
        let _ended = ended;
        settle(self.code, self.delivery.fault())
    }

    /// The status of the last hop's final head, 0 where none was read.
    pub fn status(&self) -> u16
        ensures status { result ≡ self.now.status }
        ensures wire { HasStatus self.now.wire result }
    {
        self.last.status()
    }

    /// The heads of the last hop's response: its interim heads and its final head (RFC 9112, section 2.1), and no bytes where it has no
    /// final head.
    pub fn heads(&self) -> &[u8]
        ensures { HasHeads self.now.wire result.now }
    {
        heads_of(&self.last)
    }

    /// Why the bytes of the last hop's response are no whole response, where its content was handed on: after how many of them that is
    /// decided, and what is wrong there; or where they end, if nothing is decided. `None` where they are one, where the body is too large,
    /// and where more bytes came than are counted; and of a response that is held, which `reason_of` of `mx_reason` tells.
    pub fn why(&self) -> Option<Reason>
        ensures { hop.TellsReason self.now.last result }
    {
        self.last.why()
    }

    /// Its delivery. What that was handed is a prefix of the content that was handed on. Where the code is `Ok`, it has not failed.
    pub fn delivery(&self) -> &D
        ensures limit { self.now.last.limit ≡ limit_by (D.flows result.now) }
        ensures handed { (rest : List ℕ) × (self.now.content ≡ D.handed result.now ++ rest) }
        ensures sound { self.now.code ≡ code.Ok → D.fault result.now ≡ None }
    {
        // proof: the code of a failure isn't 0
        let _failure = self.delivery.fault();
        &self.delivery
    }

    /// Its delivery, and the content that it had no room for, in order, by move.
    pub fn into_delivery(self) -> (D, Window)
        ensures limit { self.last.limit ≡ limit_by (D.flows result.0) }
        ensures handed { self.content ≡ D.handed result.0 ++ result.1.items }
        ensures sound { self.code ≡ code.Ok → D.fault result.0 ≡ None }
    {
        // proof: the code of a failure isn't 0
        let _failure = self.delivery.fault();
        let Outcome {
            earlier,
            last,
            code: _,
            delivery,
            rest,
        } = self;
        drop(earlier);
        drop(last);
        (delivery, rest)
    }

    // The length of the body in bytes, where it is held.
    fn held_len(&self) -> u32
        ensures { result ≡ length (joined self.now.wire self.now.parts) }
    {
        if !is_ok(self.code) {
            return 0;
        }
        self.last.body_len()
    }

    /// How many bytes of content were handed on, held at 18,446,744,073,709,551,615.
    pub fn content_len(&self) -> u64
        ensures { result ≡ min (length self.now.content) (2 ^ 64 - 1) }
    {
        self.delivery.count().saturating_add(self.rest.len() as u64)
    }

    // The same, held at the greatest number of 32 bits.
    fn handed_len(&self) -> u32
        ensures { result ≡ min (length self.now.content) (2 ^ 32 - 1) }
    {
        match u32::try_from(self.content_len()) {
            Ok(len) => len,
            Err(_) => u32::MAX,
        }
    }
}

impl Outcome<Held> {
    /// What holds of every outcome. It does nothing: a call gives its caller's proof the law.
    pub fn know(&self)
        ensures { IsOutcome self.now }
    {
        // proof: what holds of an outcome
        let _code = self.code;
    }

    // rule redirect-heads
    /// The bytes of the response of a hop, counted from 0, where memory has all of them: of the last hop always, and of each other hop
    /// unless its transfer keeps heads alone. `None` past the last.
    pub fn hop_wire(&self, i: usize) -> Option<&[u8]>
        ensures { option_copied result ≡ wire_at self.now i }
    {
        if i == self.earlier.len() {
            return Some(self.last.kept());
        }
        self.earlier.wire(i)
    }

    /// The bytes of the last hop's response, as far as it came: a prefix of what its link gave, and all of it unless that hop
    /// ended with `OutOfMemory`.
    pub fn wire(&self) -> &[u8]
        ensures wire { result.now ≡ self.now.wire }
        ensures front { hop.IsFront self.now.last }
        ensures all { self.now.last.code ≢ code.OutOfMemory → result.now ≡ given self.now.last.answers }
    {
        self.last.kept()
    }

    /// How many parts the body has; 0 where the code isn't `Ok`.
    pub fn part_count(&self) -> usize
        ensures count { result ≡ length self.now.parts }
        ensures none { self.now.code ≢ code.Ok → result ≡ 0 }
    {
        if !is_ok(self.code) {
            return 0;
        }
        self.last.part_count()
    }

    /// A part of the body, counted from 0; `None` past the last.
    pub fn part(&self, i: usize) -> Option<&[u8]>
        ensures some { i < length self.now.parts → IfSome result (λ bytes. (p : Part) × (slice_get self.now.parts i ≡ Some p) × (bytes.now ≡ slice_range self.now.wire p.start p.end)) }
        ensures count { IsSome result ↔ (i < length self.now.parts) }
    {
        if !is_ok(self.code) {
            return None;
        }
        self.last.part(i)
    }

    /// The length of the body in bytes.
    pub fn body_len(&self) -> u32
        ensures { result ≡ length (joined self.now.wire self.now.parts) }
    {
        self.held_len()
    }

    /// The body: its parts, joined.
    ///
    /// Returns `OutOfMemory` where memory for it is refused.
    pub fn copy_body(&self, alloc: Global) -> Result<Vec<u8>, OutOfMemory>
        ensures { IfOk result (λ body. body.items ≡ joined self.now.wire self.now.parts) }
    {
        if !is_ok(self.code) {
            return Ok(Vec::new(alloc));
        }
        self.last.copy_body(alloc)
    }
}

impl<D: Delivery> Ending for Outcome<D> {
    ghost use Rattle.mx_chain.specs.Outcomes.{size_of};
    ghost use Rattle.mx_request.specs.Request.{request_origin};

    ghost origin = { λ o. request_origin o.request };

    ghost code_of = { λ o. o.code };

    ghost size_of = { λ o. size_of o };

    fn code(&self) -> Code {
        Outcome::code(self)
    }

    fn size(&self) -> u32 {
        match self.delivery.most_bytes() {
            None => self.held_len(),
            Some(_) => self.handed_len(),
        }
    }
}
