//! A decoder that is fed the bytes of an exchange in pieces.
ghost use Rattle.std.specs.Prelude.{◌≡◌, ◌≢◌, ◌++◌, [], true, false, length, IfOk, OnOk, OnErr, Ok};
ghost use Rattle.mx_body.specs.Parts.{AreOrdered};
ghost use Rattle.mx_body.specs.Decision.{HasStatus, HasLocation, TellsLocation, IsPlaceIn, bytes_at, BeginsWithParts};
ghost use Rattle.mx_body.specs.Decoder as spec;
ghost use Rattle.mx_body.specs.Decoder.{IsExact, HasVerdictCode};
ghost use Rattle.mx_body.specs.declared.decoder.Stand.TheVariants as stand;
ghost use Rattle.mx_body.specs.declared.verdict.Verdict.TheVariants as verdict;

use crate::part::Part;
use crate::progress::{Progress, finish, read_more};
use crate::room::append;
use crate::verdict::Verdict;
use mx_types::{Code, Method, OutOfMemory};
use std::alloc::Global;
use std::marker::Model;

/// The state of the bytes that were fed.
#[derive(Clone, Copy, PartialEq, Eq)]
pub enum Stand {
    /// Nothing is decided yet.
    More,
    /// They begin with a whole response.
    Complete,
    /// They begin with no response, and never will.
    Fault(Code),
}

/// A decoder of one response, which is fed its bytes in pieces and owns them. Contracts see the method of the
/// request, the bytes fed, whether they have ended, and the verdict on them.
///
/// Once it has decided it takes no more: each further call changes nothing and answers the same.
pub struct Decoder {
    alloc: Global,
    method: Method,
    wire: Vec<u8>,
    ended: bool,
    verdict: Verdict,
    progress: Progress,
}

// Written out, and not derived: a crate that drops a decoder cites its proof.
impl Drop for Decoder {
    fn drop(self) {
        let Decoder {
            alloc: _,
            method: _,
            wire,
            ended: _,
            verdict,
            progress,
        } = self;
        drop(wire);
        drop(verdict);
        drop(progress);
    }
}

impl Model for Decoder {
    ghost use Rattle.std.specs.Prelude.{◌≡◌};
    ghost use Rattle.mx_body.specs.Decision.{IsVerdict};
    ghost use Rattle.mx_body.specs.Decoder.{Decoded};
    ghost use Rattle.mx_body.specs.Progress.{IsProgressing, KnowsHead};

    ghost Value = { Decoded };

    ghost view = { λ d. record {
      method = d.method;
      wire = d.wire.items;
      ended = d.ended;
      verdict = d.verdict;
    } };

    ghost invariant = { λ d. IsVerdict d.method d.wire.items d.ended d.verdict
        × KnowsHead d.wire.items d.progress.phase
        × IsProgressing d.method d.wire.items d.progress d.verdict };
}

// The state of a verdict.
fn stand_of(verdict: &Verdict) -> Stand
    ensures { result ≡ spec.stand_of verdict.now }
{
    match verdict {
        Verdict::Complete { .. } => Stand::Complete,
        Verdict::More => Stand::More,
        Verdict::Fault(code) => Stand::Fault(*code),
    }
}

impl Decoder {
    /// A decoder of the response to a request of that method, fed nothing so far. It takes no memory.
    pub fn new(alloc: Global, method: Method) -> Decoder
        ensures begins { result ≡ record { method = method; wire = []; ended = false; verdict = verdict.More } }
        ensures exact { IsExact result }
    {
        Decoder {
            alloc,
            method,
            wire: Vec::new(alloc),
            ended: false,
            verdict: Verdict::More,
            progress: Progress::new(alloc),
        }
    }

    /// The state of the bytes fed so far.
    pub fn stand(&self) -> Stand
        ensures stand { result ≡ spec.stand_of self.now.verdict }
        ensures exact { IsExact self.now }
    {
        stand_of(&self.verdict)
    }

    // rule body-in-pieces
    /// Takes the next bytes of the response. Once the decoder has decided they are left alone.
    ///
    /// `OutOfMemory` leaves the decoder as it was, and never comes where the piece is empty.
    /// It may come in place of a fault later in the piece.
    #[tactic(auto, using(crate::proofs::DecoderLemmas::code_is, crate::proofs::DecoderLemmas::ended_is))]
    pub fn feed(&mut self, piece: &[u8]) -> Result<Stand, OutOfMemory>
        ensures over { self.old.verdict ≢ verdict.More → (self.new ≡ self.old) × (result ≡ Ok (spec.stand_of self.old.verdict)) }
        ensures fed { self.old.verdict ≡ verdict.More → IfOk result (λ _. self.new ≡ record self.old { wire = self.old.wire ++ piece.now; verdict = self.new.verdict }) }
        ensures stand { IfOk result (λ s. s ≡ spec.stand_of self.new.verdict) }
        ensures code { IfOk result HasVerdictCode }
        ensures exact { IsExact self.new }
        ensures memory { OnErr result (piece.now ≢ []) }
        ensures refused { OnErr result (self.new ≡ self.old) }
    {
        match &self.verdict {
            Verdict::More if !piece.is_empty() => {}
            other => return Ok(stand_of(other)),
        }
        self.take(piece)?;
        Ok(stand_of(&self.verdict))
    }

    // Takes the next bytes, where nothing is decided yet.
    fn take(&mut self, piece: &[u8]) -> Result<(), OutOfMemory>
        requires { self.old.verdict ≡ verdict.More }
        ensures fed { OnOk result (self.new ≡ record self.old { wire = self.old.wire ++ piece.now; verdict = self.new.verdict }) }
        ensures exact { IsExact self.new }
        ensures refused { OnErr result (self.new ≡ self.old) }
    {
        let len = self.wire.len();
        append(&mut self.wire, piece, self.progress.told_bytes(self.method))?;
        match read_more(
            self.alloc,
            self.method,
            self.wire.as_slice(),
            len,
            &mut self.progress,
        ) {
            Ok(verdict) => {
                self.verdict = verdict;
                Ok(())
            }
            Err(error) => {
                self.wire.truncate(len);
                Err(error)
            }
        }
    }

    /// Notes that the bytes have ended. Once the decoder has decided it makes no difference.
    ///
    /// `OutOfMemory` leaves the decoder as it was.
    #[tactic(auto, using(crate::proofs::DecoderLemmas::code_is, crate::proofs::DecoderLemmas::ended_is))]
    pub fn end(&mut self) -> Result<Stand, OutOfMemory>
        ensures over { self.old.verdict ≢ verdict.More → (self.new ≡ self.old) × (result ≡ Ok (spec.stand_of self.old.verdict)) }
        ensures decides { IfOk result (λ s. s ≢ stand.More) }
        ensures ended { self.old.verdict ≡ verdict.More → IfOk result (λ _. self.new ≡ record self.old { ended = true; verdict = self.new.verdict }) }
        ensures stand { IfOk result (λ s. s ≡ spec.stand_of self.new.verdict) }
        ensures code { IfOk result HasVerdictCode }
        ensures exact { IsExact self.new }
        ensures memory { OnErr result (BeginsWithParts self.old.method self.old.wire true) }
        ensures refused { OnErr result (self.new ≡ self.old) }
    {
        match &self.verdict {
            Verdict::More => {}
            decided => return Ok(stand_of(decided)),
        }
        let verdict = finish(
            self.alloc,
            self.method,
            self.wire.as_slice(),
            &self.progress,
        )?;
        self.ended = true;
        self.verdict = verdict;
        Ok(stand_of(&self.verdict))
    }

    /// The bytes fed, up to and with the call that decided.
    pub fn wire(&self) -> &[u8]
        ensures { result.now ≡ self.now.wire }
    {
        self.wire.as_slice()
    }

    /// The verdict on the bytes fed.
    pub fn verdict(&self) -> &Verdict
        ensures { result.now ≡ self.now.verdict }
    {
        &self.verdict
    }

    /// The status of the final head in the bytes fed, 0 where there is none. It takes no memory.
    #[tactic(auto, using(crate::proofs::ProgressLemmas::known_status))]
    pub fn status(&self) -> u16
        ensures { HasStatus self.now.wire result }
    {
        self.progress.status()
    }

    // rule redirect-interim-location
    /// Where in the bytes fed the value of the first Location line of the final head is (RFC 9110, section 10.2.2); `None` where
    /// that is empty, or there is no such line, or no final head. It takes no memory.
    pub fn location(&self) -> Option<Part>
        ensures place { HasLocation self.now.wire result }
        ensures bytes { TellsLocation self.now.wire (bytes_at self.now.wire result) }
        ensures within { IsPlaceIn (length self.now.wire) result }
    {
        self.progress.location(self.wire.as_slice())
    }

    /// Where a whole response ends in the bytes fed; 0 where there is none.
    pub fn len(&self) -> usize
        ensures { result ≡ spec.len_of self.now.verdict }
    {
        self.verdict.len()
    }

    /// Whether the connection may serve another request; `false` where there is no whole response.
    pub fn keep(&self) -> bool
        ensures { result ≡ spec.keep_of self.now.verdict }
    {
        self.verdict.keep()
    }

    /// Where the data of the body are in the bytes fed; none where there is no whole response.
    pub fn parts(&self) -> &[Part]
        ensures { result.now ≡ spec.parts_of self.now.verdict }
    {
        self.verdict.parts()
    }

    /// The bytes fed, by move.
    pub fn into_wire(self) -> Vec<u8>
        ensures { result.items ≡ self.wire }
    {
        let Decoder {
            alloc: _,
            method: _,
            wire,
            ended: _,
            verdict,
            progress,
        } = self;
        drop(verdict);
        drop(progress);
        wire
    }

    /// The bytes fed and where the data of the body are in them, by move. There are no parts where there is no
    /// whole response.
    #[tactic(auto, using(crate::proofs::DecoderLemmas::parts_within))]
    pub fn into_parts(self) -> (Vec<u8>, Vec<Part>)
        ensures wire { result.0.items ≡ self.wire }
        ensures parts { result.1.items ≡ spec.parts_of self.verdict }
        ensures ordered { AreOrdered 0 (length self.wire) result.1.items }
    {
        let Decoder {
            alloc,
            method: _,
            wire,
            ended: _,
            verdict,
            progress,
        } = self;
        drop(progress);
        match verdict {
            Verdict::Complete { parts, .. } => (wire, parts),
            _ => (wire, Vec::new(alloc)),
        }
    }
}
