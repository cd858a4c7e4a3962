//! A reader of one response.

ghost use Rattle.std.specs.Prelude.{◌≡◌, ◌≢◌, ◌↔◌, ◌++◌, IsTrue, [], true, false, None, Some, Ok, length, min, IfOk, IfSome, OnErr};
ghost use Rattle.mx_body.specs.Parts.{AreOrdered};
ghost use Rattle.mx_body.specs.Decision.{HasStatus, TellsLocation, IsPlaceIn, bytes_at, BeginsWithParts};
ghost use Rattle.mx_body.specs.Decoder.{HasVerdictCode};
ghost use Rattle.mx_body.specs.declared.decoder.Stand.TheVariants as stand;
ghost use Rattle.mx_flow.specs.Streams.{limit_of};
ghost use Rattle.mx_reader.specs.Readers.{IsReader, first_reader, HandsOn, IsFedBy, IsEndOf, most_counted, IsPrefixOfEach, IsWithin};
ghost use Rattle.mx_reader.specs.Readers as spec;
ghost use Rattle.mx_reader.specs.Whys.{IsReasonOf, HasNoReason};

use crate::flowing::FlowingReader;
use mx_body::{Decoder, Part, Stand};
use mx_reason::Reason;
use mx_types::{Method, OutOfMemory};
use std::alloc::Global;
use std::marker::Model;

/// How the bytes are read.
pub(crate) enum Mode {
    /// All are kept.
    Held(Decoder),
    /// The content is handed on.
    Flowing(FlowingReader),
}

/// A reader of one response, which is fed its bytes in pieces. It holds all of them, or it keeps the heads and hands the content on as that
/// comes. Contracts see the method of the request, the limit of the content where it is handed on, the bytes fed, whether they have ended,
/// which of them are kept, and the judgement on them.
///
/// Once it has decided it takes no more: each further call changes nothing and answers the same.
pub struct Reader {
    mode: Mode,
}

// Written out, and not derived: a crate that drops a reader cites its proof.
impl Drop for Reader {
    fn drop(self) {
        let Reader { mode } = self;
        match mode {
            Mode::Held(decoder) => drop(decoder),
            Mode::Flowing(reader) => drop(reader),
        }
    }
}

impl Model for Reader {
    ghost use Rattle.mx_reader.specs.Readers.{ReaderValue};
    ghost use Rattle.mx_reader.specs.Modes.{value_of};

    ghost Value = { ReaderValue };

    ghost view = { λ r. value_of r.mode };
}

impl Reader {
    /// A reader that holds the response to a request of that method, fed nothing so far. It takes no memory.
    pub fn holding(alloc: Global, method: Method) -> Reader
        ensures begins { result ≡ first_reader method None }
        ensures exact { IsReader result }
    {
        Reader {
            mode: Mode::Held(Decoder::new(alloc, method)),
        }
    }

    /// A reader that hands on the content of the response to a request of that method, fed nothing so far. The content may have
    /// `most_bytes` bytes, and never more than 9,223,372,036,854,775,807, which is also the limit where there is none. It takes no memory.
    pub fn flowing(alloc: Global, method: Method, most_bytes: Option<u64>) -> Reader
        ensures begins { result ≡ first_reader method (Some (limit_of most_bytes)) }
        ensures exact { IsReader result }
    {
        Reader {
            mode: Mode::Flowing(FlowingReader::new(alloc, method, most_bytes)),
        }
    }

    /// The state of the bytes fed so far.
    pub fn stand(&self) -> Stand
        ensures stand { result ≡ self.now.judgement.stand }
        ensures exact { IsReader self.now }
    {
        match &self.mode {
            Mode::Held(decoder) => decoder.stand(),
            Mode::Flowing(reader) => reader.stand(),
        }
    }

    /// Takes the next bytes of the response, and adds the content among them to `out` where it is handed on. Once the reader has decided
    /// they are left alone.
    ///
    /// `OutOfMemory` leaves both as they were, and never comes where the piece is empty. It may come in place of a fault later in the piece.
    pub fn feed(&mut self, piece: &[u8], out: &mut Vec<u8>) -> Result<Stand, OutOfMemory>
        ensures over { self.old.judgement.stand ≢ stand.More → (self.new ≡ self.old) × (result ≡ Ok self.old.judgement.stand) }
        ensures fed { self.old.judgement.stand ≡ stand.More → IfOk result (λ _. IsFedBy self.old self.new piece.now) }
        ensures handed { IfOk result (λ _. HandsOn self.old self.new out.old.items out.new.items) }
        ensures held { self.old.limit ≡ None → out.new.items ≡ out.old.items }
        ensures stand { IfOk result (λ s. s ≡ self.new.judgement.stand) }
        ensures code { IfOk result HasVerdictCode }
        ensures exact { IsReader self.new }
        ensures memory { OnErr result (piece.now ≢ []) }
        ensures refused { OnErr result ((self.new ≡ self.old) × (out.new.items ≡ out.old.items)) }
    {
        match &mut self.mode {
            Mode::Held(decoder) => decoder.feed(piece),
            Mode::Flowing(reader) => reader.feed(piece, out),
        }
    }

    /// A guess, for speed alone, which no contract rests on: whether [`pass`](Reader::pass) is worth a try.
    pub fn is_plain(&self) -> bool {
        match &self.mode {
            Mode::Held(_) => false,
            Mode::Flowing(reader) => reader.is_plain(),
        }
    }

    /// Takes the next bytes of the response for a caller that has them at their place already: all of them are content that is handed on
    /// then. Or it answers false, which it may of any bytes, and takes none.
    pub fn pass(&mut self, piece: &[u8]) -> bool
        ensures fed { IsTrue result → IsFedBy self.old self.new piece.now }
        ensures handed { IsTrue result → self.new.judgement.content ≡ self.old.judgement.content ++ piece.now }
        ensures more { IsTrue result → self.old.judgement.stand ≡ stand.More }
        ensures limited { IsTrue result → self.old.limit ≢ None }
        ensures exact { IsReader self.new }
        ensures same { result ≡ false → self.new ≡ self.old }
    {
        match &mut self.mode {
            Mode::Held(decoder) => {
                // proof: the verdict is that on the bytes
                let _stand = decoder.stand();
                false
            }
            Mode::Flowing(reader) => reader.pass(piece),
        }
    }

    /// Notes that the bytes have ended. Once the reader has decided it makes no difference. No content is handed on.
    ///
    /// `OutOfMemory` leaves the reader as it was. It comes only of a response that is held.
    pub fn end(&mut self) -> Result<Stand, OutOfMemory>
        ensures over { self.old.judgement.stand ≢ stand.More → (self.new ≡ self.old) × (result ≡ Ok self.old.judgement.stand) }
        ensures decides { IfOk result (λ s. s ≢ stand.More) }
        ensures ended { self.old.judgement.stand ≡ stand.More → IfOk result (λ _. IsEndOf self.old self.new) }
        ensures handed { self.new.judgement.content ≡ self.old.judgement.content }
        ensures stand { IfOk result (λ s. s ≡ self.new.judgement.stand) }
        ensures code { IfOk result HasVerdictCode }
        ensures exact { IsReader self.new }
        ensures memory { OnErr result ((self.old.limit ≡ None) × BeginsWithParts self.old.method self.old.wire true) }
        ensures refused { OnErr result (self.new ≡ self.old) }
    {
        match &mut self.mode {
            Mode::Held(decoder) => decoder.end(),
            Mode::Flowing(reader) => Ok(reader.end()),
        }
    }

    /// How many bytes were fed, up to and with the call that decided, also those behind the end of the response; 18,446,744,073,709,551,615
    /// where there were more.
    pub fn received(&self) -> u64
        ensures { result ≡ min (length self.now.wire) most_counted }
    {
        match &self.mode {
            Mode::Held(decoder) => decoder.wire().len() as u64,
            Mode::Flowing(reader) => reader.received(),
        }
    }

    /// Whether no byte was fed.
    pub fn is_unfed(&self) -> bool
        ensures { IsTrue result ↔ (self.now.wire ≡ []) }
    {
        match &self.mode {
            Mode::Held(decoder) => decoder.wire().is_empty(),
            Mode::Flowing(reader) => reader.is_unfed(),
        }
    }

    /// Whether the connection may serve another request: there is a whole response that says so, and it is all that was fed.
    pub fn may_keep(&self) -> bool
        ensures { result ≡ spec.may_keep self.now.judgement self.now.wire }
    {
        match &self.mode {
            Mode::Held(decoder) => decoder.keep() && decoder.len() == decoder.wire().len(),
            Mode::Flowing(reader) => reader.may_keep(),
        }
    }

    /// The status of the final head in the bytes fed, 0 where there is none. It takes no memory.
    pub fn status(&self) -> u16
        ensures { HasStatus self.now.wire result }
    {
        match &self.mode {
            Mode::Held(decoder) => decoder.status(),
            Mode::Flowing(reader) => reader.status(),
        }
    }

    /// Where in the bytes that are kept the value of the first Location line of the final head is (RFC 9110, section 10.2.2); `None` where
    /// that is empty, or there is no such line, or no final head. It takes no memory.
    pub fn location(&self) -> Option<Part>
        ensures bytes { TellsLocation self.now.wire (bytes_at self.now.kept result) }
        ensures within { IsPlaceIn (length self.now.kept) result }
    {
        match &self.mode {
            Mode::Held(decoder) => decoder.location(),
            Mode::Flowing(reader) => reader.location(),
        }
    }

    /// Why the bytes fed are no whole response, where its content is handed on: after how many of them that is decided, and what is wrong
    /// there; or where they end, if nothing is decided. `None` where they are one, where the body is too large, and where more bytes came
    /// than are counted; and of a response that is held, which `reason_of` of `mx_reason` tells.
    pub fn why(&self) -> Option<Reason>
        ensures some { IfSome result (IsReasonOf self.now) }
        ensures none { result ≡ None → HasNoReason self.now }
        ensures whole { self.now.judgement.stand ≡ stand.Complete → result ≡ None }
    {
        match &self.mode {
            Mode::Held(_) => None,
            Mode::Flowing(reader) => reader.why(),
        }
    }

    /// The bytes that are kept: of a response that is held all that were fed; of one that is handed on the heads, the interim ones and the
    /// final one, and nothing where there is no final head.
    pub fn kept(&self) -> &[u8]
        ensures { result.now ≡ self.now.kept }
    {
        match &self.mode {
            Mode::Held(decoder) => decoder.wire(),
            Mode::Flowing(reader) => reader.kept(),
        }
    }

    /// The bytes that are kept and where the data of the body are in them, by move. There are no parts where there is no whole response, or
    /// its content was handed on.
    pub fn into_parts(self) -> (Vec<u8>, Vec<Part>)
        ensures kept { result.0.items ≡ self.kept }
        ensures parts { result.1.items ≡ self.judgement.parts }
        ensures ordered { AreOrdered 0 (length self.kept) result.1.items }
    {
        let Reader { mode } = self;
        match mode {
            Mode::Held(decoder) => decoder.into_parts(),
            Mode::Flowing(reader) => reader.into_parts(),
        }
    }

    /// The judgement is that on the bytes fed. Of a response that is handed on, what was handed on is a prefix of the content of each
    /// response that the bytes may still become, and never longer than the limit. It does nothing: a call gives its caller's proof the law.
    pub fn know(&self)
        ensures exact { IsReader self.now }
        ensures front { IsPrefixOfEach self.now }
        ensures within { IsWithin self.now }
    {
        match &self.mode {
            Mode::Held(decoder) => {
                // proof: the verdict is that on the bytes
                let _stand = decoder.stand();
            }
            Mode::Flowing(reader) => reader.know(),
        }
    }
}
