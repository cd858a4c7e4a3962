//! A reader that hands the content of a response on as it comes, and keeps the heads.

ghost use Rattle.std.specs.Prelude.{◌≡◌, ◌≢◌, ◌↔◌, ◌++◌, IsTrue, [], true, false, None, Some, Ok, length, min, IfOk, IfSome, OnErr};
ghost use Rattle.mx_body.specs.Decision.{HasStatus, TellsLocation, IsPlaceIn, bytes_at};
ghost use Rattle.mx_body.specs.Decoder.{HasVerdictCode};
ghost use Rattle.mx_body.specs.declared.decoder.Stand.TheVariants as stand;
ghost use Rattle.mx_flow.specs.Streams.{limit_of};
ghost use Rattle.mx_reader.specs.Readers.{IsReader, first_reader, HandsOn, IsFedBy, IsEndOf, most_counted, IsPrefixOfEach, IsWithin};
ghost use Rattle.mx_reader.specs.Readers as spec;
ghost use Rattle.mx_reader.specs.Flowing.{KeepsBy, stand_by};
ghost use Rattle.mx_reader.specs.Whys.{IsReasonOf, HasNoReason};

use mx_body::{Part, Stand};
use mx_flow::{Stream, StreamState};
use mx_reason::Reason;
use mx_types::{History, Method, OutOfMemory};
use std::alloc::Global;
use std::marker::Model;

/// A response whose content is handed on as it comes. It takes the bytes behind the end of the response that come with it, and leaves them
/// alone.
pub(crate) struct FlowingReader {
    alloc: Global,
    stream: Stream,
    stand: Stand,
    ended: bool,
    // Whether the connection may serve another request, as far as the response says.
    keep: bool,
    // Whether no byte is behind those of the stream.
    is_all: bool,
    // How many bytes were fed.
    fed: u64,
    behind: History<u8>,
}

// Written out, and not derived: what drops a reader cites its proof.
impl Drop for FlowingReader {
    fn drop(self) {
        let FlowingReader {
            alloc: _,
            stream,
            stand: _,
            ended: _,
            keep: _,
            is_all: _,
            fed: _,
            behind,
        } = self;
        drop(stream);
        drop(behind);
    }
}

impl Model for FlowingReader {
    ghost use Rattle.mx_reader.specs.Readers.{ReaderValue};
    ghost use Rattle.mx_reader.specs.Flowing.{flowing, IsFlowing};

    ghost Value = { ReaderValue };

    ghost view = { λ r. flowing r.stream r.behind r.stand r.ended r.keep };

    ghost invariant = { λ r. IsFlowing r.stream r.behind r.stand r.ended r.keep r.is_all r.fed };
}

// The state of the bytes of a stream, as that of a decoder.
fn stand_by(stand: StreamState) -> Stand
    ensures { result ≡ stand_by stand }
{
    match stand {
        StreamState::More => Stand::More,
        StreamState::Whole => Stand::Complete,
        StreamState::Fault(code) => Stand::Fault(code),
    }
}

// Whether the connection may serve another request, where the bytes have this state before it ends.
fn keeps_by(stream: &Stream, stand: StreamState) -> bool
    ensures { KeepsBy stream.now stand result }
{
    match stand {
        StreamState::More => false,
        StreamState::Whole => stream.keeps(),
        StreamState::Fault(_) => false,
    }
}

// Notes bytes, for contracts alone.
fn note_all(noted: &mut History<u8>, bytes: &[u8])
    ensures { noted.new ≡ noted.old ++ bytes.now }
{
    for byte in bytes {
        noted.note(*byte);
    }
}

impl FlowingReader {
    pub(crate) fn new(alloc: Global, method: Method, most_bytes: Option<u64>) -> FlowingReader
        ensures begins { result ≡ first_reader method (Some (limit_of most_bytes)) }
        ensures exact { IsReader result }
    {
        FlowingReader {
            alloc,
            stream: Stream::new(alloc, method, most_bytes),
            stand: Stand::More,
            ended: false,
            keep: false,
            is_all: true,
            fed: 0,
            behind: History::new(),
        }
    }

    pub(crate) fn stand(&self) -> Stand
        ensures stand { result ≡ self.now.judgement.stand }
        ensures exact { IsReader self.now }
    {
        self.stand
    }

    // Takes the next bytes, where nothing is decided yet.
    fn take(&mut self, piece: &[u8], out: &mut Vec<u8>) -> Result<(), OutOfMemory>
        requires { self.old.judgement.stand ≡ stand.More }
        ensures fed { IfOk result (λ _. IsFedBy self.old self.new piece.now) }
        ensures handed { IfOk result (λ _. HandsOn self.old self.new out.old.items out.new.items) }
        ensures exact { IsReader self.new }
        ensures memory { OnErr result (piece.now ≢ []) }
        ensures refused { OnErr result ((self.new ≡ self.old) × (out.new.items ≡ out.old.items)) }
    {
        let (stand, taken) = self.stream.feed(piece, out)?;
        self.keep = keeps_by(&self.stream, stand);
        self.stand = stand_by(stand);
        self.is_all = taken == piece.len();
        self.fed = self.fed.saturating_add(piece.len() as u64);
        note_all(&mut self.behind, &piece[taken..]);
        Ok(())
    }

    pub(crate) fn feed(&mut self, piece: &[u8], out: &mut Vec<u8>) -> Result<Stand, OutOfMemory>
        ensures limited { self.old.limit ≢ None }
        ensures over { self.old.judgement.stand ≢ stand.More → (self.new ≡ self.old) × (result ≡ Ok self.old.judgement.stand) }
        ensures fed { self.old.judgement.stand ≡ stand.More → IfOk result (λ _. IsFedBy self.old self.new piece.now) }
        ensures handed { IfOk result (λ _. HandsOn self.old self.new out.old.items out.new.items) }
        ensures stand { IfOk result (λ s. s ≡ self.new.judgement.stand) }
        ensures code { IfOk result HasVerdictCode }
        ensures exact { IsReader self.new }
        ensures memory { OnErr result (piece.now ≢ []) }
        ensures refused { OnErr result ((self.new ≡ self.old) × (out.new.items ≡ out.old.items)) }
    {
        match self.stand {
            Stand::More => {}
            Stand::Complete => return Ok(Stand::Complete),
            Stand::Fault(code) => return Ok(Stand::Fault(code)),
        }
        self.take(piece, out)?;
        Ok(self.stand)
    }

    pub(crate) fn is_plain(&self) -> bool {
        self.stream.is_plain()
    }

    // Takes the next bytes, if all of them are content, where nothing is decided yet.
    fn pass_open(&mut self, piece: &[u8]) -> bool
        requires { self.old.judgement.stand ≡ stand.More }
        ensures fed { IsTrue result → IsFedBy self.old self.new piece.now }
        ensures handed { IsTrue result → self.new.judgement.content ≡ self.old.judgement.content ++ piece.now }
        ensures exact { IsReader self.new }
        ensures same { result ≡ false → self.new ≡ self.old }
    {
        if !self.stream.pass(piece) {
            return false;
        }
        let stand = self.stream.stand();
        self.keep = keeps_by(&self.stream, stand);
        self.stand = stand_by(stand);
        self.is_all = true;
        self.fed = self.fed.saturating_add(piece.len() as u64);
        true
    }

    pub(crate) fn pass(&mut self, piece: &[u8]) -> bool
        ensures fed { IsTrue result → IsFedBy self.old self.new piece.now }
        ensures handed { IsTrue result → self.new.judgement.content ≡ self.old.judgement.content ++ piece.now }
        ensures more { IsTrue result → self.old.judgement.stand ≡ stand.More }
        ensures limited { self.old.limit ≢ None }
        ensures exact { IsReader self.new }
        ensures same { result ≡ false → self.new ≡ self.old }
    {
        match self.stand {
            Stand::More => self.pass_open(piece),
            Stand::Complete => false,
            Stand::Fault(_) => false,
        }
    }

    pub(crate) fn end(&mut self) -> Stand
        ensures over { self.old.judgement.stand ≢ stand.More → self.new ≡ self.old }
        ensures decides { result ≢ stand.More }
        ensures ended { self.old.judgement.stand ≡ stand.More → IsEndOf self.old self.new }
        ensures handed { self.new.judgement.content ≡ self.old.judgement.content }
        ensures stand { result ≡ self.new.judgement.stand }
        ensures code { HasVerdictCode result }
        ensures exact { IsReader self.new }
    {
        match self.stand {
            Stand::More => {}
            Stand::Complete => return Stand::Complete,
            Stand::Fault(code) => return Stand::Fault(code),
        }
        // proof: what the stream has is what its bytes say
        self.stream.know();
        self.ended = true;
        self.stand = stand_by(self.stream.end());
        self.stand
    }

    pub(crate) fn received(&self) -> u64
        ensures { result ≡ min (length self.now.wire) most_counted }
    {
        self.fed
    }

    pub(crate) fn is_unfed(&self) -> bool
        ensures { IsTrue result ↔ (self.now.wire ≡ []) }
    {
        self.fed == 0
    }

    pub(crate) fn may_keep(&self) -> bool
        ensures { result ≡ spec.may_keep self.now.judgement self.now.wire }
    {
        self.keep && self.is_all
    }

    pub(crate) fn status(&self) -> u16
        ensures { HasStatus self.now.wire result }
    {
        // proof: what the stream has is what its bytes say
        self.stream.know();
        self.stream.status()
    }

    pub(crate) fn location(&self) -> Option<Part>
        ensures bytes { TellsLocation self.now.wire (bytes_at self.now.kept result) }
        ensures within { IsPlaceIn (length self.now.kept) result }
    {
        // proof: what the stream has is what its bytes say
        self.stream.know();
        self.stream.location()
    }

    pub(crate) fn kept(&self) -> &[u8]
        ensures { result.now ≡ self.now.kept }
    {
        self.stream.heads()
    }

    pub(crate) fn why(&self) -> Option<Reason>
        ensures some { IfSome result (IsReasonOf self.now) }
        ensures none { result ≡ None → HasNoReason self.now }
        ensures whole { self.now.judgement.stand ≡ stand.Complete → result ≡ None }
    {
        if self.stand == Stand::Complete {
            return None;
        }
        // proof: what the stream has is what its bytes say
        self.stream.know();
        self.stream.why()
    }

    // There are no parts.
    pub(crate) fn into_parts(self) -> (Vec<u8>, Vec<Part>)
        ensures kept { result.0.items ≡ self.kept }
        ensures parts { result.1.items ≡ self.judgement.parts }
        ensures none { result.1.items ≡ [] }
    {
        let FlowingReader {
            alloc,
            stream,
            stand: _,
            ended: _,
            keep: _,
            is_all: _,
            fed: _,
            behind,
        } = self;
        drop(behind);
        (stream.into_heads(), Vec::new(alloc))
    }

    pub(crate) fn know(&self)
        ensures exact { IsReader self.now }
        ensures front { IsPrefixOfEach self.now }
        ensures within { IsWithin self.now }
    {
        // proof: what was handed on is a prefix of the content
        self.stream.know();
    }
}
