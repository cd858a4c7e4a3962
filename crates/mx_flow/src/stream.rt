//! A response whose bytes come in pieces.

ghost use Rattle.std.specs.Prelude.{◌≡◌, ◌≢◌, ◌≤◌, IsTrue, false, [], None, Ok, length, IfOk, IfSome, OnErr};
ghost use Rattle.mx_body.specs.Decision.{HasStatus, HasLocation, TellsLocation, IsPlaceIn, bytes_at};
ghost use Rattle.mx_flow.specs.Streams.{limit_of, first_stream, IsStream, IsTaken, IsPrefixOfEach, HasEnd, IsNoneAtEnd, TellsKeeps};
ghost use Rattle.mx_flow.specs.Stages.{HasKept, HasNoneKept};
ghost use Rattle.mx_flow.specs.Whys.{HasNoWhy, IsCutWhereOpen, TellsWhy};
ghost use Rattle.mx_flow.specs.declared.stream_state.StreamState.TheVariants as stand;

use crate::stage::{KeptHeads, Stage, end_body, feed_stage, why_of};
use crate::stream_state::{StreamState, stand_of};
use mx_body::{Heads, Part, place_of};
use mx_head::keeps;
use mx_reason::Reason;
use mx_types::{Code, Method, OutOfMemory};
use std::alloc::Global;
use std::marker::Model;
use std::mem;

/// The most bytes of content of any response.
const MOST_CONTENT: u64 = 9_223_372_036_854_775_807;

/// A response whose bytes come in pieces. It keeps its heads, and hands its content on as that comes. Contracts see the method of the
/// request, the limit of the content, the bytes that came, the heads, the content that was handed on, and the state of the bytes.
///
/// Once it has decided it takes no more: each further call changes nothing and answers the same.
pub struct Stream {
    alloc: Global,
    method: Method,
    limit: u64,
    stage: Stage,
}

// Written out, and not derived: a crate that drops a stream cites its proof.
impl Drop for Stream {
    fn drop(self) {
        let Stream {
            alloc: _,
            method: _,
            limit: _,
            stage,
        } = self;
        drop(stage);
    }
}

impl Model for Stream {
    ghost use Rattle.mx_flow.specs.Streams.{StreamValue};
    ghost use Rattle.mx_flow.specs.Stages.{at_stage, IsStage};

    ghost Value = { StreamValue };

    ghost view = { λ s. at_stage s.method s.limit s.stage };

    ghost invariant = { λ s. IsStage s.method s.limit s.stage };
}

// rule body-stream-limit
// The limit of the content where the request asks for this one.
fn content_limit(most_bytes: Option<u64>) -> u64
    ensures { result ≡ limit_of most_bytes }
{
    match most_bytes {
        Some(limit) => limit.min(MOST_CONTENT),
        None => MOST_CONTENT,
    }
}

impl Stream {
    /// The response to a request of that method, of which no byte has come. Its content may have `most_bytes` bytes, and never more than
    /// 9,223,372,036,854,775,807, which is also the limit where there is none. It takes no memory.
    pub fn new(alloc: Global, method: Method, most_bytes: Option<u64>) -> Stream
        ensures begins { result ≡ first_stream method (limit_of most_bytes) }
        ensures exact { IsStream result }
    {
        Stream {
            alloc,
            method,
            limit: content_limit(most_bytes),
            stage: Stage::Heads(Heads::new(alloc)),
        }
    }

    /// The state of the bytes that came.
    pub fn stand(&self) -> StreamState
        ensures stand { result ≡ self.now.stand }
        ensures exact { IsStream self.now }
    {
        match &self.stage {
            Stage::Heads(_) => StreamState::More,
            Stage::BadHeads(_, code) => StreamState::Fault(*code),
            Stage::BadFraming(_, code) => StreamState::Fault(*code),
            Stage::Body(_, flow) => stand_of(flow.state()),
        }
    }

    // Takes the next bytes.
    fn take(&mut self, piece: &[u8], out: &mut Vec<u8>) -> Result<usize, OutOfMemory>
        ensures taken { IfOk result (λ n. IsTaken self.old self.new n piece.now out.old.items out.new.items) }
        ensures refused { OnErr result ((self.new ≡ self.old) × (out.new.items ≡ out.old.items)) }
    {
        let stage = mem::replace(&mut self.stage, Stage::Heads(Heads::new(self.alloc)));
        let (stage, taken) = feed_stage(self.method, self.limit, stage, piece, out);
        self.stage = stage;
        taken
    }

    // rule body-stream-in-pieces
    // rule body-stream-fault
    /// Takes the next bytes, up to the last one of the response or the one that is refused, and adds the content among them to `out`. It
    /// answers the state of the bytes that came, and how many it took: all, where more is to come. Where heads are refused it takes the
    /// whole piece. Once it has decided it takes none.
    ///
    /// `OutOfMemory` leaves both as they were. It never comes once it has decided, nor where the piece is empty.
    pub fn feed(
        &mut self,
        piece: &[u8],
        out: &mut Vec<u8>,
    ) -> Result<(StreamState, usize), OutOfMemory>
        ensures over { self.old.stand ≢ stand.More → (self.new ≡ self.old) × (result ≡ Ok (self.old.stand, 0)) }
        ensures taken { IfOk result (λ r. IsTaken self.old self.new r.1 piece.now out.old.items out.new.items) }
        ensures stand { IfOk result (λ r. r.0 ≡ self.new.stand) }
        ensures exact { IsStream self.new }
        ensures memory { OnErr result (piece.now ≢ []) }
        ensures refused { OnErr result ((self.new ≡ self.old) × (out.new.items ≡ out.old.items)) }
    {
        let stand = self.stand();
        if stand != StreamState::More {
            return Ok((stand, 0));
        }
        if piece.is_empty() {
            return Ok((StreamState::More, 0));
        }
        let taken = self.take(piece, out)?;
        Ok((self.stand(), taken))
    }

    /// A guess, for speed alone, which no contract rests on: whether [`pass`](Stream::pass) is worth a try.
    pub fn is_plain(&self) -> bool {
        match &self.stage {
            Stage::Body(_, flow) => flow.is_plain(),
            _ => false,
        }
    }

    // rule body-stream-in-pieces
    /// Takes the next bytes as [`feed`](Stream::feed) does, for a caller that has them at their place already: all of them are content as they
    /// are then. Or it answers false, which it may of any bytes, and takes none.
    pub fn pass(&mut self, piece: &[u8]) -> bool
        ensures passed { IsTrue result → IsTaken self.old self.new (length piece.now) piece.now [] piece.now }
        ensures going { IsTrue result → self.old.stand ≡ stand.More }
        ensures exact { IsStream self.new }
        ensures same { result ≡ false → self.new ≡ self.old }
    {
        let passed = match &mut self.stage {
            Stage::Body(_, flow) => flow.pass(piece),
            _ => false,
        };
        // proof: what came is what the state says
        let _stand = self.stand();
        passed
    }

    // rule body-stream-end
    // The state of the bytes that came where the connection ends with them.
    fn end_state(&self) -> StreamState
        ensures { HasEnd self.now result }
    {
        match &self.stage {
            Stage::Heads(heads) => if heads.as_slice().is_empty() {
                StreamState::Fault(Code::GotNothing)
            } else {
                StreamState::Fault(Code::WeirdServerReply)
            },
            Stage::BadHeads(_, code) => StreamState::Fault(*code),
            Stage::BadFraming(_, code) => StreamState::Fault(*code),
            Stage::Body(_, flow) => end_body(flow),
        }
    }

    /// The state of the bytes that came where the connection ends with them: a whole response, or a fault. Bytes that end too soon are
    /// `GotNothing` without a byte, `WeirdServerReply` before the end of the final head, and `PartialFile` after it.
    pub fn end(&self) -> StreamState
        ensures end { HasEnd self.now result }
        ensures decides { result ≢ stand.More }
        ensures none { result ≢ stand.Whole → IsNoneAtEnd self.now }
    {
        self.end_state()
    }

    /// What was handed on is a prefix of the content of each response that the bytes may still become, and never longer than the limit. It
    /// does nothing: a call gives its caller's proof the law.
    pub fn know(&self)
        ensures exact { IsStream self.now }
        ensures front { IsPrefixOfEach self.now }
        ensures within { length self.now.content ≤ self.now.limit }
    {
        // proof: what came is what the state says
        let _stand = self.stand();
    }

    // rule body-stream-reason
    /// Why the bytes that came are no whole response: after how many of them that is decided, and what is wrong there; or where they end, if
    /// nothing is decided. `None` where they are one, where the body is too large, and where more bytes came than are counted.
    pub fn why(&self) -> Option<Reason>
        ensures some { IfSome result (TellsWhy self.now.limit self.now.method self.now.wire) }
        ensures cut { IfSome result (IsCutWhereOpen self.now.stand) }
        ensures none { result ≡ None → HasNoWhy self.now }
    {
        why_of(self.alloc, self.method, self.limit, &self.stage)
    }

    // The heads, once the final head has come.
    fn kept(&self) -> Option<&KeptHeads>
        ensures some { IfSome result (λ kept. HasKept self.now kept.now) }
        ensures none { result ≡ None → HasNoneKept self.now }
    {
        match &self.stage {
            Stage::Heads(_) => None,
            Stage::BadHeads(_, _) => None,
            Stage::BadFraming(kept, _) => Some(kept),
            Stage::Body(kept, _) => Some(kept),
        }
    }

    /// The status of the final head in the bytes that came, 0 where there is none.
    pub fn status(&self) -> u16
        ensures { HasStatus self.now.wire result }
    {
        match self.kept() {
            Some(kept) => kept.head.status(),
            None => 0,
        }
    }

    /// The heads, the interim ones and the final one; nothing where there is no final head.
    pub fn heads(&self) -> &[u8]
        ensures { result.now ≡ self.now.heads }
    {
        match self.kept() {
            Some(kept) => kept.bytes.as_slice(),
            None => &[],
        }
    }

    /// The heads, by move.
    pub fn into_heads(self) -> Vec<u8>
        ensures { result.items ≡ self.heads }
    {
        let Stream {
            alloc,
            method: _,
            limit: _,
            stage,
        } = self;
        match stage {
            Stage::Heads(_) => Vec::new(alloc),
            Stage::BadHeads(_, _) => Vec::new(alloc),
            Stage::BadFraming(kept, _) => kept.into_bytes(),
            Stage::Body(kept, _) => kept.into_bytes(),
        }
    }

    /// Where in the heads the value of the first Location line of the final head is (RFC 9110, section 10.2.2); `None` where that is
    /// empty, or there is no such line, or no final head.
    pub fn location(&self) -> Option<Part>
        ensures place { HasLocation self.now.wire result }
        ensures bytes { TellsLocation self.now.wire (bytes_at self.now.heads result) }
        ensures within { IsPlaceIn (length self.now.heads) result }
    {
        match self.kept() {
            Some(kept) => {
                let heads = kept.bytes.as_slice();
                place_of(&kept.head, heads.len(), heads)
            }
            None => None,
        }
    }

    /// Whether the final head lets the connection serve another request (RFC 9112, section 9.3); `false` where there is none. A body
    /// that ends with the connection ends it all the same.
    pub fn keeps(&self) -> bool
        ensures { TellsKeeps self.now.wire result }
    {
        match self.kept() {
            Some(kept) => keeps(&kept.head),
            None => false,
        }
    }
}
