//! A body whose bytes come in pieces.

ghost use Rattle.std.specs.Prelude.{◌≡◌, ◌⊎◌, ◌≤◌, ◌++◌, List, ℕ, [], true, false, None, length, IsTrue, ◌↔◌, IfOk, IfSome, MatchOption, OnErr};
ghost use Rattle.mx_head.specs.declared.types.Framing.TheVariants.{Empty, Counted, Chunked, Close};
ghost use Rattle.mx_reason.specs.Faults.{chunk_fault};
ghost use Rattle.mx_flow.specs.Flows.{IsFlow, IsBodyOf, IsFed, HasState, content_of};
ghost use Rattle.mx_flow.specs.Steps as steps;
ghost use Rattle.mx_flow.specs.Whys.{EndsIn, HasDefect};
ghost use Rattle.mx_flow.specs.declared.flow.BodyState.TheVariants as state;

use crate::chunks::{Run, pass_on};
use crate::place::WidePlace;
use mx_head::Framing;
use mx_reason::{Cut, Defect, Fault};
use mx_types::{History, OutOfMemory};
use std::marker::Model;

/// The state of the bytes of a body.
#[derive(Clone, Copy, PartialEq, Eq)]
pub enum BodyState {
    /// Nothing is decided yet.
    More,
    /// They are a whole body.
    Whole,
    /// They begin no chunked body (RFC 9112, section 7.1).
    Bad,
    /// The content is over the limit.
    TooLarge,
}

/// A body whose bytes come in pieces. It keeps none of them: it hands the content on as that comes. Contracts see its framing, the limit of
/// its content, the bytes that came, and their state.
#[derive(Drop)]
pub struct Flow {
    framing: Framing,
    limit: u64,
    place: WidePlace,
    // The place before the last byte, where that byte is the one that is refused.
    before: WidePlace,
    // How many bytes of content may still come.
    left: u64,
    came: History<u8>,
    count: u64,
    state: BodyState,
}

impl Model for Flow {
    ghost use Rattle.std.specs.Prelude.{◌≡◌};
    ghost use Rattle.mx_flow.specs.Flows.{FlowValue, IsFlow};
    ghost use Rattle.mx_flow.specs.Steps.{IsAt, IsCounted, WasAt};
    ghost use Rattle.mx_flow.specs.declared.flow.BodyState.TheVariants.{More, Bad};

    ghost Value = { FlowValue };

    ghost view = { λ f. record { framing = f.framing; limit = f.limit; came = f.came; state = f.state } };

    ghost invariant = { λ f. IsFlow (record { framing = f.framing; limit = f.limit; came = f.came; state = f.state })
        × (f.state ≡ More → IsAt f.limit f.framing f.came f.place f.left)
        × (f.state ≡ Bad → WasAt f.limit f.came f.before) × IsCounted f.came f.count };
}

// The state that a place tells.
fn state_at(place: WidePlace) -> BodyState
    ensures { result ≡ steps.state_at place }
{
    match place {
        WidePlace::Done => BodyState::Whole,
        WidePlace::Bad => BodyState::Bad,
        WidePlace::TooLarge => BodyState::TooLarge,
        _ => BodyState::More,
    }
}

// The state after some bytes of chunks.
fn state_of_run(run: &Run) -> BodyState
    ensures over { run.now.over ≡ true → result ≡ state.TooLarge }
    ensures at { run.now.over ≡ false → result ≡ steps.state_at run.now.place }
{
    if run.over {
        BodyState::TooLarge
    } else {
        state_at(run.place)
    }
}

// rule body-stream-too-large
// The state of a body with that length before its first byte.
fn first_counted(n: u64, limit: u64) -> BodyState
    ensures { HasState limit (Counted n) [] result }
{
    if n > limit {
        BodyState::TooLarge
    } else if n == 0 {
        BodyState::Whole
    } else {
        BodyState::More
    }
}

// The state of a body before its first byte.
fn first_state(framing: Framing, limit: u64) -> BodyState
    ensures { HasState limit framing [] result }
{
    match framing {
        Framing::Empty => BodyState::Whole,
        Framing::Counted(n) => first_counted(n, limit),
        Framing::Chunked => BodyState::More,
        Framing::Close => BodyState::More,
    }
}

// How many bytes of content may come.
fn first_left(framing: Framing, limit: u64) -> u64
    ensures { result ≡ steps.first_left framing limit }
{
    match framing {
        Framing::Counted(n) => n,
        _ => limit,
    }
}

// Notes bytes, for contracts alone.
fn note_all(came: &mut History<u8>, bytes: &[u8])
    ensures { came.new ≡ came.old ++ bytes.now }
{
    for byte in bytes {
        came.note(*byte);
    }
}

// Counts bytes, where so many came before, and notes them for contracts.
fn count_all(came: &mut History<u8>, count: u64, bytes: &[u8]) -> u64
    ensures came { came.new ≡ came.old ++ bytes.now }
    ensures counted { steps.IsCounted came.old count → steps.IsCounted came.new result }
{
    note_all(came, bytes);
    count.saturating_add(bytes.len() as u64)
}

fn is_close(framing: Framing) -> bool
    ensures { IsTrue result ↔ (framing ≡ Close) }
{
    match framing {
        Framing::Close => true,
        Framing::Empty => false,
        Framing::Counted(_) => false,
        Framing::Chunked => false,
    }
}

// The part of a chunked body that a byte at this place belongs to.
fn fault_at(place: WidePlace) -> Fault
    ensures { result ≡ chunk_fault (steps.place_of place) }
{
    match place {
        WidePlace::Start | WidePlace::Size(_) | WidePlace::Extension(_) | WidePlace::SizeLf(_) =>
            Fault::SizeLine,
        WidePlace::Data(_) | WidePlace::DataCr | WidePlace::DataLf => Fault::ChunkEnd,
        _ => Fault::Trailer,
    }
}

// Where the bytes of a body end, of which so many came and more are to come.
fn cut_at(framing: Framing, came: usize) -> Option<Cut>
    ensures { MatchOption result (framing ≡ Empty) (EndsIn framing came) }
{
    match framing {
        Framing::Empty => None,
        Framing::Counted(of) => Some(Cut::Counted { came, of }),
        Framing::Chunked => Some(Cut::Chunked),
        Framing::Close => Some(Cut::Close),
    }
}

impl Flow {
    /// A body of that framing, of which no byte has come, with a limit of its content in bytes. A length over the limit is `TooLarge` at
    /// once.
    pub fn new(framing: Framing, limit: u64) -> Flow
        ensures begins { result ≡ record { framing = framing; limit = limit; came = []; state = result.state } }
        ensures known { IsFlow result }
    {
        Flow {
            framing,
            limit,
            place: WidePlace::Start,
            before: WidePlace::Start,
            left: first_left(framing, limit),
            came: History::new(),
            count: 0,
            state: first_state(framing, limit),
        }
    }

    /// The state of the bytes that came.
    pub fn state(&self) -> BodyState
        ensures state { result ≡ self.now.state }
        ensures known { IsFlow self.now }
    {
        self.state
    }

    // How many bytes came; `None` where there are more than are counted.
    pub(crate) fn count(&self) -> Option<u64>
        ensures some { IfSome result (λ n. n ≡ length self.now.came) }
        ensures none { result ≡ None → steps.most_counted ≤ length self.now.came }
    {
        if self.count == u64::MAX {
            return None;
        }
        Some(self.count)
    }

    // What is wrong with the last byte, or where the bytes end, of which so many came. There is neither where they are whole or too large.
    pub(crate) fn defect(&self, came: usize) -> Option<Defect>
        requires { came ≡ length self.now.came }
        ensures some { IfSome result (HasDefect self.now) }
        ensures none { result ≡ None → (self.now.state ≡ state.Whole) ⊎ (self.now.state ≡ state.TooLarge) }
    {
        match self.state {
            BodyState::More => match cut_at(self.framing, came) {
                Some(cut) => Some(Defect::Cut(cut)),
                None => unreachable!(),
            },
            BodyState::Bad => Some(Defect::Fault(fault_at(self.before))),
            BodyState::Whole => None,
            BodyState::TooLarge => None,
        }
    }

    // Takes bytes, up to the last of a body whose length is known.
    fn feed_counted(&mut self, piece: &[u8], out: &mut Vec<u8>) -> Result<usize, OutOfMemory>
        requires going { self.old.state ≡ state.More }
        requires framing { (n : ℕ) × (self.old.framing ≡ Counted n) }
        ensures fed { IfOk result (λ n. IsFed self.old self.new n piece.now out.old.items out.new.items) }
        ensures refused { OnErr result ((self.new ≡ self.old) × (out.new.items ≡ out.old.items)) }
    {
        let n = (piece.len() as u64).min(self.left) as usize;
        let taken = &piece[..n];
        out.extend_from_slice(taken)?;
        self.left -= n as u64;
        if self.left == 0 {
            self.state = BodyState::Whole;
        }
        self.count = count_all(&mut self.came, self.count, taken);
        Ok(n)
    }

    // Takes all bytes of a piece for which there is room.
    fn feed_all(&mut self, piece: &[u8], out: &mut Vec<u8>) -> Result<usize, OutOfMemory>
        requires going { self.old.state ≡ state.More }
        requires framing { self.old.framing ≡ Close }
        requires room { steps.HasRoom self.old piece.now }
        ensures fed { IfOk result (λ n. IsFed self.old self.new n piece.now out.old.items out.new.items) }
        ensures refused { OnErr result ((self.new ≡ self.old) × (out.new.items ≡ out.old.items)) }
    {
        out.extend_from_slice(piece)?;
        self.left -= piece.len() as u64;
        self.count = count_all(&mut self.came, self.count, piece);
        Ok(piece.len())
    }

    // rule body-stream-size
    // Takes bytes up to the first that is one too many.
    fn feed_over(&mut self, piece: &[u8], out: &mut Vec<u8>) -> Result<usize, OutOfMemory>
        requires going { self.old.state ≡ state.More }
        requires framing { self.old.framing ≡ Close }
        requires over { steps.HasTooMany self.old piece.now }
        ensures fed { IfOk result (λ n. IsFed self.old self.new n piece.now out.old.items out.new.items) }
        ensures refused { OnErr result ((self.new ≡ self.old) × (out.new.items ≡ out.old.items)) }
    {
        let n = self.left as usize;
        out.extend_from_slice(&piece[..n])?;
        self.state = BodyState::TooLarge;
        self.count = count_all(&mut self.came, self.count, &piece[..n + 1]);
        Ok(n + 1)
    }

    // Takes bytes of a body that ends with the connection.
    fn feed_close(&mut self, piece: &[u8], out: &mut Vec<u8>) -> Result<usize, OutOfMemory>
        requires going { self.old.state ≡ state.More }
        requires framing { self.old.framing ≡ Close }
        ensures fed { IfOk result (λ n. IsFed self.old self.new n piece.now out.old.items out.new.items) }
        ensures refused { OnErr result ((self.new ≡ self.old) × (out.new.items ≡ out.old.items)) }
    {
        if piece.len() as u64 <= self.left {
            self.feed_all(piece, out)
        } else {
            self.feed_over(piece, out)
        }
    }

    // Takes bytes of chunks, up to the one that decides.
    fn feed_chunks(&mut self, piece: &[u8], out: &mut Vec<u8>) -> Result<usize, OutOfMemory>
        requires going { self.old.state ≡ state.More }
        requires framing { self.old.framing ≡ Chunked }
        ensures fed { IfOk result (λ n. IsFed self.old self.new n piece.now out.old.items out.new.items) }
        ensures refused { OnErr result ((self.new ≡ self.old) × (out.new.items ≡ out.old.items)) }
    {
        let run = pass_on(self.limit, self.place, self.left, piece, out)?;
        self.place = run.place;
        self.before = run.before;
        self.left = run.room;
        self.state = state_of_run(&run);
        self.count = count_all(&mut self.came, self.count, &piece[..run.len]);
        Ok(run.len)
    }

    /// A guess, for speed alone, which no contract rests on: whether [`pass`](Flow::pass) is worth a try, since the length of the body is
    /// known, or it ends with the connection.
    pub fn is_plain(&self) -> bool {
        match self.framing {
            Framing::Empty => false,
            Framing::Counted(_) => self.state == BodyState::More,
            Framing::Chunked => false,
            Framing::Close => self.state == BodyState::More,
        }
    }

    // Takes bytes of a body whose length is known, if all of them are in it.
    fn pass_counted(&mut self, piece: &[u8]) -> bool
        requires going { self.old.state ≡ state.More }
        requires framing { (n : ℕ) × (self.old.framing ≡ Counted n) }
        ensures passed { IsTrue result → IsFed self.old self.new (length piece.now) piece.now [] piece.now }
        ensures same { result ≡ false → self.new ≡ self.old }
    {
        if piece.len() as u64 > self.left {
            return false;
        }
        self.left -= piece.len() as u64;
        if self.left == 0 {
            self.state = BodyState::Whole;
        }
        self.count = count_all(&mut self.came, self.count, piece);
        true
    }

    // Takes bytes of a body that ends with the connection, if there is room for all of them.
    fn pass_close(&mut self, piece: &[u8]) -> bool
        requires going { self.old.state ≡ state.More }
        requires framing { self.old.framing ≡ Close }
        ensures passed { IsTrue result → IsFed self.old self.new (length piece.now) piece.now [] piece.now }
        ensures same { result ≡ false → self.new ≡ self.old }
    {
        if piece.len() as u64 > self.left {
            return false;
        }
        self.left -= piece.len() as u64;
        self.count = count_all(&mut self.came, self.count, piece);
        true
    }

    // rule body-stream-in-pieces
    /// Takes the next bytes, all of which are content as they are then, or answers false and takes none; then [`feed`](Flow::feed) takes them.
    /// It may answer false of any bytes.
    pub fn pass(&mut self, piece: &[u8]) -> bool
        ensures passed { IsTrue result → IsFed self.old self.new (length piece.now) piece.now [] piece.now }
        ensures going { IsTrue result → self.old.state ≡ state.More }
        ensures same { result ≡ false → self.new ≡ self.old }
        ensures known { IsFlow self.new }
        ensures kept { self.new ≡ record self.old { came = self.new.came; state = self.new.state } }
    {
        let passed = match (self.state, self.framing) {
            (BodyState::More, Framing::Counted(_)) => self.pass_counted(piece),
            (BodyState::More, Framing::Close) => self.pass_close(piece),
            _ => false,
        };
        // proof: the state is that of the bytes
        let _state = self.state();
        passed
    }

    // rule body-stream-in-pieces
    /// Takes the next bytes, up to the last one of the body or the one that is refused, and adds the content among them to `out`. It
    /// answers how many it took: all, where more is to come.
    ///
    /// `OutOfMemory` leaves both as they were.
    pub fn feed(&mut self, piece: &[u8], out: &mut Vec<u8>) -> Result<usize, OutOfMemory>
        requires going { self.old.state ≡ state.More }
        ensures fed { IfOk result (λ n. IsFed self.old self.new n piece.now out.old.items out.new.items) }
        ensures refused { OnErr result ((self.new ≡ self.old) × (out.new.items ≡ out.old.items)) }
    {
        match self.framing {
            Framing::Empty => unreachable!(),
            Framing::Counted(_) => self.feed_counted(piece, out),
            Framing::Chunked => self.feed_chunks(piece, out),
            Framing::Close => self.feed_close(piece, out),
        }
    }

    /// Whether the bytes that came are a whole body, where the connection ends with them.
    #[tactic(auto, using(crate::proofs::LawProofs::whole_at_end, crate::proofs::LawProofs::open_at_end, crate::proofs::LawProofs::cut_at_end, crate::proofs::LawProofs::none_at_end))]
    pub fn is_whole_at_end(&self) -> bool
        ensures whole { IsTrue result → IsBodyOf self.now.limit self.now.framing true self.now.came (content_of self.now) }
        ensures cut { result ≡ false → (content : List ℕ) → ¬ (IsBodyOf self.now.limit self.now.framing true self.now.came content) }
    {
        match self.state {
            BodyState::Whole => true,
            BodyState::More => is_close(self.framing),
            BodyState::Bad => false,
            BodyState::TooLarge => false,
        }
    }
}
