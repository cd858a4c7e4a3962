//! The final head of a response, after its interim heads.

ghost use Rattle.std.specs.Prelude.{◌≡◌, ◌≤◌, ◌+◌, ◌++◌, ◌↔◌, IsTrue, IfOk, OnErr, [], length, take, slice_range};
ghost use Rattle.mx_head.specs.Reading.{IsStepOn};
ghost use Rattle.mx_body.specs.Decision.{HasHeads};
ghost use Rattle.mx_body.specs.Response.{IsInterimStatus};
ghost use Rattle.mx_body.specs.Steps.{IsBehind, HavePassed, IsNextOn, IsFinalStepOn};

use crate::limits::MOST_INTERIM;
use mx_head::{Head, HeadScan, HeadStep, read_head, read_head_on};
use mx_types::{Code, OutOfMemory};
use std::alloc::Global;
use std::marker::Model;

/// The status that would leave HTTP: no head with it is passed over (RFC 9110, section 15.2.2).
const SWITCHING_PROTOCOLS: u16 = 101;

/// The result of the heads at the front of the bytes.
#[derive(Clone, Copy)]
pub enum FinalStep {
    /// The final head, and where it ends in the bytes.
    Head { head: Head, end: usize },
    /// It has not come yet.
    More,
    /// It never will.
    Fault(Code),
}

/// The result of one head.
#[derive(Clone, Copy)]
enum Next {
    /// An interim head that is passed over, and where it ends.
    Passed(usize),
    Decided(FinalStep),
}

fn is_interim(status: u16) -> bool
    ensures { IsTrue result ↔ IsInterimStatus status }
{
    100 <= status && status < 200
}

// rule body-interim-heads
/// The result of the head at `start` by that answer, after as many interim heads as have passed.
fn next_by(text: &[u8], start: usize, passed: usize, step: HeadStep) -> Next
    requires behind { IsBehind text.now start passed }
    requires step { IsStepOn (slice_range text.now start (length text.now)) step }
    ensures { IsNextOn text.now passed result }
{
    match step {
        HeadStep::Fault(code) => Next::Decided(FinalStep::Fault(code)),
        HeadStep::More => Next::Decided(FinalStep::More),
        HeadStep::Head(head) => {
            let status = head.status();
            let end = start + head.len();
            if !is_interim(status) {
                return Next::Decided(FinalStep::Head { head, end });
            }
            if status == SWITCHING_PROTOCOLS || passed == MOST_INTERIM {
                return Next::Decided(FinalStep::Fault(Code::WeirdServerReply));
            }
            Next::Passed(end)
        }
    }
}

/// The result of the head at `start`, after as many interim heads as have passed.
fn next_head(text: &[u8], start: usize, passed: usize) -> Next
    requires { IsBehind text.now start passed }
    ensures { IsNextOn text.now passed result }
{
    next_by(text, start, passed, read_head(&text[start..]))
}

/// How many interim heads have passed, where the next head begins, and how far that has been scanned.
#[derive(Clone, Copy)]
pub(crate) struct Passed {
    pub(crate) start: usize,
    pub(crate) count: usize,
    pub(crate) scan: HeadScan,
}

impl Passed {
    /// Before the first head.
    pub(crate) fn new() -> Passed
        ensures { HavePassed [] result }
    {
        Passed {
            start: 0,
            count: 0,
            scan: HeadScan::new(),
        }
    }

    /// Goes on to the next head, which begins there.
    fn pass(&mut self, text: &[u8], end: usize)
        requires { IsBehind text.now end (self.old.count + 1) }
        ensures passed { HavePassed text.now self.new }
        ensures count { self.new.count ≡ self.old.count + 1 }
    {
        *self = Passed {
            start: end,
            count: self.count + 1,
            scan: HeadScan::new(),
        };
    }
}

/// The result of the next head, of which some bytes were scanned before.
fn next_head_on(text: &[u8], passed: &mut Passed) -> Next
    requires { HavePassed text.now passed.old }
    ensures next { IsNextOn text.now passed.new.count result }
    ensures passed { HavePassed text.now passed.new }
    ensures count { passed.new.count ≡ passed.old.count }
{
    let step = read_head_on(&text[passed.start..], &mut passed.scan);
    next_by(text, passed.start, passed.count, step)
}

/// The result of the heads after those that have passed. Complete interim heads pass.
pub(crate) fn final_head_from(text: &[u8], passed: &mut Passed) -> FinalStep
    requires { HavePassed text.now passed.old }
    ensures step { IsFinalStepOn text.now result }
    ensures passed { HavePassed text.now passed.new }
{
    loop {
        match next_head_on(text, passed) {
            Next::Passed(end) => passed.pass(text, end),
            Next::Decided(step) => return step,
        }
    }
}

/// The result of the heads at the front of the bytes.
pub(crate) fn final_head(text: &[u8]) -> FinalStep
    ensures { IsFinalStepOn text.now result }
{
    let mut start = 0;
    let mut passed = 0;
    loop {
        match next_head(text, start, passed) {
            Next::Passed(end) => {
                start = end;
                passed += 1;
            }
            Next::Decided(step) => return step,
        }
    }
}

/// How many bytes the heads at the front of the bytes have, the interim heads and the final head (RFC 9112, section 2.1); 0 where there is
/// no final head. It takes no memory.
pub fn heads_len(text: &[u8]) -> usize
    ensures heads { HasHeads text.now (take result text.now) }
    ensures within { result ≤ length text.now }
{
    match final_head(text) {
        FinalStep::Head { head: _, end } => end,
        _ => 0,
    }
}

/// The heads of a response, which are fed in pieces and owned. Contracts see the bytes.
#[derive(Drop)]
pub struct Heads {
    bytes: Vec<u8>,
    passed: Passed,
}

impl Model for Heads {
    ghost use Rattle.std.specs.Prelude.{ℕ, List};
    ghost use Rattle.mx_body.specs.Steps.{HavePassed};

    ghost Value = { List ℕ };

    ghost view = { λ h. h.bytes.items };

    ghost invariant = { λ h. HavePassed h.bytes.items h.passed };
}

impl Heads {
    /// No bytes yet. It takes no memory.
    pub fn new(alloc: Global) -> Heads
        ensures { result ≡ [] }
    {
        Heads {
            bytes: Vec::new(alloc),
            passed: Passed::new(),
        }
    }

    /// Takes the next bytes of the response: the result of all of them, however they were cut.
    ///
    /// `OutOfMemory` leaves the heads as they were.
    pub fn read(&mut self, piece: &[u8]) -> Result<FinalStep, OutOfMemory>
        ensures bytes { IfOk result (λ _. self.new ≡ self.old ++ piece.now) }
        ensures step { IfOk result (IsFinalStepOn self.new) }
        ensures refused { OnErr result (self.new ≡ self.old) }
    {
        self.bytes.extend_from_slice(piece)?;
        let step = final_head_from(self.bytes.as_slice(), &mut self.passed);
        Ok(step)
    }

    /// Forgets the bytes from `len` on.
    pub fn truncate(&mut self, len: usize)
        ensures { self.new ≡ take len self.old }
    {
        self.bytes.truncate(len);
        self.passed = Passed::new();
    }

    /// The bytes.
    pub fn as_slice(&self) -> &[u8]
        ensures { result.now ≡ self.now }
    {
        self.bytes.as_slice()
    }

    /// The bytes, by move.
    pub fn into_bytes(self) -> Vec<u8>
        ensures { result.items ≡ self }
    {
        self.bytes
    }
}
