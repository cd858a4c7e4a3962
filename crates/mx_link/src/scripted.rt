//! A link that answers from two lists.
ghost use Rattle.std.specs.Prelude.{◌≡◌, ℕ, ◌+◌, ◌<◌, ◌≤◌, ◌-◌, ◌^◌, List, [], ◌∷◌, ◌++◌, length, min, take, filter, option_map, IfOk};
ghost use Rattle.std.specs.List.{filter_map};
ghost use Rattle.mx_link.specs.Script.{planned, is_planned};
ghost use Rattle.mx_link.specs.Plan.{answer_of};

use crate::answers::{Answers, Connect, Read, Write};
use crate::links::Link;
use mx_types::OutOfMemory;
use std::alloc::{AllocError, Global};
use std::marker::Model;

/// An entry of a script: what a read is to answer.
#[derive(Clone, Copy)]
pub enum ScriptRead<'a> {
    /// These bytes. What a read's buffer can't hold comes with the next read. An entry of no bytes is skipped.
    Bytes(&'a [u8]),
    WouldBlock,
    End,
    Fault,
}

#[derive(Drop)]
enum Planned {
    Bytes(Vec<u8>),
    WouldBlock,
    End,
    Fault,
}

// What reads are to answer: the entries from `next` on, of which the first has given `given` of its bytes.
#[derive(Drop)]
struct ReadPlan {
    entries: Vec<Planned>,
    next: usize,
    given: usize,
}

impl Model for ReadPlan {
    ghost use Rattle.std.specs.Prelude.{List, drop};
    ghost use Rattle.mx_link.specs.declared.answers.Answer.{Answer as OneAnswer};
    ghost use Rattle.mx_link.specs.Plan.{left_of, AllGiveSome};

    ghost Value = { List OneAnswer };

    ghost view = { λ p. left_of (drop p.next p.entries.items) p.given };

    ghost invariant = { λ p. AllGiveSome (left_of (drop p.next p.entries.items) p.given) };
}

// Copies as much of `bytes` to the front of `buffer` as it can hold.
fn copy_front(bytes: &[u8], buffer: &mut [u8]) -> usize
    ensures count { result ≡ min (length bytes.now) (length buffer.old) }
    ensures copied { take result buffer.new ≡ take result bytes.now }
    ensures length { length buffer.new ≡ length buffer.old }
{
    let n = bytes.len().min(buffer.len());
    buffer[..n].copy_from_slice(&bytes[..n]);
    n
}

impl ReadPlan {
    ghost use Rattle.mx_link.specs.Script.{next_read};
    ghost use Rattle.mx_link.specs.Calls.{read_answer, IsReadWithin};

    fn answer(&mut self, buffer: &mut [u8]) -> Read
        requires { 0 < length buffer.old }
        ensures planned { next_read self.old (length buffer.old) ≡ (read_answer result buffer.new, self.new) }
        ensures within { IsReadWithin result (length buffer.new) }
        ensures length { length buffer.new ≡ length buffer.old }
    {
        if self.next >= self.entries.len() {
            return Read::End;
        }
        let read = match &self.entries[self.next] {
            Planned::Bytes(bytes) => {
                let left = &bytes[self.given..];
                let n = copy_front(left, buffer);
                if n < left.len() {
                    self.given += n;
                    return Read::Bytes(n);
                }
                Read::Bytes(n)
            }
            Planned::WouldBlock => Read::WouldBlock,
            Planned::End => Read::End,
            Planned::Fault => Read::Fault,
        };
        self.next += 1;
        self.given = 0;
        read
    }
}

// What writes are to answer: the entries from `next` on.
#[derive(Drop)]
struct WritePlan {
    entries: Vec<Write>,
    next: usize,
}

impl Model for WritePlan {
    ghost use Rattle.std.specs.Prelude.{◌≡◌, true, List, drop};
    ghost use Rattle.std.specs.List.{AllByRecursion};
    ghost use Rattle.mx_link.specs.declared.answers.Write.{Write as OneWrite};
    ghost use Rattle.mx_link.specs.Script.{is_planned};

    ghost Value = { List OneWrite };

    ghost view = { λ p. drop p.next p.entries.items };

    ghost invariant = { λ p. AllByRecursion (λ w. is_planned w ≡ true) (drop p.next p.entries.items) };
}

impl WritePlan {
    ghost use Rattle.mx_link.specs.Script.{next_write};
    ghost use Rattle.mx_link.specs.Calls.{write_answer, IsWriteWithin};

    fn answer(&mut self, bytes: &[u8]) -> Write
        requires { 0 < length bytes.now }
        ensures planned { next_write self.old bytes.now ≡ (write_answer result bytes.now, self.new) }
        ensures within { IsWriteWithin result (length bytes.now) }
    {
        if self.next >= self.entries.len() {
            return Write::Bytes(bytes.len());
        }
        let entry = self.entries[self.next];
        self.next += 1;
        match entry {
            Write::Bytes(n) => Write::Bytes(n.min(bytes.len())),
            Write::WouldBlock => Write::WouldBlock,
            Write::Fault => Write::Fault,
        }
    }
}

/// A link that answers from two lists, one for reads and one for writes. Contracts see what is left of them, and its
/// history.
///
/// After its list a read answers `End`, and a write takes everything. It is connected from the start, and its token is 0.
pub struct ScriptLink {
    reads: ReadPlan,
    writes: WritePlan,
    answers: Answers,
}

// Written out, and not derived: a crate that drops a link cites its proof.
impl Drop for ScriptLink {
    fn drop(self) {
        let ScriptLink {
            reads,
            writes,
            answers,
        } = self;
        drop(reads);
        drop(writes);
        drop(answers);
    }
}

impl Model for ScriptLink {
    ghost use Rattle.mx_link.specs.Script.{Script};

    ghost Value = { Script };

    ghost view = { λ l. record { reads = l.reads; writes = l.writes; history = l.answers.history; asked = l.answers.asked } };
}

// The entry that answers as this one plans, if it plans an answer.
fn entry_of(alloc: Global, read: &ScriptRead<'_>) -> Result<Option<Planned>, AllocError>
    ensures { IfOk result (λ entry. option_map answer_of entry ≡ planned read.now) }
{
    let entry = match read {
        ScriptRead::Bytes(bytes) => {
            if bytes.is_empty() {
                return Ok(None);
            }
            Planned::Bytes(Vec::from_slice(alloc, bytes)?)
        }
        ScriptRead::WouldBlock => Planned::WouldBlock,
        ScriptRead::End => Planned::End,
        ScriptRead::Fault => Planned::Fault,
    };
    Ok(Some(entry))
}

// Copies the entries that plan an answer.
fn plan_reads(alloc: Global, reads: &[ScriptRead<'_>]) -> Result<ReadPlan, OutOfMemory>
    ensures { IfOk result (λ plan. plan ≡ filter_map planned reads.now) }
{
    let mut entries = Vec::new(alloc);
    for read in reads {
        if let Some(entry) = entry_of(alloc, read)? {
            entries.push(entry)?;
        }
    }
    Ok(ReadPlan {
        entries,
        next: 0,
        given: 0,
    })
}

// Copies the entries that plan an answer.
fn plan_writes(alloc: Global, writes: &[Write]) -> Result<WritePlan, OutOfMemory>
    ensures { IfOk result (λ plan. plan ≡ filter is_planned writes.now) }
{
    let mut entries = Vec::new(alloc);
    for write in writes {
        if *write != Write::Bytes(0) {
            entries.push(*write)?;
        }
    }
    Ok(WritePlan { entries, next: 0 })
}

impl ScriptLink {
    ghost use Rattle.mx_link.specs.Script.{planned, is_planned};

    /// Copies both lists. `Bytes` of no bytes and `Bytes(0)` are skipped, as if they weren't there.
    ///
    /// Returns `OutOfMemory` where memory for a copy is refused.
    pub fn new(
        alloc: Global,
        reads: &[ScriptRead<'_>],
        writes: &[Write],
    ) -> Result<ScriptLink, OutOfMemory>
        ensures { IfOk result (λ link. link ≡ record {
          reads = filter_map planned reads.now;
          writes = filter is_planned writes.now;
          history = [];
          asked = [];
        }) }
    {
        Ok(ScriptLink {
            reads: plan_reads(alloc, reads)?,
            writes: plan_writes(alloc, writes)?,
            answers: Answers::new(),
        })
    }
}

impl Link for ScriptLink {
    ghost use Rattle.mx_link.specs.Answers.{faults};
    ghost use Rattle.mx_link.specs.Calls.{connect_answer, read_answer, write_answer, IsReadWithin, IsWriteWithin};
    ghost use Rattle.mx_link.specs.Script.{next_read, next_write};

    ghost history = { λ link. link.history };

    ghost asked = { λ link. link.asked };

    ghost token_of = { λ _. 0 };

    fn try_connect(&mut self) -> Connect
        ensures done { result ≡ Connect.Done }
        ensures rest { self.new ≡ record self.old { history = self.old.history ++ connect_answer result ∷ []; asked = self.old.asked ++ 0 ∷ [] } }
    {
        self.answers.note_connect(Connect::Done);
        Connect::Done
    }

    fn try_read(&mut self, buffer: &mut [u8]) -> Read
        requires { 0 < length buffer.old }
        ensures planned { next_read self.old.reads (length buffer.old) ≡ (read_answer result buffer.new, self.new.reads) }
        ensures rest { self.new ≡ record self.old { reads = self.new.reads; history = self.old.history ++ read_answer result buffer.new ∷ []; asked = self.old.asked ++ length buffer.new ∷ [] } }
        ensures within { IsReadWithin result (length buffer.new) }
        ensures length { length buffer.new ≡ length buffer.old }
    {
        let read = self.reads.answer(buffer);
        self.answers.note_read(read, buffer);
        read
    }

    fn try_write(&mut self, bytes: &[u8]) -> Write
        requires { 0 < length bytes.now }
        ensures planned { next_write self.old.writes bytes.now ≡ (write_answer result bytes.now, self.new.writes) }
        ensures rest { self.new ≡ record self.old { writes = self.new.writes; history = self.old.history ++ write_answer result bytes.now ∷ []; asked = self.old.asked ++ length bytes.now ∷ [] } }
        ensures within { IsWriteWithin result (length bytes.now) }
    {
        let write = self.writes.answer(bytes);
        self.answers.note_write(write, bytes);
        write
    }

    fn failures(&self) -> u64 {
        self.answers.failures()
    }

    fn token(&self) -> u64 {
        0
    }
}
