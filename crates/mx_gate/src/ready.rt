//! A link that makes no further call before something new was reported of it.
ghost use Rattle.std.specs.Prelude.{◌≡◌, ◌<◌, ◌≤◌, ◌-◌, ◌^◌, true, false, not, ◌||◌, ◌&&◌, nat_lt, IsTrue, [], ◌∷◌, ◌++◌, length, min};
ghost use Rattle.mx_gate.specs.Ready.{is_short};
ghost use Rattle.mx_link.specs.Calls.{connect_answer, read_answer, write_answer, IsReadWithin, IsWriteWithin};

use crate::signals::Signals;
use mx_link::{Answer, Connect, Link, Read, Write};
use mx_types::History;
use std::marker::Model;
use std::sync::Arc;

/// A link whose readiness is reported to a gate. Where it answered that a call would have waited, the same call isn't made again before
/// something new is reported: it answers so at once. Nor is a read of more than one byte made after one that gave fewer bytes than it was
/// asked for, and so left none (epoll(7)), unless it was reported that the other side sends no more.
///
/// No clause says that the link is asked again once the gate has reported something new of it, or that a link whose end was reported is
/// read until it gives that end.
pub struct ReadyLink<L: Link> {
    link: L,
    signals: Arc<Signals>,
    // How much was reported when it was last asked.
    reads_told: u64,
    writes_told: u64,
    waits_to_connect: bool,
    waits_to_read: bool,
    waits_to_write: bool,
    // Whether its last read left nothing, and no end was reported.
    is_drained: bool,
    // How many ends had been reported when it was made.
    ends_before: u64,
    history: History<Answer>,
    asked: History<usize>,
}

// Written out, and not derived: a crate that drops a link cites its proof.
impl<L: Link> Drop for ReadyLink<L> {
    fn drop(self) {
        let ReadyLink {
            link,
            signals,
            reads_told: _,
            writes_told: _,
            waits_to_connect: _,
            waits_to_read: _,
            waits_to_write: _,
            is_drained: _,
            ends_before: _,
            history,
            asked,
        } = self;
        drop(link);
        drop(signals);
        drop(history);
        drop(asked);
    }
}

impl<L: Link> Model for ReadyLink<L> {
    ghost use Rattle.std.specs.Prelude.{◌≡◌, true, false, length};
    ghost use Rattle.mx_link.specs.Answers.{is_connect, faults, is_read, is_write};
    ghost use Rattle.mx_gate.specs.Ready.{ReadyState, telling, waits, drained};

    ghost Value = { ReadyState L };

    ghost view = { λ l. record {
      link = l.link;
      history = l.history;
      asked = l.asked;
      waits_to_connect = l.waits_to_connect;
      waits_to_read = l.waits_to_read;
      waits_to_write = l.waits_to_write;
      is_drained = l.is_drained;
    } };

    ghost invariant = { λ l. record {
      same : telling l.history ≡ telling (L.history l.link);
      faults : faults l.history ≡ faults (L.history l.link);
      connects : l.waits_to_connect ≡ true → waits is_connect false (L.history l.link) ≡ true;
      reads : l.waits_to_read ≡ true → waits is_read false (L.history l.link) ≡ true;
      writes : l.waits_to_write ≡ true → waits is_write false (L.history l.link) ≡ true;
      calls : length (L.history l.link) ≡ length (L.asked l.link);
      drains : l.is_drained ≡ true → drained false (L.history l.link) (L.asked l.link) ≡ true;
    } };
}

// Urgent data of TCP, which no HTTP peer sends, end a read early, too: the bytes after them wait until more is reported.
// rule gate-short-read
// Whether this read has left nothing that was reported already. The end may have been reported with the last bytes, and isn't reported
// again: such a link is asked until it gives the end.
fn has_drained(read: Read, buffer: &[u8], is_ended: bool) -> bool
    requires { IsReadWithin read (length buffer.now) }
    ensures { IsTrue result → is_short (read_answer read buffer.now) (length buffer.now) ≡ true }
{
    let Read::Bytes(n) = read else {
        return false;
    };
    n < buffer.len() && !is_ended
}

impl<L: Link> ReadyLink<L> {
    /// A link that was asked nothing yet, and whose readiness these signals report. What they reported before isn't about it.
    pub fn over(link: L, signals: Arc<Signals>) -> ReadyLink<L>
        requires history { L.history link ≡ [] }
        requires asked { L.asked link ≡ [] }
        ensures { result ≡ record {
          link = link;
          history = [];
          asked = [];
          waits_to_connect = false;
          waits_to_read = false;
          waits_to_write = false;
          is_drained = false;
        } }
    {
        let ends_before = signals.ends_told(link.token());
        ReadyLink {
            link,
            signals,
            reads_told: 0,
            writes_told: 0,
            waits_to_connect: false,
            waits_to_read: false,
            waits_to_write: false,
            is_drained: false,
            ends_before,
            history: History::new(),
            asked: History::new(),
        }
    }

    // Allows the next read, where something new was reported.
    fn hear_reads(&mut self)
        ensures link { self.new.link ≡ self.old.link }
        ensures history { self.new.history ≡ self.old.history }
        ensures asked { self.new.asked ≡ self.old.asked }
    {
        let told = self.signals.reads_told(self.link.token());
        if told != self.reads_told {
            self.reads_told = told;
            self.waits_to_read = false;
            self.is_drained = false;
        }
    }

    // Allows the next write and the next check of the connection, where something new was reported.
    fn hear_writes(&mut self)
        ensures link { self.new.link ≡ self.old.link }
        ensures history { self.new.history ≡ self.old.history }
        ensures asked { self.new.asked ≡ self.old.asked }
    {
        let told = self.signals.writes_told(self.link.token());
        if told != self.writes_told {
            self.writes_told = told;
            self.waits_to_connect = false;
            self.waits_to_write = false;
        }
    }

    // rule gate-waiting-link
    // Whether a read of so many bytes is made. After a short read, a read of one byte is always made: it probes a link that was idle.
    fn is_to_read(&self, len: usize) -> bool
        ensures { result ≡ not (self.now.waits_to_read || (self.now.is_drained && nat_lt 1 len)) }
    {
        !self.waits_to_read && !(self.is_drained && len > 1)
    }
}

impl<L: Link> Link for ReadyLink<L> {
    ghost use Rattle.mx_link.specs.Answers.{is_connect, is_read, is_write};
    ghost use Rattle.mx_gate.specs.Ready.{IsAnswered, IsReadAnswered};

    ghost history = { λ link. link.history };

    ghost asked = { λ link. link.asked };

    ghost token_of = { λ link. L.token_of link.link };

    // rule gate-waiting-link
    #[tactic(auto, using(crate::proofs::ReadyLemmas::telling_both, crate::proofs::ReadyLemmas::telling_one, crate::proofs::ReadyLemmas::faults_both, crate::proofs::ReadyLemmas::faults_one, crate::proofs::ReadyLemmas::waits_last, crate::proofs::ReadyLemmas::calls_more, crate::proofs::ReadyLemmas::drained_past_connect))]
    fn try_connect(&mut self) -> Connect
        ensures answered { IsAnswered is_connect (L.history self.old.link) (L.history self.new.link) (connect_answer result) }
        ensures told { self.new.history ≡ self.old.history ++ connect_answer result ∷ [] }
        ensures asked { self.new.asked ≡ self.old.asked ++ 0 ∷ [] }
        ensures token { L.token_of self.new.link ≡ L.token_of self.old.link }
    {
        self.hear_writes();
        if self.waits_to_connect {
            self.history.note(Answer::to_connect(Connect::WouldBlock));
            self.asked.note(0);
            return Connect::WouldBlock;
        }
        let connect = self.link.try_connect();
        self.waits_to_connect = connect == Connect::WouldBlock;
        self.history.note(Answer::to_connect(connect));
        self.asked.note(0);
        connect
    }

    // rule gate-short-read
    #[tactic(auto, using(crate::proofs::ReadyLemmas::telling_both, crate::proofs::ReadyLemmas::telling_one, crate::proofs::ReadyLemmas::faults_both, crate::proofs::ReadyLemmas::faults_one, crate::proofs::ReadyLemmas::waits_last, crate::proofs::ReadyLemmas::calls_more, crate::proofs::ReadyLemmas::drained_by_read))]
    fn try_read(&mut self, buffer: &mut [u8]) -> Read
        requires { 0 < length buffer.old }
        ensures answered { IsReadAnswered (L.history self.old.link) (L.asked self.old.link) (L.history self.new.link) (read_answer result buffer.new) (length buffer.new) }
        ensures told { self.new.history ≡ self.old.history ++ read_answer result buffer.new ∷ [] }
        ensures asked { self.new.asked ≡ self.old.asked ++ length buffer.new ∷ [] }
        ensures within { IsReadWithin result (length buffer.new) }
        ensures length { length buffer.new ≡ length buffer.old }
        ensures token { L.token_of self.new.link ≡ L.token_of self.old.link }
    {
        // Before the call, so that what is reported meanwhile isn't lost.
        self.hear_reads();
        if !self.is_to_read(buffer.len()) {
            self.history.note(Answer::to_read(Read::WouldBlock, buffer));
            self.asked.note(buffer.len());
            return Read::WouldBlock;
        }
        let read = self.link.try_read(buffer);
        self.waits_to_read = read == Read::WouldBlock;
        // Checked after the read, so that an end that is reported meanwhile counts.
        let is_ended = self.signals.ends_told(self.link.token()) != self.ends_before;
        self.is_drained = has_drained(read, buffer, is_ended);
        self.history.note(Answer::to_read(read, buffer));
        self.asked.note(buffer.len());
        read
    }

    // rule gate-waiting-link
    #[tactic(auto, using(crate::proofs::ReadyLemmas::telling_both, crate::proofs::ReadyLemmas::telling_one, crate::proofs::ReadyLemmas::faults_both, crate::proofs::ReadyLemmas::faults_one, crate::proofs::ReadyLemmas::waits_last, crate::proofs::ReadyLemmas::calls_more, crate::proofs::ReadyLemmas::drained_past_write))]
    fn try_write(&mut self, bytes: &[u8]) -> Write
        requires { 0 < length bytes.now }
        ensures answered { IsAnswered is_write (L.history self.old.link) (L.history self.new.link) (write_answer result bytes.now) }
        ensures told { self.new.history ≡ self.old.history ++ write_answer result bytes.now ∷ [] }
        ensures asked { self.new.asked ≡ self.old.asked ++ length bytes.now ∷ [] }
        ensures within { IsWriteWithin result (length bytes.now) }
        ensures token { L.token_of self.new.link ≡ L.token_of self.old.link }
    {
        self.hear_writes();
        if self.waits_to_write {
            self.history
                .note(Answer::to_write(Write::WouldBlock, bytes));
            self.asked.note(bytes.len());
            return Write::WouldBlock;
        }
        let write = self.link.try_write(bytes);
        self.waits_to_write = write == Write::WouldBlock;
        self.history.note(Answer::to_write(write, bytes));
        self.asked.note(bytes.len());
        write
    }

    fn failures(&self) -> u64 {
        self.link.failures()
    }

    fn token(&self) -> u64 {
        self.link.token()
    }
}
