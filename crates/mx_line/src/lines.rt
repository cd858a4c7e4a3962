//! A link while it serves one exchange.
ghost use Rattle.std.specs.Prelude.{◌≡◌, ◌↔◌, IsTrue, true, false, ◌<◌, ◌≤◌, ℕ, List, [], ◌∷◌, ◌++◌, length, drop};
ghost use Rattle.mx_link.specs.Calls.{connect_answer, read_answer, write_answer, IsReadWithin, IsWriteWithin};
ghost use Rattle.mx_line.specs.Order.{is_connected, most_read};
ghost use Rattle.mx_line.specs.Calls.{taken_count};
ghost use Rattle.mx_line.specs.Lines.{IsLine, IsOpen, IsProbed, Grows, MayHandOut};

use mx_link::{Answer, Connect, Link, Read, Write};
use mx_request::Request;
use mx_types::History;
use std::marker::Model;
use std::snapshot::Snapshot;

/// A link that serves a request, as it was attached or probed, and its answers since then.
///
/// The link can be reached by the calls here alone, and what they leave is an invariant of the type. So wherever a line is dropped, its
/// link was asked in order, and for nothing but what its answers show.
pub struct Line<L: Link> {
    about: Snapshot<Request>,
    link: L,
    attached: Snapshot<L>,
    answers: History<Answer>,
    is_reused: bool,
    needs_probe: bool,
    is_stale: Snapshot<bool>,
    stands: bool,
    // How many bytes of the request it has taken.
    written: usize,
}

// Written out, and not derived: a crate that drops a line cites its proof.
impl<L: Link> Drop for Line<L> {
    fn drop(self) {
        let Line {
            about,
            link,
            attached,
            answers,
            is_reused: _,
            needs_probe: _,
            is_stale,
            stands: _,
            written: _,
        } = self;
        drop(about);
        drop(link);
        drop(attached);
        drop(answers);
        drop(is_stale);
    }
}

impl<L: Link> Model for Line<L> {
    ghost use Rattle.mx_line.specs.Lines.{LineState, IsLine};

    ghost Value = { LineState L };

    ghost view = { λ l. record {
      request = l.about.value;
      link = l.link;
      attached = l.attached.value;
      answers = l.answers;
      is_reused = l.is_reused;
      needs_probe = l.needs_probe;
      is_stale = l.is_stale.value;
      stands = l.stands;
      written = l.written;
    } };

    ghost invariant = { λ l. IsLine L.history L.asked L.token_of (record {
      request = l.about.value;
      link = l.link;
      attached = l.attached.value;
      answers = l.answers;
      is_reused = l.is_reused;
      needs_probe = l.needs_probe;
      is_stale = l.is_stale.value;
      stands = l.stands;
      written = l.written;
    }) };
}

// The connection is made.
fn is_done(connect: Connect) -> bool
    ensures { result ≡ is_connected (connect_answer connect) }
{
    matches!(connect, Connect::Done)
}

// How many bytes the write took.
fn taken_count(write: Write) -> usize
    ensures { result ≡ taken_count write }
{
    match write {
        Write::Bytes(n) => n,
        Write::WouldBlock => 0,
        Write::Fault => 0,
    }
}

impl<L: Link> Line<L> {
    /// A link that was in use before counts as connected, and is probed first.
    pub fn new(link: L, request: &Request, is_reused: bool) -> Line<L>
        ensures value { result ≡ record {
          request = request.now;
          link = link;
          attached = link;
          answers = [];
          is_reused = is_reused;
          needs_probe = is_reused;
          is_stale = false;
          stands = is_reused;
          written = 0;
        } }
        ensures line { IsLine L.history L.asked L.token_of result }
    {
        let attached = Snapshot::of(&link);
        Line {
            about: Snapshot::of(request),
            link,
            attached,
            answers: History::new(),
            is_reused,
            needs_probe: is_reused,
            is_stale: Snapshot::of(&false),
            stands: is_reused,
            written: 0,
        }
    }

    /// Whether it was in use before.
    pub fn is_reused(&self) -> bool
        ensures { result ≡ self.now.is_reused }
    {
        self.is_reused
    }

    /// Whether it is still to be probed.
    pub fn needs_probe(&self) -> bool
        ensures { result ≡ self.now.needs_probe }
    {
        self.needs_probe
    }

    // Whether the connection is made.
    pub(crate) fn stands(&self) -> bool
        ensures { result ≡ self.now.stands }
    {
        self.stands
    }

    // Whether it has taken the whole request.
    pub(crate) fn is_sent(&self, request: &Request) -> bool
        requires about { self.now.request ≡ request.now }
        requires serving { self.now.is_stale ≡ false }
        ensures sent { IsTrue result → self.now.written ≡ length request.now.bytes }
        ensures unsent { result ≡ false → self.now.written < length request.now.bytes }
    {
        self.written >= request.bytes().len()
    }

    /// The number under which its readiness is reported.
    pub fn token(&self) -> u64
        ensures { result ≡ L.token_of self.now.link }
    {
        self.link.token()
    }

    // rule exchange-probe
    /// Asks a link that nothing was asked of for a byte. True where it has none now: from then on it serves.
    pub fn probe(&mut self) -> bool
        requires needed { self.old.needs_probe ≡ true }
        requires serving { self.old.is_stale ≡ false }
        ensures probed { IsProbed L.history L.asked self.old self.new result }
        ensures line { IsLine L.history L.asked L.token_of self.new }
        ensures token { L.token_of self.new.link ≡ L.token_of self.old.link }
    {
        self.needs_probe = false;
        let mut byte = [0; 1];
        let read = self.link.try_read(&mut byte);
        if matches!(read, Read::WouldBlock) {
            self.attached = Snapshot::of(&self.link);
            return true;
        }
        self.answers.note(Answer::to_read(read, &byte));
        self.is_stale = Snapshot::of(&true);
        false
    }

    // Checks whether the connection is made.
    pub(crate) fn connect(&mut self) -> Connect
        requires open { IsOpen self.old }
        requires unmade { self.old.stands ≡ false }
        ensures grows { Grows self.old self.new (connect_answer result ∷ []) }
        ensures stands { self.new.stands ≡ is_connected (connect_answer result) }
        ensures line { IsLine L.history L.asked L.token_of self.new }
    {
        let connect = self.link.try_connect();
        self.answers.note(Answer::to_connect(connect));
        self.stands = is_done(connect);
        connect
    }

    // rule exchange-call-sizes
    // Offers all of the request that the link has not taken.
    pub(crate) fn write(&mut self, request: &Request) -> Write
        requires open { IsOpen self.old }
        requires about { self.old.request ≡ request.now }
        requires made { self.old.stands ≡ true }
        requires unsent { self.old.written < length request.now.bytes }
        ensures grows { Grows self.old self.new (write_answer result (drop self.old.written request.now.bytes) ∷ []) }
        ensures stands { self.new.stands ≡ self.old.stands }
        ensures line { IsLine L.history L.asked L.token_of self.new }
    {
        let rest = &request.bytes()[self.written..];
        let write = self.link.try_write(rest);
        self.answers.note(Answer::to_write(write, rest));
        self.written += taken_count(write);
        write
    }

    // rule exchange-call-sizes
    // Reads what is there, once the request was taken, into a buffer of 16,384 bytes.
    pub(crate) fn read(&mut self, buffer: &mut [u8]) -> Read
        requires open { IsOpen self.old }
        requires made { self.old.stands ≡ true }
        requires sent { self.old.written ≡ length self.old.request.bytes }
        requires room { length buffer.old ≡ most_read }
        ensures grows { Grows self.old self.new (read_answer result buffer.new ∷ []) }
        ensures stands { self.new.stands ≡ self.old.stands }
        ensures within { IsReadWithin result (length buffer.new) }
        ensures room { length buffer.new ≡ length buffer.old }
        ensures line { IsLine L.history L.asked L.token_of self.new }
    {
        let read = self.link.try_read(buffer);
        self.answers.note(Answer::to_read(read, buffer));
        read
    }

    /// Its answers, for contracts alone.
    pub fn answers(&self) -> Snapshot<History<Answer>>
        ensures { result.value ≡ self.now.answers }
    {
        Snapshot::of(&self.answers)
    }

    /// Hands the link out, where what it gave has a whole response.
    pub fn into_link(self) -> L
        requires { MayHandOut self }
        ensures { result ≡ self.link }
    {
        let Line {
            about,
            link,
            attached,
            answers,
            is_reused: _,
            needs_probe: _,
            is_stale,
            stands: _,
            written: _,
        } = self;
        drop(about);
        drop(attached);
        drop(answers);
        drop(is_stale);
        link
    }
}
