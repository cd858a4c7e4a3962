//! What the calls of a link answer.
ghost use Rattle.std.specs.Prelude.{◌≡◌, ◌≤◌, ◌-◌, ◌^◌, ℕ, List, [], ◌∷◌, ◌++◌, length, min};

use mx_types::History;
use std::marker::Model;

/// Whether a connection is made.
#[derive(Clone, Copy, PartialEq, Eq)]
pub enum Connect {
    /// It does.
    Done,
    /// It is being made.
    WouldBlock,
    /// It can't be made.
    Fault,
}

/// What a read gave.
#[derive(Clone, Copy, PartialEq, Eq)]
pub enum Read {
    /// So many bytes, at the front of the buffer: at least 1.
    Bytes(usize),
    /// Nothing is there yet.
    WouldBlock,
    /// The other side sends no more.
    End,
    /// The read failed.
    Fault,
}

/// What a write took.
#[derive(Clone, Copy, PartialEq, Eq)]
pub enum Write {
    /// So many bytes, from the front: at least 1.
    Bytes(usize),
    /// There is no room yet.
    WouldBlock,
    /// The write failed.
    Fault,
}

/// An answer of a link, as its history has it: with the bytes that were given or taken, which contracts alone read.
#[derive(Drop)]
pub enum Answer {
    Connected,
    ConnectBlocked,
    ConnectFailed,
    Gave(History<u8>),
    ReadBlocked,
    ReadEnded,
    ReadFailed,
    Took(History<u8>),
    WriteBlocked,
    WriteFailed,
}

impl Answer {
    ghost use Rattle.mx_link.specs.Calls.{connect_answer, read_answer, write_answer, IsReadWithin, IsWriteWithin};

    /// What `try_connect` answered.
    pub fn to_connect(connect: Connect) -> Answer
        ensures { result ≡ connect_answer connect }
    {
        match connect {
            Connect::Done => Answer::Connected,
            Connect::WouldBlock => Answer::ConnectBlocked,
            Connect::Fault => Answer::ConnectFailed,
        }
    }

    /// What `try_read` answered, and the buffer as it left it.
    pub fn to_read(read: Read, buffer: &[u8]) -> Answer
        requires { IsReadWithin read (length buffer.now) }
        ensures { result ≡ read_answer read buffer.now }
    {
        match read {
            Read::Bytes(n) => Answer::Gave(bytes_of(&buffer[..n])),
            Read::WouldBlock => Answer::ReadBlocked,
            Read::End => Answer::ReadEnded,
            Read::Fault => Answer::ReadFailed,
        }
    }

    /// What `try_write` answered, and the bytes that were to be written.
    pub fn to_write(write: Write, bytes: &[u8]) -> Answer
        requires { IsWriteWithin write (length bytes.now) }
        ensures { result ≡ write_answer write bytes.now }
    {
        match write {
            Write::Bytes(n) => Answer::Took(bytes_of(&bytes[..n])),
            Write::WouldBlock => Answer::WriteBlocked,
            Write::Fault => Answer::WriteFailed,
        }
    }
}

/// What is known of a link's calls so far: its answers, how much it was asked for at each, and how many of the answers were faults.
#[derive(Drop)]
pub(crate) struct Answers {
    history: History<Answer>,
    asked: History<usize>,
    failures: u64,
}

impl Model for Answers {
    ghost use Rattle.std.specs.Prelude.{◌≡◌, min, ◌-◌, ◌^◌};
    ghost use Rattle.mx_link.specs.Answers.{faults};
    ghost use Rattle.mx_link.specs.Calls.{Told};

    ghost Value = { Told };

    ghost view = { λ a. record { history = a.history; asked = a.asked } };

    ghost invariant = { λ a. a.failures ≡ min (faults a.history) (2 ^ 64 - 1) };
}

impl Answers {
    ghost use Rattle.mx_link.specs.Answers.{faults};
    ghost use Rattle.mx_link.specs.Calls.{connect_answer, read_answer, write_answer, IsReadWithin, IsWriteWithin, with_answer};

    pub fn new() -> Answers
        ensures { result ≡ record { history = []; asked = [] } }
    {
        Answers {
            history: History::new(),
            asked: History::new(),
            failures: 0,
        }
    }

    // rule link-failures
    pub fn note_connect(&mut self, connect: Connect)
        ensures { self.new ≡ with_answer self.old (connect_answer connect) 0 }
    {
        self.history.note(Answer::to_connect(connect));
        self.asked.note(0);
        if connect == Connect::Fault {
            self.failures = self.failures.saturating_add(1);
        }
    }

    // rule link-failures
    pub fn note_read(&mut self, read: Read, buffer: &[u8])
        requires { IsReadWithin read (length buffer.now) }
        ensures { self.new ≡ with_answer self.old (read_answer read buffer.now) (length buffer.now) }
    {
        self.history.note(Answer::to_read(read, buffer));
        self.asked.note(buffer.len());
        if read == Read::Fault {
            self.failures = self.failures.saturating_add(1);
        }
    }

    // rule link-failures
    pub fn note_write(&mut self, write: Write, bytes: &[u8])
        requires { IsWriteWithin write (length bytes.now) }
        ensures { self.new ≡ with_answer self.old (write_answer write bytes.now) (length bytes.now) }
    {
        self.history.note(Answer::to_write(write, bytes));
        self.asked.note(bytes.len());
        if write == Write::Fault {
            self.failures = self.failures.saturating_add(1);
        }
    }

    pub fn failures(&self) -> u64
        ensures { result ≡ min (faults self.now.history) (2 ^ 64 - 1) }
    {
        self.failures
    }
}

/// These bytes, for contracts alone.
pub fn bytes_of(bytes: &[u8]) -> History<u8>
    ensures { result ≡ bytes.now }
{
    let mut all = History::new();
    for byte in bytes {
        all.note(*byte);
    }
    all
}
