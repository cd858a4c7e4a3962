//! A link over a stream.
ghost use Rattle.std.specs.Prelude.{◌≡◌, ℕ, ◌<◌, ◌≤◌, ◌-◌, ◌^◌, List, [], ◌∷◌, ◌++◌, length, min, Result};
ghost use Rattle.mx_link.specs.Calls.{connect_answer, read_answer, write_answer, IsReadWithin, IsWriteWithin};
ghost use Rattle.mx_link.specs.Streams.{read_of, read_call, write_of, connect_of, front_of, is_wait, is_unconnected, IsCountWithin, IsSettled};
ghost use Rattle.mx_link.specs.declared.streams.Called.TheVariants as called;

use crate::answers::{Answers, Connect, Read, Write, bytes_of};
use crate::links::Link;
use mx_types::History;
use std::io::ErrorKind;
use std::marker::Model;

/// A stream's call and its result, as the list of its calls has it: with the bytes that were given or offered, which contracts alone read.
/// An error is given by its kind.
#[derive(Drop)]
pub enum Called {
    /// The error that the socket held, if it held one.
    Error(Result<Option<ErrorKind>, ErrorKind>),
    /// Whether it has a peer.
    Peer(Result<(), ErrorKind>),
    /// How many bytes were read, how many there was room for, and those that were read.
    Read(Result<usize, ErrorKind>, usize, History<u8>),
    /// How many bytes were written, and all that were to be.
    Write(Result<usize, ErrorKind>, History<u8>),
}

impl Called {
    /// A read with that result, and the buffer as it left it.
    pub fn to_read(count: Result<usize, ErrorKind>, buffer: &[u8]) -> Called
        requires { IsCountWithin count (length buffer.now) }
        ensures { result ≡ read_call count buffer.now }
    {
        let given = match count {
            Ok(n) => bytes_of(&buffer[..n]),
            Err(_) => History::new(),
        };
        Called::Read(count, buffer.len(), given)
    }

    /// A write with that result, and the bytes that were to be written.
    pub fn to_write(count: Result<usize, ErrorKind>, bytes: &[u8]) -> Called
        ensures { result ≡ called.Write count bytes.now }
    {
        Called::Write(count, bytes_of(bytes))
    }
}

/// What a link needs of a socket, whose calls don't wait. An error is given by its kind.
pub trait Stream: Drop {
    ghost use Rattle.mx_link.specs.declared.streams.Called.{Called};
    ghost use Rattle.mx_link.specs.declared.streams.Called.TheVariants as called;
    ghost use Rattle.mx_link.specs.Streams.{IsCountWithin, read_call};

    // Its calls so far and their results, in order.
    ghost results: { Self → List Called };

    /// The error that the socket holds, if it holds one, and then holds no more (SO_ERROR of socket(7)).
    fn take_error(&mut self) -> Result<Option<ErrorKind>, ErrorKind>
        ensures { results self.new ≡ results self.old ++ called.Error result ∷ [] };

    /// Whether it has a peer (getpeername(2)): `NotConnected` as long as it is connecting.
    fn find_peer(&mut self) -> Result<(), ErrorKind>
        ensures { results self.new ≡ results self.old ++ called.Peer result ∷ [] };

    /// Reads into the front of `buffer` (read(2)). After the bytes read the buffer may have changed.
    fn read(&mut self, buffer: &mut [u8]) -> Result<usize, ErrorKind>
        ensures told { results self.new ≡ results self.old ++ read_call result buffer.new ∷ [] }
        ensures within { IsCountWithin result (length buffer.new) }
        ensures length { length buffer.new ≡ length buffer.old };

    /// Writes what there is room for (write(2)).
    fn write(&mut self, bytes: &[u8]) -> Result<usize, ErrorKind>
        ensures told { results self.new ≡ results self.old ++ called.Write result bytes.now ∷ [] }
        ensures within { IsCountWithin result (length bytes.now) };
}

// It isn't answered as `WouldBlock`: readiness is reported on edges, so the transfer might wait for an event that never comes.
// rule link-interrupted
/// How often in a row a call that was interrupted is made again. What is interrupted once more has failed.
const MOST_AGAIN: u8 = 64;

fn is_wait(kind: ErrorKind) -> bool
    ensures { result ≡ is_wait kind }
{
    matches!(kind, ErrorKind::WouldBlock)
}

// rule link-interrupted
// Reads, and at most `more` times again as long as the read is interrupted.
fn read_until<S: Stream>(stream: &mut S, buffer: &mut [u8], more: u8) -> Result<usize, ErrorKind>
    ensures settled { IsSettled (λ c. read_call c buffer.new) more (S.results stream.old) (S.results stream.new) result }
    ensures within { IsCountWithin result (length buffer.new) }
    ensures length { length buffer.new ≡ length buffer.old }
{
    match stream.read(buffer) {
        Err(ErrorKind::Interrupted) if more > 0 => read_until(stream, buffer, more - 1),
        count => count,
    }
}

// rule link-interrupted
// Writes, and at most `more` times again as long as the write is interrupted.
fn write_until<S: Stream>(stream: &mut S, bytes: &[u8], more: u8) -> Result<usize, ErrorKind>
    ensures settled { IsSettled (λ c. called.Write c bytes.now) more (S.results stream.old) (S.results stream.new) result }
    ensures within { IsCountWithin result (length bytes.now) }
{
    match stream.write(bytes) {
        Err(ErrorKind::Interrupted) if more > 0 => write_until(stream, bytes, more - 1),
        count => count,
    }
}

fn read_of(count: Result<usize, ErrorKind>) -> Read
    ensures { result ≡ read_of count }
{
    match count {
        Ok(0) => Read::End,
        Ok(n) => Read::Bytes(n),
        Err(kind) if is_wait(kind) => Read::WouldBlock,
        Err(_) => Read::Fault,
    }
}

fn write_of(count: Result<usize, ErrorKind>) -> Write
    ensures { result ≡ write_of count }
{
    match count {
        Ok(0) => Write::Fault,
        Ok(n) => Write::Bytes(n),
        Err(kind) if is_wait(kind) => Write::WouldBlock,
        Err(_) => Write::Fault,
    }
}

// rule exchange-connect
fn connect_of(error: Result<Option<ErrorKind>, ErrorKind>, peer: Result<(), ErrorKind>) -> Connect
    ensures { result ≡ connect_of error peer }
{
    match (error, peer) {
        (Ok(None), Ok(())) => Connect::Done,
        // Also where its error was taken before: a transfer ends at its first fault, and doesn't ask again.
        (Ok(None), Err(ErrorKind::NotConnected)) => Connect::WouldBlock,
        (Ok(None), Err(_)) => Connect::Fault,
        (Ok(Some(_)), _) => Connect::Fault,
        (Err(_), _) => Connect::Fault,
    }
}

/// A link over a stream. Each of its answers is what the stream's result means; a read or a write that was interrupted
/// (EINTR) is made again at once, at most 64 times in a row.
pub struct StreamLink<S: Stream> {
    pub(crate) stream: S,
    pub(crate) token: u64,
    answers: Answers,
}

// Written out, and not derived: a crate that drops a link cites its proof.
impl<S: Stream> Drop for StreamLink<S> {
    fn drop(self) {
        let StreamLink {
            stream,
            token: _,
            answers,
        } = self;
        drop(stream);
        drop(answers);
    }
}

impl<S: Stream> Model for StreamLink<S> {
    ghost use Rattle.mx_link.specs.Streams.{StreamState};

    ghost Value = { StreamState S };

    ghost view = { λ l. record { stream = l.stream; token = l.token; history = l.answers.history; asked = l.answers.asked } };
}

impl<S: Stream> StreamLink<S> {
    /// A link over `stream`, whose readiness is reported under `token`. The stream may still be connecting.
    pub fn over(stream: S, token: u64) -> StreamLink<S>
        ensures { result ≡ record { stream = stream; token = token; history = []; asked = [] } }
    {
        StreamLink {
            stream,
            token,
            answers: Answers::new(),
        }
    }
}

impl<S: Stream> Link for StreamLink<S> {
    ghost use Rattle.mx_link.specs.Streams.{IsConnectedBy, IsReadBy, IsWrittenBy};

    ghost history = { λ link. link.history };

    ghost asked = { λ link. link.asked };

    ghost token_of = { λ link. link.token };

    fn try_connect(&mut self) -> Connect
        ensures called { IsConnectedBy (S.results self.old.stream) (S.results self.new.stream) result }
        ensures rest { self.new ≡ record self.old { stream = self.new.stream; history = self.old.history ++ connect_answer result ∷ []; asked = self.old.asked ++ 0 ∷ [] } }
    {
        let error = self.stream.take_error();
        let peer = self.stream.find_peer();
        let connect = connect_of(error, peer);
        self.answers.note_connect(connect);
        connect
    }

    // rule link-bytes
    fn try_read(&mut self, buffer: &mut [u8]) -> Read
        requires { 0 < length buffer.old }
        ensures called { IsReadBy (S.results self.old.stream) (S.results self.new.stream) buffer.new result }
        ensures rest { self.new ≡ record self.old { stream = self.new.stream; history = self.old.history ++ read_answer result buffer.new ∷ []; asked = self.old.asked ++ length buffer.new ∷ [] } }
        ensures within { IsReadWithin result (length buffer.new) }
        ensures length { length buffer.new ≡ length buffer.old }
    {
        let read = read_of(read_until(&mut self.stream, buffer, MOST_AGAIN));
        self.answers.note_read(read, buffer);
        read
    }

    // rule link-bytes
    fn try_write(&mut self, bytes: &[u8]) -> Write
        requires { 0 < length bytes.now }
        ensures called { IsWrittenBy (S.results self.old.stream) (S.results self.new.stream) bytes.now result }
        ensures rest { self.new ≡ record self.old { stream = self.new.stream; history = self.old.history ++ write_answer result bytes.now ∷ []; asked = self.old.asked ++ length bytes.now ∷ [] } }
        ensures within { IsWriteWithin result (length bytes.now) }
    {
        let write = write_of(write_until(&mut self.stream, bytes, MOST_AGAIN));
        self.answers.note_write(write, bytes);
        write
    }

    fn failures(&self) -> u64 {
        self.answers.failures()
    }

    fn token(&self) -> u64 {
        self.token
    }
}
