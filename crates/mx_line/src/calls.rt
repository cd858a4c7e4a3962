//! One turn over a link.
ghost use Rattle.std.specs.Prelude.{◌≡◌, ◌↔◌, ◌∷◌, ◌+◌, IfOk, IfSome, IsTrue, None, OnErr, true, false, ◌<◌, ◌≤◌, [], length};
ghost use Rattle.mx_types.specs.Method.{is_repeatable};
ghost use Rattle.mx_line.specs.Order.{most_read};
ghost use Rattle.mx_line.specs.Calls.{IsPassed, StepsAt, StepsTo};
ghost use Rattle.mx_line.specs.Lines.{Grows, IsLine, IsOpen, IsGoing, ReadsOn, ServesTo};
ghost use Rattle.mx_link.specs.Calls.{read_answer, IsReadWithin};
ghost use Rattle.mx_body.specs.declared.decoder.Stand.TheVariants as stand;
ghost use Rattle.mx_reader.specs.Readers.{IsFedBy, HandsOn, IsReader};

use crate::buffers::{READ_BYTES, ReadBuffer};
use crate::lines::Line;
use mx_body::Stand;
use mx_link::{Connect, Link, Read, Write};
use mx_reader::Reader;
use mx_request::Request;
use mx_sink::Window;
use mx_types::{Code, Method, OutOfMemory};

// rule exchange-turn-limits
/// The most writes in one turn.
const MOST_WRITES: usize = 64;

/// The most calls in one turn: 63 writes and at most 63 reads, one to connect, and the one that ends it.
const MOST_CALLS: usize = 128;

/// The result of one call on a link.
#[derive(Clone, Copy)]
pub(crate) enum Step {
    Connected,
    Wrote,
    Heard,
    Blocked,
    // The request is to be tried again over a fresh link.
    Lost,
    Over(Code),
}

/// The result of the calls of one turn.
#[derive(Clone, Copy)]
pub enum Halt {
    /// The link would wait.
    Blocked,
    /// As many calls were made as one turn may make.
    Unfinished,
    /// The request is to be tried again over a fresh link.
    Lost,
    /// It has ended with this code.
    Over(Code),
}

// rule exchange-retry
/// Whether a request of that method is sent again where a reused link is lost before it gave a byte.
fn may_retry(method: Method, is_reused: bool, reader: &Reader) -> bool
    ensures { IsTrue result ↔ ((is_reused ≡ true) × (is_repeatable method ≡ true) × (reader.now.wire ≡ [])) }
{
    if !is_reused || !reader.is_unfed() {
        return false;
    }
    method.is_repeatable()
}

// Feeds a piece, whose content goes behind that of the window.
fn feed(reader: &mut Reader, piece: &[u8], out: &mut Window) -> Result<Stand, OutOfMemory>
    requires { reader.old.judgement.stand ≡ stand.More }
    ensures fed { IfOk result (λ _. IsFedBy reader.old reader.new piece.now) }
    ensures handed { IfOk result (λ _. HandsOn reader.old reader.new out.old.items out.new.items) }
    ensures stand { IfOk result (λ s. s ≡ reader.new.judgement.stand) }
    ensures exact { IsReader reader.new }
    ensures refused { OnErr result ((reader.new ≡ reader.old) × (out.new.items ≡ out.old.items)) }
{
    let (mut bytes, len) = out.take_out();
    bytes.truncate(len);
    let fed = reader.feed(piece, &mut bytes);
    let len = bytes.len();
    out.put_back(bytes, len);
    fed
}

// What a reader leads to that was fed bytes.
fn step_at(reader: &Reader) -> Step
    ensures { StepsAt reader.now.judgement.stand result }
{
    match reader.stand() {
        Stand::More => Step::Heard,
        Stand::Complete => Step::Over(Code::Ok),
        Stand::Fault(code) => Step::Over(code),
    }
}

impl<L: Link> Line<L> {
    // rule exchange-connect
    /// Checks whether the connection is made.
    fn connect_step(&mut self, reader: &Reader) -> Step
        requires open { IsOpen self.old }
        requires going { IsGoing self.old.request.method self.old.answers reader.now }
        requires unmade { self.old.stands ≡ false }
        ensures line { IsLine L.history L.asked L.token_of self.new }
        ensures turn { StepsTo self.old self.new result reader.now }
    {
        match self.connect() {
            Connect::Done => Step::Connected,
            Connect::WouldBlock => Step::Blocked,
            Connect::Fault => Step::Over(Code::CouldntConnect),
        }
    }

    /// Writes what the link has not taken.
    fn write_step(&mut self, request: &Request, reader: &Reader) -> Step
        requires open { IsOpen self.old }
        requires going { IsGoing self.old.request.method self.old.answers reader.now }
        requires about { self.old.request ≡ request.now }
        requires made { self.old.stands ≡ true }
        requires unsent { self.old.written < length request.now.bytes }
        ensures line { IsLine L.history L.asked L.token_of self.new }
        ensures turn { StepsTo self.old self.new result reader.now }
    {
        match self.write(request) {
            Write::Bytes(_) => Step::Wrote,
            Write::WouldBlock => Step::Blocked,
            Write::Fault => {
                if may_retry(request.method(), self.is_reused(), reader) {
                    return Step::Lost;
                }
                Step::Over(Code::SendError)
            }
        }
    }

    // Reads to behind the content of the window, for which there is room. `None` where the reader took what came as content, which is in the
    // window then. Else what came is in the buffer.
    fn read_behind(
        &mut self,
        reader: &mut Reader,
        buffer: &mut [u8],
        out: &mut Window,
    ) -> Option<Read>
        requires open { IsOpen self.old }
        requires made { self.old.stands ≡ true }
        requires sent { self.old.written ≡ length self.old.request.bytes }
        requires room { length buffer.old ≡ most_read }
        requires memory { length out.old.items + most_read ≤ out.old.memory }
        ensures room { length buffer.new ≡ length buffer.old }
        ensures stands { self.new.stands ≡ self.old.stands }
        ensures line { IsLine L.history L.asked L.token_of self.new }
        ensures passed { result ≡ None → IsPassed self.old self.new reader.old reader.new out.old.items out.new.items }
        ensures grows { IfSome result (λ read. Grows self.old self.new (read_answer read buffer.new ∷ [])) }
        ensures within { IfSome result (λ read. IsReadWithin read (length buffer.new)) }
        ensures same { IfSome result (λ _. (reader.new ≡ reader.old) × (out.new.items ≡ out.old.items)) }
    {
        let (mut bytes, len) = out.take_out();
        let read = self.read(&mut bytes[len..len + READ_BYTES]);
        let Read::Bytes(n) = read else {
            out.put_back(bytes, len);
            return Some(read);
        };
        if reader.pass(&bytes[len..len + n]) {
            out.put_back(bytes, len + n);
            return None;
        }
        buffer[..n].copy_from_slice(&bytes[len..len + n]);
        out.put_back(bytes, len);
        Some(read)
    }

    // Reads. `None` where the reader took what came as content, which is in the window then. Else what came is in the buffer.
    fn read_on(&mut self, reader: &mut Reader, buffer: &mut [u8], out: &mut Window) -> Option<Read>
        requires open { IsOpen self.old }
        requires made { self.old.stands ≡ true }
        requires sent { self.old.written ≡ length self.old.request.bytes }
        requires room { length buffer.old ≡ most_read }
        ensures room { length buffer.new ≡ length buffer.old }
        ensures stands { self.new.stands ≡ self.old.stands }
        ensures line { IsLine L.history L.asked L.token_of self.new }
        ensures passed { result ≡ None → IsPassed self.old self.new reader.old reader.new out.old.items out.new.items }
        ensures grows { IfSome result (λ read. Grows self.old self.new (read_answer read buffer.new ∷ [])) }
        ensures within { IfSome result (λ read. IsReadWithin read (length buffer.new)) }
        ensures same { IfSome result (λ _. (reader.new ≡ reader.old) × (out.new.items ≡ out.old.items)) }
    {
        if reader.is_plain() && out.reserve(READ_BYTES) {
            return self.read_behind(reader, buffer, out);
        }
        Some(self.read(buffer))
    }

    /// Reads, and feeds what came.
    fn read_step(
        &mut self,
        request: &Request,
        reader: &mut Reader,
        buffer: &mut [u8],
        out: &mut Window,
    ) -> Step
        requires open { IsOpen self.old }
        requires going { IsGoing self.old.request.method self.old.answers reader.old }
        requires about { self.old.request ≡ request.now }
        requires made { self.old.stands ≡ true }
        requires sent { self.old.written ≡ length request.now.bytes }
        requires room { length buffer.old ≡ most_read }
        ensures room { length buffer.new ≡ length buffer.old }
        ensures line { IsLine L.history L.asked L.token_of self.new }
        ensures turn { StepsTo self.old self.new result reader.new }
        ensures handed { ReadsOn reader.old reader.new out.old.items out.new.items }
    {
        match self.read_on(reader, buffer, out) {
            None => step_at(reader),
            Some(Read::Bytes(n)) => match feed(reader, &buffer[..n], out) {
                Ok(Stand::More) => Step::Heard,
                Ok(Stand::Complete) => Step::Over(Code::Ok),
                Ok(Stand::Fault(code)) => Step::Over(code),
                Err(_) => Step::Over(Code::OutOfMemory),
            },
            Some(Read::WouldBlock) => Step::Blocked,
            Some(Read::End) => {
                // Before the reader learns of the end, so that being out of memory can't take the place of a retry.
                if may_retry(request.method(), self.is_reused(), reader) {
                    return Step::Lost;
                }
                match reader.end() {
                    Ok(Stand::More) => unreachable!(),
                    Ok(Stand::Complete) => Step::Over(Code::Ok),
                    Ok(Stand::Fault(code)) => Step::Over(code),
                    Err(_) => Step::Over(Code::OutOfMemory),
                }
            }
            Some(Read::Fault) => {
                if may_retry(request.method(), self.is_reused(), reader) {
                    return Step::Lost;
                }
                Step::Over(Code::RecvError)
            }
        }
    }

    /// The one call that comes next.
    fn ask_next(
        &mut self,
        request: &Request,
        reader: &mut Reader,
        buffer: &mut [u8],
        out: &mut Window,
    ) -> Step
        requires open { IsOpen self.old }
        requires going { IsGoing self.old.request.method self.old.answers reader.old }
        requires about { self.old.request ≡ request.now }
        requires room { length buffer.old ≡ most_read }
        ensures room { length buffer.new ≡ length buffer.old }
        ensures line { IsLine L.history L.asked L.token_of self.new }
        ensures turn { StepsTo self.old self.new result reader.new }
        ensures handed { ReadsOn reader.old reader.new out.old.items out.new.items }
    {
        if !self.stands() {
            return self.connect_step(reader);
        }
        if !self.is_sent(request) {
            return self.write_step(request, reader);
        }
        self.read_step(request, reader, buffer, out)
    }

    // rule exchange-turn-limits
    /// One turn: it connects, writes the request and reads the response into this buffer, as far as the link goes, with at most so many reads.
    /// Content that is handed on goes to `out`.
    fn serve_into(
        &mut self,
        request: &Request,
        reader: &mut Reader,
        most_reads: usize,
        buffer: &mut [u8],
        out: &mut Window,
    ) -> Halt
        requires open { IsOpen self.old }
        requires going { IsGoing self.old.request.method self.old.answers reader.old }
        requires about { self.old.request ≡ request.now }
        requires some { 0 < most_reads }
        requires few { most_reads ≤ 64 }
        requires room { length buffer.old ≡ most_read }
        ensures line { IsLine L.history L.asked L.token_of self.new }
        ensures turn { ServesTo most_reads self.old self.new result reader.new }
        ensures handed { ReadsOn reader.old reader.new out.old.items out.new.items }
    {
        let mut reads = 0;
        let mut writes = 0;
        for turn in 0..MOST_CALLS {
            match self.ask_next(request, reader, buffer, out) {
                Step::Connected => {}
                Step::Wrote => {
                    writes += 1;
                    if writes == MOST_WRITES {
                        return Halt::Unfinished;
                    }
                }
                Step::Heard => {
                    reads += 1;
                    if reads == most_reads {
                        return Halt::Unfinished;
                    }
                }
                Step::Blocked => return Halt::Blocked,
                Step::Lost => return Halt::Lost,
                Step::Over(code) => return Halt::Over(code),
            }
        }
        unreachable!()
    }

    // The same, with a buffer of this turn. It is apart, since a function clears its buffers at its entry, and most turns need none.
    fn serve_bufferless(
        &mut self,
        request: &Request,
        reader: &mut Reader,
        most_reads: usize,
        out: &mut Window,
    ) -> Halt
        requires open { IsOpen self.old }
        requires going { IsGoing self.old.request.method self.old.answers reader.old }
        requires about { self.old.request ≡ request.now }
        requires some { 0 < most_reads }
        requires few { most_reads ≤ 64 }
        ensures line { IsLine L.history L.asked L.token_of self.new }
        ensures turn { ServesTo most_reads self.old self.new result reader.new }
        ensures handed { ReadsOn reader.old reader.new out.old.items out.new.items }
    {
        self.serve_into(request, reader, most_reads, &mut [0; READ_BYTES], out)
    }

    /// One turn, with at most so many reads, of which there are 1 to 64: it connects, writes the request and reads the response, as far as
    /// the link goes. It uses the kept buffer, which it makes at first; where memory for that is refused, it uses one of this turn. Content
    /// that is handed on is added to `out`.
    pub fn serve(
        &mut self,
        request: &Request,
        reader: &mut Reader,
        most_reads: usize,
        kept: &mut ReadBuffer,
        out: &mut Window,
    ) -> Halt
        requires open { IsOpen self.old }
        requires going { IsGoing self.old.request.method self.old.answers reader.old }
        requires about { self.old.request ≡ request.now }
        requires some { 0 < most_reads }
        requires few { most_reads ≤ 64 }
        ensures line { IsLine L.history L.asked L.token_of self.new }
        ensures turn { ServesTo most_reads self.old self.new result reader.new }
        ensures handed { ReadsOn reader.old reader.new out.old.items out.new.items }
    {
        if kept.make() {
            return self.serve_into(request, reader, most_reads, kept.bytes.as_mut_slice(), out);
        }
        self.serve_bufferless(request, reader, most_reads, out)
    }
}
