//! A sink that writes to a part.
ghost use Rattle.std.specs.Prelude.{◌≡◌, ◌<◌, ◌≤◌, true, [], ◌++◌, length, Some, None, option_map, if◌then◌else◌, IfOk, IfErr, OnOk, OnErr};
ghost use Rattle.mx_folder.specs.declared.errors.FolderError.{FolderError as Why};
ghost use Rattle.mx_folder.specs.Parts.{empty_part};
ghost use Rattle.mx_sink.specs.Sinks.{taken};
ghost use Rattle.mx_save.specs.PartSinks.{got_of, empty_sink, most_gathered, part_of, part_with, told_as, IsUnfinished, IsAsItWas};

use crate::write::{append_until, told_as};
use mx_folder::{FolderError, PartFile};
use mx_sink::{Sink, SinkError};
use std::alloc::Global;
use std::marker::Model;

// How many bytes are gathered at most.
const GATHERED: usize = 65_536;

/// A sink that writes to a part of a folder. It gathers small pieces, so that the part gets fewer writes: at most 65,536 of the bytes that it
/// took aren't written yet ([`know`](PartSink::know)). No clause says how many writes there are.
///
/// It always has room, and a `put` fails only if the part refuses a write. Once a write is refused, each further `put` fails with the same code,
/// and nothing more is written. [`finish`](PartSink::finish) writes what is gathered; a sink that is dropped doesn't.
#[derive(Drop)]
pub struct PartSink<P: PartFile> {
    part: P,
    buffer: Vec<u8>,
    // How many bytes of the buffer are written: none until a write is refused.
    start: usize,
    failure: Option<FolderError>,
}

impl<P: PartFile> Model for PartSink<P> {
    ghost use Rattle.std.specs.Prelude.{◌≡◌, ◌≤◌, false, drop, length};
    ghost use Rattle.mx_save.specs.PartSinks.{PartSinkValue, most_gathered, refused_by};

    ghost Value = { PartSinkValue };

    ghost view = { λ s. record {
      name = (P.value s.part).name;
      written = (P.value s.part).bytes;
      gathered = drop s.start s.buffer.items;
      failure = s.failure;
    } };

    ghost invariant = { λ s. record {
      within : s.start ≤ length s.buffer.items;
      few : length s.buffer.items ≤ most_gathered;
      unflushed : (P.value s.part).flushed ≡ false;
      refused : (P.value s.part).refused ≡ refused_by s.failure;
    } };
}

/// A part that refused a write, and why. The part is to be removed.
#[derive(Drop)]
pub struct Unfinished<P> {
    /// The part, which has a prefix of the bytes that its sink took.
    pub part: P,
    /// Why the part refused a write.
    pub error: FolderError,
}

impl<P: PartFile> PartSink<P> {
    /// A sink for a new part, which is empty.
    pub fn new(alloc: Global, part: P) -> PartSink<P>
        requires { P.value part ≡ empty_part (P.value part).name }
        ensures { result ≡ empty_sink (P.value part).name }
    {
        PartSink {
            part,
            buffer: Vec::new(alloc),
            start: 0,
            failure: None,
        }
    }

    /// What holds of every sink. It does nothing: a call gives its caller's proof the law.
    pub fn know(&self)
        ensures { length self.now.gathered ≤ most_gathered }
    {
        // proof: what holds of a sink
        let _start = self.start;
    }

    // Gathers a piece if there is room and memory for it. Returns whether it did.
    fn hold(&mut self, bytes: &[u8]) -> bool
        ensures { self.new ≡ (if result then record self.old { gathered = self.old.gathered ++ bytes.now } else self.old) }
    {
        let left = GATHERED.saturating_sub(self.buffer.len());
        if bytes.len() >= GATHERED || bytes.len() > left {
            return false;
        }
        self.buffer.extend_from_slice(bytes).is_ok()
    }

    // Writes the gathered bytes.
    fn drain(&mut self) -> Result<(), SinkError>
        requires { self.old.failure ≡ None }
        ensures name { self.new.name ≡ self.old.name }
        ensures got { got_of self.new ≡ got_of self.old }
        ensures all { OnOk result (self.new.gathered ≡ []) }
        ensures sound { OnOk result (self.new.failure ≡ None) }
        ensures why { IfErr result (λ e. option_map told_as self.new.failure ≡ Some e) }
    {
        let (written, failure) = append_until(&mut self.part, &self.buffer[self.start..]);
        self.failure = failure;
        match failure {
            None => {
                self.buffer.clear();
                self.start = 0;
                Ok(())
            }
            Some(error) => {
                self.start += written;
                Err(told_as(error))
            }
        }
    }

    // Writes a prefix of these bytes, where none are gathered. Returns how many it wrote.
    fn write(&mut self, bytes: &[u8]) -> Result<usize, SinkError>
        requires sound { self.old.failure ≡ None }
        requires none { self.old.gathered ≡ [] }
        requires some { 0 < length bytes.now }
        ensures new { OnOk result (self.new ≡ record self.old { written = self.old.written ++ taken result bytes.now }) }
        ensures same { OnErr result (self.new ≡ record self.old { failure = self.new.failure }) }
        ensures why { IfErr result (λ e. option_map told_as self.new.failure ≡ Some e) }
        ensures within { IfOk result (λ n. n ≤ length bytes.now) }
        ensures some { IfOk result (λ n. 0 < n) }
    {
        match self.part.append(bytes) {
            Ok(n) => Ok(n),
            Err(error) => {
                self.failure = Some(error);
                Err(told_as(error))
            }
        }
    }

    // Writes the gathered bytes, unless a write was refused before.
    fn close(&mut self)
        ensures name { self.new.name ≡ self.old.name }
        ensures got { got_of self.new ≡ got_of self.old }
        ensures all { self.new.failure ≡ None → self.new.gathered ≡ [] }
        ensures sound { self.new.failure ≡ None → self.old.failure ≡ None }
        ensures failed { (before : Why) → self.old.failure ≡ Some before → self.new ≡ self.old }
    {
        if self.failure.is_none() {
            let _told = self.drain();
        }
    }

    /// The part as it is, for a part that is to be removed: the gathered bytes are dropped.
    pub fn into_part(self) -> P
        ensures { P.value result ≡ part_of self }
    {
        self.part
    }

    // The part, and why a write of it was refused, if one was.
    fn into_answer(self) -> Result<P, Unfinished<P>>
        ensures sound { IfOk result (λ part. (P.value part ≡ part_of self) × (self.failure ≡ None)) }
        ensures failed { IfErr result (λ e. (P.value e.part ≡ part_of self) × (self.failure ≡ Some e.error)) }
    {
        let PartSink { part, failure, .. } = self;
        match failure {
            None => Ok(part),
            Some(error) => Err(Unfinished { part, error }),
        }
    }

    /// Writes the gathered bytes, and returns the part, which then has all bytes that the sink took. The part isn't flushed.
    ///
    /// Fails if the part refuses a write. It also fails if the part refused one before, with the same error, and then writes nothing. The error
    /// has the part, which has a prefix of the bytes that the sink took.
    pub fn finish(mut self) -> Result<P, Unfinished<P>>
        ensures whole { IfOk result (λ part. P.value part ≡ part_with self.name (got_of self) None) }
        ensures sound { OnOk result (self.failure ≡ None) }
        ensures refused { IfErr result (λ e. IsUnfinished self e.error (P.value e.part)) }
        ensures before { IfErr result (λ e. IsAsItWas self e.error (P.value e.part)) }
    {
        self.close();
        self.into_answer()
    }
}

impl<P: PartFile> Sink for PartSink<P> {
    ghost got = { λ s. got_of s };

    ghost room = { λ s. true };

    ghost target = { λ s. s.name };

    fn has_room(&mut self) -> bool
        ensures room { result ≡ true }
        ensures same { self.new ≡ self.old }
    {
        true
    }

    /// Takes a prefix of the bytes: all of them if they are gathered, and else as many as one write takes.
    fn put(&mut self, bytes: &[u8]) -> Result<usize, SinkError>
        requires { 0 < length bytes.now }
        ensures got { got_of self.new ≡ got_of self.old ++ taken result bytes.now }
        ensures within { IfOk result (λ n. n ≤ length bytes.now) }
        ensures some { IfOk result (λ n. 0 < n) }
        ensures target { self.new.name ≡ self.old.name }
        ensures sound { OnOk result ((self.old.failure ≡ None) × (self.new.failure ≡ None)) }
        ensures refused { IfErr result (λ e. option_map told_as self.new.failure ≡ Some e) }
        ensures failed { (before : Why) → self.old.failure ≡ Some before → self.new ≡ self.old }
    {
        if let Some(error) = self.failure {
            return Err(told_as(error));
        }
        if self.hold(bytes) {
            return Ok(bytes.len());
        }
        self.drain()?;
        if self.hold(bytes) {
            return Ok(bytes.len());
        }
        self.write(bytes)
    }
}
