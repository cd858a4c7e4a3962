//! The input of a run.
use std::io::Read;

/// A read failed, or was one more than are allowed.
#[derive(Clone, Copy)]
pub struct ReadFailed;

/// A reader whose reads are counted. Once a read failed, each further one fails too and reads nothing.
#[derive(Drop)]
pub struct Input<R> {
    reader: R,
    reads: u64,
    most: u64,
    failed: bool,
}

impl<R: Read> Input<R> {
    ghost use Rattle.std.specs.Prelude.{◌≡◌, ◌+◌, ◌<◌, ◌≤◌, true, false, Ok, IsErr, IfOk, IsOk, OnOk, OnErr, ◌↔◌, ◌⊎◌};
    ghost use Rattle.std.specs.Io.{ReadsAtMost};
    ghost use Rattle.std.specs.Io.KnownBytes.{ReadConsumes};
    ghost use Rattle.mx_run_io.specs.Ends.{reader_of, reads_of, most_reads_of, has_failed_read};

    /// The input of a run that may read so often.
    pub fn new(reader: R, most: u64) -> Input<R>
        ensures reader { reader_of result ≡ reader }
        ensures reads { reads_of result ≡ 0 }
        ensures most { most_reads_of result ≡ most }
        ensures failed { has_failed_read result ≡ false }
    {
        Input {
            reader,
            reads: 0,
            most,
            failed: false,
        }
    }

    // An interrupted read is such an error: the program installs no signal handlers.
    // No clause says that nothing else fails the input: std's `Read` has no clause on when a read fails.
    /// Reads once. An error, and a read past the count allowed, fail the input for good.
    pub fn read(&mut self, buffer: &mut [u8]) -> Result<usize, ReadFailed>
        ensures bound { ReadsAtMost result buffer.new }
        ensures bytes { ReadConsumes (R.remaining (reader_of self.old)) (R.remaining (reader_of self.new))
            result buffer.new }
        ensures counted { OnOk result (reads_of self.new ≡ reads_of self.old + 1) }
        ensures limited { OnOk result (reads_of self.new ≤ most_reads_of self.old) }
        ensures at_least { reads_of self.old ≤ reads_of self.new }
        ensures at_most { reads_of self.new ≤ reads_of self.old + 1 }
        ensures most { most_reads_of self.new ≡ most_reads_of self.old }
        ensures failed { IsErr result ↔ (has_failed_read self.new ≡ true) }
        ensures asked { OnErr result ((has_failed_read self.old ≡ true)
            ⊎ ((most_reads_of self.old ≤ reads_of self.old) ⊎ (reads_of self.new ≡ reads_of self.old + 1))) }
        ensures stays { has_failed_read self.old ≡ true → self.new ≡ self.old }
    {
        if self.failed || self.reads >= self.most {
            self.failed = true;
            return Err(ReadFailed);
        }
        self.reads += 1;
        let count = self.reader.read(buffer);
        self.note(count)
    }

    // an error of the reader fails the input for good
    fn note<E: Drop>(&mut self, count: Result<usize, E>) -> Result<usize, ReadFailed>
        ensures count { IfOk count (λ n. (result ≡ Ok n) × (self.new ≡ self.old)) }
        ensures error { OnErr count (IsErr result × (self.new ≡ record self.old { failed = true })) }
    {
        match count {
            Ok(n) => Ok(n),
            Err(_) => {
                self.failed = true;
                Err(ReadFailed)
            }
        }
    }

    /// Fails the input for good where the reads allowed are used up, as one more read does.
    pub fn stop(&mut self)
        ensures reader { reader_of self.new ≡ reader_of self.old }
        ensures reads { reads_of self.new ≡ reads_of self.old }
        ensures most { most_reads_of self.new ≡ most_reads_of self.old }
        ensures failed { most_reads_of self.old ≤ reads_of self.old → has_failed_read self.new ≡ true }
        ensures stays { reads_of self.old < most_reads_of self.old → self.new ≡ self.old }
    {
        if self.reads >= self.most {
            self.failed = true;
        }
    }
}
