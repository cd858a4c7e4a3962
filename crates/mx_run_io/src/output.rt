//! The output of a run.
use std::fmt::Display;
use std::io::Write;

// rule program-unwritten
/// The exit status where the output couldn't be written.
pub const UNWRITTEN: u8 = 121;

/// A write failed.
#[derive(Clone, Copy)]
pub struct WriteFailed;

/// A writer that remembers whether a write failed, and whether something was written since it was last flushed.
/// Once a write failed, each further one fails too and writes nothing.
#[derive(Drop)]
pub struct Output<W> {
    writer: W,
    failed: bool,
    pending: bool,
}

impl<W: Write> Output<W> {
    ghost use Rattle.std.specs.Prelude.{◌≡◌, ◌≢◌, true, false, Ok, IsOk, IsErr, IfOk, OnOk, OnErr, IfSome, ◌↔◌};
    ghost use Rattle.std.specs.Io.KnownBytes.{Keeps};
    ghost use Rattle.mx_run_io.specs.Ends.{writer_of, has_failed_write, is_pending, Wrote, EndsRun};

    /// The output of a run.
    pub fn new(writer: W) -> Output<W>
        ensures writer { writer_of result ≡ writer }
        ensures failed { has_failed_write result ≡ false }
        ensures pending { is_pending result ≡ false }
    {
        Output {
            writer,
            failed: false,
            pending: false,
        }
    }

    /// Writes all of the bytes.
    pub fn write_all(&mut self, bytes: &[u8]) -> Result<(), WriteFailed>
        ensures bytes { OnOk result (Wrote W.contents self.old self.new bytes.now) }
        ensures failed { IsErr result ↔ (has_failed_write self.new ≡ true) }
        ensures pending { OnOk result (is_pending self.new ≡ true) }
        ensures stays { has_failed_write self.old ≡ true → self.new ≡ self.old }
    {
        if self.failed {
            return Err(WriteFailed);
        }
        self.pending = true;
        let written = self.writer.write_all(bytes);
        self.note(written)
    }

    /// Writes a text.
    pub fn print<D: Display + Drop>(&mut self, text: D) -> Result<(), WriteFailed>
        ensures bytes { OnOk result (IfSome (D.output text) (Wrote W.contents self.old self.new)) }
        ensures failed { IsErr result ↔ (has_failed_write self.new ≡ true) }
        ensures pending { OnOk result (is_pending self.new ≡ true) }
        ensures stays { has_failed_write self.old ≡ true → self.new ≡ self.old }
    {
        if self.failed {
            return Err(WriteFailed);
        }
        self.pending = true;
        let written = self.writer.write_fmt(text);
        self.note(written)
    }

    /// Flushes what the writer still keeps.
    pub fn flush(&mut self) -> Result<(), WriteFailed>
        ensures bytes { OnOk result (Keeps (W.contents (writer_of self.old)) (W.contents (writer_of self.new))) }
        ensures flushed { OnOk result (is_pending self.new ≡ false) }
        ensures failed { IsErr result ↔ (has_failed_write self.new ≡ true) }
        ensures stays { has_failed_write self.old ≡ true → self.new ≡ self.old }
    {
        if self.failed {
            return Err(WriteFailed);
        }
        let flushed = self.writer.flush();
        self.pending = self.pending && flushed.is_err();
        self.note(flushed)
    }

    // rule program-unwritten
    /// Ends a run: flushes, and answers the exit status, or `UNWRITTEN` where the output couldn't be written. The
    /// status handed in is another than that, or the error of a write that failed.
    pub fn end(&mut self, status: Result<u8, WriteFailed>) -> u8
        requires status { IfOk status (λ s. s ≢ UNWRITTEN) }
        requires failed { IsErr status → has_failed_write self.old ≡ true }
        ensures ends { EndsRun self.new result }
        ensures status { has_failed_write self.new ≢ true → status ≡ Ok result }
        ensures bytes { has_failed_write self.new ≢ true → Keeps (W.contents (writer_of self.old)) (W.contents (writer_of self.new)) }
        ensures stays { has_failed_write self.old ≡ true → self.new ≡ self.old }
    {
        match status {
            Ok(status) if self.flush().is_ok() => status,
            _ => UNWRITTEN,
        }
    }

    // an error of the writer fails the output for good
    fn note<E: Drop>(&mut self, done: Result<(), E>) -> Result<(), WriteFailed>
        ensures done { OnOk done (IsOk result × (self.new ≡ self.old)) }
        ensures error { OnErr done (IsErr result × (self.new ≡ record self.old { failed = true })) }
    {
        match done {
            Ok(()) => Ok(()),
            Err(_) => {
                self.failed = true;
                Err(WriteFailed)
            }
        }
    }
}
