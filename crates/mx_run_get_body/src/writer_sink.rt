//! A sink that writes to a writer.
ghost use Rattle.std.specs.Prelude.{◌≡◌, true, false, [], ◌++◌, OnOk, OnErr};
ghost use Rattle.mx_run_io.specs.Ends.{has_failed_write, is_pending};
ghost use Rattle.mx_run_get_body.specs.Bodies.{IsTrue};

use mx_run_io::{Output, WriteFailed};
use mx_sink::{Sink, SinkError};
use mx_types::History;
use std::io::Write;
use std::marker::Model;
use std::snapshot::Snapshot;

// Notes bytes, for contracts alone.
fn note_all(got: &mut History<u8>, bytes: &[u8])
    ensures { got.new ≡ got.old ++ bytes.now }
{
    for byte in bytes {
        got.note(*byte);
    }
}

/// A sink that writes each piece to an output, all of it at once. It always has room. Once a write failed each further piece is refused, too.
///
/// Unless one failed, its output has had exactly what it got since it was begun, as far as std knows what the writer holds.
#[derive(Drop)]
pub struct WriterSink<W: Write + Drop> {
    output: Output<W>,
    begun: Snapshot<Output<W>>,
    got: History<u8>,
}

impl<W: Write + Drop> Model for WriterSink<W> {
    ghost use Rattle.mx_run_get_body.specs.Bodies.{WriterSinkValue, IsTrue};

    ghost Value = { WriterSinkValue W };

    ghost view = { λ s. record { output = s.output; begun = s.begun.value; got = s.got } };

    ghost invariant = { λ s. IsTrue W.contents (record { output = s.output; begun = s.begun.value; got = s.got }) };
}

impl<W: Write + Drop> WriterSink<W> {
    /// A sink that has got nothing yet.
    pub fn new(output: Output<W>) -> WriterSink<W>
        ensures { result ≡ record { output = output; begun = output; got = [] } }
    {
        WriterSink {
            begun: Snapshot::of(&output),
            output,
            got: History::new(),
        }
    }

    /// What holds of every such sink. It does nothing: a call gives its caller's proof the law.
    pub fn know(&self)
        ensures { IsTrue W.contents self.now }
    {
        // proof: what holds of the sink
        let _output = &self.output;
    }

    /// Flushes the output. An error is that of an earlier write, too.
    pub fn flush(&mut self) -> Result<(), WriteFailed>
        ensures flushed { OnOk result ((has_failed_write self.new.output ≡ false) × (is_pending self.new.output ≡ false)) }
        ensures failed { OnErr result (has_failed_write self.new.output ≡ true) }
        ensures same { (self.new.begun ≡ self.old.begun) × (self.new.got ≡ self.old.got) }
    {
        self.output.flush()
    }

    /// The output, by move.
    pub fn into_output(self) -> Output<W>
        ensures { result ≡ self.output }
    {
        let WriterSink { output, begun, got } = self;
        drop(begun);
        drop(got);
        output
    }
}

impl<W: Write + Drop> Sink for WriterSink<W> {
    ghost got = { λ s. s.got };

    ghost room = { λ s. true };

    ghost target = { λ s. [] };

    fn has_room(&mut self) -> bool {
        true
    }

    fn put(&mut self, bytes: &[u8]) -> Result<usize, SinkError> {
        if self.output.write_all(bytes).is_err() {
            return Err(SinkError::WriteError);
        }
        note_all(&mut self.got, bytes);
        Ok(bytes.len())
    }
}
