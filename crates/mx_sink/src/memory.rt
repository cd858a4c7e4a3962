//! A sink in memory.
ghost use Rattle.std.specs.Prelude.{◌≡◌, ◌≤◌, ◌-◌, [], ◌++◌, length, min, nat_lt, IfOk};
ghost use Rattle.mx_sink.specs.Sinks.{taken};

use crate::error::SinkError;
use crate::sink::Sink;
use std::alloc::Global;
use std::marker::Model;

/// A sink in memory, for a caller that wants the content of a body as bytes. It has room until it has as many bytes as it may. Where memory
/// for more is refused, `put` fails with [`SinkError::OutOfMemory`] and takes none; it may be called again.
#[derive(Drop)]
pub struct MemorySink {
    bytes: Vec<u8>,
    most: usize,
}

impl Model for MemorySink {
    ghost use Rattle.std.specs.Prelude.{◌≤◌, length};
    ghost use Rattle.mx_sink.specs.Sinks.{MemorySinkValue};

    ghost Value = { MemorySinkValue };

    ghost view = { λ s. record { got = s.bytes.items; most = s.most } };

    ghost invariant = { λ s. length s.bytes.items ≤ s.most };
}

impl MemorySink {
    /// An empty sink, which takes at most `most` bytes.
    pub fn new(alloc: Global, most: usize) -> MemorySink
        ensures { result ≡ record { got = []; most = most } }
    {
        MemorySink {
            bytes: Vec::new(alloc),
            most,
        }
    }

    /// The bytes that it took so far, in order.
    pub fn as_slice(&self) -> &[u8]
        ensures { result.now ≡ self.now.got }
    {
        self.bytes.as_slice()
    }

    /// The bytes that it took, in order, by move.
    pub fn into_bytes(self) -> Vec<u8>
        ensures bytes { result.items ≡ self.got }
        ensures few { length result.items ≤ self.most }
    {
        self.bytes
    }
}

impl Sink for MemorySink {
    ghost got = { λ s. s.got };

    ghost room = { λ s. nat_lt (length s.got) s.most };

    ghost target = { λ s. [] };

    fn has_room(&mut self) -> bool
        ensures room { result ≡ nat_lt (length self.new.got) self.new.most }
        ensures same { self.new ≡ self.old }
    {
        self.bytes.len() < self.most
    }

    /// Takes as many of the bytes, from the front, as it may.
    fn put(&mut self, bytes: &[u8]) -> Result<usize, SinkError>
        ensures new { self.new ≡ record self.old { got = self.old.got ++ taken result bytes.now } }
        ensures most { IfOk result (λ n. n ≡ min (length bytes.now) (self.old.most - length self.old.got)) }
    {
        let left = self.most - self.bytes.len();
        let n = bytes.len().min(left);
        if self.bytes.extend_from_slice(&bytes[..n]).is_err() {
            return Err(SinkError::OutOfMemory);
        }
        Ok(n)
    }
}
