//! The trait that every sink has.
ghost use Rattle.std.specs.Prelude.{◌≡◌, ◌<◌, ◌≤◌, ℕ, Bool, true, List, ◌++◌, length, IfOk};
ghost use Rattle.mx_sink.specs.Sinks.{taken};

use crate::error::SinkError;

/// Where the content of one body goes as it comes: a file, memory, another thread. Where its room depends on the outside, `room` is what the
/// sink last saw.
pub trait Sink: Drop {
    /// The bytes that it took so far, in order.
    ghost got: { Self → List ℕ };

    /// Whether it takes bytes now.
    ghost room: { Self → Bool };

    /// What it was made for, which no call changes: of a file, its name.
    ghost target: { Self → List ℕ };

    /// Whether it takes bytes now, so that a transfer whose sink takes none can be paused. It may look outside: whether a pipe takes
    /// bytes, say.
    fn has_room(&mut self) -> bool
        ensures room { result ≡ room self.new }
        ensures same { (got self.new ≡ got self.old) × (target self.new ≡ target self.old) };

    /// Takes a prefix of `bytes`, which isn't empty. The answer is how many: at least one where it has room. An error takes none.
    fn put(&mut self, bytes: &[u8]) -> Result<usize, SinkError>
        requires { 0 < length bytes.now }
        ensures got { got self.new ≡ got self.old ++ taken result bytes.now }
        ensures within { IfOk result (λ n. n ≤ length bytes.now) }
        ensures some { room self.old ≡ true → IfOk result (λ n. 0 < n) }
        ensures target { target self.new ≡ target self.old };
}
