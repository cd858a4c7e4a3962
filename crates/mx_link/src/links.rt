//! The trait that every link has.
ghost use Rattle.std.specs.Prelude.{◌≡◌, ◌<◌, ◌-◌, ◌^◌, ℕ, List, [], ◌∷◌, ◌++◌, length, min};

use crate::answers::{Connect, Read, Write};

/// A connection whose calls never wait. All that is known of a link follows from its history, the list of its answers so far, and from how
/// much it was asked for at each.
pub trait Link: Drop {
    ghost use Rattle.mx_link.specs.declared.answers.Answer.{Answer};
    ghost use Rattle.mx_link.specs.Answers.{faults};
    ghost use Rattle.mx_link.specs.Calls.{connect_answer, read_answer, write_answer, IsReadWithin, IsWriteWithin};

    // Its answers so far, in order.
    ghost history: { Self → List Answer };

    // How many bytes it was asked for at each of its answers: as many as the buffer of a read had room for, as many
    // as a write was offered, and none where it was asked whether the connection is made.
    ghost asked: { Self → List ℕ };

    // The number under which its readiness is reported.
    ghost token_of: { Self → ℕ };

    /// Whether the connection is made.
    fn try_connect(&mut self) -> Connect
        ensures told { history self.new ≡ history self.old ++ connect_answer result ∷ [] }
        ensures asked { asked self.new ≡ asked self.old ++ 0 ∷ [] }
        ensures token { token_of self.new ≡ token_of self.old };

    // rule link-counts
    /// Reads what is there into the front of `buffer`, which isn't empty: at least one byte. After the bytes read the buffer may have
    /// changed.
    fn try_read(&mut self, buffer: &mut [u8]) -> Read
        requires { 0 < length buffer.old }
        ensures told { history self.new ≡ history self.old ++ read_answer result buffer.new ∷ [] }
        ensures asked { asked self.new ≡ asked self.old ++ length buffer.new ∷ [] }
        ensures within { IsReadWithin result (length buffer.new) }
        ensures length { length buffer.new ≡ length buffer.old }
        ensures token { token_of self.new ≡ token_of self.old };

    // rule link-counts
    /// Writes what there is room for of `bytes`, which isn't empty: at least one byte.
    fn try_write(&mut self, bytes: &[u8]) -> Write
        requires { 0 < length bytes.now }
        ensures told { history self.new ≡ history self.old ++ write_answer result bytes.now ∷ [] }
        ensures asked { asked self.new ≡ asked self.old ++ length bytes.now ∷ [] }
        ensures within { IsWriteWithin result (length bytes.now) }
        ensures token { token_of self.new ≡ token_of self.old };

    /// How many calls failed, held at 2^64 - 1.
    fn failures(&self) -> u64
        ensures { result ≡ min (faults (history self.now)) (2 ^ 64 - 1) };

    /// The number under which its readiness is reported.
    fn token(&self) -> u64
        ensures { result ≡ token_of self.now };
}
