//! Lists for contracts alone, the newest first.
ghost use Rattle.std.specs.Prelude.{◌≡◌, [], ◌∷◌, ◌++◌};

use mx_types::History;
use std::marker::Model;

/// A list of what came so far, the newest first, for contracts alone. It has no bytes, so a running program keeps nothing.
#[derive(Drop)]
pub struct Past<T> {
    all: History<T>,
}

impl<T> Model for Past<T> {
    ghost use Rattle.std.specs.Prelude.{List, reverse};

    ghost Value = { List T };

    ghost view = { λ p. reverse p.all };
}

impl<T: Drop> Past<T> {
    /// Nothing yet.
    pub fn new() -> Past<T>
        ensures { result ≡ [] }
    {
        Past {
            all: History::new(),
        }
    }

    /// Adds what came next.
    pub fn note(&mut self, next: T)
        ensures { self.new ≡ next ∷ self.old }
    {
        self.all.note(next);
    }
}

// Adds bytes in their order.
pub(crate) fn note_all(all: &mut History<u8>, bytes: &[u8])
    ensures { all.new ≡ all.old ++ bytes.now }
{
    for byte in bytes {
        all.note(*byte);
    }
}

/// These bytes, for contracts alone.
pub fn bytes_of(bytes: &[u8]) -> Past<u8>
    ensures { result ≡ bytes.now }
{
    let mut all = Past::new();
    let mut left = bytes.len();
    while left > 0 {
        left -= 1;
        all.note(bytes[left]);
    }
    all
}
