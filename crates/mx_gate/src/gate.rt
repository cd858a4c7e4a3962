//! The trait that every gate has.
ghost use Rattle.std.specs.Prelude.{◌≡◌, ◌≤◌, ℕ, List, true, [], ◌∷◌, ◌++◌, IfOk, IfErr};
ghost use Rattle.mx_types.specs.Code.{is_link_code};

use mx_link::Link;
use mx_request::Endpoint;
use mx_types::Code;

/// Whether a worker goes on.
#[derive(Clone, Copy, PartialEq, Eq)]
pub enum Turn {
    Continue,
    /// The worker is to take no more work.
    Stop,
}

// rule gate-log
/// What a worker needs of the outside: a clock, links, and a place to wait.
pub trait Gate {
    type Link: Link;

    ghost use Rattle.mx_gate.specs.Said.{Said as OneSaid, told, asked, opened, lacked, waited, numbered, is_stop};

    // All that it was asked so far and what it answered, in order.
    ghost said: { Self → List OneSaid };

    // The latest moment that was given, 0 before the first.
    ghost latest: { Self → ℕ };

    /// The moment, in milliseconds since a start of the gate's own choice. Moments never fall.
    fn now(&mut self) -> u64
        ensures told { result ≡ latest self.new }
        ensures rises { latest self.old ≤ latest self.new }
        ensures noted { said self.new ≡ said self.old ++ told result ∷ [] };

    /// Whether a link to the endpoint can be opened now. One that can't be yet is to be asked for again: a gate may have to look its name up
    /// first, or open a few links at a time.
    fn can_open(&mut self, endpoint: &Endpoint) -> bool
        ensures moment { latest self.new ≡ latest self.old }
        ensures noted { said self.new ≡ said self.old ++ asked endpoint.now result ∷ [] };

    /// A link to the endpoint that has answered nothing yet. It may still be connecting.
    ///
    /// The errors are `CouldntResolveHost`, `CouldntConnect` and `OutOfMemory`.
    fn open(&mut self, endpoint: &Endpoint) -> Result<Self::Link, Code>
        ensures fresh { IfOk result (λ link. Self.Link.history link ≡ []) }
        ensures code { IfErr result (λ code. is_link_code code ≡ true) }
        ensures moment { latest self.new ≡ latest self.old }
        ensures noted { said self.new ≡ said self.old ++ opened endpoint.now (numbered Self.Link.token_of result) ∷ [] };

    /// Whether a link couldn't be opened, since this was asked last, because as many files are open as may be: then one may be opened once
    /// some links are dropped. A gate may say so for a link of another worker, too. No clause says that it is so.
    fn lacks_files(&mut self) -> bool
        ensures moment { latest self.new ≡ latest self.old }
        ensures noted { said self.new ≡ said self.old ++ lacked result ∷ [] };

    /// Waits until a link may have become ready, or the worker is to look at something else, and at most `wait_ms` milliseconds.
    fn turn(&mut self, wait_ms: u32) -> Turn
        ensures moment { latest self.new ≡ latest self.old }
        ensures noted { said self.new ≡ said self.old ++ waited wait_ms (is_stop result) ∷ [] };
}
