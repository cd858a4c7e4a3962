//! What becomes of the body of a response.
ghost use Rattle.std.specs.Prelude.{◌≡◌, ◌<◌, ◌≤◌};
ghost use Rattle.mx_reader.specs.Readers.{IsReader, first_reader};
ghost use Rattle.mx_exchange.specs.Stages.{limit_by};
ghost use Rattle.mx_exchange.specs.Turns.{most_turn_reads};

use mx_reader::Reader;
use mx_types::Method;
use std::alloc::Global;

/// Whether the response is held, or its content is handed on as it comes.
#[derive(Clone, Copy)]
pub(crate) enum Handling {
    /// All its bytes are held.
    Held,
    /// The content is handed on, of at most so many bytes, if there is a limit.
    Flowing(Option<u64>),
}

impl Handling {
    /// The reader of the response to a request of that method.
    pub(crate) fn reader(self, alloc: Global, method: Method) -> Reader
        ensures begins { result ≡ first_reader method (limit_by self) }
        ensures exact { IsReader result }
    {
        match self {
            Handling::Held => Reader::holding(alloc, method),
            Handling::Flowing(most_bytes) => Reader::flowing(alloc, method, most_bytes),
        }
    }

    // rule exchange-turn-limits
    /// The most reads of one turn.
    pub(crate) fn most_reads(self) -> usize
        ensures most { result ≡ most_turn_reads (limit_by self) }
        ensures some { 0 < result }
        ensures few { result ≤ 64 }
    {
        match self {
            Handling::Held => 64,
            Handling::Flowing(_) => 16,
        }
    }
}
