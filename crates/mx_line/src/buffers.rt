//! The buffer of reads.
ghost use Rattle.std.specs.Prelude.{◌≡◌, IsTrue, length, vec_items};
ghost use Rattle.mx_line.specs.Order.{most_read};

use std::alloc::Global;

// rule exchange-call-sizes
/// The most bytes of one read.
pub(crate) const READ_BYTES: usize = 16_384;

/// What reads of a link go into. It is made at the first turn that calls a link, and kept, so that a turn that finds nothing doesn't pay for
/// it. Who polls many transfers lends each the same one for its poll.
pub struct ReadBuffer {
    pub(crate) bytes: Vec<u8>,
}

// Written out, and not derived: a crate that drops a buffer cites its proof.
impl Drop for ReadBuffer {
    fn drop(self) {
        let ReadBuffer { bytes } = self;
        drop(bytes);
    }
}

impl ReadBuffer {
    /// None yet: it takes no memory.
    pub fn new(alloc: Global) -> ReadBuffer {
        ReadBuffer {
            bytes: Vec::new(alloc),
        }
    }

    /// Makes it, unless it is there. False where memory for it is refused.
    pub(crate) fn make(&mut self) -> bool
        ensures { IsTrue result → length (vec_items self.new.bytes) ≡ most_read }
    {
        self.bytes.len() == READ_BYTES || self.bytes.resize(READ_BYTES, 0).is_ok()
    }
}
